//! What the calls on buckets send, for each thing that a bucket's configuration may have.

mod keys;
mod objects;
mod requests;

use crate::server::still;
use crate::stores::script::{Asked, Reply};
use crate::stores::server::{context, serving};
use crate::tables::{paired, says};
use crate::words::{Words, add_line, word};
use js_base::OutOfMemory;
use js_call::State;
use js_link::{ScriptedServer, Sent};
use keys::KEYS;
use objects::OBJECTS;
use std::alloc::Global;

// The last of these requests, with its body.
fn last(alloc: Global, sent: &[Sent]) -> Words {
    match sent.last() {
        Some(
            Sent::Request {
                subject,
                payload,
                ..
            },
        ) => {
            let body = String::from_utf8_lossy(alloc, payload.as_slice())?;
            paired(alloc, subject.as_str(), body.as_str())
        }
        _ => word(alloc, "nothing"),
    }
}

fn asked_of<S: State>(alloc: Global, server: &mut ScriptedServer, call: S) -> Words {
    let _call = still(alloc, server, call, 0);
    last(alloc, server.link().sent())
}

// The last request that the first poll of a call sends. The account that it may ask for first has an API of level 1, so that markers are asked for.
fn asked<S: State>(alloc: Global, call: Result<S, OutOfMemory>) -> Words {
    match call {
        Ok(call) => {
            let mut server = serving(alloc, &[(Asked::Account, Reply::Level1)])?;
            let request = asked_of(alloc, &mut server, call);
            drop(server);
            request
        }
        Err(OutOfMemory) => Err(OutOfMemory),
    }
}

// Adds a request.
fn add(lines: &mut String, request: Words) -> Result<(), OutOfMemory> {
    add_line(lines, request?.as_str())
}

#[test]
fn buckets_of_keys_send_these_bodies(rt: HostRuntime) {
    let context = context(&rt, rt.alloc(), "$JS.API").expect(&rt, "context");
    for &keys in KEYS {
        let told = keys.requests_text(rt.alloc(), &context);
        says(&rt, keys.bucket(), told, keys.requests());
    }
    drop(context);
}

#[test]
fn buckets_of_objects_send_these_bodies(rt: HostRuntime) {
    let context = context(&rt, rt.alloc(), "$JS.API").expect(&rt, "context");
    for &objects in OBJECTS {
        let told = objects.requests_text(rt.alloc(), &context);
        says(&rt, objects.bucket(), told, objects.requests());
    }
    drop(context);
}
