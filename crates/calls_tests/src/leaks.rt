//! A request that is given up leaves nothing in its link.

use crate::server::{ended, scope, still};
use crate::tables::says;
use crate::words::{Words, numbered};
use js_base::OutOfMemory;
use js_call::ApiScope;
use js_link_outbox::OutboxLink;
use serde_json::Value;
use std::alloc::Global;

// What a request comes to that is sent at 0 and has 200 nanoseconds.
fn given_up(alloc: Global, link: &mut OutboxLink, scope: &ApiScope) -> Words {
    let call = scope.request(alloc, "INFO", &Value::Null)?;
    let call = still(alloc, link, call, 0);
    drop(link.next_outgoing());
    ended(alloc, link, call, 200)
}

// What the last of these requests comes to, and how many are open then.
fn left_open(alloc: Global, link: &mut OutboxLink, scope: &ApiScope, requests: u32) -> Words {
    for _ in 1..requests {
        drop(given_up(alloc, link, scope)?);
    }
    let last = given_up(alloc, link, scope)?;
    let words = numbered(alloc, last.as_str(), link.request_count() as u64);
    drop(last);
    words
}

fn left(alloc: Global, scope: &ApiScope, requests: u32) -> Words {
    match OutboxLink::new(alloc, "_INBOX", "t") {
        Err(_) => Err(OutOfMemory),
        Ok(mut link) => {
            let words = left_open(alloc, &mut link, scope, requests);
            drop(link);
            words
        }
    }
}

fn left_by(alloc: Global, requests: u32) -> Words {
    let scope = scope(alloc, "$JS.API", Some(200))?;
    let words = left(alloc, &scope, requests);
    drop(scope);
    words
}

#[test]
fn requests_that_are_given_up_leave_nothing(rt: HostRuntime) {
    let requests = 100_000;
    says(
        &rt,
        "given up",
        left_by(rt.alloc(), requests),
        "timed out 0",
    );
}
