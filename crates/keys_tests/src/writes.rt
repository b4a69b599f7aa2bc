//! The message of each write, which texts are keys, and why the server refused a write.

use crate::messages::{places, same, says_at, text_of};
use bytes::Bytes;
use js_base::{Error, HeaderMap, OutOfMemory, Source, Text};
use js_message::OutboundMessage;
use js_store_keys::{
    KeyPlaces, WriteError, WriteRefusal, create, delete, is_valid_key, purge, put, refusal_of,
    update,
};
use std::alloc::Global;
use std::process::Abort;

/// A write to a key.
#[derive(Clone, Copy)]
enum Write {
    Put,
    Create,
    Update(u64),
    Delete,
    Purge,
}

/// A write, its key, and its message: the subject, the payload and the headers.
const MESSAGES: &[(Write, &str, &str)] = &[
    (Write::Put, "mode", "$KV.config.mode fast"),
    (
        Write::Create,
        "mode",
        "$KV.config.mode fast Nats-Expected-Last-Subject-Sequence: 0;",
    ),
    (
        Write::Update(7),
        "a.b",
        "$KV.config.a.b fast Nats-Expected-Last-Subject-Sequence: 7;",
    ),
    (Write::Delete, "mode", "$KV.config.mode  KV-Operation: DEL;"),
    (
        Write::Purge,
        "mode",
        "$KV.config.mode  KV-Operation: PURGE; Nats-Rollup: sub;",
    ),
    (Write::Put, "a*", "invalid key"),
    (Write::Purge, "", "invalid key"),
];

fn written(
    alloc: Global,
    places: &KeyPlaces,
    write: Write,
    key: &str,
) -> Result<OutboundMessage, WriteError> {
    let value = Bytes::from_static(b"fast");
    match write {
        Write::Put => put(alloc, places, key, value),
        Write::Create => create(alloc, places, key, value),
        Write::Update(revision) => update(alloc, places, key, value, revision),
        Write::Delete => delete(alloc, places, key),
        Write::Purge => purge(alloc, places, key),
    }
}

fn add_headers(alloc: Global, text: &mut String, headers: &HeaderMap) -> Result<(), OutOfMemory> {
    for (name, value) in headers.iter() {
        let line = format!(in alloc; " {name}: {value};")?;
        text.push_str(line.as_str())?;
    }
    Ok(())
}

fn message_text(alloc: Global, message: &OutboundMessage) -> Result<String, OutOfMemory> {
    let payload = text_of(alloc, message.payload.as_slice())?;
    let mut text = format!(in alloc; "{} {payload}", message.subject)?;
    if let Some(headers) = &message.headers {
        add_headers(alloc, &mut text, headers)?;
    }
    Ok(text)
}

// The text of a write's message, or what is printed of the refusal.
fn write_text(
    alloc: Global,
    places: &KeyPlaces,
    write: Write,
    key: &str,
) -> Result<String, OutOfMemory> {
    match written(alloc, places, write, key) {
        Ok(message) => {
            let text = message_text(alloc, &message);
            drop(message);
            text
        }
        Err(error) => Ok(format!(in alloc; "{error}")?),
    }
}

#[test]
fn a_write_is_one_message(rt: HostRuntime) {
    let places = places(rt.alloc()).expect(&rt, "places");
    for (place, &(write, key, wanted)) in MESSAGES.iter().enumerate() {
        says_at(
            &rt,
            place,
            write_text(rt.alloc(), &places, write, key),
            wanted,
        );
    }
    drop(places);
}

/// Texts, and whether each is a key.
const KEYS: &[(&str, bool)] = &[
    ("mode", true),
    ("a.b/c_d-e=F9", true),
    ("a..b", true),
    ("", false),
    (".a", false),
    ("a.", false),
    ("a b", false),
    ("a*", false),
    ("a.>", false),
    ("\u{e9}", false),
];

/// The revision that a write expected, the number of the server's error, what it says, and the refusal.
const REFUSALS: &[(u64, u64, &str, Option<WriteRefusal>)] = &[
    (
        0,
        10071,
        "wrong last sequence: 5",
        Some(WriteRefusal::AlreadyExists { last: Some(5) }),
    ),
    (
        3,
        10071,
        "wrong last sequence: 5",
        Some(WriteRefusal::WrongRevision { last: Some(5) }),
    ),
    (
        3,
        10164,
        "wrong last sequence",
        Some(WriteRefusal::WrongRevision { last: None }),
    ),
    (3, 10077, "maximum messages exceeded", None),
];

/// The refusal of a write that expected this revision, where the server's error has this number and this text.
pub(crate) fn refused(
    alloc: Global,
    expected: u64,
    err_code: u64,
    description: &str,
) -> Result<Option<WriteRefusal>, OutOfMemory> {
    let error = Error::with_source(
        (),
        Source::Api {
            code: 400,
            err_code,
            description: Some(Text::from_str(alloc, description)?),
        },
    );
    let refusal = refusal_of(expected, &error);
    drop(error);
    Ok(refusal)
}

#[test]
fn keys_and_refusals_are_told(rt: HostRuntime) {
    for &(key, wanted) in KEYS {
        same(&rt, key, is_valid_key(key), wanted);
    }
    for &(expected, number, text, wanted) in REFUSALS {
        same(
            &rt,
            text,
            refused(rt.alloc(), expected, number, text),
            Ok(wanted),
        );
    }
}
