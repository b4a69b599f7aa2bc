//! The request for the last message of a key, and what its answer says.

use crate::messages::{Headers, places, received, says_at, text_of};
use crate::word;
use js_base::{Message, OutOfMemory, Text, both};
use js_store_keys::{Entry, GetError, GetRequest, KeyPlaces, KeyReads, get, read_answer};
use std::alloc::Global;
use std::process::Abort;

fn reads(alloc: Global, allow_direct: bool) -> Result<KeyReads, OutOfMemory> {
    let (api_prefix, stream_name) = both(
        Text::from_str(alloc, "$JS.API"),
        Text::from_str(alloc, "KV_config"),
    )?;
    Ok(KeyReads {
        api_prefix,
        stream_name,
        allow_direct,
    })
}

/// A key, whether direct gets are allowed, and the request: its subject and its body.
const REQUESTS: &[(&str, bool, &str)] = &[
    (
        "mode",
        true,
        "$JS.API.DIRECT.GET.KV_config.$KV.config.mode ",
    ),
    (
        "mode",
        false,
        "$JS.API.STREAM.MSG.GET.KV_config {\"last_by_subj\":\"$KV.config.mode\"}",
    ),
    ("a b", true, "invalid key"),
];

fn request_text(alloc: Global, request: &GetRequest) -> Result<String, OutOfMemory> {
    let body = text_of(alloc, request.payload.as_slice())?;
    Ok(format!(in alloc; "{} {body}", request.subject)?)
}

fn requested(
    alloc: Global,
    places: &KeyPlaces,
    allow_direct: bool,
    key: &str,
) -> Result<String, OutOfMemory> {
    let reads = reads(alloc, allow_direct)?;
    match get(alloc, places, &reads, key) {
        Ok(request) => request_text(alloc, &request),
        Err(error) => Ok(format!(in alloc; "{error}")?),
    }
}

/// A status, headers and a payload of a direct answer, and what it says.
const DIRECT: &[(Option<u16>, Headers, &str, &str)] = &[
    (
        None,
        &[
            ("Nats-Stream", "KV_config"),
            ("Nats-Subject", "$KV.config.mode"),
            ("Nats-Sequence", "7"),
            ("Nats-Time-Stamp", "2026-01-01T00:00:00Z"),
        ],
        "fast",
        "mode=fast 7 1767225600000000000 0",
    ),
    (
        None,
        &[
            ("Nats-Subject", "$KV.config.mode"),
            ("Nats-Sequence", "8"),
            ("Nats-Time-Stamp", "2026-01-01T00:00:00Z"),
        ],
        "",
        "mode= 8 1767225600000000000 0",
    ),
    (
        None,
        &[
            ("KV-Operation", "DEL"),
            ("Nats-Subject", "$KV.config.mode"),
            ("Nats-Sequence", "9"),
            ("Nats-Time-Stamp", "2026-01-01T00:00:00Z"),
        ],
        "",
        "none",
    ),
    (None, &[("Nats-Sequence", "9")], "fast", "unreadable answer"),
    (Some(404), &[], "", "none"),
    (Some(408), &[], "", "refused by the server"),
];

/// An answer of the API, and what it says.
const STREAM: &[(&str, &str)] = &[
    (
        "{\"type\":\"io.nats.jetstream.api.v1.stream_msg_get_response\",\"message\":{\"subject\":\"$KV.config.mode\",\"seq\":5,\"data\":\"ZmFzdA==\",\"time\":\"2026-01-01T00:00:00Z\"}}",
        "mode=fast 5 1767225600000000000 0",
    ),
    (
        "{\"message\":{\"subject\":\"$KV.config.mode\",\"seq\":6,\"hdrs\":\"TkFUUy8xLjANCk5hdHMtTXNnLUlkOiA3DQoNCg==\",\"time\":\"2026-01-01T00:00:00Z\"}}",
        "mode= 6 1767225600000000000 0",
    ),
    (
        "{\"message\":{\"subject\":\"$KV.config.mode\",\"seq\":7,\"hdrs\":\"TkFUUy8xLjANCktWLU9wZXJhdGlvbjogREVMDQoNCg==\",\"time\":\"2026-01-01T00:00:00Z\"}}",
        "none",
    ),
    (
        "{\"error\":{\"code\":404,\"err_code\":10037,\"description\":\"no message found\"}}",
        "none",
    ),
    (
        "{\"error\":{\"code\":404,\"err_code\":10059,\"description\":\"stream not found\"}}",
        "refused by the server",
    ),
    (
        "{\"error\":{\"code\":503,\"description\":\"unavailable\"}}",
        "refused by the server",
    ),
    ("{}", "unreadable answer"),
    ("", "unreadable answer"),
    ("-ERR", "unreadable answer"),
];

fn entry_text(alloc: Global, entry: &Entry) -> Result<String, OutOfMemory> {
    let value = text_of(alloc, entry.value.as_slice())?;
    let Entry {
        key,
        revision,
        created,
        delta,
        ..
    } = entry;
    Ok(format!(in alloc; "{key}={value} {revision} {created} {delta}")?)
}

fn answer_text(
    alloc: Global,
    answer: Result<Option<Entry>, GetError>,
) -> Result<String, OutOfMemory> {
    match answer {
        Ok(Some(entry)) => entry_text(alloc, &entry),
        Ok(None) => word(alloc, "none"),
        Err(error) => Ok(format!(in alloc; "{error}")?),
    }
}

fn read_text(
    alloc: Global,
    places: &KeyPlaces,
    allow_direct: bool,
    message: Message,
) -> Result<String, OutOfMemory> {
    let (reads, message) = both(reads(alloc, allow_direct), Ok(message))?;
    let answer = read_answer(alloc, places, &reads, "mode", message);
    drop(reads);
    answer_text(alloc, answer)
}

fn direct_answer_text(
    alloc: Global,
    places: &KeyPlaces,
    status: Option<u16>,
    headers: Headers,
    payload: &str,
) -> Result<String, OutOfMemory> {
    let message = received(alloc, "_INBOX.t1.1", None, status, headers, payload)?;
    read_text(alloc, places, true, message)
}

fn stream_answer_text(
    alloc: Global,
    places: &KeyPlaces,
    payload: &str,
) -> Result<String, OutOfMemory> {
    let message = received(alloc, "_INBOX.t1.1", None, None, &[], payload)?;
    read_text(alloc, places, false, message)
}

#[test]
fn a_key_is_asked_for(rt: HostRuntime) {
    let places = places(rt.alloc()).expect(&rt, "places");
    for (place, &(key, direct, wanted)) in REQUESTS.iter().enumerate() {
        says_at(
            &rt,
            place,
            requested(rt.alloc(), &places, direct, key),
            wanted,
        );
    }
    drop(places);
}

#[test]
fn answers_are_read(rt: HostRuntime) {
    let places = places(rt.alloc()).expect(&rt, "places");
    for (place, &(status, headers, payload, wanted)) in DIRECT.iter().enumerate() {
        let found = direct_answer_text(rt.alloc(), &places, status, headers, payload);
        says_at(&rt, place, found, wanted);
    }
    for (place, &(payload, wanted)) in STREAM.iter().enumerate() {
        says_at(
            &rt,
            place,
            stream_answer_text(rt.alloc(), &places, payload),
            wanted,
        );
    }
    drop(places);
}
