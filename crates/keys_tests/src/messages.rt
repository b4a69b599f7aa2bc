//! What the tests pass and compare.

use bytes::Bytes;
use js_base::{HeaderMap, Message, OutOfMemory, StatusCode, Subject, Text, all_4, both};
use js_store_keys::KeyPlaces;
use std::alloc::Global;
use std::fmt::Debug;
use std::process::Abort;

/// Names and values of headers, in order.
pub(crate) type Headers = &'static [(&'static str, &'static str)];

/// Asserts that what is found in a row is what is wanted.
pub(crate) fn same<T: Debug + PartialEq + Drop>(rt: &impl Abort, row: &str, found: T, wanted: T) {
    assert_eq!(rt; found, wanted, "{row}");
}

/// Asserts that the word at a place is the one that is wanted.
pub(crate) fn says_at<E: Debug + Drop>(
    rt: &impl Abort,
    place: usize,
    found: Result<String, E>,
    wanted: &str,
) {
    let found = found.expect(rt, wanted);
    assert_eq!(rt; found.as_str(), wanted, "at {place}");
}

/// The bucket `config`, which keeps two entries of a key.
pub(crate) fn places(alloc: Global) -> Result<KeyPlaces, OutOfMemory> {
    let (bucket, prefix) = both(
        Text::from_str(alloc, "config"),
        Text::from_str(alloc, "$KV.config."),
    )?;
    Ok(KeyPlaces {
        bucket,
        prefix,
        put_prefix: None,
        api_prefix: None,
        history: 2,
    })
}

fn header_map(alloc: Global, pairs: Headers) -> Result<HeaderMap, OutOfMemory> {
    let mut headers = HeaderMap::new(alloc);
    for (name, value) in pairs {
        headers.append(alloc, name, value)?;
    }
    Ok(headers)
}

fn reply_of(alloc: Global, reply: Option<&str>) -> Result<Option<Subject>, OutOfMemory> {
    match reply {
        None => Ok(None),
        Some(text) => Ok(Some(Subject::new(alloc, text)?)),
    }
}

fn bytes_of(alloc: Global, text: &str) -> Result<Bytes, OutOfMemory> {
    Ok(Bytes::copy_from_slice(alloc, text.as_bytes())?)
}

/// A message that comes from the server.
pub(crate) fn received(
    alloc: Global,
    subject: &str,
    reply: Option<&str>,
    status: Option<u16>,
    headers: Headers,
    payload: &str,
) -> Result<Message, OutOfMemory> {
    let (subject, reply, payload, headers) = all_4(
        Subject::new(alloc, subject),
        reply_of(alloc, reply),
        bytes_of(alloc, payload),
        header_map(alloc, headers),
    )?;
    Ok(Message {
        subject,
        reply,
        payload,
        headers: Some(headers),
        status: status.map(StatusCode),
        description: None,
        length: 0,
    })
}

/// The text of bytes.
pub(crate) fn text_of(alloc: Global, bytes: &[u8]) -> Result<String, OutOfMemory> {
    Ok(String::from_utf8_lossy(alloc, bytes)?)
}
