//! Messages that the tests receive.

use bytes::Bytes;
use js_base::{HeaderMap, OutOfMemory, Subject, all_4};
use js_message::Message;
use std::alloc::Global;

/// The reply subject of a message of a stream.
pub(crate) const REPLY: &str = "$JS.ACK.events.c1.1.4.3.1790230470084404000.0";

/// How long a double ack waits, in nanoseconds.
pub(crate) const WAIT: u64 = 5_000_000_000;

/// A reply subject of this text, where there is one.
pub(crate) fn reply_of(alloc: Global, reply: Option<&str>) -> Result<Option<Subject>, OutOfMemory> {
    match reply {
        None => Ok(None),
        Some(text) => Ok(Some(Subject::new(alloc, text)?)),
    }
}

/// The bytes of a text.
pub(crate) fn bytes_of(alloc: Global, text: &str) -> Result<Bytes, OutOfMemory> {
    Ok(Bytes::copy_from_slice(alloc, text.as_bytes())?)
}

/// Names and values of headers, in order.
pub(crate) type Headers = &'static [(&'static str, &'static str)];

/// Those headers.
pub(crate) fn header_map(alloc: Global, pairs: Headers) -> Result<HeaderMap, OutOfMemory> {
    let mut headers = HeaderMap::new(alloc);
    for (name, value) in pairs {
        headers.append(alloc, name, value)?;
    }
    Ok(headers)
}

/// A message on `events.a`.
pub(crate) fn received(
    alloc: Global,
    payload: &str,
    reply: Option<Subject>,
    headers: Option<HeaderMap>,
) -> Result<js_base::Message, OutOfMemory> {
    let (subject, payload, reply, headers) = all_4(
        Subject::new(alloc, "events.a"),
        bytes_of(alloc, payload),
        Ok(reply),
        Ok(headers),
    )?;
    Ok(js_base::Message {
        subject,
        reply,
        payload,
        headers,
        status: None,
        description: None,
        length: 0,
    })
}

/// The same as a message of a stream.
pub(crate) fn delivered(alloc: Global, reply: Option<&str>) -> Result<Message, OutOfMemory> {
    let reply = reply_of(alloc, reply)?;
    Ok(Message {
        message: received(alloc, "a", reply, None)?,
        timeout: WAIT,
    })
}
