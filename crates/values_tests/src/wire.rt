//! The bytes of the NATS client protocol. Frames and their lengths are those of the page "NATS client protocol" of docs.nats.io
//! (<https://docs.nats.io/reference/reference-protocols/nats-protocol>), blocks of headers those of the NATS decision record
//! ADR-4, "NATS Message Headers".

mod client_frames;
mod header_blocks;
mod incoming;
mod pieces;
mod server_frames;

use crate::base::pairs;
use crate::words::word;
use js_base::{HeaderMap, OutOfMemory, StatusCode, Subject, Text, both};
use std::alloc::Global;
use std::str;

/// The text that bytes are.
pub(crate) fn text_in(bytes: &[u8]) -> &str {
    match str::from_utf8(bytes) {
        Ok(text) => text,
        Err(_) => "no text",
    }
}

/// The text of a reply subject.
pub(crate) fn reply_text(reply: &Option<Subject>) -> &str {
    match reply {
        Some(reply) => reply.as_str(),
        None => "none",
    }
}

fn description_text(description: &Option<Text>) -> &str {
    match description {
        Some(description) => description.as_str(),
        None => "none",
    }
}

// A status, and what is said of it.
fn status_word(
    alloc: Global,
    status: Option<StatusCode>,
    description: &Option<Text>,
) -> Result<String, OutOfMemory> {
    let description = description_text(description);
    match status {
        Some(status) => Ok(format!(in alloc; "{status} {description}")?),
        None => Ok(format!(in alloc; "none {description}")?),
    }
}

fn headers_word(alloc: Global, headers: Option<&HeaderMap>) -> Result<String, OutOfMemory> {
    match headers {
        Some(headers) => pairs(alloc, headers),
        None => word(alloc, "none"),
    }
}

/// What a block of headers says: a status, a description and the headers.
pub(crate) fn block_word(
    alloc: Global,
    status: Option<StatusCode>,
    description: &Option<Text>,
    headers: Option<&HeaderMap>,
) -> Result<String, OutOfMemory> {
    let status = status_word(alloc, status, description);
    let (status, headers) = both(status, headers_word(alloc, headers))?;
    Ok(format!(in alloc; "{status} {headers}")?)
}
