//! What a server that is played replies.

use bytes::Bytes;
use js_base::{Message, OutOfMemory, StatusCode, Subject};
use std::alloc::Global;

/// The status and the body of a reply.
pub type Reply = (Option<StatusCode>, &'static str);

/// What comes where nobody answers.
pub const NOBODY: Reply = (Some(StatusCode(503)), "");

/// The message that brings a reply.
pub fn message(alloc: Global, reply: Reply) -> Result<Message, OutOfMemory> {
    Ok(Message {
        subject: Subject::new(alloc, "_INBOX.t.0")?,
        reply: None,
        payload: Bytes::copy_from_slice(alloc, reply.1.as_bytes())?,
        headers: None,
        status: reply.0,
        description: None,
        length: 0,
    })
}
