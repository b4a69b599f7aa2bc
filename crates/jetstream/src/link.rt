//! Connections: the trait `Link`, the link for programs, and two links in memory for tests.
ghost use Rattle.std.specs.Prelude.{◌≡◌, IfOk, None};
ghost use Rattle.jetstream.specs.Link.{received};

use bytes::Bytes;
use js_base::{Message, OutOfMemory, Subject};
pub use js_base::{Message as PlainMessage, State as ConnectionState, StatusCode};
pub use js_link::{
    Answer, InboxId, Link, LinkError, MemoryLink, RequestId, ScriptedServer, Sent, Taken, Watch,
};
pub use js_link_outbox::{Delivery, OutboxLink, Outgoing};
use std::alloc::Global;

/// Returns a received message with this subject and payload, without a reply subject, headers or a
/// status. Its length is that of subject and payload together, in bytes. Fails only with
/// `OutOfMemory`.
pub fn received(alloc: Global, subject: &str, payload: &[u8]) -> Result<Message, OutOfMemory>
    ensures { IfOk result (λ message. message ≡ received subject.now payload.now) }
{
    let length = (subject.len() as u64).saturating_add(payload.len() as u64);
    Ok(Message {
        subject: Subject::new(alloc, subject)?,
        reply: None,
        payload: Bytes::copy_from_slice(alloc, payload)?,
        headers: None,
        status: None,
        description: None,
        length,
    })
}
