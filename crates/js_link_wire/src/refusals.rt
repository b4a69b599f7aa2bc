//! Which frames of a client are refused.

ghost use Rattle.std.specs.Prelude.{◌≡◌, [], not};
ghost use Rattle.std.specs.List.{list_all};
ghost use Rattle.std.specs.Char.{is_ascii_whitespace};
ghost use Rattle.js_base.specs.Subject.{is_valid_subject};
ghost use Rattle.js_link_wire.specs.Written.{refusal, connect_refusal, subscribe_refusal, publish_refusal, is_in_line, ends_line, is_name, passes_any};

use crate::frame::ClientFrame;
use js_base::{HeaderMap, Subject, Text, is_valid_subject};
use std::{error, fmt};

/// Why a frame was not written. Nothing was appended then.
#[derive(Clone, Copy, Debug, PartialEq, Eq)]
pub enum WriteError {
    /// The JSON object of CONNECT contains a carriage return or a line feed.
    BadConnect,
    /// The subject is empty, has ASCII white space, or begins or ends with a dot.
    BadSubject,
    /// The queue group is empty or has ASCII white space.
    BadQueueGroup,
    /// The reply subject is empty, has ASCII white space, or begins or ends with a dot.
    BadReply,
    /// The headers are not sendable, as [`HeaderMap::is_sendable`](js_base::HeaderMap::is_sendable)
    /// defines it.
    BadHeaders,
    /// Memory ran out.
    OutOfMemory,
}

impl fmt::Display for WriteError {
    fn fmt<W: fmt::Write>(&self, f: &mut fmt::Formatter<W>) -> fmt::Result {
        f.write_str(match self {
            WriteError::BadConnect => "bad CONNECT text",
            WriteError::BadSubject => "bad subject",
            WriteError::BadQueueGroup => "bad queue group",
            WriteError::BadReply => "bad reply subject",
            WriteError::BadHeaders => "headers that are not sendable",
            WriteError::OutOfMemory => "out of memory",
        })
    }
}

impl error::Error for WriteError {}

fn is_in_line(text: &[u8]) -> bool
    ensures { result ≡ is_in_line text.now }
{
    text.iter().all(|byte| !ends_line(*byte))
}

fn ends_line(byte: u8) -> bool
    ensures { result ≡ ends_line byte }
{
    byte == b'\r' || byte == b'\n'
}

fn is_name(text: &[u8]) -> bool
    ensures { result ≡ is_name text.now }
{
    !text.is_empty() && has_no_space(text)
}

fn has_no_space(text: &[u8]) -> bool
    ensures { result ≡ list_all (λ c. not (is_ascii_whitespace c)) text.now }
{
    text.iter().all(|byte| !byte.is_ascii_whitespace())
}

fn subject_passes(subject: &Subject) -> bool
    ensures { result ≡ is_valid_subject subject.now }
{
    is_valid_subject(subject.as_str())
}

fn group_passes(queue_group: &Option<Text>) -> bool
    ensures { result ≡ passes_any is_name queue_group.now }
{
    match queue_group {
        Some(name) => is_name(name.as_str().as_bytes()),
        None => true,
    }
}

fn reply_passes(reply: &Option<Subject>) -> bool
    ensures { result ≡ passes_any is_valid_subject reply.now }
{
    match reply {
        Some(subject) => subject_passes(subject),
        None => true,
    }
}

fn connect_refusal(json: &Text) -> Option<WriteError>
    ensures { result ≡ connect_refusal json.now }
{
    if is_in_line(json.as_str().as_bytes()) {
        None
    } else {
        Some(WriteError::BadConnect)
    }
}

fn subscribe_refusal(subject: &Subject, queue_group: &Option<Text>) -> Option<WriteError>
    ensures { result ≡ subscribe_refusal subject.now queue_group.now }
{
    if !subject_passes(subject) {
        return Some(WriteError::BadSubject);
    }
    if !group_passes(queue_group) {
        return Some(WriteError::BadQueueGroup);
    }
    None
}

fn publish_refusal(subject: &Subject, reply: &Option<Subject>) -> Option<WriteError>
    ensures { result ≡ publish_refusal subject.now reply.now [] }
{
    if !subject_passes(subject) {
        return Some(WriteError::BadSubject);
    }
    if !reply_passes(reply) {
        return Some(WriteError::BadReply);
    }
    None
}

fn headered_refusal(
    subject: &Subject,
    reply: &Option<Subject>,
    headers: &HeaderMap,
) -> Option<WriteError>
    ensures { result ≡ publish_refusal subject.now reply.now headers.now }
{
    if !subject_passes(subject) {
        return Some(WriteError::BadSubject);
    }
    if !reply_passes(reply) {
        return Some(WriteError::BadReply);
    }
    if !headers.is_sendable() {
        return Some(WriteError::BadHeaders);
    }
    None
}

// The first thing that keeps the frame from being written.
pub(crate) fn refusal(frame: &ClientFrame) -> Option<WriteError>
    ensures { result ≡ refusal frame.now }
{
    match frame {
        ClientFrame::Connect { json } => connect_refusal(json),
        ClientFrame::Subscribe {
            subject,
            queue_group,
            ..
        } => subscribe_refusal(subject, queue_group),
        ClientFrame::Unsubscribe { .. } => None,
        ClientFrame::Publish { subject, reply, .. } => publish_refusal(subject, reply),
        ClientFrame::HeaderedPublish {
            subject,
            reply,
            headers,
            ..
        } => headered_refusal(subject, reply, headers),
        ClientFrame::Ping => None,
        ClientFrame::Pong => None,
    }
}
