//! Messages as the link delivers them, their status codes, and the entries of a log.

ghost use Rattle.std.specs.Prelude.{Some};
ghost use Rattle.js_base.specs.Message.{state_text, three_digits};

use crate::headers::HeaderMap;
use crate::memory::{OutOfMemory, TryClone};
use crate::results::all_5;
use crate::subject::Subject;
use crate::text::Text;
use bytes::Bytes;
use std::fmt;

/// The state of the connection.
/// It prints as its name in lower case.
#[derive(Clone, Copy, Debug, PartialEq, Eq)]
pub enum State {
    /// The connection has not been established yet.
    Pending,
    /// The connection is established.
    Connected,
    /// The connection is lost, and may come back.
    Disconnected,
}

impl fmt::Display for State {
    ghost output = { λ state. Some (state_text state) };

    fn fmt<W: fmt::Write>(&self, f: &mut fmt::Formatter<W>) -> fmt::Result {
        f.write_str(match self {
            State::Pending => "pending",
            State::Connected => "connected",
            State::Disconnected => "disconnected",
        })
    }
}

/// The status code of a message that the server sends in place of a stream's message.
/// It may be any `u16`. It prints with at least three digits.
#[derive(Clone, Copy, Debug, PartialEq, Eq)]
pub struct StatusCode(pub u16);

impl StatusCode {
    /// The server is alive, and has nothing to send.
    pub const IDLE_HEARTBEAT: StatusCode = StatusCode(100);

    /// The request succeeded.
    pub const OK: StatusCode = StatusCode(200);

    /// No message matches the request.
    pub const NOT_FOUND: StatusCode = StatusCode(404);

    /// A pull request reached its time limit.
    pub const TIMEOUT: StatusCode = StatusCode(408);

    /// A pull request ended before everything that it asked for had arrived.
    pub const REQUEST_TERMINATED: StatusCode = StatusCode(409);

    /// Another client of the group is pinned.
    pub const PIN_ID_MISMATCH: StatusCode = StatusCode(423);

    /// Nobody listens on the subject of the request.
    pub const NO_RESPONDERS: StatusCode = StatusCode(503);
}

impl fmt::Display for StatusCode {
    ghost output = { λ status. Some (three_digits status.0) };

    fn fmt<W: fmt::Write>(&self, f: &mut fmt::Formatter<W>) -> fmt::Result {
        let number = self.0;
        if number < 10 {
            write!(f, "00{number}")
        } else if number < 100 {
            write!(f, "0{number}")
        } else {
            write!(f, "{number}")
        }
    }
}

/// A message as the link delivers it.
#[derive(Debug, PartialEq, Eq, Drop)]
pub struct Message {
    /// The subject that the message was published on.
    pub subject: Subject,
    /// The subject that a reply goes to.
    /// For a stream's message this is its acknowledgement subject.
    pub reply: Option<Subject>,
    /// The payload of the message.
    pub payload: Bytes,
    /// The headers of the message, if it has any.
    pub headers: Option<HeaderMap>,
    /// The status code, which only a message from the server itself has.
    pub status: Option<StatusCode>,
    /// The server's description of the status, if it sent one.
    pub description: Option<Text>,
    /// The size that counts against a byte limit, in bytes.
    pub length: u64,
}

impl TryClone for Message {
    fn try_clone(&self) -> Result<Message, OutOfMemory> {
        let (subject, reply, payload, headers, description) = all_5(
            self.subject.try_clone(),
            self.reply.try_clone(),
            self.payload.try_clone(),
            self.headers.try_clone(),
            self.description.try_clone(),
        )?;
        Ok(Message {
            subject,
            reply,
            payload,
            headers,
            status: self.status,
            description,
            length: self.length,
        })
    }
}

/// An entry of a log: a message of a stream with its sequence number.
#[derive(Debug, PartialEq, Eq, Drop)]
pub struct Entry {
    /// The subject that the message was published on.
    pub subject: Subject,
    /// The sequence number in the stream: the first is 1, and later ones are greater.
    pub sequence: u64,
    /// The payload of the message.
    pub payload: Bytes,
}

impl TryClone for Entry {
    fn try_clone(&self) -> Result<Entry, OutOfMemory> {
        Ok(Entry {
            subject: self.subject.try_clone()?,
            sequence: self.sequence,
            payload: self.payload.clone()?,
        })
    }
}
