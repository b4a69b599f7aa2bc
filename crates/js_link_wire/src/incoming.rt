//! Makes a message of a server's frame.

ghost use Rattle.std.specs.Prelude.{◌≡◌, MatchResult, Ok};
ghost use Rattle.js_link_wire.specs.Headers.{IsCauseOf};
ghost use Rattle.js_link_wire.specs.Incoming.{size, plain, headered, incoming};

use crate::frame::ServerFrame;
use crate::headers::{HeaderBlock, HeadersError, read_headers};
use bytes::Bytes;
use js_base::{Message, Subject};
use std::alloc::Global;

/// A message, with the number of the subscription under which it came.
#[derive(Debug, Drop)]
pub struct Incoming {
    /// The number that the client gave to the subscription.
    pub subscription: u64,
    /// The message. It has headers if it came with a block of them, even an empty one. Its length is
    /// that of its subject, its reply subject, its block of headers and its payload together, in
    /// bytes, up to `u64::MAX`.
    pub message: Message,
}

fn size(subject: &Subject, reply: &Option<Subject>, headers: &[u8], payload: &[u8]) -> u64
    ensures { result ≡ size subject.now reply.now headers.now payload.now }
{
    let subject = subject.as_str().len() as u64;
    let reply = match reply {
        Some(reply) => reply.as_str().len() as u64,
        None => 0,
    };
    let headers = headers.len() as u64;
    let payload = payload.len() as u64;
    let subjects = subject.saturating_add(reply);
    subjects.saturating_add(headers).saturating_add(payload)
}

fn plain(subject: Subject, subscription: u64, reply: Option<Subject>, payload: Bytes) -> Incoming
    ensures { result ≡ plain subject subscription reply payload }
{
    let length = size(&subject, &reply, b"", payload.as_slice());
    Incoming {
        subscription,
        message: Message {
            subject,
            reply,
            payload,
            headers: None,
            status: None,
            description: None,
            length,
        },
    }
}

fn headered(
    alloc: Global,
    subject: Subject,
    subscription: u64,
    reply: Option<Subject>,
    headers: Bytes,
    payload: Bytes,
) -> Result<Incoming, HeadersError>
    ensures { MatchResult result (λ message. headered subject subscription reply headers payload ≡ Ok message) (IsCauseOf (headered subject subscription reply headers payload)) }
{
    let length = size(&subject, &reply, headers.as_slice(), payload.as_slice());
    let read = read_headers(alloc, headers.as_slice());
    drop(headers);
    match read {
        Ok(
            HeaderBlock {
                status,
                description,
                headers,
            },
        ) => Ok(Incoming {
            subscription,
            message: Message {
                subject,
                reply,
                payload,
                headers: Some(headers),
                status,
                description,
                length,
            },
        }),
        Err(error) => Err(error),
    }
}

/// Returns the message of a frame, with its headers read, or `None` if the frame is not a message.
///
/// # Errors
///
/// [`HeadersError::Damaged`] if its block of headers cannot be read, and
/// [`HeadersError::OutOfMemory`] if memory runs out.
pub fn message_of_frame(alloc: Global, frame: ServerFrame) -> Result<Option<Incoming>, HeadersError>
    ensures { MatchResult result (λ message. incoming frame ≡ Ok message) (IsCauseOf (incoming frame)) }
{
    match frame {
        ServerFrame::Message {
            subject,
            subscription,
            reply,
            payload,
        } => Ok(Some(plain(subject, subscription, reply, payload))),
        ServerFrame::HeaderedMessage {
            subject,
            subscription,
            reply,
            headers,
            payload,
        } => {
            let message = headered(alloc, subject, subscription, reply, headers, payload)?;
            Ok(Some(message))
        }
        ServerFrame::Info { .. } => Ok(None),
        ServerFrame::Ping => Ok(None),
        ServerFrame::Pong => Ok(None),
        ServerFrame::Taken => Ok(None),
        ServerFrame::Refused { .. } => Ok(None),
    }
}
