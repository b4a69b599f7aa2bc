//! The frames of a server and of a client.

ghost use Rattle.std.specs.Prelude.{◌≡◌, IfOk};
ghost use Rattle.std.specs.Option.{option_copied};
ghost use Rattle.js_link_wire.specs.Views.{seen};
ghost use Rattle.js_link_wire.specs.declared.frame.ServerFrame.TheVariants as frames;

use bytes::Bytes;
use js_base::{HeaderMap, OutOfMemory, Subject, Text, all_3, all_4};
use std::alloc::Global;

/// A frame that a server sends, of the NATS client protocol (docs.nats.io).
#[derive(Debug, Drop)]
pub enum ServerFrame {
    /// INFO: what the server tells about itself.
    Info {
        /// A JSON object, as it came. This crate does not parse it.
        json: Text,
    },
    /// MSG: a message of a subscription, without headers.
    Message {
        /// The subject to which it was published.
        subject: Subject,
        /// The number that the client gave to the subscription.
        subscription: u64,
        /// The subject to which an answer should go, if one is wanted.
        reply: Option<Subject>,
        /// Its body.
        payload: Bytes,
    },
    /// HMSG: a message of a subscription, with headers.
    HeaderedMessage {
        /// The subject to which it was published.
        subject: Subject,
        /// The number that the client gave to the subscription.
        subscription: u64,
        /// The subject to which an answer should go, if one is wanted.
        reply: Option<Subject>,
        /// The block of headers as it came, with its first line and its empty last one.
        headers: Bytes,
        /// The body after the headers.
        payload: Bytes,
    },
    /// PING: the server asks for a PONG.
    Ping,
    /// PONG: the answer to a PING.
    Pong,
    /// +OK: the server, in verbose mode, has accepted what the client sent.
    Taken,
    /// -ERR: what the server refuses, in its words.
    Refused {
        /// The words, in quotes as the server writes them.
        text: Text,
    },
}

/// A frame of a server that borrows from the bytes it was read from.
#[derive(Clone, Copy, Debug)]
pub(crate) enum View<'a> {
    Info {
        json: &'a str,
    },
    Message {
        subject: &'a str,
        subscription: u64,
        reply: Option<&'a str>,
        payload: &'a [u8],
    },
    HeaderedMessage {
        subject: &'a str,
        subscription: u64,
        reply: Option<&'a str>,
        headers: &'a [u8],
        payload: &'a [u8],
    },
    Ping,
    Pong,
    Taken,
    Refused {
        text: &'a str,
    },
}

fn some_subject(alloc: Global, text: Option<&str>) -> Result<Option<Subject>, OutOfMemory>
    ensures { IfOk result (λ subject. subject ≡ option_copied text.entry) }
{
    match text {
        None => Ok(None),
        Some(text) => Ok(Some(Subject::new(alloc, text)?)),
    }
}

fn copied(alloc: Global, bytes: &[u8]) -> Result<Bytes, OutOfMemory>
    ensures { IfOk result (λ copy. copy ≡ bytes.now) }
{
    Ok(Bytes::copy_from_slice(alloc, bytes)?)
}

// A message without headers, with bytes of its own.
fn message_frame(
    alloc: Global,
    subject: &str,
    subscription: u64,
    reply: Option<&str>,
    payload: &[u8],
) -> Result<ServerFrame, OutOfMemory>
    ensures { IfOk result (λ frame. frame ≡ frames.Message subject.now subscription (option_copied reply.entry) payload.now) }
{
    let (subject, reply, payload) = all_3(
        Subject::new(alloc, subject),
        some_subject(alloc, reply),
        copied(alloc, payload),
    )?;
    Ok(ServerFrame::Message {
        subject,
        subscription,
        reply,
        payload,
    })
}

// A message with headers, with bytes of its own.
fn headered_frame(
    alloc: Global,
    subject: &str,
    subscription: u64,
    reply: Option<&str>,
    headers: &[u8],
    payload: &[u8],
) -> Result<ServerFrame, OutOfMemory>
    ensures { IfOk result (λ frame. frame ≡ frames.HeaderedMessage subject.now subscription (option_copied reply.entry) headers.now payload.now) }
{
    let (subject, reply, headers, payload) = all_4(
        Subject::new(alloc, subject),
        some_subject(alloc, reply),
        copied(alloc, headers),
        copied(alloc, payload),
    )?;
    Ok(ServerFrame::HeaderedMessage {
        subject,
        subscription,
        reply,
        headers,
        payload,
    })
}

// The frame that is seen, with bytes of its own.
pub(crate) fn frame_of_view(alloc: Global, view: View<'_>) -> Result<ServerFrame, OutOfMemory>
    ensures { IfOk result (λ frame. frame ≡ seen view.entry) }
{
    match view {
        View::Info { json } => Ok(ServerFrame::Info {
            json: Text::from_str(alloc, json)?,
        }),
        View::Message {
            subject,
            subscription,
            reply,
            payload,
        } => message_frame(alloc, subject, subscription, reply, payload),
        View::HeaderedMessage {
            subject,
            subscription,
            reply,
            headers,
            payload,
        } => headered_frame(alloc, subject, subscription, reply, headers, payload),
        View::Ping => Ok(ServerFrame::Ping),
        View::Pong => Ok(ServerFrame::Pong),
        View::Taken => Ok(ServerFrame::Taken),
        View::Refused { text } => Ok(ServerFrame::Refused {
            text: Text::from_str(alloc, text)?,
        }),
    }
}

/// A frame that a client sends, of the NATS client protocol (docs.nats.io).
#[derive(Debug, Drop)]
pub enum ClientFrame {
    /// CONNECT: what the client tells about itself.
    Connect {
        /// A JSON object on one line, without carriage return and line feed.
        json: Text,
    },
    /// SUB: the client wants what is sent to a subject, alone or as one of a group that shares it.
    Subscribe {
        /// A subject, in which `*` and `>` are wildcards for tokens.
        subject: Subject,
        /// The group that shares the messages, if there is one.
        queue_group: Option<Text>,
        /// The number that messages of the subscription will have.
        subscription: u64,
    },
    /// UNSUB: ends a subscription.
    Unsubscribe {
        /// The number of the subscription.
        subscription: u64,
        /// The number of messages, in all, after which it ends. It ends at once if this is `None`.
        max: Option<u64>,
    },
    /// PUB: a message without headers.
    Publish {
        /// The subject to publish to.
        subject: Subject,
        /// The subject to which an answer should go, if one is wanted.
        reply: Option<Subject>,
        /// Its body.
        payload: Bytes,
    },
    /// HPUB: a message with headers.
    HeaderedPublish {
        /// The subject to publish to.
        subject: Subject,
        /// The subject to which an answer should go, if one is wanted.
        reply: Option<Subject>,
        /// Its headers. They may be empty.
        headers: HeaderMap,
        /// Its body.
        payload: Bytes,
    },
    /// PING: the client asks for a PONG.
    Ping,
    /// PONG: the answer to a PING.
    Pong,
}
