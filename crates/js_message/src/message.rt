//! Messages as a consumer delivers them: their place in the stream, and their acknowledgement.
ghost use Rattle.std.specs.Prelude.{◌≡◌, [], IfOk};
ghost use Rattle.std.specs.Option.{option_copied};
ghost use Rattle.js_message.specs.Acknowledgement.{Acks, ack_body, unsent};

use crate::ack_kind::AckKind;
use crate::ack_subject::parse_info;
use crate::acker::{AckError, Acker, acknowledge, acknowledge_with};
use crate::double_ack::{DoubleAck, double_acknowledge};
use crate::info::Info;
use crate::info_error::InfoError;
use bytes::Bytes;
use js_base::{HeaderMap, Nanos, OutOfMemory};
use js_link::Link;
use std::alloc::Global;
use std::{error, fmt};

/// Why a message does not tell its place in the stream.
#[derive(Clone, Copy, Debug, PartialEq, Eq)]
pub enum MessageInfoError {
    /// It has no reply subject.
    NoReply,
    /// Its reply subject is not an acknowledgement subject, for this reason.
    Unreadable(InfoError),
}

impl fmt::Display for MessageInfoError {
    ghost use Rattle.std.specs.Prelude.{Some};
    ghost use Rattle.js_message.specs.Texts.{message_info_text};

    ghost output = { λ error. Some (message_info_text error) };

    fn fmt<W: fmt::Write>(&self, f: &mut fmt::Formatter<W>) -> fmt::Result {
        match self {
            MessageInfoError::NoReply => f.write_str("no reply subject"),
            MessageInfoError::Unreadable(error) => {
                write!(f, "no acknowledgement subject: {error}")
            }
        }
    }
}

impl error::Error for MessageInfoError {}

/// A message of a stream, as a consumer delivers it.
#[derive(Debug, PartialEq, Eq, Drop)]
pub struct Message {
    /// The message itself. Its reply subject is where acknowledgements go.
    pub message: js_base::Message,
    /// How long a double ack waits for its answer, in nanoseconds.
    pub timeout: Nanos,
}

impl Message {
    ghost use Rattle.js_message.specs.Message.{info_of, shown_info, without_reply, acker_of};

    /// Returns the message's place in its stream, read from its reply subject by `parse_info`. It
    /// allocates nothing.
    ///
    /// Fails with `NoReply` if there is no reply subject, and with `Unreadable` and the error of
    /// `parse_info` if it is not an acknowledgement subject.
    pub fn info(&self) -> Result<Info<'_>, MessageInfoError>
        ensures { shown_info result ≡ info_of self.now.message.reply }
    {
        let Some(reply) = &self.message.reply else {
            return Err(MessageInfoError::NoReply);
        };
        match parse_info(reply.as_str()) {
            Ok(info) => Ok(info),
            Err(error) => Err(MessageInfoError::Unreadable(error)),
        }
    }

    /// Returns the subject to which the message was published.
    pub fn subject(&self) -> &str
        ensures { result.now ≡ self.now.message.subject }
    {
        self.message.subject.as_str()
    }

    /// Returns what was published, which may be empty.
    pub fn payload(&self) -> &Bytes
        ensures { result.now ≡ self.now.message.payload }
    {
        &self.message.payload
    }

    /// Returns the headers, or `None` if the message has none.
    pub fn headers(&self) -> Option<&HeaderMap>
        ensures { option_copied result ≡ self.now.message.headers }
    {
        self.message.headers.as_ref()
    }

    /// Splits it into the message without its reply subject, and an `Acker` that acknowledges it.
    pub fn split(self) -> (js_base::Message, Acker)
        ensures message { result.0 ≡ without_reply self.message }
        ensures acker { result.1 ≡ acker_of self }
    {
        let Message {
            mut message,
            timeout,
        } = self;
        let reply = message.reply.take();
        (message, Acker::new(timeout, reply))
    }

    /// Tells the server that the message was handled, by an empty body to its reply subject
    /// (ADR-15). You do not learn whether the server received it; use `double_ack` to wait for that.
    ///
    /// Fails with `NoReply` if there is no reply subject, with `LinkFailed` if the link could not
    /// send, and with `OutOfMemory` if memory runs out. Nothing was sent then.
    pub fn ack<L: Link>(&self, alloc: Global, link: &mut L) -> Result<(), AckError>
        ensures { Acks self.now.message.reply [] result (L.view link.old) (L.view link.new) }
    {
        acknowledge(alloc, link, self.message.reply.as_ref(), &[])
    }

    /// Tells the server what became of the message, by the body of `kind`. Fails as `ack` does.
    pub fn ack_with<L: Link>(
        &self,
        alloc: Global,
        link: &mut L,
        kind: AckKind,
    ) -> Result<(), AckError>
        ensures { Acks self.now.message.reply (ack_body kind) result (L.view link.old) (L.view link.new) }
    {
        acknowledge_with(alloc, link, self.message.reply.as_ref(), kind)
    }

    /// Creates a call that tells the server that the message was handled, and waits for its answer.
    /// Poll it: nothing has been sent yet. Fails with `OutOfMemory` if memory runs out.
    ///
    /// Any message on its inbox counts as the answer, so it may return `Ok` although the server did
    /// not accept the ack: if nobody listens, for example after the consumer was deleted, a link
    /// whose server reports this answers with a message of status 503.
    pub fn double_ack(&self, alloc: Global) -> Result<DoubleAck, OutOfMemory>
        ensures { IfOk result (λ call. call ≡ unsent self.now.timeout self.now.message.reply (ack_body AckKind.Ack)) }
    {
        self.double_ack_with(alloc, AckKind::Ack)
    }

    /// Creates a call that tells the server what became of the message, and waits for its answer, as
    /// `double_ack` does.
    ///
    /// Do not use it with `AckKind::Next`: the consumer's next message arrives on the inbox of the
    /// double ack, is taken as the answer and is lost. Use `ack_with` for that kind.
    pub fn double_ack_with(&self, alloc: Global, kind: AckKind) -> Result<DoubleAck, OutOfMemory>
        ensures { IfOk result (λ call. call ≡ unsent self.now.timeout self.now.message.reply (ack_body kind)) }
    {
        double_acknowledge(alloc, self.timeout, self.message.reply.as_ref(), kind)
    }
}
