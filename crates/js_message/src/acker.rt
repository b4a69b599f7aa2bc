//! Acknowledgements: one message to the reply subject of a received message.
ghost use Rattle.std.specs.Prelude.{◌≡◌, [], IfOk};
ghost use Rattle.std.specs.Option.{option_copied};
ghost use Rattle.js_message.specs.Acknowledgement.{Acks, ack_body, unsent};

use crate::ack_kind::AckKind;
use crate::double_ack::{DoubleAck, double_acknowledge};
use js_base::{Nanos, OutOfMemory, Subject};
use js_link::{Link, LinkError};
use std::alloc::Global;
use std::{error, fmt};

/// Why a message was not acknowledged.
#[derive(Clone, Copy, Debug, PartialEq, Eq)]
pub enum AckError {
    /// The message has no reply subject: it did not come from a consumer that wants
    /// acknowledgements.
    NoReply,
    /// The link could not open the inbox or send.
    LinkFailed,
    /// No answer to a double ack came before its timeout.
    TimedOut,
    /// The inbox for the answer to a double ack was closed.
    SubscriptionDropped,
    /// Memory ran out. Nothing was sent.
    OutOfMemory,
}

impl fmt::Display for AckError {
    ghost use Rattle.std.specs.Prelude.{Some};
    ghost use Rattle.js_message.specs.Texts.{ack_text};

    ghost output = { λ error. Some (ack_text error) };

    fn fmt<W: fmt::Write>(&self, f: &mut fmt::Formatter<W>) -> fmt::Result {
        f.write_str(match self {
            AckError::NoReply => "no reply subject",
            AckError::LinkFailed => "link failed",
            AckError::TimedOut => "timed out",
            AckError::SubscriptionDropped => "subscription dropped",
            AckError::OutOfMemory => "out of memory",
        })
    }
}

impl error::Error for AckError {}

// Sends a body to a reply subject.
pub(crate) fn acknowledge<L: Link>(
    alloc: Global,
    link: &mut L,
    reply: Option<&Subject>,
    body: &[u8],
) -> Result<(), AckError>
    ensures { Acks (option_copied reply.entry) body.now result (L.view link.old) (L.view link.new) }
{
    let Some(subject) = reply else {
        return Err(AckError::NoReply);
    };
    match link.publish(alloc, subject.as_str(), None, None, body) {
        Ok(()) => Ok(()),
        Err(LinkError::Failed) => Err(AckError::LinkFailed),
        Err(LinkError::OutOfMemory) => Err(AckError::OutOfMemory),
    }
}

// Sends the body of a kind to a reply subject.
pub(crate) fn acknowledge_with<L: Link>(
    alloc: Global,
    link: &mut L,
    reply: Option<&Subject>,
    kind: AckKind,
) -> Result<(), AckError>
    ensures { Acks (option_copied reply.entry) (ack_body kind) result (L.view link.old) (L.view link.new) }
{
    if reply.is_none() {
        return Err(AckError::NoReply);
    }
    match kind.to_bytes(alloc) {
        Ok(body) => acknowledge(alloc, link, reply, body.as_slice()),
        Err(OutOfMemory) => Err(AckError::OutOfMemory),
    }
}

/// Acknowledges a message without holding it. `Message::split` returns one.
#[derive(Debug, PartialEq, Eq, Drop)]
pub struct Acker {
    timeout: Nanos,
    reply: Option<Subject>,
}

impl Acker {
    ghost use Rattle.js_message.specs.Acker.{acker, timeout_of, reply_of};

    /// Creates an acker for a reply subject. A double ack waits `timeout` nanoseconds for its
    /// answer, counted from its first poll.
    pub fn new(timeout: Nanos, reply: Option<Subject>) -> Acker
        ensures { result ≡ acker timeout reply }
    {
        Acker { timeout, reply }
    }

    /// Tells the server that the message was handled, by an empty body to its reply subject
    /// (ADR-15). You do not learn whether the server received it; use `double_ack` to wait for that.
    ///
    /// Fails with `NoReply` if there is no reply subject, with `LinkFailed` if the link could not
    /// send, and with `OutOfMemory` if memory runs out. Nothing was sent then.
    pub fn ack<L: Link>(&self, alloc: Global, link: &mut L) -> Result<(), AckError>
        ensures { Acks (reply_of self.now) [] result (L.view link.old) (L.view link.new) }
    {
        acknowledge(alloc, link, self.reply.as_ref(), &[])
    }

    /// Tells the server what became of the message, by the body of `kind`. Fails as `ack` does.
    pub fn ack_with<L: Link>(
        &self,
        alloc: Global,
        link: &mut L,
        kind: AckKind,
    ) -> Result<(), AckError>
        ensures { Acks (reply_of self.now) (ack_body kind) result (L.view link.old) (L.view link.new) }
    {
        acknowledge_with(alloc, link, self.reply.as_ref(), kind)
    }

    /// Creates a call that tells the server that the message was handled, and waits for its answer.
    /// Poll it: nothing has been sent yet. Fails with `OutOfMemory` if memory runs out.
    ///
    /// Any message on its inbox counts as the answer, so it may return `Ok` although the server did
    /// not accept the ack: if nobody listens, for example after the consumer was deleted, a link
    /// whose server reports this answers with a message of status 503.
    pub fn double_ack(&self, alloc: Global) -> Result<DoubleAck, OutOfMemory>
        ensures { IfOk result (λ call. call ≡ unsent (timeout_of self.now) (reply_of self.now) (ack_body AckKind.Ack)) }
    {
        self.double_ack_with(alloc, AckKind::Ack)
    }

    /// Creates a call that tells the server what became of the message, and waits for its answer, as
    /// `double_ack` does.
    ///
    /// Do not use it with `AckKind::Next`: the consumer's next message arrives on the inbox of the
    /// double ack, is taken as the answer and is lost. Use `ack_with` for that kind.
    pub fn double_ack_with(&self, alloc: Global, kind: AckKind) -> Result<DoubleAck, OutOfMemory>
        ensures { IfOk result (λ call. call ≡ unsent (timeout_of self.now) (reply_of self.now) (ack_body kind)) }
    {
        double_acknowledge(alloc, self.timeout, self.reply.as_ref(), kind)
    }
}
