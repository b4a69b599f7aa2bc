//! A message still to be sent.
ghost use Rattle.std.specs.Prelude.{◌≡◌, ◌<◌, IsTrue, ◌↔◌, Err};
ghost use Rattle.js_base.specs.Error.{plain};
ghost use Rattle.js_base.specs.declared.turn.Turn.TheVariants.{Ready};
ghost use Rattle.js_link.specs.LinkView.{LinkView};
ghost use Rattle.js_context.specs.Publish.{sending, size};
ghost use Rattle.js_context.specs.Context.{ContextView};
ghost use Rattle.js_context.specs.Sending.{Attempts, GetsNoneIfFull, HoldsAfter, HoldsAfterTry, SendPolled, answer_to};

use crate::ack_future::PublishAckFuture;
use crate::context::Context;
use crate::publish_error::{PublishError, PublishErrorKind};
use js_base::{Error, Moment, Turn, is_valid_subject};
use js_link::{Link, LinkError};
use js_message::OutboundMessage;
use std::alloc::Global;
use std::sync::Wait;

/// A message still to be sent. A poll sends it if a permit is free.
#[derive(Drop)]
#[must_use = "a message is sent by a poll"]
pub struct Sending {
    pub(crate) message: OutboundMessage,
}

/// The result of one try to send a message.
pub enum Attempt {
    /// The message cannot be sent: `Other` if its subject is invalid, `MaxPayloadExceeded` if
    /// payload and headers are longer than the link sends.
    Barred(PublishErrorKind),
    /// Memory ran out while making room for the ack.
    NoRoom,
    /// No permit was free.
    Full,
    /// The link did not send the message. Its permit was given back.
    Unsent(LinkError),
    /// The message was sent.
    Went(PublishAckFuture),
}

// Whether payload and headers are longer than this.
fn is_longer(message: &OutboundMessage, limit: u64) -> bool
    ensures { IsTrue result ↔ (limit < size message.now) }
{
    let payload = message.payload.len() as u64;
    let headers = match &message.headers {
        Some(headers) => headers.wire_len(),
        None => 0,
    };
    match payload.checked_add(headers) {
        Some(size) => size > limit,
        None => true,
    }
}

/// Checks the message, takes a permit and sends the message. If the message is not sent, its permit
/// is given back.
///
/// A poll of a [`Sending`] makes exactly one such try. Call this function if you keep the message
/// yourself.
pub fn try_to_send<R: Wait, L: Link>(
    message: &OutboundMessage,
    rt: &R,
    alloc: Global,
    context: &mut Context,
    link: &mut L,
) -> Attempt
    ensures tries { Attempts message.now result context.old context.new (L.view link.old) (L.view link.new) }
    ensures holds { HoldsAfterTry result context.old context.new }
{
    if !is_valid_subject(message.subject.as_str()) {
        return Attempt::Barred(PublishErrorKind::Other);
    }
    if is_longer(message, link.max_payload()) {
        return Attempt::Barred(PublishErrorKind::MaxPayloadExceeded);
    }
    match context.take(rt) {
        Err(_) => Attempt::NoRoom,
        Ok(None) => Attempt::Full,
        Ok(Some(permit)) => match link.request(
            alloc,
            message.subject.as_str(),
            message.headers.as_ref(),
            message.payload.as_slice(),
        ) {
            Ok(request) => Attempt::Went(PublishAckFuture {
                request,
                permit,
                window: context.window(),
                clock: None,
                reply: None,
            }),
            Err(error) => {
                context.give(rt, permit);
                Attempt::Unsent(error)
            }
        },
    }
}

impl Sending {
    /// Creates the state that sends this message when polled.
    pub fn new(message: OutboundMessage) -> Sending
        ensures { result ≡ sending message }
    {
        Sending { message }
    }

    /// Checks the subject and then the size, makes room for the ack, takes a permit, and sends one
    /// request. A message that is not sent holds no permit.
    ///
    /// Returns `Pending` only if no permit was free at this poll and backpressure is on; if it is
    /// off, the poll fails with `MaxAckPending`. Fails with `Other` if the subject is invalid or
    /// the link failed to send, and with `MaxPayloadExceeded` if payload and headers are longer
    /// than the link sends. After `OutOfMemory` the next poll starts over.
    ///
    /// While this context holds all permits of its window, none can be free. A poll of a message
    /// that could be sent then sends nothing; its only effect is that the context asked for a
    /// permit once more. A permit that another context holds may become free at any time, and only
    /// a poll can tell.
    pub fn poll<R: Wait, L: Link>(
        self,
        rt: &R,
        alloc: Global,
        context: &mut Context,
        link: &mut L,
        _now: Moment,
    ) -> Turn<Sending, Result<PublishAckFuture, PublishError>>
        ensures polled { SendPolled self result context.old context.new (L.view link.old) (L.view link.new) }
        ensures holds { HoldsAfter result context.old context.new }
        ensures full { GetsNoneIfFull self result context.old context.new (L.view link.old) (L.view link.new) }
    {
        let backpressure = context.settings().backpressure;
        let met = try_to_send(&self.message, rt, alloc, context, link);
        self.answer_to(backpressure, met)
    }

    // What it answers to what the try came to.
    fn answer_to(
        self,
        backpressure: bool,
        met: Attempt,
    ) -> Turn<Sending, Result<PublishAckFuture, PublishError>>
        ensures { result ≡ answer_to self backpressure met }
    {
        match met {
            Attempt::Barred(kind) => self.failed(kind),
            Attempt::NoRoom => Turn::OutOfMemory(self),
            Attempt::Full if backpressure => Turn::Pending(self),
            Attempt::Full => self.failed(PublishErrorKind::MaxAckPending),
            Attempt::Unsent(LinkError::Failed) => self.failed(PublishErrorKind::Other),
            Attempt::Unsent(LinkError::OutOfMemory) => Turn::OutOfMemory(self),
            Attempt::Went(future) => {
                drop(self);
                Turn::Ready(Ok(future))
            }
        }
    }

    // Ends the call with an error of that kind.
    fn failed(self, kind: PublishErrorKind) -> Turn<Sending, Result<PublishAckFuture, PublishError>>
        ensures { result ≡ Ready (Err (plain kind)) }
    {
        drop(self);
        Turn::Ready(Err(Error::new(kind)))
    }
}
