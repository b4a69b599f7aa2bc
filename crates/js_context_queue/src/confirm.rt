//! Publishing a message and awaiting its ack, as one call.
ghost use Rattle.std.specs.Prelude.{◌≡◌, ◌+◌, ◌<◌, ◌^◌, ◌++◌, ℕ, IfOk, None};
ghost use Rattle.js_message.specs.PublishMessage.{outbound};
ghost use Rattle.js_base.specs.Clock.{has_come};
ghost use Rattle.js_call.specs.Wakes.{Sleeps, is_due, request_of};
ghost use Rattle.js_context.specs.AckFuture.{IsAwaitedBy};
ghost use Rattle.js_context.specs.Publish.{sending};
ghost use Rattle.js_context.specs.AckTimers.{ack_waits_for};
ghost use Rattle.js_context_queue.specs.Confirm.{BelongsTo, ConfirmPolled, HoldsBeside, IsStillOf, Looks, confirming_waits_for, detached_of, permits};
ghost use Rattle.js_context_queue.specs.declared.confirm.Confirming.TheVariants.{Awaits, Sends};

use bytes::Bytes;
use js_base::{Moment, OutOfMemory, Turn};
use js_context::{Context, PublishAckFuture, PublishError, Sending};
use js_json::PublishAck;
use js_link::{Link, RequestId};
use std::alloc::Global;
use std::sync::Wait;

/// A message that is published and confirmed: a poll sends it if a permit is free, and from then on
/// polls await its ack.
///
/// Poll it until it is ready, or call `detach`.
#[must_use = "a message is sent by a poll"]
pub enum Confirming {
    /// The message is not sent yet.
    Sends(Sending),
    /// The message was sent, and its ack is awaited.
    Awaits(PublishAckFuture),
}

/// What one poll returns.
type Polled = Turn<Confirming, Result<PublishAck, PublishError>>;

// Looks at the ack.
fn look<R: Wait, L: Link>(
    future: PublishAckFuture,
    rt: &R,
    alloc: Global,
    context: &mut Context,
    link: &mut L,
    now: Moment,
) -> Polled
    requires { IsAwaitedBy future context.old }
    ensures looks { Looks future now result context.old context.new (L.view link.old) (L.view link.new) }
    ensures sleeps { Sleeps (ack_waits_for future) now (Awaits future) result (L.view link.old) (L.view link.new) }
    ensures still { IsStillOf result context.new }
    ensures holds { HoldsBeside (Awaits future) result context.old context.new }
{
    match future.poll(rt, alloc, context, link, now) {
        Turn::Ready(answer) => Turn::Ready(answer),
        Turn::Pending(next) => Turn::Pending(Confirming::Awaits(next)),
        Turn::OutOfMemory(next) => Turn::OutOfMemory(Confirming::Awaits(next)),
    }
}

impl Confirming {
    /// Sends the message if it is not sent yet, as [`Sending::poll`] does, then looks at its ack,
    /// as [`PublishAckFuture::poll`] does. The errors are those of the two; after an error the
    /// message holds no permit. A message that was not sent is sent by a later poll; one that was
    /// sent is never sent again.
    ///
    /// The caller must pass the context that sent the message.
    ///
    /// After `Pending`, a message that was not sent waits for a permit, as [`Sending::poll`] says.
    /// If it was sent, you may wait until the answer to its `request` has come, that request is
    /// gone, or its `wakes_at` has come. Polling earlier changes neither it nor the link.
    pub fn poll<R: Wait, L: Link>(
        self,
        rt: &R,
        alloc: Global,
        context: &mut Context,
        link: &mut L,
        now: Moment,
    ) -> Turn<Confirming, Result<PublishAck, PublishError>>
        requires { BelongsTo self context.old }
        ensures polled { ConfirmPolled self now result context.old context.new (L.view link.old) (L.view link.new) }
        ensures still { IsStillOf result context.new }
        ensures holds { HoldsBeside self result context.old context.new }
        ensures sleeps { Sleeps (confirming_waits_for self) now self result (L.view link.old) (L.view link.new) }
    {
        match self {
            Confirming::Awaits(future) => look(future, rt, alloc, context, link, now),
            Confirming::Sends(sending) => match sending.poll(rt, alloc, context, link, now) {
                Turn::Ready(Ok(future)) => look(future, rt, alloc, context, link, now),
                Turn::Ready(Err(error)) => Turn::Ready(Err(error)),
                Turn::Pending(next) => Turn::Pending(Confirming::Sends(next)),
                Turn::OutOfMemory(next) => Turn::OutOfMemory(Confirming::Sends(next)),
            },
        }
    }

    /// Returns the number of the request whose answer it waits for. Returns `None` if the message
    /// was not sent, or if you should poll its ack at once.
    pub fn request(&self) -> Option<RequestId>
        ensures { result ≡ request_of (confirming_waits_for self.now) }
    {
        match self {
            Confirming::Sends(_) => None,
            Confirming::Awaits(future) => future.request(),
        }
    }

    /// Returns the moment at which the clock of its ack is due. Returns `None` if the message was
    /// not sent, if you should poll its ack at once, or if that clock would end past `u64::MAX`.
    pub fn wakes_at(&self) -> Option<Moment>
        ensures { (now : ℕ) → now < 2 ^ 64 → has_come result now ≡ is_due (confirming_waits_for self.now) now }
    {
        match self {
            Confirming::Sends(_) => None,
            Confirming::Awaits(future) => future.wakes_at(),
        }
    }

    /// Stops awaiting the message. One that was not sent is dropped. The ack of one that was sent
    /// is left to `Context::reap`.
    pub fn detach(self, context: &mut Context)
        requires { BelongsTo self context.old }
        ensures awaited { context.new.awaited + permits self ≡ context.old.awaited }
        ensures same { context.new ≡ record context.old { awaited = context.new.awaited; detached = context.new.detached } }
        ensures list { context.new.detached ≡ context.old.detached ++ detached_of self }
    {
        match self {
            Confirming::Sends(_) => {}
            Confirming::Awaits(future) => future.detach(context),
        }
    }
}

/// Adds the call that publishes a message and awaits its ack.
pub trait PublishCalls {
    /// Publishes a payload to a subject and awaits the ack. Fails here only with `OutOfMemory`;
    /// other errors come from [`Confirming::poll`].
    fn publish_and_confirm(
        &mut self,
        alloc: Global,
        subject: &str,
        payload: Bytes,
    ) -> Result<Confirming, OutOfMemory>
        ensures message { IfOk result (λ call. call ≡ Sends (sending (outbound subject.now payload None))) }
        ensures same { self.new ≡ self.old };
}

impl PublishCalls for Context {
    fn publish_and_confirm(
        &mut self,
        alloc: Global,
        subject: &str,
        payload: Bytes,
    ) -> Result<Confirming, OutOfMemory> {
        Ok(Confirming::Sends(self.publish(alloc, subject, payload)?))
    }
}
