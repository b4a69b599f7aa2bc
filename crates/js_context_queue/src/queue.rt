//! A queue that publishes messages under the permits of one context, and its polls.
ghost use Rattle.std.specs.Prelude.{◌≡◌, ◌<◌, ◌≤◌, ◌+◌, ◌^◌, ◌++◌, ◌∷◌, [], ℕ, None, IfOk, OnOk, OnErr, length};
ghost use Rattle.js_message.specs.PublishMessage.{outbound};
ghost use Rattle.js_window.specs.Caller.{held};
ghost use Rattle.js_base.specs.Clock.{has_come};
ghost use Rattle.js_context_queue.specs.Queue.{EachHasOne, EndsEmpty, Keeps, handed, open_tags, times};
ghost use Rattle.js_context_queue.specs.InFlight.{Detaches};
ghost use Rattle.js_context_queue.specs.QueuePoll.{IsLeftOf, Polls, Runs, handed_out, place};
ghost use Rattle.js_context_queue.specs.Steps.{Looks, TriesFirst, brought, outcome_of};
ghost use Rattle.js_context_queue.specs.Pending.{LooksAtEach, LooksOnInVain, PendsInVain, StaysInVain, TriesInOrder};
ghost use Rattle.js_context_queue.specs.Wakes.{is_first_over, queue_due};
ghost use Rattle.js_context_queue.specs.LeftAlone.{GoesOn, HaveClocks, IsQuiet, LooksAtNothing, LooksInVain, LooksOnAtNothing, QueuePends, SendsNothing, SleepsIfLeftAlone};

use crate::closed::Closed;
use crate::in_flight::{InFlight, detach_all};
use crate::published::{Published, Tag};
use crate::send_attempt::{SendResult, try_to_send};
use crate::step_result::StepResult;
use crate::unsent::Unsent;
use bytes::Bytes;
use js_base::{Error, Moment, Nanos, Next, OutOfMemory, Subject, Turn, earlier, end_of};
use js_context::Context;
use js_link::Link;
use js_message::OutboundMessage;
use std::alloc::Global;
use std::collections::VecDeque;
use std::marker::Model;
use std::sync::Wait;

mod health;

pub use health::QueueHealth;

/// Publishes messages under the permits of one context, and returns one outcome for each.
///
/// Call `close` when you are done. If you drop the queue instead, the permits of messages in flight
/// are never free again.
#[must_use = "messages are sent by polls"]
pub struct PublishQueue {
    context: Context,
    unsent: VecDeque<Unsent>,
    in_flight: VecDeque<InFlight>,
    next: u64,
    send_timeout: Nanos,
}

impl Model for PublishQueue {
    ghost use Rattle.js_context_queue.specs.Queue.{QueueView, IsQueue};

    ghost Value = { QueueView };

    ghost view = { λ q. record { context = q.context; unsent = q.unsent.items; in_flight = q.in_flight.items; next = q.next; send_timeout = q.send_timeout } };

    ghost invariant = { λ q. IsQueue q.context q.unsent.items q.in_flight.items q.next };
}

impl Drop for PublishQueue {
    fn drop(self) {
        let PublishQueue {
            mut context,
            unsent,
            in_flight,
            next: _,
            send_timeout: _,
        } = self;
        detach_all(&mut context, in_flight);
        drop(context);
        drop(unsent);
    }
}

impl PublishQueue {
    /// Creates an empty queue. `send_timeout` is how long a message may wait to be sent, in
    /// nanoseconds, from its push on.
    pub fn new(alloc: Global, context: Context, send_timeout: Nanos) -> PublishQueue
        ensures { result ≡ record { context = context; unsent = []; in_flight = []; next = 0; send_timeout = send_timeout } }
    {
        PublishQueue {
            context,
            unsent: VecDeque::new(alloc),
            in_flight: VecDeque::new(alloc),
            next: 0,
            send_timeout,
        }
    }

    /// Appends a message to the queue. Fails with `OutOfMemory` if memory runs out, or if no tag is
    /// left after `u64::MAX` pushes; the message is then dropped.
    pub fn push(&mut self, message: OutboundMessage, now: Moment) -> Result<Tag, OutOfMemory>
        ensures tag { IfOk result (λ tag. tag.0 ≡ self.old.next) }
        ensures fresh { times self.old.next (open_tags self.old) ≡ 0 }
        ensures ok { OnOk result (self.new ≡ record self.old { unsent = self.old.unsent ++ record { tag = record { 0 = self.old.next }; message = message; since = now } ∷ []; next = self.old.next + 1 }) }
        ensures err { OnErr result (self.new ≡ self.old) }
    {
        let Some(next) = self.next.checked_add(1) else {
            drop(message);
            return Err(OutOfMemory);
        };
        let tag = Tag(self.next);
        self.unsent.push_back(Unsent {
            tag,
            message,
            since: now,
        })?;
        self.next = next;
        Ok(tag)
    }

    /// Appends a message with this payload and no headers to the queue. Fails as `push` does.
    pub fn publish(
        &mut self,
        alloc: Global,
        subject: &str,
        payload: &[u8],
        now: Moment,
    ) -> Result<Tag, OutOfMemory>
        ensures tag { IfOk result (λ tag. tag.0 ≡ self.old.next) }
        ensures fresh { times self.old.next (open_tags self.old) ≡ 0 }
        ensures ok { OnOk result (self.new ≡ record self.old { unsent = self.old.unsent ++ record { tag = record { 0 = self.old.next }; message = outbound subject.now payload.now None; since = now } ∷ []; next = self.old.next + 1 }) }
        ensures err { OnErr result (self.new ≡ self.old) }
    {
        self.unsent.reserve(1)?;
        let subject = Subject::new(alloc, subject)?;
        let payload = Bytes::copy_from_slice(alloc, payload)?;
        self.push(OutboundMessage::new(subject, payload, None), now)
    }

    /// Sends as many messages as permits allow, then looks at the acks, and returns an outcome if
    /// one is known.
    ///
    /// The outcome of a sent message is what its own ack said, as
    /// [`PublishAckFuture::poll`](js_context::PublishAckFuture::poll) describes. A message that
    /// cannot be sent ends at once: with `Other` if its subject is invalid, with
    /// `MaxPayloadExceeded` if it is longer than the link sends. A message that could be sent ends
    /// at a poll that fails to send it after it has waited for the queue's `send_timeout`: with
    /// `MaxAckPending` if no permit was free, with `Other` if the link failed.
    ///
    /// Returns `Pending` if no outcome is known and messages are left, and `End` if no message is
    /// left. Before it returns `Pending`, the poll has looked at each ack in flight: the link waits
    /// for its answer, and its clock is not due. It has also tried the first message that it leaves
    /// unsent, after sending those before it: no permit was free or the link failed, and the
    /// message's time is not over.
    ///
    /// If, after `Pending`, every message was sent, or those in flight hold all permits of the
    /// window, you may wait until an answer to one has come, the request of one is gone, or
    /// `wakes_at` has come. Polling earlier sends nothing, returns nothing and leaves the queue
    /// unchanged, except that it may ask for a permit once more. Use `in_flight` to tell whether
    /// they hold all permits.
    ///
    /// Otherwise an unsent message waits for a permit that another context of the window holds, or
    /// for the link to recover: each poll tries to send it.
    pub fn poll_next<R: Wait, L: Link>(
        &mut self,
        rt: &R,
        alloc: Global,
        link: &mut L,
        now: Moment,
    ) -> Next<Published>
        ensures each { EachHasOne (handed result) self.old self.new }
        ensures left { IsLeftOf self.old.unsent self.new.unsent }
        ensures own { Polls now (handed_out result) (place self.old (L.view link.old)) (place self.new (L.view link.new)) }
        ensures end { EndsEmpty result self.new }
        ensures keeps { Keeps self.old self.new }
        ensures sleeps { SleepsIfLeftAlone now self.old self.new (L.view link.old) (L.view link.new) result }
        ensures pends { QueuePends result self.new }
        ensures pending { PendsInVain now result (place self.old (L.view link.old)) (place self.new (L.view link.new)) }
    {
        match self.send(rt, alloc, link, now) {
            StepResult::Over(published) => Next::Item(published),
            StepResult::NoMemory => Next::OutOfMemory,
            StepResult::Made => self.look_on(rt, alloc, link, now),
            StepResult::Stays => self.look_on(rt, alloc, link, now),
        }
    }

    // Looks at the acks, and hands out an outcome.
    fn look_on<R: Wait, L: Link>(
        &mut self,
        rt: &R,
        alloc: Global,
        link: &mut L,
        now: Moment,
    ) -> Next<Published>
        ensures each { EachHasOne (handed result) self.old self.new }
        ensures runs { Runs now (handed_out result) (place self.old (L.view link.old)) (place self.new (L.view link.new)) }
        ensures end { EndsEmpty result self.new }
        ensures keeps { Keeps self.old self.new }
        ensures sleeps { LooksOnAtNothing now result self.old self.new (L.view link.old) (L.view link.new) }
        ensures pends { QueuePends result self.new }
        ensures pending { LooksOnInVain now result self.old self.new (L.view link.old) (L.view link.new) }
    {
        match self.look(rt, alloc, link, now) {
            StepResult::Over(published) => Next::Item(published),
            StepResult::NoMemory => Next::OutOfMemory,
            StepResult::Made => self.rest(),
            StepResult::Stays => self.rest(),
        }
    }

    /// Returns how many messages were sent and have no ack yet. Each of them holds a permit of the
    /// context, so they never outnumber the permits of its window.
    pub fn in_flight(&self) -> usize
        ensures count { result ≡ length self.now.in_flight }
        ensures held { result ≤ held self.now.context.pass }
    {
        let _awaited = self.context.awaited();
        self.in_flight.len()
    }

    /// Returns the first moment at which the clock of an ack is due, or the time of the first
    /// unsent message is over; the messages behind it wait for it. Returns `None` if there is no
    /// such moment.
    ///
    /// Use it after `Pending`, when each ack in flight has its clock. After a push, an outcome or
    /// `OutOfMemory`, poll the queue at once. It tells nothing of permits that another context
    /// gives back: see `poll_next`.
    pub fn wakes_at(&self) -> Option<Moment>
        ensures { (now : ℕ) → now < 2 ^ 64 → has_come result now ≡ queue_due self.now now }
    {
        let mut first = self.gives_up_at();
        for sent in &self.in_flight {
            first = earlier(first, sent.future.wakes_at());
        }
        first
    }

    // The moment from which on the time of the first message is over that was not sent.
    fn gives_up_at(&self) -> Option<Moment>
        ensures { (now : ℕ) → now < 2 ^ 64 → has_come result now ≡ is_first_over self.now.send_timeout self.now.unsent now }
    {
        match self.unsent.front() {
            None => None,
            Some(first) => end_of(first.since, self.send_timeout),
        }
    }

    // How many messages were not sent.
    fn unsent_len(&self) -> usize
        ensures { result ≡ length self.now.unsent }
    {
        self.unsent.len()
    }

    // Whether messages are left.
    fn rest(&self) -> Next<Published>
        ensures end { EndsEmpty result self.now }
        ensures nothing { handed result ≡ [] }
        ensures quiet { IsQuiet result self.now }
    {
        if self.unsent_len() == 0 && self.in_flight() == 0 {
            Next::End
        } else {
            Next::Pending
        }
    }

    // Tries to send the messages in order, up to the first that stays or whose outcome is known.
    fn send<R: Wait, L: Link>(
        &mut self,
        rt: &R,
        alloc: Global,
        link: &mut L,
        now: Moment,
    ) -> StepResult
        ensures each { EachHasOne (outcome_of result) self.old self.new }
        ensures runs { Runs now (brought result) (place self.old (L.view link.old)) (place self.new (L.view link.new)) }
        ensures keeps { Keeps self.old self.new }
        ensures sleeps { SendsNothing now result self.old self.new (L.view link.old) (L.view link.new) }
        ensures tried { TriesInOrder now result (place self.old (L.view link.old)) (place self.new (L.view link.new)) }
    {
        let count = self.unsent_len();
        for tried in 0..count {
            match self.send_first(rt, alloc, link, now) {
                StepResult::Made => {}
                step => return step,
            }
        }
        StepResult::Made
    }

    // Tries to send the first message.
    fn send_first<R: Wait, L: Link>(
        &mut self,
        rt: &R,
        alloc: Global,
        link: &mut L,
        now: Moment,
    ) -> StepResult
        ensures sends { TriesFirst now result self.old self.new (L.view link.old) (L.view link.new) }
        ensures keeps { Keeps self.old self.new }
        ensures sleeps { SendsNothing now result self.old self.new (L.view link.old) (L.view link.new) }
        ensures stays { StaysInVain now result self.old self.new (L.view link.old) (L.view link.new) }
    {
        if self.in_flight.reserve(1).is_err() {
            return StepResult::NoMemory;
        }
        let Some(first) = self.unsent.pop_front() else {
            return StepResult::Stays;
        };
        match try_to_send(&first.message, rt, alloc, &mut self.context, link) {
            SendResult::Went(future) => {
                let tag = first.into_tag();
                self.in_flight.push_back_reserved(InFlight { tag, future });
                StepResult::Made
            }
            SendResult::Fails(error) => StepResult::Over(Published {
                tag: first.into_tag(),
                outcome: Err(error),
            }),
            SendResult::Stays(kind) if first.is_over(now, self.send_timeout) => StepResult::Over(
                Published {
                    tag: first.into_tag(),
                    outcome: Err(Error::new(kind)),
                },
            ),
            SendResult::Stays(_) => {
                self.unsent.push_front_reserved(first);
                StepResult::Stays
            }
            SendResult::NoMemory => {
                self.unsent.push_front_reserved(first);
                StepResult::NoMemory
            }
        }
    }

    // Looks at each ack once, up to the first that is known. Those that were looked at go behind the others.
    fn look<R: Wait, L: Link>(
        &mut self,
        rt: &R,
        alloc: Global,
        link: &mut L,
        now: Moment,
    ) -> StepResult
        ensures each { EachHasOne (outcome_of result) self.old self.new }
        ensures runs { Runs now (brought result) (place self.old (L.view link.old)) (place self.new (L.view link.new)) }
        ensures keeps { Keeps self.old self.new }
        ensures sleeps { LooksAtNothing now result self.old self.new (L.view link.old) (L.view link.new) }
        ensures clocks { HaveClocks result self.new }
        ensures looked { LooksAtEach now result self.old self.new (L.view link.old) (L.view link.new) }
    {
        let count = self.in_flight();
        for looked in 0..count {
            match self.look_first(rt, alloc, link, now) {
                StepResult::Made => {}
                step => return step,
            }
        }
        StepResult::Made
    }

    // Looks at the first ack, which goes behind the others where it is not known.
    fn look_first<R: Wait, L: Link>(
        &mut self,
        rt: &R,
        alloc: Global,
        link: &mut L,
        now: Moment,
    ) -> StepResult
        ensures looks { Looks now result self.old self.new (L.view link.old) (L.view link.new) }
        ensures keeps { Keeps self.old self.new }
        ensures sleeps { LooksInVain now result self.old self.new (L.view link.old) (L.view link.new) }
        ensures on { GoesOn result self.old self.new }
    {
        let Some(InFlight { tag, future }) = self.in_flight.pop_front() else {
            return StepResult::Stays;
        };
        match future.poll(rt, alloc, &mut self.context, link, now) {
            Turn::Ready(outcome) => StepResult::Over(Published { tag, outcome }),
            Turn::Pending(future) => {
                self.in_flight.push_back_reserved(InFlight { tag, future });
                StepResult::Made
            }
            Turn::OutOfMemory(future) => {
                self.in_flight.push_back_reserved(InFlight { tag, future });
                StepResult::NoMemory
            }
        }
    }

    /// Ends the queue and returns its context and the messages that were not sent. The acks of
    /// messages in flight are detached, so no permit is lost.
    pub fn close(self) -> Closed
        ensures unsent { result.unsent.items ≡ self.unsent }
        ensures context { Detaches self.in_flight self.context result.context }
    {
        let PublishQueue {
            mut context,
            unsent,
            in_flight,
            next: _,
            send_timeout: _,
        } = self;
        detach_all(&mut context, in_flight);
        Closed { context, unsent }
    }
}
