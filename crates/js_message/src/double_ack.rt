//! Acknowledgements that wait for the server's answer, as a state that you poll.
ghost use Rattle.std.specs.Prelude.{◌≡◌, ◌<◌, ◌^◌, ℕ, IfOk};
ghost use Rattle.std.specs.Option.{option_copied};
ghost use Rattle.js_message.specs.Acknowledgement.{ack_body, unsent, opened, waiting, PollsOf, OpensAndSends, FailsToOpen, SendsAck, FindsNone, Looks};
ghost use Rattle.js_base.specs.Clock.{has_come};
ghost use Rattle.js_message.specs.Wakes.{Sleeps, WaitsIn, awaited_inbox, times_out};

use crate::ack_kind::AckKind;
use crate::acker::AckError;
use bytes::Bytes;
use js_base::{Moment, Nanos, OutOfMemory, Subject, TryClone, Turn, both, due, end_of};
use js_link::{InboxId, Link, LinkError, Taken};
use std::alloc::Global;

/// A body to send to a reply subject, and how long to wait for its answer.
#[derive(Debug, PartialEq, Eq, Drop)]
pub(crate) struct Outgoing {
    to: Subject,
    body: Bytes,
    timeout: Nanos,
}

/// How far a double ack has come.
#[derive(Debug, PartialEq, Eq, Drop)]
pub(crate) enum Stage {
    Unsent,
    /// Its inbox is open under this subject, and nothing was sent.
    Opened(InboxId, Subject),
    /// It was sent at this moment.
    Waiting(InboxId, Moment),
}

/// An acknowledgement that waits for the server's answer to it.
///
/// Poll it to its end: dropping it earlier leaves its inbox open. Any message on that inbox is the
/// answer: after `AckKind::Next` that is the consumer's next message, which is lost, and if the
/// consumer was deleted, a message of status 503.
#[derive(Debug, PartialEq, Eq, Drop)]
#[must_use = "its answer comes by polls"]
pub struct DoubleAck {
    outgoing: Option<Outgoing>,
    stage: Stage,
}

/// What one poll returns.
type Polled = Turn<DoubleAck, Result<(), AckError>>;

// A double ack that has not begun.
pub(crate) fn double_acknowledge(
    alloc: Global,
    timeout: Nanos,
    reply: Option<&Subject>,
    kind: AckKind,
) -> Result<DoubleAck, OutOfMemory>
    ensures { IfOk result (λ call. call ≡ unsent timeout (option_copied reply.entry) (ack_body kind)) }
{
    let Some(reply) = reply else {
        return Ok(DoubleAck {
            outgoing: None,
            stage: Stage::Unsent,
        });
    };
    let (to, body) = both(reply.try_clone(), kind.to_bytes(alloc))?;
    let outgoing = Outgoing { to, body, timeout };
    Ok(outgoing.at(Stage::Unsent))
}

impl DoubleAck {
    /// Takes the next step. The first poll opens an inbox, sends the body with that inbox's subject
    /// as its reply, and starts the clock. Each poll looks for the answer, and then at the clock.
    /// Any message that arrives is the answer. At its end it closes the inbox.
    ///
    /// Fails with `NoReply` if the message has no reply subject, with `LinkFailed` if the link could
    /// not open the inbox or send, with `TimedOut` if the timeout is over and no answer has come,
    /// and with `SubscriptionDropped` if the inbox was closed. After `OutOfMemory` an inbox that was
    /// opened stays open, and the next poll begins with the send.
    ///
    /// After `Pending` you may sleep until its inbox has a message, the inbox is closed, or
    /// `wakes_at` has come. Polling earlier changes nothing.
    pub fn poll<L: Link>(
        self,
        alloc: Global,
        link: &mut L,
        now: Moment,
    ) -> Turn<DoubleAck, Result<(), AckError>>
        ensures polled { PollsOf self now result (L.view link.old) (L.view link.new) }
        ensures sleeps { Sleeps self now result (L.view link.old) (L.view link.new) }
    {
        let DoubleAck { outgoing, stage } = self;
        let Some(outgoing) = outgoing else {
            drop(stage);
            return Turn::Ready(Err(AckError::NoReply));
        };
        match stage {
            Stage::Unsent => outgoing.open(alloc, link, now),
            Stage::Opened(inbox, subject) => outgoing.send(alloc, link, now, inbox, subject),
            Stage::Waiting(inbox, since) => outgoing.look(link, now, inbox, since),
        }
    }

    /// Returns the inbox in which its answer comes. Returns `None` if you should poll at once,
    /// because it was not sent or has no reply subject.
    ///
    /// Until that inbox has a message, the inbox is closed, or `wakes_at` has come, polling changes
    /// nothing.
    pub fn inbox(&self) -> Option<InboxId>
        ensures value { result ≡ awaited_inbox self.now }
        ensures waits { WaitsIn result self.now }
    {
        match (&self.outgoing, &self.stage) {
            (Some(_), Stage::Waiting(inbox, _)) => Some(*inbox),
            _ => None,
        }
    }

    /// Returns the moment at which its timeout is over. Returns `None` if you should poll at once,
    /// because it was not sent or has no reply subject, or if its timeout would end past `u64::MAX`.
    pub fn wakes_at(&self) -> Option<Moment>
        ensures { (now : ℕ) → now < 2 ^ 64 → has_come result now ≡ times_out self.now now }
    {
        let outgoing = self.outgoing.as_ref()?;
        match self.stage {
            Stage::Unsent => None,
            Stage::Opened(..) => None,
            Stage::Waiting(_, since) => end_of(since, outgoing.timeout),
        }
    }
}

impl Outgoing {
    ghost use Rattle.std.specs.Prelude.{◌⊎◌, Some};

    // The double ack that has come this far.
    fn at(self, stage: Stage) -> DoubleAck
        ensures { result ≡ record { outgoing = Some self; stage = stage } }
    {
        DoubleAck {
            outgoing: Some(self),
            stage,
        }
    }

    // Opens an inbox, and goes on.
    fn open<L: Link>(self, alloc: Global, link: &mut L, now: Moment) -> Polled
        ensures { FailsToOpen self result (L.view link.old) (L.view link.new) ⊎ OpensAndSends self now result (L.view link.old) (L.view link.new) }
    {
        match link.open_inbox(alloc) {
            Ok((inbox, subject)) => self.send(alloc, link, now, inbox, subject),
            Err(LinkError::Failed) => {
                drop(self);
                Turn::Ready(Err(AckError::LinkFailed))
            }
            Err(LinkError::OutOfMemory) => Turn::OutOfMemory(self.at(Stage::Unsent)),
        }
    }

    // Sends the body, and goes on.
    fn send<L: Link>(
        self,
        alloc: Global,
        link: &mut L,
        now: Moment,
        inbox: InboxId,
        subject: Subject,
    ) -> Polled
        ensures { SendsAck self inbox.0 subject now result (L.view link.old) (L.view link.new) }
    {
        let reply = Some(subject.as_str());
        match link.publish(alloc, self.to.as_str(), reply, None, self.body.as_slice()) {
            Ok(()) => {
                drop(subject);
                self.look(link, now, inbox, now)
            }
            Err(LinkError::Failed) => {
                drop((self, subject));
                link.unsubscribe(inbox);
                Turn::Ready(Err(AckError::LinkFailed))
            }
            Err(LinkError::OutOfMemory) => {
                Turn::OutOfMemory(self.at(Stage::Opened(inbox, subject)))
            }
        }
    }

    // Looks for the answer, and then at the clock.
    fn look<L: Link>(self, link: &mut L, now: Moment, inbox: InboxId, since: Moment) -> Polled
        ensures { Looks self inbox.0 since now result (L.view link.old) (L.view link.new) }
    {
        match link.take(inbox) {
            Taken::Message(message) => {
                drop((self, message));
                link.unsubscribe(inbox);
                Turn::Ready(Ok(()))
            }
            Taken::Closed => {
                drop(self);
                Turn::Ready(Err(AckError::SubscriptionDropped))
            }
            Taken::Empty => self.look_at_clock(link, now, inbox, since),
        }
    }

    // Ends where the timeout is over, and else goes on waiting.
    fn look_at_clock<L: Link>(
        self,
        link: &mut L,
        now: Moment,
        inbox: InboxId,
        since: Moment,
    ) -> Polled
        ensures { FindsNone inbox.0 (L.view link.old) → Looks self inbox.0 since now result (L.view link.old) (L.view link.new) }
    {
        if due(now, since, self.timeout) {
            drop(self);
            link.unsubscribe(inbox);
            Turn::Ready(Err(AckError::TimedOut))
        } else {
            Turn::Pending(self.at(Stage::Waiting(inbox, since)))
        }
    }
}
