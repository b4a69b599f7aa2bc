//! The reader of a push consumer: it returns messages, answers flow control, and reports missing
//! heartbeats.
ghost use Rattle.std.specs.Prelude.{◌≡◌, ◌<◌, ◌^◌, ℕ};
ghost use Rattle.js_link.specs.Calls.{Closes};
ghost use Rattle.js_base.specs.Clock.{has_come};
ghost use Rattle.js_base.specs.Error.{plain};
ghost use Rattle.js_readers.specs.PushRows.{arrival_row, armed, hear, new_messages, next_row, pass, silence_row};
ghost use Rattle.js_readers.specs.PushMessages.{IsPoll, PassesRow, SleepsIfLeftAlone, met_of, something_due};

use crate::push::error::{MessagesError, MessagesErrorKind};
use crate::push::row::{Row, RowOutcome, answer};
use js_base::{
    Error, Moment, Nanos, Next, OutOfMemory, StatusCode, Timer, any_ends_at, is_any_due,
};
use js_link::{InboxId, Link, Taken};
use js_message::Message;
use js_pull::armed_silence;
use std::alloc::Global;
use std::mem;

/// The messages of a push consumer, in the order in which they come.
///
/// It answers flow control, and reports missing heartbeats. Call `close` when you are done with it.
/// Dropping it leaves its inbox open, and the server goes on delivering.
#[derive(Drop)]
#[must_use = "messages come by polls"]
pub struct Messages {
    inbox: u64,
    /// The configured heartbeat of the consumer, in nanoseconds; 0 if it has none.
    heartbeat: Nanos,
    /// Runs for twice the heartbeat, from the last arrival on.
    heartbeat_timer: Option<Timer>,
    next: Row,
    /// How long a double ack of its messages waits, in nanoseconds.
    timeout: Nanos,
}

fn missing_heartbeat() -> MessagesError
    ensures { result ≡ plain MessagesErrorKind.MissingHeartbeat }
{
    Error::new(MessagesErrorKind::MissingHeartbeat)
}

impl Messages {
    // A reader of what comes to that inbox.
    pub(crate) fn new(inbox: u64, heartbeat: Nanos, timeout: Nanos) -> Messages
        ensures { result ≡ new_messages inbox heartbeat timeout }
    {
        Messages {
            inbox,
            heartbeat,
            heartbeat_timer: None,
            next: Row::Arm,
            timeout,
        }
    }

    /// Returns the inbox that it reads.
    pub fn inbox(&self) -> InboxId
        ensures { result.0 ≡ self.now.inbox }
    {
        InboxId(self.inbox)
    }

    /// Ends it, and closes its inbox. What lies in the inbox is lost, and the server delivers
    /// nothing more to it. A heartbeat that is still to be answered gets no answer.
    pub fn close<L: Link>(self, link: &mut L)
        ensures { Closes self.inbox (L.view link.old) (L.view link.new) }
    {
        let inbox = self.inbox();
        drop(self);
        link.unsubscribe(inbox);
    }

    // The heartbeat timer begins anew.
    fn arm(&mut self, now: Moment)
        ensures { self.new ≡ armed now self.old }
    {
        self.heartbeat_timer = armed_silence(now, self.heartbeat);
    }

    fn follow(&mut self, row: Row)
        ensures { self.new ≡ next_row row self.old }
    {
        let passed = mem::replace(&mut self.next, row);
        drop(passed);
    }

    // What is made of a message.
    fn hear(&mut self, message: js_base::Message) -> RowOutcome
        ensures { hear message.status message self.old ≡ record { told = result; messages = self.new } }
    {
        match message.status {
            None => RowOutcome::Hands(message),
            Some(StatusCode(100)) => {
                self.follow(Row::Answer(message));
                RowOutcome::Nothing
            }
            Some(_) => {
                drop(message);
                RowOutcome::Nothing
            }
        }
    }

    // What is made of an empty inbox.
    fn check_silence(&mut self, now: Moment) -> RowOutcome
        ensures { silence_row now self.old ≡ record { told = result; messages = self.new } }
    {
        if is_any_due(&self.heartbeat_timer, now) {
            self.arm(now);
            RowOutcome::MissesHeartbeat
        } else {
            RowOutcome::Waits
        }
    }

    // What is made of what its inbox gave.
    fn check_arrival(&mut self, now: Moment, taken: Taken) -> RowOutcome
        ensures { arrival_row now (met_of taken) self.old ≡ record { told = result; messages = self.new } }
    {
        match taken {
            Taken::Message(message) => {
                self.arm(now);
                self.hear(message)
            }
            Taken::Empty => self.check_silence(now),
            Taken::Closed => {
                self.follow(Row::Ended);
                RowOutcome::Ends
            }
        }
    }

    fn pass<L: Link>(
        &mut self,
        alloc: Global,
        link: &mut L,
        now: Moment,
    ) -> Result<RowOutcome, OutOfMemory>
        ensures { PassesRow result now self.old self.new (L.view link.old) (L.view link.new) }
    {
        match &self.next {
            Row::Arm => {
                self.arm(now);
                self.follow(Row::CheckArrival);
                Ok(RowOutcome::Nothing)
            }
            Row::CheckArrival => {
                let taken = link.take(InboxId(self.inbox));
                Ok(self.check_arrival(now, taken))
            }
            Row::Answer(message) => {
                answer(alloc, link, message)?;
                self.follow(Row::CheckArrival);
                Ok(RowOutcome::Nothing)
            }
            Row::Ended => Ok(RowOutcome::Ends),
        }
    }

    /// Reads the next message or error.
    ///
    /// It skips messages that have a status. It answers a heartbeat, status 100, with an empty
    /// message to the heartbeat's reply subject, or else to the subject in its header
    /// `Nats-Consumer-Stalled`, if it has either. It ignores an answer that the link refuses.
    ///
    /// Returns the error `MissingHeartbeat` if the inbox is empty and nothing has come for twice
    /// the configured heartbeat, provided that is above 0; the timer then starts again. The timer
    /// starts at the first poll, and at each message that comes. A closed inbox is the end, for
    /// good.
    ///
    /// After `Pending` you may sleep until something comes for it or `wakes_at` has come. Polling
    /// earlier does nothing. Only an answer takes memory. If memory runs out for one, the next poll
    /// sends it.
    pub fn poll_next<L: Link>(
        &mut self,
        alloc: Global,
        link: &mut L,
        now: Moment,
    ) -> Next<Result<Message, MessagesError>>
        ensures polls { IsPoll now self.old result self.new (L.view link.old) (L.view link.new) }
        ensures sleeps { SleepsIfLeftAlone now self.old result self.new (L.view link.old) (L.view link.new) }
    {
        self.poll(alloc, link, now)
    }

    fn poll<L: Link>(
        &mut self,
        alloc: Global,
        link: &mut L,
        now: Moment,
    ) -> Next<Result<Message, MessagesError>>
        ensures { IsPoll now self.old result self.new (L.view link.old) (L.view link.new) }
    {
        'rows: loop {
            match self.pass(alloc, link, now) {
                Ok(RowOutcome::Nothing) => continue,
                Ok(RowOutcome::Hands(message)) => {
                    let timeout = self.timeout;
                    return Next::Item(Ok(Message { message, timeout }));
                }
                Ok(RowOutcome::MissesHeartbeat) => {
                    return Next::Item(Err(missing_heartbeat()));
                }
                Ok(RowOutcome::Waits) => return Next::Pending,
                Ok(RowOutcome::Ends) => return Next::End,
                Err(OutOfMemory) => return Next::OutOfMemory,
            }
        }
    }

    /// Returns the first moment at which it has something to do by itself: `Some(0)` if it was
    /// never polled or work of an earlier poll is left, otherwise the moment from which its
    /// heartbeat is missing. `None` if it has no heartbeat, or has ended.
    pub fn wakes_at(&self) -> Option<Moment>
        ensures { (now : ℕ) → now < 2 ^ 64 → has_come result now ≡ something_due now self.now }
    {
        match &self.next {
            Row::Arm | Row::Answer(_) => Some(0),
            Row::CheckArrival => any_ends_at(&self.heartbeat_timer),
            Row::Ended => None,
        }
    }
}
