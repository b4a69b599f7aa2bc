//! One batch of messages, and how you poll it.
ghost use Rattle.std.specs.Prelude.{◌≡◌, ◌<◌, ◌==◌, ◌^◌, ℕ, Some};
ghost use Rattle.js_link.specs.Calls.{Closes};
ghost use Rattle.js_base.specs.Clock.{has_come};
ghost use Rattle.js_ordered_stream.specs.Inbox.{ClosesInbox};
ghost use Rattle.js_readers.specs.BatchItem.{arrival_of};
ghost use Rattle.js_readers.specs.Batch.{ClosesIf, PollsBatch, SleepsIfQuiet, after_message, batch_due, ended, heard, heard_message, inbox_id, new_batch};
ghost use Rattle.js_readers.specs.BatchRuns.{KeepsItsNumber, StaysEnded};

use crate::pull::batch_item::{ArrivalKind, BatchItemError, arrival_of};
use js_base::{Moment, Nanos, Next, Timer, is_any_due};
use js_link::{InboxId, Link, Taken};
use js_message::Message;

/// One batch of messages. It returns at most as many as were asked for, and then ends.
///
/// It closes its inbox when it ends. Dropping it earlier leaves the inbox open, even if it asked
/// for no messages and was never polled. Call `close` to end it and close its inbox.
#[derive(Drop)]
#[must_use = "messages come by polls"]
pub struct Batch {
    /// Its inbox; `None` once it has ended.
    inbox: Option<u64>,
    /// How many messages are still to come.
    left: u64,
    /// How long it waits; `None` for no limit.
    timer: Option<Timer>,
    /// How long a double ack of its messages waits, in nanoseconds.
    timeout: Nanos,
}

/// What a batch makes of what came from its inbox.
#[derive(Drop)]
pub(crate) enum BatchOutcome {
    /// A heartbeat: the batch looks at what comes next.
    Skips,
    /// Nothing has come, and its time is not over.
    Waits,
    Hands(js_base::Message),
    Refuses(BatchItemError),
    Ends,
}

// What a batch makes of a message.
fn heard_message(mut message: js_base::Message) -> BatchOutcome
    ensures { result ≡ heard_message (arrival_of message.status) message }
{
    match arrival_of(message.status) {
        ArrivalKind::Delivered => BatchOutcome::Hands(message),
        ArrivalKind::Heartbeat => {
            drop(message);
            BatchOutcome::Skips
        }
        ArrivalKind::Over => {
            drop(message);
            BatchOutcome::Ends
        }
        ArrivalKind::Refusal(status) => {
            let description = message.description.take();
            drop(message);
            BatchOutcome::Refuses(BatchItemError {
                status,
                description,
            })
        }
    }
}

impl Batch {
    // A batch of so many messages, which come to that inbox.
    pub(crate) fn new(inbox: u64, left: u64, timer: Option<Timer>, timeout: Nanos) -> Batch
        ensures { result ≡ new_batch inbox left timer timeout }
    {
        Batch {
            inbox: Some(inbox),
            left,
            timer,
            timeout,
        }
    }

    /// Returns the inbox that it reads; `None` once it has ended.
    pub fn inbox(&self) -> Option<InboxId>
        ensures { result ≡ inbox_id self.now.inbox }
    {
        match self.inbox {
            None => None,
            Some(inbox) => Some(InboxId(inbox)),
        }
    }

    /// Ends it, and closes its inbox if that is still open. What lies in the inbox is lost. Its
    /// request that is open at the server expires by itself.
    pub fn close<L: Link>(self, link: &mut L)
        ensures { ClosesInbox (inbox_id self.inbox) (L.view link.old) (L.view link.new) }
    {
        match self.inbox {
            None => {}
            Some(inbox) => link.unsubscribe(InboxId(inbox)),
        }
    }

    // What it makes of what its inbox gave at that moment.
    fn heard(&self, now: Moment, taken: Taken) -> BatchOutcome
        ensures { result ≡ heard now self.now taken }
    {
        match taken {
            Taken::Message(message) => heard_message(message),
            Taken::Closed => BatchOutcome::Ends,
            Taken::Empty => {
                if is_any_due(&self.timer, now) {
                    BatchOutcome::Ends
                } else {
                    BatchOutcome::Waits
                }
            }
        }
    }

    // It ends, and closes its inbox.
    fn end<L: Link>(&mut self, link: &mut L, inbox: u64)
        ensures batch { self.new ≡ ended self.old }
        ensures link { Closes inbox (L.view link.old) (L.view link.new) }
    {
        link.unsubscribe(InboxId(inbox));
        self.inbox = None;
    }

    // One message is handed out. With the last one it ends.
    fn count<L: Link>(&mut self, link: &mut L, inbox: u64)
        requires { 0 < self.old.left }
        ensures batch { self.new ≡ after_message self.old }
        ensures link { ClosesIf (self.old.left == 1) inbox (L.view link.old) (L.view link.new) }
    {
        self.left -= 1;
        if self.left == 0 {
            self.end(link, inbox);
        }
    }

    /// Reads the next message, or what the server says in place of one.
    ///
    /// Returns `Pending` if its inbox is empty and its time is not over. It ends after as many
    /// messages as were asked for, at status 404 or 408, if its inbox is empty and its time is
    /// over, and if its inbox is closed. It skips heartbeats. Any other status is returned as one
    /// error, and ends the batch. Takes no memory.
    ///
    /// After `Pending` you may sleep until something comes for it or `wakes_at` has come. Polling
    /// earlier does nothing.
    pub fn poll_next<L: Link>(
        &mut self,
        link: &mut L,
        now: Moment,
    ) -> Next<Result<Message, BatchItemError>>
        ensures polls { PollsBatch now self.old result self.new (L.view link.old) (L.view link.new) }
        ensures sleeps { SleepsIfQuiet now self.old result self.new (L.view link.old) (L.view link.new) }
    {
        self.poll(link, now)
    }

    fn poll<L: Link>(&mut self, link: &mut L, now: Moment) -> Next<Result<Message, BatchItemError>>
        ensures { PollsBatch now self.old result self.new (L.view link.old) (L.view link.new) }
    {
        let Some(inbox) = self.inbox else {
            return Next::End;
        };
        if self.left == 0 {
            self.end(link, inbox);
            return Next::End;
        }
        'arrivals: loop {
            let taken = link.take(InboxId(inbox));
            match self.heard(now, taken) {
                BatchOutcome::Skips => continue,
                BatchOutcome::Waits => return Next::Pending,
                BatchOutcome::Hands(message) => {
                    let timeout = self.timeout;
                    self.count(link, inbox);
                    return Next::Item(Ok(Message { message, timeout }));
                }
                BatchOutcome::Refuses(error) => {
                    self.end(link, inbox);
                    return Next::Item(Err(error));
                }
                BatchOutcome::Ends => {
                    self.end(link, inbox);
                    return Next::End;
                }
            }
        }
    }

    /// Returns the first moment at which it has something to do by itself: when its time is over,
    /// or `Some(0)` if no message is left to come, since it then ends at the next poll. `None` if
    /// it has no time limit, or has ended.
    pub fn wakes_at(&self) -> Option<Moment>
        ensures { (now : ℕ) → now < 2 ^ 64 → has_come result now ≡ batch_due now self.now }
    {
        match (self.inbox, &self.timer) {
            (None, _) => None,
            (Some(_), _) if self.left == 0 => Some(0),
            (Some(_), None) => None,
            (Some(_), Some(timer)) => timer.ends_at(),
        }
    }
}

/// A batch returns at most as many messages as were asked for, however you poll it. A law: calling
/// it does nothing.
pub fn batches_keep_their_number()
    ensures { KeepsItsNumber }
{}

/// A batch that has ended returns only `End`. A law: calling it does nothing.
pub fn ended_batches_stay_ended()
    ensures { StaysEnded }
{}
