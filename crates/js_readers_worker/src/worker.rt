//! A worker: one message at a time, from its taking to its acknowledgement.
ghost use Rattle.std.specs.Prelude.{◌≡◌, ◌<◌, ◌^◌, ℕ, None, true, false};
ghost use Rattle.std.specs.Option.{option_copied};
ghost use Rattle.js_base.specs.Clock.{has_come};
ghost use Rattle.js_readers.specs.Subscription.{IdlesIfQuiet, KeepsConnection};
ghost use Rattle.js_readers_worker.specs.Worker.{ClosesWorker, IsDone, IsWorkerQuiet, NaksJob, PollsWorker, ReleasesJob, Settles, TakesNext, job_after, message_of, new_worker, told_by_ack, told_of, worker_due};
ghost use Rattle.js_readers_worker.specs.WorkerRuns.{SettlesInTurn, TakesNothing};

use crate::error::WorkerError;
use crate::job::Job;
use js_base::{Moment, Nanos, Next, replace_with};
use js_link::{InboxId, Link};
use js_message::{AckError, AckKind, Message};
use js_readers::Subscription;
use std::alloc::Global;

/// A worker of a queue. It takes one message at a time from the subscription that it reads, keeps it
/// while you work on it, and acknowledges it once: by `ack`, `nak` or `term`.
///
/// While it has a message, its polls take no other. When half of the ack wait has passed since the
/// message was taken, or since the last time that it did this, a poll sends the server that the
/// message is still being worked on (`AckKind::Progress`), and the ack wait begins anew there.
///
/// The server counts the ack wait from the delivery, and a message lies in the link until it is
/// taken. A stream asks for 200 messages at a time: if your work is long, ask for fewer by
/// `max_messages_per_batch`, so that none waits in the link longer than the ack wait.
///
/// To stop, call `stop`, finish the message that it has, and call `close`. What the link has and the
/// worker did not take is delivered again after the ack wait.
#[derive(Drop)]
#[must_use = "messages come by polls"]
pub struct Worker<R> {
    reader: R,
    job: Option<Job>,
    /// The ack wait of the consumer, in nanoseconds; 0 if its messages have none.
    ack_wait: Nanos,
    is_stopped: bool,
}

// What is told of an extension that came to this.
fn told_by_ack<E>(told: Option<AckError>) -> Next<Result<(), WorkerError<E>>>
    ensures { result ≡ told_by_ack told }
{
    match told {
        None => Next::Pending,
        Some(AckError::OutOfMemory) => Next::OutOfMemory,
        Some(error) => Next::Item(Err(WorkerError::Ack(error))),
    }
}

// Naks a message that is left. If that cannot be sent, the server delivers it again after its ack wait.
fn nak_left<L: Link>(alloc: Global, link: &mut L, job: Option<Job>)
    ensures { NaksJob job (L.view link.old) (L.view link.new) }
{
    let Some(job) = job else {
        return;
    };
    let _ = job.settle(alloc, link, AckKind::Nak(None));
    drop(job);
}

impl<R: Subscription<Item = Message>> Worker<R> {
    /// Creates a worker of the messages that `reader` reads. `ack_wait` is that of the consumer, in
    /// nanoseconds: `consumer.info.config.ack_wait`. If it is 0, the worker never sends that a
    /// message is still being worked on.
    ///
    /// However you call it, it settles each message that it takes before it takes another, by one
    /// of `ack`, `nak`, `term` and `release`, and sends that a message is still being worked on only
    /// between the taking and the settling.
    pub fn new(reader: R, ack_wait: Nanos) -> Worker<R>
        ensures starts { result ≡ new_worker reader ack_wait }
        ensures in_turn { SettlesInTurn R.polls result }
    {
        Worker {
            reader,
            job: None,
            ack_wait,
            is_stopped: false,
        }
    }

    /// Takes the next message, or extends the ack wait of the message that it has if that is due.
    ///
    /// - `Item(Ok(()))`: it took a message, which `message` returns.
    /// - `Item(Err(error))`: the subscription returned an error in place of a message, or the link
    ///   did not send that the message is still being worked on. In the second case it tries again
    ///   after another half of the ack wait.
    /// - `Pending`: there is no message to take; or it has a message, and nothing else is to be done.
    /// - `End`: the subscription has ended, or the worker was stopped and has no message.
    /// - `OutOfMemory`: free memory and poll again.
    ///
    /// After `Pending` you may sleep until something comes for it or `wakes_at` has come. Polling
    /// earlier sends nothing.
    pub fn poll<L: Link>(
        &mut self,
        alloc: Global,
        link: &mut L,
        now: Moment,
    ) -> Next<Result<(), WorkerError<R::Error>>>
        ensures polls { PollsWorker R.polls now self.old result self.new (L.view link.old) (L.view link.new) }
        ensures keeps { KeepsConnection (L.view link.old) (L.view link.new) }
        ensures idles { IdlesIfQuiet (worker_due R.due) (IsWorkerQuiet R.quiet) now self.old self.new (L.view link.old) (L.view link.new) result }
    {
        if let Some(job) = &mut self.job {
            return told_by_ack(job.extend(alloc, link, now, self.ack_wait));
        }
        if self.is_stopped {
            return Next::End;
        }
        self.take(alloc, link, now)
    }

    // Takes the next message of its reader.
    fn take<L: Link>(
        &mut self,
        alloc: Global,
        link: &mut L,
        now: Moment,
    ) -> Next<Result<(), WorkerError<R::Error>>>
        requires idle { self.old.job ≡ None }
        requires goes_on { self.old.is_stopped ≡ false }
        ensures takes { TakesNext R.polls now self.old result self.new (L.view link.old) (L.view link.new) }
        ensures keeps { KeepsConnection (L.view link.old) (L.view link.new) }
        ensures idles { IdlesIfQuiet (worker_due R.due) (IsWorkerQuiet R.quiet) now self.old self.new (L.view link.old) (L.view link.new) result }
    {
        let answer = self.reader.poll_next(alloc, link, now);
        self.begin(now, answer)
    }

    // Begins the work on the message that its reader answered, or tells what it answered in place of one.
    fn begin(
        &mut self,
        now: Moment,
        answer: Next<Result<Message, R::Error>>,
    ) -> Next<Result<(), WorkerError<R::Error>>>
        requires { self.old.job ≡ None }
        ensures told { result ≡ told_of answer }
        ensures begins { self.new ≡ record self.old { job = job_after now self.old.ack_wait answer } }
    {
        match answer {
            Next::Item(Ok(message)) => {
                let job = Job::new(message, now, self.ack_wait);
                replace_with(&mut self.job, Some(job));
                Next::Item(Ok(()))
            }
            Next::Item(Err(error)) => Next::Item(Err(WorkerError::Subscription(error))),
            Next::Pending => Next::Pending,
            Next::End => Next::End,
            Next::OutOfMemory => Next::OutOfMemory,
        }
    }

    /// Returns the message that is being worked on, if there is one. Acknowledge it by the worker's
    /// own calls, and not by those of the message.
    pub fn message(&self) -> Option<&Message>
        ensures { option_copied result ≡ message_of self.now.job }
    {
        match &self.job {
            None => None,
            Some(job) => Some(&job.message),
        }
    }

    /// Tells the server that the message was handled, and lets go of it. Returns whether there was a
    /// message.
    ///
    /// Fails with `NoReply` if the message has no reply subject; the worker lets go of it. Fails
    /// with `LinkFailed` if the link could not send, and with `OutOfMemory` if memory runs out:
    /// nothing was sent, and the worker still has the message.
    pub fn ack<L: Link>(&mut self, alloc: Global, link: &mut L) -> Result<bool, AckError>
        ensures settles { Settles AckKind.Ack self.old result self.new (L.view link.old) (L.view link.new) }
    {
        self.settle(alloc, link, AckKind::Ack)
    }

    /// Asks the server to deliver the message again, at once or after `delay` nanoseconds, and lets
    /// go of it. Returns and fails as `ack` does.
    pub fn nak<L: Link>(
        &mut self,
        alloc: Global,
        link: &mut L,
        delay: Option<Nanos>,
    ) -> Result<bool, AckError>
        ensures settles { Settles (AckKind.Nak delay) self.old result self.new (L.view link.old) (L.view link.new) }
    {
        self.settle(alloc, link, AckKind::Nak(delay))
    }

    /// Tells the server not to deliver the message again, and lets go of it. Returns and fails as
    /// `ack` does.
    pub fn term<L: Link>(&mut self, alloc: Global, link: &mut L) -> Result<bool, AckError>
        ensures settles { Settles AckKind.Term self.old result self.new (L.view link.old) (L.view link.new) }
    {
        self.settle(alloc, link, AckKind::Term)
    }

    // Sends what became of the message, and lets go of it once that was sent or can never be.
    fn settle<L: Link>(
        &mut self,
        alloc: Global,
        link: &mut L,
        kind: AckKind,
    ) -> Result<bool, AckError>
        ensures { Settles kind self.old result self.new (L.view link.old) (L.view link.new) }
    {
        let Some(job) = &self.job else {
            return Ok(false);
        };
        match job.settle(alloc, link, kind) {
            Ok(()) => self.let_go(Ok(true)),
            Err(AckError::NoReply) => self.let_go(Err(AckError::NoReply)),
            Err(error) => Err(error),
        }
    }

    // Lets go of the message, and answers this.
    fn let_go(&mut self, answer: Result<bool, AckError>) -> Result<bool, AckError>
        ensures answer { result ≡ answer }
        ensures left { self.new ≡ record self.old { job = None } }
    {
        replace_with(&mut self.job, None);
        answer
    }

    /// Lets go of the message without a word. The server delivers it again after its ack wait.
    /// Returns whether there was a message.
    pub fn release(&mut self) -> bool
        ensures { ReleasesJob self.old result self.new }
    {
        let is_held = self.job.is_some();
        replace_with(&mut self.job, None);
        is_held
    }

    /// Stops the worker: from now on it takes no message. One that it has stays, and its ack wait is
    /// extended as before until you settle it.
    pub fn stop(&mut self)
        ensures stops { self.new ≡ record self.old { is_stopped = true } }
        ensures takes_nothing { TakesNothing R.polls self.new }
    {
        self.is_stopped = true;
    }

    /// Returns whether it was stopped and has no message: nothing is left to be done but `close`.
    pub fn is_done(&self) -> bool
        ensures { IsDone result self.now }
    {
        self.is_stopped && self.job.is_none()
    }

    /// Returns the subscription that it reads.
    pub fn reader(&self) -> &R
        ensures { result.now ≡ self.now.reader }
    {
        &self.reader
    }

    /// Returns the open inbox of the subscription that it reads, if there is one.
    pub fn inbox(&self) -> Option<InboxId>
        ensures { result ≡ R.opened self.now.reader }
    {
        self.reader.inbox()
    }

    /// Returns the first moment at which it has something to do by itself: when the ack wait of its
    /// message has to be extended, or else when its subscription has something to do. `None` if
    /// there is no such moment, and once it was stopped and has no message.
    pub fn wakes_at(&self) -> Option<Moment>
        ensures { (now : ℕ) → now < 2 ^ 64 → has_come result now ≡ worker_due R.due now self.now }
    {
        match &self.job {
            Some(job) => job.wakes_at(),
            None if self.is_stopped => None,
            None => self.reader.wakes_at(),
        }
    }

    /// Ends it, and closes the inbox of its subscription. A message that is still being worked on is
    /// naked first, so that the server delivers it again at once. If that cannot be sent, the server
    /// delivers it again after its ack wait, as it does with all that lies in the inbox.
    pub fn close<L: Link>(self, alloc: Global, link: &mut L)
        ensures { ClosesWorker (R.opened self.reader) self.job (L.view link.old) (L.view link.new) }
    {
        let Worker {
            reader,
            job,
            ack_wait: _,
            is_stopped: _,
        } = self;
        nak_left(alloc, link, job);
        reader.close(link);
    }
}
