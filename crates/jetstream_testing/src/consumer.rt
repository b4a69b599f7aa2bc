//! A consumer: which message it delivers next, and to whom.

ghost use Rattle.std.specs.Prelude.{◌≡◌, ◌+◌, ◌-◌, ◌^◌, None, Some, OnOk, min};

use crate::configs::{AckPolicy, ConsumerConfig, Start, matches_any};
use crate::connection::Connection;
use crate::log::{Log, Stored};
use crate::pulls::{Pull, count_down, wait_end};
use crate::times::stamp;
use js_base::{Moment, OutOfMemory, Subject, Text, TryClone, both};
use std::alloc::Global;
use std::collections::VecDeque;

// A message that was delivered and is not acknowledged.
#[derive(Clone, Copy)]
pub(crate) struct Unacked {
    // Its sequence in the stream.
    pub(crate) sequence: u64,
    // Its number among the consumer's deliveries, at the last of them.
    pub(crate) number: u64,
    // How often it was delivered.
    pub(crate) deliveries: u64,
    // When it is delivered again.
    pub(crate) due: Moment,
}

// What is delivered next: a message of the stream for the first time, or one that is due again.
#[derive(Clone, Copy)]
struct Choice {
    sequence: u64,
    // How often it is delivered then.
    deliveries: u64,
    // Its place among the unacknowledged messages, if it is one.
    place: Option<usize>,
}

impl Choice {
    // An unacknowledged message at this place, once more.
    fn again(place: usize, unacked: &Unacked) -> Choice
        ensures message { result.sequence ≡ unacked.now.sequence }
        ensures counted { result.deliveries ≡ min (unacked.now.deliveries + 1) (2 ^ 64 - 1) }
        ensures place { result.place ≡ Some place }
    {
        Choice {
            sequence: unacked.sequence,
            deliveries: unacked.deliveries.saturating_add(1),
            place: Some(place),
        }
    }

    // A message of the stream for the first time.
    fn first(stored: &Stored) -> Choice
        ensures message { result.sequence ≡ stored.now.sequence }
        ensures counted { result.deliveries ≡ 1 }
        ensures place { result.place ≡ None }
    {
        Choice {
            sequence: stored.sequence,
            deliveries: 1,
            place: None,
        }
    }
}

// A consumer of a stream.
#[derive(Drop)]
pub(crate) struct Consumer {
    pub(crate) name: Text,
    pub(crate) config: ConsumerConfig,
    pub(crate) created: Moment,
    // The sequence from which on it looks for the next message.
    next: u64,
    // The sequence of the first message that was stored after the consumer was created.
    first_new: u64,
    // How many deliveries it has made.
    pub(crate) number: u64,
    // The sequence of the last message that it delivered.
    pub(crate) last: u64,
    pub(crate) unacked: Vec<Unacked>,
    pub(crate) pulls: VecDeque<Pull>,
    // When a push consumer sent something for the last time.
    heard: Moment,
}

impl Consumer {
    pub(crate) fn new(
        alloc: Global,
        name: Text,
        config: ConsumerConfig,
        log: &Log,
        now: Moment,
    ) -> Consumer {
        let next = start_in(log, &config);
        Consumer {
            name,
            config,
            created: now,
            next,
            first_new: log.last_sequence.saturating_add(1),
            number: 0,
            last: 0,
            unacked: Vec::new(alloc),
            pulls: VecDeque::new(alloc),
            heard: now,
        }
    }

    // Whether it delivers a message of the stream that lies from `next` on.
    fn wants(&self, log: &Log, stored: &Stored) -> bool {
        matches_any(&self.config.filters, stored.subject.as_str())
            && (self.config.start != Start::LastPerSubject
                || stored.sequence >= self.first_new
                || log.is_last_before(stored, self.first_new))
    }

    // How many messages of the stream it has not delivered yet.
    pub(crate) fn pending(&self, log: &Log) -> u64 {
        log.from(self.next)
            .iter()
            .filter(|stored| self.wants(log, stored))
            .count() as u64
    }

    // Delivers all that it may deliver now, ends the pull requests that are over, and sends the
    // heartbeats that are due.
    pub(crate) fn serve(
        &mut self,
        alloc: Global,
        log: &Log,
        connection: &mut Connection,
    ) -> Result<(), OutOfMemory> {
        self.pulls
            .retain(|pull| connection.is_heard(pull.inbox.as_str()));
        self.give_up(log, connection.now());
        let most = self.unacked.len().saturating_add(log.messages.len());
        for _ in 0..most {
            if !self.deliver_next(alloc, log, connection)? {
                break;
            }
        }
        self.end_pulls(alloc, connection)?;
        self.beat(alloc, connection)
    }

    // Gives up messages that are due again and were removed, or were delivered as often as the
    // consumer may.
    fn give_up(&mut self, log: &Log, now: Moment) {
        let limit = self.config.max_deliver;
        self.unacked.retain(|unacked| {
            unacked.due > now
                || (log.at(unacked.sequence).is_some()
                    && (limit == 0 || unacked.deliveries < limit))
        });
    }

    // What it delivers next, if there is anything.
    fn choose(&self, log: &Log, now: Moment) -> Option<Choice> {
        if let Some(place) = self.unacked.iter().position(|unacked| unacked.due <= now) {
            let unacked = self.unacked.get(place)?;
            return Some(Choice::again(place, unacked));
        }
        if self.unacked.len() as u64 >= self.config.max_ack_pending {
            return None;
        }
        let mut messages = log.from(self.next).iter();
        let stored = messages.find(|stored| self.wants(log, stored))?;
        Some(Choice::first(stored))
    }

    // Where the next message goes: the inbox of the first pull request, or the deliver subject if
    // anyone listens there.
    fn reader(&self, connection: &Connection) -> Result<Option<Subject>, OutOfMemory> {
        match &self.config.deliver_to {
            None => match self.pulls.front() {
                None => Ok(None),
                Some(pull) => Ok(Some(pull.inbox.try_clone()?)),
            },
            Some(subject) => {
                if !connection.is_heard(subject.as_str()) {
                    return Ok(None);
                }
                Ok(Some(subject.try_clone()?))
            }
        }
    }

    // Delivers the next message, and returns whether there was one and somebody to take it.
    fn deliver_next(
        &mut self,
        alloc: Global,
        log: &Log,
        connection: &mut Connection,
    ) -> Result<bool, OutOfMemory> {
        let now = connection.now();
        let Some(choice) = self.choose(log, now) else {
            return Ok(false);
        };
        let Some(to) = self.reader(connection)? else {
            return Ok(false);
        };
        let noted = self.note(choice, now);
        let (to, ()) = both(Ok(to), noted)?;
        self.send(alloc, log, connection, to, choice)?;
        Ok(true)
    }

    // Keeps what was delivered.
    fn note(&mut self, choice: Choice, now: Moment) -> Result<(), OutOfMemory>
        ensures number { OnOk result (self.new.number ≡ min (self.old.number + 1) (2 ^ 64 - 1)) }
        ensures last { OnOk result (self.new.last ≡ choice.sequence) }
    {
        self.number = self.number.saturating_add(1);
        self.last = choice.sequence;
        self.heard = now;
        let unacked = Unacked {
            sequence: choice.sequence,
            number: self.number,
            deliveries: choice.deliveries,
            due: now.saturating_add(self.config.ack_wait),
        };
        count_down(&mut self.pulls, now);
        match choice.place {
            Some(place) => put_again(&mut self.unacked, place, unacked),
            None => {
                self.next = choice.sequence.saturating_add(1);
                if self.config.ack_policy != AckPolicy::None {
                    self.unacked.push(unacked)?;
                }
            }
        }
        Ok(())
    }

    fn send(
        &self,
        alloc: Global,
        log: &Log,
        connection: &mut Connection,
        to: Subject,
        choice: Choice,
    ) -> Result<(), OutOfMemory> {
        let message = match log.at(choice.sequence) {
            None => return Ok(()),
            Some(stored) => stored.to_message(self.ack_subject(alloc, log, stored, choice)),
        };
        let (to, message) = both(Ok(to), message)?;
        connection.deliver(to, message)
    }

    // The reply subject of a delivery: where the message stands, and where it is acknowledged.
    fn ack_subject(
        &self,
        alloc: Global,
        log: &Log,
        stored: &Stored,
        choice: Choice,
    ) -> Result<Subject, OutOfMemory> {
        let (stream, consumer) = (&log.name, &self.name);
        let (deliveries, sequence, number) = (choice.deliveries, choice.sequence, self.number);
        let (stamp, pending) = (stamp(stored.stored), self.pending(log));
        let text = format!(in alloc;
            "$JS.ACK.{stream}.{consumer}.{deliveries}.{sequence}.{number}.{stamp}.{pending}"
        )?;
        Ok(Subject::from(text))
    }

    // The first moment at which an unacknowledged message is due again, or `u64::MAX`.
    fn due_at(&self) -> Moment {
        let mut first = u64::MAX;
        for unacked in self.unacked.as_slice() {
            first = first.min(unacked.due);
        }
        first
    }

    // The first moment at which it has something to send of itself, or `u64::MAX`.
    pub(crate) fn wakes_at(&self, connection: &Connection) -> Moment {
        match &self.config.deliver_to {
            None if self.pulls.is_empty() => u64::MAX,
            None => self.due_at().min(self.pulls_wake_at()),
            Some(subject) if !connection.is_heard(subject.as_str()) => u64::MAX,
            Some(_) => self
                .due_at()
                .min(wait_end(self.heard, self.config.heartbeat)),
        }
    }

    // Sends a push consumer's heartbeat, if one is due.
    fn beat(&mut self, alloc: Global, connection: &mut Connection) -> Result<(), OutOfMemory> {
        let now = connection.now();
        let wait = self.config.heartbeat;
        let Some(subject) = &self.config.deliver_to else {
            return Ok(());
        };
        if wait == 0 || now < self.heard.saturating_add(wait) {
            return Ok(());
        }
        self.heard = now;
        let rows = [
            ("Nats-Last-Consumer", self.number),
            ("Nats-Last-Stream", self.last),
        ];
        connection.beat(alloc, subject.as_str(), &rows)
    }
}

// What is known of an unacknowledged message is replaced.
fn put_again(known: &mut Vec<Unacked>, place: usize, unacked: Unacked) {
    if let Some(known) = known.get_mut(place) {
        *known = unacked;
    }
}

// The sequence from which on a new consumer looks for messages.
fn start_in(log: &Log, config: &ConsumerConfig) -> u64 {
    match config.start {
        Start::All | Start::LastPerSubject => 1,
        Start::New => log.last_sequence.saturating_add(1),
        Start::Last => log.last_of_any(&config.filters),
        Start::Sequence(sequence) => sequence,
    }
}
