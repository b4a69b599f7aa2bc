//! One reading of the log.

use crate::lossy_server::LossyServer;
use jetstream::consumer::pull::OrderedPullCalls;
use jetstream::consumer::push::OrderedPushCalls;
use jetstream::consumer::{Resilience, Subscription, pull, push};
use jetstream::link::{ConnectionState, Link, OutboxLink};
use jetstream::{AnyError, Context, Message, Moment, Next, OutOfMemory, Text, TryClone};
use jetstream_testing::TestServer;
use js_ordered_table::place_of;
use std::alloc::Global;
use std::cmp;
use std::sync::Wait;

/// More polls than any reading takes.
const POLLS: u64 = 10_000;

/// The longest that a reading may take: an hour of the server's time.
pub const LONGEST: Moment = 3_600_000_000_000;

/// More than a server does while a reader sleeps.
const ACTS: u64 = 1_000;

/// What a poll comes to.
#[derive(Clone, Copy, PartialEq, Eq)]
enum Polled {
    GoesOn,
    Waits,
    Fails,
}

/// An ordered reader of the log.
pub trait ReadsLog: Subscription<Item = Message> {
    /// Creates a consumer of the log and opens its reader with these options. Answers the reader and
    /// the consumer's name.
    fn open(
        alloc: Global,
        context: &Context,
        link: &mut OutboxLink,
        server: &mut TestServer,
        resilience: Resilience,
    ) -> Result<(Self, Text), AnyError>;
}

/// By pull, four messages a request.
impl ReadsLog for pull::Ordered {
    fn open(
        alloc: Global,
        context: &Context,
        link: &mut OutboxLink,
        server: &mut TestServer,
        resilience: Resilience,
    ) -> Result<(pull::Ordered, Text), AnyError> {
        let config = pull::OrderedConfig {
            max_batch: 4,
            ..pull::OrderedConfig::new(alloc)
        };
        let creating = context.create_consumer_on_stream(alloc, config, "log")?;
        let consumer = server.answer(alloc, link, creating, 0)??;
        let name = consumer.cached_info().name.try_clone()?;
        Ok((consumer.messages_with(alloc, link, resilience)?, name))
    }
}

/// By push, with a heartbeat every five seconds.
impl ReadsLog for push::Ordered {
    fn open(
        alloc: Global,
        context: &Context,
        link: &mut OutboxLink,
        server: &mut TestServer,
        resilience: Resilience,
    ) -> Result<(push::Ordered, Text), AnyError> {
        let subject = link.fresh_subject(alloc)?;
        let config = push::OrderedConfig {
            deliver_subject: Text::from_str(alloc, subject.as_str())?,
            ..push::OrderedConfig::new(alloc)
        };
        let creating = context.create_consumer_on_stream(alloc, config, "log")?;
        let consumer = server.answer(alloc, link, creating, 0)??;
        let name = consumer.cached_info().name.try_clone()?;
        Ok((consumer.messages_with(alloc, link, resilience)?, name))
    }
}

/// Looks at the sequence of a message, which is to be the one after the last.
fn take(last: &mut u64, message: &Message) -> Polled {
    match place_of(&message.message) {
        Some(place) if place.sequence == last.saturating_add(1) => {
            *last = place.sequence;
            Polled::GoesOn
        }
        _ => Polled::Fails,
    }
}

/// What a poll comes to that gave this.
fn come_to<E: Drop>(last: &mut u64, next: Next<Result<Message, E>>) -> Result<Polled, OutOfMemory> {
    match next {
        Next::Item(Ok(message)) => {
            let polled = take(last, &message);
            drop(message);
            Ok(polled)
        }
        // It tells an error and goes on.
        Next::Item(Err(error)) => {
            drop(error);
            Ok(Polled::GoesOn)
        }
        Next::Pending => Ok(Polled::Waits),
        Next::End => Ok(Polled::Fails),
        Next::OutOfMemory => Err(OutOfMemory),
    }
}

/// One reading: the reader's end, and the server.
#[derive(Drop)]
pub struct Round<R> {
    link: OutboxLink,
    reader: R,
    server: LossyServer,
    now: Moment,
    /// The sequence of the last entry that was yielded.
    last: u64,
    /// Whether it is looked at a nanosecond before it is to wake.
    looks_before: bool,
}

/// A reader of the log, over a server that begins to lose things.
fn open<R: ReadsLog>(
    rt: &(impl Wait + AllocGlobal),
    link: &mut OutboxLink,
    server: &mut LossyServer,
    resilience: Resilience,
    seed: u64,
) -> Result<R, AnyError> {
    let context = Context::new(rt, rt.alloc())?;
    let opened = R::open(rt.alloc(), &context, link, server.plain_mut(), resilience);
    drop(context);
    let (reader, name) = opened?;
    server.begin(seed, name);
    Ok(reader)
}

impl<R: ReadsLog> Round<R> {
    /// The reading of a seed, by a reader with these options.
    pub fn new(
        rt: &(impl Wait + AllocGlobal),
        resilience: Resilience,
        seed: u64,
    ) -> Result<Round<R>, AnyError> {
        let mut link = OutboxLink::new(rt.alloc(), "_INBOX", "t")?;
        link.set_state(ConnectionState::Connected);
        let mut server = LossyServer::new(rt.alloc(), seed)?;
        let reader = open::<R>(rt, &mut link, &mut server, resilience, seed)?;
        Ok(Round {
            link,
            reader,
            server,
            now: 0,
            last: 0,
            looks_before: seed % 2 == 1,
        })
    }

    /// Reads the log to its end, and answers whether each entry was yielded once, in order.
    pub fn is_complete(&mut self, alloc: Global) -> Result<bool, OutOfMemory> {
        for _ in 0..POLLS {
            if let Some(is_complete) = self.step(alloc)? {
                return Ok(is_complete);
            }
        }
        Ok(false)
    }

    /// Polls, and answers where the reading is at its end then.
    fn step(&mut self, alloc: Global) -> Result<Option<bool>, OutOfMemory> {
        match self.poll(alloc)? {
            Polled::GoesOn => Ok(None),
            Polled::Fails => Ok(Some(false)),
            Polled::Waits if self.last == self.server.last() => Ok(Some(self.now <= LONGEST)),
            Polled::Waits => self.wait(alloc),
        }
    }

    fn wait(&mut self, alloc: Global) -> Result<Option<bool>, OutOfMemory> {
        if self.sleep(alloc)? {
            Ok(None)
        } else {
            Ok(Some(false))
        }
    }

    fn poll(&mut self, alloc: Global) -> Result<Polled, OutOfMemory> {
        let next = self.reader.poll_next(alloc, &mut self.link, self.now);
        come_to(&mut self.last, next)
    }

    /// Lets time go on until something comes for the reader or it is to wake, and answers whether that happens.
    fn sleep(&mut self, alloc: Global) -> Result<bool, OutOfMemory> {
        if self.server.serve(alloc, &mut self.link, self.now)? {
            return Ok(true);
        }
        let wakes = self.reader.wakes_at().unwrap_or(Moment::MAX);
        for _ in 0..ACTS {
            let acts = self.server.wakes_at().unwrap_or(Moment::MAX);
            if wakes <= acts {
                return self.wake(alloc, wakes);
            }
            self.now = cmp::max(self.now, acts);
            if self.server.act(alloc, &mut self.link, self.now)? {
                return Ok(true);
            }
        }
        Ok(false)
    }

    /// The moment has come at which it is to be polled. Answers whether it slept before.
    fn wake(&mut self, alloc: Global, wakes: Moment) -> Result<bool, OutOfMemory> {
        let sleeps = !self.looks_before || self.sleeps(alloc, wakes)?;
        self.now = cmp::max(self.now, wakes);
        Ok(sleeps && wakes < Moment::MAX)
    }

    /// Whether a poll just before this moment finds nothing to do.
    fn sleeps(&mut self, alloc: Global, wakes: Moment) -> Result<bool, OutOfMemory> {
        let before = cmp::max(self.now, wakes.saturating_sub(1));
        if before >= wakes {
            return Ok(true);
        }
        self.now = before;
        let waits = self.poll(alloc)? == Polled::Waits;
        Ok(waits && self.link.outgoing_len() == 0 && self.reader.wakes_at() == Some(wakes))
    }
}
