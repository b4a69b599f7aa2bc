//! What a consumer is made with, and what happens to it.
ghost use Rattle.std.specs.Prelude.{◌≤◌};

use crate::polled::consumer::PolledConsumer;
use js_base::OutOfMemory;
use js_ordered::{Event, ReplayError, ReplayInput, Run, replay_ordered};
use js_tool_generate::{generated, replay_input};
use js_tool_transcript::{Payloads, Setup, Unread, first_line, next_line};
use std::alloc::Global;
use std::test::Fail;

/// What has a replay, and a polled consumer beside it. What is generic over it does not open how so large a value is let go.
pub(crate) trait Replayed: Drop {
    /// The run of its replay.
    fn run(&self, alloc: Global) -> Result<Run, ReplayError>;

    /// How many steps of the run a polled consumer does too, and whether it has ended.
    fn polled(self, alloc: Global, run: &Run) -> Result<(u64, bool), Fail>;
}

/// A consumer's setup, and its events.
#[derive(Drop)]
pub(crate) struct Transcript {
    setup: Setup,
    events: Vec<Event>,
}

impl Replayed for Transcript {
    fn run(&self, alloc: Global) -> Result<Run, ReplayError> {
        let Setup {
            settings,
            setup,
            first,
            start,
        } = &self.setup;
        replay_ordered(alloc, settings, setup, first, *start, &self.events)
    }

    fn polled(self, alloc: Global, run: &Run) -> Result<(u64, bool), Fail> {
        let Transcript { setup, events } = self;
        let start = setup.start;
        let mut consumer = PolledConsumer::open(alloc, setup)?;
        let polled = (consumer.count(alloc, start, events, run), consumer.ended);
        drop(consumer);
        Ok(polled)
    }
}

// What the lines behind the first one say.
fn read_lines(alloc: Global, payloads: &mut Payloads, text: &str) -> Result<Vec<Event>, Unread> {
    let mut events = Vec::new(alloc);
    let mut number: u64 = 2;
    for line in text.lines() {
        events.push(next_line(alloc, payloads, number, line.as_bytes())?)?;
        number = number.saturating_add(1);
    }
    Ok(events)
}

fn read_events(alloc: Global, text: &str) -> Result<Vec<Event>, Unread> {
    let mut payloads = Payloads::new(alloc);
    let events = read_lines(alloc, &mut payloads, text);
    drop(payloads);
    events
}

/// What the lines of a transcript say.
pub(crate) fn read(alloc: Global, setup: &str, events: &str) -> Result<Transcript, Unread> {
    let events = read_events(alloc, events)?;
    let setup = first_line(alloc, setup.as_bytes())?;
    Ok(Transcript { setup, events })
}

/// So many events that a seed gives, and their consumer.
pub(crate) fn drawn(alloc: Global, seed: u64, count: u64) -> Result<Transcript, OutOfMemory>
    requires { count ≤ 200_000 }
{
    let events = generated(alloc, seed, count)?;
    let ReplayInput {
        settings,
        setup,
        first,
    } = replay_input(alloc)?;
    let setup = Setup {
        settings,
        setup,
        first,
        start: 0,
    };
    Ok(Transcript { setup, events })
}
