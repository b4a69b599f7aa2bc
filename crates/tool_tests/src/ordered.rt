//! What the calls of an ordered consumer do that take memory, with enough of it: a list of events, and the same one by one.

use crate::tables::same;
use bytes::Bytes;
use js_base::{Boxed, Message, OutOfMemory, Subject, Text};
use js_json::consumer::Info;
use js_json::{Response, pull, response_as};
use js_json_members::ReadError;
use js_ordered::{
    AtEnd, Event, EventKind, IncrementalReplay, ItemKind, OrderedCore, OrderedSetup, Output,
    ReplayError, ReplayInput, Run, Settings, Start, replay_ordered,
};
use js_pull::Resilience;
use std::alloc::{AllocError, Global};
use std::process::Abort;

const INFO: &str =
    "{\"stream_name\":\"events\",\"name\":\"c1\",\"created\":\"2026-01-01T00:00:00Z\",\"config\":{\"deliver_policy\":\"all\"},\"delivered\":{\"consumer_seq\":0,\"stream_seq\":0},\"ack_floor\":{\"consumer_seq\":0,\"stream_seq\":0},\"num_ack_pending\":0,\"num_redelivered\":0,\"num_waiting\":0,\"num_pending\":0}";

pub(crate) fn info(alloc: Global) -> Result<Info, ReadError> {
    match response_as::<Info>(alloc, INFO.as_bytes())? {
        Response::Ok(info) => Ok(info),
        Response::Err { .. } => Err(ReadError::NotJson),
    }
}

fn settings(api_prefix: Text, inbox_prefix: Text) -> Settings {
    Settings {
        api_prefix,
        inbox_prefix,
        context_timeout: None,
        request_timeout: None,
        retries: 0,
        resilience: Resilience::none(),
    }
}

fn message(subject: Subject, reply: Subject, payload: Bytes) -> Message {
    Message {
        subject,
        reply: Some(reply),
        payload,
        headers: None,
        status: None,
        description: None,
        length: 1,
    }
}

pub(crate) fn received(alloc: Global, reply: &str) -> Result<Message, OutOfMemory> {
    let subject = Subject::new(alloc, "events.a")?;
    let reply = Subject::new(alloc, reply)?;
    let payload = Bytes::copy_from_slice(alloc, b"a")?;
    Ok(message(subject, reply, payload))
}

fn arrival(alloc: Global, at: u64, reply: &str) -> Result<Event, OutOfMemory> {
    let message = Boxed::new(alloc, received(alloc, reply)?)?;
    Ok(Event {
        at,
        what: EventKind::Arrival { inbox: 0, message },
    })
}

// Moments and reply subjects: a message, one that can't be read, and a gap after which a recreation begins.
const ARRIVALS: &[(u64, &str)] = &[
    (1, "$JS.ACK.events.c1.1.4.1.1790230470084404000.0"),
    (2, "events"),
    (3, "$JS.ACK.events.c1.1.6.3.1790230470084404000.0"),
];

fn add(alloc: Global, events: &mut Vec<Event>, at: u64, reply: &str) -> Result<(), OutOfMemory> {
    Ok(events.push(arrival(alloc, at, reply)?)?)
}

fn events(alloc: Global) -> Result<Vec<Event>, OutOfMemory> {
    let mut events = Vec::new(alloc);
    for &(at, reply) in ARRIVALS {
        add(alloc, &mut events, at, reply)?;
    }
    Ok(events)
}

fn kind_of(output: &Output) -> u8 {
    match output {
        Output::Yield { .. } => b'y',
        Output::Item {
            kind: ItemKind::Other,
        } => b'o',
        Output::Item { .. } => b'i',
        Output::Recreate { .. } => b'r',
        Output::Request { .. } => b'q',
        Output::Publish { .. } => b'p',
        Output::Subscribe { .. } => b's',
    }
}

// The kinds of outputs, one letter each, and a stroke after each step.
fn add_kinds(kinds: &mut Vec<u8>, outputs: &[Output]) -> Result<(), AllocError> {
    for output in outputs {
        kinds.push(kind_of(output))?;
    }
    kinds.push(b'/')?;
    Ok(())
}

// The kinds of what a run puts out.
fn kinds_of(alloc: Global, run: &Run) -> Result<Vec<u8>, OutOfMemory> {
    let mut kinds = Vec::new(alloc);
    add_kinds(&mut kinds, run.opening.outputs.as_slice())?;
    for step in run.steps.as_slice() {
        add_kinds(&mut kinds, step.outputs.as_slice())?;
    }
    Ok(kinds)
}

fn input(alloc: Global, settings: Settings, first: Info) -> ReplayInput {
    ReplayInput {
        settings,
        setup: OrderedSetup::Pull(pull::OrderedConfig::new(alloc)),
        first,
    }
}

// A pull consumer of that info, with no filters.
fn pull_input(alloc: Global) -> Result<ReplayInput, ReadError> {
    let api_prefix = Text::from_str(alloc, "$JS.API")?;
    let inbox_prefix = Text::from_str(alloc, "_INBOX.t")?;
    let first = info(alloc)?;
    Ok(input(alloc, settings(api_prefix, inbox_prefix), first))
}

// The kinds of what events put out, and whether the consumer has ended.
type Kinds = Result<(Vec<u8>, Result<bool, ReplayError>), ReadError>;

fn run_kinds(alloc: Global, run: &Result<Run, ReplayError>) -> Kinds {
    match run {
        Ok(run) => Ok((kinds_of(alloc, run)?, Ok(run.ended))),
        Err(error) => Ok((Vec::new(alloc), Err(*error))),
    }
}

// The same of a list of events.
fn kinds_at_once(alloc: Global, given: &ReplayInput, events: &[Event]) -> Kinds {
    let run = replay_ordered(
        alloc,
        &given.settings,
        &given.setup,
        &given.first,
        0,
        events,
    );
    run_kinds(alloc, &run)
}

// The kinds of what events put out one by one, the opening's first.
fn passed_kinds(
    alloc: Global,
    replay: &mut IncrementalReplay<'_>,
    events: &[Event],
) -> Result<Vec<u8>, OutOfMemory> {
    let mut kinds = Vec::new(alloc);
    add_kinds(&mut kinds, replay.outputs())?;
    for event in events {
        replay.advance(alloc, event)?;
        add_kinds(&mut kinds, replay.outputs())?;
    }
    Ok(kinds)
}

// What is generic over a replay or its input does not open how so large a value is let go.
trait PassesEvents: Drop {
    fn passes(&mut self, alloc: Global, events: &[Event]) -> Kinds;
}

impl<'a> PassesEvents for IncrementalReplay<'a> {
    fn passes(&mut self, alloc: Global, events: &[Event]) -> Kinds {
        let kinds = passed_kinds(alloc, self, events)?;
        Ok((kinds, self.end()))
    }
}

fn opened<P: PassesEvents>(
    alloc: Global,
    replay: Result<P, OutOfMemory>,
    events: &[Event],
) -> Kinds {
    match replay {
        Ok(mut replay) => replay.passes(alloc, events),
        Err(OutOfMemory) => Err(ReadError::OutOfMemory),
    }
}

// The same of events one by one.
fn kinds_one_by_one(alloc: Global, given: &ReplayInput, events: &[Event]) -> Kinds {
    let (settings, setup) = (&given.settings, &given.setup);
    let replay = IncrementalReplay::open(alloc, settings, setup, &given.first, 0);
    opened(alloc, replay, events)
}

// Asserts the kinds, and that the consumer has not ended.
fn says_kinds(rt: &impl Abort, row: &str, kinds: Kinds) {
    let (kinds, end) = kinds.expect(rt, row);
    same(rt, row, kinds.as_slice(), b"p/y/o/rq/".as_slice());
    same(rt, row, end, Ok(false));
}

trait Replayed: Drop {
    fn says_both(&self, rt: &impl Abort, alloc: Global, events: &[Event]);
}

impl Replayed for ReplayInput {
    fn says_both(&self, rt: &impl Abort, alloc: Global, events: &[Event]) {
        says_kinds(rt, "at once", kinds_at_once(alloc, self, events));
        says_kinds(rt, "one by one", kinds_one_by_one(alloc, self, events));
    }
}

fn replays<R: Replayed>(
    rt: &impl Abort,
    alloc: Global,
    given: Result<R, ReadError>,
    events: &[Event],
) {
    given.expect(rt, "memory").says_both(rt, alloc, events);
}

#[test]
fn events_are_replayed_at_once_or_one_by_one(rt: HostRuntime) {
    let events = events(rt.alloc()).expect(&rt, "memory");
    replays(&rt, rt.alloc(), pull_input(rt.alloc()), events.as_slice());
}

// The same core, after whose last message the consumer has no number.
fn at_last(core: OrderedCore) -> OrderedCore {
    OrderedCore {
        consumer_sequence: u64::MAX,
        ..core
    }
}

#[test]
fn a_core_accepts_the_next_message_and_starts_after_the_last(rt: HostRuntime) {
    let mut core = OrderedCore::new(None);
    same(&rt, "new", core.restart(), Ok(Start::All));
    same(&rt, "the next", core.accept(9, 1), true);
    same(&rt, "again", core.accept(9, 1), false);
    same(&rt, "after 9", core.restart(), Ok(Start::From(10)));
    same(&rt, "the last", core.accept(u64::MAX, 1), true);
    same(&rt, "at the end", core.restart(), Err(AtEnd));
    let configured = OrderedCore::new(Some(5)).restart();
    same(&rt, "configured", configured, Ok(Start::From(5)));
    let mut last = at_last(core);
    same(&rt, "no number", last.accept(10, u64::MAX), false);
    same(&rt, "none", last.accept(10, 0), false);
}
