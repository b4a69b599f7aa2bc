//! A session of an ordered consumer: its setup, its lines, and its result.

use js_base::{Items, Moment};
use js_json::consumer::Info;
use js_ordered::{Event, OrderedSetup, Run, Settings};

/// A line of a session.
#[derive(Drop)]
pub enum Line {
    /// Something that happens to the consumer.
    Event(Event),
    /// Commits everything yielded so far.
    Save,
}

/// One session of an ordered consumer, which may stop anywhere: the arguments of its replay, with
/// saves among its events.
#[derive(Drop)]
pub struct Session {
    pub settings: Settings,
    pub setup: OrderedSetup,
    /// The server's info about the consumer that was created before the opening.
    pub first: Info,
    /// The moment of the opening. Moments are compared only within a session.
    pub start: Moment,
    pub lines: Items<Line>,
}

/// The result of a session.
#[derive(Drop)]
pub struct SessionRun {
    /// The run of the session's events.
    pub run: Run,
    /// The number of committed yields.
    pub committed: u64,
    /// The bookmark after the session: the sequence at which the next session starts.
    pub next: u64,
}
