//! What an ordered consumer is created with, and its state.
use crate::ordered_core::OrderedCore;
use crate::run::Start;
use crate::setup::{OrderedSetup, Settings};
use js_base::{Items, Message, State, Subject, Text, Timer};
use js_json::consumer;
use js_pull::Reader;

/// What a consumer is created with.
#[derive(Drop)]
pub struct ReplayInput {
    pub settings: Settings,
    pub setup: OrderedSetup,
    /// The first consumer's info, as the server sent it.
    pub first: consumer::Info,
}

/// What a recreation waits for.
#[derive(Clone, Copy)]
pub enum Stage {
    /// Nothing: a row follows at once.
    Between,
    /// The answer to the request that deletes the old consumer.
    Deleting { request: u64, timeout: Timer },
    /// The answer to the request that creates the new one.
    Creating { request: u64, timeout: Timer },
    /// The time of the next try.
    Waiting { wait: Timer },
}

/// The inbox that push opened for a create request, with the arrivals that are held until the
/// request is answered.
#[derive(Drop)]
pub struct Opened {
    pub inbox: u64,
    pub subject: Subject,
    pub held: Items<Message>,
}

/// An open recreation: it deletes the old consumer and creates a new one.
#[derive(Drop)]
pub struct Recreation {
    pub old_name: Text,
    pub new_name: Text,
    pub start: Start,
    /// The number of tries that have failed.
    pub failures: u64,
    pub opened: Option<Opened>,
    pub stage: Stage,
}

/// What a consumer is doing.
#[derive(Drop)]
pub enum Phase {
    /// Pull: a reader has the current inbox.
    Pulls(Reader),
    /// Push: the current inbox, and its heartbeat timer, which started when the inbox last received
    /// something.
    Pushes { inbox: u64, heartbeat_timer: Timer },
    Recreates(Recreation),
    /// The consumer has neither a current inbox nor an open recreation. The next event begins a
    /// recreation.
    Idle,
    Ended,
    /// Ended, because a recreation had no sequence to start from.
    Exhausted,
}

/// An ordered consumer.
#[derive(Drop)]
pub struct Consumer {
    pub phase: Phase,
    /// What was yielded, and where a recreation starts.
    pub core: OrderedCore,
    /// The name of the consumer that was requested last.
    pub name: Text,
    /// Pull: whether a heartbeat is missing, and nothing was handed out since.
    pub missed: bool,
    /// Pull: whether a limit was met, and nothing was accepted since.
    pub limited: bool,
    /// Whether the last answer to a create request said that the stream is not found, and the
    /// option to report that is on.
    pub stream_missing: bool,
    pub connection: State,
}
