//! The ordered consumer as a table: what it consists of, what each event does to it, row by row,
//! and what is proved of every run.
//!
//! An ordered consumer reads a stream in order. If a message is missing, its heartbeats stop or the
//! server has lost it, it is recreated after the last message that it handed out. The table in
//! `specs/` is its whole behaviour: a row takes the consumer and what happened, and returns the
//! consumer after it, its outputs, and the rows that follow at once. What is proved of the table
//! holds for all code that follows it: if the server is honest, the messages handed out have no
//! gap; the consumer sequences of one inbox are 1, 2, 3 and so on; and each step recreates the
//! consumer at most once.
//!
//! The module [`transitions`] has the rows as code, one function each. A function is told what its
//! row met, takes no memory and always succeeds. The replay (js_ordered) and the polled readers
//! (js_ordered_stream) use the same functions. `specs/` and `proofs/` also say what a polled reader
//! does with them, in one poll and in all polls since its opening. [`worked_runs_leave_no_gap`] is
//! a law: worked runs meet the premises and the conclusion of the theorem on gaps.
#![tactic(auto)]

mod answer;
mod consumer;
mod consumer_context;
mod event;
mod kind;
mod ordered_core;
mod place;
pub mod pull_source;
mod refusal;
mod replay_state;
mod row;
mod run;
mod setup;
pub mod texts;
mod timers;
pub mod transitions;
mod worked;

pub use answer::{Change, RequestOutcome, change_of};
pub use consumer::{Consumer, Opened, Phase, Recreation, ReplayInput, Stage};
pub use consumer_context::ConsumerContext;
pub use event::{Event, EventKind};
pub use js_pull::Resilience;
pub use kind::{PushKind, answer_subject, beat_subject, push_kind};
pub use ordered_core::{AtEnd, OrderedCore};
pub use place::{Place, place_of, yield_of};
pub use refusal::refuse_input;
pub use replay_state::{ReplayState, next_number};
pub use row::{Arrival, Row};
pub use run::{Field, ItemKind, Output, ReplayError, Run, Start, Step};
pub use setup::{OrderedSetup, Settings};
pub use timers::phase_wakes_at;
pub use worked::worked_runs_leave_no_gap;
