//! The replay of an ordered consumer: what it would do with a list of events, or with one event
//! after another.
//!
//! [`replay_ordered`] returns the run of js_ordered_table's table over the events, or fails with
//! the refusal that applies or with `OutOfMemory`. It never refuses valid input.
//! [`IncrementalReplay`] is the same replay, but it takes its events one by one and keeps none of
//! them. Its end returns whether the run has ended, or fails with the refusal that applies. If
//! memory runs out, it stops within its event and continues there.
#![tactic(auto)]

mod drive;
mod event_context;
mod incremental_replay;
mod opening;
mod replay;
mod task_stack;

pub use incremental_replay::IncrementalReplay;
pub use js_ordered_table::{
    Arrival, AtEnd, Consumer, Event, EventKind, Field, ItemKind, Opened, OrderedCore, OrderedSetup,
    Output, Phase, PushKind, Recreation, ReplayError, ReplayInput, ReplayState, Row, Run, Settings,
    Stage, Start, Step, push_kind,
};
pub use replay::replay_ordered;
