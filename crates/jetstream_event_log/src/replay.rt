//! The replay of an ordered consumer: what it does with a list of events, or with one event after another.
pub use js_ordered::{
    AtEnd, Event, EventKind, Field, IncrementalReplay, ItemKind, OrderedSetup, Output, ReplayError,
    Run, Settings, Start, Step, replay_ordered,
};
