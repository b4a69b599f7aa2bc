//! A table of the last entry of each subject. An entry with an empty payload deletes its subject.
pub use js_event_log::{ApplyError, Projection, RunProjection, entry_of, project};
