//! A local copy of a stream from a start on: each sequence up to its last entry is a message or a hole.
pub use js_event_log::{Mirror, MirrorError, Slot, ack_subject, entry_of};
