//! Logs, read from what an ordered consumer hands out, in three forms.
//!
//! - A [`Projection`] keeps the last entry of each subject, as a key-value bucket does. An entry
//!   with an empty payload deletes its subject.
//! - A [`Mirror`] is a local copy of a stream from a start on: each sequence up to its last entry
//!   is a message or a hole. Two mirrors are merged in one pass.
//! - [`Mirror::relay`] serves a mirror again: it returns the events whose replay hands out the
//!   mirror's entries.
//!
//! [`project`] and [`RunProjection`] apply a run to a projection. With an honest server, the table
//! of what was handed out is the table of the server's own log, provided that every removed entry
//! had been superseded by a later one. Each hole of a mirror is then a sequence that was removed or
//! that the filters do not match.
#![tactic(auto)]

mod events;
mod mirror;
mod output_entry;
mod projection;
mod run_projection;
mod worked_runs;

pub use events::ack_subject;
pub use mirror::{Mirror, MirrorError, Slot};
pub use output_entry::entry_of;
pub use projection::{ApplyError, Projection};
pub use run_projection::{RunProjection, project};
pub use worked_runs::worked_tables;
