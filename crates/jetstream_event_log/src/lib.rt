//! Event logs over what an ordered consumer hands out. List this crate in your program beside
//! `jetstream`.
//!
//! | Module | What it contains |
//! |---|---|
//! | [`replay`] | what an ordered consumer does with a list of events, or with one event after another |
//! | [`projection`] | a table of the last entry of each subject, as a key-value bucket keeps it |
//! | [`mirror`] | a local copy of a stream, with its holes, that can be merged and served again |
//! | [`table`] | a live table of the keys of a bucket, and the messages that write to it |
//! | [`bookmark`] | sessions of a consumer that stops, starts again and goes on from its bookmark |
//!
//! # A consumer that stops and starts again
//!
//! ```text
//! let entry = entry_of_message(message)?; // 1. what is kept of a message of an ordered consumer
//! projection.apply(entry)?;               // 2. the table, or `mirror.push(entry)?` the copy
//! save(projection.last() + 1);            // 3. the bookmark, beside what was made of the messages before it
//! ```
//!
//! At the next start, configure the consumer to begin at the bookmark
//! (`DeliverPolicy::ByStartSequence`). From the first bookmark to the last message, nothing is
//! missing except removed messages.
#![tactic(auto)]

pub mod bookmark;
mod bucket_limits;
mod entry;
mod key_places;
pub mod mirror;
pub mod projection;
pub mod replay;
mod session_rows;
pub mod table;
mod table_reader;

pub use entry::entry_of_message;
pub use js_base::Entry;
