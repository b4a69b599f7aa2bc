//! Reads and writes lines: the lines of a transcript, which say how an ordered consumer was set up
//! and what happened to it; the lines of a run, which say what it did; and the transcript of a
//! mirror, whose replay hands out the mirror's entries.
//!
//! A line is a JSON value; docs/FORMATS.md describes its form, and `specs/` defines it for the
//! proofs. An error names the first line that cannot be read by its number. Lines in their shortest
//! form are read without building a JSON value, with the same result. What is written is byte for
//! byte the text of the definitions. The transcript that [`relay_text`] writes of a mirror can be
//! read back.
//!
//! A line of a transcript cannot say every event: its payload is a text, and its length is the
//! payload's. An extended line says every event: [`push_extended_event`] writes it, and
//! [`next_line_in`] with [`Lines::Extended`] reads it, and reads the lines of a transcript too. The
//! first line of extended lines may also have the options of a reader that never hangs
//! ([`push_resilience`], [`first_line_in`]); in a transcript they are all off.
#![tactic(auto)]

mod relay;
mod text;
mod transcript;

pub use relay::relay_text;
pub use text::{Cell, field_text, push_end, push_line, push_outputs, push_refused, refusal_line};
pub use transcript::{
    Lines, Payloads, Setup, Transcript, Unread, compact_event, event_line, event_line_in, event_of,
    first_line, first_line_in, is_recordable, next_line, next_line_in, push_event,
    push_extended_event, push_resilience, setup_line, setup_line_in, setup_of,
};
