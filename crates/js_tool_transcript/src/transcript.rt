//! Transcripts: a setup, and the events that happen to a consumer.

ghost use Rattle.std.specs.Prelude.{◌≡◌, Ok};
ghost use Rattle.js_tool_transcript.specs.Transcript.{GivesLines, numbered};
ghost use Rattle.js_tool_transcript.specs.ExtendedSetup.{setup_line_in as first_in};
ghost use Rattle.js_tool_transcript.specs.Setup.{setup_line as setup_in};
ghost use Rattle.js_tool_transcript.specs.declared.transcript.setup.Setup as setups;
ghost use Rattle.js_ordered_table.specs.declared.event.Event as events;
ghost use Rattle.js_tool_transcript.specs.Event.{event_line as event_in, event_line_in as line_of};
ghost use Rattle.js_tool_transcript.specs.declared.transcript.Unread.TheVariants.{OutOfMemory};

mod compact;
mod event;
mod event_text;
mod extended;
mod extended_name;
mod extended_text;
mod lines;
mod members;
mod message;
mod payloads;
mod resilience;
mod setup;

pub use compact::compact_event;
pub use event::{event_line, event_line_in, event_of};
pub use event_text::{is_recordable, push_event};
pub use extended_text::push_extended_event;
use js_base::Items;
use js_json_members::ReadError;
use js_ordered_table::Event;
pub use lines::Lines;
pub use payloads::Payloads;
pub use resilience::push_resilience;
pub use setup::{Setup, setup_line, setup_line_in, setup_of};
use std::alloc::{AllocFailed, Global};

/// A setup and the events after it. Only contracts use this type; no value of it is ever created.
#[derive(Drop)]
pub struct Transcript {
    pub setup: Setup,
    pub events: Items<Event>,
}

/// Why a transcript could not be read.
#[derive(Clone, Copy, Debug, PartialEq, Eq)]
pub enum Unread {
    /// Memory ran out for the content of a line. The line may be readable.
    OutOfMemory,
    /// The first line that cannot be read, counted from 1.
    BadLine(u64),
}

impl<T: Drop> From<AllocFailed<T>> for Unread {
    ghost from_gives = { λ _ e. e ≡ OutOfMemory };

    fn from(_e: AllocFailed<T>) -> Unread {
        Unread::OutOfMemory
    }
}

/// Reads the setup on the first line of a transcript.
///
/// # Errors
///
/// Fails with `BadLine(1)` if the line is no setup: it is no JSON object, has a key that a setup
/// does not have, lacks a key, or has a value that cannot be read. Fails with `OutOfMemory` if
/// memory runs out; this may come instead of `BadLine`.
pub fn first_line(alloc: Global, line: &[u8]) -> Result<Setup, Unread>
    ensures { GivesLines (λ s. s) result (numbered 1 (setup_in line.now)) }
{
    first_line_in(alloc, Lines::Plain, line)
}

/// Reads the setup on the first line of a form, as [`first_line`] does. The first line of a
/// transcript reads the same in both forms.
///
/// # Errors
///
/// Fails as `first_line` does. In `Lines::Extended` the line may have one more key, `resilience`,
/// and also is no setup if that is no object, has a key that names no option, or has an option that
/// is neither true nor false.
pub fn first_line_in(alloc: Global, lines: Lines, line: &[u8]) -> Result<Setup, Unread>
    ensures setup { GivesLines (λ s. s) result (numbered 1 (first_in lines line.now)) }
    ensures plain { (said : setups.Setup) → setup_in line.now ≡ Ok said → GivesLines (λ s. s) result (Ok said) }
{
    numbered_setup(alloc, lines, line)
}

fn numbered_setup(alloc: Global, lines: Lines, line: &[u8]) -> Result<Setup, Unread>
    ensures { GivesLines (λ s. s) result (numbered 1 (first_in lines line.now)) }
{
    match setup_line_in(alloc, lines, line) {
        Ok(setup) => Ok(setup),
        Err(ReadError::OutOfMemory) => Err(Unread::OutOfMemory),
        Err(_) => Err(Unread::BadLine(1)),
    }
}

/// Reads the event on a further line. `number` is the line's number; the first line has number 1.
/// The event's payload is kept in the room that short payloads share.
///
/// # Errors
///
/// Fails with `BadLine(number)` if the line is no event: it is no JSON object, has a key that an
/// event does not have, lacks a key, has a value that cannot be read, or names a second thing that
/// happens. Fails with `OutOfMemory` if memory runs out; this may come instead of `BadLine`.
pub fn next_line(
    alloc: Global,
    payloads: &mut Payloads,
    number: u64,
    line: &[u8],
) -> Result<Event, Unread>
    ensures { GivesLines (λ e. e) result (numbered number (event_in line.now)) }
{
    next_line_in(alloc, payloads, Lines::Plain, number, line)
}

/// Reads the event on a further line of a form, as [`next_line`] does. A line of a transcript reads
/// the same in both forms.
///
/// # Errors
///
/// Fails as `next_line` does. In `Lines::Extended` a message may have two more keys, and the line
/// also is no event if a `payload_base64` is no base64 or stands beside a `payload`, or if a
/// `length` is no number of 64 bits.
pub fn next_line_in(
    alloc: Global,
    payloads: &mut Payloads,
    lines: Lines,
    number: u64,
    line: &[u8],
) -> Result<Event, Unread>
    ensures event { GivesLines (λ e. e) result (numbered number (line_of lines line.now)) }
    ensures plain { (said : events.Event) → event_in line.now ≡ Ok said → GivesLines (λ e. e) result (Ok said) }
{
    numbered_line(alloc, payloads, lines, number, line)
}

fn numbered_line(
    alloc: Global,
    payloads: &mut Payloads,
    lines: Lines,
    number: u64,
    line: &[u8],
) -> Result<Event, Unread>
    ensures { GivesLines (λ e. e) result (numbered number (line_of lines line.now)) }
{
    match event_line_in(alloc, payloads, lines, line) {
        Ok(event) => Ok(event),
        Err(ReadError::OutOfMemory) => Err(Unread::OutOfMemory),
        Err(_) => Err(Unread::BadLine(number)),
    }
}
