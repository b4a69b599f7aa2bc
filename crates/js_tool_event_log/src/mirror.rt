//! The messages that a replay yields, and the holes between them.

ghost use Rattle.std.specs.Prelude.{◌≡◌, ◌-◌, ◌++◌, IfOk, OnOk};
ghost use Rattle.js_event_log.specs.RunProjection.{not_rising as not_rising_in};
ghost use Rattle.js_tool_event_log.specs.LogTexts.{counts_text, hole_text, last_after, message_text, mirror_text, slots_text};
ghost use Rattle.js_tool_event_log.specs.Report.{unless_falling};

use crate::report::{Report, done, not_rising};
use js_base::{Entry, Items, OutOfMemory};
use js_tool_transcript::{Cell, push_line};
use std::alloc::{AllocError, Global};

/// Returns the messages from a start on, and the holes between them.
pub(crate) fn mirror(
    alloc: Global,
    start: u64,
    entries: Items<Entry>,
) -> Result<Report, OutOfMemory>
    ensures { IfOk result (λ r. r ≡ unless_falling (not_rising_in (start - 1) entries) (mirror_text start entries)) }
{
    match not_rising_from(start.saturating_sub(1), entries.as_slice()) {
        None => {
            let text = mirror_of(alloc, start, entries.as_slice())?;
            Ok(done(text))
        }
        Some(last) => not_rising(alloc, last),
    }
}

// The sequence before the first that does not rise, from above a number on.
fn not_rising_from(from: u64, entries: &[Entry]) -> Option<u64>
    ensures { result ≡ not_rising_in from entries.now }
{
    let mut last = from;
    for entry in entries {
        if entry.sequence <= last {
            return Some(last);
        }
        last = entry.sequence;
    }
    None
}

fn mirror_of(alloc: Global, start: u64, entries: &[Entry]) -> Result<Vec<u8>, AllocError>
    ensures { IfOk result (λ text. text.items ≡ mirror_text start entries.now) }
{
    let before = start.saturating_sub(1);
    let mut out = Vec::new(alloc);
    let last = push_slots(&mut out, before, entries)?;
    push_counts(&mut out, start, last, entries.len() as u64)?;
    Ok(out)
}

fn push_slots(out: &mut Vec<u8>, from: u64, entries: &[Entry]) -> Result<u64, AllocError>
    ensures text { OnOk result (out.new.items ≡ out.old.items ++ slots_text from entries.now) }
    ensures last { IfOk result (λ last. last ≡ last_after from entries.now) }
{
    let mut last = from;
    for entry in entries {
        push_hole(out, last, entry.sequence)?;
        push_message(out, entry)?;
        last = entry.sequence;
    }
    Ok(last)
}

fn push_hole(out: &mut Vec<u8>, last: u64, sequence: u64) -> Result<(), AllocError>
    ensures { OnOk result (out.new.items ≡ out.old.items ++ hole_text last sequence) }
{
    if sequence.saturating_sub(last) > 1 {
        push_line(
            out,
            &[
                Cell::Text(b"hole"),
                Cell::Number(last + 1),
                Cell::Number(sequence - 1),
            ],
        )?;
    }
    Ok(())
}

fn push_message(out: &mut Vec<u8>, entry: &Entry) -> Result<(), AllocError>
    ensures { OnOk result (out.new.items ≡ out.old.items ++ message_text entry.now) }
{
    push_line(
        out,
        &[
            Cell::Text(b"message"),
            Cell::Number(entry.sequence),
            Cell::Text(entry.subject.as_str().as_bytes()),
            Cell::Text(entry.payload.as_slice()),
        ],
    )
}

fn push_counts(out: &mut Vec<u8>, start: u64, last: u64, messages: u64) -> Result<(), AllocError>
    ensures { OnOk result (out.new.items ≡ out.old.items ++ counts_text start last messages) }
{
    push_line(
        out,
        &[
            Cell::Text(b"mirror"),
            Cell::Number(start),
            Cell::Number(last),
            Cell::Number(messages),
            Cell::Number(
                last.saturating_sub(start.saturating_sub(1))
                    .saturating_sub(messages),
            ),
        ],
    )
}
