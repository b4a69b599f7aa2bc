//! The table of what a replay yields.

ghost use Rattle.std.specs.Prelude.{◌≡◌, ◌++◌, [], flat_map, IfOk, OnOk};
ghost use Rattle.js_event_log.specs.RunProjection.{not_rising as not_rising_in};
ghost use Rattle.js_event_log.specs.Projection.{last_sequence, matched, table, up_to};
ghost use Rattle.js_tool_event_log.specs.LogTexts.{entry_text, rows_text, shown, table_text};
ghost use Rattle.js_tool_event_log.specs.Report.{Applies, unless_falling};

use crate::report::{Report, done, not_rising};
use js_base::{Entry, Items, OutOfMemory};
use js_event_log::{ApplyError, Projection};
use js_tool_transcript::{Cell, push_line};
use std::alloc::{AllocError, Global};

/// Returns the rows of the table whose subject matches a filter, up to `sequence` if it is given.
pub(crate) fn project(
    alloc: Global,
    filter: &str,
    sequence: Option<u64>,
    entries: Items<Entry>,
) -> Result<Report, OutOfMemory>
    ensures { IfOk result (λ r. r ≡ unless_falling (not_rising_in 0 entries) (table_text filter.now sequence entries)) }
{
    let last = last_shown(sequence, entries.as_slice());
    match projection_of(alloc, entries) {
        Ok(projection) => {
            let rows = rows_of(&projection, filter, sequence);
            drop(projection);
            let rows = rows?;
            let text = table_of(alloc, &rows, last)?;
            Ok(done(text))
        }
        Err(ApplyError::NotRising { last }) => not_rising(alloc, last),
        Err(ApplyError::OutOfMemory) => Err(OutOfMemory),
    }
}

fn projection_of(alloc: Global, entries: Items<Entry>) -> Result<Projection, ApplyError>
    ensures { Applies entries result }
{
    let mut projection = Projection::new(alloc);
    for entry in entries.into_vec() {
        projection.apply(entry)?;
    }
    Ok(projection)
}

fn rows_of(
    projection: &Projection,
    filter: &str,
    sequence: Option<u64>,
) -> Result<Vec<Entry>, OutOfMemory>
    ensures { IfOk result (λ rows. rows.items ≡ matched filter.now (table (shown sequence projection.now))) }
{
    match sequence {
        None => projection.matching(filter),
        Some(sequence) => projection.at(sequence, filter),
    }
}

// The sequence of the last entry that is shown.
fn last_shown(sequence: Option<u64>, entries: &[Entry]) -> u64
    ensures { result ≡ last_sequence (shown sequence entries.now) }
{
    match sequence {
        None => last_of(entries),
        Some(sequence) => last_up_to(entries, sequence),
    }
}

fn last_of(entries: &[Entry]) -> u64
    ensures { result ≡ last_sequence entries.now }
{
    match entries.last() {
        None => 0,
        Some(entry) => entry.sequence,
    }
}

fn last_up_to(entries: &[Entry], sequence: u64) -> u64
    ensures { result ≡ last_sequence (up_to sequence entries.now) }
{
    let mut last = 0;
    for entry in entries {
        if entry.sequence <= sequence {
            last = entry.sequence;
        }
    }
    last
}

fn table_of(alloc: Global, rows: &[Entry], last: u64) -> Result<Vec<u8>, AllocError>
    ensures { IfOk result (λ text. text.items ≡ rows_text rows.now last) }
{
    let mut out = Vec::new(alloc);
    push_rows(&mut out, rows)?;
    push_line(
        &mut out,
        &[
            Cell::Text(b"table"),
            Cell::Number(rows.len() as u64),
            Cell::Number(last),
        ],
    )?;
    Ok(out)
}

fn push_rows(out: &mut Vec<u8>, rows: &[Entry]) -> Result<(), AllocError>
    ensures { OnOk result (out.new.items ≡ out.old.items ++ flat_map entry_text rows.now) }
{
    for row in rows {
        push_row(out, row)?;
    }
    Ok(())
}

fn push_row(out: &mut Vec<u8>, row: &Entry) -> Result<(), AllocError>
    ensures { OnOk result (out.new.items ≡ out.old.items ++ entry_text row.now) }
{
    push_line(
        out,
        &[
            Cell::Text(b"entry"),
            Cell::Text(row.subject.as_str().as_bytes()),
            Cell::Number(row.sequence),
            Cell::Text(row.payload.as_slice()),
        ],
    )
}
