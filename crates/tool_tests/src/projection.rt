//! The table of a log: its rows, now and at earlier sequences.

use crate::tables::{same, says};
use bytes::Bytes;
use js_base::{Entry, OutOfMemory, Subject};
use js_event_log::{ApplyError, Projection};
use std::alloc::Global;
use std::process::Abort;

/// What is applied: a subject, a sequence and a payload.
type Change = (&'static str, u64, &'static str);

/// What is applied one after another, each with its answer and the sequence applied last afterwards.
const STEPS: &[(Change, Result<(), ApplyError>, u64)] = &[
    (("a.x", 1, "1"), Ok(()), 1),
    (("a.y", 2, "2"), Ok(()), 2),
    (("a.x", 3, "3"), Ok(()), 3),
    (("a.y", 4, ""), Ok(()), 4),
    (("a.y", 4, ""), Err(ApplyError::NotRising { last: 4 }), 4),
];

/// A sequence, or none for the present, a filter, and the rows of the table.
const ROWS: &[(Option<u64>, &str, &str)] = &[
    (None, ">", "a.x 3 3;"),
    (None, "a.y", ""),
    (Some(0), ">", ""),
    (Some(1), ">", "a.x 1 1;"),
    (Some(2), ">", "a.x 1 1;a.y 2 2;"),
    (Some(2), "a.y", "a.y 2 2;"),
    (Some(3), "a.*", "a.x 3 3;a.y 2 2;"),
    (Some(4), ">", "a.x 3 3;"),
];

/// A sequence, and what was applied above it.
const CHANGES: &[(u64, &str)] = &[
    (0, "a.x 1 1;a.y 2 2;a.x 3 3;a.y 4 ;"),
    (2, "a.x 3 3;a.y 4 ;"),
    (4, ""),
];

/// A subject, and the sequence of its last entry.
const LAST: &[(&str, Option<u64>)] = &[("a.x", Some(3)), ("a.y", None), ("a", None)];

fn entry(alloc: Global, step: Change) -> Result<Entry, OutOfMemory> {
    Ok(Entry {
        subject: Subject::new(alloc, step.0)?,
        sequence: step.1,
        payload: Bytes::copy_from_slice(alloc, step.2.as_bytes())?,
    })
}

fn apply(alloc: Global, projection: &mut Projection, step: Change) -> Result<(), ApplyError> {
    projection.apply(entry(alloc, step)?)
}

fn row(alloc: Global, entry: &Entry) -> Result<String, OutOfMemory> {
    let payload = String::from_utf8_lossy(alloc, entry.payload.as_slice())?;
    let subject = entry.subject.as_str();
    let sequence = entry.sequence;
    Ok(format!(in alloc; "{subject} {sequence} {payload};")?)
}

fn add_row(alloc: Global, text: &mut String, entry: &Entry) -> Result<(), OutOfMemory> {
    let row = row(alloc, entry)?;
    Ok(text.push_str(row.as_str())?)
}

fn entries_text(alloc: Global, entries: &[Entry]) -> Result<String, OutOfMemory> {
    let mut text = String::new(alloc);
    for entry in entries {
        add_row(alloc, &mut text, entry)?;
    }
    Ok(text)
}

fn rows(
    alloc: Global,
    projection: &Projection,
    sequence: Option<u64>,
    filter: &str,
) -> Result<String, OutOfMemory> {
    match sequence {
        None => entries_text(alloc, &projection.matching(filter)?),
        Some(sequence) => entries_text(alloc, &projection.at(sequence, filter)?),
    }
}

// The sequence of the last entry of a subject.
fn sequence_of(projection: &Projection, subject: &str) -> Option<u64> {
    let entry = projection.get(subject)?;
    Some(entry.sequence)
}

// The table after the steps, each of which is asserted.
fn stepped(rt: &impl Abort, alloc: Global) -> Projection {
    let mut projection = Projection::new(alloc);
    same(rt, "new", projection.last(), 0);
    for &(step, wanted, last) in STEPS {
        same(rt, step.0, apply(alloc, &mut projection, step), wanted);
        same(rt, step.0, projection.last(), last);
    }
    projection
}

// Asserts the rows and what was applied.
fn says_rows(rt: &impl Abort, alloc: Global, projection: &Projection) {
    for &(sequence, filter, wanted) in ROWS {
        let found = rows(alloc, projection, sequence, filter);
        says(rt, filter, found, wanted);
    }
    for &(sequence, wanted) in CHANGES {
        let found = entries_text(alloc, projection.changes_after(sequence));
        says(rt, wanted, found, wanted);
    }
}

#[test]
fn a_table_is_kept_at_each_sequence(rt: HostRuntime) {
    let projection = stepped(&rt, rt.alloc());
    says_rows(&rt, rt.alloc(), &projection);
    for &(subject, wanted) in LAST {
        same(&rt, subject, sequence_of(&projection, subject), wanted);
    }
}
