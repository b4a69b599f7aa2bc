//! The rows of the table: the last entries that are not deleted and whose subject matches a filter.

ghost use Rattle.std.specs.Prelude.{◌≡◌, [], ◌++◌, IfOk, OnOk};
ghost use Rattle.std.specs.Option.{option_copied};
ghost use Rattle.std.specs.List.{slice_get, cons_option};
ghost use Rattle.js_event_log.specs.Projection.{present, matched, table};
ghost use Rattle.js_event_log.specs.ProjectionPlaces.{IsPlaced, shown, rows_at};

use crate::projection::places::Places;
use js_base::{Entry, OutOfMemory, TryClone, subject_matches};
use std::alloc::Global;

/// Returns the entry at a place, unless its payload is empty.
pub(crate) fn present_at(entries: &[Entry], place: usize) -> Option<&Entry>
    ensures { option_copied result ≡ present (slice_get entries.now place) }
{
    let entry = entries.get(place)?;
    if entry.payload.is_empty() {
        None
    } else {
        Some(entry)
    }
}

fn shown_at<'a>(entries: &'a [Entry], place: usize, filter: &str) -> Option<&'a Entry>
    ensures { option_copied result ≡ shown filter.now (slice_get entries.now place) }
{
    let entry = present_at(entries, place)?;
    if subject_matches(filter, entry.subject.as_str()) {
        Some(entry)
    } else {
        None
    }
}

fn add_row(rows: &mut Vec<Entry>, row: Option<&Entry>) -> Result<(), OutOfMemory>
    ensures { OnOk result (rows.new.items ≡ rows.old.items ++ cons_option (option_copied row.entry) []) }
{
    if let Some(entry) = row {
        rows.push(entry.try_clone()?)?;
    }
    Ok(())
}

/// Returns the rows of a table whose subject matches a filter, in the byte order of subjects.
pub(crate) fn rows(
    alloc: Global,
    entries: &[Entry],
    places: &Places,
    filter: &str,
) -> Result<Vec<Entry>, OutOfMemory>
    requires { IsPlaced places.now.entries entries.now }
    ensures { IfOk result (λ rows. rows.items ≡ matched filter.now (table entries.now)) }
{
    let mut rows = Vec::new(alloc);
    for (_, place) in places.iter() {
        add_row(&mut rows, shown_at(entries, *place, filter))?;
    }
    Ok(rows)
}
