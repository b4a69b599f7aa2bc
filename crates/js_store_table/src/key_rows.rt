//! The rows of a table, by key.
ghost use Rattle.std.specs.Prelude.{◌≡◌, None, OnOk, OnErr};
ghost use Rattle.std.specs.BTreeMap.{get_by_text};
ghost use Rattle.js_store_table.specs.TableRows.{IsSame, Notes};

use crate::key_history::KeyHistory;
use js_base::{OutOfMemory, TryClone, both};
use js_store_keys::Entry;
use std::alloc::Global;
use std::collections::BTreeMap;

/// What is kept for each key.
pub(crate) type KeyRows = BTreeMap<String, KeyHistory>;

// Makes a row for an entry whose key has none.
fn add_row(
    alloc: Global,
    rows: &mut KeyRows,
    history: usize,
    entry: Entry,
) -> Result<(), OutOfMemory>
    requires { get_by_text rows.old entry.key ≡ None }
    ensures ok { OnOk result (Notes history entry rows.old rows.new) }
    ensures err { OnErr result (IsSame rows.old rows.new) }
{
    let key = entry.key.try_clone();
    let (key, row) = both(key, KeyHistory::new(alloc, entry))?;
    drop(rows.insert(key.into_string(), row)?);
    Ok(())
}

/// Adds an entry to the row of its key, which keeps at most `history` entries. If it fails, the
/// rows are unchanged.
pub(crate) fn note(
    alloc: Global,
    rows: &mut KeyRows,
    history: usize,
    entry: &Entry,
) -> Result<(), OutOfMemory>
    ensures ok { OnOk result (Notes history entry.now rows.old rows.new) }
    ensures err { OnErr result (IsSame rows.old rows.new) }
{
    let copy = entry.try_clone()?;
    match rows.get_mut(entry.key.as_str()) {
        Some(row) => row.add(history, copy),
        None => add_row(alloc, rows, history, copy),
    }
}
