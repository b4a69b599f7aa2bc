//! The entries that are kept for a key.
ghost use Rattle.std.specs.Prelude.{◌≡◌, ◌≤◌, ◌∷◌, [], IfOk, OnOk, OnErr, drop, length};
ghost use Rattle.std.specs.Option.{option_copied};
ghost use Rattle.js_store_table.specs.KeyHistory.{overtaken as overtaken_by, last_of, with_entry};

use js_base::OutOfMemory;
use js_store_keys::{Entry, Operation};
use std::alloc::{AllocError, Global};
use std::marker::Model;

/// How many entries a key's first memory has room for: all that a bucket ever needs that keeps one
/// entry of a key, since the next one is added before the one that it overtakes goes.
const FIRST_ROOM: usize = 2;

/// The entries that are kept for a key, in the order in which they were returned. Contracts see
/// their list.
#[derive(Debug, Drop)]
pub(crate) struct KeyHistory {
    entries: Vec<Entry>,
}

impl Model for KeyHistory {
    ghost use Rattle.std.specs.Prelude.{List};
    ghost use Rattle.js_store_keys.specs.declared.entry.Entry.{Entry};

    ghost Value = { List Entry };

    ghost view = { λ h. h.entries.items };
}

// How many of a key's entries the next one overtakes: a purge overtakes all, and any other those that are too old.
fn overtaken(history: usize, operation: Operation, kept: usize) -> usize
    ensures count { result ≡ overtaken_by history operation kept }
    ensures within { result ≤ kept }
{
    match operation {
        Operation::Purge => kept,
        Operation::Put | Operation::Delete => kept.saturating_sub(history.saturating_sub(1)),
    }
}

// Lets go of the first entries.
fn drop_first(entries: &mut Vec<Entry>, count: usize)
    requires { count ≤ length entries.old.items }
    ensures { entries.new.items ≡ drop count entries.old.items }
{
    for gone in 0..count {
        drop(entries.remove(0));
    }
}

impl KeyHistory {
    // The history of a key whose first entry this is.
    pub(crate) fn new(alloc: Global, entry: Entry) -> Result<KeyHistory, OutOfMemory>
        ensures { IfOk result (λ history. history ≡ entry ∷ []) }
    {
        match Vec::with_capacity(alloc, FIRST_ROOM) {
            Ok(mut entries) => {
                entries.push(entry)?;
                Ok(KeyHistory { entries })
            }
            Err(AllocError) => {
                drop(entry);
                Err(OutOfMemory)
            }
        }
    }

    // Its entries.
    pub(crate) fn entries(&self) -> &[Entry]
        ensures { result.now ≡ self.now }
    {
        self.entries.as_slice()
    }

    // Its last entry.
    pub(crate) fn last(&self) -> Option<&Entry>
        ensures { option_copied result ≡ last_of self.now }
    {
        self.entries.last()
    }

    // Adds an entry behind those that it does not overtake. After a refusal, which lets go of it, the entries are what they were.
    pub(crate) fn add(&mut self, history: usize, entry: Entry) -> Result<(), OutOfMemory>
        ensures ok { OnOk result (self.new ≡ with_entry history self.old entry) }
        ensures err { OnErr result (self.new ≡ self.old) }
    {
        let kept = self.entries.len();
        let count = overtaken(history, entry.operation, kept);
        self.entries.push(entry)?;
        drop_first(&mut self.entries, count);
        Ok(())
    }
}
