//! The rows of a table, with their bucket and how far they have come.
ghost use Rattle.std.specs.Prelude.{◌≡◌, ◌==◌, ◌≤◌, ◌<◌, ◌+◌, ◌*◌, ◌^◌, ◌++◌, [], IfOk, OnOk, List, length};
ghost use Rattle.std.specs.Option.{option_copied};
ghost use Rattle.std.specs.List.{cons_option};
ghost use Rattle.js_store_keys.specs.declared.entry.Entry.{Entry};
ghost use Rattle.js_store_table.specs.MessageEntry.{Tells, told_by};
ghost use Rattle.js_store_table.specs.KeyHistory.{history_of, is_shown as is_shown_key, keys_matching, keys_of, valued as valued_entry, value_of};
ghost use Rattle.js_store_table.specs.Resume.{resumed as resumed_with};
ghost use Rattle.js_store_table.specs.TableRows.{Follows, IsTable, at_first, kept_count, keys_in, most, progress_by, shown_by, told_in};

use crate::key_history::KeyHistory;
use crate::key_rows::{KeyRows, note};
use crate::message_entry::{Untold, entry_of};
use js_base::{Message, OutOfMemory, Text, TryClone, both, subject_matches};
use js_store_keys::{Entry, KeyPlaces, is_put};
use std::alloc::Global;
use std::collections::BTreeMap;

/// The keys of a bucket.
#[derive(Debug, Drop)]
pub(crate) struct BucketKeys {
    /// The bucket's name.
    name: Text,
    /// What the subjects of its keys begin with.
    prefix: Text,
    /// How many entries of a key it keeps.
    history: usize,
}

/// How far a table has come.
#[derive(Clone, Copy, Debug)]
pub(crate) struct Progress {
    /// The revision of the last entry that was returned, or 0 if there was none.
    revision: u64,
    /// How many messages were still to come after it.
    pending: u64,
}

/// The rows of a table: the last entries of each key of a bucket, as many as the bucket keeps. Of a
/// purged key's entries up to the purge, only the purge is kept.
///
/// A deleted key keeps its row, which has the revision of the deletion.
#[derive(Debug, Drop)]
pub struct Rows {
    bucket: BucketKeys,
    rows: KeyRows,
    progress: Progress,
}

// An entry, unless it is a deletion.
fn valued(entry: Option<&Entry>) -> Option<&Entry>
    ensures { option_copied result ≡ valued_entry (option_copied entry.entry) }
{
    match entry {
        Some(entry) if is_put(entry.operation) => Some(entry),
        _ => None,
    }
}

// Whether a key is shown whose last entry is this.
fn is_shown(filter: &str, key: &str, last: Option<&Entry>) -> bool
    ensures { result ≡ is_shown_key filter.now key.now (option_copied last.entry) }
{
    match last {
        Some(entry) => is_put(entry.operation) && subject_matches(filter, key),
        None => false,
    }
}

// Adds a key, where it is shown.
fn add_shown(
    alloc: Global,
    keys: &mut Vec<Text>,
    filter: &str,
    key: &str,
    row: &KeyHistory,
) -> Result<(), OutOfMemory>
    ensures { OnOk result (keys.new.items ≡ keys.old.items ++ cons_option (shown_by filter.now key.now row.now) []) }
{
    if is_shown(filter, key, row.last()) {
        keys.push(Text::from_str(alloc, key)?)?;
    }
    Ok(())
}

impl Rows {
    /// Creates the rows of a bucket, without any key. `pending` is how many messages are still to
    /// come: `num_pending` in the info of the consumer that the table reads. If it is 0, the bucket
    /// is empty and the table is current at once.
    ///
    /// Fails only with `OutOfMemory`.
    pub fn new(alloc: Global, places: &KeyPlaces, pending: u64) -> Result<Rows, OutOfMemory>
        ensures bucket { IfOk result (λ rows. rows.bucket ≡ keys_in places.now) }
        ensures table { IfOk result (λ rows. IsTable rows.bucket.history rows.rows []) }
        ensures progress { IfOk result (λ rows. rows.progress ≡ at_first pending) }
    {
        let (name, prefix) = both(places.bucket.try_clone(), places.prefix.try_clone())?;
        Ok(Rows {
            bucket: BucketKeys {
                name,
                prefix,
                history: places.history as usize,
            },
            rows: BTreeMap::new(alloc),
            progress: Progress {
                revision: 0,
                pending,
            },
        })
    }

    /// Adds the entry that a message reports to the rows, and returns it. If the message gives no
    /// entry, the table of the changes is unchanged.
    pub(crate) fn apply(&mut self, alloc: Global, message: &Message) -> Result<Entry, Untold>
        ensures bucket { self.new.bucket ≡ self.old.bucket }
        ensures told { Tells (told_by self.old.bucket.name self.old.bucket.prefix message.now) result }
        ensures table { Follows self.old.bucket.history self.old.rows self.new.rows (told_in result) }
        ensures progress { self.new.progress ≡ progress_by self.old.progress result }
    {
        let prefix = self.bucket.prefix.as_str();
        let entry = entry_of(alloc, &self.bucket.name, prefix, message)?;
        match note(alloc, &mut self.rows, self.bucket.history, &entry) {
            Ok(()) => {
                self.progress = Progress {
                    revision: entry.revision,
                    pending: entry.delta,
                };
                Ok(entry)
            }
            Err(OutOfMemory) => {
                drop(entry);
                Err(Untold::OutOfMemory)
            }
        }
    }

    /// Returns the entry that gives a key its value: its last entry, or `None` if it has no entry
    /// or the last one is a deletion. Allocates nothing.
    pub fn get(&self, key: &str) -> Option<&Entry>
        ensures { (changes : List Entry) → IsTable self.now.bucket.history self.now.rows changes → option_copied result ≡ value_of self.now.bucket.history key.now changes }
    {
        match self.rows.get(key) {
            Some(row) => valued(row.last()),
            None => None,
        }
    }

    /// Returns the kept entries of a key in the order of revisions: the last ones that were
    /// returned, as many as the bucket keeps, starting at its last purge. Allocates nothing.
    ///
    /// The last one is the key's newest entry, whether a value or a deletion. Pass its revision to
    /// `update`.
    pub fn history(&self, key: &str) -> &[Entry]
        ensures entries { (changes : List Entry) → IsTable self.now.bucket.history self.now.rows changes → result.now ≡ history_of self.now.bucket.history key.now changes }
        ensures bounded { (changes : List Entry) → IsTable self.now.bucket.history self.now.rows changes → length result.now ≤ most self.now.bucket.history }
    {
        match self.rows.get(key) {
            Some(row) => row.entries(),
            None => &[],
        }
    }

    /// Returns the keys that have a value and match a filter, each once, in byte order. The filter
    /// `>` matches every key. Fails only with `OutOfMemory`.
    pub fn keys(&self, alloc: Global, filter: &str) -> Result<Vec<Text>, OutOfMemory>
        ensures { IfOk result (λ keys. (changes : List Entry) → IsTable self.now.bucket.history self.now.rows changes → keys.items ≡ keys_matching self.now.bucket.history filter.now changes) }
    {
        let mut keys = Vec::new(alloc);
        for (key, row) in self.rows.iter() {
            add_shown(alloc, &mut keys, filter, key.as_str(), row)?;
        }
        Ok(keys)
    }

    /// Returns how many entries the rows keep, of all keys together. That is at most the history of
    /// the bucket times the number of keys that were changed, deleted ones included: overtaken
    /// entries are dropped. Allocates nothing.
    pub fn entry_count(&self) -> usize
        ensures count { kept_count self.now.rows < 2 ^ 64 → result ≡ kept_count self.now.rows }
        ensures bounded { (changes : List Entry) → IsTable self.now.bucket.history self.now.rows changes → result ≤ length (keys_of changes) * most self.now.bucket.history }
    {
        let mut count: usize = 0;
        for (_, row) in self.rows.iter() {
            count = count.saturating_add(row.entries().len());
        }
        count
    }

    /// Returns the revision of the last entry that was returned, which is its sequence in the
    /// bucket's stream, or 0 if there was none.
    pub fn revision(&self) -> u64
        ensures { result ≡ self.now.progress.revision }
    {
        self.progress.revision
    }

    /// Returns the stream sequence at which a reader has to start that goes on after these rows: the
    /// one after their revision. Configure its consumer with `DeliverPolicy::ByStartSequence` and
    /// this sequence, and pass it with the rows to [`Table::resume`](crate::Table::resume).
    pub fn next_sequence(&self) -> u64
        ensures { self.now.progress.revision + 1 < 2 ^ 64 → result ≡ self.now.progress.revision + 1 }
    {
        self.progress.revision.saturating_add(1)
    }

    // The same rows, with so much to come.
    pub(crate) fn resumed(self, pending: u64) -> Rows
        ensures { result ≡ resumed_with pending self }
    {
        let progress = Progress {
            revision: self.progress.revision,
            pending,
        };
        Rows { progress, ..self }
    }

    /// Returns whether nothing was to come after the last entry, by that message's own count.
    /// Before the first entry, returns whether the bucket was empty when its consumer was created.
    ///
    /// If messages that were to come are removed before they are delivered, and no later one comes,
    /// it stays false: as where values expire, or the stream is purged by a request.
    pub fn is_current(&self) -> bool
        ensures { result ≡ (self.now.progress.pending == 0) }
    {
        self.progress.pending == 0
    }
}
