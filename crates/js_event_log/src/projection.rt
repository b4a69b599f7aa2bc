//! The last entry of each subject, now and as it was at each earlier sequence.

ghost use Rattle.std.specs.Prelude.{◌≡◌, [], ◌∷◌, ◌++◌, IfOk, OnOk, OnErr};
ghost use Rattle.std.specs.Option.{option_copied};
ghost use Rattle.js_event_log.specs.Projection.{RisesAbove, last_sequence, value_of, matched, table, up_to, after};
ghost use Rattle.js_event_log.specs.ProjectionCauses.{HasCause};

mod error;
mod places;
mod prefix;
mod table_rows;

use crate::projection::places::{Places, places_of, set_place};
use crate::projection::prefix::{count_up_to, last_sequence};
use crate::projection::table_rows::{present_at, rows};
pub use error::ApplyError;
use js_base::{Entry, OutOfMemory};
use std::alloc::Global;
use std::collections::BTreeMap;
use std::marker::Model;

/// A table of the last entry of each subject, as a key-value bucket keeps it. An entry with an
/// empty payload deletes its subject. All applied entries are kept, so you can read the table as it
/// was at any earlier sequence. Contracts see the list of the applied entries.
#[derive(Debug, Drop)]
pub struct Projection {
    entries: Vec<Entry>,
    places: Places,
}

impl Model for Projection {
    ghost use Rattle.std.specs.Prelude.{List};
    ghost use Rattle.js_base.specs.declared.message.Entry.{Entry};
    ghost use Rattle.js_event_log.specs.Projection.{RisesAbove};
    ghost use Rattle.js_event_log.specs.ProjectionPlaces.{IsPlaced};

    ghost Value = { List Entry };

    ghost view = { λ p. p.entries.items };

    ghost invariant = { λ p. RisesAbove 0 p.entries.items × IsPlaced p.places.entries p.entries.items };
}

impl Projection {
    /// Creates a projection without entries. Allocates nothing.
    pub fn new(alloc: Global) -> Projection
        ensures { result ≡ [] }
    {
        Projection {
            entries: Vec::new(alloc),
            places: BTreeMap::new(alloc),
        }
    }

    /// Adds an entry after all others. It becomes its subject's value, or deletes its subject if
    /// its payload is empty.
    ///
    /// Fails with `NotRising`, which carries the sequence applied last (0 at the start), exactly if
    /// the entry's sequence is not above it. Otherwise fails only with `OutOfMemory`. If it fails,
    /// the entry is dropped and nothing changes.
    pub fn apply(&mut self, entry: Entry) -> Result<(), ApplyError>
        ensures applied { OnOk result (self.new ≡ self.old ++ entry ∷ []) }
        ensures refused { OnErr result (self.new ≡ self.old) }
        ensures cause { HasCause (last_sequence self.old) entry.sequence result }
    {
        let last = last_sequence(&self.entries);
        if entry.sequence <= last {
            return Err(ApplyError::NotRising { last });
        }
        let alloc = *self.entries.allocator();
        self.entries.reserve(1)?;
        set_place(alloc, &mut self.places, &entry, self.entries.len())?;
        self.entries.push_reserved(entry);
        Ok(())
    }

    /// Returns the sequence applied last, or 0 if nothing was applied. Allocates nothing.
    pub fn last(&self) -> u64
        ensures sequence { result ≡ last_sequence self.now }
        ensures rising { RisesAbove 0 self.now }
    {
        last_sequence(&self.entries)
    }

    /// Returns the last entry of a subject, or `None` if the subject has no entry or the last one
    /// has an empty payload. Allocates nothing. The time grows with the logarithm of the number of
    /// subjects.
    pub fn get(&self, subject: &str) -> Option<&Entry>
        ensures { option_copied result ≡ value_of subject.now self.now }
    {
        let place = self.places.get(subject)?;
        present_at(&self.entries, *place)
    }

    /// Returns copies of the table's entries whose subject matches a filter, in the byte order of
    /// subjects. The filter `>` matches every subject. Fails only with `OutOfMemory`.
    pub fn matching(&self, filter: &str) -> Result<Vec<Entry>, OutOfMemory>
        ensures { IfOk result (λ rows. rows.items ≡ matched filter.now (table self.now)) }
    {
        rows(
            *self.entries.allocator(),
            &self.entries,
            &self.places,
            filter,
        )
    }

    /// Returns what `matching` would return if exactly the entries up to a sequence had been
    /// applied. Reads those entries once. Fails only with `OutOfMemory`.
    pub fn at(&self, sequence: u64, filter: &str) -> Result<Vec<Entry>, OutOfMemory>
        ensures { IfOk result (λ rows. rows.items ≡ matched filter.now (table (up_to sequence self.now))) }
    {
        let alloc = *self.entries.allocator();
        let count = count_up_to(&self.entries, sequence);
        let past = &self.entries[..count];
        let places = places_of(alloc, past)?;
        rows(alloc, past, &places, filter)
    }

    /// Returns the applied entries above a sequence, in the order of their sequences. Allocates
    /// nothing.
    pub fn changes_after(&self, sequence: u64) -> &[Entry]
        ensures { result.now ≡ after sequence self.now }
    {
        let count = count_up_to(&self.entries, sequence);
        &self.entries[count..]
    }
}
