//! A local copy of a stream from a start on: each sequence up to the last entry has an entry or is
//! a hole.

ghost use Rattle.std.specs.Prelude.{◌≡◌, ◌<◌, ◌++◌, [], ◌∷◌, take, IfOk, OnOk, OnErr};
ghost use Rattle.js_event_log.specs.Mirror.{IsMirror, last_sequence, at_or_past, slot as standing_at};
ghost use Rattle.js_event_log.specs.MirrorHoles.{AreHoles};
ghost use Rattle.js_event_log.specs.MirrorMerge.{IsMerged};
ghost use Rattle.js_event_log.specs.MirrorCauses.{HasPushCause, HasMergeCause, shown};

mod error;
mod lookup;
mod merge;
mod slot;

use crate::mirror::lookup::{entries_from, entry_with};
use crate::mirror::merge::{add_missing, check};
pub use error::MirrorError;
use js_base::{Entry, OutOfMemory, TryClone};
pub use slot::Slot;
use std::alloc::Global;
use std::marker::Model;

/// A local copy of a stream from a start on. Each sequence from the start up to the last entry has
/// an entry or is a hole. Contracts see the start and the list of the entries.
#[derive(Debug, Drop)]
pub struct Mirror {
    start: u64,
    entries: Vec<Entry>,
}

impl Model for Mirror {
    ghost use Rattle.js_event_log.specs.Mirror.{Mirrored, RisesFrom};
    ghost use Rattle.std.specs.Prelude.{◌<◌};

    ghost Value = { Mirrored };

    ghost view = { λ m. record { start = m.start; entries = m.entries.items } };

    ghost invariant = { λ m. (0 < m.start) × RisesFrom m.start m.entries.items };
}

impl Mirror {
    /// Creates a mirror without entries. `start` is the least sequence that an entry may have and
    /// has to be above 0. Allocates nothing.
    pub fn new(alloc: Global, start: u64) -> Mirror
        requires { 0 < start }
        ensures { result ≡ record { start = start; entries = [] } }
    {
        Mirror {
            start,
            entries: Vec::new(alloc),
        }
    }

    /// Returns the least sequence that an entry may have. Allocates nothing.
    pub fn start(&self) -> u64
        ensures start { result ≡ self.now.start }
        ensures mirror { IsMirror self.now }
    {
        self.start
    }

    /// Returns the sequence of the last entry, or the start minus one if the mirror is empty.
    /// Allocates nothing.
    pub fn last(&self) -> u64
        ensures { result ≡ last_sequence self.now }
    {
        match self.entries.last() {
            None => self.start - 1,
            Some(entry) => entry.sequence,
        }
    }

    /// Returns the entries, in the order of their sequences. Allocates nothing.
    pub fn entries(&self) -> &[Entry]
        ensures entries { result.now ≡ self.now.entries }
        ensures mirror { IsMirror self.now }
    {
        &self.entries
    }

    /// Adds an entry after all others.
    ///
    /// Fails with `NotRising`, which carries the last sequence (see `last`), exactly if the entry's
    /// sequence is not above it. Otherwise fails only with `OutOfMemory`. If it fails, the entry is
    /// dropped and nothing changes.
    pub fn push(&mut self, entry: Entry) -> Result<(), MirrorError>
        ensures pushed { OnOk result (self.new ≡ record self.old { entries = self.old.entries ++ entry ∷ [] }) }
        ensures refused { OnErr result (self.new ≡ self.old) }
        ensures cause { HasPushCause (last_sequence self.old) entry.sequence result }
    {
        let last = self.last();
        if entry.sequence <= last {
            return Err(MirrorError::NotRising { last });
        }
        self.entries.reserve(1)?;
        self.entries.push_reserved(entry);
        Ok(())
    }

    /// Returns what stands at a sequence. Allocates nothing. The time grows with the logarithm of
    /// the number of entries.
    #[tactic(auto, using(std::proofs::lemmas::Grind::common_steps, crate::proofs::MirrorStandings::is_before, crate::proofs::MirrorStandings::is_beyond, crate::proofs::MirrorStandings::is_held))]
    pub fn get(&self, sequence: u64) -> Slot<'_>
        ensures { shown result ≡ standing_at self.now sequence }
    {
        if sequence < self.start {
            return Slot::Before;
        }
        if sequence > self.last() {
            return Slot::Beyond;
        }
        match entry_with(&self.entries, sequence) {
            None => Slot::Hole,
            Some(entry) => Slot::Message(entry),
        }
    }

    /// Returns the longest ranges of holes, each as its first and last sequence, in order. Goes
    /// over the entries once, however many holes there are. Fails only with `OutOfMemory`.
    pub fn holes(&self) -> Result<Vec<(u64, u64)>, OutOfMemory>
        ensures { IfOk result (λ ranges. AreHoles self.now ranges.items) }
    {
        let mut ranges = Vec::new(*self.entries.allocator());
        let mut last = self.start - 1;
        for entry in &self.entries {
            if entry.sequence - last > 1 {
                ranges.push((last + 1, entry.sequence - 1))?;
            }
            last = entry.sequence;
        }
        Ok(ranges)
    }

    /// Merges another mirror of the same stream into this one. The other one stays unchanged. Goes
    /// over the entries of both once and copies those that this one lacks.
    ///
    /// Fails with `StartDiffers`, which carries both starts, exactly if the starts differ.
    /// Otherwise fails with `Conflict` exactly if both have different entries at one sequence; it
    /// carries the least such sequence. `OutOfMemory` says nothing about either. If it fails,
    /// nothing changes.
    pub fn merge(&mut self, other: &Mirror) -> Result<(), MirrorError>
        ensures merged { OnOk result (IsMerged self.old other.now self.new) }
        ensures refused { OnErr result (self.new ≡ self.old) }
        ensures cause { HasMergeCause self.old other.now result }
    {
        self.check_merge(other)?;
        add_missing(&mut self.entries, &other.entries)?;
        Ok(())
    }

    // Why another mirror can't be joined, where it can't.
    fn check_merge(&self, other: &Mirror) -> Result<(), MirrorError>
        ensures { HasMergeCause self.now other.now result }
    {
        check(self.start, &self.entries, other.start, &other.entries)
    }

    /// Returns copies of the first entries at or after the sequence `from`, at most `count`. Fails
    /// only with `OutOfMemory`.
    pub fn serve(&self, from: u64, count: u64) -> Result<Vec<Entry>, OutOfMemory>
        ensures { IfOk result (λ entries. entries.items ≡ take count (at_or_past from self.now.entries)) }
    {
        let mut served = Vec::new(*self.entries.allocator());
        for entry in front(entries_from(&self.entries, from), count) {
            served.push(entry.try_clone()?)?;
        }
        Ok(served)
    }
}

// The first entries, at most so many.
fn front(entries: &[Entry], count: u64) -> &[Entry]
    ensures { result.now ≡ take count entries.now }
{
    if count < entries.len() as u64 {
        &entries[..count as usize]
    } else {
        entries
    }
}
