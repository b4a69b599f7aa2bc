//! How many pairs of random mirrors hold.

use crate::mirrors::round::{Findings, look};
use crate::tables::same;
use std::alloc::{AllocError, Global};
use std::test::Fail;

/// How many seeds hold.
#[derive(Default, Drop)]
struct Tally {
    merged: u64,
    served: u64,
    relayed: u64,
}

impl Tally {
    fn add(&mut self, seen: Findings) {
        self.merged = self.merged.saturating_add(u64::from(seen.merges_alike));
        self.served = self.served.saturating_add(u64::from(seen.is_served_whole));
        self.relayed = self.relayed.saturating_add(u64::from(seen.comes_back));
    }

    fn text(&self, alloc: Global, seeds: u64) -> Result<String, AllocError> {
        let Tally {
            merged,
            served,
            relayed,
        } = self;
        format!(in alloc;
            "{merged} of {seeds} are the same merged both ways\n{served} of {seeds} are served whole, and their holes are the holes of both\n{relayed} of {seeds} come back from a replay of what relay gives\n"
        )
    }
}

// Looks at the mirrors of each number below `seeds`.
fn look_at_all(alloc: Global, seeds: u64) -> Result<String, Fail> {
    let mut tally = Tally::default();
    for seed in 0..seeds {
        tally.add(look(alloc, seed)?);
    }
    Ok(tally.text(alloc, seeds)?)
}

/// What is told of a thousand seeds.
const ALL_HOLD: &str =
    "1000 of 1000 are the same merged both ways\n1000 of 1000 are served whole, and their holes are the holes of both\n1000 of 1000 come back from a replay of what relay gives\n";

#[test]
fn mirrors_merge_alike_both_ways_and_come_back(rt: HostRuntime) -> Result<(), Fail> {
    let told = look_at_all(rt.alloc(), 1000)?;
    same(&rt, "seeds", told.as_str(), ALL_HOLD);
    Ok(())
}
