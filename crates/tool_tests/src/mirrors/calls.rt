//! Each call of a mirror.

use crate::mirrors::draw::{entry, entry_with};
use crate::tables::same;
use js_event_log::{Mirror, MirrorError, Slot};
use std::alloc::{AllocError, Global};
use std::test::Fail;

/// A call of a mirror that starts at 3.
#[derive(Clone, Copy)]
enum Call {
    Ends,
    /// Entries 4, 5 and 9 are added.
    Fill,
    Get(u64),
    /// At most one entry, from that sequence on.
    Serve(u64),
    /// The log's entry with that sequence.
    Push(u64),
    /// A mirror that starts at 4.
    MergeLater,
    /// A mirror with another entry 5.
    MergeDiffering,
}

/// The calls, one after the other, and what each answers.
const CALLS: &[(Call, &str)] = &[
    (Call::Ends, "start 3, last 2"),
    (Call::Fill, "last 9, 3 entries, holes [(3, 3), (6, 8)]"),
    (Call::Get(2), "before"),
    (Call::Get(3), "hole"),
    (Call::Get(4), "message key.4"),
    (Call::Get(10), "beyond"),
    (Call::Serve(5), "served from 5: 1"),
    (Call::Push(9), "the sequence is not above 9"),
    (Call::MergeLater, "the mirrors start at 3 and 4"),
    (Call::MergeDiffering, "the mirrors differ at 5"),
];

/// What a call answers, in words.
type Answer = Result<String, MirrorError>;

fn answered(alloc: Global, mirror: &mut Mirror, call: Call) -> Answer {
    match call {
        Call::Ends => ends(alloc, mirror),
        Call::Fill => filled(alloc, mirror),
        Call::Get(sequence) => got(alloc, mirror, sequence),
        Call::Serve(from) => served(alloc, mirror, from),
        Call::Push(sequence) => pushed(alloc, mirror, sequence),
        Call::MergeLater => merged_later(alloc, mirror),
        Call::MergeDiffering => merged_differing(alloc, mirror),
    }
}

fn ends(alloc: Global, mirror: &Mirror) -> Answer {
    Ok(format!(in alloc; "start {}, last {}", mirror.start(), mirror.last())?)
}

fn filled(alloc: Global, mirror: &mut Mirror) -> Answer {
    fill(alloc, mirror)?;
    Ok(format!(in alloc;
        "last {}, {} entries, holes {:?}",
        mirror.last(),
        mirror.entries().len(),
        mirror.holes()?
    )?)
}

/// Entries 4, 5 and 9.
pub(crate) fn fill(alloc: Global, mirror: &mut Mirror) -> Result<(), MirrorError> {
    for sequence in [4, 5, 9] {
        mirror.push(entry(alloc, sequence)?)?;
    }
    Ok(())
}

fn got(alloc: Global, mirror: &Mirror, sequence: u64) -> Answer {
    Ok(slot_text(alloc, mirror.get(sequence))?)
}

fn slot_text(alloc: Global, slot: Slot<'_>) -> Result<String, AllocError> {
    match slot {
        Slot::Before => String::from_str(alloc, "before"),
        Slot::Message(entry) => format!(in alloc; "message {}", entry.subject),
        Slot::Hole => String::from_str(alloc, "hole"),
        Slot::Beyond => String::from_str(alloc, "beyond"),
    }
}

fn served(alloc: Global, mirror: &Mirror, from: u64) -> Answer {
    Ok(format!(in alloc; "served from {from}: {}", mirror.serve(from, 1)?.len())?)
}

fn pushed(alloc: Global, mirror: &mut Mirror, sequence: u64) -> Answer {
    Ok(outcome_text(alloc, mirror.push(entry(alloc, sequence)?))?)
}

fn merged_later(alloc: Global, mirror: &mut Mirror) -> Answer {
    Ok(outcome_text(alloc, mirror.merge(&Mirror::new(alloc, 4)))?)
}

fn merged_differing(alloc: Global, mirror: &mut Mirror) -> Answer {
    Ok(outcome_text(alloc, mirror.merge(&differing(alloc)?))?)
}

// A mirror with another entry 5.
fn differing(alloc: Global) -> Result<Mirror, MirrorError> {
    let other = entry_with(alloc, 5, b"other")?;
    let mut mirror = Mirror::new(alloc, 3);
    mirror.push(other)?;
    Ok(mirror)
}

fn outcome_text(alloc: Global, outcome: Result<(), MirrorError>) -> Result<String, AllocError> {
    match outcome {
        Ok(()) => String::from_str(alloc, "done"),
        Err(error) => error.to_string(alloc),
    }
}

#[test]
fn a_mirror_answers_and_refuses(rt: HostRuntime) -> Result<(), Fail> {
    let mut mirror = Mirror::new(rt.alloc(), 3);
    for &(call, wanted) in CALLS {
        let found = answered(rt.alloc(), &mut mirror, call)?;
        same(&rt, wanted, found.as_str(), wanted);
    }
    Ok(())
}

// A mirror of start 1 with these entries.
fn holding(alloc: Global, sequences: &[u64]) -> Result<Mirror, MirrorError> {
    let mut mirror = Mirror::new(alloc, 1);
    for &sequence in sequences {
        mirror.push(entry(alloc, sequence)?)?;
    }
    Ok(mirror)
}

// What two mirrors of start 1 hold together.
fn merged(alloc: Global, ours: &[u64], theirs: &[u64]) -> Answer {
    let mut mirror = holding(alloc, ours)?;
    mirror.merge(&holding(alloc, theirs)?)?;
    let held = format!(in alloc;
        "{} entries, holes {:?}",
        mirror.entries().len(),
        mirror.holes()?
    );
    Ok(held?)
}

#[test]
fn mirrors_are_merged(rt: HostRuntime) -> Result<(), Fail> {
    let held = merged(rt.alloc(), &[1, 5], &[2])?;
    same(&rt, "merged", held.as_str(), "3 entries, holes [(3, 4)]");
    Ok(())
}
