//! Two random mirrors, there and back.
ghost use Rattle.std.specs.Prelude.{◌<◌};

use crate::mirrors::draw::mirror;
use js_base::{Entry, OutOfMemory};
use js_event_log::{Mirror, Slot, entry_of};
use js_json::consumer::DeliverPolicy;
use js_json::pull::OrderedConfig;
use js_ordered::{Event, OrderedSetup, Output, ReplayError, Run, replay_ordered};
use js_tool_generate::replay_input;
use rand_pcg::Pcg32;
use std::alloc::Global;
use std::test::Fail;

/// What holds of two mirrors.
#[derive(Drop)]
pub(crate) struct Findings {
    pub merges_alike: bool,
    pub is_served_whole: bool,
    pub comes_back: bool,
}

/// Looks at the mirrors of a number.
pub(crate) fn look(alloc: Global, seed: u64) -> Result<Findings, Fail> {
    let mut rng = Pcg32::new(seed, 1);
    let start = seed % 9 + 1;
    let mut one = mirror(alloc, &mut rng, start)?;
    let mut other = mirror(alloc, &mut rng, start)?;
    join(alloc, &mut one, &mut other)
}

// Looks at what two mirrors come to.
fn join(alloc: Global, one: &mut Mirror, other: &mut Mirror) -> Result<Findings, Fail> {
    let has_holes = merge(one, other)?;
    let is_served_whole = is_served_whole(one)? && has_holes;
    other.merge(one)?;
    Ok(Findings {
        merges_alike: one.entries() == other.entries(),
        is_served_whole,
        comes_back: comes_back(alloc, one)?,
    })
}

// Joins another mirror, and answers whether the holes are the holes of both.
fn merge(one: &mut Mirror, other: &Mirror) -> Result<bool, Fail> {
    let alone = one.serve(0, u64::MAX)?;
    one.merge(other)?;
    Ok(has_holes(one, &alone, other)?)
}

// Whether its entries are served in pieces of seven.
fn is_served_whole(mirror: &Mirror) -> Result<bool, OutOfMemory> {
    let mut from = mirror.start();
    for piece in mirror.entries().chunks(7) {
        let served = mirror.serve(from, 7)?;
        if served.as_slice() != piece {
            return Ok(false);
        }
        if let Some(last) = piece.last() {
            from = last.sequence.saturating_add(1);
        }
    }
    Ok(true)
}

// Whether what it lacks is a hole or lies beyond in the other, and is not among the entries that it had alone.
fn has_holes(merged: &Mirror, alone: &[Entry], other: &Mirror) -> Result<bool, OutOfMemory> {
    for (first, last) in merged.holes()? {
        for sequence in first..=last {
            if is_there(other, sequence) || alone.iter().any(|entry| entry.sequence == sequence) {
                return Ok(false);
            }
        }
    }
    Ok(true)
}

fn is_there(mirror: &Mirror, sequence: u64) -> bool {
    match mirror.get(sequence) {
        Slot::Message(_) => true,
        _ => false,
    }
}

// Whether a mirror of what a replay of the relayed one hands out is the same.
fn comes_back(alloc: Global, mirror: &Mirror) -> Result<bool, Fail> {
    let events = mirror.relay(alloc, "events", "gen")?;
    let is_back = is_replayed(alloc, mirror, &events);
    drop(events);
    is_back
}

fn is_replayed(alloc: Global, mirror: &Mirror, events: &[Event]) -> Result<bool, Fail> {
    let run = replayed(alloc, mirror.start(), events)?;
    let is_back = is_handed_out(alloc, mirror, &run);
    drop(run);
    is_back
}

fn is_handed_out(alloc: Global, mirror: &Mirror, run: &Run) -> Result<bool, Fail> {
    let back = mirror_of(alloc, mirror.start(), run)?;
    Ok(back.entries() == mirror.entries())
}

/// The run of an ordered consumer that starts at a sequence.
pub(crate) fn replayed(alloc: Global, start: u64, events: &[Event]) -> Result<Run, ReplayError> {
    let given = replay_input(alloc)?;
    let setup = reader_from(alloc, start);
    let run = replay_ordered(alloc, &given.settings, &setup, &given.first, 0, events);
    drop(setup);
    drop(given);
    run
}

/// The setup of a pull consumer that starts at a sequence.
pub(crate) fn reader_from(alloc: Global, start: u64) -> OrderedSetup {
    let mut config = OrderedConfig::new(alloc);
    config.deliver_policy = DeliverPolicy::ByStartSequence {
        start_sequence: start,
    };
    OrderedSetup::Pull(config)
}

// The mirror of a run's yields.
fn mirror_of(alloc: Global, start: u64, run: &Run) -> Result<Mirror, Fail>
    requires { 0 < start }
{
    let mut mirror = Mirror::new(alloc, start);
    for step in run.steps.as_slice() {
        push_all(&mut mirror, step.outputs.as_slice())?;
    }
    Ok(mirror)
}

fn push_all(mirror: &mut Mirror, outputs: &[Output]) -> Result<(), Fail> {
    for output in outputs {
        if let Some(entry) = entry_of(output)? {
            mirror.push(entry)?;
        }
    }
    Ok(())
}
