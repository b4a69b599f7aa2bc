//! Ordered consumers that are polled, beside the replay: what an event has a consumer send and hand out is what the replay puts out for it, but for
//! recreations, which a poll shows by their requests alone.

mod consumer;
mod event;
mod rows;
mod shown;
mod transcript;

use crate::polled::rows::{ROWS, Row};
use crate::polled::transcript::{Replayed, drawn, read};
use crate::tables::same;
use js_ordered::Run;
use std::alloc::Global;
use std::fmt::Debug;
use std::process::Abort;
use std::test::Fail;

/// How many transcripts are generated, and how many events each has.
const SEEDS: u64 = 20;

const EVENTS: u64 = 60;

// Asserts that a polled consumer does what the replay puts out, at the opening and at each event, and ends as it does.
fn says<C: Replayed, E: Debug + Drop>(
    rt: &impl Abort,
    alloc: Global,
    row: &str,
    polled: Result<C, E>,
    replayed: Result<C, E>,
) -> Result<(), Fail> {
    let run = replayed?.run(alloc)?;
    let said = says_run(rt, alloc, row, polled, &run);
    drop(run);
    said
}

// The same of the run of the replay.
fn says_run<C: Replayed, E: Debug + Drop>(
    rt: &impl Abort,
    alloc: Global,
    row: &str,
    polled: Result<C, E>,
    run: &Run,
) -> Result<(), Fail> {
    let steps = run.steps.as_slice().len() as u64;
    same(
        rt,
        row,
        polled?.polled(alloc, run)?,
        (steps.saturating_add(1), run.ended),
    );
    Ok(())
}

fn says_row(rt: &impl Abort, alloc: Global, row: &Row) -> Result<(), Fail> {
    let polled = read(alloc, row.setup, row.events);
    let replayed = read(alloc, row.setup, row.events);
    says(rt, alloc, row.name, polled, replayed)
}

fn says_seed(rt: &impl Abort, alloc: Global, seed: u64) -> Result<(), Fail> {
    let polled = drawn(alloc, seed, EVENTS);
    let replayed = drawn(alloc, seed, EVENTS);
    says(rt, alloc, "generated", polled, replayed)
}

#[test]
fn a_polled_consumer_does_what_the_replay_puts_out(rt: HostRuntime) -> Result<(), Fail> {
    for row in ROWS {
        says_row(&rt, rt.alloc(), row)?;
    }
    Ok(())
}

#[test]
fn generated_events_have_both_do_the_same(rt: HostRuntime) -> Result<(), Fail> {
    for seed in 0..SEEDS {
        says_seed(&rt, rt.alloc(), seed)?;
    }
    Ok(())
}
