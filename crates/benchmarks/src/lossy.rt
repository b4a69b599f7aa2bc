//! Logs that are read from a test server through losses.
//!
//! The readers are polled as async-nats has them, and with all options on that keep a reader from hanging. The server is honest. It deletes its consumer now and then; messages and heartbeats are lost on their way, come twice or come late; requests are lost or
//! refused, and so are answers. A reader is polled only when something came for it, and at the moment that it told by `wakes_at`; each other one also a nanosecond
//! before, when it may not stir. So a seed fails where a reader skips or repeats an entry, where it needs more time than the longest reading may take, and where a
//! timer of it is due before the moment that it tells.

use crate::round::{LONGEST, ReadsLog, Round};
use jetstream::AnyError;
use jetstream::consumer::{Resilience, pull, push};
use std::sync::Wait;
use std::test::Fail;

/// Has a reader of each kind read a log for each number below `seeds`, and prints how many yield theirs.
pub fn lose(rt: &(impl Print + AllocGlobal + Wait), seeds: u64) -> Result<(), Fail> {
    let (none, all) = (Resilience::none(), Resilience::all());
    read::<pull::Ordered>(rt, "pull readers", none, seeds)?;
    read::<push::Ordered>(rt, "push readers", none, seeds)?;
    read::<pull::Ordered>(rt, "pull readers with all options", all, seeds)?;
    read::<push::Ordered>(rt, "push readers with all options", all, seeds)
}

fn read<R: ReadsLog>(
    rt: &(impl Print + AllocGlobal + Wait),
    readers: &str,
    resilience: Resilience,
    seeds: u64,
) -> Result<(), Fail> {
    let complete = complete::<R>(rt, resilience, seeds)?;
    println!(rt;
        "{complete} of {seeds} {readers} yield every sequence once, in order, within {} seconds",
        LONGEST / 1_000_000_000
    )?;
    Ok(())
}

/// How many of the numbers below `seeds` have a reader that yields its log.
fn complete<R: ReadsLog>(
    rt: &(impl AllocGlobal + Wait),
    resilience: Resilience,
    seeds: u64,
) -> Result<u64, AnyError> {
    let mut complete: u64 = 0;
    for seed in 0..seeds {
        complete = complete.saturating_add(u64::from(is_complete::<R>(rt, resilience, seed)?));
    }
    Ok(complete)
}

/// Whether the reader of a number yields its log.
fn is_complete<R: ReadsLog>(
    rt: &(impl AllocGlobal + Wait),
    resilience: Resilience,
    seed: u64,
) -> Result<bool, AnyError> {
    match Round::<R>::new(rt, resilience, seed) {
        Ok(mut round) => {
            let is_complete = round.is_complete(rt.alloc());
            drop(round);
            Ok(is_complete?)
        }
        Err(error) => Err(error),
    }
}
