//! A consumer, with the link of its replay.
ghost use Rattle.std.specs.Prelude.{◌≡◌, ◌+◌, IfOk, OnErr};
ghost use Rattle.js_pull.specs.Reader.{u64_max};

use crate::consumer::{Consumer, Phase};
use js_base::{OutOfMemory, replace_with};

/// A consumer, with the link of its replay.
#[derive(Drop)]
pub struct ReplayState {
    pub consumer: Consumer,
    /// Whether sends go through.
    pub link_up: bool,
    /// The number of requests so far.
    pub requests_sent: u64,
    /// The number of inboxes so far.
    pub inboxes_opened: u64,
}

/// Returns the number after this one.
///
/// # Errors
///
/// Fails with `OutOfMemory` if `number` is `u64::MAX`. Counting one by one never gets there.
pub fn next_number(number: u64) -> Result<u64, OutOfMemory>
    ensures next { IfOk result (λ next. next ≡ number + 1) }
    ensures last { OnErr result (number ≡ u64_max) }
{
    match number.checked_add(1) {
        Some(next) => Ok(next),
        None => Err(OutOfMemory),
    }
}

impl ReplayState {
    ghost use Rattle.js_ordered_table.specs.Passes.{at};

    /// Sets the consumer's phase.
    pub fn set_phase(&mut self, phase: Phase)
        ensures { self.new ≡ at phase self.old }
    {
        replace_with(&mut self.consumer.phase, phase);
    }
}
