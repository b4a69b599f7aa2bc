//! When the clocks of a context's acks are due.
ghost use Rattle.std.specs.Prelude.{◌≡◌, ◌||◌, ◌<◌, ◌^◌, ℕ};
ghost use Rattle.js_base.specs.Clock.{has_come};
ghost use Rattle.js_context.specs.AckTimers.{is_clock_over};

use js_base::{Moment, Nanos, end_of};

/// Returns the moment at which a wait that began then is over.
pub(crate) fn clock_end(since: Option<Moment>, wait: Nanos) -> Option<Moment>
    ensures { (now : ℕ) → now < 2 ^ 64 → has_come result now ≡ is_clock_over since wait now }
{
    match since {
        None => None,
        Some(since) => end_of(since, wait),
    }
}
