//! Waits in nanoseconds, the moment of an instant, and the first of several moments, until which a
//! program may sleep.
ghost use Rattle.std.specs.Prelude.{◌≡◌, ◌*◌, ◌-◌, ◌^◌, ℕ, min};
ghost use Rattle.std.specs.List.{list_any};
ghost use Rattle.std.specs.Time.{instant_nanos};
ghost use Rattle.js_base.specs.Clock.{has_come};

use js_base::{Moment, Nanos, earlier};
use std::time::Instant;

/// Returns `count` seconds in nanoseconds; at most `u64::MAX`, which is 584 years.
pub fn seconds(count: u64) -> Nanos
    ensures { result ≡ min (count * 1_000_000_000) (2 ^ 64 - 1) }
{
    count.saturating_mul(1_000_000_000)
}

/// Returns `count` milliseconds in nanoseconds; at most `u64::MAX`.
pub fn milliseconds(count: u64) -> Nanos
    ensures { result ≡ min (count * 1_000_000) (2 ^ 64 - 1) }
{
    count.saturating_mul(1_000_000)
}

/// Returns the moment of an instant in a program that began at `beginning`: the nanoseconds between
/// them, 0 if the instant is before the beginning, and at most `u64::MAX`. A loop gets its present
/// moment with `moment_at(beginning, Instant::now(&rt)?)`.
pub fn moment_at(beginning: Instant, instant: Instant) -> Moment
    ensures { result ≡ min (instant_nanos instant - instant_nanos beginning) (2 ^ 64 - 1) }
{
    let nanos = instant.duration_since(beginning).as_nanos();
    u64::try_from(nanos).unwrap_or(u64::MAX)
}

/// Returns the first of these moments, if there is any. Ask each call, reader and queue for its
/// `wakes_at`, and sleep until the first, or until the connection brings something. Polling earlier
/// changes nothing.
#[tactic(auto, using(crate::proofs::Earliest::any_more))]
pub fn earliest(moments: &[Option<Moment>]) -> Option<Moment>
    ensures { (now : ℕ) → has_come result now ≡ list_any (λ moment. has_come moment now) moments.now }
{
    let mut first = None;
    for moment in moments {
        first = earlier(first, *moment);
    }
    first
}
