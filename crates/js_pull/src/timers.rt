//! When a stream has something to do even if nothing comes.
ghost use Rattle.std.specs.Prelude.{◌≡◌, ◌||◌, ◌<◌, ◌^◌, ℕ};
ghost use Rattle.js_base.specs.Clock.{has_come};
ghost use Rattle.js_pull.specs.Timers.{inquiry_due, timer_due};

use crate::{InfoRequest, Reader};
use js_base::{Moment, Timer, any_ends_at, earlier};

// When an open info has something to do; without one the expiry of the pull requests counts.
fn inquiry_end(inquiry: &InfoRequest, expiry: &Option<Timer>) -> Option<Moment>
    ensures { (now : ℕ) → now < 2 ^ 64 → has_come result now ≡ inquiry_due now inquiry.now expiry.now }
{
    match inquiry {
        InfoRequest::NoInfoRequest => any_ends_at(expiry),
        InfoRequest::Asked { timeout, .. } => any_ends_at(timeout),
        InfoRequest::Resting { wait, .. } => wait.ends_at(),
    }
}

/// Returns the first moment at which a timer of the reader is due, or `None` if no timer will be. A
/// reader that has ended has no timer.
pub fn wakes_at(reader: &Reader) -> Option<Moment>
    ensures { (now : ℕ) → now < 2 ^ 64 → has_come result now ≡ timer_due now reader.now }
{
    if reader.ended {
        return None;
    }
    earlier(
        inquiry_end(&reader.inquiry, &reader.expiry),
        any_ends_at(&reader.heartbeat_timer),
    )
}
