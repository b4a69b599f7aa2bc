//! When an ordered consumer has something to do by itself.
ghost use Rattle.std.specs.Prelude.{◌≡◌, ◌<◌, ◌^◌, ℕ};
ghost use Rattle.js_base.specs.Clock.{has_come};
ghost use Rattle.js_ordered_table.specs.Timers.{phase_due, stage_due};

use crate::consumer::{Phase, Stage};
use js_base::Moment;

// When an open recreation has something to do.
fn stage_end(stage: &Stage) -> Option<Moment>
    ensures { (now : ℕ) → now < 2 ^ 64 → has_come result now ≡ stage_due now stage.now }
{
    match stage {
        Stage::Between => None,
        Stage::Deleting { timeout, .. } => timeout.ends_at(),
        Stage::Creating { timeout, .. } => timeout.ends_at(),
        Stage::Waiting { wait } => wait.ends_at(),
    }
}

/// Returns the first moment at which a consumer at this phase has something to do even if nothing
/// comes, in nanoseconds: the end of its first timer, and 0 if its recreation is to begin.
pub fn phase_wakes_at(phase: &Phase) -> Option<Moment>
    ensures { (now : ℕ) → now < 2 ^ 64 → has_come result now ≡ phase_due now phase.now }
{
    match phase {
        Phase::Pulls(reader) => js_pull::wakes_at(reader),
        Phase::Pushes {
            heartbeat_timer,
            ..
        } => heartbeat_timer.ends_at(),
        Phase::Recreates(recreation) => stage_end(&recreation.stage),
        Phase::Idle => Some(0),
        Phase::Ended => None,
        Phase::Exhausted => None,
    }
}
