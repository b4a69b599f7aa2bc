//! The line that says when a consumer wakes.

ghost use Rattle.std.specs.Prelude.{◌≡◌, ◌<◌, ◌^◌, ◌++◌, ℕ, OnOk};
ghost use Rattle.js_base.specs.Clock.{has_come};
ghost use Rattle.js_ordered_table.specs.Timers.{phase_due};
ghost use Rattle.js_tool_transcript.specs.Text.{cell_data};
ghost use Rattle.js_tool_follow.specs.Wakes.{moment_or_null, wakes_at, wakes_text};

use js_base::Moment;
use js_ordered_table::{Phase, phase_wakes_at};
use js_tool_transcript::{Cell, push_line};
use std::alloc::AllocError;

// The moment at which the table has something to do by itself.
fn wake_of(phase: &Phase) -> Option<Moment>
    ensures value { result ≡ wakes_at phase.now }
    ensures due { (now : ℕ) → now < 2 ^ 64 → has_come result now ≡ phase_due now phase.now }
{
    match phase_wakes_at(phase) {
        Some(moment) => Some(moment),
        None => None,
    }
}

fn moment_cell(moment: Option<Moment>) -> Cell<'static>
    ensures { cell_data result ≡ moment_or_null moment }
{
    match moment {
        Some(moment) => Cell::Number(moment),
        None => Cell::Null,
    }
}

/// Adds a line with the moment at which a consumer at this phase wakes, or with `null` if it does
/// not wake by itself. Adds nothing if it is not asked for.
pub(crate) fn push_wakes(
    out: &mut Vec<u8>,
    asked: bool,
    step: u64,
    phase: &Phase,
) -> Result<(), AllocError>
    ensures { OnOk result (out.new.items ≡ out.old.items ++ wakes_text asked step phase.now) }
{
    if !asked {
        return Ok(());
    }
    push_line(
        out,
        &[
            Cell::Number(step),
            Cell::Text(b"wakes"),
            moment_cell(wake_of(phase)),
        ],
    )
}
