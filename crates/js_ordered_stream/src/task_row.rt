//! Whether a task that follows stands for a row. A task that reads what was met stands for none if
//! nothing was met.
ghost use Rattle.std.specs.Prelude.{◌≡◌};
ghost use Rattle.js_ordered_table.specs.Tasks.{hearings_of, rows_of};
ghost use Rattle.js_ordered_stream.specs.Rows.{is_left, read_in};

use crate::remaining_rows::Seen;
use js_ordered_table::transitions::{Held, Task};

// Something is left of what was held.
fn is_held_left(held: &Held) -> bool
    ensures { result ≡ is_left (hearings_of held.now) }
{
    held.place < held.messages.as_slice().len()
}

// A task stands for a row, with what was looked at.
pub(crate) fn stands(task: &Task, seen: &Seen) -> bool
    ensures { result ≡ is_left (rows_of (read_in seen.now) task.now) }
{
    match task {
        Task::Answered { request } => seen.answers(*request),
        Task::Hear { inbox } => seen.is_unheard_on(*inbox),
        Task::HearHeld(held) => is_held_left(held),
        Task::Event => true,
        Task::Start => true,
        Task::Try => true,
        Task::Create => true,
        Task::Ask => true,
        Task::Await => true,
        Task::Hold => true,
        Task::Succeed(_) => true,
        Task::Fail => true,
        Task::CheckArrival => true,
        Task::CheckSilence => true,
        Task::Arm => true,
        Task::Read(_) => true,
    }
}
