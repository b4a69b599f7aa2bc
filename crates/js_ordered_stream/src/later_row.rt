//! A row that waits behind the next one.
ghost use Rattle.std.specs.Prelude.{◌≡◌, ◌∷◌, [], false};
ghost use Rattle.js_ordered_table.specs.Tasks.{rows_of};
ghost use Rattle.js_ordered_table.specs.Consumer.{Matter};
ghost use Rattle.js_ordered_stream.specs.Rows.{is_held, later_row, waiting_due as due_that_waits, waiting_of};

use js_ordered_table::transitions::Task;
use js_pull::Due;

/// A row that waits until the row before it and what follows that one at once are passed. It reads
/// nothing that was met.
#[derive(Clone, Copy)]
pub(crate) enum LaterRow {
    /// A pull reader arms its heartbeat.
    Arm,
    /// A pull reader looks for an arrival.
    CheckArrival,
    /// What comes for the inbox of a create is held.
    Hold,
}

// The row of a reader that waits.
fn waiting_due(due: Due) -> Option<LaterRow>
    ensures { result ≡ due_that_waits due }
{
    match due {
        Due::Arm => Some(LaterRow::Arm),
        Due::CheckArrival => Some(LaterRow::CheckArrival),
        Due::Ask { .. } => None,
        Due::Threshold => None,
        Due::Inquire { .. } => None,
        Due::FailInfoRequest { .. } => None,
        Due::CheckInfoRequest => None,
        Due::Answered { .. } => None,
        Due::CheckExpiry => None,
        Due::CheckSilence => None,
    }
}

// The row that waits, of a task that follows another one. Any other task that follows one stands for no row.
pub(crate) fn waiting_row(second: &Task) -> Option<LaterRow>
    ensures { result ≡ waiting_of second.now }
{
    match second {
        Task::Hold => Some(LaterRow::Hold),
        Task::Read(due) => waiting_due(*due),
        Task::Event => None,
        Task::Start => None,
        Task::Try => None,
        Task::Create => None,
        Task::Ask => None,
        Task::Await => None,
        Task::Answered { .. } => None,
        Task::Succeed(_) => None,
        Task::Fail => None,
        Task::CheckArrival => None,
        Task::Hear { .. } => None,
        Task::HearHeld(_) => None,
        Task::CheckSilence => None,
        Task::Arm => None,
    }
}

// The task of a row that has waited.
pub(crate) fn task_of(later: LaterRow) -> Task
    ensures rows { (m : Matter) → rows_of m result ≡ later_row later ∷ [] }
    ensures held { is_held result ≡ false }
{
    match later {
        LaterRow::Arm => Task::Read(Due::Arm),
        LaterRow::CheckArrival => Task::Read(Due::CheckArrival),
        LaterRow::Hold => Task::Hold,
    }
}
