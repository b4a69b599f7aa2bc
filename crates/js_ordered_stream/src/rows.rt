//! Passes one row of the table over a link: makes what the row asks for, asks the link, and passes
//! the row with what was met.
//!
//! Nothing changes until the link was asked. After that a row takes no memory.
ghost use Rattle.std.specs.Prelude.{◌≡◌, IfOk, OnErr, Option, false, true};
ghost use Rattle.js_base.specs.declared.message.Message.{Message as SpecMessage};
ghost use Rattle.js_ordered_table.specs.Tasks.{rows_of, told_outputs};
ghost use Rattle.js_ordered_stream.specs.Polled.{is_plain};
ghost use Rattle.js_ordered_stream.specs.Rows.{PassesRow, PassesRows, handed_list, is_held, is_left, read_in, seen_after};
ghost use Rattle.js_ordered_table.specs.Passes.{change_shown, input_of};
ghost use Rattle.js_ordered_table.specs.declared.row.Row.TheVariants as row;
ghost use Rattle.js_ordered_table.specs.Walk.{handed};
ghost use Rattle.js_ordered_table.specs.Wishes.{change_of};
ghost use Rattle.js_link.specs.Meets.{Meets};
ghost use Rattle.js_link.specs.Wish.{watch_met};

use crate::pull_rows::pass_read;
use crate::push_rows::{arm, hear, look, look_at_silence};
use crate::recreation::{pass_open, start};
use crate::remaining_rows::Seen;
use js_base::OutOfMemory;
use js_link::{Link, Met, Watch, Wish, ask};
use js_ordered_table::transitions::event::{is_over, pass_event};
use js_ordered_table::transitions::{NextTasks, PassedTask, RowOutput, Task};
use js_ordered_table::{Change, Consumer, ConsumerContext, ItemKind};
use std::alloc::Global;

/// Why a row was not passed.
#[derive(Drop)]
pub(crate) enum Stop {
    /// Its inbox is closed.
    Closed,
    OutOfMemory,
}

impl From<OutOfMemory> for Stop {
    ghost use Rattle.std.specs.Prelude.{◌≡◌};
    ghost use Rattle.js_ordered_stream.specs.declared.rows.Stop.TheVariants.{OutOfMemory};

    ghost from_gives = { λ _ e. e ≡ OutOfMemory };

    fn from(_error: js_base::OutOfMemory) -> Stop {
        Stop::OutOfMemory
    }
}

/// What a row hands out.
#[derive(Clone, Copy)]
pub(crate) enum RowItem {
    Nothing,
    /// The message that it looked at.
    Message,
    Error(ItemKind),
}

/// What a row that was passed comes to. It is small: what the row looked at stays in its place.
#[derive(Drop)]
pub(crate) struct Stepped {
    pub handed: RowItem,
    /// Whether it looked at something. If not, what lies there is an earlier row's.
    pub looked: bool,
    /// The rows that follow at once.
    pub next: NextTasks,
}

// A row that looked at nothing and hands nothing out: these follow it.
pub(crate) fn followed_by(next: NextTasks) -> Stepped
    ensures { result ≡ record { handed = RowItem.Nothing; looked = false; next = next } }
{
    Stepped {
        handed: RowItem::Nothing,
        looked: false,
        next,
    }
}

// A row that does not belong to its phase does nothing, as the table has it.
pub(crate) fn passed_over() -> Stepped
    ensures { result ≡ record { handed = RowItem.Nothing; looked = false; next = NextTasks.Nothing } }
{
    followed_by(NextTasks::Nothing)
}

// What is handed out of what a row tells.
pub(crate) fn handed_of(told: RowOutput) -> RowItem
    ensures { (message : Option SpecMessage) → handed_list result message ≡ handed (told_outputs told) }
{
    match told {
        RowOutput::Nothing => RowItem::Nothing,
        RowOutput::Recreates { .. } => RowItem::Nothing,
        RowOutput::Tells(kind) => RowItem::Error(kind),
    }
}

// A row that looked at nothing, by what it tells.
pub(crate) fn stepped_by(step: PassedTask) -> Stepped
    ensures handed { (message : Option SpecMessage) → handed_list result.handed message ≡ handed (told_outputs step.told) }
    ensures rest { result ≡ record result { looked = false; next = step.next } }
{
    let PassedTask { told, next } = step;
    Stepped {
        handed: handed_of(told),
        looked: false,
        next,
    }
}

// A link is asked for what a row wishes, which is let go. Where there is no memory, nothing was asked.
pub(crate) fn ask_for<L: Link>(alloc: Global, link: &mut L, wish: Wish) -> Result<Met, OutOfMemory>
    ensures met { IfOk result (λ met. Meets wish met (L.view link.old) (L.view link.new)) }
    ensures refused { OnErr result (L.view link.new ≡ L.view link.old) }
{
    let asked = ask(alloc, link, &wish);
    drop(wish);
    asked
}

// ---- a turn begins

// What the connection shows.
fn change_met(watch: Watch) -> Change
    ensures { change_shown result ≡ change_of (watch_met watch) }
{
    match watch {
        Watch::State(state) => Change::Becomes(state),
        Watch::Ended => Change::WatcherEnds,
    }
}

// A turn begins with a look at the connection.
pub(crate) fn begin<L: Link>(
    context: &ConsumerContext<'_>,
    link: &mut L,
    consumer: &mut Consumer,
) -> Result<Stepped, Stop>
    ensures { PassesRow (input_of context.now) context.now.moment row.Event consumer.old consumer.new (L.view link.old) (L.view link.new) Seen.Nothing result }
{
    // An ended consumer passes nothing.
    if is_over(&consumer.phase) {
        return Ok(passed_over());
    }
    let change = change_met(link.state());
    Ok(stepped_by(pass_event(context, consumer, change)))
}

// ---- any row

// The row that a task stands for is passed. What it looked at takes the place of what it reads.
pub(crate) fn pass<L: Link>(
    alloc: Global,
    context: &ConsumerContext<'_>,
    link: &mut L,
    consumer: &mut Consumer,
    task: &Task,
    seen: &mut Seen,
) -> Result<Stepped, Stop>
    requires stands { is_left (rows_of (read_in seen.old) task.now) ≡ true }
    requires held { is_held task.now ≡ false }
    requires plain { is_plain context.now.setup.now consumer.old.phase ≡ true }
    ensures passes { PassesRows (input_of context.now) context.now.moment (rows_of (read_in seen.old) task.now) consumer.old consumer.new (L.view link.old) (L.view link.new) (seen_after result seen.new) result }
    ensures kept { OnErr result (seen.new ≡ seen.old) }
{
    match task {
        Task::Event => begin(context, link, consumer),
        Task::Start => start(alloc, context, link, consumer),
        Task::Read(due) => pass_read(alloc, context, link, consumer, *due, seen),
        Task::Try => pass_open(alloc, context, link, consumer, task, seen),
        Task::Create => pass_open(alloc, context, link, consumer, task, seen),
        Task::Ask => pass_open(alloc, context, link, consumer, task, seen),
        Task::Await => pass_open(alloc, context, link, consumer, task, seen),
        Task::Answered { .. } => pass_open(alloc, context, link, consumer, task, seen),
        Task::Succeed(_) => pass_open(alloc, context, link, consumer, task, seen),
        Task::Fail => pass_open(alloc, context, link, consumer, task, seen),
        Task::CheckArrival => look(context, link, consumer, seen),
        Task::Hear { inbox } => hear(alloc, context, link, consumer, *inbox, seen),
        Task::CheckSilence => look_at_silence(context, consumer),
        Task::Arm => arm(context, consumer),
        // What comes for the inbox of a create lies in the link, up to a later turn.
        Task::Hold => Ok(followed_by(NextTasks::Nothing)),
        // So nothing is ever held.
        Task::HearHeld(_) => unreachable!(),
    }
}
