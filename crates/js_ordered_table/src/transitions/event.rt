//! How an event begins: first the connection, then a recreation that starts or continues, or the
//! reader's part.
ghost use Rattle.std.specs.Prelude.{◌≡◌, [], false};
ghost use Rattle.js_link.specs.RowInput.{RowInput};
ghost use Rattle.js_ordered_table.specs.Tasks.{StepsTo, at_moment, goes_on, is_lost as is_lost_at, next_rows, told_outputs};
ghost use Rattle.js_ordered_table.specs.Fold.{is_over as has_ended};
ghost use Rattle.js_ordered_table.specs.Passes.{change_shown, input_of};
ghost use Rattle.js_ordered_table.specs.Recreation.{recreation_rows};
ghost use Rattle.js_ordered_table.specs.Consumer.{Matter};
ghost use Rattle.js_ordered_table.specs.Table as table;

use crate::transitions::pull::begin;
use crate::transitions::recreation::set_phase;
use crate::transitions::task::{NextTasks, PassedTask, RowOutput, Task};
use crate::{Change, Consumer, ConsumerContext, ItemKind, OrderedSetup, Phase, Recreation};
use js_base::State;
use js_pull::same_state;

fn is_connected(state: State) -> bool
    ensures { result ≡ table.is_connected state }
{
    match state {
        State::Connected => true,
        State::Pending => false,
        State::Disconnected => false,
    }
}

/// Returns whether the consumer has ended.
pub fn is_over(phase: &Phase) -> bool
    ensures { result ≡ has_ended phase.now }
{
    match phase {
        Phase::Ended => true,
        Phase::Exhausted => true,
        Phase::Pulls(_) => false,
        Phase::Pushes { .. } => false,
        Phase::Recreates(_) => false,
        Phase::Idle => false,
    }
}

/// Returns the result of a row that puts out nothing, with the rows that follow it.
#[inline]
pub fn silent_row(next: NextTasks) -> PassedTask
    ensures { result ≡ record { told = RowOutput.Nothing; next = next } }
{
    PassedTask {
        told: RowOutput::Nothing,
        next,
    }
}

// An open recreation looks at what it waits for, and holds what arrives where push has opened an inbox.
#[inline]
fn recreation_next(recreation: &Recreation) -> NextTasks
    ensures { (m : Matter) → next_rows m result ≡ recreation_rows recreation.now.opened }
{
    if recreation.opened.is_some() {
        return NextTasks::Two(Task::Await, Task::Hold);
    }
    NextTasks::One(Task::Await)
}

// What an event goes on with after the connection, which may have changed for a reader.
#[inline]
fn go_on(context: &ConsumerContext<'_>, consumer: &mut Consumer, change: Option<State>) -> NextTasks
    ensures { (p : RowInput) → (m : Matter)
        → StepsTo m (goes_on (input_of context.now) (at_moment context.now.moment p) m change consumer.old.phase consumer.old) [] consumer.new result }
{
    match &mut consumer.phase {
        Phase::Pulls(reader) => begin(reader, context.moment, change),
        Phase::Pushes { .. } => NextTasks::One(Task::CheckArrival),
        Phase::Recreates(recreation) => recreation_next(recreation),
        Phase::Idle => NextTasks::One(Task::Start),
        Phase::Ended => NextTasks::Nothing,
        Phase::Exhausted => NextTasks::Nothing,
    }
}

// Push drops its inbox where the connection comes or goes.
fn is_lost(phase: &Phase, before: State, state: State) -> bool
    ensures { result ≡ is_lost_at phase.now before state }
{
    match phase {
        Phase::Pushes { .. } => is_connected(before) || is_connected(state),
        Phase::Pulls(_) => false,
        Phase::Recreates(_) => false,
        Phase::Idle => false,
        Phase::Ended => false,
        Phase::Exhausted => false,
    }
}

// The connection is in another state from now on.
fn change_state(context: &ConsumerContext<'_>, consumer: &mut Consumer, state: State) -> NextTasks
    ensures { (p : RowInput) → (m : Matter)
        → StepsTo m (table.changed (input_of context.now) (at_moment context.now.moment p) m consumer.old.connection state consumer.old.phase consumer.old) [] consumer.new result }
{
    let restarts = is_lost(&consumer.phase, consumer.connection, state);
    consumer.connection = state;
    if restarts {
        return NextTasks::One(Task::Start);
    }
    go_on(context, consumer, Some(state))
}

/// Begins an event, with what it says about the connection. Do not call it for a consumer that has
/// ended: such a consumer passes no rows.
#[inline]
pub fn pass_event(
    context: &ConsumerContext<'_>,
    consumer: &mut Consumer,
    change: Change,
) -> PassedTask
    requires over { has_ended consumer.old.phase ≡ false }
    ensures { (p : RowInput) → (m : Matter) → m.change ≡ change_shown change
        → StepsTo m (table.event_row (input_of context.now) (at_moment context.now.moment p) m consumer.old.phase consumer.old) (told_outputs result.told) consumer.new result.next }
{
    match change {
        Change::Unchanged => silent_row(go_on(context, consumer, None)),
        Change::Becomes(state) => {
            if same_state(consumer.connection, state) {
                return silent_row(go_on(context, consumer, None));
            }
            silent_row(change_state(context, consumer, state))
        }
        Change::WatcherEnds => match context.setup {
            OrderedSetup::Pull(_) => silent_row(go_on(context, consumer, None)),
            OrderedSetup::Push(_) => {
                set_phase(consumer, Phase::Ended);
                PassedTask {
                    told: RowOutput::Tells(ItemKind::Other),
                    next: NextTasks::Nothing,
                }
            }
        },
    }
}
