//! The replay of an ordered consumer over a list of events.
ghost use Rattle.std.specs.Prelude.{◌≡◌, ◌≢◌, ◌+◌, ◌≤◌, [], length, map, IfOk, OnOk, IfErr, Some, None, vec_capacity, vec_len};
ghost use Rattle.js_ordered_table.specs.Fold as fold;
ghost use Rattle.js_ordered_table.specs.Invariant.{IsPull};
ghost use Rattle.js_ordered_table.specs.Passes.{at, input_of};
ghost use Rattle.js_ordered_table.specs.Refusal.{is_exhausted, refuse_end, refuse_input};
ghost use Rattle.js_ordered_table.specs.Replay.{IsAnswer, IsFolded, IsValid};

use crate::drive::pass_left;
use crate::event_context::EventContext;
use crate::opening::{first_reader, first_state};
use crate::task_stack::TaskStack;
use js_base::{Items, Moment, OutOfMemory};
use js_json::consumer::Info;
use js_ordered_table::transitions::event::is_over;
use js_ordered_table::transitions::push::listen;
use js_ordered_table::transitions::{NextTasks, Task};
use js_ordered_table::{
    ConsumerContext, Event, EventKind, OrderedSetup, Output, Phase, ReplayError, ReplayState, Run,
    Settings, Step, refuse_input,
};
use js_pull::Due;
use std::alloc::Global;

// ---- the opening

// The opening of pull, which asks at once and arms its heartbeat.
fn open_pull(
    alloc: Global,
    context: &ConsumerContext<'_>,
    state: &mut ReplayState,
    todo: &mut TaskStack,
    outputs: &mut Vec<Output>,
) -> Result<(), OutOfMemory>
    requires pull { IsPull context.now.setup.now }
    requires rested { todo.old.tasks.items ≡ [] }
    requires empty { outputs.old.items ≡ [] }
    requires first { state.old ≡ at Phase.Idle (fold.first_state (input_of context.now) context.now.moment) }
    ensures state { OnOk result (state.new ≡ (fold.opening (input_of context.now) context.now.moment).state) }
    ensures outputs { OnOk result (outputs.new.items ≡ (fold.opening (input_of context.now) context.now.moment).outputs) }
    ensures rested { OnOk result (todo.new.tasks.items ≡ []) }
{
    let reader = first_reader(alloc, context)?;
    state.set_phase(Phase::Pulls(reader));
    todo.make_room()?;
    todo.push_next(NextTasks::Two(Task::Read(Due::Threshold), Task::Read(Due::Arm)));
    let opening = EventContext {
        consumer: *context,
        what: None,
    };
    pass_left(alloc, &opening, state, todo, outputs)?;
    Ok(())
}

// The opening, from the first state on: pull asks at once, and either arms its heartbeat.
#[tactic(auto, using(std::proofs::lemmas::Grind::common_steps, crate::proofs::ReplayRuns::opening_listens))]
pub(crate) fn open(
    alloc: Global,
    context: &ConsumerContext<'_>,
    todo: &mut TaskStack,
    outputs: &mut Vec<Output>,
) -> Result<ReplayState, OutOfMemory>
    requires rested { todo.old.tasks.items ≡ [] }
    requires empty { outputs.old.items ≡ [] }
    ensures state { IfOk result (λ state. state ≡ (fold.opening (input_of context.now) context.now.moment).state) }
    ensures outputs { OnOk result (outputs.new.items ≡ (fold.opening (input_of context.now) context.now.moment).outputs) }
    ensures rested { OnOk result (todo.new.tasks.items ≡ []) }
{
    let mut state = first_state(context)?;
    match context.setup {
        OrderedSetup::Pull(_) => {
            match open_pull(alloc, context, &mut state, todo, outputs) {
                Ok(()) => Ok(state),
                Err(OutOfMemory) => {
                    drop(state);
                    Err(OutOfMemory)
                }
            }
        }
        OrderedSetup::Push(_) => {
            listen(context, &mut state.consumer, 0);
            Ok(state)
        }
    }
}

// ---- one event

// The link after an event.
pub(crate) fn link_after(what: &EventKind, was: bool) -> bool
    ensures { result ≡ fold.link_after what.now was }
{
    match what {
        EventKind::Link { up } => *up,
        _ => was,
    }
}

// One event is passed at its moment, with the link as it then stands.
fn pass(
    alloc: Global,
    context: &ConsumerContext<'_>,
    event: &Event,
    state: &mut ReplayState,
    todo: &mut TaskStack,
    outputs: &mut Vec<Output>,
) -> Result<(), OutOfMemory>
    requires rested { todo.old.tasks.items ≡ [] }
    requires empty { outputs.old.items ≡ [] }
    ensures state { OnOk result (state.new ≡ (fold.event (input_of context.now) event.now state.old).state) }
    ensures outputs { OnOk result (outputs.new.items ≡ (fold.event (input_of context.now) event.now state.old).outputs) }
    ensures rested { OnOk result (todo.new.tasks.items ≡ []) }
{
    state.link_up = link_after(&event.what, state.link_up);
    let consumer = ConsumerContext {
        settings: context.settings,
        setup: context.setup,
        first: context.first,
        moment: event.at,
    };
    let context = EventContext {
        consumer,
        what: Some(&event.what),
    };
    todo.make_room()?;
    todo.push(Task::Event);
    pass_left(alloc, &context, state, todo, outputs)?;
    Ok(())
}

// The outputs so far become a step that takes no more memory than they need. What held them is empty and keeps its
// room for those of the next event.
fn take_step(outputs: &mut Vec<Output>) -> Result<Step, OutOfMemory>
    ensures step { IfOk result (λ step. step.outputs ≡ outputs.old.items) }
    ensures emptied { OnOk result (outputs.new.items ≡ []) }
{
    let taken = outputs.split_off(0)?;
    Ok(Step {
        outputs: Items::from(taken),
    })
}

// One event is passed, and what it puts out is its step.
fn step(
    alloc: Global,
    context: &ConsumerContext<'_>,
    event: &Event,
    state: &mut ReplayState,
    todo: &mut TaskStack,
    outputs: &mut Vec<Output>,
) -> Result<Step, OutOfMemory>
    requires rested { todo.old.tasks.items ≡ [] }
    requires empty { outputs.old.items ≡ [] }
    ensures step { IfOk result (λ step. step ≡ fold.step_of (fold.event (input_of context.now) event.now state.old)) }
    ensures state { OnOk result (state.new ≡ (fold.event (input_of context.now) event.now state.old).state) }
    ensures emptied { OnOk result (outputs.new.items ≡ []) }
    ensures rested { OnOk result (todo.new.tasks.items ≡ []) }
{
    pass(alloc, context, event, state, todo, outputs)?;
    take_step(outputs)
}

// ---- all events

// The consumer has no sequence to go on from.
pub(crate) fn is_exhausted(phase: &Phase) -> bool
    ensures { result ≡ is_exhausted phase.now }
{
    matches!(phase, Phase::Exhausted)
}

// No steps yet, with room for as many as there are events.
fn steps_for(alloc: Global, events: &[Event]) -> Result<Vec<Step>, OutOfMemory>
    ensures none { IfOk result (λ steps. steps.items ≡ []) }
    ensures room { IfOk result (λ steps. vec_len steps + length events.now ≤ vec_capacity steps) }
{
    Ok(Vec::with_capacity(alloc, events.len())?)
}

// The steps of a list of events, one for each, are added where there are none, and there is room for them.
#[tactic(auto, using(crate::proofs::ReplayRuns::goes_first, crate::proofs::ReplayRuns::goes_no_further, crate::proofs::ReplayRuns::steps_all, crate::proofs::ReplayRuns::state_last, crate::proofs::ReplayRuns::none_refused))]
fn add_steps(
    alloc: Global,
    context: &ConsumerContext<'_>,
    state: &mut ReplayState,
    todo: &mut TaskStack,
    outputs: &mut Vec<Output>,
    events: &[Event],
    steps: &mut Vec<Step>,
) -> Result<(), ReplayError>
    requires rested { todo.old.tasks.items ≡ [] }
    requires empty { outputs.old.items ≡ [] }
    requires none { steps.old.items ≡ [] }
    requires room { vec_len steps.old + length events.now ≤ vec_capacity steps.old }
    ensures steps { OnOk result (steps.new.items ≡ map fold.step_of (fold.run_events (input_of context.now) events.now state.old)) }
    ensures state { OnOk result (state.new ≡ fold.last_state state.old (fold.run_events (input_of context.now) events.now state.old)) }
    ensures accepted { OnOk result (refuse_end (fold.run_events (input_of context.now) events.now state.old) ≡ None) }
    ensures refused { IfErr result (λ e. e ≢ ReplayError.OutOfMemory → refuse_end (fold.run_events (input_of context.now) events.now state.old) ≡ Some e) }
{
    for (place, event) in events.iter().enumerate() {
        let Ok(step) = step(alloc, context, event, state, todo, outputs) else {
            return Err(ReplayError::OutOfMemory);
        };
        if is_exhausted(&state.consumer.phase) {
            drop(step);
            return Err(ReplayError::SequenceEnd {
                place: place as u64,
            });
        }
        steps.push_reserved(step);
    }
    Ok(())
}

// The steps of a list of events, one for each.
fn steps_of(
    alloc: Global,
    context: &ConsumerContext<'_>,
    state: &mut ReplayState,
    todo: &mut TaskStack,
    outputs: &mut Vec<Output>,
    events: &[Event],
) -> Result<Items<Step>, ReplayError>
    requires rested { todo.old.tasks.items ≡ [] }
    requires empty { outputs.old.items ≡ [] }
    ensures steps { IfOk result (λ steps. steps ≡ map fold.step_of (fold.run_events (input_of context.now) events.now state.old)) }
    ensures state { OnOk result (state.new ≡ fold.last_state state.old (fold.run_events (input_of context.now) events.now state.old)) }
    ensures accepted { OnOk result (refuse_end (fold.run_events (input_of context.now) events.now state.old) ≡ None) }
    ensures refused { IfErr result (λ e. e ≢ ReplayError.OutOfMemory → refuse_end (fold.run_events (input_of context.now) events.now state.old) ≡ Some e) }
{
    let mut steps = steps_for(alloc, events)?;
    match add_steps(alloc, context, state, todo, outputs, events, &mut steps) {
        Ok(()) => Ok(Items::from(steps)),
        Err(refused) => {
            drop(steps);
            Err(refused)
        }
    }
}

// ---- a replay

// The run of the events, from a state that was just opened on.
#[tactic(auto, using(crate::proofs::ReplayRuns::run_folded, crate::proofs::ReplayRuns::end_folded))]
fn run_from(
    alloc: Global,
    context: &ConsumerContext<'_>,
    state: &mut ReplayState,
    todo: &mut TaskStack,
    outputs: &mut Vec<Output>,
    events: &[Event],
) -> Result<Run, ReplayError>
    requires accepted { refuse_input (input_of context.now) context.now.moment events.now ≡ None }
    requires rested { todo.old.tasks.items ≡ [] }
    requires first { state.old ≡ (fold.opening (input_of context.now) context.now.moment).state }
    requires opened { outputs.old.items ≡ (fold.opening (input_of context.now) context.now.moment).outputs }
    ensures { IsFolded (input_of context.now) context.now.moment events.now result }
{
    let opening = take_step(outputs)?;
    match steps_of(alloc, context, state, todo, outputs, events) {
        Ok(steps) => Ok(Run {
            opening,
            steps,
            ended: is_over(&state.consumer.phase),
        }),
        Err(refused) => {
            drop(opening);
            Err(refused)
        }
    }
}

// The run of the events of input that is not refused, from the opening on.
#[tactic(auto, using(crate::proofs::ReplayRuns::end_folded))]
fn run_over(
    alloc: Global,
    context: &ConsumerContext<'_>,
    todo: &mut TaskStack,
    outputs: &mut Vec<Output>,
    events: &[Event],
) -> Result<Run, ReplayError>
    requires accepted { refuse_input (input_of context.now) context.now.moment events.now ≡ None }
    requires rested { todo.old.tasks.items ≡ [] }
    requires empty { outputs.old.items ≡ [] }
    ensures { IsFolded (input_of context.now) context.now.moment events.now result }
{
    let mut state = open(alloc, context, todo, outputs)?;
    let ran = run_from(alloc, context, &mut state, todo, outputs, events);
    drop(state);
    ran
}

// The run of the events of input that is not refused.
fn run(alloc: Global, context: &ConsumerContext<'_>, events: &[Event]) -> Result<Run, ReplayError>
    requires accepted { refuse_input (input_of context.now) context.now.moment events.now ≡ None }
    ensures { IsFolded (input_of context.now) context.now.moment events.now result }
{
    let mut todo = TaskStack::new(alloc);
    let mut outputs = Vec::new(alloc);
    let ran = run_over(alloc, context, &mut todo, &mut outputs, events);
    drop(outputs);
    drop(todo);
    ran
}

// The run, or the refusal that applies.
#[tactic(auto, using(crate::proofs::ReplayRuns::input_folded))]
fn replay(
    alloc: Global,
    context: &ConsumerContext<'_>,
    events: &[Event],
) -> Result<Run, ReplayError>
    ensures { IsFolded (input_of context.now) context.now.moment events.now result }
{
    if let Some(refusal) = refuse_input(context, events) {
        return Err(refusal);
    }
    run(alloc, context, events)
}

/// Returns what an ordered consumer does at its opening and at each event, and whether it has ended
/// after the last one.
///
/// `first` is the info that the server sent of the consumer created before the opening, at the
/// moment `start`. That consumer's inbox has the number 0, sends go through, and the connection is
/// up.
///
/// The run has one step for each event, in their order, and no step begins more than one
/// recreation. An event after the end of the consumer is skipped and puts out nothing, but its
/// moment still has to be in order.
///
/// On one inbox the consumer sequences of the yields are 1, 2, 3 and so on. If the server is
/// honest, the yields leave no gap: they are messages of the stream that the filter selects, in
/// rising order. Every such message between two of them, or from a configured start up to the
/// first, was removed.
///
/// # Errors
///
/// Fails with the first of these that applies:
///
/// - `NoDeliverSubject`: the setup is push, and `first` has no deliver subject.
/// - `BadSettings`: a field is not a valid name or subject; the first such field, in the order of
///   `Field`. An empty filter is no filter, and the deliver subject is checked for push only.
/// - `BadEvent`: the moment of the event at this place is before that of the previous event, or
///   before `start` for the first. All events are checked, also those after the end.
/// - `SequenceEnd`: at the event at this place a recreation has no sequence to start from, because
///   the last of all sequences was yielded.
///
/// Instead of a run or of any of these, it may fail with `OutOfMemory`.
#[tactic(auto, using(js_ordered_table::proofs::Promises::folded_answers, js_ordered_table::proofs::Promises::folded_valid))]
pub fn replay_ordered(
    alloc: Global,
    settings: &Settings,
    setup: &OrderedSetup,
    first: &Info,
    start: Moment,
    events: &[Event],
) -> Result<Run, ReplayError>
    ensures answer { IsAnswer (record { settings = settings.now; setup = setup.now; first = first.now }) start events.now result }

    // Valid input is never refused: want of memory is its only error.
    ensures valid { IsValid (record { settings = settings.now; setup = setup.now; first = first.now }) start events.now
        → IfErr result (λ refusal. refusal ≡ ReplayError.OutOfMemory) }
{
    let context = ConsumerContext {
        settings,
        setup,
        first,
        moment: start,
    };
    replay(alloc, &context, events)
}
