//! A replay passes the rows of its events one by one. The event gives a row what it wishes, and
//! what the row sends is put out.
//!
//! A row takes the memory that it needs before it changes anything. So if memory runs out, the rows
//! that are left, with what was put out so far, still lead to what the whole event leads to. These
//! rows are counted, and each turn of the loop over them passes one, so the loop ends.
ghost use Rattle.std.specs.Prelude.{◌≡◌, ◌+◌, ◌<◌, ◌≤◌, ◌++◌, ◌∷◌, [], OnErr, OnOk, false, length, true, vec_capacity, vec_len};
ghost use Rattle.js_ordered.specs.Drive.{IsLeft, IsTry, LeadsOn, PassesOn, PassesTo, first_held, first_rows, left_rows, left_to_do, matter_now};
ghost use Rattle.js_ordered_table.specs.Tasks.{heard_rows, hearings_of, next_rows, rows_of};
ghost use Rattle.js_ordered_table.specs.Passes.{at};
ghost use Rattle.js_ordered_table.specs.Recreation.{message_on};
ghost use Rattle.js_ordered_table.specs.Consumer.{Matter};
ghost use Rattle.js_ordered_table.specs.declared.row.Row.TheVariants as row;

pub(crate) mod arrivals;
pub(crate) mod give;
pub(crate) mod pull_rows;
pub(crate) mod push_rows;
pub(crate) mod recreation;
pub(crate) mod success;

use crate::drive::give::tell;
use crate::event_context::EventContext;
use crate::task_stack::TaskStack;
use js_base::OutOfMemory;
use js_ordered_table::transitions::event::{is_over, pass_event};
use js_ordered_table::transitions::{Held, NextTasks, PassedTask, Task};
use js_ordered_table::{Output, Phase, Recreation, ReplayState};
use std::alloc::Global;
use std::mem;

// ---- rows of an open recreation

// A row of an open recreation is passed.
fn pass_recreating(
    alloc: Global,
    context: &EventContext<'_>,
    state: &mut ReplayState,
    recreation: Recreation,
    task: &Task,
    outputs: &mut Vec<Output>,
) -> Result<NextTasks, OutOfMemory>
    requires task { IsTry task.now }
    requires room { vec_len outputs.old + 1 ≤ vec_capacity outputs.old }
    ensures { PassesTo context.now (rows_of (matter_now context.now) task.now) (at (Phase.Recreates recreation) state.old) state.new outputs.old.items outputs.new.items result }
{
    match task {
        Task::Try => recreation::begin_try(alloc, context, state, recreation, outputs),
        Task::Create => recreation::create(alloc, context, state, recreation, outputs),
        Task::Ask => recreation::ask(alloc, context, state, recreation, outputs),
        Task::Await => recreation::look_on(context, state, recreation, outputs),
        Task::Answered { request } => {
            recreation::answered(alloc, context, state, recreation, *request, outputs)
        }
        Task::Succeed(info) => {
            success::succeed(alloc, context, state, recreation, info.get(), outputs)
        }
        Task::Fail => recreation::fail(context, state, recreation, outputs),
        Task::Event
        | Task::Start
        | Task::Hold
        | Task::CheckArrival
        | Task::Hear { .. }
        | Task::HearHeld(_)
        | Task::CheckSilence
        | Task::Arm
        | Task::Read(_) => {
            drop(recreation);
            Ok(NextTasks::Nothing)
        }
    }
}

// A row that belongs to an open recreation is passed. Where none is open, it does nothing.
fn pass_try(
    alloc: Global,
    context: &EventContext<'_>,
    state: &mut ReplayState,
    task: &Task,
    outputs: &mut Vec<Output>,
) -> Result<NextTasks, OutOfMemory>
    requires task { IsTry task.now }
    requires room { vec_len outputs.old + 1 ≤ vec_capacity outputs.old }
    ensures { PassesTo context.now (rows_of (matter_now context.now) task.now) state.old state.new outputs.old.items outputs.new.items result }
{
    match mem::replace(&mut state.consumer.phase, Phase::Idle) {
        Phase::Recreates(recreation) => {
            pass_recreating(alloc, context, state, recreation, task, outputs)
        }
        other => {
            state.set_phase(other);
            Ok(NextTasks::Nothing)
        }
    }
}

// ---- any row

// What an event does first. An ended consumer passes nothing.
#[inline]
fn event(
    context: &EventContext<'_>,
    state: &mut ReplayState,
    outputs: &mut Vec<Output>,
) -> NextTasks
    requires room { vec_len outputs.old + 1 ≤ vec_capacity outputs.old }
    ensures { PassesOn context.now (row.Event ∷ []) state.old outputs.old.items (next_rows (matter_now context.now) result) state.new outputs.new.items }
{
    if is_over(&state.consumer.phase) {
        return NextTasks::Nothing;
    }
    let PassedTask { told, next } = pass_event(
        &context.consumer,
        &mut state.consumer,
        context.change(),
    );
    tell(told, outputs);
    next
}

// What was held is heard, the first of it.
fn hear_held(
    alloc: Global,
    context: &EventContext<'_>,
    state: &mut ReplayState,
    held: &Held,
    outputs: &mut Vec<Output>,
) -> Result<NextTasks, OutOfMemory>
    requires room { vec_len outputs.old + 1 ≤ vec_capacity outputs.old }
    ensures { PassesTo context.now (first_held held.now) state.old state.new outputs.old.items outputs.new.items result }
{
    let messages = held.messages.as_slice();
    let place = held.place;
    if place >= messages.len() {
        return Ok(NextTasks::Nothing);
    }
    push_rows::hear(alloc, context, state, held.inbox, &messages[place], outputs)
}

// What the event brings on an inbox is heard.
fn hear_brought(
    alloc: Global,
    context: &EventContext<'_>,
    state: &mut ReplayState,
    inbox: u64,
    outputs: &mut Vec<Output>,
) -> Result<NextTasks, OutOfMemory>
    requires room { vec_len outputs.old + 1 ≤ vec_capacity outputs.old }
    ensures { PassesTo context.now (heard_rows inbox (message_on inbox (matter_now context.now).arrival)) state.old state.new outputs.old.items outputs.new.items result }
{
    match context.message_on(inbox) {
        None => Ok(NextTasks::Nothing),
        Some(message) => push_rows::hear(alloc, context, state, inbox, message, outputs),
    }
}

// What arrives for a recreation that holds arrivals is held.
fn hold(
    context: &EventContext<'_>,
    state: &mut ReplayState,
    outputs: &mut Vec<Output>,
) -> Result<NextTasks, OutOfMemory>
    ensures { PassesTo context.now (row.Hold ∷ []) state.old state.new outputs.old.items outputs.new.items result }
{
    recreation::hold_at(context, &mut state.consumer.phase)?;
    Ok(NextTasks::Nothing)
}

// A row is passed, and those that follow it at once are answered. Of what was held only the first message is heard.
#[inline]
fn pass(
    alloc: Global,
    context: &EventContext<'_>,
    state: &mut ReplayState,
    task: &Task,
    outputs: &mut Vec<Output>,
) -> Result<NextTasks, OutOfMemory>
    requires room { vec_len outputs.old + 1 ≤ vec_capacity outputs.old }
    ensures { PassesTo context.now (first_rows (matter_now context.now) task.now) state.old state.new outputs.old.items outputs.new.items result }
{
    match task {
        Task::Event => Ok(event(context, state, outputs)),
        Task::Start => recreation::start(alloc, context, state, outputs),
        Task::Try
        | Task::Create
        | Task::Ask
        | Task::Await
        | Task::Answered { .. }
        | Task::Succeed(_)
        | Task::Fail => pass_try(alloc, context, state, task, outputs),
        Task::Hold => hold(context, state, outputs),
        Task::CheckArrival => Ok(push_rows::look(context, state)),
        Task::Hear { inbox } => hear_brought(alloc, context, state, *inbox, outputs),
        Task::HearHeld(held) => hear_held(alloc, context, state, held, outputs),
        Task::CheckSilence => Ok(push_rows::look_at_silence(context, state, outputs)),
        Task::Arm => {
            push_rows::arm(context, state);
            Ok(NextTasks::Nothing)
        }
        Task::Read(due) => pull_rows::pass_read(alloc, context, state, *due, outputs),
    }
}

// ---- what is left

// What is left of what was held.
fn held_left(mut held: Box<Held>) -> NextTasks
    ensures { (m : Matter) → hearings_of held.value ≡ first_held held.value ++ next_rows m result }
{
    if held.place < held.messages.as_slice().len() {
        held.place += 1;
        return NextTasks::One(Task::HearHeld(held));
    }
    drop(held);
    NextTasks::Nothing
}

// What is left of a task after its first row.
#[inline]
fn left_of(task: Task) -> NextTasks
    ensures { (m : Matter) → rows_of m task ≡ first_rows m task ++ next_rows m result }
{
    match task {
        Task::HearHeld(held) => held_left(held),
        Task::Event
        | Task::Start
        | Task::Try
        | Task::Create
        | Task::Ask
        | Task::Await
        | Task::Answered { .. }
        | Task::Hold
        | Task::Succeed(_)
        | Task::Fail
        | Task::CheckArrival
        | Task::Hear { .. }
        | Task::CheckSilence
        | Task::Arm
        | Task::Read(_) => {
            drop(task);
            NextTasks::Nothing
        }
    }
}

// A message that was held is not heard yet.
#[tactic(auto, using(crate::proofs::TakenTasks::no_held, crate::proofs::TakenTasks::one_held))]
fn has_held(held: &Held) -> bool
    ensures none { result ≡ false → hearings_of held.now ≡ [] }
    ensures one { result ≡ true → length (first_held held.now) ≡ 1 }
{
    held.place < held.messages.as_slice().len()
}

// A task stands for a row. One that takes what the event brings stands for none where the event does not bring it.
#[tactic(auto, using(crate::proofs::TakenTasks::no_answer, crate::proofs::TakenTasks::one_answer, crate::proofs::TakenTasks::no_arrival, crate::proofs::TakenTasks::one_arrival))]
fn has_row(context: &EventContext<'_>, task: &Task) -> bool
    ensures none { result ≡ false → rows_of (matter_now context.now) task.now ≡ [] }
    ensures one { result ≡ true → length (first_rows (matter_now context.now) task.now) ≡ 1 }
{
    match task {
        Task::Answered { request } => recreation::has_reply(context, *request),
        Task::Hear { inbox } => push_rows::arrives(context, *inbox),
        Task::HearHeld(held) => has_held(held),
        Task::Event
        | Task::Start
        | Task::Try
        | Task::Create
        | Task::Ask
        | Task::Await
        | Task::Hold
        | Task::Succeed(_)
        | Task::Fail
        | Task::CheckArrival
        | Task::CheckSilence
        | Task::Arm
        | Task::Read(_) => true,
    }
}

// A task that was taken is passed, and what follows it is left. One that stands for no row is let go. Where there is no memory it is left itself.
#[inline]
fn pass_taken(
    alloc: Global,
    context: &EventContext<'_>,
    state: &mut ReplayState,
    todo: &mut TaskStack,
    task: Task,
    outputs: &mut Vec<Output>,
) -> Result<(), OutOfMemory>
    requires room { vec_len outputs.old + 1 ≤ vec_capacity outputs.old }
    requires places { vec_len todo.old.tasks + 4 ≤ vec_capacity todo.old.tasks }
    ensures leads { LeadsOn context.now (left_rows (matter_now context.now) (todo.old.tasks.items ++ task ∷ [])) state.old outputs.old.items
        (left_rows (matter_now context.now) todo.new.tasks.items) state.new outputs.new.items }
    ensures less { OnOk result (left_to_do context.now todo.new.tasks.items state.new < left_to_do context.now (todo.old.tasks.items ++ task ∷ []) state.old) }
    ensures refused { OnErr result (IsLeft todo.new.tasks.items) }
{
    if !has_row(context, &task) {
        drop(task);
        return Ok(());
    }
    match pass(alloc, context, state, &task, outputs) {
        Err(refused) => {
            todo.push(task);
            Err(refused)
        }
        Ok(next) => {
            todo.push_next(left_of(task));
            todo.push_next(next);
            Ok(())
        }
    }
}

// The first task that is left is passed, and less is left to do.
#[inline]
fn pass_next(
    alloc: Global,
    context: &EventContext<'_>,
    state: &mut ReplayState,
    todo: &mut TaskStack,
    outputs: &mut Vec<Output>,
) -> Result<(), OutOfMemory>
    requires left { IsLeft todo.old.tasks.items }
    ensures leads { LeadsOn context.now (left_rows (matter_now context.now) todo.old.tasks.items) state.old outputs.old.items
        (left_rows (matter_now context.now) todo.new.tasks.items) state.new outputs.new.items }
    ensures less { OnOk result (left_to_do context.now todo.new.tasks.items state.new < left_to_do context.now todo.old.tasks.items state.old) }
    ensures refused { OnErr result (IsLeft todo.new.tasks.items) }
{
    todo.make_room()?;
    outputs.reserve(1)?;
    let task = todo.pop();
    pass_taken(alloc, context, state, todo, task, outputs)
}

// All that is left of an event is passed. After want of memory the rest is left, and comes to what the whole would have come to.
pub(crate) fn pass_left(
    alloc: Global,
    context: &EventContext<'_>,
    state: &mut ReplayState,
    todo: &mut TaskStack,
    outputs: &mut Vec<Output>,
) -> Result<(), OutOfMemory>
    ensures leads { LeadsOn context.now (left_rows (matter_now context.now) todo.old.tasks.items) state.old outputs.old.items
        (left_rows (matter_now context.now) todo.new.tasks.items) state.new outputs.new.items }
    ensures rested { OnOk result (todo.new.tasks.items ≡ []) }
    ensures refused { OnErr result (IsLeft todo.new.tasks.items) }
{
    'rows: while !todo.is_empty() {
        pass_next(alloc, context, state, todo, outputs)?;
    }
    Ok(())
}
