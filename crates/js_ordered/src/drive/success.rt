//! The end of a recreation in a replay. What the next reader needs is made before it reads.
ghost use Rattle.std.specs.Prelude.{◌≡◌, ◌+◌, ◌≤◌, ◌∷◌, [], IfOk, vec_capacity, vec_len};
ghost use Rattle.js_ordered.specs.Drive.{PassesTo};
ghost use Rattle.js_ordered.specs.Give.{IsOpening};
ghost use Rattle.js_ordered_table.specs.Tasks.{held_rows, next_rows};
ghost use Rattle.js_ordered_table.specs.Consumer.{Matter};
ghost use Rattle.js_ordered_table.specs.Invariant.{IsPull, IsPush};
ghost use Rattle.js_ordered_table.specs.Passes.{at, input_of};
ghost use Rattle.js_ordered_table.specs.Texts as texts_of;
ghost use Rattle.js_ordered_table.specs.declared.row.Row.TheVariants as row;

use crate::drive::give::{Opening, subscribe};
use crate::drive::recreation::{create_inbox, keep_open};
use crate::event_context::EventContext;
use js_base::{Items, OutOfMemory};
use js_json::consumer::Info;
use js_ordered_table::pull_source::pull_source_without_inbox;
use js_ordered_table::transitions::recreation::{pass_succeed_pull, pass_succeed_push};
use js_ordered_table::transitions::{Held, NextTasks, Task};
use js_ordered_table::{ConsumerContext, OrderedSetup, Output, Phase, Recreation, ReplayState};
use js_pull::PullSource;
use std::alloc::Global;

/// What pull needs for its next reader: its source and, if the link is up, its inbox.
#[derive(Drop)]
struct NextReader {
    source: PullSource,
    opening: Option<Opening>,
}

fn next_reader(
    alloc: Global,
    context: &ConsumerContext<'_>,
    state: &ReplayState,
    info: &Info,
) -> Result<NextReader, OutOfMemory>
    ensures source { IfOk result (λ next. next.source ≡ texts_of.pull_source (input_of context.now) state.now.consumer.core.recreation_count 0 [] info.now) }
    ensures opening { IfOk result (λ next. IsOpening state.now.link_up state.now.inboxes_opened (texts_of.inbox_subject (input_of context.now) state.now.inboxes_opened) next.opening) }
{
    let source = pull_source_without_inbox(
        alloc,
        context,
        state.consumer.core.recreation_count,
        info,
    )?;
    match create_inbox(alloc, context, state) {
        Ok(opening) => Ok(NextReader { source, opening }),
        Err(OutOfMemory) => {
            drop(source);
            Err(OutOfMemory)
        }
    }
}

// Pull subscribes the next inbox, and reads it.
fn succeed_pull(
    alloc: Global,
    context: &EventContext<'_>,
    state: &mut ReplayState,
    recreation: Recreation,
    info: &Info,
    outputs: &mut Vec<Output>,
) -> Result<NextTasks, OutOfMemory>
    requires pull { IsPull context.now.consumer.setup.now }
    requires room { vec_len outputs.old + 1 ≤ vec_capacity outputs.old }
    ensures { PassesTo context.now (row.Succeed info.now ∷ []) (at (Phase.Recreates recreation) state.old) state.new outputs.old.items outputs.new.items result }
{
    match next_reader(alloc, &context.consumer, state, info) {
        Err(refused) => {
            keep_open(state, recreation);
            Err(refused)
        }
        Ok(NextReader { source, opening }) => {
            let inbox = subscribe(&mut state.inboxes_opened, opening, outputs);
            Ok(pass_succeed_pull(
                &context.consumer,
                &mut state.consumer,
                recreation,
                source,
                inbox,
            ))
        }
    }
}

// A box for what push has held, in which nothing is held yet.
fn held_box(alloc: Global) -> Result<Box<Held>, OutOfMemory>
    ensures { IfOk result (λ held. held.value ≡ record { inbox = 0; messages = []; place = 0 }) }
{
    let nothing = Held {
        inbox: 0,
        messages: Items::new(alloc),
        place: 0,
    };
    Ok(Box::new(alloc, nothing)?)
}

// What was held is put into its box, and heard before the heartbeat is armed.
fn held_next(mut held_box: Box<Held>, held: Option<Held>) -> NextTasks
    ensures { (m : Matter) → next_rows m result ≡ held_rows held }
{
    match held {
        None => {
            drop(held_box);
            NextTasks::Nothing
        }
        Some(held) => {
            *held_box = held;
            NextTasks::Two(Task::HearHeld(held_box), Task::Arm)
        }
    }
}

// Push hears its inbox from now on.
fn succeed_push(
    alloc: Global,
    context: &EventContext<'_>,
    state: &mut ReplayState,
    recreation: Recreation,
    info: &Info,
    outputs: &mut Vec<Output>,
) -> Result<NextTasks, OutOfMemory>
    requires push { IsPush context.now.consumer.setup.now }
    ensures { PassesTo context.now (row.Succeed info.now ∷ []) (at (Phase.Recreates recreation) state.old) state.new outputs.old.items outputs.new.items result }
{
    match held_box(alloc) {
        Err(refused) => {
            keep_open(state, recreation);
            Err(refused)
        }
        Ok(held_box) => {
            let held = pass_succeed_push(&context.consumer, &mut state.consumer, recreation);
            Ok(held_next(held_box, held))
        }
    }
}

// A create was answered with an info: the recreation is over, and the new inbox is read.
pub(crate) fn succeed(
    alloc: Global,
    context: &EventContext<'_>,
    state: &mut ReplayState,
    recreation: Recreation,
    info: &Info,
    outputs: &mut Vec<Output>,
) -> Result<NextTasks, OutOfMemory>
    requires room { vec_len outputs.old + 1 ≤ vec_capacity outputs.old }
    ensures { PassesTo context.now (row.Succeed info.now ∷ []) (at (Phase.Recreates recreation) state.old) state.new outputs.old.items outputs.new.items result }
{
    match context.consumer.setup {
        OrderedSetup::Pull(_) => succeed_pull(alloc, context, state, recreation, info, outputs),
        OrderedSetup::Push(_) => succeed_push(alloc, context, state, recreation, info, outputs),
    }
}
