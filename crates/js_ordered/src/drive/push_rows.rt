//! The rows by which push reads its inbox, in a replay. A row borrows what arrives from the event,
//! and what is put out of it is made first.
ghost use Rattle.std.specs.Prelude.{◌≡◌, ◌+◌, ◌≤◌, ◌++◌, ◌∷◌, [], IfOk, List, is_some, option_to_list, vec_capacity, vec_len};
ghost use Rattle.js_ordered.specs.Drive.{PassesOn, PassesTo, matter_now};
ghost use Rattle.js_ordered_table.specs.Tasks.{heard_outputs, next_rows};
ghost use Rattle.js_ordered_table.specs.Passes.{listens_to};
ghost use Rattle.js_ordered_table.specs.Arrivals.{beat_answer, beat_subject as subject_of};
ghost use Rattle.js_ordered_table.specs.Recreation.{message_on};
ghost use Rattle.js_ordered_table.specs.declared.row.Row.TheVariants as row;
ghost use Rattle.js_ordered_table.specs.declared.run.Output.{Output as SpecOutput};

use crate::drive::give::{push_output, tell};
use crate::event_context::EventContext;
use bytes::Bytes;
use js_base::{Message, OutOfMemory, Subject};
use js_ordered_table::transitions::push::{
    arrival_next, heard_as, listen, pass_hear, pass_silence,
};
use js_ordered_table::transitions::{Heard, NextTasks, PassedTask};
use js_ordered_table::{ItemKind, Output, Phase, ReplayState, beat_subject, yield_of};
use std::alloc::Global;

// The event brings something on this inbox.
#[inline]
pub(crate) fn arrives(context: &EventContext<'_>, inbox: u64) -> bool
    ensures { result ≡ is_some (message_on inbox (matter_now context.now).arrival) }
{
    match context.message_on(inbox) {
        None => false,
        Some(_) => true,
    }
}

// Push looks for an arrival.
#[inline]
pub(crate) fn look(context: &EventContext<'_>, state: &ReplayState) -> NextTasks
    ensures { (outputs : List SpecOutput) → PassesOn context.now (row.CheckArrival ∷ []) state.now outputs (next_rows (matter_now context.now) result) state.now outputs }
{
    match state.consumer.phase {
        Phase::Pushes { inbox, .. } => arrival_next(inbox, arrives(context, inbox)),
        Phase::Pulls(_) => NextTasks::Nothing,
        Phase::Recreates(_) => NextTasks::Nothing,
        Phase::Idle => NextTasks::Nothing,
        Phase::Ended => NextTasks::Nothing,
        Phase::Exhausted => NextTasks::Nothing,
    }
}

// Push looks at its heartbeat.
#[inline]
pub(crate) fn look_at_silence(
    context: &EventContext<'_>,
    state: &ReplayState,
    outputs: &mut Vec<Output>,
) -> NextTasks
    requires room { vec_len outputs.old + 1 ≤ vec_capacity outputs.old }
    ensures { PassesOn context.now (row.CheckSilence ∷ []) state.now outputs.old.items (next_rows (matter_now context.now) result) state.now outputs.new.items }
{
    match state.consumer.phase {
        Phase::Pushes {
            heartbeat_timer,
            ..
        } => {
            let PassedTask { told, next } = pass_silence(&context.consumer, heartbeat_timer);
            tell(told, outputs);
            next
        }
        Phase::Pulls(_) => NextTasks::Nothing,
        Phase::Recreates(_) => NextTasks::Nothing,
        Phase::Idle => NextTasks::Nothing,
        Phase::Ended => NextTasks::Nothing,
        Phase::Exhausted => NextTasks::Nothing,
    }
}

// Push arms its heartbeat.
pub(crate) fn arm(context: &EventContext<'_>, state: &mut ReplayState)
    ensures { (outputs : List SpecOutput) → PassesOn context.now (row.Arm ∷ []) state.old outputs [] state.new outputs }
{
    match state.consumer.phase {
        Phase::Pushes { inbox, .. } => listen(&context.consumer, &mut state.consumer, inbox),
        Phase::Pulls(_) => {}
        Phase::Recreates(_) => {}
        Phase::Idle => {}
        Phase::Ended => {}
        Phase::Exhausted => {}
    }
}

// ---- an arrival

// The consumer listens to this inbox.
#[inline]
fn listens(state: &ReplayState, inbox: u64) -> bool
    ensures { result ≡ listens_to inbox state.now.consumer.phase }
{
    match state.consumer.phase {
        Phase::Pushes { inbox: current, .. } => inbox == current,
        _ => false,
    }
}

// A beat that asks for an answer gets an empty one, where the link is up.
fn answer_of(
    alloc: Global,
    stalled: bool,
    up: bool,
    message: &Message,
) -> Result<Option<Output>, OutOfMemory>
    ensures { IfOk result (λ output. option_to_list output ≡ beat_answer up (subject_of stalled message.now)) }
{
    match beat_subject(stalled, message) {
        None => Ok(None),
        Some(subject) => {
            if !up {
                return Ok(None);
            }
            Ok(Some(Output::Publish {
                subject: Subject::new(alloc, subject)?,
                reply: None,
                payload: Bytes::from_static(b""),
            }))
        }
    }
}

// What is put out of an arrival, where stalled consumers are answered or not.
#[inline]
pub(crate) fn output_of(
    alloc: Global,
    stalled: bool,
    up: bool,
    message: &Message,
    heard: Heard,
) -> Result<Option<Output>, OutOfMemory>
    ensures { IfOk result (λ output. option_to_list output ≡ heard_outputs stalled up message.now heard) }
{
    match heard {
        Heard::Yields(place) => Ok(Some(yield_of(message, place)?)),
        Heard::Unreadable => Ok(Some(Output::Item {
            kind: ItemKind::Other,
        })),
        Heard::Beat(_) => answer_of(alloc, stalled, up, message),
        Heard::Gap => Ok(None),
        Heard::OtherStatus => Ok(None),
    }
}

// A message is heard on an inbox. Where it is not the current one, nothing comes of it.
#[inline]
pub(crate) fn hear(
    alloc: Global,
    context: &EventContext<'_>,
    state: &mut ReplayState,
    inbox: u64,
    message: &Message,
    outputs: &mut Vec<Output>,
) -> Result<NextTasks, OutOfMemory>
    requires room { vec_len outputs.old + 1 ≤ vec_capacity outputs.old }
    ensures { PassesTo context.now (row.Hear (record { inbox = inbox; message = message.now }) ∷ []) state.old state.new outputs.old.items outputs.new.items result }
{
    if !listens(state, inbox) {
        return Ok(NextTasks::Nothing);
    }
    let heard = heard_as(state.consumer.core.consumer_sequence, message);
    let stalled = context.consumer.settings.resilience.answers_stalled;
    let output = output_of(alloc, stalled, state.link_up, message, heard)?;
    let next = pass_hear(&context.consumer, &mut state.consumer, inbox, heard);
    push_output(output, outputs);
    Ok(next)
}
