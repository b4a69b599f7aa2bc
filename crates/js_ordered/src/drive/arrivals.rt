//! The arrivals of a pull reader in a replay. A row borrows the arrival from the event, and makes
//! the output of a message before it handles it.
ghost use Rattle.std.specs.Prelude.{◌≡◌, ◌≢◌, ◌+◌, ◌≤◌, ◌∷◌, ◌↔◌, [], IfOk, OnOk, OnErr, IsTrue, false, option_to_list, vec_capacity, vec_len};
ghost use Rattle.js_ordered.specs.Drive.{Arrives, PassesTo, matter_now};
ghost use Rattle.js_pull.specs.Kind.{pull_kind as kind_of};
ghost use Rattle.js_ordered_table.specs.Tasks.{IsHeardFrom, heard_outputs};
ghost use Rattle.js_pull.specs.declared.reader.Row.TheVariants as read;
ghost use Rattle.js_ordered_table.specs.Passes.{heard};
ghost use Rattle.js_ordered_table.specs.declared.row.Row.TheVariants as row;

use crate::drive::give::push_output;
use crate::drive::pull_rows::finish;
use crate::drive::push_rows::output_of;
use crate::event_context::EventContext;
use js_base::{Message, OutOfMemory};
use js_ordered_table::transitions::pull::take_message;
use js_ordered_table::transitions::push::heard_from;
use js_ordered_table::transitions::{Heard, NextTasks, Task};
use js_ordered_table::{ConsumerContext, Output, Phase, ReplayState};
use js_pull::{Due, Kind, Reader, pull_kind};
use std::alloc::Global;

/// A message of the stream, examined before it is handled: what it means to the consumer, and what
/// is put out of it.
#[derive(Drop)]
struct ReadyArrival {
    heard: Heard,
    output: Option<Output>,
}

// What is put out of a message of the stream.
#[inline]
fn make_ready(
    alloc: Global,
    state: &ReplayState,
    message: &Message,
) -> Result<ReadyArrival, OutOfMemory>
    ensures heard { IfOk result (λ ready. IsHeardFrom state.now.consumer.core.consumer_sequence message.now ready.heard) }
    ensures output { IfOk result (λ ready. option_to_list ready.output ≡ heard_outputs false state.now.link_up message.now ready.heard) }
{
    let heard = heard_from(state.consumer.core.consumer_sequence, message);
    let output = output_of(alloc, false, state.link_up, message, heard)?;
    Ok(ReadyArrival { heard, output })
}

// A reader hears an arrival: it keeps the pin that the message names, and its heartbeat is armed.
#[inline]
fn note(
    alloc: Global,
    context: &ConsumerContext<'_>,
    reader: &mut Reader,
    message: &Message,
) -> Result<(), OutOfMemory>
    ensures heard { OnOk result (reader.new ≡ heard context.now.moment message.now reader.old) }
    ensures kept { OnErr result (reader.new ≡ reader.old) }
{
    reader.note_pin(alloc, message)?;
    reader.arm_silence(context.moment);
    Ok(())
}

// A message of the stream is heard.
#[inline]
fn hear_message(
    alloc: Global,
    context: &EventContext<'_>,
    state: &mut ReplayState,
    message: &Message,
    ready: ReadyArrival,
    outputs: &mut Vec<Output>,
) -> Result<NextTasks, OutOfMemory>
    requires arrives { Arrives (matter_now context.now) message.now state.old.consumer.phase }
    requires kind { kind_of message.now ≡ Kind.Delivered }
    requires heard { IsHeardFrom state.old.consumer.core.consumer_sequence message.now ready.heard }
    requires output { option_to_list ready.output ≡ heard_outputs false state.old.link_up message.now ready.heard }
    requires room { vec_len outputs.old + 1 ≤ vec_capacity outputs.old }
    ensures { PassesTo context.now (row.Read read.CheckArrival ∷ []) state.old state.new outputs.old.items outputs.new.items result }
{
    match &mut state.consumer.phase {
        Phase::Pulls(reader) => {
            let Ok(()) = note(alloc, &context.consumer, reader, message) else {
                drop(ready);
                return Err(OutOfMemory);
            };
            reader.lower(1, message.length);
            let next = take_message(&mut state.consumer, ready.heard, Some(Due::Threshold));
            push_output(ready.output, outputs);
            Ok(next)
        }
        _ => {
            drop(ready);
            Ok(NextTasks::Nothing)
        }
    }
}

// An arrival with a status is heard.
fn hear_status(
    alloc: Global,
    context: &EventContext<'_>,
    state: &mut ReplayState,
    message: &Message,
    outputs: &mut Vec<Output>,
) -> Result<NextTasks, OutOfMemory>
    requires arrives { Arrives (matter_now context.now) message.now state.old.consumer.phase }
    requires kind { kind_of message.now ≢ Kind.Delivered }
    requires room { vec_len outputs.old + 1 ≤ vec_capacity outputs.old }
    ensures { PassesTo context.now (row.Read read.CheckArrival ∷ []) state.old state.new outputs.old.items outputs.new.items result }
{
    match &mut state.consumer.phase {
        Phase::Pulls(reader) => {
            let Ok(()) = note(alloc, &context.consumer, reader, message) else {
                return Err(OutOfMemory);
            };
            let step = reader.hear(message);
            Ok(finish(state, step, outputs))
        }
        _ => Ok(NextTasks::Nothing),
    }
}

// An arrival is a message of the stream, and has no status.
fn is_delivered(message: &Message) -> bool
    ensures { IsTrue result ↔ (kind_of message.now ≡ Kind.Delivered) }
{
    match pull_kind(message) {
        Kind::Delivered => true,
        Kind::IdleHeartbeat => false,
        Kind::Deleted => false,
        Kind::PushBased => false,
        Kind::Limit => false,
        Kind::Gone => false,
        Kind::Bad => false,
        Kind::Ledger { .. } => false,
    }
}

// An arrival on the reader's inbox is heard by its kind.
#[inline]
fn hear_arrival(
    alloc: Global,
    context: &EventContext<'_>,
    state: &mut ReplayState,
    message: &Message,
    outputs: &mut Vec<Output>,
) -> Result<NextTasks, OutOfMemory>
    requires arrives { Arrives (matter_now context.now) message.now state.old.consumer.phase }
    requires room { vec_len outputs.old + 1 ≤ vec_capacity outputs.old }
    ensures { PassesTo context.now (row.Read read.CheckArrival ∷ []) state.old state.new outputs.old.items outputs.new.items result }
{
    if !is_delivered(message) {
        return hear_status(alloc, context, state, message, outputs);
    }
    let ready = make_ready(alloc, state, message)?;
    hear_message(alloc, context, state, message, ready, outputs)
}

// What arrives on the reader's inbox is heard. Where nothing does, the heartbeat is looked at.
#[inline]
pub(crate) fn check_arrival(
    alloc: Global,
    context: &EventContext<'_>,
    state: &mut ReplayState,
    outputs: &mut Vec<Output>,
) -> Result<NextTasks, OutOfMemory>
    requires room { vec_len outputs.old + 1 ≤ vec_capacity outputs.old }
    ensures { PassesTo context.now (row.Read read.CheckArrival ∷ []) state.old state.new outputs.old.items outputs.new.items result }
{
    match &state.consumer.phase {
        Phase::Pulls(reader) => match context.message_on(reader.source.inbox) {
            Some(message) => hear_arrival(alloc, context, state, message, outputs),
            None => Ok(NextTasks::One(Task::Read(Due::CheckSilence))),
        },
        _ => Ok(NextTasks::Nothing),
    }
}
