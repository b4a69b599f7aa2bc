//! The rows of a recreation in a replay. Their texts are made first, so a row that runs out of
//! memory changes nothing.
ghost use Rattle.std.specs.Prelude.{◌≡◌, ◌+◌, ◌≤◌, ◌∷◌, [], IfOk, OnOk, OnErr, Option, codes, is_some, option_map, vec_capacity, vec_len};
ghost use Rattle.js_base.specs.declared.message.Message.{Message as SpecMessage};
ghost use Rattle.js_ordered.specs.Drive.{PassesOn, PassesTo, matter_now};
ghost use Rattle.js_ordered.specs.Give.{IsOpening, IsSending};
ghost use Rattle.js_ordered_table.specs.Tasks.{IsAnswered, answered_rows, next_rows};
ghost use Rattle.js_pull.specs.Reader.{info_reply as info_said, reply_to};
ghost use Rattle.js_ordered_table.specs.Invariant.{IsPull, IsPush};
ghost use Rattle.js_ordered_table.specs.Passes.{at, input_of, holding};
ghost use Rattle.js_ordered_table.specs.Recreation.{held_in};
ghost use Rattle.js_ordered_table.specs.Texts as texts_of;
ghost use Rattle.js_ordered_table.specs.declared.row.Row.TheVariants as row;

use crate::drive::give::{Opening, Sending, inbox_for, request_for, send, subscribe, tell};
use crate::event_context::EventContext;
use bytes::Bytes;
use js_base::{OutOfMemory, TryClone};
use js_ordered_table::transitions::recreation::{
    pass_answered, pass_ask, pass_await, pass_create, pass_fail, pass_start, pass_try,
};
use js_ordered_table::transitions::{NextTasks, PassedTask};
use js_ordered_table::{
    ConsumerContext, Opened, OrderedSetup, Output, Phase, Recreation, ReplayState, RequestOutcome,
    Stage, texts,
};
use js_pull::{InfoReply, info_reply};
use std::alloc::Global;

// ---- a recreation starts

// A recreation starts, under the name of the next consumer, and the user is told.
pub(crate) fn start(
    alloc: Global,
    context: &EventContext<'_>,
    state: &mut ReplayState,
    outputs: &mut Vec<Output>,
) -> Result<NextTasks, OutOfMemory>
    requires room { vec_len outputs.old + 1 ≤ vec_capacity outputs.old }
    ensures { PassesTo context.now (row.Start ∷ []) state.old state.new outputs.old.items outputs.new.items result }
{
    let name = texts::consumer_name(
        alloc,
        &context.consumer,
        state.consumer.core.recreation_count.saturating_add(1),
    )?;
    let Ok(again) = name.try_clone() else {
        drop(name);
        return Err(OutOfMemory);
    };
    let PassedTask { told, next } = pass_start(&context.consumer, &mut state.consumer, name, again);
    tell(told, outputs);
    Ok(next)
}

// ---- a try

// The request that deletes the old consumer, where the link is up.
fn try_request(
    alloc: Global,
    context: &ConsumerContext<'_>,
    state: &ReplayState,
    recreation: &Recreation,
) -> Result<Option<Sending>, OutOfMemory>
    ensures { IfOk result (λ request. IsSending state.now.link_up state.now.requests_sent (texts_of.delete_subject (input_of context.now) recreation.now) (codes "{}") request) }
{
    if !state.link_up {
        return Ok(None);
    }
    let subject = texts::delete_subject(alloc, context, recreation)?;
    let request = request_for(state.requests_sent, subject, Bytes::from_static(b"{}"))?;
    Ok(Some(request))
}

// A recreation that was taken out of the state stays open.
pub(crate) fn keep_open(state: &mut ReplayState, recreation: Recreation)
    ensures { state.new ≡ at (Phase.Recreates recreation) state.old }
{
    state.set_phase(Phase::Recreates(recreation));
}

// A try begins: the old consumer is to be deleted.
pub(crate) fn begin_try(
    alloc: Global,
    context: &EventContext<'_>,
    state: &mut ReplayState,
    recreation: Recreation,
    outputs: &mut Vec<Output>,
) -> Result<NextTasks, OutOfMemory>
    requires room { vec_len outputs.old + 1 ≤ vec_capacity outputs.old }
    ensures { PassesTo context.now (row.Try ∷ []) (at (Phase.Recreates recreation) state.old) state.new outputs.old.items outputs.new.items result }
{
    match try_request(alloc, &context.consumer, state, &recreation) {
        Err(refused) => {
            keep_open(state, recreation);
            Err(refused)
        }
        Ok(request) => {
            let number = send(&mut state.requests_sent, request, outputs);
            Ok(pass_try(&context.consumer, &mut state.consumer, recreation, number))
        }
    }
}

// The inbox of a push create, where the link is up.
pub(crate) fn create_inbox(
    alloc: Global,
    context: &ConsumerContext<'_>,
    state: &ReplayState,
) -> Result<Option<Opening>, OutOfMemory>
    ensures { IfOk result (λ opening. IsOpening state.now.link_up state.now.inboxes_opened (texts_of.inbox_subject (input_of context.now) state.now.inboxes_opened) opening) }
{
    if !state.link_up {
        return Ok(None);
    }
    let subject = texts::inbox_subject(alloc, context, state.inboxes_opened)?;
    let opening = inbox_for(state.inboxes_opened, subject)?;
    Ok(Some(opening))
}

// Push subscribes its inbox.
fn create_push(
    alloc: Global,
    context: &EventContext<'_>,
    state: &mut ReplayState,
    recreation: Recreation,
    outputs: &mut Vec<Output>,
) -> Result<NextTasks, OutOfMemory>
    requires push { IsPush context.now.consumer.setup.now }
    requires room { vec_len outputs.old + 1 ≤ vec_capacity outputs.old }
    ensures { PassesTo context.now (row.Create ∷ []) (at (Phase.Recreates recreation) state.old) state.new outputs.old.items outputs.new.items result }
{
    match create_inbox(alloc, &context.consumer, state) {
        Err(refused) => {
            keep_open(state, recreation);
            Err(refused)
        }
        Ok(opening) => {
            let inbox = subscribe(&mut state.inboxes_opened, opening, outputs);
            Ok(pass_create(
                alloc,
                &context.consumer,
                &mut state.consumer,
                recreation,
                inbox,
            ))
        }
    }
}

// Pull subscribes nothing before it asks for the new consumer.
fn create_pull(
    alloc: Global,
    context: &EventContext<'_>,
    state: &mut ReplayState,
    recreation: Recreation,
    outputs: &mut Vec<Output>,
) -> Result<NextTasks, OutOfMemory>
    requires pull { IsPull context.now.consumer.setup.now }
    ensures { PassesTo context.now (row.Create ∷ []) (at (Phase.Recreates recreation) state.old) state.new outputs.old.items outputs.new.items result }
{
    Ok(pass_create(
        alloc,
        &context.consumer,
        &mut state.consumer,
        recreation,
        None,
    ))
}

// The new consumer is to be asked for.
pub(crate) fn create(
    alloc: Global,
    context: &EventContext<'_>,
    state: &mut ReplayState,
    recreation: Recreation,
    outputs: &mut Vec<Output>,
) -> Result<NextTasks, OutOfMemory>
    requires room { vec_len outputs.old + 1 ≤ vec_capacity outputs.old }
    ensures { PassesTo context.now (row.Create ∷ []) (at (Phase.Recreates recreation) state.old) state.new outputs.old.items outputs.new.items result }
{
    match context.consumer.setup {
        OrderedSetup::Pull(_) => create_pull(alloc, context, state, recreation, outputs),
        OrderedSetup::Push(_) => create_push(alloc, context, state, recreation, outputs),
    }
}

// The create request, where the link is up.
fn create_request(
    alloc: Global,
    context: &ConsumerContext<'_>,
    state: &ReplayState,
    recreation: &Recreation,
) -> Result<Option<Sending>, OutOfMemory>
    ensures { IfOk result (λ request. IsSending state.now.link_up state.now.requests_sent (texts_of.create_subject (input_of context.now) recreation.now) (texts_of.create_body (input_of context.now) recreation.now) request) }
{
    if !state.link_up {
        return Ok(None);
    }
    let subject = texts::create_subject(alloc, context, recreation)?;
    let payload = texts::create_body(alloc, context, recreation)?;
    let request = request_for(state.requests_sent, subject, payload)?;
    Ok(Some(request))
}

// The new consumer is asked for.
pub(crate) fn ask(
    alloc: Global,
    context: &EventContext<'_>,
    state: &mut ReplayState,
    recreation: Recreation,
    outputs: &mut Vec<Output>,
) -> Result<NextTasks, OutOfMemory>
    requires room { vec_len outputs.old + 1 ≤ vec_capacity outputs.old }
    ensures { PassesTo context.now (row.Ask ∷ []) (at (Phase.Recreates recreation) state.old) state.new outputs.old.items outputs.new.items result }
{
    match create_request(alloc, &context.consumer, state, &recreation) {
        Err(refused) => {
            keep_open(state, recreation);
            Err(refused)
        }
        Ok(request) => {
            let number = send(&mut state.requests_sent, request, outputs);
            Ok(pass_ask(&context.consumer, &mut state.consumer, recreation, number))
        }
    }
}

// A try has failed. Another one follows after a wait, or the consumer has ended.
pub(crate) fn fail(
    context: &EventContext<'_>,
    state: &mut ReplayState,
    recreation: Recreation,
    outputs: &mut Vec<Output>,
) -> Result<NextTasks, OutOfMemory>
    requires room { vec_len outputs.old + 1 ≤ vec_capacity outputs.old }
    ensures { PassesTo context.now (row.Fail ∷ []) (at (Phase.Recreates recreation) state.old) state.new outputs.old.items outputs.new.items result }
{
    let PassedTask { told, next } = pass_fail(&context.consumer, &mut state.consumer, recreation);
    tell(told, outputs);
    Ok(next)
}

// ---- an open recreation

// The event answers this request.
pub(crate) fn has_reply(context: &EventContext<'_>, request: u64) -> bool
    ensures { result ≡ is_some (reply_to request (matter_now context.now).answer) }
{
    match context.reply_to(request) {
        RequestOutcome::Waiting => false,
        RequestOutcome::Gone => true,
        RequestOutcome::Got(_) => true,
    }
}

// The event brings the answer that a stage waits for.
fn is_answered(context: &EventContext<'_>, stage: Stage) -> bool
    ensures { IsAnswered (matter_now context.now) stage result }
{
    match stage {
        Stage::Deleting { request, .. } => has_reply(context, request),
        Stage::Creating { request, .. } => has_reply(context, request),
        Stage::Between => false,
        Stage::Waiting { .. } => false,
    }
}

// The answer that an open recreation waits for is looked at, and then its clock.
pub(crate) fn look_on(
    context: &EventContext<'_>,
    state: &mut ReplayState,
    recreation: Recreation,
    outputs: &mut Vec<Output>,
) -> Result<NextTasks, OutOfMemory>
    ensures { PassesTo context.now (row.Await ∷ []) (at (Phase.Recreates recreation) state.old) state.new outputs.old.items outputs.new.items result }
{
    let answered = is_answered(context, recreation.stage);
    Ok(pass_await(&context.consumer, &mut state.consumer, recreation, answered))
}

// What the reply to a request says, where the event brings one.
fn reply_said(
    alloc: Global,
    context: &EventContext<'_>,
    request: u64,
) -> Result<Option<InfoReply>, OutOfMemory>
    ensures { IfOk result (λ said. said ≡ option_map info_said (reply_to request (matter_now context.now).answer)) }
{
    match context.reply_to(request) {
        RequestOutcome::Waiting => Ok(None),
        RequestOutcome::Gone => Ok(Some(InfoReply::Nothing)),
        RequestOutcome::Got(message) => Ok(Some(info_reply(alloc, Some(message))?)),
    }
}

// The reply to a create is read, and the user may be told what it says of the stream.
fn read_reply(
    context: &EventContext<'_>,
    state: &mut ReplayState,
    recreation: Recreation,
    reply: InfoReply,
    outputs: &mut Vec<Output>,
) -> NextTasks
    requires room { vec_len outputs.old + 1 ≤ vec_capacity outputs.old }
    ensures { (message : Option SpecMessage) → reply ≡ info_said message
        → PassesOn context.now (row.Answered message ∷ []) (at (Phase.Recreates recreation) state.old) outputs.old.items (next_rows (matter_now context.now) result) state.new outputs.new.items }
{
    let PassedTask { told, next } = pass_answered(
        &context.consumer,
        &mut state.consumer,
        recreation,
        reply,
    );
    tell(told, outputs);
    next
}

// The reply to a create is read, where the event brings it.
pub(crate) fn answered(
    alloc: Global,
    context: &EventContext<'_>,
    state: &mut ReplayState,
    recreation: Recreation,
    request: u64,
    outputs: &mut Vec<Output>,
) -> Result<NextTasks, OutOfMemory>
    requires room { vec_len outputs.old + 1 ≤ vec_capacity outputs.old }
    ensures { PassesTo context.now (answered_rows (reply_to request (matter_now context.now).answer)) (at (Phase.Recreates recreation) state.old) state.new outputs.old.items outputs.new.items result }
{
    match reply_said(alloc, context, request) {
        Err(refused) => {
            keep_open(state, recreation);
            Err(refused)
        }
        Ok(None) => {
            keep_open(state, recreation);
            Ok(NextTasks::Nothing)
        }
        Ok(Some(reply)) => Ok(read_reply(context, state, recreation, reply, outputs)),
    }
}

// ---- what arrives meanwhile

// An arrival on the inbox of a create is held until the create is answered.
fn hold_in(context: &EventContext<'_>, opened: &mut Option<Opened>) -> Result<(), OutOfMemory>
    ensures held { OnOk result (opened.new ≡ held_in (matter_now context.now).arrival opened.old) }
    ensures kept { OnErr result (opened.new ≡ opened.old) }
{
    match opened {
        None => Ok(()),
        Some(opened) => match context.message_on(opened.inbox) {
            None => Ok(()),
            Some(message) => opened.held.push(message.try_clone()?),
        },
    }
}

// An arrival is held where a recreation holds arrivals.
pub(crate) fn hold_at(context: &EventContext<'_>, phase: &mut Phase) -> Result<(), OutOfMemory>
    ensures held { OnOk result (phase.new ≡ holding (matter_now context.now).arrival phase.old) }
    ensures kept { OnErr result (phase.new ≡ phase.old) }
{
    match phase {
        Phase::Recreates(recreation) => hold_in(context, &mut recreation.opened),
        Phase::Pulls(_) => Ok(()),
        Phase::Pushes { .. } => Ok(()),
        Phase::Idle => Ok(()),
        Phase::Ended => Ok(()),
        Phase::Exhausted => Ok(()),
    }
}
