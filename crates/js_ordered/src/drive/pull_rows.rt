//! The rows of a pull reader in a replay. What a row sends, and what is put out of an arrival, is
//! made first.
ghost use Rattle.std.specs.Prelude.{◌≡◌, ◌+◌, ◌≤◌, ◌∷◌, [], IfOk, List, codes, vec_capacity, vec_len};
ghost use Rattle.js_ordered.specs.Drive.{Finishes, PassesOn, PassesTo, matter_now};
ghost use Rattle.js_ordered.specs.Give.{IsPublishing, IsSending};
ghost use Rattle.js_ordered_table.specs.Tasks.{next_rows};
ghost use Rattle.js_pull.specs.Rows.{IsInquired, brought, finding_of as finding_in, row_of};
ghost use Rattle.js_pull.specs.Reader.{info_reply, info_subject};
ghost use Rattle.js_pull.specs.declared.reader.Row.TheVariants as read;
ghost use Rattle.js_ordered_table.specs.Consumer.{Matter};
ghost use Rattle.js_ordered_table.specs.declared.row.Row.TheVariants as row;
ghost use Rattle.js_ordered_table.specs.declared.run.Output.{Output as SpecOutput};

use crate::drive::arrivals::check_arrival;
use crate::drive::give::{Sending, request_for, send, tell};
use crate::drive::recreation::has_reply;
use crate::event_context::EventContext;
use bytes::Bytes;
use js_base::{OutOfMemory, TryClone, all_3};
use js_ordered_table::transitions::{NextTasks, PassedTask, pull};
use js_ordered_table::{Output, Phase, ReplayState};
use js_pull::{
    Due, Finding, InfoRequest, PassedRow as Read, Reader, Reason, check_inquiry, finding_of,
};
use std::alloc::Global;

// What the reader tells without a message is put out.
#[inline]
pub(crate) fn finish(state: &mut ReplayState, step: Read, outputs: &mut Vec<Output>) -> NextTasks
    requires room { vec_len outputs.old + 1 ≤ vec_capacity outputs.old }
    ensures { (m : Matter) → Finishes m state.old state.new step outputs.old.items outputs.new.items result }
{
    let PassedTask { told, next } = pull::take_notice(&mut state.consumer, step.told, step.next);
    tell(told, outputs);
    next
}

// ---- requests

// A pull request, where the link is up.
fn pull_request(alloc: Global, up: bool, reader: &Reader) -> Result<Option<Output>, OutOfMemory>
    ensures { IfOk result (λ output. IsPublishing up reader.now output) }
{
    if !up {
        return Ok(None);
    }
    let (subject, reply, payload) = all_3(
        reader.source.pull_subject(alloc),
        reader.source.subject.try_clone(),
        reader.pull_body(alloc),
    )?;
    Ok(Some(Output::Publish {
        subject,
        reply: Some(reply),
        payload,
    }))
}

// A pull request goes out, or is refused, of which the user is told.
fn ask(
    alloc: Global,
    context: &EventContext<'_>,
    state: &mut ReplayState,
    reason: Reason,
    outputs: &mut Vec<Output>,
) -> Result<NextTasks, OutOfMemory>
    requires room { vec_len outputs.old + 1 ≤ vec_capacity outputs.old }
    ensures { PassesTo context.now (row.Read (read.Ask reason) ∷ []) state.old state.new outputs.old.items outputs.new.items result }
{
    match &mut state.consumer.phase {
        Phase::Pulls(reader) => match pull_request(alloc, state.link_up, reader) {
            Err(OutOfMemory) => Err(OutOfMemory),
            Ok(None) => {
                let step = pull::ask(reader, context.consumer.moment, reason, false);
                Ok(finish(state, step, outputs))
            }
            Ok(Some(output)) => {
                pull::ask(reader, context.consumer.moment, reason, true);
                outputs.push_reserved(output);
                Ok(NextTasks::Nothing)
            }
        },
        _ => Ok(NextTasks::Nothing),
    }
}

// The info request of a reader, where the link is up.
fn info_request(
    alloc: Global,
    up: bool,
    requests_sent: u64,
    reader: &Reader,
) -> Result<Option<Sending>, OutOfMemory>
    ensures { IfOk result (λ request. IsSending up requests_sent (info_subject reader.now.source) (codes "{}") request) }
{
    if !up {
        return Ok(None);
    }
    let subject = reader.source.info_subject(alloc)?;
    let request = request_for(requests_sent, subject, Bytes::from_static(b"{}"))?;
    Ok(Some(request))
}

// The info is asked for.
fn inquire(
    alloc: Global,
    context: &EventContext<'_>,
    state: &mut ReplayState,
    failures: u64,
    outputs: &mut Vec<Output>,
) -> Result<NextTasks, OutOfMemory>
    requires room { vec_len outputs.old + 1 ≤ vec_capacity outputs.old }
    ensures { PassesTo context.now (row.Read (read.Inquire failures) ∷ []) state.old state.new outputs.old.items outputs.new.items result }
{
    match &mut state.consumer.phase {
        Phase::Pulls(reader) => {
            let request = info_request(alloc, state.link_up, state.requests_sent, reader)?;
            let number = send(&mut state.requests_sent, request, outputs);
            let step = pull::inquire(reader, context.consumer.moment, failures, number);
            Ok(pull::after(step.next))
        }
        _ => Ok(NextTasks::Nothing),
    }
}

// ---- the consumer's info

// What the reader learns from the reply that the event brings.
fn informed(alloc: Global, context: &EventContext<'_>) -> Result<Finding, OutOfMemory>
    ensures { IfOk result (λ finding. finding ≡ finding_in (info_reply (brought (matter_now context.now).answer))) }
{
    finding_of(alloc, context.reply())
}

// The reply is read.
fn answered(
    alloc: Global,
    context: &EventContext<'_>,
    state: &mut ReplayState,
    failures: u64,
    outputs: &mut Vec<Output>,
) -> Result<NextTasks, OutOfMemory>
    requires room { vec_len outputs.old + 1 ≤ vec_capacity outputs.old }
    ensures { PassesTo context.now (row.Read (read.Answered (brought (matter_now context.now).answer) failures) ∷ []) state.old state.new outputs.old.items outputs.new.items result }
{
    match &mut state.consumer.phase {
        Phase::Pulls(reader) => {
            let informed = informed(alloc, context)?;
            let step = pull::answered(reader, failures, informed);
            Ok(finish(state, step, outputs))
        }
        _ => Ok(NextTasks::Nothing),
    }
}

// The event answers the info that is open.
fn is_answered(context: &EventContext<'_>, inquiry: InfoRequest) -> bool
    ensures { IsInquired (matter_now context.now).answer inquiry result }
{
    match inquiry {
        InfoRequest::NoInfoRequest => false,
        InfoRequest::Asked { request, .. } => has_reply(context, request),
        InfoRequest::Resting { .. } => false,
    }
}

// An open info is looked at.
fn check_info(
    context: &EventContext<'_>,
    state: &mut ReplayState,
    outputs: &mut Vec<Output>,
) -> NextTasks
    requires room { vec_len outputs.old + 1 ≤ vec_capacity outputs.old }
    ensures { PassesOn context.now (row.Read read.CheckInfoRequest ∷ []) state.old outputs.old.items (next_rows (matter_now context.now) result) state.new outputs.new.items }
{
    match &state.consumer.phase {
        Phase::Pulls(reader) => {
            let answered = is_answered(context, reader.inquiry);
            let step = check_inquiry(reader.inquiry, context.consumer.moment, answered);
            finish(state, step, outputs)
        }
        _ => NextTasks::Nothing,
    }
}

// An info request has failed once more.
fn fail_inquiry(
    context: &EventContext<'_>,
    state: &mut ReplayState,
    failures: u64,
    outputs: &mut Vec<Output>,
) -> NextTasks
    requires room { vec_len outputs.old + 1 ≤ vec_capacity outputs.old }
    ensures { PassesOn context.now (row.Read (read.FailInfoRequest failures) ∷ []) state.old outputs.old.items (next_rows (matter_now context.now) result) state.new outputs.new.items }
{
    match &mut state.consumer.phase {
        Phase::Pulls(reader) => {
            let step = pull::fail_inquiry(reader, context.consumer.moment, failures);
            finish(state, step, outputs)
        }
        _ => NextTasks::Nothing,
    }
}

// ---- what is looked at

// The last pull request may have expired.
#[inline]
fn check_expiry(
    context: &EventContext<'_>,
    state: &mut ReplayState,
    outputs: &mut Vec<Output>,
) -> NextTasks
    requires room { vec_len outputs.old + 1 ≤ vec_capacity outputs.old }
    ensures { PassesOn context.now (row.Read read.CheckExpiry ∷ []) state.old outputs.old.items (next_rows (matter_now context.now) result) state.new outputs.new.items }
{
    match &mut state.consumer.phase {
        Phase::Pulls(reader) => {
            let step = pull::check_expiry(reader, context.consumer.moment);
            finish(state, step, outputs)
        }
        _ => NextTasks::Nothing,
    }
}

// The heartbeat may be missing.
#[inline]
fn check_silence(
    context: &EventContext<'_>,
    state: &mut ReplayState,
    outputs: &mut Vec<Output>,
) -> NextTasks
    requires room { vec_len outputs.old + 1 ≤ vec_capacity outputs.old }
    ensures { PassesOn context.now (row.Read read.CheckSilence ∷ []) state.old outputs.old.items (next_rows (matter_now context.now) result) state.new outputs.new.items }
{
    match &mut state.consumer.phase {
        Phase::Pulls(reader) => {
            let step = pull::check_silence(reader, context.consumer.moment);
            finish(state, step, outputs)
        }
        _ => NextTasks::Nothing,
    }
}

// Little may be pending.
#[inline]
fn check_threshold(
    context: &EventContext<'_>,
    state: &mut ReplayState,
    outputs: &mut Vec<Output>,
) -> NextTasks
    requires room { vec_len outputs.old + 1 ≤ vec_capacity outputs.old }
    ensures { PassesOn context.now (row.Read read.Threshold ∷ []) state.old outputs.old.items (next_rows (matter_now context.now) result) state.new outputs.new.items }
{
    match &mut state.consumer.phase {
        Phase::Pulls(reader) => {
            let step = pull::threshold(reader);
            finish(state, step, outputs)
        }
        _ => NextTasks::Nothing,
    }
}

// The heartbeat is armed.
fn arm(context: &EventContext<'_>, state: &mut ReplayState)
    ensures { (outputs : List SpecOutput) → PassesOn context.now (row.Read read.Arm ∷ []) state.old outputs [] state.new outputs }
{
    if let Phase::Pulls(reader) = &mut state.consumer.phase {
        reader.arm_silence(context.consumer.moment);
    }
}

// ---- any row

// A row of the reader is passed, where one reads. The reader stays in its place, since it is large.
#[inline]
pub(crate) fn pass_read(
    alloc: Global,
    context: &EventContext<'_>,
    state: &mut ReplayState,
    due: Due,
    outputs: &mut Vec<Output>,
) -> Result<NextTasks, OutOfMemory>
    requires room { vec_len outputs.old + 1 ≤ vec_capacity outputs.old }
    ensures { PassesTo context.now (row.Read (row_of (brought (matter_now context.now).answer) due) ∷ []) state.old state.new outputs.old.items outputs.new.items result }
{
    match due {
        Due::Ask { reason } => ask(alloc, context, state, reason, outputs),
        Due::Inquire { failures } => inquire(alloc, context, state, failures, outputs),
        Due::Answered { failures } => answered(alloc, context, state, failures, outputs),
        Due::CheckArrival => check_arrival(alloc, context, state, outputs),
        Due::CheckInfoRequest => Ok(check_info(context, state, outputs)),
        Due::FailInfoRequest { failures } => Ok(fail_inquiry(context, state, failures, outputs)),
        Due::CheckExpiry => Ok(check_expiry(context, state, outputs)),
        Due::CheckSilence => Ok(check_silence(context, state, outputs)),
        Due::Threshold => Ok(check_threshold(context, state, outputs)),
        Due::Arm => {
            arm(context, state);
            Ok(NextTasks::Nothing)
        }
    }
}
