//! What becomes of what the consumer waits for: answers, times that are over, and the next try.

ghost use Rattle.std.specs.Prelude.{◌≡◌, IfOk, option_map};
ghost use Rattle.std.specs.Option.{option_copied};
ghost use Rattle.js_pull.specs.Reader.{is_unheard as is_unheard_in};
ghost use Rattle.js_ordered_table.specs.Recreation.{has_subject as has_subject_in};
ghost use Rattle.js_tool_explain.specs.Replies as sentences;

mod sentence;

use crate::outside_events::ends_unwatched;
use js_base::{Message, Moment, Nanos, OutOfMemory, State, StatusCode, Timer};
use js_json::consumer::Info;
use js_ordered_table::{
    Consumer, Event, EventKind, OrderedSetup, Phase, Recreation, RequestOutcome, Stage, Start,
};
use js_pull::{InfoRequest, Reader, info_of_reply, is_asking, same_state};
pub(crate) use sentence::push_awaited;
use std::alloc::Global;

/// What an answer is.
#[derive(Clone, Copy)]
pub(crate) enum Reply {
    /// There is none: the replier is gone.
    Gone,
    /// Nobody listens to the request (status 503).
    Unheard,
    /// It holds no consumer's info.
    NoInfo,
    /// Push: the consumer in it has no deliver subject.
    NoSubject,
    /// It is good.
    Good,
}

/// What becomes of what the consumer waits for.
#[derive(Clone, Copy)]
pub(crate) enum Awaited {
    /// Pull: the time of the last pull request is over.
    Expired { wait: Nanos },
    InfoAnswered { request: u64, reply: Reply },
    InfoLate { request: u64, wait: Nanos },
    /// The wait before the next request for the consumer's info is over.
    InfoDue { wait: Nanos },
    DeleteAnswered { request: u64, reply: Reply },
    DeleteLate { request: u64, wait: Nanos },
    Created { request: u64, start: Start },
    NotCreated { request: u64, reply: Reply },
    CreateLate { request: u64, wait: Nanos },
    /// The wait before the next try is over.
    TryDue { wait: Nanos },
    /// The last recreation was given up.
    GivenUp,
}

// ---- answers

fn is_unheard(status: Option<StatusCode>) -> bool
    ensures { result ≡ is_unheard_in status }
{
    match status {
        None => false,
        Some(StatusCode(status)) => status == 503,
    }
}

fn has_subject(setup: &OrderedSetup, info: &Info) -> bool
    ensures { result ≡ has_subject_in setup.now info.now }
{
    match setup {
        OrderedSetup::Pull(_) => true,
        OrderedSetup::Push(_) => info.config.deliver_subject.is_some(),
    }
}

fn info_reply(setup: &OrderedSetup, info: &Option<Info>) -> Reply
    ensures { result ≡ sentences.info_reply setup.now info.now }
{
    match info {
        None => Reply::NoInfo,
        Some(info) => {
            if has_subject(setup, info) {
                Reply::Good
            } else {
                Reply::NoSubject
            }
        }
    }
}

// What a message is as an answer.
fn message_reply(
    alloc: Global,
    setup: &OrderedSetup,
    message: &Message,
) -> Result<Reply, OutOfMemory>
    ensures { IfOk result (λ reply. reply ≡ sentences.message_reply setup.now message.now) }
{
    if is_unheard(message.status) {
        return Ok(Reply::Unheard);
    }
    let info = info_of_reply(alloc, Some(message))?;
    let reply = info_reply(setup, &info);
    drop(info);
    Ok(reply)
}

// What answered a request in an event, if something did.
fn reply_in(
    alloc: Global,
    setup: &OrderedSetup,
    request: u64,
    what: &EventKind,
) -> Result<Option<Reply>, OutOfMemory>
    ensures { IfOk result (λ reply. reply ≡ sentences.reply_in setup.now request what.now) }
{
    match what.reply_to(request) {
        RequestOutcome::Waiting => Ok(None),
        RequestOutcome::Gone => Ok(Some(Reply::Gone)),
        RequestOutcome::Got(message) => Ok(Some(message_reply(alloc, setup, message)?)),
    }
}

// Whether a request was answered in an event, whatever the answer is.
fn any_reply_in(request: u64, what: &EventKind) -> Option<Reply>
    ensures { result ≡ sentences.any_reply_in request what.now }
{
    match what.reply_to(request) {
        RequestOutcome::Waiting => None,
        RequestOutcome::Gone => Some(Reply::Gone),
        RequestOutcome::Got(_) => Some(Reply::Good),
    }
}

// ---- pull

fn expired(now: Moment, expiry: Option<Timer>) -> Option<Awaited>
    ensures { result ≡ sentences.expired now expiry }
{
    match expiry {
        None => None,
        Some(timer) => {
            if timer.is_due(now) {
                Some(Awaited::Expired { wait: timer.wait })
            } else {
                None
            }
        }
    }
}

fn info_late(now: Moment, request: u64, timeout: Option<Timer>) -> Option<Awaited>
    ensures { result ≡ sentences.info_late now request timeout }
{
    match timeout {
        None => None,
        Some(timer) => {
            if timer.is_due(now) {
                Some(Awaited::InfoLate {
                    request,
                    wait: timer.wait,
                })
            } else {
                None
            }
        }
    }
}

fn info_due(now: Moment, timer: Timer) -> Option<Awaited>
    ensures { result ≡ sentences.info_due now timer }
{
    if timer.is_due(now) {
        Some(Awaited::InfoDue { wait: timer.wait })
    } else {
        None
    }
}

// What becomes of an open request for the consumer's info.
fn inquiry(
    alloc: Global,
    setup: &OrderedSetup,
    inquiry: InfoRequest,
    event: &Event,
) -> Result<Option<Awaited>, OutOfMemory>
    ensures { IfOk result (λ news. news ≡ sentences.inquiry setup.now inquiry event.now) }
{
    match inquiry {
        InfoRequest::NoInfoRequest => Ok(None),
        InfoRequest::Asked {
            request,
            timeout,
            ..
        } => match reply_in(alloc, setup, request, &event.what)? {
            Some(reply) => Ok(Some(Awaited::InfoAnswered { request, reply })),
            None => Ok(info_late(event.at, request, timeout)),
        },
        InfoRequest::Resting { wait, .. } => Ok(info_due(event.at, wait)),
    }
}

/// Returns whether an event changes the state of the connection.
pub(crate) fn is_change(connection: State, what: &EventKind) -> bool
    ensures { result ≡ sentences.is_change connection what.now }
{
    match what {
        EventKind::Connection { state } => !same_state(connection, *state),
        EventKind::Tick => false,
        EventKind::Arrival { .. } => false,
        EventKind::Answer { .. } => false,
        EventKind::Link { .. } => false,
        EventKind::WatcherEnded => false,
    }
}

fn reader_awaits(
    alloc: Global,
    setup: &OrderedSetup,
    connection: State,
    reader: &Reader,
    event: &Event,
) -> Result<Option<Awaited>, OutOfMemory>
    ensures { IfOk result (λ news. news ≡ sentences.reader_awaits setup.now connection reader.now event.now) }
{
    if is_asking(&reader.inquiry) {
        return inquiry(alloc, setup, reader.inquiry, event);
    }
    if is_change(connection, &event.what) {
        return Ok(None);
    }
    Ok(expired(event.at, reader.expiry))
}

// ---- a recreation

fn delete_late(now: Moment, request: u64, timeout: Timer) -> Option<Awaited>
    ensures { result ≡ sentences.delete_late now request timeout }
{
    if timeout.is_due(now) {
        return Some(Awaited::DeleteLate {
            request,
            wait: timeout.wait,
        });
    }
    None
}

fn deleting(request: u64, timeout: Timer, event: &Event) -> Option<Awaited>
    ensures { result ≡ sentences.deleting request timeout event.now }
{
    match any_reply_in(request, &event.what) {
        Some(reply) => Some(Awaited::DeleteAnswered { request, reply }),
        None => delete_late(event.at, request, timeout),
    }
}

fn created(request: u64, start: Start, reply: Reply) -> Awaited
    ensures { result ≡ sentences.created request start reply }
{
    match reply {
        Reply::Good => Awaited::Created { request, start },
        Reply::Gone => Awaited::NotCreated { request, reply },
        Reply::Unheard => Awaited::NotCreated { request, reply },
        Reply::NoInfo => Awaited::NotCreated { request, reply },
        Reply::NoSubject => Awaited::NotCreated { request, reply },
    }
}

fn create_late(now: Moment, request: u64, timeout: Timer) -> Option<Awaited>
    ensures { result ≡ sentences.create_late now request timeout }
{
    if timeout.is_due(now) {
        return Some(Awaited::CreateLate {
            request,
            wait: timeout.wait,
        });
    }
    None
}

fn creating(
    alloc: Global,
    setup: &OrderedSetup,
    request: u64,
    timeout: Timer,
    start: Start,
    event: &Event,
) -> Result<Option<Awaited>, OutOfMemory>
    ensures { IfOk result (λ news. news ≡ sentences.creating setup.now request timeout start event.now) }
{
    match reply_in(alloc, setup, request, &event.what)? {
        Some(reply) => Ok(Some(created(request, start, reply))),
        None => Ok(create_late(event.at, request, timeout)),
    }
}

fn try_due(now: Moment, timer: Timer) -> Option<Awaited>
    ensures { result ≡ sentences.try_due now timer }
{
    if timer.is_due(now) {
        Some(Awaited::TryDue { wait: timer.wait })
    } else {
        None
    }
}

fn recreation_awaits(
    alloc: Global,
    setup: &OrderedSetup,
    recreation: &Recreation,
    event: &Event,
) -> Result<Option<Awaited>, OutOfMemory>
    ensures { IfOk result (λ news. news ≡ sentences.recreation_awaits setup.now recreation.now event.now) }
{
    match recreation.stage {
        Stage::Between => Ok(None),
        Stage::Deleting { request, timeout } => Ok(deleting(request, timeout, event)),
        Stage::Creating { request, timeout } => {
            creating(alloc, setup, request, timeout, recreation.start, event)
        }
        Stage::Waiting { wait } => Ok(try_due(event.at, wait)),
    }
}

// ---- all

/// Returns whether the event is the end of the watcher, and ends the consumer.
pub(crate) fn ends_at(setup: &OrderedSetup, phase: &Phase, what: &EventKind) -> bool
    ensures { result ≡ sentences.ends_at setup.now phase.now what.now }
{
    match what {
        EventKind::WatcherEnded => ends_unwatched(setup, phase),
        EventKind::Tick => false,
        EventKind::Arrival { .. } => false,
        EventKind::Answer { .. } => false,
        EventKind::Link { .. } => false,
        EventKind::Connection { .. } => false,
    }
}

fn phase_awaits(
    alloc: Global,
    setup: &OrderedSetup,
    consumer: &Consumer,
    event: &Event,
) -> Result<Option<Awaited>, OutOfMemory>
    ensures { IfOk result (λ news. news ≡ sentences.phase_awaits setup.now consumer.now event.now) }
{
    match &consumer.phase {
        Phase::Pulls(reader) => reader_awaits(alloc, setup, consumer.connection, reader, event),
        Phase::Recreates(recreation) => recreation_awaits(alloc, setup, recreation, event),
        Phase::Idle => Ok(Some(Awaited::GivenUp)),
        Phase::Pushes { .. } => Ok(None),
        Phase::Ended => Ok(None),
        Phase::Exhausted => Ok(None),
    }
}

/// Returns what becomes, in an event, of what the consumer waits for. Fails with `OutOfMemory` if
/// memory runs out.
pub(crate) fn awaited_in(
    alloc: Global,
    setup: &OrderedSetup,
    consumer: &Consumer,
    event: &Event,
) -> Result<Option<Awaited>, OutOfMemory>
    ensures { IfOk result (λ news. news ≡ sentences.awaited setup.now consumer.now event.now) }
{
    if ends_at(setup, &consumer.phase, &event.what) {
        return Ok(None);
    }
    phase_awaits(alloc, setup, consumer, event)
}
