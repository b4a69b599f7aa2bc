//! What happens outside the consumer: to the link and to the connection, and what comes that it
//! does not look at.

ghost use Rattle.std.specs.Prelude.{◌≡◌, ◌++◌, OnOk};
ghost use Rattle.js_ordered_table.specs.Timers.{stage_due};
ghost use Rattle.js_tool_explain.specs.OutsideEvents as sentences;

use crate::sentence_part::{Part, push_line};
use js_base::{Moment, State};
use js_ordered_table::transitions::event::is_over;
use js_ordered_table::{
    Consumer, Event, EventKind, Opened, OrderedSetup, Phase, Recreation, Stage,
};
use js_pull::{InfoRequest, Reader};
use std::alloc::AllocError;

/// What happens outside the consumer.
#[derive(Clone, Copy)]
pub(crate) enum Outside {
    /// Sends go through from now on, or they fail.
    Link { is_up: bool },
    Connection { was: State, now: State },
    /// Nothing watches the connection any more, which may end the consumer.
    Unwatched { ends: bool },
    /// A message comes on an inbox that the consumer does not read.
    PassedOver { inbox: u64 },
    /// An answer comes to a request whose answer the consumer does not wait for.
    Unawaited { request: u64 },
}

/// Returns whether the end of the watcher ends the consumer.
pub(crate) fn ends_unwatched(setup: &OrderedSetup, phase: &Phase) -> bool
    ensures { result ≡ sentences.ends_unwatched setup.now phase.now }
{
    match setup {
        OrderedSetup::Pull(_) => false,
        OrderedSetup::Push(_) => !is_over(phase),
    }
}

/// Returns whether the wait of a stage is over.
pub(crate) fn is_stage_due(now: Moment, stage: &Stage) -> bool
    ensures { result ≡ stage_due now stage.now }
{
    match stage {
        Stage::Between => false,
        Stage::Deleting { timeout, .. } => timeout.is_due(now),
        Stage::Creating { timeout, .. } => timeout.is_due(now),
        Stage::Waiting { wait } => wait.is_due(now),
    }
}

fn is_opened(inbox: u64, opened: &Option<Opened>) -> bool
    ensures { result ≡ sentences.is_opened inbox opened.now }
{
    match opened {
        None => false,
        Some(opened) => inbox == opened.inbox,
    }
}

/// Returns whether a recreation holds what arrives on this inbox.
pub(crate) fn is_held(now: Moment, inbox: u64, recreation: &Recreation) -> bool
    ensures { result ≡ sentences.is_held now inbox recreation.now }
{
    is_opened(inbox, &recreation.opened) && !is_stage_due(now, &recreation.stage)
}

// The consumer reads this inbox, or holds what arrives on it.
fn is_read(now: Moment, inbox: u64, phase: &Phase) -> bool
    ensures { result ≡ sentences.is_read now inbox phase.now }
{
    match phase {
        Phase::Pulls(reader) => inbox == reader.source.inbox,
        Phase::Pushes { inbox: current, .. } => inbox == *current,
        Phase::Recreates(recreation) => is_held(now, inbox, recreation),
        Phase::Idle => false,
        Phase::Ended => false,
        Phase::Exhausted => false,
    }
}

fn is_asked(request: u64, reader: &Reader) -> bool
    ensures { result ≡ sentences.is_asked request reader.now.inquiry }
{
    match reader.inquiry {
        InfoRequest::NoInfoRequest => false,
        InfoRequest::Asked { request: asked, .. } => request == asked,
        InfoRequest::Resting { .. } => false,
    }
}

fn is_waited_for(request: u64, stage: &Stage) -> bool
    ensures { result ≡ sentences.is_waited_for request stage.now }
{
    match stage {
        Stage::Between => false,
        Stage::Deleting { request: asked, .. } => request == *asked,
        Stage::Creating { request: asked, .. } => request == *asked,
        Stage::Waiting { .. } => false,
    }
}

// The consumer waits for the answer to this request.
fn is_awaited(request: u64, phase: &Phase) -> bool
    ensures { result ≡ sentences.is_awaited request phase.now }
{
    match phase {
        Phase::Pulls(reader) => is_asked(request, reader),
        Phase::Pushes { .. } => false,
        Phase::Recreates(recreation) => is_waited_for(request, &recreation.stage),
        Phase::Idle => false,
        Phase::Ended => false,
        Phase::Exhausted => false,
    }
}

fn unless_read(is_read: bool, inbox: u64) -> Option<Outside>
    ensures { result ≡ sentences.unless_read is_read inbox }
{
    if is_read {
        return None;
    }
    Some(Outside::PassedOver { inbox })
}

fn unless_awaited(is_awaited: bool, request: u64) -> Option<Outside>
    ensures { result ≡ sentences.unless_awaited is_awaited request }
{
    if is_awaited {
        return None;
    }
    Some(Outside::Unawaited { request })
}

/// Returns what happens outside this consumer in an event.
pub(crate) fn outside_in(
    setup: &OrderedSetup,
    consumer: &Consumer,
    event: &Event,
) -> Option<Outside>
    ensures { result ≡ sentences.outside setup.now consumer.now event.now }
{
    match &event.what {
        EventKind::Tick => None,
        EventKind::Arrival { inbox, .. } => {
            unless_read(is_read(event.at, *inbox, &consumer.phase), *inbox)
        }
        EventKind::Answer { request, .. } => {
            unless_awaited(is_awaited(*request, &consumer.phase), *request)
        }
        EventKind::Link { up } => Some(Outside::Link { is_up: *up }),
        EventKind::Connection { state } => Some(Outside::Connection {
            was: consumer.connection,
            now: *state,
        }),
        EventKind::WatcherEnded => Some(Outside::Unwatched {
            ends: ends_unwatched(setup, &consumer.phase),
        }),
    }
}

fn state_name(state: State) -> &'static [u8]
    ensures { result.now ≡ sentences.state_name state }
{
    match state {
        State::Pending => b"pending",
        State::Connected => b"connected",
        State::Disconnected => b"disconnected",
    }
}

fn link_text(is_up: bool) -> &'static [u8]
    ensures { result.now ≡ sentences.link_text is_up }
{
    if is_up {
        b"The link is open: what the consumer sends goes out from now on."
    } else {
        b"The link is closed: what the consumer sends does not go out from now on."
    }
}

fn unwatched_text(ends: bool) -> &'static [u8]
    ensures { result.now ≡ sentences.unwatched_text ends }
{
    if ends {
        b"Nothing watches the connection any more, which ends a push consumer."
    } else {
        b"Nothing watches the connection any more."
    }
}

/// Adds the sentence on what happens outside the consumer.
pub(crate) fn push_outside(
    out: &mut Vec<u8>,
    at: Moment,
    outside: Outside,
) -> Result<(), AllocError>
    ensures { OnOk result (out.new.items ≡ out.old.items ++ sentences.outside_text at outside) }
{
    match outside {
        Outside::Link { is_up } => push_line(out, at, &[Part::Text(link_text(is_up))]),
        Outside::Connection { was, now } => push_line(
            out,
            at,
            &[
                Part::Text(b"The connection is "),
                Part::Text(state_name(now)),
                Part::Text(b" from now on; it was "),
                Part::Text(state_name(was)),
                Part::Text(b"."),
            ],
        ),
        Outside::Unwatched { ends } => push_line(out, at, &[Part::Text(unwatched_text(ends))]),
        Outside::PassedOver { inbox } => push_line(
            out,
            at,
            &[
                Part::Text(b"A message came on inbox "),
                Part::Number(inbox),
                Part::Text(b", which the consumer does not read now: it was passed over."),
            ],
        ),
        Outside::Unawaited { request } => push_line(
            out,
            at,
            &[
                Part::Text(b"An answer to request "),
                Part::Number(request),
                Part::Text(b" came, which the consumer does not wait for: it was passed over."),
            ],
        ),
    }
}
