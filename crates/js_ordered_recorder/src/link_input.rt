//! What lies at the link for a consumer: the one thing that a turn takes.
ghost use Rattle.std.specs.Prelude.{◌≡◌, max};
ghost use Rattle.js_ordered_table.specs.Timers.{phase_due};
ghost use Rattle.js_ordered_recorder.specs.LinkInput.{AnswersAs, ArrivesAs, awaited_at, awaited_in, change_in, link_in, listened_at, read_in, request_in, stage_request, tick_in};

use crate::link_event::Taken;
use crate::sends::{Asked, LinkNumbers};
use js_base::{Moment, State};
use js_link::{Answer, InboxId, Link, RequestId, Taken as Found, Watch};
use js_ordered_table::{OrderedSetup, Phase, Stage, phase_wakes_at};
use js_pull::{InfoRequest, same_state};

/// The answer that a consumer waits for, by the numbers of the replay and of the link.
#[derive(Clone, Copy)]
pub(crate) enum Awaited {
    Nothing,
    /// The link could not send the request.
    Unsent { number: u64 },
    Sent { number: u64, request: RequestId },
}

/// The inbox that a consumer reads, by the numbers of the replay and of the link.
#[derive(Clone, Copy)]
pub(crate) struct Listened {
    pub(crate) number: u64,
    pub(crate) inbox: InboxId,
}

// ---- what a consumer waits for

fn info_request(inquiry: &InfoRequest) -> Option<u64>
    ensures { result ≡ request_in inquiry.now }
{
    match inquiry {
        InfoRequest::Asked { request, .. } => Some(*request),
        InfoRequest::NoInfoRequest => None,
        InfoRequest::Resting { .. } => None,
    }
}

fn recreation_request(stage: &Stage) -> Option<u64>
    ensures { result ≡ stage_request stage.now }
{
    match stage {
        Stage::Deleting { request, .. } => Some(*request),
        Stage::Creating { request, .. } => Some(*request),
        Stage::Between => None,
        Stage::Waiting { .. } => None,
    }
}

// The replay's number of the request whose answer is awaited.
fn awaited_request(phase: &Phase) -> Option<u64>
    ensures { result ≡ awaited_in phase.now }
{
    match phase {
        Phase::Pulls(reader) => {
            if reader.ended {
                None
            } else {
                info_request(&reader.inquiry)
            }
        }
        Phase::Recreates(recreation) => recreation_request(&recreation.stage),
        Phase::Pushes { .. } => None,
        Phase::Idle => None,
        Phase::Ended => None,
        Phase::Exhausted => None,
    }
}

// The answer that is awaited, where its request is the one that was sent last.
fn awaited_answer(request: Option<u64>, asked: Option<Asked>) -> Awaited
    ensures { result ≡ awaited_at request asked }
{
    match (request, asked) {
        (Some(number), Some(asked)) => {
            if number != asked.number {
                return Awaited::Nothing;
            }
            match asked.request {
                Some(request) => Awaited::Sent { number, request },
                None => Awaited::Unsent { number },
            }
        }
        _ => Awaited::Nothing,
    }
}

// The replay's number of the inbox that is read. None is read while the consumer is recreated.
fn inbox_read(phase: &Phase) -> Option<u64>
    ensures { result ≡ read_in phase.now }
{
    match phase {
        Phase::Pulls(reader) => {
            if reader.ended {
                None
            } else {
                Some(reader.source.inbox)
            }
        }
        Phase::Pushes { inbox, .. } => Some(*inbox),
        Phase::Recreates(_) => None,
        Phase::Idle => None,
        Phase::Ended => None,
        Phase::Exhausted => None,
    }
}

// The inbox that is read, where it is the one that was opened last.
fn current_inbox(number: Option<u64>, sends: &LinkNumbers) -> Option<Listened>
    ensures { result ≡ listened_at number sends.now }
{
    match (number, sends.inbox) {
        (Some(number), Some(inbox)) => {
            if number == sends.number {
                Some(Listened { number, inbox })
            } else {
                None
            }
        }
        _ => None,
    }
}

// ---- what lies there

// What the caller has said of the link, where that is news.
pub(crate) fn take_link(up: bool, was: bool) -> Option<Taken>
    ensures { result ≡ link_in up was }
{
    match (up, was) {
        (true, true) => None,
        (false, false) => None,
        (true, false) => Some(Taken::Link { up: true }),
        (false, true) => Some(Taken::Link { up: false }),
    }
}

// A change of the connection. The end of its watcher is news for push alone, which it ends.
pub(crate) fn take_change(setup: &OrderedSetup, last: State, watch: Watch) -> Option<Taken>
    ensures { result ≡ change_in setup.now last watch }
{
    match watch {
        Watch::State(state) => {
            if same_state(last, state) {
                None
            } else {
                Some(Taken::Connection { state })
            }
        }
        Watch::Ended => match setup {
            OrderedSetup::Pull(_) => None,
            OrderedSetup::Push(_) => Some(Taken::WatcherEnded),
        },
    }
}

// The answer that is awaited, or that none will come.
pub(crate) fn take_answer<L: Link>(
    phase: &Phase,
    sends: &LinkNumbers,
    link: &mut L,
) -> Option<Taken>
    ensures { AnswersAs (awaited_at (awaited_in phase.now) sends.now.asked) result (L.view link.old) (L.view link.new) }
{
    match awaited_answer(awaited_request(phase), sends.asked) {
        Awaited::Nothing => None,
        Awaited::Unsent { number } => Some(Taken::Gone { request: number }),
        Awaited::Sent { number, request } => match link.answer(request) {
            Answer::Waiting => None,
            Answer::Gone => Some(Taken::Gone { request: number }),
            Answer::Got(message) => Some(Taken::Answer {
                request: number,
                message,
            }),
        },
    }
}

// The first message of the inbox that is read.
pub(crate) fn take_arrival<L: Link>(
    phase: &Phase,
    sends: &LinkNumbers,
    link: &mut L,
) -> Option<Taken>
    ensures { ArrivesAs (listened_at (read_in phase.now) sends.now) result (L.view link.old) (L.view link.new) }
{
    match current_inbox(inbox_read(phase), sends) {
        None => None,
        Some(read) => match link.take(read.inbox) {
            Found::Message(message) => Some(Taken::Arrival {
                inbox: read.number,
                message,
            }),
            Found::Empty => None,
            Found::Closed => None,
        },
    }
}

// A tick, where a timer is due.
pub(crate) fn take_tick(phase: &Phase, at: Moment) -> Option<Taken>
    ensures { result ≡ tick_in at phase.now }
{
    match phase_wakes_at(phase) {
        Some(moment) => {
            if moment <= at {
                Some(Taken::Tick)
            } else {
                None
            }
        }
        None => None,
    }
}

// The later of two moments.
pub(crate) fn later(now: Moment, last: Moment) -> Moment
    ensures { result ≡ max now last }
{
    if now < last { last } else { now }
}
