//! What arrives on an inbox that the consumer reads, and what does not arrive in time.

ghost use Rattle.std.specs.Prelude.{◌≡◌, option_map};
ghost use Rattle.std.specs.Option.{option_copied};
ghost use Rattle.js_ordered_table.specs.Passes.{place_shown};
ghost use Rattle.js_ordered_table.specs.Table.{is_connected as is_connected_in};
ghost use Rattle.js_tool_explain.specs.Arrivals as sentences;

mod sentence;

use crate::outside_events::is_held;
use crate::replies::{ends_at, is_change};
use js_base::{Message, Moment, Nanos, State, StatusCode, Timer};
use js_ordered_table::{
    Consumer, Event, EventKind, OrderedSetup, Phase, Place, PushKind, Recreation, place_of,
    push_kind,
};
use js_pull::{Kind, Reader, pull_kind};
pub(crate) use sentence::push_arrived;

/// What arrives, if it is not handed out, or does not arrive in time.
#[derive(Clone, Copy)]
pub(crate) enum Arrived {
    /// A message of the stream with another number than the one after `last`.
    OutOfOrder {
        sequence: u64,
        number: u64,
        last: u64,
    },
    /// A message of the stream whose reply subject states no place.
    NoPlace,
    Heartbeat,
    /// Push: a heartbeat that names another number than the last that was accepted.
    Behind {
        sent: u64,
        last: u64,
    },
    /// Push: a heartbeat whose number cannot be read.
    BadHeartbeat,
    /// Pull: the consumer was deleted.
    Deleted,
    /// Pull: the consumer is a push consumer.
    PushBased,
    /// Pull: a request was too large. `is_second`: with no message since the last one that was.
    Limit {
        is_second: bool,
    },
    /// Pull: nobody listens to pull requests.
    NoResponders,
    /// Pull: a pull request has ended with this status.
    RequestEnded {
        status: u64,
    },
    /// Pull: a status that cannot be read.
    BadStatus {
        status: u64,
    },
    /// Push: a status that means nothing to it.
    OtherStatus {
        status: u64,
    },
    /// Push: a message is held until the create request is answered.
    Held {
        inbox: u64,
    },
    /// Pull: no heartbeat came in time. `is_second`: with no message since the last one that was
    /// missed.
    Silence {
        wait: Nanos,
        is_second: bool,
    },
    /// Push: nothing came in time.
    PushSilence {
        wait: Nanos,
    },
}

fn status_number(status: Option<StatusCode>) -> u64
    ensures { result ≡ sentences.status_number status }
{
    match status {
        None => 0,
        Some(StatusCode(status)) => u64::from(status),
    }
}

// ---- a message of the stream

fn unless_next(last: u64, place: Place) -> Option<Arrived>
    ensures { result ≡ sentences.unless_next last (place_shown place) }
{
    if place.is_after(last) {
        return None;
    }
    Some(Arrived::OutOfOrder {
        sequence: place.sequence,
        number: place.number,
        last,
    })
}

fn delivered(last: u64, message: &Message) -> Option<Arrived>
    ensures { result ≡ sentences.delivered last message.now }
{
    match place_of(message) {
        None => Some(Arrived::NoPlace),
        Some(place) => unless_next(last, place),
    }
}

// ---- pull

fn pulled(consumer: &Consumer, message: &Message) -> Option<Arrived>
    ensures { result ≡ sentences.pulled consumer.now message.now }
{
    match pull_kind(message) {
        Kind::Delivered => delivered(consumer.core.consumer_sequence, message),
        Kind::IdleHeartbeat => Some(Arrived::Heartbeat),
        Kind::Deleted => Some(Arrived::Deleted),
        Kind::PushBased => Some(Arrived::PushBased),
        Kind::Limit => Some(Arrived::Limit {
            is_second: consumer.limited,
        }),
        Kind::Gone => Some(Arrived::NoResponders),
        Kind::Ledger { .. } => Some(Arrived::RequestEnded {
            status: status_number(message.status),
        }),
        Kind::Bad => Some(Arrived::BadStatus {
            status: status_number(message.status),
        }),
    }
}

fn silence(now: Moment, timer: Option<Timer>, is_second: bool) -> Option<Arrived>
    ensures { result ≡ sentences.silence now timer is_second }
{
    match timer {
        None => None,
        Some(timer) => {
            if timer.is_due(now) {
                Some(Arrived::Silence {
                    wait: timer.wait,
                    is_second,
                })
            } else {
                None
            }
        }
    }
}

fn at_reader(consumer: &Consumer, reader: &Reader, event: &Event) -> Option<Arrived>
    ensures { result ≡ sentences.at_reader consumer.now reader.now event.now }
{
    match event.what.message_on(reader.source.inbox) {
        Some(message) => pulled(consumer, message),
        None => silence(event.at, reader.heartbeat_timer, consumer.missed),
    }
}

// ---- push

fn beat(last: u64, sent: Option<u64>) -> Arrived
    ensures { result ≡ sentences.beat last sent }
{
    match sent {
        None => Arrived::Heartbeat,
        Some(sent) => {
            if sent == last {
                Arrived::Heartbeat
            } else {
                Arrived::Behind { sent, last }
            }
        }
    }
}

fn pushed(last: u64, message: &Message) -> Option<Arrived>
    ensures { result ≡ sentences.pushed last message.now }
{
    match push_kind(message) {
        PushKind::Delivered => delivered(last, message),
        PushKind::Beat(sent) => Some(beat(last, sent)),
        PushKind::Bad => Some(Arrived::BadHeartbeat),
        PushKind::OtherStatus => Some(Arrived::OtherStatus {
            status: status_number(message.status),
        }),
    }
}

fn push_silence(now: Moment, timer: Timer) -> Option<Arrived>
    ensures { result ≡ sentences.push_silence now timer }
{
    if timer.is_due(now) {
        return Some(Arrived::PushSilence { wait: timer.wait });
    }
    None
}

fn is_connected(state: State) -> bool
    ensures { result ≡ is_connected_in state }
{
    match state {
        State::Connected => true,
        State::Pending => false,
        State::Disconnected => false,
    }
}

// The connection comes or goes, so that push gives up its inbox.
fn is_lost(connection: State, what: &EventKind) -> bool
    ensures { result ≡ sentences.is_lost connection what.now }
{
    match what {
        EventKind::Connection { state } => {
            is_change(connection, what) && (is_connected(connection) || is_connected(*state))
        }
        EventKind::Tick => false,
        EventKind::Arrival { .. } => false,
        EventKind::Answer { .. } => false,
        EventKind::Link { .. } => false,
        EventKind::WatcherEnded => false,
    }
}

fn at_inbox(consumer: &Consumer, inbox: u64, timer: Timer, event: &Event) -> Option<Arrived>
    ensures { result ≡ sentences.at_inbox consumer.now inbox timer event.now }
{
    if is_lost(consumer.connection, &event.what) {
        return None;
    }
    match event.what.message_on(inbox) {
        Some(message) => pushed(consumer.core.consumer_sequence, message),
        None => push_silence(event.at, timer),
    }
}

// ---- a recreation

fn held(recreation: &Recreation, event: &Event) -> Option<Arrived>
    ensures { result ≡ sentences.held recreation.now event.now }
{
    match &event.what {
        EventKind::Arrival { inbox, .. } => {
            if is_held(event.at, *inbox, recreation) {
                Some(Arrived::Held { inbox: *inbox })
            } else {
                None
            }
        }
        EventKind::Tick => None,
        EventKind::Answer { .. } => None,
        EventKind::Link { .. } => None,
        EventKind::Connection { .. } => None,
        EventKind::WatcherEnded => None,
    }
}

// ---- all

fn phase_receives(consumer: &Consumer, event: &Event) -> Option<Arrived>
    ensures { result ≡ sentences.phase_receives consumer.now event.now }
{
    match &consumer.phase {
        Phase::Pulls(reader) => at_reader(consumer, reader, event),
        Phase::Pushes {
            inbox,
            heartbeat_timer,
        } => at_inbox(consumer, *inbox, *heartbeat_timer, event),
        Phase::Recreates(recreation) => held(recreation, event),
        Phase::Idle => None,
        Phase::Ended => None,
        Phase::Exhausted => None,
    }
}

/// Returns what arrives for this consumer in an event, if it is not handed out, or does not arrive
/// in time.
pub(crate) fn arrived_in(
    setup: &OrderedSetup,
    consumer: &Consumer,
    event: &Event,
) -> Option<Arrived>
    ensures { result ≡ sentences.arrived setup.now consumer.now event.now }
{
    if ends_at(setup, &consumer.phase, &event.what) {
        return None;
    }
    phase_receives(consumer, event)
}
