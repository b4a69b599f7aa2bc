//! What an arrival means to a push reader.
ghost use Rattle.std.specs.Prelude.{◌≡◌, codes};
ghost use Rattle.std.specs.Option.{option_copied};
ghost use Rattle.js_base.specs.Headers.{all_headers, last_value};
ghost use Rattle.js_pull.specs.Kind.{number_told};
ghost use Rattle.js_ordered_table.specs.Arrivals as reading;

use js_base::{HeaderMap, Message, StatusCode};
use js_pull::{HeaderNumber, header_number};

/// What an arrival is, judged by its status and headers.
#[derive(Clone, Copy)]
pub enum PushKind {
    /// One of the stream's messages.
    Delivered,
    /// A heartbeat or a flow-control message, with the consumer sequence of the last message that
    /// was sent, if it states one.
    Beat(Option<u64>),
    /// A heartbeat or flow-control message whose number can't be read.
    Bad,
    /// Any other status.
    OtherStatus,
}

fn last_consumer(headers: &Option<HeaderMap>) -> HeaderNumber
    ensures { result ≡ number_told (last_value (codes "Nats-Last-Consumer") (all_headers headers.now)) }
{
    match headers {
        None => HeaderNumber::Absent,
        Some(headers) => header_number(headers.get_last("Nats-Last-Consumer")),
    }
}

fn beat(last: HeaderNumber) -> PushKind
    ensures { result ≡ reading.beat last }
{
    match last {
        HeaderNumber::Absent => PushKind::Beat(None),
        HeaderNumber::Unreadable => PushKind::Bad,
        HeaderNumber::Number(number) => PushKind::Beat(Some(number)),
    }
}

/// Returns the kind of an arrival.
pub fn push_kind(message: &Message) -> PushKind
    ensures { result ≡ reading.push_kind message.now }
{
    match message.status {
        None => PushKind::Delivered,
        Some(StatusCode(100)) => beat(last_consumer(&message.headers)),
        Some(_) => PushKind::OtherStatus,
    }
}

// ---- answers

// The subject for the answer to a heartbeat whose consumer has stopped until it is answered.
fn stalled_subject(headers: &Option<HeaderMap>) -> Option<&str>
    ensures { option_copied result ≡ last_value (codes "Nats-Consumer-Stalled") (all_headers headers.now) }
{
    match headers {
        None => None,
        Some(headers) => headers.get_last("Nats-Consumer-Stalled"),
    }
}

/// Returns the subject to which a heartbeat or a flow-control message asks for an answer: its reply
/// subject or else, if the server waits for an answer that it has missed, the value of its header
/// `Nats-Consumer-Stalled`.
pub fn answer_subject(message: &Message) -> Option<&str>
    ensures { option_copied result ≡ reading.answer_subject message.now }
{
    match &message.reply {
        Some(reply) => Some(reply.as_str()),
        None => stalled_subject(&message.headers),
    }
}

/// Returns the subject to which an ordered push reader answers a heartbeat or a flow-control
/// message: with `answers_stalled` the one that [`answer_subject`] returns, else only the reply
/// subject.
pub fn beat_subject(answers_stalled: bool, message: &Message) -> Option<&str>
    ensures { option_copied result ≡ reading.beat_subject answers_stalled message.now }
{
    if answers_stalled {
        return answer_subject(message);
    }
    match &message.reply {
        Some(reply) => Some(reply.as_str()),
        None => None,
    }
}
