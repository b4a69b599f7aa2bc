//! What an arrival means to a pull reader.
ghost use Rattle.std.specs.Prelude.{◌≡◌, [], codes, unwrap_or, option_map};
ghost use Rattle.std.specs.Option.{option_copied};
ghost use Rattle.js_base.specs.Headers.{all_headers, first_value};
ghost use Rattle.js_pull.specs.Kind as kinds;

use js_base::{HeaderMap, Message, StatusCode};
use js_message::read_u64;

/// What an arrival is, judged by its status, description and headers.
#[derive(Clone, Copy)]
pub enum Kind {
    /// One of the stream's messages.
    Delivered,
    /// A heartbeat.
    IdleHeartbeat,
    /// The consumer was deleted.
    Deleted,
    /// The consumer is a push consumer.
    PushBased,
    /// The request was larger than the consumer allows.
    Limit,
    /// Nobody listens to the subject of the request (status 503).
    Gone,
    /// A request has ended. `messages` and `bytes` are the amounts that will not come, if the
    /// server states them.
    Ledger {
        messages: Option<u64>,
        bytes: Option<u64>,
    },
    /// Any other status, or a header number that can't be read.
    Bad,
}

/// The number in a header.
#[derive(Clone, Copy)]
pub enum HeaderNumber {
    /// The header is absent.
    Absent,
    /// The value of the header is not a `u64`.
    Unreadable,
    Number(u64),
}

/// Reads the value of a header as a number.
pub fn header_number(value: Option<&str>) -> HeaderNumber
    ensures { result ≡ kinds.number_told (option_copied value.entry) }
{
    match value {
        None => HeaderNumber::Absent,
        Some(text) => match read_u64(text) {
            None => HeaderNumber::Unreadable,
            Some(number) => HeaderNumber::Number(number),
        },
    }
}

fn first_number(headers: &Option<HeaderMap>, name: &str) -> HeaderNumber
    ensures { result ≡ kinds.number_told (first_value name.now (all_headers headers.now)) }
{
    match headers {
        None => HeaderNumber::Absent,
        Some(headers) => header_number(headers.get(name)),
    }
}

fn ledger(messages: HeaderNumber, bytes: HeaderNumber) -> Kind
    ensures { result ≡ kinds.ledger messages bytes }
{
    match (messages, bytes) {
        (HeaderNumber::Absent, HeaderNumber::Absent) => Kind::Ledger {
            messages: None,
            bytes: None,
        },
        (HeaderNumber::Absent, HeaderNumber::Number(bytes)) => Kind::Ledger {
            messages: None,
            bytes: Some(bytes),
        },
        (HeaderNumber::Number(messages), HeaderNumber::Absent) => Kind::Ledger {
            messages: Some(messages),
            bytes: None,
        },
        (HeaderNumber::Number(messages), HeaderNumber::Number(bytes)) => Kind::Ledger {
            messages: Some(messages),
            bytes: Some(bytes),
        },
        (HeaderNumber::Unreadable, _) => Kind::Bad,
        (HeaderNumber::Absent, HeaderNumber::Unreadable) => Kind::Bad,
        (HeaderNumber::Number(_), HeaderNumber::Unreadable) => Kind::Bad,
    }
}

fn is_deleted(description: &str) -> bool
    ensures { result ≡ kinds.is_deleted description.now }
{
    description == "Consumer Deleted"
}

fn is_push_based(description: &str) -> bool
    ensures { result ≡ kinds.is_push_based description.now }
{
    description == "Consumer is push based"
}

fn is_limit(description: &str) -> bool
    ensures { result ≡ kinds.is_limit description.now }
{
    description.starts_with("Exceeded MaxRequest")
}

// A status that ends a request.
fn ended_request(description: &str, headers: &Option<HeaderMap>) -> Kind
    ensures { result ≡ kinds.ended_request description.now (all_headers headers.now) }
{
    if is_deleted(description) {
        Kind::Deleted
    } else if is_push_based(description) {
        Kind::PushBased
    } else if is_limit(description) {
        Kind::Limit
    } else {
        ledger(
            first_number(headers, "Nats-Pending-Messages"),
            first_number(headers, "Nats-Pending-Bytes"),
        )
    }
}

// The description of a message, which is empty where it has none.
fn description_text(message: &Message) -> &str
    ensures { result.now ≡ unwrap_or message.now.description [] }
{
    match &message.description {
        None => "",
        Some(text) => text.as_str(),
    }
}

/// Returns the kind of an arrival.
pub fn pull_kind(message: &Message) -> Kind
    ensures { result ≡ kinds.pull_kind message.now }
{
    match message.status {
        None => Kind::Delivered,
        Some(StatusCode(status)) => match status {
            200 => Kind::Delivered,
            100 => Kind::IdleHeartbeat,
            408 | 409 | 423 => ended_request(description_text(message), &message.headers),
            503 => Kind::Gone,
            _ => Kind::Bad,
        },
    }
}
