//! Messages of a stream: their acknowledgement subjects, their acks, and how they are published and stored.

use crate::received::{Headers, REPLY, WAIT, delivered, header_map, received, reply_of};
use crate::tables::{printed, same, says};
use bytes::Bytes;
use js_base::{HeaderMap, OutOfMemory};
use js_message::{
    AckKind, Acker, Info, InfoError, Message, OutboundMessage, PublishMessage, StreamMessage,
    StreamMessageErrorKind, parse_info, read_u64,
};
use std::alloc::Global;
use std::process::Abort;

/// Deliveries, the stream's sequence, the consumer's, the time in nanoseconds and what is pending.
type Numbers = (i64, u64, u64, i128, u64);

/// The domain, the account's hash, the stream, the consumer and the tenth token.
type Texts = [&'static str; 5];

/// Subjects, with the numbers and the texts of each.
const READ: &[(&str, Numbers, Texts)] = &[
    (
        "$JS.ACK.events.c1.1.4.3.1790230470084404000.5",
        (1, 4, 3, 1790230470084404000, 5),
        ["none", "none", "events", "c1", "none"],
    ),
    (
        "$JS.ACK.hub.szMpdrwD.events.durable.2.50.9.1790230470084404000.0.rand.future.more",
        (2, 50, 9, 1790230470084404000, 0),
        ["hub", "szMpdrwD", "events", "durable", "rand"],
    ),
    (
        "$JS.ACK._.szMpdrwD.events.4z6UI6IG.1.1.+7.1790230470084404000.1",
        (1, 1, 7, 1790230470084404000, 1),
        ["none", "szMpdrwD", "events", "4z6UI6IG", "none"],
    ),
];

/// Subjects that are none, why, and what is printed of it.
const REFUSED: &[(&str, InfoError, &str)] = &[
    (
        "$JS.FC.events.x",
        InfoError::Prefix,
        "the subject does not begin with $JS.ACK.",
    ),
    (
        "$JS.ACK",
        InfoError::Prefix,
        "the subject does not begin with $JS.ACK.",
    ),
    (
        "$JS.ACK.",
        InfoError::TokenCount { n: 1 },
        "the subject has 1 tokens after its prefix",
    ),
    (
        "$JS.ACK.hub.szMpdrwD.events.durable.2.50.9.1790230470084404000",
        InfoError::TokenCount { n: 8 },
        "the subject has 8 tokens after its prefix",
    ),
    (
        "$JS.ACK.events.durable.3.abc.7.1790230470084404000.42",
        InfoError::Number { place: 3 },
        "token 3 is no number in range",
    ),
    (
        "$JS.ACK.events.durable..1.x.1.1",
        InfoError::Number { place: 2 },
        "token 2 is no number in range",
    ),
    (
        "$JS.ACK.events.durable.3.-1.7.1.42",
        InfoError::Number { place: 3 },
        "token 3 is no number in range",
    ),
    (
        "$JS.ACK.e.d.3.1.7.1.18446744073709551616",
        InfoError::Number { place: 6 },
        "token 6 is no number in range",
    ),
    (
        "$JS.ACK.e.d.3.1.7.253402207201000000000.x",
        InfoError::Instant,
        "the time is out of range",
    ),
    (
        "$JS.ACK._.h.e.d.3.1.7.170141183460469231731687303715884105728.1",
        InfoError::Number { place: 7 },
        "token 7 is no number in range",
    ),
];

fn numbers(subject: &str) -> Result<Numbers, InfoError> {
    match parse_info(subject) {
        Ok(info) => Ok((
            info.delivered,
            info.stream_sequence,
            info.consumer_sequence,
            info.published.as_nanosecond(),
            info.pending,
        )),
        Err(error) => Err(error),
    }
}

fn texts_are(info: &Info<'_>, texts: Texts) -> bool {
    info.domain.unwrap_or("none") == texts[0]
        && info.acc_hash.unwrap_or("none") == texts[1]
        && info.stream == texts[2]
        && info.consumer == texts[3]
        && info.token.unwrap_or("none") == texts[4]
}

fn has_texts(subject: &str, texts: Texts) -> bool {
    match parse_info(subject) {
        Ok(info) => texts_are(&info, texts),
        Err(_) => false,
    }
}

#[test]
fn acknowledgement_subjects_are_read(rt: HostRuntime) {
    for &(subject, wanted, texts) in READ {
        same(&rt, subject, numbers(subject), Ok(wanted));
        same(&rt, subject, has_texts(subject, texts), true);
    }
    for &(subject, error, text) in REFUSED {
        same(&rt, subject, numbers(subject), Err(error));
        says(&rt, subject, printed(rt.alloc(), error), text);
    }
    same(&rt, "+7", read_u64("+7"), Some(7));
}

// The sequence that a message tells, or what is printed of the refusal.
fn place_of(alloc: Global, message: &Message) -> Result<String, OutOfMemory> {
    match message.info() {
        Ok(info) => {
            let sequence = info.stream_sequence;
            Ok(format!(in alloc; "{sequence}")?)
        }
        Err(error) => printed(alloc, error),
    }
}

fn place(alloc: Global, reply: Option<&str>) -> Result<String, OutOfMemory> {
    let message = delivered(alloc, reply)?;
    let place = place_of(alloc, &message);
    drop(message);
    place
}

/// A reply subject, and the sequence that its message tells, or why it tells none.
const PLACES: &[(Option<&str>, &str)] = &[
    (Some(REPLY), "4"),
    (None, "no reply subject"),
    (
        Some("a"),
        "no acknowledgement subject: the subject does not begin with $JS.ACK.",
    ),
];

// Whether that acknowledges to the reply subject.
fn acks_reply(alloc: Global, acker: &Acker) -> Result<bool, OutOfMemory> {
    let reply = reply_of(alloc, Some(REPLY))?;
    Ok(*acker == Acker::new(WAIT, reply))
}

// Whether a message is split into one without its reply subject and what acknowledges to that.
fn is_split(alloc: Global) -> Result<bool, OutOfMemory> {
    let (message, acker) = delivered(alloc, Some(REPLY))?.split();
    let has_reply = message.reply.is_some();
    drop(message);
    let acks = acks_reply(alloc, &acker);
    drop(acker);
    Ok(acks? && !has_reply)
}

#[test]
fn a_message_tells_its_place(rt: HostRuntime) {
    for &(reply, wanted) in PLACES {
        says(&rt, wanted, place(rt.alloc(), reply), wanted);
    }
    same(&rt, "split", is_split(rt.alloc()), Ok(true));
}

/// What a consumer says, and the body that says so.
const BODIES: &[(AckKind, &str)] = &[
    (AckKind::Ack, "+ACK"),
    (AckKind::Nak(None), "-NAK"),
    (
        AckKind::Nak(Some(1_000_000_000)),
        "-NAK {\"delay\":1000000000}",
    ),
    (AckKind::Progress, "+WPI"),
    (AckKind::Next, "+NXT"),
    (AckKind::Term, "+TERM"),
];

/// A setter, and its value.
#[derive(Clone, Copy)]
enum Setter {
    Id(&'static str),
    LastId(&'static str),
    LastSequence(u64),
    LastSubjectSequence(u64),
    Stream(&'static str),
    Ttl(u64),
    Header(&'static str, &'static str),
}

fn set(
    alloc: Global,
    message: PublishMessage,
    setter: Setter,
) -> Result<PublishMessage, OutOfMemory> {
    match setter {
        Setter::Id(id) => message.message_id(alloc, id),
        Setter::LastId(id) => message.expected_last_message_id(alloc, id),
        Setter::LastSequence(n) => message.expected_last_sequence(alloc, n),
        Setter::LastSubjectSequence(n) => message.expected_last_subject_sequence(alloc, n),
        Setter::Stream(name) => message.expected_stream(alloc, name),
        Setter::Ttl(ttl) => message.ttl(alloc, ttl),
        Setter::Header(name, value) => message.header(alloc, name, value),
    }
}

/// Setters that are called one after another.
const SETTERS: &[Setter] = &[
    Setter::Id("id"),
    Setter::LastId("before"),
    Setter::LastSequence(7),
    Setter::LastSubjectSequence(8),
    Setter::Stream("events"),
    Setter::Ttl(1_500_000_000),
    Setter::Header("A", "1"),
];

/// The headers that they set, one each.
const SET: &[(&str, &str)] = &[
    ("Nats-Msg-Id", "id"),
    ("Nats-Expected-Last-Msg-Id", "before"),
    ("Nats-Expected-Last-Sequence", "7"),
    ("Nats-Expected-Last-Subject-Sequence", "8"),
    ("Nats-Expected-Stream", "events"),
    ("Nats-TTL", "1"),
    ("A", "1"),
];

// A message whose name is set.
fn named(alloc: Global) -> Result<PublishMessage, OutOfMemory> {
    PublishMessage::build()
        .headers(HeaderMap::new(alloc))
        .payload(Bytes::from_static(b"a"))
        .message_id(alloc, "x")
}

// The same with all setters called.
fn with_all(alloc: Global) -> Result<PublishMessage, OutOfMemory> {
    let mut message = named(alloc)?;
    for &setter in SETTERS {
        message = set(alloc, message, setter)?;
    }
    Ok(message)
}

fn outbound(alloc: Global) -> Result<OutboundMessage, OutOfMemory> {
    with_all(alloc)?.outbound_message(alloc, "events.a")
}

fn has_all(message: &OutboundMessage) -> bool {
    match &message.headers {
        Some(headers) => headers.iter().eq(SET.iter().copied()),
        None => false,
    }
}

// The body of a kind.
fn body(alloc: Global, kind: AckKind) -> Result<String, OutOfMemory> {
    let body = kind.to_bytes(alloc)?;
    Ok(String::from_utf8_lossy(alloc, body.as_slice())?)
}

// Asserts what the message with all setters called is.
fn says_all(rt: &impl Abort, message: &OutboundMessage) {
    same(rt, "subject", message.subject.as_str(), "events.a");
    same(rt, "payload", message.payload.as_slice(), b"a".as_slice());
    same(rt, "headers", has_all(message), true);
}

#[test]
fn bodies_and_headers_are_those_of_the_protocol(rt: HostRuntime) {
    for &(kind, wanted) in BODIES {
        says(&rt, wanted, body(rt.alloc(), kind), wanted);
    }
    let message = outbound(rt.alloc()).expect(&rt, "a message");
    says_all(&rt, &message);
    drop(message);
}

/// What a message with some headers is read as: its sequence, its time in nanoseconds and its subject, or what is printed of the
/// refusal, which names the header. Of equal names the last counts.
const STORED: &[(Headers, &str)] = &[
    (
        &[
            ("Nats-Sequence", "x"),
            ("Nats-Sequence", "7"),
            ("Nats-Time-Stamp", "2026-01-01T00:00:00Z"),
            ("Nats-Subject", "events"),
        ],
        "7 1767225600000000000 events",
    ),
    (
        &[
            ("Nats-Sequence", "x"),
            ("Nats-Sequence", "y"),
            ("Nats-Time-Stamp", "2026-01-01T00:00:00Z"),
            ("Nats-Subject", "events"),
        ],
        "parse error: Nats-Sequence",
    ),
    (
        &[
            ("Nats-Sequence", "7"),
            ("Nats-Time-Stamp", "yesterday"),
            ("Nats-Subject", "events"),
        ],
        "parse error: Nats-Time-Stamp",
    ),
    (
        &[
            ("Nats-Sequence", "7"),
            ("Nats-Time-Stamp", "2026-01-01T00:00:00Z"),
        ],
        "missing message header: Nats-Subject",
    ),
    (
        &[("Nats-Subject", "events"), ("Nats-Sequence", "7")],
        "missing message header: Nats-Time-Stamp",
    ),
    (&[], "missing message header: Nats-Sequence"),
];

fn headers_of(alloc: Global, pairs: Headers) -> Result<Option<HeaderMap>, OutOfMemory> {
    if pairs.is_empty() {
        return Ok(None);
    }
    Ok(Some(header_map(alloc, pairs)?))
}

fn read_word(alloc: Global, read: &StreamMessage) -> Result<String, OutOfMemory> {
    let sequence = read.sequence;
    let time = read.time.as_nanosecond();
    let subject = read.subject.as_str();
    Ok(format!(in alloc; "{sequence} {time} {subject}")?)
}

fn stored(alloc: Global, pairs: Headers) -> Result<String, OutOfMemory> {
    let message = received(alloc, "a", None, headers_of(alloc, pairs)?)?;
    match StreamMessage::try_from_message(alloc, message) {
        Ok(read) => {
            let word = read_word(alloc, &read);
            drop(read);
            word
        }
        Err(error) => printed(alloc, error),
    }
}

#[test]
fn headers_tell_how_a_message_is_stored(rt: HostRuntime) {
    for &(pairs, wanted) in STORED {
        says(&rt, wanted, stored(rt.alloc(), pairs), wanted);
    }
    let memory = printed(rt.alloc(), StreamMessageErrorKind::OutOfMemory);
    says(&rt, "memory", memory, "out of memory");
}
