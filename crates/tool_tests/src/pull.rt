//! What the calls of a pull reader, and those of the stream over it, do that take memory, with enough of it.

use crate::tables::same;
use bytes::Bytes;
use js_base::{HeaderMap, Message, Moment, OutOfMemory, StatusCode, Subject, Text, all_4, both};
use js_json::consumer::Info;
use js_json::pull::BatchConfig;
use js_json::{Response, response_as};
use js_json_members::ReadError;
use js_link::{InboxId, MemoryLink};
use js_pull::{
    Advance, Consumer, PullSource, Reader, Resilience, Stream, clamp_batch, clamp_expires,
    clamp_heartbeat, info_of_reply, ordered_batch_config,
};
use std::alloc::Global;
use std::process::Abort;

const INFO: &str =
    "{\"stream_name\":\"events\",\"name\":\"c1\",\"created\":\"2026-01-01T00:00:00Z\",\"config\":{\"deliver_policy\":\"all\",\"max_batch\":7},\"delivered\":{\"consumer_seq\":0,\"stream_seq\":0},\"ack_floor\":{\"consumer_seq\":0,\"stream_seq\":0},\"num_ack_pending\":0,\"num_redelivered\":0,\"num_waiting\":3,\"num_pending\":0}";

fn info(alloc: Global) -> Result<Info, ReadError> {
    match response_as::<Info>(alloc, INFO.as_bytes())? {
        Response::Ok(info) => Ok(info),
        Response::Err { .. } => Err(ReadError::NotJson),
    }
}

// What is read of an info. What is generic over it does not open how so large a value is let go.
trait Informed: Drop {
    type Fact: Drop;

    fn fact(&self) -> Self::Fact;
}

// What its consumer's readers ask for.
impl Informed for Info {
    type Fact = BatchConfig;

    fn fact(&self) -> BatchConfig {
        ordered_batch_config(self)
    }
}

// How many requests wait, where there is one.
impl Informed for Option<Info> {
    type Fact = Option<u64>;

    fn fact(&self) -> Option<u64> {
        match self {
            Some(info) => Some(info.num_waiting),
            None => None,
        }
    }
}

fn fact_of<I: Informed, E: Drop>(info: Result<I, E>) -> Result<I::Fact, E> {
    match info {
        Ok(info) => Ok(info.fact()),
        Err(error) => Err(error),
    }
}

fn source(
    api: Text,
    stream: Text,
    name: Text,
    subject: Subject,
    config: BatchConfig,
) -> PullSource {
    PullSource {
        api,
        stream,
        name,
        inbox: 0,
        subject,
        info_timeout: None,
        config,
        pinned: true,
        resilience: Resilience::none(),
    }
}

// A reader of a consumer that caps its batches at 7 messages.
fn reader(alloc: Global) -> Result<Reader, ReadError> {
    let named = all_4(
        Text::from_str(alloc, "$JS.API"),
        Text::from_str(alloc, "events"),
        Text::from_str(alloc, "c1"),
        Subject::new(alloc, "_INBOX.t.0"),
    )?;
    let ((api, stream, name, subject), config) = both(Ok(named), fact_of(info(alloc)))?;
    Ok(Reader::new(source(api, stream, name, subject, config)))
}

// Asserts that a request is made on this subject.
fn says_subject(rt: &impl Abort, found: Result<Subject, OutOfMemory>, wanted: &str) {
    let found = found.expect(rt, wanted);
    same(rt, wanted, found.as_str(), wanted);
}

// Asserts that it has this body.
fn says_body(rt: &impl Abort, found: Result<Bytes, OutOfMemory>, wanted: &str) {
    let found = found.expect(rt, wanted);
    same(rt, wanted, found.as_slice(), wanted.as_bytes());
}

const PULL: &str = "$JS.API.CONSUMER.MSG.NEXT.events.c1";

const INQUIRY: &str = "$JS.API.CONSUMER.INFO.events.c1";

const BODY: &str =
    "{\"batch\":7,\"expires\":30000000000,\"group\":null,\"idle_heartbeat\":15000000000,\"max_bytes\":0,\"min_ack_pending\":null,\"min_pending\":null,\"priority\":null}";

#[test]
fn requests_are_made(rt: HostRuntime) {
    let reader = reader(rt.alloc()).expect(&rt, "memory");
    says_subject(&rt, reader.source.pull_subject(rt.alloc()), PULL);
    says_subject(&rt, reader.source.info_subject(rt.alloc()), INQUIRY);
    says_body(&rt, reader.pull_body(rt.alloc()), BODY);
    drop(reader);
}

// What is asked for, the consumer's limit, and what is left of it.
const BATCHES: &[(u64, i64, u64)] = &[(200, 100, 100), (200, -1, 200)];

// Nanoseconds that are asked for, the limit, and what is left of them: expiries by the consumer's limit.
const EXPIRIES: &[(u64, u64, u64)] = &[(30, 5, 5), (30, 120, 30), (30, 0, 30)];

// The same of heartbeats, by the expiry.
const HEARTBEATS: &[(u64, u64, u64)] = &[(10_000_000_000, 5_000_000_000, 2_500_000_000)];

#[test]
fn limits_are_kept(rt: HostRuntime) {
    for &(batch, limit, wanted) in BATCHES {
        same(&rt, "batch", clamp_batch(batch, limit), wanted);
    }
    for &(expires, limit, wanted) in EXPIRIES {
        same(&rt, "expiry", clamp_expires(expires, limit), wanted);
    }
    for &(heartbeat, expires, wanted) in HEARTBEATS {
        same(
            &rt,
            "heartbeat",
            clamp_heartbeat(heartbeat, expires),
            wanted,
        );
    }
}

fn message(
    alloc: Global,
    payload: &str,
    status: Option<StatusCode>,
    headers: Option<HeaderMap>,
) -> Result<Message, OutOfMemory> {
    let subject = Subject::new(alloc, "_INBOX.t.0")?;
    let bytes = Bytes::copy_from_slice(alloc, payload.as_bytes())?;
    Ok(Message {
        subject,
        reply: None,
        payload: bytes,
        headers,
        status,
        description: None,
        length: payload.len() as u64,
    })
}

fn waiting_of(alloc: Global, reply: &Message) -> Result<Option<u64>, OutOfMemory> {
    fact_of(info_of_reply(alloc, Some(reply)))
}

fn waiting(
    alloc: Global,
    payload: &str,
    status: Option<StatusCode>,
) -> Result<Option<u64>, OutOfMemory> {
    let reply = message(alloc, payload, status, None)?;
    let waiting = waiting_of(alloc, &reply);
    drop(reply);
    waiting
}

// Answers, with the status of each, and how many requests wait where it holds an info.
const ANSWERS: &[(&str, Option<StatusCode>, Option<u64>)] = &[
    (INFO, None, Some(3)),
    (INFO, Some(StatusCode::NO_RESPONDERS), None),
    ("{}", None, None),
];

#[test]
fn an_answer_may_hold_an_info(rt: HostRuntime) {
    for &(payload, status, wanted) in ANSWERS {
        same(
            &rt,
            payload,
            waiting(rt.alloc(), payload, status),
            Ok(wanted),
        );
    }
}

fn headers(alloc: Global) -> Result<HeaderMap, OutOfMemory> {
    let mut headers = HeaderMap::new(alloc);
    headers.insert(alloc, "Nats-Pin-Id", "p1")?;
    Ok(headers)
}

// An arrival that names a pin.
fn pinned(alloc: Global) -> Result<Message, OutOfMemory> {
    message(alloc, "a", None, Some(headers(alloc)?))
}

fn note(alloc: Global, reader: &mut Reader) -> Result<(), OutOfMemory> {
    let arrival = pinned(alloc)?;
    let noted = reader.note_pin(alloc, &arrival);
    drop(arrival);
    noted
}

const PINNED_BODY: &str =
    "{\"batch\":7,\"expires\":30000000000,\"group\":null,\"id\":\"p1\",\"idle_heartbeat\":15000000000,\"max_bytes\":0,\"min_ack_pending\":null,\"min_pending\":null,\"priority\":null}";

#[test]
fn an_arrival_may_name_a_pin(rt: HostRuntime) {
    let mut reader = reader(rt.alloc()).expect(&rt, "memory");
    same(&rt, "noted", note(rt.alloc(), &mut reader), Ok(()));
    says_body(&rt, reader.pull_body(rt.alloc()), PINNED_BODY);
    drop(reader);
}

// A stream of the messages of that consumer, which reads the first inbox of the link.
fn opened(alloc: Global, link: &mut MemoryLink) -> Result<Stream, ReadError> {
    let config = fact_of(info(alloc))?;
    let asked = Consumer {
        api: "$JS.API",
        stream: "events",
        name: "c1",
        info_timeout: None,
    };
    match Stream::open(alloc, link, &asked, config, false) {
        Ok(stream) => Ok(stream),
        Err(_) => Err(ReadError::OutOfMemory),
    }
}

// Delivers a message of this payload, where there is one.
fn bring(alloc: Global, link: &mut MemoryLink, payload: Option<&str>) -> Result<(), OutOfMemory> {
    match payload {
        Some(payload) => link.deliver(InboxId(0), message(alloc, payload, None, None)?),
        None => Ok(()),
    }
}

fn part_word(part: &Advance) -> &'static str {
    match part {
        Advance::Item(_) => "item",
        Advance::Message(_) => "message",
        Advance::Closed => "closed",
        Advance::Done => "done",
        Advance::OutOfMemory => "out of memory",
    }
}

// What the next part of an event comes to, before which this was delivered.
fn advanced(
    alloc: Global,
    stream: &mut Stream,
    link: &mut MemoryLink,
    now: Moment,
    payload: Option<&str>,
) -> Result<&'static str, OutOfMemory> {
    bring(alloc, link, payload)?;
    let part = stream.advance(alloc, link, now, None);
    let word = part_word(&part);
    drop(part);
    Ok(word)
}

// The moment of a part of an event, what is delivered before, and what the part comes to: the first one is the opening.
const PARTS: &[(Moment, Option<&str>, &str)] = &[
    (0, None, "done"),
    (1, Some("a"), "message"),
    (1, None, "done"),
];

fn says_parts(rt: &impl Abort, alloc: Global, stream: &mut Stream, link: &mut MemoryLink) {
    for &(now, payload, wanted) in PARTS {
        let found = advanced(alloc, stream, link, now, payload);
        same(rt, wanted, found, Ok(wanted));
    }
}

#[test]
fn a_stream_goes_on_part_by_part(rt: HostRuntime) {
    let mut link = MemoryLink::new(rt.alloc(), "_INBOX.t").expect(&rt, "memory");
    let mut stream = opened(rt.alloc(), &mut link).expect(&rt, "memory");
    says_parts(&rt, rt.alloc(), &mut stream, &mut link);
    drop(stream);
    drop(link);
}
