//! Where the calls of a context go.

use crate::context_calls::{Call, empty, first_poll};
use crate::server::{Asked, Words, asked_word, found_word, is_request};
use crate::tables::{same, says};
use bytes::Bytes;
use js_base::{OutOfMemory, Subject};
use js_call::SendError;
use js_context::{ClientProvider, Context, Publisher, RequestSender, TimeoutProvider};
use js_link::{Link, MemoryLink, Sent};
use js_message::OutboundMessage;
use std::alloc::Global;
use std::sync::Wait;

const EVENTS: &str = r#"{"discard":"old","name":"events","retention":"limits","storage":"file"}"#;

const CREATE: &str =
    r#"{"action":"","config":{"ack_policy":"explicit","deliver_policy":"all","replay_policy":"instant"},"stream_name":"events"}"#;

const CREATE_STRICT: &str =
    r#"{"action":"create","config":{"ack_policy":"explicit","deliver_policy":"all","replay_policy":"instant"},"stream_name":"events"}"#;

const UPDATE: &str =
    r#"{"action":"update","config":{"ack_policy":"explicit","deliver_policy":"all","replay_policy":"instant"},"stream_name":"events"}"#;

/// Calls of a context of the domain `hub`, and the requests that they send.
const CALLS: &[(Call, &str, &str)] = &[
    (Call::Request, "$JS.hub.API.INFO", "null"),
    (Call::GetStream, "$JS.hub.API.STREAM.INFO.events", "null"),
    (Call::DeleteStream, "$JS.hub.API.STREAM.DELETE.events", "{}"),
    (
        Call::CreateStream,
        "$JS.hub.API.STREAM.CREATE.events",
        EVENTS,
    ),
    (
        Call::GetOrCreateStream,
        "$JS.hub.API.STREAM.INFO.events",
        "null",
    ),
    (
        Call::CreateOrUpdateStream,
        "$JS.hub.API.STREAM.UPDATE.events",
        EVENTS,
    ),
    (
        Call::UpdateStreamKeeping,
        "$JS.hub.API.STREAM.UPDATE.events",
        EVENTS,
    ),
    (
        Call::UpdateStream,
        "$JS.hub.API.STREAM.UPDATE.events",
        EVENTS,
    ),
    (
        Call::CreateConsumer,
        "$JS.hub.API.CONSUMER.CREATE.events",
        CREATE,
    ),
    (
        Call::CreateConsumerStrict,
        "$JS.hub.API.CONSUMER.CREATE.events",
        CREATE_STRICT,
    ),
    (
        Call::UpdateConsumer,
        "$JS.hub.API.CONSUMER.CREATE.events",
        UPDATE,
    ),
    (
        Call::GetConsumer,
        "$JS.hub.API.CONSUMER.INFO.events.c1",
        "{}",
    ),
    (
        Call::DeleteConsumer,
        "$JS.hub.API.CONSUMER.DELETE.events.c1",
        "{}",
    ),
    (
        Call::StreamBySubject,
        "$JS.hub.API.STREAM.NAMES",
        r#"{"offset":0,"subject":"a.b"}"#,
    ),
    (
        Call::StreamNames,
        "$JS.hub.API.STREAM.NAMES",
        r#"{"offset":0,"subject":null}"#,
    ),
    (Call::Streams, "$JS.hub.API.STREAM.LIST", r#"{"offset":0}"#),
    (Call::RawRequest, "b", ""),
    (Call::Requester, "a", ""),
];

// Whether just that request was sent.
fn is_asked(sent: &[Sent], request: Asked) -> bool {
    match sent {
        [one] => is_request(one, request),
        _ => false,
    }
}

fn asked_over(
    alloc: Global,
    context: &Context,
    link: &mut MemoryLink,
    call: Call,
    request: Asked,
) -> Words {
    let text = first_poll(alloc, context, link, call)?;
    asked_word(alloc, text, is_asked(link.sent(), request))
}

fn asked_by(alloc: Global, context: &Context, call: Call, request: Asked) -> Words {
    let mut link = MemoryLink::new(alloc, "_INBOX.t")?;
    let words = asked_over(alloc, context, &mut link, call, request);
    drop(link);
    words
}

// What the first poll of a call comes to. Where it sends anything but that request, that is told too.
fn asked<R: Wait>(rt: &R, alloc: Global, call: Call, request: Asked) -> Words {
    let context = Context::with_domain(rt, alloc, "hub")?;
    let words = asked_by(alloc, &context, call, request);
    drop(context);
    words
}

#[test]
fn a_context_asks_under_its_prefix(rt: HostRuntime) {
    for &(call, subject, body) in CALLS {
        let found = asked(&rt, rt.alloc(), call, (subject, body));
        says(&rt, body, found, "pending");
    }
}

fn sends_as<C: RequestSender, L: Link>(
    context: &C,
    alloc: Global,
    link: &mut L,
) -> Result<(), SendError> {
    context.send_request(alloc, link, "c", empty())
}

// Whether the last message was published to that subject.
fn is_published(link: &MemoryLink, on: &str) -> bool {
    match link.sent().last() {
        Some(Sent::Publish { subject, .. }) => subject.as_str() == on,
        _ => false,
    }
}

// Whether a request that was sent is the last message, on that subject.
fn is_sent(sent: Result<(), SendError>, link: &MemoryLink, on: &str) -> bool {
    sent == Ok(()) && is_published(link, on)
}

// Whether a request that is not waited for goes under the prefix.
fn sends_plainly(alloc: Global, context: &Context, link: &mut MemoryLink) -> bool {
    let sent = context.send_request(alloc, link, "d", empty());
    is_sent(sent, link, "$JS.hub.API.d")
}

// Whether it does so by the trait.
fn sends_by_trait(alloc: Global, context: &Context, link: &mut MemoryLink) -> bool {
    let sent = sends_as(context, alloc, link);
    is_sent(sent, link, "$JS.hub.API.c")
}

fn both_send(alloc: Global, context: &Context, link: &mut MemoryLink) -> bool {
    sends_plainly(alloc, context, link) && sends_by_trait(alloc, context, link)
}

fn sends_by(alloc: Global, context: &Context) -> Result<bool, OutOfMemory> {
    let mut link = MemoryLink::new(alloc, "_INBOX.t")?;
    let sends = both_send(alloc, context, &mut link);
    drop(link);
    Ok(sends)
}

fn sends<R: Wait>(rt: &R, alloc: Global) -> Result<bool, OutOfMemory> {
    let context = Context::with_domain(rt, alloc, "hub")?;
    let sends = sends_by(alloc, &context);
    drop(context);
    sends
}

fn has_prefix<C: ClientProvider>(context: &C, prefix: &str) -> bool {
    context.client().prefix.as_str() == prefix
}

fn waits<C: TimeoutProvider>(context: &C, timeout: u64) -> bool {
    context.timeout() == timeout
}

fn publishes<C: Publisher>(context: &mut C, message: OutboundMessage) -> bool {
    context.publish_message(message).is_ok()
}

fn message(alloc: Global) -> Result<OutboundMessage, OutOfMemory> {
    let subject = Subject::new(alloc, "a")?;
    Ok(OutboundMessage::new(subject, Bytes::new(), None))
}

fn has_usual(context: &Context) -> bool {
    has_prefix(context, "$JS.API") && waits(context, 5_000_000_000)
}

fn provides_by(alloc: Global, context: &mut Context) -> Result<bool, OutOfMemory> {
    let publishes = publishes(context, message(alloc)?);
    Ok(publishes && has_usual(context))
}

// Whether a context is what its traits say.
fn provides<R: Wait>(rt: &R, alloc: Global) -> Result<bool, OutOfMemory> {
    let mut context = Context::new(rt, alloc)?;
    let provides = provides_by(alloc, &mut context);
    drop(context);
    provides
}

// The name and the prefix of the handle that is had without asking.
fn handle_by(alloc: Global, context: &Context) -> Words {
    found_word(alloc, context.get_stream_no_info(alloc, "events"))
}

fn handle<R: Wait>(rt: &R, alloc: Global) -> Words {
    let context = Context::with_domain(rt, alloc, "hub")?;
    let words = handle_by(alloc, &context);
    drop(context);
    words
}

#[test]
fn a_context_is_what_it_provides(rt: HostRuntime) {
    same(&rt, "sends", sends(&rt, rt.alloc()), Ok(true));
    same(&rt, "provides", provides(&rt, rt.alloc()), Ok(true));
    let found = handle(&rt, rt.alloc());
    says(&rt, "a handle", found, "events $JS.hub.API");
}
