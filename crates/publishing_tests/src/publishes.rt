//! A context that publishes.

use bytes::Bytes;
use calls_tests::{Reply, Words, message, printed, word};
use js_base::{HeaderMap, Message, OutOfMemory, Turn};
use js_context::{Context, ContextBuilder, Sending};
use js_link::Link;
use js_message::{OutboundMessage, PublishMessage};
use std::alloc::Global;
use std::fmt::Display;
use std::sync::Wait;

pub(crate) const SECOND: u64 = 1_000_000_000;

pub(crate) const STORED: Reply = (None, r#"{"stream":"TEST","seq":1}"#);

// What was made, or want of memory in place of why it was not.
fn unless_refused<T: Drop, E: Drop>(made: Result<T, E>) -> Result<T, OutOfMemory> {
    match made {
        Ok(made) => Ok(made),
        Err(_) => Err(OutOfMemory),
    }
}

/// A context with so many permits.
pub(crate) fn opened<R: Wait>(
    rt: &R,
    alloc: Global,
    capacity: u64,
    backpressure: bool,
) -> Result<Context, OutOfMemory> {
    let builder = ContextBuilder::new(alloc)?
        .max_ack_inflight(capacity)
        .backpressure_on_inflight(backpressure);
    unless_refused(builder.build(rt, alloc))
}

/// A context with three permits whose `reap` looks at so many acks.
pub(crate) fn opened_limited<R: Wait>(
    rt: &R,
    alloc: Global,
    limit: Option<u64>,
) -> Result<Context, OutOfMemory> {
    let builder = ContextBuilder::new(alloc)?
        .max_ack_inflight(3)
        .concurrency_limit(limit);
    unless_refused(builder.build(rt, alloc))
}

// Why it was not sent.
fn refused<E: Display + Drop>(alloc: Global, error: E) -> Words {
    printed(alloc, &error)
}

// That, where what was to be sent is let go.
fn left<T: Drop>(_sending: T, told: Words) -> Words {
    told
}

// Polls a publish once, and detaches its ack where it was sent.
fn polled<R: Wait, L: Link>(
    rt: &R,
    alloc: Global,
    context: &mut Context,
    link: &mut L,
    sending: Sending,
) -> Words {
    match sending.poll(rt, alloc, context, link, 0) {
        Turn::Ready(Ok(future)) => {
            future.detach(context);
            word(alloc, "sent")
        }
        Turn::Ready(Err(error)) => refused(alloc, error),
        Turn::Pending(sending) => left(sending, word(alloc, "waits")),
        Turn::OutOfMemory(sending) => left(sending, Err(OutOfMemory)),
    }
}

/// Publishes to a subject.
pub(crate) fn published<R: Wait, L: Link>(
    rt: &R,
    alloc: Global,
    context: &mut Context,
    link: &mut L,
    subject: &str,
) -> Words {
    let sending = context.publish(alloc, subject, Bytes::from_static(b"a"))?;
    polled(rt, alloc, context, link, sending)
}

// Publishes once. Whether that waits.
fn waits<R: Wait, L: Link>(
    rt: &R,
    alloc: Global,
    context: &mut Context,
    link: &mut L,
) -> Result<bool, OutOfMemory> {
    let word = published(rt, alloc, context, link, "a")?;
    Ok(word.as_str() == "waits")
}

/// Publishes so often, and tells whether all of them wait.
pub(crate) fn published_often<R: Wait, L: Link>(
    rt: &R,
    alloc: Global,
    context: &mut Context,
    link: &mut L,
    times: u64,
) -> Words {
    for _ in 0..times {
        if !waits(rt, alloc, context, link)? {
            return word(alloc, "one does not wait");
        }
    }
    word(alloc, "all wait")
}

fn headers(alloc: Global) -> Result<HeaderMap, OutOfMemory> {
    let mut headers = HeaderMap::new(alloc);
    headers.insert(alloc, "Key", "Value")?;
    Ok(headers)
}

// A message to `events.new` with one header of 24 bytes, and a payload so long.
fn sized(alloc: Global, len: usize) -> Result<OutboundMessage, OutOfMemory> {
    let payload = Bytes::from_vec(vec![in alloc; b'x'; len]?)?;
    let sized = PublishMessage::build()
        .payload(payload)
        .header(alloc, "Key", "Value")?;
    sized.outbound_message(alloc, "events.new")
}

fn named(alloc: Global) -> Result<PublishMessage, OutOfMemory> {
    PublishMessage::build().message_id(alloc, "b")
}

/// Publishes a message of that size, which has its subject.
pub(crate) fn published_sized<R: Wait, L: Link>(
    rt: &R,
    alloc: Global,
    context: &mut Context,
    link: &mut L,
    len: usize,
) -> Words {
    let message = sized(alloc, len)?;
    let sending = context.publish_message(message)?;
    polled(rt, alloc, context, link, sending)
}

pub(crate) fn published_with_headers<R: Wait, L: Link>(
    rt: &R,
    alloc: Global,
    context: &mut Context,
    link: &mut L,
) -> Words {
    let headers = headers(alloc)?;
    let sending = context.publish_with_headers(alloc, "a", headers, Bytes::new())?;
    polled(rt, alloc, context, link, sending)
}

/// Publishes a message with a name to a subject.
pub(crate) fn published_named<R: Wait, L: Link>(
    rt: &R,
    alloc: Global,
    context: &mut Context,
    link: &mut L,
) -> Words {
    let message = named(alloc)?;
    let sending = context.send_publish(alloc, "b", message)?;
    polled(rt, alloc, context, link, sending)
}

pub(crate) fn number(alloc: Global, number: u64) -> Words {
    Ok(format!(in alloc; "{number}")?)
}

pub(crate) fn answer_of(
    alloc: Global,
    reply: Option<Reply>,
) -> Result<Option<Message>, OutOfMemory> {
    match reply {
        None => Ok(None),
        Some(reply) => Ok(Some(message(alloc, reply)?)),
    }
}
