//! Acks of published messages.

ghost use Rattle.std.specs.Prelude.{IfSome};
ghost use Rattle.js_context.specs.AckFuture.{IsAwaitedBy};
ghost use Rattle.js_context.specs.Context.{ContextView};

use crate::answers::{Answered, found_word};
use crate::publishes::{SECOND, STORED, answer_of, number, opened, published};
use crate::tables::{joined, says, settled_word};
use bytes::Bytes;
use calls_tests::{NOBODY, Reply, Words, message, word};
use js_base::{Message, Moment, Nanos, OutOfMemory, Turn};
use js_context::{Context, PublishAckFuture, Sending};
use js_json::PublishAck;
use js_link::{Link, MemoryLink, RequestId};
use std::alloc::Global;
use std::sync::Wait;

// Polls a publish once: its ack, where it was sent.
fn went<R: Wait, L: Link>(
    rt: &R,
    alloc: Global,
    context: &mut Context,
    link: &mut L,
    sending: Sending,
) -> Option<PublishAckFuture>
    ensures { IfSome result (λ future. IsAwaitedBy future context.new) }
{
    match sending.poll(rt, alloc, context, link, 0) {
        Turn::Ready(Ok(future)) => Some(future),
        Turn::Ready(Err(error)) => {
            drop(error);
            None
        }
        Turn::Pending(sending) | Turn::OutOfMemory(sending) => {
            drop(sending);
            None
        }
    }
}

// Publishes to `events.new`: its ack, where it was sent.
fn sent<R: Wait, L: Link>(
    rt: &R,
    alloc: Global,
    context: &mut Context,
    link: &mut L,
) -> Option<PublishAckFuture>
    ensures { IfSome result (λ future. IsAwaitedBy future context.new) }
{
    match context.publish(alloc, "events.new", Bytes::from_static(b"a")) {
        Ok(sending) => went(rt, alloc, context, link, sending),
        Err(OutOfMemory) => None,
    }
}

impl Answered for PublishAck {
    fn word(&self, alloc: Global) -> Words {
        number(alloc, self.sequence)
    }
}

// Detaches an ack that has no answer.
fn detached(alloc: Global, context: &mut Context, future: PublishAckFuture) -> Words
    requires { IsAwaitedBy future context.old }
{
    future.detach(context);
    word(alloc, "waits")
}

// Polls an ack once, and detaches it where it has no answer.
fn end_of<R: Wait, L: Link>(
    rt: &R,
    alloc: Global,
    context: &mut Context,
    link: &mut L,
    now: Moment,
    future: PublishAckFuture,
) -> Words
    requires { IsAwaitedBy future context.old }
{
    match future.poll(rt, alloc, context, link, now) {
        Turn::Ready(answer) => found_word(alloc, answer),
        Turn::Pending(future) => detached(alloc, context, future),
        Turn::OutOfMemory(future) => detached(alloc, context, future),
    }
}

// Polls an ack that has no answer yet.
fn still<R: Wait, L: Link>(
    rt: &R,
    alloc: Global,
    context: &mut Context,
    link: &mut L,
    now: Moment,
    future: PublishAckFuture,
) -> Option<PublishAckFuture>
    requires { IsAwaitedBy future context.old }
    ensures { IfSome result (λ next. IsAwaitedBy next context.new) }
{
    match future.poll(rt, alloc, context, link, now) {
        Turn::Pending(future) => Some(future),
        Turn::OutOfMemory(future) => {
            future.detach(context);
            None
        }
        Turn::Ready(answer) => {
            drop(answer);
            None
        }
    }
}

// What an ack comes to whose message is answered so.
fn ended<R: Wait>(
    rt: &R,
    alloc: Global,
    context: &mut Context,
    link: &mut MemoryLink,
    answer: Option<Message>,
    future: PublishAckFuture,
) -> Words
    requires { IsAwaitedBy future context.old }
{
    let _ = link.respond(RequestId(1), answer);
    end_of(rt, alloc, context, link, 9, future)
}

fn answered_over<R: Wait>(
    rt: &R,
    alloc: Global,
    context: &mut Context,
    link: &mut MemoryLink,
    reply: Option<Reply>,
) -> Words {
    let answer = answer_of(alloc, reply)?;
    match sent(rt, alloc, context, link) {
        Some(future) => ended(rt, alloc, context, link, answer, future),
        None => {
            drop(answer);
            word(alloc, "unsent")
        }
    }
}

fn answered_by<R: Wait>(
    rt: &R,
    alloc: Global,
    context: &mut Context,
    reply: Option<Reply>,
) -> Words {
    let mut link = MemoryLink::new(alloc, "_INBOX.t")?;
    let text = answered_over(rt, alloc, context, &mut link, reply);
    drop(link);
    settled_word(alloc, text?, context.acks_settled(rt))
}

// What an ack comes to that is answered so. Where its permit is not free then, that is told too.
fn answered<R: Wait>(rt: &R, alloc: Global, reply: Option<Reply>) -> Words {
    let mut context = opened(rt, alloc, 1, true)?;
    let words = answered_by(rt, alloc, &mut context, reply);
    drop(context);
    words
}

/// What is answered, and what the ack then comes to.
const ANSWERS: &[(Option<Reply>, &str)] = &[
    (Some(STORED), "1"),
    (Some(NOBODY), "no stream found for given subject"),
    (
        Some((None, r#"{"error":{"code":400,"err_code":10070}}"#)),
        "wrong last message id: unknown (code 400, error code 10070)",
    ),
    (
        Some((None, r#"{"error":{"code":400,"err_code":10071}}"#)),
        "wrong last sequence: unknown (code 400, error code 10071)",
    ),
    (
        Some((None, r#"{"error":{"code":400,"err_code":10164}}"#)),
        "wrong last sequence: unknown (code 400, error code 10164)",
    ),
    (
        Some((None, r#"{"error":{"code":400,"err_code":10003}}"#)),
        "publish failed: unknown (code 400, error code 10003)",
    ),
    (
        Some((None, r#"{"seq":1}"#)),
        "publish failed: stream: missing",
    ),
    (None, "broken pipe"),
];

/// Publishes and polls the ack once, which is detached where it has no answer.
pub(crate) fn awaited<R: Wait, L: Link>(
    rt: &R,
    alloc: Global,
    context: &mut Context,
    link: &mut L,
    now: Moment,
) -> Words {
    match sent(rt, alloc, context, link) {
        Some(future) => end_of(rt, alloc, context, link, now, future),
        None => word(alloc, "unsent"),
    }
}

/// The moments at which an ack is polled.
type Moments = (Moment, Moment, Moment);

// What an ack without an answer comes to at the last of three moments, where it waits at the second. Before that one the
// context's timeout is set.
fn waits_on<R: Wait, L: Link>(
    rt: &R,
    alloc: Global,
    context: &mut Context,
    link: &mut L,
    moments: Moments,
    timeout: Nanos,
    future: PublishAckFuture,
) -> Words
    requires { IsAwaitedBy future context.old }
{
    context.set_timeout(timeout);
    match still(rt, alloc, context, link, moments.1, future) {
        Some(future) => end_of(rt, alloc, context, link, moments.2, future),
        None => word(alloc, "early"),
    }
}

// The same, where it waits at the first of them too.
fn waits_from<R: Wait, L: Link>(
    rt: &R,
    alloc: Global,
    context: &mut Context,
    link: &mut L,
    moments: Moments,
    timeout: Nanos,
    future: PublishAckFuture,
) -> Words
    requires { IsAwaitedBy future context.old }
{
    match still(rt, alloc, context, link, moments.0, future) {
        Some(future) => waits_on(rt, alloc, context, link, moments, timeout, future),
        None => word(alloc, "early"),
    }
}

// What an ack without an answer comes to at the last of three moments, where it waits at those before. After the first of them
// the context's timeout is set.
fn waits<R: Wait, L: Link>(
    rt: &R,
    alloc: Global,
    context: &mut Context,
    link: &mut L,
    moments: Moments,
    timeout: Nanos,
) -> Words {
    match sent(rt, alloc, context, link) {
        Some(future) => waits_from(rt, alloc, context, link, moments, timeout, future),
        None => word(alloc, "early"),
    }
}

// What two acks after one another come to.
fn both_wait<R: Wait, L: Link>(
    rt: &R,
    alloc: Global,
    context: &mut Context,
    link: &mut L,
    timeout: Nanos,
    moments: (Moments, Moments),
) -> Words {
    let early = waits(rt, alloc, context, link, moments.0, timeout);
    let late = waits(rt, alloc, context, link, moments.1, timeout);
    joined(alloc, early, late)
}

fn unanswered_by<R: Wait>(
    rt: &R,
    alloc: Global,
    context: &mut Context,
    timeout: Nanos,
    moments: (Moments, Moments),
) -> Words {
    let mut link = MemoryLink::new(alloc, "_INBOX.t")?;
    let text = both_wait(rt, alloc, context, &mut link, timeout, moments);
    drop(link);
    settled_word(alloc, text?, context.acks_settled(rt))
}

fn unanswered<R: Wait>(
    rt: &R,
    alloc: Global,
    timeout: Nanos,
    moments: (Moments, Moments),
) -> Words {
    let mut context = opened(rt, alloc, 1, true)?;
    let words = unanswered_by(rt, alloc, &mut context, timeout, moments);
    drop(context);
    words
}

const BOTH_LATE: &str =
    "timed out: didn't receive ack in time, timed out: didn't receive ack in time";

/// A timeout that is set after the first poll of the first ack, and the moments at which two acks are polled: they are out of time
/// at the last of them. The clock begins at an ack's first poll, and its wait is the timeout at that poll.
const WAITS: &[(Nanos, Moments, Moments)] = &[
    (
        5 * SECOND,
        (7 * SECOND, 12 * SECOND - 1, 12 * SECOND),
        (20 * SECOND, 25 * SECOND - 1, 25 * SECOND),
    ),
    (
        2,
        (7 * SECOND, 12 * SECOND - 1, 12 * SECOND),
        (20 * SECOND, 20 * SECOND + 1, 20 * SECOND + 2),
    ),
];

#[test]
fn acks_are_answered(rt: HostRuntime) {
    for &(reply, wanted) in ANSWERS {
        says(&rt, wanted, answered(&rt, rt.alloc(), reply), wanted);
    }
}

#[test]
fn acks_are_out_of_time(rt: HostRuntime) {
    for &(timeout, first, second) in WAITS {
        let found = unanswered(&rt, rt.alloc(), timeout, (first, second));
        says(&rt, "acks", found, BOTH_LATE);
    }
}

// What the second context's publish comes to, and then the first request is answered.
fn meanwhile<R: Wait>(rt: &R, alloc: Global, second: &mut Context, link: &mut MemoryLink) -> Words {
    let early = published(rt, alloc, second, link, "events.new")?;
    link.respond(RequestId(1), Some(message(alloc, STORED)?))?;
    Ok(early)
}

// What a second context's publish comes to while the first one's ack waits, and that ack at its answer.
fn while_waiting<R: Wait>(
    rt: &R,
    alloc: Global,
    first: &mut Context,
    second: &mut Context,
    link: &mut MemoryLink,
    future: PublishAckFuture,
) -> Words
    requires { IsAwaitedBy future first.old }
{
    let early = meanwhile(rt, alloc, second, link);
    let end = end_of(rt, alloc, first, link, 1, future);
    joined(alloc, early, end)
}

// The same, where the first context's message is sent before.
fn after_sending<R: Wait>(
    rt: &R,
    alloc: Global,
    first: &mut Context,
    second: &mut Context,
    link: &mut MemoryLink,
) -> Words {
    match sent(rt, alloc, first, link) {
        Some(future) => while_waiting(rt, alloc, first, second, link, future),
        None => word(alloc, "unsent"),
    }
}

// The same, and what the second one's publish comes to afterwards.
fn turns_of<R: Wait>(rt: &R, alloc: Global, first: &mut Context, second: &mut Context) -> Words {
    let mut link = MemoryLink::new(alloc, "_INBOX.t")?;
    let early = after_sending(rt, alloc, first, second, &mut link);
    let late = published(rt, alloc, second, &mut link, "events.new");
    drop(link);
    joined(alloc, early, late)
}

fn turns_with<R: Wait>(rt: &R, alloc: Global, first: &mut Context) -> Words {
    let mut second = first.split(rt, alloc)?;
    let words = turns_of(rt, alloc, first, &mut second);
    drop(second);
    words
}

fn turns<R: Wait>(rt: &R, alloc: Global) -> Words {
    let mut first = opened(rt, alloc, 1, false)?;
    let words = turns_with(rt, alloc, &mut first);
    drop(first);
    words
}

#[test]
fn two_contexts_share_one_permit(rt: HostRuntime) {
    let found = turns(&rt, rt.alloc());
    says(&rt, "turns", found, "max ack pending reached, 1, sent");
}
