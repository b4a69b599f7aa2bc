//! Requests of the API.

use crate::server::{Reply, Words, ended, message, polled, scope, still, waited, word};
use crate::tables::{paired, same, says};
use bytes::Bytes;
use js_base::{Message, Nanos, OutOfMemory, Subject, both};
use js_call::{ApiRequest, ApiScope, RawCall, RawRequest, SendError};
use js_link::{Link, MemoryLink, RequestId, Sent};
use serde_json::Value;
use std::alloc::Global;
use std::process::Abort;

// A request with no body of its own.
fn empty_request(timeout: Option<Option<Nanos>>) -> RawRequest {
    RawRequest {
        payload: None,
        headers: None,
        timeout,
        inbox: None,
    }
}

fn request(alloc: Global, scope: &ApiScope) -> Result<ApiRequest, OutOfMemory> {
    scope.request(alloc, "INFO", &Value::Null)
}

// A subject and a body.
fn sent_word(alloc: Global, subject: &Subject, payload: &Bytes) -> Words {
    let body = String::from_utf8_lossy(alloc, payload.as_slice())?;
    paired(alloc, subject.as_str(), body.as_str())
}

// The subject and the body of the last message, or of the last request.
fn last(alloc: Global, link: &MemoryLink) -> Words {
    match link.sent().last() {
        Some(
            Sent::Request {
                subject,
                payload,
                ..
            },
        ) => sent_word(alloc, subject, payload),
        Some(
            Sent::Publish {
                subject,
                payload,
                ..
            },
        ) => sent_word(alloc, subject, payload),
        _ => word(alloc, ""),
    }
}

/// A reply that comes when the request's time is over, and what the request comes to.
const REPLIES: &[(Reply, &str)] = &[
    ((None, "[1, true]"), "[1,true]"),
    (
        crate::server::NOBODY,
        "requested JetStream resource does not exist",
    ),
    (crate::server::GARBLED, "request failed: not JSON"),
];

// What a request comes to that is sent and then replied to.
fn replied_by(alloc: Global, link: &mut MemoryLink, call: ApiRequest, reply: Message) -> Words {
    let call = still(alloc, link, call, 0);
    let _ = link.respond(RequestId(1), Some(reply));
    ended(alloc, link, call, 20_000_000_000)
}

fn replied_over(alloc: Global, link: &mut MemoryLink, scope: &ApiScope, reply: Reply) -> Words {
    let (reply, call) = both(message(alloc, reply), request(alloc, scope))?;
    replied_by(alloc, link, call, reply)
}

fn replied_in(alloc: Global, scope: &ApiScope, reply: Reply) -> Words {
    let mut link = MemoryLink::new(alloc, "_INBOX.t")?;
    let words = replied_over(alloc, &mut link, scope, reply);
    drop(link);
    words
}

fn replied(alloc: Global, reply: Reply) -> Words {
    let scope = scope(alloc, "$JS.API", None)?;
    replied_in(alloc, &scope, reply)
}

// What a request comes to that is sent at 1000, has 200 nanoseconds, and has no reply.
fn unanswered_over<L: Link>(alloc: Global, link: &mut L, scope: &ApiScope) -> Words {
    let call = request(alloc, scope)?;
    waited(alloc, link, call, [1_000, 1_199, 1_200])
}

fn unanswered_in(alloc: Global, scope: &ApiScope) -> Words {
    let mut link = MemoryLink::new(alloc, "_INBOX.t")?;
    let words = unanswered_over(alloc, &mut link, scope);
    drop(link);
    words
}

fn unanswered(alloc: Global) -> Words {
    let scope = scope(alloc, "$JS.API", Some(200))?;
    unanswered_in(alloc, &scope)
}

#[test]
fn requests_have_their_replies(rt: HostRuntime) {
    for &(reply, wanted) in REPLIES {
        says(&rt, wanted, replied(rt.alloc(), reply), wanted);
    }
    says(&rt, "unanswered", unanswered(rt.alloc()), "timed out");
}

/// A request at a link that sends three bytes at most.
#[derive(Clone, Copy)]
enum Asked {
    /// With the body `null`.
    Value,
    /// With no body, on that subject, with that timeout.
    Raw(&'static str, Option<Option<Nanos>>),
    /// A call on that subject with the body `null`, which has no time.
    Call(&'static str),
    /// The same at its second poll.
    CallAgain(&'static str),
}

fn call(alloc: Global, scope: &ApiScope, subject: &str) -> Result<RawCall, OutOfMemory> {
    scope.call(alloc, subject, &Value::Null)
}

// What the first poll of the call comes to.
fn polled_raw<L: Link>(alloc: Global, link: &mut L, call: Result<RawCall, OutOfMemory>) -> Words {
    polled(alloc, link, call)
}

fn requested<L: Link>(alloc: Global, link: &mut L, scope: &ApiScope) -> Words {
    polled(alloc, link, request(alloc, scope))
}

fn requested_raw<L: Link>(
    alloc: Global,
    link: &mut L,
    scope: &ApiScope,
    subject: &str,
    timeout: Option<Option<Nanos>>,
) -> Words {
    let call = scope.raw_request(alloc, subject, empty_request(timeout));
    polled_raw(alloc, link, call)
}

fn called<L: Link>(alloc: Global, link: &mut L, scope: &ApiScope, subject: &str) -> Words {
    polled_raw(alloc, link, call(alloc, scope, subject))
}

fn called_again<L: Link>(alloc: Global, link: &mut L, scope: &ApiScope, subject: &str) -> Words {
    let first = call(alloc, scope, subject)?;
    let second = still(alloc, link, first, 0);
    ended(alloc, link, second, 0)
}

// The timeout of the context that asks.
fn context_of(asked: Asked) -> Option<Nanos> {
    match asked {
        Asked::Value => None,
        Asked::Raw(_, _) => None,
        Asked::Call(_) => Some(0),
        Asked::CallAgain(_) => Some(0),
    }
}

fn outcome_text_in<L: Link>(alloc: Global, link: &mut L, scope: &ApiScope, asked: Asked) -> Words {
    match asked {
        Asked::Value => requested(alloc, link, scope),
        Asked::Raw(subject, timeout) => requested_raw(alloc, link, scope, subject, timeout),
        Asked::Call(subject) => called(alloc, link, scope, subject),
        Asked::CallAgain(subject) => called_again(alloc, link, scope, subject),
    }
}

fn outcome_text<L: Link>(alloc: Global, link: &mut L, asked: Asked) -> Words {
    let scope = scope(alloc, "$JS.API", context_of(asked))?;
    outcome_text_in(alloc, link, &scope, asked)
}

/// A request, what its first poll comes to, and what was sent last.
const TESTED: &[(Asked, &str, &str)] = &[
    (Asked::Raw("a b", None), "invalid subject", ""),
    (Asked::Value, "request failed", ""),
    (Asked::Raw("a", Some(Some(0))), "timed out", "a "),
    (Asked::Call("a b"), "pending", "$JS.API.a b null"),
    (Asked::CallAgain("a b"), "timed out", "$JS.API.a b null"),
];

// Asserts what the first poll of a request comes to, and what was sent last.
fn says_over(
    rt: &impl Abort,
    alloc: Global,
    link: &mut MemoryLink,
    asked: Asked,
    wanted: &str,
    sent: &str,
) {
    link.set_limits(3, None);
    says(rt, wanted, outcome_text(alloc, link, asked), wanted);
    says(rt, wanted, last(alloc, link), sent);
}

fn says_tested(rt: &impl Abort, alloc: Global, asked: Asked, wanted: &str, sent: &str) {
    let mut link = MemoryLink::new(alloc, "_INBOX.t").expect(rt, "a link");
    says_over(rt, alloc, &mut link, asked, wanted, sent);
    drop(link);
}

#[test]
fn requests_are_tested_and_sent(rt: HostRuntime) {
    for &(asked, wanted, sent) in TESTED {
        says_tested(&rt, rt.alloc(), asked, wanted, sent);
    }
}

// Sends a request and does not wait for it.
fn sends_in(alloc: Global, link: &mut MemoryLink, scope: &ApiScope) -> Result<(), SendError> {
    scope.send_request(alloc, link, "a", empty_request(None))
}

fn sends(alloc: Global, link: &mut MemoryLink) -> Result<Result<(), SendError>, OutOfMemory> {
    let scope = scope(alloc, "$JS.API", None)?;
    Ok(sends_in(alloc, link, &scope))
}

// Whether that is a message that went there, with that reply subject.
fn is_message(sent: &Sent, to: &str, answers: &str) -> bool {
    match sent {
        Sent::Publish {
            subject,
            reply: Some(reply),
            ..
        } => subject.as_str() == to && reply.as_str() == answers,
        _ => false,
    }
}

// Whether that is the one message.
fn is_published(link: &MemoryLink, to: &str, answers: &str) -> bool {
    match link.sent() {
        [one] => is_message(one, to, answers),
        _ => false,
    }
}

// Asserts that a request goes out while the link is up.
fn says_sends(rt: &impl Abort, alloc: Global, link: &mut MemoryLink) {
    same(rt, "up", sends(alloc, link), Ok(Ok(())));
    let went = is_published(link, "$JS.API.a", "_INBOX.t.r0");
    same(rt, "published", went, true);
    link.set_up(false);
    same(
        rt,
        "down",
        sends(alloc, link),
        Ok(Err(SendError::LinkFailed)),
    );
}

fn says_sent(rt: &impl Abort, alloc: Global) {
    let mut link = MemoryLink::new(alloc, "_INBOX.t").expect(rt, "a link");
    says_sends(rt, alloc, &mut link);
    drop(link);
}

// The timeout with which a lost consumer is made anew.
fn recovers(scope: &ApiScope, connection: Option<Nanos>) -> Result<Option<Nanos>, OutOfMemory> {
    Ok(scope.recovery_context(connection)?.timeout)
}

fn recovery(
    alloc: Global,
    context: Option<Nanos>,
    connection: Option<Nanos>,
) -> Result<Option<Nanos>, OutOfMemory> {
    recovers(&scope(alloc, "$JS.API", context)?, connection)
}

/// The timeouts of the context and of the connection, and the one with which a lost consumer is made anew.
const RECOVERIES: &[(Option<Nanos>, Option<Nanos>, Option<Nanos>)] = &[
    (None, None, Some(10_000_000_000)),
    (None, Some(3_000_000_000), None),
    (Some(200_000_000), None, Some(200_000_000)),
];

fn timeout_of(request: &RawRequest) -> Option<Option<Nanos>> {
    request.timeout
}

// The timeout that holds for a request.
fn applied_in(scope: &ApiScope, own: Option<Option<Nanos>>) -> Option<Option<Nanos>> {
    timeout_of(&scope.apply_timeout(empty_request(own)))
}

fn applied(
    alloc: Global,
    context: Nanos,
    own: Option<Option<Nanos>>,
) -> Result<Option<Option<Nanos>>, OutOfMemory> {
    let here = scope(alloc, "$JS.API", Some(context))?;
    Ok(applied_in(&here, own))
}

/// The timeout of a context, that of a request, and the one that holds.
const TIMEOUTS: &[(Nanos, Option<Option<Nanos>>, Option<Option<Nanos>>)] = &[
    (200_000_000, Some(None), Some(None)),
    (200_000_000, None, Some(Some(200_000_000))),
];

#[test]
fn requests_are_sent_and_timeouts_chosen(rt: HostRuntime) {
    says_sent(&rt, rt.alloc());
    for &(context, connection, wanted) in RECOVERIES {
        let found = recovery(rt.alloc(), context, connection);
        same(&rt, "recovery", found, Ok(wanted));
    }
    for &(context, own, wanted) in TIMEOUTS {
        let found = applied(rt.alloc(), context, own);
        same(&rt, "timeout", found, Ok(wanted));
    }
}
