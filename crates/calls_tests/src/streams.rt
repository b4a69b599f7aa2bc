//! Calls on streams.

use crate::server::{Asked, Case, GARBLED, NOBODY, Reply, Words, ended, outcome, still, waited};
use crate::stream_calls::{
    PREFIX, copy, create, create_or_update, creating, delete, get, get_no_info, get_or_create,
    hurried, update, update_keeping,
};
use crate::tables::says;
use js_call::ApiScope;
use js_call_streams::get_stream;
use js_link::{Link, MemoryLink, RequestId, ScriptedServer};
use std::alloc::Global;
use std::process::Abort;

const CREATE: Asked = (
    "$JS.API.STREAM.CREATE.events",
    r#"{"discard":"old","name":"events","retention":"limits","storage":"file"}"#,
);

const UPDATE: Asked = (
    "$JS.API.STREAM.UPDATE.events",
    r#"{"discard":"old","name":"events","retention":"limits","storage":"file"}"#,
);

const INFO: Asked = ("$JS.API.STREAM.INFO.events", "null");

const DELETE: Asked = ("$JS.API.STREAM.DELETE.events", "{}");

/// A stream that copies `orders` of the domain `hub`, as its mirror and as a source.
const COPY: Asked = (
    "$JS.API.STREAM.CREATE.events",
    r#"{"discard":"old","mirror":{"external":{"api":"$JS.hub.API"},"name":"orders"},"name":"events","retention":"limits","sources":[{"external":{"api":"$JS.hub.API"},"name":"orders"}],"storage":"file"}"#,
);

const KNOWN: Reply = (
    None,
    r#"{"config":{"name":"events"},"created":"2026-01-01T00:00:00Z","state":{"messages":3,"bytes":96,"first_seq":1,"last_seq":3}}"#,
);

/// The same with members that a configuration does not name.
const WITH_MORE: Reply = (
    None,
    r#"{"config":{"discard":"old","duplicate_window":600000000000,"name":"events","no_ack":true,"retention":"limits","storage":"file"},"created":"2026-01-01T00:00:00Z","state":{"messages":3,"bytes":96,"first_seq":1,"last_seq":3}}"#,
);

/// An update that changes nothing of it.
const UPDATE_NOTHING: Asked = (
    "$JS.API.STREAM.UPDATE.events",
    r#"{"discard":"old","duplicate_window":600000000000,"name":"events","no_ack":true,"retention":"limits","storage":"file"}"#,
);

/// One that sets how long messages are kept.
const UPDATE_AGE: Asked = (
    "$JS.API.STREAM.UPDATE.events",
    r#"{"discard":"old","duplicate_window":600000000000,"max_age":5,"name":"events","no_ack":true,"retention":"limits","storage":"file"}"#,
);

const DELETED: Reply = (None, r#"{"success":true}"#);

/// The stream is not there.
const ABSENT: Reply = (None, r#"{"error":{"code":404,"err_code":10059}}"#);

/// Another error of the API.
const WRONG: Reply = (
    None,
    r#"{"error":{"code":400,"err_code":10052,"description":"no"}}"#,
);

/// How that error is printed.
const WRONG_TEXT: &str = "jetstream error: no (code 400, error code 10052)";

/// A call on the stream of a name.
#[derive(Clone, Copy, Drop)]
enum Call {
    /// Under a prefix.
    Create(&'static str, &'static str),
    Update(&'static str),
    Get(&'static str),
    /// Without asking.
    GetNoInfo(&'static str),
    Delete(&'static str),
    GetOrCreate(&'static str),
    CreateOrUpdate(&'static str),
    /// By the handle that getting it gives, with how long messages are kept.
    UpdateKeeping(u64),
    /// With a mirror and a source, each of a domain, and maybe of an external too.
    Copy(bool, bool),
}

// The prefix of a call.
fn prefix_of(call: Call) -> &'static str {
    match call {
        Call::Create(prefix, _) => prefix,
        _ => PREFIX,
    }
}

fn outcome_text_in<L: Link>(alloc: Global, link: &mut L, scope: &ApiScope, call: Call) -> Words {
    match call {
        Call::Create(_, name) => create(alloc, link, scope, name),
        Call::Update(name) => update(alloc, link, scope, name),
        Call::Get(name) => get(alloc, link, scope, name),
        Call::GetNoInfo(name) => get_no_info(alloc, scope, name),
        Call::Delete(name) => delete(alloc, link, scope, name),
        Call::GetOrCreate(name) => get_or_create(alloc, link, scope, name),
        Call::CreateOrUpdate(name) => create_or_update(alloc, link, scope, name),
        Call::UpdateKeeping(max_age) => update_keeping(alloc, link, scope, max_age),
        Call::Copy(mirror, source) => copy(alloc, link, scope, mirror, source),
    }
}

impl Case for Call {
    fn outcome_text(self, alloc: Global, server: &mut ScriptedServer) -> Words {
        let scope = hurried(alloc, prefix_of(self))?;
        outcome_text_in(alloc, server, &scope, self)
    }
}

/// Calls of one request, what they ask, what is replied, and what they come to.
const REPLIES: &[(Call, Asked, Reply, &str)] = &[
    (Call::Create(PREFIX, "events"), CREATE, KNOWN, "events 3"),
    (
        Call::Create(PREFIX, "events"),
        CREATE,
        NOBODY,
        "jetstream unavailable: requested JetStream resource does not exist",
    ),
    (
        Call::Create(PREFIX, "events"),
        CREATE,
        ABSENT,
        "stream not found: unknown (code 404, error code 10059)",
    ),
    (Call::Create(PREFIX, "events"), CREATE, WRONG, WRONG_TEXT),
    (
        Call::Create(PREFIX, "events"),
        CREATE,
        GARBLED,
        "response error: not JSON",
    ),
    (Call::Update("events"), UPDATE, KNOWN, "events 3"),
    (
        Call::Update("events"),
        UPDATE,
        NOBODY,
        "jetstream unavailable: requested JetStream resource does not exist",
    ),
    (
        Call::Update("events"),
        UPDATE,
        ABSENT,
        "stream not found: unknown (code 404, error code 10059)",
    ),
    (Call::Update("events"), UPDATE, WRONG, WRONG_TEXT),
    (
        Call::Update("events"),
        UPDATE,
        GARBLED,
        "response error: not JSON",
    ),
    (Call::Get("events"), INFO, KNOWN, "events 3"),
    (
        Call::Get("events"),
        INFO,
        NOBODY,
        "request error: requested JetStream resource does not exist",
    ),
    (
        Call::Get("events"),
        INFO,
        ABSENT,
        "jetstream error: unknown (code 404, error code 10059)",
    ),
    (Call::Get("events"), INFO, WRONG, WRONG_TEXT),
    (
        Call::Get("events"),
        INFO,
        GARBLED,
        "request error: not JSON",
    ),
    (Call::Delete("events"), DELETE, DELETED, "deleted"),
    (
        Call::Delete("events"),
        DELETE,
        NOBODY,
        "request error: requested JetStream resource does not exist",
    ),
    (
        Call::Delete("events"),
        DELETE,
        ABSENT,
        "jetstream error: unknown (code 404, error code 10059)",
    ),
    (Call::Delete("events"), DELETE, WRONG, WRONG_TEXT),
    (
        Call::Delete("events"),
        DELETE,
        GARBLED,
        "request error: not JSON",
    ),
    (Call::Copy(false, false), COPY, KNOWN, "events 3"),
];

/// Calls of up to two requests, what they ask and are replied, and what they come to.
const CHAINS: &[(Call, &[(Asked, Reply)], &str)] = &[
    (
        Call::UpdateKeeping(0),
        &[(INFO, WITH_MORE), (UPDATE_NOTHING, KNOWN)],
        "events 3",
    ),
    (
        Call::UpdateKeeping(5),
        &[(INFO, WITH_MORE), (UPDATE_AGE, KNOWN)],
        "events 3",
    ),
    (
        Call::GetOrCreate("events"),
        &[(INFO, ABSENT), (CREATE, KNOWN)],
        "events 3",
    ),
    (
        Call::CreateOrUpdate("events"),
        &[(UPDATE, ABSENT), (CREATE, KNOWN)],
        "events 3",
    ),
    (Call::GetOrCreate("events"), &[(INFO, KNOWN)], "events 3"),
    (
        Call::CreateOrUpdate("events"),
        &[(UPDATE, KNOWN)],
        "events 3",
    ),
    (Call::GetOrCreate("events"), &[(INFO, WRONG)], WRONG_TEXT),
    (
        Call::CreateOrUpdate("events"),
        &[(UPDATE, WRONG)],
        WRONG_TEXT,
    ),
];

fn replied(alloc: Global, call: Call, asked: Asked, reply: Reply) -> Words {
    outcome(alloc, call, &[(asked, reply)])
}

#[test]
fn calls_ask_and_answer(rt: HostRuntime) {
    for &(call, asked, reply, wanted) in REPLIES {
        let found = replied(rt.alloc(), call, asked, reply);
        says(&rt, asked.0, found, wanted);
    }
}

#[test]
fn calls_of_two_requests_ask_and_answer(rt: HostRuntime) {
    for &(call, script, wanted) in CHAINS {
        says(&rt, wanted, outcome(rt.alloc(), call, script), wanted);
    }
}

/// What is no name of a stream, with how calls that make it refuse it, and how calls that find it do.
const NO_NAMES: &[(&str, &str, &str)] = &[
    (
        "",
        "stream name cannot be empty",
        "empty name cannot be empty",
    ),
    (
        "a.b",
        "stream name cannot contain `.`, `_`",
        "invalid stream name",
    ),
    (
        "a b",
        "stream name cannot contain `.`, `_`",
        "invalid stream name",
    ),
];

// Asserts what a call comes to that sends nothing.
fn says_unsent(rt: &impl Abort, alloc: Global, call: Call, wanted: &str) {
    says(rt, wanted, outcome(alloc, call, &[]), wanted);
}

// Asserts it of the calls that make a stream of that name.
fn says_unmade(rt: &impl Abort, alloc: Global, name: &'static str, wanted: &str) {
    says_unsent(rt, alloc, Call::Create(PREFIX, name), wanted);
    says_unsent(rt, alloc, Call::Update(name), wanted);
    says_unsent(rt, alloc, Call::GetOrCreate(name), wanted);
    says_unsent(rt, alloc, Call::CreateOrUpdate(name), wanted);
}

// Asserts it of the calls that find one.
fn says_unfound(rt: &impl Abort, alloc: Global, name: &'static str, wanted: &str) {
    says_unsent(rt, alloc, Call::Get(name), wanted);
    says_unsent(rt, alloc, Call::Delete(name), wanted);
    says_unsent(rt, alloc, Call::GetNoInfo(name), wanted);
}

/// Calls that send nothing, and what they come to.
const UNSENT: &[(Call, &str)] = &[
    (
        Call::Create("a b", "events"),
        "stream name cannot contain `.`, `_`: invalid subject",
    ),
    (Call::Copy(true, false), "domain and external are both set"),
    (Call::Copy(false, true), "domain and external are both set"),
    (Call::GetNoInfo("events"), "events $JS.API"),
];

#[test]
fn calls_are_refused_before_anything_is_sent(rt: HostRuntime) {
    for &(name, unmade, unfound) in NO_NAMES {
        says_unmade(&rt, rt.alloc(), name, unmade);
        says_unfound(&rt, rt.alloc(), name, unfound);
    }
    for &(call, wanted) in UNSENT {
        says_unsent(&rt, rt.alloc(), call, wanted);
    }
}

// What the making of a stream comes to that has no reply within 200 nanoseconds.
fn late_over<L: Link>(alloc: Global, link: &mut L, scope: &ApiScope) -> Words {
    let call = creating(alloc, scope, "events")?;
    waited(alloc, link, call, [0, 199, 200])
}

// What getting a stream comes to whose replier is gone.
fn left_over(alloc: Global, link: &mut MemoryLink, scope: &ApiScope) -> Words {
    let first = get_stream(alloc, scope, "events")?;
    let call = still(alloc, link, first, 0);
    let _ = link.respond(RequestId(1), None);
    ended(alloc, link, call, 0)
}

fn late(alloc: Global, scope: &ApiScope) -> Words {
    let mut link = MemoryLink::new(alloc, "_INBOX.t")?;
    let words = late_over(alloc, &mut link, scope);
    drop(link);
    words
}

fn left(alloc: Global, scope: &ApiScope) -> Words {
    let mut link = MemoryLink::new(alloc, "_INBOX.t")?;
    let words = left_over(alloc, &mut link, scope);
    drop(link);
    words
}

#[test]
fn a_request_without_a_reply_is_refused(rt: HostRuntime) {
    let scope = hurried(rt.alloc(), PREFIX).expect(&rt, "a scope");
    let timed_out = "jetstream request timed out: timed out";
    says(&rt, "late", late(rt.alloc(), &scope), timed_out);
    let failed = "request error: request failed";
    says(&rt, "left", left(rt.alloc(), &scope), failed);
}
