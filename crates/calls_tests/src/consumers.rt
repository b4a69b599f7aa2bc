//! Calls on consumers.

use crate::server::{
    Answered, Asked, Case, Followed, Reply, Words, call_again, outcome, polled, scope, word,
};
use crate::tables::says;
use crate::words::numbered;
use js_base::{OutOfMemory, Text};
use js_call::ApiScope;
use js_call_consumers::{
    Consumer, CreateConsumerOnStream, CreateConsumerStrictOnStream, GetConsumerFromStream,
    UpdateConsumerOnStream, create_consumer_on_stream, create_consumer_strict_on_stream,
    delete_consumer_from_stream, get_consumer_from_stream, update_consumer_on_stream,
};
use js_json::consumer::{DeliverPolicy, Info};
use js_json::{pull, push};
use js_json_members::instant_of;
use js_link::{Link, ScriptedServer};
use std::alloc::Global;

/// What a server knows of a pull consumer.
const KNOWN: Reply = (
    None,
    r#"{"stream_name":"events","name":"c1","created":"2026-01-01T00:00:00Z","config":{"deliver_policy":"all","name":"c1"},"delivered":{"consumer_seq":0,"stream_seq":0},"ack_floor":{"consumer_seq":0,"stream_seq":0},"num_ack_pending":0,"num_redelivered":0,"num_waiting":0,"num_pending":7}"#,
);

/// What it knows of one that delivers to a subject.
const PUSH: Reply = (
    None,
    r#"{"stream_name":"events","name":"c1","created":"2026-01-01T00:00:00Z","config":{"deliver_policy":"all","name":"c1","deliver_subject":"d"},"delivered":{"consumer_seq":0,"stream_seq":0},"ack_floor":{"consumer_seq":0,"stream_seq":0},"num_ack_pending":0,"num_redelivered":0,"num_waiting":0,"num_pending":7}"#,
);

const DELETED: Reply = (None, r#"{"success":true}"#);

const OFFLINE: Reply = (None, r#"{"error":{"code":503,"err_code":10119}}"#);

/// There is one of that name with another configuration.
const THERE: Reply = (None, r#"{"error":{"code":400,"err_code":10148}}"#);

/// There is none of that name to be changed.
const NOT_THERE: Reply = (None, r#"{"error":{"code":404,"err_code":10149}}"#);

const INFO: Asked = ("$JS.API.CONSUMER.INFO.events.c1", "{}");

const DELETE: Asked = ("$JS.API.CONSUMER.DELETE.events.c1", "{}");

const CREATE: Asked = (
    "$JS.API.CONSUMER.CREATE.events.c1.events.>",
    r#"{"action":"","config":{"ack_policy":"explicit","deliver_policy":"all","durable_name":"c1","filter_subject":"events.>","replay_policy":"instant"},"stream_name":"events"}"#,
);

const CREATE_STRICT: Asked = (
    "$JS.API.CONSUMER.CREATE.events",
    r#"{"action":"create","config":{"ack_policy":"explicit","deliver_policy":"all","replay_policy":"instant"},"stream_name":"events"}"#,
);

const UPDATE: Asked = (
    "$JS.API.CONSUMER.CREATE.events",
    r#"{"action":"update","config":{"ack_policy":"explicit","deliver_policy":"all","replay_policy":"instant"},"stream_name":"events"}"#,
);

/// A call on consumers of a stream.
#[derive(Clone, Copy, Drop)]
enum Call {
    /// The durable `c1`, which reads `events.>`.
    Create,
    CreateStrict,
    Update,
    /// One that begins at an instant before the year 0, which has no text.
    CreateEarly,
    CreateStrictEarly,
    UpdateEarly,
    /// The pull consumer `c1`.
    GetPull(&'static str),
    /// The push consumer `c1`.
    GetPush(&'static str),
    Delete(&'static str),
    /// The info of the pull consumer `c1`, which is got before.
    Info,
}

fn durable(alloc: Global) -> Result<pull::Config, OutOfMemory> {
    let name = Text::from_str(alloc, "c1")?;
    let filter_subject = Text::from_str(alloc, "events.>")?;
    Ok(pull::Config {
        durable_name: Some(name),
        filter_subject,
        ..pull::Config::new(alloc)
    })
}

// An instant before the year 0.
fn early_policy() -> DeliverPolicy {
    match instant_of("-000001-01-01T00:00:00Z") {
        Some(start_time) => DeliverPolicy::ByStartTime { start_time },
        None => DeliverPolicy::All,
    }
}

// The configuration of a consumer that begins at an instant before the year 0.
fn early(alloc: Global) -> pull::Config {
    pull::Config {
        deliver_policy: early_policy(),
        ..pull::Config::new(alloc)
    }
}

// The configuration of a consumer, of which nothing is set, or that begins early.
fn plain(alloc: Global, is_early: bool) -> pull::Config {
    if is_early {
        early(alloc)
    } else {
        pull::Config::new(alloc)
    }
}

// The durable one, or one that begins early.
fn durable_or(alloc: Global, is_early: bool) -> Result<pull::Config, OutOfMemory> {
    if is_early {
        Ok(early(alloc))
    } else {
        durable(alloc)
    }
}

/// What the first poll of the call comes to.
pub(crate) fn created<L: Link>(
    alloc: Global,
    link: &mut L,
    call: Result<CreateConsumerOnStream<pull::Config>, OutOfMemory>,
) -> Words {
    polled(alloc, link, call)
}

/// What the first poll of the call comes to.
pub(crate) fn created_strictly<L: Link>(
    alloc: Global,
    link: &mut L,
    call: Result<CreateConsumerStrictOnStream<pull::Config>, OutOfMemory>,
) -> Words {
    polled(alloc, link, call)
}

/// What the first poll of the call comes to.
pub(crate) fn updated<L: Link>(
    alloc: Global,
    link: &mut L,
    call: Result<UpdateConsumerOnStream<pull::Config>, OutOfMemory>,
) -> Words {
    polled(alloc, link, call)
}

/// What the first poll of the call comes to.
pub(crate) fn got_pull<L: Link>(
    alloc: Global,
    link: &mut L,
    call: Result<GetConsumerFromStream<pull::Config>, OutOfMemory>,
) -> Words {
    polled(alloc, link, call)
}

fn create<L: Link>(alloc: Global, link: &mut L, scope: &ApiScope, is_early: bool) -> Words {
    let config = durable_or(alloc, is_early)?;
    let call = create_consumer_on_stream(alloc, scope, config, "events");
    created(alloc, link, call)
}

fn create_strict<L: Link>(alloc: Global, link: &mut L, scope: &ApiScope, is_early: bool) -> Words {
    let config = plain(alloc, is_early);
    let call = create_consumer_strict_on_stream(alloc, scope, config, "events");
    created_strictly(alloc, link, call)
}

fn update<L: Link>(alloc: Global, link: &mut L, scope: &ApiScope, is_early: bool) -> Words {
    let config = plain(alloc, is_early);
    let call = update_consumer_on_stream(alloc, scope, config, "events");
    updated(alloc, link, call)
}

fn get_pull<L: Link>(alloc: Global, link: &mut L, scope: &ApiScope, stream: &str) -> Words {
    let call = get_consumer_from_stream::<pull::Config>(alloc, scope, "c1", stream);
    got_pull(alloc, link, call)
}

fn get_push<L: Link>(alloc: Global, link: &mut L, scope: &ApiScope, stream: &str) -> Words {
    let call = get_consumer_from_stream::<push::Config>(alloc, scope, "c1", stream);
    polled(alloc, link, call)
}

fn delete<L: Link>(alloc: Global, link: &mut L, scope: &ApiScope, stream: &str) -> Words {
    let call = delete_consumer_from_stream(alloc, scope, "c1", stream);
    polled(alloc, link, call)
}

/// Its request for its info.
impl Followed for Consumer<pull::Config> {
    fn follow<L: Link>(&self, alloc: Global, link: &mut L, _number: u64) -> Words {
        polled(alloc, link, self.get_info(alloc))
    }
}

fn info<L: Link>(alloc: Global, link: &mut L, scope: &ApiScope) -> Words {
    let call = get_consumer_from_stream::<pull::Config>(alloc, scope, "c1", "events")?;
    call_again(alloc, link, call, 0)
}

fn outcome_text_in<L: Link>(alloc: Global, link: &mut L, scope: &ApiScope, call: Call) -> Words {
    match call {
        Call::Create => create(alloc, link, scope, false),
        Call::CreateStrict => create_strict(alloc, link, scope, false),
        Call::Update => update(alloc, link, scope, false),
        Call::CreateEarly => create(alloc, link, scope, true),
        Call::CreateStrictEarly => create_strict(alloc, link, scope, true),
        Call::UpdateEarly => update(alloc, link, scope, true),
        Call::GetPull(stream) => get_pull(alloc, link, scope, stream),
        Call::GetPush(stream) => get_push(alloc, link, scope, stream),
        Call::Delete(stream) => delete(alloc, link, scope, stream),
        Call::Info => info(alloc, link, scope),
    }
}

impl Case for Call {
    fn outcome_text(self, alloc: Global, server: &mut ScriptedServer) -> Words {
        let scope = scope(alloc, "$JS.API", None)?;
        outcome_text_in(alloc, server, &scope, self)
    }
}

/// The consumer's name, and how many messages it has to deliver.
impl<T> Answered for Consumer<T> {
    fn word(&self, alloc: Global) -> Words {
        numbered(alloc, self.info.name.as_str(), self.info.num_pending)
    }
}

impl Answered for Info {
    fn word(&self, alloc: Global) -> Words {
        word(alloc, self.name.as_str())
    }
}

/// Calls, what each asks and is replied, and what it comes to.
const CALLS: &[(Call, &[(Asked, Reply)], &str)] = &[
    (Call::GetPull("events"), &[(INFO, KNOWN)], "c1 7"),
    (Call::GetPush("events"), &[(INFO, PUSH)], "c1 7"),
    (
        Call::GetPull("events"),
        &[(INFO, PUSH)],
        "invalid consumer type: pull consumer cannot have delivery subject",
    ),
    (Call::GetPush("a.b"), &[], "invalid consumer name"),
    (Call::Delete("a.b"), &[], "consumer error"),
    (Call::Delete("events"), &[(DELETE, DELETED)], "deleted"),
    (Call::Create, &[(CREATE, KNOWN)], "c1 7"),
    (
        Call::CreateStrict,
        &[(CREATE_STRICT, THERE)],
        "consumer already exists: unknown (code 400, error code 10148)",
    ),
    (
        Call::Update,
        &[(UPDATE, NOT_THERE)],
        "consumer does not exist: unknown (code 404, error code 10149)",
    ),
    (
        Call::CreateEarly,
        &[],
        "request error: opt_start_time: out of range",
    ),
    (
        Call::CreateStrictEarly,
        &[],
        "request error: opt_start_time: out of range",
    ),
    (
        Call::UpdateEarly,
        &[],
        "request error: opt_start_time: out of range",
    ),
];

#[test]
fn consumers_are_made_got_and_deleted(rt: HostRuntime) {
    for &(call, script, wanted) in CALLS {
        says(&rt, wanted, outcome(rt.alloc(), call, script), wanted);
    }
}

// What the info comes to of a consumer that was got, where the server then replies so.
fn info_after(alloc: Global, reply: Reply) -> Words {
    outcome(alloc, Call::Info, &[(INFO, KNOWN), (INFO, reply)])
}

/// What is replied to a request for an info, and what it comes to.
const INFOS: &[(Reply, &str)] = &[
    (KNOWN, "c1"),
    (
        OFFLINE,
        "consumer is offline: unknown (code 503, error code 10119)",
    ),
    (
        crate::server::NOBODY,
        "no responders: requested JetStream resource does not exist",
    ),
];

#[test]
fn a_consumer_asks_for_its_info(rt: HostRuntime) {
    for &(reply, wanted) in INFOS {
        says(&rt, wanted, info_after(rt.alloc(), reply), wanted);
    }
}
