//! Bodies that the client writes, and consumers' configurations of each kind.

use crate::tables::{same, says};
use js_base::{Text, TryClone, both, replace_with};
use js_json::consumer::{
    AckPolicy, Action, Config, CreateRequest, DeliverPolicy, FromConsumer, IntoConsumerConfig,
    PriorityPolicy, ReplayPolicy,
};
use js_json::pull::BatchConfig;
use js_json::{pull, push};
use js_json_members::{FromValue, ReadError, ToValue, value_of};
use js_json_stream_bodies::stream::{
    self, DiscardPolicy, ListRequest, NamesRequest, RetentionPolicy, StorageType,
};
use std::alloc::Global;
use std::fmt::Debug;
use std::process::Abort;

type Words = Result<String, ReadError>;

/// A body that the client writes.
#[derive(Clone, Copy)]
enum Body {
    /// The default configuration of a stream with that name.
    Stream(&'static str),
    /// A page of names from that place on, of all streams or of those that take a subject.
    Names(u64, Option<&'static str>),
    /// A page of streams from that place on.
    Streams(u64),
    /// A pull request of an ordered consumer.
    OrderedPull,
    /// The same as a request of a client that is not pinned.
    Unpinned,
    /// A request of a client that is pinned under this id.
    Pinned(&'static str),
    /// The creation of an ordered pull consumer that begins at this sequence.
    CreatePull(u64),
    /// The update of an ordered push consumer that begins at this sequence.
    UpdatePush(u64),
}

fn stream_named(alloc: Global, name: &str) -> Words {
    let name = Text::from_str(alloc, name)?;
    let mut config = stream::Config::new(alloc);
    replace_with(&mut config.name, name);
    let text = config.to_text(alloc);
    drop(config);
    text
}

fn names(alloc: Global, offset: u64, subject: Option<&str>) -> Words {
    let subject = match subject {
        None => None,
        Some(text) => Some(Text::from_str(alloc, text)?),
    };
    NamesRequest { offset, subject }.to_text(alloc)
}

fn ordered_request() -> BatchConfig {
    BatchConfig {
        batch: 500,
        expires: Some(30_000_000_000),
        idle_heartbeat: 15_000_000_000,
        ..BatchConfig::new()
    }
}

fn pinned(alloc: Global, id: &str) -> Words {
    let (group, pin) = both(Text::from_str(alloc, "g"), Text::from_str(alloc, id))?;
    let request = BatchConfig {
        batch: 1,
        no_wait: true,
        max_bytes: 9,
        min_pending: Some(2),
        min_ack_pending: Some(3),
        group: Some(group),
        priority: Some(4),
        ..BatchConfig::new()
    };
    let text = request.request_text(alloc, Some(&pin));
    drop(request);
    drop(pin);
    text
}

fn ordered_pull(alloc: Global, start_sequence: u64) -> Result<pull::OrderedConfig, ReadError> {
    let name = Text::from_str(alloc, "c1_1")?;
    Ok(pull::OrderedConfig {
        name: Some(name),
        deliver_policy: DeliverPolicy::ByStartSequence { start_sequence },
        ..pull::OrderedConfig::new(alloc)
    })
}

fn ordered_push(alloc: Global, start_sequence: u64) -> Result<push::OrderedConfig, ReadError> {
    let (deliver_subject, name) = both(
        Text::from_str(alloc, "_INBOX.t.1"),
        Text::from_str(alloc, "c1_1"),
    )?;
    Ok(push::OrderedConfig {
        deliver_subject,
        name: Some(name),
        deliver_policy: DeliverPolicy::ByStartSequence { start_sequence },
        ..push::OrderedConfig::new(alloc)
    })
}

// A request to make or change a consumer. Its texts are made before, since a configuration that is alive where memory may be
// wanting costs minutes to prove.
fn request(action: Action, config: Config, stream_name: Text) -> CreateRequest {
    CreateRequest {
        action,
        config,
        stream_name,
    }
}

fn create_pull(alloc: Global, start_sequence: u64) -> Words {
    let stream_name = Text::from_str(alloc, "events")?;
    let config = ordered_pull(alloc, start_sequence)?.into_consumer_config(alloc);
    let asked = request(Action::CreateOrUpdate, config, stream_name);
    let text = asked.to_text(alloc);
    drop(asked);
    text
}

fn update_push(alloc: Global, start_sequence: u64) -> Words {
    let stream_name = Text::from_str(alloc, "events")?;
    let config = ordered_push(alloc, start_sequence)?.into_consumer_config(alloc);
    let asked = request(Action::Update, config, stream_name);
    let text = asked.to_text(alloc);
    drop(asked);
    text
}

fn written(alloc: Global, body: Body) -> Words {
    match body {
        Body::Stream(name) => stream_named(alloc, name),
        Body::Names(offset, subject) => names(alloc, offset, subject),
        Body::Streams(offset) => ListRequest { offset }.to_text(alloc),
        Body::OrderedPull => ordered_request().to_text(alloc),
        Body::Unpinned => ordered_request().request_text(alloc, None),
        Body::Pinned(id) => pinned(alloc, id),
        Body::CreatePull(start_sequence) => create_pull(alloc, start_sequence),
        Body::UpdatePush(start_sequence) => update_push(alloc, start_sequence),
    }
}

const BODIES: &[(Body, &str)] = &[
    (
        Body::Stream("events"),
        r#"{"discard":"old","name":"events","retention":"limits","storage":"file"}"#,
    ),
    (Body::Names(0, None), r#"{"offset":0,"subject":null}"#),
    (
        Body::Names(2, Some("a.b")),
        r#"{"offset":2,"subject":"a.b"}"#,
    ),
    (Body::Streams(5), r#"{"offset":5}"#),
    (
        Body::OrderedPull,
        r#"{"batch":500,"expires":30000000000,"group":null,"idle_heartbeat":15000000000,"max_bytes":0,"min_ack_pending":null,"min_pending":null,"priority":null}"#,
    ),
    (
        Body::Unpinned,
        r#"{"batch":500,"expires":30000000000,"group":null,"idle_heartbeat":15000000000,"max_bytes":0,"min_ack_pending":null,"min_pending":null,"priority":null}"#,
    ),
    (
        Body::Pinned("p1"),
        r#"{"batch":1,"group":"g","id":"p1","max_bytes":9,"min_ack_pending":3,"min_pending":2,"no_wait":true,"priority":4}"#,
    ),
    (
        Body::CreatePull(3),
        r#"{"action":"","config":{"ack_policy":"none","deliver_policy":"by_start_sequence","inactive_threshold":30000000000,"max_deliver":1,"mem_storage":true,"name":"c1_1","num_replicas":1,"opt_start_seq":3,"replay_policy":"instant"},"stream_name":"events"}"#,
    ),
    (
        Body::UpdatePush(2),
        r#"{"action":"update","config":{"ack_policy":"none","deliver_policy":"by_start_sequence","deliver_subject":"_INBOX.t.1","flow_control":true,"idle_heartbeat":5000000000,"inactive_threshold":30000000000,"max_deliver":1,"mem_storage":true,"name":"c1_1","num_replicas":1,"opt_start_seq":2,"replay_policy":"instant"},"stream_name":"events"}"#,
    ),
];

#[test]
fn requests_are_written(rt: HostRuntime) {
    for &(body, wanted) in BODIES {
        says(&rt, wanted, written(rt.alloc(), body), wanted);
    }
}

fn config_of(alloc: Global, text: &str) -> Result<Config, ReadError> {
    let value = value_of(alloc, text.as_bytes())?;
    Config::from_value(alloc, &value)
}

// Whether the general configuration of a configuration is that configuration again.
fn comes_back<C: FromConsumer + TryClone + PartialEq>(
    alloc: Global,
    config: C,
) -> Result<bool, ReadError> {
    let copy = config.try_clone()?;
    Ok(C::try_from_consumer_config(copy.into_consumer_config(alloc)) == Ok(config))
}

fn ordered_pull_comes_back(alloc: Global) -> Result<bool, ReadError> {
    comes_back(alloc, ordered_pull(alloc, 3)?)
}

fn ordered_push_comes_back(alloc: Global) -> Result<bool, ReadError> {
    comes_back(alloc, ordered_push(alloc, 2)?)
}

fn pull_comes_back(alloc: Global) -> Result<bool, ReadError> {
    comes_back(alloc, pull::Config::from(ordered_pull(alloc, 3)?))
}

fn push_comes_back(alloc: Global) -> Result<bool, ReadError> {
    let general = config_of(alloc, crate::consumer_rows::CONFIGS[4].0)?;
    match push::Config::try_from_consumer_config(general) {
        Err(_) => Ok(false),
        Ok(config) => comes_back(alloc, config),
    }
}

// What is printed of the refusal of a general configuration as one of that kind.
fn refusal<C: FromConsumer>(alloc: Global, text: &str) -> Words {
    match C::try_from_consumer_config(config_of(alloc, text)?) {
        Ok(_) => Ok(String::from_str(alloc, "none")?),
        Err(error) => Ok(error.to_string(alloc)?),
    }
}

/// A kind of consumer.
#[derive(Clone, Copy)]
enum Kind {
    Pull,
    OrderedPull,
    Push,
    OrderedPush,
}

fn refused(alloc: Global, kind: Kind, text: &str) -> Words {
    match kind {
        Kind::Pull => refusal::<pull::Config>(alloc, text),
        Kind::OrderedPull => refusal::<pull::OrderedConfig>(alloc, text),
        Kind::Push => refusal::<push::Config>(alloc, text),
        Kind::OrderedPush => refusal::<push::OrderedConfig>(alloc, text),
    }
}

const WITH_SUBJECT: &str = r#"{"deliver_policy":"all","deliver_subject":"d"}"#;

const WITHOUT_SUBJECT: &str = r#"{"deliver_policy":"all"}"#;

/// Kinds, general configurations, and why each is not of that kind.
const REFUSALS: &[(Kind, &str, &str)] = &[
    (
        Kind::Pull,
        WITH_SUBJECT,
        "pull consumer cannot have delivery subject",
    ),
    (Kind::Pull, WITHOUT_SUBJECT, "none"),
    (Kind::OrderedPull, WITH_SUBJECT, "none"),
    (Kind::Push, WITH_SUBJECT, "none"),
    (
        Kind::Push,
        WITHOUT_SUBJECT,
        "push consumer must have delivery subject",
    ),
    (
        Kind::OrderedPush,
        WITHOUT_SUBJECT,
        "push consumer must have delivery subject",
    ),
];

#[test]
fn kinds_of_consumers_are_told_apart(rt: HostRuntime) {
    let alloc = rt.alloc();
    same(
        &rt,
        "ordered pull",
        ordered_pull_comes_back(alloc),
        Ok(true),
    );
    same(
        &rt,
        "ordered push",
        ordered_push_comes_back(alloc),
        Ok(true),
    );
    same(&rt, "pull", pull_comes_back(alloc), Ok(true));
    same(&rt, "push", push_comes_back(alloc), Ok(true));
    for &(kind, text, wanted) in REFUSALS {
        says(&rt, text, refused(alloc, kind, text), wanted);
    }
}

// Asserts that a policy is the default of its kind.
fn is_default<P: Debug + Default + PartialEq + Drop>(rt: &impl Abort, policy: P) {
    same(rt, "default", P::default(), policy);
}

#[test]
fn policies_have_their_numbers_and_defaults(rt: HostRuntime) {
    let acks = [
        AckPolicy::None,
        AckPolicy::All,
        AckPolicy::Explicit,
        AckPolicy::FlowControl,
    ];
    for (number, policy) in acks.iter().enumerate() {
        same(&rt, "acks", *policy as usize, number);
    }
    let replays = (ReplayPolicy::Instant as u8, ReplayPolicy::Original as u8);
    same(&rt, "replays", replays, (0, 1));
    is_default(&rt, AckPolicy::Explicit);
    is_default(&rt, ReplayPolicy::Instant);
    is_default(&rt, PriorityPolicy::None);
    is_default(&rt, DeliverPolicy::All);
    is_default(&rt, RetentionPolicy::Limits);
    is_default(&rt, StorageType::File);
    is_default(&rt, DiscardPolicy::Old);
}
