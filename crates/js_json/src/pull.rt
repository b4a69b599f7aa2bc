//! Pull consumers: configurations and requests.

ghost use Rattle.std.specs.Prelude.{◌≡◌, refl};
ghost use Rattle.js_json.specs.PullConfig.{new_pull_config, new_ordered_pull_config};
ghost use Rattle.js_json.specs.Conversion.{pull_config, as_pull_config, ordered_pull_config, as_ordered_pull_config};

mod batch;
mod conversion;
mod copies;

use crate::consumer::{
    self, AckPolicy, ConfigError, DeliverPolicy, FromConsumer, IntoConsumerConfig,
    ORDERED_INACTIVE_THRESHOLD, PriorityPolicy, ReplayPolicy,
};
pub use batch::BatchConfig;
use jiff::Timestamp;
use js_base::{Items, Nanos, Text, TextMap};
use std::alloc::Global;

/// The configuration of a pull consumer, whose readers ask for messages. It has no deliver subject
/// and none of the fields that go with one.
#[derive(Debug, PartialEq, Eq, Drop)]
pub struct Config {
    /// The name of a durable consumer, which outlives its readers. This is the older way to name a
    /// consumer.
    pub durable_name: Option<Text>,
    /// The name of the consumer. `None` lets the server choose.
    pub name: Option<Text>,
    /// A description for people. The server does not use it.
    pub description: Option<Text>,
    /// Where in the stream the consumer begins.
    pub deliver_policy: DeliverPolicy,
    /// How messages are acknowledged.
    pub ack_policy: AckPolicy,
    /// How long the server waits for an acknowledgement before it delivers again, in nanoseconds. 0
    /// means the server's default, 30 seconds.
    pub ack_wait: Nanos,
    /// How often the server delivers a message at most, including the first time. -1 means no
    /// limit. 0 means the server's default, which is no limit.
    pub max_deliver: i64,
    /// The subjects that the consumer reads, as one subject that may have wildcards. Empty means
    /// the whole stream.
    pub filter_subject: Text,
    /// The subjects that the consumer reads, if there are several. The server accepts only one of
    /// `filter_subject` and `filter_subjects`.
    pub filter_subjects: Items<Text>,
    /// How fast the server sends messages that are already stored.
    pub replay_policy: ReplayPolicy,
    /// How fast the server sends messages at most, in bits per second. 0 means no limit. Only push
    /// consumers use it.
    pub rate_limit: u64,
    /// The share of acknowledgements that the server samples, in percent.
    pub sample_frequency: u8,
    /// How many pull requests may wait at once. 0 means the server's default, 512.
    pub max_waiting: i64,
    /// How many messages may wait for their acknowledgement at once. -1 means no limit. 0 means the
    /// server's default, 1,000.
    pub max_ack_pending: i64,
    /// Whether the server sends messages without their payloads.
    pub headers_only: bool,
    /// How many messages one pull request may ask for. 0 means no limit.
    pub max_batch: i64,
    /// How many bytes one pull request may ask for. 0 means no limit.
    pub max_bytes: i64,
    /// How long one pull request may wait, in nanoseconds. 0 means no limit.
    pub max_expires: Nanos,
    /// How long the consumer outlives its last reader, in nanoseconds. 0 means for ever if the
    /// consumer is durable; otherwise the server chooses 5 seconds.
    pub inactive_threshold: Nanos,
    /// How many servers keep the consumer's state. 0 means as many as keep the stream.
    pub num_replicas: u64,
    /// Whether the server keeps the consumer's state only in memory.
    pub memory_storage: bool,
    /// Names and values for people and tools.
    pub metadata: TextMap,
    /// How long the server waits before each further delivery, in nanoseconds. If there is any, the
    /// server does not use `ack_wait`.
    pub backoff: Items<Nanos>,
    /// Which reader of a priority group the server serves.
    pub priority_policy: PriorityPolicy,
    /// The names of the consumer's priority groups. The server accepts one at most.
    pub priority_groups: Items<Text>,
    /// How long without a request before the server gives up a pinned reader, in nanoseconds.
    pub priority_timeout: Nanos,
    /// The time until which the server delivers nothing. `None` if the consumer is not paused.
    pub pause_until: Option<Timestamp>,
}

impl Config {
    /// Returns the default configuration. Allocates no memory.
    pub fn new(alloc: Global) -> Config
        ensures { result ≡ new_pull_config }
    {
        Config {
            durable_name: None,
            name: None,
            description: None,
            deliver_policy: DeliverPolicy::All,
            ack_policy: AckPolicy::Explicit,
            ack_wait: 0,
            max_deliver: 0,
            filter_subject: Text::new(alloc),
            filter_subjects: Items::new(alloc),
            replay_policy: ReplayPolicy::Instant,
            rate_limit: 0,
            sample_frequency: 0,
            max_waiting: 0,
            max_ack_pending: 0,
            headers_only: false,
            max_batch: 0,
            max_bytes: 0,
            max_expires: 0,
            inactive_threshold: 0,
            num_replicas: 0,
            memory_storage: false,
            metadata: TextMap::new(alloc),
            backoff: Items::new(alloc),
            priority_policy: PriorityPolicy::None,
            priority_groups: Items::new(alloc),
            priority_timeout: 0,
            pause_until: None,
        }
    }
}

impl IntoConsumerConfig for Config {
    ghost config = { pull_config };

    fn into_consumer_config(self, _alloc: Global) -> consumer::Config {
        consumer::Config {
            deliver_subject: None,
            durable_name: self.durable_name,
            name: self.name,
            description: self.description,
            deliver_group: None,
            deliver_policy: self.deliver_policy,
            ack_policy: self.ack_policy,
            ack_wait: self.ack_wait,
            max_deliver: self.max_deliver,
            filter_subject: self.filter_subject,
            filter_subjects: self.filter_subjects,
            replay_policy: self.replay_policy,
            rate_limit: self.rate_limit,
            sample_frequency: self.sample_frequency,
            max_waiting: self.max_waiting,
            max_ack_pending: self.max_ack_pending,
            headers_only: self.headers_only,
            flow_control: false,
            idle_heartbeat: 0,
            max_batch: self.max_batch,
            max_bytes: self.max_bytes,
            max_expires: self.max_expires,
            inactive_threshold: self.inactive_threshold,
            num_replicas: self.num_replicas,
            memory_storage: self.memory_storage,
            metadata: self.metadata,
            backoff: self.backoff,
            priority_policy: self.priority_policy,
            priority_groups: self.priority_groups,
            priority_timeout: self.priority_timeout,
            pause_until: self.pause_until,
        }
    }
}

impl FromConsumer for Config {
    ghost of_config = { as_pull_config };

    ghost there_and_back = { λ _. refl };

    fn try_from_consumer_config(config: consumer::Config) -> Result<Config, ConfigError> {
        if config.deliver_subject.is_some() {
            drop(config);
            return Err(ConfigError::HasDeliverSubject);
        }
        Ok(Config {
            durable_name: config.durable_name,
            name: config.name,
            description: config.description,
            deliver_policy: config.deliver_policy,
            ack_policy: config.ack_policy,
            ack_wait: config.ack_wait,
            max_deliver: config.max_deliver,
            filter_subject: config.filter_subject,
            filter_subjects: config.filter_subjects,
            replay_policy: config.replay_policy,
            rate_limit: config.rate_limit,
            sample_frequency: config.sample_frequency,
            max_waiting: config.max_waiting,
            max_ack_pending: config.max_ack_pending,
            headers_only: config.headers_only,
            max_batch: config.max_batch,
            max_bytes: config.max_bytes,
            max_expires: config.max_expires,
            inactive_threshold: config.inactive_threshold,
            num_replicas: config.num_replicas,
            memory_storage: config.memory_storage,
            metadata: config.metadata,
            backoff: config.backoff,
            priority_policy: config.priority_policy,
            priority_groups: config.priority_groups,
            priority_timeout: config.priority_timeout,
            pause_until: config.pause_until,
        })
    }
}

/// The configuration of an ordered pull consumer.
///
/// The other settings are fixed: no acknowledgements, each message delivered once, state in the
/// memory of one server, and removal 30 seconds after the last reader. It has no durable name and
/// no priorities. `try_from_consumer_config` ignores what a general configuration says about these.
#[derive(Debug, PartialEq, Eq, Drop)]
pub struct OrderedConfig {
    /// The name of the consumer. `None` lets the server choose.
    pub name: Option<Text>,
    /// A description for people. The server does not use it.
    pub description: Option<Text>,
    /// The subjects that the consumer reads, as one subject that may have wildcards. Empty means
    /// the whole stream.
    pub filter_subject: Text,
    /// The subjects that the consumer reads, if there are several. The server accepts only one of
    /// `filter_subject` and `filter_subjects`.
    pub filter_subjects: Items<Text>,
    /// How fast the server sends messages that are already stored.
    pub replay_policy: ReplayPolicy,
    /// How fast the server sends messages at most, in bits per second. 0 means no limit. Only push
    /// consumers use it.
    pub rate_limit: u64,
    /// The share of acknowledgements that the server samples, in percent.
    pub sample_frequency: u8,
    /// Whether the server sends messages without their payloads.
    pub headers_only: bool,
    /// Where in the stream the consumer begins.
    pub deliver_policy: DeliverPolicy,
    /// How many pull requests may wait at once. 0 means the server's default, 512.
    pub max_waiting: i64,
    /// Names and values for people and tools.
    pub metadata: TextMap,
    /// How many messages one pull request may ask for. 0 means no limit.
    pub max_batch: i64,
    /// How many bytes one pull request may ask for. 0 means no limit.
    pub max_bytes: i64,
    /// How long one pull request may wait, in nanoseconds. 0 means no limit.
    pub max_expires: Nanos,
}

impl OrderedConfig {
    /// Returns the default configuration. Allocates no memory.
    pub fn new(alloc: Global) -> OrderedConfig
        ensures { result ≡ new_ordered_pull_config }
    {
        OrderedConfig {
            name: None,
            description: None,
            filter_subject: Text::new(alloc),
            filter_subjects: Items::new(alloc),
            replay_policy: ReplayPolicy::Instant,
            rate_limit: 0,
            sample_frequency: 0,
            headers_only: false,
            deliver_policy: DeliverPolicy::All,
            max_waiting: 0,
            metadata: TextMap::new(alloc),
            max_batch: 0,
            max_bytes: 0,
            max_expires: 0,
        }
    }
}

impl IntoConsumerConfig for OrderedConfig {
    ghost config = { ordered_pull_config };

    fn into_consumer_config(self, alloc: Global) -> consumer::Config {
        consumer::Config {
            deliver_subject: None,
            durable_name: None,
            name: self.name,
            description: self.description,
            deliver_group: None,
            deliver_policy: self.deliver_policy,
            ack_policy: AckPolicy::None,
            ack_wait: 0,
            max_deliver: 1,
            filter_subject: self.filter_subject,
            filter_subjects: self.filter_subjects,
            replay_policy: self.replay_policy,
            rate_limit: self.rate_limit,
            sample_frequency: self.sample_frequency,
            max_waiting: self.max_waiting,
            max_ack_pending: 0,
            headers_only: self.headers_only,
            flow_control: false,
            idle_heartbeat: 0,
            max_batch: self.max_batch,
            max_bytes: self.max_bytes,
            max_expires: self.max_expires,
            inactive_threshold: ORDERED_INACTIVE_THRESHOLD,
            num_replicas: 1,
            memory_storage: true,
            metadata: self.metadata,
            backoff: Items::new(alloc),
            priority_policy: PriorityPolicy::None,
            priority_groups: Items::new(alloc),
            priority_timeout: 0,
            pause_until: None,
        }
    }
}

impl FromConsumer for OrderedConfig {
    ghost of_config = { as_ordered_pull_config };

    ghost there_and_back = { λ _. refl };

    fn try_from_consumer_config(config: consumer::Config) -> Result<OrderedConfig, ConfigError> {
        Ok(OrderedConfig {
            name: config.name,
            description: config.description,
            filter_subject: config.filter_subject,
            filter_subjects: config.filter_subjects,
            replay_policy: config.replay_policy,
            rate_limit: config.rate_limit,
            sample_frequency: config.sample_frequency,
            headers_only: config.headers_only,
            deliver_policy: config.deliver_policy,
            max_waiting: config.max_waiting,
            metadata: config.metadata,
            max_batch: config.max_batch,
            max_bytes: config.max_bytes,
            max_expires: config.max_expires,
        })
    }
}
