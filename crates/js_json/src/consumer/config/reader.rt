//! Reads the configuration of a consumer in five parts.

ghost use Rattle.serde_json.specs.View.{view};
ghost use Rattle.js_json_members.specs.Member.{Gives, nested as nested_in};

use crate::consumer::config::Config;
use crate::consumer::deliver_policy::DeliverPolicy;
use crate::consumer::policies::{AckPolicy, PriorityPolicy, ReplayPolicy};
use jiff::Timestamp;
use js_base::{Items, Nanos, Text, TextMap, all_5, all_7};
use js_json_members::{
    FromValue, Key, Member, PercentText, ReadError, defaulted, nested, optional,
};
use serde_json::Value;
use std::alloc::Global;

/// The names of a consumer and where it delivers.
#[derive(Drop)]
struct Names {
    deliver_subject: Option<Text>,
    durable_name: Option<Text>,
    name: Option<Text>,
    description: Option<Text>,
    deliver_group: Option<Text>,
}

impl Names {
    ghost use Rattle.js_json.specs.ConsumerConfig.{names};

    #[tactic(auto, unfolding(crate::specs::ConsumerConfig::names))]
    fn read(alloc: Global, object: &Value) -> Result<Names, ReadError>
        ensures { Gives result (names (view object.now)) }
    {
        let (deliver_subject, durable_name, name, description, deliver_group) = all_5(
            optional(alloc, object, Key::DeliverSubject),
            optional(alloc, object, Key::DurableName),
            optional(alloc, object, Key::Name),
            optional(alloc, object, Key::Description),
            optional(alloc, object, Key::DeliverGroup),
        )?;
        Ok(Names {
            deliver_subject,
            durable_name,
            name,
            description,
            deliver_group,
        })
    }
}

/// What a consumer delivers, and how readers acknowledge it.
#[derive(Drop)]
struct Delivery {
    deliver_policy: DeliverPolicy,
    ack_policy: AckPolicy,
    ack_wait: Nanos,
    max_deliver: i64,
    filter_subject: Text,
    filter_subjects: Items<Text>,
    replay_policy: ReplayPolicy,
}

impl Delivery {
    ghost use Rattle.js_json.specs.ConsumerConfig.{delivery};

    #[tactic(auto, unfolding(crate::specs::ConsumerConfig::delivery))]
    fn read(alloc: Global, object: &Value) -> Result<Delivery, ReadError>
        ensures { Gives result (delivery (view object.now)) }
    {
        let (
            deliver_policy,
            ack_policy,
            ack_wait,
            max_deliver,
            filter_subject,
            filter_subjects,
            replay_policy,
        ) = all_7(
            DeliverPolicy::from_fields(alloc, object),
            defaulted(alloc, object, Key::AckPolicy),
            defaulted(alloc, object, Key::AckWait),
            defaulted(alloc, object, Key::MaxDeliver),
            defaulted(alloc, object, Key::FilterSubject),
            defaulted(alloc, object, Key::FilterSubjects),
            defaulted(alloc, object, Key::ReplayPolicy),
        )?;
        Ok(Delivery {
            deliver_policy,
            ack_policy,
            ack_wait,
            max_deliver,
            filter_subject,
            filter_subjects,
            replay_policy,
        })
    }
}

/// How fast a consumer delivers.
#[derive(Drop)]
struct Flow {
    rate_limit: u64,
    sample_frequency: PercentText,
    max_waiting: i64,
    max_ack_pending: i64,
    headers_only: bool,
    flow_control: bool,
    idle_heartbeat: Nanos,
}

impl Flow {
    ghost use Rattle.js_json.specs.ConsumerConfig.{flow};

    #[tactic(auto, unfolding(crate::specs::ConsumerConfig::flow))]
    fn read(alloc: Global, object: &Value) -> Result<Flow, ReadError>
        ensures { Gives result (flow (view object.now)) }
    {
        let (
            rate_limit,
            sample_frequency,
            max_waiting,
            max_ack_pending,
            headers_only,
            flow_control,
            idle_heartbeat,
        ) = all_7(
            defaulted(alloc, object, Key::RateLimitBps),
            defaulted(alloc, object, Key::SampleFreq),
            defaulted(alloc, object, Key::MaxWaiting),
            defaulted(alloc, object, Key::MaxAckPending),
            defaulted(alloc, object, Key::HeadersOnly),
            defaulted(alloc, object, Key::FlowControl),
            defaulted(alloc, object, Key::IdleHeartbeat),
        )?;
        Ok(Flow {
            rate_limit,
            sample_frequency,
            max_waiting,
            max_ack_pending,
            headers_only,
            flow_control,
            idle_heartbeat,
        })
    }
}

/// The limits of a consumer.
#[derive(Drop)]
struct Limits {
    max_batch: i64,
    max_bytes: i64,
    max_expires: Nanos,
    inactive_threshold: Nanos,
    num_replicas: u64,
}

impl Limits {
    ghost use Rattle.js_json.specs.ConsumerConfig.{limits};

    #[tactic(auto, unfolding(crate::specs::ConsumerConfig::limits))]
    fn read(alloc: Global, object: &Value) -> Result<Limits, ReadError>
        ensures { Gives result (limits (view object.now)) }
    {
        let (max_batch, max_bytes, max_expires, inactive_threshold, num_replicas) = all_5(
            defaulted(alloc, object, Key::MaxBatch),
            defaulted(alloc, object, Key::MaxBytes),
            defaulted(alloc, object, Key::MaxExpires),
            defaulted(alloc, object, Key::InactiveThreshold),
            defaulted(alloc, object, Key::NumReplicas),
        )?;
        Ok(Limits {
            max_batch,
            max_bytes,
            max_expires,
            inactive_threshold,
            num_replicas,
        })
    }
}

/// Where a consumer is kept, and which reader comes first.
#[derive(Drop)]
struct Priorities {
    memory_storage: bool,
    metadata: TextMap,
    backoff: Items<Nanos>,
    priority_policy: PriorityPolicy,
    priority_groups: Items<Text>,
    priority_timeout: Nanos,
    pause_until: Option<Timestamp>,
}

impl Priorities {
    ghost use Rattle.js_json.specs.ConsumerConfig.{priorities};

    #[tactic(auto, unfolding(crate::specs::ConsumerConfig::priorities))]
    fn read(alloc: Global, object: &Value) -> Result<Priorities, ReadError>
        ensures { Gives result (priorities (view object.now)) }
    {
        let (
            memory_storage,
            metadata,
            backoff,
            priority_policy,
            priority_groups,
            priority_timeout,
            pause_until,
        ) = all_7(
            defaulted(alloc, object, Key::MemStorage),
            defaulted(alloc, object, Key::Metadata),
            defaulted(alloc, object, Key::Backoff),
            defaulted(alloc, object, Key::PriorityPolicy),
            defaulted(alloc, object, Key::PriorityGroups),
            defaulted(alloc, object, Key::PriorityTimeout),
            optional(alloc, object, Key::PauseUntil),
        )?;
        Ok(Priorities {
            memory_storage,
            metadata,
            backoff,
            priority_policy,
            priority_groups,
            priority_timeout,
            pause_until,
        })
    }
}

impl FromValue for Config {
    ghost use Rattle.js_json.specs.ConsumerConfig.{config_fields};

    ghost fields = { config_fields };

    #[tactic(auto, unfolding(crate::specs::ConsumerConfig::config_fields))]
    fn from_fields(alloc: Global, object: &Value) -> Result<Config, ReadError> {
        let (names, delivery, flow, limits, priorities) = all_5(
            Names::read(alloc, object),
            Delivery::read(alloc, object),
            Flow::read(alloc, object),
            Limits::read(alloc, object),
            Priorities::read(alloc, object),
        )?;
        Ok(Config {
            deliver_subject: names.deliver_subject,
            durable_name: names.durable_name,
            name: names.name,
            description: names.description,
            deliver_group: names.deliver_group,
            deliver_policy: delivery.deliver_policy,
            ack_policy: delivery.ack_policy,
            ack_wait: delivery.ack_wait,
            max_deliver: delivery.max_deliver,
            filter_subject: delivery.filter_subject,
            filter_subjects: delivery.filter_subjects,
            replay_policy: delivery.replay_policy,
            rate_limit: flow.rate_limit,
            sample_frequency: flow.sample_frequency.0,
            max_waiting: flow.max_waiting,
            max_ack_pending: flow.max_ack_pending,
            headers_only: flow.headers_only,
            flow_control: flow.flow_control,
            idle_heartbeat: flow.idle_heartbeat,
            max_batch: limits.max_batch,
            max_bytes: limits.max_bytes,
            max_expires: limits.max_expires,
            inactive_threshold: limits.inactive_threshold,
            num_replicas: limits.num_replicas,
            memory_storage: priorities.memory_storage,
            metadata: priorities.metadata,
            backoff: priorities.backoff,
            priority_policy: priorities.priority_policy,
            priority_groups: priorities.priority_groups,
            priority_timeout: priorities.priority_timeout,
            pause_until: priorities.pause_until,
        })
    }
}

impl Member for Config {
    ghost use Rattle.js_json.specs.ConsumerConfig.{config_fields};

    ghost reads = { nested_in config_fields };

    fn read(alloc: Global, key: Key, value: &Value) -> Result<Config, ReadError> {
        nested(alloc, key, value)
    }
}
