//! Writes the configuration of a consumer row by row, in the same five parts.

ghost use Rattle.std.specs.Prelude.{Result, false};
ghost use Rattle.serde_json.specs.Data.{Members};
ghost use Rattle.js_json_members.specs.Object.{Holds};
ghost use Rattle.js_json_members.specs.Rows.{with_rows};
ghost use Rattle.js_json_members.specs.declared.error.ReadError.{ReadError};

use crate::consumer::config::Config;
use js_json_members::{Key, Object, ReadError, ToValue, Written};
use serde_json::Value;
use std::alloc::Global;

impl Config {
    ghost use Rattle.js_json.specs.ConsumerConfig.{names_rows, delivery_rows, flow_rows, limits_rows, priorities_rows};

    fn put_names(&self, alloc: Global, object: Object) -> Object
        ensures { (rows : Result Members ReadError) → Holds object rows
            → Holds result (with_rows rows (names_rows self.now)) }
    {
        object
            .where_some(alloc, Key::DeliverSubject, &self.deliver_subject)
            .where_some(alloc, Key::DurableName, &self.durable_name)
            .where_some(alloc, Key::Name, &self.name)
            .where_some(alloc, Key::Description, &self.description)
            .where_some(alloc, Key::DeliverGroup, &self.deliver_group)
    }

    fn put_delivery(&self, alloc: Global, object: Object) -> Object
        ensures { (rows : Result Members ReadError) → Holds object rows
            → Holds result (with_rows rows (delivery_rows self.now)) }
    {
        object
            .always(alloc, Key::DeliverPolicy, &self.deliver_policy)
            .where_some(
                alloc,
                Key::OptStartSeq,
                &self.deliver_policy.start_sequence(),
            )
            .where_some(alloc, Key::OptStartTime, &self.deliver_policy.start_time())
            .always(alloc, Key::AckPolicy, &self.ack_policy)
            .unless_blank(alloc, Key::AckWait, &self.ack_wait)
            .unless_blank(alloc, Key::MaxDeliver, &self.max_deliver)
            .unless_blank(alloc, Key::FilterSubject, &self.filter_subject)
            .unless_blank(alloc, Key::FilterSubjects, &self.filter_subjects)
            .always(alloc, Key::ReplayPolicy, &self.replay_policy)
    }

    fn put_flow(&self, alloc: Global, object: Object) -> Object
        ensures { (rows : Result Members ReadError) → Holds object rows
            → Holds result (with_rows rows (flow_rows self.now)) }
    {
        object
            .unless_blank(alloc, Key::RateLimitBps, &self.rate_limit)
            .unless_blank(alloc, Key::SampleFreq, &self.sample_frequency)
            .unless_blank(alloc, Key::MaxWaiting, &self.max_waiting)
            .unless_blank(alloc, Key::MaxAckPending, &self.max_ack_pending)
            .unless_blank(alloc, Key::HeadersOnly, &self.headers_only)
            .unless_blank(alloc, Key::FlowControl, &self.flow_control)
            .unless_blank(alloc, Key::IdleHeartbeat, &self.idle_heartbeat)
    }

    fn put_limits(&self, alloc: Global, object: Object) -> Object
        ensures { (rows : Result Members ReadError) → Holds object rows
            → Holds result (with_rows rows (limits_rows self.now)) }
    {
        object
            .unless_blank(alloc, Key::MaxBatch, &self.max_batch)
            .unless_blank(alloc, Key::MaxBytes, &self.max_bytes)
            .unless_blank(alloc, Key::MaxExpires, &self.max_expires)
            .unless_blank(alloc, Key::InactiveThreshold, &self.inactive_threshold)
            .unless_blank(alloc, Key::NumReplicas, &self.num_replicas)
    }

    fn put_priorities(&self, alloc: Global, object: Object) -> Object
        ensures { (rows : Result Members ReadError) → Holds object rows
            → Holds result (with_rows rows (priorities_rows self.now)) }
    {
        object
            .unless_blank(alloc, Key::MemStorage, &self.memory_storage)
            .unless_blank(alloc, Key::Metadata, &self.metadata)
            .unless_blank(alloc, Key::Backoff, &self.backoff)
            .unless_blank(alloc, Key::PriorityPolicy, &self.priority_policy)
            .unless_blank(alloc, Key::PriorityGroups, &self.priority_groups)
            .unless_blank(alloc, Key::PriorityTimeout, &self.priority_timeout)
            .where_some(alloc, Key::PauseUntil, &self.pause_until)
    }
}

impl ToValue for Config {
    ghost use Rattle.js_json.specs.ConsumerConfig.{config_value};

    ghost written = { config_value };

    #[tactic(auto, unfolding(crate::specs::ConsumerConfig::config_value))]
    fn to_value(&self, alloc: Global) -> Result<Value, ReadError> {
        let object = self.put_names(alloc, Object::new(alloc));
        let object = self.put_delivery(alloc, object);
        let object = self.put_flow(alloc, object);
        let object = self.put_limits(alloc, object);
        self.put_priorities(alloc, object).finish()
    }
}

impl Written for Config {
    ghost use Rattle.js_json.specs.ConsumerConfig.{config_data};

    ghost writes = { config_data };

    ghost is_blank = { λ _. false };

    fn write(&self, alloc: Global, _key: Key) -> Result<Value, ReadError> {
        self.to_value(alloc)
    }

    fn is_blank(&self) -> bool {
        false
    }
}
