//! Copies of the configurations of pull consumers.

use crate::pull::{Config, OrderedConfig};
use js_base::{OutOfMemory, TryClone, all_4, all_5};

impl TryClone for Config {
    fn try_clone(&self) -> Result<Config, OutOfMemory> {
        let (durable_name, name, description, filter_subject) = all_4(
            self.durable_name.try_clone(),
            self.name.try_clone(),
            self.description.try_clone(),
            self.filter_subject.try_clone(),
        )?;
        let (filter_subjects, metadata, backoff, priority_groups) = all_4(
            self.filter_subjects.try_clone(),
            self.metadata.try_clone(),
            self.backoff.try_clone(),
            self.priority_groups.try_clone(),
        )?;
        Ok(Config {
            durable_name,
            name,
            description,
            deliver_policy: self.deliver_policy,
            ack_policy: self.ack_policy,
            ack_wait: self.ack_wait,
            max_deliver: self.max_deliver,
            filter_subject,
            filter_subjects,
            replay_policy: self.replay_policy,
            rate_limit: self.rate_limit,
            sample_frequency: self.sample_frequency,
            max_waiting: self.max_waiting,
            max_ack_pending: self.max_ack_pending,
            headers_only: self.headers_only,
            max_batch: self.max_batch,
            max_bytes: self.max_bytes,
            max_expires: self.max_expires,
            inactive_threshold: self.inactive_threshold,
            num_replicas: self.num_replicas,
            memory_storage: self.memory_storage,
            metadata,
            backoff,
            priority_policy: self.priority_policy,
            priority_groups,
            priority_timeout: self.priority_timeout,
            pause_until: self.pause_until,
        })
    }
}

impl TryClone for OrderedConfig {
    fn try_clone(&self) -> Result<OrderedConfig, OutOfMemory> {
        let (name, description, filter_subject, filter_subjects, metadata) = all_5(
            self.name.try_clone(),
            self.description.try_clone(),
            self.filter_subject.try_clone(),
            self.filter_subjects.try_clone(),
            self.metadata.try_clone(),
        )?;
        Ok(OrderedConfig {
            name,
            description,
            filter_subject,
            filter_subjects,
            replay_policy: self.replay_policy,
            rate_limit: self.rate_limit,
            sample_frequency: self.sample_frequency,
            headers_only: self.headers_only,
            deliver_policy: self.deliver_policy,
            max_waiting: self.max_waiting,
            metadata,
            max_batch: self.max_batch,
            max_bytes: self.max_bytes,
            max_expires: self.max_expires,
        })
    }
}
