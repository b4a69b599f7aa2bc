//! Converts the configuration of an ordered pull consumer to that of a plain pull consumer.

ghost use Rattle.std.specs.Prelude.{◌≡◌, Ok};
ghost use Rattle.js_json.specs.Conversion.{as_pull_config, ordered_pull_config};

use crate::consumer::{AckPolicy, ORDERED_INACTIVE_THRESHOLD, PriorityPolicy};
use crate::pull::{Config, OrderedConfig};
use js_base::Items;

impl From<OrderedConfig> for Config {
    ghost from_gives = { λ ordered config. as_pull_config (ordered_pull_config ordered) ≡ Ok config };

    fn from(ordered: OrderedConfig) -> Config {
        let filter_subjects = ordered.filter_subjects.into_vec();
        let alloc = *filter_subjects.allocator();
        Config {
            durable_name: None,
            name: ordered.name,
            description: ordered.description,
            deliver_policy: ordered.deliver_policy,
            ack_policy: AckPolicy::None,
            ack_wait: 0,
            max_deliver: 1,
            filter_subject: ordered.filter_subject,
            filter_subjects: Items::from(filter_subjects),
            replay_policy: ordered.replay_policy,
            rate_limit: ordered.rate_limit,
            sample_frequency: ordered.sample_frequency,
            max_waiting: ordered.max_waiting,
            max_ack_pending: 0,
            headers_only: ordered.headers_only,
            max_batch: ordered.max_batch,
            max_bytes: ordered.max_bytes,
            max_expires: ordered.max_expires,
            inactive_threshold: ORDERED_INACTIVE_THRESHOLD,
            num_replicas: 1,
            memory_storage: true,
            metadata: ordered.metadata,
            backoff: Items::new(alloc),
            priority_policy: PriorityPolicy::None,
            priority_groups: Items::new(alloc),
            priority_timeout: 0,
            pause_until: None,
        }
    }
}
