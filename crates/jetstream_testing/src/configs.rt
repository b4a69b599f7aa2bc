//! Configurations of streams and consumers, as far as the server acts on them.

use crate::json::{is_set, number_at, subject_at, subjects_at, text_at};
use js_base::{Nanos, OutOfMemory, Subject, all_3, both, subject_matches};
use serde_json::Value;
use std::alloc::Global;

// How long a stream remembers message ids by default: two minutes.
const DUPLICATE_WINDOW: Nanos = 120_000_000_000;

// How long a consumer waits for an acknowledgement by default: 30 seconds.
const ACK_WAIT: Nanos = 30_000_000_000;

// How many unacknowledged messages a consumer may have by default.
const MAX_ACK_PENDING: u64 = 1_000;

// Whether one of the filters matches the subject. No filters match each.
pub(crate) fn matches_any(filters: &Vec<Subject>, subject: &str) -> bool {
    filters.is_empty()
        || filters
            .iter()
            .any(|filter| subject_matches(filter.as_str(), subject))
}

fn or_default(number: u64, default: u64) -> u64 {
    if number == 0 { default } else { number }
}

// The configuration of a stream.
#[derive(Drop)]
pub(crate) struct StreamConfig {
    // The subjects whose messages it stores.
    pub(crate) subjects: Vec<Subject>,
    // How many messages it keeps; 0 means no limit.
    pub(crate) max_messages: u64,
    // How many messages of each subject it keeps; 0 means no limit.
    pub(crate) max_per_subject: u64,
    pub(crate) duplicate_window: Nanos,
    // Whether a message is removed when it is acknowledged.
    pub(crate) is_work_queue: bool,
    pub(crate) allows_rollup: bool,
    // The configuration as it was sent.
    pub(crate) text: String,
}

impl StreamConfig {
    pub(crate) fn read(
        alloc: Global,
        name: &str,
        object: &Value,
    ) -> Result<StreamConfig, OutOfMemory> {
        let (subjects, text) = both(stream_subjects(alloc, name, object), printed(alloc, object))?;
        Ok(StreamConfig {
            subjects,
            max_messages: number_at(object, "max_msgs"),
            max_per_subject: number_at(object, "max_msgs_per_subject"),
            duplicate_window: or_default(number_at(object, "duplicate_window"), DUPLICATE_WINDOW),
            is_work_queue: text_at(object, "retention") == Some("workqueue"),
            allows_rollup: is_set(object, "allow_rollup_hdrs"),
            text,
        })
    }
}

// The subjects of a stream: its name, if none are given.
fn stream_subjects(alloc: Global, name: &str, object: &Value) -> Result<Vec<Subject>, OutOfMemory> {
    let mut subjects = subjects_at(alloc, object, "subjects")?;
    if subjects.is_empty() {
        subjects.push(Subject::new(alloc, name)?)?;
    }
    Ok(subjects)
}

fn printed(alloc: Global, object: &Value) -> Result<String, OutOfMemory> {
    Ok(object.to_string(alloc)?)
}

// Where in its stream a consumer begins.
#[derive(Clone, Copy, PartialEq, Eq)]
pub(crate) enum Start {
    All,
    Last,
    New,
    Sequence(u64),
    LastPerSubject,
}

// The words of deliver policies, but for the one that has a sequence.
const STARTS: &[(&str, Start)] = &[
    ("last", Start::Last),
    ("new", Start::New),
    ("last_per_subject", Start::LastPerSubject),
];

fn start_of(object: &Value) -> Start {
    let word = text_at(object, "deliver_policy").unwrap_or("all");
    if word == "by_start_sequence" {
        return Start::Sequence(number_at(object, "opt_start_seq"));
    }
    for &(policy, start) in STARTS {
        if word == policy {
            return start;
        }
    }
    Start::All
}

// How a consumer's messages are acknowledged.
#[derive(Clone, Copy, PartialEq, Eq)]
pub(crate) enum AckPolicy {
    None,
    All,
    Explicit,
}

fn ack_policy_of(object: &Value) -> AckPolicy {
    match text_at(object, "ack_policy") {
        Some("explicit") => AckPolicy::Explicit,
        Some("all") => AckPolicy::All,
        _ => AckPolicy::None,
    }
}

// The configuration of a consumer.
#[derive(Drop)]
pub(crate) struct ConsumerConfig {
    // Where a push consumer delivers to.
    pub(crate) deliver_to: Option<Subject>,
    // The subjects that it reads. None means all.
    pub(crate) filters: Vec<Subject>,
    pub(crate) start: Start,
    pub(crate) ack_policy: AckPolicy,
    pub(crate) ack_wait: Nanos,
    // How often a message is delivered at most; 0 means no limit.
    pub(crate) max_deliver: u64,
    pub(crate) max_ack_pending: u64,
    // How long without a message before a push consumer sends a heartbeat; 0 means never.
    pub(crate) heartbeat: Nanos,
    // The configuration as it was sent.
    pub(crate) text: String,
}

impl ConsumerConfig {
    pub(crate) fn read(alloc: Global, object: &Value) -> Result<ConsumerConfig, OutOfMemory> {
        let (deliver_to, filters, text) = all_3(
            subject_at(alloc, object, "deliver_subject"),
            consumer_filters(alloc, object),
            printed(alloc, object),
        )?;
        Ok(ConsumerConfig {
            deliver_to,
            filters,
            start: start_of(object),
            ack_policy: ack_policy_of(object),
            ack_wait: or_default(number_at(object, "ack_wait"), ACK_WAIT),
            max_deliver: number_at(object, "max_deliver"),
            max_ack_pending: or_default(number_at(object, "max_ack_pending"), MAX_ACK_PENDING),
            heartbeat: number_at(object, "idle_heartbeat"),
            text,
        })
    }
}

fn consumer_filters(alloc: Global, object: &Value) -> Result<Vec<Subject>, OutOfMemory> {
    let mut filters = subjects_at(alloc, object, "filter_subjects")?;
    if let Some(filter) = subject_at(alloc, object, "filter_subject")? {
        filters.push(filter)?;
    }
    Ok(filters)
}
