//! Texts that servers answer.

use crate::bodies::Body;

/// Texts, what each is read as, and what it says.
pub(crate) const ANSWERS: &[(Body, &str, &str)] = &[
    (
        Body::ConsumerInfo,
        r#"{"type":"io.nats.jetstream.api.v1.consumer_create_response","stream_name":"events","name":"c1_1","created":"2026-11-26T23:40:12.214345459Z","config":{"name":"c1_1","deliver_policy":"by_start_sequence","opt_start_seq":301,"ack_policy":"none","max_deliver":1,"replay_policy":"instant","idle_heartbeat":5000000000,"flow_control":true,"deliver_subject":"_INBOX.live.1","inactive_threshold":30000000000,"num_replicas":1,"mem_storage":true},"delivered":{"consumer_seq":0,"stream_seq":300},"ack_floor":{"consumer_seq":0,"stream_seq":0},"num_ack_pending":0,"num_redelivered":0,"num_waiting":0,"num_pending":300,"push_bound":true}"#,
        r#"300 300 {"ack_policy":"none","deliver_policy":"by_start_sequence","deliver_subject":"_INBOX.live.1","flow_control":true,"idle_heartbeat":5000000000,"inactive_threshold":30000000000,"max_deliver":1,"mem_storage":true,"name":"c1_1","num_replicas":1,"opt_start_seq":301,"replay_policy":"instant"}"#,
    ),
    (
        Body::StreamInfo,
        r#"{"type":"io.nats.jetstream.api.v1.stream_info_response","total":0,"offset":0,"limit":0,"config":{"name":"events","subjects":["events.>"],"retention":"limits","max_consumers":-1,"max_msgs":-1,"max_bytes":-1,"max_age":0,"max_msgs_per_subject":-1,"max_msg_size":-1,"discard":"old","storage":"file","num_replicas":1,"duplicate_window":120000000000,"compression":"s2","allow_direct":true,"mirror_direct":false,"sealed":false,"deny_delete":false,"deny_purge":false,"allow_rollup_hdrs":false,"consumer_limits":{}},"created":"2026-11-26T23:40:12.214345459Z","state":{"messages":300,"bytes":12600,"first_seq":1,"first_ts":"2026-11-26T23:40:12.3Z","last_seq":300,"last_ts":"2026-11-26T23:40:13Z","num_subjects":1,"consumer_count":1},"cluster":{"leader":"n1"},"ts":"2026-11-26T23:41:00Z"}"#,
        r#"300 12600 1 300 1795736412214345459 {"allow_direct":true,"compression":"s2","discard":"old","max_bytes":-1,"max_msg_size":-1,"max_msgs":-1,"max_msgs_per_subject":-1,"name":"events","num_replicas":1,"retention":"limits","storage":"file","subjects":["events.>"]}"#,
    ),
    (
        Body::Names,
        r#"{"total":3,"offset":0,"limit":1024,"streams":["a","b"]}"#,
        "3 2",
    ),
    (Body::Names, r#"{"total":0,"streams":[]}"#, "0 0"),
    (Body::Names, r#"{"total":0,"streams":null}"#, "0 none"),
    (Body::Names, r#"{"total":7}"#, "7 none"),
    (
        Body::Streams,
        r#"{"total":1,"streams":[{"type":"io.nats.jetstream.api.v1.stream_info_response","total":0,"offset":0,"limit":0,"config":{"name":"events","subjects":["events.>"],"retention":"limits","max_consumers":-1,"max_msgs":-1,"max_bytes":-1,"max_age":0,"max_msgs_per_subject":-1,"max_msg_size":-1,"discard":"old","storage":"file","num_replicas":1,"duplicate_window":120000000000,"compression":"s2","allow_direct":true,"mirror_direct":false,"sealed":false,"deny_delete":false,"deny_purge":false,"allow_rollup_hdrs":false,"consumer_limits":{}},"created":"2026-11-26T23:40:12.214345459Z","state":{"messages":300,"bytes":12600,"first_seq":1,"first_ts":"2026-11-26T23:40:12.3Z","last_seq":300,"last_ts":"2026-11-26T23:40:13Z","num_subjects":1,"consumer_count":1},"cluster":{"leader":"n1"},"ts":"2026-11-26T23:41:00Z"}]}"#,
        "1 1",
    ),
    (Body::Deletion, r#"{"success":true}"#, "true"),
    (Body::Deletion, r#"{"type":"t","success":false}"#, "false"),
    (Body::Deletion, "{}", "success: missing"),
    (Body::Answer, r#"{"stream":"TEST","seq":1}"#, "TEST 1"),
    (
        Body::Answer,
        r#"{"error":{"code":503,"err_code":10077,"description":"no"},"stream":"TEST","seq":2}"#,
        "refused 10077",
    ),
    (
        Body::Answer,
        r#"{"error":{"code":"503"},"stream":"TEST","seq":3}"#,
        "TEST 3",
    ),
    (
        Body::Answer,
        r#"{"error":null,"stream":"TEST","seq":4,"duplicate":true}"#,
        "TEST 4",
    ),
    (Body::AnswerValue, r#"{"stream":"TEST","seq":1}"#, "TEST 1"),
    (
        Body::AnswerValue,
        r#"{"error":{"code":503,"err_code":10077,"description":"no"},"stream":"TEST","seq":2}"#,
        "refused 10077",
    ),
    (
        Body::AnswerValue,
        r#"{"error":{"code":"503"},"stream":"TEST","seq":3}"#,
        "TEST 3",
    ),
    (
        Body::AnswerValue,
        r#"{"error":null,"stream":"TEST","seq":4,"duplicate":true}"#,
        "TEST 4",
    ),
    (
        Body::Printed,
        r#"{"code":404,"err_code":10059,"description":"stream not found"}"#,
        "stream not found (code 404, error code 10059)",
    ),
    (
        Body::Written,
        r#"{"code":404,"err_code":10059,"description":"stream not found"}"#,
        r#"{"code":404,"description":"stream not found","err_code":10059}"#,
    ),
    (
        Body::Printed,
        r#"{"code":404}"#,
        "unknown (code 404, error code 0)",
    ),
    (
        Body::Written,
        r#"{"code":404}"#,
        r#"{"code":404,"description":null,"err_code":0}"#,
    ),
    (
        Body::Printed,
        r#"{"code":503,"description":null,"other":[]}"#,
        "unknown (code 503, error code 0)",
    ),
    (
        Body::Written,
        r#"{"code":503,"description":null,"other":[]}"#,
        r#"{"code":503,"description":null,"err_code":0}"#,
    ),
    (Body::Pin, r#"{"group":"g"}"#, "none"),
    (Body::Pin, r#"{"group":"g","pinned_ts":null}"#, "none"),
    (
        Body::Pin,
        r#"{"group":"g","pinned_ts":"0001-01-01T00:00:00Z"}"#,
        "none",
    ),
    (
        Body::Pin,
        r#"{"group":"g","pinned_ts":"0001-01-01T02:00:00+02:00"}"#,
        "-62135596800000000000",
    ),
    (
        Body::Pin,
        r#"{"group":"g","pinned_ts":"2026-01-01T00:00:00Z"}"#,
        "1767225600000000000",
    ),
    (
        Body::Pin,
        r#"{"pinned_ts":"2026-01-01T00:00:00Z"}"#,
        "group: missing",
    ),
    (Body::Placement, "{}", "{}"),
    (Body::Placement, "5", "cluster: of the wrong kind"),
    (Body::Placement, "[]", "cluster: of the wrong kind"),
    (Body::Republish, "5", "src: of the wrong kind"),
    (Body::External, "[]", "api: of the wrong kind"),
    (
        Body::Republish,
        "{}",
        r#"{"dest":"","headers_only":false,"src":""}"#,
    ),
    (Body::External, "{}", r#"{"api":""}"#),
    (Body::Cluster, "5", "name: of the wrong kind"),
    (Body::Cluster, "{}", "none none"),
    (Body::Cluster, r#"{"name":"c","leader":null}"#, "c none"),
];

/// An account with one tier.
pub(crate) const ACCOUNT: &str =
    r#"{"memory":1,"storage":2,"reserved_memory":3,"reserved_storage":4,"streams":5,"consumers":6,"domain":"hub","limits":{"max_memory":-1,"max_storage":10,"max_streams":0,"max_consumers":-5,"max_ack_pending":-1,"memory_max_stream_bytes":-1,"storage_max_stream_bytes":-1,"max_bytes_required":true},"api":{"total":7,"errors":8},"tiers":{"R1":{"memory":1,"storage":2,"reserved_memory":3,"reserved_storage":4,"streams":5,"consumers":6,"limits":{"max_memory":-1,"max_storage":10,"max_streams":0,"max_consumers":-5,"max_ack_pending":-1,"memory_max_stream_bytes":-1,"storage_max_stream_bytes":-1,"max_bytes_required":true}}}}"#;
