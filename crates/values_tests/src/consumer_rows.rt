//! Texts of consumer configurations.

/// Texts that are no configuration, or one that has no text, and why.
pub(crate) const FAULTS: &[(&str, &str)] = &[
    ("{}", "deliver_policy: missing"),
    ("[]", "deliver_policy: missing"),
    (
        r#"{"deliver_policy":"by_start_sequence"}"#,
        "opt_start_seq: missing",
    ),
    (
        r#"{"deliver_policy":"by_start_time"}"#,
        "opt_start_time: missing",
    ),
    (
        r#"{"deliver_policy":1}"#,
        "deliver_policy: of the wrong kind",
    ),
    (
        r#"{"deliver_policy":null}"#,
        "deliver_policy: of the wrong kind",
    ),
    (
        r#"{"deliver_policy":"some"}"#,
        "deliver_policy: out of range",
    ),
    (
        r#"{"deliver_policy":"by_start_time","opt_start_time":"yesterday"}"#,
        "opt_start_time: out of range",
    ),
    (
        r#"{"deliver_policy":"all","ack_policy":"some"}"#,
        "ack_policy: out of range",
    ),
    (
        r#"{"deliver_policy":"all","max_batch":9223372036854775808}"#,
        "max_batch: out of range",
    ),
    (
        r#"{"deliver_policy":"all","ack_wait":-1}"#,
        "ack_wait: out of range",
    ),
    (
        r#"{"deliver_policy":"all","ack_wait":-1,"name":7}"#,
        "name: of the wrong kind",
    ),
    (
        r#"{"deliver_policy":"all","filter_subject":null}"#,
        "filter_subject: of the wrong kind",
    ),
    (
        r#"{"deliver_policy":"all","backoff":[1,"2"]}"#,
        "backoff: of the wrong kind",
    ),
    (
        r#"{"deliver_policy":"all","metadata":{"a":1}}"#,
        "metadata: of the wrong kind",
    ),
    (
        r#"{"deliver_policy":"all","sample_freq":30}"#,
        "sample_freq: of the wrong kind",
    ),
    (
        r#"{"deliver_policy":"all","sample_freq":""}"#,
        "sample_freq: out of range",
    ),
    (
        r#"{"deliver_policy":"all","sample_freq":"%"}"#,
        "sample_freq: out of range",
    ),
    (
        r#"{"deliver_policy":"all","sample_freq":"30%%"}"#,
        "sample_freq: out of range",
    ),
    (
        r#"{"deliver_policy":"all","sample_freq":"30%%junk"}"#,
        "sample_freq: out of range",
    ),
    (
        r#"{"deliver_policy":"all","sample_freq":"256"}"#,
        "sample_freq: out of range",
    ),
    (
        r#"{"deliver_policy":"all","max_batch":1.5}"#,
        "a number is no 64-bit integer",
    ),
    (
        r#"{"deliver_policy":1,"other":[{"x":-0}]}"#,
        "a number is no 64-bit integer",
    ),
    ("{", "not JSON"),
    (r#"{"deliver_policy":"all"} x"#, "not JSON"),
    (
        r#"{"deliver_policy":"by_start_time","opt_start_time":"-000001-01-01T00:00:00Z"}"#,
        "opt_start_time: out of range",
    ),
];

/// Texts of configurations, and what is written for each.
pub(crate) const CONFIGS: &[(&str, &str)] = &[
    (
        r#"{"deliver_policy":"all"}"#,
        r#"{"ack_policy":"explicit","deliver_policy":"all","replay_policy":"instant"}"#,
    ),
    (
        r#"{"name":null,"pause_until":null,"other":{},"deliver_policy":"new","deliver_policy":"last"}"#,
        r#"{"ack_policy":"explicit","deliver_policy":"last","replay_policy":"instant"}"#,
    ),
    (
        r#"{"deliver_policy":"all","opt_start_seq":"x","sample_freq":"+30%","ack_policy":"flow_control"}"#,
        r#"{"ack_policy":"flow_control","deliver_policy":"all","replay_policy":"instant","sample_freq":"30"}"#,
    ),
    (
        r#"{"deliver_policy":"by_start_time","opt_start_time":"2024-02-29t12:30:05.250+01:00","pause_until":"1969-12-31T23:59:59.999999999Z"}"#,
        r#"{"ack_policy":"explicit","deliver_policy":"by_start_time","opt_start_time":"2024-02-29T11:30:05.25Z","pause_until":"1969-12-31T23:59:59.999999999Z","replay_policy":"instant"}"#,
    ),
    (
        r#"{"deliver_subject":"d","durable_name":"n","name":"n","description":"t","deliver_group":"g","deliver_policy":"by_start_sequence","opt_start_seq":3,"ack_policy":"all","ack_wait":1,"max_deliver":-1,"filter_subject":"a.b","filter_subjects":["a","b"],"replay_policy":"original","rate_limit_bps":2,"sample_freq":"7","max_waiting":-3,"max_ack_pending":4,"headers_only":true,"flow_control":true,"idle_heartbeat":5,"max_batch":6,"max_bytes":7,"max_expires":8,"inactive_threshold":9,"num_replicas":3,"mem_storage":true,"metadata":{"b":"2","a":"1"},"backoff":[1,18446744073709551615],"priority_policy":"pinned_client","priority_groups":["g"],"priority_timeout":10,"pause_until":"2026-01-01T00:00:00Z"}"#,
        r#"{"ack_policy":"all","ack_wait":1,"backoff":[1,18446744073709551615],"deliver_group":"g","deliver_policy":"by_start_sequence","deliver_subject":"d","description":"t","durable_name":"n","filter_subject":"a.b","filter_subjects":["a","b"],"flow_control":true,"headers_only":true,"idle_heartbeat":5,"inactive_threshold":9,"max_ack_pending":4,"max_batch":6,"max_bytes":7,"max_deliver":-1,"max_expires":8,"max_waiting":-3,"mem_storage":true,"metadata":{"a":"1","b":"2"},"name":"n","num_replicas":3,"opt_start_seq":3,"pause_until":"2026-01-01T00:00:00Z","priority_groups":["g"],"priority_policy":"pinned_client","priority_timeout":10,"rate_limit_bps":2,"replay_policy":"original","sample_freq":"7"}"#,
    ),
    (
        r#"{"deliver_policy":"all","sample_freq":"30"}"#,
        r#"{"ack_policy":"explicit","deliver_policy":"all","replay_policy":"instant","sample_freq":"30"}"#,
    ),
    (
        r#"{"deliver_policy":"all","sample_freq":"30%"}"#,
        r#"{"ack_policy":"explicit","deliver_policy":"all","replay_policy":"instant","sample_freq":"30"}"#,
    ),
    (
        r#"{"deliver_policy":"all","sample_freq":"+30%"}"#,
        r#"{"ack_policy":"explicit","deliver_policy":"all","replay_policy":"instant","sample_freq":"30"}"#,
    ),
    (
        r#"{"deliver_policy":"all","sample_freq":"007"}"#,
        r#"{"ack_policy":"explicit","deliver_policy":"all","replay_policy":"instant","sample_freq":"7"}"#,
    ),
    (
        r#"{"deliver_policy":"all","sample_freq":"255%"}"#,
        r#"{"ack_policy":"explicit","deliver_policy":"all","replay_policy":"instant","sample_freq":"255"}"#,
    ),
];
