//! Texts of stream configurations.

/// Texts that are no configuration, and why.
pub(crate) const FAULTS: &[(&str, &str)] = &[
    ("{}", "name: missing"),
    ("[]", "name: missing"),
    (r#"{"name":null}"#, "name: of the wrong kind"),
    (
        r#"{"name":"a","retention":"some","description":1}"#,
        "retention: out of range",
    ),
    (
        r#"{"name":"a","storage":1,"retention":"limits"}"#,
        "storage: of the wrong kind",
    ),
    (
        r#"{"name":"a","discard":null}"#,
        "discard: of the wrong kind",
    ),
    (
        r#"{"name":"a","subjects":null}"#,
        "subjects: of the wrong kind",
    ),
    (
        r#"{"name":"a","max_msgs":9223372036854775808}"#,
        "max_msgs: out of range",
    ),
    (r#"{"name":"a","max_age":-1}"#, "max_age: out of range"),
    (
        r#"{"name":"a","republish":{"src":1}}"#,
        "src: of the wrong kind",
    ),
    (r#"{"name":"a","mirror":[]}"#, "mirror: of the wrong kind"),
    (
        r#"{"name":"a","sources":[{"name":"b"},{}]}"#,
        "name: missing",
    ),
    (
        r#"{"name":"a","compression":"zip"}"#,
        "compression: out of range",
    ),
    (
        r#"{"name":"a","placement":{"tags":null}}"#,
        "tags: of the wrong kind",
    ),
    (
        r#"{"name":1,"mirror":{"name":"b","opt_start_seq":1.0}}"#,
        "a number is no 64-bit integer",
    ),
    (r#"{"name":"a""#, "not JSON"),
];

/// Texts of configurations, and what is written for each.
pub(crate) const CONFIGS: &[(&str, &str)] = &[
    (
        r#"{"name":"events"}"#,
        r#"{"discard":"old","name":"events","retention":"limits","storage":"file"}"#,
    ),
    (
        r#"{"name":"a","description":null,"republish":null,"mirror":null,"sources":null,"compression":null,"placement":null,"subject_delete_marker_ttl":null,"max_consumers":-1,"duplicate_window":120000000000,"sealed":false}"#,
        r#"{"discard":"old","name":"a","retention":"limits","storage":"file"}"#,
    ),
    (
        r#"{"name":"a","description":"","sources":[],"republish":{},"placement":{},"mirror":{"name":"b","domain":"hub","opt_start_time":"x","external":{}}}"#,
        r#"{"description":"","discard":"old","mirror":{"external":{"api":""},"name":"b"},"name":"a","placement":{},"republish":{"dest":"","headers_only":false,"src":""},"retention":"limits","sources":[],"storage":"file"}"#,
    ),
    (
        r#"{"name":"KV_cfg","description":"","subjects":["$KV.cfg.>"],"discard":"new","max_msgs_per_subject":1,"num_replicas":1,"allow_direct":true,"allow_rollup_hdrs":true,"deny_delete":true}"#,
        r#"{"allow_direct":true,"allow_rollup_hdrs":true,"deny_delete":true,"description":"","discard":"new","max_msgs_per_subject":1,"name":"KV_cfg","num_replicas":1,"retention":"limits","storage":"file","subjects":["$KV.cfg.>"]}"#,
    ),
    (
        r#"{"name":"a","retention":"workqueue","storage":"memory","discard":"new","description":"d","subjects":["b","a"],"max_msgs":-1,"max_msgs_per_subject":2,"max_bytes":-3,"max_msg_size":4,"max_age":18446744073709551615,"num_replicas":3,"republish":{"src":"s","dest":"d","headers_only":true},"allow_rollup_hdrs":true,"deny_delete":true,"deny_purge":true,"allow_direct":true,"mirror_direct":true,"mirror":{"name":"m","opt_start_seq":5,"filter_subject":"f","external":{"api":"$JS.hub.API","deliver":"x"}},"sources":[{"name":"s"}],"compression":"none","placement":{"cluster":"c","tags":["t"]},"allow_msg_ttl":true,"subject_delete_marker_ttl":1000000000}"#,
        r#"{"allow_direct":true,"allow_msg_ttl":true,"allow_rollup_hdrs":true,"compression":"none","deny_delete":true,"deny_purge":true,"description":"d","discard":"new","max_age":18446744073709551615,"max_bytes":-3,"max_msg_size":4,"max_msgs":-1,"max_msgs_per_subject":2,"mirror":{"external":{"api":"$JS.hub.API","deliver":"x"},"filter_subject":"f","name":"m","opt_start_seq":5},"mirror_direct":true,"name":"a","num_replicas":3,"placement":{"cluster":"c","tags":["t"]},"republish":{"dest":"d","headers_only":true,"src":"s"},"retention":"workqueue","sources":[{"name":"s"}],"storage":"memory","subject_delete_marker_ttl":1000000000,"subjects":["b","a"]}"#,
    ),
];
