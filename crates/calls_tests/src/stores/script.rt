//! What a call asks, and what it is replied. A row of a table names both, since a text that stands in it is dear to prove.

use js_base::StatusCode;

/// The body that makes a bucket of keys.
const BUCKET: &str =
    r#"{"allow_direct":true,"allow_rollup_hdrs":true,"deny_delete":true,"description":"","discard":"new","max_msgs_per_subject":1,"name":"KV_cfg","num_replicas":1,"retention":"limits","storage":"file","subjects":["$KV.cfg.>"]}"#;

/// The same with 64 values of a key, and markers that stand for a second.
const MARKED: &str =
    r#"{"allow_direct":true,"allow_msg_ttl":true,"allow_rollup_hdrs":true,"deny_delete":true,"description":"","discard":"new","max_msgs_per_subject":64,"name":"KV_cfg","num_replicas":1,"retention":"limits","storage":"file","subject_delete_marker_ttl":1000000000,"subjects":["$KV.cfg.>"]}"#;

/// The body that makes a bucket of objects.
const OBJECTS: &str =
    r#"{"allow_direct":true,"allow_rollup_hdrs":true,"compression":"s2","discard":"new","name":"OBJ_files","retention":"limits","storage":"file","subjects":["$O.files.C.>","$O.files.M.>"]}"#;

/// An account whose server does not say how far its API goes.
const LEVEL_0: &str =
    r#"{"memory":0,"storage":96,"reserved_memory":0,"reserved_storage":0,"streams":1,"consumers":0,"limits":{"max_memory":-1,"max_storage":-1,"max_streams":-1,"max_consumers":-1,"max_ack_pending":-1,"memory_max_stream_bytes":-1,"storage_max_stream_bytes":-1,"max_bytes_required":false},"api":{"total":3,"errors":0}}"#;

const LEVEL_1: &str =
    r#"{"memory":0,"storage":96,"reserved_memory":0,"reserved_storage":0,"streams":1,"consumers":0,"limits":{"max_memory":-1,"max_storage":-1,"max_streams":-1,"max_consumers":-1,"max_ack_pending":-1,"memory_max_stream_bytes":-1,"storage_max_stream_bytes":-1,"max_bytes_required":false},"api":{"level":1,"total":3,"errors":0}}"#;

/// An account of a server that does not say what is set aside.
const OLD: &str =
    r#"{"memory":0,"storage":96,"streams":1,"consumers":0,"api":{"total":3,"errors":0}}"#;

/// A bucket's stream.
const KNOWN: &str =
    r#"{"config":{"name":"KV_cfg","max_msgs_per_subject":1},"created":"2026-01-01T00:00:00Z","state":{"messages":3,"bytes":96,"first_seq":1,"last_seq":3}}"#;

/// One that is a mirror of another domain's.
const MIRROR: &str =
    r#"{"config":{"name":"KV_cfg","max_msgs_per_subject":1,"mirror":{"name":"KV_src","external":{"api":"$JS.hub.API"}}},"created":"2026-01-01T00:00:00Z","state":{"messages":3,"bytes":96,"first_seq":1,"last_seq":3}}"#;

/// A stream that keeps no value of a key.
const NO_BUCKET: &str =
    r#"{"config":{"name":"KV_cfg"},"created":"2026-01-01T00:00:00Z","state":{"messages":3,"bytes":96,"first_seq":1,"last_seq":3}}"#;

/// The stream of a bucket of objects.
const KNOWN_OBJECTS: &str =
    r#"{"config":{"name":"OBJ_files"},"created":"2026-01-01T00:00:00Z","state":{"messages":3,"bytes":96,"first_seq":1,"last_seq":3}}"#;

/// A request.
#[derive(Clone, Copy)]
pub(crate) enum Asked {
    Account,
    Info,
    /// Under another prefix of the API.
    InfoElsewhere,
    Delete,
    Create,
    CreateMarked,
    Update,
    ObjectsInfo,
    DeleteObjects,
    CreateObjects,
}

impl Asked {
    /// Its subject and its body.
    pub(crate) fn texts(self) -> (&'static str, &'static str) {
        match self {
            Asked::Account => ("$JS.API.INFO", "[]"),
            Asked::Info => ("$JS.API.STREAM.INFO.KV_cfg", "null"),
            Asked::InfoElsewhere => ("$JS.hub.API.STREAM.INFO.KV_cfg", "null"),
            Asked::Delete => ("$JS.API.STREAM.DELETE.KV_cfg", "{}"),
            Asked::Create => ("$JS.API.STREAM.CREATE.KV_cfg", BUCKET),
            Asked::CreateMarked => ("$JS.API.STREAM.CREATE.KV_cfg", MARKED),
            Asked::Update => ("$JS.API.STREAM.UPDATE.KV_cfg", BUCKET),
            Asked::ObjectsInfo => ("$JS.API.STREAM.INFO.OBJ_files", "null"),
            Asked::DeleteObjects => ("$JS.API.STREAM.DELETE.OBJ_files", "{}"),
            Asked::CreateObjects => ("$JS.API.STREAM.CREATE.OBJ_files", OBJECTS),
        }
    }
}

/// What a server replies.
#[derive(Clone, Copy)]
pub(crate) enum Reply {
    /// What comes where nobody answers.
    Nobody,
    /// The stream is not there.
    Absent,
    /// Another error of the API.
    Wrong,
    Deleted,
    Level0,
    Level1,
    Old,
    Known,
    Mirror,
    NoBucket,
    KnownObjects,
}

impl Reply {
    /// Its status and its body.
    pub(crate) fn parts(self) -> (Option<StatusCode>, &'static str) {
        (self.status(), self.text())
    }

    fn status(self) -> Option<StatusCode> {
        match self {
            Reply::Nobody => Some(StatusCode(503)),
            _ => None,
        }
    }

    fn text(self) -> &'static str {
        match self {
            Reply::Nobody => "",
            Reply::Absent => r#"{"error":{"code":404,"err_code":10059}}"#,
            Reply::Wrong => { r#"{"error":{"code":400,"err_code":10058,"description":"no"}}"# }
            Reply::Deleted => r#"{"success":true}"#,
            Reply::Level0 => LEVEL_0,
            Reply::Level1 => LEVEL_1,
            Reply::Old => OLD,
            Reply::Known => KNOWN,
            Reply::Mirror => MIRROR,
            Reply::NoBucket => NO_BUCKET,
            Reply::KnownObjects => KNOWN_OBJECTS,
        }
    }
}
