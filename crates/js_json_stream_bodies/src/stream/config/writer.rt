//! Writes the configuration of a stream row by row, in the same four parts.

ghost use Rattle.std.specs.Prelude.{Result, false};
ghost use Rattle.serde_json.specs.Data.{Members};
ghost use Rattle.js_json_members.specs.Object.{Holds};
ghost use Rattle.js_json_members.specs.Rows.{with_rows};
ghost use Rattle.js_json_members.specs.declared.error.ReadError.{ReadError};

use crate::stream::config::Config;
use js_json_members::{Key, Object, ReadError, ToValue, Written};
use serde_json::Value;
use std::alloc::Global;

impl Config {
    ghost use Rattle.js_json_stream_bodies.specs.StreamConfig.{basics_rows, limits_rows, rights_rows, origins_rows};

    fn put_basics(&self, alloc: Global, object: Object) -> Object
        ensures { (rows : Result Members ReadError) → Holds object rows
            → Holds result (with_rows rows (basics_rows self.now)) }
    {
        object
            .always(alloc, Key::Name, &self.name)
            .always(alloc, Key::Retention, &self.retention)
            .always(alloc, Key::Storage, &self.storage)
            .always(alloc, Key::Discard, &self.discard)
            .where_some(alloc, Key::Description, &self.description)
            .unless_blank(alloc, Key::Subjects, &self.subjects)
    }

    fn put_limits(&self, alloc: Global, object: Object) -> Object
        ensures { (rows : Result Members ReadError) → Holds object rows
            → Holds result (with_rows rows (limits_rows self.now)) }
    {
        object
            .unless_blank(alloc, Key::MaxMsgs, &self.max_messages)
            .unless_blank(
                alloc,
                Key::MaxMsgsPerSubject,
                &self.max_messages_per_subject,
            )
            .unless_blank(alloc, Key::MaxBytes, &self.max_bytes)
            .unless_blank(alloc, Key::MaxMsgSize, &self.max_message_size)
            .unless_blank(alloc, Key::MaxAge, &self.max_age)
            .unless_blank(alloc, Key::NumReplicas, &self.num_replicas)
    }

    fn put_rights(&self, alloc: Global, object: Object) -> Object
        ensures { (rows : Result Members ReadError) → Holds object rows
            → Holds result (with_rows rows (rights_rows self.now)) }
    {
        object
            .where_some(alloc, Key::Republish, &self.republish)
            .unless_blank(alloc, Key::AllowRollupHdrs, &self.allow_rollup)
            .unless_blank(alloc, Key::DenyDelete, &self.deny_delete)
            .unless_blank(alloc, Key::DenyPurge, &self.deny_purge)
            .unless_blank(alloc, Key::AllowDirect, &self.allow_direct)
            .unless_blank(alloc, Key::MirrorDirect, &self.mirror_direct)
    }

    fn put_origins(&self, alloc: Global, object: Object) -> Object
        ensures { (rows : Result Members ReadError) → Holds object rows
            → Holds result (with_rows rows (origins_rows self.now)) }
    {
        object
            .where_some(alloc, Key::Mirror, &self.mirror)
            .where_some(alloc, Key::Sources, &self.sources)
            .where_some(alloc, Key::Compression, &self.compression)
            .where_some(alloc, Key::Placement, &self.placement)
            .unless_blank(alloc, Key::AllowMsgTtl, &self.allow_message_ttl)
            .where_some(
                alloc,
                Key::SubjectDeleteMarkerTtl,
                &self.subject_delete_marker_ttl,
            )
    }
}

impl ToValue for Config {
    ghost use Rattle.js_json_stream_bodies.specs.StreamConfig.{config_value};

    ghost written = { config_value };

    #[tactic(auto, unfolding(crate::specs::StreamConfig::config_value))]
    fn to_value(&self, alloc: Global) -> Result<Value, ReadError> {
        let object = self.put_basics(alloc, Object::new(alloc));
        let object = self.put_limits(alloc, object);
        let object = self.put_rights(alloc, object);
        self.put_origins(alloc, object).finish()
    }
}

impl Written for Config {
    ghost use Rattle.js_json_stream_bodies.specs.StreamConfig.{config_data};

    ghost writes = { config_data };

    ghost is_blank = { λ _. false };

    fn write(&self, alloc: Global, _key: Key) -> Result<Value, ReadError> {
        self.to_value(alloc)
    }

    fn is_blank(&self) -> bool {
        false
    }
}
