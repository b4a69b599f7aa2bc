//! Reads the configuration of a stream in four parts.

ghost use Rattle.serde_json.specs.View.{view};
ghost use Rattle.js_json_members.specs.Member.{Gives, nested as nested_in};

use crate::stream::config::Config;
use crate::stream::placement::Placement;
use crate::stream::policies::{Compression, DiscardPolicy, RetentionPolicy, StorageType};
use crate::stream::republish::Republish;
use crate::stream::source::Source;
use js_base::{Items, Nanos, Text, all_4, all_6};
use js_json_members::{FromValue, Key, Member, ReadError, defaulted, nested, optional, required};
use serde_json::Value;
use std::alloc::Global;

/// The name of a stream, what it stores, and how.
#[derive(Drop)]
struct Basics {
    name: Text,
    retention: RetentionPolicy,
    storage: StorageType,
    discard: DiscardPolicy,
    description: Option<Text>,
    subjects: Items<Text>,
}

impl Basics {
    ghost use Rattle.js_json_stream_bodies.specs.StreamConfig.{basics};

    #[tactic(auto, unfolding(crate::specs::StreamConfig::basics))]
    fn read(alloc: Global, object: &Value) -> Result<Basics, ReadError>
        ensures { Gives result (basics (view object.now)) }
    {
        let (name, retention, storage, discard, description, subjects) = all_6(
            required(alloc, object, Key::Name),
            defaulted(alloc, object, Key::Retention),
            defaulted(alloc, object, Key::Storage),
            defaulted(alloc, object, Key::Discard),
            optional(alloc, object, Key::Description),
            defaulted(alloc, object, Key::Subjects),
        )?;
        Ok(Basics {
            name,
            retention,
            storage,
            discard,
            description,
            subjects,
        })
    }
}

/// The limits of a stream.
#[derive(Drop)]
struct Limits {
    max_messages: i64,
    max_messages_per_subject: i64,
    max_bytes: i64,
    max_message_size: i64,
    max_age: Nanos,
    num_replicas: u64,
}

impl Limits {
    ghost use Rattle.js_json_stream_bodies.specs.StreamConfig.{limits};

    #[tactic(auto, unfolding(crate::specs::StreamConfig::limits))]
    fn read(alloc: Global, object: &Value) -> Result<Limits, ReadError>
        ensures { Gives result (limits (view object.now)) }
    {
        let (
            max_messages,
            max_messages_per_subject,
            max_bytes,
            max_message_size,
            max_age,
            num_replicas,
        ) = all_6(
            defaulted(alloc, object, Key::MaxMsgs),
            defaulted(alloc, object, Key::MaxMsgsPerSubject),
            defaulted(alloc, object, Key::MaxBytes),
            defaulted(alloc, object, Key::MaxMsgSize),
            defaulted(alloc, object, Key::MaxAge),
            defaulted(alloc, object, Key::NumReplicas),
        )?;
        Ok(Limits {
            max_messages,
            max_messages_per_subject,
            max_bytes,
            max_message_size,
            max_age,
            num_replicas,
        })
    }
}

/// What users may do with the messages of a stream.
#[derive(Drop)]
struct Rights {
    republish: Option<Republish>,
    allow_rollup: bool,
    deny_delete: bool,
    deny_purge: bool,
    allow_direct: bool,
    mirror_direct: bool,
}

impl Rights {
    ghost use Rattle.js_json_stream_bodies.specs.StreamConfig.{rights};

    #[tactic(auto, unfolding(crate::specs::StreamConfig::rights))]
    fn read(alloc: Global, object: &Value) -> Result<Rights, ReadError>
        ensures { Gives result (rights (view object.now)) }
    {
        let (republish, allow_rollup, deny_delete, deny_purge, allow_direct, mirror_direct) = all_6(
            optional(alloc, object, Key::Republish),
            defaulted(alloc, object, Key::AllowRollupHdrs),
            defaulted(alloc, object, Key::DenyDelete),
            defaulted(alloc, object, Key::DenyPurge),
            defaulted(alloc, object, Key::AllowDirect),
            defaulted(alloc, object, Key::MirrorDirect),
        )?;
        Ok(Rights {
            republish,
            allow_rollup,
            deny_delete,
            deny_purge,
            allow_direct,
            mirror_direct,
        })
    }
}

/// What a stream copies, and where it is kept.
#[derive(Drop)]
struct Origins {
    mirror: Option<Source>,
    sources: Option<Items<Source>>,
    compression: Option<Compression>,
    placement: Option<Placement>,
    allow_message_ttl: bool,
    subject_delete_marker_ttl: Option<Nanos>,
}

impl Origins {
    ghost use Rattle.js_json_stream_bodies.specs.StreamConfig.{origins};

    #[tactic(auto, unfolding(crate::specs::StreamConfig::origins))]
    fn read(alloc: Global, object: &Value) -> Result<Origins, ReadError>
        ensures { Gives result (origins (view object.now)) }
    {
        let (
            mirror,
            sources,
            compression,
            placement,
            allow_message_ttl,
            subject_delete_marker_ttl,
        ) = all_6(
            optional(alloc, object, Key::Mirror),
            optional(alloc, object, Key::Sources),
            optional(alloc, object, Key::Compression),
            optional(alloc, object, Key::Placement),
            defaulted(alloc, object, Key::AllowMsgTtl),
            optional(alloc, object, Key::SubjectDeleteMarkerTtl),
        )?;
        Ok(Origins {
            mirror,
            sources,
            compression,
            placement,
            allow_message_ttl,
            subject_delete_marker_ttl,
        })
    }
}

impl FromValue for Config {
    ghost use Rattle.js_json_stream_bodies.specs.StreamConfig.{config_fields};

    ghost fields = { config_fields };

    #[tactic(auto, unfolding(crate::specs::StreamConfig::config_fields))]
    fn from_fields(alloc: Global, object: &Value) -> Result<Config, ReadError> {
        let (basics, limits, rights, origins) = all_4(
            Basics::read(alloc, object),
            Limits::read(alloc, object),
            Rights::read(alloc, object),
            Origins::read(alloc, object),
        )?;
        Ok(Config {
            name: basics.name,
            retention: basics.retention,
            storage: basics.storage,
            discard: basics.discard,
            description: basics.description,
            subjects: basics.subjects,
            max_messages: limits.max_messages,
            max_messages_per_subject: limits.max_messages_per_subject,
            max_bytes: limits.max_bytes,
            max_message_size: limits.max_message_size,
            max_age: limits.max_age,
            num_replicas: limits.num_replicas,
            republish: rights.republish,
            allow_rollup: rights.allow_rollup,
            deny_delete: rights.deny_delete,
            deny_purge: rights.deny_purge,
            allow_direct: rights.allow_direct,
            mirror_direct: rights.mirror_direct,
            mirror: origins.mirror,
            sources: origins.sources,
            compression: origins.compression,
            placement: origins.placement,
            allow_message_ttl: origins.allow_message_ttl,
            subject_delete_marker_ttl: origins.subject_delete_marker_ttl,
        })
    }
}

impl Member for Config {
    ghost use Rattle.js_json_stream_bodies.specs.StreamConfig.{config_fields};

    ghost reads = { nested_in config_fields };

    fn read(alloc: Global, key: Key, value: &Value) -> Result<Config, ReadError> {
        nested(alloc, key, value)
    }
}
