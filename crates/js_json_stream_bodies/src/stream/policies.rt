//! Policies of a stream: retention, storage, discarding, and compression.

ghost use Rattle.std.specs.Prelude.{false};
ghost use Rattle.js_json_members.specs.Member.{named};
ghost use Rattle.js_json_members.specs.declared.key.Key.TheVariants as key;
ghost use Rattle.js_json_stream_bodies.specs.RetentionPolicy.{retention_policy_named, retention_policy_data};
ghost use Rattle.js_json_stream_bodies.specs.StorageType.{storage_type_named, storage_type_data};
ghost use Rattle.js_json_stream_bodies.specs.DiscardPolicy.{discard_policy_named, discard_policy_data};
ghost use Rattle.js_json_stream_bodies.specs.Compression.{compression_named, compression_data};
ghost use Rattle.js_json_stream_bodies.specs.declared.stream.policies.DiscardPolicy.TheVariants as discard_policy;
ghost use Rattle.js_json_stream_bodies.specs.declared.stream.policies.RetentionPolicy.TheVariants as retention_policy;
ghost use Rattle.js_json_stream_bodies.specs.declared.stream.policies.StorageType.TheVariants as storage_type;

use js_json_members::{Blank, FromValue, Key, Member, Named, ReadError, Written, by_text};
use serde_json::Value;
use std::alloc::Global;

/// How long the stream keeps messages.
#[derive(Clone, Copy, Debug, Default, PartialEq, Eq)]
pub enum RetentionPolicy {
    /// Keeps messages until a limit is reached.
    #[default]
    Limits,
    /// Keeps messages until each consumer has acknowledged them.
    Interest,
    /// Keeps messages until one consumer has acknowledged them.
    WorkQueue,
}

impl Named for RetentionPolicy {
    ghost value_of = { retention_policy_named };

    #[tactic(auto, unfolding(crate::specs::RetentionPolicy::retention_policy_named))]
    fn from_name(name: &str) -> Option<RetentionPolicy> {
        match name {
            "limits" => Some(RetentionPolicy::Limits),
            "interest" => Some(RetentionPolicy::Interest),
            "workqueue" => Some(RetentionPolicy::WorkQueue),
            _ => None,
        }
    }
}

impl FromValue for RetentionPolicy {
    ghost fields = { named retention_policy_named key.Retention };

    fn from_fields(_alloc: Global, value: &Value) -> Result<RetentionPolicy, ReadError> {
        by_text(Key::Retention, value)
    }
}

impl Member for RetentionPolicy {
    ghost reads = { named retention_policy_named };

    fn read(_alloc: Global, key: Key, value: &Value) -> Result<RetentionPolicy, ReadError> {
        by_text(key, value)
    }
}

impl Blank for RetentionPolicy {
    ghost blank = { retention_policy.Limits };

    fn blank(_alloc: Global) -> RetentionPolicy {
        RetentionPolicy::Limits
    }
}

impl Written for RetentionPolicy {
    ghost writes = { retention_policy_data };

    ghost is_blank = { λ _. false };

    fn write(&self, alloc: Global, _key: Key) -> Result<Value, ReadError> {
        let name = match self {
            RetentionPolicy::Limits => "limits",
            RetentionPolicy::Interest => "interest",
            RetentionPolicy::WorkQueue => "workqueue",
        };
        Ok(Value::try_from_str(alloc, name)?)
    }

    fn is_blank(&self) -> bool {
        false
    }
}

/// Where the server keeps messages.
#[derive(Clone, Copy, Debug, Default, PartialEq, Eq)]
pub enum StorageType {
    /// In files.
    #[default]
    File,
    /// In memory.
    Memory,
}

impl Named for StorageType {
    ghost value_of = { storage_type_named };

    #[tactic(auto, unfolding(crate::specs::StorageType::storage_type_named))]
    fn from_name(name: &str) -> Option<StorageType> {
        match name {
            "file" => Some(StorageType::File),
            "memory" => Some(StorageType::Memory),
            _ => None,
        }
    }
}

impl FromValue for StorageType {
    ghost fields = { named storage_type_named key.Storage };

    fn from_fields(_alloc: Global, value: &Value) -> Result<StorageType, ReadError> {
        by_text(Key::Storage, value)
    }
}

impl Member for StorageType {
    ghost reads = { named storage_type_named };

    fn read(_alloc: Global, key: Key, value: &Value) -> Result<StorageType, ReadError> {
        by_text(key, value)
    }
}

impl Blank for StorageType {
    ghost blank = { storage_type.File };

    fn blank(_alloc: Global) -> StorageType {
        StorageType::File
    }
}

impl Written for StorageType {
    ghost writes = { storage_type_data };

    ghost is_blank = { λ _. false };

    fn write(&self, alloc: Global, _key: Key) -> Result<Value, ReadError> {
        let name = match self {
            StorageType::File => "file",
            StorageType::Memory => "memory",
        };
        Ok(Value::try_from_str(alloc, name)?)
    }

    fn is_blank(&self) -> bool {
        false
    }
}

/// What the server discards if a limit is reached.
#[derive(Clone, Copy, Debug, Default, PartialEq, Eq)]
pub enum DiscardPolicy {
    /// Removes the oldest messages.
    #[default]
    Old,
    /// Refuses the incoming message.
    New,
}

impl Named for DiscardPolicy {
    ghost value_of = { discard_policy_named };

    #[tactic(auto, unfolding(crate::specs::DiscardPolicy::discard_policy_named))]
    fn from_name(name: &str) -> Option<DiscardPolicy> {
        match name {
            "old" => Some(DiscardPolicy::Old),
            "new" => Some(DiscardPolicy::New),
            _ => None,
        }
    }
}

impl FromValue for DiscardPolicy {
    ghost fields = { named discard_policy_named key.Discard };

    fn from_fields(_alloc: Global, value: &Value) -> Result<DiscardPolicy, ReadError> {
        by_text(Key::Discard, value)
    }
}

impl Member for DiscardPolicy {
    ghost reads = { named discard_policy_named };

    fn read(_alloc: Global, key: Key, value: &Value) -> Result<DiscardPolicy, ReadError> {
        by_text(key, value)
    }
}

impl Blank for DiscardPolicy {
    ghost blank = { discard_policy.Old };

    fn blank(_alloc: Global) -> DiscardPolicy {
        DiscardPolicy::Old
    }
}

impl Written for DiscardPolicy {
    ghost writes = { discard_policy_data };

    ghost is_blank = { λ _. false };

    fn write(&self, alloc: Global, _key: Key) -> Result<Value, ReadError> {
        let name = match self {
            DiscardPolicy::Old => "old",
            DiscardPolicy::New => "new",
        };
        Ok(Value::try_from_str(alloc, name)?)
    }

    fn is_blank(&self) -> bool {
        false
    }
}

/// How the server compresses stored messages.
#[derive(Clone, Copy, Debug, PartialEq, Eq)]
pub enum Compression {
    /// With S2.
    S2,
    /// No compression.
    None,
}

impl Named for Compression {
    ghost value_of = { compression_named };

    #[tactic(auto, unfolding(crate::specs::Compression::compression_named))]
    fn from_name(name: &str) -> Option<Compression> {
        match name {
            "s2" => Some(Compression::S2),
            "none" => Some(Compression::None),
            _ => None,
        }
    }
}

impl FromValue for Compression {
    ghost fields = { named compression_named key.Compression };

    fn from_fields(_alloc: Global, value: &Value) -> Result<Compression, ReadError> {
        by_text(Key::Compression, value)
    }
}

impl Member for Compression {
    ghost reads = { named compression_named };

    fn read(_alloc: Global, key: Key, value: &Value) -> Result<Compression, ReadError> {
        by_text(key, value)
    }
}

impl Written for Compression {
    ghost writes = { compression_data };

    ghost is_blank = { λ _. false };

    fn write(&self, alloc: Global, _key: Key) -> Result<Value, ReadError> {
        let name = match self {
            Compression::S2 => "s2",
            Compression::None => "none",
        };
        Ok(Value::try_from_str(alloc, name)?)
    }

    fn is_blank(&self) -> bool {
        false
    }
}
