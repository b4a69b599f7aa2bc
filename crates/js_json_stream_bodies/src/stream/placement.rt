//! Which servers keep a stream.

ghost use Rattle.std.specs.Prelude.{false};
ghost use Rattle.js_json_members.specs.Member.{nested as nested_in};
ghost use Rattle.js_json_stream_bodies.specs.Placement.{placement_fields, placement_value, placement_data};

use js_base::{Items, OutOfMemory, Text, TryClone, both};
use js_json_members::{
    FromValue, Key, Member, Object, ReadError, ToValue, Written, defaulted, nested, optional,
};
use serde_json::Value;
use std::alloc::Global;

/// Which servers may keep a stream.
#[derive(Debug, PartialEq, Eq, Drop)]
pub struct Placement {
    /// The cluster of the servers.
    pub cluster: Option<Text>,
    /// The tags that each of the servers must have.
    pub tags: Items<Text>,
}

impl TryClone for Placement {
    fn try_clone(&self) -> Result<Placement, OutOfMemory> {
        Ok(Placement {
            cluster: self.cluster.try_clone()?,
            tags: self.tags.try_clone()?,
        })
    }
}

impl FromValue for Placement {
    ghost fields = { placement_fields };

    #[tactic(auto, unfolding(crate::specs::Placement::placement_fields, crate::specs::Placement::placement_members, js_json_members::specs::Member::nested))]
    fn from_fields(alloc: Global, object: &Value) -> Result<Placement, ReadError> {
        if !object.is_object() {
            return Err(ReadError::WrongKind { key: Key::Cluster });
        }
        let (cluster, tags) = both(
            optional(alloc, object, Key::Cluster),
            defaulted(alloc, object, Key::Tags),
        )?;
        Ok(Placement { cluster, tags })
    }
}

impl Member for Placement {
    ghost reads = { nested_in placement_fields };

    fn read(alloc: Global, key: Key, value: &Value) -> Result<Placement, ReadError> {
        nested(alloc, key, value)
    }
}

impl ToValue for Placement {
    ghost written = { placement_value };

    #[tactic(auto, unfolding(crate::specs::Placement::placement_value))]
    fn to_value(&self, alloc: Global) -> Result<Value, ReadError> {
        Object::new(alloc)
            .where_some(alloc, Key::Cluster, &self.cluster)
            .unless_blank(alloc, Key::Tags, &self.tags)
            .finish()
    }
}

impl Written for Placement {
    ghost writes = { placement_data };

    ghost is_blank = { λ _. false };

    fn write(&self, alloc: Global, _key: Key) -> Result<Value, ReadError> {
        self.to_value(alloc)
    }

    fn is_blank(&self) -> bool {
        false
    }
}
