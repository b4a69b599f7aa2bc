//! Republishing of stored messages.

ghost use Rattle.std.specs.Prelude.{false};
ghost use Rattle.js_json_members.specs.Member.{nested as nested_in};
ghost use Rattle.js_json_stream_bodies.specs.Republish.{republish_fields, republish_value, republish_data};

use js_base::{OutOfMemory, Text, TryClone, all_3};
use js_json_members::{
    FromValue, Key, Member, Object, ReadError, ToValue, Written, defaulted, nested,
};
use serde_json::Value;
use std::alloc::Global;

/// Where the server republishes the stored messages of a stream.
#[derive(Debug, PartialEq, Eq, Drop)]
pub struct Republish {
    /// The subjects whose messages the server republishes.
    pub source: Text,
    /// The subject to which the server republishes them.
    pub destination: Text,
    /// Whether the server republishes them without their payloads.
    pub headers_only: bool,
}

impl TryClone for Republish {
    fn try_clone(&self) -> Result<Republish, OutOfMemory> {
        Ok(Republish {
            source: self.source.try_clone()?,
            destination: self.destination.try_clone()?,
            headers_only: self.headers_only,
        })
    }
}

impl FromValue for Republish {
    ghost fields = { republish_fields };

    #[tactic(auto, unfolding(crate::specs::Republish::republish_fields, crate::specs::Republish::republish_members, js_json_members::specs::Member::nested))]
    fn from_fields(alloc: Global, object: &Value) -> Result<Republish, ReadError> {
        if !object.is_object() {
            return Err(ReadError::WrongKind { key: Key::Src });
        }
        let (source, destination, headers_only) = all_3(
            defaulted(alloc, object, Key::Src),
            defaulted(alloc, object, Key::Dest),
            defaulted(alloc, object, Key::HeadersOnly),
        )?;
        Ok(Republish {
            source,
            destination,
            headers_only,
        })
    }
}

impl Member for Republish {
    ghost reads = { nested_in republish_fields };

    fn read(alloc: Global, key: Key, value: &Value) -> Result<Republish, ReadError> {
        nested(alloc, key, value)
    }
}

impl ToValue for Republish {
    ghost written = { republish_value };

    #[tactic(auto, unfolding(crate::specs::Republish::republish_value))]
    fn to_value(&self, alloc: Global) -> Result<Value, ReadError> {
        Object::new(alloc)
            .always(alloc, Key::Src, &self.source)
            .always(alloc, Key::Dest, &self.destination)
            .always(alloc, Key::HeadersOnly, &self.headers_only)
            .finish()
    }
}

impl Written for Republish {
    ghost writes = { republish_data };

    ghost is_blank = { λ _. false };

    fn write(&self, alloc: Global, _key: Key) -> Result<Value, ReadError> {
        self.to_value(alloc)
    }

    fn is_blank(&self) -> bool {
        false
    }
}
