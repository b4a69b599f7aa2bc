//! Streams that another stream copies.

ghost use Rattle.std.specs.Prelude.{◌≡◌, None, false};
ghost use Rattle.js_json_members.specs.Member.{nested as nested_in};
ghost use Rattle.js_json_stream_bodies.specs.External.{external_fields, external_value, external_data};
ghost use Rattle.js_json_stream_bodies.specs.Source.{source_fields, source_value, source_data};

use js_base::{OutOfMemory, Text, TryClone, all_4, both};
use js_json_members::{
    FromValue, Key, Member, Object, ReadError, ToValue, Written, defaulted, nested, optional,
    required,
};
use serde_json::Value;
use std::alloc::Global;

/// A stream that another stream copies, as a mirror or as one of several sources.
#[derive(Debug, PartialEq, Eq, Drop)]
pub struct Source {
    /// The name of the copied stream.
    pub name: Text,
    /// The sequence at which copying begins.
    pub start_sequence: Option<u64>,
    /// The subjects to copy. `None` means the whole stream.
    pub filter_subject: Option<Text>,
    /// How to reach the stream if it belongs to another account or domain.
    pub external: Option<External>,
    /// The domain of the stream. It is neither read nor written: creating the copying stream turns
    /// it into an external prefix.
    pub domain: Option<Text>,
}

impl TryClone for Source {
    fn try_clone(&self) -> Result<Source, OutOfMemory> {
        let (name, filter_subject, external, domain) = all_4(
            self.name.try_clone(),
            self.filter_subject.try_clone(),
            self.external.try_clone(),
            self.domain.try_clone(),
        )?;
        Ok(Source {
            name,
            start_sequence: self.start_sequence,
            filter_subject,
            external,
            domain,
        })
    }
}

impl FromValue for Source {
    ghost fields = { source_fields };

    #[tactic(auto, unfolding(crate::specs::Source::source_fields))]
    fn from_fields(alloc: Global, object: &Value) -> Result<Source, ReadError> {
        let (name, start_sequence, filter_subject, external) = all_4(
            required(alloc, object, Key::Name),
            optional(alloc, object, Key::OptStartSeq),
            optional(alloc, object, Key::FilterSubject),
            optional(alloc, object, Key::External),
        )?;
        Ok(Source {
            name,
            start_sequence,
            filter_subject,
            external,
            domain: None,
        })
    }
}

impl Member for Source {
    ghost reads = { nested_in source_fields };

    fn read(alloc: Global, key: Key, value: &Value) -> Result<Source, ReadError> {
        nested(alloc, key, value)
    }
}

impl ToValue for Source {
    ghost written = { source_value };

    #[tactic(auto, unfolding(crate::specs::Source::source_value))]
    fn to_value(&self, alloc: Global) -> Result<Value, ReadError> {
        Object::new(alloc)
            .always(alloc, Key::Name, &self.name)
            .where_some(alloc, Key::OptStartSeq, &self.start_sequence)
            .where_some(alloc, Key::FilterSubject, &self.filter_subject)
            .where_some(alloc, Key::External, &self.external)
            .finish()
    }
}

impl Written for Source {
    ghost writes = { source_data };

    ghost is_blank = { λ _. false };

    fn write(&self, alloc: Global, _key: Key) -> Result<Value, ReadError> {
        self.to_value(alloc)
    }

    fn is_blank(&self) -> bool {
        false
    }
}

/// How to reach a stream of another account or domain.
#[derive(Debug, PartialEq, Eq, Drop)]
pub struct External {
    /// The subject prefix of the other account's or domain's API.
    pub api_prefix: Text,
    /// The prefix of the subjects to which the stream's messages are delivered.
    pub delivery_prefix: Option<Text>,
}

impl TryClone for External {
    fn try_clone(&self) -> Result<External, OutOfMemory> {
        Ok(External {
            api_prefix: self.api_prefix.try_clone()?,
            delivery_prefix: self.delivery_prefix.try_clone()?,
        })
    }
}

impl FromValue for External {
    ghost fields = { external_fields };

    #[tactic(auto, unfolding(crate::specs::External::external_fields, crate::specs::External::external_members, js_json_members::specs::Member::nested))]
    fn from_fields(alloc: Global, object: &Value) -> Result<External, ReadError> {
        if !object.is_object() {
            return Err(ReadError::WrongKind { key: Key::Api });
        }
        let (api_prefix, delivery_prefix) = both(
            defaulted(alloc, object, Key::Api),
            optional(alloc, object, Key::Deliver),
        )?;
        Ok(External {
            api_prefix,
            delivery_prefix,
        })
    }
}

impl Member for External {
    ghost reads = { nested_in external_fields };

    fn read(alloc: Global, key: Key, value: &Value) -> Result<External, ReadError> {
        nested(alloc, key, value)
    }
}

impl ToValue for External {
    ghost written = { external_value };

    #[tactic(auto, unfolding(crate::specs::External::external_value))]
    fn to_value(&self, alloc: Global) -> Result<Value, ReadError> {
        Object::new(alloc)
            .always(alloc, Key::Api, &self.api_prefix)
            .where_some(alloc, Key::Deliver, &self.delivery_prefix)
            .finish()
    }
}

impl Written for External {
    ghost writes = { external_data };

    ghost is_blank = { λ _. false };

    fn write(&self, alloc: Global, _key: Key) -> Result<Value, ReadError> {
        self.to_value(alloc)
    }

    fn is_blank(&self) -> bool {
        false
    }
}
