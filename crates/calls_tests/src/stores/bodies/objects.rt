//! Buckets of objects.

use crate::stores::bodies::{add, asked, requests};
use crate::words::Words;
use js_base::{OutOfMemory, Text};
use js_context::Context;
use js_json_stream_bodies::stream::StorageType;
use js_store::{StoreCalls, object_store};
use std::alloc::Global;

/// A bucket, by what it has that others have not.
#[derive(Clone, Copy, Drop)]
pub(crate) enum Objects {
    Plain,
    Aged,
    Bounds,
    Memory,
    Compressed,
}

pub(crate) const OBJECTS: &[Objects] = &[
    Objects::Plain,
    Objects::Aged,
    Objects::Bounds,
    Objects::Memory,
    Objects::Compressed,
];

impl Objects {
    pub(crate) fn bucket(self) -> &'static str {
        match self {
            Objects::Plain => "files",
            Objects::Aged => "aged",
            Objects::Bounds => "bounds",
            Objects::Memory => "memory",
            Objects::Compressed => "compressed",
        }
    }

    /// What its calls send.
    pub(crate) fn requests(self) -> &'static str {
        match self {
            Objects::Plain => requests::OBJECTS,
            Objects::Aged => requests::OBJECTS_AGED,
            Objects::Bounds => requests::OBJECTS_BOUNDS,
            Objects::Memory => requests::OBJECTS_MEMORY,
            Objects::Compressed => requests::OBJECTS_COMPRESSED,
        }
    }

    fn set(self, config: &mut object_store::Config) {
        match self {
            Objects::Plain => {}
            Objects::Aged => config.max_age = 3_600_000_000_000,
            Objects::Bounds => {
                config.max_bytes = 1_048_576;
                config.num_replicas = 1;
            }
            Objects::Memory => config.storage = StorageType::Memory,
            Objects::Compressed => config.compression = true,
        }
    }

    fn config(self, alloc: Global) -> Result<object_store::Config, OutOfMemory> {
        let mut config = object_store::Config {
            bucket: Text::from_str(alloc, self.bucket())?,
            description: Some(Text::from_str(alloc, "a bucket")?),
            ..object_store::Config::new(alloc)
        };
        self.set(&mut config);
        Ok(config)
    }

    fn created(self, alloc: Global, context: &Context) -> Words {
        let config = self.config(alloc)?;
        asked(alloc, context.create_object_store(alloc, config))
    }

    /// The bucket is made, got and deleted.
    pub(crate) fn requests_text(self, alloc: Global, context: &Context) -> Words {
        let bucket = self.bucket();
        let mut lines = String::new(alloc);
        add(&mut lines, self.created(alloc, context))?;
        add(
            &mut lines,
            asked(alloc, context.get_object_store(alloc, bucket)),
        )?;
        add(
            &mut lines,
            asked(alloc, context.delete_object_store(alloc, bucket)),
        )?;
        Ok(lines)
    }
}
