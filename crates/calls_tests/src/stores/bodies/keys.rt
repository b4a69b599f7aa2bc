//! Buckets of keys.

use crate::stores::bodies::{add, asked, requests};
use crate::words::Words;
use js_base::{Items, OutOfMemory, Text, both, replace_with};
use js_context::Context;
use js_json_stream_bodies::stream::{External, Placement, Republish, Source, StorageType};
use js_store::{StoreCalls, kv};
use std::alloc::Global;

/// A bucket, by what it has that others have not.
#[derive(Clone, Copy, Drop)]
pub(crate) enum Keys {
    Plain,
    History,
    Aged,
    Bounds,
    Memory,
    Republished,
    Mirror,
    Elsewhere,
    Gathered,
    Placed,
    Compressed,
    Marked,
}

pub(crate) const KEYS: &[Keys] = &[
    Keys::Plain,
    Keys::History,
    Keys::Aged,
    Keys::Bounds,
    Keys::Memory,
    Keys::Republished,
    Keys::Mirror,
    Keys::Elsewhere,
    Keys::Gathered,
    Keys::Placed,
    Keys::Compressed,
    Keys::Marked,
];

fn republish(alloc: Global) -> Result<Republish, OutOfMemory> {
    Ok(Republish {
        source: Text::from_str(alloc, "$KV.republished.>")?,
        destination: Text::from_str(alloc, "copies.>")?,
        headers_only: true,
    })
}

// The API of another domain.
fn external(alloc: Global) -> Result<External, OutOfMemory> {
    Ok(External {
        api_prefix: Text::from_str(alloc, "$JS.hub.API")?,
        delivery_prefix: None,
    })
}

fn source(alloc: Global, bucket: &str, start_sequence: Option<u64>) -> Result<Source, OutOfMemory> {
    Ok(Source {
        name: Text::from_str(alloc, bucket)?,
        start_sequence,
        filter_subject: None,
        external: None,
        domain: None,
    })
}

// The bucket of another domain.
fn elsewhere(alloc: Global) -> Result<Source, OutOfMemory> {
    let (external, mut source) = both(external(alloc), source(alloc, "plain", None))?;
    replace_with(&mut source.external, Some(external));
    Ok(source)
}

// One by the name of its bucket, and one by that of its stream.
fn sources(alloc: Global) -> Result<Items<Source>, OutOfMemory> {
    let mut sources = Items::new(alloc);
    add_sources(alloc, &mut sources)?;
    Ok(sources)
}

fn add_sources(alloc: Global, sources: &mut Items<Source>) -> Result<(), OutOfMemory> {
    sources.push(source(alloc, "plain", None)?)?;
    sources.push(source(alloc, "KV_history", Some(5))?)?;
    Ok(())
}

fn placement(alloc: Global) -> Result<Placement, OutOfMemory> {
    let mut tags = Items::new(alloc);
    tags.push(Text::from_str(alloc, "ssd")?)?;
    Ok(Placement {
        cluster: Some(Text::from_str(alloc, "east")?),
        tags,
    })
}

// Puts there what was made.
fn set_place<T: Drop>(
    place: &mut Option<T>,
    made: Result<T, OutOfMemory>,
) -> Result<(), OutOfMemory> {
    *place = Some(made?);
    Ok(())
}

impl Keys {
    pub(crate) fn bucket(self) -> &'static str {
        match self {
            Keys::Plain => "plain",
            Keys::History => "history",
            Keys::Aged => "aged",
            Keys::Bounds => "bounds",
            Keys::Memory => "memory",
            Keys::Republished => "republished",
            Keys::Mirror => "mirror",
            Keys::Elsewhere => "elsewhere",
            Keys::Gathered => "gathered",
            Keys::Placed => "placed",
            Keys::Compressed => "compressed",
            Keys::Marked => "marked",
        }
    }

    /// What its calls send.
    pub(crate) fn requests(self) -> &'static str {
        match self {
            Keys::Plain => requests::KEYS,
            Keys::History => requests::KEYS_HISTORY,
            Keys::Aged => requests::KEYS_AGED,
            Keys::Bounds => requests::KEYS_BOUNDS,
            Keys::Memory => requests::KEYS_MEMORY,
            Keys::Republished => requests::KEYS_REPUBLISHED,
            Keys::Mirror => requests::KEYS_MIRROR,
            Keys::Elsewhere => requests::KEYS_ELSEWHERE,
            Keys::Gathered => requests::KEYS_GATHERED,
            Keys::Placed => requests::KEYS_PLACED,
            Keys::Compressed => requests::KEYS_COMPRESSED,
            Keys::Marked => requests::KEYS_MARKED,
        }
    }

    // Sets what is a number or a word.
    fn set(self, config: &mut kv::Config) {
        match self {
            Keys::History => config.history = 64,
            Keys::Aged => config.max_age = 3_600_000_000_000,
            Keys::Bounds => {
                config.max_bytes = 1_048_576;
                config.max_value_size = 1024;
            }
            Keys::Memory => config.storage = StorageType::Memory,
            Keys::Compressed => config.compression = true,
            Keys::Marked => config.limit_markers = Some(60_000_000_000),
            _ => {}
        }
    }

    // Sets what takes memory.
    fn fill(self, alloc: Global, config: &mut kv::Config) -> Result<(), OutOfMemory> {
        match self {
            Keys::Republished => set_place(&mut config.republish, republish(alloc)),
            Keys::Mirror => set_place(&mut config.mirror, source(alloc, "plain", None)),
            Keys::Elsewhere => set_place(&mut config.mirror, elsewhere(alloc)),
            Keys::Gathered => set_place(&mut config.sources, sources(alloc)),
            Keys::Placed => set_place(&mut config.placement, placement(alloc)),
            _ => Ok(()),
        }
    }

    fn config(self, alloc: Global, description: &str) -> Result<kv::Config, OutOfMemory> {
        let (bucket, description) = both(
            Text::from_str(alloc, self.bucket()),
            Text::from_str(alloc, description),
        )?;
        let mut config = kv::Config::new(alloc);
        replace_with(&mut config.bucket, bucket);
        replace_with(&mut config.description, description);
        self.set(&mut config);
        let filled = self.fill(alloc, &mut config);
        let (config, _) = both(Ok(config), filled)?;
        Ok(config)
    }

    fn created(self, alloc: Global, context: &Context) -> Words {
        let config = self.config(alloc, "a bucket")?;
        asked(alloc, context.create_key_value(alloc, config))
    }

    // The same bucket in other words for people.
    fn updated(self, alloc: Global, context: &Context) -> Words {
        let config = self.config(alloc, "a bucket that was changed")?;
        asked(alloc, context.update_key_value(alloc, config))
    }

    fn tell(self, alloc: Global, context: &Context, lines: &mut String) -> Result<(), OutOfMemory> {
        let bucket = self.bucket();
        add(lines, self.created(alloc, context))?;
        add(lines, self.updated(alloc, context))?;
        add(lines, asked(alloc, context.get_key_value(alloc, bucket)))?;
        add(lines, asked(alloc, context.delete_key_value(alloc, bucket)))
    }

    /// The bucket is made, changed, got and deleted.
    pub(crate) fn requests_text(self, alloc: Global, context: &Context) -> Words {
        let mut lines = String::new(alloc);
        self.tell(alloc, context, &mut lines)?;
        Ok(lines)
    }
}
