//! Buckets of keys and their values: how to configure them, and which stream one is (NATS ADR-8).
ghost use Rattle.std.specs.Prelude.{◌≡◌, IfOk, Some, None, [], true, map, string_bytes};
ghost use Rattle.js_store.specs.SourceBuckets.{mirrored, of_bucket as of_bucket_in};
ghost use Rattle.js_store.specs.Kv.{all_keys as all_keys_in, history_of as history_in, replicas_of as replicas_in, compression_of as compression_in, subjects_of as subjects_in, origins_of as origins_in, stream_config};

use crate::config::{BucketConfig, stream_of};
pub use crate::source_buckets::stream_name;
use crate::source_buckets::{gathered, of_bucket};
use js_base::{Items, Nanos, OutOfMemory, Text, TryClone, both, each_copied};
use js_json_stream_bodies::stream;
use js_json_stream_bodies::stream::{
    Compression, DiscardPolicy, Placement, Republish, RetentionPolicy, Source, StorageType,
};
use std::alloc::{AllocError, Global};

/// The most values of a key that a bucket may keep.
pub const MAX_HISTORY: i64 = 64;

/// The configuration of a bucket of keys.
#[derive(Debug, PartialEq, Eq, Drop)]
pub struct Config {
    /// The bucket's name: ASCII letters, digits, `_` and `-`.
    pub bucket: Text,
    /// A description for people; the server does not use it.
    pub description: Text,
    /// The largest value in bytes, including the headers of its message. -1 sets no limit. 0 leaves
    /// it to the server, which sets none except that of its connections.
    pub max_value_size: i64,
    /// How many values of each key the bucket keeps, at most 64. 0 and below stand for 1.
    pub history: i64,
    /// How long the bucket keeps a value, in nanoseconds; 0 sets no limit.
    pub max_age: Nanos,
    /// The largest size of the bucket in bytes. -1 sets no limit. 0 leaves it to the server, which
    /// sets none.
    pub max_bytes: i64,
    /// Where the server keeps the values.
    pub storage: StorageType,
    /// How many servers keep the bucket; 0 stands for 1.
    pub num_replicas: u64,
    /// Where the server republishes values that are put.
    pub republish: Option<Republish>,
    /// The bucket that this one copies whole, by its name or by the name of its stream.
    pub mirror: Option<Source>,
    /// The buckets whose values this one gathers, by their names or by the names of their streams.
    /// With a mirror set, they go to the server unchanged.
    pub sources: Option<Items<Source>>,
    /// Whether this bucket answers gets for the bucket that it copies. A bucket with a mirror
    /// always does.
    pub mirror_direct: bool,
    /// Whether the server compresses stored values, with S2.
    pub compression: bool,
    /// Which servers may keep the bucket.
    pub placement: Option<Placement>,
    /// How long a marker stands for the values of a key that expired, in nanoseconds; `None` for no
    /// marker. Markers need a server with API level 1 or above.
    pub limit_markers: Option<Nanos>,
}

impl Config {
    ghost use Rattle.js_store.specs.Kv.{new_config};

    /// Returns the default configuration: no name, file storage, no limits. It takes no memory.
    pub fn new(alloc: Global) -> Config
        ensures { result ≡ new_config }
    {
        Config {
            bucket: Text::new(alloc),
            description: Text::new(alloc),
            max_value_size: 0,
            history: 0,
            max_age: 0,
            max_bytes: 0,
            storage: StorageType::File,
            num_replicas: 0,
            republish: None,
            mirror: None,
            sources: None,
            mirror_direct: false,
            compression: false,
            placement: None,
            limit_markers: None,
        }
    }
}

impl TryClone for Config {
    fn try_clone(&self) -> Result<Config, OutOfMemory> {
        let ((bucket, description, placement), (republish, mirror, sources)) = both(
            each_copied(&self.bucket, &self.description, &self.placement),
            each_copied(&self.republish, &self.mirror, &self.sources),
        )?;
        Ok(Config {
            bucket,
            description,
            max_value_size: self.max_value_size,
            history: self.history,
            max_age: self.max_age,
            max_bytes: self.max_bytes,
            storage: self.storage,
            num_replicas: self.num_replicas,
            republish,
            mirror,
            sources,
            mirror_direct: self.mirror_direct,
            compression: self.compression,
            placement,
            limit_markers: self.limit_markers,
        })
    }
}

/// What a bucket copies, and the subjects that it stores itself.
#[derive(Drop)]
pub(crate) struct Origins {
    pub(crate) subjects: Items<Text>,
    pub(crate) mirror: Option<Source>,
    pub(crate) sources: Option<Items<Source>>,
    pub(crate) mirror_direct: bool,
}

fn all_keys_text(alloc: Global, bucket: &str) -> Result<String, AllocError>
    ensures { IfOk result (λ text. string_bytes text ≡ all_keys_in bucket.now) }
{
    format!(in alloc; "$KV.{bucket}.>")
}

fn all_keys(alloc: Global, bucket: &str) -> Result<Items<Text>, OutOfMemory>
    ensures { IfOk result (λ subjects. subjects ≡ subjects_in bucket.now) }
{
    let keys = all_keys_text(alloc, bucket)?;
    let mut subjects = Items::new(alloc);
    subjects.push(Text::from(keys))?;
    Ok(subjects)
}

fn copies_whole(
    alloc: Global,
    mirror: Source,
    sources: Option<Items<Source>>,
) -> Result<Origins, OutOfMemory>
    ensures { IfOk result (λ origins. origins ≡ record { subjects = []; mirror = mirrored (Some mirror); sources = sources; mirror_direct = true }) }
{
    match of_bucket(alloc, mirror) {
        Ok(mirror) => Ok(Origins {
            subjects: Items::new(alloc),
            mirror: Some(mirror),
            sources,
            mirror_direct: true,
        }),
        Err(refused) => {
            drop(sources);
            Err(refused)
        }
    }
}

fn gathers(
    alloc: Global,
    sources: Items<Source>,
    mirror_direct: bool,
) -> Result<Origins, OutOfMemory>
    ensures { IfOk result (λ origins. origins ≡ record { subjects = []; mirror = None; sources = Some (map of_bucket_in sources); mirror_direct = mirror_direct }) }
{
    let sources = gathered(alloc, sources)?;
    Ok(Origins {
        subjects: Items::new(alloc),
        mirror: None,
        sources: Some(sources),
        mirror_direct,
    })
}

fn takes_in_keys(alloc: Global, bucket: &str, mirror_direct: bool) -> Result<Origins, OutOfMemory>
    ensures { IfOk result (λ origins. origins ≡ record { subjects = subjects_in bucket.now; mirror = None; sources = None; mirror_direct = mirror_direct }) }
{
    let subjects = all_keys(alloc, bucket)?;
    Ok(Origins {
        subjects,
        mirror: None,
        sources: None,
        mirror_direct,
    })
}

fn origins_of(
    alloc: Global,
    bucket: &str,
    mirror: Option<Source>,
    sources: Option<Items<Source>>,
    mirror_direct: bool,
) -> Result<Origins, OutOfMemory>
    ensures { IfOk result (λ origins. origins ≡ origins_in bucket.now mirror sources mirror_direct) }
{
    match (mirror, sources) {
        (Some(mirror), sources) => copies_whole(alloc, mirror, sources),
        (None, Some(sources)) => gathers(alloc, sources, mirror_direct),
        (None, None) => takes_in_keys(alloc, bucket, mirror_direct),
    }
}

fn history_of(history: i64) -> i64
    ensures { result ≡ history_in history }
{
    if history > 0 { history } else { 1 }
}

fn replicas_of(replicas: u64) -> u64
    ensures { result ≡ replicas_in replicas }
{
    if replicas == 0 { 1 } else { replicas }
}

/// Returns how a bucket's messages are compressed.
pub(crate) fn compression_of(is_compressed: bool) -> Option<Compression>
    ensures { result ≡ compression_in is_compressed }
{
    if is_compressed {
        Some(Compression::S2)
    } else {
        None
    }
}

impl BucketConfig for Config {
    type Names = (Text, Origins);

    ghost bucket = { λ config. config.bucket };

    ghost stream = { stream_config };

    ghost with = { λ c names. record (stream_config c) { name = names.0; subjects = names.1.subjects; mirror_direct = names.1.mirror_direct; mirror = names.1.mirror; sources = names.1.sources } };

    fn bucket(&self) -> &Text {
        &self.bucket
    }

    fn take_names(&mut self, alloc: Global) -> Result<(Text, Origins), OutOfMemory> {
        let mirror = self.mirror.take();
        let sources = self.sources.take();
        let bucket = self.bucket.as_str();
        both(
            stream_name(alloc, bucket),
            origins_of(alloc, bucket, mirror, sources, self.mirror_direct),
        )
    }

    fn with(self, names: (Text, Origins)) -> stream::Config {
        let (name, origins) = names;
        drop(self.bucket);
        drop(self.mirror);
        drop(self.sources);
        stream::Config {
            name,
            retention: RetentionPolicy::Limits,
            storage: self.storage,
            discard: DiscardPolicy::New,
            description: Some(self.description),
            subjects: origins.subjects,
            max_messages: 0,
            max_messages_per_subject: history_of(self.history),
            max_bytes: self.max_bytes,
            max_message_size: self.max_value_size,
            max_age: self.max_age,
            num_replicas: replicas_of(self.num_replicas),
            republish: self.republish,
            allow_rollup: true,
            deny_delete: true,
            deny_purge: false,
            allow_direct: true,
            mirror_direct: origins.mirror_direct,
            mirror: origins.mirror,
            sources: origins.sources,
            compression: compression_of(self.compression),
            placement: self.placement,
            allow_message_ttl: self.limit_markers.is_some(),
            subject_delete_marker_ttl: self.limit_markers,
        }
    }
}

impl Config {
    /// Returns the configuration of the bucket's stream, `KV_{bucket}`. It does not check the
    /// bucket's name and history. The stream stores all keys, `$KV.{bucket}.>`, unless the bucket
    /// copies others. Fails only with `OutOfMemory`.
    pub fn into_stream_config(self, alloc: Global) -> Result<stream::Config, OutOfMemory>
        ensures { IfOk result (λ stream. stream ≡ stream_config self) }
    {
        stream_of(alloc, self)
    }
}
