//! Buckets of objects: how to configure them, and which stream one is (NATS ADR-20).
ghost use Rattle.std.specs.Prelude.{◌≡◌, IfOk, string_bytes};
ghost use Rattle.js_store.specs.ObjectStore.{stream_name as stream_name_in, chunks, metadata, subjects_of as subjects_in, stream_config};

use crate::config::{BucketConfig, stream_of};
use crate::kv::compression_of;
use js_base::{Items, Nanos, OutOfMemory, Text, TryClone, both, each_copied};
use js_json_stream_bodies::stream;
use js_json_stream_bodies::stream::{DiscardPolicy, Placement, RetentionPolicy, StorageType};
use std::alloc::{AllocError, Global};

/// The configuration of a bucket of objects.
#[derive(Debug, PartialEq, Eq, Drop)]
pub struct Config {
    /// The bucket's name: ASCII letters, digits, `_` and `-`.
    pub bucket: Text,
    /// A description for people; the server does not use it.
    pub description: Option<Text>,
    /// How long the bucket keeps an object, in nanoseconds; 0 sets no limit.
    pub max_age: Nanos,
    /// The largest size of the bucket in bytes. -1 sets no limit. 0 leaves it to the server, which
    /// sets none.
    pub max_bytes: i64,
    /// Where the server keeps the objects.
    pub storage: StorageType,
    /// How many servers keep the bucket; 0 leaves it to the server.
    pub num_replicas: u64,
    /// Whether the server compresses stored objects, with S2.
    pub compression: bool,
    /// Which servers may keep the bucket.
    pub placement: Option<Placement>,
}

impl Config {
    ghost use Rattle.js_store.specs.ObjectStore.{new_config};

    /// Returns the default configuration: no name, file storage, no limits. It takes no memory.
    pub fn new(alloc: Global) -> Config
        ensures { result ≡ new_config }
    {
        Config {
            bucket: Text::new(alloc),
            description: None,
            max_age: 0,
            max_bytes: 0,
            storage: StorageType::File,
            num_replicas: 0,
            compression: false,
            placement: None,
        }
    }
}

impl TryClone for Config {
    fn try_clone(&self) -> Result<Config, OutOfMemory> {
        let (bucket, description, placement) = each_copied(
            &self.bucket,
            &self.description,
            &self.placement,
        )?;
        Ok(Config {
            bucket,
            description,
            max_age: self.max_age,
            max_bytes: self.max_bytes,
            storage: self.storage,
            num_replicas: self.num_replicas,
            compression: self.compression,
            placement,
        })
    }
}

fn stream_text(alloc: Global, bucket: &str) -> Result<String, AllocError>
    ensures { IfOk result (λ text. string_bytes text ≡ stream_name_in bucket.now) }
{
    format!(in alloc; "OBJ_{bucket}")
}

/// Returns the name of the stream of a bucket of objects, `OBJ_{bucket}`. Fails only with
/// `OutOfMemory`.
pub fn stream_name(alloc: Global, bucket: &str) -> Result<Text, OutOfMemory>
    ensures { IfOk result (λ name. name ≡ stream_name_in bucket.now) }
{
    Ok(Text::from(stream_text(alloc, bucket)?))
}

fn chunks_text(alloc: Global, bucket: &str) -> Result<String, AllocError>
    ensures { IfOk result (λ text. string_bytes text ≡ chunks bucket.now) }
{
    format!(in alloc; "$O.{bucket}.C.>")
}

fn metadata_text(alloc: Global, bucket: &str) -> Result<String, AllocError>
    ensures { IfOk result (λ text. string_bytes text ≡ metadata bucket.now) }
{
    format!(in alloc; "$O.{bucket}.M.>")
}

fn subjects_of(alloc: Global, bucket: &str) -> Result<Items<Text>, OutOfMemory>
    ensures { IfOk result (λ subjects. subjects ≡ subjects_in bucket.now) }
{
    let (chunks, metadata) = both(chunks_text(alloc, bucket), metadata_text(alloc, bucket))?;
    let mut subjects = Items::new(alloc);
    subjects.push(Text::from(chunks))?;
    subjects.push(Text::from(metadata))?;
    Ok(subjects)
}

impl BucketConfig for Config {
    type Names = (Text, Items<Text>);

    ghost bucket = { λ config. config.bucket };

    ghost stream = { stream_config };

    ghost with = { λ c names. record (stream_config c) { name = names.0; subjects = names.1 } };

    fn bucket(&self) -> &Text {
        &self.bucket
    }

    fn take_names(&mut self, alloc: Global) -> Result<(Text, Items<Text>), OutOfMemory> {
        let bucket = self.bucket.as_str();
        both(stream_name(alloc, bucket), subjects_of(alloc, bucket))
    }

    fn with(self, names: (Text, Items<Text>)) -> stream::Config {
        let (name, subjects) = names;
        drop(self.bucket);
        stream::Config {
            name,
            retention: RetentionPolicy::Limits,
            storage: self.storage,
            discard: DiscardPolicy::New,
            description: self.description,
            subjects,
            max_messages: 0,
            max_messages_per_subject: 0,
            max_bytes: self.max_bytes,
            max_message_size: 0,
            max_age: self.max_age,
            num_replicas: self.num_replicas,
            republish: None,
            allow_rollup: true,
            deny_delete: false,
            deny_purge: false,
            allow_direct: true,
            mirror_direct: false,
            mirror: None,
            sources: None,
            compression: compression_of(self.compression),
            placement: self.placement,
            allow_message_ttl: false,
            subject_delete_marker_ttl: None,
        }
    }
}

impl Config {
    /// Returns the configuration of the bucket's stream, `OBJ_{bucket}`. It does not check the
    /// bucket's name. The stream stores the chunks of objects, `$O.{bucket}.C.>`, and their
    /// metadata, `$O.{bucket}.M.>`. Fails only with `OutOfMemory`.
    pub fn into_stream_config(self, alloc: Global) -> Result<stream::Config, OutOfMemory>
        ensures { IfOk result (λ stream. stream ≡ stream_config self) }
    {
        stream_of(alloc, self)
    }
}
