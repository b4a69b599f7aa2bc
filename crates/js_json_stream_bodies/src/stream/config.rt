//! The configuration of a stream.

ghost use Rattle.std.specs.Prelude.{◌≡◌, FitsSigned, Ok};
ghost use Rattle.std.specs.Int.{w64};
ghost use Rattle.js_json_members.specs.Member.{Gives};
ghost use Rattle.js_json_stream_bodies.specs.RoundTrip.{without_domains, HasNumbers};

mod reader;
mod writer;

use crate::stream::placement::Placement;
use crate::stream::policies::{Compression, DiscardPolicy, RetentionPolicy, StorageType};
use crate::stream::republish::Republish;
use crate::stream::source::Source;
use js_base::{Items, Nanos, OutOfMemory, Text, TryClone, all_7};
use js_json_members::{FromValue, ReadError, ToValue};
use std::alloc::Global;

/// The configuration of a stream, as far as this library supports it (NATS docs, "Stream
/// configuration").
///
/// Reading ignores other fields that the server sends, and writing leaves them out: among others
/// the duplicate window, `no_ack`, the start time of a source, the metadata, and the mark of a
/// sealed stream. If you update a stream with a configuration that you read, the server therefore
/// resets all of these to its defaults, or refuses the update if they cannot be changed.
///
/// Writing leaves out every field at its default, except the name and the policies `retention`,
/// `storage` and `discard`.
#[derive(Debug, PartialEq, Eq, Drop)]
pub struct Config {
    /// The name of the stream. It may be empty in a `Config`, but the server does not accept an
    /// empty name.
    pub name: Text,
    /// How long the stream keeps messages.
    pub retention: RetentionPolicy,
    /// Where the server keeps messages.
    pub storage: StorageType,
    /// What the server discards if a limit is reached.
    pub discard: DiscardPolicy,
    /// A description for people. The server does not use it.
    pub description: Option<Text>,
    /// The subjects whose messages the stream stores, which may have wildcards. Empty means only
    /// the stream's name.
    pub subjects: Items<Text>,
    /// How many messages the stream keeps. -1 means no limit. 0 means the server's default, which
    /// is no limit.
    pub max_messages: i64,
    /// How many messages of each subject the stream keeps. -1 means no limit. 0 means the server's
    /// default, which is no limit.
    pub max_messages_per_subject: i64,
    /// How many bytes the stream keeps. -1 means no limit. 0 means the server's default, which is
    /// no limit.
    pub max_bytes: i64,
    /// How many bytes a message may have, headers and payload together. -1 means no limit. 0 means
    /// the server's default, which is no limit other than that of its connections.
    pub max_message_size: i64,
    /// How long the stream keeps a message, in nanoseconds. 0 means no limit.
    pub max_age: Nanos,
    /// How many servers keep the stream. 0 lets the server choose.
    pub num_replicas: u64,
    /// Where the server republishes stored messages.
    pub republish: Option<Republish>,
    /// Whether a header of a message may remove earlier messages.
    pub allow_rollup: bool,
    /// Whether the server refuses to delete single messages.
    pub deny_delete: bool,
    /// Whether the server refuses to purge the stream.
    pub deny_purge: bool,
    /// Whether every server that keeps the stream answers requests for a message.
    pub allow_direct: bool,
    /// Whether a mirror answers such requests for the stream that it copies.
    pub mirror_direct: bool,
    /// The stream that this one copies whole, as a mirror.
    pub mirror: Option<Source>,
    /// The streams whose messages this one gathers.
    pub sources: Option<Items<Source>>,
    /// How the server compresses stored messages.
    pub compression: Option<Compression>,
    /// Which servers may keep the stream.
    pub placement: Option<Placement>,
    /// Whether a header of a message may set how long the stream keeps it.
    pub allow_message_ttl: bool,
    /// How long the stream keeps a marker in place of a subject's messages that became too old, in
    /// nanoseconds.
    pub subject_delete_marker_ttl: Option<Nanos>,
}

impl Config {
    ghost use Rattle.js_json_stream_bodies.specs.StreamConfig.{new_config};

    /// Returns the default configuration: no name, storage in files, and retention by limits.
    /// Allocates no memory.
    pub fn new(alloc: Global) -> Config
        ensures { result ≡ new_config }
    {
        Config {
            name: Text::new(alloc),
            retention: RetentionPolicy::Limits,
            storage: StorageType::File,
            discard: DiscardPolicy::Old,
            description: None,
            subjects: Items::new(alloc),
            max_messages: 0,
            max_messages_per_subject: 0,
            max_bytes: 0,
            max_message_size: 0,
            max_age: 0,
            num_replicas: 0,
            republish: None,
            allow_rollup: false,
            deny_delete: false,
            deny_purge: false,
            allow_direct: false,
            mirror_direct: false,
            mirror: None,
            sources: None,
            compression: None,
            placement: None,
            allow_message_ttl: false,
            subject_delete_marker_ttl: None,
        }
    }
}

impl TryClone for Config {
    fn try_clone(&self) -> Result<Config, OutOfMemory> {
        let (name, description, subjects, republish, mirror, sources, placement) = all_7(
            self.name.try_clone(),
            self.description.try_clone(),
            self.subjects.try_clone(),
            self.republish.try_clone(),
            self.mirror.try_clone(),
            self.sources.try_clone(),
            self.placement.try_clone(),
        )?;
        Ok(Config {
            name,
            retention: self.retention,
            storage: self.storage,
            discard: self.discard,
            description,
            subjects,
            max_messages: self.max_messages,
            max_messages_per_subject: self.max_messages_per_subject,
            max_bytes: self.max_bytes,
            max_message_size: self.max_message_size,
            max_age: self.max_age,
            num_replicas: self.num_replicas,
            republish,
            allow_rollup: self.allow_rollup,
            deny_delete: self.deny_delete,
            deny_purge: self.deny_purge,
            allow_direct: self.allow_direct,
            mirror_direct: self.mirror_direct,
            mirror,
            sources,
            compression: self.compression,
            placement,
            allow_message_ttl: self.allow_message_ttl,
            subject_delete_marker_ttl: self.subject_delete_marker_ttl,
        })
    }
}

/// Writes a configuration and reads it again. Returns the same configuration without the domains of
/// the streams that it copies. Fails only with `OutOfMemory`.
pub fn there_and_back(alloc: Global, config: &Config) -> Result<Config, ReadError>
    ensures { Gives result (Ok (without_domains config.now)) }
{
    has_numbers(config);
    let value = match config.to_value(alloc) {
        Ok(value) => value,
        Err(error) => return Err(error),
    };
    Config::from_value(alloc, &value)
}

fn has_numbers(config: &Config)
    ensures { HasNumbers config.now }
{
    is_number(config.max_messages);
    is_number(config.max_messages_per_subject);
    is_number(config.max_bytes);
    is_number(config.max_message_size);
}

fn is_number(number: i64)
    ensures { FitsSigned w64 number }
{}
