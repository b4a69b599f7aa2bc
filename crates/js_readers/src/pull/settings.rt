//! What a pull request asks for: what was set at its builder, or else the builder's default.
ghost use Rattle.std.specs.Prelude.{◌≡◌, IfOk, Some};
ghost use Rattle.js_readers.specs.Builder.{KeepsLimits, asked_for, defaults_of, heartbeat_of, unset};

use js_base::{Nanos, OutOfMemory, Text};
use js_json::consumer::Config;
use js_json::pull::BatchConfig;
use js_pull::{clamp_batch, clamp_expires, clamp_heartbeat};
use std::alloc::Global;

const SECOND: Nanos = 1_000_000_000;

/// What was set at a builder. What was not set has the builder's default.
#[derive(Drop)]
pub(crate) struct Settings {
    pub batch: Option<u64>,
    /// In nanoseconds.
    pub expires: Option<Nanos>,
    /// In nanoseconds; 0 for none.
    pub heartbeat: Nanos,
    /// In bytes; 0 for no limit.
    pub max_bytes: u64,
    pub min_pending: Option<u64>,
    pub min_ack_pending: Option<u64>,
    pub group: Option<Text>,
    pub priority: Option<u64>,
}

/// The kinds of builders. Each has its own defaults.
#[derive(Clone, Copy)]
pub enum BuilderKind {
    Streams,
    Fetches,
    Batches,
}

/// The defaults of a kind of builder: what is asked for if nothing is set.
#[derive(Clone, Copy)]
pub(crate) struct Defaults {
    pub batch: u64,
    pub expires: Option<Nanos>,
    /// Whether the server answers at once if it has no message.
    pub no_wait: bool,
    /// Whether the heartbeat is lowered to half of the expiry if that is the default.
    pub lowers: bool,
}

// The row of a builder, for a consumer with these limits.
pub(crate) fn defaults_of(kind: BuilderKind, limits: &Config) -> Defaults
    ensures { result ≡ defaults_of kind limits.now.max_batch limits.now.max_expires }
{
    match kind {
        BuilderKind::Streams => Defaults {
            batch: clamp_batch(200, limits.max_batch),
            expires: Some(clamp_expires(30 * SECOND, limits.max_expires)),
            no_wait: false,
            lowers: true,
        },
        BuilderKind::Fetches => Defaults {
            batch: 200,
            expires: None,
            no_wait: true,
            lowers: false,
        },
        BuilderKind::Batches => Defaults {
            batch: 200,
            expires: Some(0),
            no_wait: false,
            lowers: false,
        },
    }
}

// The heartbeat that is asked for. One that is set is at most half of a default expiry, where the row lowers it.
fn heartbeat_of(defaults: Defaults, expires: Option<Nanos>, heartbeat: Nanos) -> Nanos
    ensures { result ≡ heartbeat_of defaults expires heartbeat }
{
    match (expires, defaults.expires) {
        (None, Some(default)) if defaults.lowers => clamp_heartbeat(heartbeat, default),
        _ => heartbeat,
    }
}

impl Settings {
    /// Returns settings in which nothing is set.
    pub fn new() -> Settings
        ensures { result ≡ unset }
    {
        Settings {
            batch: None,
            expires: None,
            heartbeat: 0,
            max_bytes: 0,
            min_pending: None,
            min_ack_pending: None,
            group: None,
            priority: None,
        }
    }

    /// Sets the group. If memory runs out, it fails with `OutOfMemory` and the settings are lost.
    pub fn with_group(self, alloc: Global, group: &str) -> Result<Settings, OutOfMemory>
        ensures { IfOk result (λ settings. settings ≡ record self { group = Some group.now }) }
    {
        match Text::from_str(alloc, group) {
            Ok(text) => Ok(Settings {
                group: Some(text),
                ..self
            }),
            Err(OutOfMemory) => {
                drop(self);
                Err(OutOfMemory)
            }
        }
    }

    /// Returns what a request asks for, with these defaults for what was not set.
    pub fn request(self, defaults: Defaults) -> BatchConfig
        ensures { result ≡ asked_for defaults self }
    {
        BatchConfig {
            batch: self.batch.unwrap_or(defaults.batch),
            expires: self.expires.or(defaults.expires),
            no_wait: defaults.no_wait,
            max_bytes: self.max_bytes,
            idle_heartbeat: heartbeat_of(defaults, self.expires, self.heartbeat),
            min_pending: self.min_pending,
            min_ack_pending: self.min_ack_pending,
            group: self.group,
            priority: self.priority,
        }
    }
}

/// A default never exceeds a limit of the consumer. If a stream's expiry is the default, its
/// heartbeat is at most half of it. A law: calling it does nothing.
pub fn defaults_keep_limits()
    ensures { KeepsLimits }
{}
