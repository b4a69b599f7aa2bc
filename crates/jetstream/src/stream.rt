//! Streams: their configurations, what the server knows of them, and the calls on them.
ghost use Rattle.std.specs.Prelude.{◌≡◌, IfOk};
ghost use Rattle.jetstream.specs.Stream.{named};

use js_base::{Items, OutOfMemory, Text};
pub use js_call_streams::{
    CreateOrUpdateStream, CreateStream, CreateStreamError, CreateStreamErrorKind, DeleteStream,
    DeleteStreamError, DeleteStreamErrorKind, GetOrCreateStream, GetStream, GetStreamError,
    GetStreamErrorKind, ReceivedConfig, ReceivedInfo, StreamHandle, StreamLookup, UpdateStream,
    UpdateStreamError, UpdateStreamErrorKind,
};
pub use js_json_stream_bodies::DeleteStatus;
pub use js_json_stream_bodies::stream::{
    Compression, Config, DiscardPolicy, External, Info, Placement, Republish, RetentionPolicy,
    Source, State, StorageType,
};
use std::alloc::Global;

/// Returns a configuration with a name and one subject. All else is as in `Config::new`. Fails only
/// with `OutOfMemory`.
pub fn named(alloc: Global, name: &str, subject: &str) -> Result<Config, OutOfMemory>
    ensures { IfOk result (λ config. config ≡ named name.now subject.now) }
{
    let mut subjects = Items::new(alloc);
    subjects.push(Text::from_str(alloc, subject)?)?;
    Ok(Config {
        name: Text::from_str(alloc, name)?,
        subjects,
        ..Config::new(alloc)
    })
}
