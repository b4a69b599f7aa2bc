//! What a call returns of a bucket.
ghost use Rattle.std.specs.Prelude.{◌≡◌, IfOk};
ghost use Rattle.js_store.specs.Store.{answered_names as answered_in, store_of};

use crate::places::{Places, places_of};
use js_base::{OutOfMemory, Text, TryClone, both};
use js_call_streams::StreamHandle;
use js_json_stream_bodies::stream::{Config, Info};
use std::alloc::Global;

/// A bucket of keys and their values: its stream, and where its values are.
///
/// Read the value of a key under `prefix` and the key. Put it under `put_prefix` and the key if
/// there is a `put_prefix`, otherwise under `prefix`. If `use_jetstream_prefix` is set, put the
/// API's prefix and a dot before the subject that you put to.
#[derive(Debug, PartialEq, Eq, Drop)]
pub struct Store {
    /// The bucket's name.
    pub name: Text,
    /// The name of the bucket's stream, `KV_{bucket}`.
    pub stream_name: Text,
    /// What the subjects of the bucket's values begin with.
    pub prefix: Text,
    /// What the subjects for puts begin with, if that is another prefix because the bucket mirrors
    /// one elsewhere.
    pub put_prefix: Option<Text>,
    /// Whether the API's prefix stands before the subjects for puts: it is not `$JS.API`, and no
    /// other API is named.
    pub use_jetstream_prefix: bool,
    /// The bucket's stream.
    pub stream: StreamHandle<Info>,
}

/// A bucket of objects.
#[derive(Debug, PartialEq, Eq, Drop)]
pub struct ObjectStore {
    /// The bucket's name.
    pub name: Text,
    /// The bucket's stream.
    pub stream: StreamHandle<Info>,
}

/// The name of a bucket's stream, and where its values are.
#[derive(Drop)]
pub struct StoreNames {
    pub(crate) stream_name: Text,
    pub(crate) places: Places,
}

/// Returns the name of a bucket's stream and where its values are, from the stream's configuration
/// as the server returned it. Fails only with `OutOfMemory`.
pub(crate) fn answered_names(
    alloc: Global,
    api: &str,
    bucket: &str,
    config: &Config,
) -> Result<StoreNames, OutOfMemory>
    ensures { IfOk result (λ names. names ≡ answered_in api.now bucket.now config.now) }
{
    let (stream_name, places) = both(
        config.name.try_clone(),
        places_of(alloc, api, bucket, &config.mirror),
    )?;
    Ok(StoreNames {
        stream_name,
        places,
    })
}

/// Returns a bucket of keys with this name.
pub(crate) fn store_of(name: Text, names: StoreNames, stream: StreamHandle<Info>) -> Store
    ensures { result ≡ store_of name names stream }
{
    let StoreNames {
        stream_name,
        places,
    } = names;
    Store {
        name,
        stream_name,
        prefix: places.prefix,
        put_prefix: places.put_prefix,
        use_jetstream_prefix: places.use_jetstream_prefix,
        stream,
    }
}
