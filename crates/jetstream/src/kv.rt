//! Key-value buckets: how they are configured, and the calls of a context on them
//! ([`StoreCalls`](crate::context::StoreCalls)). A [`Store`] says where the values are.
ghost use Rattle.std.specs.Prelude.{◌≡◌, IfOk};
ghost use Rattle.jetstream.specs.Stream.{bucket_named};

use js_base::{OutOfMemory, Text};
pub use js_store::kv::{Config, MAX_HISTORY, stream_name};
pub use js_store::{
    CreateKeyValue, CreateOrUpdateKeyValue, DeleteKeyValue, GetKeyValue, Store, UpdateKeyValue,
    is_valid_bucket_name,
};
use std::alloc::Global;

/// Returns the configuration of a bucket with this name that keeps up to `history` values of each
/// key, at most 64; 0 and below stand for 1. All else is as in `Config::new`. Fails only with
/// `OutOfMemory`.
pub fn named(alloc: Global, bucket: &str, history: i64) -> Result<Config, OutOfMemory>
    ensures { IfOk result (λ config. config ≡ bucket_named bucket.now history) }
{
    Ok(Config {
        bucket: Text::from_str(alloc, bucket)?,
        history,
        ..Config::new(alloc)
    })
}
