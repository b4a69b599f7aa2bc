//! Where the keys of a bucket are, taken from what a call on buckets returned.
ghost use Rattle.std.specs.Prelude.{◌≡◌, IfOk};
ghost use Rattle.jetstream_event_log.specs.KeyPlaces.{api_prefix_in, history_in, places_in, reads_in};

use js_base::{OutOfMemory, Text, TryClone, all_4, both};
use js_store::Store;
use js_store_keys::{KeyPlaces, KeyReads};

fn copied(text: &Option<Text>) -> Result<Option<Text>, OutOfMemory>
    ensures { IfOk result (λ copy. copy ≡ text.now) }
{
    match text {
        Some(text) => Ok(Some(text.try_clone()?)),
        None => Ok(None),
    }
}

fn api_prefix(is_used: bool, prefix: &Text) -> Result<Option<Text>, OutOfMemory>
    ensures { IfOk result (λ copy. copy ≡ api_prefix_in is_used prefix.now) }
{
    if is_used {
        Ok(Some(prefix.try_clone()?))
    } else {
        Ok(None)
    }
}

fn kept_per_key(limit: i64) -> u64
    ensures { result ≡ history_in limit }
{
    u64::try_from(limit).unwrap_or(0)
}

/// Returns where the keys of a bucket are, as a table and the messages of writes need it. Fails
/// only with `OutOfMemory`.
///
/// It finds no key of a mirror of a bucket of the same API: the mirror keeps the messages under the
/// subjects of the bucket that it copies, and `prefix` of its `Store` is another. Set `prefix` of
/// what this returns to `$KV.`, the copied bucket's name and a dot.
pub fn key_places(store: &Store) -> Result<KeyPlaces, OutOfMemory>
    ensures { IfOk result (λ places. places ≡ places_in store.now) }
{
    let (bucket, prefix, put_prefix, api_prefix) = all_4(
        store.name.try_clone(),
        store.prefix.try_clone(),
        copied(&store.put_prefix),
        api_prefix(store.use_jetstream_prefix, &store.stream.scope.prefix),
    )?;
    Ok(KeyPlaces {
        bucket,
        prefix,
        put_prefix,
        api_prefix,
        history: kept_per_key(store.stream.info.config.max_messages_per_subject),
    })
}

/// Returns where the server reads the keys of a bucket, as `get` needs it. Fails only with
/// `OutOfMemory`.
pub fn key_reads(store: &Store) -> Result<KeyReads, OutOfMemory>
    ensures { IfOk result (λ reads. reads ≡ reads_in store.now) }
{
    let (api_prefix, stream_name) = both(
        store.stream.scope.prefix.try_clone(),
        store.stream_name.try_clone(),
    )?;
    Ok(KeyReads {
        api_prefix,
        stream_name,
        allow_direct: store.stream.info.config.allow_direct,
    })
}
