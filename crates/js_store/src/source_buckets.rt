//! The streams of other buckets that a bucket of keys copies.
ghost use Rattle.std.specs.Prelude.{◌≡◌, ◌++◌, ◌∷◌, [], IfOk, map, string_bytes};
ghost use Rattle.js_store.specs.SourceBuckets.{stream_name as stream_name_in, begins_as_stream, as_stream_name, of_bucket as of_bucket_in};

use js_base::{Items, OutOfMemory, Text, replace_with};
use js_json_stream_bodies::stream::Source;
use std::alloc::{AllocError, Global};

fn stream_text(alloc: Global, bucket: &str) -> Result<String, AllocError>
    ensures { IfOk result (λ text. string_bytes text ≡ stream_name_in bucket.now) }
{
    format!(in alloc; "KV_{bucket}")
}

/// Returns the name of the stream of a bucket of keys, `KV_{bucket}`. Fails only with
/// `OutOfMemory`.
pub fn stream_name(alloc: Global, bucket: &str) -> Result<Text, OutOfMemory>
    ensures { IfOk result (λ name. name ≡ stream_name_in bucket.now) }
{
    Ok(Text::from(stream_text(alloc, bucket)?))
}

fn begins_as_stream(name: &str) -> bool
    ensures { result ≡ begins_as_stream name.now }
{
    name.starts_with("KV_")
}

// Makes the name of a stream of one that may have been given as a bucket's.
fn name_as_stream(alloc: Global, name: &mut Text) -> Result<(), OutOfMemory>
    ensures { IfOk result (λ _. name.new ≡ as_stream_name name.old) }
{
    if !begins_as_stream(name.as_str()) {
        let stream = stream_name(alloc, name.as_str())?;
        replace_with(name, stream);
    }
    Ok(())
}

/// Returns the stream that a bucket copies.
pub(crate) fn of_bucket(alloc: Global, mut source: Source) -> Result<Source, OutOfMemory>
    ensures { IfOk result (λ there. there ≡ of_bucket_in source) }
{
    match name_as_stream(alloc, &mut source.name) {
        Ok(()) => Ok(source),
        Err(refused) => {
            drop(source);
            Err(refused)
        }
    }
}

// Puts the stream that a bucket copies behind those that are there.
fn push_of_bucket(alloc: Global, source: Source, there: &mut Vec<Source>) -> Result<(), OutOfMemory>
    ensures { IfOk result (λ _. there.new.items ≡ there.old.items ++ of_bucket_in source ∷ []) }
{
    there.push(of_bucket(alloc, source)?)?;
    Ok(())
}

fn each_of_bucket(alloc: Global, sources: Vec<Source>) -> Result<Vec<Source>, OutOfMemory>
    ensures { IfOk result (λ there. there.items ≡ map of_bucket_in sources.items) }
{
    let mut there = Vec::new(alloc);
    for source in sources {
        push_of_bucket(alloc, source, &mut there)?;
    }
    Ok(there)
}

/// Returns the streams that a bucket gathers if it copies none whole.
pub(crate) fn gathered(alloc: Global, sources: Items<Source>) -> Result<Items<Source>, OutOfMemory>
    ensures { IfOk result (λ there. there ≡ map of_bucket_in sources) }
{
    Ok(Items::from(each_of_bucket(alloc, sources.into_vec())?))
}
