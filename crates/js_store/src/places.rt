//! Where the values of a bucket are.
ghost use Rattle.std.specs.Prelude.{◌≡◌, IfOk, string_bytes};
ghost use Rattle.js_store.specs.Places.{key_prefix as key_prefix_in, put_elsewhere as put_elsewhere_in, without_prefix, is_own_api as is_own_api_in, own, moved, mirrored, places_of as places_in};

use js_base::{OutOfMemory, Text, both};
use js_json_stream_bodies::stream::{External, Source};
use std::alloc::{AllocError, Global};

/// Where the values of a bucket are.
#[derive(Drop)]
pub struct Places {
    pub(crate) prefix: Text,
    pub(crate) put_prefix: Option<Text>,
    pub(crate) use_jetstream_prefix: bool,
}

fn key_prefix_text(alloc: Global, bucket: &str) -> Result<String, AllocError>
    ensures { IfOk result (λ text. string_bytes text ≡ key_prefix_in bucket.now) }
{
    format!(in alloc; "$KV.{bucket}.")
}

fn key_prefix(alloc: Global, bucket: &str) -> Result<Text, OutOfMemory>
    ensures { IfOk result (λ prefix. prefix ≡ key_prefix_in bucket.now) }
{
    Ok(Text::from(key_prefix_text(alloc, bucket)?))
}

fn put_elsewhere_text(alloc: Global, api: &str, bucket: &str) -> Result<String, AllocError>
    ensures { IfOk result (λ text. string_bytes text ≡ put_elsewhere_in api.now bucket.now) }
{
    format!(in alloc; "{api}.$KV.{bucket}.")
}

fn put_elsewhere(alloc: Global, api: &str, bucket: &str) -> Result<Text, OutOfMemory>
    ensures { IfOk result (λ prefix. prefix ≡ put_elsewhere_in api.now bucket.now) }
{
    Ok(Text::from(put_elsewhere_text(alloc, api, bucket)?))
}

// The name of a stream without any `KV_` that it begins with.
fn without_prefix(name: &str) -> &str
    ensures { result.now ≡ without_prefix name.now }
{
    name.trim_start_matches("KV_")
}

fn is_own_api(api: &str) -> bool
    ensures { result ≡ is_own_api_in api.now }
{
    api == "$JS.API"
}

// The places of a bucket that is a mirror of none elsewhere.
fn own(alloc: Global, api: &str, bucket: &str) -> Result<Places, OutOfMemory>
    ensures { IfOk result (λ places. places ≡ own api.now bucket.now) }
{
    Ok(Places {
        prefix: key_prefix(alloc, bucket)?,
        put_prefix: None,
        use_jetstream_prefix: !is_own_api(api),
    })
}

// Those of a mirror of a bucket that is reached by that external.
fn moved(
    alloc: Global,
    api: &str,
    bucket: &str,
    copied: &str,
    external: &External,
) -> Result<Places, OutOfMemory>
    ensures { IfOk result (λ places. places ≡ moved api.now bucket.now copied.now external.now.api_prefix) }
{
    let elsewhere = external.api_prefix.as_str();
    if elsewhere.is_empty() {
        let (prefix, put) = both(key_prefix(alloc, bucket), key_prefix(alloc, copied))?;
        Ok(Places {
            prefix,
            put_prefix: Some(put),
            use_jetstream_prefix: !is_own_api(api),
        })
    } else {
        let put = put_elsewhere(alloc, elsewhere, copied);
        let (prefix, put) = both(key_prefix(alloc, copied), put)?;
        Ok(Places {
            prefix,
            put_prefix: Some(put),
            use_jetstream_prefix: false,
        })
    }
}

// Those of a mirror.
fn mirrored(alloc: Global, api: &str, bucket: &str, mirror: &Source) -> Result<Places, OutOfMemory>
    ensures { IfOk result (λ places. places ≡ mirrored api.now bucket.now mirror.now.name mirror.now.external) }
{
    match &mirror.external {
        None => own(alloc, api, bucket),
        Some(external) => {
            let copied = without_prefix(mirror.name.as_str());
            moved(alloc, api, bucket, copied, external)
        }
    }
}

/// Returns where the values of a bucket are, from the API's prefix and the mirror of its stream.
/// Fails only with `OutOfMemory`.
pub(crate) fn places_of(
    alloc: Global,
    api: &str,
    bucket: &str,
    mirror: &Option<Source>,
) -> Result<Places, OutOfMemory>
    ensures { IfOk result (λ places. places ≡ places_in api.now bucket.now mirror.now) }
{
    match mirror {
        None => own(alloc, api, bucket),
        Some(mirror) => mirrored(alloc, api, bucket, mirror),
    }
}
