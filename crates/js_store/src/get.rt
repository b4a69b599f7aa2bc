//! The call that gets a bucket of keys.
ghost use Rattle.std.specs.Prelude.{◌≡◌, IfOk, Ok, Err, if◌then◌else◌};
ghost use Rattle.js_base.specs.Error.{plain};
ghost use Rattle.js_store.specs.declared.error.KeyValueErrorKind.TheVariants.{InvalidStoreName};
ghost use Rattle.js_store.specs.GetAndDelete.{get_row, getting, got_names, name_refusal};
ghost use Rattle.js_call_streams.specs.GetAndDelete.{getting as getting_stream};

use crate::bucket_call::{BucketCall, BucketCallRow};
use crate::error::{KeyValueError, KeyValueErrorKind};
use crate::places::places_of;
use crate::store::{Store, StoreNames, store_of};
use crate::{is_valid_bucket_name, kv};
use js_base::{Error, OutOfMemory, Source, Text, both};
use js_call::ApiScope;
use js_call_streams::{GetStream, GetStreamError, StreamHandle, get_stream};
use js_json_stream_bodies::stream::Info;
use std::alloc::Global;

/// How `get_key_value` checks its argument and reads its answer.
#[derive(Drop)]
pub struct GettingBucket {
    bucket: Text,
}

/// The state of `get_key_value`.
pub type GetKeyValue = BucketCall<GetStream, StreamHandle<Info>, GetStreamError, GettingBucket>;

/// Returns the error for an invalid bucket name, or `None` if the name is valid.
pub(crate) fn name_refusal(bucket: &str) -> Option<KeyValueErrorKind>
    ensures { result ≡ name_refusal bucket.now }
{
    if is_valid_bucket_name(bucket) {
        None
    } else {
        Some(KeyValueErrorKind::InvalidStoreName)
    }
}

// What was got, unless its stream keeps no value of a key.
fn unless<T: Drop>(keeps_nothing: bool, got: T) -> Result<T, KeyValueError>
    ensures { result ≡ if keeps_nothing then Err (plain InvalidStoreName) else Ok got }
{
    if keeps_nothing {
        Err(Error::new(KeyValueErrorKind::InvalidStoreName))
    } else {
        Ok(got)
    }
}

impl BucketCallRow<StreamHandle<Info>, GetStreamError> for GettingBucket {
    type Needs = StoreNames;

    type Answer = Result<Store, KeyValueError>;

    ghost table = { get_row };

    fn refusal(&self) -> Option<Result<Store, KeyValueError>> {
        match name_refusal(self.bucket.as_str()) {
            None => None,
            Some(kind) => Some(Err(Error::new(kind))),
        }
    }

    fn needs(&self, alloc: Global, given: &StreamHandle<Info>) -> Result<StoreNames, OutOfMemory> {
        let api = given.scope.prefix.as_str();
        let bucket = self.bucket.as_str();
        let (stream_name, places) = both(
            kv::stream_name(alloc, bucket),
            places_of(alloc, api, bucket, &given.info.config.mirror),
        )?;
        Ok(StoreNames {
            stream_name,
            places,
        })
    }

    fn accept(self, given: StreamHandle<Info>, needs: StoreNames) -> Result<Store, KeyValueError> {
        let keeps_nothing = given.info.config.max_messages_per_subject < 1;
        unless(keeps_nothing, store_of(self.bucket, needs, given))
    }

    fn refuse(self, error: GetStreamError, source: Source) -> Result<Store, KeyValueError> {
        drop(error);
        drop(self);
        Err(Error::with_source(KeyValueErrorKind::GetBucket, source))
    }
}

/// Returns the call that gets the stream of this name.
pub(crate) fn get_named(
    alloc: Global,
    scope: &ApiScope,
    name: Text,
) -> Result<GetStream, OutOfMemory>
    ensures { IfOk result (λ call. call ≡ getting_stream scope.now name) }
{
    get_stream(alloc, scope, name.as_str())
}

/// Gets a bucket of keys, and finds where its values are.
///
/// Fails here only with `OutOfMemory`; other errors come from the polls. The first poll fails with
/// `InvalidStoreName` if the name is invalid, before anything is sent. A later `InvalidStoreName`
/// means that the stream of that name keeps no value of a key, so it is no bucket. `GetBucket` has
/// the server's error as its source, or the text of the error of `get_stream`.
pub fn get_key_value(
    alloc: Global,
    scope: &ApiScope,
    bucket: &str,
) -> Result<GetKeyValue, OutOfMemory>
    ensures { IfOk result (λ call. call ≡ getting scope.now bucket.now) }
{
    let stream_name = kv::stream_name(alloc, bucket)?;
    let (bucket, asked) = both(
        Text::from_str(alloc, bucket),
        get_named(alloc, scope, stream_name),
    )?;
    Ok(BucketCall::new(GettingBucket { bucket }, asked))
}
