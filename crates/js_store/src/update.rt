//! The calls that change a bucket of keys.
ghost use Rattle.std.specs.Prelude.{◌≡◌, IfOk};
ghost use Rattle.js_store.specs.SourceBuckets.{stream_name};
ghost use Rattle.js_call_streams.specs.Update.{Updates};
ghost use Rattle.js_json_stream_bodies.specs.declared.stream.config.Config.{Config};
ghost use Rattle.js_store.specs.Update.{changed_names, changed_store, changes_kind, create_or_update_row, CreatesOrUpdatesBucket, CreatesOrUpdatesStream, update_row, UpdatesBucket, UpdatesStream};

use crate::api_level::{AfterLevel, AskLevel, IfAllowed, after_level};
use crate::bucket_call::{BucketCall, BucketCallRow};
use crate::config::{BucketConfig, stream_of};
use crate::error::{
    CreateKeyValueError, CreateKeyValueErrorKind, UpdateKeyValueError, UpdateKeyValueErrorKind,
};
use crate::kv;
use crate::store::{Store, StoreNames, answered_names, store_of};
use js_base::{Error, OutOfMemory, Source, Text, TryClone, all_3, both};
use js_call::{ApiScope, Then};
use js_call_streams::{
    CreateOrUpdateStream, CreateStreamError, CreateStreamErrorKind, StreamHandle, UpdateStream,
    UpdateStreamError, create_or_update_stream, update_stream,
};
use js_json_stream_bodies::stream;
use js_json_stream_bodies::stream::Info;
use std::alloc::Global;

/// A bucket of keys that is being changed: its name, and what is known of its stream before the
/// server answers.
#[derive(Drop)]
pub struct ChangedBucket {
    bucket: Text,
    scope: ApiScope,
    stream_name: Text,
}

impl ChangedBucket {
    fn named(alloc: Global, scope: &ApiScope, bucket: &Text) -> Result<ChangedBucket, OutOfMemory>
        ensures { IfOk result (λ changed. changed ≡ record { bucket = bucket.now; scope = scope.now; stream_name = stream_name bucket.now }) }
    {
        let (stream_name, bucket, scope) = all_3(
            kv::stream_name(alloc, bucket.as_str()),
            bucket.try_clone(),
            scope.try_clone(),
        )?;
        Ok(ChangedBucket {
            bucket,
            scope,
            stream_name,
        })
    }

    fn names(&self, alloc: Global, info: &Info) -> Result<StoreNames, OutOfMemory>
        ensures { IfOk result (λ names. names ≡ changed_names self.now info.now) }
    {
        let api = self.scope.prefix.as_str();
        answered_names(alloc, api, self.bucket.as_str(), &info.config)
    }

    fn into_store(self, info: Info, names: StoreNames) -> Store
        ensures { result ≡ changed_store self info names }
    {
        let ChangedBucket {
            bucket,
            scope,
            stream_name,
        } = self;
        let stream = StreamHandle {
            scope,
            name: stream_name,
            info,
            kept: None,
        };
        store_of(bucket, names, stream)
    }
}

// The bucket that is changed, and what its stream is changed to. Fails with `OutOfMemory` if memory runs out, and with nothing
// else.
fn changed<C: BucketConfig>(
    alloc: Global,
    scope: &ApiScope,
    config: C,
) -> Result<(ChangedBucket, stream::Config), OutOfMemory>
    ensures { IfOk result (λ changed. (changed.0 ≡ record { bucket = C.bucket config; scope = scope.now; stream_name = stream_name (C.bucket config) }) × (changed.1 ≡ C.stream config)) }
{
    let changed = ChangedBucket::named(alloc, scope, config.bucket());
    both(changed, stream_of(alloc, config))
}

/// The configuration to change a stream to.
trait Change: Drop {
    ghost change: { Self → Config };

    /// Returns the call that asks for the change. Fails only with `OutOfMemory`.
    fn call(&self, alloc: Global, scope: &ApiScope) -> Result<UpdateStream, OutOfMemory>
        ensures { IfOk result (λ update. Updates scope.now (change self.now) update) };
}

impl Change for stream::Config {
    ghost change = { λ config. config };

    fn call(&self, alloc: Global, scope: &ApiScope) -> Result<UpdateStream, OutOfMemory> {
        update_stream(alloc, scope, self)
    }
}

// The call that asks for a change. Fails with `OutOfMemory` if memory runs out, and with nothing else.
fn update_to<C: Change>(
    alloc: Global,
    scope: &ApiScope,
    change: C,
) -> Result<UpdateStream, OutOfMemory>
    ensures { IfOk result (λ update. Updates scope.now (C.change change) update) }
{
    change.call(alloc, scope)
}

/// How the second call of `update_key_value` reads its answer.
#[derive(Drop)]
pub struct UpdatingBucket {
    changed: ChangedBucket,
}

/// The second call of `update_key_value`: it changes the bucket's stream.
pub type UpdateBucket = BucketCall<UpdateStream, Info, UpdateStreamError, UpdatingBucket>;

/// The state of `update_key_value`.
pub type UpdateKeyValue = Then<AskLevel, UpdateBucket, IfAllowed>;

// What a stream that was not changed means where it is a bucket's.
fn changes_kind(kind: &CreateStreamErrorKind) -> UpdateKeyValueErrorKind
    ensures { result ≡ changes_kind kind.now }
{
    match kind {
        CreateStreamErrorKind::NotFound => UpdateKeyValueErrorKind::NotFound,
        _ => UpdateKeyValueErrorKind::JetStream,
    }
}

impl BucketCallRow<Info, UpdateStreamError> for UpdatingBucket {
    type Needs = StoreNames;

    type Answer = Result<Store, UpdateKeyValueError>;

    ghost table = { update_row };

    fn refusal(&self) -> Option<Result<Store, UpdateKeyValueError>> {
        None
    }

    fn needs(&self, alloc: Global, given: &Info) -> Result<StoreNames, OutOfMemory> {
        self.changed.names(alloc, given)
    }

    fn accept(self, given: Info, needs: StoreNames) -> Result<Store, UpdateKeyValueError> {
        Ok(self.changed.into_store(given, needs))
    }

    fn refuse(
        self,
        error: UpdateStreamError,
        source: Source,
    ) -> Result<Store, UpdateKeyValueError> {
        let kind = changes_kind(error.kind());
        drop(error);
        drop(self);
        Err(Error::with_source(kind, source))
    }
}

/// How the second call of `create_or_update_key_value` reads its answer.
#[derive(Drop)]
pub struct CreatingOrUpdatingBucket {
    changed: ChangedBucket,
}

/// The second call of `create_or_update_key_value`: it changes or creates the bucket's stream.
pub type CreateOrUpdateBucket = BucketCall<
    CreateOrUpdateStream,
    Info,
    CreateStreamError,
    CreatingOrUpdatingBucket,
>;

/// The state of `create_or_update_key_value`.
pub type CreateOrUpdateKeyValue = Then<AskLevel, CreateOrUpdateBucket, IfAllowed>;

impl BucketCallRow<Info, CreateStreamError> for CreatingOrUpdatingBucket {
    type Needs = StoreNames;

    type Answer = Result<Store, CreateKeyValueError>;

    ghost table = { create_or_update_row };

    fn refusal(&self) -> Option<Result<Store, CreateKeyValueError>> {
        None
    }

    fn needs(&self, alloc: Global, given: &Info) -> Result<StoreNames, OutOfMemory> {
        self.changed.names(alloc, given)
    }

    fn accept(self, given: Info, needs: StoreNames) -> Result<Store, CreateKeyValueError> {
        Ok(self.changed.into_store(given, needs))
    }

    fn refuse(
        self,
        error: CreateStreamError,
        source: Source,
    ) -> Result<Store, CreateKeyValueError> {
        drop(error);
        drop(self);
        Err(Error::with_source(CreateKeyValueErrorKind::JetStream, source))
    }
}

impl AfterLevel for UpdatingBucket {
    type Call = UpdateBucket;

    ghost asks = { UpdatesStream };

    fn ask(
        alloc: Global,
        scope: &ApiScope,
        config: kv::Config,
    ) -> Result<UpdateBucket, OutOfMemory> {
        let (changed, stream) = changed(alloc, scope, config)?;
        let asked = update_to(alloc, scope, stream)?;
        Ok(BucketCall::new(UpdatingBucket { changed }, asked))
    }
}

/// Changes a bucket of keys. It asks for the server's API level, then, in the same poll, changes
/// the bucket's stream as `update_stream` does. This resets all settings that a stream's `Config`
/// does not have.
///
/// Fails here only with `OutOfMemory`; other errors come from the polls. Before anything is sent,
/// the first poll fails with `InvalidStoreName` if the bucket's name is invalid, and then with
/// `TooLongHistory` if the history is longer than 64 values. The call fails with `JetStream` if the
/// account query fails, and with `LimitMarkersNotSupported` if the configuration has markers and
/// the account's API level is below 1; it does not ask for the change then. It fails with
/// `NotFound` if the server knows no stream of that bucket, and with `JetStream` if the stream was
/// not changed for another reason. `JetStream` and `NotFound` have the server's error as their
/// source, or the text of the error of `query_account` or `update_stream`.
pub fn update_key_value(
    alloc: Global,
    scope: &ApiScope,
    config: kv::Config,
) -> Result<UpdateKeyValue, OutOfMemory>
    ensures { IfOk result (λ calls. UpdatesBucket scope.now config calls) }
{
    after_level::<UpdatingBucket>(alloc, scope, config)
}

impl AfterLevel for CreatingOrUpdatingBucket {
    type Call = CreateOrUpdateBucket;

    ghost asks = { CreatesOrUpdatesStream };

    fn ask(
        alloc: Global,
        scope: &ApiScope,
        config: kv::Config,
    ) -> Result<CreateOrUpdateBucket, OutOfMemory> {
        let (changed, stream) = changed(alloc, scope, config)?;
        let asked = create_or_update_stream(alloc, scope, stream)?;
        Ok(BucketCall::new(CreatingOrUpdatingBucket { changed }, asked))
    }
}

/// Changes a bucket of keys, or creates it if it does not exist. It asks for the server's API
/// level, then, in the same poll, changes or creates the bucket's stream as
/// `create_or_update_stream` does.
///
/// Fails here only with `OutOfMemory`; other errors come from the polls. Before anything is sent,
/// the first poll fails with `InvalidStoreName` if the bucket's name is invalid, and then with
/// `TooLongHistory` if the history is longer than 64 values. The call fails with `JetStream` if the
/// account query fails, or if the stream was neither changed nor created. It fails with
/// `LimitMarkersNotSupported` if the configuration has markers and the account's API level is below
/// 1; it does not ask for the stream then. `JetStream` has the server's error as its source, or the
/// text of the error of `query_account` or `create_or_update_stream`.
pub fn create_or_update_key_value(
    alloc: Global,
    scope: &ApiScope,
    config: kv::Config,
) -> Result<CreateOrUpdateKeyValue, OutOfMemory>
    ensures { IfOk result (λ calls. CreatesOrUpdatesBucket scope.now config calls) }
{
    after_level::<CreatingOrUpdatingBucket>(alloc, scope, config)
}
