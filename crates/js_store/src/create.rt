//! The call that creates a bucket of keys.
ghost use Rattle.std.specs.Prelude.{◌≡◌, IfOk};
ghost use Rattle.js_store.specs.Create.{create_row, creates_kind, CreatesBucket, CreatesStream};

use crate::api_level::{AfterLevel, AskLevel, IfAllowed, after_level};
use crate::bucket_call::{BucketCall, BucketCallRow};
use crate::config::create_its_stream;
use crate::error::{CreateKeyValueError, CreateKeyValueErrorKind};
use crate::kv;
use crate::store::{Store, StoreNames, answered_names, store_of};
use js_base::{Error, OutOfMemory, Source, Text};
use js_call::{ApiScope, Then};
use js_call_streams::{CreateStream, CreateStreamError, CreateStreamErrorKind, StreamHandle};
use js_json_stream_bodies::stream::Info;
use std::alloc::Global;

/// How the second call of `create_key_value` reads its answer.
#[derive(Drop)]
pub struct CreatingBucket {
    bucket: Text,
}

/// The second call of `create_key_value`: it creates the bucket's stream.
pub type CreateBucket = BucketCall<
    CreateStream,
    StreamHandle<Info>,
    CreateStreamError,
    CreatingBucket,
>;

/// The state of `create_key_value`.
pub type CreateKeyValue = Then<AskLevel, CreateBucket, IfAllowed>;

// What a stream that was not made means where it is a bucket's.
fn creates_kind(kind: &CreateStreamErrorKind) -> CreateKeyValueErrorKind
    ensures { result ≡ creates_kind kind.now }
{
    match kind {
        CreateStreamErrorKind::TimedOut => CreateKeyValueErrorKind::TimedOut,
        _ => CreateKeyValueErrorKind::BucketCreate,
    }
}

impl BucketCallRow<StreamHandle<Info>, CreateStreamError> for CreatingBucket {
    type Needs = StoreNames;

    type Answer = Result<Store, CreateKeyValueError>;

    ghost table = { create_row };

    fn refusal(&self) -> Option<Result<Store, CreateKeyValueError>> {
        None
    }

    fn needs(&self, alloc: Global, given: &StreamHandle<Info>) -> Result<StoreNames, OutOfMemory> {
        let api = given.scope.prefix.as_str();
        answered_names(alloc, api, self.bucket.as_str(), &given.info.config)
    }

    fn accept(
        self,
        given: StreamHandle<Info>,
        needs: StoreNames,
    ) -> Result<Store, CreateKeyValueError> {
        Ok(store_of(self.bucket, needs, given))
    }

    fn refuse(
        self,
        error: CreateStreamError,
        source: Source,
    ) -> Result<Store, CreateKeyValueError> {
        let kind = creates_kind(error.kind());
        drop(error);
        drop(self);
        Err(Error::with_source(kind, source))
    }
}

impl AfterLevel for CreatingBucket {
    type Call = CreateBucket;

    ghost asks = { CreatesStream };

    fn ask(
        alloc: Global,
        scope: &ApiScope,
        config: kv::Config,
    ) -> Result<CreateBucket, OutOfMemory> {
        let (bucket, asked) = create_its_stream(alloc, scope, config)?;
        Ok(BucketCall::new(CreatingBucket { bucket }, asked))
    }
}

/// Creates a bucket of keys. It asks for the server's API level, then, in the same poll, creates
/// the bucket's stream as `create_stream` does. If a bucket with this name and configuration
/// exists, the server returns it; it refuses a different configuration.
///
/// Fails here only with `OutOfMemory`; other errors come from the polls. Before anything is sent,
/// the first poll fails with `InvalidStoreName` if the bucket's name is invalid, and then with
/// `TooLongHistory` if the history is longer than 64 values. The call fails with `JetStream` if the
/// account query fails, and with `LimitMarkersNotSupported` if the configuration has markers and
/// the account's API level is below 1; it does not ask for the stream then. It fails with
/// `TimedOut` if the timeout of the stream's request is due, and with `BucketCreate` if the stream
/// was not created for another reason. `JetStream`, `TimedOut` and `BucketCreate` have the server's
/// error as their source, or the text of the error of `query_account` or `create_stream`.
pub fn create_key_value(
    alloc: Global,
    scope: &ApiScope,
    config: kv::Config,
) -> Result<CreateKeyValue, OutOfMemory>
    ensures { IfOk result (λ calls. CreatesBucket scope.now config calls) }
{
    after_level::<CreatingBucket>(alloc, scope, config)
}
