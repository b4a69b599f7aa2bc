//! The call that deletes a bucket of keys.
ghost use Rattle.std.specs.Prelude.{◌≡◌, IfOk};
ghost use Rattle.js_store.specs.GetAndDelete.{delete_row, deleting};
ghost use Rattle.js_call_streams.specs.GetAndDelete.{deleting as deleting_stream};

use crate::bucket_call::{BucketCall, BucketCallRow};
use crate::error::{KeyValueError, KeyValueErrorKind};
use crate::get::name_refusal;
use crate::kv;
use js_base::{Error, OutOfMemory, Source, Text, both};
use js_call::ApiScope;
use js_call_streams::{DeleteStream, DeleteStreamError, delete_stream};
use js_json_stream_bodies::DeleteStatus;
use std::alloc::Global;

/// How `delete_key_value` checks its argument and reads its answer.
#[derive(Drop)]
pub struct DeletingBucket {
    bucket: Text,
}

/// The state of `delete_key_value`.
pub type DeleteKeyValue = BucketCall<DeleteStream, DeleteStatus, DeleteStreamError, DeletingBucket>;

impl BucketCallRow<DeleteStatus, DeleteStreamError> for DeletingBucket {
    type Needs = ();

    type Answer = Result<DeleteStatus, KeyValueError>;

    ghost table = { delete_row };

    fn refusal(&self) -> Option<Result<DeleteStatus, KeyValueError>> {
        match name_refusal(self.bucket.as_str()) {
            None => None,
            Some(kind) => Some(Err(Error::new(kind))),
        }
    }

    fn needs(&self, _alloc: Global, _given: &DeleteStatus) -> Result<(), OutOfMemory> {
        Ok(())
    }

    fn accept(self, given: DeleteStatus, _needs: ()) -> Result<DeleteStatus, KeyValueError> {
        Ok(given)
    }

    fn refuse(
        self,
        error: DeleteStreamError,
        source: Source,
    ) -> Result<DeleteStatus, KeyValueError> {
        drop(error);
        drop(self);
        Err(Error::with_source(KeyValueErrorKind::JetStream, source))
    }
}

/// Returns the call that deletes the stream of this name.
pub(crate) fn delete_named(
    alloc: Global,
    scope: &ApiScope,
    name: Text,
) -> Result<DeleteStream, OutOfMemory>
    ensures { IfOk result (λ call. call ≡ deleting_stream scope.now name) }
{
    delete_stream(alloc, scope, name.as_str())
}

/// Deletes a bucket of keys with all its values.
///
/// Fails here only with `OutOfMemory`; other errors come from the polls. The first poll fails with
/// `InvalidStoreName` if the bucket's name is invalid, before anything is sent. `JetStream` has the
/// server's error as its source, or the text of the error of `delete_stream`.
pub fn delete_key_value(
    alloc: Global,
    scope: &ApiScope,
    bucket: &str,
) -> Result<DeleteKeyValue, OutOfMemory>
    ensures { IfOk result (λ call. call ≡ deleting scope.now bucket.now) }
{
    let stream_name = kv::stream_name(alloc, bucket)?;
    let (bucket, asked) = both(
        Text::from_str(alloc, bucket),
        delete_named(alloc, scope, stream_name),
    )?;
    Ok(BucketCall::new(DeletingBucket { bucket }, asked))
}
