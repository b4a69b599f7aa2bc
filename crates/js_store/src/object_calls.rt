//! The calls on buckets of objects.
ghost use Rattle.std.specs.Prelude.{◌≡◌, IfOk};
ghost use Rattle.js_store.specs.ObjectCalls.{creates_refusal, create_row, CreatesObjects, delete_row, deleting, get_refusal, get_row, getting};

use crate::bucket_call::{BucketCall, BucketCallRow};
use crate::config::create_its_stream;
use crate::delete::delete_named;
use crate::error::{
    CreateObjectStoreError, CreateObjectStoreErrorKind, DeleteObjectStore, ObjectStoreError,
    ObjectStoreErrorKind,
};
use crate::get::get_named;
use crate::store::ObjectStore;
use crate::{is_valid_bucket_name, object_store};
use js_base::{Error, OutOfMemory, Source, Text, both};
use js_call::ApiScope;
use js_call_streams::{
    CreateStream, CreateStreamError, DeleteStream, DeleteStreamError, GetStream, GetStreamError,
    StreamHandle,
};
use js_json_stream_bodies::DeleteStatus;
use js_json_stream_bodies::stream::Info;
use std::alloc::Global;

/// How `get_object_store` checks its argument and reads its answer.
#[derive(Drop)]
pub struct GettingObjects {
    bucket: Text,
}

/// The state of `get_object_store`.
pub type GetObjectStore = BucketCall<GetStream, StreamHandle<Info>, GetStreamError, GettingObjects>;

// What the name of a bucket of objects that is got is refused with.
fn get_refusal(bucket: &str) -> Option<ObjectStoreErrorKind>
    ensures { result ≡ get_refusal bucket.now }
{
    if is_valid_bucket_name(bucket) {
        None
    } else {
        Some(ObjectStoreErrorKind::InvalidBucketName)
    }
}

impl BucketCallRow<StreamHandle<Info>, GetStreamError> for GettingObjects {
    type Needs = ();

    type Answer = Result<ObjectStore, ObjectStoreError>;

    ghost table = { get_row };

    fn refusal(&self) -> Option<Result<ObjectStore, ObjectStoreError>> {
        match get_refusal(self.bucket.as_str()) {
            None => None,
            Some(kind) => Some(Err(Error::new(kind))),
        }
    }

    fn needs(&self, _alloc: Global, _given: &StreamHandle<Info>) -> Result<(), OutOfMemory> {
        Ok(())
    }

    fn accept(
        self,
        given: StreamHandle<Info>,
        _needs: (),
    ) -> Result<ObjectStore, ObjectStoreError> {
        Ok(ObjectStore {
            name: self.bucket,
            stream: given,
        })
    }

    fn refuse(
        self,
        error: GetStreamError,
        source: Source,
    ) -> Result<ObjectStore, ObjectStoreError> {
        drop(error);
        drop(self);
        Err(Error::with_source(ObjectStoreErrorKind::GetStore, source))
    }
}

/// Gets a bucket of objects.
///
/// Fails here only with `OutOfMemory`; other errors come from the polls. The first poll fails with
/// `InvalidBucketName` if the bucket's name is invalid, before anything is sent. `GetStore` has the
/// server's error as its source, or the text of the error of `get_stream`.
pub fn get_object_store(
    alloc: Global,
    scope: &ApiScope,
    bucket: &str,
) -> Result<GetObjectStore, OutOfMemory>
    ensures { IfOk result (λ call. call ≡ getting scope.now bucket.now) }
{
    let stream_name = object_store::stream_name(alloc, bucket)?;
    let (bucket, asked) = both(
        Text::from_str(alloc, bucket),
        get_named(alloc, scope, stream_name),
    )?;
    Ok(BucketCall::new(GettingObjects { bucket }, asked))
}

/// How `create_object_store` checks its argument and reads its answer.
#[derive(Drop)]
pub struct CreatingObjects {
    bucket: Text,
}

/// The state of `create_object_store`.
pub type CreateObjectStore = BucketCall<
    CreateStream,
    StreamHandle<Info>,
    CreateStreamError,
    CreatingObjects,
>;

// What the name of a bucket of objects that is made is refused with.
fn creates_refusal(bucket: &str) -> Option<CreateObjectStoreErrorKind>
    ensures { result ≡ creates_refusal bucket.now }
{
    if is_valid_bucket_name(bucket) {
        None
    } else {
        Some(CreateObjectStoreErrorKind::InvalidStoreName)
    }
}

impl BucketCallRow<StreamHandle<Info>, CreateStreamError> for CreatingObjects {
    type Needs = ();

    type Answer = Result<ObjectStore, CreateObjectStoreError>;

    ghost table = { create_row };

    fn refusal(&self) -> Option<Result<ObjectStore, CreateObjectStoreError>> {
        match creates_refusal(self.bucket.as_str()) {
            None => None,
            Some(kind) => Some(Err(Error::new(kind))),
        }
    }

    fn needs(&self, _alloc: Global, _given: &StreamHandle<Info>) -> Result<(), OutOfMemory> {
        Ok(())
    }

    fn accept(
        self,
        given: StreamHandle<Info>,
        _needs: (),
    ) -> Result<ObjectStore, CreateObjectStoreError> {
        Ok(ObjectStore {
            name: self.bucket,
            stream: given,
        })
    }

    fn refuse(
        self,
        error: CreateStreamError,
        source: Source,
    ) -> Result<ObjectStore, CreateObjectStoreError> {
        drop(error);
        drop(self);
        Err(Error::with_source(CreateObjectStoreErrorKind::BucketCreate, source))
    }
}

/// Creates a bucket of objects. If a bucket with this name and configuration exists, the server
/// returns it; it refuses a different configuration.
///
/// Fails here only with `OutOfMemory`; other errors come from the polls. The first poll fails with
/// `InvalidStoreName` if the bucket's name is invalid, before anything is sent. `BucketCreate` has
/// the server's error as its source, or the text of the error of `create_stream`, also if that is a
/// timeout.
pub fn create_object_store(
    alloc: Global,
    scope: &ApiScope,
    config: object_store::Config,
) -> Result<CreateObjectStore, OutOfMemory>
    ensures { IfOk result (λ call. CreatesObjects scope.now config call) }
{
    let (bucket, asked) = create_its_stream(alloc, scope, config)?;
    Ok(BucketCall::new(CreatingObjects { bucket }, asked))
}

/// How `delete_object_store` reads its answer. It keeps nothing of its arguments.
#[derive(Drop)]
pub struct DeletingObjects;

/// The state of `delete_object_store`.
pub type DeleteObjects = BucketCall<DeleteStream, DeleteStatus, DeleteStreamError, DeletingObjects>;

impl BucketCallRow<DeleteStatus, DeleteStreamError> for DeletingObjects {
    type Needs = ();

    type Answer = Result<(), DeleteObjectStore>;

    ghost table = { delete_row };

    fn refusal(&self) -> Option<Result<(), DeleteObjectStore>> {
        None
    }

    fn needs(&self, _alloc: Global, _given: &DeleteStatus) -> Result<(), OutOfMemory> {
        Ok(())
    }

    fn accept(self, _given: DeleteStatus, _needs: ()) -> Result<(), DeleteObjectStore> {
        Ok(())
    }

    fn refuse(self, error: DeleteStreamError, source: Source) -> Result<(), DeleteObjectStore> {
        drop(error);
        Err(Error::with_source(ObjectStoreErrorKind::GetStore, source))
    }
}

/// Deletes a bucket of objects with all its objects. It does not check the bucket's name;
/// `delete_stream` rejects a name that no stream may have, before anything is sent.
///
/// Fails here only with `OutOfMemory`; other errors come from the polls. `GetStore` has the
/// server's error as its source, or the text of the error of `delete_stream`.
pub fn delete_object_store(
    alloc: Global,
    scope: &ApiScope,
    bucket: &str,
) -> Result<DeleteObjects, OutOfMemory>
    ensures { IfOk result (λ call. call ≡ deleting scope.now bucket.now) }
{
    let stream_name = object_store::stream_name(alloc, bucket)?;
    let asked = delete_named(alloc, scope, stream_name)?;
    Ok(BucketCall::new(DeletingObjects, asked))
}
