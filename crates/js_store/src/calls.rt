//! The bucket calls of a context.
ghost use Rattle.std.specs.Prelude.{◌≡◌, IfOk};
ghost use Rattle.js_call.specs.declared.scope.ApiScope.{ApiScope};
ghost use Rattle.js_context.specs.Context.{scope_in};
ghost use Rattle.js_store.specs.Update.{CreatesOrUpdatesBucket, UpdatesBucket};
ghost use Rattle.js_store.specs.Create.{CreatesBucket};
ghost use Rattle.js_store.specs.GetAndDelete.{deleting as deleting_bucket, getting as getting_bucket};
ghost use Rattle.js_store.specs.ObjectCalls.{CreatesObjects, deleting as deleting_objects, getting as getting_objects};

use crate::create::{CreateKeyValue, create_key_value};
use crate::delete::{DeleteKeyValue, delete_key_value};
use crate::get::{GetKeyValue, get_key_value};
use crate::object_calls::{
    CreateObjectStore, DeleteObjects, GetObjectStore, create_object_store, delete_object_store,
    get_object_store,
};
use crate::update::{
    CreateOrUpdateKeyValue, UpdateKeyValue, create_or_update_key_value, update_key_value,
};
use crate::{kv, object_store};
use js_base::OutOfMemory;
use js_context::Context;
use std::alloc::Global;

/// Makes the calls on buckets.
///
/// Each call returns a state, or fails with `OutOfMemory`. The state's first poll rejects invalid
/// arguments before anything is sent. The functions of the same names say which errors come and
/// when.
pub trait StoreCalls {
    /// Where its requests go, and how long to wait for their answers.
    ghost stores_by: { Self → ApiScope };

    /// Gets a bucket of keys, and finds where its values are.
    ///
    /// Fails with `OutOfMemory` if memory runs out; the state's polls return the errors of the
    /// function `get_key_value`.
    fn get_key_value(&self, alloc: Global, bucket: &str) -> Result<GetKeyValue, OutOfMemory>
        ensures { IfOk result (λ call. call ≡ getting_bucket (stores_by self.now) bucket.now) };

    /// Creates a bucket of keys: asks for the server's API level, then creates the bucket's stream.
    ///
    /// Fails with `OutOfMemory` if memory runs out; the state's polls return the errors of the
    /// function `create_key_value`.
    fn create_key_value(
        &self,
        alloc: Global,
        config: kv::Config,
    ) -> Result<CreateKeyValue, OutOfMemory>
        ensures { IfOk result (λ calls. CreatesBucket (stores_by self.now) config calls) };

    /// Changes a bucket of keys: asks for the server's API level, then changes the bucket's stream.
    ///
    /// Fails with `OutOfMemory` if memory runs out; the state's polls return the errors of the
    /// function `update_key_value`.
    fn update_key_value(
        &self,
        alloc: Global,
        config: kv::Config,
    ) -> Result<UpdateKeyValue, OutOfMemory>
        ensures { IfOk result (λ calls. UpdatesBucket (stores_by self.now) config calls) };

    /// Changes a bucket of keys, or creates it if it does not exist.
    ///
    /// Fails with `OutOfMemory` if memory runs out; the state's polls return the errors of the
    /// function `create_or_update_key_value`.
    fn create_or_update_key_value(
        &self,
        alloc: Global,
        config: kv::Config,
    ) -> Result<CreateOrUpdateKeyValue, OutOfMemory>
        ensures { IfOk result (λ calls. CreatesOrUpdatesBucket (stores_by self.now) config calls) };

    /// Deletes a bucket of keys with all its values.
    ///
    /// Fails with `OutOfMemory` if memory runs out; the state's polls return the errors of the
    /// function `delete_key_value`.
    fn delete_key_value(&self, alloc: Global, bucket: &str) -> Result<DeleteKeyValue, OutOfMemory>
        ensures { IfOk result (λ call. call ≡ deleting_bucket (stores_by self.now) bucket.now) };

    /// Creates a bucket of objects.
    ///
    /// Fails with `OutOfMemory` if memory runs out; the state's polls return the errors of the
    /// function `create_object_store`.
    fn create_object_store(
        &self,
        alloc: Global,
        config: object_store::Config,
    ) -> Result<CreateObjectStore, OutOfMemory>
        ensures { IfOk result (λ call. CreatesObjects (stores_by self.now) config call) };

    /// Gets a bucket of objects.
    ///
    /// Fails with `OutOfMemory` if memory runs out; the state's polls return the errors of the
    /// function `get_object_store`.
    fn get_object_store(&self, alloc: Global, bucket: &str) -> Result<GetObjectStore, OutOfMemory>
        ensures { IfOk result (λ call. call ≡ getting_objects (stores_by self.now) bucket.now) };

    /// Deletes a bucket of objects with all its objects.
    ///
    /// Fails with `OutOfMemory` if memory runs out; the state's polls return the errors of the
    /// function `delete_object_store`.
    fn delete_object_store(&self, alloc: Global, bucket: &str) -> Result<DeleteObjects, OutOfMemory>
        ensures { IfOk result (λ call. call ≡ deleting_objects (stores_by self.now) bucket.now) };
}

impl StoreCalls for Context {
    ghost stores_by = { scope_in };

    fn get_key_value(&self, alloc: Global, bucket: &str) -> Result<GetKeyValue, OutOfMemory> {
        get_key_value(alloc, self.scope(), bucket)
    }

    fn create_key_value(
        &self,
        alloc: Global,
        config: kv::Config,
    ) -> Result<CreateKeyValue, OutOfMemory> {
        create_key_value(alloc, self.scope(), config)
    }

    fn update_key_value(
        &self,
        alloc: Global,
        config: kv::Config,
    ) -> Result<UpdateKeyValue, OutOfMemory> {
        update_key_value(alloc, self.scope(), config)
    }

    fn create_or_update_key_value(
        &self,
        alloc: Global,
        config: kv::Config,
    ) -> Result<CreateOrUpdateKeyValue, OutOfMemory> {
        create_or_update_key_value(alloc, self.scope(), config)
    }

    fn delete_key_value(&self, alloc: Global, bucket: &str) -> Result<DeleteKeyValue, OutOfMemory> {
        delete_key_value(alloc, self.scope(), bucket)
    }

    fn create_object_store(
        &self,
        alloc: Global,
        config: object_store::Config,
    ) -> Result<CreateObjectStore, OutOfMemory> {
        create_object_store(alloc, self.scope(), config)
    }

    fn get_object_store(&self, alloc: Global, bucket: &str) -> Result<GetObjectStore, OutOfMemory> {
        get_object_store(alloc, self.scope(), bucket)
    }

    fn delete_object_store(
        &self,
        alloc: Global,
        bucket: &str,
    ) -> Result<DeleteObjects, OutOfMemory> {
        delete_object_store(alloc, self.scope(), bucket)
    }
}
