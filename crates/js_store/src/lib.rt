//! Buckets of keys and of objects: how to configure them, which stream each of them is, and the
//! calls with which a context gets, creates, changes and deletes them.
//!
//! A bucket is a stream whose name, subjects and limits follow from the bucket's configuration
//! (NATS ADR-8 for keys, ADR-20 for objects). A call on a bucket makes a call on that stream; poll
//! its state like that of any other call of a context. Creating or changing a bucket of keys first
//! asks for the server's API level. If the server returned an error, that error is the source of
//! the call's error. This crate does not read or write the values of a bucket: a [`Store`] says
//! where they are.
#![tactic(auto)]

mod api_level;
mod bucket_call;
mod calls;
mod config;
mod create;
mod delete;
mod error;
mod get;
pub mod kv;
mod name;
mod object_calls;
pub mod object_store;
mod places;
mod refusal;
mod source_buckets;
mod store;
mod to_source;
mod update;

pub use api_level::{AskLevel, AskingLevel, IfAllowed};
pub use bucket_call::{BucketCall, BucketCallRow};
pub use calls::StoreCalls;
pub use create::{CreateBucket, CreateKeyValue, CreatingBucket, create_key_value};
pub use delete::{DeleteKeyValue, DeletingBucket, delete_key_value};
pub use error::{
    CreateKeyValueError, CreateKeyValueErrorKind, CreateObjectStoreError,
    CreateObjectStoreErrorKind, DeleteObjectStore, DeleteObjectStoreKind, KeyValueError,
    KeyValueErrorKind, ObjectStoreError, ObjectStoreErrorKind, UpdateKeyValueError,
    UpdateKeyValueErrorKind,
};
pub use get::{GetKeyValue, GettingBucket, get_key_value};
pub use name::is_valid_bucket_name;
pub use object_calls::{
    CreateObjectStore, CreatingObjects, DeleteObjects, DeletingObjects, GetObjectStore,
    GettingObjects, create_object_store, delete_object_store, get_object_store,
};
pub use places::Places;
pub use refusal::{OfRefusal, Refusal, Refused};
pub use store::{ObjectStore, Store, StoreNames};
pub use to_source::ToSource;
pub use update::{
    ChangedBucket, CreateOrUpdateBucket, CreateOrUpdateKeyValue, CreatingOrUpdatingBucket,
    UpdateBucket, UpdateKeyValue, UpdatingBucket, create_or_update_key_value, update_key_value,
};
