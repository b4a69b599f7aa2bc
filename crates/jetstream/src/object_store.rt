//! Object buckets: how they are configured, and the calls of a context on them
//! ([`StoreCalls`](crate::context::StoreCalls)).
pub use js_store::object_store::{Config, stream_name};
pub use js_store::{
    CreateObjectStore, DeleteObjects, GetObjectStore, ObjectStore, is_valid_bucket_name,
};
