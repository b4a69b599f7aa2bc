//! The context, its builder, requests of your own, lists of streams, and calls on buckets.
//!
//! The errors of these calls are here too; what the calls are about is in
//! [`stream`](crate::stream), [`consumer`](crate::consumer), [`publish`](crate::publish) and
//! [`account`](crate::account).

pub mod traits;

pub use js_call::{
    ApiRequest, ApiScope, OpenRequest, RawCall, RawRequest, RequestError, RequestErrorKind,
    SendError,
};
pub use js_call_consumers::{ConsumerInfoError, ConsumerInfoErrorKind};
pub use js_call_streams::{
    AccountError, AccountErrorKind, CreateStreamError, CreateStreamErrorKind, DeleteStreamError,
    DeleteStreamErrorKind, GetStreamByNameError, GetStreamByNameErrorKind, GetStreamError,
    GetStreamErrorKind, SearchingStream, StreamBySubject, StreamNames, Streams, StreamsError,
    StreamsErrorKind, UpdateStreamError, UpdateStreamErrorKind,
};
pub use js_context::{
    BuildError, Context, ContextBuilder, No, PublishAckFuture, PublishError, PublishErrorKind,
    ToAssign, Yes,
};
pub use js_store::{
    CreateKeyValueError, CreateKeyValueErrorKind, CreateObjectStoreError,
    CreateObjectStoreErrorKind, DeleteObjectStore, DeleteObjectStoreKind, KeyValueError,
    KeyValueErrorKind, ObjectStoreError, ObjectStoreErrorKind, StoreCalls, UpdateKeyValueError,
    UpdateKeyValueErrorKind,
};
pub use traits::{ClientProvider, Publisher, RequestSender, Requester, TimeoutProvider};
