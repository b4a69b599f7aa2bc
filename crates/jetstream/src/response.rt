//! Reading replies to requests of your own: the reply that you asked for, or the server's error.
//!
//! [`Context::raw_request`](crate::Context::raw_request) returns the reply as it came;
//! [`response_as`] reads it: `response_as::<DeleteStatus>(alloc, reply.payload.as_slice())` reads
//! the reply to a purge.
pub use js_json::{Response, response_as, response_from};
pub use js_json_members::{FromValue, ReadError, ToValue};
