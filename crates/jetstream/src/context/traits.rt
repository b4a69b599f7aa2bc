//! What a context can do, one trait for each.
pub use js_context::{ClientProvider, Publisher, RequestSender, Requester, TimeoutProvider};
