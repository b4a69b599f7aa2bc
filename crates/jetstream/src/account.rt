//! What an account may use, and how much it uses.
pub use js_call_streams::{AccountError, AccountErrorKind, QueryAccount};
pub use js_json::account::{Account, Limits, Requests, Tier};
