//! The server's errors: the error in a reply, and the numbers of errors.
pub use js_codes::errors::{Error, ErrorCode};
