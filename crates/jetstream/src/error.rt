//! The error of a call: its kind and its source.
pub use js_base::{ApiError, Error, Source};
