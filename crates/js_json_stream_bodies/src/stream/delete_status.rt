//! The answer to a deletion.

ghost use Rattle.js_json_stream_bodies.specs.DeleteStatus.{delete_status_fields};

use js_json_members::{FromValue, Key, ReadError, required};
use serde_json::Value;
use std::alloc::Global;

/// The answer to the deletion of a stream or a consumer.
#[derive(Clone, Copy, Debug, PartialEq, Eq)]
pub struct DeleteStatus {
    /// Whether the stream or consumer was deleted.
    pub success: bool,
}

impl FromValue for DeleteStatus {
    ghost fields = { delete_status_fields };

    #[tactic(auto, unfolding(crate::specs::DeleteStatus::delete_status_fields))]
    fn from_fields(alloc: Global, object: &Value) -> Result<DeleteStatus, ReadError> {
        Ok(DeleteStatus {
            success: required(alloc, object, Key::Success)?,
        })
    }
}
