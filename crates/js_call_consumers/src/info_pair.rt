//! What the server reports about a consumer, twice.
ghost use Rattle.std.specs.Prelude.{◌≡◌};
ghost use Rattle.js_call_consumers.specs.Renewal.{copies_fields};

use js_base::{OutOfMemory, TryClone};
use js_json::consumer::Info;
use js_json_members::{FromValue, ReadError};
use serde_json::Value;
use std::alloc::Global;

/// What the server reports about a consumer: one copy for the consumer, and an equal one for the
/// answer.
#[derive(Drop)]
pub struct InfoCopies {
    pub kept: Info,
    pub answered: Info,
}

impl FromValue for InfoCopies {
    ghost fields = { copies_fields };

    #[tactic(auto, unfolding(crate::specs::Renewal::copies_fields))]
    fn from_fields(alloc: Global, object: &Value) -> Result<InfoCopies, ReadError> {
        let answered = Info::from_fields(alloc, object)?;
        match answered.try_clone() {
            Ok(kept) => Ok(InfoCopies { kept, answered }),
            Err(OutOfMemory) => {
                drop(answered);
                Err(ReadError::OutOfMemory)
            }
        }
    }
}
