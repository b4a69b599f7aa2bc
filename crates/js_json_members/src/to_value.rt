//! Writing of whole values as JSON objects.

ghost use Rattle.std.specs.Prelude.{Result, string_bytes};
ghost use Rattle.serde_json.specs.Data.{Data};
ghost use Rattle.js_json_members.specs.Member.{GivesAs};
ghost use Rattle.js_json_members.specs.Rows.{Shows, text_of};
ghost use Rattle.js_json_members.specs.declared.error.ReadError.{ReadError};

use crate::error::ReadError;
use serde_json::Value;
use std::alloc::Global;

/// Implement `ToValue` for a type that is written as a JSON object.
pub trait ToValue {
    /// What writing the value returns: the object, or the error if it cannot be written.
    ghost written: { Self → Result Data ReadError };

    /// Returns the JSON object, which contains no float.
    ///
    /// Fails with the error that `written` gives, or with `OutOfMemory` if memory runs out.
    fn to_value(&self, alloc: Global) -> Result<Value, ReadError>
        ensures { Shows result (written self.now) };

    /// Returns the compact text of the JSON object.
    ///
    /// Fails as `to_value` fails, or with `OutOfMemory` if memory runs out.
    #[tactic(auto, unfolding(crate::specs::Rows::text_of))]
    fn to_text(&self, alloc: Global) -> Result<String, ReadError>
        ensures { GivesAs string_bytes result (text_of (written self.now)) }
    {
        let value = self.to_value(alloc)?;
        Ok(value.to_string(alloc)?)
    }
}
