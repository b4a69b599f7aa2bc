//! Reading of whole values, and of objects nested in others.

ghost use Rattle.std.specs.Prelude.{Result};
ghost use Rattle.serde_json.specs.Data.{Data};
ghost use Rattle.serde_json.specs.View.{view};
ghost use Rattle.js_json_members.specs.Member.{Gives, nested as nested_in, float_free};
ghost use Rattle.js_json_members.specs.declared.error.ReadError.{ReadError};

use crate::error::ReadError;
use crate::float::has_float;
use crate::key::Key;
use serde_json::Value;
use std::alloc::Global;

/// Implement `FromValue` for a type that is read from a JSON object.
pub trait FromValue: Drop {
    /// What reading the members returns: the value or the error.
    ghost fields: { Data → Result Self ReadError };

    /// Reads the members of an object.
    ///
    /// Fails with the error that `fields` gives, or with `OutOfMemory` if memory runs out.
    fn from_fields(alloc: Global, object: &Value) -> Result<Self, ReadError>
        ensures { Gives result (fields (view object.now)) };

    /// Reads a whole value without floats.
    ///
    /// Fails with `Float` if the value contains a number that is neither an `i64` nor a `u64`.
    /// Otherwise fails as `from_fields` fails.
    #[tactic(auto, unfolding(crate::specs::Member::float_free))]
    fn from_value(alloc: Global, value: &Value) -> Result<Self, ReadError>
        ensures { Gives result (float_free fields (view value.now)) }
    {
        if has_float(value) {
            return Err(ReadError::Float);
        }
        Self::from_fields(alloc, value)
    }
}

/// Reads a member as a nested object.
///
/// Fails with `WrongKind` if the value is not an object. Otherwise fails as `from_fields` fails.
#[tactic(auto, unfolding(crate::specs::Member::nested))]
pub fn nested<T: FromValue>(alloc: Global, key: Key, value: &Value) -> Result<T, ReadError>
    ensures { Gives result (nested_in T.fields key (view value.now)) }
{
    if value.is_object() {
        T::from_fields(alloc, value)
    } else {
        Err(ReadError::WrongKind { key })
    }
}
