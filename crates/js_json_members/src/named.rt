//! Reading of members whose text names a value.

ghost use Rattle.std.specs.Prelude.{◌≡◌, List, ℕ, Option};
ghost use Rattle.serde_json.specs.View.{view};
ghost use Rattle.js_json_members.specs.Member.{Gives, named as named_in};

use crate::error::ReadError;
use crate::key::Key;
use serde_json::Value;

/// Implement `Named` for an enum whose values have names in JSON.
pub trait Named: Drop {
    /// The value of each name, or `None` if no value has it.
    ghost value_of: { List ℕ → Option Self };

    /// Returns the value with that name, or `None` if no value has it.
    fn from_name(name: &str) -> Option<Self>
        ensures { result ≡ value_of name.now };
}

/// Reads a member as the value that its text names.
///
/// Fails with `WrongKind` if the value is not a text, and with `OutOfRange` if the text names no
/// value of the type.
#[tactic(auto, unfolding(crate::specs::Member::named, crate::specs::Member::text))]
pub fn by_text<T: Named>(key: Key, value: &Value) -> Result<T, ReadError>
    ensures { Gives result (named_in T.value_of key (view value.now)) }
{
    match value.as_str() {
        None => Err(ReadError::WrongKind { key }),
        Some(name) => match T::from_name(name) {
            None => Err(ReadError::OutOfRange { key }),
            Some(found) => Ok(found),
        },
    }
}
