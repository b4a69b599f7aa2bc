//! Objects that have no keys other than the named ones.

ghost use Rattle.std.specs.Prelude.{◌≡◌};
ghost use Rattle.serde_json.specs.View.{view};
ghost use Rattle.js_json_members.specs.Member.{GivesAs, text};

use js_json_members::{Key, ReadError};
use serde_json::Value;

/// Returns the text of a member.
#[tactic(auto, unfolding(js_json_members::specs::Member::text))]
pub(crate) fn text_of<'v>(key: Key, value: &'v Value) -> Result<&'v str, ReadError>
    ensures { GivesAs (λ s. s.now) result (text key (view value.now)) }
{
    match value.as_str() {
        None => Err(ReadError::WrongKind { key }),
        Some(found) => Ok(found),
    }
}
