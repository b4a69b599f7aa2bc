//! The names that only extended lines have, and objects that may have them.

ghost use Rattle.std.specs.Prelude.{◌≡◌};
ghost use Rattle.serde_json.specs.View.{view, members_view};
ghost use Rattle.js_json_members.specs.Member.{Gives};
ghost use Rattle.js_json_members.specs.Value.{is_among as is_key_among};
ghost use Rattle.js_tool_transcript.specs.ExtendedName.{name_text, is_named as is_named_in, members_with, has_only_with as has_only_of, under as under_in};

use js_json_members::{Key, Member, ReadError};
use serde_json::{Map, Value};
use std::alloc::Global;

/// A name that only extended lines have.
#[derive(Clone, Copy)]
pub(crate) enum ExtendedName {
    PayloadBase64,
    Length,
    Resilience,
    AnswersStalled,
    AsksAtFirstHeartbeat,
    RecreatesWhenGone,
    TellsMissingStream,
}

impl ExtendedName {
    /// Returns the name as it stands in a line.
    pub(crate) fn text(self) -> &'static str
        ensures { result.now ≡ name_text self }
    {
        match self {
            ExtendedName::PayloadBase64 => "payload_base64",
            ExtendedName::Length => "length",
            ExtendedName::Resilience => "resilience",
            ExtendedName::AnswersStalled => "answers_stalled",
            ExtendedName::AsksAtFirstHeartbeat => "asks_at_first_heartbeat",
            ExtendedName::RecreatesWhenGone => "recreates_when_gone",
            ExtendedName::TellsMissingStream => "tells_missing_stream",
        }
    }
}

fn is_named(names: &[ExtendedName], text: &str) -> bool
    ensures { result ≡ is_named_in names.now text.now }
{
    names.iter().any(|name| text == name.text())
}

fn is_among(keys: &[Key], text: &str) -> bool
    ensures { result ≡ is_key_among keys.now text.now }
{
    keys.iter().any(|key| text == key.name())
}

fn are_named(members: &Map<String, Value>, keys: &[Key], names: &[ExtendedName]) -> bool
    ensures { result ≡ members_with keys.now names.now (members_view members.now.entries) }
{
    for (text, _) in members.iter() {
        if !is_among(keys, text) && !is_named(names, text) {
            return false;
        }
    }
    true
}

/// Returns whether the value is an object with no names but those of the keys and these.
pub(crate) fn has_only_with(object: &Value, keys: &[Key], names: &[ExtendedName]) -> bool
    ensures { result ≡ has_only_of keys.now names.now (view object.now) }
{
    match object {
        Value::Object(members) => are_named(members, keys, names),
        _ => false,
    }
}

/// Reads the member of this name, which may be absent or null. Its faults name the key.
#[tactic(auto, unfolding(crate::specs::ExtendedName::under))]
pub(crate) fn under<T: Member>(
    alloc: Global,
    object: &Value,
    name: ExtendedName,
    key: Key,
) -> Result<Option<T>, ReadError>
    ensures { Gives result (under_in (name_text name) key T.reads (view object.now)) }
{
    match object.get(name.text()) {
        None | Some(Value::Null) => Ok(None),
        Some(value) => Ok(Some(T::read(alloc, key, value)?)),
    }
}
