//! Parsing of bytes as a JSON value, and the check of an object's keys.

ghost use Rattle.std.specs.Prelude.{◌≡◌};
ghost use Rattle.serde_json.specs.View.{view, members_view};
ghost use Rattle.js_json_members.specs.Member.{GivesAs};
ghost use Rattle.js_json_members.specs.Value.{has_only as has_only_in, members_only};
ghost use Rattle.js_json_members.specs.Value.{is_among as is_key_among, value_of as value_in};

use crate::error::ReadError;
use crate::float::has_float;
use crate::key::Key;
use serde_json::{Map, Value};
use std::alloc::Global;

/// Parses bytes as a JSON value without floats.
///
/// Fails with `NotJson` if the bytes are not one JSON value in UTF-8, or nest more than 127 levels
/// deep. Fails with `Float` if the value contains a number that is neither an `i64` nor a `u64`.
/// Fails with `OutOfMemory` if memory runs out.
pub fn value_of(alloc: Global, bytes: &[u8]) -> Result<Value, ReadError>
    ensures { GivesAs view result (value_in bytes.now) }
{
    let value = match Value::from_slice(alloc, bytes) {
        Ok(value) => value,
        Err(error) => {
            if error.is_memory() {
                return Err(ReadError::OutOfMemory);
            }
            return Err(ReadError::NotJson);
        }
    };
    if has_float(&value) {
        return Err(ReadError::Float);
    }
    Ok(value)
}

/// Returns whether the value is an object whose keys are all among `keys`.
///
/// It returns `false` if the value is not an object, and `true` if it is an empty object.
pub fn has_only(object: &Value, keys: &[Key]) -> bool
    ensures { result ≡ has_only_in keys.now (view object.now) }
{
    match object {
        Value::Object(members) => are_only(members, keys),
        _ => false,
    }
}

fn are_only(members: &Map<String, Value>, keys: &[Key]) -> bool
    ensures { result ≡ members_only keys.now (members_view members.now.entries) }
{
    for (name, _) in members.iter() {
        if !is_among(keys, name) {
            return false;
        }
    }
    true
}

fn is_among(keys: &[Key], name: &str) -> bool
    ensures { result ≡ is_key_among keys.now name.now }
{
    keys.iter().any(|key| name == key.name())
}
