//! Bodies of requests as JSON values, and members of these.

use js_base::{OutOfMemory, Subject};
use serde_json::Value;
use std::alloc::{AllocError, Global};

// The JSON value that the bytes are, or `null` if they are none.
pub(crate) fn json_of(alloc: Global, bytes: &[u8]) -> Result<Value, OutOfMemory> {
    match Value::from_slice(alloc, bytes) {
        Ok(value) => Ok(value),
        Err(error) => {
            if error.is_memory() {
                return Err(OutOfMemory);
            }
            Ok(Value::Null)
        }
    }
}

// A text that was formatted.
pub(crate) fn formatted(text: Result<String, AllocError>) -> Result<String, OutOfMemory> {
    Ok(text?)
}

// A text as JSON, between quotes.
pub(crate) fn quoted(alloc: Global, text: &str) -> Result<String, OutOfMemory> {
    let value = Value::try_from_str(alloc, text)?;
    let text = value.to_string(alloc);
    drop(value);
    formatted(text)
}

// The text under a key.
pub(crate) fn text_at<'a>(object: &'a Value, key: &str) -> Option<&'a str> {
    object.get(key).and_then(Value::as_str)
}

// The number under a key, or 0 if there is none or it is negative.
pub(crate) fn number_at(object: &Value, key: &str) -> u64 {
    object.get(key).and_then(Value::as_u64).unwrap_or(0)
}

// Whether `true` stands under a key.
pub(crate) fn is_set(object: &Value, key: &str) -> bool {
    object.get(key).and_then(Value::as_bool).unwrap_or(false)
}

// The subject under a key, if there is one and it is not empty.
pub(crate) fn subject_at(
    alloc: Global,
    object: &Value,
    key: &str,
) -> Result<Option<Subject>, OutOfMemory> {
    match text_at(object, key) {
        None | Some("") => Ok(None),
        Some(text) => Ok(Some(Subject::new(alloc, text)?)),
    }
}

// The subjects in the list under a key.
pub(crate) fn subjects_at(
    alloc: Global,
    object: &Value,
    key: &str,
) -> Result<Vec<Subject>, OutOfMemory> {
    let mut subjects = Vec::new(alloc);
    if let Some(values) = object.get(key).and_then(Value::as_array) {
        for value in values.as_slice() {
            if let Some(text) = value.as_str() {
                subjects.push(Subject::new(alloc, text)?)?;
            }
        }
    }
    Ok(subjects)
}
