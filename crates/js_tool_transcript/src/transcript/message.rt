//! The keys of a message.

ghost use Rattle.std.specs.Prelude.{◌≡◌, [], IfOk, option_map, unwrap_or};
ghost use Rattle.serde_json.specs.View.{view, items_view};
ghost use Rattle.js_json_members.specs.Member.{Gives, GivesAs, defaulted as defaulted_in, optional as optional_in, list_of, all_read};
ghost use Rattle.js_json_members.specs.declared.key.Key.TheVariants as key;
ghost use Rattle.js_tool_transcript.specs.Message.{json_text as json_text_in, payload as payload_in, header_of as header_in, header as header_member, message_fields as message_in, status_code};

use super::members::text_of;
use super::payloads::Payloads;
use bytes::Bytes;
use js_base::{HeaderMap, Message, StatusCode, Subject, Text, all_6};
use js_json_members::{Key, ReadError, has_float, optional};
use serde_json::Value;
use std::alloc::Global;

fn json_text(alloc: Global, payloads: &mut Payloads, value: &Value) -> Result<Bytes, ReadError>
    ensures { Gives result (json_text_in (view value.now)) }
{
    if has_float(value) {
        return Err(ReadError::Float);
    }
    let text = value.to_string(alloc)?;
    Ok(payloads.keep(alloc, text.as_bytes())?)
}

fn payload_of(
    alloc: Global,
    payloads: &mut Payloads,
    key: Key,
    value: &Value,
) -> Result<Bytes, ReadError>
    ensures { Gives result (payload_in key (view value.now)) }
{
    match value {
        Value::Null => Ok(Bytes::new()),
        Value::Bool(_) => Err(ReadError::WrongKind { key }),
        Value::Number(_) => Err(ReadError::WrongKind { key }),
        Value::String(text) => Ok(payloads.keep(alloc, text.as_bytes())?),
        Value::Array(_) => json_text(alloc, payloads, value),
        Value::Object(_) => json_text(alloc, payloads, value),
    }
}

#[tactic(auto, unfolding(js_json_members::specs::Member::defaulted))]
fn payload_member(
    alloc: Global,
    payloads: &mut Payloads,
    object: &Value,
) -> Result<Bytes, ReadError>
    ensures { Gives result (defaulted_in payload_in key.Payload [] (view object.now)) }
{
    let key = Key::Payload;
    match object.get(key.name()) {
        None => Ok(Bytes::new()),
        Some(value) => payload_of(alloc, payloads, key, value),
    }
}

// The two texts of a header.
fn header_of<'v>(key: Key, items: &'v [Value]) -> Result<(&'v str, &'v str), ReadError>
    ensures { GivesAs (λ pair. record { name = pair.0.now; value = pair.1.now }) result (header_in key (items_view items.now)) }
{
    match items {
        [name, value] => {
            let name = text_of(key, name)?;
            let value = text_of(key, value)?;
            Ok((name, value))
        }
        [] => Err(ReadError::WrongKind { key }),
        [_] => Err(ReadError::WrongKind { key }),
        [_, _, _, ..] => Err(ReadError::WrongKind { key }),
    }
}

fn header<'v>(key: Key, value: &'v Value) -> Result<(&'v str, &'v str), ReadError>
    ensures { GivesAs (λ pair. record { name = pair.0.now; value = pair.1.now }) result (header_member key (view value.now)) }
{
    match value {
        Value::Array(items) => header_of(key, items.as_slice()),
        _ => Err(ReadError::WrongKind { key }),
    }
}

fn all_headers(alloc: Global, key: Key, values: &[Value]) -> Result<HeaderMap, ReadError>
    ensures { Gives result (all_read header_member key (items_view values.now)) }
{
    let mut headers = HeaderMap::new(alloc);
    for value in values {
        let (name, value) = header(key, value)?;
        headers.append(alloc, name, value)?;
    }
    Ok(headers)
}

#[tactic(auto, unfolding(js_json_members::specs::Member::list_of))]
fn headers_of(alloc: Global, key: Key, value: &Value) -> Result<HeaderMap, ReadError>
    ensures { Gives result (list_of header_member key (view value.now)) }
{
    match value.as_array() {
        None => Err(ReadError::WrongKind { key }),
        Some(values) => all_headers(alloc, key, values),
    }
}

#[tactic(auto, unfolding(js_json_members::specs::Member::optional))]
fn headers_member(alloc: Global, object: &Value) -> Result<Option<HeaderMap>, ReadError>
    ensures { Gives result (optional_in (list_of header_member) key.Headers (view object.now)) }
{
    let key = Key::Headers;
    match object.get(key.name()) {
        None | Some(Value::Null) => Ok(None),
        Some(value) => Ok(Some(headers_of(alloc, key, value)?)),
    }
}

fn subject_of(alloc: Global, text: Option<Text>) -> Subject
    ensures { result ≡ unwrap_or text [] }
{
    match text {
        Some(text) => Subject::from(text.into_string()),
        None => Subject::from(String::new(alloc)),
    }
}

fn reply_of(text: Option<Text>) -> Option<Subject>
    ensures { result ≡ text }
{
    match text {
        Some(text) => Some(Subject::from(text.into_string())),
        None => None,
    }
}

fn status_of(status: Option<u16>) -> Option<StatusCode>
    ensures { result ≡ option_map status_code status }
{
    match status {
        Some(number) => Some(StatusCode(number)),
        None => None,
    }
}

/// Reads the message from the members of an object. Its length is that of its payload.
#[tactic(auto, unfolding(crate::specs::Message::message_fields))]
pub(crate) fn message_fields(
    alloc: Global,
    payloads: &mut Payloads,
    object: &Value,
) -> Result<Message, ReadError>
    ensures { Gives result (message_in (view object.now)) }
{
    let (subject, reply, payload, status, description, headers) = all_6(
        optional(alloc, object, Key::Subject),
        optional(alloc, object, Key::Reply),
        payload_member(alloc, payloads, object),
        optional(alloc, object, Key::Status),
        optional(alloc, object, Key::Description),
        headers_member(alloc, object),
    )?;
    let length = payload.len() as u64;
    Ok(Message {
        subject: subject_of(alloc, subject),
        reply: reply_of(reply),
        payload,
        headers,
        status: status_of(status),
        description,
        length,
    })
}
