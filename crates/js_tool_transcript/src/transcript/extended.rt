//! The members that only extended lines have: a payload in base64, and a length.

ghost use Rattle.std.specs.Prelude.{◌≡◌};
ghost use Rattle.std.specs.Option.{ok_or};
ghost use Rattle.serde_json.specs.View.{view};
ghost use Rattle.js_json_members.specs.Member.{Gives, named};
ghost use Rattle.js_json_members.specs.declared.key.Key.TheVariants as key;
ghost use Rattle.js_json_members.specs.declared.error.ReadError.TheVariants as faults;
ghost use Rattle.js_tool_transcript.specs.ExtendedMessage.{bytes_of, has_only_in as has_only_of, payload_base64 as payload_base64_in, with_payload as with_payload_in, with_length as with_length_in, extended_fields as extended_in, fields_in as fields_of};
ghost use Rattle.js_tool_transcript.specs.ExtendedName.{name_text, under as under_in};
ghost use Rattle.js_tool_transcript.specs.declared.transcript.extended_name.ExtendedName.TheVariants as names;

use super::extended_name::{ExtendedName, has_only_with, under};
use super::lines::Lines;
use super::members::text_of;
use super::message::message_fields;
use super::payloads::Payloads;
use base64::DecodeAllocError;
use base64::engine::general_purpose::STANDARD;
use bytes::Bytes;
use js_base::{Message, all_3};
use js_json_members::{Key, ReadError, has_only};
use serde_json::Value;
use std::alloc::Global;

// ---- names

/// Returns whether the value is an object with no names but those of the keys and, in extended
/// lines, the extended ones.
pub(crate) fn has_only_in(lines: Lines, object: &Value, keys: &[Key]) -> bool
    ensures { result ≡ has_only_of lines keys.now (view object.now) }
{
    match lines {
        Lines::Plain => has_only(object, keys),
        Lines::Extended => has_only_with(
            object,
            keys,
            &[ExtendedName::PayloadBase64, ExtendedName::Length],
        ),
    }
}

// ---- members

// The bytes that a text in base64 stands for.
#[tactic(auto, unfolding(crate::specs::ExtendedMessage::bytes_of))]
fn decoded(alloc: Global, payloads: &mut Payloads, key: Key, text: &str) -> Result<Bytes, ReadError>
    ensures { Gives result (ok_or (bytes_of text.now) (faults.OutOfRange key)) }
{
    match STANDARD.decode(alloc, text.as_bytes()) {
        Ok(bytes) => {
            let kept = payloads.keep(alloc, bytes.as_slice());
            drop(bytes);
            Ok(kept?)
        }
        Err(DecodeAllocError::DecodeError(_)) => Err(ReadError::OutOfRange { key }),
        Err(DecodeAllocError::OutOfMemory) => Err(ReadError::OutOfMemory),
    }
}

#[tactic(auto, unfolding(js_json_members::specs::Member::named))]
fn bytes_of(
    alloc: Global,
    payloads: &mut Payloads,
    key: Key,
    value: &Value,
) -> Result<Bytes, ReadError>
    ensures { Gives result (named bytes_of key (view value.now)) }
{
    decoded(alloc, payloads, key, text_of(key, value)?)
}

#[tactic(auto, unfolding(crate::specs::ExtendedName::under))]
fn bytes_member(
    alloc: Global,
    payloads: &mut Payloads,
    object: &Value,
) -> Result<Option<Bytes>, ReadError>
    ensures { Gives result (under_in (name_text names.PayloadBase64) key.Payload (named bytes_of) (view object.now)) }
{
    match object.get(ExtendedName::PayloadBase64.text()) {
        None | Some(Value::Null) => Ok(None),
        Some(value) => Ok(Some(bytes_of(alloc, payloads, Key::Payload, value)?)),
    }
}

// Bytes stand in the place of a payload, and not beside one.
#[tactic(auto, unfolding(crate::specs::ExtendedMessage::payload_base64))]
fn payload_base64(
    alloc: Global,
    payloads: &mut Payloads,
    object: &Value,
) -> Result<Option<Bytes>, ReadError>
    ensures { Gives result (payload_base64_in (view object.now)) }
{
    match bytes_member(alloc, payloads, object)? {
        None => Ok(None),
        Some(bytes) => match object.get(Key::Payload.name()) {
            None => Ok(Some(bytes)),
            Some(_) => {
                drop(bytes);
                Err(ReadError::WrongKind { key: Key::Payload })
            }
        },
    }
}

// ---- a message

fn with_payload(bytes: Option<Bytes>, message: Message) -> Message
    ensures { result ≡ with_payload_in bytes message }
{
    match bytes {
        None => message,
        Some(bytes) => {
            let mut message = message;
            message.length = bytes.len() as u64;
            message.payload = bytes;
            message
        }
    }
}

fn with_length(length: Option<u64>, message: Message) -> Message
    ensures { result ≡ with_length_in length message }
{
    match length {
        None => message,
        Some(length) => {
            let mut message = message;
            message.length = length;
            message
        }
    }
}

#[tactic(auto, unfolding(crate::specs::ExtendedMessage::extended_fields))]
fn extended_fields(
    alloc: Global,
    payloads: &mut Payloads,
    object: &Value,
) -> Result<Message, ReadError>
    ensures { Gives result (extended_in (view object.now)) }
{
    let (bytes, length, message) = all_3(
        payload_base64(alloc, payloads, object),
        under::<u64>(alloc, object, ExtendedName::Length, Key::Payload),
        message_fields(alloc, payloads, object),
    )?;
    Ok(with_length(length, with_payload(bytes, message)))
}

/// Reads the message from the members of an object, as lines of a form say it.
pub(crate) fn fields_in(
    alloc: Global,
    payloads: &mut Payloads,
    lines: Lines,
    object: &Value,
) -> Result<Message, ReadError>
    ensures { Gives result (fields_of lines (view object.now)) }
{
    match lines {
        Lines::Plain => message_fields(alloc, payloads, object),
        Lines::Extended => extended_fields(alloc, payloads, object),
    }
}
