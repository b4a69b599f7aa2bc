//! The answer of the API that has the message in JSON, its bytes in base 64.
ghost use Rattle.std.specs.Prelude.{◌≡◌, codes, option_map, Ok, None};
ghost use Rattle.std.specs.Option.{is_some};
ghost use Rattle.std.specs.Result.{result_ok};
ghost use Rattle.serde_json.specs.Find.{get};
ghost use Rattle.serde_json.specs.View.{view};
ghost use Rattle.js_codes.specs.Errors.{error_fields};
ghost use Rattle.js_codes.specs.ErrorCode.{error_code, no_code};
ghost use Rattle.js_json_members.specs.Member.{required, defaulted, optional, natural, text};
ghost use Rattle.js_json_members.specs.declared.key.Key.TheVariants as key;
ghost use Rattle.js_store_keys.specs.Answer.{Answers, AnswersAs, AnswersWhere, NeedsBytes, unread_value, by_error as by_error_in, numbers_of, at_place as at_place_in, by_message as by_message_in, by_value as by_value_in, stream_answer as stream_answer_in, contents_at as contents_at_in, operation_at as operation_at_in, in_block, bytes_at as bytes_at_in, decoded as decoded_in, place_at as place_at_in, revision_at as revision_at_in, created_at as created_at_in};

use crate::entry::Entry;
use crate::get_error::GetError;
use crate::key_places::KeyPlaces;
use crate::operation::{Operation, operation_of};
use crate::stored_message::{Stored, value_of};
use base64::DecodeAllocError;
use base64::engine::general_purpose::STANDARD;
use bytes::Bytes;
use js_codes::ErrorCode;
use js_json_members::{ReadError, instant_of};
use js_link_wire::{HeadersError, read_headers};
use serde_json::Value;
use std::alloc::Global;

// What is told where a value could not be read.
fn unread(fault: ReadError) -> GetError
    ensures { result ≡ unread_value fault }
{
    match fault {
        ReadError::OutOfMemory => GetError::OutOfMemory,
        ReadError::Missing { .. }
        | ReadError::WrongKind { .. }
        | ReadError::OutOfRange { .. }
        | ReadError::Float
        | ReadError::NotJson => GetError::Unreadable,
    }
}

// What kind of error it is.
#[tactic(auto, unfolding(js_json_members::specs::Member::required, js_json_members::specs::Member::natural))]
fn code_in(error: &Value) -> Option<u64>
    ensures { result ≡ result_ok (required natural key.Code (view error.now)) }
{
    error.get("code")?.as_u64()
}

// Which error it is, 0 where that is not told.
#[tactic(auto, unfolding(js_json_members::specs::Member::defaulted, js_json_members::specs::Member::natural, js_codes::specs::ErrorCode::error_code))]
fn number_in(error: &Value) -> Option<u64>
    ensures { result ≡ option_map (λ number. number.0) (result_ok (defaulted error_code key.ErrCode no_code (view error.now))) }
{
    match error.get("err_code") {
        None => Some(0),
        Some(number) => number.as_u64(),
    }
}

// Whether its description, if there is one, is a text. It is not copied.
#[tactic(auto, unfolding(js_json_members::specs::Member::optional, js_json_members::specs::Member::text))]
fn has_text(error: &Value) -> bool
    ensures { result ≡ is_some (result_ok (optional text key.Description (view error.now))) }
{
    match error.get("description") {
        None => true,
        Some(description) => description.is_null() || description.is_string(),
    }
}

#[tactic(auto, unfolding(js_codes::specs::Errors::error_fields))]
fn numbers_in(error: &Value) -> Option<(u64, u64)>
    ensures { result ≡ numbers_of (error_fields (view error.now)) }
{
    let code = code_in(error)?;
    let number = number_in(error)?;
    if has_text(error) {
        Some((code, number))
    } else {
        None
    }
}

// What the API's error says of the key.
fn by_error(error: &Value) -> Result<Option<Entry>, GetError>
    ensures { result ≡ by_error_in (view error.now) }
{
    let Some((code, err_code)) = numbers_in(error) else {
        return Err(GetError::Unreadable);
    };
    if ErrorCode(err_code) == ErrorCode::NO_MESSAGE_FOUND {
        Ok(None)
    } else {
        Err(GetError::Refused { code, err_code })
    }
}

fn revision_at(message: &Value) -> Option<u64>
    ensures { result ≡ revision_at_in (view message.now) }
{
    message.get("seq")?.as_u64()
}

// When the stream stored the message, in nanoseconds since 1970.
fn created_at(message: &Value) -> Option<i128>
    ensures { result ≡ created_at_in (view message.now) }
{
    let time = instant_of(message.get("time")?.as_str()?)?;
    Some(time.as_nanosecond())
}

fn place_at(message: &Value) -> Option<(u64, i128)>
    ensures { result ≡ place_at_in (view message.now) }
{
    let revision = revision_at(message)?;
    let created = created_at(message)?;
    Some((revision, created))
}

// The bytes that a text in base 64 stands for.
fn decoded(alloc: Global, text: &str) -> Result<Vec<u8>, GetError>
    ensures { AnswersAs (λ bytes. bytes.items) (decoded_in text.now) result }
{
    match STANDARD.decode(alloc, text.as_bytes()) {
        Ok(bytes) => Ok(bytes),
        Err(DecodeAllocError::DecodeError(_)) => Err(GetError::Unreadable),
        Err(DecodeAllocError::OutOfMemory) => Err(GetError::OutOfMemory),
    }
}

// The bytes of a member, none where it is absent.
fn bytes_at(alloc: Global, name: &str, message: &Value) -> Result<Vec<u8>, GetError>
    ensures { AnswersAs (λ bytes. bytes.items) (bytes_at_in name.now (view message.now)) result }
{
    match message.get(name) {
        None => Ok(Vec::new(alloc)),
        Some(value) => match value.as_str() {
            None => Err(GetError::Unreadable),
            Some(text) => decoded(alloc, text),
        },
    }
}

// What headers say that stand in these bytes.
fn operation_in_block(alloc: Global, block: &[u8]) -> Result<Operation, GetError>
    ensures { Answers (in_block block.now) result }
{
    if block.is_empty() {
        return Ok(Operation::Put);
    }
    match read_headers(alloc, block) {
        Ok(block) => {
            let operation = operation_of(Some(&block.headers));
            drop(block);
            Ok(operation)
        }
        Err(HeadersError::Damaged(_)) => Err(GetError::Unreadable),
        Err(HeadersError::OutOfMemory) => Err(GetError::OutOfMemory),
    }
}

#[tactic(auto, using(crate::proofs::AnswerSteps::answers_seen_err))]
fn operation_at(alloc: Global, message: &Value) -> Result<Operation, GetError>
    ensures { Answers (operation_at_in (view message.now)) result }
{
    match bytes_at(alloc, "hdrs", message) {
        Ok(block) => operation_in_block(alloc, block.as_slice()),
        Err(error) => Err(error),
    }
}

fn shared(bytes: Vec<u8>) -> Result<Bytes, GetError>
    ensures { Answers (Ok bytes.items) result }
{
    match Bytes::from_vec(bytes) {
        Ok(value) => Ok(value),
        Err(error) => {
            drop(error);
            Err(GetError::OutOfMemory)
        }
    }
}

#[tactic(auto, using(crate::proofs::AnswerSteps::answers_seen, crate::proofs::AnswerSteps::answers_for))]
fn value_at(alloc: Global, message: &Value) -> Result<Bytes, GetError>
    ensures { Answers (bytes_at_in (codes "data") (view message.now)) result }
{
    match bytes_at(alloc, "data", message) {
        Ok(bytes) => shared(bytes),
        Err(error) => Err(error),
    }
}

// What the message does to its key, and its value.
#[tactic(auto, using(crate::proofs::AnswerSteps::answers_same, crate::proofs::AnswerSteps::answers_err, crate::proofs::AnswerSteps::answers_next))]
fn contents_at(alloc: Global, message: &Value) -> Result<(Operation, Bytes), GetError>
    ensures { Answers (contents_at_in (view message.now)) result }
{
    let operation = operation_at(alloc, message)?;
    let value = value_at(alloc, message)?;
    Ok((operation, value))
}

#[tactic(auto, using(crate::proofs::AnswerSteps::answers_err, crate::proofs::AnswerSteps::answers_next, crate::proofs::AnswerSteps::answers_where))]
fn at_place(
    alloc: Global,
    places: &KeyPlaces,
    key: &str,
    message: &Value,
    place: (u64, i128),
) -> Result<Option<Entry>, GetError>
    ensures { Answers (at_place_in places.now.bucket key.now (view message.now) place) result }
{
    let (operation, value) = contents_at(alloc, message)?;
    let stored = Stored {
        value,
        revision: place.0,
        operation,
        created: place.1,
    };
    value_of(alloc, places, key, stored)
}

#[tactic(auto, using(crate::proofs::AnswerSteps::placed_answers))]
fn by_message(
    alloc: Global,
    places: &KeyPlaces,
    key: &str,
    message: Option<&Value>,
) -> Result<Option<Entry>, GetError>
    ensures { AnswersWhere (NeedsBytes None (option_map (λ value. view value.now) message.entry)) (by_message_in places.now.bucket key.now (option_map (λ value. view value.now) message.entry)) result }
{
    let Some(message) = message else {
        return Err(GetError::Unreadable);
    };
    match place_at(message) {
        Some(place) => at_place(alloc, places, key, message, place),
        None => Err(GetError::Unreadable),
    }
}

// An error is told without any memory.
fn by_value(
    alloc: Global,
    places: &KeyPlaces,
    key: &str,
    answer: &Value,
) -> Result<Option<Entry>, GetError>
    ensures { AnswersWhere (NeedsBytes (get (codes "error") (view answer.now)) (get (codes "message") (view answer.now))) (by_value_in places.now.bucket key.now (view answer.now)) result }
{
    match answer.get("error") {
        Some(error) => by_error(error),
        None => by_message(alloc, places, key, answer.get("message")),
    }
}

/// Reads the answer of the API to a request for the last message by subject.
#[tactic(auto, using(crate::proofs::AnswerSteps::answers_fault, crate::proofs::AnswerSteps::answers_where))]
pub(crate) fn stream_answer(
    alloc: Global,
    places: &KeyPlaces,
    key: &str,
    payload: &[u8],
) -> Result<Option<Entry>, GetError>
    ensures { Answers (stream_answer_in places.now.bucket key.now payload.now) result }
{
    match js_json_members::value_of(alloc, payload) {
        Ok(answer) => by_value(alloc, places, key, &answer),
        Err(fault) => Err(unread(fault)),
    }
}
