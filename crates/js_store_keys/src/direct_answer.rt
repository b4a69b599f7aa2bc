//! The answer to a direct get: the message itself, with headers that say where it stands.
ghost use Rattle.std.specs.Prelude.{◌≡◌, option_map};
ghost use Rattle.js_message.specs.StreamMessage.{time_of};
ghost use Rattle.js_store_keys.specs.Answer.{AnswersWhere, NeedsEntry, by_status as by_status_in, direct_answer as direct_answer_in, direct_stored as direct_stored_in, place_in as place_in_headers};

use crate::entry::Entry;
use crate::get_error::GetError;
use crate::key_places::KeyPlaces;
use crate::operation::operation_of;
use crate::stored_message::{Stored, value_of};
use jiff::Timestamp;
use js_base::{HeaderMap, Message, StatusCode};
use js_message::read_u64;
use std::alloc::Global;

// What a status says in place of a message.
fn by_status(status: StatusCode) -> Result<Option<Entry>, GetError>
    ensures { result ≡ by_status_in status }
{
    if status == StatusCode::NOT_FOUND {
        Ok(None)
    } else {
        Err(GetError::Refused {
            code: u64::from(status.0),
            err_code: 0,
        })
    }
}

fn read_time(text: &str) -> Option<Timestamp>
    ensures { option_map (λ time. time.nanosecond) result ≡ time_of text.now }
{
    text.parse::<Timestamp>().ok()
}

// Where the message of these headers stands: its sequence, and when the stream stored it, in nanoseconds since 1970.
// `StreamMessage` of js_message reads the same headers, but copies the subject and the name of a missing header.
fn place_in(headers: &HeaderMap) -> Option<(u64, i128)>
    ensures { result ≡ place_in_headers headers.now }
{
    let revision = read_u64(headers.get_last("Nats-Sequence")?)?;
    let created = read_time(headers.get_last("Nats-Time-Stamp")?)?;
    headers.get_last("Nats-Subject")?;
    Some((revision, created.as_nanosecond()))
}

// The message that came, by its headers.
fn direct_stored(message: Message) -> Option<Stored>
    ensures { result ≡ direct_stored_in message.headers message.payload }
{
    let Message {
        subject,
        reply,
        payload,
        headers,
        description,
        ..
    } = message;
    drop((subject, reply, description));
    let Some(headers) = headers else {
        drop(payload);
        return None;
    };
    let place = place_in(&headers);
    let operation = operation_of(Some(&headers));
    drop(headers);
    let Some((revision, created)) = place else {
        drop(payload);
        return None;
    };
    Some(Stored {
        value: payload,
        revision,
        operation,
        created,
    })
}

/// Reads the answer to a direct get. Memory may run out only for an entry.
#[tactic(auto, using(crate::proofs::AnswerSteps::status_answers, crate::proofs::AnswerSteps::stored_answers))]
pub(crate) fn direct_answer(
    alloc: Global,
    places: &KeyPlaces,
    key: &str,
    message: Message,
) -> Result<Option<Entry>, GetError>
    ensures { AnswersWhere (NeedsEntry (direct_answer_in places.now.bucket key.now message)) (direct_answer_in places.now.bucket key.now message) result }
{
    if let Some(status) = message.status {
        drop(message);
        return by_status(status);
    }
    match direct_stored(message) {
        Some(stored) => value_of(alloc, places, key, stored),
        None => Err(GetError::Unreadable),
    }
}
