//! The one message of each write.
ghost use Rattle.std.specs.Prelude.{◌≡◌, IfOk, string_bytes};
ghost use Rattle.js_message.specs.PublishMessage.{outgoing};
ghost use Rattle.js_store_keys.specs.Writes.{Writes, put_prefix as put_prefix_in, put_subject, put_message, update_message, delete_message, purge_message};

use crate::key_places::KeyPlaces;
use crate::key_test::is_valid_key;
use crate::write_error::WriteError;
use bytes::Bytes;
use js_base::OutOfMemory;
use js_message::{OutboundMessage, PublishMessage};
use std::alloc::{AllocError, Global};

// What the subjects begin with that values are put to, but for the prefix of the API.
fn put_prefix(places: &KeyPlaces) -> &str
    ensures { result.now ≡ put_prefix_in places.now }
{
    match &places.put_prefix {
        Some(prefix) => prefix.as_str(),
        None => places.prefix.as_str(),
    }
}

fn subject_text(alloc: Global, places: &KeyPlaces, key: &str) -> Result<String, AllocError>
    ensures { IfOk result (λ text. string_bytes text ≡ put_subject places.now key.now) }
{
    let prefix = put_prefix(places);
    match &places.api_prefix {
        Some(api) => format!(in alloc; "{api}.{prefix}{key}"),
        None => format!(in alloc; "{prefix}{key}"),
    }
}

// The message under the subject to which the key is put.
fn addressed(
    alloc: Global,
    places: &KeyPlaces,
    key: &str,
    message: PublishMessage,
) -> Result<OutboundMessage, OutOfMemory>
    ensures { IfOk result (λ sent. sent ≡ outgoing (put_subject places.now key.now) message) }
{
    match subject_text(alloc, places, key) {
        Ok(subject) => message.outbound_message(alloc, subject.as_str()),
        Err(AllocError) => {
            drop(message);
            Err(OutOfMemory)
        }
    }
}

/// Returns the message that sets a key's value, whatever the key has. An empty value is a value.
///
/// # Errors
///
/// Fails with `InvalidKey` exactly if the text is not a key (`is_valid_key`). Otherwise fails only
/// with `OutOfMemory`.
pub fn put(
    alloc: Global,
    places: &KeyPlaces,
    key: &str,
    value: Bytes,
) -> Result<OutboundMessage, WriteError>
    ensures { Writes key.now (put_message places.now key.now value) result }
{
    if !is_valid_key(key) {
        drop(value);
        return Err(WriteError::InvalidKey);
    }
    let message = PublishMessage::build().payload(value);
    Ok(addressed(alloc, places, key, message)?)
}

/// Returns the message that sets a key's value if its last entry has this revision. Otherwise the
/// server refuses the message and stores nothing.
///
/// The revision of a key that never had an entry is 0. If the last entry is a deletion, pass the
/// revision of the deletion.
///
/// # Errors
///
/// Those of `put`.
pub fn update(
    alloc: Global,
    places: &KeyPlaces,
    key: &str,
    value: Bytes,
    revision: u64,
) -> Result<OutboundMessage, WriteError>
    ensures { Writes key.now (update_message places.now key.now value revision) result }
{
    if !is_valid_key(key) {
        drop(value);
        return Err(WriteError::InvalidKey);
    }
    let message = PublishMessage::build().payload(value);
    let message = message.expected_last_subject_sequence(alloc, revision)?;
    Ok(addressed(alloc, places, key, message)?)
}

/// Returns the message that gives a key its first value. The server stores it only if the key has
/// no entry. A deleted key still has one; to write to it, pass its revision to `update`.
///
/// # Errors
///
/// Those of `put`.
pub fn create(
    alloc: Global,
    places: &KeyPlaces,
    key: &str,
    value: Bytes,
) -> Result<OutboundMessage, WriteError>
    ensures { Writes key.now (update_message places.now key.now value 0) result }
{
    update(alloc, places, key, value, 0)
}

/// Returns the message that deletes a key. The deletion is itself an entry. The bucket keeps
/// earlier entries as usual.
///
/// # Errors
///
/// Those of `put`.
pub fn delete(alloc: Global, places: &KeyPlaces, key: &str) -> Result<OutboundMessage, WriteError>
    ensures { Writes key.now (delete_message places.now key.now) result }
{
    if !is_valid_key(key) {
        return Err(WriteError::InvalidKey);
    }
    let message = PublishMessage::build().header(alloc, "KV-Operation", "DEL")?;
    Ok(addressed(alloc, places, key, message)?)
}

/// Returns the message that deletes a key together with its earlier entries: the server keeps only
/// this message.
///
/// # Errors
///
/// Those of `put`.
pub fn purge(alloc: Global, places: &KeyPlaces, key: &str) -> Result<OutboundMessage, WriteError>
    ensures { Writes key.now (purge_message places.now key.now) result }
{
    if !is_valid_key(key) {
        return Err(WriteError::InvalidKey);
    }
    let message = PublishMessage::build().header(alloc, "KV-Operation", "PURGE")?;
    let message = message.header(alloc, "Nats-Rollup", "sub")?;
    Ok(addressed(alloc, places, key, message)?)
}
