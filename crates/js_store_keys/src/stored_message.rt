//! The last message of a key, as an answer of the server has it.
ghost use Rattle.std.specs.Prelude.{◌≡◌, true, None, IfOk};
ghost use Rattle.js_store_keys.specs.Answer.{AnswersWhere, NeedsEntry, entry_of as entry_of_stored, value_in};
ghost use Rattle.js_store_keys.specs.Operation.{is_put as is_put_by};

use crate::entry::Entry;
use crate::get_error::GetError;
use crate::key_places::KeyPlaces;
use crate::operation::Operation;
use bytes::Bytes;
use js_base::{OutOfMemory, Text, TryClone, all_3};
use std::alloc::Global;

/// What an answer says of the last message of a key.
#[derive(Drop)]
pub(crate) struct Stored {
    pub(crate) value: Bytes,
    /// Its sequence in the stream.
    pub(crate) revision: u64,
    pub(crate) operation: Operation,
    /// When the stream stored it, in nanoseconds since 1970.
    pub(crate) created: i128,
}

/// Returns whether an entry gives its key a value.
pub fn is_put(operation: Operation) -> bool
    ensures { result ≡ is_put_by operation }
{
    match operation {
        Operation::Put => true,
        Operation::Delete | Operation::Purge => false,
    }
}

fn entry_of(
    alloc: Global,
    places: &KeyPlaces,
    key: &str,
    stored: Stored,
) -> Result<Entry, OutOfMemory>
    ensures { IfOk result (λ entry. entry ≡ entry_of_stored places.now.bucket key.now stored) }
{
    let Stored {
        value,
        revision,
        operation,
        created,
    } = stored;
    let (bucket, key, value) = all_3(
        places.bucket.try_clone(),
        Text::from_str(alloc, key),
        Ok(value),
    )?;
    Ok(Entry {
        bucket,
        key,
        value,
        revision,
        operation,
        created,
        delta: 0,
    })
}

// The entry of a message, unless it is a deletion.
#[tactic(auto, using(crate::proofs::AnswerSteps::put_needs_entry))]
pub(crate) fn value_of(
    alloc: Global,
    places: &KeyPlaces,
    key: &str,
    stored: Stored,
) -> Result<Option<Entry>, GetError>
    ensures { AnswersWhere (NeedsEntry (value_in places.now.bucket key.now stored)) (value_in places.now.bucket key.now stored) result }
{
    if !is_put(stored.operation) {
        drop(stored);
        return Ok(None);
    }
    match entry_of(alloc, places, key, stored) {
        Ok(entry) => Ok(Some(entry)),
        Err(OutOfMemory) => Err(GetError::OutOfMemory),
    }
}
