//! The answer to a request for the last message of a key, as an entry.
ghost use Rattle.js_store_keys.specs.Answer.{AnswersWhere, NeedsMemory, answer as answer_in};

use crate::direct_answer::direct_answer;
use crate::entry::Entry;
use crate::get_error::GetError;
use crate::get_request::KeyReads;
use crate::key_places::KeyPlaces;
use crate::stream_answer::stream_answer;
use js_base::Message;
use std::alloc::Global;

/// Reads the answer to the request that `get` made with the same places and key.
///
/// Returns the entry that gives the key its value, with a `delta` of 0. Returns `None` if the key
/// has no message (status 404, or error code 10037) or its last message is a deletion or a purge.
/// An empty value is a value.
///
/// # Errors
///
/// Fails with `Refused` if the server refused the request for another reason, and with
/// `Unreadable` if the answer is neither a message of a stream nor a refusal. Otherwise fails only
/// with `OutOfMemory`: of the answer to a direct get only for an entry, and of an answer in JSON for
/// any. The answer is then lost; send the request again.
pub fn read_answer(
    alloc: Global,
    places: &KeyPlaces,
    reads: &KeyReads,
    key: &str,
    message: Message,
) -> Result<Option<Entry>, GetError>
    ensures { AnswersWhere (NeedsMemory places.now.bucket reads.now.allow_direct key.now message) (answer_in places.now.bucket reads.now.allow_direct key.now message) result }
{
    if reads.allow_direct {
        return direct_answer(alloc, places, key, message);
    }
    let answer = stream_answer(alloc, places, key, message.payload.as_slice());
    drop(message);
    answer
}
