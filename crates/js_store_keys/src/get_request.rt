//! The request for the last message of a key.
ghost use Rattle.std.specs.Prelude.{◌≡◌, IfOk, string_bytes};
ghost use Rattle.js_store_keys.specs.Get.{Gets, get_subject as get_subject_in, get_body as get_body_in, last_by_subject as last_by_subject_in, value_subject as value_subject_in};

use crate::key_places::KeyPlaces;
use crate::key_test::is_valid_key;
use crate::write_error::WriteError;
use bytes::Bytes;
use js_base::{OutOfMemory, Subject, Text, both};
use serde_json::{Map, Value};
use std::alloc::Global;

/// Where the server reads the last message of a key.
#[derive(Debug, PartialEq, Eq, Drop)]
pub struct KeyReads {
    /// The API prefix, such as `$JS.API`.
    pub api_prefix: Text,
    /// The name of the bucket's stream, such as `KV_config`.
    pub stream_name: Text,
    /// Whether the stream allows direct gets: `allow_direct` in its configuration.
    pub allow_direct: bool,
}

/// A request for the last message of a key. Nothing was sent yet.
#[derive(Debug, PartialEq, Eq, Drop)]
pub struct GetRequest {
    /// The whole subject of the request, with the API prefix.
    pub subject: Subject,
    /// The body, which is empty for a direct get.
    pub payload: Bytes,
}

// The subject of a key's messages.
fn value_subject(alloc: Global, places: &KeyPlaces, key: &str) -> Result<String, OutOfMemory>
    ensures { IfOk result (λ text. string_bytes text ≡ value_subject_in places.now key.now) }
{
    let prefix = &places.prefix;
    Ok(format!(in alloc; "{prefix}{key}")?)
}

// The subject that a request is sent to, which asks for the last message of this subject.
fn get_subject(alloc: Global, reads: &KeyReads, subject: &str) -> Result<String, OutOfMemory>
    ensures { IfOk result (λ text. string_bytes text ≡ get_subject_in reads.now subject.now) }
{
    let api = &reads.api_prefix;
    let stream = &reads.stream_name;
    if reads.allow_direct {
        Ok(format!(in alloc; "{api}.DIRECT.GET.{stream}.{subject}")?)
    } else {
        Ok(format!(in alloc; "{api}.STREAM.MSG.GET.{stream}")?)
    }
}

// The body that names a subject.
fn last_by_subject(alloc: Global, subject: &str) -> Result<Bytes, OutOfMemory>
    ensures { IfOk result (λ body. body ≡ last_by_subject_in subject.now) }
{
    let mut members = Map::new(alloc);
    let subject = Value::try_from_str(alloc, subject)?;
    serde_json::put(&mut members, alloc, "last_by_subj", subject)?;
    let body = Value::Object(members);
    let text = body.to_string(alloc)?;
    Ok(Bytes::from_string(text)?)
}

fn get_body(alloc: Global, reads: &KeyReads, subject: &str) -> Result<Bytes, OutOfMemory>
    ensures { IfOk result (λ body. body ≡ get_body_in reads.now subject.now) }
{
    if reads.allow_direct {
        Ok(Bytes::new())
    } else {
        last_by_subject(alloc, subject)
    }
}

// The request for the last message of this subject.
fn request_for(alloc: Global, reads: &KeyReads, subject: &str) -> Result<GetRequest, OutOfMemory>
    ensures { IfOk result (λ request. request ≡ record { subject = get_subject_in reads.now subject.now; payload = get_body_in reads.now subject.now }) }
{
    let (whole, payload) = both(
        get_subject(alloc, reads, subject),
        get_body(alloc, reads, subject),
    )?;
    Ok(GetRequest {
        subject: Subject::from(whole),
        payload,
    })
}

/// Returns the request that reads a key from the server, without a table: the server answers with
/// the last message of the key, whether a value or a deletion.
///
/// The request is a direct get if the stream allows it. Otherwise it asks the stream for the last
/// message by its subject. Send it with `raw_request` of a context, and pass the answer to
/// `read_answer`.
///
/// # Errors
///
/// Fails with `InvalidKey` exactly if the text is not a key (`is_valid_key`). Otherwise fails only
/// with `OutOfMemory`.
pub fn get(
    alloc: Global,
    places: &KeyPlaces,
    reads: &KeyReads,
    key: &str,
) -> Result<GetRequest, WriteError>
    ensures { Gets places.now reads.now key.now result }
{
    if !is_valid_key(key) {
        return Err(WriteError::InvalidKey);
    }
    let subject = value_subject(alloc, places, key)?;
    Ok(request_for(alloc, reads, subject.as_str())?)
}
