//! A bucket, and the value that the server has of a key.

use crate::lines::add_line;
use jetstream_event_log::table::{key_places, key_reads};
use js_base::{Message, both};
use js_call::RawRequest;
use js_context::Context;
use js_pipe::{Failure, Session, told};
use js_store::{Store, StoreCalls};
use js_store_keys::{Entry, GetRequest, KeyPlaces, KeyReads, get, read_answer};
use std::alloc::Global;
use std::sync::Wait;
use std::time::Clock;

/// Where the keys of a bucket are, and where the server reads them.
#[derive(Drop)]
pub struct Bucket {
    pub places: KeyPlaces,
    pub reads: KeyReads,
}

fn places_of(store: &Store) -> Result<Bucket, Failure> {
    let (places, reads) = both(key_places(store), key_reads(store))?;
    Ok(Bucket { places, reads })
}

/// Asks the server for a bucket. Fails with `Refused` if there is none, and as `Session::turn` does.
pub fn find_bucket<R: Clock + Wait + Eprint>(
    rt: &R,
    alloc: Global,
    session: &mut Session,
    context: &Context,
    name: &str,
) -> Result<Bucket, Failure> {
    let call = context.get_key_value(alloc, name)?;
    let store = session.answer(rt, alloc, call)?;
    let store = told(rt, store, Failure::Refused)?;
    let bucket = places_of(&store);
    drop(store);
    bucket
}

// The answer to a request.
fn answer<R: Clock + Wait + Eprint>(
    rt: &R,
    alloc: Global,
    session: &mut Session,
    context: &Context,
    request: GetRequest,
) -> Result<Message, Failure> {
    let GetRequest { subject, payload } = request;
    let request = RawRequest {
        payload: Some(payload),
        headers: None,
        timeout: None,
        inbox: None,
    };
    let call = context.raw_request(alloc, subject.as_str(), request);
    drop(subject);
    let message = session.answer(rt, alloc, call?)?;
    told(rt, message, Failure::Refused)
}

// The entry that gives a key its value.
fn value_of<R: Clock + Wait + Eprint>(
    rt: &R,
    alloc: Global,
    session: &mut Session,
    context: &Context,
    bucket: &Bucket,
    key: &str,
) -> Result<Option<Entry>, Failure> {
    let request = get(alloc, &bucket.places, &bucket.reads, key);
    let request = told(rt, request, Failure::Usage)?;
    let message = answer(rt, alloc, session, context, request)?;
    let entry = read_answer(alloc, &bucket.places, &bucket.reads, key, message);
    told(rt, entry, Failure::Refused)
}

// Adds the line of the entry that gives a key its value, where there is one.
fn add_value<R: Clock + Wait + Eprint>(
    rt: &R,
    alloc: Global,
    session: &mut Session,
    context: &Context,
    bucket: &Bucket,
    key: &str,
    page: &mut Vec<u8>,
) -> Result<(), Failure> {
    if let Some(entry) = value_of(rt, alloc, session, context, bucket, key)? {
        let added = add_line(alloc, page, &entry);
        drop(entry);
        added?;
    }
    Ok(())
}

fn add_named<R: Clock + Wait + Eprint>(
    rt: &R,
    alloc: Global,
    session: &mut Session,
    context: &Context,
    bucket: &str,
    key: &str,
    page: &mut Vec<u8>,
) -> Result<(), Failure> {
    let bucket = find_bucket(rt, alloc, session, context, bucket)?;
    let added = add_value(rt, alloc, session, context, &bucket, key, page);
    drop(bucket);
    added
}

/// Asks the server for the value of a key, without a table, and adds the line of the entry that
/// gives it, or nothing if the key has no value.
///
/// # Errors
///
/// `Usage` if the text is not a key; `Refused` if there is no such bucket, or the server refuses;
/// and those of `Session::turn`.
pub fn get_value<R: Clock + Wait + Eprint>(
    rt: &R,
    alloc: Global,
    session: &mut Session,
    bucket: &str,
    key: &str,
    page: &mut Vec<u8>,
) -> Result<(), Failure> {
    let context = Context::new(rt, alloc)?;
    let added = add_named(rt, alloc, session, &context, bucket, key, page);
    drop(context);
    added
}
