//! One write of a key.

use crate::reading::find_bucket;
use crate::words::Write;
use bytes::Bytes;
use js_base::{Nanos, Next, OutOfMemory};
use js_context::{Context, PublishError};
use js_context_queue::{PublishQueue, Published};
use js_message::OutboundMessage;
use js_pipe::{Failure, Session, told};
use js_store_keys::{
    KeyPlaces, WriteError, WriteRefusal, create, delete, purge, put, refusal_of, update,
};
use std::alloc::Global;
use std::sync::Wait;
use std::time::Clock;

/// How long a write may wait for its sending, in nanoseconds.
const SEND_TIMEOUT: Nanos = 5_000_000_000;

fn value_of(alloc: Global, value: &str) -> Result<Bytes, OutOfMemory> {
    Ok(Bytes::copy_from_slice(alloc, value.as_bytes())?)
}

// The message of a write.
fn message_of(
    alloc: Global,
    places: &KeyPlaces,
    key: &str,
    write: Write<'_>,
) -> Result<OutboundMessage, WriteError> {
    match write {
        Write::Put(value) => put(alloc, places, key, value_of(alloc, value)?),
        Write::Create(value) => create(alloc, places, key, value_of(alloc, value)?),
        Write::Update { value, revision } => {
            update(alloc, places, key, value_of(alloc, value)?, revision)
        }
        Write::Delete => delete(alloc, places, key),
        Write::Purge => purge(alloc, places, key),
    }
}

// Tells why a write is not known to be stored.
fn tell_refused<R: Eprint>(rt: &R, write: Write<'_>, error: &PublishError) {
    let refusal = match write.expected() {
        Some(revision) => refusal_of(revision, error),
        None => None,
    };
    let _ = match refusal {
        Some(WriteRefusal::AlreadyExists { last }) => {
            eprintln!(rt; "the key is there: {}", last.unwrap_or(0))
        }
        Some(WriteRefusal::WrongRevision { last }) => {
            eprintln!(rt; "the revision is another: {}", last.unwrap_or(0))
        }
        None => eprintln!(rt; "{error}"),
    };
}

// Adds the revision that a write is stored under.
fn add_outcome<R: Eprint>(
    rt: &R,
    alloc: Global,
    write: Write<'_>,
    published: Published,
    page: &mut Vec<u8>,
) -> Result<(), Failure> {
    match published.outcome {
        Ok(ack) => {
            let line = format!(in alloc; "{}\n", ack.sequence);
            drop(ack);
            Ok(page.extend_from_slice(line?.as_bytes())?)
        }
        Err(error) => {
            tell_refused(rt, write, &error);
            drop(error);
            Err(Failure::Refused)
        }
    }
}

// What becomes of the one message of a queue.
fn published<R: Clock + Wait + Eprint>(
    rt: &R,
    alloc: Global,
    session: &mut Session,
    queue: &mut PublishQueue,
) -> Result<Published, Failure> {
    for _ in rt.forever() {
        let now = session.now(rt)?;
        match queue.poll_next(rt, alloc, session.link(), now) {
            Next::Item(published) => return Ok(published),
            Next::End => return Err(Failure::Refused),
            Next::Pending => drop(session.turn(rt, alloc, queue.wakes_at())?),
            Next::OutOfMemory => return Err(Failure::OutOfMemory),
        }
    }
    unreachable!()
}

// Publishes a message, and waits for its acknowledgement.
fn publish<R: Clock + Wait + Eprint>(
    rt: &R,
    alloc: Global,
    session: &mut Session,
    context: Context,
    message: OutboundMessage,
) -> Result<Published, Failure> {
    let mut queue = PublishQueue::new(alloc, context, SEND_TIMEOUT);
    let now = session.now(rt);
    let pushed = match now {
        Ok(now) => match queue.push(message, now) {
            Ok(_) => Ok(()),
            Err(_) => Err(Failure::OutOfMemory),
        },
        Err(failure) => {
            drop(message);
            Err(failure)
        }
    };
    let published = match pushed {
        Ok(()) => published(rt, alloc, session, &mut queue),
        Err(failure) => Err(failure),
    };
    drop(queue);
    published
}

// The message of a write to the bucket of this name.
fn prepared<R: Clock + Wait + Eprint>(
    rt: &R,
    alloc: Global,
    session: &mut Session,
    context: &Context,
    bucket: &str,
    key: &str,
    write: Write<'_>,
) -> Result<OutboundMessage, Failure> {
    let bucket = find_bucket(rt, alloc, session, context, bucket)?;
    let message = message_of(alloc, &bucket.places, key, write);
    drop(bucket);
    told(rt, message, Failure::Usage)
}

/// Writes to a key, and adds the line of the revision that the server stored it under.
///
/// # Errors
///
/// `Usage` if the text is not a key; `Refused` if there is no such bucket, or the write is not known
/// to be stored, as where the revision is another; and those of `Session::turn`. Each is told on
/// standard error.
pub fn write_value<R: Clock + Wait + Eprint>(
    rt: &R,
    alloc: Global,
    session: &mut Session,
    bucket: &str,
    key: &str,
    write: Write<'_>,
    page: &mut Vec<u8>,
) -> Result<(), Failure> {
    let context = Context::new(rt, alloc)?;
    let message = prepared(rt, alloc, session, &context, bucket, key, write);
    let message = match message {
        Ok(message) => message,
        Err(failure) => {
            drop(context);
            return Err(failure);
        }
    };
    let published = publish(rt, alloc, session, context, message)?;
    add_outcome(rt, alloc, write, published, page)
}
