//! What the server side of the link says.

use bytes::Bytes;
use js_base::{HeaderMap, Message, OutOfMemory, StatusCode, Subject, Text, TryClone, all_3};
use js_call::ApiScope;
use js_call_consumers::PullConsumer;
use js_json::consumer::{FromConsumer, Info};
use js_json::{Response, pull, response_as};
use js_message::read_u64;
use std::alloc::Global;

/// What the server tells of the consumer: 7 messages wait, and at most 100 are asked for at a time.
const INFO: &str =
    "{\"stream_name\":\"jobs\",\"name\":\"c1\",\"created\":\"2026-01-01T00:00:00Z\",\"config\":{\"deliver_policy\":\"all\",\"max_batch\":100},\"delivered\":{\"consumer_seq\":0,\"stream_seq\":0},\"ack_floor\":{\"consumer_seq\":0,\"stream_seq\":0},\"num_ack_pending\":0,\"num_redelivered\":0,\"num_waiting\":0,\"num_pending\":7}";

// An answer that is no error.
fn answered<T: Drop, E: Drop>(read: Result<Response<T>, E>) -> Result<T, OutOfMemory> {
    match read {
        Ok(Response::Ok(answer)) => Ok(answer),
        _ => Err(OutOfMemory),
    }
}

/// What the server tells of the consumer, read from the bytes of its answer.
pub(crate) fn info(alloc: Global) -> Result<Info, OutOfMemory> {
    answered(response_as(alloc, INFO.as_bytes()))
}

/// Where the calls on the consumer go.
pub(crate) fn api(alloc: Global) -> Result<ApiScope, OutOfMemory> {
    Ok(ApiScope {
        prefix: Text::from_str(alloc, "$JS.API")?,
        timeout: None,
    })
}

// What was made, where it could be.
fn made<T: Drop, E: Drop>(made: Result<T, E>) -> Result<T, OutOfMemory> {
    match made {
        Ok(value) => Ok(value),
        Err(_) => Err(OutOfMemory),
    }
}

fn config(info: &Info) -> Result<pull::Config, OutOfMemory> {
    made(pull::Config::try_from_consumer_config(info.config.try_clone()?))
}

fn known(info: Info, scope: ApiScope) -> Result<PullConsumer, OutOfMemory> {
    match config(&info) {
        Ok(config) => Ok(PullConsumer::new(config, info, scope)),
        Err(OutOfMemory) => {
            drop(info);
            drop(scope);
            Err(OutOfMemory)
        }
    }
}

/// The consumer of the work queue.
pub(crate) fn consumer(alloc: Global) -> Result<PullConsumer, OutOfMemory> {
    let scope = api(alloc)?;
    match info(alloc) {
        Ok(info) => known(info, scope),
        Err(OutOfMemory) => Err(OutOfMemory),
    }
}

/// The consumer of the work queue, where at most so many messages are asked for at a time, and for at most so many nanoseconds.
pub(crate) fn limited_consumer(
    alloc: Global,
    max_batch: u64,
    max_expires: u64,
) -> Result<PullConsumer, OutOfMemory> {
    let scope = api(alloc)?;
    match info(alloc) {
        Ok(mut info) => {
            info.config.max_batch = max_batch.min(1_000_000) as i64;
            info.config.max_expires = max_expires;
            known(info, scope)
        }
        Err(OutOfMemory) => Err(OutOfMemory),
    }
}

/// What a message says, and under which subject.
type Body = (Subject, Bytes);

fn body(alloc: Global, payload: &str) -> Result<Body, OutOfMemory> {
    let subject = Subject::new(alloc, "_INBOX.t.0")?;
    Ok((subject, Bytes::copy_from_slice(alloc, payload.as_bytes())?))
}

// A message from the stream, or one that is no more than its payload.
fn stored(body: Body, reply: Option<Subject>, length: usize) -> Message {
    let (subject, payload) = body;
    Message {
        subject,
        reply,
        payload,
        headers: None,
        status: None,
        description: None,
        length: length as u64,
    }
}

/// A message that is no more than its payload.
pub(crate) fn reply(alloc: Global, payload: &str) -> Result<Message, OutOfMemory> {
    Ok(stored(body(alloc, payload)?, None, payload.len()))
}

fn job_reply(alloc: Global, sequence: u64, delivered: u64) -> Result<Subject, OutOfMemory> {
    let reply = format!(in alloc; "$JS.ACK.jobs.c1.{delivered}.{sequence}.{sequence}.0.0")?;
    Ok(Subject::from(reply))
}

/// A job of the queue, which was delivered so often.
pub(crate) fn job(
    alloc: Global,
    sequence: u64,
    delivered: u64,
    payload: &str,
) -> Result<Message, OutOfMemory> {
    let reply = job_reply(alloc, sequence, delivered)?;
    Ok(stored(body(alloc, payload)?, Some(reply), payload.len()))
}

// A message without a payload that says a status.
fn said(
    body: Body,
    status: (u16, Text),
    reply: Option<Subject>,
    headers: Option<HeaderMap>,
) -> Message {
    let (subject, payload) = body;
    let (code, description) = status;
    Message {
        subject,
        reply,
        payload,
        headers,
        status: Some(StatusCode(code)),
        description: Some(description),
        length: 0,
    }
}

/// What the server says in place of a message.
pub(crate) fn status(alloc: Global, code: u16, description: &str) -> Result<Message, OutOfMemory> {
    let description = Text::from_str(alloc, description)?;
    Ok(said(body(alloc, "")?, (code, description), None, None))
}

/// A heartbeat that asks for an answer to that subject.
pub(crate) fn flow_control(alloc: Global, subject: &str) -> Result<Message, OutOfMemory> {
    let (description, reply, body) = all_3(
        Text::from_str(alloc, "FlowControl Request"),
        Subject::new(alloc, subject),
        body(alloc, ""),
    )?;
    Ok(said(body, (100, description), Some(reply), None))
}

fn stalled_headers(alloc: Global, subject: &str) -> Result<HeaderMap, OutOfMemory> {
    let mut headers = HeaderMap::new(alloc);
    headers.insert(alloc, "Nats-Consumer-Stalled", subject)?;
    Ok(headers)
}

/// A heartbeat of a consumer that waits for an answer to that subject.
pub(crate) fn stalled(alloc: Global, subject: &str) -> Result<Message, OutOfMemory> {
    let (description, headers, body) = all_3(
        Text::from_str(alloc, "Idle Heartbeat"),
        stalled_headers(alloc, subject),
        body(alloc, ""),
    )?;
    Ok(said(body, (100, description), None, Some(headers)))
}

/// A number, or 0.
pub(crate) fn number(word: &str) -> u64 {
    read_u64(word).unwrap_or(0)
}
