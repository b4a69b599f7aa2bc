//! What a reader is opened with, and what its server sends.

use crate::reader::Kind;
use bytes::Bytes;
use js_base::{Message, OutOfMemory, Subject, Text, all_3, both};
use js_json::consumer::Info;
use js_json::{Response, response_as};
use js_ordered_table::{Resilience, Settings};
use std::alloc::Global;

/// The settings of every reader.
pub fn settings(alloc: Global) -> Result<Settings, OutOfMemory> {
    let (api_prefix, inbox_prefix) = both(
        Text::from_str(alloc, "$JS.API"),
        Text::from_str(alloc, "_INBOX.t"),
    )?;
    Ok(Settings {
        api_prefix,
        inbox_prefix,
        context_timeout: None,
        request_timeout: Some(10_000_000_000),
        retries: 0,
        resilience: Resilience::none(),
    })
}

/// How a consumer of the kind is configured.
fn config_text(kind: Kind) -> &'static str {
    match kind {
        Kind::Pull => r#"{"deliver_policy":"all","max_batch":4}"#,
        Kind::Push => r#"{"deliver_policy":"all","deliver_subject":"deliver"}"#,
    }
}

/// What the server tells of a consumer.
fn info_text(alloc: Global, name: &str, kind: Kind) -> Result<String, OutOfMemory> {
    let config = config_text(kind);
    Ok(format!(in alloc;
        r#"{{"stream_name":"log","name":"{name}","created":"2026-01-01T00:00:00Z","config":{config},"delivered":{{"consumer_seq":0,"stream_seq":0}},"ack_floor":{{"consumer_seq":0,"stream_seq":0}},"num_ack_pending":0,"num_redelivered":0,"num_waiting":0,"num_pending":0}}"#
    )?)
}

/// An answer that is no error. The text is an info, so only memory can be missing.
fn answered<T: Drop, E: Drop>(read: Result<Response<T>, E>) -> Result<T, OutOfMemory> {
    match read {
        Ok(Response::Ok(answer)) => Ok(answer),
        _ => Err(OutOfMemory),
    }
}

/// What the server tells of the first consumer.
pub fn first_info(alloc: Global, kind: Kind) -> Result<Info, OutOfMemory> {
    let text = info_text(alloc, "c1", kind)?;
    let read = response_as(alloc, text.as_bytes());
    drop(text);
    answered(read)
}

/// The payload of every message.
fn payload_bytes(alloc: Global) -> Result<Bytes, OutOfMemory> {
    Ok(Bytes::copy_from_slice(alloc, b"0123456789abcdef")?)
}

/// A message that is delivered.
fn delivered(subject: Subject, reply: Subject, payload: Bytes) -> Message {
    let length = payload.len() as u64;
    Message {
        subject,
        reply: Some(reply),
        payload,
        headers: None,
        status: None,
        description: None,
        length,
    }
}

fn reply(alloc: Global, sequence: u64, number: u64) -> Result<Subject, OutOfMemory> {
    let reply = format!(in alloc; "$JS.ACK.log.c1.1.{sequence}.{number}.1790230470084404000.0")?;
    Ok(Subject::from(reply))
}

/// The log's entry with this sequence, as the message with this number of its consumer.
pub fn entry(alloc: Global, sequence: u64, number: u64) -> Result<Message, OutOfMemory> {
    let (subject, reply, bytes) = all_3(
        Subject::new(alloc, "log.line"),
        reply(alloc, sequence, number),
        payload_bytes(alloc),
    )?;
    Ok(delivered(subject, reply, bytes))
}

fn key_subject(alloc: Global, key: u64) -> Result<Subject, OutOfMemory> {
    let subject = format!(in alloc; "$KV.config.{key}")?;
    Ok(Subject::from(subject))
}

/// A value of a key of the bucket `config`, with this sequence in the bucket's stream and as many messages of its consumer before it.
pub fn change(alloc: Global, key: u64, sequence: u64) -> Result<Message, OutOfMemory> {
    let (subject, reply, bytes) = all_3(
        key_subject(alloc, key),
        reply(alloc, sequence, sequence),
        payload_bytes(alloc),
    )?;
    Ok(delivered(subject, reply, bytes))
}
