//! Single messages of a stream, by sequence or as the last of a subject.

use crate::answers::{Refusal, refused};
use crate::api::split_name;
use crate::json::{formatted, json_of, number_at, quoted, text_at};
use crate::log::{Log, Stored};
use crate::messages::message;
use crate::server::{Published, TestServer, stream_of};
use crate::times::time_text;
use base64::engine::general_purpose::STANDARD;
use js_base::{HeaderMap, Message, OutOfMemory, StatusCode, Subject, TryClone, all_3, all_4};
use serde_json::Value;
use std::alloc::Global;

// The message that a request names: the last of a subject, the first of a subject from a sequence
// on, or the one of a sequence.
fn asked<'a>(log: &'a Log, request: &Value) -> Option<&'a Stored> {
    let sequence = number_at(request, "seq");
    if let Some(subject) = text_at(request, "last_by_subj") {
        return log.last_of(subject);
    }
    match text_at(request, "next_by_subj") {
        None => log.at(sequence),
        Some(subject) => log.next_of(subject, sequence),
    }
}

// The headers of a message as the server writes them before a body.
fn header_text(alloc: Global, headers: &HeaderMap) -> Result<String, OutOfMemory> {
    let mut text = String::from_str(alloc, "NATS/1.0\r\n")?;
    for (name, value) in headers.iter() {
        push_all(&mut text, &[name, ": ", value, "\r\n"])?;
    }
    text.push_str("\r\n")?;
    Ok(text)
}

fn push_all(text: &mut String, parts: &[&str]) -> Result<(), OutOfMemory> {
    for part in parts {
        text.push_str(part)?;
    }
    Ok(())
}

fn encoded(alloc: Global, bytes: &[u8]) -> Result<String, OutOfMemory> {
    Ok(STANDARD.encode(alloc, bytes)?)
}

// The member of the headers, with its comma, if there are any.
fn headers_member(alloc: Global, stored: &Stored) -> Result<String, OutOfMemory> {
    let Some(headers) = &stored.headers else {
        return Ok(String::new(alloc));
    };
    let text = header_text(alloc, headers)?;
    let text = encoded(alloc, text.as_bytes())?;
    formatted(format!(in alloc; r#""hdrs":"{text}","#))
}

// The answer that has a message in it.
fn message_text(alloc: Global, stored: &Stored) -> Result<String, OutOfMemory> {
    let sequence = stored.sequence;
    let (subject, headers, data, time) = all_4(
        quoted(alloc, stored.subject.as_str()),
        headers_member(alloc, stored),
        encoded(alloc, stored.payload.as_slice()),
        time_text(alloc, stored.stored),
    )?;
    formatted(format!(in alloc;
        r#"{{"message":{{"subject":{subject},"seq":{sequence},{headers}"data":"{data}","time":"{time}"}}}}"#
    ))
}

// The headers of a message that is sent by itself: its own, and those that say where it stands.
fn place_headers(alloc: Global, log: &Log, stored: &Stored) -> Result<HeaderMap, OutOfMemory> {
    let mut headers = match &stored.headers {
        None => HeaderMap::new(alloc),
        Some(headers) => headers.try_clone()?,
    };
    add_place(alloc, log, stored, &mut headers)?;
    Ok(headers)
}

fn add_place(
    alloc: Global,
    log: &Log,
    stored: &Stored,
    headers: &mut HeaderMap,
) -> Result<(), OutOfMemory> {
    let (sequence, time) = (stored.sequence, time_text(alloc, stored.stored)?);
    let sequence = format!(in alloc; "{sequence}")?;
    headers.append(alloc, "Nats-Stream", log.name.as_str())?;
    headers.append(alloc, "Nats-Subject", stored.subject.as_str())?;
    headers.append(alloc, "Nats-Sequence", sequence.as_str())?;
    headers.append(alloc, "Nats-Time-Stamp", time.as_str())
}

// A message that is sent by itself to a reply subject.
fn direct_message(
    alloc: Global,
    log: &Log,
    stored: &Stored,
    reply: &Subject,
) -> Result<Message, OutOfMemory> {
    let (subject, headers, payload) = all_3(
        reply.try_clone(),
        place_headers(alloc, log, stored),
        stored.payload.try_clone(),
    )?;
    Ok(message(subject, None, Some(headers), payload))
}

impl TestServer {
    pub(crate) fn message_get(
        &self,
        alloc: Global,
        name: &str,
        body: &[u8],
    ) -> Result<String, OutOfMemory> {
        let request = json_of(alloc, body)?;
        let answer = self.found_text(alloc, name, &request);
        drop(request);
        answer
    }

    fn found_text(
        &self,
        alloc: Global,
        name: &str,
        request: &Value,
    ) -> Result<String, OutOfMemory> {
        let Some(stream) = stream_of(&self.streams, name) else {
            return refused(alloc, Refusal::StreamNotFound);
        };
        match asked(&stream.log, request) {
            None => refused(alloc, Refusal::MessageNotFound),
            Some(stored) => message_text(alloc, stored),
        }
    }

    // Sends the message that a direct get names, which may stand in the subject or in the body.
    pub(crate) fn direct_get(
        &mut self,
        alloc: Global,
        names: &str,
        published: &Published,
    ) -> Result<(), OutOfMemory> {
        let Some(reply) = &published.reply else {
            return Ok(());
        };
        let request = json_of(alloc, published.payload.as_slice())?;
        let found = self.found_message(alloc, names, &request, reply);
        drop(request);
        match found? {
            Some(message) => {
                let (message, to) = js_base::both(Ok(message), reply.try_clone())?;
                self.connection.send(to, message)
            }
            None => {
                let code = StatusCode::NOT_FOUND;
                self.connection
                    .tell(alloc, reply.as_str(), code, "Message Not Found", &[])
            }
        }
    }

    fn found_message(
        &self,
        alloc: Global,
        names: &str,
        request: &Value,
        reply: &Subject,
    ) -> Result<Option<Message>, OutOfMemory> {
        let (name, subject) = split_name(names);
        let Some(stream) = stream_of(&self.streams, name) else {
            return Ok(None);
        };
        let log = &stream.log;
        let stored = if subject.is_empty() {
            asked(log, request)
        } else {
            log.last_of(subject)
        };
        match stored {
            None => Ok(None),
            Some(stored) => Ok(Some(direct_message(alloc, log, stored, reply)?)),
        }
    }
}
