//! The messages that the server sends.

use bytes::Bytes;
use js_base::{HeaderMap, Message, OutOfMemory, StatusCode, Subject, Text, all_3};
use std::alloc::Global;

// A message under this subject.
pub(crate) fn message(
    subject: Subject,
    reply: Option<Subject>,
    headers: Option<HeaderMap>,
    payload: Bytes,
) -> Message {
    let length = (subject.as_str().len() as u64).saturating_add(payload.len() as u64);
    Message {
        subject,
        reply,
        payload,
        headers,
        status: None,
        description: None,
        length,
    }
}

// A message that has a payload alone.
pub(crate) fn plain(alloc: Global, subject: &str, payload: String) -> Result<Message, OutOfMemory> {
    let (subject, payload) = js_base::both(Subject::new(alloc, subject), owned(payload))?;
    Ok(message(subject, None, None, payload))
}

fn owned(payload: String) -> Result<Bytes, OutOfMemory> {
    Ok(Bytes::from_string(payload)?)
}

// What the server says in place of a message, with a number in each of two headers.
pub(crate) fn status(
    alloc: Global,
    subject: &str,
    code: StatusCode,
    description: &str,
    headers: &[(&str, u64)],
) -> Result<Message, OutOfMemory> {
    let (subject, description, headers) = all_3(
        Subject::new(alloc, subject),
        Text::from_str(alloc, description),
        numbers(alloc, headers),
    )?;
    let length = subject.as_str().len() as u64;
    Ok(Message {
        subject,
        reply: None,
        payload: Bytes::new(),
        headers,
        status: Some(code),
        description: Some(description),
        length,
    })
}

fn numbers(alloc: Global, rows: &[(&str, u64)]) -> Result<Option<HeaderMap>, OutOfMemory> {
    if rows.is_empty() {
        return Ok(None);
    }
    let mut headers = HeaderMap::new(alloc);
    for &(name, number) in rows {
        add_number(alloc, &mut headers, name, number)?;
    }
    Ok(Some(headers))
}

fn add_number(
    alloc: Global,
    headers: &mut HeaderMap,
    name: &str,
    number: u64,
) -> Result<(), OutOfMemory> {
    let number = format!(in alloc; "{number}")?;
    headers.append(alloc, name, number.as_str())
}
