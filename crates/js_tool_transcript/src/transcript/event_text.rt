//! The lines of events, as they are written.

ghost use Rattle.std.specs.Prelude.{◌≡◌, ◌<◌, ◌^◌, ◌++◌, ◌∷◌, List, ℕ, decimal, false, None, Some, Ok, OnOk, IfSome, IsTrue};
ghost use Rattle.std.specs.Str.{IsUtf8, is_utf8};
ghost use Rattle.json.specs.Print.{quoted};
ghost use Rattle.js_base.specs.Headers.{pairs};
ghost use Rattle.js_tool_io.specs.Lines.{lines_of};
ghost use Rattle.js_ordered_table.specs.declared.event.EventKind.TheVariants.{Arrival, Answer};
ghost use Rattle.js_tool_transcript.specs.Event.{event_line};
ghost use Rattle.js_tool_transcript.specs.EventText.{subject_text, reply_text, payload_text, status_text, description_text, header_text, list_text, headers_text, address_text, status_and_headers_text, message_text, link_text, connection_text, what_text, event_json, event_text, is_recordable_message, is_recordable_kind, is_recordable as is_recordable_in, AreTextPairs, IsTyped, IsTypedKind};

use crate::text::{push_comma, push_decimal, push_plain, push_quoted};
use js_base::{Boxed, HeaderMap, Message, State, StatusCode, Subject, Text};
use js_ordered_table::{Event, EventKind};
use std::alloc::AllocError;
use std::str::from_utf8;

// ---- the members of a message

// A key with its comma and its colon, and a text.
pub(super) fn push_text_member(out: &mut Vec<u8>, key: &[u8], text: &str) -> Result<(), AllocError>
    ensures text { OnOk result (out.new.items ≡ out.old.items ++ (key.now ++ quoted text.now)) }
    ensures utf8 { IsUtf8 text.now }
{
    push_plain(out, key)?;
    push_quoted(out, text.as_bytes())
}

fn push_subject(out: &mut Vec<u8>, subject: &str) -> Result<(), AllocError>
    ensures text { OnOk result (out.new.items ≡ out.old.items ++ subject_text subject.now) }
    ensures utf8 { IsUtf8 subject.now }
{
    if subject.is_empty() {
        return Ok(());
    }
    push_text_member(out, b",\"subject\":", subject)
}

fn push_reply(out: &mut Vec<u8>, reply: &Option<Subject>) -> Result<(), AllocError>
    ensures text { OnOk result (out.new.items ≡ out.old.items ++ reply_text reply.now) }
    ensures utf8 { IfSome reply.now IsUtf8 }
{
    match reply {
        None => Ok(()),
        Some(reply) => push_text_member(out, b",\"reply\":", reply.as_str()),
    }
}

pub(super) fn push_payload(out: &mut Vec<u8>, payload: &[u8]) -> Result<(), AllocError>
    ensures { OnOk result (out.new.items ≡ out.old.items ++ payload_text payload.now) }
{
    push_plain(out, b",\"payload\":")?;
    push_quoted(out, payload)
}

pub(super) fn push_number_member(
    out: &mut Vec<u8>,
    key: &[u8],
    number: u64,
) -> Result<(), AllocError>
    ensures small { number < 2 ^ 64 }
    ensures text { OnOk result (out.new.items ≡ out.old.items ++ (key.now ++ decimal number)) }
{
    push_plain(out, key)?;
    push_decimal(out, number)
}

fn push_status(out: &mut Vec<u8>, status: Option<StatusCode>) -> Result<(), AllocError>
    ensures text { OnOk result (out.new.items ≡ out.old.items ++ status_text status) }
    ensures small { IfSome status (λ status. status.0 < 2 ^ 16) }
{
    match status {
        None => Ok(()),
        Some(StatusCode(number)) => { push_number_member(out, b",\"status\":", u64::from(number)) }
    }
}

fn push_description(out: &mut Vec<u8>, description: &Option<Text>) -> Result<(), AllocError>
    ensures text { OnOk result (out.new.items ≡ out.old.items ++ description_text description.now) }
    ensures utf8 { IfSome description.now IsUtf8 }
{
    match description {
        None => Ok(()),
        Some(description) => { push_text_member(out, b",\"description\":", description.as_str()) }
    }
}

fn push_header(out: &mut Vec<u8>, name: &str, value: &str) -> Result<(), AllocError>
    ensures text { OnOk result (out.new.items ≡ out.old.items ++ header_text (name.now, value.now)) }
    ensures utf8 { IsUtf8 name.now × IsUtf8 value.now }
{
    push_text_member(out, b"[", name)?;
    push_text_member(out, b",", value)?;
    push_plain(out, b"]")
}

fn push_list(out: &mut Vec<u8>, headers: &HeaderMap) -> Result<(), AllocError>
    ensures text { OnOk result (out.new.items ≡ out.old.items ++ list_text false (pairs headers.now)) }
    ensures utf8 { OnOk result (AreTextPairs (pairs headers.now)) }
{
    let mut later = false;
    for header in headers.iter() {
        push_comma(out, later)?;
        push_header(out, header.0, header.1)?;
        later = true;
    }
    Ok(())
}

fn push_list_member(out: &mut Vec<u8>, headers: &HeaderMap) -> Result<(), AllocError>
    ensures text { OnOk result (out.new.items ≡ out.old.items ++ headers_text (Some headers.now)) }
    ensures utf8 { OnOk result (AreTextPairs (pairs headers.now)) }
{
    push_plain(out, b",\"headers\":[")?;
    push_list(out, headers)?;
    push_plain(out, b"]")?;
    Ok(())
}

fn push_headers(out: &mut Vec<u8>, headers: &Option<HeaderMap>) -> Result<(), AllocError>
    ensures text { OnOk result (out.new.items ≡ out.old.items ++ headers_text headers.now) }
    ensures utf8 { OnOk result (IfSome headers.now (λ headers. AreTextPairs (pairs headers))) }
{
    match headers {
        None => Ok(()),
        Some(headers) => push_list_member(out, headers),
    }
}

pub(super) fn push_address(out: &mut Vec<u8>, message: &Message) -> Result<(), AllocError>
    ensures text { OnOk result (out.new.items ≡ out.old.items ++ address_text message.now) }
    ensures subject { OnOk result (IsUtf8 message.now.subject) }
    ensures reply { OnOk result (IfSome message.now.reply IsUtf8) }
{
    push_subject(out, message.subject.as_str())?;
    push_reply(out, &message.reply)
}

pub(super) fn push_status_and_headers(
    out: &mut Vec<u8>,
    message: &Message,
) -> Result<(), AllocError>
    ensures text { OnOk result (out.new.items ≡ out.old.items ++ status_and_headers_text message.now) }
    ensures small { OnOk result (IfSome message.now.status (λ status. status.0 < 2 ^ 16)) }
    ensures description { OnOk result (IfSome message.now.description IsUtf8) }
    ensures headers { OnOk result (IfSome message.now.headers (λ headers. AreTextPairs (pairs headers))) }
{
    push_status(out, message.status)?;
    push_description(out, &message.description)?;
    push_headers(out, &message.headers)
}

fn push_message(out: &mut Vec<u8>, message: &Message) -> Result<(), AllocError>
    ensures text { OnOk result (out.new.items ≡ out.old.items ++ message_text message.now) }
    ensures typed { OnOk result (IsTyped message.now) }
{
    push_address(out, message)?;
    push_payload(out, message.payload.as_slice())?;
    push_status_and_headers(out, message)
}

// ---- what happens

fn push_arrival(out: &mut Vec<u8>, inbox: u64, message: &Message) -> Result<(), AllocError>
    ensures text { OnOk result (out.new.items ≡ out.old.items ++ what_text (Arrival inbox message.now)) }
    ensures typed { OnOk result (IsTypedKind (Arrival inbox message.now)) }
{
    push_number_member(out, b",\"arrival\":{\"inbox\":", inbox)?;
    push_message(out, message)?;
    push_plain(out, b"}")?;
    Ok(())
}

fn push_reply_to(out: &mut Vec<u8>, request: u64, message: &Message) -> Result<(), AllocError>
    ensures text { OnOk result (out.new.items ≡ out.old.items ++ what_text (Answer request (Some message.now))) }
    ensures typed { OnOk result (IsTypedKind (Answer request (Some message.now))) }
{
    push_number_member(out, b",\"answer\":{\"request\":", request)?;
    push_message(out, message)?;
    push_plain(out, b"}")?;
    Ok(())
}

fn push_gone(out: &mut Vec<u8>, request: u64) -> Result<(), AllocError>
    ensures text { OnOk result (out.new.items ≡ out.old.items ++ what_text (Answer request None)) }
    ensures typed { IsTypedKind (Answer request None) }
{
    push_number_member(out, b",\"answer\":{\"request\":", request)?;
    push_plain(out, b",\"gone\":true}")
}

fn push_answer(
    out: &mut Vec<u8>,
    request: u64,
    reply: &Option<Boxed<Message>>,
) -> Result<(), AllocError>
    ensures text { OnOk result (out.new.items ≡ out.old.items ++ what_text (Answer request reply.now)) }
    ensures typed { OnOk result (IsTypedKind (Answer request reply.now)) }
{
    match reply {
        Some(message) => push_reply_to(out, request, message.get()),
        None => push_gone(out, request),
    }
}

fn link_member(up: bool) -> &'static [u8]
    ensures { result.now ≡ link_text up }
{
    if up {
        b",\"link\":\"open\""
    } else {
        b",\"link\":\"closed\""
    }
}

fn connection_member(state: State) -> &'static [u8]
    ensures { result.now ≡ connection_text state }
{
    match state {
        State::Connected => b",\"connection\":\"connected\"",
        State::Disconnected => b",\"connection\":\"disconnected\"",
        State::Pending => b",\"connection\":\"pending\"",
    }
}

pub(super) fn push_what(out: &mut Vec<u8>, what: &EventKind) -> Result<(), AllocError>
    ensures text { OnOk result (out.new.items ≡ out.old.items ++ what_text what.now) }
    ensures typed { OnOk result (IsTypedKind what.now) }
{
    match what {
        EventKind::Tick => Ok(()),
        EventKind::Arrival { inbox, message } => push_arrival(out, *inbox, message.get()),
        EventKind::Answer { request, reply } => push_answer(out, *request, reply),
        EventKind::Link { up } => push_plain(out, link_member(*up)),
        EventKind::Connection { state } => push_plain(out, connection_member(*state)),
        EventKind::WatcherEnded => push_plain(out, b",\"watcher\":\"ended\""),
    }
}

// ---- the line

/// Adds the line of an event to `out`, with its line feed, as a transcript has it.
///
/// The keys stand in the order of docs/FORMATS.md. `payload` is always there; `subject` is left out
/// if it is empty, and each other key of a message if there is no value. So an arrival with a reply
/// and a payload alone is in the form that [`compact_event`](crate::compact_event) reads quickly.
///
/// The line reads back as the event if [`is_recordable`] returns true, and does not otherwise: a
/// line says neither a payload that is no UTF-8 nor a length other than the payload's. Ask it
/// first: this call writes the line of any event. [`push_extended_event`](crate::push_extended_event)
/// writes a line that reads back for every event.
///
/// # Errors
///
/// Fails with `AllocError` if memory runs out. A part of the line may have been added then.
pub fn push_event(out: &mut Vec<u8>, event: &Event) -> Result<(), AllocError>
    ensures text { OnOk result (out.new.items ≡ out.old.items ++ event_text event.now) }
    ensures line { OnOk result ((rest : List ℕ) → lines_of (event_text event.now ++ rest) ≡ event_json event.now ∷ lines_of rest) }
    ensures reads { IsTrue (is_recordable_in event.now) → OnOk result (event_line (event_json event.now) ≡ Ok event.now) }
{
    push_number_member(out, b"{\"at\":", event.at)?;
    push_what(out, &event.what)?;
    push_plain(out, b"}\n")?;
    Ok(())
}

// ---- what reads back

pub(super) fn is_text(bytes: &[u8]) -> bool
    ensures { result ≡ is_utf8 bytes.now }
{
    match from_utf8(bytes) {
        Ok(_) => true,
        Err(_) => false,
    }
}

fn is_recordable_message(message: &Message) -> bool
    ensures { result ≡ is_recordable_message message.now }
{
    is_text(message.payload.as_slice()) && message.length == message.payload.len() as u64
}

fn is_recordable_kind(what: &EventKind) -> bool
    ensures { result ≡ is_recordable_kind what.now }
{
    match what {
        EventKind::Arrival { inbox: _, message } => is_recordable_message(message.get()),
        EventKind::Answer {
            request: _,
            reply: Some(message),
        } => is_recordable_message(message.get()),
        EventKind::Answer {
            request: _,
            reply: None,
        } => true,
        EventKind::Tick => true,
        EventKind::Link { up: _ } => true,
        EventKind::Connection { state: _ } => true,
        EventKind::WatcherEnded => true,
    }
}

/// Returns whether the line of an event reads back as the event: it has no message, or the
/// message's payload is UTF-8 and its length is the payload's. Every event that was read from a
/// line is one of these.
pub fn is_recordable(event: &Event) -> bool
    ensures value { result ≡ is_recordable_in event.now }
    ensures said { (line : List ℕ) → event_line line ≡ Ok event.now → IsTrue result }
{
    is_recordable_kind(&event.what)
}
