//! The extended lines of events, as they are written.

ghost use Rattle.std.specs.Prelude.{◌≡◌, ◌<◌, ◌^◌, ◌++◌, ◌∷◌, List, ℕ, codes, decimal, false, Ok, OnOk, IsTrue};
ghost use Rattle.std.specs.Str.{is_utf8};
ghost use Rattle.json.specs.Print.{quoted};
ghost use Rattle.js_ordered_table.specs.declared.event.Event as events;
ghost use Rattle.js_tool_io.specs.Lines.{lines_of};
ghost use Rattle.js_tool_transcript.specs.Event.{event_line, extended_line};
ghost use Rattle.js_tool_transcript.specs.EventText.{event_text, is_recordable, IsTyped, IsTypedKind};
ghost use Rattle.js_tool_transcript.specs.ExtendedMessage.{base64_of};
ghost use Rattle.js_tool_transcript.specs.ExtendedText.{length_text, any_payload_text, any_message_text, any_what_text, extended_json, extended_text, IsBase64, IsWritten, IsWrittenKind};

use super::event_text::{
    is_text, push_address, push_number_member, push_payload, push_status_and_headers,
    push_text_member, push_what,
};
use crate::text::push_plain;
use base64::engine::general_purpose::STANDARD;
use js_base::Message;
use js_ordered_table::{Event, EventKind};
use std::alloc::{AllocError, Global};

fn push_length(out: &mut Vec<u8>, message: &Message) -> Result<(), AllocError>
    ensures text { OnOk result (out.new.items ≡ out.old.items ++ length_text message.now) }
    ensures small { OnOk result (message.now.length < 2 ^ 64) }
{
    let length = message.length;
    if length == message.payload.len() as u64 {
        return Ok(());
    }
    push_number_member(out, b",\"length\":", length)
}

#[tactic(auto, unfolding(crate::specs::ExtendedMessage::base64_of, crate::specs::ExtendedMessage::bytes_of))]
fn push_base64(alloc: Global, out: &mut Vec<u8>, payload: &[u8]) -> Result<(), AllocError>
    ensures text { OnOk result (out.new.items ≡ out.old.items ++ (codes ",\"payload_base64\":" ++ quoted (base64_of payload.now))) }
    ensures stands { OnOk result (IsBase64 payload.now) }
{
    let text = STANDARD.encode(alloc, payload)?;
    let pushed = push_text_member(out, b",\"payload_base64\":", text.as_str());
    drop(text);
    pushed
}

fn push_any_payload(alloc: Global, out: &mut Vec<u8>, payload: &[u8]) -> Result<(), AllocError>
    ensures text { OnOk result (out.new.items ≡ out.old.items ++ any_payload_text payload.now) }
    ensures stands { OnOk result (is_utf8 payload.now ≡ false → IsBase64 payload.now) }
{
    if is_text(payload) {
        push_payload(out, payload)
    } else {
        push_base64(alloc, out, payload)
    }
}

fn push_any_message(alloc: Global, out: &mut Vec<u8>, message: &Message) -> Result<(), AllocError>
    ensures text { OnOk result (out.new.items ≡ out.old.items ++ any_message_text message.now) }
    ensures typed { OnOk result (IsTyped message.now) }
    ensures written { OnOk result (IsWritten message.now) }
{
    push_length(out, message)?;
    push_address(out, message)?;
    push_any_payload(alloc, out, message.payload.as_slice())?;
    push_status_and_headers(out, message)
}

// A message behind a number.
fn push_numbered(
    alloc: Global,
    out: &mut Vec<u8>,
    key: &[u8],
    number: u64,
    message: &Message,
) -> Result<(), AllocError>
    ensures text { OnOk result (out.new.items ≡ out.old.items ++ (key.now ++ (decimal number ++ (any_message_text message.now ++ codes "}")))) }
    ensures small { number < 2 ^ 64 }
    ensures typed { OnOk result (IsTyped message.now) }
    ensures written { OnOk result (IsWritten message.now) }
{
    push_number_member(out, key, number)?;
    push_any_message(alloc, out, message)?;
    push_plain(out, b"}")?;
    Ok(())
}

fn push_any_what(alloc: Global, out: &mut Vec<u8>, what: &EventKind) -> Result<(), AllocError>
    ensures text { OnOk result (out.new.items ≡ out.old.items ++ any_what_text what.now) }
    ensures typed { OnOk result (IsTypedKind what.now) }
    ensures written { OnOk result (IsWrittenKind what.now) }
{
    match what {
        EventKind::Arrival { inbox, message } => {
            push_numbered(
                alloc,
                out,
                b",\"arrival\":{\"inbox\":",
                *inbox,
                message.get(),
            )
        }
        EventKind::Answer {
            request,
            reply: Some(message),
        } => push_numbered(
            alloc,
            out,
            b",\"answer\":{\"request\":",
            *request,
            message.get(),
        ),
        EventKind::Answer {
            request: _,
            reply: None,
        } => push_what(out, what),
        EventKind::Tick => push_what(out, what),
        EventKind::Link { up: _ } => push_what(out, what),
        EventKind::Connection { state: _ } => push_what(out, what),
        EventKind::WatcherEnded => push_what(out, what),
    }
}

fn push_line(alloc: Global, out: &mut Vec<u8>, event: &Event) -> Result<(), AllocError>
    ensures text { OnOk result (out.new.items ≡ out.old.items ++ extended_text event.now) }
    ensures small { OnOk result (event.now.at < 2 ^ 64) }
    ensures typed { OnOk result (IsTypedKind event.now.what) }
    ensures written { OnOk result (IsWrittenKind event.now.what) }
{
    push_number_member(out, b"{\"at\":", event.at)?;
    push_any_what(alloc, out, &event.what)?;
    push_plain(out, b"}\n")?;
    Ok(())
}

/// Adds the extended line of an event to `out`, with its line feed.
///
/// Every event has one, and it reads back as the event by
/// [`next_line_in`](crate::next_line_in) with [`Lines::Extended`](crate::Lines::Extended). It is
/// the line that [`push_event`](crate::push_event) adds if
/// [`is_recordable`](crate::is_recordable) returns true. Otherwise it is no line of a transcript: a
/// payload that is no UTF-8 stands in base64, and a length that is not the payload's stands first.
///
/// # Errors
///
/// Fails with `AllocError` if memory runs out. A part of the line may have been added then.
pub fn push_extended_event(
    alloc: Global,
    out: &mut Vec<u8>,
    event: &Event,
) -> Result<(), AllocError>
    ensures text { OnOk result (out.new.items ≡ out.old.items ++ extended_text event.now) }
    ensures line { OnOk result ((rest : List ℕ) → lines_of (extended_text event.now ++ rest) ≡ extended_json event.now ∷ lines_of rest) }
    ensures reads { OnOk result (extended_line (extended_json event.now) ≡ Ok event.now) }
    // It is the line of a transcript where there is one that says the event, and no such line where there is none.
    ensures plain { IsTrue (is_recordable event.now) → OnOk result (out.new.items ≡ out.old.items ++ event_text event.now) }
    ensures refused { is_recordable event.now ≡ false → OnOk result ((other : events.Event) → event_line (extended_json event.now) ≡ Ok other → ⊥) }
{
    push_line(alloc, out, event)?;
    Ok(())
}
