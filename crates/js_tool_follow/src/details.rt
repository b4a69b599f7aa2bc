//! The lines that say more of a message that was handed out.

ghost use Rattle.std.specs.Prelude.{◌≡◌, ◌++◌, ◌∷◌, [], flat_map, if◌then◌else◌, IfOk, OnOk};
ghost use Rattle.std.specs.Str.{is_utf8};
ghost use Rattle.js_base.specs.Headers.{pairs};
ghost use Rattle.js_tool_follow.specs.Details.{details_line, details_text, header_line, headers_text, held, is_at, message_text, messages_at, payload_text, reply_text, text_at};

use base64::engine::general_purpose::STANDARD;
use js_base::{HeaderMap, Items, Message, OutOfMemory, Subject, TryClone, both};
use js_message::parse_info;
use js_ordered_table::{Event, EventKind, Output, Phase, place_of};
use js_tool_transcript::{Cell, push_line};
use std::alloc::{AllocError, Global};
use std::str::from_utf8;

// ---- the messages that an event can hand out

// Copies of the messages that a consumer holds.
fn held_messages(alloc: Global, phase: &Phase) -> Result<Items<Message>, OutOfMemory>
    ensures { IfOk result (λ copies. copies ≡ held phase.now) }
{
    match phase {
        Phase::Recreates(recreation) => match &recreation.opened {
            Some(opened) => opened.held.try_clone(),
            None => Ok(Items::new(alloc)),
        },
        Phase::Pulls(_) => Ok(Items::new(alloc)),
        Phase::Pushes { .. } => Ok(Items::new(alloc)),
        Phase::Idle => Ok(Items::new(alloc)),
        Phase::Ended => Ok(Items::new(alloc)),
        Phase::Exhausted => Ok(Items::new(alloc)),
    }
}

// Copies of those, and of a message that arrives behind them.
fn held_and_one(
    alloc: Global,
    phase: &Phase,
    message: &Message,
) -> Result<Items<Message>, OutOfMemory>
    ensures { IfOk result (λ copies. copies ≡ held phase.now ++ message.now ∷ []) }
{
    let (mut copies, copy) = both(held_messages(alloc, phase), message.try_clone())?;
    match copies.push(copy) {
        Ok(()) => Ok(copies),
        Err(OutOfMemory) => {
            drop(copies);
            Err(OutOfMemory)
        }
    }
}

fn messages_in(alloc: Global, phase: &Phase, event: &Event) -> Result<Items<Message>, OutOfMemory>
    ensures { IfOk result (λ copies. copies ≡ messages_at phase.now event.now) }
{
    match &event.what {
        EventKind::Arrival { inbox: _, message } => held_and_one(alloc, phase, message.get()),
        EventKind::Tick => held_messages(alloc, phase),
        EventKind::Answer {
            request: _,
            reply: _,
        } => held_messages(alloc, phase),
        EventKind::Link { up: _ } => held_messages(alloc, phase),
        EventKind::Connection { state: _ } => held_messages(alloc, phase),
        EventKind::WatcherEnded => held_messages(alloc, phase),
    }
}

/// Returns copies of the messages that an event can hand out: those that the consumer holds before
/// it, and the one that arrives. Returns none if they are not asked for. Fails with `OutOfMemory` if
/// memory runs out.
pub(crate) fn messages_of(
    alloc: Global,
    asked: bool,
    phase: &Phase,
    event: &Event,
) -> Result<Items<Message>, OutOfMemory>
    ensures { IfOk result (λ copies. copies ≡ (if asked then messages_at phase.now event.now else [])) }
{
    if asked {
        messages_in(alloc, phase, event)
    } else {
        Ok(Items::new(alloc))
    }
}

// ---- what is told of a message

fn push_reply(
    out: &mut Vec<u8>,
    step: u64,
    sequence: u64,
    reply: &Option<Subject>,
) -> Result<(), AllocError>
    ensures { OnOk result (out.new.items ≡ out.old.items ++ reply_text step sequence reply.now) }
{
    let Some(reply) = reply else {
        return Ok(());
    };
    match parse_info(reply.as_str()) {
        Ok(info) => push_line(
            out,
            &[
                Cell::Number(step),
                Cell::Text(b"details"),
                Cell::Number(sequence),
                Cell::Digits(info.published.as_nanosecond()),
                Cell::Number(info.pending),
            ],
        ),
        Err(_) => Ok(()),
    }
}

fn push_header<'a>(
    out: &mut Vec<u8>,
    step: u64,
    sequence: u64,
    name: &'a str,
    value: &'a str,
) -> Result<(), AllocError>
    ensures { OnOk result (out.new.items ≡ out.old.items ++ header_line step sequence (name.now, value.now)) }
{
    push_line(
        out,
        &[
            Cell::Number(step),
            Cell::Text(b"header"),
            Cell::Number(sequence),
            Cell::Text(name.as_bytes()),
            Cell::Text(value.as_bytes()),
        ],
    )
}

fn push_each_header(
    out: &mut Vec<u8>,
    step: u64,
    sequence: u64,
    headers: &HeaderMap,
) -> Result<(), AllocError>
    ensures { OnOk result (out.new.items ≡ out.old.items ++ flat_map (header_line step sequence) (pairs headers.now)) }
{
    for header in headers.iter() {
        push_header(out, step, sequence, header.0, header.1)?;
    }
    Ok(())
}

fn push_headers(
    out: &mut Vec<u8>,
    step: u64,
    sequence: u64,
    headers: &Option<HeaderMap>,
) -> Result<(), AllocError>
    ensures { OnOk result (out.new.items ≡ out.old.items ++ headers_text step sequence headers.now) }
{
    match headers {
        None => Ok(()),
        Some(headers) => push_each_header(out, step, sequence, headers),
    }
}

fn is_text(bytes: &[u8]) -> bool
    ensures { result ≡ is_utf8 bytes.now }
{
    match from_utf8(bytes) {
        Ok(_) => true,
        Err(_) => false,
    }
}

fn push_payload(
    out: &mut Vec<u8>,
    step: u64,
    sequence: u64,
    payload: &[u8],
) -> Result<(), AllocError>
    ensures { OnOk result (out.new.items ≡ out.old.items ++ payload_text step sequence payload.now) }
{
    if is_text(payload) {
        return Ok(());
    }
    let text = STANDARD.encode(*out.allocator(), payload)?;
    push_line(
        out,
        &[
            Cell::Number(step),
            Cell::Text(b"payload_base64"),
            Cell::Number(sequence),
            Cell::Text(text.as_bytes()),
        ],
    )
}

fn push_message(
    out: &mut Vec<u8>,
    step: u64,
    sequence: u64,
    message: &Message,
) -> Result<(), AllocError>
    ensures { OnOk result (out.new.items ≡ out.old.items ++ message_text step sequence message.now) }
{
    push_reply(out, step, sequence, &message.reply)?;
    push_headers(out, step, sequence, &message.headers)?;
    push_payload(out, step, sequence, message.payload.as_slice())
}

// ---- of a message that was handed out

// Whether the reply of a message says these sequences of its stream and of its consumer.
fn is_message_at(sequence: u64, number: u64, message: &Message) -> bool
    ensures { result ≡ is_at sequence number message.now }
{
    match place_of(message) {
        None => false,
        Some(place) => place.sequence == sequence && place.number == number,
    }
}

// The lines of the first message that has these sequences.
fn push_first_at(
    out: &mut Vec<u8>,
    step: u64,
    sequence: u64,
    number: u64,
    messages: &[Message],
) -> Result<(), AllocError>
    ensures { OnOk result (out.new.items ≡ out.old.items ++ text_at step sequence number messages.now) }
{
    for message in messages {
        if is_message_at(sequence, number, message) {
            return push_message(out, step, sequence, message);
        }
    }
    Ok(())
}

fn push_output_details(
    out: &mut Vec<u8>,
    step: u64,
    messages: &[Message],
    output: &Output,
) -> Result<(), AllocError>
    ensures { OnOk result (out.new.items ≡ out.old.items ++ details_line step messages.now output.now) }
{
    match output {
        Output::Yield {
            stream_sequence,
            consumer_sequence,
            ..
        } => push_first_at(out, step, *stream_sequence, *consumer_sequence, messages),
        Output::Item { .. } => Ok(()),
        Output::Recreate { .. } => Ok(()),
        Output::Request { .. } => Ok(()),
        Output::Publish { .. } => Ok(()),
        Output::Subscribe { .. } => Ok(()),
    }
}

/// Adds for each output that hands out one of these messages the lines that say more of the
/// message. Adds nothing if they are not asked for.
pub(crate) fn push_details(
    out: &mut Vec<u8>,
    asked: bool,
    step: u64,
    messages: &[Message],
    outputs: &[Output],
) -> Result<(), AllocError>
    ensures { OnOk result (out.new.items ≡ out.old.items ++ details_text asked step messages.now outputs.now) }
{
    if asked {
        push_each_details(out, step, messages, outputs)
    } else {
        Ok(())
    }
}

fn push_each_details(
    out: &mut Vec<u8>,
    step: u64,
    messages: &[Message],
    outputs: &[Output],
) -> Result<(), AllocError>
    ensures { OnOk result (out.new.items ≡ out.old.items ++ flat_map (details_line step messages.now) outputs.now) }
{
    for output in outputs {
        push_output_details(out, step, messages, output)?;
    }
    Ok(())
}
