//! Lines in their shortest form, as most lines of a long transcript are. They are read without
//! building a JSON value.

ghost use Rattle.std.specs.Prelude.{◌≡◌, ◌≤◌, ◌<◌, ◌^◌, ◌++◌, ◌∷◌, length, decimal, codes, Ok, IfOk, IfSome};
ghost use Rattle.json.specs.Print.{escape};
ghost use Rattle.js_ordered_table.specs.declared.event.EventKind.TheVariants.{Arrival};
ghost use Rattle.js_tool_transcript.specs.Compact.{IsPlain, SaysCompact, arrival_rest, plain_message};
ghost use Rattle.js_tool_transcript.specs.Event.{event_line as line_in};

use super::payloads::Payloads;
use crate::text::plain_front;
use itoa::Buffer;
use js_base::{Boxed, Message, OutOfMemory, Subject};
use js_ordered_table::{Event, EventKind};
use std::alloc::Global;
use std::str::from_utf8;

/// The content of a line in its shortest form.
#[derive(Clone, Copy)]
pub(crate) enum CompactLine<'l> {
    /// `{"at":1}`
    Tick { at: u64 },
    /// `{"at":1,"arrival":{"inbox":0,"reply":"r","payload":"p"}}`
    Arrival { at: u64, arrival: PlainArrival<'l> },
}

/// The content of an arrival that has exactly these keys in this order, and no escapes in its
/// texts.
#[derive(Clone, Copy)]
pub(crate) struct PlainArrival<'l> {
    pub(crate) inbox: u64,
    pub(crate) reply: &'l str,
    pub(crate) payload: &'l str,
}

/// Reads the event on a line in its shortest form, without building a JSON value: a bare tick, or
/// an arrival with only a reply and a payload. Returns `None` if the line has another form,
/// whatever it contains. The payload is kept in the room that short payloads share.
///
/// Fails only with `OutOfMemory`.
pub fn compact_event(
    alloc: Global,
    payloads: &mut Payloads,
    line: &[u8],
) -> Result<Option<Event>, OutOfMemory>
    ensures { IfOk result (λ found. IfSome found (λ event. line_in line.now ≡ Ok event)) }
{
    match compact_line(line) {
        Some(CompactLine::Tick { at }) => Ok(Some(Event {
            at,
            what: EventKind::Tick,
        })),
        Some(CompactLine::Arrival { at, arrival }) => {
            Ok(Some(arrived(alloc, payloads, at, arrival)?))
        }
        None => Ok(None),
    }
}

fn arrived(
    alloc: Global,
    payloads: &mut Payloads,
    at: u64,
    found: PlainArrival,
) -> Result<Event, OutOfMemory>
    ensures { IfOk result (λ event. event ≡ record { at = at; what = Arrival found.entry.inbox (plain_message found.entry.reply.now found.entry.payload.now) }) }
{
    let reply = Subject::new(alloc, found.reply)?;
    let payload = payloads.keep(alloc, found.payload.as_bytes())?;
    let message = Message {
        subject: Subject::from(String::new(alloc)),
        reply: Some(reply),
        payload,
        headers: None,
        status: None,
        description: None,
        length: found.payload.len() as u64,
    };
    Ok(Event {
        at,
        what: EventKind::Arrival {
            inbox: found.inbox,
            message: Boxed::new(alloc, message)?,
        },
    })
}

/// Reads a line that is a bare tick, or an arrival with only a reply and a payload. Goes over the
/// line's front once, and checks once that its texts are UTF-8.
pub(crate) fn compact_line(line: &[u8]) -> Option<CompactLine<'_>>
    ensures { IfSome result (SaysCompact line.now) }
{
    let (at, rest) = number_after(line, b"{\"at\":")?;
    if rest == b"}".as_slice() {
        return Some(CompactLine::Tick { at });
    }
    let arrival = plain_arrival(rest)?;
    Some(CompactLine::Arrival { at, arrival })
}

// What follows the moment of an arrival.
fn plain_arrival(rest: &[u8]) -> Option<PlainArrival<'_>>
    ensures rest { IfSome result (λ a. rest.now ≡ arrival_rest a.inbox a.reply.now a.payload.now) }
    ensures plain { IfSome result (λ a. IsPlain a.reply.now a.payload.now) }
    ensures small { IfSome result (λ a. a.inbox < 2 ^ 64) }
{
    let (inbox, rest) = number_after(rest, b",\"arrival\":{\"inbox\":")?;
    let (reply, rest) = text_after(rest, b",\"reply\":\"")?;
    let (payload, rest) = text_after(rest, b",\"payload\":\"")?;
    if rest == b"}}".as_slice() {
        return Some(PlainArrival {
            inbox,
            reply,
            payload,
        });
    }
    None
}

// What follows a word.
fn after<'l>(text: &'l [u8], word: &[u8]) -> Option<&'l [u8]>
    ensures { IfSome result (λ rest. text.now ≡ word.now ++ rest.now) }
{
    if text.len() < word.len() {
        return None;
    }
    let (front, rest) = text.split_at(word.len());
    if front == word {
        return Some(rest);
    }
    None
}

// A number in its shortest form behind a word, and what follows it.
fn number_after<'l>(text: &'l [u8], word: &[u8]) -> Option<(u64, &'l [u8])>
    ensures text { IfSome result (λ p. text.now ≡ word.now ++ (decimal p.0 ++ p.1.now)) }
    ensures small { IfSome result (λ p. p.0 < 2 ^ 64) }
{
    let behind = after(text, word)?;
    let (number, end) = digits_front(behind);
    let (digits, rest) = behind.split_at(end);
    let mut buffer = Buffer::new();
    if buffer.format(number).as_bytes() == digits {
        return Some((number, rest));
    }
    None
}

// The number of the digits at the front, if it is not too large, and how many they are.
fn digits_front(text: &[u8]) -> (u64, usize)
    ensures { result.1 ≤ length text.now }
{
    let mut number: u64 = 0;
    let mut count = 0;
    for byte in text {
        if !byte.is_ascii_digit() {
            return (number, count);
        }
        let digit = byte.wrapping_sub(b'0') as u64;
        number = number.wrapping_mul(10).wrapping_add(digit);
        count += 1;
    }
    (number, count)
}

// A text without escapes behind a word, and what follows its quote.
fn text_after<'l>(text: &'l [u8], word: &[u8]) -> Option<(&'l str, &'l [u8])>
    ensures { IfSome result (λ p. (text.now ≡ word.now ++ (p.0.now ++ 34 ∷ p.1.now)) × (escape p.0.now ≡ p.0.now)) }
{
    let behind = after(text, word)?;
    let end = plain_front(behind);
    if end < behind.len() && behind[end] == b'"' {
        return match from_utf8(&behind[..end]) {
            Ok(plain) => Some((plain, &behind[end + 1..])),
            Err(_) => None,
        };
    }
    None
}
