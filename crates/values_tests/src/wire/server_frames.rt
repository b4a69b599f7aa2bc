//! The frames of a server, as `read_frame` reads them.

use crate::tables::says;
use crate::wire::{reply_text, text_in};
use crate::words::word;
use bytes::Bytes;
use js_base::{OutOfMemory, Subject, Text};
use js_link_wire::{Damage, Reading, ServerFrame, read_frame};
use std::alloc::Global;

/// What a server writes, how many bytes a body has at most, and what is read: the length of the frame and what it says.
const FRAMES: &[(&str, u64, &str)] = &[
    (
        "INFO {\"server_id\":\"Zk0GQ3JBSrg3oyxCRRlE09\",\"max_payload\":1048576}\r\n",
        0,
        "67 info {\"server_id\":\"Zk0GQ3JBSrg3oyxCRRlE09\",\"max_payload\":1048576}",
    ),
    (
        "MSG FOO.BAR 9 11\r\nHello World\r\n",
        11,
        "31 message FOO.BAR 9 none Hello World",
    ),
    (
        "MSG FOO.BAR 9 GREETING.34 11\r\nHello World\r\n",
        11,
        "43 message FOO.BAR 9 GREETING.34 Hello World",
    ),
    (
        "MSG FOO.BAR  9   11\r\nHello World\r\n",
        11,
        "34 message FOO.BAR 9 none Hello World",
    ),
    ("MSG FOO.BAR 9 0\r\n\r\n", 0, "19 message FOO.BAR 9 none "),
    (
        "HMSG FOO.BAR 9 34 45\r\nNATS/1.0\r\nFoodGroup: vegetable\r\n\r\nHello World\r\n",
        45,
        "69 headered FOO.BAR 9 none NATS/1.0\r\nFoodGroup: vegetable\r\n\r\n|Hello World",
    ),
    (
        "HMSG FOO.BAR 9 BAZ.69 34 45\r\nNATS/1.0\r\nFoodGroup: vegetable\r\n\r\nHello World\r\n",
        45,
        "76 headered FOO.BAR 9 BAZ.69 NATS/1.0\r\nFoodGroup: vegetable\r\n\r\n|Hello World",
    ),
    (
        "HMSG FOO.BAR 9 16 16\r\nNATS/1.0 503\r\n\r\n\r\n",
        16,
        "40 headered FOO.BAR 9 none NATS/1.0 503\r\n\r\n|",
    ),
    ("PING\r\n", 0, "6 ping"),
    ("PONG\r\n", 0, "6 pong"),
    ("+OK\r\n", 0, "5 taken"),
    (
        "-ERR 'Unknown Protocol Operation'\r\n",
        0,
        "35 refused 'Unknown Protocol Operation'",
    ),
];

/// What no server writes, how many bytes a body has at most, and what is wrong.
const DAMAGED: &[(&str, u64, &str)] = &[
    ("PING\nPONG\r\n", 0, "no carriage return"),
    ("HELLO\r\n", 0, "unknown verb"),
    ("MSG FOO.BAR 9\r\n", 11, "wrong arguments"),
    ("MSG FOO.BAR 9 BAZ.69 11 11\r\n", 11, "wrong arguments"),
    ("HMSG FOO.BAR 9 45\r\n", 45, "wrong arguments"),
    ("HMSG FOO.BAR 9 BAZ.69 34 45 45\r\n", 45, "wrong arguments"),
    ("MSG FOO.BAR nine 11\r\n", 11, "bad number"),
    ("MSG FOO.BAR 9 -1\r\n", 11, "bad number"),
    ("MSG FOO.BAR 9 +11\r\n", 11, "bad number"),
    ("MSG FOO.BAR 18446744073709551616 11\r\n", 11, "bad number"),
    ("HMSG FOO.BAR 9 x 45\r\n", 45, "bad number"),
    (
        "MSG FOO.BAR 9 11\r\nHello World\r\n",
        10,
        "the body is too long",
    ),
    ("HMSG FOO.BAR 9 34 45\r\n", 44, "the body is too long"),
    ("HMSG FOO.BAR 9 46 45\r\n", 45, "the headers are too long"),
    (
        "MSG FOO.BAR 9 11\r\nHello World!\r\n",
        11,
        "no end of the body",
    ),
    (
        "MSG FOO.BAR 9 11\r\nHello World\n\n",
        11,
        "no end of the body",
    ),
];

fn damage_text(damage: Damage) -> &'static str {
    match damage {
        Damage::LineTooLong => "the line is too long",
        Damage::BareLineFeed => "no carriage return",
        Damage::NotText => "no text",
        Damage::UnknownVerb => "unknown verb",
        Damage::WrongArguments => "wrong arguments",
        Damage::BadNumber => "bad number",
        Damage::BodyTooLong => "the body is too long",
        Damage::HeadersTooLong => "the headers are too long",
        Damage::NoLineEnd => "no end of the body",
    }
}

/// What is wrong.
pub(crate) fn damage_word(alloc: Global, damage: Damage) -> Result<String, OutOfMemory> {
    word(alloc, damage_text(damage))
}

fn texted_word(alloc: Global, kind: &str, text: &Text) -> Result<String, OutOfMemory> {
    Ok(format!(in alloc; "{kind} {text}")?)
}

fn message_word(
    alloc: Global,
    subject: &Subject,
    subscription: u64,
    reply: &Option<Subject>,
    payload: &Bytes,
) -> Result<String, OutOfMemory> {
    let reply = reply_text(reply);
    let payload = text_in(payload.as_slice());
    Ok(format!(in alloc; "message {subject} {subscription} {reply} {payload}")?)
}

fn headered_word(
    alloc: Global,
    subject: &Subject,
    subscription: u64,
    reply: &Option<Subject>,
    headers: &Bytes,
    payload: &Bytes,
) -> Result<String, OutOfMemory> {
    let reply = reply_text(reply);
    let headers = text_in(headers.as_slice());
    let payload = text_in(payload.as_slice());
    Ok(format!(in alloc; "headered {subject} {subscription} {reply} {headers}|{payload}")?)
}

fn frame_word(alloc: Global, frame: &ServerFrame) -> Result<String, OutOfMemory> {
    match frame {
        ServerFrame::Info { json } => texted_word(alloc, "info", json),
        ServerFrame::Message {
            subject,
            subscription,
            reply,
            payload,
        } => message_word(alloc, subject, *subscription, reply, payload),
        ServerFrame::HeaderedMessage {
            subject,
            subscription,
            reply,
            headers,
            payload,
        } => headered_word(alloc, subject, *subscription, reply, headers, payload),
        ServerFrame::Ping => word(alloc, "ping"),
        ServerFrame::Pong => word(alloc, "pong"),
        ServerFrame::Taken => word(alloc, "taken"),
        ServerFrame::Refused { text } => texted_word(alloc, "refused", text),
    }
}

/// What a frame says that is let go of.
pub(crate) fn owned_word(alloc: Global, frame: ServerFrame) -> Result<String, OutOfMemory> {
    let said = frame_word(alloc, &frame);
    drop(frame);
    said
}

fn whole_word(alloc: Global, frame: ServerFrame, length: usize) -> Result<String, OutOfMemory> {
    let said = owned_word(alloc, frame)?;
    Ok(format!(in alloc; "{length} {said}")?)
}

// What bytes begin with.
fn read(alloc: Global, bytes: &[u8], most: u64) -> Result<String, OutOfMemory> {
    match read_frame(alloc, bytes, most)? {
        Reading::More => word(alloc, "more"),
        Reading::Whole { frame, length } => whole_word(alloc, frame, length),
        Reading::Damaged(damage) => damage_word(alloc, damage),
    }
}

// All bytes but the last.
fn shortened(bytes: &[u8]) -> &[u8] {
    match bytes {
        [front @ .., _] => front,
        [] => bytes,
    }
}

#[test]
fn frames_of_a_server_are_read(rt: HostRuntime) {
    for &(text, most, wanted) in FRAMES {
        let bytes = text.as_bytes();
        says(&rt, text, read(rt.alloc(), bytes, most), wanted);
        says(&rt, text, read(rt.alloc(), shortened(bytes), most), "more");
    }
}

#[test]
fn what_no_server_writes_is_damaged(rt: HostRuntime) {
    for &(text, most, wanted) in DAMAGED {
        says(&rt, text, read(rt.alloc(), text.as_bytes(), most), wanted);
    }
    let found = read(rt.alloc(), b"MSG \xff 9 11\r\n", 11);
    says(&rt, "bytes", found, "no text");
}

/// The front of a line, how many blanks follow it, the line's end, and what is read. A line has 4,096 bytes at most, as many as a
/// server takes by default, and that of INFO more.
const LINES: &[(&str, usize, &str, &str)] = &[
    ("PING", 4_090, "\r\n", "4096 ping"),
    ("PING", 4_091, "\r\n", "the line is too long"),
    ("PING", 4_091, "", "more"),
    ("PING", 4_092, "", "the line is too long"),
    ("INFO ", 4_091, "", "more"),
];

fn line(alloc: Global, front: &str, blanks: usize, end: &str) -> Result<Vec<u8>, OutOfMemory> {
    let filling = vec![in alloc; b' '; blanks]?;
    let mut bytes = Vec::from_slice(alloc, front.as_bytes())?;
    bytes.extend_from_slice(&filling)?;
    bytes.extend_from_slice(end.as_bytes())?;
    Ok(bytes)
}

fn read_line(alloc: Global, front: &str, blanks: usize, end: &str) -> Result<String, OutOfMemory> {
    let bytes = line(alloc, front, blanks, end)?;
    read(alloc, &bytes, 0)
}

#[test]
fn lines_have_a_longest(rt: HostRuntime) {
    for &(front, blanks, end, wanted) in LINES {
        let found = read_line(rt.alloc(), front, blanks, end);
        says(&rt, wanted, found, wanted);
    }
}
