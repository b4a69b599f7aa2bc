//! The messages of a server's frames, as `message_of_frame` makes them.

use crate::tables::{printed, says};
use crate::wire::{block_word, reply_text, text_in};
use crate::words::word;
use js_base::OutOfMemory;
use js_link_wire::{Incoming, Reading, ServerFrame, message_of_frame, read_frame};
use std::alloc::Global;

/// What a server writes, and its message: the subscription, the subject, the reply subject, the length of all but the frame's own
/// words, the payload, and what the headers say.
const MESSAGES: &[(&str, &str)] = &[
    (
        "MSG FOO.BAR 9 11\r\nHello World\r\n",
        "9 FOO.BAR none 18 Hello World none none none",
    ),
    (
        "MSG FOO.BAR 9 GREETING.34 11\r\nHello World\r\n",
        "9 FOO.BAR GREETING.34 29 Hello World none none none",
    ),
    (
        "HMSG FOO.BAR 9 BAZ.69 34 45\r\nNATS/1.0\r\nFoodGroup: vegetable\r\n\r\nHello World\r\n",
        "9 FOO.BAR BAZ.69 58 Hello World none none FoodGroup=vegetable;",
    ),
    (
        "HMSG FOO.BAR 9 16 16\r\nNATS/1.0 503\r\n\r\n\r\n",
        "9 FOO.BAR none 23  503 none ",
    ),
    (
        "HMSG FOO.BAR 9 28 28\r\nNATS/1.0 404 No Messages\r\n\r\n\r\n",
        "9 FOO.BAR none 35  404 No Messages ",
    ),
    (
        "HMSG FOO.BAR 9 12 23\r\nNATS/2.0\r\n\r\nHello World\r\n",
        "damaged headers",
    ),
    ("INFO {}\r\n", "no message"),
    ("PING\r\n", "no message"),
    ("PONG\r\n", "no message"),
    ("+OK\r\n", "no message"),
    ("-ERR 'Unknown Protocol Operation'\r\n", "no message"),
];

fn incoming_word(alloc: Global, incoming: &Incoming) -> Result<String, OutOfMemory> {
    let message = &incoming.message;
    let block = block_word(
        alloc,
        message.status,
        &message.description,
        message.headers.as_ref(),
    )?;
    let subscription = incoming.subscription;
    let subject = message.subject.as_str();
    let reply = reply_text(&message.reply);
    let length = message.length;
    let payload = text_in(message.payload.as_slice());
    Ok(format!(in alloc; "{subscription} {subject} {reply} {length} {payload} {block}")?)
}

fn owned_word(alloc: Global, incoming: Incoming) -> Result<String, OutOfMemory> {
    let said = incoming_word(alloc, &incoming);
    drop(incoming);
    said
}

fn message_word(alloc: Global, frame: ServerFrame) -> Result<String, OutOfMemory> {
    match message_of_frame(alloc, frame) {
        Ok(Some(incoming)) => owned_word(alloc, incoming),
        Ok(None) => word(alloc, "no message"),
        Err(error) => printed(alloc, error),
    }
}

// The message of the frame that a text begins with.
fn received(alloc: Global, text: &str) -> Result<String, OutOfMemory> {
    match read_frame(alloc, text.as_bytes(), 45)? {
        Reading::Whole { frame, .. } => message_word(alloc, frame),
        Reading::More => word(alloc, "more"),
        Reading::Damaged(_) => word(alloc, "damaged"),
    }
}

#[test]
fn frames_bring_messages(rt: HostRuntime) {
    for &(text, wanted) in MESSAGES {
        says(&rt, text, received(rt.alloc(), text), wanted);
    }
}
