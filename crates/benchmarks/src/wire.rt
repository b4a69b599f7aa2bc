//! A connection that receives messages, or publishes them.

use jetstream::connection::{ConnectOptions, Connection};
use js_base::{OutOfMemory, Text};
use js_link::{InboxId, Link, LinkError, Taken};
use std::alloc::{AllocError, Global};
use std::test::Fail;

/// How many messages the server sends, or the client publishes, at once.
const BATCH: u64 = 1_000;
/// The greatest length of a piece that comes, in bytes.
const PIECE: usize = 65_536;
/// The greatest length of a body that the connection takes, in bytes.
const LONGEST_BODY: u64 = 1_048_576;

const SUBJECT: &str = "log.line";
/// A payload of 128 bytes.
const PAYLOAD: &str =
    "0123456789abcdef0123456789abcdef0123456789abcdef0123456789abcdef0123456789abcdef0123456789abcdef0123456789abcdef0123456789abcdef";

/// A connection that is not made yet, and takes bodies of at most so many bytes. Only memory can be missing.
pub fn unmade(alloc: Global, longest_body: u64) -> Result<Connection, OutOfMemory> {
    let mut options = ConnectOptions::new(alloc, Text::from_str(alloc, "c1")?)?;
    options.longest_body = longest_body;
    let connection = Connection::new(alloc, &options);
    drop(options);
    match connection {
        Ok(connection) => Ok(connection),
        Err(LinkError::Failed | LinkError::OutOfMemory) => Err(OutOfMemory),
    }
}

// Takes bytes of the server. They are whole frames without damage, so only memory can be missing.
fn hear(alloc: Global, connection: &mut Connection, bytes: &[u8]) -> Result<(), OutOfMemory> {
    match connection.received(alloc, bytes, 0) {
        Ok(()) => Ok(()),
        Err(error) => {
            drop(error);
            Err(OutOfMemory)
        }
    }
}

/// Writes what is due, tells it as sent, and answers how many bytes it has.
pub fn send(alloc: Global, connection: &mut Connection) -> Result<u64, OutOfMemory> {
    if let Err(error) = connection.write(alloc) {
        drop(error);
        return Err(OutOfMemory);
    }
    let count = connection.to_send().len();
    connection.sent(count);
    Ok(count as u64)
}

// Has the connection greet a server.
fn greet(alloc: Global, connection: &mut Connection) -> Result<(), OutOfMemory> {
    connection.made(0);
    hear(alloc, connection, b"INFO {\"max_payload\":1048576}\r\n")?;
    send(alloc, connection)?;
    Ok(())
}

/// Opens an inbox for a subject. Only memory can be missing.
pub fn open_inbox(
    alloc: Global,
    connection: &mut Connection,
    subject: &str,
) -> Result<InboxId, OutOfMemory> {
    match connection.link_mut().subscribe(alloc, subject, None) {
        Ok(inbox) => Ok(inbox),
        Err(LinkError::Failed | LinkError::OutOfMemory) => Err(OutOfMemory),
    }
}

// The frames of a batch.
fn frames(alloc: Global, inbox: InboxId) -> Result<Vec<u8>, AllocError> {
    let number = inbox.0;
    let frame = format!(in alloc; "MSG {SUBJECT} {number} 128\r\n{PAYLOAD}\r\n")?;
    let frames = repeated(alloc, frame.as_bytes());
    drop(frame);
    frames
}

fn repeated(alloc: Global, frame: &[u8]) -> Result<Vec<u8>, AllocError> {
    let mut frames = Vec::new(alloc);
    for _ in 0..BATCH {
        frames.extend_from_slice(frame)?;
    }
    Ok(frames)
}

/// How many messages lie in an inbox, which is then empty.
pub fn take_all(connection: &mut Connection, inbox: InboxId) -> u64 {
    let mut count: u64 = 0;
    for _ in 0..u64::MAX {
        match connection.link_mut().take(inbox) {
            Taken::Message(message) => drop(message),
            Taken::Empty | Taken::Closed => break,
        }
        count = count.saturating_add(1);
    }
    count
}

// Takes the frames piece by piece, and answers how many messages came.
fn receive(
    alloc: Global,
    connection: &mut Connection,
    inbox: InboxId,
    frames: &[u8],
) -> Result<u64, OutOfMemory> {
    let mut received: u64 = 0;
    for piece in frames.chunks(PIECE) {
        hear(alloc, connection, piece)?;
        received = received.saturating_add(take_all(connection, inbox));
    }
    Ok(received)
}

fn receive_all(
    alloc: Global,
    connection: &mut Connection,
    inbox: InboxId,
    frames: &[u8],
    batches: u64,
) -> Result<u64, OutOfMemory> {
    let mut received: u64 = 0;
    for _ in 0..batches {
        received = received.saturating_add(receive(alloc, connection, inbox, frames)?);
    }
    Ok(received)
}

fn greet_and_receive(
    alloc: Global,
    connection: &mut Connection,
    batches: u64,
) -> Result<u64, OutOfMemory> {
    let inbox = open_inbox(alloc, connection, SUBJECT)?;
    greet(alloc, connection)?;
    let frames = frames(alloc, inbox)?;
    let received = receive_all(alloc, connection, inbox, &frames, batches);
    drop(frames);
    received
}

// How many messages are received over a connection of their own.
fn received(alloc: Global, batches: u64) -> Result<u64, OutOfMemory> {
    let mut connection = unmade(alloc, LONGEST_BODY)?;
    let received = greet_and_receive(alloc, &mut connection, batches);
    drop(connection);
    received
}

/// Has a connection receive so many messages, and prints how many came.
pub fn receive_messages(rt: &(impl Print + AllocGlobal), messages: u64) -> Result<(), Fail> {
    let received = received(rt.alloc(), messages / BATCH)?;
    println!(rt; "{received} received")?;
    Ok(())
}

// Publishes the messages of a batch. Only memory can be missing.
fn publish(alloc: Global, connection: &mut Connection) -> Result<(), OutOfMemory> {
    for _ in 0..BATCH {
        let link = connection.link_mut();
        let published = link.publish(alloc, SUBJECT, None, None, PAYLOAD.as_bytes());
        if published.is_err() {
            return Err(OutOfMemory);
        }
    }
    Ok(())
}

fn publish_all(
    alloc: Global,
    connection: &mut Connection,
    batches: u64,
) -> Result<u64, OutOfMemory> {
    let mut sent: u64 = 0;
    for _ in 0..batches {
        publish(alloc, connection)?;
        sent = sent.saturating_add(send(alloc, connection)?);
    }
    Ok(sent)
}

// How many bytes are sent of the messages that are published over a connection of their own.
fn sent(alloc: Global, batches: u64) -> Result<u64, OutOfMemory> {
    let mut connection = unmade(alloc, LONGEST_BODY)?;
    let sent = match greet(alloc, &mut connection) {
        Ok(()) => publish_all(alloc, &mut connection, batches),
        Err(OutOfMemory) => Err(OutOfMemory),
    };
    drop(connection);
    sent
}

/// Has a connection publish so many messages, and prints how many bytes it sends.
pub fn send_messages(rt: &(impl Print + AllocGlobal), messages: u64) -> Result<(), Fail> {
    let sent = sent(rt.alloc(), messages / BATCH)?;
    println!(rt; "{sent} bytes sent")?;
    Ok(())
}
