//! Frames that are read off bytes as these come in pieces.

use crate::tables::{printed, says};
use crate::wire::server_frames::{damage_word, owned_word};
use crate::words::word;
use js_base::OutOfMemory;
use js_link_wire::{Damage, FrameError, FrameReader};
use std::alloc::Global;

/// What a server writes.
const WRITTEN: &str =
    "INFO {\"max_payload\":45}\r\n+OK\r\nPING\r\nMSG FOO.BAR 9 11\r\nHello World\r\nHMSG FOO.BAR 9 BAZ.69 34 45\r\nNATS/1.0\r\nFoodGroup: vegetable\r\n\r\nHello World\r\nPONG\r\n-ERR 'Unknown Protocol Operation'\r\n";

/// What is no frame, and a frame behind it.
const DAMAGED: &[u8] = b"HELLO\r\nPING\r\n";

/// What is read of it all, a line each. The damage stays in its place.
const READ: &str =
    "info {\"max_payload\":45}\ntaken\nping\nmessage FOO.BAR 9 none Hello World\nheadered FOO.BAR 9 BAZ.69 NATS/1.0\r\nFoodGroup: vegetable\r\n\r\n|Hello World\npong\nrefused 'Unknown Protocol Operation'\nunknown verb\nunknown verb\n";

/// How many bytes a piece has.
const SIZES: &[usize] = &[1, 3, 4_096];

fn next_word(alloc: Global, reader: &mut FrameReader) -> Result<String, OutOfMemory> {
    match reader.next(alloc) {
        Ok(Some(frame)) => owned_word(alloc, frame),
        Ok(None) => word(alloc, ""),
        Err(FrameError::Damaged(damage)) => damage_word(alloc, damage),
        Err(FrameError::OutOfMemory) => Err(OutOfMemory),
    }
}

// Adds what comes next, if anything does.
fn add_next(
    alloc: Global,
    reader: &mut FrameReader,
    words: &mut String,
) -> Result<(), OutOfMemory> {
    let next = next_word(alloc, reader)?;
    if !next.is_empty() {
        words.push_str(next.as_str())?;
        words.push_str("\n")?;
    }
    Ok(())
}

// Pushes what the server writes in pieces, and reads behind each.
fn add_pieces(
    alloc: Global,
    reader: &mut FrameReader,
    words: &mut String,
    size: usize,
) -> Result<(), OutOfMemory> {
    if size == 0 {
        return Ok(());
    }
    for piece in WRITTEN.as_bytes().chunks(size) {
        reader.push(alloc, piece)?;
        add_next(alloc, reader, words)?;
    }
    Ok(())
}

// Reads as often as there are frames.
fn add_rest(
    alloc: Global,
    reader: &mut FrameReader,
    words: &mut String,
) -> Result<(), OutOfMemory> {
    for _ in 0..7 {
        add_next(alloc, reader, words)?;
    }
    Ok(())
}

// Pushes what is no frame, and reads twice.
fn add_damage(
    alloc: Global,
    reader: &mut FrameReader,
    words: &mut String,
) -> Result<(), OutOfMemory> {
    reader.push(alloc, DAMAGED)?;
    add_next(alloc, reader, words)?;
    add_next(alloc, reader, words)
}

// What is read, a line each.
fn read_in_pieces(alloc: Global, size: usize) -> Result<String, OutOfMemory> {
    let mut reader = FrameReader::new(alloc, 0);
    let mut words = String::new(alloc);
    reader.set_most(45);
    add_pieces(alloc, &mut reader, &mut words, size)?;
    add_rest(alloc, &mut reader, &mut words)?;
    add_damage(alloc, &mut reader, &mut words)?;
    Ok(words)
}

#[test]
fn pieces_may_have_any_size(rt: HostRuntime) {
    for &size in SIZES {
        says(&rt, "pieces", read_in_pieces(rt.alloc(), size), READ);
    }
}

/// Why no frame was read, and what is printed of it.
const PRINTED: &[(FrameError, &str)] = &[
    (FrameError::Damaged(Damage::UnknownVerb), "damaged bytes"),
    (FrameError::OutOfMemory, "out of memory"),
];

#[test]
fn what_keeps_a_frame_from_being_read_is_printed(rt: HostRuntime) {
    for &(error, wanted) in PRINTED {
        says(&rt, wanted, printed(rt.alloc(), error), wanted);
    }
}
