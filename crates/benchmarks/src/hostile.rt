//! A connection that hears hostile bytes.
//!
//! Each piece is a frame that was cut, changed, or put into another; some frames are whole, so that the connection comes far. After an error that ends a
//! connection it is made again, and after a refusal it goes on, as a program over a socket does.

use crate::wire::{open_inbox, send, take_all, unmade};
use jetstream::connection::{Connection, ConnectionError};
use js_base::OutOfMemory;
use js_link::InboxId;
use rand_core::utils::NextWord;
use rand_pcg::Pcg32;
use std::alloc::{AllocError, Global};
use std::test::Fail;

/// The greatest length of a body that the connection takes, in bytes.
const LONGEST_BODY: u64 = 4_096;

/// What the pieces are made of. The first inbox of a connection has the number 1.
const FRAMES: &[&[u8]] = &[
    b"INFO {\"max_payload\":64,\"headers\":true}\r\n",
    b"MSG a.b 1 5\r\nhello\r\n",
    b"MSG a.b 1 _INBOX.c1.1 12\r\nhello\r\nworld\r\n",
    b"HMSG a.b 1 22 27\r\nNATS/1.0\r\nName: value\r\n\r\nhello\r\n",
    b"HMSG a.b 1 r.s 28 28\r\nNATS/1.0 503 No Responders\r\n\r\n\r\n",
    b"PING\r\n",
    b"PONG\r\n",
    b"+OK\r\n",
    b"-ERR 'Stale Connection'\r\n",
    b"MSG a.b 1 18446744073709551615\r\n",
    b"MSG  a.b   1 0\r\n\r\n",
    b"HMSG a.b 1 99999999999999999999 5\r\n",
];

/// What came of the pieces.
#[derive(Clone, Copy)]
struct Tally {
    messages: u64,
    refusals: u64,
    /// Damaged bytes, headers and INFOs, each of which ended a connection.
    damages: u64,
}

// A number below a bound, which is not 0.
fn below(rng: &mut Pcg32, bound: usize) -> usize {
    match (rng.next_word() as usize).checked_rem(bound) {
        Some(number) => number,
        None => 0,
    }
}

fn frame(rng: &mut Pcg32) -> &'static [u8] {
    FRAMES.get(below(rng, FRAMES.len())).unwrap_or(&FRAMES[0])
}

// Sets a random byte of a piece to a random one, or to one that the protocol uses.
fn change(rng: &mut Pcg32, piece: &mut Vec<u8>) {
    let value = if below(rng, 2) == 0 {
        (rng.next_word() % 256) as u8
    } else {
        b" \r\n0123456789".get(below(rng, 13)).copied().unwrap_or(0)
    };
    let place = below(rng, piece.len());
    if let Some(byte) = piece.get_mut(place) {
        *byte = value;
    }
}

// Makes the next piece.
fn draw(rng: &mut Pcg32, piece: &mut Vec<u8>) -> Result<(), AllocError> {
    piece.clear();
    piece.extend_from_slice(frame(rng))?;
    match below(rng, 8) {
        0 => change(rng, piece),
        1 => piece.truncate(below(rng, piece.len())),
        2 => {
            piece.truncate(below(rng, piece.len()));
            piece.extend_from_slice(frame(rng))?;
        }
        3 => {
            change(rng, piece);
            piece.extend_from_slice(frame(rng))?;
            change(rng, piece);
        }
        _ => {}
    }
    Ok(())
}

// Closes the connection, and makes it again.
fn make_again(connection: &mut Connection) {
    connection.lost();
    connection.made(0);
}

// Counts an error that ends the connection, and makes it again. Fails if memory ran out.
fn end_by(
    connection: &mut Connection,
    tally: &mut Tally,
    error: ConnectionError,
) -> Result<(), OutOfMemory> {
    let is_damage = matches!(
        &error,
        ConnectionError::Damaged { .. }
            | ConnectionError::BadHeaders { .. }
            | ConnectionError::BadInfo { .. }
    );
    drop(error);
    if !is_damage {
        return Err(OutOfMemory);
    }
    tally.damages = tally.damages.saturating_add(1);
    make_again(connection);
    Ok(())
}

// Hears a piece, and what lies behind each refusal in it.
fn hear(
    alloc: Global,
    connection: &mut Connection,
    tally: &mut Tally,
    piece: &[u8],
) -> Result<(), OutOfMemory> {
    let mut bytes = piece;
    for _ in 0..u64::MAX {
        match connection.received(alloc, bytes, 0) {
            Ok(()) => return Ok(()),
            Err(ConnectionError::Refused { text }) => drop(text),
            Err(error) => return end_by(connection, tally, error),
        }
        tally.refusals = tally.refusals.saturating_add(1);
        bytes = &[];
    }
    Ok(())
}

// Hears a piece, takes the messages that came, and sends what is due.
fn hear_and_answer(
    alloc: Global,
    connection: &mut Connection,
    inbox: InboxId,
    tally: &mut Tally,
    piece: &[u8],
) -> Result<(), OutOfMemory> {
    hear(alloc, connection, tally, piece)?;
    tally.messages = tally.messages.saturating_add(take_all(connection, inbox));
    send(alloc, connection)?;
    Ok(())
}

fn hear_all(
    alloc: Global,
    connection: &mut Connection,
    piece: &mut Vec<u8>,
    seed: u64,
    pieces: u64,
) -> Result<Tally, OutOfMemory> {
    let inbox = open_inbox(alloc, connection, "a.b")?;
    let mut rng = Pcg32::new(seed, 1);
    let mut tally = Tally {
        messages: 0,
        refusals: 0,
        damages: 0,
    };
    connection.made(0);
    for _ in 0..pieces {
        draw(&mut rng, piece)?;
        hear_and_answer(alloc, connection, inbox, &mut tally, piece)?;
    }
    Ok(tally)
}

// What comes of pieces that a connection of their own hears.
fn heard(alloc: Global, seed: u64, pieces: u64) -> Result<Tally, OutOfMemory> {
    let mut connection = unmade(alloc, LONGEST_BODY)?;
    let mut piece = Vec::new(alloc);
    let heard = hear_all(alloc, &mut connection, &mut piece, seed, pieces);
    drop(piece);
    drop(connection);
    heard
}

/// Has a connection hear so many hostile pieces, and prints what came of them.
pub fn hear_hostile(rt: &(impl Print + AllocGlobal), seed: u64, pieces: u64) -> Result<(), Fail> {
    let tally = heard(rt.alloc(), seed, pieces)?;
    println!(rt;
        "{} messages, {} refusals, {} damages",
        tally.messages, tally.refusals, tally.damages
    )?;
    Ok(())
}
