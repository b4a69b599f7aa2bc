//! What the threads of the program bring: the server's bytes, and the lines of standard input.

use crossbeam_channel::{Receiver, Sender};
use std::alloc::Global;
use std::fs::File;
use std::io::{BufRead, BufReader, Read};
use std::rt::Files;
use std::sync::Wait;

/// What a thread brings.
#[derive(Drop)]
pub enum Came {
    Bytes(Vec<u8>),
    /// The server's bytes have ended.
    Lost,
    /// There was no memory for the server's next bytes, so no more come.
    OutOfMemory,
    /// A line of standard input, without its line feed.
    Line(Vec<u8>),
    /// The end of standard input: whether it was read to its end, and did not fail.
    NoMoreLines { is_whole: bool },
}

/// Reads a file to its end, and brings what it holds piece by piece. It ends early where nobody
/// listens any more, or memory runs out, which it tells.
pub fn bring_bytes<R: Files<File = File> + Wait>(
    rt: &R,
    alloc: Global,
    from: &str,
    to: &Sender<Came>,
) {
    let mut end = Came::Lost;
    if let Ok(mut file) = File::open(rt, from) {
        if bring_pieces(rt, alloc, &mut file, to).is_none() {
            end = Came::OutOfMemory;
        }
    }
    let _ = to.send(rt, end);
}

// Some at the end of the file, and None where memory ran out, or nobody listens any more.
fn bring_pieces<R: Wait>(rt: &R, alloc: Global, file: &mut File, to: &Sender<Came>) -> Option<()> {
    let mut piece = vec![in alloc; 0_u8; 65_536].ok()?;
    for _ in rt.forever() {
        let count = file.read(&mut piece).unwrap_or(0);
        if count == 0 {
            return Some(());
        }
        let bytes = Vec::from_slice(alloc, &piece[..count]).ok()?;
        to.send(rt, Came::Bytes(bytes)).ok()?;
    }
    Some(())
}

/// Brings lines of bytes, one for each credit, and tells their end.
pub fn bring_lines<R: Wait + Input>(
    rt: &R,
    alloc: Global,
    credits: &Receiver<()>,
    to: &Sender<Came>,
) {
    let Ok(input) = BufReader::new(alloc, rt.reader()) else {
        let _ = to.send(rt, Came::NoMoreLines { is_whole: false });
        return;
    };
    if let Some(is_whole) = bring_each(rt, alloc, input, credits, to) {
        let _ = to.send(rt, Came::NoMoreLines { is_whole });
    }
}

// Whether all was read. None where nobody listens any more.
fn bring_each<R: Wait, I: BufRead + Drop>(
    rt: &R,
    alloc: Global,
    mut input: I,
    credits: &Receiver<()>,
    to: &Sender<Came>,
) -> Option<bool> {
    for _ in rt.forever() {
        credits.recv(rt).ok()?;
        let mut line = Vec::new(alloc);
        match input.read_until(b'\n', &mut line) {
            Ok(0) => return Some(true),
            Ok(_) => {}
            Err(_) => return Some(false),
        }
        if line.last() == Some(&b'\n') {
            let _ = line.pop();
        }
        to.send(rt, Came::Line(line)).ok()?;
    }
    Some(true)
}
