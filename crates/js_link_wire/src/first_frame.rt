//! Reads the first frame of some bytes.

ghost use Rattle.std.specs.Prelude.{◌≡◌, ◌≤◌, ◌<◌, IfOk, length};
ghost use Rattle.js_link_wire.specs.Lines.{Gives};
ghost use Rattle.js_link_wire.specs.Views.{sight};
ghost use Rattle.js_link_wire.specs.FirstFrame.{said, frame_of, first_frame, read, IsWithin};

use crate::damage::{Damage, Unread};
use crate::frame::{ServerFrame, View, frame_of_view};
use crate::line::{line_at, text_of};
use crate::message::{headered_message_of, message_of};
use js_base::OutOfMemory;
use std::alloc::Global;

/// What some bytes begin with.
#[derive(Debug, Drop)]
pub enum Reading {
    /// Less than a whole frame. Read again when more bytes have come.
    More,
    /// A frame.
    Whole {
        /// The frame that the server sent.
        frame: ServerFrame,
        /// The number of bytes of the frame, at the front of the bytes. At least one.
        length: usize,
    },
    /// Not a frame, whatever follows.
    Damaged(Damage),
}

#[tactic(auto, unfolding(crate::specs::FirstFrame::said))]
fn said<'a>(
    verb: &str,
    text: &'a str,
    rest: &'a [u8],
    most: u64,
) -> Result<(View<'a>, usize), Unread>
    ensures value { Gives sight result (said most verb.now text.now rest.now) }
    ensures within { IfOk result (λ found. found.1 ≤ length rest.now) }
{
    if verb == "MSG" {
        return message_of(text, rest, most);
    }
    if verb == "HMSG" {
        return headered_message_of(text, rest, most);
    }
    if verb == "PING" {
        return Ok((View::Ping, 0));
    }
    if verb == "PONG" {
        return Ok((View::Pong, 0));
    }
    if verb == "+OK" {
        return Ok((View::Taken, 0));
    }
    if verb == "-ERR" {
        return Ok((View::Refused { text }, 0));
    }
    if verb == "INFO" {
        return Ok((View::Info { json: text }, 0));
    }
    Err(Unread::Damaged(Damage::UnknownVerb))
}

fn frame_of<'a>(text: &'a str, rest: &'a [u8], most: u64) -> Result<(View<'a>, usize), Unread>
    ensures value { Gives sight result (frame_of most text.now rest.now) }
    ensures within { IfOk result (λ found. found.1 ≤ length rest.now) }
{
    match text.split_once(' ') {
        Some((verb, text)) => said(verb, text, rest, most),
        None => said(text, "", rest, most),
    }
}

// The first frame where its bytes lie, and how many bytes it has.
#[tactic(auto, unfolding(crate::specs::FirstFrame::first_frame))]
fn first_frame(bytes: &[u8], most: u64) -> Result<(View<'_>, usize), Unread>
    ensures value { Gives sight result (first_frame most bytes.now) }
    ensures within { IfOk result (λ found. found.1 ≤ length bytes.now) }
    ensures some { IfOk result (λ found. 0 < found.1) }
{
    let (line, rest) = line_at(bytes)?;
    let text = text_of(line)?;
    let (frame, more) = frame_of(text, rest, most)?;
    Ok((frame, line.len() + 1 + more))
}

/// Reads the first frame of some bytes. A message's body, which is its headers and payload together,
/// has at most `most` bytes: the `max_payload` that the server told in its INFO. What follows the
/// frame does not matter. Fails only with [`OutOfMemory`]; you can then read the same bytes again.
#[tactic(auto, unfolding(crate::specs::FirstFrame::read))]
pub fn read_frame(alloc: Global, bytes: &[u8], most: u64) -> Result<Reading, OutOfMemory>
    ensures value { IfOk result (λ reading. reading ≡ read most bytes.now) }
    ensures within { IfOk result (λ reading. IsWithin reading (length bytes.now)) }
{
    match first_frame(bytes, most) {
        Ok((view, length)) => {
            let frame = frame_of_view(alloc, view)?;
            Ok(Reading::Whole { frame, length })
        }
        Err(Unread::More) => Ok(Reading::More),
        Err(Unread::Damaged(damage)) => Ok(Reading::Damaged(damage)),
    }
}
