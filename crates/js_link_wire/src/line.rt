//! The first line of some bytes.

ghost use Rattle.std.specs.Prelude.{◌≡◌, ◌+◌, length, IfOk};
ghost use Rattle.js_link_wire.specs.Lines.{Gives, line_limit, line_at, without_return, text_of};

use crate::damage::{Damage, Unread};
use memchr::memchr;
use std::str;

/// The greatest length of a line with its line end, in bytes: 4 KiB, as much as a nats-server
/// accepts for a client's line.
pub const LONGEST_LINE: usize = 4_096;
/// The greatest length of a line that begins with `INFO` and a blank, with its line end, in bytes: 1
/// MiB.
pub const LONGEST_INFO: usize = 1_048_576;

fn line_limit(bytes: &[u8]) -> usize
    ensures { result ≡ line_limit bytes.now }
{
    if bytes.starts_with(b"INFO ") {
        LONGEST_INFO
    } else {
        LONGEST_LINE
    }
}

// The first line without its line feed, and what follows. No byte past the limit is looked at.
pub(crate) fn line_at(bytes: &[u8]) -> Result<(&[u8], &[u8]), Unread>
    ensures value { Gives (λ cut. (cut.0.now, cut.1.now)) result (line_at bytes.now) }
    ensures within { IfOk result (λ cut. length cut.0.now + 1 + length cut.1.now ≡ length bytes.now) }
{
    let limit = line_limit(bytes);
    let seen = &bytes[..limit.min(bytes.len())];
    match memchr(b'\n', seen) {
        Some(end) => Ok((&bytes[..end], &bytes[end + 1..])),
        None if bytes.len() < limit => Err(Unread::More),
        None => Err(Unread::Damaged(Damage::LineTooLong)),
    }
}

#[tactic(auto, unfolding(crate::specs::Lines::without_return))]
fn without_return(line: &[u8]) -> Result<&[u8], Unread>
    ensures { Gives (λ text. text.now) result (without_return line.now) }
{
    match line {
        [text @ .., b'\r'] => Ok(text),
        _ => Err(Unread::Damaged(Damage::BareLineFeed)),
    }
}

// The text of a line, without the carriage return that ends it.
#[tactic(auto, unfolding(crate::specs::Lines::text_of))]
pub(crate) fn text_of(line: &[u8]) -> Result<&str, Unread>
    ensures { Gives (λ text. text.now) result (text_of line.now) }
{
    match str::from_utf8(without_return(line)?) {
        Ok(text) => Ok(text),
        Err(_) => Err(Unread::Damaged(Damage::NotText)),
    }
}
