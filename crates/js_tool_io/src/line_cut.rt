//! Cutting the first line, or the first piece, off some bytes.

ghost use Rattle.std.specs.Prelude.{◌≡◌, ◌<◌, ◌≤◌, ◌+◌, ◌-◌, ◌++◌, [], ◌∷◌, length, take, drop, IfSome, MatchOption};
ghost use Rattle.js_tool_io.specs.Lines.{lines_of};

use crate::Pieces;
use memchr::memchr;
use std::alloc::Global;

/// Returns the first line, and what follows its line feed. `bytes` has to be non-empty.
pub fn cut_line(bytes: &[u8]) -> (&[u8], &[u8])
    requires { 0 < length bytes.now }
    ensures line { lines_of bytes.now ≡ result.0.now ∷ lines_of result.1.now }
    ensures shorter { length result.1.now < length bytes.now }
    ensures front { take (length result.0.now) bytes.now ≡ result.0.now }
    ensures rest { drop (length bytes.now - length result.1.now) bytes.now ≡ result.1.now }
    ensures within { length result.0.now ≤ length bytes.now }
{
    match memchr(b'\n', bytes) {
        Some(end) => (&bytes[..end], &bytes[end + 1..]),
        None => (bytes, &[]),
    }
}

/// Returns the length of the line at this place, and where the next one begins.
pub(crate) fn line_at(bytes: &[u8], at: usize) -> (usize, usize)
    requires { at < length bytes.now }
    ensures line { lines_of (drop at bytes.now) ≡ take result.0 (drop at bytes.now) ∷ lines_of (drop result.1 bytes.now) }
    ensures within { at + result.0 ≤ length bytes.now }
    ensures next { result.1 ≤ length bytes.now }
{
    let (line, rest) = cut_line(&bytes[at..]);
    (line.len(), bytes.len() - rest.len())
}

/// Takes off the first piece of the bytes, which has the first of their lines. Returns `None` if no
/// bytes are left.
pub fn next_piece(alloc: Global, bytes: &mut Pieces) -> Option<Vec<u8>>
    ensures lines { MatchOption result (bytes.old ≡ []) (λ piece. lines_of bytes.old ≡ lines_of piece.items ++ lines_of bytes.new) }
    ensures filled { IfSome result (λ piece. 0 < length piece.items) }
    ensures length { IfSome result (λ piece. length bytes.old ≡ length piece.items + length bytes.new) }
{
    bytes.take(alloc)
}
