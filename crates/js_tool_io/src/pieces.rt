//! An input's bytes in pieces that end at line ends, so that each piece can be freed once it is
//! read.

ghost use Rattle.std.specs.Prelude.{◌≡◌, ◌<◌, [], ◌++◌, length, OnOk, OnErr, IfSome, MatchOption};
ghost use Rattle.js_tool_io.specs.Pieces.{EndsLine};

use memchr::memrchr;
use std::alloc::{AllocError, Global};
use std::collections::VecDeque;
use std::marker::Model;
use std::mem;

/// The length in bytes at which a piece is cut. With one more read a piece stays within a mebibyte.
const PIECE: usize = 983_040;

/// Bytes in pieces. Each piece except the last ends with a line feed. Contracts see all the bytes
/// that are left.
#[derive(Drop)]
pub struct Pieces {
    whole: VecDeque<Vec<u8>>,
    rest: Vec<u8>,
}

impl Model for Pieces {
    ghost use Rattle.std.specs.Prelude.{List, ℕ, ◌++◌};
    ghost use Rattle.std.specs.List.{AllByRecursion};
    ghost use Rattle.js_tool_io.specs.Pieces.{joined, EndsLine};

    ghost Value = { List ℕ };

    ghost view = { λ p. joined p.whole.items ++ p.rest.items };

    ghost invariant = { λ p. AllByRecursion (λ piece. EndsLine piece.items) p.whole.items };
}

impl Pieces {
    /// Creates an empty value. Allocates nothing.
    pub fn new(alloc: Global) -> Pieces
        ensures { result ≡ [] }
    {
        Pieces {
            whole: VecDeque::new(alloc),
            rest: Vec::new(alloc),
        }
    }

    /// Adds bytes after all others. If it fails, the bytes are unchanged.
    pub fn add(&mut self, alloc: Global, bytes: &[u8]) -> Result<(), AllocError>
        ensures ok { OnOk result (self.new ≡ self.old ++ bytes.now) }
        ensures err { OnErr result (self.new ≡ self.old) }
    {
        if self.rest.len() >= PIECE {
            self.cut(alloc)?;
        }
        self.rest.extend_from_slice(bytes)
    }

    // What follows the last line feed begins the next piece. The memory is taken first, and no byte moves without it.
    fn cut(&mut self, alloc: Global) -> Result<(), AllocError>
        ensures { self.new ≡ self.old }
    {
        let Some(end) = memrchr(b'\n', &self.rest) else {
            return Ok(());
        };
        self.whole.reserve(1)?;
        let rest = Vec::from_slice(alloc, &self.rest[end + 1..])?;
        self.rest.truncate(end + 1);
        let piece = mem::replace(&mut self.rest, rest);
        self.whole.push_back_reserved(piece);
        Ok(())
    }

    /// Takes off the first piece, or returns `None` if no bytes are left. The piece is not empty,
    /// and ends with a line feed if bytes are left after it.
    pub fn take(&mut self, alloc: Global) -> Option<Vec<u8>>
        ensures bytes { MatchOption result (self.old ≡ []) (λ piece. self.old ≡ piece.items ++ self.new) }
        ensures filled { IfSome result (λ piece. 0 < length piece.items) }
        ensures cut { IfSome result (λ piece. 0 < length self.new → EndsLine piece.items) }
    {
        if let Some(piece) = self.whole.pop_front() {
            return Some(piece);
        }
        if self.rest.is_empty() {
            return None;
        }
        Some(mem::replace(&mut self.rest, Vec::new(alloc)))
    }
}
