//! The lines of some bytes, read one after another.

ghost use Rattle.std.specs.Prelude.{◌≡◌, ◌≤◌, length};
ghost use Rattle.js_tool_io.specs.Lines.{lines_of, IsRead};

use crate::Pieces;
use crate::line_cut::{line_at, next_piece};
use std::alloc::Global;
use std::marker::Model;

/// The lines of some bytes, which are freed as they are read. Contracts see the line that was read,
/// and those that are left.
#[derive(Drop)]
pub struct Lines {
    pieces: Pieces,
    piece: Vec<u8>,
    from: usize,
    count: usize,
    next: usize,
}

impl Model for Lines {
    ghost use Rattle.std.specs.Prelude.{◌++◌, ◌+◌, ◌≤◌, take, drop, vec_len};
    ghost use Rattle.js_tool_io.specs.Lines.{lines_of, Reading};

    ghost Value = { Reading };

    ghost view = { λ l. record { line = take l.count (drop l.from l.piece.items); left = lines_of (drop l.next l.piece.items) ++ lines_of l.pieces } };

    ghost invariant = { λ l. (l.from + l.count ≤ vec_len l.piece) × (l.next ≤ vec_len l.piece) };
}

impl Lines {
    /// Creates a reader of the lines of these bytes; there are at most as many lines as bytes. No
    /// line is read yet. Allocates nothing.
    #[tactic(auto, using(crate::proofs::Cuts::fewer_lines))]
    pub fn new(alloc: Global, bytes: Pieces) -> Lines
        ensures lines { result.left ≡ lines_of bytes }
        ensures fewer { length result.left ≤ length bytes }
    {
        Lines {
            pieces: bytes,
            piece: Vec::new(alloc),
            from: 0,
            count: 0,
            next: 0,
        }
    }

    /// Reads the next line and returns `true`, or returns `false` if none is left.
    pub fn read(&mut self, alloc: Global) -> bool
        ensures { IsRead result self.old self.new }
    {
        if self.next == self.piece.len() {
            let Some(piece) = next_piece(alloc, &mut self.pieces) else {
                return false;
            };
            self.piece = piece;
            self.next = 0;
        }
        let (count, next) = line_at(&self.piece, self.next);
        self.from = self.next;
        self.count = count;
        self.next = next;
        true
    }

    /// Returns the line that was read last, without its line feed.
    pub fn line(&self) -> &[u8]
        ensures { result.now ≡ self.now.line }
    {
        &self.piece[self.from..][..self.count]
    }
}
