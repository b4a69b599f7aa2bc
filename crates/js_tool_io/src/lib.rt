//! Sources and sinks of a program's bytes, which count their faults, and bytes cut into lines.
//!
//! Reading reads a source whole or fails with the cause. Writing writes a text whole, or fails
//! after writing only its beginning. A line is what stands between two line feeds. You cut lines
//! from bytes in memory or from a source, one after another.
#![tactic(auto)]

mod line_cut;
mod lines;
mod memory;
mod pieces;
mod plain_memory;
mod std_io;
mod transfer;

ghost use Rattle.std.specs.Prelude.{◌≡◌, ◌≤◌, List, ℕ, Option, length};
ghost use Rattle.std.specs.Io.{ReadsAtMost, WritesAtMost};
ghost use Rattle.std.specs.Io.KnownBytes.{ReadConsumes, WriteAppends};
ghost use Rattle.js_tool_io.specs.Causes.{HasCause, HasWriteCause};

pub use line_cut::{cut_line, next_piece};
pub use lines::Lines;
pub use memory::{MemorySink, MemorySource};
pub use pieces::Pieces;
pub use plain_memory::{PlainSink, PlainSource};
pub use std_io::{ReadSource, WriteSink};
pub use transfer::{MOST_BYTES, Stop, read_all, write_all};

/// A read or a write failed, and the count of faults has risen.
#[derive(Clone, Copy, Debug, PartialEq, Eq)]
pub struct Failed;

/// A source of bytes.
pub trait Source {
    /// The bytes that are left, if the source tells them.
    ghost left: { Self → Option (List ℕ) };

    /// How often the source has failed. It never falls, and stops at `u64::MAX`.
    ghost faults: { Self → ℕ };

    /// Reads some bytes into the front of the buffer and returns how many. 0 for a non-empty buffer
    /// means the end. Fails with `Failed` if the source fails.
    fn read(&mut self, buf: &mut [u8]) -> Result<usize, Failed>
        ensures bound { ReadsAtMost result buf.new }
        ensures bytes { ReadConsumes (left self.old) (left self.new) result buf.new }
        ensures cause { HasCause (faults self.old) (faults self.new) result };
}

/// A destination of bytes.
pub trait Sink {
    /// The bytes that were taken, if the sink tells them.
    ghost taken: { Self → Option (List ℕ) };

    /// How often the sink has failed. It never falls, and stops at `u64::MAX`.
    ghost faults: { Self → ℕ };

    /// Takes some bytes off the front of the piece and returns how many. 0 for a non-empty piece is
    /// a fault. Fails with `Failed` if the sink fails.
    fn write(&mut self, piece: &[u8]) -> Result<usize, Failed>
        ensures bound { WritesAtMost result piece.now }
        ensures bytes { WriteAppends (taken self.old) (taken self.new) result piece.now }
        ensures cause { HasWriteCause (faults self.old) (faults self.new) piece.now result };
}
