//! Reads frames from bytes that come in pieces.

ghost use Rattle.std.specs.Prelude.{◌≡◌, ◌++◌, [], OnOk, OnErr};
ghost use Rattle.js_link_wire.specs.FrameReader.{Reads};

use crate::damage::Damage;
use crate::first_frame::{Reading, read_frame};
use crate::frame::ServerFrame;
use js_base::OutOfMemory;
use std::alloc::Global;
use std::marker::Model;
use std::{error, fmt};

/// Why no frame was read.
#[derive(Clone, Copy, Debug, PartialEq, Eq)]
pub enum FrameError {
    /// The bytes do not begin with a frame, whatever follows them. Each further call fails in the
    /// same way.
    Damaged(Damage),
    /// Memory ran out. The frame can still be read.
    OutOfMemory,
}

impl fmt::Display for FrameError {
    fn fmt<W: fmt::Write>(&self, f: &mut fmt::Formatter<W>) -> fmt::Result {
        f.write_str(match self {
            FrameError::Damaged(_) => "damaged bytes",
            FrameError::OutOfMemory => "out of memory",
        })
    }
}

impl error::Error for FrameError {}

/// Collects what a server wrote, in pieces as they come, and reads frames from it. Contracts see the
/// bytes that were not read as frames yet, and the greatest length of a body in bytes.
#[derive(Drop)]
pub struct FrameReader {
    held: Vec<u8>,
    next: usize,
    most: u64,
}

impl Model for FrameReader {
    ghost use Rattle.std.specs.Prelude.{◌≤◌, drop, vec_len};
    ghost use Rattle.js_link_wire.specs.FrameReader.{Coming};

    ghost Value = { Coming };

    ghost view = { λ r. record { left = drop r.next r.held.items; most = r.most } };

    ghost invariant = { λ r. r.next ≤ vec_len r.held };
}

impl FrameReader {
    /// Creates a reader without bytes. It allocates nothing. A message's body, which is its headers
    /// and payload together, has at most `most` bytes.
    pub fn new(alloc: Global, most: u64) -> FrameReader
        ensures left { result.left ≡ [] }
        ensures most { result.most ≡ most }
    {
        FrameReader {
            held: Vec::new(alloc),
            next: 0,
            most,
        }
    }

    /// Sets the greatest length of a body, in bytes, as an INFO tells it in `max_payload`.
    pub fn set_most(&mut self, most: u64)
        ensures left { self.new.left ≡ self.old.left }
        ensures most { self.new.most ≡ most }
    {
        self.most = most;
    }

    /// Appends bytes that came. Fails only with `OutOfMemory`; the reader's bytes are then
    /// unchanged.
    pub fn push(&mut self, alloc: Global, bytes: &[u8]) -> Result<(), OutOfMemory>
        ensures ok { OnOk result (self.new.left ≡ self.old.left ++ bytes.now) }
        ensures err { OnErr result (self.new.left ≡ self.old.left) }
        ensures most { self.new.most ≡ self.old.most }
    {
        self.let_go(alloc)?;
        self.held.extend_from_slice(bytes)?;
        Ok(())
    }

    // Lets go the bytes of which frames were read.
    fn let_go(&mut self, alloc: Global) -> Result<(), OutOfMemory>
        ensures left { self.new.left ≡ self.old.left }
        ensures most { self.new.most ≡ self.old.most }
    {
        if self.next > 0 {
            self.held = Vec::from_slice(alloc, &self.held[self.next..])?;
            self.next = 0;
        }
        Ok(())
    }

    fn left(&self) -> &[u8]
        ensures { result.now ≡ self.now.left }
    {
        &self.held[self.next..]
    }

    /// Reads the next frame, or returns `None` if less than a whole frame is left.
    ///
    /// # Errors
    ///
    /// [`FrameError::Damaged`] if the bytes do not begin with a frame, and
    /// [`FrameError::OutOfMemory`] if memory runs out. The bytes are then unchanged.
    #[tactic(auto, unfolding(crate::specs::FrameReader::next_frame))]
    pub fn next(&mut self, alloc: Global) -> Result<Option<ServerFrame>, FrameError>
        ensures reads { Reads self.old self.new result }
        ensures most { self.new.most ≡ self.old.most }
    {
        match read_frame(alloc, self.left(), self.most) {
            Ok(Reading::More) => Ok(None),
            Ok(Reading::Whole { frame, length }) => {
                self.next += length;
                Ok(Some(frame))
            }
            Ok(Reading::Damaged(damage)) => Err(FrameError::Damaged(damage)),
            Err(OutOfMemory) => Err(FrameError::OutOfMemory),
        }
    }
}
