//! A buffer of bytes: appended at the end, removed from the front.

ghost use Rattle.std.specs.Prelude.{◌≡◌, ◌≤◌, ◌++◌, ◌∷◌, [], None, length, drop, vec_len, OnOk, OnErr, IfErr};
ghost use Rattle.js_link_wire.specs.Written.{written, refusal};
ghost use Rattle.js_link_connection.specs.Errors.{IsUnwritten};

use crate::error::{ConnectionError, error_of};
use js_base::OutOfMemory;
use js_link_wire::{ClientFrame, write_frame};
use std::alloc::Global;
use std::marker::Model;

/// Bytes, of which those at the front are done with. Contracts see those that are left.
#[derive(Drop)]
pub(crate) struct Buffer {
    held: Vec<u8>,
    next: usize,
}

impl Model for Buffer {
    ghost use Rattle.std.specs.Prelude.{◌≤◌, ℕ, List, drop, vec_len};

    ghost Value = { List ℕ };

    ghost view = { λ b. drop b.next b.held.items };

    ghost invariant = { λ b. b.next ≤ vec_len b.held };
}

impl Buffer {
    // No bytes, which takes no memory.
    pub(crate) fn new(alloc: Global) -> Buffer
        ensures { result ≡ [] }
    {
        Buffer {
            held: Vec::new(alloc),
            next: 0,
        }
    }

    pub(crate) fn left(&self) -> &[u8]
        ensures { result.now ≡ self.now }
    {
        &self.held[self.next..]
    }

    // Adds bytes behind the others.
    pub(crate) fn push(&mut self, bytes: &[u8]) -> Result<(), OutOfMemory>
        ensures ok { OnOk result (self.new ≡ self.old ++ bytes.now) }
        ensures err { OnErr result (self.new ≡ self.old) }
    {
        self.let_go();
        self.held.extend_from_slice(bytes)?;
        Ok(())
    }

    // Adds the text of a frame behind the others, or nothing.
    pub(crate) fn write(
        &mut self,
        alloc: Global,
        frame: &ClientFrame,
    ) -> Result<(), ConnectionError>
        ensures ok { OnOk result (self.new ≡ self.old ++ written frame.now) }
        ensures allowed { OnOk result (refusal frame.now ≡ None) }
        ensures err { OnErr result (self.new ≡ self.old) }
        ensures cause { IfErr result (λ error. IsUnwritten error (frame.now ∷ [])) }
    {
        match write_frame(alloc, &mut self.held, frame) {
            Ok(()) => Ok(()),
            Err(error) => Err(error_of(error)),
        }
    }

    // Lets go of the bytes that are done with, if they are more than those that are left. So there are at most twice as many bytes
    // as are left, and no more are copied than came. The room of the bytes is kept for those to come.
    pub(crate) fn let_go(&mut self)
        ensures { self.new ≡ self.old }
    {
        let left = self.held.len() - self.next;
        if self.next > left {
            keep_from(&mut self.held, self.next);
            self.next = 0;
        }
    }

    // Is done with so many bytes more.
    pub(crate) fn pass(&mut self, count: usize)
        requires { count ≤ length self.old }
        ensures { self.new ≡ drop count self.old }
    {
        self.next += count;
    }

    pub(crate) fn clear(&mut self)
        ensures { self.new ≡ [] }
    {
        self.held.clear();
        self.next = 0;
    }
}

// Moves the bytes from `start` on to the front, and removes the others.
fn keep_from(bytes: &mut Vec<u8>, start: usize)
    requires { start ≤ vec_len bytes.old }
    ensures { bytes.new.items ≡ drop start bytes.old.items }
{
    let len = bytes.len();
    bytes.copy_within(start..len, 0);
    bytes.truncate(len - start);
}
