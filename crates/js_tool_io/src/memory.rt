//! A source and a sink in memory whose chosen calls fail.

ghost use Rattle.std.specs.Prelude.{◌≡◌, [], ◌↔◌, min, length, take, Some, IfOk};
ghost use Rattle.std.specs.Result.{IsErr};
ghost use Rattle.std.specs.Io.{ReadsAtMost, WritesAtMost};
ghost use Rattle.std.specs.Io.KnownBytes.{ReadConsumes, WriteAppends};
ghost use Rattle.js_tool_io.specs.Causes.{HasCause, HasWriteCause};
ghost use Rattle.js_tool_io.specs.Memory.{fails_next, next_call};

use crate::{Failed, Sink, Source};
use std::alloc::Global;
use std::marker::Model;

/// Bytes in memory. The calls of `read` whose numbers are listed fail; the first call has number 1.
#[derive(Drop)]
pub struct MemorySource {
    bytes: Vec<u8>,
    at: usize,
    failing: Vec<u64>,
    calls: u64,
    faults: u64,
}

impl Model for MemorySource {
    ghost use Rattle.std.specs.Prelude.{◌≤◌, drop, vec_len};
    ghost use Rattle.js_tool_io.specs.Memory.{Supply};

    ghost Value = { Supply };

    ghost view = { λ s. record { left = drop s.at s.bytes.items; failing = s.failing.items; calls = s.calls; faults = s.faults } };

    ghost invariant = { λ s. s.at ≤ vec_len s.bytes };
}

impl MemorySource {
    /// Creates a source of these bytes. The calls of `read` with the numbers in `failing` fail.
    pub fn new(bytes: Vec<u8>, failing: Vec<u64>) -> MemorySource
        ensures { result ≡ record { left = bytes.items; failing = failing.items; calls = 0; faults = 0 } }
    {
        MemorySource {
            bytes,
            at: 0,
            failing,
            calls: 0,
            faults: 0,
        }
    }
}

impl Source for MemorySource {
    ghost left = { λ s. Some s.left };

    ghost faults = { λ s. s.faults };

    fn read(&mut self, buf: &mut [u8]) -> Result<usize, Failed>
        ensures bound { ReadsAtMost result buf.new }
        ensures bytes { ReadConsumes (Some self.old.left) (Some self.new.left) result buf.new }
        ensures cause { HasCause self.old.faults self.new.faults result }
        ensures fails { IsErr result ↔ fails_next self.old.failing self.old.calls }
        ensures calls { (self.new.calls ≡ next_call self.old.calls) × (self.new.failing ≡ self.old.failing) }
    {
        self.calls = self.calls.saturating_add(1);
        if self.failing.contains(&self.calls) {
            self.faults = self.faults.saturating_add(1);
            return Err(Failed);
        }
        let count = copy_front(&self.bytes[self.at..], buf);
        self.at += count;
        Ok(count)
    }
}

/// Copies as much as fits, and returns how much.
pub(crate) fn copy_front(from: &[u8], buf: &mut [u8]) -> usize
    ensures count { result ≡ min (length from.now) (length buf.new) }
    ensures bytes { take result buf.new ≡ take result from.now }
{
    let count = from.len().min(buf.len());
    buf[..count].copy_from_slice(&from[..count]);
    count
}

/// Keeps the bytes that it takes, at most `most` bytes a call. The calls of `write` whose numbers
/// are listed fail; the first call has number 1.
#[derive(Drop)]
pub struct MemorySink {
    taken: Vec<u8>,
    most: u64,
    failing: Vec<u64>,
    calls: u64,
    faults: u64,
}

impl Model for MemorySink {
    ghost use Rattle.js_tool_io.specs.Memory.{Store};

    ghost Value = { Store };

    ghost view = { λ s. record { taken = s.taken.items; most = s.most; failing = s.failing.items; calls = s.calls; faults = s.faults } };
}

impl MemorySink {
    /// Creates a sink that has taken nothing. It takes at most `most` bytes a call. If `most` is 0,
    /// each write of a non-empty piece is a fault.
    pub fn new(alloc: Global, most: u64, failing: Vec<u64>) -> MemorySink
        ensures { result ≡ record { taken = []; most = most; failing = failing.items; calls = 0; faults = 0 } }
    {
        MemorySink {
            taken: Vec::new(alloc),
            most,
            failing,
            calls: 0,
            faults: 0,
        }
    }

    /// Returns all the bytes taken so far.
    pub fn taken(&self) -> &[u8]
        ensures { result.now ≡ self.now.taken }
    {
        &self.taken
    }
}

impl Sink for MemorySink {
    ghost taken = { λ s. Some s.taken };

    ghost faults = { λ s. s.faults };

    // Besides the calls that are listed, one fails whose growth is refused.
    fn write(&mut self, piece: &[u8]) -> Result<usize, Failed>
        ensures bound { WritesAtMost result piece.now }
        ensures bytes { WriteAppends (Some self.old.taken) (Some self.new.taken) result piece.now }
        ensures cause { HasWriteCause self.old.faults self.new.faults piece.now result }
        ensures fails { fails_next self.old.failing self.old.calls → IsErr result }
        ensures count { IfOk result (λ n. n ≡ min self.old.most (length piece.now)) }
        ensures calls { (self.new.calls ≡ next_call self.old.calls) × (self.new.failing ≡ self.old.failing) × (self.new.most ≡ self.old.most) }
    {
        self.calls = self.calls.saturating_add(1);
        if self.failing.contains(&self.calls) {
            self.faults = self.faults.saturating_add(1);
            return Err(Failed);
        }
        let count = (self.most as usize).min(piece.len());
        if count == 0 && !piece.is_empty() {
            self.faults = self.faults.saturating_add(1);
            return Ok(0);
        }
        if self.taken.extend_from_slice(&piece[..count]).is_err() {
            self.faults = self.faults.saturating_add(1);
            return Err(Failed);
        }
        Ok(count)
    }
}
