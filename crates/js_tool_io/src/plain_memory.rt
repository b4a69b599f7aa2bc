//! A source and a sink in memory. The source never fails, and the sink fails only if it cannot
//! grow.

ghost use Rattle.std.specs.Prelude.{◌≡◌, [], length, Some, OnOk, IfOk, OnErr};
ghost use Rattle.std.specs.Io.{WritesAtMost};
ghost use Rattle.std.specs.Io.KnownBytes.{WriteAppends};
ghost use Rattle.js_tool_io.specs.Causes.{HasWriteCause};

use crate::memory::copy_front;
use crate::{Failed, Sink, Source};
use std::alloc::Global;
use std::marker::Model;

/// Bytes in memory. Reading never fails. Contracts see the bytes that are left.
#[derive(Drop)]
pub struct PlainSource {
    bytes: Vec<u8>,
    at: usize,
}

impl Model for PlainSource {
    ghost use Rattle.std.specs.Prelude.{List, ℕ, ◌≤◌, drop, vec_len};

    ghost Value = { List ℕ };

    ghost view = { λ s. drop s.at s.bytes.items };

    ghost invariant = { λ s. s.at ≤ vec_len s.bytes };
}

impl PlainSource {
    /// Creates a source of these bytes.
    pub fn new(bytes: Vec<u8>) -> PlainSource
        ensures { result ≡ bytes.items }
    {
        PlainSource { bytes, at: 0 }
    }
}

impl Source for PlainSource {
    ghost left = { λ s. Some s };

    ghost faults = { λ _. 0 };

    fn read(&mut self, buf: &mut [u8]) -> Result<usize, Failed> {
        let count = copy_front(&self.bytes[self.at..], buf);
        self.at += count;
        Ok(count)
    }
}

/// Keeps the bytes that it takes. Fails only if it can't grow.
#[derive(Drop)]
pub struct PlainSink {
    taken: Vec<u8>,
    faults: u64,
}

impl Model for PlainSink {
    ghost use Rattle.js_tool_io.specs.Memory.{Growing};

    ghost Value = { Growing };

    ghost view = { λ s. record { taken = s.taken.items; faults = s.faults } };
}

impl PlainSink {
    /// Creates a sink that has taken nothing.
    pub fn new(alloc: Global) -> PlainSink
        ensures { result ≡ record { taken = []; faults = 0 } }
    {
        PlainSink {
            taken: Vec::new(alloc),
            faults: 0,
        }
    }

    /// Returns all the bytes taken so far.
    pub fn taken(&self) -> &[u8]
        ensures { result.now ≡ self.now.taken }
    {
        &self.taken
    }
}

impl Sink for PlainSink {
    ghost taken = { λ s. Some s.taken };

    ghost faults = { λ s. s.faults };

    fn write(&mut self, piece: &[u8]) -> Result<usize, Failed>
        ensures bound { WritesAtMost result piece.now }
        ensures bytes { WriteAppends (Some self.old.taken) (Some self.new.taken) result piece.now }
        ensures cause { HasWriteCause self.old.faults self.new.faults piece.now result }
        ensures whole { IfOk result (λ n. n ≡ length piece.now) }
    {
        if self.taken.extend_from_slice(piece).is_err() {
            self.faults = self.faults.saturating_add(1);
            return Err(Failed);
        }
        Ok(piece.len())
    }
}
