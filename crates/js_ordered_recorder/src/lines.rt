//! Recordings of the events' lines, as a transcript has them: all, or the last.
ghost use Rattle.std.specs.Prelude.{◌≡◌, [], IfErr, IfOk};
ghost use Rattle.circular_buffer.specs.Buffer.{buffer};
ghost use Rattle.js_ordered_recorder.specs.Lines.{AddsLine, IsLine, KeepsLine};

use crate::recording::{Recording, RecordingFault};
use circular_buffer::HeapCircularBuffer;
use js_base::OutOfMemory;
use js_ordered_table::Event;
use js_tool_transcript::push_extended_event;
use std::alloc::{AllocError, Global};

// The line of an event. Each event has one.
fn line_of(alloc: Global, event: &Event) -> Result<Vec<u8>, RecordingFault>
    ensures line { IfOk result (λ line. IsLine line.items event.now) }
    ensures fault { IfErr result (λ fault. fault ≡ RecordingFault.OutOfMemory) }
{
    let mut line = Vec::new(alloc);
    match push_extended_event(alloc, &mut line, event) {
        Ok(()) => Ok(line),
        Err(AllocError) => Err(RecordingFault::OutOfMemory),
    }
}

/// A recording of the line of each event, from the first to the last.
///
/// Each event has a line, which reads back as the event: that of a transcript if it says the event,
/// and otherwise an extended line, which `rerun` reads and `replay` refuses. So a recording without
/// such events is part of a transcript. The first line of a transcript, which says the settings, is
/// not part of it: write that yourself before the lines. If the reader has options,
/// [`push_resilience`](js_tool_transcript::push_resilience) writes what that line says of them, and
/// `rerun` reads it.
///
/// It grows with each event. To keep a bounded number of lines, use [`RecentLines`].
#[derive(Drop)]
pub struct LineRecording {
    bytes: Vec<u8>,
}

impl LineRecording {
    /// Creates a recording without lines.
    pub fn new(alloc: Global) -> LineRecording
        ensures { result.bytes.items ≡ [] }
    {
        LineRecording {
            bytes: Vec::new(alloc),
        }
    }

    /// Returns the lines that were written, in order, each with its line feed.
    pub fn lines(&self) -> &[u8]
        ensures { result.now ≡ self.now.bytes.items }
    {
        self.bytes.as_slice()
    }
}

impl Recording for LineRecording {
    ghost writes = { λ recording e written after. AddsLine recording.bytes.items e written after.bytes.items };

    fn write(&mut self, alloc: Global, event: &Event) -> Result<(), RecordingFault> {
        let line = line_of(alloc, event)?;
        match self.bytes.extend_from_slice(&line) {
            Ok(()) => Ok(()),
            Err(AllocError) => Err(RecordingFault::OutOfMemory),
        }
    }
}

/// A recording of the lines of the last events. If it is full, the oldest line goes.
///
/// The lines are those of [`LineRecording`]. A replay needs the events from the first on, so use it
/// to look at what came last.
#[derive(Drop)]
pub struct RecentLines {
    lines: HeapCircularBuffer<Vec<u8>>,
}

impl RecentLines {
    /// Creates a recording without lines that keeps at most `limit` lines.
    ///
    /// # Errors
    ///
    /// Fails with `OutOfMemory` if memory runs out.
    pub fn new(alloc: Global, limit: usize) -> Result<RecentLines, OutOfMemory>
        ensures { IfOk result (λ recent. recent.lines ≡ buffer [] limit) }
    {
        Ok(RecentLines {
            lines: HeapCircularBuffer::with_capacity(alloc, limit)?,
        })
    }

    /// Returns the lines that are kept, the oldest first, each with its line feed.
    pub fn lines(&self) -> &HeapCircularBuffer<Vec<u8>>
        ensures { result.now ≡ self.now.lines }
    {
        &self.lines
    }
}

impl Recording for RecentLines {
    ghost writes = { λ recent e written after. KeepsLine recent.lines e written after.lines };

    fn write(&mut self, alloc: Global, event: &Event) -> Result<(), RecordingFault> {
        let line = line_of(alloc, event)?;
        drop(self.lines.push_back(line));
        Ok(())
    }
}
