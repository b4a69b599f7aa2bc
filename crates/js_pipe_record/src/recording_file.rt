//! Where a recording goes.

ghost use Rattle.std.specs.Prelude.{◌≡◌, true, false, not};
ghost use Rattle.std.specs.Io.KnownBytes.{Appends};
ghost use Rattle.js_tool_io.specs.Causes.{AppendsPrefix};

use js_tool_io::{Sink, write_all};

/// Where a recording goes. After its first fault it takes nothing more.
#[derive(Drop)]
pub struct RecordingFile<F> {
    sink: F,
    has_failed: bool,
}

impl<F: Sink + Drop> RecordingFile<F> {
    /// Creates a recording that goes to this sink, and has nothing yet.
    pub fn new(sink: F) -> RecordingFile<F>
        ensures { (result.sink ≡ sink) × (result.has_failed ≡ false) }
    {
        RecordingFile {
            sink,
            has_failed: false,
        }
    }

    /// Returns whether all that was to be recorded was written.
    pub fn is_whole(&self) -> bool
        ensures { result ≡ not self.now.has_failed }
    {
        !self.has_failed
    }

    /// Writes bytes behind those that were written before, unless the recording has ended. A fault of
    /// the sink ends it, and is told on standard error; the bytes that the sink has then begin with
    /// what was written before it.
    pub fn write<R: Eprint>(&mut self, rt: &R, bytes: &[u8])
        ensures whole { self.new.has_failed ≡ false → Appends (F.taken self.old.sink) (F.taken self.new.sink) bytes.now }
        ensures front { self.old.has_failed ≡ false → self.new.has_failed ≡ true → AppendsPrefix (F.taken self.old.sink) (F.taken self.new.sink) bytes.now }
        ensures ended { self.old.has_failed ≡ true → self.new ≡ self.old }
    {
        if self.has_failed {
            return;
        }
        if write_all(&mut self.sink, bytes).is_err() {
            let _ = eprintln!(rt; "the recording has ended: its file can't be written");
            self.has_failed = true;
        }
    }
}
