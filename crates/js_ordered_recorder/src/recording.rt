//! Where a recorder writes its events.
ghost use Rattle.std.specs.Prelude.{Option, Some, None, IfErr, OnOk};
ghost use Rattle.js_ordered_table.specs.declared.event.Event as events;
ghost use Rattle.js_ordered_recorder.specs.Recording.{Writes};
ghost use Rattle.js_ordered_recorder.specs.declared.recording.RecordingFault as faults;

use js_ordered_table::Event;
use std::alloc::Global;

/// Why an event was not written.
#[derive(Clone, Copy, Debug, PartialEq, Eq)]
pub enum RecordingFault {
    /// The recording could not take it.
    Failed,
    /// Memory ran out.
    OutOfMemory,
}

/// Where a recorder writes the events that it meets, in order.
pub trait Recording {
    /// What a write of an event does: the recording before it, the event, why it was not written
    /// (`None` if it was), and the recording after it.
    ghost writes: { Self → events.Event → Option faults.RecordingFault → Self → Type 0 };

    /// Writes an event behind those that were written before.
    ///
    /// # Errors
    ///
    /// Fails with `Failed` if the recording can't take the event, and with `OutOfMemory` if memory
    /// runs out. After the first failure a recorder writes nothing more, and returns that failure
    /// as its [`fault`](crate::Recorder::fault).
    fn write(&mut self, alloc: Global, event: &Event) -> Result<(), RecordingFault>
        ensures written { OnOk result (writes self.old event.now None self.new) }
        ensures failed { IfErr result (λ fault. writes self.old event.now (Some fault) self.new) };
}

// Writes an event where there was no fault so far, and returns the first fault.
pub(crate) fn write_event<R: Recording>(
    alloc: Global,
    recording: &mut R,
    fault: Option<RecordingFault>,
    event: &Event,
) -> Option<RecordingFault>
    ensures { Writes R.writes fault event.now result recording.old recording.new }
{
    match fault {
        Some(first) => Some(first),
        None => match recording.write(alloc, event) {
            Ok(()) => None,
            Err(fault) => Some(fault),
        },
    }
}
