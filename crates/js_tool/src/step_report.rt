//! What is told of a replay, one step after another.

ghost use Rattle.std.specs.Prelude.{◌≡◌, ◌+◌, ◌++◌, ◌∷◌, [], ℕ, List, IfOk, OnOk};
ghost use Rattle.js_ordered.specs.IncrementalReplay.{HasCome};
ghost use Rattle.js_ordered_table.specs.declared.consumer.ReplayInput.{ReplayInput};
ghost use Rattle.js_ordered_table.specs.declared.event.Event as event_type;
ghost use Rattle.js_tool_transcript.specs.TranscriptReplay.{replay_input};
ghost use Rattle.js_tool.specs.Progress.{HasReplayed};

use js_base::OutOfMemory;
use js_ordered::{Event, IncrementalReplay, ReplayError};
use js_tool_transcript::Setup;
use std::alloc::{AllocError, Global};

/// What is told of a replay as its events are passed. It keeps what it tells, such as a text, and
/// neither events nor steps.
pub trait StepReport: Drop {
    /// What it is after the opening and these events, from this start on: what is told of them, each
    /// step once and in order.
    ghost tells: { ReplayInput → ℕ → List event_type.Event → Self → Type 0 };

    /// Begins with what is told of the opening. Fails only with `OutOfMemory`.
    fn open(
        alloc: Global,
        setup: &Setup,
        replay: &IncrementalReplay<'_>,
    ) -> Result<Self, OutOfMemory>
        ensures { HasCome (replay_input setup.now) setup.now.start [] replay.now
            → IfOk result (λ report. tells (replay_input setup.now) setup.now.start [] report) };

    /// Lets the replay pass an event, and adds what is told of the step. Fails only with
    /// `OutOfMemory`.
    fn pass(
        &mut self,
        alloc: Global,
        setup: &Setup,
        replay: &mut IncrementalReplay<'_>,
        event: &Event,
    ) -> Result<(), OutOfMemory>
        ensures come { (start : ℕ) → (es : List event_type.Event) → HasCome (replay_input setup.now) start es replay.old
            → OnOk result (HasCome (replay_input setup.now) start (es ++ event.now ∷ []) replay.new) }
        ensures told { (start : ℕ) → (es : List event_type.Event) → HasCome (replay_input setup.now) start es replay.old
            → tells (replay_input setup.now) start es self.old
            → OnOk result (tells (replay_input setup.now) start (es ++ event.now ∷ []) self.new) }
        ensures counted { OnOk result (replay.new.count ≡ replay.old.count + 1) };
}

/// A report that ends as a text.
pub trait TextReport: StepReport {
    /// The text of a whole replay of these events, from this start on, where it is not refused.
    ghost text: { ReplayInput → ℕ → List event_type.Event → List ℕ };

    /// Returns the whole text, by whether the consumer has ended and how many events there were.
    /// Fails only if memory runs out.
    fn finish(self, ended: bool, events: u64) -> Result<Vec<u8>, AllocError>
        ensures { (g : ReplayInput) → (start : ℕ) → (es : List event_type.Event) → HasReplayed Self.tells g start es self ended events
            → IfOk result (λ made. made.items ≡ text g start es) };
}

/// What the lines of a transcript come to.
#[derive(Drop)]
pub enum Replayed<R> {
    /// All that was told of the replay, whether the consumer has ended, and how many events it had.
    Done { report: R, ended: bool, events: u64 },
    /// The replay is refused.
    Refused(ReplayError),
    /// The first line that cannot be read, counted from 1.
    BadLine(u64),
}
