//! The text of a run, as it grows step after step.

ghost use Rattle.std.specs.Prelude.{◌≡◌};
ghost use Rattle.js_ordered_table.specs.Fold.{fold};
ghost use Rattle.js_tool_transcript.specs.Text.{text_so_far, run_text};

use crate::step_report::{StepReport, TextReport};
use js_base::OutOfMemory;
use js_ordered::{Event, IncrementalReplay};
use js_tool_transcript::{Setup, push_end, push_outputs};
use std::alloc::{AllocError, Global};

/// The lines of what a replay has put out.
#[derive(Drop)]
pub(crate) struct RunText {
    text: Vec<u8>,
}

impl StepReport for RunText {
    ghost tells = { λ g start es report. report.text.items ≡ text_so_far (fold g start es) };

    fn open(
        alloc: Global,
        _setup: &Setup,
        replay: &IncrementalReplay<'_>,
    ) -> Result<RunText, OutOfMemory> {
        let mut text = Vec::new(alloc);
        push_outputs(&mut text, 0, replay.outputs())?;
        Ok(RunText { text })
    }

    fn pass(
        &mut self,
        alloc: Global,
        _setup: &Setup,
        replay: &mut IncrementalReplay<'_>,
        event: &Event,
    ) -> Result<(), OutOfMemory> {
        replay.advance(alloc, event)?;
        push_outputs(&mut self.text, replay.count(), replay.outputs())?;
        Ok(())
    }
}

impl TextReport for RunText {
    ghost text = { λ g start es. run_text (fold g start es) };

    fn finish(self, ended: bool, events: u64) -> Result<Vec<u8>, AllocError> {
        let RunText { mut text } = self;
        push_end(&mut text, ended, events)?;
        Ok(text)
    }
}
