//! The sentences on a replay, as they grow step after step.

ghost use Rattle.std.specs.Prelude.{◌≡◌};
ghost use Rattle.js_tool_explain.specs.Sentences.{replay_text, text_so_far};

use crate::step::{push_causes, push_last, push_opening, push_results, standing_before};
use js_base::OutOfMemory;
use js_ordered::{Event, IncrementalReplay};
use js_tool::{StepReport, TextReport};
use js_tool_transcript::Setup;
use std::alloc::{AllocError, Global};

/// What was said of a replay.
#[derive(Drop)]
pub(crate) struct Sentences {
    text: Vec<u8>,
}

impl StepReport for Sentences {
    ghost tells = { λ g start es report. report.text.items ≡ text_so_far g start es };

    fn open(
        alloc: Global,
        setup: &Setup,
        replay: &IncrementalReplay<'_>,
    ) -> Result<Sentences, OutOfMemory> {
        let mut text = Vec::new(alloc);
        push_opening(
            &mut text,
            setup.start,
            &setup.setup,
            &setup.first,
            replay.state(),
            replay.outputs(),
        )?;
        Ok(Sentences { text })
    }

    fn pass(
        &mut self,
        alloc: Global,
        setup: &Setup,
        replay: &mut IncrementalReplay<'_>,
        event: &Event,
    ) -> Result<(), OutOfMemory> {
        let consumer = &replay.state().consumer;
        push_causes(alloc, &mut self.text, &setup.setup, consumer, event)?;
        let before = standing_before(&setup.setup, consumer, event);
        replay.advance(alloc, event)?;
        push_results(
            &mut self.text,
            event.at,
            before,
            replay.state(),
            replay.outputs(),
        )?;
        Ok(())
    }
}

impl TextReport for Sentences {
    ghost text = { replay_text };

    fn finish(self, ended: bool, events: u64) -> Result<Vec<u8>, AllocError> {
        let Sentences { mut text } = self;
        push_last(&mut text, ended, events)?;
        Ok(text)
    }
}
