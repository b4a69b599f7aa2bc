//! The yields of a replay, collected as its lines are read. Neither lines nor events are kept.

ghost use Rattle.std.specs.Prelude.{◌≡◌, ◌≤◌, ◌+◌, ◌++◌, ◌∷◌, [], length, OnOk};
ghost use Rattle.js_event_log.specs.RunProjection.{yielded};
ghost use Rattle.js_ordered_table.specs.Fold.{fold};
ghost use Rattle.js_ordered_table.specs.Gapless.{all_outputs};
ghost use Rattle.js_tool_io.specs.Lines.{lines_of};
ghost use Rattle.js_tool_transcript.specs.Transcript.{with_lines};
ghost use Rattle.js_tool_event_log.specs.ReplayEntries.{ReadsYields};

use js_base::{Entry, Items, OutOfMemory};
use js_event_log::entry_of;
use js_ordered::{Event, IncrementalReplay, Output, ReplayError};
use js_tool::{Lines, Replayed, StepReport, replay_events};
use js_tool_io::Pieces;
use js_tool_transcript::{Setup, Unread};
use std::alloc::{AllocError, Global};

/// The result of a replay.
#[derive(Drop)]
pub(crate) enum Ending {
    /// All entries that it yields, in order.
    Yields(Items<Entry>),
    /// The replay failed.
    Refused(ReplayError),
}

// What a replay has yielded.
#[derive(Drop)]
pub(crate) struct Yields {
    entries: Items<Entry>,
}

fn add_yield(entries: &mut Items<Entry>, output: &Output) -> Result<(), OutOfMemory>
    ensures { OnOk result (entries.new ≡ entries.old ++ yielded (output.now ∷ [])) }
{
    match entry_of(output)? {
        Some(entry) => entries.push(entry),
        None => Ok(()),
    }
}

#[tactic(auto, using(crate::proofs::YieldsPassed::yielded_first))]
fn add_yields(entries: &mut Items<Entry>, outputs: &[Output]) -> Result<(), OutOfMemory>
    ensures { OnOk result (entries.new ≡ entries.old ++ yielded outputs.now) }
{
    for output in outputs {
        add_yield(entries, output)?;
    }
    Ok(())
}

impl StepReport for Yields {
    ghost tells = { λ g start es report. report.entries ≡ yielded (all_outputs (fold g start es)) };

    fn open(
        alloc: Global,
        _setup: &Setup,
        replay: &IncrementalReplay<'_>,
    ) -> Result<Yields, OutOfMemory> {
        let mut entries = Items::new(alloc);
        add_yields(&mut entries, replay.outputs())?;
        Ok(Yields { entries })
    }

    fn pass(
        &mut self,
        alloc: Global,
        _setup: &Setup,
        replay: &mut IncrementalReplay<'_>,
        event: &Event,
    ) -> Result<(), OutOfMemory> {
        replay.advance(alloc, event)?;
        add_yields(&mut self.entries, replay.outputs())?;
        Ok(())
    }
}

/// Replays a setup and the events on the lines of a piece and of the bytes behind it.
pub(crate) fn read_yields(
    alloc: Global,
    setup: &Setup,
    piece: &[u8],
    bytes: Pieces,
) -> Result<Ending, Unread>
    requires { length piece.now + length bytes ≤ 67_108_864 }
    ensures { ReadsYields setup.now (with_lines setup.now (lines_of piece.now ++ lines_of bytes)) result }
{
    match replay_events::<Yields>(alloc, Lines::Plain, setup, piece, bytes, &mut None) {
        Ok(Replayed::Done { report, .. }) => Ok(Ending::Yields(report.entries)),
        Ok(Replayed::Refused(refusal)) => Ok(Ending::Refused(refusal)),
        Ok(Replayed::BadLine(line)) => Err(Unread::BadLine(line)),
        Err(AllocError) => Err(Unread::OutOfMemory),
    }
}
