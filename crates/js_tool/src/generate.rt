//! The replay of a generated transcript, and the line of its counts.

ghost use Rattle.std.specs.Prelude.{◌≡◌, ◌≤◌, IfOk};
ghost use Rattle.std.specs.Io.KnownBytes.{Keeps};
ghost use Rattle.js_tool_io.specs.Causes.{Rose};
ghost use Rattle.js_ordered_table.specs.declared.run.Run.{Run};
ghost use Rattle.js_ordered_table.specs.Replay.{IsReplay, IsValid};
ghost use Rattle.js_tool_generate.specs.Summary.{summary};
ghost use Rattle.js_tool_generate.specs.Transcript as transcript;
ghost use Rattle.js_tool.specs.CommandTexts.{summary_text};
ghost use Rattle.js_tool.specs.Program.{AnswersGenerate, IsGenerated, SaysNothing};

use crate::status::Status;
use js_base::OutOfMemory;
use js_ordered::{Event, ReplayError, ReplayInput, Run, replay_ordered};
use js_tool_generate::{Summary, generated, replay_input, summary_of};
use js_tool_io::{Sink, write_all};
use js_tool_transcript::{Cell, push_line};
use std::alloc::{AllocError, Global};

/// Replays the first `events` events that a seed gives, and writes the line with the counts of the
/// run's outputs.
pub(crate) fn answer_generate<K: Sink>(
    alloc: Global,
    seed: u64,
    events: u64,
    output: &mut K,
) -> Status
    requires { events ≤ 200_000 }
    ensures answers { AnswersGenerate seed events (K.taken output.old) (K.taken output.new) result }
    ensures write_fault { result ≡ Status.WriteFault → Rose (K.faults output.old) (K.faults output.new) }
    ensures silent { SaysNothing result → Keeps (K.taken output.old) (K.taken output.new) }
{
    let summary = match generated_counts(alloc, seed, events) {
        Ok(summary) => summary,
        Err(OutOfMemory) => return Status::OutOfMemory,
    };
    match summary_line(alloc, summary) {
        Ok(line) => match write_all(output, &line) {
            Ok(()) => Status::Done,
            Err(_) => Status::WriteFault,
        },
        Err(AllocError) => Status::OutOfMemory,
    }
}

// The run of valid events.
fn replayed(alloc: Global, input: &ReplayInput, events: &[Event]) -> Result<Run, OutOfMemory>
    requires { IsValid input.now 0 events.now }
    ensures { IfOk result (λ run. IsReplay input.now 0 events.now run) }
{
    match replay_ordered(
        alloc,
        &input.settings,
        &input.setup,
        &input.first,
        0,
        events,
    ) {
        Ok(run) => Ok(run),
        Err(ReplayError::OutOfMemory) => Err(OutOfMemory),
        Err(_) => unreachable!(),
    }
}

// The counts of the run of valid events.
fn run_counts(alloc: Global, input: &ReplayInput, events: &[Event]) -> Result<Summary, OutOfMemory>
    requires { IsValid input.now 0 events.now }
    ensures { IfOk result (λ counts. (run : Run) × IsReplay input.now 0 events.now run × (counts ≡ summary run)) }
{
    let run = replayed(alloc, input, events)?;
    summary_of(&run)
}

// The counts of the replay of the first so many events that a seed gives, to the consumer of such transcripts.
fn seed_counts(
    alloc: Global,
    input: &ReplayInput,
    seed: u64,
    events: u64,
) -> Result<Summary, OutOfMemory>
    requires few { events ≤ 200_000 }
    requires input { input.now ≡ transcript.replay_input }
    ensures { IfOk result (IsGenerated seed events) }
{
    let events = generated(alloc, seed, events)?;
    run_counts(alloc, input, events.as_slice())
}

fn generated_counts(alloc: Global, seed: u64, events: u64) -> Result<Summary, OutOfMemory>
    requires { events ≤ 200_000 }
    ensures { IfOk result (IsGenerated seed events) }
{
    let input = replay_input(alloc)?;
    let summary = seed_counts(alloc, &input, seed, events);
    drop(input);
    summary
}

/// Returns the line with the counts of a generated transcript's replay.
pub(crate) fn summary_line(alloc: Global, summary: Summary) -> Result<Vec<u8>, AllocError>
    ensures { IfOk result (λ line. line.items ≡ summary_text summary) }
{
    let mut out = Vec::new(alloc);
    push_line(
        &mut out,
        &[
            Cell::Text(b"summary"),
            Cell::Number(summary.events),
            Cell::Number(summary.yields),
            Cell::Number(summary.items),
            Cell::Number(summary.recreations),
            Cell::Number(summary.requests),
            Cell::Number(summary.publishes),
            Cell::Number(summary.subscribes),
            Cell::Number(summary.last),
        ],
    )?;
    Ok(out)
}
