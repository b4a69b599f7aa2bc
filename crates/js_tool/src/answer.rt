//! The one answer to a transcript: its lines are read and replayed, and the text of a report is
//! written.

ghost use Rattle.std.specs.Prelude.{◌≡◌, ◌≤◌, ◌<◌, ℕ, length, Ok, None, IfOk, IfSome};
ghost use Rattle.std.specs.Io.KnownBytes.{Keeps};
ghost use Rattle.js_tool_io.specs.Causes.{Rose};
ghost use Rattle.js_tool_io.specs.Lines.{lines_of};
ghost use Rattle.js_tool.specs.declared.answer.ReplayOutcome.TheVariants.{BadLine};
ghost use Rattle.js_tool.specs.Answer.{AnswersText, IsOutcome};
ghost use Rattle.js_tool.specs.Progress.{line_error};
ghost use Rattle.js_tool.specs.Program.{SaysNothing};
ghost use Rattle.js_tool_transcript.specs.Transcript.{transcript_in};
ghost use Rattle.js_tool_transcript.specs.TranscriptReplay.{FirstUnreadAs};

use crate::progress::replay_lines;
use crate::status::Status;
use crate::step_report::{Replayed, TextReport};
use js_json_members::ReadError;
use js_tool_io::{Pieces, Sink, Source, Stop, read_all, write_all};
use js_tool_transcript::{Lines, refusal_line};
use std::alloc::{AllocError, Global};

// What an input calls for: a text to write, or none.
#[derive(Drop)]
pub(crate) enum ReplayOutcome {
    Done(Vec<u8>),
    Refused(Vec<u8>),
    BadLine(u64),
}

// The text of the whole replay, or the line of its refusal.
fn outcome_of<R: TextReport>(
    alloc: Global,
    form: Lines,
    bytes: Pieces,
    error: &mut Option<ReadError>,
) -> Result<ReplayOutcome, AllocError>
    requires { length bytes ≤ 67_108_864 }
    ensures outcome { IfOk result (λ outcome. IsOutcome R.text (transcript_in form bytes) bytes outcome) }
    ensures told { error.old ≡ None → (line : ℕ) → result ≡ Ok (BadLine line) → error.new ≡ line_error form (lines_of bytes) }
{
    match replay_lines::<R>(alloc, form, bytes, error)? {
        Replayed::Done {
            report,
            ended,
            events,
        } => Ok(ReplayOutcome::Done(report.finish(ended, events)?)),
        Replayed::Refused(refusal) => Ok(ReplayOutcome::Refused(refusal_line(alloc, refusal)?)),
        Replayed::BadLine(line) => Ok(ReplayOutcome::BadLine(line)),
    }
}

/// Reads a transcript whose lines have this form to its end, replays it, and writes the report's
/// text. If the replay is refused, writes the line that says why.
///
/// Returns `Refused` then, `BadLine` with the first line that cannot be read, `TooLong` for more
/// than `MOST_BYTES` bytes, `ReadFault` and `WriteFault` if the source or the sink fails, and
/// `OutOfMemory`. If a line cannot be read, `error` becomes why: what is wrong, and at which key,
/// if at one. It stays as it was if the input has no line.
pub fn answer_text<R: TextReport, S: Source, K: Sink>(
    alloc: Global,
    form: Lines,
    input: &mut S,
    output: &mut K,
    error: &mut Option<ReadError>,
) -> Status
    ensures not_usage { result ≡ Status.Usage → ⊥ }
    ensures write_fault { result ≡ Status.WriteFault → Rose (K.faults output.old) (K.faults output.new) }
    ensures silent { SaysNothing result → Keeps (K.taken output.old) (K.taken output.new) }
    ensures answers { AnswersText R.text (transcript_in form) (S.left input.old) (S.left input.new) (K.taken output.old) (K.taken output.new)
        (K.faults output.old) (K.faults output.new) result }
    ensures read_fault { result ≡ Status.ReadFault → Rose (S.faults input.old) (S.faults input.new) }
    ensures too_long { result ≡ Status.TooLong
        → IfSome (S.left input.old) (λ bytes. 67_108_864 < length bytes) }
    ensures bad_line { (line : ℕ) → result ≡ Status.BadLine line
        → IfSome (S.left input.old) (λ bytes. FirstUnreadAs (transcript_in form bytes) bytes line) }
    ensures told { error.old ≡ None → (line : ℕ) → result ≡ Status.BadLine line
        → IfSome (S.left input.old) (λ bytes. error.new ≡ line_error form (lines_of bytes)) }
{
    let bytes = match read_all(alloc, input) {
        Ok(bytes) => bytes,
        Err(Stop::Fault) => return Status::ReadFault,
        Err(Stop::TooLong) => return Status::TooLong,
        Err(Stop::OutOfMemory) => return Status::OutOfMemory,
    };
    match outcome_of::<R>(alloc, form, bytes, error) {
        Ok(ReplayOutcome::Done(text)) => {
            let written = write_all(output, &text);
            drop(text);
            match written {
                Ok(()) => Status::Done,
                Err(_) => Status::WriteFault,
            }
        }
        Ok(ReplayOutcome::Refused(text)) => {
            let _ = write_all(output, &text);
            drop(text);
            Status::Refused
        }
        Ok(ReplayOutcome::BadLine(line)) => Status::BadLine { line },
        Err(AllocError) => Status::OutOfMemory,
    }
}
