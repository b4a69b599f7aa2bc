//! Executes a command of this crate with a source and a sink.

ghost use Rattle.std.specs.Prelude.{◌≡◌, ◌≤◌, ◌<◌, ◌↔◌, ℕ, List, length, Some, None, Ok, IfSome};
ghost use Rattle.std.specs.Io.KnownBytes.{Keeps};
ghost use Rattle.js_tool_io.specs.Causes.{Rose};
ghost use Rattle.js_tool.specs.Command.{Replay, Generate, Info, Window, asked};
ghost use Rattle.js_tool_io.specs.Lines.{lines_of};
ghost use Rattle.js_tool.specs.Progress.{line_error};
ghost use Rattle.js_tool.specs.Program.{AnswersReading, AnswersReplay, AnswersRerun, AnswersGenerate, AnswersInfo, AnswersWindow, SaysNothing, without_threads};
ghost use Rattle.js_tool_transcript.specs.Transcript.{transcript, extended_transcript, transcript_in};
ghost use Rattle.js_tool_transcript.specs.TranscriptReplay.{FirstUnread, FirstUnreadAs};
ghost use Rattle.js_tool_transcript.specs.declared.transcript.Transcript as transcripts;

use crate::answer::answer_text;
use crate::command::ToolCommand;
use crate::generate::answer_generate;
use crate::info::answer_info;
use crate::run_text::RunText;
use crate::status::Status;
use crate::window::{answer_window, is_window};
use js_json_members::ReadError;
use js_tool_io::{Sink, Source};
use js_tool_transcript::Lines;
use std::alloc::Global;
use std::sync::Wait;
use std::thread::Threads;

/// Executes a command with a source and a sink. If a number is out of its limits, does nothing and
/// returns `Usage`. For commands other than `Window` it promises what [`run_plain`] promises.
///
/// `Replay` reads a transcript to its end and writes the text of its run. `Generate` replays the
/// transcript that a number gives, and writes the counts of its run's outputs. `Info` writes what a
/// subject says. `Window` lets threads take permits of one window and writes their counts; if no
/// thread can be created, the caller's thread does the work. Only `Window` may block.
pub fn run<R: Threads + Wait + Sync, S: Source, K: Sink>(
    rt: &R,
    alloc: Global,
    command: ToolCommand<'_>,
    input: &mut S,
    output: &mut K,
) -> Status
    // The numbers are out of their limits.
    ensures usage { (result ≡ Status.Usage) ↔ (asked command.entry ≡ None) }

    // What each command answers and writes. Of `replay`, `done` is that the text of the input's run was written, which
    // leaves no gap where the server was honest.
    ensures replay { asked command.entry ≡ Some Replay
        → AnswersReplay (S.left input.old) (S.left input.new) (K.taken output.old) (K.taken output.new)
        (K.faults output.old) (K.faults output.new) result }
    ensures generate { (seed events : ℕ) → asked command.entry ≡ Some (Generate seed events)
        → AnswersGenerate seed events (K.taken output.old) (K.taken output.new) result }
    ensures info { (subject : List ℕ) → asked command.entry ≡ Some (Info subject)
        → AnswersInfo subject (K.taken output.old) (K.taken output.new) (K.faults output.old) (K.faults output.new) result }
    ensures window { (capacity threads calls : ℕ)
        → asked command.entry ≡ Some (Window capacity threads calls)
        → AnswersWindow capacity threads calls (K.taken output.old) (K.taken output.new) result }

    // What else a status tells.
    ensures write_fault { result ≡ Status.WriteFault → Rose (K.faults output.old) (K.faults output.new) }
    ensures silent { SaysNothing result → Keeps (K.taken output.old) (K.taken output.new) }
    ensures read_fault { result ≡ Status.ReadFault → Rose (S.faults input.old) (S.faults input.new) }
    ensures too_long { result ≡ Status.TooLong
        → IfSome (S.left input.old) (λ bytes. 67_108_864 < length bytes) }
    ensures bad_line { (line : ℕ) → result ≡ Status.BadLine line
        → IfSome (S.left input.old) (λ bytes. FirstUnread bytes line) }
    // Any command but `Replay` leaves the source as it was.
    ensures unread { (asked command.entry ≡ Some Replay → ⊥) → input.new ≡ input.old }
{
    if let ToolCommand::Window {
        capacity,
        threads,
        calls,
    } = command
        && is_window(capacity, threads, calls)
    {
        return answer_window(rt, alloc, capacity, threads, calls, output);
    }
    run_plain(alloc, command, input, output)
}

/// Executes a command without threads, and always returns. Returns `Usage` for `Window`.
pub fn run_plain<S: Source, K: Sink>(
    alloc: Global,
    command: ToolCommand<'_>,
    input: &mut S,
    output: &mut K,
) -> Status
    ensures usage { (result ≡ Status.Usage) ↔ (without_threads (asked command.entry) ≡ None) }

    // What each command answers and writes. Of `replay`, `done` is that the text of the input's run was written, which
    // leaves no gap where the server was honest.
    ensures replay { asked command.entry ≡ Some Replay
        → AnswersReplay (S.left input.old) (S.left input.new) (K.taken output.old) (K.taken output.new)
        (K.faults output.old) (K.faults output.new) result }
    ensures generate { (seed events : ℕ) → asked command.entry ≡ Some (Generate seed events)
        → AnswersGenerate seed events (K.taken output.old) (K.taken output.new) result }
    ensures info { (subject : List ℕ) → asked command.entry ≡ Some (Info subject)
        → AnswersInfo subject (K.taken output.old) (K.taken output.new) (K.faults output.old) (K.faults output.new) result }

    // What else a status tells.
    ensures write_fault { result ≡ Status.WriteFault → Rose (K.faults output.old) (K.faults output.new) }
    ensures silent { SaysNothing result → Keeps (K.taken output.old) (K.taken output.new) }
    ensures read_fault { result ≡ Status.ReadFault → Rose (S.faults input.old) (S.faults input.new) }
    ensures too_long { result ≡ Status.TooLong
        → IfSome (S.left input.old) (λ bytes. 67_108_864 < length bytes) }
    ensures bad_line { (line : ℕ) → result ≡ Status.BadLine line
        → IfSome (S.left input.old) (λ bytes. FirstUnread bytes line) }
    // Any command but `Replay` leaves the source as it was.
    ensures unread { (asked command.entry ≡ Some Replay → ⊥) → input.new ≡ input.old }
{
    match command {
        ToolCommand::Replay => answer_replay(alloc, Lines::Plain, input, output, &mut None),
        ToolCommand::Generate { seed, events } if events <= 200_000 => {
            answer_generate(alloc, seed, events, output)
        }
        ToolCommand::Info { subject } => answer_info(alloc, subject, output),
        ToolCommand::Generate { .. } | ToolCommand::Window { .. } => Status::Usage,
    }
}

/// Reads a transcript that may have extended lines to its end, and writes the text of its run.
///
/// Of a transcript without extended lines it writes what `replay` writes, and returns the status
/// that `replay` returns. `BadLine` names the first line that is neither a line of a transcript nor
/// an extended line; `error` becomes its read error, as in [`answer_replay`]. Returns the other
/// statuses as `replay` does.
pub fn rerun<S: Source, K: Sink>(
    alloc: Global,
    input: &mut S,
    output: &mut K,
    error: &mut Option<ReadError>,
) -> Status
    ensures not_usage { result ≡ Status.Usage → ⊥ }
    ensures answers { AnswersRerun (S.left input.old) (S.left input.new) (K.taken output.old) (K.taken output.new)
        (K.faults output.old) (K.faults output.new) result }
    // Of a transcript it does what `replay` does.
    ensures replay { (bytes : List ℕ) → (t : transcripts.Transcript) → S.left input.old ≡ Some bytes → transcript bytes ≡ Ok t
        → AnswersReplay (S.left input.old) (S.left input.new) (K.taken output.old) (K.taken output.new)
        (K.faults output.old) (K.faults output.new) result }

    // What else a status tells.
    ensures write_fault { result ≡ Status.WriteFault → Rose (K.faults output.old) (K.faults output.new) }
    ensures silent { SaysNothing result → Keeps (K.taken output.old) (K.taken output.new) }
    ensures read_fault { result ≡ Status.ReadFault → Rose (S.faults input.old) (S.faults input.new) }
    ensures too_long { result ≡ Status.TooLong
        → IfSome (S.left input.old) (λ bytes. 67_108_864 < length bytes) }
    ensures bad_line { (line : ℕ) → result ≡ Status.BadLine line
        → IfSome (S.left input.old) (λ bytes. FirstUnreadAs (extended_transcript bytes) bytes line) }
    ensures told { error.old ≡ None → (line : ℕ) → result ≡ Status.BadLine line
        → IfSome (S.left input.old) (λ bytes. error.new ≡ line_error Lines.Extended (lines_of bytes)) }
{
    answer_text::<RunText, S, K>(alloc, Lines::Extended, input, output, error)
}

/// Reads a transcript whose lines have this form to its end, and writes the text of its run, as
/// [`run`] does for `Replay` if the form is `Plain`. If a line cannot be read, `error` becomes why:
/// what is wrong, and at which key, if at one. It stays as it was if the input has no line.
pub fn answer_replay<S: Source, K: Sink>(
    alloc: Global,
    form: Lines,
    input: &mut S,
    output: &mut K,
    error: &mut Option<ReadError>,
) -> Status
    ensures not_usage { result ≡ Status.Usage → ⊥ }
    ensures write_fault { result ≡ Status.WriteFault → Rose (K.faults output.old) (K.faults output.new) }
    ensures silent { SaysNothing result → Keeps (K.taken output.old) (K.taken output.new) }
    ensures answers { AnswersReading (transcript_in form) (S.left input.old) (S.left input.new) (K.taken output.old) (K.taken output.new)
        (K.faults output.old) (K.faults output.new) result }
    ensures read_fault { result ≡ Status.ReadFault → Rose (S.faults input.old) (S.faults input.new) }
    ensures too_long { result ≡ Status.TooLong
        → IfSome (S.left input.old) (λ bytes. 67_108_864 < length bytes) }
    ensures bad_line { (line : ℕ) → result ≡ Status.BadLine line
        → IfSome (S.left input.old) (λ bytes. FirstUnreadAs (transcript_in form bytes) bytes line) }
    ensures told { error.old ≡ None → (line : ℕ) → result ≡ Status.BadLine line
        → IfSome (S.left input.old) (λ bytes. error.new ≡ line_error form (lines_of bytes)) }
{
    answer_text::<RunText, S, K>(alloc, form, input, output, error)
}
