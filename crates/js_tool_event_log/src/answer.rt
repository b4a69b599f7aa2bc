//! What a command over a log, or over sessions, returns and writes.

ghost use Rattle.std.specs.Prelude.{◌≡◌, ◌<◌, ℕ, length, IfSome, Err};
ghost use Rattle.std.specs.Io.KnownBytes.{Keeps};
ghost use Rattle.js_tool_io.specs.Causes.{Rose};
ghost use Rattle.js_tool_event_log.specs.SessionInput.{sessions};
ghost use Rattle.js_tool.specs.Program.{SaysNothing};
ghost use Rattle.js_tool_transcript.specs.TranscriptReplay.{FirstUnread};
ghost use Rattle.js_tool.specs.LogCommand.{HasNames, wanted};
ghost use Rattle.js_tool_event_log.specs.Sessions.{AnswersSessions};
ghost use Rattle.js_tool_event_log.specs.Answer.{AnswersLog, IsFirstUnread, Writes};

use crate::report::{Report, report_on};
use crate::sessions::report_on_sessions;
use js_tool::{LogCommand, Status};
use js_tool_io::{Sink, Source, Stop, read_all, write_all};
use js_tool_transcript::Unread;
use std::alloc::Global;

/// Reads a transcript to its end, and writes the command's result.
pub(crate) fn answer_log<S: Source, K: Sink>(
    alloc: Global,
    command: LogCommand<'_>,
    input: &mut S,
    output: &mut K,
) -> Status
    requires { HasNames (wanted command) }
    ensures not_usage { result ≡ Status.Usage → ⊥ }
    ensures answers { AnswersLog (wanted command.entry) (S.left input.old) (S.left input.new)
        (K.taken output.old) (K.taken output.new) (K.faults output.old) (K.faults output.new) result }
    ensures write_fault { result ≡ Status.WriteFault → Rose (K.faults output.old) (K.faults output.new) }
    ensures silent { SaysNothing result → Keeps (K.taken output.old) (K.taken output.new) }
    ensures read_fault { result ≡ Status.ReadFault → Rose (S.faults input.old) (S.faults input.new) }
    ensures too_long { result ≡ Status.TooLong
        → IfSome (S.left input.old) (λ bytes. 67_108_864 < length bytes) }
    ensures bad_line { (line : ℕ) → result ≡ Status.BadLine line
        → IfSome (S.left input.old) (λ bytes. FirstUnread bytes line) }
{
    match read_all(alloc, input) {
        Ok(bytes) => write_report(report_on(alloc, command, bytes), output),
        Err(Stop::Fault) => Status::ReadFault,
        Err(Stop::TooLong) => Status::TooLong,
        Err(Stop::OutOfMemory) => Status::OutOfMemory,
    }
}

/// Reads the lines of sessions to their end, and writes the results of the sessions, starting at a
/// bookmark.
pub(crate) fn answer_sessions<S: Source, K: Sink>(
    alloc: Global,
    next: u64,
    input: &mut S,
    output: &mut K,
) -> Status
    ensures not_usage { result ≡ Status.Usage → ⊥ }
    ensures answers { AnswersSessions next (S.left input.old) (S.left input.new)
        (K.taken output.old) (K.taken output.new) (K.faults output.old) (K.faults output.new) result }
    ensures write_fault { result ≡ Status.WriteFault → Rose (K.faults output.old) (K.faults output.new) }
    ensures silent { SaysNothing result → Keeps (K.taken output.old) (K.taken output.new) }
    ensures read_fault { result ≡ Status.ReadFault → Rose (S.faults input.old) (S.faults input.new) }
    ensures too_long { result ≡ Status.TooLong
        → IfSome (S.left input.old) (λ bytes. 67_108_864 < length bytes) }
    ensures bad_line { (line : ℕ) → result ≡ Status.BadLine line
        → IfSome (S.left input.old) (λ bytes. IsFirstUnread sessions bytes line) }
{
    match read_all(alloc, input) {
        Ok(bytes) => write_report(report_on_sessions(alloc, next, bytes), output),
        Err(Stop::Fault) => Status::ReadFault,
        Err(Stop::TooLong) => Status::TooLong,
        Err(Stop::OutOfMemory) => Status::OutOfMemory,
    }
}

// Writes what was made of the bytes that were read.
fn write_report<K: Sink>(made: Result<Report, Unread>, output: &mut K) -> Status
    ensures not_usage { result ≡ Status.Usage → ⊥ }
    ensures not_read_fault { result ≡ Status.ReadFault → ⊥ }
    ensures not_too_long { result ≡ Status.TooLong → ⊥ }
    ensures writes { Writes made (K.taken output.old) (K.taken output.new) (K.faults output.old) (K.faults output.new) result }
    ensures write_fault { result ≡ Status.WriteFault → Rose (K.faults output.old) (K.faults output.new) }
    ensures silent { SaysNothing result → Keeps (K.taken output.old) (K.taken output.new) }
    ensures bad_line { (line : ℕ) → result ≡ Status.BadLine line → made ≡ Err (Unread.BadLine line) }
{
    match made {
        Ok(Report::Done(text)) => match write_all(output, text.as_slice()) {
            Ok(()) => Status::Done,
            Err(_) => Status::WriteFault,
        },
        Ok(Report::Refused(line)) => {
            let _ = write_all(output, line.as_slice());
            Status::Refused
        }
        Err(Unread::BadLine(line)) => Status::BadLine { line },
        Err(Unread::OutOfMemory) => Status::OutOfMemory,
    }
}
