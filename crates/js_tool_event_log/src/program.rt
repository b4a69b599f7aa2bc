//! The top-level call: executes the command in the words with a source and a sink.

ghost use Rattle.std.specs.Prelude.{◌≡◌, ◌<◌, ◌↔◌, ℕ, List, length, map, Some, None, IfSome, string_bytes};
ghost use Rattle.std.specs.Io.KnownBytes.{Keeps};
ghost use Rattle.js_tool_io.specs.Causes.{Rose};
ghost use Rattle.js_tool.specs.Command.{Replay, Generate, Info, Window, command_of as command_in};
ghost use Rattle.js_tool.specs.Program.{AnswersReplay, AnswersGenerate, AnswersInfo, AnswersWindow, SaysNothing, without_threads};
ghost use Rattle.js_tool_transcript.specs.TranscriptReplay.{FirstUnread};
ghost use Rattle.js_tool_event_log.specs.SessionInput.{sessions as sessions_in};
ghost use Rattle.js_tool.specs.LogCommand.{Wanted, Project, Mirror, Relay, sessions_bookmark as sessions_bookmark_in, wanted_of};
ghost use Rattle.js_tool_event_log.specs.LogPromises.{WritesLogsTable, WritesLogsMirror, WritesLogsRelay};
ghost use Rattle.js_tool_event_log.specs.Sessions.{AnswersSessions, WritesLogsSessions};
ghost use Rattle.js_tool_event_log.specs.Answer.{AnswersLog, IsFirstUnread};

use crate::answer::{answer_log, answer_sessions};
use js_tool::{Command, Status, command_of};
use js_tool_io::{Sink, Source};
use std::alloc::Global;
use std::sync::Wait;
use std::thread::Threads;

/// Executes the command in the words with a source and a sink. For all words other than those of
/// `window` it promises what [`run_plain`] promises.
///
/// `project` reads a transcript to its end, replays it, and writes the last entry of each subject
/// that a filter matches. `mirror` writes all that the replay yields, with the holes between, and
/// `relay` writes the transcript of another consumer that receives all of it. `sessions` reads the
/// lines of sessions to their end, and writes the result of each, starting at a bookmark. For
/// `replay`, `generate`, `info` and `window` see [`js_tool::run`]. Only `window` may block.
pub fn run<R: Threads + Wait + Sync, S: Source, K: Sink>(
    rt: &R,
    alloc: Global,
    words: &[String],
    input: &mut S,
    output: &mut K,
) -> Status
    ensures usage { (result ≡ Status.Usage)
        ↔ ((wanted_of (map string_bytes words.now) ≡ None) × (sessions_bookmark_in (map string_bytes words.now) ≡ None)
        × (command_in (map string_bytes words.now) ≡ None)) }

    // What each command answers and writes. Of `replay`, `done` is that the text of the input's run was written, which
    // leaves no gap where the server was honest.
    ensures replay { command_in (map string_bytes words.now) ≡ Some Replay
        → AnswersReplay (S.left input.old) (S.left input.new) (K.taken output.old) (K.taken output.new)
        (K.faults output.old) (K.faults output.new) result }
    ensures generate { (seed events : ℕ) → command_in (map string_bytes words.now) ≡ Some (Generate seed events)
        → AnswersGenerate seed events (K.taken output.old) (K.taken output.new) result }
    ensures info { (subject : List ℕ) → command_in (map string_bytes words.now) ≡ Some (Info subject)
        → AnswersInfo subject (K.taken output.old) (K.taken output.new) (K.faults output.old) (K.faults output.new) result }
    ensures window { (capacity threads calls : ℕ)
        → command_in (map string_bytes words.now) ≡ Some (Window capacity threads calls)
        → AnswersWindow capacity threads calls (K.taken output.old) (K.taken output.new) result }
    ensures logs { (command : Wanted) → wanted_of (map string_bytes words.now) ≡ Some command
        → AnswersLog command (S.left input.old) (S.left input.new)
        (K.taken output.old) (K.taken output.new) (K.faults output.old) (K.faults output.new) result }
    // Where the server was honest, the table is that of the log, and the mirror shows it.
    ensures logs_table { (filter : List ℕ) → wanted_of (map string_bytes words.now) ≡ Some (Project filter None)
        → result ≡ Status.Done
        → IfSome (S.left input.old) (λ bytes. WritesLogsTable filter bytes (K.taken output.old) (K.taken output.new)) }
    ensures logs_mirror { wanted_of (map string_bytes words.now) ≡ Some Mirror → result ≡ Status.Done
        → IfSome (S.left input.old) (λ bytes. WritesLogsMirror bytes (K.taken output.old) (K.taken output.new)) }
    // What is written of the mirror is read as its transcript, replays to it, and is honest where the server was.
    ensures logs_relay { (stream name : List ℕ) → wanted_of (map string_bytes words.now) ≡ Some (Relay stream name)
        → result ≡ Status.Done
        → IfSome (S.left input.old) (λ bytes. WritesLogsRelay stream name bytes (K.taken output.old) (K.taken output.new)) }
    ensures sessions { (next : ℕ) → sessions_bookmark_in (map string_bytes words.now) ≡ Some next
        → AnswersSessions next (S.left input.old) (S.left input.new)
        (K.taken output.old) (K.taken output.new) (K.faults output.old) (K.faults output.new) result }
    // Where each session's server was honest, all that was committed leaves no gap in their log.
    ensures logs_sessions { (next : ℕ) → sessions_bookmark_in (map string_bytes words.now) ≡ Some next → result ≡ Status.Done
        → IfSome (S.left input.old) (λ bytes. WritesLogsSessions next bytes (K.taken output.old) (K.taken output.new)) }

    // What else a status tells.
    ensures write_fault { result ≡ Status.WriteFault → Rose (K.faults output.old) (K.faults output.new) }
    ensures silent { SaysNothing result → Keeps (K.taken output.old) (K.taken output.new) }
    ensures read_fault { result ≡ Status.ReadFault → Rose (S.faults input.old) (S.faults input.new) }
    ensures too_long { result ≡ Status.TooLong
        → IfSome (S.left input.old) (λ bytes. 67_108_864 < length bytes) }
    // Of a transcript, or of the lines of sessions.
    ensures bad_line { (line : ℕ) → result ≡ Status.BadLine line → sessions_bookmark_in (map string_bytes words.now) ≡ None
        → IfSome (S.left input.old) (λ bytes. FirstUnread bytes line) }
    ensures bad_session_line { (line next : ℕ) → result ≡ Status.BadLine line → sessions_bookmark_in (map string_bytes words.now) ≡ Some next
        → IfSome (S.left input.old) (λ bytes. IsFirstUnread sessions_in bytes line) }
    // Words that read nothing leave the source as it was.
    ensures unread { (command_in (map string_bytes words.now) ≡ Some Replay → ⊥)
        → wanted_of (map string_bytes words.now) ≡ None → sessions_bookmark_in (map string_bytes words.now) ≡ None
        → input.new ≡ input.old }
{
    match command_of(words) {
        Some(Command::Log(command)) => answer_log(alloc, command, input, output),
        Some(Command::Sessions { next }) => answer_sessions(alloc, next, input, output),
        Some(Command::Tool(command)) => js_tool::run(rt, alloc, command, input, output),
        Some(
            Command::Help
            | Command::Version
            | Command::Follow(_)
            | Command::Explain
            | Command::Rerun,
        )
        | None => Status::Usage,
    }
}

/// Executes the command in the words without threads, and always returns. Returns `Usage` for the
/// words of `window`.
pub fn run_plain<S: Source, K: Sink>(
    alloc: Global,
    words: &[String],
    input: &mut S,
    output: &mut K,
) -> Status
    ensures usage { (result ≡ Status.Usage)
        ↔ ((wanted_of (map string_bytes words.now) ≡ None) × (sessions_bookmark_in (map string_bytes words.now) ≡ None)
        × (without_threads (command_in (map string_bytes words.now)) ≡ None)) }

    // What each command answers and writes. Of `replay`, `done` is that the text of the input's run was written, which
    // leaves no gap where the server was honest.
    ensures replay { command_in (map string_bytes words.now) ≡ Some Replay
        → AnswersReplay (S.left input.old) (S.left input.new) (K.taken output.old) (K.taken output.new)
        (K.faults output.old) (K.faults output.new) result }
    ensures generate { (seed events : ℕ) → command_in (map string_bytes words.now) ≡ Some (Generate seed events)
        → AnswersGenerate seed events (K.taken output.old) (K.taken output.new) result }
    ensures info { (subject : List ℕ) → command_in (map string_bytes words.now) ≡ Some (Info subject)
        → AnswersInfo subject (K.taken output.old) (K.taken output.new) (K.faults output.old) (K.faults output.new) result }
    ensures logs { (command : Wanted) → wanted_of (map string_bytes words.now) ≡ Some command
        → AnswersLog command (S.left input.old) (S.left input.new)
        (K.taken output.old) (K.taken output.new) (K.faults output.old) (K.faults output.new) result }
    // Where the server was honest, the table is that of the log, and the mirror shows it.
    ensures logs_table { (filter : List ℕ) → wanted_of (map string_bytes words.now) ≡ Some (Project filter None)
        → result ≡ Status.Done
        → IfSome (S.left input.old) (λ bytes. WritesLogsTable filter bytes (K.taken output.old) (K.taken output.new)) }
    ensures logs_mirror { wanted_of (map string_bytes words.now) ≡ Some Mirror → result ≡ Status.Done
        → IfSome (S.left input.old) (λ bytes. WritesLogsMirror bytes (K.taken output.old) (K.taken output.new)) }
    // What is written of the mirror is read as its transcript, replays to it, and is honest where the server was.
    ensures logs_relay { (stream name : List ℕ) → wanted_of (map string_bytes words.now) ≡ Some (Relay stream name)
        → result ≡ Status.Done
        → IfSome (S.left input.old) (λ bytes. WritesLogsRelay stream name bytes (K.taken output.old) (K.taken output.new)) }
    ensures sessions { (next : ℕ) → sessions_bookmark_in (map string_bytes words.now) ≡ Some next
        → AnswersSessions next (S.left input.old) (S.left input.new)
        (K.taken output.old) (K.taken output.new) (K.faults output.old) (K.faults output.new) result }
    // Where each session's server was honest, all that was committed leaves no gap in their log.
    ensures logs_sessions { (next : ℕ) → sessions_bookmark_in (map string_bytes words.now) ≡ Some next → result ≡ Status.Done
        → IfSome (S.left input.old) (λ bytes. WritesLogsSessions next bytes (K.taken output.old) (K.taken output.new)) }

    // What else a status tells.
    ensures write_fault { result ≡ Status.WriteFault → Rose (K.faults output.old) (K.faults output.new) }
    ensures silent { SaysNothing result → Keeps (K.taken output.old) (K.taken output.new) }
    ensures read_fault { result ≡ Status.ReadFault → Rose (S.faults input.old) (S.faults input.new) }
    ensures too_long { result ≡ Status.TooLong
        → IfSome (S.left input.old) (λ bytes. 67_108_864 < length bytes) }
    // Of a transcript, or of the lines of sessions.
    ensures bad_line { (line : ℕ) → result ≡ Status.BadLine line → sessions_bookmark_in (map string_bytes words.now) ≡ None
        → IfSome (S.left input.old) (λ bytes. FirstUnread bytes line) }
    ensures bad_session_line { (line next : ℕ) → result ≡ Status.BadLine line → sessions_bookmark_in (map string_bytes words.now) ≡ Some next
        → IfSome (S.left input.old) (λ bytes. IsFirstUnread sessions_in bytes line) }
    // Words that read nothing leave the source as it was.
    ensures unread { (command_in (map string_bytes words.now) ≡ Some Replay → ⊥)
        → wanted_of (map string_bytes words.now) ≡ None → sessions_bookmark_in (map string_bytes words.now) ≡ None
        → input.new ≡ input.old }
{
    match command_of(words) {
        Some(Command::Log(command)) => answer_log(alloc, command, input, output),
        Some(Command::Sessions { next }) => answer_sessions(alloc, next, input, output),
        Some(Command::Tool(command)) => js_tool::run_plain(alloc, command, input, output),
        Some(
            Command::Help
            | Command::Version
            | Command::Follow(_)
            | Command::Explain
            | Command::Rerun,
        )
        | None => Status::Usage,
    }
}
