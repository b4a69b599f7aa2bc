//! `wilfjodi`: JetStream consumers replayed from transcripts and from numbers, tables and mirrors of their logs, sessions with bookmarks, acknowledgement subjects and publish windows, on a command line.
#![tactic(auto)]

use js_tool_event_log::{
    Command, FollowOptions, Lines, Status, ToolCommand, answer_replay, command_of, rerun, run,
};
use js_tool_explain::explain;
use js_tool_follow::follow_with;
use js_tool_io::{ReadSource, WriteSink};
use std::process::ExitCode;
use std::{env, io};

const VERSION: &str = "wilfjodi 0.1.0\n";

const HELP: &str = "\
wilfjodi: JetStream consumers, replayed

  wilfjodi replay         reads a transcript from standard input, and writes the text of its run to standard output
  wilfjodi follow [--details] [--wakes]
                          reads the same line by line, however long, and writes the text of each step before it reads on;
                          with --details also the time, the pending messages and the headers of what was handed out, and
                          with --wakes when the consumer wakes though nothing comes
  wilfjodi rerun          does what replay does, and reads a recording's extended lines too, as explain does
  wilfjodi explain        reads a transcript, and writes in plain English what the consumer did and why, one sentence a line
  wilfjodi project FILTER [SEQUENCE]
                          reads a transcript that has a configured start, and writes the last entry of each subject that
                          FILTER matches, of all that was handed out or of what was up to SEQUENCE; empty payloads delete
  wilfjodi mirror         reads the same, and writes all that was handed out, with the holes between
  wilfjodi relay STREAM NAME
                          reads the same, and writes the transcript of a consumer NAME of a stream STREAM that is sent
                          all that was handed out
  wilfjodi sessions NEXT  reads the lines of sessions with bookmarks, the first of which starts at NEXT (1 or more), and
                          writes the text of each, its bookmark, and how much all of them have committed
  wilfjodi generate SEED EVENTS
                          replays the first EVENTS events (at most 200000) of the transcript that the number SEED gives,
                          and writes how much its run puts out
  wilfjodi info SUBJECT   writes what an acknowledgement subject says
  wilfjodi window CAPACITY THREADS CALLS
                          runs THREADS threads (1 to 8) on a window of CAPACITY permits (1 to 4294967295): each takes
                          a permit CALLS times (at most 100000) and gives it back; writes how often one was free
  wilfjodi --help         writes this page
  wilfjodi --version      writes the version

Exit status, whose name stands on standard error where it is not 0:

  0 Done         all was read and written
  1 ReadFault    standard input failed
  2 Usage        the words are no command, or a number is out of its limits
  3 BadLine n    line n of the input is the first that does not read; of replay a second line says why
  4 WriteFault   standard output failed
  5 OutOfMemory
  6 Refused      the replay or a session is refused, or the subject is none, and the one line that was written says why
  7 TooLong      the input has more than 67108864 bytes
";

fn main(rt: HostRuntime) -> ExitCode {
    let mut unread = None;
    let status = match words(&rt) {
        Ok(words) => match command_of(&words) {
            Some(Command::Help) => tell(&rt, HELP),
            Some(Command::Version) => tell(&rt, VERSION),
            Some(Command::Follow(options)) => answer_follow(&rt, options),
            Some(Command::Explain) => answer_explain(&rt),
            Some(Command::Tool(ToolCommand::Replay)) => {
                let mut input = ReadSource::new(rt.reader());
                let mut output = WriteSink::new(io::writer(&rt));
                answer_replay(
                    rt.alloc(),
                    Lines::Plain,
                    &mut input,
                    &mut output,
                    &mut unread,
                )
            }
            Some(Command::Rerun) => {
                let mut input = ReadSource::new(rt.reader());
                let mut output = WriteSink::new(io::writer(&rt));
                rerun(rt.alloc(), &mut input, &mut output, &mut unread)
            }
            _ => {
                let mut input = ReadSource::new(rt.reader());
                let mut output = WriteSink::new(io::writer(&rt));
                run(&rt, rt.alloc(), &words, &mut input, &mut output)
            }
        },
        Err(error) if error.kind() == io::ErrorKind::OutOfMemory => Status::OutOfMemory,
        Err(_) => Status::Usage,
    };
    if status != Status::Done {
        let _ = eprintln!(rt; "{status}");
    }
    // The status says which line of `replay` or `rerun` does not read, and this says why.
    if let Some(error) = unread {
        let _ = eprintln!(rt; "{error}");
    }
    ExitCode::from(status.exit_code())
}

fn answer_follow(rt: &HostRuntime, options: FollowOptions) -> Status {
    let mut input = ReadSource::new(rt.reader());
    let mut output = WriteSink::new(io::writer(rt));
    follow_with(rt.alloc(), options, &mut input, &mut output)
}

fn answer_explain(rt: &HostRuntime) -> Status {
    let mut input = ReadSource::new(rt.reader());
    let mut output = WriteSink::new(io::writer(rt));
    explain(rt.alloc(), &mut input, &mut output)
}

// The words after the program's name.
fn words(rt: &HostRuntime) -> io::Result<Vec<String>> {
    let mut words = Vec::new(rt.alloc());
    for word in env::args(rt)?.skip(1) {
        words.push(word)?;
    }
    Ok(words)
}

fn tell(rt: &HostRuntime, text: &str) -> Status {
    match print!(rt; "{text}") {
        Ok(()) => Status::Done,
        Err(_) => Status::WriteFault,
    }
}
