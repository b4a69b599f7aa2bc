//! `jetstream_pipe`: reads a stream in order, or publishes lines, over two files that are a
//! connection to a server. One line of shell joins them to a socket (examples/live).
#![tactic(auto)]

mod outcomes;
mod publish;
mod start;
mod words;

use js_pipe::{Failure, bring_bytes, bring_lines, exit_code, told};
use start::{Start, prepare};
use std::process::ExitCode;
use std::{env, thread};

// The words of the command line, the program's name first.
fn command_words(rt: &HostRuntime) -> Result<Vec<String>, Failure> {
    let mut words = Vec::new(rt.alloc());
    for word in told(rt, env::args(rt), Failure::Usage)? {
        words.push(word)?;
    }
    Ok(words)
}

fn main(rt: HostRuntime) -> ExitCode {
    let alloc = rt.alloc();
    let words = match command_words(&rt) {
        Ok(words) => words,
        Err(failure) => return ExitCode::from(exit_code(Err(failure))),
    };
    let ended = match prepare(&rt, alloc, &words) {
        Ok(Some(start)) => {
            let Start {
                from,
                bytes,
                credit,
                lines,
                work,
            } = start;
            let bytes = thread::spawn(&rt, move || bring_bytes(&rt, alloc, from.as_str(), &bytes));
            let lines = thread::spawn(&rt, move || bring_lines(&rt, alloc, &credit, &lines));
            if bytes.is_ok() && lines.is_ok() {
                work.run(&rt, alloc)
            } else {
                drop(work);
                Err(Failure::OutOfMemory)
            }
        }
        Ok(None) => Ok(()),
        Err(failure) => Err(failure),
    };
    ExitCode::from(exit_code(ended))
}
