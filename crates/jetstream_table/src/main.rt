//! `jetstream_table`: a live table of a bucket's keys, or one read or write of a key, over two files
//! that are a connection to a server. One line of shell joins them to a socket (examples/live).
//!
//! | Words | What is done | What is printed |
//! |---|---|---|
//! | `table BUCKET` | reads the bucket until nothing is to come | each kept entry of each key that has a value, by key |
//! | `watch BUCKET` | reads the bucket until the connection is lost | each change |
//! | `get BUCKET KEY` | asks the server, without a table | the entry that gives the key its value, or nothing |
//! | `put BUCKET KEY VALUE` | sets the key's value | its revision |
//! | `create BUCKET KEY VALUE` | sets the key's first value | its revision |
//! | `update BUCKET KEY VALUE REVISION` | sets the value if the key's last entry has this revision | its revision |
//! | `delete BUCKET KEY`, `purge BUCKET KEY` | deletes the key, with or without what it had | its revision |
//!
//! An entry is printed as its revision, `put`, `delete` or `purge`, its key, and its value. Behind
//! these words stand `--from FILE --to FILE`: where the server's bytes are read, and where bytes for
//! it are written. With `--again` behind `table BUCKET` or `watch BUCKET`, both files are opened anew
//! when the connection is lost, and the table goes on with the rows that it had.
#![tactic(auto)]

mod lines;
mod reading;
mod start;
mod table;
mod words;
mod writing;

use js_pipe::{Failure, bring_bytes, exit_code, told};
use start::{Start, prepare, read_options, run};
use std::process::ExitCode;
use std::{env, thread};
use table::Kept;
use words::Options;

// The words of the command line, the program's name first.
fn command_line(rt: &HostRuntime) -> Result<Vec<String>, Failure> {
    let mut words = Vec::new(rt.alloc());
    for word in told(rt, env::args(rt), Failure::Usage)? {
        words.push(word)?;
    }
    Ok(words)
}

// Whether it goes on over another connection.
fn goes_on(options: &Options<'_>, ended: Result<(), Failure>) -> bool {
    options.is_again && ended == Err(Failure::Lost)
}

fn main(rt: HostRuntime) -> ExitCode {
    let alloc = rt.alloc();
    let words = match command_line(&rt) {
        Ok(words) => words,
        Err(failure) => return ExitCode::from(exit_code(Err(failure))),
    };
    let options = match read_options(&rt, alloc, &words) {
        Ok(options) => options,
        Err(failure) => return ExitCode::from(exit_code(Err(failure))),
    };
    let mut kept = Kept::new(alloc);
    for _ in rt.forever() {
        let ended = match prepare(&rt, alloc, &options) {
            Ok(start) => {
                let Start {
                    from,
                    bytes,
                    session,
                } = start;
                let read = move || bring_bytes(&rt, alloc, from.as_str(), &bytes);
                if thread::spawn(&rt, read).is_ok() {
                    run(&rt, alloc, session, &options, &mut kept)
                } else {
                    drop(session);
                    Err(Failure::OutOfMemory)
                }
            }
            Err(failure) => Err(failure),
        };
        if !goes_on(&options, ended) {
            return ExitCode::from(exit_code(ended));
        }
    }
    ExitCode::from(exit_code(Err(Failure::Lost)))
}
