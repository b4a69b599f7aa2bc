//! How the program starts, and what it does over a connection.

use crate::reading::get_value;
use crate::table::{Kept, read_table, watch_table};
use crate::words::{Options, Task, read_words};
use crate::writing::write_value;
use crossbeam_channel::{Sender, bounded};
use js_pipe::{Came, Failure, Session};
use std::alloc::Global;
use std::fs::File;
use std::random::RandomSource;
use std::rt::Files;
use std::sync::Wait;
use std::time::Clock;

/// How many pieces of bytes wait at most until the program takes them.
const PIECES: usize = 64;

const USAGE: &str =
    "usage: table BUCKET [--again], watch BUCKET [--again], get BUCKET KEY, put BUCKET KEY VALUE, create BUCKET KEY VALUE, update BUCKET KEY VALUE REVISION, delete BUCKET KEY or purge BUCKET KEY, and then --from FILE --to FILE";

/// What a connection begins with: what its thread takes, and what the program does beside it.
#[derive(Drop)]
pub struct Start {
    /// The file that the server's bytes are read from.
    pub from: String,
    /// Where these bytes go.
    pub bytes: Sender<Came>,
    pub session: Session,
}

/// Reads the words of the command line, the program's name first. Fails with `Usage` if they name
/// no command, and with `OutOfMemory`.
pub fn read_options<'a, R: Eprint>(
    rt: &R,
    alloc: Global,
    words: &'a [String],
) -> Result<Options<'a>, Failure> {
    let mut texts = Vec::new(alloc);
    for word in words.iter().skip(1) {
        texts.push(word.as_str())?;
    }
    match read_words(&texts) {
        Some(options) => Ok(options),
        None => {
            let _ = eprintln!(rt; "{USAGE}");
            Err(Failure::Usage)
        }
    }
}

/// Opens the connection that the words name. Fails with `Fault` if a file cannot be opened, or the
/// clock fails, and with `OutOfMemory`.
pub fn prepare<R: Files<File = File> + Clock + RandomSource + Eprint>(
    rt: &R,
    alloc: Global,
    options: &Options<'_>,
) -> Result<Start, Failure> {
    let from = String::from_str(alloc, options.from)?;
    let (bytes, came) = bounded::<Came, _>(alloc, PIECES)?;
    let session = Session::open(rt, alloc, &options.connection(), came)?;
    Ok(Start {
        from,
        bytes,
        session,
    })
}

fn run_task<R: Clock + Wait + Print + Eprint>(
    rt: &R,
    alloc: Global,
    session: &mut Session,
    options: &Options<'_>,
    kept: &mut Kept,
) -> Result<(), Failure> {
    let bucket = options.bucket;
    match options.task {
        Task::Table => read_table(rt, alloc, session, bucket, kept),
        Task::Watch => watch_table(rt, alloc, session, bucket, kept),
        Task::Get { key } => get_value(rt, alloc, session, bucket, key, kept.page_mut()),
        Task::Write { key, write } => {
            write_value(rt, alloc, session, bucket, key, write, kept.page_mut())
        }
    }
}

/// Does what the words ask for over a connection, and writes the lines that it comes to.
///
/// # Errors
///
/// `Lost` if the connection ended, does not answer or brings damaged bytes; `Usage` if a text is no
/// key; `Refused` if there is no such bucket, or the server refuses what was asked; `Fault` if
/// standard output or the clock fails; `OutOfMemory`.
pub fn run<R: Clock + Wait + Print + Eprint>(
    rt: &R,
    alloc: Global,
    mut session: Session,
    options: &Options<'_>,
    kept: &mut Kept,
) -> Result<(), Failure> {
    let ended = run_task(rt, alloc, &mut session, options, kept);
    drop(session);
    let written = kept.write(rt);
    ended?;
    written
}
