//! How the program starts.

ghost use Rattle.std.specs.Prelude.{◌≡◌, is_some, IfOk, IfErr};
ghost use Rattle.js_pipe.specs.declared.failure.Failure.TheVariants.{Fault};

use crate::outcomes::Outcomes;
use crate::publish::{WINDOW, publish};
use crate::words::read_words;
use crossbeam_channel::{Receiver, Sender, bounded};
use js_pipe::{Came, Failure, Options, Session, Task, told};
use js_pipe_consume::{Reading, consume};
use js_pipe_record::consume_recorded;
use js_tool_io::WriteSink;
use std::alloc::Global;
use std::fs::File;
use std::io;
use std::random::RandomSource;
use std::rt::Files;
use std::sync::Wait;
use std::time::Clock;

/// How many pieces of bytes wait at most until the program takes them.
const PIECES: usize = 64;

/// What the program does beside its threads.
#[derive(Drop)]
pub struct Work<'a> {
    session: Session,
    credits: Sender<()>,
    options: Options<'a>,
    /// The file of a recording, if the words name one.
    recording: Option<File>,
}

/// What the program begins with: what each of its threads takes, and what it does beside them.
#[derive(Drop)]
pub struct Start<'a> {
    /// The file that the server's bytes are read from.
    pub from: String,
    /// Where these bytes go.
    pub bytes: Sender<Came>,
    /// Each credit asks for a line of standard input.
    pub credit: Receiver<()>,
    /// Where these lines go.
    pub lines: Sender<Came>,
    pub work: Work<'a>,
}

impl Work<'_> {
    /// Does what the words ask for.
    pub fn run<R: Clock + Wait + Print + Eprint>(
        self,
        rt: &R,
        alloc: Global,
    ) -> Result<(), Failure> {
        let Work {
            mut session,
            credits,
            options,
            recording,
        } = self;
        let ended = match options.task {
            Task::Consume => run_consume(rt, alloc, &mut session, &options, recording),
            Task::Publish => {
                drop(recording);
                run_publish(rt, alloc, &mut session, &credits, &options)
            }
        };
        drop(session);
        drop(credits);
        ended
    }
}

// Reads to standard output, and records what is met where there is a file for it.
fn run_consume<R: Clock + Wait + Print + Eprint>(
    rt: &R,
    alloc: Global,
    session: &mut Session,
    options: &Options<'_>,
    recording: Option<File>,
) -> Result<(), Failure> {
    let mut output = WriteSink::new(io::writer(rt));
    let mut reading = Reading::new(alloc, options.count.unwrap_or(u64::MAX));
    match recording {
        None => consume(rt, alloc, session, options, &mut reading, &mut output),
        Some(file) => consume_recorded(
            rt,
            alloc,
            session,
            options,
            WriteSink::new(file),
            &mut reading,
            &mut output,
        ),
    }
}

// Publishes lines, and writes their outcomes to standard output.
fn run_publish<R: Clock + Wait + Print + Eprint>(
    rt: &R,
    alloc: Global,
    session: &mut Session,
    credits: &Sender<()>,
    options: &Options<'_>,
) -> Result<(), Failure> {
    let mut output = WriteSink::new(io::writer(rt));
    let mut outcomes = Outcomes::new(alloc);
    publish(
        rt,
        alloc,
        session,
        credits,
        options,
        &mut outcomes,
        &mut output,
    )
}

// What the words ask for. None where they asked for help, which was printed.
fn options_of<'a, R: Print + Eprint>(
    rt: &R,
    alloc: Global,
    words: &'a [String],
) -> Result<Option<Options<'a>>, Failure> {
    match read_words(alloc, words) {
        Ok(Some(options)) => Ok(Some(options)),
        Ok(None) => Err(Failure::Usage),
        Err(error) => {
            let printed = error.print(rt);
            let is_mistake = error.use_stderr();
            drop(error);
            told(rt, printed, Failure::Fault)?;
            if is_mistake {
                return Err(Failure::Usage);
            }
            Ok(None)
        }
    }
}

// Makes an empty file for a recording: what it had is gone. Tells why, where it can't.
fn create_file<R: Files<File = File> + Eprint>(rt: &R, path: &str) -> Result<File, Failure>
    ensures { IfErr result (λ failure. failure ≡ Fault) }
{
    match File::create(rt, path) {
        Ok(file) => Ok(file),
        Err(error) => {
            let _ = eprintln!(rt; "the recording {path} can't be opened: {error}");
            drop(error);
            Err(Failure::Fault)
        }
    }
}

// The file of a recording, if the words name one.
fn record_file<R: Files<File = File> + Eprint>(
    rt: &R,
    path: Option<&str>,
) -> Result<Option<File>, Failure>
    ensures opened { IfOk result (λ file. is_some file ≡ is_some path.entry) }
    ensures fault { IfErr result (λ failure. failure ≡ Fault) }
{
    match path {
        None => Ok(None),
        Some(path) => Ok(Some(create_file(rt, path)?)),
    }
}

// Makes the channels, the file of a recording and the session.
fn begin<'a, R: Files<File = File> + Clock + RandomSource + Wait + Eprint>(
    rt: &R,
    alloc: Global,
    options: Options<'a>,
) -> Result<Start<'a>, Failure>
    ensures { IfOk result (λ start. is_some start.work.recording ≡ is_some options.entry.record) }
{
    let from = String::from_str(alloc, options.from)?;
    let (bytes, came) = bounded::<Came, _>(alloc, PIECES)?;
    let (credits, credit) = bounded::<(), _>(alloc, WINDOW)?;
    let lines = bytes.clone()?;
    let recording = record_file(rt, options.record)?;
    let session = Session::open(rt, alloc, &options, came)?;
    let work = Work {
        session,
        credits,
        options,
        recording,
    };
    Ok(Start {
        from,
        bytes,
        credit,
        lines,
        work,
    })
}

/// Reads the words of the command line, and opens the connection that they name. Returns `None`
/// where they ask for help, which is printed.
///
/// # Errors
///
/// `Usage` if the words name no command; `Fault` if a file cannot be opened, or the clock or
/// standard output fails; `OutOfMemory`.
pub fn prepare<'a, R>(
    rt: &R,
    alloc: Global,
    words: &'a [String],
) -> Result<Option<Start<'a>>, Failure>
where
    R: Files<File = File> + Clock + RandomSource + Wait + Print + Eprint,
{
    match options_of(rt, alloc, words)? {
        Some(options) => Ok(Some(begin(rt, alloc, options)?)),
        None => Ok(None),
    }
}
