//! The command `consume`: the messages of a stream, in order and without a gap.

ghost use Rattle.std.specs.Prelude.{◌≡◌, ◌<◌, [], OnOk};
ghost use Rattle.std.specs.Io.KnownBytes.{Appends};

use crate::consumers::{open_pull, open_push};
use crate::read_progress::Reading;
use crate::reader::Reads;
use js_base::Next;
use js_pipe::{Failure, Options, Session, tell};
use js_tool_io::Sink;
use std::alloc::Global;
use std::sync::Wait;
use std::time::Clock;

/// What a look at the reader came to.
#[derive(Clone, Copy, Debug, PartialEq, Eq)]
enum Look {
    /// A message was read, or an error was told.
    Read,
    /// Nothing can be read yet.
    Waits,
    /// The reader has ended.
    Ended,
}

// Looks at the reader once, and adds the line of the message that it hands out.
fn read_next<R: Clock + Eprint, P: Reads>(
    rt: &R,
    alloc: Global,
    session: &mut Session,
    reader: &mut P,
    reading: &mut Reading,
) -> Result<Look, Failure>
    requires { 0 < reading.old.left }
    ensures written { reading.new.written ≡ reading.old.written }
{
    let now = session.now(rt)?;
    match reader.poll(alloc, session.link(), now) {
        Next::Item(Ok(message)) => {
            let added = reading.add(rt, alloc, &message);
            drop(message);
            added?;
            Ok(Look::Read)
        }
        Next::Item(Err(error)) => {
            tell(rt, &error, Failure::Refused);
            drop(error);
            Ok(Look::Read)
        }
        Next::Pending => Ok(Look::Waits),
        Next::End => Ok(Look::Ended),
        Next::OutOfMemory => Err(Failure::OutOfMemory),
    }
}

// Writes what is recorded, and then the lines of what was read: none is written before what it came
// of is recorded. What is written does not depend on whether the reader records.
fn write<R: Eprint, P: Reads, K: Sink>(
    rt: &R,
    alloc: Global,
    reader: &mut P,
    reading: &mut Reading,
    output: &mut K,
) -> Result<(), Failure>
    ensures recorded { P.unwritten reader.new ≡ [] }
    ensures printed { OnOk result (Appends (K.taken output.old) (K.taken output.new) reading.old.page.items) }
    ensures empty { OnOk result (reading.new.page.items ≡ []) }
    ensures written { OnOk result (reading.new.written ≡ reading.new.last) }
    ensures left { reading.new.left ≡ reading.old.left }
{
    reader.keep(rt, alloc);
    reading.write(output)
}

// Writes what was recorded and read, and sleeps until something comes.
fn sleep<R: Clock + Wait + Eprint, P: Reads, K: Sink>(
    rt: &R,
    alloc: Global,
    session: &mut Session,
    reader: &mut P,
    reading: &mut Reading,
    output: &mut K,
) -> Result<(), Failure> {
    write(rt, alloc, reader, reading, output)?;
    drop(session.turn(rt, alloc, reader.wakes_at())?);
    Ok(())
}

// Reads until all messages that are wanted came. Each that came before the program sleeps is
// written before.
fn read<R: Clock + Wait + Eprint, P: Reads, K: Sink>(
    rt: &R,
    alloc: Global,
    session: &mut Session,
    reader: &mut P,
    reading: &mut Reading,
    output: &mut K,
) -> Result<(), Failure>
    ensures all { OnOk result (reading.new.left ≡ 0) }
{
    for _ in rt.forever() {
        if reading.is_full() {
            return Ok(());
        }
        match read_next(rt, alloc, session, reader, reading)? {
            Look::Read => {}
            Look::Ended => return Err(Failure::Refused),
            Look::Waits => sleep(rt, alloc, session, reader, reading, output)?,
        }
    }
    unreachable!()
}

/// Reads until all messages that are wanted came, and writes a line for each. What was recorded is
/// written before it. Then closes the reader, and tells on standard error with which `--start` the
/// next run goes on.
///
/// # Errors
///
/// Fails as [`consume`] does, and with `Unrecorded` if all was read and written, but the reader's
/// recording is not whole.
pub fn read_and_close<R: Clock + Wait + Eprint, P: Reads, K: Sink>(
    rt: &R,
    alloc: Global,
    session: &mut Session,
    reader: P,
    reading: &mut Reading,
    output: &mut K,
) -> Result<(), Failure>
    ensures all { OnOk result (reading.new.left ≡ 0) }
    ensures empty { OnOk result (reading.new.page.items ≡ []) }
    ensures written { OnOk result (reading.new.written ≡ reading.new.last) }
{
    let mut reader = reader;
    let ended = read(rt, alloc, session, &mut reader, reading, output);
    let written = write(rt, alloc, &mut reader, reading, output);
    let recorded = reader.close(rt, session.link());
    if let Some(next) = reading.bookmark() {
        let _ = eprintln!(rt; "go on with --start {next}");
    }
    ended?;
    written?;
    recorded
}

/// Reads the messages that the words ask for, and writes a line for each. At its end it tells on
/// standard error with which `--start` the next run goes on.
///
/// # Errors
///
/// `Lost` if the connection ended, does not answer or brings damaged bytes; `Refused` if the server
/// does not create the consumer, or the reader has ended; `Fault` if standard output or the clock
/// fails; `OutOfMemory`.
pub fn consume<R: Clock + Wait + Eprint, K: Sink>(
    rt: &R,
    alloc: Global,
    session: &mut Session,
    options: &Options<'_>,
    reading: &mut Reading,
    output: &mut K,
) -> Result<(), Failure>
    ensures all { OnOk result (reading.new.left ≡ 0) }
    ensures empty { OnOk result (reading.new.page.items ≡ []) }
    ensures written { OnOk result (reading.new.written ≡ reading.new.last) }
{
    if options.is_push {
        let reader = open_push(rt, alloc, session, options)?;
        return read_and_close(rt, alloc, session, reader, reading, output);
    }
    let reader = open_pull(rt, alloc, session, options)?;
    read_and_close(rt, alloc, session, reader, reading, output)
}
