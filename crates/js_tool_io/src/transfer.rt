//! Reading a source to its end, and writing a whole text into a sink.

ghost use Rattle.std.specs.Prelude.{◌≡◌, ◌≤◌, ◌<◌, ◌++◌, [], length, take, Some, IfOk, IfSome, IsErrOf, OnOk, OnErr, vec_len};
ghost use Rattle.std.specs.Io.KnownBytes.{Appends};
ghost use Rattle.js_tool_io.specs.Causes.{Rose, AppendsPrefix};
ghost use Rattle.js_tool_io.specs.declared.transfer.Stop.TheVariants.{OutOfMemory};

use crate::pieces::Pieces;
use crate::{Failed, Sink, Source};
use std::alloc::{AllocError, Global};

/// The longest input that `read_all` reads, in bytes.
pub const MOST_BYTES: usize = 67_108_864;

const BUFFER: usize = 65_536;

/// Why an input was not read whole.
#[derive(Clone, Copy, Debug, PartialEq, Eq)]
pub enum Stop {
    /// The source failed.
    Fault,
    /// The source has more than `MOST_BYTES`.
    TooLong,
    OutOfMemory,
}

impl From<AllocError> for Stop {
    ghost from_gives = { λ _ e. e ≡ OutOfMemory };

    fn from(_: AllocError) -> Self {
        Stop::OutOfMemory
    }
}

/// Reads all the bytes of a source, at most `MOST_BYTES`.
///
/// # Errors
///
/// Fails with the first of these that occurs. The bytes read so far are lost.
///
/// - `Fault`: a read failed, so the source's count of faults has risen.
/// - `TooLong`: the source has more than `MOST_BYTES`. This is reported by the read that exceeds
///   them, before the source's end.
/// - `OutOfMemory`: memory ran out for the buffer or for the bytes.
pub fn read_all<S: Source>(alloc: Global, input: &mut S) -> Result<Pieces, Stop>
    ensures whole { IfOk result (λ read. IfSome (S.left input.old) (λ bytes. read ≡ bytes)) }
    ensures at_end { OnOk result (IfSome (S.left input.new) (λ rest. rest ≡ [])) }
    ensures within { IfOk result (λ read. length read ≤ MOST_BYTES) }
    ensures too_long { IsErrOf result Stop.TooLong
        → IfSome (S.left input.old) (λ bytes. MOST_BYTES < length bytes) }
    ensures fault { IsErrOf result Stop.Fault → Rose (S.faults input.old) (S.faults input.new) }
    ensures later { S.faults input.old ≤ S.faults input.new }
{
    let mut buf = buffer(alloc)?;
    read_through(alloc, input, &mut buf)
}

fn buffer(alloc: Global) -> Result<Vec<u8>, AllocError>
    ensures { IfOk result (λ buf. 0 < vec_len buf) }
{
    vec![in alloc; 0u8; BUFFER]
}

fn read_through<S: Source>(alloc: Global, input: &mut S, buf: &mut [u8]) -> Result<Pieces, Stop>
    requires { 0 < length buf.old }
    ensures whole { IfOk result (λ read. IfSome (S.left input.old) (λ bytes. read ≡ bytes)) }
    ensures at_end { OnOk result (IfSome (S.left input.new) (λ rest. rest ≡ [])) }
    ensures within { IfOk result (λ read. length read ≤ MOST_BYTES) }
    ensures too_long { IsErrOf result Stop.TooLong
        → IfSome (S.left input.old) (λ bytes. MOST_BYTES < length bytes) }
    ensures fault { IsErrOf result Stop.Fault → Rose (S.faults input.old) (S.faults input.new) }
    ensures later { S.faults input.old ≤ S.faults input.new }
{
    let mut read = Pieces::new(alloc);
    let mut length = 0;
    loop {
        let count = match input.read(buf) {
            Ok(count) => count,
            Err(Failed) => return Err(Stop::Fault),
        };
        if count == 0 {
            return Ok(read);
        }
        if count > MOST_BYTES - length {
            return Err(Stop::TooLong);
        }
        read.add(alloc, &buf[..count])?;
        length += count;
    }
}

/// Writes all of the text. If it fails, only the beginning of the text was written.
pub fn write_all<K: Sink>(output: &mut K, text: &[u8]) -> Result<(), Failed>
    ensures ok { OnOk result (Appends (K.taken output.old) (K.taken output.new) text.now) }
    ensures err { OnErr result (AppendsPrefix (K.taken output.old) (K.taken output.new) text.now) }
    ensures cause { OnErr result (Rose (K.faults output.old) (K.faults output.new)) }
    ensures later { K.faults output.old ≤ K.faults output.new }
{
    let mut at = 0;
    while at < text.len() {
        let count = output.write(&text[at..])?;
        if count == 0 {
            return Err(Failed);
        }
        at += count;
    }
    Ok(())
}
