//! Lines that are to be written to standard output.

ghost use Rattle.std.specs.Prelude.{◌≡◌, ◌++◌, [], IfOk, OnOk, OnErr, IfErr, codes, decimal, string_bytes};
ghost use Rattle.std.specs.Io.KnownBytes.{Appends};
ghost use Rattle.js_tool_io.specs.Causes.{AppendsPrefix};
ghost use Rattle.js_pipe.specs.Lines.{message_line as line_of_message, outcome_line as line_of_outcome};

use crate::failure::Failure;
use js_tool_io::{Sink, write_all};
use std::alloc::{AllocError, Global};

// What stands before the payload in the line of a message.
fn message_head(alloc: Global, sequence: u64, subject: &str) -> Result<String, AllocError>
    ensures { IfOk result (λ head. string_bytes head ≡ decimal sequence ++ (codes " " ++ (subject.now ++ codes " "))) }
{
    format!(in alloc; "{sequence} {subject} ")
}

fn message_line(
    alloc: Global,
    sequence: u64,
    subject: &str,
    payload: &[u8],
) -> Result<Vec<u8>, AllocError>
    ensures { IfOk result (λ line. line.items ≡ line_of_message sequence subject.now payload.now) }
{
    let mut line = message_head(alloc, sequence, subject)?.into_bytes();
    line.extend_from_slice(payload)?;
    line.push(b'\n')?;
    Ok(line)
}

/// Adds the line of a message to the page, or nothing.
pub fn add_message_line(
    alloc: Global,
    page: &mut Vec<u8>,
    sequence: u64,
    subject: &str,
    payload: &[u8],
) -> Result<(), AllocError>
    ensures ok { OnOk result (page.new.items ≡ page.old.items ++ line_of_message sequence subject.now payload.now) }
    ensures err { OnErr result (page.new.items ≡ page.old.items) }
{
    let line = message_line(alloc, sequence, subject, payload)?;
    page.extend_from_slice(&line)
}

fn outcome_line(alloc: Global, number: u64, stored: Option<u64>) -> Result<String, AllocError>
    ensures { IfOk result (λ line. string_bytes line ≡ line_of_outcome number stored) }
{
    match stored {
        Some(sequence) => format!(in alloc; "{number} {sequence}\n"),
        None => format!(in alloc; "{number} failed\n"),
    }
}

/// Adds the outcome of a line to the page, or nothing: its number, and the stream sequence that it
/// is stored under.
pub fn add_outcome_line(
    alloc: Global,
    page: &mut Vec<u8>,
    number: u64,
    stored: Option<u64>,
) -> Result<(), AllocError>
    ensures ok { OnOk result (page.new.items ≡ page.old.items ++ line_of_outcome number stored) }
    ensures err { OnErr result (page.new.items ≡ page.old.items) }
{
    let line = outcome_line(alloc, number, stored)?;
    page.extend_from_slice(line.as_bytes())
}

/// Writes the page, and empties it. Fails with `Fault` if the output fails; the page then stays,
/// though its beginning may be written.
pub fn write_page<K: Sink>(page: &mut Vec<u8>, output: &mut K) -> Result<(), Failure>
    ensures written { OnOk result (Appends (K.taken output.old) (K.taken output.new) page.old.items) }
    ensures empty { OnOk result (page.new.items ≡ []) }
    ensures beginning { OnErr result (AppendsPrefix (K.taken output.old) (K.taken output.new) page.old.items) }
    ensures kept { OnErr result (page.new.items ≡ page.old.items) }
    ensures failure { IfErr result (λ failure. failure ≡ Failure.Fault) }
{
    match write_all(output, page.as_slice()) {
        Ok(()) => {
            page.clear();
            Ok(())
        }
        Err(_) => Err(Failure::Fault),
    }
}
