//! What an acknowledgement subject says, as a line.

ghost use Rattle.std.specs.Prelude.{◌≡◌, option_map, IfOk};
ghost use Rattle.std.specs.Option.{option_copied};
ghost use Rattle.std.specs.Io.KnownBytes.{Keeps};
ghost use Rattle.js_tool_io.specs.Causes.{Rose};
ghost use Rattle.js_message.specs.Info.{shown};
ghost use Rattle.js_tool.specs.CommandTexts.{info_text, error_cells as error_cells_in, error_text};
ghost use Rattle.js_tool.specs.Program.{AnswersInfo, SaysNothing};
ghost use Rattle.js_tool_transcript.specs.Text.{cell_data, text_or_null, with_detail};

use crate::status::Status;
use js_message::{Info, InfoError, parse_info};
use js_tool_io::{Sink, write_all};
use js_tool_transcript::{Cell, push_line, push_refused};
use std::alloc::{AllocError, Global};

/// Reads an acknowledgement subject, and writes the line with what it says, or with the reason why
/// it is none.
pub(crate) fn answer_info<K: Sink>(alloc: Global, subject: &str, output: &mut K) -> Status
    ensures answers { AnswersInfo subject.now (K.taken output.old) (K.taken output.new) (K.faults output.old) (K.faults output.new) result }
    ensures write_fault { result ≡ Status.WriteFault → Rose (K.faults output.old) (K.faults output.new) }
    ensures silent { SaysNothing result → Keeps (K.taken output.old) (K.taken output.new) }
{
    match parse_info(subject) {
        Ok(info) => match info_line(alloc, &info) {
            Ok(line) => match write_all(output, &line) {
                Ok(()) => Status::Done,
                Err(_) => Status::WriteFault,
            },
            Err(AllocError) => Status::OutOfMemory,
        },
        Err(error) => match error_line(alloc, error) {
            Ok(line) => {
                let _ = write_all(output, &line);
                Status::Refused
            }
            Err(AllocError) => Status::OutOfMemory,
        },
    }
}

/// Returns the line with what a subject says.
pub(crate) fn info_line(alloc: Global, info: &Info) -> Result<Vec<u8>, AllocError>
    ensures { IfOk result (λ line. line.items ≡ info_text (shown info.now)) }
{
    let mut out = Vec::new(alloc);
    push_line(
        &mut out,
        &[
            Cell::Text(b"info"),
            text_or_none(info.domain),
            text_or_none(info.acc_hash),
            Cell::Text(info.stream.as_bytes()),
            Cell::Text(info.consumer.as_bytes()),
            Cell::Integer(info.delivered),
            Cell::Number(info.stream_sequence),
            Cell::Number(info.consumer_sequence),
            Cell::Digits(info.published.as_nanosecond()),
            Cell::Number(info.pending),
            text_or_none(info.token),
        ],
    )?;
    Ok(out)
}

fn text_or_none(text: Option<&str>) -> Cell<'_>
    ensures { cell_data result ≡ text_or_null (option_copied text.entry) }
{
    match text {
        Some(text) => Cell::Text(text.as_bytes()),
        None => Cell::Null,
    }
}

/// Returns the line for a subject that is no acknowledgement subject.
pub(crate) fn error_line(alloc: Global, error: InfoError) -> Result<Vec<u8>, AllocError>
    ensures { IfOk result (λ line. line.items ≡ error_text error) }
{
    let mut out = Vec::new(alloc);
    let (name, detail) = error_cells(error);
    push_refused(&mut out, name, detail)?;
    Ok(out)
}

fn error_cells(error: InfoError) -> (&'static [u8], Option<Cell<'static>>)
    ensures { with_detail result.0.now (option_map cell_data result.1) ≡ error_cells_in error }
{
    match error {
        InfoError::Prefix => (b"Prefix", None),
        InfoError::TokenCount { n } => (b"TokenCount", Some(Cell::Number(n))),
        InfoError::Number { place } => (b"Number", Some(Cell::Number(place))),
        InfoError::Instant => (b"Instant", None),
    }
}
