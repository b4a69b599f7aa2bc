//! The text of a run: one line for each output, in order, and a last line.

ghost use Rattle.std.specs.Prelude.{◌≡◌, ◌++◌, [], ◌∷◌, codes, length, flat_map, option_map, OnOk, IfOk};
ghost use Rattle.serde_json.specs.Data.{string};
ghost use Rattle.js_ordered_table.specs.declared.run.Output.TheVariants as output;
ghost use Rattle.js_tool_transcript.specs.Text.{cell_data, start_data, kind_name, field_name, text_or_null, unless_empty, output_text, last_line, line_text, with_detail, refusal_cells as refusal_cells_in, refusal_text};

mod line;
mod pieces;
mod quoted;

use bytes::Bytes;
use js_base::Subject;
use js_ordered_table::{Field, ItemKind, Output, ReplayError, Start};
pub use line::{Cell, push_line};
pub(crate) use pieces::{push_comma, push_decimal, push_plain};
pub(crate) use quoted::{plain_front, push_quoted};
use std::alloc::{AllocError, Global};

/// Adds one line for each output of the step with this number.
pub fn push_outputs(out: &mut Vec<u8>, number: u64, outputs: &[Output]) -> Result<(), AllocError>
    ensures { OnOk result (out.new.items ≡ out.old.items ++ flat_map (output_text number) outputs.now) }
{
    for output in outputs {
        push_output(out, number, output)?;
    }
    Ok(())
}

fn push_output(out: &mut Vec<u8>, step: u64, output: &Output) -> Result<(), AllocError>
    ensures { OnOk result (out.new.items ≡ out.old.items ++ output_text step output.now) }
{
    match output {
        Output::Yield {
            stream_sequence,
            consumer_sequence,
            subject,
            payload,
        } => push_yield(
            out,
            step,
            *stream_sequence,
            *consumer_sequence,
            subject,
            payload,
        ),
        Output::Item { kind } => push_line(
            out,
            &[
                Cell::Number(step),
                Cell::Text(b"item"),
                Cell::Text(item_name(*kind)),
            ],
        ),
        Output::Recreate {
            recreation_count,
            start,
        } => push_recreation(out, step, *recreation_count, *start),
        Output::Request {
            number,
            subject,
            payload,
        } => push_request(out, step, *number, subject, payload),
        Output::Publish {
            subject,
            reply,
            payload,
        } => push_publish(out, step, subject, reply, payload),
        Output::Subscribe { inbox, subject } => push_subscription(out, step, *inbox, subject),
    }
}

fn push_yield<'a>(
    out: &mut Vec<u8>,
    step: u64,
    stream_sequence: u64,
    consumer_sequence: u64,
    subject: &'a Subject,
    payload: &'a Bytes,
) -> Result<(), AllocError>
    ensures { OnOk result (out.new.items ≡ out.old.items ++ output_text step (output.Yield stream_sequence consumer_sequence subject.now payload.now)) }
{
    let cells = [
        Cell::Number(step),
        Cell::Text(b"yield"),
        Cell::Number(stream_sequence),
        Cell::Number(consumer_sequence),
        Cell::Text(payload.as_slice()),
        Cell::Text(subject.as_str().as_bytes()),
    ];
    if subject.as_str().is_empty() {
        return push_line(out, &cells[..5]);
    }
    push_line(out, &cells)
}

fn push_recreation(
    out: &mut Vec<u8>,
    step: u64,
    recreation_count: u64,
    start: Start,
) -> Result<(), AllocError>
    ensures { OnOk result (out.new.items ≡ out.old.items ++ output_text step (output.Recreate recreation_count start)) }
{
    push_line(
        out,
        &[
            Cell::Number(step),
            Cell::Text(b"recreate"),
            Cell::Number(recreation_count),
            start_cell(start),
        ],
    )
}

fn push_request<'a>(
    out: &mut Vec<u8>,
    step: u64,
    number: u64,
    subject: &'a Subject,
    payload: &'a Bytes,
) -> Result<(), AllocError>
    ensures { OnOk result (out.new.items ≡ out.old.items ++ output_text step (output.Request number subject.now payload.now)) }
{
    push_line(
        out,
        &[
            Cell::Number(step),
            Cell::Text(b"request"),
            Cell::Number(number),
            Cell::Text(subject.as_str().as_bytes()),
            Cell::Text(payload.as_slice()),
        ],
    )
}

fn push_publish<'a>(
    out: &mut Vec<u8>,
    step: u64,
    subject: &'a Subject,
    reply: &'a Option<Subject>,
    payload: &'a Bytes,
) -> Result<(), AllocError>
    ensures { OnOk result (out.new.items ≡ out.old.items ++ output_text step (output.Publish subject.now reply.now payload.now)) }
{
    push_line(
        out,
        &[
            Cell::Number(step),
            Cell::Text(b"publish"),
            Cell::Text(subject.as_str().as_bytes()),
            reply_cell(reply),
            Cell::Text(payload.as_slice()),
        ],
    )
}

fn push_subscription(
    out: &mut Vec<u8>,
    step: u64,
    inbox: u64,
    subject: &Subject,
) -> Result<(), AllocError>
    ensures { OnOk result (out.new.items ≡ out.old.items ++ output_text step (output.Subscribe inbox subject.now)) }
{
    push_line(
        out,
        &[
            Cell::Number(step),
            Cell::Text(b"subscribe"),
            Cell::Number(inbox),
            Cell::Text(subject.as_str().as_bytes()),
        ],
    )
}

fn item_name(kind: ItemKind) -> &'static [u8]
    ensures { result.now ≡ kind_name kind }
{
    match kind {
        ItemKind::MissingHeartbeat => b"MissingHeartbeat",
        ItemKind::RequestLimitExceeded => b"RequestLimitExceeded",
        ItemKind::PushBasedConsumer => b"PushBasedConsumer",
        ItemKind::Pull => b"Pull",
        ItemKind::Recreate => b"Recreate",
        ItemKind::Other => b"Other",
        ItemKind::StreamNotFound => b"StreamNotFound",
    }
}

fn start_cell(start: Start) -> Cell<'static>
    ensures { cell_data result ≡ start_data start }
{
    match start {
        Start::All => Cell::Text(b"all"),
        Start::From(sequence) => Cell::Number(sequence),
    }
}

fn reply_cell<'a>(reply: &'a Option<Subject>) -> Cell<'a>
    ensures { cell_data result ≡ text_or_null reply.now }
{
    match reply {
        Some(subject) => Cell::Text(subject.as_str().as_bytes()),
        None => Cell::Null,
    }
}

/// Adds the last line: whether the consumer has ended, and how many events there were.
pub fn push_end(out: &mut Vec<u8>, ended: bool, events: u64) -> Result<(), AllocError>
    ensures { OnOk result (out.new.items ≡ out.old.items ++ last_line ended events) }
{
    push_line(
        out,
        &[Cell::Text(b"end"), Cell::Truth(ended), Cell::Number(events)],
    )
}

/// Returns the line that reports an error of the replay.
pub fn refusal_line(alloc: Global, refusal: ReplayError) -> Result<Vec<u8>, AllocError>
    ensures { IfOk result (λ line. line.items ≡ refusal_text refusal) }
{
    let mut out = Vec::new(alloc);
    push_refusal(&mut out, refusal)?;
    Ok(out)
}

fn push_refusal(out: &mut Vec<u8>, refusal: ReplayError) -> Result<(), AllocError>
    ensures { OnOk result (out.new.items ≡ out.old.items ++ refusal_text refusal) }
{
    let (name, detail) = refusal_cells(refusal);
    push_refused(out, name, detail)
}

/// Adds a line with the cell `refused`, the name of the reason, and the detail if there is one.
pub fn push_refused<'c>(
    out: &mut Vec<u8>,
    name: &'c [u8],
    detail: Option<Cell<'c>>,
) -> Result<(), AllocError>
    ensures { OnOk result (out.new.items ≡ out.old.items ++ line_text (string (codes "refused") ∷ with_detail name.now (option_map cell_data detail.entry))) }
{
    match detail {
        None => push_line(out, &[Cell::Text(b"refused"), Cell::Text(name)]),
        Some(detail) => push_line(out, &[Cell::Text(b"refused"), Cell::Text(name), detail]),
    }
}

fn refusal_cells(refusal: ReplayError) -> (&'static [u8], Option<Cell<'static>>)
    ensures { with_detail result.0.now (option_map cell_data result.1) ≡ refusal_cells_in refusal }
{
    match refusal {
        ReplayError::NoDeliverSubject => (b"NoDeliverSubject", None),
        ReplayError::BadSettings { field } => {
            (b"BadSettings", Some(Cell::Text(field_text(field))))
        }
        ReplayError::BadEvent { place } => (b"BadEvent", Some(Cell::Number(place))),
        ReplayError::SequenceEnd { place } => (b"SequenceEnd", Some(Cell::Number(place))),
        ReplayError::OutOfMemory => (b"OutOfMemory", None),
    }
}

/// Returns the name of a setting as the line of an error writes it.
pub fn field_text(field: Field) -> &'static [u8]
    ensures { result.now ≡ field_name field }
{
    match field {
        Field::StreamName => b"stream_name",
        Field::Name => b"name",
        Field::ApiPrefix => b"api_prefix",
        Field::InboxPrefix => b"inbox_prefix",
        Field::FilterSubject => b"filter_subject",
        Field::DeliverSubject => b"deliver_subject",
    }
}
