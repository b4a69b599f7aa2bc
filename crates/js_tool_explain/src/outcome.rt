//! What the consumer puts out in a step.

ghost use Rattle.std.specs.Prelude.{◌≡◌, ◌++◌, flat_map, length, OnOk};
ghost use Rattle.js_tool_explain.specs.Outcome as sentences;

use crate::sentence_part::{Part, push_line};
use js_base::Moment;
use js_ordered_table::{Consumer, ItemKind, Output, Phase, Recreation, Stage, Start};
use std::alloc::AllocError;

/// In which step something is put out.
#[derive(Clone, Copy)]
pub(crate) struct Place<'a> {
    pub(crate) at: Moment,
    /// The consumer was being recreated before.
    pub(crate) was_recreating: bool,
    /// In this event the end of the watcher ended the consumer.
    pub(crate) is_unwatched: bool,
    /// Sends go through after the step.
    pub(crate) is_up: bool,
    /// The consumer after the step.
    pub(crate) consumer: &'a Consumer,
}

/// What a request is for.
#[derive(Clone, Copy)]
pub(crate) enum Purpose {
    Delete,
    Create,
    Info,
}

// What this request of a recreation is for, unless it is one that its reader sent before.
fn stage_purpose(request: u64, recreation: &Recreation) -> Purpose
    ensures { result ≡ sentences.stage_purpose request recreation.now.stage }
{
    match recreation.stage {
        Stage::Between => Purpose::Info,
        Stage::Deleting { request: asked, .. } => {
            if request == asked {
                Purpose::Delete
            } else {
                Purpose::Info
            }
        }
        Stage::Creating { request: asked, .. } => {
            if request == asked {
                Purpose::Create
            } else {
                Purpose::Info
            }
        }
        Stage::Waiting { .. } => Purpose::Info,
    }
}

fn purpose_of(request: u64, phase: &Phase) -> Purpose
    ensures { result ≡ sentences.purpose_of request phase.now }
{
    match phase {
        Phase::Recreates(recreation) => stage_purpose(request, recreation),
        Phase::Pulls(_) => Purpose::Info,
        Phase::Pushes { .. } => Purpose::Info,
        Phase::Idle => Purpose::Info,
        Phase::Ended => Purpose::Info,
        Phase::Exhausted => Purpose::Info,
    }
}

fn push_yield(
    out: &mut Vec<u8>,
    at: Moment,
    sequence: u64,
    number: u64,
    bytes: u64,
) -> Result<(), AllocError>
    ensures { OnOk result (out.new.items ≡ out.old.items ++ sentences.yield_text at sequence number bytes) }
{
    push_line(
        out,
        at,
        &[
            Part::Text(b"Message "),
            Part::Number(sequence),
            Part::Text(b" came in order (consumer sequence "),
            Part::Number(number),
            Part::Text(b", "),
            Part::Count(bytes, b"byte"),
            Part::Text(b") and was handed out."),
        ],
    )
}

fn other_text(is_unwatched: bool) -> &'static [u8]
    ensures { result.now ≡ sentences.other_text is_unwatched }
{
    if is_unwatched {
        b"The user was handed the error Other: the connection is not watched any more."
    } else {
        b"The user was handed the error Other: a message that came cannot be read."
    }
}

fn pull_text(is_up: bool) -> &'static [u8]
    ensures { result.now ≡ sentences.pull_text is_up }
{
    if is_up {
        b"The user was handed the error Pull: six requests for the consumer's info have failed."
    } else {
        b"The user was handed the error Pull: the link is closed, so that a pull request did not go out or the sixth request for the consumer's info has failed."
    }
}

fn item_text(is_up: bool, is_unwatched: bool, kind: ItemKind) -> &'static [u8]
    ensures { result.now ≡ sentences.item_text is_up is_unwatched kind }
{
    match kind {
        ItemKind::MissingHeartbeat => {
            b"The user was handed the error MissingHeartbeat: nothing came from the server in time."
        }
        ItemKind::RequestLimitExceeded => {
            b"The user was handed the error RequestLimitExceeded: the server refused two requests of this size."
        }
        ItemKind::PushBasedConsumer => {
            b"The user was handed the error PushBasedConsumer: the consumer is a push consumer."
        }
        ItemKind::Pull => pull_text(is_up),
        ItemKind::Recreate => {
            b"The user was handed the error Recreate: all tries to recreate the consumer have failed."
        }
        ItemKind::Other => other_text(is_unwatched),
        ItemKind::StreamNotFound => {
            b"The user was handed the error StreamNotFound: the server has no stream of this name."
        }
    }
}

fn why_text(was_recreating: bool) -> &'static [u8]
    ensures { result.now ≡ sentences.why_text was_recreating }
{
    if was_recreating {
        b"What was held shows a gap: the consumer is being recreated (recreation "
    } else {
        b"The consumer is being recreated (recreation "
    }
}

fn push_recreation(
    out: &mut Vec<u8>,
    place: &Place<'_>,
    count: u64,
    start: Start,
) -> Result<(), AllocError>
    ensures { OnOk result (out.new.items ≡ out.old.items ++ sentences.recreation_text place.now.at place.now.was_recreating count start) }
{
    match start {
        Start::All => push_line(
            out,
            place.at,
            &[
                Part::Text(why_text(place.was_recreating)),
                Part::Number(count),
                Part::Text(b") from the beginning of the stream."),
            ],
        ),
        Start::From(sequence) => push_line(
            out,
            place.at,
            &[
                Part::Text(why_text(place.was_recreating)),
                Part::Number(count),
                Part::Text(b") from stream sequence "),
                Part::Number(sequence),
                Part::Text(b"."),
            ],
        ),
    }
}

fn push_request(out: &mut Vec<u8>, place: &Place<'_>, request: u64) -> Result<(), AllocError>
    ensures { OnOk result (out.new.items ≡ out.old.items ++ sentences.request_text place.now.at place.now.consumer.now request) }
{
    match purpose_of(request, &place.consumer.phase) {
        Purpose::Delete => push_numbered(
            out,
            place.at,
            b"The old consumer is being deleted (request ",
            request,
        ),
        Purpose::Create => push_line(
            out,
            place.at,
            &[
                Part::Text(b"The new consumer \""),
                Part::Text(place.consumer.name.as_str().as_bytes()),
                Part::Text(b"\" is being created (request "),
                Part::Number(request),
                Part::Text(b")."),
            ],
        ),
        Purpose::Info => push_numbered(
            out,
            place.at,
            b"The consumer's info is asked for (request ",
            request,
        ),
    }
}

fn push_numbered(
    out: &mut Vec<u8>,
    at: Moment,
    text: &'static [u8],
    request: u64,
) -> Result<(), AllocError>
    ensures { OnOk result (out.new.items ≡ out.old.items ++ sentences.numbered_text at text.now request) }
{
    push_line(
        out,
        at,
        &[Part::Text(text), Part::Number(request), Part::Text(b").")],
    )
}

fn publish_text(is_pull: bool) -> &'static [u8]
    ensures { result.now ≡ sentences.publish_text is_pull }
{
    if is_pull {
        b"A pull request was sent."
    } else {
        b"A flow-control message was answered."
    }
}

fn push_inbox(out: &mut Vec<u8>, at: Moment, inbox: u64) -> Result<(), AllocError>
    ensures { OnOk result (out.new.items ≡ out.old.items ++ sentences.inbox_text at inbox) }
{
    push_line(
        out,
        at,
        &[
            Part::Text(b"Inbox "),
            Part::Number(inbox),
            Part::Text(b" was opened for the new consumer."),
        ],
    )
}

fn push_output(out: &mut Vec<u8>, place: &Place<'_>, output: &Output) -> Result<(), AllocError>
    ensures { OnOk result (out.new.items ≡ out.old.items ++ sentences.output_text (sentences.place_of place.now) output.now) }
{
    match output {
        Output::Yield {
            stream_sequence,
            consumer_sequence,
            payload,
            ..
        } => push_yield(
            out,
            place.at,
            *stream_sequence,
            *consumer_sequence,
            payload.len() as u64,
        ),
        Output::Item { kind } => push_line(
            out,
            place.at,
            &[Part::Text(item_text(place.is_up, place.is_unwatched, *kind))],
        ),
        Output::Recreate {
            recreation_count,
            start,
        } => push_recreation(out, place, *recreation_count, *start),
        Output::Request { number, .. } => push_request(out, place, *number),
        Output::Publish { reply, .. } => push_line(
            out,
            place.at,
            &[Part::Text(publish_text(reply.is_some()))],
        ),
        Output::Subscribe { inbox, .. } => push_inbox(out, place.at, *inbox),
    }
}

/// Adds a sentence on each output of a step.
pub(crate) fn push_outputs(
    out: &mut Vec<u8>,
    place: &Place<'_>,
    outputs: &[Output],
) -> Result<(), AllocError>
    ensures { OnOk result (out.new.items ≡ out.old.items ++ flat_map (sentences.output_text (sentences.place_of place.now)) outputs.now) }
{
    for output in outputs {
        push_output(out, place, output)?;
    }
    Ok(())
}
