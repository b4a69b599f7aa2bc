//! The first line of a recording: how its reader is set up.

ghost use Rattle.std.specs.Prelude.{◌≡◌, ◌<◌, [], length, None, Ok, IfOk, OnOk};
ghost use Rattle.js_ordered_table.specs.Refusal.{refuse_input};
ghost use Rattle.js_tool_transcript.specs.ExtendedSetup.{setup_line_in};
ghost use Rattle.js_tool_transcript.specs.Transcript.{numbered};
ghost use Rattle.js_tool_transcript.specs.TranscriptReplay.{replay_input};
ghost use Rattle.js_tool_transcript.specs.declared.transcript.lines.Lines.TheVariants.{Extended};
ghost use Rattle.js_pipe_record.specs.FirstLine.{IsFirstLine, SaysSetup};

use js_base::{Boxed, Moment, Nanos, Text, all_3, all_4, all_5, both};
use js_call::ApiScope;
use js_json::consumer::{Info, SequenceInfo};
use js_json_members::{Key, ReadError, Written};
use js_ordered_table::{ConsumerContext, ReplayError, refuse_input};
use js_pipe::Failure;
use js_readers::ordered::Resilience;
use js_tool_io::cut_line;
use js_tool_transcript::{Lines, Setup, Unread, first_line_in, push_resilience};
use std::alloc::Global;

/// The first line of a recording, and the setup that it says.
#[derive(Drop)]
pub struct FirstLine {
    /// The line, with its line feed.
    pub(crate) line: Vec<u8>,
    pub(crate) setup: Boxed<Setup>,
}

/// What a first line tells of a reader, beside its consumer.
#[derive(Clone, Copy)]
pub(crate) struct Surroundings<'a> {
    /// Whether the server delivers unasked.
    pub is_push: bool,
    /// The moment at which the reader is opened.
    pub start: Moment,
    /// What the subjects of its inboxes begin with.
    pub inbox_prefix: &'a Text,
    /// How long the connection waits for an answer.
    pub request_timeout: Option<Nanos>,
}

// ---- the parts

fn json_text<T: Written>(alloc: Global, key: Key, value: &T) -> Result<String, ReadError> {
    let value = value.write(alloc, key)?;
    let text = value.to_string(alloc);
    drop(value);
    Ok(text?)
}

fn json_or_null(alloc: Global, key: Key, number: Option<u64>) -> Result<String, ReadError> {
    match number {
        Some(number) => json_text(alloc, key, &number),
        None => Ok(String::from_str(alloc, "null")?),
    }
}

fn settings_text(
    alloc: Global,
    scope: &ApiScope,
    around: Surroundings<'_>,
) -> Result<String, ReadError> {
    let (api, inbox, context, request) = all_4(
        json_text(alloc, Key::ApiPrefix, &scope.prefix),
        json_text(alloc, Key::InboxPrefix, around.inbox_prefix),
        json_or_null(alloc, Key::ContextTimeout, scope.timeout),
        json_or_null(alloc, Key::RequestTimeout, around.request_timeout),
    )?;
    Ok(format!(in alloc;
        r#"{{"api_prefix":{api},"inbox_prefix":{inbox},"context_timeout":{context},"request_timeout":{request}}}"#
    )?)
}

fn sequences_text(alloc: Global, sequences: SequenceInfo) -> Result<String, ReadError> {
    let consumer = sequences.consumer_sequence;
    let stream = sequences.stream_sequence;
    Ok(format!(in alloc; r#"{{"consumer_seq":{consumer},"stream_seq":{stream}}}"#)?)
}

// What the server told of the consumer, but for when it was last read, and what only some servers
// tell.
fn info_text(alloc: Global, info: &Info) -> Result<String, ReadError> {
    let (names, config, delivered, ack_floor, counts) = all_5(
        names_text(alloc, info),
        json_text(alloc, Key::Config, &info.config),
        sequences_text(alloc, info.delivered),
        sequences_text(alloc, info.ack_floor),
        counts_text(alloc, info),
    )?;
    Ok(format!(in alloc;
        r#"{{{names},"config":{config},"delivered":{delivered},"ack_floor":{ack_floor},{counts}}}"#
    )?)
}

fn names_text(alloc: Global, info: &Info) -> Result<String, ReadError> {
    let (stream, name, created) = all_3(
        json_text(alloc, Key::StreamName, &info.stream_name),
        json_text(alloc, Key::Name, &info.name),
        json_text(alloc, Key::Created, &info.created),
    )?;
    Ok(format!(in alloc; r#""stream_name":{stream},"name":{name},"created":{created}"#)?)
}

fn counts_text(alloc: Global, info: &Info) -> Result<String, ReadError> {
    let ack_pending = info.num_ack_pending;
    let redelivered = info.num_redelivered;
    let waiting = info.num_waiting;
    let pending = info.num_pending;
    Ok(format!(in alloc;
        r#""num_ack_pending":{ack_pending},"num_redelivered":{redelivered},"num_waiting":{waiting},"num_pending":{pending}"#
    )?)
}

// ---- the line

// The options of the reader, which are all on.
fn resilience_text(alloc: Global) -> Result<Vec<u8>, ReadError> {
    let mut text = Vec::new(alloc);
    push_resilience(&mut text, Resilience::all())?;
    Ok(text)
}

// The line up to the value of `resilience`. What the consumer was asked for is in what the server
// told of it.
fn line_front(
    alloc: Global,
    around: Surroundings<'_>,
    scope: &ApiScope,
    info: &Info,
) -> Result<String, ReadError> {
    let (settings, config, info) = all_3(
        settings_text(alloc, scope, around),
        json_text(alloc, Key::Config, &info.config),
        info_text(alloc, info),
    )?;
    let mode = if around.is_push { "push" } else { "pull" };
    let start = around.start;
    Ok(format!(in alloc;
        r#"{{"mode":"{mode}","start":{start},"settings":{settings},"config":{config},"info":{info},"resilience":"#
    )?)
}

fn line_text(
    alloc: Global,
    around: Surroundings<'_>,
    scope: &ApiScope,
    info: &Info,
) -> Result<Vec<u8>, ReadError> {
    let front = line_front(alloc, around, scope, info);
    let (front, resilience) = both(front, resilience_text(alloc))?;
    let mut line = front.into_bytes();
    line.extend_from_slice(&resilience)?;
    line.push(b'}')?;
    Ok(line)
}

// ---- the setup

// Why `rerun` refuses the setup, if it does.
fn refusal_of(setup: &Setup) -> Option<ReplayError>
    ensures { result ≡ refuse_input (replay_input setup.now) setup.now.start [] }
{
    let context = ConsumerContext {
        settings: &setup.settings,
        setup: &setup.setup,
        first: &setup.first,
        moment: setup.start,
    };
    refuse_input(&context, &[])
}

fn accepted(setup: Boxed<Setup>) -> Result<Boxed<Setup>, Failure>
    ensures same { IfOk result (λ accepted. accepted ≡ setup) }
    ensures accepted { OnOk result (refuse_input (replay_input setup) setup.start [] ≡ None) }
{
    match refusal_of(setup.get()) {
        None => Ok(setup),
        Some(_) => {
            drop(setup);
            Err(Failure::Refused)
        }
    }
}

// The setup that a line says, as `rerun` reads it.
fn setup_in(alloc: Global, line: &[u8]) -> Result<Boxed<Setup>, Failure>
    ensures reads { IfOk result (λ setup. numbered 1 (setup_line_in Extended line.now) ≡ Ok setup) }
    ensures accepted { IfOk result (λ setup. refuse_input (replay_input setup) setup.start [] ≡ None) }
{
    match first_line_in(alloc, Lines::Extended, line) {
        Ok(setup) => accepted(Boxed::new(alloc, setup)?),
        Err(Unread::BadLine(_)) => Err(Failure::Refused),
        Err(Unread::OutOfMemory) => Err(Failure::OutOfMemory),
    }
}

// The setup that bytes say, if they are one line.
fn setup_of(alloc: Global, bytes: &[u8]) -> Result<Boxed<Setup>, Failure>
    requires { 0 < length bytes.now }
    ensures { IfOk result (λ setup. SaysSetup bytes.now setup) }
{
    let (line, rest) = cut_line(bytes);
    match rest {
        [] => setup_in(alloc, line),
        _ => Err(Failure::Refused),
    }
}

// What is not written because of this error.
fn failure_of(error: ReadError) -> Failure {
    match error {
        ReadError::OutOfMemory => Failure::OutOfMemory,
        _ => Failure::Refused,
    }
}

impl FirstLine {
    /// Makes the first line of a text, and reads its setup.
    ///
    /// # Errors
    ///
    /// `Refused` if the text is no line, or says no setup, or one that `rerun` refuses;
    /// `OutOfMemory`.
    pub fn read(alloc: Global, text: Vec<u8>) -> Result<FirstLine, Failure>
        ensures { IfOk result (λ first. IsFirstLine first.line.items first.setup) }
    {
        let mut line = text;
        line.push(b'\n')?;
        match setup_of(alloc, &line) {
            Ok(setup) => Ok(FirstLine { line, setup }),
            Err(failure) => {
                drop(line);
                Err(failure)
            }
        }
    }

    // The first line of a reader of the consumer that the server told of. Fails as `read` does.
    pub(crate) fn new(
        alloc: Global,
        around: Surroundings<'_>,
        scope: &ApiScope,
        info: &Info,
    ) -> Result<FirstLine, Failure>
        ensures { IfOk result (λ first. IsFirstLine first.line.items first.setup) }
    {
        match line_text(alloc, around, scope, info) {
            Ok(text) => FirstLine::read(alloc, text),
            Err(error) => Err(failure_of(error)),
        }
    }
}
