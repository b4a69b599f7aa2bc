//! Bodies of the API as JSON texts: what is read of them, and what is written.

use crate::tables::{same, says};
use crate::{answer_rows, consumer_rows, stream_rows};
use js_base::{Text, TryClone, both};
use js_codes::errors::Error;
use js_codes::is_valid_name;
use js_json::account::{Account, Limits};
use js_json::{PublishAck, Response, consumer, response_as};
use js_json_members::{FromValue, ReadError, ToValue, value_of};
use js_json_stream_bodies::{DeleteStatus, stream};
use std::alloc::Global;

/// What a text is read as.
#[derive(Clone, Copy)]
pub(crate) enum Body {
    ConsumerInfo,
    StreamInfo,
    Names,
    Streams,
    Deletion,
    /// An answer to a publish.
    Answer,
    /// The same, from a value that was read before.
    AnswerValue,
    /// The error of an answer, as it is printed.
    Printed,
    /// The error of an answer, as it is written.
    Written,
    /// When the reader of a priority group was pinned.
    Pin,
    Placement,
    Republish,
    External,
    /// The name and the leader of a consumer's cluster.
    Cluster,
}

type Words = Result<String, ReadError>;

fn read<T: FromValue>(alloc: Global, text: &str) -> Result<T, ReadError> {
    let value = value_of(alloc, text.as_bytes())?;
    T::from_value(alloc, &value)
}

// What is written for what is read.
fn rewritten<T: FromValue + ToValue>(alloc: Global, text: &str) -> Words {
    read::<T>(alloc, text)?.to_text(alloc)
}

// Whether a copy of what is read, and what is read of the text that is written for it, are equal to it.
fn is_kept<T: FromValue + ToValue + TryClone + PartialEq>(
    alloc: Global,
    text: &str,
) -> Result<bool, ReadError> {
    let value: T = read(alloc, text)?;
    let written = value.to_text(alloc)?;
    let again: T = read(alloc, written.as_str())?;
    Ok(again == value && value.try_clone()? == value)
}

// What is written, or what is printed of the fault.
fn word(alloc: Global, written: Words) -> Words {
    match written {
        Ok(text) => Ok(text),
        Err(ReadError::OutOfMemory) => Err(ReadError::OutOfMemory),
        Err(fault) => Ok(fault.to_string(alloc)?),
    }
}

fn consumer_word(alloc: Global, text: &str) -> Words {
    word(alloc, rewritten::<consumer::Config>(alloc, text))
}

fn stream_word(alloc: Global, text: &str) -> Words {
    word(alloc, rewritten::<stream::Config>(alloc, text))
}

#[test]
fn faults_of_consumers_are_told(rt: HostRuntime) {
    for &(text, wanted) in consumer_rows::FAULTS {
        says(&rt, text, consumer_word(rt.alloc(), text), wanted);
    }
}

#[test]
fn faults_of_streams_are_told(rt: HostRuntime) {
    for &(text, wanted) in stream_rows::FAULTS {
        says(&rt, text, stream_word(rt.alloc(), text), wanted);
    }
}

#[test]
fn consumers_are_written(rt: HostRuntime) {
    for &(text, wanted) in consumer_rows::CONFIGS {
        says(&rt, text, consumer_word(rt.alloc(), text), wanted);
        let kept = is_kept::<consumer::Config>(rt.alloc(), text);
        same(&rt, text, kept, Ok(true));
    }
}

#[test]
fn streams_are_written(rt: HostRuntime) {
    for &(text, wanted) in stream_rows::CONFIGS {
        says(&rt, text, stream_word(rt.alloc(), text), wanted);
        let kept = is_kept::<stream::Config>(rt.alloc(), text);
        same(&rt, text, kept, Ok(true));
    }
}

// How many messages the consumer has got and has to get, and its configuration.
fn consumer_info(alloc: Global, info: &consumer::Info) -> Words {
    let config = info.config.to_text(alloc)?;
    let delivered = info.delivered.stream_sequence;
    let pending = info.num_pending;
    Ok(format!(in alloc; "{delivered} {pending} {config}")?)
}

// The same of a copy.
fn copied_consumer_info(alloc: Global, info: &consumer::Info) -> Words {
    let copy = info.try_clone()?;
    let words = consumer_info(alloc, &copy);
    drop(copy);
    words
}

// The info, or the error.
fn answered(alloc: Global, response: &Response<consumer::Info>) -> Words {
    match response {
        Response::Ok(info) => copied_consumer_info(alloc, info),
        Response::Err { error } => error.to_text(alloc),
    }
}

fn in_answer(alloc: Global, text: &str) -> Words {
    let response = response_as(alloc, text.as_bytes())?;
    let words = answered(alloc, &response);
    drop(response);
    words
}

// Messages, bytes, first and last sequence.
fn state_text(alloc: Global, state: &stream::State) -> Words {
    let messages = state.messages;
    let bytes = state.bytes;
    let first = state.first_sequence;
    let last = state.last_sequence;
    Ok(format!(in alloc; "{messages} {bytes} {first} {last}")?)
}

// The same of a copy.
fn copied_state_text(alloc: Global, state: &stream::State) -> Words {
    let copy = state.try_clone()?;
    let words = state_text(alloc, &copy);
    drop(copy);
    words
}

// The state, when the stream was made, in nanoseconds, and its configuration.
fn stream_info(alloc: Global, info: &stream::Info) -> Words {
    let state = copied_state_text(alloc, &info.state);
    let (state, config) = both(state, info.config.to_text(alloc))?;
    let created = info.created.as_nanosecond();
    let words = format!(in alloc; "{state} {created} {config}");
    drop(config);
    drop(state);
    Ok(words?)
}

// The same of a copy.
fn copied_stream_info(alloc: Global, info: &stream::Info) -> Words {
    let copy = info.try_clone()?;
    let words = stream_info(alloc, &copy);
    drop(copy);
    words
}

fn in_stream_info(alloc: Global, text: &str) -> Words {
    let info = read(alloc, text)?;
    let words = copied_stream_info(alloc, &info);
    drop(info);
    words
}

// How many a list has in all, and how many stand in this page.
fn page_text(alloc: Global, total: u64, here: Option<usize>) -> Words {
    match here {
        None => Ok(format!(in alloc; "{total} none")?),
        Some(count) => Ok(format!(in alloc; "{total} {count}")?),
    }
}

fn names(alloc: Global, text: &str) -> Words {
    let page: stream::Page<Text> = read(alloc, text)?;
    let here = page.streams.map(|names| names.as_slice().len());
    page_text(alloc, page.total, here)
}

fn streams(alloc: Global, text: &str) -> Words {
    let page: stream::Page<stream::Info> = read(alloc, text)?;
    let here = page.streams.map(|infos| infos.as_slice().len());
    page_text(alloc, page.total, here)
}

fn deletion(alloc: Global, text: &str) -> Words {
    let status: DeleteStatus = read(alloc, text)?;
    let success = status.success;
    Ok(format!(in alloc; "{success}")?)
}

// The stream and the sequence, or the code of the error.
fn stored(alloc: Global, response: &Response<PublishAck>) -> Words {
    match response {
        Response::Ok(ack) => {
            let (stream, sequence) = (&ack.stream, ack.sequence);
            Ok(format!(in alloc; "{stream} {sequence}")?)
        }
        Response::Err { error } => {
            let code = error.err_code.0;
            Ok(format!(in alloc; "refused {code}")?)
        }
    }
}

fn answer(alloc: Global, text: &str) -> Words {
    let response = response_as(alloc, text.as_bytes())?;
    let words = stored(alloc, &response);
    drop(response);
    words
}

fn answer_value(alloc: Global, text: &str) -> Words {
    let response = read(alloc, text)?;
    let words = stored(alloc, &response);
    drop(response);
    words
}

fn printed(alloc: Global, text: &str) -> Words {
    Ok(read::<Error>(alloc, text)?.to_string(alloc)?)
}

// When a reader was pinned, in nanoseconds.
fn pin(alloc: Global, text: &str) -> Words {
    let state = read::<consumer::PriorityGroupState>(alloc, text)?;
    let pinned = state.pinned_ts;
    drop(state);
    match pinned {
        None => Ok(String::from_str(alloc, "none")?),
        Some(instant) => {
            let since = instant.as_nanosecond();
            Ok(format!(in alloc; "{since}")?)
        }
    }
}

fn text_or_none(text: &Option<Text>) -> &str {
    match text {
        None => "none",
        Some(text) => text.as_str(),
    }
}

fn cluster(alloc: Global, text: &str) -> Words {
    let cluster: consumer::ClusterInfo = read(alloc, text)?;
    let name = text_or_none(&cluster.name);
    let leader = text_or_none(&cluster.leader);
    let words = format!(in alloc; "{name} {leader}");
    drop(cluster);
    Ok(words?)
}

fn body_text(alloc: Global, body: Body, text: &str) -> Words {
    match body {
        Body::ConsumerInfo => in_answer(alloc, text),
        Body::StreamInfo => in_stream_info(alloc, text),
        Body::Names => names(alloc, text),
        Body::Streams => streams(alloc, text),
        Body::Deletion => deletion(alloc, text),
        Body::Answer => answer(alloc, text),
        Body::AnswerValue => answer_value(alloc, text),
        Body::Printed => printed(alloc, text),
        Body::Written => rewritten::<Error>(alloc, text),
        Body::Pin => pin(alloc, text),
        Body::Placement => rewritten::<stream::Placement>(alloc, text),
        Body::Republish => rewritten::<stream::Republish>(alloc, text),
        Body::External => rewritten::<stream::External>(alloc, text),
        Body::Cluster => cluster(alloc, text),
    }
}

fn body_word(alloc: Global, body: Body, text: &str) -> Words {
    word(alloc, body_text(alloc, body, text))
}

#[test]
fn answers_are_read(rt: HostRuntime) {
    for &(body, text, wanted) in answer_rows::ANSWERS {
        says(&rt, text, body_word(rt.alloc(), body, text), wanted);
    }
}

// The limits of an account, how many requests it has made, and whether it has no tiers.
fn limits_of(alloc: Global, text: &str) -> Result<(Limits, u64, bool), ReadError> {
    let read = read::<Account>(alloc, text)?;
    let copy = read.try_clone();
    drop(read);
    let account = copy?;
    let (limits, total) = (account.limits, account.requests.total);
    let has_no_tiers = account.tiers.is_empty();
    drop(account);
    Ok((limits, total, has_no_tiers))
}

// The limits that the account tells.
fn limits() -> Limits {
    Limits {
        max_storage: Some(10),
        max_streams: Some(0),
        max_ack_pending: -1,
        storage_max_stream_bytes: Some(-1),
        max_bytes_required: true,
        ..Limits::default()
    }
}

/// A name, and whether a stream or a consumer may have it.
const NAMES: &[(&str, bool)] = &[
    ("stream", true),
    ("str>eam", false),
    ("str*eam", false),
    ("name.name", false),
    ("name name", false),
    (">", false),
    ("", false),
    ("a\tb", false),
    ("\u{e4}-1", true),
];

#[test]
fn an_account_and_names_are_told(rt: HostRuntime) {
    let found = limits_of(rt.alloc(), answer_rows::ACCOUNT);
    same(&rt, "account", found, Ok((limits(), 7, false)));
    for &(name, valid) in NAMES {
        same(&rt, name, is_valid_name(name), valid);
    }
}
