//! The texts of answers.

use crate::consumer::Consumer;
use crate::json::{formatted, quoted};
use crate::log::Log;
use crate::times::time_text;
use js_base::{OutOfMemory, all_3, both};
use std::alloc::Global;

// Why the server refuses a request.
#[derive(Clone, Copy)]
pub(crate) enum Refusal {
    BadRequest,
    StreamNotFound,
    StreamNameInUse,
    ConsumerNotFound,
    ConsumerExists,
    ConsumerDoesNotExist,
    MessageNotFound,
    WrongStream,
    WrongLastMessageId,
    RollupNotPermitted,
    // The last sequence is another one, this one.
    WrongLastSequence(u64),
}

impl Refusal {
    // Its kind, its number in the server's table of errors, and its description.
    fn row(self) -> (u64, u64, &'static str) {
        match self {
            Refusal::BadRequest => (400, 10003, "bad request"),
            Refusal::StreamNotFound => (404, 10059, "stream not found"),
            Refusal::StreamNameInUse => {
                (
                    400,
                    10058,
                    "stream name already in use with a different configuration",
                )
            }
            Refusal::ConsumerNotFound => (404, 10014, "consumer not found"),
            Refusal::ConsumerExists => (400, 10148, "consumer already exists"),
            Refusal::ConsumerDoesNotExist => (400, 10149, "consumer does not exist"),
            Refusal::MessageNotFound => (404, 10037, "no message found"),
            Refusal::WrongStream => (400, 10060, "expected stream does not match"),
            Refusal::WrongLastMessageId => (400, 10070, "wrong last msg ID"),
            Refusal::RollupNotPermitted => (400, 10111, "rollup not permitted"),
            Refusal::WrongLastSequence(_) => (400, 10071, "wrong last sequence: "),
        }
    }
}

// The answer to a request that is refused.
pub(crate) fn refused(alloc: Global, refusal: Refusal) -> Result<String, OutOfMemory> {
    let (code, number, text) = refusal.row();
    let sequence = match refusal {
        Refusal::WrongLastSequence(sequence) => format!(in alloc; "{sequence}")?,
        _ => String::new(alloc),
    };
    formatted(format!(in alloc;
        r#"{{"error":{{"code":{code},"err_code":{number},"description":"{text}{sequence}"}}}}"#
    ))
}

pub(crate) fn succeeded(alloc: Global) -> Result<String, OutOfMemory> {
    Ok(String::from_str(alloc, r#"{"success":true}"#)?)
}

// The acknowledgement of a publish.
pub(crate) fn stored(
    alloc: Global,
    stream: &str,
    sequence: u64,
    is_duplicate: bool,
) -> Result<String, OutOfMemory> {
    let stream = quoted(alloc, stream)?;
    let duplicate = if is_duplicate {
        r#","duplicate":true"#
    } else {
        ""
    };
    formatted(format!(in alloc; r#"{{"stream":{stream},"seq":{sequence}{duplicate}}}"#))
}

// What the server reports about a stream.
pub(crate) fn stream_info(
    alloc: Global,
    log: &Log,
    consumers: usize,
) -> Result<String, OutOfMemory> {
    let created = time_text(alloc, log.created)?;
    let config = log.config.text.as_str();
    let (messages, bytes) = (log.messages.len(), log.bytes());
    let (first, last) = (log.first_sequence(), log.last_sequence);
    formatted(format!(in alloc;
        r#"{{"config":{config},"created":"{created}","state":{{"messages":{messages},"bytes":{bytes},"first_seq":{first},"last_seq":{last},"consumer_count":{consumers}}}}}"#
    ))
}

// What the server reports about a consumer.
pub(crate) fn consumer_info(
    alloc: Global,
    log: &Log,
    consumer: &Consumer,
) -> Result<String, OutOfMemory> {
    let (stream, name, created) = all_3(
        quoted(alloc, log.name.as_str()),
        quoted(alloc, consumer.name.as_str()),
        time_text(alloc, consumer.created),
    )?;
    let (state, config) = (
        consumer_state(alloc, log, consumer),
        consumer.config.text.as_str(),
    );
    let ((stream, name, created), state) = both(Ok((stream, name, created)), state)?;
    formatted(format!(in alloc;
        r#"{{"stream_name":{stream},"name":{name},"created":"{created}","config":{config},{state}}}"#
    ))
}

// How far a consumer has come.
fn consumer_state(alloc: Global, log: &Log, consumer: &Consumer) -> Result<String, OutOfMemory> {
    let (number, sequence) = (consumer.number, consumer.last);
    let (floor_number, floor_sequence) = consumer.ack_floor();
    let (unacked, redelivered) = (consumer.unacked.len(), consumer.redelivered());
    let (waiting, pending) = (consumer.pulls.len(), consumer.pending(log));
    formatted(format!(in alloc;
        r#""delivered":{{"consumer_seq":{number},"stream_seq":{sequence}}},"ack_floor":{{"consumer_seq":{floor_number},"stream_seq":{floor_sequence}}},"num_ack_pending":{unacked},"num_redelivered":{redelivered},"num_waiting":{waiting},"num_pending":{pending}"#
    ))
}

// What the server reports about the account: nothing is limited.
pub(crate) fn account_info(
    alloc: Global,
    streams: usize,
    consumers: usize,
) -> Result<String, OutOfMemory> {
    formatted(format!(in alloc;
        r#"{{"memory":0,"storage":0,"reserved_memory":0,"reserved_storage":0,"streams":{streams},"consumers":{consumers},"limits":{{"max_memory":-1,"max_storage":-1,"max_streams":-1,"max_consumers":-1,"max_ack_pending":-1,"memory_max_stream_bytes":-1,"storage_max_stream_bytes":-1,"max_bytes_required":false}},"api":{{"level":1,"total":0,"errors":0}}}}"#
    ))
}
