//! Messages as they are stored in a stream, read from their headers.
ghost use Rattle.std.specs.Prelude.{◌≡◌, MatchResult, Ok};
ghost use Rattle.std.specs.Option.{option_map};
ghost use Rattle.js_message.specs.StreamMessage.{IsRefusal, RefusesAs, is_missing, is_unreadable, time_of, plain_fields, fields_in};

use crate::numbers::read_u64;
use bytes::Bytes;
use jiff::Timestamp;
use js_base::{Error, HeaderMap, Message, Source, Subject, Text};
use std::alloc::Global;
use std::fmt;

/// A message as it is stored in its stream.
#[derive(Debug, PartialEq, Eq, Drop)]
pub struct StreamMessage {
    /// The subject to which it was published, from the header `Nats-Subject`.
    pub subject: Subject,
    /// Its sequence in the stream, from the header `Nats-Sequence`.
    pub sequence: u64,
    /// All headers that came with it, including the three that are read.
    pub headers: HeaderMap,
    pub payload: Bytes,
    /// When the stream stored it, from the header `Nats-Time-Stamp`.
    pub time: Timestamp,
}

/// Why a message could not be read as one of a stream.
#[derive(Clone, Copy, Debug, PartialEq, Eq)]
pub enum StreamMessageErrorKind {
    /// It lacks a header, or has no headers at all.
    MissingHeader,
    /// Its sequence is not a `u64`, or its time is not a timestamp.
    ParseError,
    OutOfMemory,
}

impl fmt::Display for StreamMessageErrorKind {
    ghost use Rattle.std.specs.Prelude.{Some};
    ghost use Rattle.js_message.specs.StreamMessage.{kind_text};

    ghost output = { λ kind. Some (kind_text kind) };

    fn fmt<W: fmt::Write>(&self, f: &mut fmt::Formatter<W>) -> fmt::Result {
        f.write_str(match self {
            StreamMessageErrorKind::MissingHeader => "missing message header",
            StreamMessageErrorKind::ParseError => "parse error",
            StreamMessageErrorKind::OutOfMemory => "out of memory",
        })
    }
}

/// The error of reading a message as one of a stream. Its source is the name of the header that is
/// missing or does not parse. `OutOfMemory` has no source.
pub type StreamMessageError = Error<StreamMessageErrorKind>;

/// A header that tells how a message is stored in its stream.
#[derive(Clone, Copy)]
enum StreamHeader {
    Sequence,
    TimeStamp,
    Subject,
}

impl StreamHeader {
    ghost use Rattle.js_message.specs.StreamMessage.{name_of};

    fn name(self) -> &'static str
        ensures { result.now ≡ name_of self }
    {
        match self {
            StreamHeader::Sequence => "Nats-Sequence",
            StreamHeader::TimeStamp => "Nats-Time-Stamp",
            StreamHeader::Subject => "Nats-Subject",
        }
    }
}

/// A header that is missing or does not parse.
#[derive(Clone, Copy)]
struct HeaderFault {
    kind: StreamMessageErrorKind,
    header: StreamHeader,
}

/// What the headers of a message of a stream say.
#[derive(Clone, Copy)]
struct MessageFields<'a> {
    subject: &'a str,
    sequence: u64,
    time: Timestamp,
}

fn read_time(text: &str) -> Option<Timestamp>
    ensures { option_map (λ time. time.nanosecond) result ≡ time_of text.now }
{
    text.parse::<Timestamp>().ok()
}

fn missing(header: StreamHeader) -> HeaderFault
    ensures { result ≡ is_missing header }
{
    HeaderFault {
        kind: StreamMessageErrorKind::MissingHeader,
        header,
    }
}

fn unreadable(header: StreamHeader) -> HeaderFault
    ensures { result ≡ is_unreadable header }
{
    HeaderFault {
        kind: StreamMessageErrorKind::ParseError,
        header,
    }
}

fn read_headers(headers: &HeaderMap) -> Result<MessageFields<'_>, HeaderFault>
    ensures { plain_fields result ≡ fields_in headers.now }
{
    let sequence = headers
        .get_last(StreamHeader::Sequence.name())
        .ok_or(missing(StreamHeader::Sequence))?;
    let sequence = read_u64(sequence).ok_or(unreadable(StreamHeader::Sequence))?;
    let time = headers
        .get_last(StreamHeader::TimeStamp.name())
        .ok_or(missing(StreamHeader::TimeStamp))?;
    let time = read_time(time).ok_or(unreadable(StreamHeader::TimeStamp))?;
    let subject = headers
        .get_last(StreamHeader::Subject.name())
        .ok_or(missing(StreamHeader::Subject))?;
    Ok(MessageFields {
        subject,
        sequence,
        time,
    })
}

// The error that tells of a header.
fn refusal(alloc: Global, fault: HeaderFault) -> StreamMessageError
    ensures { IsRefusal fault result }
{
    match Text::from_str(alloc, fault.header.name()) {
        Ok(name) => Error::with_source(fault.kind, Source::Text(name)),
        Err(_) => Error::new(StreamMessageErrorKind::OutOfMemory),
    }
}

// What the headers say of a message: its subject, copied, its sequence and its time; or the error that tells why not.
fn read_copied(
    alloc: Global,
    headers: &HeaderMap,
) -> Result<(Subject, u64, Timestamp), StreamMessageError>
    ensures { MatchResult result (λ told. fields_in headers.now ≡ Ok (record { subject = told.0; sequence = told.1; time = told.2.nanosecond })) (RefusesAs (fields_in headers.now)) }
{
    let told = match read_headers(headers) {
        Ok(told) => told,
        Err(fault) => return Err(refusal(alloc, fault)),
    };
    match Subject::new(alloc, told.subject) {
        Ok(subject) => Ok((subject, told.sequence, told.time)),
        Err(_) => Err(Error::new(StreamMessageErrorKind::OutOfMemory)),
    }
}

impl StreamMessage {
    ghost use Rattle.js_message.specs.StreamMessage.{ReadsMessage};

    /// Reads a message that the server sent from a stream, for example for a direct get (ADR-31).
    ///
    /// It reads the last values of `Nats-Sequence`, `Nats-Time-Stamp` and `Nats-Subject`, in this
    /// order, and stops at the first that is missing or unreadable. Fails with `MissingHeader` if it
    /// is missing (`Nats-Sequence` for a message without headers), and with `ParseError` if the
    /// sequence is not a `u64` or the time is not a timestamp. The error's source is the name of
    /// that header. Fails with `OutOfMemory` if memory runs out. After any error the message is
    /// lost.
    pub fn try_from_message(
        alloc: Global,
        message: Message,
    ) -> Result<StreamMessage, StreamMessageError>
        ensures { ReadsMessage message result }
    {
        let Message {
            subject,
            reply,
            payload,
            headers,
            description,
            ..
        } = message;
        drop((subject, reply, description));
        let Some(headers) = headers else {
            drop(payload);
            return Err(refusal(alloc, missing(StreamHeader::Sequence)));
        };
        match read_copied(alloc, &headers) {
            Ok((subject, sequence, time)) => Ok(StreamMessage {
                subject,
                sequence,
                headers,
                payload,
                time,
            }),
            Err(error) => {
                drop((headers, payload));
                Err(error)
            }
        }
    }
}
