//! Messages to publish, and the headers that ask the server for more than storing them.
ghost use Rattle.std.specs.Prelude.{◌≡◌, ◌/◌, codes, IfOk, string_bytes};
ghost use Rattle.std.specs.Fmt.{decimal};

use bytes::Bytes;
use js_base::{HeaderMap, Nanos, OutOfMemory, Subject};
use std::alloc::{AllocError, Global};

/// A message to publish to a subject.
#[derive(Debug, PartialEq, Eq, Drop)]
pub struct OutboundMessage {
    /// The subject to publish to.
    pub subject: Subject,
    /// Its body.
    pub payload: Bytes,
    /// Its headers, if it has any.
    pub headers: Option<HeaderMap>,
}

impl OutboundMessage {
    ghost use Rattle.js_message.specs.PublishMessage.{outbound};

    /// Creates a message to a subject with this body and these headers. It tests nothing: the
    /// publishing call tests the subject and the length.
    pub fn new(subject: Subject, payload: Bytes, headers: Option<HeaderMap>) -> OutboundMessage
        ensures { result ≡ outbound subject payload headers }
    {
        OutboundMessage {
            subject,
            payload,
            headers,
        }
    }
}

/// A message to publish, with what you ask the server to do with it.
///
/// Each setter sets one header and replaces its earlier value. If a setter fails with `OutOfMemory`,
/// the message is lost. If an expectation is not met, the server refuses the message with an API
/// error and stores nothing.
#[derive(Debug, PartialEq, Eq, Drop)]
pub struct PublishMessage {
    payload: Bytes,
    headers: Option<HeaderMap>,
}

fn number_text(alloc: Global, number: u64) -> Result<String, AllocError>
    ensures { IfOk result (λ text. string_bytes text ≡ decimal number) }
{
    format!(in alloc; "{number}")
}

impl PublishMessage {
    ghost use Rattle.js_message.specs.PublishMessage.{empty, with_payload, with_headers, with_header, outgoing};

    /// Creates an empty message without headers. It allocates nothing.
    pub fn build() -> PublishMessage
        ensures { result ≡ empty }
    {
        PublishMessage {
            payload: Bytes::new(),
            headers: None,
        }
    }

    /// Sets the body.
    pub fn payload(self, payload: Bytes) -> PublishMessage
        ensures { result ≡ with_payload payload self }
    {
        PublishMessage {
            payload,
            headers: self.headers,
        }
    }

    /// Sets all headers. It replaces all that were set before, by any setter.
    pub fn headers(self, headers: HeaderMap) -> PublishMessage
        ensures { result ≡ with_headers headers self }
    {
        PublishMessage {
            payload: self.payload,
            headers: Some(headers),
        }
    }

    /// Sets the one value of a header, and removes other values of that name. Names are
    /// case-sensitive.
    pub fn header(
        self,
        alloc: Global,
        name: &str,
        value: &str,
    ) -> Result<PublishMessage, OutOfMemory>
        ensures { IfOk result (λ message. message ≡ with_header name.now value.now self) }
    {
        let PublishMessage { payload, headers } = self;
        let mut headers = match headers {
            Some(headers) => headers,
            None => HeaderMap::new(alloc),
        };
        headers.insert(alloc, name, value)?;
        Ok(PublishMessage {
            payload,
            headers: Some(headers),
        })
    }

    fn number(self, alloc: Global, name: &str, number: u64) -> Result<PublishMessage, OutOfMemory>
        ensures { IfOk result (λ message. message ≡ with_header name.now (decimal number) self) }
    {
        let text = number_text(alloc, number)?;
        self.header(alloc, name, text.as_str())
    }

    /// Sets `Nats-Msg-Id`, the message's name. Within the stream's duplicate window the server
    /// stores one message of a name, and acknowledges the others as duplicates.
    pub fn message_id(self, alloc: Global, id: &str) -> Result<PublishMessage, OutOfMemory>
        ensures { IfOk result (λ message. message ≡ with_header (codes "Nats-Msg-Id") id.now self) }
    {
        self.header(alloc, "Nats-Msg-Id", id)
    }

    /// Sets `Nats-Expected-Last-Msg-Id`: the server stores the message only if the stream's last one
    /// has this name.
    pub fn expected_last_message_id(
        self,
        alloc: Global,
        id: &str,
    ) -> Result<PublishMessage, OutOfMemory>
        ensures { IfOk result (λ message. message ≡ with_header (codes "Nats-Expected-Last-Msg-Id") id.now self) }
    {
        self.header(alloc, "Nats-Expected-Last-Msg-Id", id)
    }

    /// Sets `Nats-Expected-Last-Sequence`: the server stores the message only if the stream's last
    /// one has this sequence.
    pub fn expected_last_sequence(
        self,
        alloc: Global,
        sequence: u64,
    ) -> Result<PublishMessage, OutOfMemory>
        ensures { IfOk result (λ message. message ≡ with_header (codes "Nats-Expected-Last-Sequence") (decimal sequence) self) }
    {
        self.number(alloc, "Nats-Expected-Last-Sequence", sequence)
    }

    /// Sets `Nats-Expected-Last-Subject-Sequence`: the server stores the message only if the last
    /// one of its subject has this sequence in the stream. Use 0 if the subject has none.
    pub fn expected_last_subject_sequence(
        self,
        alloc: Global,
        sequence: u64,
    ) -> Result<PublishMessage, OutOfMemory>
        ensures { IfOk result (λ message. message ≡ with_header (codes "Nats-Expected-Last-Subject-Sequence") (decimal sequence) self) }
    {
        self.number(alloc, "Nats-Expected-Last-Subject-Sequence", sequence)
    }

    /// Sets `Nats-Expected-Stream`: the server stores the message only if the stream that takes it
    /// has this name.
    pub fn expected_stream(self, alloc: Global, name: &str) -> Result<PublishMessage, OutOfMemory>
        ensures { IfOk result (λ message. message ≡ with_header (codes "Nats-Expected-Stream") name.now self) }
    {
        self.header(alloc, "Nats-Expected-Stream", name)
    }

    /// Sets `Nats-TTL`: the server keeps the message for this many nanoseconds (ADR-43). The header
    /// has whole seconds, rounded down, so less than a second becomes 0. The stream has to allow it.
    pub fn ttl(self, alloc: Global, ttl: Nanos) -> Result<PublishMessage, OutOfMemory>
        ensures { IfOk result (λ message. message ≡ with_header (codes "Nats-TTL") (decimal (ttl / 1_000_000_000)) self) }
    {
        self.number(alloc, "Nats-TTL", ttl / 1_000_000_000)
    }

    /// Returns the message, to be published to a subject. Fails with `OutOfMemory` if memory runs
    /// out; the message is then lost.
    pub fn outbound_message(
        self,
        alloc: Global,
        subject: &str,
    ) -> Result<OutboundMessage, OutOfMemory>
        ensures { IfOk result (λ message. message ≡ outgoing subject.now self) }
    {
        let PublishMessage { payload, headers } = self;
        Ok(OutboundMessage {
            subject: Subject::new(alloc, subject)?,
            payload,
            headers,
        })
    }
}
