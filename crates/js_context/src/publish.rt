//! The calls that publish. Each returns a message to be sent by polls, and sends nothing itself.
ghost use Rattle.std.specs.Prelude.{◌≡◌, IfOk, None, Some};
ghost use Rattle.js_message.specs.PublishMessage.{outbound, outgoing};
ghost use Rattle.js_context.specs.Publish.{sending};

use crate::context::Context;
use crate::sending::Sending;
use bytes::Bytes;
use js_base::{HeaderMap, OutOfMemory, Subject};
use js_message::{OutboundMessage, PublishMessage};
use std::alloc::Global;

impl Context {
    /// Publishes a payload to a subject. Fails here only with `OutOfMemory`; other errors come from
    /// the polls of the [`Sending`], and then of its ack.
    pub fn publish(
        &mut self,
        alloc: Global,
        subject: &str,
        payload: Bytes,
    ) -> Result<Sending, OutOfMemory>
        ensures message { IfOk result (λ state. state ≡ sending (outbound subject.now payload None)) }
        ensures same { self.new ≡ self.old }
    {
        self.publish_all(alloc, subject, payload, None)
    }

    /// Publishes a payload with headers to a subject. The errors are those of `publish`.
    pub fn publish_with_headers(
        &mut self,
        alloc: Global,
        subject: &str,
        headers: HeaderMap,
        payload: Bytes,
    ) -> Result<Sending, OutOfMemory>
        ensures message { IfOk result (λ state. state ≡ sending (outbound subject.now payload (Some headers))) }
        ensures same { self.new ≡ self.old }
    {
        self.publish_all(alloc, subject, payload, Some(headers))
    }

    // Publishes a payload to a subject, with the headers where there are any. The refusals are those of `publish`.
    fn publish_all(
        &mut self,
        alloc: Global,
        subject: &str,
        payload: Bytes,
        headers: Option<HeaderMap>,
    ) -> Result<Sending, OutOfMemory>
        ensures message { IfOk result (λ state. state ≡ sending (outbound subject.now payload headers)) }
        ensures same { self.new ≡ self.old }
    {
        match Subject::new(alloc, subject) {
            Ok(subject) => self.publish_message(OutboundMessage::new(subject, payload, headers)),
            Err(OutOfMemory) => {
                drop(payload);
                drop(headers);
                Err(OutOfMemory)
            }
        }
    }

    /// Publishes a message to a subject. The errors are those of `publish`.
    pub fn send_publish(
        &mut self,
        alloc: Global,
        subject: &str,
        publish: PublishMessage,
    ) -> Result<Sending, OutOfMemory>
        ensures message { IfOk result (λ state. state ≡ sending (outgoing subject.now publish)) }
        ensures same { self.new ≡ self.old }
    {
        let message = publish.outbound_message(alloc, subject)?;
        self.publish_message(message)
    }

    /// Publishes a message that already has its subject. It takes no memory and never fails; it
    /// returns a `Result` only to match the other calls.
    pub fn publish_message(&mut self, message: OutboundMessage) -> Result<Sending, OutOfMemory>
        ensures message { result ≡ Ok (sending message) }
        ensures same { self.new ≡ self.old }
    {
        Ok(Sending::new(message))
    }
}
