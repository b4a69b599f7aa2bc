//! The traits of a context, for code that accepts any context.
ghost use Rattle.std.specs.Prelude.{◌≡◌, IfOk, Ok, ℕ};
ghost use Rattle.js_call.specs.Scope.{raw_asking};
ghost use Rattle.js_call.specs.SendRequest.{SendsRequest};
ghost use Rattle.js_call.specs.declared.scope.ApiScope.{ApiScope};
ghost use Rattle.js_context.specs.Context.{scope_in, timeout_in};
ghost use Rattle.js_context.specs.Publish.{sending};

use crate::context::Context;
use crate::sending::Sending;
use js_base::{Nanos, OutOfMemory};
use js_call::{ApiScope, RawCall, RawRequest, SendError};
use js_link::Link;
use js_message::OutboundMessage;
use std::alloc::Global;

/// Makes requests whose answers are messages.
pub trait Requester {
    /// Where its requests go, and how long to wait for their answers.
    ghost asks_by: { Self → ApiScope };

    /// Makes a request on exactly this subject, without a prefix. Fails here only with
    /// `OutOfMemory`; the errors of the request come from its polls.
    fn raw_request(
        &self,
        alloc: Global,
        subject: &str,
        request: RawRequest,
    ) -> Result<RawCall, OutOfMemory>
        ensures { IfOk result (λ call. call ≡ raw_asking (asks_by self.now) subject.now request) };
}

/// Sends requests without waiting for their answers.
pub trait RequestSender {
    /// Where its requests go.
    ghost sends_by: { Self → ApiScope };

    /// Publishes the request under the prefix. The answer goes to the request's inbox if it has
    /// one, otherwise to a fresh subject of the link.
    ///
    /// Fails with `LinkFailed` only if the link failed in this call, and with `OutOfMemory` if
    /// memory ran out. Nothing was sent then.
    fn send_request<L: Link>(
        &self,
        alloc: Global,
        link: &mut L,
        subject: &str,
        request: RawRequest,
    ) -> Result<(), SendError>
        ensures { SendsRequest result (sends_by self.now) subject.now request (L.view link.old) (L.view link.new) };
}

/// Publishes messages.
pub trait Publisher {
    /// Returns the message as a [`Sending`], which sends it under a permit when polled. It sends
    /// nothing itself, takes no memory and never fails; it returns a `Result` only to match the
    /// other calls that publish.
    fn publish_message(&mut self, message: OutboundMessage) -> Result<Sending, OutOfMemory>
        ensures message { result ≡ Ok (sending message) }
        ensures same { self.new ≡ self.old };
}

/// Gives access to its scope.
pub trait ClientProvider {
    /// Where its requests go, and how long to wait for their answers, in contracts.
    ghost has_scope: { Self → ApiScope };

    /// Where its requests go, and how long to wait for their answers.
    fn client(&self) -> &ApiScope
        ensures { result.now ≡ has_scope self.now };
}

/// Says how long it waits for answers.
pub trait TimeoutProvider {
    /// How long it waits.
    ghost waits: { Self → ℕ };

    /// Returns how long to wait for an answer, in nanoseconds.
    fn timeout(&self) -> Nanos
        ensures { result ≡ waits self.now };
}

impl Requester for Context {
    ghost asks_by = { scope_in };

    fn raw_request(
        &self,
        alloc: Global,
        subject: &str,
        request: RawRequest,
    ) -> Result<RawCall, OutOfMemory> {
        self.scope().raw_request(alloc, subject, request)
    }
}

impl RequestSender for Context {
    ghost sends_by = { scope_in };

    fn send_request<L: Link>(
        &self,
        alloc: Global,
        link: &mut L,
        subject: &str,
        request: RawRequest,
    ) -> Result<(), SendError> {
        self.scope().send_request(alloc, link, subject, request)
    }
}

impl Publisher for Context {
    fn publish_message(&mut self, message: OutboundMessage) -> Result<Sending, OutOfMemory> {
        Ok(Sending::new(message))
    }
}

impl ClientProvider for Context {
    ghost has_scope = { scope_in };

    fn client(&self) -> &ApiScope {
        self.scope()
    }
}

impl TimeoutProvider for Context {
    ghost waits = { timeout_in };

    fn timeout(&self) -> Nanos {
        Context::timeout(self)
    }
}
