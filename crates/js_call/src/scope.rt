//! Where API requests go, and how long they wait for an answer.
ghost use Rattle.std.specs.Prelude.{◌≡◌, false, IfOk, string_bytes};
ghost use Rattle.serde_json.specs.View.{view};
ghost use Rattle.js_call.specs.Scope.{under, context_timeout, applied, recovery_timeout, asking, raw_asking, Calling, IsTextOf};

use crate::raw_call::RawCall;
use crate::raw_request::{RawRequest, body_of};
use bytes::Bytes;
use js_base::{Nanos, OutOfMemory, Subject, Text, TryClone, both};
use serde_json::Value;
use std::alloc::{AllocError, Global};

/// Where API requests go, and how long they wait for an answer. Handles keep this part of a
/// context.
#[derive(Debug, PartialEq, Eq, Drop)]
pub struct ApiScope {
    /// The prefix of the subjects, without the dot that follows it.
    pub prefix: Text,
    /// How long the context waits for an answer, in nanoseconds. None uses the connection's
    /// timeout.
    pub timeout: Option<Nanos>,
}

impl TryClone for ApiScope {
    fn try_clone(&self) -> Result<ApiScope, OutOfMemory> {
        Ok(ApiScope {
            prefix: self.prefix.try_clone()?,
            timeout: self.timeout,
        })
    }
}

fn text_under(alloc: Global, prefix: &str, subject: &str) -> Result<String, AllocError>
    ensures { IfOk result (λ text. string_bytes text ≡ under prefix.now subject.now) }
{
    format!(in alloc; "{prefix}.{subject}")
}

// The compact text of a value, as a body.
pub(crate) fn body_text(alloc: Global, value: &Value) -> Result<Bytes, OutOfMemory>
    ensures { IfOk result (λ body. IsTextOf (view value.now) body) }
{
    Ok(Bytes::from_string(value.to_string(alloc)?)?)
}

impl ApiScope {
    /// Returns the request, with the context's timeout if it has none of its own.
    pub fn apply_timeout(&self, request: RawRequest) -> RawRequest
        ensures { result ≡ applied self.now request }
    {
        let timeout = match request.timeout {
            Some(own) => Some(own),
            None => self.context_timeout(),
        };
        RawRequest { timeout, ..request }
    }

    /// Returns the scope for recreating a lost consumer. Its timeout is the context's if there is
    /// one, none if only the connection has one, and ten seconds otherwise. Fails only with
    /// `OutOfMemory`.
    pub fn recovery_context(&self, connection: Option<Nanos>) -> Result<ApiScope, OutOfMemory>
        ensures { IfOk result (λ scope. scope ≡ record self.now { timeout = recovery_timeout self.now.timeout connection }) }
    {
        let timeout = match (self.timeout, connection) {
            (Some(own), _) => Some(own),
            (None, Some(_)) => None,
            (None, None) => Some(10_000_000_000),
        };
        Ok(ApiScope {
            prefix: self.prefix.try_clone()?,
            timeout,
        })
    }

    /// Makes a request under the prefix with this body. It checks neither its subject nor the size
    /// of its body: the caller must know that both are valid. So it never returns `InvalidSubject`,
    /// and its `Other` never comes from the body's size.
    ///
    /// The poll that sends it returns `Pending`. It looks for the answer and at the clock from the
    /// next poll on. Fails only with `OutOfMemory`.
    pub fn call(&self, alloc: Global, subject: &str, body: &Value) -> Result<RawCall, OutOfMemory>
        ensures { IfOk result (λ call. Calling self.now subject.now (view body.now) false call) }
    {
        let payload = body_text(alloc, body)?;
        let tested = self.ask(alloc, subject, payload)?;
        Ok(RawCall {
            is_tested: false,
            ..tested
        })
    }

    /// Makes a request under the prefix with this body. It checks its subject and the size of its
    /// body before it is sent. Fails only with `OutOfMemory`.
    pub fn ask(&self, alloc: Global, subject: &str, body: Bytes) -> Result<RawCall, OutOfMemory>
        ensures { IfOk result (λ call. call ≡ asking self.now subject.now body) }
    {
        Ok(RawCall {
            subject: self.subject(alloc, subject)?,
            headers: None,
            payload: body,
            timeout: self.context_timeout(),
            is_tested: true,
            sent: None,
        })
    }

    /// Makes a request under the prefix with this body. Its subject is the words of a call and a
    /// name, for example `STREAM.INFO` and `events`. Fails only with `OutOfMemory`.
    pub fn ask_named(
        &self,
        alloc: Global,
        words: &str,
        name: &str,
        body: Bytes,
    ) -> Result<RawCall, OutOfMemory>
        ensures { IfOk result (λ call. call ≡ asking self.now (under words.now name.now) body) }
    {
        let subject = text_under(alloc, words, name)?;
        self.ask(alloc, subject.as_str(), body)
    }

    /// Makes a request on exactly this subject, without the prefix. Fails only with `OutOfMemory`.
    pub fn raw_request(
        &self,
        alloc: Global,
        subject: &str,
        request: RawRequest,
    ) -> Result<RawCall, OutOfMemory>
        ensures { IfOk result (λ call. call ≡ raw_asking self.now subject.now request) }
    {
        let request = self.apply_timeout(request);
        let (subject, request) = both(Subject::new(alloc, subject), Ok(request))?;
        let RawRequest {
            payload,
            headers,
            timeout,
            inbox,
        } = request;
        drop(inbox);
        Ok(RawCall {
            subject,
            headers,
            payload: body_of(payload),
            timeout,
            is_tested: true,
            sent: None,
        })
    }

    // A subject under the prefix.
    pub(crate) fn subject(&self, alloc: Global, subject: &str) -> Result<Subject, OutOfMemory>
        ensures { IfOk result (λ whole. whole ≡ under self.now.prefix subject.now) }
    {
        let text = text_under(alloc, self.prefix.as_str(), subject)?;
        Ok(Subject::from(text))
    }

    // The context's timeout as one of a request's own.
    fn context_timeout(&self) -> Option<Option<Nanos>>
        ensures { result ≡ context_timeout self.now }
    {
        match self.timeout {
            None => None,
            Some(wait) => Some(Some(wait)),
        }
    }
}
