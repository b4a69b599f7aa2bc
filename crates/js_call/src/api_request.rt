//! An API request whose reply is any JSON value.
ghost use Rattle.std.specs.Prelude.{◌≡◌, IfOk};
ghost use Rattle.serde_json.specs.View.{view};
ghost use Rattle.js_call.specs.ApiRequest.{value_row, request_error, AskingFor};

use crate::api_call::ApiCall;
use crate::call::Call;
use crate::error::{RequestError, RequestErrorKind};
use crate::failure::Failure;
use crate::raw_call::RawCall;
use crate::scope::{ApiScope, body_text};
use js_base::{Error, OutOfMemory, Source};
use js_json_members::{ReadError, value_of};
use serde_json::Value;
use std::alloc::Global;

/// How `ApiScope::request` reads its reply: any JSON value.
#[derive(Drop)]
pub struct AskingValue;

/// An API request under way. It returns the JSON value in the reply's body. A body that contains a
/// float cannot be read.
pub type ApiRequest = Call<AskingValue>;

// The error of the request itself; a reply that does not read is another error, with the read error's text.
fn request_error(failure: Failure, source: Source) -> RequestError
    ensures { result ≡ request_error failure source }
{
    match failure {
        Failure::Request(kind) => Error::new(kind),
        Failure::Read(_) => Error::with_source(RequestErrorKind::Other, source),
    }
}

impl ApiCall for AskingValue {
    type Reply = Value;

    type Answer = Result<Value, RequestError>;

    ghost table = { value_row };

    fn refusal(&self) -> Option<Result<Value, RequestError>> {
        None
    }

    fn read(alloc: Global, payload: &[u8]) -> Result<Value, ReadError> {
        value_of(alloc, payload)
    }

    fn answer(self, reply: Value) -> Result<Value, RequestError> {
        Ok(reply)
    }

    fn failure(self, failure: Failure, source: Source) -> Result<Value, RequestError> {
        Err(request_error(failure, source))
    }
}

impl ApiScope {
    /// Makes a request under the prefix with this body. Fails only with `OutOfMemory`.
    pub fn request(
        &self,
        alloc: Global,
        subject: &str,
        payload: &Value,
    ) -> Result<ApiRequest, OutOfMemory>
        ensures { IfOk result (λ call. AskingFor self.now subject.now (view payload.now) call) }
    {
        let body = body_text(alloc, payload)?;
        let asked: RawCall = self.ask(alloc, subject, body)?;
        Ok(Call::new(AskingValue, asked))
    }
}
