//! The call that asks what the server knows of a consumer.
ghost use Rattle.std.specs.Prelude.{◌≡◌, IfOk};
ghost use Rattle.js_call_consumers.specs.Info.{info_row, info_refusal, info_failure, info_request};

use crate::error::{ConsumerInfoError, ConsumerInfoErrorKind};
use crate::request::consumer_request;
use js_base::{Error, OutOfMemory, Source};
use js_call::{ApiCall, ApiScope, Call, Failure, RawCall, RequestErrorKind};
use js_codes::{ErrorCode, errors};
use js_json::consumer::Info;
use js_json::{Response, response_as};
use js_json_members::ReadError;
use std::alloc::Global;

/// How `get_info` reads its answer.
#[derive(Drop)]
pub struct AskingInfo;

/// The `get_info` call under way.
pub type GetInfo = Call<AskingInfo>;

/// Maps an API error to the error of the call that asks for a consumer's info.
pub(crate) fn info_refusal(error: errors::Error) -> ConsumerInfoError
    ensures { result ≡ info_refusal error }
{
    let kind = if error.err_code == ErrorCode::CONSUMER_NOT_FOUND {
        ConsumerInfoErrorKind::NotFound
    } else if error.err_code == ErrorCode::STREAM_NOT_FOUND {
        ConsumerInfoErrorKind::StreamNotFound
    } else if error.err_code == ErrorCode::CONSUMER_OFFLINE {
        ConsumerInfoErrorKind::Offline
    } else {
        return Error::new(ConsumerInfoErrorKind::JetStream(error));
    };
    Error::with_source(kind, error.into_source())
}

/// Maps the error of a request without a readable reply to the kind that `get_info` returns.
pub(crate) fn info_failure(kind: RequestErrorKind) -> ConsumerInfoErrorKind
    ensures { result ≡ info_failure kind }
{
    match kind {
        RequestErrorKind::TimedOut => ConsumerInfoErrorKind::TimedOut,
        RequestErrorKind::NoResponders => ConsumerInfoErrorKind::NoResponders,
        RequestErrorKind::InvalidSubject => ConsumerInfoErrorKind::InvalidName,
        RequestErrorKind::Other => ConsumerInfoErrorKind::Request,
    }
}

/// Makes the request for the info of the consumer that `info` belongs to.
pub(crate) fn info_request(
    alloc: Global,
    scope: &ApiScope,
    info: &Info,
) -> Result<RawCall, OutOfMemory>
    ensures { IfOk result (λ asked. asked ≡ info_request scope.now info.now) }
{
    let stream = info.stream_name.as_str();
    consumer_request(alloc, scope, "CONSUMER.INFO", stream, info.name.as_str())
}

impl ApiCall for AskingInfo {
    type Reply = Response<Info>;

    type Answer = Result<Info, ConsumerInfoError>;

    ghost table = { info_row };

    fn refusal(&self) -> Option<Result<Info, ConsumerInfoError>> {
        None
    }

    fn read(alloc: Global, payload: &[u8]) -> Result<Response<Info>, ReadError> {
        response_as(alloc, payload)
    }

    fn answer(self, reply: Response<Info>) -> Result<Info, ConsumerInfoError> {
        match reply {
            Response::Ok(info) => Ok(info),
            Response::Err { error } => Err(info_refusal(error)),
        }
    }

    fn failure(self, failure: Failure, source: Source) -> Result<Info, ConsumerInfoError> {
        Err(Error::with_source(info_failure(failure.kind()), source))
    }
}
