//! The call that deletes a stream.
ghost use Rattle.std.specs.Prelude.{◌≡◌, IfOk};
ghost use Rattle.js_call_streams.specs.GetAndDelete.{delete_row, deleting};

use crate::error::{DeleteStreamError, DeleteStreamErrorKind};
use crate::named_call::call_on;
use crate::refusal::get_refusal;
use js_base::{Error, OutOfMemory, Source, Text};
use js_call::{ApiCall, ApiScope, Call, Failure};
use js_json::{Response, response_as};
use js_json_members::ReadError;
use js_json_stream_bodies::DeleteStatus;
use std::alloc::Global;

/// How `delete_stream` checks its arguments and reads its answer.
#[derive(Drop)]
pub struct DeletingStream {
    name: Text,
}

/// The `delete_stream` call under way.
pub type DeleteStream = Call<DeletingStream>;

impl ApiCall for DeletingStream {
    type Reply = Response<DeleteStatus>;

    type Answer = Result<DeleteStatus, DeleteStreamError>;

    ghost table = { delete_row };

    fn refusal(&self) -> Option<Result<DeleteStatus, DeleteStreamError>> {
        match get_refusal(self.name.as_str()) {
            None => None,
            Some(kind) => Some(Err(Error::new(kind))),
        }
    }

    fn read(alloc: Global, payload: &[u8]) -> Result<Response<DeleteStatus>, ReadError> {
        response_as(alloc, payload)
    }

    fn answer(self, reply: Response<DeleteStatus>) -> Result<DeleteStatus, DeleteStreamError> {
        drop(self);
        match reply {
            Response::Ok(status) => Ok(status),
            Response::Err { error } => Err(Error::new(DeleteStreamErrorKind::JetStream(error))),
        }
    }

    fn failure(self, _failure: Failure, source: Source) -> Result<DeleteStatus, DeleteStreamError> {
        drop(self);
        Err(Error::with_source(DeleteStreamErrorKind::Request, source))
    }
}

/// Deletes a stream with all its messages and consumers.
///
/// Fails with `OutOfMemory` if memory runs out; the polls return all other errors, which are those
/// of `get_stream`.
pub fn delete_stream(
    alloc: Global,
    scope: &ApiScope,
    name: &str,
) -> Result<DeleteStream, OutOfMemory>
    ensures { IfOk result (λ call. call ≡ deleting scope.now name.now) }
{
    let kept = Text::from_str(alloc, name)?;
    let row = DeletingStream { name: kept };
    call_on(alloc, scope, row, "STREAM.DELETE", name, b"{}")
}
