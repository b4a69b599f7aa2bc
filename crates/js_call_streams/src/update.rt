//! The call that updates a stream.
ghost use Rattle.std.specs.Prelude.{◌≡◌, IfOk};
ghost use Rattle.js_call_streams.specs.Update.{updated as updated_in, update_row, Updates};

use crate::create::config_request;
use crate::error::{CreateStreamError, UpdateStreamError, api_error, create_failure};
use crate::refusal::name_refusal;
use js_base::{Error, OutOfMemory, Source, Text, TryClone, both};
use js_call::{ApiCall, ApiScope, Call, Failure};
use js_json::{Response, response_as};
use js_json_members::ReadError;
use js_json_stream_bodies::stream::{Config, Info};
use std::alloc::Global;

/// How `update_stream` checks its arguments and reads its answer.
#[derive(Drop)]
pub struct UpdatingStream {
    name: Text,
}

/// The `update_stream` call under way.
pub type UpdateStream = Call<UpdatingStream>;

/// Returns what the server reports about the stream, or the API's error.
pub(crate) fn updated(reply: Response<Info>) -> Result<Info, CreateStreamError>
    ensures { result ≡ updated_in reply }
{
    match reply {
        Response::Ok(info) => Ok(info),
        Response::Err { error } => Err(api_error(error)),
    }
}

impl ApiCall for UpdatingStream {
    type Reply = Response<Info>;

    type Answer = Result<Info, UpdateStreamError>;

    ghost table = { update_row };

    fn refusal(&self) -> Option<Result<Info, UpdateStreamError>> {
        match name_refusal(self.name.as_str()) {
            None => None,
            Some(kind) => Some(Err(Error::new(kind))),
        }
    }

    fn read(alloc: Global, payload: &[u8]) -> Result<Response<Info>, ReadError> {
        response_as(alloc, payload)
    }

    fn answer(self, reply: Response<Info>) -> Result<Info, UpdateStreamError> {
        drop(self);
        updated(reply)
    }

    fn failure(self, failure: Failure, source: Source) -> Result<Info, UpdateStreamError> {
        drop(self);
        Err(create_failure(failure, source))
    }
}

/// Updates a stream to this configuration, and returns what the server then reports about it.
///
/// The server takes the configuration as a whole. It resets everything that `Config` does not name
/// to its default, even if you read it from the server before: `max_consumers`, `no_ack`,
/// `duplicate_window`, `discard_new_per_subject`, `first_seq`, `sealed`, `subject_transform`,
/// `consumer_limits`, `metadata` and whatever newer servers add, and `opt_start_time` and
/// `subject_transforms` of a mirror or a source. Use `update_stream_keeping` to keep them. The
/// server rejects a change that it does not allow, for example to a mirror that had a start time.
///
/// Fails with `OutOfMemory` if memory runs out; the polls return all other errors. The first poll
/// fails with `EmptyStreamName` or `InvalidStreamName` if the name is invalid, and nothing is sent.
/// `NotFound` means that the server does not know the stream; its source is the server's error.
/// `JetStream` holds any other error of the server. `TimedOut`, `JetStreamUnavailable`,
/// `InvalidStreamName` (the full subject is invalid) and `Response` (the link failed, or the reply
/// cannot be read) have the request's or the reply's error as the source.
pub fn update_stream(
    alloc: Global,
    scope: &ApiScope,
    config: &Config,
) -> Result<UpdateStream, OutOfMemory>
    ensures { IfOk result (λ call. Updates scope.now config.now call) }
{
    let asked = config_request(alloc, scope, "STREAM.UPDATE", config);
    let (row, asked) = both(updating_row(config), asked)?;
    Ok(Call::new(row, asked))
}

/// What the call keeps of its arguments.
pub(crate) fn updating_row(config: &Config) -> Result<UpdatingStream, OutOfMemory>
    ensures { IfOk result (λ row. row ≡ record { name = config.now.name }) }
{
    Ok(UpdatingStream {
        name: config.name.try_clone()?,
    })
}
