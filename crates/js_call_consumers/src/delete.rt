//! The call that deletes a consumer of a stream.
ghost use Rattle.std.specs.Prelude.{◌≡◌, IfOk};
ghost use Rattle.js_call_consumers.specs.Delete.{delete_row, deleting};

use crate::create_kind::consumer_failure;
use crate::error::{ConsumerError, ConsumerErrorKind};
use crate::refusal::delete_refusal;
use crate::request::call_on;
use js_base::{Error, OutOfMemory, Source, Text, both};
use js_call::{ApiCall, ApiScope, Call, Failure};
use js_json::{Response, response_as};
use js_json_members::ReadError;
use js_json_stream_bodies::DeleteStatus;
use std::alloc::Global;

/// How `delete_consumer_from_stream` checks its arguments and reads its answer.
#[derive(Drop)]
pub struct DeletingConsumer {
    consumer: Text,
    stream: Text,
}

/// The `delete_consumer_from_stream` call under way.
pub type DeleteConsumerFromStream = Call<DeletingConsumer>;

impl ApiCall for DeletingConsumer {
    type Reply = Response<DeleteStatus>;

    type Answer = Result<DeleteStatus, ConsumerError>;

    ghost table = { delete_row };

    fn refusal(&self) -> Option<Result<DeleteStatus, ConsumerError>> {
        match delete_refusal(self.consumer.as_str(), self.stream.as_str()) {
            None => None,
            Some(kind) => Some(Err(Error::new(kind))),
        }
    }

    fn read(alloc: Global, payload: &[u8]) -> Result<Response<DeleteStatus>, ReadError> {
        response_as(alloc, payload)
    }

    fn answer(self, reply: Response<DeleteStatus>) -> Result<DeleteStatus, ConsumerError> {
        drop(self);
        match reply {
            Response::Ok(status) => Ok(status),
            Response::Err { error } => Err(Error::new(ConsumerErrorKind::JetStream(error))),
        }
    }

    fn failure(self, failure: Failure, source: Source) -> Result<DeleteStatus, ConsumerError> {
        drop(self);
        Err(Error::with_source(consumer_failure(failure.kind()), source))
    }
}

// What the call keeps of its arguments.
fn deleting_row(
    alloc: Global,
    consumer: &str,
    stream: &str,
) -> Result<DeletingConsumer, OutOfMemory>
    ensures { IfOk result (λ row. row ≡ record { consumer = consumer.now; stream = stream.now }) }
{
    let (consumer, stream) = both(
        Text::from_str(alloc, consumer),
        Text::from_str(alloc, stream),
    )?;
    Ok(DeletingConsumer { consumer, stream })
}

/// Deletes a consumer of a stream.
///
/// Fails with `OutOfMemory` if memory runs out; the polls return all other errors. The first poll
/// fails with `InvalidName` if the consumer's name is invalid, and with `Other` if the stream's
/// name is; nothing is sent then. `JetStream` holds the server's error. `TimedOut` means that the
/// timeout expired, and `Request` that the request got no reply for another reason or its reply
/// cannot be read; the source of these is the text of that error.
///
/// Readers of the consumer learn of the deletion from the server or not at all: an acknowledgement
/// of one of its messages is still accepted, and a pull request gets no answer.
pub fn delete_consumer_from_stream(
    alloc: Global,
    scope: &ApiScope,
    consumer: &str,
    stream: &str,
) -> Result<DeleteConsumerFromStream, OutOfMemory>
    ensures { IfOk result (λ call. call ≡ deleting scope.now consumer.now stream.now) }
{
    let row = deleting_row(alloc, consumer, stream)?;
    call_on(alloc, scope, row, "CONSUMER.DELETE", stream, consumer)
}
