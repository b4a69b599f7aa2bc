//! The call that looks up a consumer of a stream.
ghost use Rattle.std.specs.Prelude.{◌≡◌, IfOk};
ghost use Rattle.js_call_consumers.specs.Get.{get_row, getting, got};

use crate::consumer::Consumer;
use crate::consumer_answer::ConsumerAnswer;
use crate::create_kind::consumer_failure;
use crate::error::{ConsumerError, ConsumerErrorKind};
use crate::refusal::get_refusal;
use crate::request::call_on;
use js_base::{Error, OutOfMemory, Source, Text, TryClone, all_3};
use js_call::{ApiCall, ApiScope, Call, Failure};
use js_json::consumer::FromConsumer;
use js_json::{Response, response_as};
use js_json_members::ReadError;
use std::alloc::Global;
use std::marker::PhantomData;

/// How `get_consumer_from_stream` checks its arguments and reads its answer.
#[derive(Drop)]
pub struct GettingConsumer<T> {
    scope: ApiScope,
    consumer: Text,
    stream: Text,
    of: PhantomData<T>,
}

/// The `get_consumer_from_stream` call under way.
pub type GetConsumerFromStream<T> = Call<GettingConsumer<T>>;

impl<T: FromConsumer> ApiCall for GettingConsumer<T> {
    type Reply = Response<ConsumerAnswer<T>>;

    type Answer = Result<Consumer<T>, ConsumerError>;

    ghost table = { get_row T.of_config };

    fn refusal(&self) -> Option<Result<Consumer<T>, ConsumerError>> {
        match get_refusal(self.consumer.as_str(), self.stream.as_str()) {
            None => None,
            Some(kind) => Some(Err(Error::new(kind))),
        }
    }

    fn read(alloc: Global, payload: &[u8]) -> Result<Response<ConsumerAnswer<T>>, ReadError> {
        response_as(alloc, payload)
    }

    fn answer(self, reply: Response<ConsumerAnswer<T>>) -> Result<Consumer<T>, ConsumerError>
        ensures { result ≡ got self reply }
    {
        let GettingConsumer {
            scope,
            consumer,
            stream,
            of: _,
        } = self;
        drop(consumer);
        drop(stream);
        match reply {
            Response::Ok(told) => told.into_consumer(scope, ConsumerErrorKind::InvalidConsumerType),
            Response::Err { error } => {
                drop(scope);
                Err(Error::new(ConsumerErrorKind::JetStream(error)))
            }
        }
    }

    fn failure(self, failure: Failure, source: Source) -> Result<Consumer<T>, ConsumerError> {
        drop(self);
        Err(Error::with_source(consumer_failure(failure.kind()), source))
    }
}

// What the call keeps of its arguments.
fn getting_row<T>(
    alloc: Global,
    scope: &ApiScope,
    consumer: &str,
    stream: &str,
) -> Result<GettingConsumer<T>, OutOfMemory>
    ensures { IfOk result (λ row. row ≡ record { scope = scope.now; consumer = consumer.now; stream = stream.now; of = record {} }) }
{
    let (scope, consumer, stream) = all_3(
        scope.try_clone(),
        Text::from_str(alloc, consumer),
        Text::from_str(alloc, stream),
    )?;
    Ok(GettingConsumer {
        scope,
        consumer,
        stream,
        of: PhantomData,
    })
}

/// Looks up a consumer of a stream, as a consumer of kind `T`.
///
/// Fails with `OutOfMemory` if memory runs out; the polls return all other errors. The first poll
/// fails with `InvalidName` if one of the names is not a valid consumer or stream name, and nothing
/// is sent. `InvalidConsumerType` means that the consumer is of another kind; its source says why.
/// `JetStream` holds the server's error. `TimedOut` means that the timeout expired, and `Request`
/// that the request got no reply for another reason or its reply cannot be read; the source of
/// these is the text of that error.
pub fn get_consumer_from_stream<T: FromConsumer>(
    alloc: Global,
    scope: &ApiScope,
    consumer: &str,
    stream: &str,
) -> Result<GetConsumerFromStream<T>, OutOfMemory>
    ensures { IfOk result (λ call. call ≡ getting scope.now consumer.now stream.now) }
{
    let row = getting_row(alloc, scope, consumer, stream)?;
    call_on(alloc, scope, row, "CONSUMER.INFO", stream, consumer)
}
