//! The calls that create and update consumers.
ghost use Rattle.std.specs.Prelude.{◌≡◌, IfOk};
ghost use Rattle.js_call.specs.Call.{Polled};
ghost use Rattle.js_call.specs.Scope.{asking};
ghost use Rattle.js_call.specs.Wakes.{call_waits_for};
ghost use Rattle.js_call_consumers.specs.Create.{create_row, create_waits_for, creating, unwritten, CreatePolled, Makes, request_of};
ghost use Rattle.js_call_consumers.specs.CreateKind.{consumer_kinds, strict_kinds, update_kinds};
ghost use Rattle.js_call_consumers.specs.CreateSubject.{create_subject};

use crate::consumer::Consumer;
use crate::create::CreatingConsumer;
use crate::create_kind::CreateKind;
use crate::create_subject::create_subject;
use crate::error::{ConsumerCreateStrictErrorKind, ConsumerErrorKind, ConsumerUpdateErrorKind};
use bytes::Bytes;
use js_base::{Error, Moment, OutOfMemory, Text, TryClone, Turn, both};
use js_call::{ApiScope, Call, Failure, OpenRequest, RawCall, State};
use js_json::consumer::{Action, CreateRequest, FromConsumer};
use js_json_members::{ReadError, ToValue};
use js_link::Link;
use std::alloc::Global;

/// A call under way that creates or updates a consumer: its request, or why there is no request.
#[derive(Drop)]
#[must_use = "a call is sent by its first poll"]
pub enum CreateCall<C, K> {
    /// The configuration cannot be written as JSON. The first poll returns this error, and nothing
    /// is sent.
    Refused(Error<K>),
    /// The request, and what its reply means.
    Asking(Call<CreatingConsumer<C, K>>),
}

/// The `create_consumer_on_stream` call under way.
pub type CreateConsumerOnStream<C> = CreateCall<C, ConsumerErrorKind>;

/// The `create_consumer_strict_on_stream` call under way.
pub type CreateConsumerStrictOnStream<C> = CreateCall<C, ConsumerCreateStrictErrorKind>;

/// The `update_consumer_on_stream` call under way.
pub type UpdateConsumerOnStream<C> = CreateCall<C, ConsumerUpdateErrorKind>;

impl<C: FromConsumer, K: CreateKind> State for CreateCall<C, K> {
    type Answer = Result<Consumer<C>, Error<K>>;

    ghost polled = { CreatePolled (Polled (create_row C.of_config K.kinds)) };

    ghost waits_for = { create_waits_for (call_waits_for (create_row C.of_config K.kinds)) };

    fn waits_for(&self) -> Option<OpenRequest> {
        match self {
            CreateCall::Refused(_) => None,
            CreateCall::Asking(call) => call.waits_for(),
        }
    }

    fn poll<L: Link>(self, alloc: Global, link: &mut L, now: Moment) -> Turn<Self, Self::Answer> {
        match self {
            CreateCall::Refused(error) => Turn::Ready(Err(error)),
            CreateCall::Asking(call) => match call.poll(alloc, link, now) {
                Turn::Pending(call) => Turn::Pending(CreateCall::Asking(call)),
                Turn::OutOfMemory(call) => Turn::OutOfMemory(CreateCall::Asking(call)),
                Turn::Ready(answer) => Turn::Ready(answer),
            },
        }
    }
}

// The request that makes a consumer, with that body.
fn creation_request(
    alloc: Global,
    scope: &ApiScope,
    request: &CreateRequest,
    text: &str,
) -> Result<RawCall, OutOfMemory>
    ensures { IfOk result (λ asked. asked ≡ asking scope.now (create_subject request.now.stream_name request.now.config) text.now) }
{
    let body = Bytes::copy_from_slice(alloc, text.as_bytes())?;
    let subject = create_subject(alloc, request.stream_name.as_str(), &request.config)?;
    let asked = scope.ask(alloc, subject.as_str(), body);
    drop(subject);
    asked
}

// The call that makes a consumer, with that body.
fn creating<C: FromConsumer, K: CreateKind>(
    alloc: Global,
    scope: &ApiScope,
    request: &CreateRequest,
    text: &str,
) -> Result<Call<CreatingConsumer<C, K>>, OutOfMemory>
    ensures { IfOk result (λ call. call ≡ creating scope.now request.now text.now) }
{
    let asked = creation_request(alloc, scope, request, text);
    let (scope, asked) = both(scope.try_clone(), asked)?;
    Ok(Call::new(CreatingConsumer::new(scope), asked))
}

// Why a configuration has no text, as what the call is refused with.
fn unwritten<K: CreateKind>(alloc: Global, fault: ReadError) -> Result<Error<K>, OutOfMemory>
    ensures { IfOk result (λ error. error ≡ unwritten K.kinds fault) }
{
    let failure = Failure::Read(fault);
    let source = failure.to_source(alloc)?;
    Ok(Error::with_source(K::of_request(failure.kind()), source))
}

// The call that sends this request, if it has a text.
fn make<C: FromConsumer, K: CreateKind>(
    alloc: Global,
    scope: &ApiScope,
    request: &CreateRequest,
) -> Result<CreateCall<C, K>, OutOfMemory>
    ensures { IfOk result (λ call. Makes K.kinds scope.now request.now call) }
{
    match request.to_text(alloc) {
        Ok(text) => {
            let asking = creating(alloc, scope, request, text.as_str());
            drop(text);
            Ok(CreateCall::Asking(asking?))
        }
        Err(ReadError::OutOfMemory) => Err(OutOfMemory),
        Err(fault) => Ok(CreateCall::Refused(unwritten(alloc, fault)?)),
    }
}

// The request by that action, as a value.
fn request_of<C: FromConsumer>(
    alloc: Global,
    action: Action,
    config: C,
    stream: &str,
) -> Result<CreateRequest, OutOfMemory>
    ensures { IfOk result (λ request. request ≡ request_of action (C.config config) stream.now) }
{
    let stream_name = Text::from_str(alloc, stream)?;
    Ok(CreateRequest {
        action,
        config: config.into_consumer_config(alloc),
        stream_name,
    })
}

// The call that sends this request, which is given up.
fn make_of<C: FromConsumer, K: CreateKind>(
    alloc: Global,
    scope: &ApiScope,
    request: CreateRequest,
) -> Result<CreateCall<C, K>, OutOfMemory>
    ensures { IfOk result (λ call. Makes K.kinds scope.now request call) }
{
    let call = make(alloc, scope, &request);
    drop(request);
    call
}

// Any of the three calls.
fn create<C: FromConsumer, K: CreateKind>(
    alloc: Global,
    scope: &ApiScope,
    config: C,
    stream: &str,
) -> Result<CreateCall<C, K>, OutOfMemory>
    ensures { IfOk result (λ call. Makes K.kinds scope.now (request_of K.kinds.action (C.config config) stream.now) call) }
{
    let request = request_of(alloc, K::action(), config, stream)?;
    make_of(alloc, scope, request)
}

/// Creates a consumer on a stream. If a consumer of that name exists, the server changes it to this
/// configuration, or returns an error if it cannot.
///
/// Fails with `OutOfMemory` if memory runs out; the polls return all other errors. A configuration
/// with an instant outside the years 0 to 9999 (a start by time, a pause) cannot be written as
/// JSON. The error is then `Request`, whose source names the key, and nothing is sent. `JetStream`
/// holds the server's error. `Other` means that the created consumer is of another kind. `TimedOut`
/// means that the timeout expired, and `Request` that the request got no reply for another reason
/// or its reply cannot be read; the source of these is the text of that error.
///
/// The request's subject contains the names of the stream and of the configuration unchanged, and
/// the server takes the word between two dots as the name: a consumer that you name `x.y` becomes
/// `x`.
pub fn create_consumer_on_stream<C: FromConsumer>(
    alloc: Global,
    scope: &ApiScope,
    config: C,
    stream: &str,
) -> Result<CreateConsumerOnStream<C>, OutOfMemory>
    ensures { IfOk result (λ call. Makes consumer_kinds scope.now (request_of consumer_kinds.action (C.config config) stream.now) call) }
{
    create(alloc, scope, config, stream)
}

/// Creates a consumer on a stream. If one of that name with the same configuration exists, the call
/// returns it as it is. Servers before 2.10 ignore the action of the request, and change the
/// existing consumer.
///
/// Fails with `OutOfMemory` if memory runs out; the polls return all other errors. `AlreadyExists`
/// means that a consumer of that name with another configuration exists. The other errors, and the
/// hazards, are those of `create_consumer_on_stream`.
pub fn create_consumer_strict_on_stream<C: FromConsumer>(
    alloc: Global,
    scope: &ApiScope,
    config: C,
    stream: &str,
) -> Result<CreateConsumerStrictOnStream<C>, OutOfMemory>
    ensures { IfOk result (λ call. Makes strict_kinds scope.now (request_of strict_kinds.action (C.config config) stream.now) call) }
{
    create(alloc, scope, config, stream)
}

/// Updates the consumer of that name on the stream.
///
/// Fails with `OutOfMemory` if memory runs out; the polls return all other errors. `DoesNotExist`
/// means that the stream has no consumer of that name. The other errors, and the hazards, are those
/// of `create_consumer_on_stream`.
pub fn update_consumer_on_stream<C: FromConsumer>(
    alloc: Global,
    scope: &ApiScope,
    config: C,
    stream: &str,
) -> Result<UpdateConsumerOnStream<C>, OutOfMemory>
    ensures { IfOk result (λ call. Makes update_kinds scope.now (request_of update_kinds.action (C.config config) stream.now) call) }
{
    create(alloc, scope, config, stream)
}
