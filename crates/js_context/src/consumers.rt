//! The calls on consumers that a context makes.
//!
//! Each returns a state, and fails itself only with `OutOfMemory`. The state's first poll rejects
//! invalid arguments before anything is sent; the other errors come from later polls.
ghost use Rattle.std.specs.Prelude.{◌≡◌, IfOk};
ghost use Rattle.js_call_consumers.specs.Create.{Makes, request_of};
ghost use Rattle.js_call_consumers.specs.Delete.{deleting};
ghost use Rattle.js_call_consumers.specs.Get.{getting};
ghost use Rattle.js_call_consumers.specs.CreateKind.{consumer_kinds, strict_kinds, update_kinds};

use crate::context::Context;
use js_base::OutOfMemory;
use js_call_consumers::{
    CreateConsumerOnStream, CreateConsumerStrictOnStream, DeleteConsumerFromStream,
    GetConsumerFromStream, UpdateConsumerOnStream, create_consumer_on_stream,
    create_consumer_strict_on_stream, delete_consumer_from_stream, get_consumer_from_stream,
    update_consumer_on_stream,
};
use js_json::consumer::FromConsumer;
use std::alloc::Global;

impl Context {
    /// Creates a consumer on a stream. If one of this name exists, the server changes it to this
    /// configuration as far as it can be changed, and otherwise returns an error. A configuration
    /// with an instant outside the years 0 to 9999 cannot be written: the call fails with
    /// `Request`, and nothing is sent.
    ///
    /// The polls fail with `JetStream` if the server returned an error, which it holds, with
    /// `Other` if the created consumer is of another kind, with `TimedOut` if the timeout is due,
    /// and with `Request` if the request has no reply for another reason or its reply cannot be
    /// read.
    pub fn create_consumer_on_stream<C: FromConsumer>(
        &self,
        alloc: Global,
        config: C,
        stream: &str,
    ) -> Result<CreateConsumerOnStream<C>, OutOfMemory>
        ensures { IfOk result (λ call. Makes consumer_kinds self.now.scope (request_of consumer_kinds.action (C.config config) stream.now) call) }
    {
        create_consumer_on_stream(alloc, self.scope(), config, stream)
    }

    /// Creates a consumer on a stream. Fails with `AlreadyExists` if one of this name with a
    /// different configuration exists. The other errors are those of `create_consumer_on_stream`.
    pub fn create_consumer_strict_on_stream<C: FromConsumer>(
        &self,
        alloc: Global,
        config: C,
        stream: &str,
    ) -> Result<CreateConsumerStrictOnStream<C>, OutOfMemory>
        ensures { IfOk result (λ call. Makes strict_kinds self.now.scope (request_of strict_kinds.action (C.config config) stream.now) call) }
    {
        create_consumer_strict_on_stream(alloc, self.scope(), config, stream)
    }

    /// Changes the consumer of this name on the stream. Fails with `DoesNotExist` if the stream has
    /// none. The other errors are those of `create_consumer_on_stream`.
    pub fn update_consumer_on_stream<C: FromConsumer>(
        &self,
        alloc: Global,
        config: C,
        stream: &str,
    ) -> Result<UpdateConsumerOnStream<C>, OutOfMemory>
        ensures { IfOk result (λ call. Makes update_kinds self.now.scope (request_of update_kinds.action (C.config config) stream.now) call) }
    {
        update_consumer_on_stream(alloc, self.scope(), config, stream)
    }

    /// Gets a consumer of a stream as the type of its configuration.
    ///
    /// The first poll fails with `InvalidName` if the consumer's or the stream's name is invalid.
    /// Later polls fail with `InvalidConsumerType` if the consumer is of another kind, with
    /// `JetStream` if the server returned an error, which it holds, with `TimedOut` if the timeout
    /// is due, and with `Request` if the request has no reply for another reason or its reply
    /// cannot be read.
    pub fn get_consumer_from_stream<T: FromConsumer>(
        &self,
        alloc: Global,
        consumer: &str,
        stream: &str,
    ) -> Result<GetConsumerFromStream<T>, OutOfMemory>
        ensures { IfOk result (λ call. call ≡ getting self.now.scope consumer.now stream.now) }
    {
        get_consumer_from_stream(alloc, self.scope(), consumer, stream)
    }

    /// Deletes a consumer of a stream. The first poll fails with `InvalidName` if the consumer's
    /// name is invalid, and with `Other` if the stream's is. `JetStream`, `TimedOut` and `Request`
    /// come as in `get_consumer_from_stream`.
    pub fn delete_consumer_from_stream(
        &self,
        alloc: Global,
        consumer: &str,
        stream: &str,
    ) -> Result<DeleteConsumerFromStream, OutOfMemory>
        ensures { IfOk result (λ call. call ≡ deleting self.now.scope consumer.now stream.now) }
    {
        delete_consumer_from_stream(alloc, self.scope(), consumer, stream)
    }
}
