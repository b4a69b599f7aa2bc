//! The calls on streams that a context makes.
//!
//! Each returns a state, and fails itself only with `OutOfMemory`. The state's first poll rejects
//! invalid arguments before anything is sent; the other errors come from later polls.
ghost use Rattle.std.specs.Prelude.{◌≡◌, IfOk};
ghost use Rattle.js_call_streams.specs.Create.{Creates, FindsOrCreates};
ghost use Rattle.js_call_streams.specs.GetAndDelete.{deleting, getting, GivesHandle};
ghost use Rattle.js_call_streams.specs.ReceivedConfigUpdate.{SendsBack, UpdatesKeeping};
ghost use Rattle.js_call_streams.specs.Update.{Updates, UpdatesOrCreates};

use crate::context::Context;
use js_base::OutOfMemory;
use js_call_streams::{
    CreateOrUpdateStream, CreateStream, DeleteStream, GetOrCreateStream, GetStream, GetStreamError,
    StreamHandle, UpdateStream, create_or_update_stream, create_stream, delete_stream,
    get_or_create_stream, get_stream, get_stream_no_info, update_stream, update_stream_keeping,
};
use js_json_stream_bodies::stream::{Config, Info};
use std::alloc::Global;

impl Context {
    /// Creates a stream. A mirror or source that has only a domain gets that domain's API as its
    /// external. If a stream with this name and configuration exists, the server returns it; it
    /// refuses a different configuration.
    ///
    /// The first poll rejects invalid arguments with `EmptyStreamName`, `InvalidStreamName` or
    /// `DomainAndExternalSet`. Later polls fail with `JetStream` if the server returned an error,
    /// which it holds, with `TimedOut` if the timeout is due, with `JetStreamUnavailable` if nobody
    /// answers, and with `Response` if the request has no reply for another reason or its reply
    /// cannot be read.
    pub fn create_stream(&self, alloc: Global, config: Config) -> Result<CreateStream, OutOfMemory>
        ensures { IfOk result (λ call. Creates self.now.scope config call) }
    {
        create_stream(alloc, self.scope(), config)
    }

    /// Gets a stream with what the server knows of it. The first poll rejects an invalid name with
    /// `EmptyName` or `InvalidStreamName`. Later polls fail with `JetStream` if the server returned
    /// an error, which it holds, and with `Request` if the request has no reply or its reply cannot
    /// be read.
    pub fn get_stream(&self, alloc: Global, name: &str) -> Result<GetStream, OutOfMemory>
        ensures { IfOk result (λ call. call ≡ getting self.now.scope name.now) }
    {
        get_stream(alloc, self.scope(), name)
    }

    /// Returns a handle of the stream of this name without asking the server whether the stream
    /// exists. Fails with `EmptyName` if the name is empty, with `InvalidStreamName` if no stream
    /// may have it, and with `OutOfMemory` if memory runs out.
    pub fn get_stream_no_info(
        &self,
        alloc: Global,
        name: &str,
    ) -> Result<StreamHandle<()>, GetStreamError>
        ensures { GivesHandle result self.now.scope name.now }
    {
        get_stream_no_info(alloc, self.scope(), name)
    }

    /// Gets a stream, and creates it as `create_stream` does if the server returns 404. The errors
    /// are those of `create_stream`.
    pub fn get_or_create_stream(
        &self,
        alloc: Global,
        config: Config,
    ) -> Result<GetOrCreateStream, OutOfMemory>
        ensures { IfOk result (λ calls. FindsOrCreates self.now.scope config calls) }
    {
        get_or_create_stream(alloc, self.scope(), config)
    }

    /// Replaces the whole configuration of a stream. Settings that `Config` does not have, such as
    /// `no_ack` and `duplicate_window`, are reset to the server's default, even if `config` was
    /// read from the server before. `js_call_streams::update_stream` lists them, and
    /// `update_stream_keeping` keeps them. The errors are those of `create_stream` except
    /// `DomainAndExternalSet`, and `NotFound` if the server does not know the stream.
    pub fn update_stream(&self, alloc: Global, config: &Config) -> Result<UpdateStream, OutOfMemory>
        ensures { IfOk result (λ call. Updates self.now.scope config.now call) }
    {
        update_stream(alloc, self.scope(), config)
    }

    /// Changes a stream to this configuration and keeps the other settings that the server sent to
    /// the handle from `get_stream`, also inside a mirror, an external, a placement and a
    /// republish. If you change nothing, everything that was read is sent back.
    /// `js_call_streams::update_stream_keeping` says what is written. The errors are those of
    /// `update_stream`.
    pub fn update_stream_keeping(
        &self,
        alloc: Global,
        handle: &StreamHandle<Info>,
        config: &Config,
    ) -> Result<UpdateStream, OutOfMemory>
        ensures written { IfOk result (λ call. UpdatesKeeping self.now.scope handle.now config.now call) }
        ensures unchanged { handle.now.info.config ≡ config.now
            → IfOk result (λ call. SendsBack self.now.scope handle.now config.now call) }
    {
        update_stream_keeping(alloc, self.scope(), handle, config)
    }

    /// Changes a stream, or creates it as `create_stream` does if the server says that it does not
    /// exist. If it exists, settings that `Config` does not have are reset, as by `update_stream`.
    /// The errors are those of `create_stream`.
    pub fn create_or_update_stream(
        &self,
        alloc: Global,
        config: Config,
    ) -> Result<CreateOrUpdateStream, OutOfMemory>
        ensures { IfOk result (λ calls. UpdatesOrCreates self.now.scope config calls) }
    {
        create_or_update_stream(alloc, self.scope(), config)
    }

    /// Deletes a stream with all its messages and consumers. The errors are those of `get_stream`.
    pub fn delete_stream(&self, alloc: Global, name: &str) -> Result<DeleteStream, OutOfMemory>
        ensures { IfOk result (λ call. call ≡ deleting self.now.scope name.now) }
    {
        delete_stream(alloc, self.scope(), name)
    }
}
