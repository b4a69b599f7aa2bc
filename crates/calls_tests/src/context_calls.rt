//! The calls of a context.

use crate::consumers::{created, created_strictly, got_pull, updated};
use crate::lists::next;
use crate::server::{Answered, Words, polled, word};
use crate::stream_calls::{self, config};
use js_base::{OutOfMemory, Text, TryClone, both};
use js_call::{ApiScope, RawCall, RawRequest};
use js_call_streams::{ListItem, Listing, StreamHandle, UpdateStream};
use js_context::{Context, Requester};
use js_json::pull;
use js_json_members::{FromValue, ReadError, value_of};
use js_json_stream_bodies::stream;
use js_link::Link;
use serde_json::Value;
use std::alloc::Global;

/// A call of a context.
#[derive(Clone, Copy)]
pub(crate) enum Call {
    Request,
    GetStream,
    DeleteStream,
    CreateStream,
    GetOrCreateStream,
    CreateOrUpdateStream,
    UpdateStream,
    UpdateStreamKeeping,
    CreateConsumer,
    CreateConsumerStrict,
    UpdateConsumer,
    GetConsumer,
    DeleteConsumer,
    StreamBySubject,
    StreamNames,
    Streams,
    RawRequest,
    /// By its trait.
    Requester,
}

pub(crate) fn empty() -> RawRequest {
    RawRequest {
        payload: None,
        headers: None,
        timeout: None,
        inbox: None,
    }
}

fn raw<C: Requester>(context: &C, alloc: Global) -> Result<RawCall, OutOfMemory> {
    context.raw_request(alloc, "a", empty())
}

// What the first poll of a list comes to.
fn listed<T: ListItem + Answered, L: Link>(
    alloc: Global,
    link: &mut L,
    list: Result<Listing<T>, OutOfMemory>,
) -> Words {
    match list {
        Ok(mut list) => {
            let words = next(alloc, &mut list, link);
            drop(list);
            words
        }
        Err(OutOfMemory) => Err(OutOfMemory),
    }
}

// What the server knows of the stream `events`.
fn info(alloc: Global) -> Result<stream::Info, ReadError> {
    let value = value_of(
        alloc,
        br#"{"config":{"name":"events"},"created":"2026-01-01T00:00:00Z","state":{"messages":3,"bytes":96,"first_seq":1,"last_seq":3}}"#,
    )?;
    stream::Info::from_value(alloc, &value)
}

// A handle that has kept nothing.
fn handle_of(scope: ApiScope, name: Text, info: stream::Info) -> StreamHandle<stream::Info> {
    StreamHandle {
        scope,
        name,
        info,
        kept: None,
    }
}

// The handle of the stream `events`. Its texts are made before what is known of it, which is large.
fn known(alloc: Global, context: &Context) -> Result<StreamHandle<stream::Info>, ReadError> {
    let (scope, name) = both(context.scope().try_clone(), Text::from_str(alloc, "events"))?;
    Ok(handle_of(scope, name, info(alloc)?))
}

fn keeping(
    alloc: Global,
    context: &Context,
    handle: &StreamHandle<stream::Info>,
) -> Result<UpdateStream, OutOfMemory> {
    let config = config(alloc, "events")?;
    let call = context.update_stream_keeping(alloc, handle, &config);
    drop(config);
    call
}

fn update_by<L: Link>(
    alloc: Global,
    context: &Context,
    link: &mut L,
    handle: &StreamHandle<stream::Info>,
) -> Words {
    stream_calls::updated(alloc, link, keeping(alloc, context, handle))
}

fn update_keeping<L: Link>(alloc: Global, context: &Context, link: &mut L) -> Words {
    match known(alloc, context) {
        Ok(handle) => {
            let words = update_by(alloc, context, link, &handle);
            drop(handle);
            words
        }
        Err(_) => word(alloc, "unread"),
    }
}

fn get_stream<L: Link>(alloc: Global, context: &Context, link: &mut L) -> Words {
    polled(alloc, link, context.get_stream(alloc, "events"))
}

fn delete_stream<L: Link>(alloc: Global, context: &Context, link: &mut L) -> Words {
    polled(alloc, link, context.delete_stream(alloc, "events"))
}

fn create_stream<L: Link>(alloc: Global, context: &Context, link: &mut L) -> Words {
    let config = config(alloc, "events")?;
    stream_calls::created(alloc, link, context.create_stream(alloc, config))
}

fn get_or_create_stream<L: Link>(alloc: Global, context: &Context, link: &mut L) -> Words {
    let config = config(alloc, "events")?;
    polled(alloc, link, context.get_or_create_stream(alloc, config))
}

fn create_or_update_stream<L: Link>(alloc: Global, context: &Context, link: &mut L) -> Words {
    let config = config(alloc, "events")?;
    polled(alloc, link, context.create_or_update_stream(alloc, config))
}

fn updating(alloc: Global, context: &Context) -> Result<UpdateStream, OutOfMemory> {
    let config = config(alloc, "events")?;
    let call = context.update_stream(alloc, &config);
    drop(config);
    call
}

fn update_stream<L: Link>(alloc: Global, context: &Context, link: &mut L) -> Words {
    stream_calls::updated(alloc, link, updating(alloc, context))
}

// The calls on streams.
fn stream_call<L: Link>(alloc: Global, context: &Context, link: &mut L, call: Call) -> Words {
    match call {
        Call::GetStream => get_stream(alloc, context, link),
        Call::DeleteStream => delete_stream(alloc, context, link),
        Call::CreateStream => create_stream(alloc, context, link),
        Call::GetOrCreateStream => get_or_create_stream(alloc, context, link),
        Call::CreateOrUpdateStream => create_or_update_stream(alloc, context, link),
        Call::UpdateStreamKeeping => update_keeping(alloc, context, link),
        _ => update_stream(alloc, context, link),
    }
}

fn create_consumer<L: Link>(alloc: Global, context: &Context, link: &mut L) -> Words {
    let config = pull::Config::new(alloc);
    let call = context.create_consumer_on_stream(alloc, config, "events");
    created(alloc, link, call)
}

fn create_consumer_strict<L: Link>(alloc: Global, context: &Context, link: &mut L) -> Words {
    let config = pull::Config::new(alloc);
    let call = context.create_consumer_strict_on_stream(alloc, config, "events");
    created_strictly(alloc, link, call)
}

fn update_consumer<L: Link>(alloc: Global, context: &Context, link: &mut L) -> Words {
    let config = pull::Config::new(alloc);
    let call = context.update_consumer_on_stream(alloc, config, "events");
    updated(alloc, link, call)
}

fn get_consumer<L: Link>(alloc: Global, context: &Context, link: &mut L) -> Words {
    let call = context.get_consumer_from_stream::<pull::Config>(alloc, "c1", "events");
    got_pull(alloc, link, call)
}

fn delete_consumer<L: Link>(alloc: Global, context: &Context, link: &mut L) -> Words {
    let call = context.delete_consumer_from_stream(alloc, "c1", "events");
    polled(alloc, link, call)
}

// The calls on consumers.
fn consumer_call<L: Link>(alloc: Global, context: &Context, link: &mut L, call: Call) -> Words {
    match call {
        Call::CreateConsumer => create_consumer(alloc, context, link),
        Call::CreateConsumerStrict => create_consumer_strict(alloc, context, link),
        Call::UpdateConsumer => update_consumer(alloc, context, link),
        Call::GetConsumer => get_consumer(alloc, context, link),
        _ => delete_consumer(alloc, context, link),
    }
}

fn request<L: Link>(alloc: Global, context: &Context, link: &mut L) -> Words {
    polled(alloc, link, context.request(alloc, "INFO", &Value::Null))
}

fn raw_request<L: Link>(alloc: Global, context: &Context, link: &mut L) -> Words {
    polled(alloc, link, context.raw_request(alloc, "b", empty()))
}

fn raw_by_trait<L: Link>(alloc: Global, context: &Context, link: &mut L) -> Words {
    polled(alloc, link, raw(context, alloc))
}

fn stream_by_subject<L: Link>(alloc: Global, context: &Context, link: &mut L) -> Words {
    polled(alloc, link, context.stream_by_subject(alloc, "a.b"))
}

fn stream_names<L: Link>(alloc: Global, context: &Context, link: &mut L) -> Words {
    listed(alloc, link, context.stream_names(alloc))
}

fn streams<L: Link>(alloc: Global, context: &Context, link: &mut L) -> Words {
    listed(alloc, link, context.streams(alloc))
}

/// What the first poll of a call comes to.
pub(crate) fn first_poll<L: Link>(
    alloc: Global,
    context: &Context,
    link: &mut L,
    call: Call,
) -> Words {
    match call {
        Call::Request => request(alloc, context, link),
        Call::RawRequest => raw_request(alloc, context, link),
        Call::Requester => raw_by_trait(alloc, context, link),
        Call::StreamBySubject => stream_by_subject(alloc, context, link),
        Call::StreamNames => stream_names(alloc, context, link),
        Call::Streams => streams(alloc, context, link),
        Call::CreateConsumer
        | Call::CreateConsumerStrict
        | Call::UpdateConsumer
        | Call::GetConsumer
        | Call::DeleteConsumer => consumer_call(alloc, context, link, call),
        _ => stream_call(alloc, context, link, call),
    }
}
