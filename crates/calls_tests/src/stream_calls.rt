//! Calls on streams, as they are made and polled once.

use crate::server::{Followed, Words, call_again, found_word, polled, scope};
use js_base::{Items, OutOfMemory, Text, TryClone, all_3, replace_with};
use js_call::ApiScope;
use js_call_streams::{
    CreateStream, StreamHandle, UpdateStream, create_or_update_stream, create_stream,
    delete_stream, domain_prefix, get_or_create_stream, get_stream, get_stream_no_info,
    update_stream, update_stream_keeping,
};
use js_json_stream_bodies::stream::{Config, External, Info, Source};
use js_link::Link;
use std::alloc::Global;

pub(crate) const PREFIX: &str = "$JS.API";

/// The configuration of a stream of that name, and nothing else.
pub(crate) fn config(alloc: Global, name: &str) -> Result<Config, OutOfMemory> {
    Ok(Config {
        name: Text::from_str(alloc, name)?,
        ..Config::new(alloc)
    })
}

/// Under that prefix, with 200 nanoseconds.
pub(crate) fn hurried(alloc: Global, prefix: &str) -> Result<ApiScope, OutOfMemory> {
    scope(alloc, prefix, Some(200))
}

pub(crate) fn creating(
    alloc: Global,
    scope: &ApiScope,
    name: &str,
) -> Result<CreateStream, OutOfMemory> {
    create_stream(alloc, scope, config(alloc, name)?)
}

fn updating(alloc: Global, scope: &ApiScope, name: &str) -> Result<UpdateStream, OutOfMemory> {
    let config = config(alloc, name)?;
    let call = update_stream(alloc, scope, &config);
    drop(config);
    call
}

/// What the first poll of the call comes to.
pub(crate) fn created<L: Link>(
    alloc: Global,
    link: &mut L,
    call: Result<CreateStream, OutOfMemory>,
) -> Words {
    polled(alloc, link, call)
}

/// What the first poll of the call comes to.
pub(crate) fn updated<L: Link>(
    alloc: Global,
    link: &mut L,
    call: Result<UpdateStream, OutOfMemory>,
) -> Words {
    polled(alloc, link, call)
}

pub(crate) fn create<L: Link>(alloc: Global, link: &mut L, scope: &ApiScope, name: &str) -> Words {
    created(alloc, link, creating(alloc, scope, name))
}

pub(crate) fn update<L: Link>(alloc: Global, link: &mut L, scope: &ApiScope, name: &str) -> Words {
    updated(alloc, link, updating(alloc, scope, name))
}

pub(crate) fn get<L: Link>(alloc: Global, link: &mut L, scope: &ApiScope, name: &str) -> Words {
    polled(alloc, link, get_stream(alloc, scope, name))
}

pub(crate) fn delete<L: Link>(alloc: Global, link: &mut L, scope: &ApiScope, name: &str) -> Words {
    polled(alloc, link, delete_stream(alloc, scope, name))
}

pub(crate) fn get_or_create<L: Link>(
    alloc: Global,
    link: &mut L,
    scope: &ApiScope,
    name: &str,
) -> Words {
    let config = config(alloc, name)?;
    polled(alloc, link, get_or_create_stream(alloc, scope, config))
}

pub(crate) fn create_or_update<L: Link>(
    alloc: Global,
    link: &mut L,
    scope: &ApiScope,
    name: &str,
) -> Words {
    let config = config(alloc, name)?;
    polled(alloc, link, create_or_update_stream(alloc, scope, config))
}

pub(crate) fn get_no_info(alloc: Global, scope: &ApiScope, name: &str) -> Words {
    found_word(alloc, get_stream_no_info(alloc, scope, name))
}

fn with_age(config: &Config, max_age: u64) -> Result<Config, OutOfMemory> {
    let mut changed = config.try_clone()?;
    changed.max_age = max_age;
    Ok(changed)
}

fn keeping(
    alloc: Global,
    handle: &StreamHandle<Info>,
    max_age: u64,
) -> Result<UpdateStream, OutOfMemory> {
    let config = with_age(&handle.info.config, max_age)?;
    let call = update_stream_keeping(alloc, &handle.scope, handle, &config);
    drop(config);
    call
}

impl Followed for StreamHandle<Info> {
    fn follow<L: Link>(&self, alloc: Global, link: &mut L, number: u64) -> Words {
        updated(alloc, link, keeping(alloc, self, number))
    }
}

/// Changes the stream `events` by the handle that getting it gives.
pub(crate) fn update_keeping<L: Link>(
    alloc: Global,
    link: &mut L,
    scope: &ApiScope,
    max_age: u64,
) -> Words {
    let call = get_stream(alloc, scope, "events")?;
    call_again(alloc, link, call, max_age)
}

fn external(alloc: Global, is_set: bool) -> Result<Option<External>, OutOfMemory> {
    if !is_set {
        return Ok(None);
    }
    Ok(Some(External {
        api_prefix: domain_prefix(alloc, "hub")?,
        delivery_prefix: None,
    }))
}

fn source(name: Text, domain: Text, external: Option<External>) -> Source {
    Source {
        name,
        start_sequence: None,
        filter_subject: None,
        external,
        domain: Some(domain),
    }
}

// The stream `orders` of the domain `hub`, maybe with an external too.
fn hub(alloc: Global, has_external: bool) -> Result<Source, OutOfMemory> {
    let (name, domain, external) = all_3(
        Text::from_str(alloc, "orders"),
        Text::from_str(alloc, "hub"),
        external(alloc, has_external),
    )?;
    Ok(source(name, domain, external))
}

// That item alone.
fn one<T: Drop>(alloc: Global, item: T) -> Result<Items<T>, OutOfMemory> {
    let mut items = Items::new(alloc);
    items.push(item)?;
    Ok(items)
}

fn hubs(alloc: Global, has_external: bool) -> Result<Items<Source>, OutOfMemory> {
    one(alloc, hub(alloc, has_external)?)
}

// The configuration of the stream that copies these.
fn copy_of(alloc: Global, name: Text, mirror: Source, sources: Items<Source>) -> Config {
    let mut config = Config::new(alloc);
    replace_with(&mut config.name, name);
    replace_with(&mut config.mirror, Some(mirror));
    replace_with(&mut config.sources, Some(sources));
    config
}

fn copying(alloc: Global, mirror: bool, source: bool) -> Result<Config, OutOfMemory> {
    let (name, mirror, sources) = all_3(
        Text::from_str(alloc, "events"),
        hub(alloc, mirror),
        hubs(alloc, source),
    )?;
    Ok(copy_of(alloc, name, mirror, sources))
}

pub(crate) fn copy<L: Link>(
    alloc: Global,
    link: &mut L,
    scope: &ApiScope,
    mirror: bool,
    source: bool,
) -> Words {
    let config = copying(alloc, mirror, source)?;
    created(alloc, link, create_stream(alloc, scope, config))
}
