//! An ordered consumer of either kind, polled.

use crate::texts::{first_info, settings};
use js_base::{Message, Moment, Next, OutOfMemory};
use js_json::consumer::Info;
use js_json::{pull as pull_json, push as push_json};
use js_link::MemoryLink;
use js_ordered_stream::{OrderedError, pull, push};
use js_ordered_table::Settings;
use std::alloc::Global;

/// How messages come.
#[derive(Clone, Copy, PartialEq, Eq)]
pub enum Kind {
    Pull,
    Push,
}

impl Kind {
    /// Its word.
    pub fn name(self) -> &'static str {
        match self {
            Kind::Pull => "pull",
            Kind::Push => "push",
        }
    }
}

/// A reader of a log.
pub trait Reads: Drop {
    /// Opens the reader of a log's first consumer.
    fn opened(
        alloc: Global,
        link: &mut MemoryLink,
        settings: Settings,
        first: Info,
    ) -> Result<Self, OutOfMemory>;

    /// Reads the next message or error.
    fn next(
        &mut self,
        alloc: Global,
        link: &mut MemoryLink,
        now: Moment,
    ) -> Next<Result<Message, OrderedError>>;
}

// What was opened. The link is up and the consumer has a deliver subject, so only memory can be missing.
fn opened<R: Drop, E: Drop>(opened: Result<R, E>) -> Result<R, OutOfMemory> {
    match opened {
        Ok(reader) => Ok(reader),
        Err(_) => Err(OutOfMemory),
    }
}

impl Reads for pull::Ordered {
    fn opened(
        alloc: Global,
        link: &mut MemoryLink,
        settings: Settings,
        first: Info,
    ) -> Result<pull::Ordered, OutOfMemory> {
        let config = pull_json::OrderedConfig::new(alloc);
        opened(pull::Ordered::open(alloc, link, settings, config, first))
    }

    fn next(
        &mut self,
        alloc: Global,
        link: &mut MemoryLink,
        now: Moment,
    ) -> Next<Result<Message, OrderedError>> {
        self.poll_next(alloc, link, now)
    }
}

impl Reads for push::Ordered {
    fn opened(
        alloc: Global,
        link: &mut MemoryLink,
        settings: Settings,
        first: Info,
    ) -> Result<push::Ordered, OutOfMemory> {
        let config = push_json::OrderedConfig::new(alloc);
        opened(push::Ordered::open(alloc, link, settings, config, first))
    }

    fn next(
        &mut self,
        alloc: Global,
        link: &mut MemoryLink,
        now: Moment,
    ) -> Next<Result<Message, OrderedError>> {
        self.poll_next(alloc, link, now)
    }
}

/// What the server tells of the first consumer, which may ask for so many messages by one request.
pub fn reported_info(alloc: Global, kind: Kind, max_batch: i64) -> Result<Info, OutOfMemory> {
    let mut first = first_info(alloc, kind)?;
    if kind == Kind::Pull {
        first.config.max_batch = max_batch;
    }
    Ok(first)
}

/// Opens a reader of a log's first consumer, which takes so many messages by one request.
pub fn open<R: Reads>(
    alloc: Global,
    link: &mut MemoryLink,
    kind: Kind,
    max_batch: i64,
) -> Result<R, OutOfMemory> {
    let settings = settings(alloc)?;
    match reported_info(alloc, kind, max_batch) {
        Ok(first) => R::opened(alloc, link, settings, first),
        Err(OutOfMemory) => Err(OutOfMemory),
    }
}
