//! How to ask for a pull consumer's messages. One builder serves streams, batches of what is there,
//! and batches that wait.
ghost use Rattle.std.specs.Prelude.{◌≡◌, Some, IfOk};
ghost use Rattle.js_readers.specs.Builder.{asked_for, defaults_for, unset};
ghost use Rattle.js_readers.specs.Batch.{OpensBatch};
ghost use Rattle.js_readers.specs.Stream.{OpensMessages};
ghost use Rattle.js_readers.specs.declared.pull.settings.BuilderKind.{BuilderKind as Kind};
ghost use Rattle.js_readers.specs.declared.pull.settings.BuilderKind.TheVariants as rows;

use crate::pull::batch::Batch;
use crate::pull::batch_opening::open_batch;
use crate::pull::consumer::is_pinned;
use crate::pull::error::{BatchError, StreamError};
use crate::pull::settings::{BuilderKind, Settings, defaults_of};
use crate::pull::stream::Stream;
use js_base::{Moment, Nanos, OutOfMemory};
use js_call_consumers::PullConsumer;
use js_link::Link;
use std::alloc::Global;
use std::marker::PhantomData;

/// A kind of builder.
pub trait Row: Drop {
    ghost kind: { Kind };

    /// Returns which kind it is.
    fn kind() -> BuilderKind
        ensures { result ≡ kind };
}

/// A kind whose builder opens one batch.
pub trait SingleBatch: Row {}

/// A kind whose requests may have a priority.
pub trait Prioritized: Row {}

/// Streams of messages: one request after another.
#[derive(Clone, Copy, Drop)]
pub struct Streams;

impl Row for Streams {
    ghost kind = { rows.Streams };

    fn kind() -> BuilderKind {
        BuilderKind::Streams
    }
}

impl Prioritized for Streams {}

/// Batches of the messages that are there.
#[derive(Clone, Copy, Drop)]
pub struct Fetches;

impl Row for Fetches {
    ghost kind = { rows.Fetches };

    fn kind() -> BuilderKind {
        BuilderKind::Fetches
    }
}

impl SingleBatch for Fetches {}

impl Prioritized for Fetches {}

/// Batches that wait for their messages.
#[derive(Clone, Copy, Drop)]
pub struct Batches;

impl Row for Batches {
    ghost kind = { rows.Batches };

    fn kind() -> BuilderKind {
        BuilderKind::Batches
    }
}

impl SingleBatch for Batches {}

/// Configures how to ask for messages. What you do not set has the default of the kind of builder.
#[derive(Drop)]
#[must_use = "nothing is asked for before `messages`"]
pub struct Builder<'a, R> {
    consumer: &'a PullConsumer,
    settings: Settings,
    row: PhantomData<R>,
}

/// Configures a stream of messages. By default each request asks for 200 messages and lasts 30
/// seconds, both lowered to the limits in the consumer's info.
pub type StreamBuilder<'a> = Builder<'a, Streams>;

/// Configures a batch of the messages that are there: 200 by default. The server answers at once if
/// none is left.
pub type FetchBuilder<'a> = Builder<'a, Fetches>;

/// Configures a batch that waits for its messages: 200 by default. It waits for the time that
/// `expires` sets, and five seconds more.
pub type BatchBuilder<'a> = Builder<'a, Batches>;

impl<'a, R> Builder<'a, R> {
    fn with(consumer: &'a PullConsumer, settings: Settings) -> Builder<'a, R>
        ensures consumer { result.consumer.now ≡ consumer.entry.now }
        ensures settings { result.settings ≡ settings }
    {
        Builder {
            consumer,
            settings,
            row: PhantomData,
        }
    }
}

impl<'a, R: Row> Builder<'a, R> {
    /// Returns a builder for this consumer, with nothing set.
    pub fn new(consumer: &'a PullConsumer) -> Builder<'a, R>
        ensures consumer { result.consumer.now ≡ consumer.entry.now }
        ensures settings { result.settings ≡ unset }
    {
        Builder::with(consumer, Settings::new())
    }

    /// Sets how often the server sends a heartbeat while a request waits, in nanoseconds; 0 for
    /// never. If the expiry of a stream is not set, its heartbeat is lowered to at most half of the
    /// default expiry. A server refuses a heartbeat above half the expiry.
    pub fn heartbeat(self, heartbeat: Nanos) -> Builder<'a, R>
        ensures consumer { result.consumer.now ≡ self.entry.consumer.now }
        ensures settings { result.settings ≡ record self.entry.settings { heartbeat = heartbeat } }
    {
        let Builder {
            consumer,
            mut settings,
            ..
        } = self;
        settings.heartbeat = heartbeat;
        Builder::with(consumer, settings)
    }

    /// Sets how long the server keeps a request, in nanoseconds. The consumer's limit does not
    /// lower it. A batch waits this long for its messages, and five seconds more. For a stream, 0
    /// makes the server keep requests until they are full, and no request follows by itself.
    pub fn expires(self, expires: Nanos) -> Builder<'a, R>
        ensures consumer { result.consumer.now ≡ self.entry.consumer.now }
        ensures settings { result.settings ≡ record self.entry.settings { expires = Some expires } }
    {
        let Builder {
            consumer,
            mut settings,
            ..
        } = self;
        settings.expires = Some(expires);
        Builder::with(consumer, settings)
    }

    /// Lets the server serve the request only if at least this many messages are not yet delivered.
    pub fn min_pending(self, min_pending: u64) -> Builder<'a, R>
        ensures consumer { result.consumer.now ≡ self.entry.consumer.now }
        ensures settings { result.settings ≡ record self.entry.settings { min_pending = Some min_pending } }
    {
        let Builder {
            consumer,
            mut settings,
            ..
        } = self;
        settings.min_pending = Some(min_pending);
        Builder::with(consumer, settings)
    }

    /// Lets the server serve the request only if at least this many messages wait for their
    /// acknowledgement.
    pub fn min_ack_pending(self, min_ack_pending: u64) -> Builder<'a, R>
        ensures consumer { result.consumer.now ≡ self.entry.consumer.now }
        ensures settings { result.settings ≡ record self.entry.settings { min_ack_pending = Some min_ack_pending } }
    {
        let Builder {
            consumer,
            mut settings,
            ..
        } = self;
        settings.min_ack_pending = Some(min_ack_pending);
        Builder::with(consumer, settings)
    }

    /// Sets the priority group to read for. Fails only with `OutOfMemory`, and the builder is then
    /// lost.
    pub fn group(self, alloc: Global, group: &str) -> Result<Builder<'a, R>, OutOfMemory>
        ensures consumer { IfOk result (λ builder. builder.consumer.now ≡ self.entry.consumer.now) }
        ensures settings { IfOk result (λ builder. builder.settings ≡ record self.entry.settings { group = Some group.now }) }
    {
        let Builder {
            consumer,
            settings,
            ..
        } = self;
        Ok(Builder::with(consumer, settings.with_group(alloc, group)?))
    }
}

impl<'a, R: Prioritized> Builder<'a, R> {
    /// Sets the priority within the group: the server serves 0 first, 9 last.
    pub fn priority(self, priority: u64) -> Builder<'a, R>
        ensures consumer { result.consumer.now ≡ self.entry.consumer.now }
        ensures settings { result.settings ≡ record self.entry.settings { priority = Some priority } }
    {
        let Builder {
            consumer,
            mut settings,
            ..
        } = self;
        settings.priority = Some(priority);
        Builder::with(consumer, settings)
    }
}

impl<'a> StreamBuilder<'a> {
    /// Sets how many bytes each request asks for at most; 0 for no limit.
    pub fn max_bytes_per_batch(self, max_bytes: u64) -> StreamBuilder<'a>
        ensures consumer { result.consumer.now ≡ self.entry.consumer.now }
        ensures settings { result.settings ≡ record self.entry.settings { max_bytes = max_bytes } }
    {
        let Builder {
            consumer,
            mut settings,
            ..
        } = self;
        settings.max_bytes = max_bytes;
        Builder::with(consumer, settings)
    }

    /// Sets how many messages each request asks for. The consumer's limit does not lower it. With
    /// 0, a request goes out at the start and after each arrival.
    pub fn max_messages_per_batch(self, batch: u64) -> StreamBuilder<'a>
        ensures consumer { result.consumer.now ≡ self.entry.consumer.now }
        ensures settings { result.settings ≡ record self.entry.settings { batch = Some batch } }
    {
        let Builder {
            consumer,
            mut settings,
            ..
        } = self;
        settings.batch = Some(batch);
        Builder::with(consumer, settings)
    }

    /// Opens an inbox for the stream. The stream requests nothing before its first poll.
    ///
    /// Fails with `Other` if the link fails to open the inbox, and with `OutOfMemory` if memory
    /// runs out. Nothing was sent in either case.
    pub fn messages<L: Link>(self, alloc: Global, link: &mut L) -> Result<Stream, StreamError>
        ensures { OpensMessages result self.entry.consumer.now (asked_for (defaults_for BuilderKind.Streams self.entry.consumer.now) self.entry.settings) (L.view link.old) (L.view link.new) }
    {
        let Builder {
            consumer,
            settings,
            ..
        } = self;
        let config = settings.request(defaults_of(BuilderKind::Streams, &consumer.info.config));
        let pinned = is_pinned(consumer.config.priority_policy);
        Stream::open(alloc, link, &consumer.scope, &consumer.info, config, pinned)
    }
}

impl<'a, R: SingleBatch> Builder<'a, R> {
    /// Sets how many bytes to ask for at most; 0 for no limit.
    pub fn max_bytes(self, max_bytes: u64) -> Builder<'a, R>
        ensures consumer { result.consumer.now ≡ self.entry.consumer.now }
        ensures settings { result.settings ≡ record self.entry.settings { max_bytes = max_bytes } }
    {
        let Builder {
            consumer,
            mut settings,
            ..
        } = self;
        settings.max_bytes = max_bytes;
        Builder::with(consumer, settings)
    }

    /// Sets how many messages to ask for.
    pub fn max_messages(self, batch: u64) -> Builder<'a, R>
        ensures consumer { result.consumer.now ≡ self.entry.consumer.now }
        ensures settings { result.settings ≡ record self.entry.settings { batch = Some batch } }
    {
        let Builder {
            consumer,
            mut settings,
            ..
        } = self;
        settings.batch = Some(batch);
        Builder::with(consumer, settings)
    }

    /// Asks for the batch, and opens an inbox for what comes.
    ///
    /// Fails with `PinnedClient`, before anything is sent, if the consumer pins one of its clients.
    /// Fails with `Subscribe` if the link fails to open the inbox, with `Pull` if it fails to send
    /// the request, and with `OutOfMemory` if memory runs out. No inbox stays open then.
    pub fn messages<L: Link>(
        self,
        alloc: Global,
        link: &mut L,
        now: Moment,
    ) -> Result<Batch, BatchError>
        ensures { OpensBatch result now self.entry.consumer.now (asked_for (defaults_for R.Row.kind self.entry.consumer.now) self.entry.settings) (L.view link.old) (L.view link.new) }
    {
        let Builder {
            consumer,
            settings,
            ..
        } = self;
        let config = settings.request(defaults_of(R::kind(), &consumer.info.config));
        let opened = open_batch(alloc, link, now, consumer, &config);
        drop(config);
        opened
    }
}
