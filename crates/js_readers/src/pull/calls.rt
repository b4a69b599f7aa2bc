//! The calls that read a pull consumer.
ghost use Rattle.std.specs.Prelude.{◌≡◌};
ghost use Rattle.js_json.specs.declared.pull.Config as pull;
ghost use Rattle.js_call_consumers.specs.declared.consumer.Consumer.{Consumer};
ghost use Rattle.js_readers.specs.Builder.{messages_config, sequence_config, unset};
ghost use Rattle.js_readers.specs.PullCalls.{RequestsBatch, request_fault};
ghost use Rattle.js_readers.specs.Sequence.{OpensSequence};
ghost use Rattle.js_readers.specs.Stream.{OpensMessages};

use crate::pull::builder::{BatchBuilder, Builder, FetchBuilder, StreamBuilder};
use crate::pull::error::{BatchError, BatchRequestError, BatchRequestErrorKind, StreamError};
use crate::pull::request::PullRequest;
use crate::pull::sequence::Sequence;
use crate::pull::settings::{BuilderKind, Settings, defaults_of};
use crate::pull::stream::Stream;
use js_base::{Error, OutOfMemory};
use js_call_consumers::PullConsumer;
use js_json::pull::BatchConfig;
use js_link::{Link, LinkError};
use std::alloc::Global;

/// The calls that read a pull consumer.
pub trait PullCalls {
    /// The consumer that it reads.
    ghost pulls: { Self → Consumer pull.Config };

    /// Opens a stream of messages with the defaults of `stream` and a heartbeat of 15 seconds.
    /// Fails as `StreamBuilder::messages` does.
    fn messages<L: Link>(&self, alloc: Global, link: &mut L) -> Result<Stream, StreamError>
        ensures { OpensMessages result (pulls self.now) (messages_config (pulls self.now)) (L.view link.old) (L.view link.new) };

    /// Returns a builder for a stream, which sends one request after another.
    fn stream(&self) -> StreamBuilder<'_>
        ensures consumer { result.consumer.now ≡ pulls self.now }
        ensures settings { result.settings ≡ unset };

    /// Returns a builder for a batch of the messages that are there.
    fn fetch(&self) -> FetchBuilder<'_>
        ensures consumer { result.consumer.now ≡ pulls self.now }
        ensures settings { result.settings ≡ unset };

    /// Returns a builder for a batch that waits for its messages.
    fn batch(&self) -> BatchBuilder<'_>
        ensures consumer { result.consumer.now ≡ pulls self.now }
        ensures settings { result.settings ≡ unset };

    /// Returns a sequence of batches of `batch` messages, one after another. The server keeps each
    /// request for 60 seconds. Nothing is sent before the first poll.
    ///
    /// Fails with `PinnedClient` if the consumer pins one of its clients, and with `OutOfMemory` if
    /// memory runs out.
    fn sequence(&self, alloc: Global, batch: u64) -> Result<Sequence, BatchError>
        ensures { OpensSequence result (pulls self.now) (sequence_config batch) };

    /// Sends one pull request. What it asks for comes to the subject `inbox`, which you must have
    /// opened.
    ///
    /// Fails with `Publish` if the link fails, and with `OutOfMemory` if memory runs out. Nothing
    /// was sent in either case.
    fn request_batch<L: Link>(
        &self,
        alloc: Global,
        link: &mut L,
        batch: BatchConfig,
        inbox: &str,
    ) -> Result<(), BatchRequestError>
        ensures { RequestsBatch result (pulls self.now) batch inbox.now (L.view link.old) (L.view link.new) };
}

fn request_fault(error: LinkError) -> BatchRequestErrorKind
    ensures { result ≡ request_fault error }
{
    match error {
        LinkError::Failed => BatchRequestErrorKind::Publish,
        LinkError::OutOfMemory => BatchRequestErrorKind::OutOfMemory,
    }
}

// What a sequence of batches of so many messages asks for.
fn sequence_config(batch: u64, consumer: &PullConsumer) -> BatchConfig
    ensures { result ≡ sequence_config batch }
{
    let settings = Settings {
        batch: Some(batch),
        expires: Some(60_000_000_000),
        ..Settings::new()
    };
    settings.request(defaults_of(BuilderKind::Batches, &consumer.info.config))
}

impl PullCalls for PullConsumer {
    ghost pulls = { λ consumer. consumer };

    fn messages<L: Link>(&self, alloc: Global, link: &mut L) -> Result<Stream, StreamError> {
        self.stream()
            .heartbeat(15_000_000_000)
            .messages(alloc, link)
    }

    fn stream(&self) -> StreamBuilder<'_> {
        Builder::new(self)
    }

    fn fetch(&self) -> FetchBuilder<'_> {
        Builder::new(self)
    }

    fn batch(&self) -> BatchBuilder<'_> {
        Builder::new(self)
    }

    fn sequence(&self, alloc: Global, batch: u64) -> Result<Sequence, BatchError> {
        let config = sequence_config(batch, self);
        let opened = Sequence::open(alloc, self, &config);
        drop(config);
        opened
    }

    fn request_batch<L: Link>(
        &self,
        alloc: Global,
        link: &mut L,
        batch: BatchConfig,
        inbox: &str,
    ) -> Result<(), BatchRequestError> {
        let made = PullRequest::of(alloc, self, &batch);
        drop(batch);
        let request = match made {
            Ok(request) => request,
            Err(OutOfMemory) => return Err(Error::new(BatchRequestErrorKind::OutOfMemory)),
        };
        let sent = request.publish(alloc, link, inbox);
        drop(request);
        match sent {
            Ok(()) => Ok(()),
            Err(error) => Err(Error::new(request_fault(error))),
        }
    }
}
