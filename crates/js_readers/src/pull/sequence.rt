//! Batches of one size, one after another.
ghost use Rattle.std.specs.Prelude.{◌≡◌, ◌<◌, ◌^◌, ℕ, true};
ghost use Rattle.js_pull.specs.Reader.{timer_from};
ghost use Rattle.js_base.specs.Clock.{has_come, second};
ghost use Rattle.js_ordered_stream.specs.Inbox.{ClosesInbox};
ghost use Rattle.js_readers.specs.PullRequest.{kept_inbox};
ghost use Rattle.js_readers.specs.Sequence.{KeepsAsking, OpensSequence, PollsSequence};

use crate::pull::batch::Batch;
use crate::pull::consumer::{is_pinned, message_timeout};
use crate::pull::error::{BatchError, BatchErrorKind};
use crate::pull::request::{OpenFault, OpenInbox, PullRequest, close_kept, kept_inbox};
use js_base::{Error, Moment, Nanos, Next, OutOfMemory, Timer};
use js_call_consumers::PullConsumer;
use js_json::pull::BatchConfig;
use js_link::{InboxId, Link};
use js_pull::{MessagesError, MessagesErrorKind};
use std::alloc::Global;

/// Batches of one size, one after another. It never ends and never waits: each poll asks for
/// another batch.
///
/// Each batch has an inbox of its own. If memory runs out for a request, the sequence keeps the
/// inbox that is open for it until the next poll. Dropping the sequence then leaves that inbox
/// open: `close` ends the sequence and closes the inbox.
#[derive(Drop)]
#[must_use = "batches are asked for by polls"]
pub struct Sequence {
    request: PullRequest,
    /// How many messages each batch asks for.
    batch: u64,
    /// How long a double ack of its messages waits, in nanoseconds.
    timeout: Nanos,
    /// An inbox that is open for the next batch. Its request was not sent because memory ran out.
    kept: Option<OpenInbox>,
}

impl Sequence {
    // A sequence of batches that ask for so much. A consumer with pinned clients is refused.
    pub(crate) fn open(
        alloc: Global,
        consumer: &PullConsumer,
        config: &BatchConfig,
    ) -> Result<Sequence, BatchError>
        ensures { OpensSequence result consumer.now config.now }
    {
        if is_pinned(consumer.config.priority_policy) {
            return Err(Error::new(BatchErrorKind::PinnedClient));
        }
        match PullRequest::of(alloc, consumer, config) {
            Ok(request) => Ok(Sequence {
                request,
                batch: config.batch,
                timeout: message_timeout(&consumer.scope),
                kept: None,
            }),
            Err(OutOfMemory) => Err(Error::new(BatchErrorKind::OutOfMemory)),
        }
    }

    /// Returns the inbox that it keeps for the next batch. It has one only after a poll that ran
    /// out of memory when the inbox was open.
    pub fn inbox(&self) -> Option<InboxId>
        ensures { result ≡ kept_inbox self.now.kept }
    {
        kept_inbox(&self.kept)
    }

    /// Ends it, and closes the inbox that it keeps, if any. The batches that it returned go on.
    pub fn close<L: Link>(self, link: &mut L)
        ensures { ClosesInbox (kept_inbox self.kept) (L.view link.old) (L.view link.new) }
    {
        close_kept(link, self.kept);
    }

    /// Asks for the next batch, which waits at most 60 seconds from `now`.
    ///
    /// Returns an error of kind `Pull` if the link fails to open an inbox or to send the request.
    /// No inbox stays open then, and the next poll tries again. If memory runs out, no request was
    /// sent: the sequence keeps the inbox if it is open, and the next poll begins with the request.
    pub fn poll_next<L: Link>(
        &mut self,
        alloc: Global,
        link: &mut L,
        now: Moment,
    ) -> Next<Result<Batch, MessagesError>>
        ensures polls { PollsSequence now self.old result self.new (L.view link.old) (L.view link.new) }
        ensures same { KeepsAsking self.old self.new }
    {
        match self.request.ask(alloc, link, &mut self.kept) {
            Ok(inbox) => {
                let timer = Timer {
                    set: now,
                    wait: 60_000_000_000,
                };
                let batch = Batch::new(inbox, self.batch, Some(timer), self.timeout);
                Next::Item(Ok(batch))
            }
            Err(OpenFault::OutOfMemory) => Next::OutOfMemory,
            Err(OpenFault::Subscribe | OpenFault::Pull) => {
                Next::Item(Err(Error::new(MessagesErrorKind::Pull)))
            }
        }
    }

    /// Returns the moment at which it has something to do. This is always `Some(0)`. Takes no
    /// memory.
    pub fn wakes_at(&self) -> Option<Moment>
        ensures { (now : ℕ) → has_come result now ≡ true }
    {
        Some(0)
    }
}
