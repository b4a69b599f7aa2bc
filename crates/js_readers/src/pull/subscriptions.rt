//! Streams, batches and sequences of batches, as subscriptions.
ghost use Rattle.js_readers.specs.Batch.{PollsBatch, batch_due, inbox_id};
ghost use Rattle.js_readers.specs.PullRequest.{kept_inbox};
ghost use Rattle.js_readers.specs.Subscriptions.{IsBatchQuiet, IsSequenceQuiet, IsStreamQuiet, PollsBatches, PollsStream, sequence_due, stream_due, stream_inbox};

use crate::pull::batch::Batch;
use crate::pull::batch_item::BatchItemError;
use crate::pull::sequence::Sequence;
use crate::pull::stream::Stream;
use crate::subscription::Subscription;
use js_base::{Moment, Next};
use js_link::{InboxId, Link};
use js_message::Message;
use js_pull::MessagesError;
use std::alloc::Global;

impl Subscription for Stream {
    type Item = Message;

    type Error = MessagesError;

    ghost polls = { λ now old new before after result. PollsStream now old new before after result };

    ghost due = { λ now stream. stream_due now stream };

    ghost quiet = { λ stream view. IsStreamQuiet stream view };

    ghost opened = { λ stream. stream_inbox stream };

    fn poll_next<L: Link>(
        &mut self,
        alloc: Global,
        link: &mut L,
        now: Moment,
    ) -> Next<Result<Message, MessagesError>> {
        self.poll_next(alloc, link, now)
    }

    fn inbox(&self) -> Option<InboxId> {
        Some(self.inbox())
    }

    fn wakes_at(&self) -> Option<Moment> {
        self.wakes_at()
    }

    fn close<L: Link>(self, link: &mut L) {
        self.close(link);
    }
}

impl Subscription for Batch {
    type Item = Message;

    type Error = BatchItemError;

    ghost polls = { λ now old new before after result. PollsBatch now old result new before after };

    ghost due = { λ now batch. batch_due now batch };

    ghost quiet = { λ batch view. IsBatchQuiet batch view };

    ghost opened = { λ batch. inbox_id batch.inbox };

    fn poll_next<L: Link>(
        &mut self,
        _alloc: Global,
        link: &mut L,
        now: Moment,
    ) -> Next<Result<Message, BatchItemError>> {
        self.poll_next(link, now)
    }

    fn inbox(&self) -> Option<InboxId> {
        self.inbox()
    }

    fn wakes_at(&self) -> Option<Moment> {
        self.wakes_at()
    }

    fn close<L: Link>(self, link: &mut L) {
        self.close(link);
    }
}

impl Subscription for Sequence {
    type Item = Batch;

    type Error = MessagesError;

    ghost polls = { λ now old new before after result. PollsBatches now old new before after result };

    ghost due = { λ now sequence. sequence_due now sequence };

    ghost quiet = { λ sequence view. IsSequenceQuiet sequence view };

    ghost opened = { λ sequence. kept_inbox sequence.kept };

    fn poll_next<L: Link>(
        &mut self,
        alloc: Global,
        link: &mut L,
        now: Moment,
    ) -> Next<Result<Batch, MessagesError>> {
        self.poll_next(alloc, link, now)
    }

    fn inbox(&self) -> Option<InboxId> {
        self.inbox()
    }

    fn wakes_at(&self) -> Option<Moment> {
        self.wakes_at()
    }

    fn close<L: Link>(self, link: &mut L) {
        self.close(link);
    }
}
