//! The readers of ordered consumers, by pull and by push, as subscriptions.
ghost use Rattle.js_ordered_stream.specs.Inbox.{inbox_of};
ghost use Rattle.js_ordered_stream.specs.Opening.{input_of_pull, input_of_push, position_of_pull, position_of_push};
ghost use Rattle.js_ordered_stream.specs.Ordered.{something_due};
ghost use Rattle.js_readers.specs.OrderedConsumers.{IsOrderedQuiet, PollsOrdered};

use crate::ordered::reader::OrderedReader;
use crate::ordered::{pull, push};
use crate::subscription::Subscription;
use js_base::{Moment, Next};
use js_link::{InboxId, Link};
use js_message::Message;
use js_ordered_stream::OrderedError;
use std::alloc::Global;

impl Subscription for pull::Ordered {
    type Item = Message;

    type Error = OrderedError;

    ghost polls = { λ now old new before after result. PollsOrdered now old.timeout new.timeout (input_of_pull old.reader) (input_of_pull new.reader) (position_of_pull old.reader) (position_of_pull new.reader) before after result };

    ghost due = { λ now o. something_due now (position_of_pull o.reader) };

    ghost quiet = { λ o view. IsOrderedQuiet (input_of_pull o.reader) (position_of_pull o.reader) view };

    ghost opened = { λ o. inbox_of (position_of_pull o.reader).consumer.phase };

    fn poll_next<L: Link>(
        &mut self,
        alloc: Global,
        link: &mut L,
        now: Moment,
    ) -> Next<Result<Message, OrderedError>> {
        self.poll_next(alloc, link, now)
    }

    fn inbox(&self) -> Option<InboxId> {
        self.inbox()
    }

    fn wakes_at(&self) -> Option<Moment> {
        self.wakes_at()
    }

    fn close<L: Link>(self, link: &mut L) {
        self.close(link);
    }
}

impl OrderedReader for pull::Ordered {}

impl Subscription for push::Ordered {
    type Item = Message;

    type Error = OrderedError;

    ghost polls = { λ now old new before after result. PollsOrdered now old.timeout new.timeout (input_of_push old.reader) (input_of_push new.reader) (position_of_push old.reader) (position_of_push new.reader) before after result };

    ghost due = { λ now o. something_due now (position_of_push o.reader) };

    ghost quiet = { λ o view. IsOrderedQuiet (input_of_push o.reader) (position_of_push o.reader) view };

    ghost opened = { λ o. inbox_of (position_of_push o.reader).consumer.phase };

    fn poll_next<L: Link>(
        &mut self,
        alloc: Global,
        link: &mut L,
        now: Moment,
    ) -> Next<Result<Message, OrderedError>> {
        self.poll_next(alloc, link, now)
    }

    fn inbox(&self) -> Option<InboxId> {
        self.inbox()
    }

    fn wakes_at(&self) -> Option<Moment> {
        self.wakes_at()
    }

    fn close<L: Link>(self, link: &mut L) {
        self.close(link);
    }
}

impl OrderedReader for push::Ordered {}
