//! The messages of a push consumer, as a subscription.
ghost use Rattle.js_readers.specs.PushMessages.{IsPoll, something_due};
ghost use Rattle.js_readers.specs.Subscriptions.{IsPushQuiet, messages_inbox};

use crate::push::error::MessagesError;
use crate::push::messages::Messages;
use crate::subscription::Subscription;
use js_base::{Moment, Next};
use js_link::{InboxId, Link};
use js_message::Message;
use std::alloc::Global;

impl Subscription for Messages {
    type Item = Message;

    type Error = MessagesError;

    ghost polls = { λ now old new before after result. IsPoll now old result new before after };

    ghost due = { λ now messages. something_due now messages };

    ghost quiet = { λ messages view. IsPushQuiet messages view };

    ghost opened = { λ messages. messages_inbox messages };

    fn poll_next<L: Link>(
        &mut self,
        alloc: Global,
        link: &mut L,
        now: Moment,
    ) -> Next<Result<Message, MessagesError>> {
        self.poll_next(alloc, link, now)
    }

    fn inbox(&self) -> Option<InboxId> {
        Some(self.inbox())
    }

    fn wakes_at(&self) -> Option<Moment> {
        self.wakes_at()
    }

    fn close<L: Link>(self, link: &mut L) {
        self.close(link);
    }
}
