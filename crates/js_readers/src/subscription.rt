//! One trait for all that is read: every reader of a consumer is a subscription.
ghost use Rattle.std.specs.Prelude.{◌≡◌, ◌<◌, ◌^◌, ℕ, Bool, Option, Result};
ghost use Rattle.js_base.specs.Clock.{has_come};
ghost use Rattle.js_base.specs.declared.turn.Next.{Next};
ghost use Rattle.js_link.specs.LinkView.{LinkView};
ghost use Rattle.js_link.specs.declared.sent.InboxId.{InboxId};
ghost use Rattle.js_ordered_stream.specs.Inbox.{ClosesInbox};
ghost use Rattle.js_readers.specs.Subscription.{IdlesIfQuiet, KeepsConnection};

use js_base::{Moment, Next};
use js_link::{InboxId, Link};
use std::alloc::Global;

/// Messages, or batches of messages, that come over a link until they end or you close it.
///
/// Every reader of a consumer is one: a pull stream, a batch, a sequence of batches, the messages of
/// a push consumer, and the ordered readers of either kind. Code that takes any
/// `S: Subscription<Item = Message>` reads each of them in the same way. A reader's own calls, such
/// as `Stream::poll_next`, do the same and promise more.
///
/// Call `close` when you are done with it. Dropping it leaves its inbox open.
pub trait Subscription: Drop {
    /// What it hands out: a message, or a batch of messages.
    type Item: Drop;

    /// What it returns in place of an item.
    type Error: Drop;

    /// What a poll at a moment does: between these two states of the subscription and these two
    /// views of the link, and what it returns.
    ghost polls: { ℕ → Self → Self → LinkView → LinkView → Next (Result Self.Item Self.Error) → Type 0 };

    /// Whether it has something to do by itself at a moment.
    ghost due: { ℕ → Self → Bool };

    /// Nothing has come for it, and no work of an earlier poll is left: its inbox is open and empty,
    /// no answer that it waits for has come, and the connection is as it was last told.
    ghost quiet: { Self → LinkView → Type 0 };

    /// Its open inbox.
    ghost opened: { Self → Option InboxId };

    /// Reads the next item, or the next error.
    ///
    /// It never waits. It sends what has to be sent, and takes what has come. What the link sent
    /// before stays sent, and a poll changes neither the connection's state nor its limits.
    ///
    /// After `Pending` you may sleep until something comes for it or `wakes_at` has come. Polling
    /// earlier sends nothing and hands out nothing. After `OutOfMemory` free memory and poll again;
    /// nothing is lost. `End` means that nothing more comes.
    fn poll_next<L: Link>(
        &mut self,
        alloc: Global,
        link: &mut L,
        now: Moment,
    ) -> Next<Result<Self::Item, Self::Error>>
        ensures polls { polls now self.old self.new (L.view link.old) (L.view link.new) result }
        ensures keeps { KeepsConnection (L.view link.old) (L.view link.new) }
        ensures idles { IdlesIfQuiet due quiet now self.old self.new (L.view link.old) (L.view link.new) result };

    /// Returns its open inbox, if it has one.
    fn inbox(&self) -> Option<InboxId>
        ensures { result ≡ opened self.now };

    /// Returns the first moment at which it has something to do by itself, if there is one.
    fn wakes_at(&self) -> Option<Moment>
        ensures { (now : ℕ) → now < 2 ^ 64 → has_come result now ≡ due now self.now };

    /// Ends it, and closes its inbox if it has one. What lies in the inbox is lost. The link is
    /// otherwise unchanged.
    fn close<L: Link>(self, link: &mut L)
        ensures { ClosesInbox (opened self) (L.view link.old) (L.view link.new) };
}
