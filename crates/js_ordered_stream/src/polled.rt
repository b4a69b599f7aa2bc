//! An ordered consumer, with what holds for it between any two rows of its polls.
ghost use Rattle.std.specs.Prelude.{◌≡◌, ◌<◌, ◌^◌, false, true, ℕ};
ghost use Rattle.js_base.specs.Clock.{has_come};
ghost use Rattle.js_link.specs.Meets.{Meets};
ghost use Rattle.js_ordered_stream.specs.Inbox.{ClosesInbox, inbox_of};
ghost use Rattle.js_ordered_stream.specs.Ordered.{IsGivenKind, PollsWithSource, SleepsUntil, given_to, poll_answer, position_of, something_due};
ghost use Rattle.js_ordered_stream.specs.Polled.{IsSteady, is_plain, is_turn};
ghost use Rattle.js_ordered_stream.specs.Rows.{is_first_held, is_first_idle, left_rows, read_in};
ghost use Rattle.js_ordered_table.specs.Poll.{IsPoll};

use crate::error::OrderedError;
use crate::ordered::Ordered;
use crate::remaining_rows::RemainingRows;
use js_base::{Boxed, Message, Moment, Next};
use js_link::{InboxId, Link};
use js_ordered_table::{Consumer, ReplayInput};
use std::alloc::Global;

/// An ordered consumer that may be polled: it holds no message, its reader is not pinned, and at
/// most one row waits behind its next one.
#[derive(Drop)]
pub(crate) struct Polled {
    pub(crate) ordered: Ordered,
    ghost plain: { is_plain ordered.given.setup ordered.consumer.phase ≡ true },
    ghost turn: { is_turn ordered.given.setup (left_rows ordered.left) ≡ true },
    ghost stands: { is_first_idle (read_in ordered.left.seen) ordered.left.todo ≡ false },
    ghost held: { is_first_held ordered.left.todo ≡ false },
}

impl Polled {
    // A consumer with the rows that are left of its opening.
    pub(crate) fn new(given: Boxed<ReplayInput>, consumer: Consumer, left: RemainingRows) -> Polled
        requires { IsSteady given.setup consumer left }
        ensures { result.ordered ≡ record { given = given; consumer = consumer; left = left } }
    {
        Polled {
            ordered: Ordered::new(given, consumer, left),
        }
    }

    // Reads the next message or error. It waits after a turn in which nothing came.
    pub(crate) fn poll_next<L: Link>(
        &mut self,
        alloc: Global,
        link: &mut L,
        now: Moment,
    ) -> Next<Result<Message, OrderedError>>
        ensures given { given_to self.new.ordered ≡ given_to self.old.ordered }
        ensures polls { IsPoll (given_to self.old.ordered) Meets now (position_of self.old.ordered) (position_of self.new.ordered) (L.view link.old) (L.view link.new) (poll_answer result) }
        ensures sources { PollsWithSource (given_to self.old.ordered) now (position_of self.old.ordered) (position_of self.new.ordered) (L.view link.old) (L.view link.new) result }
        ensures kinds { IsGivenKind result }
    {
        self.ordered.poll_next(alloc, link, now)
    }

    // When it has something to do by itself.
    pub(crate) fn wakes_at(&self) -> Option<Moment>
        ensures value { (now : ℕ) → now < 2 ^ 64 → has_come result now ≡ something_due now (position_of self.now.ordered) }
        ensures sleeps { SleepsUntil (given_to self.now.ordered) result (position_of self.now.ordered) }
    {
        self.ordered.wakes_at()
    }

    // The inbox that is open for it.
    pub(crate) fn inbox(&self) -> Option<InboxId>
        ensures { result ≡ inbox_of (position_of self.now.ordered).consumer.phase }
    {
        self.ordered.inbox()
    }

    // Lets go of it, and closes its inbox.
    pub(crate) fn leave<L: Link>(self, link: &mut L)
        ensures { ClosesInbox (inbox_of (position_of self.ordered).consumer.phase) (L.view link.old) (L.view link.new) }
    {
        let Polled { ordered } = self;
        ordered.leave(link);
    }
}
