//! The stream of an ordered push consumer.
ghost use Rattle.std.specs.Prelude.{◌≡◌, ◌<◌, ◌^◌, IfOk, Some, ℕ};
ghost use Rattle.js_link.specs.Meets.{Meets};
ghost use Rattle.js_ordered_stream.specs.Inbox.{ClosesInbox, inbox_of};
ghost use Rattle.js_ordered_stream.specs.Opening.{IsGaplessPush, ListensFirst, OpensPushed, Subscribes, input_of_push, open_text, position_of_push};
ghost use Rattle.js_ordered_stream.specs.Ordered.{IsGivenKind, PollsWithSource, SleepsUntil, poll_answer, something_due};
ghost use Rattle.js_base.specs.Clock.{has_come};
ghost use Rattle.js_ordered_table.specs.Poll.{IsPoll};
ghost use Rattle.js_ordered_table.specs.Timers.{SleepsIfLeftAlone};

use crate::error::OrderedError;
use crate::ordered;
use crate::polled::Polled;
use crate::remaining_rows::RemainingRows;
use js_base::{Message, Moment, Next, OutOfMemory, TryClone};
use js_json::consumer::Info;
use js_json::push::OrderedConfig;
use js_link::{InboxId, Link, LinkError};
use js_ordered_table::transitions::push::listen;
use js_ordered_table::{Consumer, ConsumerContext, OrderedSetup, Phase, ReplayInput, Settings};
use std::alloc::Global;
use std::{error, fmt};

/// Why an ordered push consumer was not opened.
#[derive(Clone, Copy, Debug, PartialEq, Eq)]
pub enum OpenError {
    /// The consumer's info names no subject to which it delivers.
    NoDeliverSubject,
    /// The link refused the subscription.
    Failed,
    /// Memory ran out.
    OutOfMemory,
}

impl fmt::Display for OpenError {
    ghost output = { λ e. Some (open_text e) };

    fn fmt<W: fmt::Write>(&self, f: &mut fmt::Formatter<W>) -> fmt::Result {
        f.write_str(match self {
            OpenError::NoDeliverSubject => "no deliver subject",
            OpenError::Failed => "subscription failed",
            OpenError::OutOfMemory => "out of memory",
        })
    }
}

impl error::Error for OpenError {}

impl From<OutOfMemory> for OpenError {
    ghost use Rattle.std.specs.Prelude.{◌≡◌};
    ghost use Rattle.js_ordered_stream.specs.declared.push.OpenError.TheVariants.{OutOfMemory};

    ghost from_gives = { λ _ e. e ≡ OutOfMemory };

    fn from(_error: js_base::OutOfMemory) -> OpenError {
        OpenError::OutOfMemory
    }
}

/// The stream of an ordered push consumer: the messages in order and without a gap. It answers the
/// server's flow control. It recreates its consumer if a gap shows, if the server is silent, and if
/// the connection comes or goes.
#[derive(Drop)]
#[must_use = "messages come by polls"]
pub struct Ordered {
    pub(crate) polled: Polled,
}

// Subscribes to what the consumer delivers to.
fn subscribe<L: Link>(alloc: Global, link: &mut L, first: &Info) -> Result<u64, OpenError>
    ensures { Subscribes result first.now (L.view link.old) (L.view link.new) }
{
    let Some(subject) = &first.config.deliver_subject else {
        return Err(OpenError::NoDeliverSubject);
    };
    match link.subscribe(alloc, subject.as_str(), None) {
        Ok(inbox) => Ok(inbox.0),
        Err(LinkError::Failed) => Err(OpenError::Failed),
        Err(LinkError::OutOfMemory) => Err(OpenError::OutOfMemory),
    }
}

// Opens the inbox of the first consumer, which listens there.
fn open_first_consumer<L: Link>(
    alloc: Global,
    link: &mut L,
    given: &ReplayInput,
) -> Result<Consumer, OpenError>
    ensures { ListensFirst result given.now (L.view link.old) (L.view link.new) }
{
    let name = given.first.name.try_clone()?;
    match subscribe(alloc, link, &given.first) {
        Err(refused) => {
            drop(name);
            Err(refused)
        }
        Ok(inbox) => {
            let start = given.setup.configured_start();
            let mut consumer = ordered::first_consumer(start, name, Phase::Idle);
            let context = ConsumerContext {
                settings: &given.settings,
                setup: &given.setup,
                first: &given.first,
                moment: 0,
            };
            listen(&context, &mut consumer, inbox);
            Ok(consumer)
        }
    }
}

impl Ordered {
    /// Subscribes to the deliver subject of `first`, in no queue group, and reads its consumer
    /// there. The first poll arms the heartbeat; the server is heard from then on.
    ///
    /// However you poll it, its messages have no gap if the server is honest along its polls and
    /// delivers to this inbox from the configured start on, if there is one. This holds,
    /// too, over a link that gives the number of a closed inbox again: what the server delivers is
    /// told by the order in which inboxes are opened.
    ///
    /// The number of retries in `settings` has no effect: the stream tries 4,294,967,295 times to
    /// recreate a consumer.
    ///
    /// # Errors
    ///
    /// - `NoDeliverSubject`: the info names no deliver subject. Nothing was subscribed.
    /// - `Failed`: the link refused the subscription.
    /// - `OutOfMemory`: memory ran out.
    pub fn open<L: Link>(
        alloc: Global,
        link: &mut L,
        settings: Settings,
        config: OrderedConfig,
        first: Info,
    ) -> Result<Ordered, OpenError>
        ensures opens { OpensPushed result settings config first (L.view link.old) (L.view link.new) }
        ensures gapless { IfOk result IsGaplessPush }
    {
        let given = ordered::replay_input(alloc, settings, OrderedSetup::Push(config), first)?;
        match open_first_consumer(alloc, link, given.get()) {
            Err(refused) => {
                drop(given);
                Err(refused)
            }
            Ok(consumer) => Ok(Ordered {
                polled: Polled::new(given, consumer, RemainingRows::arming()),
            }),
        }
    }

    /// Reads the next message or error. Returns `Pending` after a turn in which nothing came.
    ///
    /// Each step makes at most one request of the link (`polls`). A heartbeat that asks for an
    /// answer, as flow control does, gets an empty one in the poll that hears it, unless the link
    /// refuses it.
    ///
    /// After `Pending` you may sleep until something comes for it or `wakes_at` has come. Polling
    /// earlier sends nothing and hands out nothing. What may come is a message in its inbox, the
    /// end of its inbox, an answer that it waits for, a change of the connection, or the end of the
    /// watcher.
    pub fn poll_next<L: Link>(
        &mut self,
        alloc: Global,
        link: &mut L,
        now: Moment,
    ) -> Next<Result<Message, OrderedError>>
        ensures given { input_of_push self.new ≡ input_of_push self.old }
        ensures polls { IsPoll (input_of_push self.old) Meets now (position_of_push self.old) (position_of_push self.new) (L.view link.old) (L.view link.new) (poll_answer result) }
        ensures sources { PollsWithSource (input_of_push self.old) now (position_of_push self.old) (position_of_push self.new) (L.view link.old) (L.view link.new) result }
        ensures kinds { IsGivenKind result }
        ensures sleeps { SleepsIfLeftAlone (input_of_push self.old) now (position_of_push self.old) (position_of_push self.new) (L.view link.old) (L.view link.new) (poll_answer result) }
    {
        self.polled.poll_next(alloc, link, now)
    }

    /// Returns the first moment at which it has something to do by itself:
    ///
    /// - `Some(0)` if it was never polled, if work of an earlier poll is left, or if it has neither
    ///   an inbox nor an open recreation (the next poll then begins one);
    /// - while it recreates its consumer, when the answer that it waits for is overdue, or when its
    ///   next try is due;
    /// - otherwise, when its heartbeat is missing;
    /// - `None` if there is no such moment, or if it has ended.
    ///
    /// Work is left if a poll stopped before its turn was over. For example, if there was no memory
    /// for the request that deletes the old consumer, this is `Some(0)`, though no timer is set,
    /// and the next poll sends the request.
    pub fn wakes_at(&self) -> Option<Moment>
        ensures value { (now : ℕ) → now < 2 ^ 64 → has_come result now ≡ something_due now (position_of_push self.now) }
        ensures sleeps { SleepsUntil (input_of_push self.now) result (position_of_push self.now) }
    {
        self.polled.wakes_at()
    }

    /// Returns the inbox that is open for it: the one that it reads, or the one of the consumer
    /// that is being created. `None` in between, and at its end.
    ///
    /// If it ends with the connection's watcher, its inbox stays open at the link, and `inbox` no
    /// longer returns it. To close that inbox, call `inbox` before the poll.
    pub fn inbox(&self) -> Option<InboxId>
        ensures { result ≡ inbox_of (position_of_push self.now).consumer.phase }
    {
        self.polled.inbox()
    }

    /// Ends it, and closes its inbox if it has one. What lies in the inbox is lost. Dropping it
    /// instead leaves the inbox open. This does not delete the server's consumer, which goes away
    /// when nobody has listened to it for its inactive threshold.
    pub fn close<L: Link>(self, link: &mut L)
        ensures { ClosesInbox (inbox_of (position_of_push self).consumer.phase) (L.view link.old) (L.view link.new) }
    {
        self.polled.leave(link);
    }
}
