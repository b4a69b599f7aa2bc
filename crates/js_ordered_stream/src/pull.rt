//! The stream of an ordered pull consumer.
ghost use Rattle.std.specs.Prelude.{◌≡◌, ◌<◌, ◌^◌, ℕ, [], IfOk};
ghost use Rattle.js_link.specs.Meets.{Meets};
ghost use Rattle.js_ordered_stream.specs.Inbox.{ClosesInbox, inbox_of};
ghost use Rattle.js_ordered_stream.specs.Opening.{IsGaplessPull, OpensConsumer, OpensOrdered, input_of_pull, position_of_pull};
ghost use Rattle.js_ordered_stream.specs.Ordered.{IsGivenKind, PollsWithSource, SleepsUntil, poll_answer, something_due};
ghost use Rattle.js_base.specs.Clock.{has_come};
ghost use Rattle.js_pull.specs.Reader.{new_reader};
ghost use Rattle.js_ordered_table.specs.Texts.{pull_source};
ghost use Rattle.js_ordered_table.specs.Poll.{IsPoll};
ghost use Rattle.js_ordered_table.specs.Timers.{SleepsIfLeftAlone};

use crate::error::OrderedError;
use crate::ordered;
use crate::polled::Polled;
use crate::remaining_rows::RemainingRows;
use js_base::{Message, Moment, Next, OutOfMemory, Subject, TryClone, replace_with};
use js_json::consumer::Info;
use js_json::pull::OrderedConfig;
use js_link::{InboxId, Link, LinkError};
use js_ordered_table::pull_source::pull_source_without_inbox;
use js_ordered_table::{Consumer, ConsumerContext, OrderedSetup, Phase, ReplayInput, Settings};
use js_pull::{PullSource, Reader};
use std::alloc::Global;

/// The stream of an ordered pull consumer: the messages in order and without a gap. If a gap shows,
/// it recreates its consumer.
#[derive(Drop)]
#[must_use = "messages come by polls"]
pub struct Ordered {
    pub(crate) polled: Polled,
}

// Whom the reader of the first consumer asks, but for its inbox.
fn first_source(alloc: Global, given: &ReplayInput) -> Result<PullSource, OutOfMemory>
    ensures { IfOk result (λ source. source ≡ pull_source given.now 0 0 [] given.now.first) }
{
    let context = ConsumerContext {
        settings: &given.settings,
        setup: &given.setup,
        first: &given.first,
        moment: 0,
    };
    pull_source_without_inbox(alloc, &context, 0, &given.first)
}

// A reader that reads this inbox, and has read nothing yet.
fn reader_at(mut source: PullSource, inbox: u64, subject: Subject) -> Reader
    ensures { result ≡ new_reader (record source { inbox = inbox; subject = subject }) }
{
    source.inbox = inbox;
    replace_with(&mut source.subject, subject);
    Reader::new(source)
}

// Opens an inbox for the reader of the first consumer.
fn open_first_consumer<L: Link>(
    alloc: Global,
    link: &mut L,
    given: &ReplayInput,
) -> Result<Consumer, LinkError>
    ensures { OpensConsumer result given.now (L.view link.old) (L.view link.new) }
{
    let name = given.first.name.try_clone()?;
    let Ok(source) = first_source(alloc, given) else {
        drop(name);
        return Err(LinkError::OutOfMemory);
    };
    match link.open_inbox(alloc) {
        Err(refused) => {
            drop(source);
            drop(name);
            Err(refused)
        }
        Ok((inbox, subject)) => {
            let start = given.setup.configured_start();
            let reader = reader_at(source, inbox.0, subject);
            Ok(ordered::first_consumer(start, name, Phase::Pulls(reader)))
        }
    }
}

impl Ordered {
    /// Opens an inbox, and a stream that reads the consumer of `first` there. It requests nothing
    /// before its first poll.
    ///
    /// However you poll it, its messages have no gap if the server is honest along its polls and
    /// delivers to this inbox from the configured start on, if there is one. This holds,
    /// too, over a link that gives the number of a closed inbox again: what the server delivers is
    /// told by the order in which inboxes are opened.
    ///
    /// The number of retries in `settings` has no effect: the stream tries 4,294,967,295 times to
    /// recreate a consumer.
    ///
    /// # Errors
    ///
    /// Fails with `Failed` if the link refuses the subscription, and with `OutOfMemory` if memory
    /// runs out.
    pub fn open<L: Link>(
        alloc: Global,
        link: &mut L,
        settings: Settings,
        config: OrderedConfig,
        first: Info,
    ) -> Result<Ordered, LinkError>
        ensures opens { OpensOrdered result settings config first (L.view link.old) (L.view link.new) }
        ensures gapless { IfOk result IsGaplessPull }
    {
        let given = ordered::replay_input(alloc, settings, OrderedSetup::Pull(config), first)?;
        match open_first_consumer(alloc, link, given.get()) {
            Err(refused) => {
                drop(given);
                Err(refused)
            }
            Ok(consumer) => Ok(Ordered {
                polled: Polled::new(given, consumer, RemainingRows::opening()),
            }),
        }
    }

    /// Reads the next message or error. Returns `Pending` after a turn in which nothing came.
    ///
    /// Each step makes at most one request of the link (`polls`). The poll that comes to a pull
    /// request sends it, unless the link refuses it.
    ///
    /// The source of an error of kind `RequestLimitExceeded` is the server's description, if it
    /// sent one. No other error has a source.
    ///
    /// After `Pending` you may sleep until something comes for it or `wakes_at` has come. Polling
    /// earlier sends nothing and hands out nothing. What may come is a message in its inbox, the
    /// end of its inbox, an answer that it waits for, or a change of the connection.
    pub fn poll_next<L: Link>(
        &mut self,
        alloc: Global,
        link: &mut L,
        now: Moment,
    ) -> Next<Result<Message, OrderedError>>
        ensures given { input_of_pull self.new ≡ input_of_pull self.old }
        ensures polls { IsPoll (input_of_pull self.old) Meets now (position_of_pull self.old) (position_of_pull self.new) (L.view link.old) (L.view link.new) (poll_answer result) }
        ensures sources { PollsWithSource (input_of_pull self.old) now (position_of_pull self.old) (position_of_pull self.new) (L.view link.old) (L.view link.new) result }
        ensures kinds { IsGivenKind result }
        ensures sleeps { SleepsIfLeftAlone (input_of_pull self.old) now (position_of_pull self.old) (position_of_pull self.new) (L.view link.old) (L.view link.new) (poll_answer result) }
    {
        self.polled.poll_next(alloc, link, now)
    }

    /// Returns the first moment at which it has something to do by itself:
    ///
    /// - `Some(0)` if it was never polled, if work of an earlier poll is left, or if it has neither
    ///   an inbox nor an open recreation (the next poll then begins one);
    /// - while it recreates its consumer, when the answer that it waits for is overdue, or when its
    ///   next try is due;
    /// - otherwise, when a timer of its reader is due;
    /// - `None` if there is no such moment, or if it has ended.
    ///
    /// Work is left if a poll stopped before its turn was over. For example, if there was no memory
    /// for the request that deletes the old consumer, this is `Some(0)`, though no timer is set,
    /// and the next poll sends the request.
    pub fn wakes_at(&self) -> Option<Moment>
        ensures value { (now : ℕ) → now < 2 ^ 64 → has_come result now ≡ something_due now (position_of_pull self.now) }
        ensures sleeps { SleepsUntil (input_of_pull self.now) result (position_of_pull self.now) }
    {
        self.polled.wakes_at()
    }

    /// Returns the inbox that is open for it: the one that it reads, or the one of the consumer
    /// that is being created. `None` in between, and at its end.
    ///
    /// If it ends with `RequestLimitExceeded` or `PushBasedConsumer`, its inbox stays open at the
    /// link, and `inbox` no longer returns it. To close that inbox, call `inbox` before the poll.
    pub fn inbox(&self) -> Option<InboxId>
        ensures { result ≡ inbox_of (position_of_pull self.now).consumer.phase }
    {
        self.polled.inbox()
    }

    /// Ends it, and closes its inbox if it has one. What lies in the inbox is lost. Dropping it
    /// instead leaves the inbox open. This does not delete the server's consumer, which goes away
    /// when nobody has asked for messages for its inactive threshold.
    pub fn close<L: Link>(self, link: &mut L)
        ensures { ClosesInbox (inbox_of (position_of_pull self).consumer.phase) (L.view link.old) (L.view link.new) }
    {
        self.polled.leave(link);
    }
}
