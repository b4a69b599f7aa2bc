//! Reading an ordered pull consumer.
ghost use Rattle.std.specs.Prelude.{◌≡◌, ◌<◌, ◌^◌, ℕ, IfOk};
ghost use Rattle.js_base.specs.Clock.{has_come};
ghost use Rattle.js_json.specs.declared.pull.OrderedConfig.{OrderedConfig};
ghost use Rattle.js_link.specs.Meets.{Meets};
ghost use Rattle.js_call_consumers.specs.declared.consumer.Consumer.{Consumer};
ghost use Rattle.js_ordered_stream.specs.Health.{health_of};
ghost use Rattle.js_ordered_stream.specs.Inbox.{ClosesInbox, inbox_of};
ghost use Rattle.js_ordered_stream.specs.Opening.{IsGaplessPull, input_of_pull, position_of_pull};
ghost use Rattle.js_ordered_stream.specs.Ordered.{IsGivenKind, SleepsUntil, something_due};
ghost use Rattle.js_ordered_table.specs.Poll.{IsPoll};
ghost use Rattle.js_ordered_table.specs.Timers.{SleepsIfLeftAlone};
ghost use Rattle.js_readers.specs.OrderedOpening.{OpensPull, OpensPullWith};
ghost use Rattle.js_readers.specs.OrderedPolls.{PollsWithSource, given_answer};
ghost use Rattle.js_readers.specs.Stream.{IsTimed};

use crate::ack_timeout::timed;
use crate::ordered::settings::settings_of;
use crate::pull::{StreamError, message_timeout, stream_error_kind};
use js_base::{Error, Moment, Nanos, Next};
use js_call_consumers::OrderedPullConsumer;
use js_link::{InboxId, Link};
use js_message::Message;
use js_ordered_stream::{Health, OrderedError};
use js_pull::Resilience;
use std::alloc::Global;

/// The messages of an ordered pull consumer, in order and without a gap. If a message is missing,
/// it recreates its consumer.
///
/// Its messages need no acknowledgement. Call `close` when you are done with it. Dropping it leaves
/// its inbox open, and the server goes on delivering.
#[derive(Drop)]
#[must_use = "messages come by polls"]
pub struct Ordered {
    reader: js_ordered_stream::pull::Ordered,
    /// How long a double ack of its messages waits, in nanoseconds.
    timeout: Nanos,
}

/// The call that reads an ordered pull consumer.
pub trait OrderedPullCalls: Drop {
    /// The consumer that it reads.
    ghost reads: { Self → Consumer OrderedConfig };

    /// Opens an inbox and reads the consumer there. The reader requests messages from its first
    /// poll on, and recreates its consumer if a message is missing.
    ///
    /// It sends its requests with the API prefix of the consumer's scope, and waits for answers as
    /// long as the scope says. However you poll it, its messages have no gap if the server is
    /// honest. A double ack of a message waits as long as the scope says, or five seconds.
    ///
    /// Fails with `Other` if the link fails, and with `OutOfMemory` if memory runs out. Nothing was
    /// sent then.
    fn messages<L: Link>(self, alloc: Global, link: &mut L) -> Result<Ordered, StreamError>
        ensures opens { OpensPull result (reads self) (L.view link.old) (L.view link.new) }
        ensures gapless { IfOk result (λ ordered. IsGaplessPull ordered.reader) };

    /// Reads the consumer as `messages` does, with these options. `messages` has all of them off, as
    /// async-nats reads; turn all on with `Resilience::all()`, so that the reader never hangs and
    /// tells you if its stream is gone.
    ///
    /// Fails as `messages` does.
    fn messages_with<L: Link>(
        self,
        alloc: Global,
        link: &mut L,
        resilience: Resilience,
    ) -> Result<Ordered, StreamError>
        ensures opens { OpensPullWith resilience result (reads self) (L.view link.old) (L.view link.new) }
        ensures gapless { IfOk result (λ ordered. IsGaplessPull ordered.reader) };
}

impl Ordered {
    /// Returns the inbox that is open for it: the one that it reads, or the one of the consumer
    /// that is being created. This changes each time the consumer is recreated. `None` in between,
    /// and at its end.
    ///
    /// If it ends with `RequestLimitExceeded` or `PushBasedConsumer`, its inbox stays open at the
    /// link, and `inbox` no longer returns it. To close that inbox, call `inbox` before the poll.
    pub fn inbox(&self) -> Option<InboxId>
        ensures { result ≡ inbox_of (position_of_pull self.now.reader).consumer.phase }
    {
        self.reader.inbox()
    }

    /// Ends it, and closes its inbox if it has one. What lies in the inbox is lost. This does not
    /// delete the server's consumer, which goes away when nobody has asked for messages for its
    /// inactive threshold.
    pub fn close<L: Link>(self, link: &mut L)
        ensures { ClosesInbox (inbox_of (position_of_pull self.reader).consumer.phase) (L.view link.old) (L.view link.new) }
    {
        self.reader.close(link);
    }

    /// Reads the next message or error, as `js_ordered_stream::pull::Ordered::poll_next` does.
    /// Returns `Pending` after a turn in which nothing came. `info` of a message tells its place in
    /// the stream. Messages need no acknowledgement. If you double-ack one, the double ack waits
    /// for its answer as long as the scope of the consumer says, or five seconds.
    ///
    /// The source of an error of kind `RequestLimitExceeded` is the server's description, if it
    /// sent one. No other error has a source.
    ///
    /// After `Pending` you may sleep until something comes for it or `wakes_at` has come. Polling
    /// earlier sends nothing and hands out nothing. What may come is a message in its inbox, the
    /// end of its inbox, an answer that it waits for, or a change of the connection.
    pub fn poll_next<L: Link>(
        &mut self,
        alloc: Global,
        link: &mut L,
        now: Moment,
    ) -> Next<Result<Message, OrderedError>>
        ensures given { input_of_pull self.new.reader ≡ input_of_pull self.old.reader }
        ensures polls { IsPoll (input_of_pull self.old.reader) Meets now (position_of_pull self.old.reader) (position_of_pull self.new.reader) (L.view link.old) (L.view link.new) (given_answer result) }
        ensures sources { PollsWithSource (input_of_pull self.old.reader) now (position_of_pull self.old.reader) (position_of_pull self.new.reader) (L.view link.old) (L.view link.new) result }
        ensures kinds { IsGivenKind result }
        ensures sleeps { SleepsIfLeftAlone (input_of_pull self.old.reader) now (position_of_pull self.old.reader) (position_of_pull self.new.reader) (L.view link.old) (L.view link.new) (given_answer result) }
        ensures timed { IsTimed self.old.timeout result }
        ensures kept { self.new.timeout ≡ self.old.timeout }
    {
        timed(self.reader.poll_next(alloc, link, now), self.timeout)
    }

    /// Returns the first moment at which it has something to do by itself:
    ///
    /// - `Some(0)` if it was never polled, if work of an earlier poll is left, or if it has neither
    ///   an inbox nor an open recreation (the next poll then begins one);
    /// - while it recreates its consumer, when the answer that it waits for is overdue, or when its
    ///   next try is due;
    /// - otherwise, when a timer of its reader is due;
    /// - `None` if there is no such moment, or if it has ended.
    ///
    /// Work is left if a poll stopped before its turn was over. For example, if there was no memory
    /// for the request that deletes the old consumer, this is `Some(0)`, though no timer is set,
    /// and the next poll sends the request.
    pub fn wakes_at(&self) -> Option<Moment>
        ensures value { (now : ℕ) → now < 2 ^ 64 → has_come result now ≡ something_due now (position_of_pull self.now.reader) }
        ensures sleeps { SleepsUntil (input_of_pull self.now.reader) result (position_of_pull self.now.reader) }
    {
        self.reader.wakes_at()
    }

    /// Returns what it is doing, and how far it has come. Takes no memory, and looks at no link.
    pub fn health(&self) -> Health
        ensures { result ≡ health_of (position_of_pull self.now.reader) }
    {
        self.reader.health()
    }
}

impl OrderedPullCalls for OrderedPullConsumer {
    ghost reads = { λ consumer. consumer };

    fn messages<L: Link>(self, alloc: Global, link: &mut L) -> Result<Ordered, StreamError> {
        self.messages_with(alloc, link, Resilience::none())
    }

    fn messages_with<L: Link>(
        self,
        alloc: Global,
        link: &mut L,
        resilience: Resilience,
    ) -> Result<Ordered, StreamError> {
        let timeout = message_timeout(&self.scope);
        let settings = settings_of(alloc, self.scope, link.request_timeout(), resilience);
        let opened = js_ordered_stream::pull::Ordered::open(
            alloc,
            link,
            settings,
            self.config,
            self.info,
        );
        match opened {
            Ok(reader) => Ok(Ordered { reader, timeout }),
            Err(error) => Err(Error::new(stream_error_kind(error))),
        }
    }
}
