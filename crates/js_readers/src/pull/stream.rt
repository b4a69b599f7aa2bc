//! A stream of messages: it sends a pull consumer one request after another.
ghost use Rattle.std.specs.Prelude.{◌≡◌, ◌<◌, ◌^◌, ℕ};
ghost use Rattle.js_link.specs.Calls.{Closes};
ghost use Rattle.js_link.specs.Meets.{Meets};
ghost use Rattle.js_pull.specs.Poll.{IsAdvance, IsPoll};
ghost use Rattle.js_pull.specs.Stream.{position_of, seen_by};
ghost use Rattle.js_base.specs.Clock.{has_come};
ghost use Rattle.js_pull.specs.Timers.{SleepsIfLeftAlone, something_due};
ghost use Rattle.js_readers.specs.Stream.{IsTimed, IsTimedAdvance, OpensStream, given_advance, given_answer};

use crate::ack_timeout::timed;
use crate::pull::consumer::{info_timeout, message_timeout};
use crate::pull::error::{StreamError, stream_error_kind};
use crate::pull::stream_step::{Advance, timed_advance};
use js_base::{Error, Moment, Nanos, Next, State};
use js_call::ApiScope;
use js_json::consumer::Info;
use js_json::pull::BatchConfig;
use js_link::{InboxId, Link};
use js_message::Message;
use js_pull::{Consumer, MessagesError};
use std::alloc::Global;

/// The messages of a pull consumer, as a stream without an end. It keeps as many requests open at
/// the server as it needs.
///
/// Call `close` when you are done with it. Dropping it leaves its inbox open, and the server goes
/// on delivering what was asked for.
#[derive(Drop)]
#[must_use = "messages come by polls"]
pub struct Stream {
    reader: js_pull::Stream,
    /// How long a double ack of its messages waits, in nanoseconds.
    timeout: Nanos,
}

impl Stream {
    /// Opens an inbox for a stream of the consumer that `info` describes. Each request of the
    /// stream asks for what `batch` says. `pinned` says whether the consumer's priority policy is
    /// `PinnedClient`. The stream requests nothing before its first poll.
    ///
    /// It sends limits in `batch` as they are, even those that a builder would lower.
    /// [`StreamBuilder`](crate::pull::StreamBuilder) and `messages` of a consumer choose limits
    /// that the server accepts.
    ///
    /// # Errors
    ///
    /// Fails with `Other` if the link fails to open the inbox, and with `OutOfMemory` if memory
    /// runs out. Nothing was sent in either case.
    pub fn open<L: Link>(
        alloc: Global,
        link: &mut L,
        scope: &ApiScope,
        info: &Info,
        batch: BatchConfig,
        pinned: bool,
    ) -> Result<Stream, StreamError>
        ensures { OpensStream result scope.now info.now batch pinned (L.view link.old) (L.view link.new) }
    {
        let asked = Consumer {
            api: scope.prefix.as_str(),
            stream: info.stream_name.as_str(),
            name: info.name.as_str(),
            info_timeout: info_timeout(scope, link.request_timeout()),
        };
        let opened = js_pull::Stream::open(alloc, link, &asked, batch, pinned);
        let Consumer {
            api: _,
            stream: _,
            name: _,
            info_timeout: _,
        } = asked;
        match opened {
            Ok(reader) => Ok(Stream {
                reader,
                timeout: message_timeout(scope),
            }),
            Err(error) => Err(Error::new(stream_error_kind(error))),
        }
    }

    /// Returns the inbox that it reads.
    pub fn inbox(&self) -> InboxId
        ensures { result.0 ≡ (position_of self.now.reader).reader.source.inbox }
    {
        self.reader.inbox()
    }

    /// Ends it, and closes its inbox. What lies in the inbox is lost, and so is a message that it
    /// has taken and holds. Its requests that are open at the server expire by themselves.
    pub fn close<L: Link>(self, link: &mut L)
        ensures { Closes (position_of self.reader).reader.source.inbox (L.view link.old) (L.view link.new) }
    {
        self.reader.close(link);
    }

    /// Runs one event in parts, for a program that counts events itself. Returns the next item or
    /// message of the event that has begun, or `Done` at its end.
    ///
    /// The call after `Done` begins the next event. The first event is only the stream's start.
    /// `change` is the change of the connection in the event that begins; it is ignored in the
    /// middle of an event. A message is returned before the stream checks whether to ask for more:
    /// if you drop the stream there, it sends no request. After `Closed`, and after an item that
    /// ends the stream, events are empty and every call returns `Done`.
    ///
    /// Use either this or `poll_next`, which runs whole events and learns of changes of the
    /// connection from the link. A double ack of a message waits as long as one of `poll_next`.
    pub fn advance<L: Link>(
        &mut self,
        alloc: Global,
        link: &mut L,
        now: Moment,
        change: Option<State>,
    ) -> Advance
        ensures advances { IsAdvance Meets now change (position_of self.old.reader) (position_of self.new.reader) (seen_by self.old.reader (L.view link.old)) (seen_by self.new.reader (L.view link.new)) (given_advance result) }
        ensures timed { IsTimedAdvance self.old.timeout result }
        ensures kept { self.new.timeout ≡ self.old.timeout }
    {
        timed_advance(self.reader.advance(alloc, link, now, change), self.timeout)
    }

    /// Reads the next message or error, as `js_pull::Stream::poll_next` does. Its messages are
    /// acknowledged over the link. A double ack waits for its answer as long as the scope of the
    /// consumer says, or five seconds.
    ///
    /// After `Pending` you may sleep until something comes for it or `wakes_at` has come. Polling
    /// earlier sends nothing and hands out nothing.
    pub fn poll_next<L: Link>(
        &mut self,
        alloc: Global,
        link: &mut L,
        now: Moment,
    ) -> Next<Result<Message, MessagesError>>
        ensures polls { IsPoll Meets now (position_of self.old.reader) (position_of self.new.reader) (seen_by self.old.reader (L.view link.old)) (seen_by self.new.reader (L.view link.new)) (given_answer result) }
        ensures sleeps { SleepsIfLeftAlone now (position_of self.old.reader) (position_of self.new.reader) (seen_by self.old.reader (L.view link.old)) (seen_by self.new.reader (L.view link.new)) (given_answer result) }
        ensures timed { IsTimed self.old.timeout result }
        ensures kept { self.new.timeout ≡ self.old.timeout }
    {
        timed(self.reader.poll_next(alloc, link, now), self.timeout)
    }

    /// Returns the first moment at which it has something to do by itself: 0 if a row of its last
    /// event is left, as after want of memory, and else the moment at which one of its timers is
    /// due. `None` if no timer is set, or if the stream has ended.
    pub fn wakes_at(&self) -> Option<Moment>
        ensures { (now : ℕ) → now < 2 ^ 64 → has_come result now ≡ something_due now (position_of self.now.reader) }
    {
        self.reader.wakes_at()
    }
}
