//! A pull stream over its link. It passes row after row, and may stop between any two.
ghost use Rattle.std.specs.Prelude.{◌≡◌, ◌<◌, ◌^◌, ℕ, IfOk, None, Some, false, true};
ghost use Rattle.js_link.specs.Calls.{Closes};
ghost use Rattle.js_link.specs.LinkView.{LinkView};
ghost use Rattle.js_link.specs.Meets.{Meets};
ghost use Rattle.js_link.specs.Wish.{message_of};
ghost use Rattle.js_pull.specs.Reader.{opening};
ghost use Rattle.js_pull.specs.Rows.{pin_brought};
ghost use Rattle.js_pull.specs.declared.rows.Due.TheVariants as due_of;
ghost use Rattle.js_pull.specs.Poll.{IsAdvance, IsBoundedAt, IsPoll, Fails, closed_at, description_of, text_of, text_source};
ghost use Rattle.js_pull.specs.Stream.{BeginsAt, FirstOf, IsMeeting, OpensStream, PassesAt, advance_answer, begun, fails_by, poll_answer, position_of, rows_empty, seen_by, outcome_by};
ghost use Rattle.js_base.specs.Clock.{has_come};
ghost use Rattle.js_pull.specs.Timers.{SleepsIfLeftAlone, something_due};

use crate::arrivals::{Meeting, meet};
use crate::connection_change::change_of;
use crate::remaining_rows::RemainingRows;
use crate::timers::wakes_at;
use crate::{Due, DueRows, MessagesErrorKind, Notice, PullSource, Reader, Resilience};
use js_base::{Error, Message, Moment, Nanos, Next, State, Text};
use js_json::pull::BatchConfig;
use js_link::{InboxId, Link, LinkError};
use std::alloc::Global;

/// An error that a stream reports in place of a message. The source of an error of kind
/// `RequestLimitExceeded` is the server's description, if it sent one. No other error has a source.
pub type MessagesError = Error<MessagesErrorKind>;

/// What [`Stream::advance`] returns after it has passed a part of an event.
#[derive(Drop)]
#[must_use = "what a turn hands out is handed out once"]
pub enum Advance {
    Item(MessagesError),
    Message(Message),
    /// The inbox is closed, and the stream has ended.
    Closed,
    /// The event is over.
    Done,
    /// Memory ran out. The stream is as it was before the row that failed.
    OutOfMemory,
}

/// The outcome of a row.
#[derive(Drop)]
pub(crate) enum RowOutcome {
    /// The row reports nothing and took no message.
    Silent,
    /// The row took a message and reports nothing.
    Took,
    Hands(Message),
    Tells {
        kind: MessagesErrorKind,
        text: Option<Text>,
    },
    Closed,
    OutOfMemory,
}

/// The consumer that a stream asks.
#[derive(Clone, Copy)]
pub struct Consumer<'a> {
    /// The prefix of the subjects of requests.
    pub api: &'a str,
    pub stream: &'a str,
    pub name: &'a str,
    /// How long an info request waits for its answer, in nanoseconds. `None` sets no bound.
    pub info_timeout: Option<Nanos>,
}

/// A pull stream. Call `close` when you are done with it; dropping it leaves its inbox open.
#[derive(Drop)]
#[must_use = "messages come by polls"]
pub struct Stream {
    reader: Reader,
    left: RemainingRows,
    /// A message that was taken, if memory ran out for its pin.
    held: Option<Message>,
    connection: State,
}

// What a row comes to that told this, with the message that it took.
fn outcome_of(told: Notice, message: Option<Message>) -> RowOutcome
    ensures { result ≡ outcome_by told message }
{
    match told {
        Notice::Nothing => match message {
            None => RowOutcome::Silent,
            Some(message) => {
                drop(message);
                RowOutcome::Took
            }
        },
        Notice::Hands => match message {
            None => RowOutcome::Silent,
            Some(message) => RowOutcome::Hands(message),
        },
        Notice::Tells(kind) => RowOutcome::Tells {
            kind,
            text: text_of(kind, message),
        },
    }
}

// A limit is told with the server's description, and an error of any other kind with no text.
fn text_of(kind: MessagesErrorKind, message: Option<Message>) -> Option<Text>
    ensures { result ≡ text_of kind message }
{
    match kind {
        MessagesErrorKind::RequestLimitExceeded => description_of(message),
        MessagesErrorKind::MissingHeartbeat
        | MessagesErrorKind::ConsumerDeleted
        | MessagesErrorKind::Pull
        | MessagesErrorKind::Other
        | MessagesErrorKind::NoResponders
        | MessagesErrorKind::PushBasedConsumer => {
            drop(message);
            None
        }
    }
}

/// Returns the server's description in a message, if it has one. Drops the message.
pub fn description_of(message: Option<Message>) -> Option<Text>
    ensures { result ≡ description_of message }
{
    match message {
        None => None,
        Some(mut message) => {
            let description = message.description.take();
            drop(message);
            description
        }
    }
}

fn error_of(kind: MessagesErrorKind, text: Option<Text>) -> MessagesError
    ensures { fails_by result ≡ Fails kind (text_source text) }
{
    match text {
        None => Error::new(kind),
        Some(text) => Error::with_source(kind, js_base::Source::Text(text)),
    }
}

impl Stream {
    /// Creates a stream whose first call passes its opening.
    pub fn new(reader: Reader, connection: State) -> Stream
        ensures place { position_of result ≡ record { reader = reader; todo = opening; connection = connection } }
        ensures held { result.held ≡ None }
    {
        Stream {
            reader,
            left: RemainingRows::of(DueRows::Two(Due::Threshold, Due::Arm)),
            held: None,
            connection,
        }
    }

    /// Opens an inbox, and a stream that reads it. The stream sends no request before its first
    /// call. If `config.max_bytes` is 0, the bound on what is pending holds from here on, however
    /// you poll the stream.
    ///
    /// # Errors
    ///
    /// Fails with `LinkError::Failed` if the link could not open an inbox, and with
    /// `LinkError::OutOfMemory` if memory runs out.
    pub fn open<L: Link>(
        alloc: Global,
        link: &mut L,
        consumer: &Consumer<'_>,
        config: BatchConfig,
        pinned: bool,
    ) -> Result<Stream, LinkError>
        ensures opens { OpensStream result consumer.now config pinned (L.view link.old) (L.view link.new) }
        ensures bounded { IfOk result (λ stream. config.max_bytes ≡ 0 → IsBoundedAt (position_of stream)) }
    {
        let api = Text::from_str(alloc, consumer.api)?;
        let stream = Text::from_str(alloc, consumer.stream)?;
        let name = Text::from_str(alloc, consumer.name)?;
        let (inbox, subject) = link.open_inbox(alloc)?;
        let source = PullSource {
            api,
            stream,
            name,
            inbox: inbox.0,
            subject,
            info_timeout: consumer.info_timeout,
            config,
            pinned,
            resilience: Resilience::none(),
        };
        let reader = Reader::new(source);
        let opened = Stream::new(reader, State::Connected);
        Ok(opened)
    }

    /// Returns the inbox that the stream reads.
    pub fn inbox(&self) -> InboxId
        ensures { result.0 ≡ (position_of self.now).reader.source.inbox }
    {
        InboxId(self.reader.source.inbox)
    }

    /// Drops the stream and closes its inbox. Messages in the inbox are lost, and so is a message
    /// that was taken and is held. Requests that are open at the server expire by themselves.
    pub fn close<L: Link>(self, link: &mut L)
        ensures { Closes (position_of self).reader.source.inbox (L.view link.old) (L.view link.new) }
    {
        let inbox = self.inbox();
        drop(self);
        link.unsubscribe(inbox);
    }

    /// Returns whether the last event is over.
    pub fn rests(&self) -> bool
        ensures { result ≡ rows_empty (position_of self.now).todo }
    {
        self.left.is_empty()
    }

    // Begins an event where the last one is over.
    fn begin(&mut self, now: Moment, change: Option<State>)
        ensures leads { position_of self.new ≡ begun now change (position_of self.old) }
        ensures held { self.new.held ≡ self.old.held }
    {
        if self.rests() {
            let todo = self.reader.begin(now, change);
            self.left.renew(todo);
            self.connection = change.unwrap_or(self.connection);
        }
    }

    // Begins an event with the change that the connection shows.
    fn watch<L: Link>(&mut self, link: &mut L, now: Moment)
        ensures begins { BeginsAt now (position_of self.old) (position_of self.new) (L.view link.old) (L.view link.new) }
        ensures held { self.new.held ≡ self.old.held }
    {
        let change = change_of(link.state(), self.connection);
        self.begin(now, change);
    }

    // Passes the next row with what it met.
    fn finish(&mut self, now: Moment, due: Due, meeting: Meeting) -> RowOutcome
        requires first { FirstOf (Some due) self.old.left }
        requires pin { due ≡ due_of.CheckArrival → meeting.spare.pin ≡ pin_brought self.old.reader.source.pinned (message_of meeting.met) }
        ensures held { self.new.held ≡ self.old.held }
        ensures passes { (before after : LinkView) → IsMeeting due self.old.left.reply self.old.reader meeting before after
            → PassesAt result now (position_of self.old) (position_of self.new) before after }
    {
        let Meeting { met, spare } = meeting;
        if met.is_shut() {
            drop(met);
            drop(spare);
            self.end();
            return RowOutcome::Closed;
        }
        let step = self.reader.pass(now, due, spare, &met);
        let (message, reply) = met.into_parts();
        self.left.follow(step.next, reply);
        outcome_of(step.told, message)
    }

    // A closed inbox ends the stream.
    fn end(&mut self)
        ensures place { position_of self.new ≡ closed_at true (position_of self.old) }
        ensures held { self.new.held ≡ self.old.held }
    {
        self.reader.ended = true;
        self.left.renew(DueRows::Nothing);
    }

    // Passes the next row of an event that has begun.
    fn pass<L: Link>(&mut self, alloc: Global, link: &mut L, now: Moment, due: Due) -> RowOutcome
        requires { FirstOf (Some due) self.old.left }
        ensures { PassesAt result now (position_of self.old) (position_of self.new) (seen_by self.old (L.view link.old)) (seen_by self.new (L.view link.new)) }
    {
        match meet(
            &self.reader,
            &mut self.held,
            alloc,
            link,
            due,
            &self.left.reply,
        ) {
            Ok(meeting) => self.finish(now, due, meeting),
            Err(_) => RowOutcome::OutOfMemory,
        }
    }

    /// Continues an event, or begins one with `change` if the last is over. Returns the next error or
    /// message of the event, or `Done` at its end.
    pub fn advance<L: Link>(
        &mut self,
        alloc: Global,
        link: &mut L,
        now: Moment,
        change: Option<State>,
    ) -> Advance
        ensures { IsAdvance Meets now change (position_of self.old) (position_of self.new) (seen_by self.old (L.view link.old)) (seen_by self.new (L.view link.new)) (advance_answer result) }
    {
        self.begin(now, change);
        'rows: loop {
            let Some(due) = self.left.first() else {
                return Advance::Done;
            };
            match self.pass(alloc, link, now, due) {
                RowOutcome::Silent => continue,
                RowOutcome::Took => continue,
                RowOutcome::Hands(message) => return Advance::Message(message),
                RowOutcome::Tells { kind, text } => return Advance::Item(error_of(kind, text)),
                RowOutcome::Closed => return Advance::Closed,
                RowOutcome::OutOfMemory => return Advance::OutOfMemory,
            }
        }
    }

    /// Reads the next message or error. Returns `Pending` after an event in which nothing came, and
    /// `End` once the stream has ended. Returns `OutOfMemory` if memory runs out; the next poll
    /// continues there.
    ///
    /// After `Pending`, you need not poll until something comes for the stream or `wakes_at` has
    /// come: an earlier poll does nothing.
    pub fn poll_next<L: Link>(
        &mut self,
        alloc: Global,
        link: &mut L,
        now: Moment,
    ) -> Next<Result<Message, MessagesError>>
        ensures polls { IsPoll Meets now (position_of self.old) (position_of self.new) (seen_by self.old (L.view link.old)) (seen_by self.new (L.view link.new)) (poll_answer result) }
        ensures sleeps { SleepsIfLeftAlone now (position_of self.old) (position_of self.new) (seen_by self.old (L.view link.old)) (seen_by self.new (L.view link.new)) (poll_answer result) }
    {
        self.poll(alloc, link, now)
    }

    /// Returns the first moment at which it has something to do by itself: 0 if a row of its last
    /// event is left, as after want of memory, and else the moment at which one of its timers is
    /// due, if one is set. The timers are that of the heartbeat, and that of the info request after
    /// a reconnection or, without one, that of the pull requests. A stream that has ended has none.
    pub fn wakes_at(&self) -> Option<Moment>
        ensures { (now : ℕ) → now < 2 ^ 64 → has_come result now ≡ something_due now (position_of self.now) }
    {
        if self.rests() {
            wakes_at(&self.reader)
        } else {
            Some(0)
        }
    }

    fn poll<L: Link>(
        &mut self,
        alloc: Global,
        link: &mut L,
        now: Moment,
    ) -> Next<Result<Message, MessagesError>>
        ensures { IsPoll Meets now (position_of self.old) (position_of self.new) (seen_by self.old (L.view link.old)) (seen_by self.new (L.view link.new)) (poll_answer result) }
    {
        let mut quiet = false;
        'rows: loop {
            let Some(due) = self.left.first() else {
                if self.reader.ended {
                    return Next::End;
                }
                if quiet {
                    return Next::Pending;
                }
                self.watch(link, now);
                quiet = true;
                continue;
            };
            match self.pass(alloc, link, now, due) {
                RowOutcome::Silent => continue,
                RowOutcome::Took => {
                    quiet = false;
                    continue;
                }
                RowOutcome::Hands(message) => return Next::Item(Ok(message)),
                RowOutcome::Tells { kind, text } => return Next::Item(Err(error_of(kind, text))),
                RowOutcome::Closed => return Next::End,
                RowOutcome::OutOfMemory => return Next::OutOfMemory,
            }
        }
    }
}
