//! An ordered reader that never goes back without a word.
ghost use Rattle.std.specs.Prelude.{◌≡◌, ◌<◌, ◌^◌, ℕ, None, Some, option_map};
ghost use Rattle.js_base.specs.Clock.{has_come};
ghost use Rattle.js_message.specs.AckSubject.{readable_as};
ghost use Rattle.js_ordered_stream.specs.Inbox.{ClosesInbox};
ghost use Rattle.js_readers.specs.Rising.{IsAbove, IsRisingFrom, IsRisingQuiet, PollsReader, PollsRising, breach_at, breach_in, breach_told, handed_on, last_after, rising_due, sequence_at, told_of};
ghost use Rattle.js_readers.specs.Subscription.{IdlesIfQuiet, KeepsConnection};

use crate::ordered::breach::{Breach, RisingError};
use crate::ordered::reader::OrderedReader;
use crate::subscription::Subscription;
use js_base::{Moment, Next};
use js_link::{InboxId, Link};
use js_message::Message;
use js_ordered_table::place_of;
use std::alloc::Global;

/// A reader over another one, whose stream sequences strictly rise whatever the server does.
///
/// It hands out what the reader below does, except a message whose stream sequence is not above
/// that of the last one: it drops that message, returns a [`Breach`] in its place, and ends. An
/// ordered consumer reads on without a word if its stream is deleted and created again under its
/// name: 99, 100, 1, 2, 3. Use this reader if your program must not take the new 1 for a message
/// after 100.
///
/// A message whose reply subject is no acknowledgement subject has no sequence. It is handed out,
/// and the next message is compared with the last sequence before it. Ordered consumers never hand
/// out such a message.
///
/// Call `close` when you are done with it, also after a breach; dropping it leaves the inbox of the
/// reader below open.
#[derive(Drop)]
#[must_use = "messages come by polls"]
pub struct Rising<R> {
    reader: R,
    /// The stream sequence of the last message that was handed out.
    last: Option<u64>,
    breach: Option<Breach>,
}

// The breach of a message with this stream sequence.
fn breach_at(last: Option<u64>, came: u64) -> Option<Breach>
    ensures { result ≡ breach_at last came }
{
    match last {
        Some(last) if came <= last => Some(Breach { last, came }),
        _ => None,
    }
}

// The stream sequence of a message, where it tells one.
fn sequence_of(message: &Message) -> Option<u64>
    ensures { option_map (λ place. place.sequence) (readable_as message.now.message.reply) ≡ result }
{
    match place_of(&message.message) {
        None => None,
        Some(place) => Some(place.sequence),
    }
}

impl<R: OrderedReader> Rising<R> {
    /// Creates a reader over `reader`, which has handed out nothing yet. However you poll it, the
    /// stream sequences of its messages strictly rise.
    pub fn new(reader: R) -> Rising<R>
        ensures starts { result ≡ record { reader = reader; last = None; breach = None } }
        ensures rises { IsRisingFrom R.polls result }
    {
        Rising {
            reader,
            last: None,
            breach: None,
        }
    }

    /// Reads the next message or error, by one poll of the reader below. After a breach it returns
    /// `End`, and polls nothing.
    ///
    /// Fails with `Breach` if a message came whose stream sequence is not above that of the last
    /// one, and has ended then. Errors of the reader below are `Reader`; it may go on after them,
    /// as that reader does.
    pub fn poll_next<L: Link>(
        &mut self,
        alloc: Global,
        link: &mut L,
        now: Moment,
    ) -> Next<Result<Message, RisingError<R::Error>>>
        ensures polls { PollsRising R.polls now self.old self.new (L.view link.old) (L.view link.new) result }
        ensures above { IsAbove self.old.last result }
        ensures keeps { KeepsConnection (L.view link.old) (L.view link.new) }
        ensures idles { IdlesIfQuiet (rising_due R.due) (IsRisingQuiet R.quiet) now self.old self.new (L.view link.old) (L.view link.new) result }
    {
        match self.breach {
            Some(_) => Next::End,
            None => self.read(alloc, link, now),
        }
    }

    // Polls the reader below.
    fn read<L: Link>(
        &mut self,
        alloc: Global,
        link: &mut L,
        now: Moment,
    ) -> Next<Result<Message, RisingError<R::Error>>>
        requires { self.old.breach ≡ None }
        ensures polls { PollsReader R.polls now self.old self.new (L.view link.old) (L.view link.new) result }
        ensures above { IsAbove self.old.last result }
        ensures keeps { KeepsConnection (L.view link.old) (L.view link.new) }
        ensures idles { IdlesIfQuiet (rising_due R.due) (IsRisingQuiet R.quiet) now self.old self.new (L.view link.old) (L.view link.new) result }
    {
        let answer = self.reader.poll_next(alloc, link, now);
        self.tell(answer)
    }

    // Tells what the reader below answered.
    fn tell(
        &mut self,
        answer: Next<Result<Message, R::Error>>,
    ) -> Next<Result<Message, RisingError<R::Error>>>
        requires { self.old.breach ≡ None }
        ensures told { result ≡ told_of self.old.last answer }
        ensures reader { self.new.reader ≡ self.old.reader }
        ensures last { self.new.last ≡ last_after self.old.last result }
        ensures breach { self.new.breach ≡ breach_told result }
        ensures above { IsAbove self.old.last result }
    {
        match answer {
            Next::Item(Ok(message)) => self.hand_on(message),
            Next::Item(Err(error)) => Next::Item(Err(RisingError::Reader(error))),
            Next::Pending => Next::Pending,
            Next::End => Next::End,
            Next::OutOfMemory => Next::OutOfMemory,
        }
    }

    // Hands a message on, or its breach in its place.
    fn hand_on(&mut self, message: Message) -> Next<Result<Message, RisingError<R::Error>>>
        requires { self.old.breach ≡ None }
        ensures told { result ≡ handed_on (breach_in self.old.last (readable_as message.message.reply)) message }
        ensures reader { self.new.reader ≡ self.old.reader }
        ensures last { self.new.last ≡ last_after self.old.last result }
        ensures breach { self.new.breach ≡ breach_told result }
        ensures above { IsAbove self.old.last result }
    {
        let Some(sequence) = sequence_of(&message) else {
            return Next::Item(Ok(message));
        };
        match breach_at(self.last, sequence) {
            None => {
                self.last = Some(sequence);
                Next::Item(Ok(message))
            }
            Some(breach) => {
                drop(message);
                self.breach = Some(breach);
                Next::Item(Err(RisingError::Breach(breach)))
            }
        }
    }

    /// Returns the reader below, for example to look at its health.
    pub fn reader(&self) -> &R
        ensures { result.now ≡ self.now.reader }
    {
        &self.reader
    }

    /// Returns the breach that ended it, if one did.
    pub fn breach(&self) -> Option<Breach>
        ensures { result ≡ self.now.breach }
    {
        self.breach
    }

    /// Returns the first moment at which the reader below has something to do by itself. `None` if
    /// there is no such moment, and after a breach.
    pub fn wakes_at(&self) -> Option<Moment>
        ensures { (now : ℕ) → now < 2 ^ 64 → has_come result now ≡ rising_due R.due now self.now }
    {
        match self.breach {
            Some(_) => None,
            None => self.reader.wakes_at(),
        }
    }

    /// Returns the open inbox of the reader below, if there is one. A breach leaves it open.
    pub fn inbox(&self) -> Option<InboxId>
        ensures { result ≡ R.opened self.now.reader }
    {
        self.reader.inbox()
    }

    /// Closes the reader below and its inbox.
    pub fn close<L: Link>(self, link: &mut L)
        ensures { ClosesInbox (R.opened self.reader) (L.view link.old) (L.view link.new) }
    {
        let Rising {
            reader,
            last: _,
            breach: _,
        } = self;
        reader.close(link);
    }
}

impl<R: OrderedReader> Subscription for Rising<R> {
    type Item = Message;

    type Error = RisingError<R::Error>;

    ghost polls = { λ now old new before after result. PollsRising R.polls now old new before after result };

    ghost due = { λ now o. rising_due R.due now o };

    ghost quiet = { λ o view. IsRisingQuiet R.quiet o view };

    ghost opened = { λ o. R.opened o.reader };

    fn poll_next<L: Link>(
        &mut self,
        alloc: Global,
        link: &mut L,
        now: Moment,
    ) -> Next<Result<Message, RisingError<R::Error>>> {
        self.poll_next(alloc, link, now)
    }

    fn inbox(&self) -> Option<InboxId> {
        self.inbox()
    }

    fn wakes_at(&self) -> Option<Moment> {
        self.wakes_at()
    }

    fn close<L: Link>(self, link: &mut L) {
        self.close(link);
    }
}

impl<R: OrderedReader> OrderedReader for Rising<R> {}
