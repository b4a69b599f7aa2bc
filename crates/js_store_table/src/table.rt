//! A live table of the keys of a bucket.
ghost use Rattle.std.specs.Prelude.{◌≡◌, ◌<◌, ◌^◌, ℕ, None};
ghost use Rattle.js_base.specs.Clock.{has_come};
ghost use Rattle.js_ordered_stream.specs.Inbox.{ClosesInbox};
ghost use Rattle.js_readers.specs.Subscription.{IdlesIfQuiet, KeepsConnection};
ghost use Rattle.js_store_table.specs.Resume.{GoesOn, resumed};
ghost use Rattle.js_store_table.specs.TableRows.{Follows};
ghost use Rattle.js_store_table.specs.Table.{IsTableQuiet, PollsTable, ReadsNext, TellsAnswer, TellsMessage, progress_after, table_due, told_of};

use crate::message_entry::Untold;
use crate::table_error::TableError;
use crate::table_rows::Rows;
use js_base::{Message, Moment, Next, replace_with};
use js_link::{InboxId, Link};
use js_message::Message as Delivered;
use js_readers::Subscription;
use js_readers::ordered::OrderedReader;
use js_store_keys::Entry;
use std::alloc::Global;

/// A live table of the keys of a bucket. It reads the bucket's stream in order, returns each
/// change, and keeps the last entries of each key. It is itself a [`Subscription`], of entries.
///
/// Call `close` when you are done with a table; dropping it leaves its reader's inbox open.
#[derive(Drop)]
#[must_use = "changes come by polls"]
pub struct Table<R> {
    reader: R,
    rows: Rows,
    /// A message that was read and for which memory ran out.
    unread: Option<Message>,
}

impl<R: OrderedReader> Table<R> {
    /// Creates a table of these rows, which `reader` feeds. The reader's consumer has to deliver
    /// the last messages of each subject of the bucket, or all messages, from the first sequence
    /// on.
    pub fn new(rows: Rows, reader: R) -> Table<R>
        ensures { result ≡ record { reader = reader; rows = rows; unread = None } }
    {
        Table {
            reader,
            rows,
            unread: None,
        }
    }

    /// Creates a table that goes on with the rows of an earlier one ([`into_rows`](Table::into_rows)).
    /// After any polls, its rows are those of the changes that were returned before, and then of
    /// those returned since.
    ///
    /// The consumer of `reader` has to start at [`next_sequence`](Rows::next_sequence) of the rows:
    /// if it starts earlier, changes are returned and counted twice, and if it starts later, changes
    /// are missing. `pending` is how many messages it has to deliver: `num_pending` in its info. If
    /// it is 0, the table is current at once.
    pub fn resume(rows: Rows, pending: u64, reader: R) -> Table<R>
        ensures table { result ≡ record { reader = reader; rows = resumed pending rows; unread = None } }
        ensures goes_on { GoesOn rows.bucket.history rows.rows result.rows.rows }
    {
        Table {
            reader,
            rows: rows.resumed(pending),
            unread: None,
        }
    }

    /// Returns the table's rows, which have the changes returned so far.
    pub fn rows(&self) -> &Rows
        ensures { result.now ≡ self.now.rows }
    {
        &self.rows
    }

    /// Returns the next change, or the next error of the reader, by one poll of the reader
    /// (`Subscription::poll_next`).
    ///
    /// Each message that the reader hands out is returned as one entry and added to the rows. A
    /// message that is not one of the bucket's is returned as `NoEntry`. If memory runs out for a
    /// message, `OutOfMemory` is returned, the rows are those of the changes returned so far, and
    /// the table keeps the message. The next poll returns it without looking at the link.
    ///
    /// After `Pending` you may sleep until something comes for the reader or `wakes_at` has come.
    /// Polling earlier does nothing.
    pub fn poll_next<L: Link>(
        &mut self,
        alloc: Global,
        link: &mut L,
        now: Moment,
    ) -> Next<Result<Entry, TableError<R::Error>>>
        ensures polls { PollsTable R.polls now self.old self.new (L.view link.old) (L.view link.new) result }
        ensures bucket { self.new.rows.bucket ≡ self.old.rows.bucket }
        ensures table { Follows self.old.rows.bucket.history self.old.rows.rows self.new.rows.rows (told_of result) }
        ensures progress { self.new.rows.progress ≡ progress_after self.old.rows.progress result }
        ensures keeps { KeepsConnection (L.view link.old) (L.view link.new) }
        ensures idles { IdlesIfQuiet (table_due R.due) (IsTableQuiet R.quiet) now self.old self.new (L.view link.old) (L.view link.new) result }
    {
        match self.unread.take() {
            Some(message) => self.tell(alloc, message),
            None => self.read(alloc, link, now),
        }
    }

    // Tells what its reader reads next.
    fn read<L: Link>(
        &mut self,
        alloc: Global,
        link: &mut L,
        now: Moment,
    ) -> Next<Result<Entry, TableError<R::Error>>>
        requires { self.old.unread ≡ None }
        ensures reads { ReadsNext R.polls now self.old self.new (L.view link.old) (L.view link.new) result }
        ensures bucket { self.new.rows.bucket ≡ self.old.rows.bucket }
        ensures table { Follows self.old.rows.bucket.history self.old.rows.rows self.new.rows.rows (told_of result) }
        ensures progress { self.new.rows.progress ≡ progress_after self.old.rows.progress result }
        ensures keeps { KeepsConnection (L.view link.old) (L.view link.new) }
        ensures idles { IdlesIfQuiet (table_due R.due) (IsTableQuiet R.quiet) now self.old self.new (L.view link.old) (L.view link.new) result }
    {
        let answer = self.reader.poll_next(alloc, link, now);
        self.tell_answer(alloc, answer)
    }

    // Tells what its reader answered.
    fn tell_answer(
        &mut self,
        alloc: Global,
        answer: Next<Result<Delivered, R::Error>>,
    ) -> Next<Result<Entry, TableError<R::Error>>>
        requires { self.old.unread ≡ None }
        ensures tells { TellsAnswer self.old.rows.bucket answer self.new.unread result }
        ensures reader { self.new.reader ≡ self.old.reader }
        ensures bucket { self.new.rows.bucket ≡ self.old.rows.bucket }
        ensures table { Follows self.old.rows.bucket.history self.old.rows.rows self.new.rows.rows (told_of result) }
        ensures progress { self.new.rows.progress ≡ progress_after self.old.rows.progress result }
    {
        match answer {
            Next::Item(Ok(message)) => self.tell(alloc, message.message),
            Next::Item(Err(error)) => Next::Item(Err(TableError::Reader(error))),
            Next::Pending => Next::Pending,
            Next::End => Next::End,
            Next::OutOfMemory => Next::OutOfMemory,
        }
    }

    // Tells a message, or keeps it where there is no memory.
    fn tell(&mut self, alloc: Global, message: Message) -> Next<Result<Entry, TableError<R::Error>>>
        requires { self.old.unread ≡ None }
        ensures tells { TellsMessage self.old.rows.bucket message self.new.unread result }
        ensures reader { self.new.reader ≡ self.old.reader }
        ensures bucket { self.new.rows.bucket ≡ self.old.rows.bucket }
        ensures table { Follows self.old.rows.bucket.history self.old.rows.rows self.new.rows.rows (told_of result) }
        ensures progress { self.new.rows.progress ≡ progress_after self.old.rows.progress result }
    {
        match self.rows.apply(alloc, &message) {
            Ok(entry) => {
                drop(message);
                Next::Item(Ok(entry))
            }
            Err(Untold::NoEntry) => {
                drop(message);
                Next::Item(Err(TableError::NoEntry))
            }
            Err(Untold::OutOfMemory) => {
                replace_with(&mut self.unread, Some(message));
                Next::OutOfMemory
            }
        }
    }

    /// Returns the first moment at which the table has something to do by itself: immediately if it
    /// keeps a message for which memory ran out, otherwise when its reader has something to do.
    pub fn wakes_at(&self) -> Option<Moment>
        ensures { (now : ℕ) → now < 2 ^ 64 → has_come result now ≡ table_due R.due now self.now }
    {
        match &self.unread {
            Some(_) => Some(0),
            None => self.reader.wakes_at(),
        }
    }

    /// Returns the open inbox of the table's reader, if there is one.
    pub fn inbox(&self) -> Option<InboxId>
        ensures { result ≡ R.opened self.now.reader }
    {
        self.reader.inbox()
    }

    /// Closes the table and the inbox of its reader, and returns the rows. Keep them to go on later
    /// with [`resume`](Table::resume).
    ///
    /// A message for which memory ran out is dropped. It is above the rows' revision, so a reader
    /// that starts at `next_sequence` reads it again.
    pub fn into_rows<L: Link>(self, link: &mut L) -> Rows
        ensures rows { result ≡ self.rows }
        ensures closes { ClosesInbox (R.opened self.reader) (L.view link.old) (L.view link.new) }
    {
        let Table {
            reader,
            rows,
            unread,
        } = self;
        drop(unread);
        reader.close(link);
        rows
    }

    /// Closes the table and the inbox of its reader.
    pub fn close<L: Link>(self, link: &mut L)
        ensures { ClosesInbox (R.opened self.reader) (L.view link.old) (L.view link.new) }
    {
        let Table {
            reader,
            rows,
            unread,
        } = self;
        drop(rows);
        drop(unread);
        reader.close(link);
    }
}

impl<R: OrderedReader> Subscription for Table<R> {
    type Item = Entry;

    type Error = TableError<R::Error>;

    ghost polls = { λ now old new before after result. PollsTable R.polls now old new before after result };

    ghost due = { λ now t. table_due R.due now t };

    ghost quiet = { λ t view. IsTableQuiet R.quiet t view };

    ghost opened = { λ t. R.opened t.reader };

    fn poll_next<L: Link>(
        &mut self,
        alloc: Global,
        link: &mut L,
        now: Moment,
    ) -> Next<Result<Entry, TableError<R::Error>>> {
        self.poll_next(alloc, link, now)
    }

    fn inbox(&self) -> Option<InboxId> {
        self.inbox()
    }

    fn wakes_at(&self) -> Option<Moment> {
        self.wakes_at()
    }

    fn close<L: Link>(self, link: &mut L) {
        self.close(link);
    }
}
