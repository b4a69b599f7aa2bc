//! A table of the changes of a bucket, read from messages that are written down here.

ghost use Rattle.std.specs.Prelude.{None, false, ⊤};

use crate::messages::{Headers, places, received, says_at, text_of};
use crate::word;
use crate::writes::refused;
use js_base::{Moment, Next, OutOfMemory};
use js_link::{InboxId, Link, MemoryLink};
use js_message::Message as Delivered;
use js_readers::Subscription;
use js_store_keys::{Operation, WriteRefusal};
use js_store_table::{Entry, OrderedReader, Rows, Table, TableError};
use std::alloc::Global;
use std::process::Abort;

/// A message of the bucket's stream: its reply subject, its key, its headers and its payload.
type Stored = (&'static str, &'static str, Headers, &'static str);

/// Reads those messages one after another.
#[derive(Drop)]
struct Script {
    messages: &'static [Stored],
    next: usize,
}

fn stored(alloc: Global, message: Stored) -> Result<Delivered, OutOfMemory> {
    let (reply, subject, headers, payload) = message;
    let message = received(alloc, subject, Some(reply), None, headers, payload)?;
    Ok(Delivered {
        message,
        timeout: 0,
    })
}

impl Subscription for Script {
    type Item = Delivered;

    type Error = OutOfMemory;

    ghost polls = { λ now old new before after result. ⊤ };

    ghost due = { λ now script. false };

    ghost quiet = { λ script view. ⊥ };

    ghost opened = { λ script. None };

    fn poll_next<L: Link>(
        &mut self,
        alloc: Global,
        _link: &mut L,
        _now: Moment,
    ) -> Next<Result<Delivered, OutOfMemory>> {
        match self.messages.get(self.next) {
            None => Next::End,
            Some(message) => match stored(alloc, *message) {
                Ok(message) => {
                    self.next = self.next.saturating_add(1);
                    Next::Item(Ok(message))
                }
                Err(error) => Next::Item(Err(error)),
            },
        }
    }

    fn inbox(&self) -> Option<InboxId> {
        None
    }

    fn wakes_at(&self) -> Option<Moment> {
        None
    }

    fn close<L: Link>(self, _link: &mut L) {
        drop(self);
    }
}

impl OrderedReader for Script {}

/// What a table is asked.
#[derive(Clone, Copy)]
enum Step {
    /// The next change.
    Poll,
    Get(&'static str),
    History(&'static str),
    Keys(&'static str),
    /// An update of a key by the revision that the table has, and what the server says of it.
    Update(&'static str, &'static str),
    /// The revision, whether nothing is to come, and how many entries are kept.
    Place,
}

/// A step, and what it comes to.
type Row = (Step, &'static str);

/// `mode` is put three times, and `limit` with an empty value; after the fourth message another consumer reads on, which numbers its messages
/// anew. Then `mode` is deleted, `limit` is purged by the server's marker, and a message of another bucket comes.
const CHANGES: &[Stored] = &[
    (
        "$JS.ACK.KV_config.c1.1.1.1.1000.7",
        "$KV.config.mode",
        &[],
        "fast",
    ),
    (
        "$JS.ACK.KV_config.c1.1.2.2.2000.6",
        "$KV.config.limit",
        &[],
        "",
    ),
    (
        "$JS.ACK.KV_config.c1.1.3.3.3000.5",
        "$KV.config.color.red",
        &[],
        "1",
    ),
    (
        "$JS.ACK.KV_config.c1.1.4.4.4000.4",
        "$KV.config.mode",
        &[],
        "slow",
    ),
    (
        "$JS.ACK.KV_config.c2.1.5.1.5000.3",
        "$KV.config.mode",
        &[],
        "off",
    ),
    (
        "$JS.ACK.KV_config.c2.1.6.2.6000.2",
        "$KV.config.mode",
        &[("KV-Operation", "DEL")],
        "",
    ),
    (
        "$JS.ACK.KV_config.c2.1.7.3.7000.1",
        "$KV.config.limit",
        &[("Nats-Marker-Reason", "MaxAge")],
        "",
    ),
    (
        "$JS.ACK.KV_other.c2.1.8.4.8000.0",
        "$KV.other.mode",
        &[],
        "x",
    ),
];

/// An update by the revision 4 loses against the message 5, which the table has not read yet.
const STEPS: &[Row] = &[
    (Step::Place, "0 behind 0"),
    (Step::Get("mode"), "none"),
    (Step::Poll, "mode=fast put 1 of 7"),
    (Step::Poll, "limit= put 2 of 6"),
    (Step::Get("limit"), "limit= put 2 of 6"),
    (Step::Poll, "color.red=1 put 3 of 5"),
    (Step::Keys(">"), "color.red limit mode "),
    (Step::Keys("*"), "limit mode "),
    (Step::Keys("color.*"), "color.red "),
    (Step::Poll, "mode=slow put 4 of 4"),
    (Step::History("mode"), "1 4 "),
    (
        Step::Update("mode", "wrong last sequence: 5"),
        "4 loses to 5",
    ),
    (Step::Poll, "mode=off put 5 of 3"),
    (Step::History("mode"), "4 5 "),
    (Step::Get("mode"), "mode=off put 5 of 3"),
    (Step::Update("size", "wrong last sequence: 9"), "9 is there"),
    (Step::Poll, "mode= deleted 6 of 2"),
    (Step::Get("mode"), "none"),
    (Step::History("mode"), "5 6 "),
    (Step::Keys(">"), "color.red limit "),
    (Step::Poll, "limit= purged 7 of 1"),
    (Step::History("limit"), "7 "),
    (Step::Keys(">"), "color.red "),
    (Step::Place, "7 behind 4"),
    (Step::Poll, "no entry of the bucket"),
    (Step::Place, "7 behind 4"),
    (Step::Poll, "end"),
];

/// The messages before a table stopped, and those after it went on.
const BEFORE: &[Stored] = &[
    (
        "$JS.ACK.KV_config.c1.1.1.1.1000.1",
        "$KV.config.mode",
        &[],
        "fast",
    ),
    (
        "$JS.ACK.KV_config.c1.1.2.2.2000.0",
        "$KV.config.limit",
        &[],
        "10",
    ),
];

const SINCE: &[Stored] = &[(
    "$JS.ACK.KV_config.c2.1.3.1.3000.0",
    "$KV.config.mode",
    &[],
    "slow",
)];

const FIRST: &[Row] = &[
    (Step::Poll, "mode=fast put 1 of 1"),
    (Step::Poll, "limit=10 put 2 of 0"),
    (Step::Place, "2 current 2"),
];

const RESUMED: &[Row] = &[
    (Step::Place, "2 behind 2"),
    (Step::Get("limit"), "limit=10 put 2 of 0"),
    (Step::Poll, "mode=slow put 3 of 0"),
    (Step::History("mode"), "1 3 "),
    (Step::Keys(">"), "limit mode "),
    (Step::Place, "3 current 3"),
];

fn entry_text(alloc: Global, entry: &Entry) -> Result<String, OutOfMemory> {
    let value = text_of(alloc, entry.value.as_slice())?;
    let operation = match entry.operation {
        Operation::Put => "put",
        Operation::Delete => "deleted",
        Operation::Purge => "purged",
    };
    let Entry {
        key,
        revision,
        delta,
        ..
    } = entry;
    Ok(format!(in alloc; "{key}={value} {operation} {revision} of {delta}")?)
}

fn poll_text(
    alloc: Global,
    answer: Next<Result<Entry, TableError<OutOfMemory>>>,
) -> Result<String, OutOfMemory> {
    match answer {
        Next::Item(Ok(entry)) => entry_text(alloc, &entry),
        Next::Item(Err(error)) => Ok(format!(in alloc; "{error}")?),
        Next::Pending => word(alloc, "pending"),
        Next::End => word(alloc, "end"),
        Next::OutOfMemory => Err(OutOfMemory),
    }
}

fn history(alloc: Global, rows: &Rows, key: &str) -> Result<String, OutOfMemory> {
    let mut text = String::new(alloc);
    for entry in rows.history(key) {
        let revision = format!(in alloc; "{} ", entry.revision)?;
        text.push_str(revision.as_str())?;
    }
    Ok(text)
}

fn keys(alloc: Global, rows: &Rows, filter: &str) -> Result<String, OutOfMemory> {
    let keys = rows.keys(alloc, filter)?;
    let mut text = String::new(alloc);
    for key in keys.iter() {
        let key = format!(in alloc; "{key} ")?;
        text.push_str(key.as_str())?;
    }
    Ok(text)
}

// What becomes of an update by the revision that the rows have, where the server says this of it.
fn updated(alloc: Global, rows: &Rows, key: &str, says: &str) -> Result<String, OutOfMemory> {
    let revision = match rows.history(key).last() {
        Some(entry) => entry.revision,
        None => 0,
    };
    match refused(alloc, revision, 10071, says)? {
        Some(WriteRefusal::WrongRevision { last: Some(last) }) => Ok(format!(in alloc;
            "{revision} loses to {last}"
        )?),
        Some(WriteRefusal::AlreadyExists { last: Some(last) }) => Ok(format!(in alloc;
            "{last} is there"
        )?),
        _ => word(alloc, "another refusal"),
    }
}

fn place(alloc: Global, rows: &Rows) -> Result<String, OutOfMemory> {
    let word = if rows.is_current() {
        "current"
    } else {
        "behind"
    };
    let (revision, count) = (rows.revision(), rows.entry_count());
    Ok(format!(in alloc; "{revision} {word} {count}")?)
}

fn answer(
    alloc: Global,
    table: &mut Table<Script>,
    link: &mut MemoryLink,
    step: Step,
) -> Result<String, OutOfMemory> {
    match step {
        Step::Poll => poll_text(alloc, table.poll_next(alloc, link, 0)),
        Step::Get(key) => match table.rows().get(key) {
            Some(entry) => entry_text(alloc, entry),
            None => word(alloc, "none"),
        },
        Step::History(key) => history(alloc, table.rows(), key),
        Step::Keys(filter) => keys(alloc, table.rows(), filter),
        Step::Update(key, says) => updated(alloc, table.rows(), key, says),
        Step::Place => place(alloc, table.rows()),
    }
}

fn says_each(
    rt: &impl Abort,
    alloc: Global,
    table: &mut Table<Script>,
    link: &mut MemoryLink,
    rows: &[Row],
) {
    for (place, &(step, wanted)) in rows.iter().enumerate() {
        says_at(rt, place, answer(alloc, table, link, step), wanted);
    }
}

fn new_rows(alloc: Global, pending: u64) -> Result<Rows, OutOfMemory> {
    let places = places(alloc)?;
    let rows = Rows::new(alloc, &places, pending);
    drop(places);
    rows
}

fn read_from(messages: &'static [Stored]) -> Script {
    Script { messages, next: 0 }
}

#[test]
fn changes_make_a_table(rt: HostRuntime) {
    let mut link = MemoryLink::new(rt.alloc(), "t1").expect(&rt, "a link");
    let rows = new_rows(rt.alloc(), 8).expect(&rt, "rows");
    let mut table = Table::new(rows, read_from(CHANGES));
    says_each(&rt, rt.alloc(), &mut table, &mut link, STEPS);
    table.close(&mut link);
}

#[test]
fn a_kept_table_goes_on(rt: HostRuntime) {
    let mut link = MemoryLink::new(rt.alloc(), "t1").expect(&rt, "a link");
    let rows = new_rows(rt.alloc(), 2).expect(&rt, "rows");
    let mut table = Table::new(rows, read_from(BEFORE));
    says_each(&rt, rt.alloc(), &mut table, &mut link, FIRST);
    let rows = table.into_rows(&mut link);
    assert_eq!(rt; rows.next_sequence(), 3);
    let mut table = Table::resume(rows, 1, read_from(SINCE));
    says_each(&rt, rt.alloc(), &mut table, &mut link, RESUMED);
    table.close(&mut link);
}
