//! The commands `table` and `watch`: what is kept of a bucket, and its changes.

ghost use Rattle.std.specs.Prelude.{◌≡◌, [], None};

use crate::lines::add_line;
use crate::reading::{Bucket, find_bucket};
use js_base::{Next, OutOfMemory, Text};
use js_call_consumers::ConsumerCalls;
use js_context::Context;
use js_json::consumer::DeliverPolicy;
use js_json::pull::OrderedConfig;
use js_pipe::{Failure, Session, told, write_page};
use js_readers::ordered::pull::Ordered;
use js_readers::ordered::{OrderedError, OrderedPullCalls, Resilience};
use js_store_keys::{Entry, KeyPlaces};
use js_store_table::{Rows, Table, TableError};
use js_tool_io::WriteSink;
use std::alloc::{AllocError, Global};
use std::io;
use std::sync::Wait;
use std::time::Clock;

/// What a look at the table came to.
#[derive(Drop)]
enum Look {
    /// A change.
    Changed(Entry),
    /// Nothing to tell, or an error that was told: it reads on.
    Read,
    /// Nothing can be read yet.
    Waits,
}

// A reader of the messages under this prefix: how many these are, and what reads them.
#[derive(Drop)]
struct Opened {
    pending: u64,
    reader: Ordered,
}

/// What is read so far, over one connection after another.
#[derive(Drop)]
pub struct Kept {
    /// The rows of the table, once there is one.
    rows: Option<Rows>,
    /// Lines that are not written yet.
    page: Vec<u8>,
}

impl Kept {
    /// Nothing is read.
    pub fn new(alloc: Global) -> Kept
        ensures rows { result.rows ≡ None }
        ensures page { result.page.items ≡ [] }
    {
        Kept {
            rows: None,
            page: Vec::new(alloc),
        }
    }

    /// The lines that are not written yet.
    pub fn page_mut(&mut self) -> &mut Vec<u8> {
        &mut self.page
    }

    /// Writes the lines to standard output. Fails with `Fault` if that fails; the lines stay then,
    /// though their beginning may be written.
    pub fn write<R: Print>(&mut self, rt: &R) -> Result<(), Failure> {
        write_page(&mut self.page, &mut WriteSink::new(io::writer(rt)))
    }

    // Where a consumer has to start: behind what the rows have.
    fn start(&self) -> DeliverPolicy {
        match &self.rows {
            Some(rows) => DeliverPolicy::ByStartSequence {
                start_sequence: rows.next_sequence(),
            },
            None => DeliverPolicy::All,
        }
    }
}

// A consumer of all keys.
fn config(alloc: Global, prefix: &str, start: DeliverPolicy) -> Result<OrderedConfig, AllocError> {
    let filter = format!(in alloc; "{prefix}>")?;
    let mut config = OrderedConfig::new(alloc);
    config.filter_subject = Text::from(filter);
    config.deliver_policy = start;
    Ok(config)
}

fn open_reader<R: Clock + Wait + Eprint>(
    rt: &R,
    alloc: Global,
    session: &mut Session,
    context: &Context,
    bucket: &Bucket,
    start: DeliverPolicy,
) -> Result<Opened, Failure> {
    let config = config(alloc, bucket.places.prefix.as_str(), start)?;
    let stream = bucket.reads.stream_name.as_str();
    let call = context.create_consumer_on_stream(alloc, config, stream)?;
    let consumer = session.answer(rt, alloc, call)?;
    let consumer = told(rt, consumer, Failure::Refused)?;
    let pending = consumer.info.num_pending;
    let reader = consumer.messages_with(alloc, session.link(), Resilience::all());
    let reader = told(rt, reader, Failure::Refused)?;
    Ok(Opened { pending, reader })
}

// A table of what the reader brings, which goes on with the rows that are kept.
fn table_of(
    alloc: Global,
    places: &KeyPlaces,
    kept: Option<Rows>,
    opened: Opened,
) -> Result<Table<Ordered>, OutOfMemory> {
    let Opened { pending, reader } = opened;
    if let Some(rows) = kept {
        return Ok(Table::resume(rows, pending, reader));
    }
    match Rows::new(alloc, places, pending) {
        Ok(rows) => Ok(Table::new(rows, reader)),
        Err(OutOfMemory) => {
            drop(reader);
            Err(OutOfMemory)
        }
    }
}

// Opens a table of the bucket of this name.
fn open_named<R: Clock + Wait + Eprint>(
    rt: &R,
    alloc: Global,
    session: &mut Session,
    context: &Context,
    name: &str,
    kept: &mut Kept,
) -> Result<Table<Ordered>, Failure> {
    let bucket = find_bucket(rt, alloc, session, context, name)?;
    let table = match open_reader(rt, alloc, session, context, &bucket, kept.start()) {
        Ok(opened) => match table_of(alloc, &bucket.places, kept.rows.take(), opened) {
            Ok(table) => Ok(table),
            Err(OutOfMemory) => Err(Failure::OutOfMemory),
        },
        Err(failure) => Err(failure),
    };
    drop(bucket);
    table
}

fn open_table<R: Clock + Wait + Eprint>(
    rt: &R,
    alloc: Global,
    session: &mut Session,
    name: &str,
    kept: &mut Kept,
) -> Result<Table<Ordered>, Failure> {
    let context = Context::new(rt, alloc)?;
    let table = open_named(rt, alloc, session, &context, name, kept);
    drop(context);
    table
}

fn tell<R: Eprint>(rt: &R, error: TableError<OrderedError>) -> Look {
    let _ = eprintln!(rt; "{error}");
    drop(error);
    Look::Read
}

// Polls the table once.
fn poll<R: Clock + Wait + Eprint>(
    rt: &R,
    alloc: Global,
    session: &mut Session,
    table: &mut Table<Ordered>,
) -> Result<Look, Failure> {
    let now = session.now(rt)?;
    match table.poll_next(alloc, session.link(), now) {
        Next::Item(Ok(entry)) => Ok(Look::Changed(entry)),
        Next::Item(Err(error)) => Ok(tell(rt, error)),
        Next::Pending => Ok(Look::Waits),
        Next::End => Err(Failure::Refused),
        Next::OutOfMemory => Err(Failure::OutOfMemory),
    }
}

// Reads until nothing is to come.
fn read<R: Clock + Wait + Eprint>(
    rt: &R,
    alloc: Global,
    session: &mut Session,
    table: &mut Table<Ordered>,
) -> Result<(), Failure> {
    for _ in rt.forever() {
        if table.rows().is_current() {
            return Ok(());
        }
        match poll(rt, alloc, session, table)? {
            Look::Changed(entry) => drop(entry),
            Look::Read => {}
            Look::Waits => drop(session.turn(rt, alloc, table.wakes_at())?),
        }
    }
    unreachable!()
}

// Adds the line of each kept entry of a key.
fn add_history(
    alloc: Global,
    rows: &Rows,
    key: &str,
    page: &mut Vec<u8>,
) -> Result<(), AllocError> {
    for entry in rows.history(key) {
        add_line(alloc, page, entry)?;
    }
    Ok(())
}

// Adds the lines of all keys that have a value.
fn add_rows(alloc: Global, rows: &Rows, page: &mut Vec<u8>) -> Result<(), Failure> {
    let keys = rows.keys(alloc, ">")?;
    for key in keys.iter() {
        add_history(alloc, rows, key.as_str(), page)?;
    }
    Ok(())
}

// Writes the line of each change.
fn watch<R: Clock + Wait + Print + Eprint>(
    rt: &R,
    alloc: Global,
    session: &mut Session,
    table: &mut Table<Ordered>,
    kept: &mut Kept,
) -> Result<(), Failure> {
    for _ in rt.forever() {
        match poll(rt, alloc, session, table)? {
            Look::Changed(entry) => {
                let added = add_line(alloc, &mut kept.page, &entry);
                drop(entry);
                added?;
            }
            Look::Read => {}
            Look::Waits => {
                kept.write(rt)?;
                drop(session.turn(rt, alloc, table.wakes_at())?);
            }
        }
    }
    Ok(())
}

/// Reads a bucket until nothing is to come, goes on with the rows that are kept, and adds the line
/// of each kept entry of each key that has a value, by key.
///
/// # Errors
///
/// `Refused` if there is no such bucket, or the reader has ended; and those of `Session::turn`. The
/// rows are kept if the connection is lost.
pub fn read_table<R: Clock + Wait + Eprint>(
    rt: &R,
    alloc: Global,
    session: &mut Session,
    bucket: &str,
    kept: &mut Kept,
) -> Result<(), Failure> {
    let mut table = open_table(rt, alloc, session, bucket, kept)?;
    let read = read(rt, alloc, session, &mut table);
    let added = match read {
        Ok(()) => add_rows(alloc, table.rows(), &mut kept.page),
        Err(failure) => Err(failure),
    };
    kept.rows = Some(table.into_rows(session.link()));
    added
}

/// Reads a bucket until the connection is lost, goes on with the rows that are kept, and writes the
/// line of each change. Fails as `read_table` does.
pub fn watch_table<R: Clock + Wait + Print + Eprint>(
    rt: &R,
    alloc: Global,
    session: &mut Session,
    bucket: &str,
    kept: &mut Kept,
) -> Result<(), Failure> {
    let mut table = open_table(rt, alloc, session, bucket, kept)?;
    let watched = watch(rt, alloc, session, &mut table, kept);
    kept.rows = Some(table.into_rows(session.link()));
    watched
}
