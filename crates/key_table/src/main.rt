//! Writes to a bucket of keys, and keeps a live table of it. The first three changes are lost on
//! the way; the fourth shows that, so the table's consumer is made anew.
#![tactic(auto)]

use jetstream::consumer::pull::Ordered;
use jetstream::kv;
use jetstream::message::OutboundMessage;
use jetstream::prelude::*;
use jetstream_event_log::table::{
    Entry, KeyPlaces, Rows, Table, WriteError, create, delete, key_places, open_reader, put,
    reader_config, refusal_of, update,
};
use jetstream_testing::{Faults, OneIn, TestServer};
use std::alloc::Global;
use std::sync::Wait;

fn main(rt: HostRuntime) -> Result<(), AnyError> {
    let mut link = OutboxLink::new(rt.alloc(), "_INBOX", "c1")?;
    link.set_state(ConnectionState::Connected);
    let mut server = TestServer::new(rt.alloc(), Faults::none());
    let done = keep_table(&rt, &mut link, &mut server);
    drop(server);
    drop(link);
    done
}

fn keep_table(
    rt: &(impl Wait + Print + AllocGlobal),
    link: &mut OutboxLink,
    server: &mut TestServer,
) -> Result<(), AnyError> {
    let places = open_bucket(rt, link, server)?;
    let table = open_table(rt, &places, link, server);
    let done = match table {
        Ok(mut table) => {
            let done = write_and_follow(rt, &places, &mut table, link, server);
            table.close(link);
            done
        }
        Err(error) => Err(error),
    };
    drop(places);
    done
}

/// Creates a bucket that keeps five entries of each key.
fn open_bucket(
    rt: &(impl Wait + AllocGlobal),
    link: &mut OutboxLink,
    server: &mut TestServer,
) -> Result<KeyPlaces, AnyError> {
    let context = Context::new(rt, rt.alloc())?;
    let config = kv::named(rt.alloc(), "config", 5)?;
    let creating = context.create_key_value(rt.alloc(), config)?;
    let store = server.answer(rt.alloc(), link, creating, 0)??;
    Ok(key_places(&store)?)
}

/// Opens a table of the bucket, from its first entry on.
fn open_table(
    rt: &(impl Wait + AllocGlobal),
    places: &KeyPlaces,
    link: &mut OutboxLink,
    server: &mut TestServer,
) -> Result<Table<Ordered>, AnyError> {
    let rows = Rows::new(rt.alloc(), places, 0)?;
    let context = Context::new(rt, rt.alloc())?;
    let config = reader_config(rt.alloc(), places, rows.next_sequence())?;
    let creating = context.create_consumer_on_stream(rt.alloc(), config, "KV_config")?;
    let consumer = server.answer(rt.alloc(), link, creating, 0)??;
    Ok(open_reader(rt.alloc(), link, consumer)?.table(rows))
}

/// Deliveries to the table are lost until the last write.
fn write_and_follow(
    rt: &(impl Wait + Print + AllocGlobal),
    places: &KeyPlaces,
    table: &mut Table<Ordered>,
    link: &mut OutboxLink,
    server: &mut TestServer,
) -> Result<(), AnyError> {
    let context = Context::new(rt, rt.alloc())?;
    let mut queue = PublishQueue::new(rt.alloc(), context, seconds(5));
    let written = write_through_losses(rt, places, &mut queue, link, server);
    drop(queue);
    written?;
    follow(rt, table, link, server)?;
    print(rt, table.rows())
}

fn write_through_losses(
    rt: &(impl Wait + Print + AllocGlobal),
    places: &KeyPlaces,
    queue: &mut PublishQueue,
    link: &mut OutboxLink,
    server: &mut TestServer,
) -> Result<(), AnyError> {
    server.set_faults(Faults {
        lose: OneIn(1),
        ..Faults::none()
    });
    write(rt.alloc(), places, queue)?;
    store(rt, queue, link, server)?;
    server.set_faults(Faults::none());
    let deletion = delete(rt.alloc(), places, "limit");
    push(rt.alloc(), queue, deletion)?;
    store(rt, queue, link, server)
}

/// The second update loses a race: it names a revision that is no longer the last of its key.
fn write(alloc: Global, places: &KeyPlaces, queue: &mut PublishQueue) -> Result<(), AnyError> {
    let fast = create(alloc, places, "mode", Bytes::from_static(b"fast"));
    push(alloc, queue, fast)?;
    let limit = put(alloc, places, "limit", Bytes::from_static(b"10"));
    push(alloc, queue, limit)?;
    let slow = update(alloc, places, "mode", Bytes::from_static(b"slow"), 1);
    push(alloc, queue, slow)?;
    let off = update(alloc, places, "mode", Bytes::from_static(b"off"), 1);
    push(alloc, queue, off)
}

/// Adds the message of a write to the queue.
fn push(
    alloc: Global,
    queue: &mut PublishQueue,
    message: Result<OutboundMessage, WriteError>,
) -> Result<(), AnyError> {
    match message {
        Ok(message) => {
            queue.push(message, 0)?;
            Ok(())
        }
        Err(WriteError::InvalidKey) => Err(AnyError::own(alloc, "invalid key")),
        Err(WriteError::OutOfMemory) => Err(AnyError::OutOfMemory),
    }
}

/// Polls the queue, and prints what became of the writes.
fn store(
    rt: &(impl Wait + Print + AllocGlobal),
    queue: &mut PublishQueue,
    link: &mut OutboxLink,
    server: &mut TestServer,
) -> Result<(), AnyError> {
    for _ in 0..20 {
        match queue.poll_next(rt, rt.alloc(), link, 0) {
            Next::Item(published) => match &published.outcome {
                Ok(ack) => println!(rt; "stored as {}", ack.sequence)?,
                Err(error) => println!(rt; "{:?}", refusal_of(1, error))?,
            },
            Next::End => break,
            Next::Pending | Next::OutOfMemory => {}
        }
        server.serve(rt.alloc(), link, 0)?;
    }
    Ok(())
}

/// Polls the table, and prints each change.
fn follow(
    rt: &(impl Print + AllocGlobal),
    table: &mut Table<Ordered>,
    link: &mut OutboxLink,
    server: &mut TestServer,
) -> Result<(), AnyError> {
    for _ in 0..20 {
        match table.poll_next(rt.alloc(), link, 0) {
            Next::Item(Ok(entry)) => tell(rt, &entry)?,
            Next::Item(Err(error)) => println!(rt; "{error}")?,
            Next::Pending | Next::End | Next::OutOfMemory => {}
        }
        server.serve(rt.alloc(), link, 0)?;
    }
    Ok(())
}

fn tell(rt: &impl Print, entry: &Entry) -> Result<(), AnyError> {
    let (key, value) = (&entry.key, &entry.value);
    let (revision, operation) = (entry.revision, entry.operation);
    Ok(println!(rt; "change {revision}: {operation:?} {key} {value:?}")?)
}

/// Prints each key that has a value.
fn print(rt: &(impl Print + AllocGlobal), rows: &Rows) -> Result<(), AnyError> {
    for key in rows.keys(rt.alloc(), ">")? {
        if let Some(entry) = rows.get(key.as_str()) {
            println!(rt; "{key} is {:?} at revision {}", entry.value, entry.revision)?;
        }
    }
    Ok(())
}
