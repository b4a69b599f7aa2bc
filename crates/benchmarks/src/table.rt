//! Changes of a bucket that a live table reads from an ordered push consumer.

use crate::batches::BATCH;
use crate::reader::{Kind, reported_info};
use crate::texts::change;
use jetstream::consumer::Consumer;
use jetstream::consumer::push::{Ordered, OrderedConfig, OrderedPushCalls};
use jetstream::context::ApiScope;
use js_base::{Next, OutOfMemory, Text, all_3, both};
use js_link::{InboxId, MemoryLink};
use js_store_keys::KeyPlaces;
use js_store_table::{Rows, Table};
use std::alloc::Global;
use std::cmp;
use std::test::Fail;

// The bucket `config`, which keeps one entry of a key.
fn places(alloc: Global) -> Result<KeyPlaces, OutOfMemory> {
    let (bucket, prefix) = both(
        Text::from_str(alloc, "config"),
        Text::from_str(alloc, "$KV.config."),
    )?;
    Ok(KeyPlaces {
        bucket,
        prefix,
        put_prefix: None,
        api_prefix: None,
        history: 1,
    })
}

fn rows(alloc: Global, changes: u64) -> Result<Rows, OutOfMemory> {
    let places = places(alloc)?;
    let rows = Rows::new(alloc, &places, changes);
    drop(places);
    rows
}

// The ordered consumer of the bucket's stream.
fn consumer(alloc: Global) -> Result<Consumer<OrderedConfig>, OutOfMemory> {
    let (prefix, config, info) = all_3(
        Text::from_str(alloc, "$JS.API"),
        Ok(OrderedConfig::new(alloc)),
        reported_info(alloc, Kind::Push, 0),
    )?;
    let scope = ApiScope {
        prefix,
        timeout: None,
    };
    Ok(Consumer {
        scope,
        config,
        info,
    })
}

fn open(alloc: Global, link: &mut MemoryLink) -> Result<Ordered, OutOfMemory> {
    match consumer(alloc)?.messages(alloc, link) {
        Ok(reader) => Ok(reader),
        Err(_) => Err(OutOfMemory),
    }
}

// Opens a table of an empty bucket.
fn open_table(
    alloc: Global,
    link: &mut MemoryLink,
    changes: u64,
) -> Result<Table<Ordered>, OutOfMemory> {
    let (rows, reader) = both(rows(alloc, changes), open(alloc, link))?;
    Ok(Table::new(rows, reader))
}

// Delivers the changes from this sequence on, as many as a batch has and no more than up to the last; each changes the next of the keys.
fn deliver(
    alloc: Global,
    link: &mut MemoryLink,
    first: u64,
    last: u64,
    keys: u64,
) -> Result<(), OutOfMemory> {
    let end = cmp::min(last, first.saturating_add(BATCH - 1));
    for sequence in first..=end {
        let key = sequence.checked_rem(keys).unwrap_or(0);
        link.deliver(InboxId(0), change(alloc, key, sequence)?)?;
    }
    Ok(())
}

// Whether the table tells a change by a poll.
fn tells<T: Drop, E: Drop>(next: Next<Result<T, E>>) -> Result<bool, OutOfMemory> {
    match next {
        Next::Item(Ok(entry)) => {
            drop(entry);
            Ok(true)
        }
        Next::OutOfMemory => Err(OutOfMemory),
        _ => Ok(false),
    }
}

// Polls until the table waits, and answers how many changes it tells.
fn poll(
    alloc: Global,
    link: &mut MemoryLink,
    table: &mut Table<Ordered>,
) -> Result<u64, OutOfMemory> {
    let mut told: u64 = 0;
    for _ in 0..=BATCH {
        if !tells(table.poll_next(alloc, link, 0))? {
            return Ok(told);
        }
        told = told.saturating_add(1);
    }
    Ok(told)
}

fn read_all(
    alloc: Global,
    link: &mut MemoryLink,
    table: &mut Table<Ordered>,
    changes: u64,
    keys: u64,
) -> Result<u64, OutOfMemory> {
    let mut told: u64 = 0;
    for batch in 0..changes.div_ceil(BATCH) {
        let first = batch.saturating_mul(BATCH).saturating_add(1);
        deliver(alloc, link, first, changes, keys)?;
        told = told.saturating_add(poll(alloc, link, table)?);
    }
    Ok(told)
}

// How many changes a table tells, and how many entries it keeps of them.
fn read(
    alloc: Global,
    link: &mut MemoryLink,
    changes: u64,
    keys: u64,
) -> Result<(u64, usize), OutOfMemory> {
    let mut table = open_table(alloc, link, changes)?;
    let told = read_all(alloc, link, &mut table, changes, keys);
    let kept = table.rows().entry_count();
    table.close(link);
    Ok((told?, kept))
}

/// Has a table read so many changes of so many keys, and prints how many it tells and keeps.
pub fn run(rt: &(impl Print + AllocGlobal), changes: u64, keys: u64) -> Result<(), Fail> {
    let mut link = MemoryLink::new(rt.alloc(), "_INBOX.t")?;
    let read = read(rt.alloc(), &mut link, changes, keys);
    drop(link);
    let (told, kept) = read?;
    println!(rt; "{told} changes told, {kept} entries kept")?;
    Ok(())
}
