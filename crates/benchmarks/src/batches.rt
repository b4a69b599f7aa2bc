//! Many messages that come without a loss.

use crate::reader::{Kind, Reads, open};
use crate::texts::entry;
use js_base::{Next, OutOfMemory};
use js_link::{InboxId, Link, LinkError, MemoryLink};
use std::alloc::Global;
use std::test::Fail;

/// How many messages are delivered at once.
pub const BATCH: u64 = 500;

/// Has a reader read so many messages, and prints how many it yields.
pub fn read<R: Reads>(
    rt: &(impl Print + AllocGlobal),
    kind: Kind,
    messages: u64,
) -> Result<(), Fail> {
    let yielded = yielded::<R>(rt.alloc(), kind, messages)?;
    println!(rt; "{yielded} read by {}", kind.name())?;
    Ok(())
}

// How many of so many messages a reader yields.
fn yielded<R: Reads>(alloc: Global, kind: Kind, messages: u64) -> Result<u64, OutOfMemory> {
    let mut link = MemoryLink::new(alloc, "_INBOX.t")?;
    let yielded = open_and_read::<R>(alloc, &mut link, kind, messages / BATCH);
    drop(link);
    yielded
}

fn open_and_read<R: Reads>(
    alloc: Global,
    link: &mut MemoryLink,
    kind: Kind,
    batches: u64,
) -> Result<u64, OutOfMemory> {
    let mut reader = open::<R>(alloc, link, kind, 0)?;
    let yielded = read_all(alloc, link, &mut reader, batches);
    drop(reader);
    yielded
}

fn read_all<R: Reads>(
    alloc: Global,
    link: &mut MemoryLink,
    reader: &mut R,
    batches: u64,
) -> Result<u64, OutOfMemory> {
    let mut yielded: u64 = 0;
    for batch in 0..batches {
        deliver(alloc, link, InboxId(0), batch)?;
        yielded = yielded.saturating_add(poll(alloc, link, reader)?);
    }
    Ok(yielded)
}

/// Delivers so many messages to inboxes that are closed unread, and prints how many these are.
pub fn deliver_alone(rt: &(impl Print + AllocGlobal), messages: u64) -> Result<(), Fail> {
    let delivered = delivered(rt.alloc(), messages)?;
    println!(rt; "{delivered} delivered alone")?;
    Ok(())
}

// Delivers so many messages to inboxes that are closed unread, and answers how many these are.
fn delivered(alloc: Global, messages: u64) -> Result<u64, OutOfMemory> {
    let mut link = MemoryLink::new(alloc, "_INBOX.t")?;
    let delivered = deliver_all_unread(alloc, &mut link, messages / BATCH);
    drop(link);
    delivered
}

fn deliver_all_unread(
    alloc: Global,
    link: &mut MemoryLink,
    batches: u64,
) -> Result<u64, OutOfMemory> {
    let mut delivered: u64 = 0;
    for batch in 0..batches {
        deliver_unread(alloc, link, batch)?;
        delivered = delivered.saturating_add(BATCH);
    }
    Ok(delivered)
}

// The number of a new inbox. The link is up, so only memory can be missing.
fn open_inbox(alloc: Global, link: &mut MemoryLink) -> Result<InboxId, OutOfMemory> {
    match link.open_inbox(alloc) {
        Ok((inbox, _subject)) => Ok(inbox),
        Err(LinkError::Failed | LinkError::OutOfMemory) => Err(OutOfMemory),
    }
}

fn deliver_unread(alloc: Global, link: &mut MemoryLink, batch: u64) -> Result<(), OutOfMemory> {
    let inbox = open_inbox(alloc, link)?;
    deliver(alloc, link, inbox, batch)?;
    link.unsubscribe(inbox);
    Ok(())
}

// Delivers the messages of a batch.
fn deliver(
    alloc: Global,
    link: &mut MemoryLink,
    inbox: InboxId,
    batch: u64,
) -> Result<(), OutOfMemory> {
    for place in 1..=BATCH {
        let sequence = batch.saturating_mul(BATCH).saturating_add(place);
        link.deliver(inbox, entry(alloc, sequence, sequence)?)?;
    }
    Ok(())
}

// Whether the reader yields a message by a poll.
fn yields<T: Drop, E: Drop>(next: Next<Result<T, E>>) -> Result<bool, OutOfMemory> {
    match next {
        Next::Item(Ok(_message)) => Ok(true),
        Next::OutOfMemory => Err(OutOfMemory),
        _ => Ok(false),
    }
}

// Polls until the reader waits, and answers how many messages it yields.
fn poll<R: Reads>(
    alloc: Global,
    link: &mut MemoryLink,
    reader: &mut R,
) -> Result<u64, OutOfMemory> {
    let mut yielded: u64 = 0;
    for _ in 0..=BATCH {
        if !yields(reader.next(alloc, link, 0))? {
            return Ok(yielded);
        }
        yielded = yielded.saturating_add(1);
    }
    Ok(yielded)
}
