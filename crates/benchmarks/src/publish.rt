//! Messages that are published by a queue over an `OutboxLink`.

use jetstream::link::{OutboxLink, Outgoing, received};
use jetstream::{AnyError, Context, Moment, Nanos, Next, PublishQueue};
use std::sync::Wait;
use std::test::Fail;
use std::{cmp, io};

/// How long the server takes to answer, in nanoseconds.
const ANSWERS_AFTER: Nanos = 1_000_000;

/// What became of the messages so far.
#[derive(Clone, Copy)]
struct Tally {
    stored: u64,
    most_in_flight: usize,
}

// The server stores what was sent as the message after this one, and answers.
fn store(
    rt: &impl AllocGlobal,
    link: &mut OutboxLink,
    item: &Outgoing,
    sequence: &mut u64,
) -> Result<(), AnyError> {
    if let Outgoing::Publish {
        reply: Some(reply),
        ..
    } = item
    {
        *sequence = sequence.saturating_add(1);
        let ack = format!(in rt.alloc(); r#"{{"stream":"log","seq":{}}}"#, *sequence)?;
        link.deliver(0, received(rt.alloc(), reply.as_str(), ack.as_bytes())?)?;
    }
    Ok(())
}

// The server stores all that was sent.
fn store_all(rt: &impl AllocGlobal, link: &mut OutboxLink, stored: u64) -> Result<(), AnyError> {
    let mut sequence = stored;
    for _ in 0..link.outgoing_len() {
        if let Some(item) = link.next_outgoing() {
            let stored = store(rt, link, &item, &mut sequence);
            drop(item);
            stored?;
        }
    }
    Ok(())
}

// The moment of the next poll: the server answers after [`ANSWERS_AFTER`], and stores what was sent, unless the queue wakes before.
fn sleep(
    rt: &impl AllocGlobal,
    queue: &PublishQueue,
    link: &mut OutboxLink,
    stored: u64,
    now: Moment,
) -> Result<Moment, AnyError> {
    let answered = now.saturating_add(ANSWERS_AFTER);
    match queue.wakes_at() {
        Some(wakes) if wakes < answered => Ok(wakes),
        _ => {
            store_all(rt, link, stored)?;
            Ok(answered)
        }
    }
}

// Pushes this many messages.
fn push(rt: &impl AllocGlobal, queue: &mut PublishQueue, messages: u64) -> Result<(), AnyError> {
    for _ in 0..messages {
        queue.publish(rt.alloc(), "log.line", b"0123456789abcdef", 0)?;
    }
    Ok(())
}

// Sends what was pushed, and awaits what becomes of each message.
fn send(
    rt: &(impl AllocGlobal + Wait),
    queue: &mut PublishQueue,
    link: &mut OutboxLink,
    tally: &mut Tally,
) -> Result<(), AnyError> {
    let mut now = 0;
    for _ in 0..u64::MAX {
        match queue.poll_next(rt, rt.alloc(), link, now) {
            Next::Item(published) => {
                drop(published.outcome?);
                tally.stored = tally.stored.saturating_add(1);
            }
            Next::Pending => {
                tally.most_in_flight = cmp::max(tally.most_in_flight, queue.in_flight());
                now = sleep(rt, queue, link, tally.stored, now)?;
            }
            Next::OutOfMemory => return Err(io::Error::from(io::ErrorKind::OutOfMemory).into()),
            Next::End => break,
        }
    }
    Ok(())
}

// Publishes so many messages by a queue, and pushes so many of them at once.
fn publish_in_batches(
    rt: &(impl AllocGlobal + Wait),
    queue: &mut PublishQueue,
    link: &mut OutboxLink,
    messages: u64,
    at_once: u64,
) -> Result<Tally, AnyError> {
    let mut tally = Tally {
        stored: 0,
        most_in_flight: 0,
    };
    let mut left = messages;
    for _ in 0..messages {
        let batch = cmp::min(left, at_once);
        if batch == 0 {
            break;
        }
        left -= batch;
        push(rt, queue, batch)?;
        send(rt, queue, link, &mut tally)?;
    }
    Ok(tally)
}

// Opens a queue in which a message waits up to five seconds to be sent.
fn open_queue(rt: &(impl AllocGlobal + Wait)) -> Result<PublishQueue, AnyError> {
    let context = Context::new(rt, rt.alloc())?;
    Ok(PublishQueue::new(rt.alloc(), context, 5_000_000_000))
}

// Publishes so many messages over a link, and pushes so many of them at once.
fn publish_all(
    rt: &(impl AllocGlobal + Wait),
    messages: u64,
    at_once: u64,
) -> Result<Tally, AnyError> {
    let mut queue = open_queue(rt)?;
    let mut link = OutboxLink::new(rt.alloc(), "_INBOX", "c1")?;
    let tally = publish_in_batches(rt, &mut queue, &mut link, messages, at_once);
    drop(queue);
    drop(link);
    tally
}

/// Publishes so many messages, pushes so many of them at once, and prints how many were stored and how many were in flight at most.
pub fn run(
    rt: &(impl Print + AllocGlobal + Wait),
    messages: u64,
    at_once: u64,
) -> Result<(), Fail> {
    let tally = publish_all(rt, messages, at_once)?;
    println!(rt;
        "{} stored, {} in flight at most",
        tally.stored, tally.most_in_flight
    )?;
    Ok(())
}
