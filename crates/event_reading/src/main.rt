//! Publishes an event every ten seconds and reads the events in order, though one is lost on the way,
//! one is late and one arrives twice. In between it sleeps until something is to be done.
#![tactic(auto)]

use jetstream::consumer::Resilience;
use jetstream::consumer::pull::{Ordered, starting_at};
use jetstream::prelude::*;
use jetstream_testing::{Faults, OneIn, TestServer};
use std::alloc::Global;
use std::sync::Wait;

const SECOND: Nanos = 1_000_000_000;

fn main(rt: HostRuntime) -> Result<(), AnyError> {
    let mut link = OutboxLink::new(rt.alloc(), "_INBOX", "c1")?;
    link.set_state(ConnectionState::Connected);
    let mut server = TestServer::new(rt.alloc(), Faults::none());
    let done = read(&rt, &mut link, &mut server);
    drop(server);
    drop(link);
    done
}

fn read(
    rt: &(impl Wait + Print + AllocGlobal),
    link: &mut OutboxLink,
    server: &mut TestServer,
) -> Result<(), AnyError> {
    server.add_stream(rt.alloc(), "events", "events.>")?;
    let mut reader = open(rt, link, server)?;
    let done = publish(rt, &mut reader, link, server);
    reader.close(link);
    done
}

/// Opens the messages of an ordered consumer of all events.
fn open(
    rt: &(impl Wait + AllocGlobal),
    link: &mut OutboxLink,
    server: &mut TestServer,
) -> Result<Ordered, AnyError> {
    let context = Context::new(rt, rt.alloc())?;
    let config = starting_at(rt.alloc(), 1);
    let creating = context.create_consumer_on_stream(rt.alloc(), config, "events")?;
    let consumer = server.answer(rt.alloc(), link, creating, 0)??;
    Ok(consumer.messages_with(rt.alloc(), link, Resilience::all())?)
}

fn publish(
    rt: &(impl Wait + Print + AllocGlobal),
    reader: &mut Ordered,
    link: &mut OutboxLink,
    server: &mut TestServer,
) -> Result<(), AnyError> {
    let context = Context::new(rt, rt.alloc())?;
    let mut queue = PublishQueue::new(rt.alloc(), context, seconds(5));
    let done = publish_events(rt, &mut queue, reader, link, server);
    drop(queue);
    done
}

/// Publishes an event every ten seconds, and polls in between.
fn publish_events(
    rt: &(impl Wait + Print + AllocGlobal),
    queue: &mut PublishQueue,
    reader: &mut Ordered,
    link: &mut OutboxLink,
    server: &mut TestServer,
) -> Result<(), AnyError> {
    for number in 1..7_u64 {
        let now = number * 10 * SECOND;
        push(rt.alloc(), queue, number, now)?;
        server.set_faults(faults_of(number));
        run(rt, queue, reader, link, server, now)?;
    }
    Ok(())
}

fn push(alloc: Global, queue: &mut PublishQueue, number: u64, now: Moment) -> Result<(), AnyError> {
    let event = format!(in alloc; "event {number}")?;
    queue.publish(alloc, "events.new", event.as_bytes(), now)?;
    Ok(())
}

/// Event 2 is lost on its way to the reader, event 4 is three seconds late, and event 5 arrives twice.
fn faults_of(number: u64) -> Faults {
    Faults {
        lose: OneIn(u32::from(number == 2)),
        delay: OneIn(u32::from(number == 4)),
        delay_by: seconds(3),
        repeat: OneIn(u32::from(number == 5)),
        seed: 0,
    }
}

/// Polls the queue and the reader for ten seconds. If nothing came, it goes on at the first moment
/// at which one of them, or the server, has something to do.
fn run(
    rt: &(impl Wait + Print + AllocGlobal),
    queue: &mut PublishQueue,
    reader: &mut Ordered,
    link: &mut OutboxLink,
    server: &mut TestServer,
    begin: Moment,
) -> Result<(), AnyError> {
    let (mut now, end) = (begin, begin.saturating_add(10 * SECOND));
    for _ in 0..100 {
        let is_stored = poll_queue(rt, queue, link, now)?;
        let is_read = poll_reader(rt, reader, link, now)?;
        let is_quiet = server.serve(rt.alloc(), link, now)? == 0;
        if is_quiet && !is_stored && !is_read {
            match earliest(&[queue.wakes_at(), reader.wakes_at(), server.wakes_at()]) {
                Some(moment) if moment < end => now = now.max(moment),
                _ => break,
            }
        }
    }
    Ok(())
}

/// Polls the queue. Returns whether a message has its outcome, which it prints.
fn poll_queue(
    rt: &(impl Wait + Print + AllocGlobal),
    queue: &mut PublishQueue,
    link: &mut OutboxLink,
    now: Moment,
) -> Result<bool, AnyError> {
    let Next::Item(published) = queue.poll_next(rt, rt.alloc(), link, now) else {
        return Ok(false);
    };
    let sequence = published.outcome?.sequence;
    println!(rt; "{} s: stored as {sequence}", now / SECOND)?;
    Ok(true)
}

/// Polls the reader. Returns whether it hands out an event, which it prints.
fn poll_reader(
    rt: &(impl Print + AllocGlobal),
    reader: &mut Ordered,
    link: &mut OutboxLink,
    now: Moment,
) -> Result<bool, AnyError> {
    let Next::Item(event) = reader.poll_next(rt.alloc(), link, now) else {
        return Ok(false);
    };
    let event = event?;
    println!(rt; "{} s: read {:?}", now / SECOND, event.payload())?;
    Ok(true)
}
