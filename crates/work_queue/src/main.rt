//! Publishes ten jobs, at most four of them in flight, then works them off. A job takes longer than
//! the server waits for its acknowledgement, and yet is delivered once.
#![tactic(auto)]

use jetstream::consumer::pull::{Config, Stream};
use jetstream::context::ContextBuilder;
use jetstream::prelude::*;
use jetstream_testing::{Faults, TestServer};
use std::sync::Wait;

fn main(rt: HostRuntime) -> Result<(), AnyError> {
    let mut link = OutboxLink::new(rt.alloc(), "_INBOX", "c1")?;
    link.set_state(ConnectionState::Connected);
    let mut server = TestServer::new(rt.alloc(), Faults::none());
    let done = publish_and_work(&rt, &mut link, &mut server);
    drop(server);
    drop(link);
    done
}

fn publish_and_work(
    rt: &(impl Wait + Print + AllocGlobal),
    link: &mut OutboxLink,
    server: &mut TestServer,
) -> Result<(), AnyError> {
    server.add_stream(rt.alloc(), "jobs", "jobs.>")?;
    publish(rt, link, server)?;
    let mut worker = start(rt, link, server)?;
    let done = work_off(rt, &mut worker, link, server);
    worker.close(rt.alloc(), link);
    done
}

/// Publishes ten jobs under four permits, and prints where each was stored.
fn publish(
    rt: &(impl Wait + Print + AllocGlobal),
    link: &mut OutboxLink,
    server: &mut TestServer,
) -> Result<(), AnyError> {
    let builder = ContextBuilder::new(rt.alloc())?.max_ack_inflight(4);
    let mut queue = PublishQueue::new(rt.alloc(), builder.build(rt, rt.alloc())?, seconds(5));
    for number in 1..11_u64 {
        let job = format!(in rt.alloc(); "job {number}")?;
        queue.publish(rt.alloc(), "jobs.new", job.as_bytes(), 0)?;
    }
    for now in 0..100 {
        match queue.poll_next(rt, rt.alloc(), link, now) {
            Next::Item(published) => {
                let sequence = published.outcome?.sequence;
                println!(rt; "stored as {sequence}, {} in flight", queue.in_flight())?;
            }
            Next::End => break,
            Next::Pending | Next::OutOfMemory => {}
        }
        server.serve(rt.alloc(), link, now)?;
    }
    Ok(())
}

/// Creates a consumer, and starts its worker. The consumer hands out one job at a time, and waits
/// thirty seconds for its acknowledgement.
fn start(
    rt: &(impl Wait + AllocGlobal),
    link: &mut OutboxLink,
    server: &mut TestServer,
) -> Result<Worker<Stream>, AnyError> {
    let context = Context::new(rt, rt.alloc())?;
    let config = Config {
        durable_name: Some(Text::from_str(rt.alloc(), "worker")?),
        ack_wait: seconds(30),
        max_ack_pending: 1,
        ..Config::new(rt.alloc())
    };
    let creating = context.create_consumer_on_stream(rt.alloc(), config, "jobs")?;
    let consumer = server.answer(rt.alloc(), link, creating, 100)??;
    Ok(Worker::new(consumer.messages(rt.alloc(), link)?, seconds(30)))
}

/// Works off the jobs, one a minute, and prints each. It polls every ten seconds, so that the worker
/// can tell the server in time that a job is still being worked on.
fn work_off(
    rt: &(impl Print + AllocGlobal),
    worker: &mut Worker<Stream>,
    link: &mut OutboxLink,
    server: &mut TestServer,
) -> Result<(), AnyError> {
    for turn in 1..66_u64 {
        let now = seconds(10 * turn);
        if let Next::Item(taken) = worker.poll(rt.alloc(), link, now) {
            taken?;
        }
        if turn % 6 == 0 && tell(rt, worker.message())? {
            worker.ack(rt.alloc(), link)?;
        }
        server.serve(rt.alloc(), link, now)?;
    }
    Ok(())
}

/// Prints the job that was done, if there is one.
fn tell(rt: &impl Print, job: Option<&Message>) -> Result<bool, AnyError> {
    let Some(job) = job else {
        return Ok(false);
    };
    let delivered = match job.info() {
        Ok(info) => info.delivered,
        Err(error) => return Err(AnyError::from(error)),
    };
    println!(rt; "did {:?}, delivery {delivered}", job.payload())?;
    Ok(true)
}
