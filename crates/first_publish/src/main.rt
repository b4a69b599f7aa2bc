//! Looks up a consumer, publishes a message, waits for its acknowledgement, then reads it back and
//! acknowledges it. Where `serve` stands, an adapter to a real connection sends and receives.
#![tactic(auto)]

use jetstream::consumer::pull::Config;
use jetstream::prelude::*;
use jetstream_testing::{Faults, TestServer};

fn main(rt: HostRuntime) -> Result<(), AnyError> {
    let mut server = TestServer::new(rt.alloc(), Faults::none());
    server.add_stream(rt.alloc(), "news", "news.>")?;
    server.add_consumer(rt.alloc(), "news", "reader")?;
    let mut link = OutboxLink::new(rt.alloc(), "_INBOX", "c1")?;
    link.set_state(ConnectionState::Connected);
    let context = Context::new(&rt, rt.alloc())?;
    let reader = context.get_consumer_from_stream::<Config>(rt.alloc(), "reader", "news")?;
    let mut queue = PublishQueue::new(rt.alloc(), context, seconds(5));
    queue.publish(rt.alloc(), "news.today", b"hello", 0)?;
    let (mut reader, mut news) = (Some(reader), None);
    for now in 0..3 {
        if let Next::Item(reader) = drive(&mut reader, rt.alloc(), &mut link, now) {
            news = Some(reader?.messages(rt.alloc(), &mut link)?);
        }
        if let Next::Item(published) = queue.poll_next(&rt, rt.alloc(), &mut link, now) {
            println!(rt; "stored as {}", published.outcome?.sequence)?;
        }
        if let Some(news) = &mut news {
            if let Next::Item(message) = news.poll_next(rt.alloc(), &mut link, now) {
                let message = message?;
                println!(rt; "read {:?}", message.payload())?;
                message.ack(rt.alloc(), &mut link)?;
            }
        }
        server.serve(rt.alloc(), &mut link, now)?;
    }
    Ok(())
}
