//! What a rising reader hands out of a stream that was made anew under its name, and the health that the reader below tells then.

use crate::ordered::{info, received};
use crate::tables::says;
use js_base::{Next, OutOfMemory, Text};
use js_call::ApiScope;
use js_call_consumers::Consumer;
use js_json::pull::OrderedConfig;
use js_link::{InboxId, MemoryLink};
use js_message::Message;
use js_readers::ordered::pull::Ordered;
use js_readers::ordered::{OrderedError, OrderedPullCalls, Rising, RisingError};
use std::alloc::Global;
use std::process::Abort;
use std::test::Fail;

/// The reply subject of the message that comes next, and what is told then.
const ROWS: &[(&str, &str)] = &[
    (
        "$JS.ACK.events.c1.1.99.1.1790230470084404000.0",
        "a message; reading; last message: stream sequence 99, consumer sequence 1; recreations: 0",
    ),
    (
        "$JS.ACK.events.c1.1.100.2.1790230470084404000.0",
        "a message; reading; last message: stream sequence 100, consumer sequence 2; recreations: 0",
    ),
    (
        "$JS.ACK.events.c1.1.1.3.1790230470084404000.0",
        "stream sequence 1 came after 100; reading; last message: stream sequence 1, consumer sequence 3; recreations: 0",
    ),
    (
        "$JS.ACK.events.c1.1.2.4.1790230470084404000.0",
        "the end; reading; last message: stream sequence 1, consumer sequence 3; recreations: 0",
    ),
];

/// What a poll answers.
type Answer = Next<Result<Message, RisingError<OrderedError>>>;

fn opened(alloc: Global, link: &mut MemoryLink) -> Result<Rising<Ordered>, Fail> {
    let prefix = Text::from_str(alloc, "$JS.API")?;
    let scope = ApiScope {
        prefix,
        timeout: None,
    };
    let consumer = Consumer::new(OrderedConfig::new(alloc), info(alloc)?, scope);
    Ok(Rising::new(consumer.messages(alloc, link)?))
}

fn answer_word(alloc: Global, answer: &Answer) -> Result<String, OutOfMemory> {
    match answer {
        Next::Item(Ok(_)) => Ok(format!(in alloc; "a message")?),
        Next::Item(Err(error)) => Ok(format!(in alloc; "{error}")?),
        Next::Pending => Ok(format!(in alloc; "nothing")?),
        Next::End => Ok(format!(in alloc; "the end")?),
        Next::OutOfMemory => Ok(format!(in alloc; "no memory")?),
    }
}

fn health_word(
    alloc: Global,
    reader: &Rising<Ordered>,
    answer: &Answer,
) -> Result<String, OutOfMemory> {
    let answer = answer_word(alloc, answer)?;
    let health = reader.reader().health();
    Ok(format!(in alloc; "{answer}; {health}")?)
}

// A message comes, and the reader is polled.
fn polled(
    alloc: Global,
    link: &mut MemoryLink,
    reader: &mut Rising<Ordered>,
    reply: &str,
) -> Result<String, OutOfMemory> {
    let message = received(alloc, reply)?;
    link.deliver(InboxId(0), message)?;
    let answer = reader.poll_next(alloc, link, 1);
    let word = health_word(alloc, reader, &answer);
    drop(answer);
    word
}

// Each message is delivered and told.
fn walk(rt: &impl Abort, alloc: Global, link: &mut MemoryLink, mut reader: Rising<Ordered>) {
    for &(reply, wanted) in ROWS {
        says(rt, reply, polled(alloc, link, &mut reader, reply), wanted);
    }
    reader.close(link);
}

#[test]
fn a_stream_made_anew_ends_a_rising_reader(rt: HostRuntime) -> Result<(), Fail> {
    let mut link = MemoryLink::new(rt.alloc(), "_INBOX.t").expect(&rt, "memory");
    let reader = opened(rt.alloc(), &mut link)?;
    walk(&rt, rt.alloc(), &mut link, reader);
    Ok(())
}
