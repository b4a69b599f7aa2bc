//! Lines that don't read, and words that no stored command line has.

use crate::steps::{NO_FAULTS, RunOutcome, run_outcome, sink, source};
use crate::tables::same;
use js_json_members::{Key, ReadError};
use js_tool_event_log::{Lines, Status, answer_replay, run};
use js_tool_io::{MemorySink, MemorySource, Sink, Source};
use std::alloc::{AllocError, Global};
use std::sync::Wait;
use std::thread::Threads;

const SETUP: &str =
    r#"{"mode":"pull","start":0,"settings":{},"config":{"deliver_policy":"all"},"info":{"stream_name":"events","name":"c1","created":"2026-01-01T00:00:00Z","config":{"deliver_policy":"all"},"delivered":{"consumer_seq":0,"stream_seq":0},"ack_floor":{"consumer_seq":0,"stream_seq":0},"num_ack_pending":0,"num_redelivered":0,"num_waiting":0,"num_pending":0}}
"#;

fn joined(alloc: Global, setup: &str, event: &str) -> Result<Vec<u8>, AllocError> {
    let mut text = Vec::from_slice(alloc, setup.as_bytes())?;
    text.extend_from_slice(event.as_bytes())?;
    Ok(text)
}

// How the replay of a setup and a line ends, and whether nothing is written.
fn stops<R: Threads + Wait + Sync>(rt: &R, alloc: Global, setup: &str, event: &str) -> RunOutcome {
    let text = joined(alloc, setup, event)?;
    run_outcome(rt, alloc, "replay", text, NO_FAULTS, b"")
}

// First lines that don't read.
const FIRST: &[&str] = &["\n", "{}\n", "[1]\n", "{"];

// Lines that don't read after the setup.
const SECOND: &[&str] = &[
    "\n",
    "{}",
    "[1]",
    "{\"at\":-1}",
    "{\"at\":1.5}",
    "{\"at\":null}",
    "{\"at\":1,\"later\":2}",
    "{\"at\":1,\"link\":\"open\",\"watcher\":\"ended\"}",
    "{\"at\":1,\"link\":null}",
    "{\"at\":1,\"link\":\"ajar\"}",
    "{\"at\":1,\"arrival\":{}}",
    "{\"at\":1,\"arrival\":{\"inbox\":0,\"status\":65536}}",
    "{\"at\":1,\"arrival\":{\"inbox\":0,\"payload\":1}}",
    "{\"at\":1,\"arrival\":{\"inbox\":0,\"payload\":{\"a\":1.5}}}",
    "{\"at\":1,\"arrival\":{\"inbox\":0,\"headers\":[[\"a\"]]}}",
    "{\"at\":1,\"answer\":{\"request\":1,\"gone\":false}}",
    "{\"at\":1,\"answer\":{\"request\":1,\"gone\":true,\"payload\":null}}",
];

#[test]
fn the_first_bad_line_is_named(rt: HostRuntime) {
    for &event in FIRST {
        let found = stops(&rt, rt.alloc(), "", event);
        same(&rt, event, found, Ok((Status::BadLine { line: 1 }, true)));
    }
    for &event in SECOND {
        let found = stops(&rt, rt.alloc(), SETUP, event);
        same(&rt, event, found, Ok((Status::BadLine { line: 2 }, true)));
    }
}

// Why lines after the setup don't read.
const CAUSES: &[(&str, ReadError)] = &[
    ("\n", ReadError::NotJson),
    ("{}", ReadError::Missing { key: Key::At }),
    ("{\"at\":null}", ReadError::WrongKind { key: Key::At }),
    ("{\"at\":1.5}", ReadError::Float),
    ("{\"at\":1,\"later\":2}", ReadError::NotJson),
    (
        "{\"at\":1,\"link\":\"open\",\"watcher\":\"ended\"}",
        ReadError::WrongKind { key: Key::Watcher },
    ),
    (
        "{\"at\":1,\"arrival\":{}}",
        ReadError::Missing { key: Key::Inbox },
    ),
    (
        "{\"at\":1}\n{\"at\":2,\"arrival\":{\"inbox\":0,\"status\":65536}}\n{}",
        ReadError::OutOfRange { key: Key::Status },
    ),
];

// Why the replay of a setup and further lines stops.
fn cause(alloc: Global, setup: &str, event: &str) -> Result<Option<ReadError>, AllocError> {
    let mut input = source(alloc, joined(alloc, setup, event)?, NO_FAULTS)?;
    let mut output = sink(alloc, NO_FAULTS)?;
    let mut error = None;
    let _ = answer_replay(alloc, Lines::Plain, &mut input, &mut output, &mut error);
    Ok(error)
}

#[test]
fn a_bad_line_has_its_cause(rt: HostRuntime) {
    let found = cause(rt.alloc(), "", "{}");
    same(
        &rt,
        "setup",
        found,
        Ok(Some(ReadError::Missing { key: Key::Mode })),
    );
    for &(event, wanted) in CAUSES {
        let found = cause(rt.alloc(), SETUP, event);
        same(&rt, event, found, Ok(Some(wanted)));
    }
}

fn no_words_answered<R: Threads + Wait + Sync, S: Source, K: Sink>(
    rt: &R,
    alloc: Global,
    input: &mut S,
    output: &mut K,
) -> Status {
    run(rt, alloc, &[], input, output)
}

// The status of no words at all.
fn says_nothing<R: Threads + Wait + Sync>(rt: &R, alloc: Global) -> Status {
    let mut input = MemorySource::new(Vec::new(alloc), Vec::new(alloc));
    let mut output = MemorySink::new(alloc, 1, Vec::new(alloc));
    let status = no_words_answered(rt, alloc, &mut input, &mut output);
    drop(output);
    drop(input);
    status
}

// Words some of which are empty, how they end, and what is written.
const EMPTY: &[(&str, Status, &str)] = &[
    ("", Status::Usage, ""),
    ("window 1 1 ", Status::Usage, ""),
    ("info ", Status::Refused, "[\"refused\",\"Prefix\"]\n"),
];

#[test]
fn words_may_be_empty(rt: HostRuntime) {
    let alloc = rt.alloc();
    same(&rt, "none", says_nothing(&rt, alloc), Status::Usage);
    for &(line, status, text) in EMPTY {
        let input = Vec::new(alloc);
        let found = run_outcome(&rt, alloc, line, input, NO_FAULTS, text.as_bytes());
        same(&rt, line, found, Ok((status, true)));
    }
}
