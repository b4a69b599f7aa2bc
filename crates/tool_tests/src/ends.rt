//! Sources and sinks that fail, that take little at a time, or that give too much.

use crate::steps::{
    Faults, GAP, GAP_TEXT, NO_FAULTS, RunOutcome, gap_outcome, run_outcome, words_of,
};
use crate::tables::same;
use js_tool_event_log::{Status, run_plain};
use js_tool_io::{PlainSink, PlainSource, Sink, Source};
use std::alloc::{AllocError, Global};
use std::process::Abort;
use std::sync::Wait;
use std::thread::Threads;

// Which read fails, how the replay of the gap ends then, and what it has written. The first read gives all, the second
// tells the end, and there is no third.
const READS: &[(u64, Status, &str)] = &[
    (1, Status::ReadFault, ""),
    (2, Status::ReadFault, ""),
    (3, Status::Done, GAP_TEXT),
];

// The replay where this read fails.
fn read_fails<R: Threads + Wait + Sync>(
    rt: &R,
    alloc: Global,
    read: u64,
    wanted: &str,
) -> RunOutcome {
    let faults = Faults { read, ..NO_FAULTS };
    gap_outcome(rt, alloc, "replay", faults, wanted.as_bytes())
}

#[test]
fn a_read_that_fails_is_told(rt: HostRuntime) {
    for &(read, status, wanted) in READS {
        let found = read_fails(&rt, rt.alloc(), read, wanted);
        same(&rt, wanted, found, Ok((status, true)));
    }
}

// Words, what is written for them, and how they end where a write fails.
const WRITES: &[(&str, &str, Status)] = &[
    ("replay", GAP_TEXT, Status::WriteFault),
    (
        "generate 0 12",
        "[\"summary\",12,8,0,1,2,2,1,8]\n",
        Status::WriteFault,
    ),
    (
        "info $JS.ACK.events.durable.3.1.7.1790230470084404000.42",
        "[\"info\",null,null,\"events\",\"durable\",3,1,7,\"1790230470084404000\",42,null]\n",
        Status::WriteFault,
    ),
    (
        "info $JS.ACK",
        "[\"refused\",\"Prefix\"]\n",
        Status::Refused,
    ),
    (
        "window 1 1 3",
        "[\"window\",1,1,3,3,0,true]\n",
        Status::WriteFault,
    ),
];

// The words of a line, where a write takes a byte and the one after this front fails.
fn leaves_front<R: Threads + Wait + Sync>(
    rt: &R,
    alloc: Global,
    line: &str,
    front: &[u8],
) -> RunOutcome {
    let write = front.len() as u64 + 1;
    let faults = Faults {
        read: 0,
        write,
        most: 1,
    };
    gap_outcome(rt, alloc, line, faults, front)
}

fn leaves_each_front<R: Threads + Wait + Sync + Abort>(
    rt: &R,
    alloc: Global,
    line: &str,
    text: &str,
    status: Status,
) {
    for taken in 0..text.len() {
        let found = leaves_front(rt, alloc, line, &text.as_bytes()[..taken]);
        same(rt, line, found, Ok((status, true)));
    }
}

#[test]
fn a_write_that_fails_leaves_a_front(rt: HostRuntime) {
    for &(line, text, status) in WRITES {
        leaves_each_front(&rt, rt.alloc(), line, text, status);
    }
}

// How many bytes a write takes at most, how the replay of the gap ends, and what it has written.
const SMALL: &[(u64, Status, &str)] = &[
    (0, Status::WriteFault, ""),
    (1, Status::Done, GAP_TEXT),
    (7, Status::Done, GAP_TEXT),
];

// The replay where a write takes so little.
fn writes<R: Threads + Wait + Sync>(rt: &R, alloc: Global, most: u64, wanted: &str) -> RunOutcome {
    let faults = Faults { most, ..NO_FAULTS };
    gap_outcome(rt, alloc, "replay", faults, wanted.as_bytes())
}

#[test]
fn small_writes_give_the_whole_text(rt: HostRuntime) {
    for &(most, status, wanted) in SMALL {
        let found = writes(&rt, rt.alloc(), most, wanted);
        same(&rt, wanted, found, Ok((status, true)));
    }
}

// The replay of so many line feeds.
fn feeds<R: Threads + Wait + Sync>(rt: &R, alloc: Global, count: usize) -> RunOutcome {
    let bytes = vec![in alloc; b'\n'; count]?;
    run_outcome(rt, alloc, "replay", bytes, NO_FAULTS, b"")
}

#[test]
fn a_byte_too_many_is_too_long(rt: HostRuntime) {
    let most = feeds(&rt, rt.alloc(), 67_108_864);
    same(&rt, "most", most, Ok((Status::BadLine { line: 1 }, true)));
    let more = feeds(&rt, rt.alloc(), 67_108_865);
    same(&rt, "more", more, Ok((Status::TooLong, true)));
}

fn plain_answered<S: Source, K: Sink>(
    alloc: Global,
    line: &str,
    input: &mut S,
    output: &mut K,
) -> Result<Status, AllocError> {
    let words = words_of(alloc, line)?;
    Ok(run_plain(alloc, &words, input, output))
}

fn plain_into<S: Source>(
    alloc: Global,
    line: &str,
    input: &mut S,
    output: &mut PlainSink,
    wanted: &str,
) -> RunOutcome {
    let status = plain_answered(alloc, line, input, output)?;
    Ok((status, output.taken() == wanted.as_bytes()))
}

// How `run_plain` ends for the words of a line over the gap, and whether it writes just what is wanted.
fn plain_outcome(alloc: Global, line: &str, wanted: &str) -> RunOutcome {
    let bytes = Vec::from_slice(alloc, GAP.as_bytes())?;
    let mut input = PlainSource::new(bytes);
    plain_into(alloc, line, &mut input, &mut PlainSink::new(alloc), wanted)
}

// Words, how they end without threads, and what is written. There is no window; all else is as with them.
const PLAIN: &[(&str, Status, &str)] = &[
    ("window 1 1 3", Status::Usage, ""),
    ("replay", Status::Done, GAP_TEXT),
];

#[test]
fn without_threads_there_is_no_window(rt: HostRuntime) {
    for &(line, status, wanted) in PLAIN {
        let found = plain_outcome(rt.alloc(), line, wanted);
        same(&rt, line, found, Ok((status, true)));
    }
}
