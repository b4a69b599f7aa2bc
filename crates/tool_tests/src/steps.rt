//! One run over ends in memory, from which the tests are made.

use crate::faults::failing;
use js_tool_event_log::{Status, run};
use js_tool_io::{MemorySink, MemorySource, Sink, Source};
use std::alloc::{AllocError, Global};
use std::sync::Wait;
use std::thread::Threads;

/// A transcript in which a message is missing, and its consumer is deleted and created anew.
pub(crate) const GAP: &str =
    r#"{"mode":"pull","start":0,"settings":{},"config":{"deliver_policy":"all"},"info":{"stream_name":"events","name":"c1","created":"2026-01-01T00:00:00Z","config":{"deliver_policy":"all"},"delivered":{"consumer_seq":0,"stream_seq":0},"ack_floor":{"consumer_seq":0,"stream_seq":0},"num_ack_pending":0,"num_redelivered":0,"num_waiting":0,"num_pending":0}}
{"at":1,"arrival":{"inbox":0,"reply":"$JS.ACK.events.c1.1.1.1.1790230470084404000.0","payload":"a"}}
{"at":2,"arrival":{"inbox":0,"reply":"$JS.ACK.events.c1.1.2.2.1790230470084404000.0","payload":"b"}}
{"at":3,"arrival":{"inbox":0,"reply":"$JS.ACK.events.c1.1.4.4.1790230470084404000.0","payload":"d"}}
{"at":4,"answer":{"request":1,"payload":{"success":true}}}
{"at":5,"answer":{"request":2,"payload":{"stream_name":"events","name":"c1_1","created":"2026-01-01T00:00:00Z","config":{"deliver_policy":"all"},"delivered":{"consumer_seq":0,"stream_seq":0},"ack_floor":{"consumer_seq":0,"stream_seq":0},"num_ack_pending":0,"num_redelivered":0,"num_waiting":0,"num_pending":0}}}
"#;

/// What `replay` writes for it.
pub(crate) const GAP_TEXT: &str =
    r#"[0,"publish","$JS.API.CONSUMER.MSG.NEXT.events.c1","_INBOX.t.0","{\"batch\":500,\"expires\":30000000000,\"group\":null,\"idle_heartbeat\":15000000000,\"max_bytes\":0,\"min_ack_pending\":null,\"min_pending\":null,\"priority\":null}"]
[1,"yield",1,1,"a"]
[2,"yield",2,2,"b"]
[3,"recreate",1,3]
[3,"request",1,"$JS.API.CONSUMER.DELETE.events.c1","{}"]
[4,"request",2,"$JS.API.CONSUMER.CREATE.events.c1_1","{\"action\":\"\",\"config\":{\"ack_policy\":\"none\",\"deliver_policy\":\"by_start_sequence\",\"inactive_threshold\":30000000000,\"max_deliver\":1,\"mem_storage\":true,\"name\":\"c1_1\",\"num_replicas\":1,\"opt_start_seq\":3,\"replay_policy\":\"instant\"},\"stream_name\":\"events\"}"]
[5,"subscribe",1,"_INBOX.t.1"]
[5,"publish","$JS.API.CONSUMER.MSG.NEXT.events.c1_1","_INBOX.t.1","{\"batch\":500,\"expires\":30000000000,\"group\":null,\"idle_heartbeat\":15000000000,\"max_bytes\":0,\"min_ack_pending\":null,\"min_pending\":null,\"priority\":null}"]
["end",false,5]
"#;

/// Which read fails and which write, the first being 1, and how many bytes a write takes at most. With 0 none fails.
#[derive(Clone, Copy)]
pub(crate) struct Faults {
    pub read: u64,
    pub write: u64,
    pub most: u64,
}

/// No end fails.
pub(crate) const NO_FAULTS: Faults = Faults {
    read: 0,
    write: 0,
    most: 65_536,
};

/// How a run ended, and whether it wrote just what is wanted.
pub(crate) type RunOutcome = Result<(Status, bool), AllocError>;

fn add_word(alloc: Global, words: &mut Vec<String>, word: &str) -> Result<(), AllocError> {
    Ok(words.push(String::from_str(alloc, word)?)?)
}

/// The words of a line, which stand after single spaces.
pub(crate) fn words_of(alloc: Global, line: &str) -> Result<Vec<String>, AllocError> {
    let mut words = Vec::new(alloc);
    for word in line.split(' ') {
        add_word(alloc, &mut words, word)?;
    }
    Ok(words)
}

/// A source of these bytes.
pub(crate) fn source(
    alloc: Global,
    bytes: Vec<u8>,
    faults: Faults,
) -> Result<MemorySource, AllocError> {
    Ok(MemorySource::new(bytes, failing(alloc, faults.read)?))
}

/// A sink that has taken nothing.
pub(crate) fn sink(alloc: Global, faults: Faults) -> Result<MemorySink, AllocError> {
    let failing = failing(alloc, faults.write)?;
    Ok(MemorySink::new(alloc, faults.most, failing))
}

/// What `run` answers to the words of a line.
pub(crate) fn answered<R: Threads + Wait + Sync, S: Source, K: Sink>(
    rt: &R,
    alloc: Global,
    line: &str,
    input: &mut S,
    output: &mut K,
) -> Result<Status, AllocError> {
    let words = words_of(alloc, line)?;
    Ok(run(rt, alloc, &words, input, output))
}

fn run_outcome_into<R: Threads + Wait + Sync, S: Source>(
    rt: &R,
    alloc: Global,
    line: &str,
    input: &mut S,
    output: &mut MemorySink,
    wanted: &[u8],
) -> RunOutcome {
    let status = answered(rt, alloc, line, input, output)?;
    Ok((status, output.taken() == wanted))
}

fn run_outcome_over<R: Threads + Wait + Sync, S: Source>(
    rt: &R,
    alloc: Global,
    line: &str,
    input: &mut S,
    faults: Faults,
    wanted: &[u8],
) -> RunOutcome {
    run_outcome_into(rt, alloc, line, input, &mut sink(alloc, faults)?, wanted)
}

/// How `run` ends for the words of a line, and whether it writes just what is wanted.
pub(crate) fn run_outcome<R: Threads + Wait + Sync>(
    rt: &R,
    alloc: Global,
    line: &str,
    input: Vec<u8>,
    faults: Faults,
    wanted: &[u8],
) -> RunOutcome {
    run_outcome_over(
        rt,
        alloc,
        line,
        &mut source(alloc, input, faults)?,
        faults,
        wanted,
    )
}

/// The same for the words of a line over the transcript with the gap.
pub(crate) fn gap_outcome<R: Threads + Wait + Sync>(
    rt: &R,
    alloc: Global,
    line: &str,
    faults: Faults,
    wanted: &[u8],
) -> RunOutcome {
    let bytes = Vec::from_slice(alloc, GAP.as_bytes())?;
    run_outcome(rt, alloc, line, bytes, faults, wanted)
}
