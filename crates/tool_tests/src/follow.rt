//! `follow`: what it writes step by step is the text that the replay of the whole transcript has.

use crate::steps::{GAP, GAP_TEXT, NO_FAULTS, RunOutcome, sink, source};
use crate::tables::same;
use js_tool::{FollowOptions, Status};
use js_tool_follow::{follow, follow_with};
use js_tool_io::{MemorySink, Source};
use std::alloc::Global;

fn followed_into<S: Source>(
    alloc: Global,
    input: &mut S,
    output: &mut MemorySink,
    wanted: &[u8],
) -> RunOutcome {
    let status = follow(alloc, input, output);
    Ok((status, output.taken() == wanted))
}

fn followed_over<S: Source>(alloc: Global, input: &mut S, wanted: &[u8]) -> RunOutcome {
    followed_into(alloc, input, &mut sink(alloc, NO_FAULTS)?, wanted)
}

// How `follow` with options ends over these lines, and whether it writes just what is wanted.
fn follow_outcome(alloc: Global, options: FollowOptions, text: &str, wanted: &str) -> RunOutcome {
    let bytes = Vec::from_slice(alloc, text.as_bytes())?;
    let mut input = source(alloc, bytes, NO_FAULTS)?;
    let mut output = sink(alloc, NO_FAULTS)?;
    let status = follow_with(alloc, options, &mut input, &mut output);
    Ok((status, output.taken() == wanted.as_bytes()))
}

// How `follow` ends over these lines, and whether it writes just what is wanted.
fn followed(alloc: Global, text: &str, wanted: &str) -> RunOutcome {
    let bytes = Vec::from_slice(alloc, text.as_bytes())?;
    let mut input = source(alloc, bytes, NO_FAULTS)?;
    followed_over(alloc, &mut input, wanted.as_bytes())
}

#[test]
fn each_line_is_answered(rt: HostRuntime) {
    let found = followed(rt.alloc(), GAP, GAP_TEXT);
    same(&rt, "gap", found, Ok((Status::Done, true)));
}

// A message with two headers, behind which three are pending, and the ends of the waits: 35 seconds
// for the pull request, and 30 from an arrival on for the next.
const TOLD: &str =
    r#"{"mode":"pull","start":0,"settings":{},"config":{"deliver_policy":"all"},"info":{"stream_name":"events","name":"c1","created":"2026-01-01T00:00:00Z","config":{"deliver_policy":"all"},"delivered":{"consumer_seq":0,"stream_seq":0},"ack_floor":{"consumer_seq":0,"stream_seq":0},"num_ack_pending":0,"num_redelivered":0,"num_waiting":0,"num_pending":0}}
{"at":10000000000,"arrival":{"inbox":0,"reply":"$JS.ACK.events.c1.1.7.1.1790230470084404000.3","payload":"a","headers":[["x","1"],["y","2"]]}}
{"at":11000000000,"watcher":"ended"}
"#;

const TOLD_TEXT: &str =
    r#"[0,"publish","$JS.API.CONSUMER.MSG.NEXT.events.c1","_INBOX.t.0","{\"batch\":500,\"expires\":30000000000,\"group\":null,\"idle_heartbeat\":15000000000,\"max_bytes\":0,\"min_ack_pending\":null,\"min_pending\":null,\"priority\":null}"]
[0,"wakes",30000000000]
[1,"yield",7,1,"a"]
[1,"details",7,"1790230470084404000",3]
[1,"header",7,"x","1"]
[1,"header",7,"y","2"]
[1,"wakes",35000000000]
[2,"wakes",35000000000]
["end",false,2]
"#;

#[test]
fn options_tell_more(rt: HostRuntime) {
    let options = FollowOptions {
        details: true,
        wakes: true,
    };
    let found = follow_outcome(rt.alloc(), options, TOLD, TOLD_TEXT);
    same(&rt, "details and wakes", found, Ok((Status::Done, true)));
}
