//! Scripts for a worker of a queue, and what it answers and sends.

use crate::sent_text;
use crate::tables::says;
use crate::worker::{Worker, Works};
use calls_tests::Words;
use js_base::OutOfMemory;
use js_link::Sent;
use std::alloc::Global;
use std::process::Abort;

/// A line of a script, and what the worker answers to it; below that, each on a line that begins with `> `, what is sent.
type Row = (&'static str, &'static str);

fn add_sent(alloc: Global, words: &mut String, sent: &Sent) -> Result<(), OutOfMemory> {
    let sent = sent_text::text_of(alloc, sent)?;
    words.push_str("\n> ")?;
    words.push_str(sent.as_str())?;
    Ok(())
}

// The answer, and below it what was sent.
fn with_sent(alloc: Global, answer: String, sent: &[Sent]) -> Words {
    let mut words = answer;
    for sent in sent {
        add_sent(alloc, &mut words, sent)?;
    }
    Ok(words)
}

// What a worker answers to a line, and what is sent.
fn answer_text<W: Works>(alloc: Global, worker: &mut W, line: &str) -> Words {
    let answer = worker.obey(alloc, line)?;
    let words = with_sent(alloc, answer, worker.newly_sent());
    worker.note_sent();
    words
}

// Asserts what a worker answers and sends.
fn says_each<W: Works>(rt: &impl Abort, alloc: Global, worker: &mut W, rows: &[Row]) {
    for &(line, wanted) in rows {
        says(rt, line, answer_text(alloc, worker, line), wanted);
    }
}

// The same of tables that one worker obeys one after the other.
fn works<W: Works>(
    rt: &impl Abort,
    alloc: Global,
    worker: Result<W, OutOfMemory>,
    tables: &[&[Row]],
) {
    let mut worker = worker.expect(rt, "a worker");
    for &rows in tables {
        says_each(rt, alloc, &mut worker, rows);
    }
}

// The same of a new worker.
fn new_one_works(rt: &impl Abort, alloc: Global, tables: &[&[Row]]) {
    works(rt, alloc, Worker::new(alloc), tables);
}

/// Streams of messages: by the defaults, one for which everything is set, and one without bounds.
const STREAMS: &[Row] = &[
    ("messages", "done\n> subscribes to _INBOX.t.0"),
    (
        "poll 0",
        r#"pending
> publishes "{"batch":100,"expires":30000000000,"group":null,"idle_heartbeat":15000000000,"max_bytes":0,"min_ack_pending":null,"min_pending":null,"priority":null}" to $JS.API.CONSUMER.MSG.NEXT.jobs.c1 for _INBOX.t.0"#,
    ),
    ("job 0 1 1 wash", "done"),
    ("poll 1", "wash, sequence 1, delivery 1"),
    (
        "ack",
        r#"done
> publishes "" to $JS.ACK.jobs.c1.1.1.1.0.0"#,
    ),
    ("wakes", "at 0"),
    ("poll 1", "pending"),
    ("wakes", "at 30000000001"),
    ("poll 30000000001", "error: missed idle heartbeat"),
    ("stream", "done\n> subscribes to _INBOX.t.1"),
    (
        "poll 0",
        r#"pending
> publishes "{"batch":50,"expires":9000000000,"group":"g","idle_heartbeat":1000000000,"max_bytes":4096,"min_ack_pending":4,"min_pending":3,"priority":5}" to $JS.API.CONSUMER.MSG.NEXT.jobs.c1 for _INBOX.t.1"#,
    ),
    ("status 1 409 Exceeded MaxRequestBatch of 10", "done"),
    (
        "poll 1",
        "error: pull request exceeded consumer limits: Exceeded MaxRequestBatch of 10",
    ),
    ("poll 2", "end"),
    ("endless", "done\n> subscribes to _INBOX.t.2"),
    (
        "poll 0",
        r#"pending
> publishes "{"batch":0,"expires":0,"group":null,"max_bytes":0,"min_ack_pending":null,"min_pending":null,"priority":null}" to $JS.API.CONSUMER.MSG.NEXT.jobs.c1 for _INBOX.t.2"#,
    ),
    ("poll 5000000000", "pending"),
    ("job 2 2 1 dry", "done"),
    ("poll 5000000001", "dry, sequence 2, delivery 1"),
    (
        "poll 5000000002",
        r#"pending
> publishes "{"batch":0,"expires":0,"group":null,"max_bytes":0,"min_ack_pending":null,"min_pending":null,"priority":null}" to $JS.API.CONSUMER.MSG.NEXT.jobs.c1 for _INBOX.t.2"#,
    ),
];

/// Single batches: of what is there, one for which everything is set, and one that waits. Jobs are acknowledged and refused.
const BATCHES: &[Row] = &[
    (
        "fetch 2 0",
        r#"done
> subscribes to _INBOX.t.3
> publishes "{"batch":2,"group":null,"max_bytes":0,"min_ack_pending":null,"min_pending":null,"no_wait":true,"priority":null}" to $JS.API.CONSUMER.MSG.NEXT.jobs.c1 for _INBOX.t.3"#,
    ),
    ("job 3 3 1 fold", "done"),
    ("job 3 4 1 iron", "done"),
    ("poll 0", "fold, sequence 3, delivery 1"),
    (
        "ack",
        r#"done
> publishes "" to $JS.ACK.jobs.c1.1.3.3.0.0"#,
    ),
    ("poll 0", "iron, sequence 4, delivery 1"),
    (
        "nak 5000000000",
        r#"done
> publishes "-NAK {"delay":5000000000}" to $JS.ACK.jobs.c1.1.4.4.0.0"#,
    ),
    ("poll 0", "end"),
    (
        "fetch 2 5000000000",
        r#"done
> subscribes to _INBOX.t.4
> publishes "{"batch":2,"group":null,"max_bytes":0,"min_ack_pending":null,"min_pending":null,"no_wait":true,"priority":null}" to $JS.API.CONSUMER.MSG.NEXT.jobs.c1 for _INBOX.t.4"#,
    ),
    ("job 4 4 2 iron", "done"),
    ("status 4 404 No Messages", "done"),
    ("poll 5000000000", "iron, sequence 4, delivery 2"),
    (
        "ack",
        r#"done
> publishes "" to $JS.ACK.jobs.c1.2.4.4.0.0"#,
    ),
    ("poll 5000000000", "end"),
    ("poll 5000000000", "end"),
    (
        "few 5 0",
        r#"done
> subscribes to _INBOX.t.5
> publishes "{"batch":5,"expires":9000000000,"group":"g","idle_heartbeat":1000000000,"max_bytes":4096,"min_ack_pending":4,"min_pending":3,"no_wait":true,"priority":5}" to $JS.API.CONSUMER.MSG.NEXT.jobs.c1 for _INBOX.t.5"#,
    ),
    ("wakes", "at 14000000000"),
    ("status 5 100 Idle Heartbeat", "done"),
    ("poll 1", "pending"),
    ("status 5 409 Message Size Exceeds MaxBytes", "done"),
    ("poll 2", "error: 409: Message Size Exceeds MaxBytes"),
    ("poll 3", "end"),
    (
        "batch 2 0",
        r#"done
> subscribes to _INBOX.t.6
> publishes "{"batch":2,"expires":0,"group":null,"max_bytes":0,"min_ack_pending":null,"min_pending":null,"priority":null}" to $JS.API.CONSUMER.MSG.NEXT.jobs.c1 for _INBOX.t.6"#,
    ),
    ("wakes", "at 5000000000"),
    ("poll 4999999999", "pending"),
    ("job 6 5 1 mend", "done"),
    ("poll 5000000000", "mend, sequence 5, delivery 1"),
    ("poll 5000000000", "end"),
    ("wakes", "never"),
];

/// What is asked for by default, as the consumer's limits cut it: no heartbeat but one that is set, and of that half the expiry at most.
const LIMITS: &[Row] = &[
    ("limits 300 120000000000", "done"),
    ("plain", "done\n> subscribes to _INBOX.t.0"),
    (
        "poll 0",
        r#"pending
> publishes "{"batch":200,"expires":30000000000,"group":null,"max_bytes":0,"min_ack_pending":null,"min_pending":null,"priority":null}" to $JS.API.CONSUMER.MSG.NEXT.jobs.c1 for _INBOX.t.0"#,
    ),
    ("limits 0 5000000000", "done"),
    ("beating", "done\n> subscribes to _INBOX.t.1"),
    (
        "poll 0",
        r#"pending
> publishes "{"batch":200,"expires":5000000000,"group":null,"idle_heartbeat":2500000000,"max_bytes":0,"min_ack_pending":null,"min_pending":null,"priority":null}" to $JS.API.CONSUMER.MSG.NEXT.jobs.c1 for _INBOX.t.1"#,
    ),
    ("unexpiring", "done\n> subscribes to _INBOX.t.2"),
    (
        "poll 0",
        r#"pending
> publishes "{"batch":200,"expires":0,"group":null,"max_bytes":0,"min_ack_pending":null,"min_pending":null,"priority":null}" to $JS.API.CONSUMER.MSG.NEXT.jobs.c1 for _INBOX.t.2"#,
    ),
    (
        "several 5 0",
        r#"done
> subscribes to _INBOX.t.3
> publishes "{"batch":5,"expires":9000000000,"group":"g","idle_heartbeat":1000000000,"max_bytes":4096,"min_ack_pending":4,"min_pending":3,"priority":null}" to $JS.API.CONSUMER.MSG.NEXT.jobs.c1 for _INBOX.t.3"#,
    ),
];

/// A sequence of batches.
const SEQUENCES: &[Row] = &[
    ("sequence 2", "done"),
    ("wakes", "at 0"),
    (
        "poll 0",
        r#"a batch
> subscribes to _INBOX.t.7
> publishes "{"batch":2,"expires":60000000000,"group":null,"max_bytes":0,"min_ack_pending":null,"min_pending":null,"priority":null}" to $JS.API.CONSUMER.MSG.NEXT.jobs.c1 for _INBOX.t.7"#,
    ),
    ("status 7 408 Request Timeout", "done"),
    ("poll 1", "end"),
];

/// What is refused while the link is down.
const DOWN: &[Row] = &[
    ("down", "done"),
    ("request _INBOX.t.0", "refused: publish failed"),
    ("fetch 1 0", "refused: subscribe failed"),
    ("messages", "refused: failed"),
    ("sequence 1", "done"),
    ("poll 0", "error: pull request failed"),
    ("up", "done"),
    (
        "request _INBOX.t.0",
        r#"done
> publishes "{"batch":1,"group":null,"max_bytes":0,"min_ack_pending":null,"min_pending":null,"priority":null}" to $JS.API.CONSUMER.MSG.NEXT.jobs.c1 for _INBOX.t.0"#,
    ),
];

/// A consumer whose clients are pinned is read by a stream alone.
const PINNED: &[Row] = &[
    ("pin", "done"),
    (
        "fetch 1 0",
        "refused: pinned client consumers need a pull stream",
    ),
    (
        "batch 1 0",
        "refused: pinned client consumers need a pull stream",
    ),
    (
        "sequence 1",
        "refused: pinned client consumers need a pull stream",
    ),
    ("messages", "done\n> subscribes to _INBOX.t.8"),
];

/// What the server knows of the consumer is asked for, and the consumer is reset.
const RENEWALS: &[Row] = &[
    (
        "info",
        "pending\n> asks $JS.API.CONSUMER.INFO.jobs.c1 with {}",
    ),
    (
        r#"answer 1 {"error":{"code":404,"err_code":10014,"description":"consumer not found"}}"#,
        "done",
    ),
    (
        "turn",
        "consumer not found: consumer not found (code 404, error code 10014); 7 in the cache",
    ),
    (
        "reset 5",
        r#"pending
> asks $JS.API.CONSUMER.RESET.jobs.c1 with {"seq":5}"#,
    ),
    (
        r#"answer 2 {"stream_name":"jobs","name":"c1","created":"2026-01-01T00:00:00Z","config":{"deliver_policy":"all"},"delivered":{"consumer_seq":0,"stream_seq":4},"ack_floor":{"consumer_seq":0,"stream_seq":4},"num_ack_pending":0,"num_redelivered":0,"num_waiting":0,"num_pending":3}"#,
        "done",
    ),
    ("turn", "ready: 3 pending, 3 in the cache"),
    (
        "reset",
        r#"pending
> asks $JS.API.CONSUMER.RESET.jobs.c1 with {"seq":0}"#,
    ),
    (
        r#"answer 3 {"error":{"code":400,"err_code":10204,"description":"invalid reset"}}"#,
        "done",
    ),
    (
        "turn",
        "JetStream error: invalid reset (code 400, error code 10204); 7 in the cache",
    ),
];

/// Jobs that are pushed, with heartbeats and requests of flow control.
const PUSHED: &[Row] = &[
    ("push d.in 5000000000", "done\n> subscribes to d.in in g"),
    ("wakes", "at 0"),
    ("poll 0", "pending"),
    ("wakes", "at 10000000000"),
    ("poll 9999999999", "pending"),
    ("poll 10000000000", "error: missed idle heartbeat"),
    ("poll 10000000000", "pending"),
    ("job 9 6 1 sort", "done"),
    ("status 9 409 Consumer Deleted", "done"),
    ("flow 9 $JS.FC.jobs.c1.x", "done"),
    ("poll 11000000000", "sort, sequence 6, delivery 1"),
    (
        "ack",
        r#"done
> publishes "" to $JS.ACK.jobs.c1.1.6.6.0.0"#,
    ),
    ("wakes", "at 21000000000"),
    (
        "poll 12000000000",
        r#"pending
> publishes "" to $JS.FC.jobs.c1.x"#,
    ),
    ("wakes", "at 22000000000"),
    ("down", "done"),
    ("flow 9 $JS.FC.jobs.c1.y", "done"),
    ("poll 13000000000", "pending"),
    ("up", "done"),
    ("stalled 9 $JS.FC.jobs.c1.y", "done"),
    (
        "poll 14000000000",
        r#"pending
> publishes "" to $JS.FC.jobs.c1.y"#,
    ),
    ("close 9", "done"),
    ("poll 15000000000", "end"),
    ("poll 99000000000", "end"),
    ("wakes", "never"),
];

/// A consumer that delivers to no subject, and one that has no heartbeat.
const SILENT: &[Row] = &[
    ("push - 0", "refused: failed"),
    ("push d.in 0", "done\n> subscribes to d.in in g"),
    ("poll 0", "pending"),
    ("wakes", "never"),
    ("poll 100000000000", "pending"),
    ("down", "done"),
    ("push d.in 0", "refused: failed"),
];

/// A stream that is opened by an info and run part by part: its first event asks, each later one hands out a message and is over.
const PARTS: &[Row] = &[
    ("advance 0", "no stream"),
    ("open", "done\n> subscribes to _INBOX.t.0"),
    (
        "advance 0",
        r#"over
> publishes "{"batch":10,"group":null,"max_bytes":0,"min_ack_pending":null,"min_pending":null,"priority":null}" to $JS.API.CONSUMER.MSG.NEXT.jobs.c1 for _INBOX.t.0"#,
    ),
    ("job 0 1 1 wash", "done"),
    ("advance 1", "wash, sequence 1, delivery 1"),
    ("advance 1", "over"),
    ("advance 2", "over"),
];

// In one test, since each table's inboxes are numbered after those of the tables before it.
#[test]
fn a_worker_reads_streams_batches_sequences_and_what_is_pushed(rt: HostRuntime) {
    let tables = &[STREAMS, BATCHES, SEQUENCES, PINNED, PUSHED];
    new_one_works(&rt, rt.alloc(), tables);
}

#[test]
fn a_link_that_is_down_is_told_of_by_each_call(rt: HostRuntime) {
    new_one_works(&rt, rt.alloc(), &[DOWN]);
}

#[test]
fn limits_cut_what_is_asked_for(rt: HostRuntime) {
    new_one_works(&rt, rt.alloc(), &[LIMITS]);
}

#[test]
fn a_consumer_is_asked_for_anew_and_reset(rt: HostRuntime) {
    new_one_works(&rt, rt.alloc(), &[RENEWALS]);
}

#[test]
fn a_consumer_without_a_heartbeat_is_never_missed(rt: HostRuntime) {
    new_one_works(&rt, rt.alloc(), &[SILENT]);
}

#[test]
fn a_stream_runs_its_events_in_parts(rt: HostRuntime) {
    new_one_works(&rt, rt.alloc(), &[PARTS]);
}
