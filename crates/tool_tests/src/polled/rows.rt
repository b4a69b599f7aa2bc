//! Transcripts of what ordered consumers meet. None sets its retries, which a polled consumer does not count, or a timeout that is over at once, at which a
//! poll goes on where the replay waits for the next event.

/// What a row shows, its setup, and what happens, an event a line.
pub(crate) struct Row {
    pub name: &'static str,
    pub setup: &'static str,
    pub events: &'static str,
}

/// A consumer by pull.
const PULL: &str =
    r#"{"mode":"pull","start":0,"settings":{},"config":{"deliver_policy":"all"},"info":{"stream_name":"events","name":"c1","created":"2026-01-01T00:00:00Z","config":{"deliver_policy":"all"},"delivered":{"consumer_seq":0,"stream_seq":0},"ack_floor":{"consumer_seq":0,"stream_seq":0},"num_ack_pending":0,"num_redelivered":0,"num_waiting":0,"num_pending":0}}"#;

/// A consumer by push.
const PUSH: &str =
    r#"{"mode":"push","start":0,"settings":{},"config":{"deliver_policy":"all","deliver_subject":"d.in"},"info":{"stream_name":"events","name":"c1","created":"2026-01-01T00:00:00Z","config":{"deliver_policy":"all","deliver_subject":"d.in"},"delivered":{"consumer_seq":0,"stream_seq":0},"ack_floor":{"consumer_seq":0,"stream_seq":0},"num_ack_pending":0,"num_redelivered":0,"num_waiting":0,"num_pending":0}}"#;

/// What is printed of the limit that the server tells of in the rows: its description stands at the end.
pub(crate) const LIMIT: &str =
    "pull request exceeded consumer limits: Exceeded MaxRequestBatch of 100";

/// The rows.
pub(crate) const ROWS: &[Row] = &[
    Row {
        name: "in order",
        setup: PULL,
        events: r#"{"at":1,"arrival":{"inbox":0,"reply":"$JS.ACK.events.c1.1.1.1.1790230470084404000.0","payload":"a"}}
{"at":2,"arrival":{"inbox":0,"reply":"$JS.ACK.events.c1.1.2.2.1790230470084404000.0","payload":"b"}}"#,
    },
    Row {
        name: "a gap",
        setup: PULL,
        events: r#"{"at":1,"arrival":{"inbox":0,"reply":"$JS.ACK.events.c1.1.1.1.1790230470084404000.0","payload":"a"}}
{"at":2,"arrival":{"inbox":0,"reply":"$JS.ACK.events.c1.1.2.2.1790230470084404000.0","payload":"b"}}
{"at":3,"arrival":{"inbox":0,"reply":"$JS.ACK.events.c1.1.4.4.1790230470084404000.0","payload":"d"}}
{"at":4,"answer":{"request":1,"payload":{"success":true}}}
{"at":5,"answer":{"request":2,"payload":{"stream_name":"events","name":"c1_1","created":"2026-01-01T00:00:00Z","config":{"deliver_policy":"all"},"delivered":{"consumer_seq":0,"stream_seq":0},"ack_floor":{"consumer_seq":0,"stream_seq":0},"num_ack_pending":0,"num_redelivered":0,"num_waiting":0,"num_pending":0}}}"#,
    },
    Row {
        name: "no heartbeats",
        setup: PULL,
        events: r#"{"at":30000000000}
{"at":35000000000}
{"at":60000000000}"#,
    },
    Row {
        name: "push: silence",
        setup: PUSH,
        events: r#"{"at":10000000000}"#,
    },
    Row {
        name: "push: a gap, and what comes before its answer",
        setup: PUSH,
        events: r#"{"at":1,"arrival":{"inbox":0,"reply":"$JS.ACK.events.c1.1.1.1.1790230470084404000.0","payload":"a"}}
{"at":2,"arrival":{"inbox":0,"reply":"$JS.ACK.events.c1.1.3.3.1790230470084404000.0","payload":"c"}}
{"at":3,"answer":{"request":1,"payload":{"success":true}}}
{"at":4,"arrival":{"inbox":1,"reply":"$JS.ACK.events.c1.1.2.1.1790230470084404000.0","payload":"b"}}
{"at":5,"answer":{"request":2,"payload":{"stream_name":"events","name":"c1_1","created":"2026-01-01T00:00:00Z","config":{"deliver_policy":"all","deliver_subject":"d.in"},"delivered":{"consumer_seq":0,"stream_seq":0},"ack_floor":{"consumer_seq":0,"stream_seq":0},"num_ack_pending":0,"num_redelivered":0,"num_waiting":0,"num_pending":0}}}"#,
    },
    Row {
        name: "push: flow control after a loss",
        setup: PUSH,
        events: r#"{"at":1,"arrival":{"inbox":0,"reply":"$JS.ACK.events.c1.1.1.1.1790230470084404000.0","payload":"a"}}
{"at":2,"arrival":{"inbox":0,"status":100,"headers":[["Nats-Last-Consumer","2"]],"reply":"$JS.FC.x"}}"#,
    },
    Row {
        name: "a refused batch, twice",
        setup: PULL,
        events: r#"{"at":1,"arrival":{"inbox":0,"status":409,"description":"Exceeded MaxRequestBatch of 100"}}
{"at":2,"answer":{"request":1,"payload":{"success":true}}}
{"at":3,"answer":{"request":2,"payload":{"stream_name":"events","name":"c1_1","created":"2026-01-01T00:00:00Z","config":{"deliver_policy":"all"},"delivered":{"consumer_seq":0,"stream_seq":0},"ack_floor":{"consumer_seq":0,"stream_seq":0},"num_ack_pending":0,"num_redelivered":0,"num_waiting":0,"num_pending":0}}}
{"at":4,"arrival":{"inbox":1,"status":409,"description":"Exceeded MaxRequestBatch of 100"}}"#,
    },
    Row {
        name: "a message of the old consumer",
        setup: PULL,
        events: r#"{"at":1,"arrival":{"inbox":0,"reply":"$JS.ACK.events.c1.1.1.1.1790230470084404000.0","payload":"a"}}
{"at":2,"arrival":{"inbox":0,"reply":"$JS.ACK.events.c1.1.2.2.1790230470084404000.0","payload":"b"}}
{"at":3,"arrival":{"inbox":0,"reply":"$JS.ACK.events.c1.1.4.4.1790230470084404000.0","payload":"d"}}
{"at":4,"answer":{"request":1,"payload":{"success":true}}}
{"at":5,"answer":{"request":2,"payload":{"stream_name":"events","name":"c1_1","created":"2026-01-01T00:00:00Z","config":{"deliver_policy":"all"},"delivered":{"consumer_seq":0,"stream_seq":0},"ack_floor":{"consumer_seq":0,"stream_seq":0},"num_ack_pending":0,"num_redelivered":0,"num_waiting":0,"num_pending":0}}}
{"at":6,"arrival":{"inbox":0,"reply":"$JS.ACK.events.c1.1.3.3.1790230470084404000.0","payload":"c"}}"#,
    },
    Row {
        name: "a connection that comes back",
        setup: PULL,
        events: r#"{"at":1,"connection":"disconnected"}
{"at":2,"connection":"connected"}
{"at":3,"answer":{"request":1,"payload":{"stream_name":"events","name":"c1","created":"2026-01-01T00:00:00Z","config":{"deliver_policy":"all"},"delivered":{"consumer_seq":0,"stream_seq":0},"ack_floor":{"consumer_seq":0,"stream_seq":0},"num_ack_pending":0,"num_redelivered":0,"num_waiting":0,"num_pending":0}}}"#,
    },
    Row {
        name: "push: the end of the watcher",
        setup: PUSH,
        events: r#"{"at":1,"watcher":"ended"}"#,
    },
    Row {
        name: "the info is asked for six times in vain",
        setup: PULL,
        events: r#"{"at":0,"connection":"disconnected"}
{"at":0,"link":"closed"}
{"at":0,"connection":"connected"}
{"at":500000000}
{"at":1500000000}
{"at":3000000000}
{"at":5000000000}
{"at":15000000000}"#,
    },
    Row {
        name: "a consumer that was deleted",
        setup: PULL,
        events: r#"{"at":1,"arrival":{"inbox":0,"status":423,"description":"Consumer Deleted"}}"#,
    },
    Row {
        name: "an error as the answer to a recreation",
        setup: PULL,
        events: r#"{"at":1,"arrival":{"inbox":0,"reply":"$JS.ACK.events.c1.1.1.1.1790230470084404000.0","payload":"a"}}
{"at":2,"arrival":{"inbox":0,"reply":"$JS.ACK.events.c1.1.2.2.1790230470084404000.0","payload":"b"}}
{"at":3,"arrival":{"inbox":0,"reply":"$JS.ACK.events.c1.1.4.4.1790230470084404000.0","payload":"d"}}
{"at":4,"answer":{"request":1,"payload":{"success":true}}}
{"at":5,"answer":{"request":2,"payload":{"error":{"code":404}}}}"#,
    },
    Row {
        name: "push: a connection that comes back",
        setup: PUSH,
        events: r#"{"at":1,"connection":"disconnected"}
{"at":2,"answer":{"request":1,"payload":{"success":true}}}
{"at":3,"connection":"connected"}
{"at":4,"answer":{"request":2,"payload":{"stream_name":"events","name":"c1_1","created":"2026-01-01T00:00:00Z","config":{"deliver_policy":"all","deliver_subject":"d.in"},"delivered":{"consumer_seq":0,"stream_seq":0},"ack_floor":{"consumer_seq":0,"stream_seq":0},"num_ack_pending":0,"num_redelivered":0,"num_waiting":0,"num_pending":0}}}"#,
    },
];
