//! A worker of the queue: what it reads by, and the last job that it was given.

use crate::call_text::{done, outcome};
use crate::pushed::push_consumer;
use crate::reader::Reader;
use crate::renewal::Renewal;
use crate::server::{
    consumer, flow_control, job, limited_consumer, number, reply, stalled, status,
};
use calls_tests::{Words, numbered, word};
use js_base::{Message as Received, OutOfMemory};
use js_call_consumers::PullConsumer;
use js_json::consumer::PriorityPolicy;
use js_json::pull::BatchConfig;
use js_link::{InboxId, Link, MemoryLink, RequestId, Sent};
use js_message::{AckKind, Message};
use js_readers::pull::PullCalls;
use std::alloc::Global;

/// A worker of the queue.
#[derive(Drop)]
pub(crate) struct Worker {
    link: MemoryLink,
    consumer: PullConsumer,
    reader: Reader,
    renewal: Renewal,
    last: Option<Message>,
    shown: usize,
}

/// Does what lines say. What runs it is generic over it, since a worker has many parts, which then need not be looked into.
pub(crate) trait Works: Drop {
    /// Does what a line says, and tells what came of it.
    fn obey(&mut self, alloc: Global, line: &str) -> Words;

    /// What was sent since `note_sent`.
    fn newly_sent(&self) -> &[Sent];

    /// From here on only what is sent later counts as newly sent.
    fn note_sent(&mut self);
}

// The first word of a line, and what stands after it.
fn cut(line: &str) -> (&str, &str) {
    match line.split_once(' ') {
        Some(parts) => parts,
        None => (line, ""),
    }
}

fn delivered(
    alloc: Global,
    link: &mut MemoryLink,
    inbox: u64,
    message: Result<Received, OutOfMemory>,
) -> Words {
    match message {
        Ok(message) => done(alloc, link.deliver(InboxId(inbox), message)),
        Err(OutOfMemory) => Err(OutOfMemory),
    }
}

fn deliver_job(alloc: Global, link: &mut MemoryLink, inbox: u64, rest: &str) -> Words {
    let (sequence, rest) = cut(rest);
    let (times, payload) = cut(rest);
    let message = job(alloc, number(sequence), number(times), payload);
    delivered(alloc, link, inbox, message)
}

fn deliver_status(alloc: Global, link: &mut MemoryLink, inbox: u64, rest: &str) -> Words {
    let (code, description) = cut(rest);
    let code = number(code).min(999) as u16;
    delivered(alloc, link, inbox, status(alloc, code, description))
}

fn answered(alloc: Global, link: &mut MemoryLink, request: u64, rest: &str) -> Words {
    match reply(alloc, rest) {
        Ok(answer) => done(alloc, link.respond(RequestId(request), Some(answer))),
        Err(OutOfMemory) => Err(OutOfMemory),
    }
}

// The server sends something, or its link changes.
fn serve(alloc: Global, link: &mut MemoryLink, verb: &str, rest: &str) -> Words {
    let (first, rest) = cut(rest);
    let number = number(first);
    match verb {
        "job" => deliver_job(alloc, link, number, rest),
        "status" => deliver_status(alloc, link, number, rest),
        "answer" => answered(alloc, link, number, rest),
        "flow" => delivered(alloc, link, number, flow_control(alloc, rest)),
        "stalled" => delivered(alloc, link, number, stalled(alloc, rest)),
        "close" => done(alloc, Ok(link.unsubscribe(InboxId(number)))),
        "down" => done(alloc, Ok(link.set_up(false))),
        "up" => done(alloc, Ok(link.set_up(true))),
        _ => word(alloc, "unknown word"),
    }
}

fn request(alloc: Global, consumer: &PullConsumer, link: &mut MemoryLink, inbox: &str) -> Words {
    let mut config = BatchConfig::new();
    config.batch = 1;
    outcome(alloc, consumer.request_batch(alloc, link, config, inbox))
}

fn acknowledge(
    alloc: Global,
    link: &mut MemoryLink,
    message: &Message,
    verb: &str,
    rest: &str,
) -> Words {
    if verb == "ack" {
        return outcome(alloc, message.ack(alloc, link));
    }
    let kind = AckKind::Nak(Some(number(rest)));
    outcome(alloc, message.ack_with(alloc, link, kind))
}

impl Worker {
    /// A worker that reads by nothing yet, over a link on which nothing was sent.
    pub(crate) fn new(alloc: Global) -> Result<Worker, OutOfMemory> {
        let link = MemoryLink::new(alloc, "_INBOX.t")?;
        match consumer(alloc) {
            Ok(consumer) => Ok(Worker::over(link, consumer)),
            Err(OutOfMemory) => {
                drop(link);
                Err(OutOfMemory)
            }
        }
    }

    fn over(link: MemoryLink, consumer: PullConsumer) -> Worker {
        Worker {
            link,
            consumer,
            reader: Reader::Nothing,
            renewal: Renewal::Nothing,
            last: None,
            shown: 0,
        }
    }

    fn open_stream(&mut self, alloc: Global, verb: &str) -> Words {
        self.reader
            .open_stream(alloc, &self.consumer, &mut self.link, verb)
    }

    fn open_batch(&mut self, alloc: Global, verb: &str, rest: &str) -> Words {
        let (messages, now) = cut(rest);
        let messages = number(messages);
        let now = number(now);
        self.reader
            .open_batch(alloc, &self.consumer, &mut self.link, verb, messages, now)
    }

    fn open_sequence(&mut self, alloc: Global, rest: &str) -> Words {
        self.reader
            .open_sequence(alloc, &self.consumer, number(rest))
    }

    fn open_messages(&mut self, alloc: Global, rest: &str) -> Words {
        let (subject, heartbeat) = cut(rest);
        match push_consumer(alloc, subject, number(heartbeat)) {
            Ok(consumer) => self.reader.open_messages(alloc, consumer, &mut self.link),
            Err(OutOfMemory) => Err(OutOfMemory),
        }
    }

    fn request(&mut self, alloc: Global, inbox: &str) -> Words {
        request(alloc, &self.consumer, &mut self.link, inbox)
    }

    fn poll(&mut self, alloc: Global, rest: &str) -> Words {
        self.reader
            .poll(alloc, &mut self.link, &mut self.last, number(rest))
    }

    fn advance(&mut self, alloc: Global, rest: &str) -> Words {
        self.reader
            .advance(alloc, &mut self.link, &mut self.last, number(rest))
    }

    fn wakes(&self, alloc: Global) -> Words {
        match self.reader.wakes_at() {
            Some(moment) => numbered(alloc, "at", moment),
            None => word(alloc, "never"),
        }
    }

    fn acknowledge(&mut self, alloc: Global, verb: &str, rest: &str) -> Words {
        match &self.last {
            Some(message) => acknowledge(alloc, &mut self.link, message, verb, rest),
            None => word(alloc, "no job"),
        }
    }

    fn renew(&mut self, alloc: Global, verb: &str, rest: &str) -> Words {
        match verb {
            "info" => self.renewal.info(alloc)?,
            "reset" if rest.is_empty() => self.renewal.reset(alloc, None)?,
            "reset" => self.renewal.reset(alloc, Some(number(rest)))?,
            _ => {}
        }
        self.renewal.poll(alloc, &mut self.link)
    }

    // Has the consumer limited to so many messages and so many nanoseconds a request.
    fn limit(&mut self, alloc: Global, rest: &str) -> Words {
        let (batch, expires) = cut(rest);
        match limited_consumer(alloc, number(batch), number(expires)) {
            Ok(consumer) => {
                self.consumer = consumer;
                word(alloc, "done")
            }
            Err(OutOfMemory) => Err(OutOfMemory),
        }
    }

    // Has the clients of the consumer pinned.
    fn pin(&mut self, alloc: Global) -> Words {
        self.consumer.config.priority_policy = PriorityPolicy::PinnedClient;
        word(alloc, "done")
    }

    fn serve(&mut self, alloc: Global, verb: &str, rest: &str) -> Words {
        serve(alloc, &mut self.link, verb, rest)
    }
}

impl Works for Worker {
    fn newly_sent(&self) -> &[Sent] {
        let sent = self.link.sent();
        if self.shown < sent.len() {
            &sent[self.shown..]
        } else {
            &[]
        }
    }

    fn note_sent(&mut self) {
        self.shown = self.link.sent().len();
    }

    fn obey(&mut self, alloc: Global, line: &str) -> Words {
        let (verb, rest) = cut(line);
        match verb {
            "messages" | "stream" | "endless" | "plain" | "beating" | "unexpiring" => {
                self.open_stream(alloc, verb)
            }
            "open" => self.open_stream(alloc, "by info"),
            "advance" => self.advance(alloc, rest),
            "fetch" | "batch" | "few" | "several" => self.open_batch(alloc, verb, rest),
            "sequence" => self.open_sequence(alloc, rest),
            "push" => self.open_messages(alloc, rest),
            "request" => self.request(alloc, rest),
            "poll" => self.poll(alloc, rest),
            "wakes" => self.wakes(alloc),
            "ack" | "nak" => self.acknowledge(alloc, verb, rest),
            "info" | "reset" | "turn" => self.renew(alloc, verb, rest),
            "limits" => self.limit(alloc, rest),
            "pin" => self.pin(alloc),
            _ => self.serve(alloc, verb, rest),
        }
    }
}
