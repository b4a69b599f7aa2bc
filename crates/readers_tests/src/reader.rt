//! What a worker reads by.

use crate::call_text::{Answered, followed, opened, reader_text};
use calls_tests::{Words, word};
use js_base::{Moment, Next, OutOfMemory};
use js_call_consumers::{PullConsumer, PushConsumer};
use js_json::pull::BatchConfig;
use js_link::MemoryLink;
use js_message::Message;
use js_readers::pull::{
    Advance, Batch, BatchBuilder, FetchBuilder, MessagesError, PullCalls, Sequence, Stream,
    StreamBuilder, StreamError,
};
use js_readers::push::{Messages, PushCalls};
use std::alloc::Global;

/// What a worker reads by.
#[derive(Drop)]
pub(crate) enum Reader {
    Nothing,
    Stream(Stream),
    Batch(Batch),
    Sequence(Sequence),
    Messages(Messages),
}

impl From<Stream> for Reader {
    fn from(stream: Stream) -> Reader {
        Reader::Stream(stream)
    }
}

impl From<Batch> for Reader {
    fn from(batch: Batch) -> Reader {
        Reader::Batch(batch)
    }
}

impl From<Sequence> for Reader {
    fn from(sequence: Sequence) -> Reader {
        Reader::Sequence(sequence)
    }
}

impl From<Messages> for Reader {
    fn from(messages: Messages) -> Reader {
        Reader::Messages(messages)
    }
}

/// Its payload, and where it stands in its stream.
impl Answered for Message {
    fn word(&self, alloc: Global) -> Words {
        let payload = String::from_utf8_lossy(alloc, self.message.payload.as_slice())?;
        let words = match self.info() {
            Ok(info) => {
                let sequence = info.stream_sequence;
                let delivered = info.delivered;
                format!(in alloc; "{payload}, sequence {sequence}, delivery {delivered}")
            }
            Err(error) => format!(in alloc; "{payload}, {error}"),
        };
        drop(payload);
        Ok(words?)
    }
}

fn endless(
    alloc: Global,
    consumer: &PullConsumer,
    link: &mut MemoryLink,
) -> Result<Stream, StreamError> {
    consumer
        .stream()
        .max_messages_per_batch(0)
        .expires(0)
        .messages(alloc, link)
}

// A stream of ten messages a request, opened by the scope and the info of its consumer.
fn opened_by_info(
    alloc: Global,
    consumer: &PullConsumer,
    link: &mut MemoryLink,
) -> Result<Stream, StreamError> {
    let batch = BatchConfig {
        batch: 10,
        ..BatchConfig::new()
    };
    Stream::open(alloc, link, &consumer.scope, &consumer.info, batch, false)
}

// A stream for which everything is set.
fn set_stream(alloc: Global, consumer: &PullConsumer) -> Result<StreamBuilder<'_>, OutOfMemory> {
    consumer
        .stream()
        .max_bytes_per_batch(4096)
        .max_messages_per_batch(50)
        .heartbeat(1_000_000_000)
        .expires(9_000_000_000)
        .min_pending(3)
        .min_ack_pending(4)
        .priority(5)
        .group(alloc, "g")
}

// The same of a batch that waits.
fn several(
    alloc: Global,
    consumer: &PullConsumer,
    messages: u64,
) -> Result<BatchBuilder<'_>, OutOfMemory> {
    consumer
        .batch()
        .max_messages(messages)
        .max_bytes(4096)
        .heartbeat(1_000_000_000)
        .expires(9_000_000_000)
        .min_pending(3)
        .min_ack_pending(4)
        .group(alloc, "g")
}

// A batch for which everything is set.
fn set_batch(
    alloc: Global,
    consumer: &PullConsumer,
    messages: u64,
) -> Result<FetchBuilder<'_>, OutOfMemory> {
    consumer
        .fetch()
        .max_messages(messages)
        .max_bytes(4096)
        .heartbeat(1_000_000_000)
        .expires(9_000_000_000)
        .min_pending(3)
        .min_ack_pending(4)
        .priority(5)
        .group(alloc, "g")
}

impl Reader {
    /// Opens a stream: by the defaults, one without bounds, one for which one thing is set, or one for which everything is.
    pub(crate) fn open_stream(
        &mut self,
        alloc: Global,
        consumer: &PullConsumer,
        link: &mut MemoryLink,
        verb: &str,
    ) -> Words {
        match verb {
            "messages" => opened(alloc, self, consumer.messages(alloc, link)),
            "endless" => opened(alloc, self, endless(alloc, consumer, link)),
            "by info" => opened(alloc, self, opened_by_info(alloc, consumer, link)),
            "plain" => opened(alloc, self, consumer.stream().messages(alloc, link)),
            "beating" => {
                let stream = consumer.stream().heartbeat(10_000_000_000);
                opened(alloc, self, stream.messages(alloc, link))
            }
            "unexpiring" => {
                let stream = consumer.stream().expires(0);
                opened(alloc, self, stream.messages(alloc, link))
            }
            _ => {
                let stream = set_stream(alloc, consumer)?;
                opened(alloc, self, stream.messages(alloc, link))
            }
        }
    }

    /// Opens a batch: of what is there, one that waits, or one of either kind for which everything is set.
    pub(crate) fn open_batch(
        &mut self,
        alloc: Global,
        consumer: &PullConsumer,
        link: &mut MemoryLink,
        verb: &str,
        messages: u64,
        now: Moment,
    ) -> Words {
        match verb {
            "fetch" => {
                let batch = consumer.fetch().max_messages(messages);
                opened(alloc, self, batch.messages(alloc, link, now))
            }
            "batch" => {
                let batch = consumer.batch().max_messages(messages);
                opened(alloc, self, batch.messages(alloc, link, now))
            }
            "several" => {
                let batch = several(alloc, consumer, messages)?;
                opened(alloc, self, batch.messages(alloc, link, now))
            }
            _ => {
                let batch = set_batch(alloc, consumer, messages)?;
                opened(alloc, self, batch.messages(alloc, link, now))
            }
        }
    }

    /// Opens a sequence of batches.
    pub(crate) fn open_sequence(
        &mut self,
        alloc: Global,
        consumer: &PullConsumer,
        batch: u64,
    ) -> Words {
        opened(alloc, self, consumer.sequence(alloc, batch))
    }

    /// Opens what a push consumer delivers.
    pub(crate) fn open_messages(
        &mut self,
        alloc: Global,
        consumer: PushConsumer,
        link: &mut MemoryLink,
    ) -> Words {
        opened(alloc, self, consumer.messages(alloc, link))
    }

    /// Polls it. A job that it gives is the last one.
    pub(crate) fn poll(
        &mut self,
        alloc: Global,
        link: &mut MemoryLink,
        last: &mut Option<Message>,
        now: Moment,
    ) -> Words {
        match self {
            Reader::Nothing => word(alloc, "nothing is read"),
            Reader::Stream(stream) => reader_text(alloc, last, stream.poll_next(alloc, link, now)),
            Reader::Batch(batch) => reader_text(alloc, last, batch.poll_next(link, now)),
            Reader::Messages(messages) => reader_text(
                alloc,
                last,
                messages.poll_next(alloc, link, now),
            ),
            Reader::Sequence(sequence) => {
                let next = sequence.poll_next(alloc, link, now);
                followed(alloc, self, next)
            }
        }
    }

    /// Runs the next part of an event of a stream. A job that it gives is the last one.
    pub(crate) fn advance(
        &mut self,
        alloc: Global,
        link: &mut MemoryLink,
        last: &mut Option<Message>,
        now: Moment,
    ) -> Words {
        let Reader::Stream(stream) = self else {
            return word(alloc, "no stream");
        };
        match stream.advance(alloc, link, now, None) {
            Advance::Message(job) => reader_text(
                alloc,
                last,
                Next::Item(Ok::<_, MessagesError>(job)),
            ),
            Advance::Item(error) => reader_text(alloc, last, Next::Item(Err(error))),
            Advance::Closed => word(alloc, "closed"),
            Advance::Done => word(alloc, "over"),
            Advance::OutOfMemory => Err(OutOfMemory),
        }
    }

    /// When it is to be polled where nothing comes for it.
    pub(crate) fn wakes_at(&self) -> Option<Moment> {
        match self {
            Reader::Nothing => None,
            Reader::Stream(stream) => stream.wakes_at(),
            Reader::Batch(batch) => batch.wakes_at(),
            Reader::Sequence(sequence) => sequence.wakes_at(),
            Reader::Messages(messages) => messages.wakes_at(),
        }
    }
}
