//! The requests of the JetStream API.

use crate::answers::account_info;
use crate::server::{Published, TestServer};
use js_base::OutOfMemory;
use std::alloc::Global;

// What a request asks for.
#[derive(Clone, Copy)]
enum Call {
    Account,
    StreamCreate,
    StreamUpdate,
    StreamInfo,
    StreamDelete,
    StreamPurge,
    StreamNames,
    MessageGet,
    DirectGet,
    ConsumerCreate,
    DurableCreate,
    ConsumerInfo,
    ConsumerDelete,
    MessageNext,
}

// The words that each request's subject begins with, after `$JS.API.`.
const CALLS: &[(&str, Call)] = &[
    ("INFO", Call::Account),
    ("STREAM.CREATE.", Call::StreamCreate),
    ("STREAM.UPDATE.", Call::StreamUpdate),
    ("STREAM.INFO.", Call::StreamInfo),
    ("STREAM.DELETE.", Call::StreamDelete),
    ("STREAM.PURGE.", Call::StreamPurge),
    ("STREAM.NAMES", Call::StreamNames),
    ("STREAM.MSG.GET.", Call::MessageGet),
    ("DIRECT.GET.", Call::DirectGet),
    ("CONSUMER.CREATE.", Call::ConsumerCreate),
    ("CONSUMER.DURABLE.CREATE.", Call::DurableCreate),
    ("CONSUMER.INFO.", Call::ConsumerInfo),
    ("CONSUMER.DELETE.", Call::ConsumerDelete),
    ("CONSUMER.MSG.NEXT.", Call::MessageNext),
];

// The call that a subject asks for, and the names after its words.
fn call_of(subject: &str) -> Option<(Call, &str)> {
    for &(words, call) in CALLS {
        if let Some(names) = subject.strip_prefix(words) {
            return Some((call, names));
        }
    }
    None
}

// The first name, and the rest after its dot.
pub(crate) fn split_name(names: &str) -> (&str, &str) {
    names.split_once('.').unwrap_or((names, ""))
}

impl TestServer {
    // Answers a request by the words of its subject after `$JS.API.`.
    pub(crate) fn answer_request(
        &mut self,
        alloc: Global,
        subject: &str,
        published: &Published,
    ) -> Result<(), OutOfMemory> {
        let Some((call, names)) = call_of(subject) else {
            return Ok(());
        };
        match call {
            Call::MessageNext => self.queue_pull(alloc, names, published),
            Call::DirectGet => self.direct_get(alloc, names, published),
            _ => {
                let text = self.answer_text(alloc, call, names, published.payload.as_slice())?;
                self.reply(alloc, published, text)
            }
        }
    }

    fn answer_text(
        &mut self,
        alloc: Global,
        call: Call,
        names: &str,
        body: &[u8],
    ) -> Result<String, OutOfMemory> {
        match call {
            Call::StreamCreate => self.create_stream(alloc, names, body),
            Call::StreamUpdate => self.update_stream(alloc, names, body),
            Call::StreamInfo => self.stream_info(alloc, names),
            Call::StreamDelete => self.delete_stream(alloc, names),
            Call::StreamPurge => self.purge_stream(alloc, names, body),
            Call::StreamNames => self.stream_names(alloc, body),
            Call::MessageGet => self.message_get(alloc, names, body),
            Call::ConsumerCreate | Call::DurableCreate => {
                self.create_consumer(alloc, names, body)
            }
            Call::ConsumerInfo => self.consumer_info(alloc, names),
            Call::ConsumerDelete => self.delete_consumer(alloc, names),
            Call::Account | Call::DirectGet | Call::MessageNext => self.account(alloc),
        }
    }

    fn account(&self, alloc: Global) -> Result<String, OutOfMemory> {
        let mut consumers: usize = 0;
        for stream in self.streams.as_slice() {
            consumers = consumers.saturating_add(stream.consumers.len());
        }
        account_info(alloc, self.streams.len(), consumers)
    }
}
