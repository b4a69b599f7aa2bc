//! A link with a limit that refuses a pull request, and not the subscription before it.

use crate::call_text::opened;
use crate::reader::Reader;
use crate::server::consumer;
use crate::tables::says;
use calls_tests::Words;
use js_base::OutOfMemory;
use js_call_consumers::PullConsumer;
use js_link::LinkError;
use js_link_outbox::OutboxLink;
use js_readers::pull::PullCalls;
use std::alloc::Global;

// A link that sends at most so many bytes at a time.
fn limited(alloc: Global, max_payload: u64) -> Result<OutboxLink, LinkError> {
    let mut link = OutboxLink::new(alloc, "_INBOX", "t")?;
    link.set_max_payload(max_payload);
    link.set_request_timeout(None);
    Ok(link)
}

fn asked(alloc: Global, consumer: &PullConsumer, link: &mut OutboxLink) -> Words {
    let mut reader = Reader::Nothing;
    let batch = consumer.batch().messages(alloc, link, 0);
    opened(alloc, &mut reader, batch)
}

fn asked_over(alloc: Global, consumer: Result<PullConsumer, OutOfMemory>) -> Words {
    match (consumer, limited(alloc, 10)) {
        (Ok(consumer), Ok(mut link)) => asked(alloc, &consumer, &mut link),
        _ => Err(OutOfMemory),
    }
}

#[test]
fn a_pull_request_may_be_too_long(rt: HostRuntime) {
    let found = asked_over(rt.alloc(), consumer(rt.alloc()));
    says(&rt, "asked", found, "refused: pull request failed");
}
