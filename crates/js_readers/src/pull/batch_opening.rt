//! How a batch opens.
ghost use Rattle.std.specs.Prelude.{◌≡◌};
ghost use Rattle.js_readers.specs.Batch.{OpensBatch, batch_fault, batch_timer};

use crate::pull::batch::Batch;
use crate::pull::consumer::{is_pinned, message_timeout};
use crate::pull::error::{BatchError, BatchErrorKind};
use crate::pull::request::{OpenFault, PullRequest};
use js_base::{Error, Moment, Nanos, OutOfMemory, Timer};
use js_call_consumers::PullConsumer;
use js_json::pull::BatchConfig;
use js_link::Link;
use std::alloc::Global;

// Five seconds after the expiry, where there is one.
fn batch_timer(now: Moment, expires: Option<Nanos>) -> Option<Timer>
    ensures { result ≡ batch_timer now expires }
{
    match expires {
        None => None,
        Some(expires) => match expires.checked_add(5_000_000_000) {
            None => None,
            Some(wait) => Some(Timer { set: now, wait }),
        },
    }
}

fn batch_fault(fault: OpenFault) -> BatchErrorKind
    ensures { result ≡ batch_fault fault }
{
    match fault {
        OpenFault::Subscribe => BatchErrorKind::Subscribe,
        OpenFault::Pull => BatchErrorKind::Pull,
        OpenFault::OutOfMemory => BatchErrorKind::OutOfMemory,
    }
}

// Opens an inbox, and asks the consumer for a batch to it. A consumer with pinned clients is refused before that.
pub(crate) fn open_batch<L: Link>(
    alloc: Global,
    link: &mut L,
    now: Moment,
    consumer: &PullConsumer,
    config: &BatchConfig,
) -> Result<Batch, BatchError>
    ensures { OpensBatch result now consumer.now config.now (L.view link.old) (L.view link.new) }
{
    if is_pinned(consumer.config.priority_policy) {
        return Err(Error::new(BatchErrorKind::PinnedClient));
    }
    let request = match PullRequest::of(alloc, consumer, config) {
        Ok(request) => request,
        Err(OutOfMemory) => return Err(Error::new(BatchErrorKind::OutOfMemory)),
    };
    let opened = request.open(alloc, link);
    drop(request);
    match opened {
        Ok(inbox) => {
            let timer = batch_timer(now, config.expires);
            let timeout = message_timeout(&consumer.scope);
            Ok(Batch::new(inbox, config.batch, timer, timeout))
        }
        Err(fault) => Err(Error::new(batch_fault(fault))),
    }
}
