//! The calls of a consumer that return it together with their answer.
ghost use Rattle.std.specs.Prelude.{◌≡◌, IfErr, IfOk};
ghost use Rattle.js_call_consumers.specs.declared.consumer.Consumer.{Consumer};
ghost use Rattle.js_call_consumers.specs.Refresh.{refresh_request, refreshing};
ghost use Rattle.js_call_consumers.specs.Reset.{reset_request, resetting};

use crate::Consumer;
use crate::known_consumer::request_on;
use crate::refresh::{InfoCall, RefreshingConsumer};
use crate::reset::{Reset, ResettingConsumer, reset_body};
use bytes::Bytes;
use js_base::OutOfMemory;
use js_call::{Call, RawCall};
use std::alloc::{AllocFailed, Global};

/// The calls of a consumer that ask the server again and keep what it reports.
///
/// Each call takes the consumer and returns it with its answer: with the new info on success, and
/// unchanged on any error. If memory runs out before the call is made, the consumer comes back in
/// `AllocFailed`, and nothing was sent.
pub trait ConsumerCalls<T: Drop> {
    /// The consumer that the call is about.
    ghost known: { Self → Consumer T };

    /// Asks the server what it knows of the consumer. Fails with `AllocFailed`, which holds the
    /// consumer, if memory runs out. The polls return the errors of `get_info`.
    fn info(self, alloc: Global) -> Result<InfoCall<T>, AllocFailed<Consumer<T>>>
        ensures asks { IfOk result (λ call. call ≡ refreshing (known self)) }
        ensures back { IfErr result (λ refused. refused.value ≡ known self) };

    /// Resets the consumer, so that it continues with the message of sequence `seq` of the stream.
    /// Without `seq`, the request says 0, which leaves the position to the server.
    ///
    /// Fails with `AllocFailed`, which holds the consumer, if memory runs out; the polls return all
    /// other errors. A server without this call does not answer: the error is `Request` or
    /// `TimedOut`. If the consumer may not go to that sequence, the error is `JetStream` with error
    /// code 10204.
    fn reset(self, alloc: Global, seq: Option<u64>) -> Result<Reset<T>, AllocFailed<Consumer<T>>>
        ensures asks { IfOk result (λ call. call ≡ resetting seq (known self)) }
        ensures back { IfErr result (λ refused. refused.value ≡ known self) };
}

// The request of `info`.
fn info_request<T>(alloc: Global, consumer: &Consumer<T>) -> Result<RawCall, OutOfMemory>
    ensures { IfOk result (λ asked. asked ≡ refresh_request consumer.now) }
{
    let body = Bytes::from_static(b"{}");
    request_on(
        alloc,
        &consumer.scope,
        "CONSUMER.INFO",
        &consumer.info,
        body,
    )
}

// The request of `reset`.
fn reset_request<T>(
    alloc: Global,
    consumer: &Consumer<T>,
    seq: Option<u64>,
) -> Result<RawCall, OutOfMemory>
    ensures { IfOk result (λ asked. asked ≡ reset_request seq consumer.now) }
{
    let body = reset_body(alloc, seq)?;
    request_on(
        alloc,
        &consumer.scope,
        "CONSUMER.RESET",
        &consumer.info,
        body,
    )
}

impl<T: Drop> ConsumerCalls<T> for Consumer<T> {
    ghost known = { λ consumer. consumer };

    fn info(self, alloc: Global) -> Result<InfoCall<T>, AllocFailed<Consumer<T>>> {
        match info_request(alloc, &self) {
            Ok(asked) => Ok(Call::new(RefreshingConsumer { consumer: self }, asked)),
            Err(OutOfMemory) => Err(AllocFailed { value: self }),
        }
    }

    fn reset(self, alloc: Global, seq: Option<u64>) -> Result<Reset<T>, AllocFailed<Consumer<T>>> {
        match reset_request(alloc, &self, seq) {
            Ok(asked) => Ok(Call::new(ResettingConsumer { consumer: self }, asked)),
            Err(OutOfMemory) => Err(AllocFailed { value: self }),
        }
    }
}
