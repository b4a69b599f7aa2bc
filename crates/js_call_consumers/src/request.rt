//! Requests on one consumer of a stream.
ghost use Rattle.std.specs.Prelude.{◌≡◌, IfOk, codes};
ghost use Rattle.js_call.specs.Call.{calling};
ghost use Rattle.js_call.specs.Scope.{asking};
ghost use Rattle.js_base.specs.ApiSubject.{consumer_api_subject};

use bytes::Bytes;
use js_base::{OutOfMemory, with_word};
use js_call::{ApiCall, ApiScope, Call, RawCall};
use std::alloc::Global;

/// Makes a request on the words of a call, for example `CONSUMER.INFO`, and a consumer of a stream.
/// Its body is an empty object.
pub(crate) fn consumer_request(
    alloc: Global,
    scope: &ApiScope,
    words: &str,
    stream: &str,
    consumer: &str,
) -> Result<RawCall, OutOfMemory>
    ensures { IfOk result (λ call. call ≡ asking scope.now (consumer_api_subject words.now stream.now consumer.now) (codes "{}")) }
{
    let on_stream = with_word(alloc, words, stream)?;
    let body = Bytes::from_static(b"{}");
    let asked = scope.ask_named(alloc, on_stream.as_str(), consumer, body);
    drop(on_stream);
    asked
}

/// Makes a call with the request of `consumer_request`. It is generic over the call's type, so that
/// it does not open that type.
pub(crate) fn call_on<M: ApiCall>(
    alloc: Global,
    scope: &ApiScope,
    row: M,
    words: &str,
    stream: &str,
    consumer: &str,
) -> Result<Call<M>, OutOfMemory>
    ensures { IfOk result (λ call. call ≡ calling row (asking scope.now (consumer_api_subject words.now stream.now consumer.now) (codes "{}"))) }
{
    let asked = consumer_request(alloc, scope, words, stream, consumer)?;
    Ok(Call::new(row, asked))
}
