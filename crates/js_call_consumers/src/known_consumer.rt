//! Requests on the consumer that an info belongs to.
ghost use Rattle.std.specs.Prelude.{◌≡◌, IfOk};
ghost use Rattle.js_call_consumers.specs.KnownConsumer.{asking_on};

use bytes::Bytes;
use js_base::{OutOfMemory, both, consumer_api_subject};
use js_call::{ApiScope, RawCall};
use js_json::consumer::Info;
use std::alloc::Global;

/// Makes a request on the words of a call and the consumer that `info` belongs to, with this body.
pub(crate) fn request_on(
    alloc: Global,
    scope: &ApiScope,
    words: &str,
    info: &Info,
    body: Bytes,
) -> Result<RawCall, OutOfMemory>
    ensures { IfOk result (λ asked. asked ≡ asking_on scope.now words.now info.now body) }
{
    let subject = consumer_api_subject(alloc, words, info.stream_name.as_str(), info.name.as_str());
    let (body, subject) = both(Ok(body), subject)?;
    let asked = scope.ask(alloc, subject.as_str(), body);
    drop(subject);
    asked
}
