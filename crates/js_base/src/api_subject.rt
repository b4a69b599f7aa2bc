//! The subjects of JetStream API requests on a consumer, without the API prefix.
//!
//! A subject begins with the words of a call: `CONSUMER.INFO`, `CONSUMER.DELETE`,
//! `CONSUMER.MSG.NEXT` or `CONSUMER.CREATE`. The names of the stream and the consumer follow. If
//! the consumer reads one subject only, the create request also names that subject. A server can
//! then permit the request by its subject. The NATS documentation lists these subjects under
//! "JetStream API reference".

ghost use Rattle.std.specs.Prelude.{◌≡◌, IfOk, string_bytes};
ghost use Rattle.js_base.specs.ApiSubject.{under, consumer_api_subject, named_subject};

use std::alloc::{AllocError, Global};

/// Returns `words`, a dot and `word`.
/// Fails with `AllocError` if memory runs out.
pub fn with_word(alloc: Global, words: &str, word: &str) -> Result<String, AllocError>
    ensures { IfOk result (λ text. string_bytes text ≡ under words.now word.now) }
{
    format!(in alloc; "{words}.{word}")
}

/// Returns the subject of a request on a consumer of a stream.
/// `words` are those of the call, such as `CONSUMER.INFO`. Fails with `AllocError` if memory runs
/// out.
pub fn consumer_api_subject(
    alloc: Global,
    words: &str,
    stream: &str,
    consumer: &str,
) -> Result<String, AllocError>
    ensures { IfOk result (λ text. string_bytes text ≡ consumer_api_subject words.now stream.now consumer.now) }
{
    let on_stream = with_word(alloc, words, stream)?;
    with_word(alloc, on_stream.as_str(), consumer)
}

/// Returns the subject of a request that names a consumer and the one subject that it reads.
/// `words` come first, then `name`, then `filter`. Pass an empty `filter` if the consumer reads all
/// subjects or several; the subject then ends with `name`. Fails with `AllocError` if memory runs
/// out.
pub fn named_subject(
    alloc: Global,
    words: &str,
    name: &str,
    filter: &str,
) -> Result<String, AllocError>
    ensures { IfOk result (λ text. string_bytes text ≡ named_subject words.now name.now filter.now) }
{
    let named = with_word(alloc, words, name)?;
    if filter.is_empty() {
        return Ok(named);
    }
    with_word(alloc, named.as_str(), filter)
}
