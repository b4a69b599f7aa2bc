//! The call that resets a consumer.
ghost use Rattle.std.specs.Prelude.{◌≡◌, ◌++◌, IfOk, codes, string_bytes};
ghost use Rattle.std.specs.Fmt.{decimal};
ghost use Rattle.js_call_consumers.specs.Reset.{reset_row, was_reset, reset_body};

use crate::info_pair::InfoCopies;
use crate::renewal::renewed;
use crate::{Consumer, ConsumerError, ConsumerErrorKind, CreateKind};
use bytes::Bytes;
use js_base::{Error, OutOfMemory, Source};
use js_call::{ApiCall, Call, Failure};
use js_json::consumer::Info;
use js_json::{Response, response_as};
use js_json_members::ReadError;
use std::alloc::Global;

/// The error of a consumer's reset. `JetStream` holds the server's error. `TimedOut` means that the
/// timeout expired, and `Request` that the request got no reply for another reason or its reply
/// cannot be read. The other kinds are never returned.
pub type ConsumerResetError = ConsumerError;

/// How `reset` reads its answer. It keeps the consumer.
#[derive(Drop)]
pub struct ResettingConsumer<T> {
    pub(crate) consumer: Consumer<T>,
}

/// The `reset` call under way. It returns the consumer, and what the server knows of it after the
/// reset.
pub type Reset<T> = Call<ResettingConsumer<T>>;

impl<T: Drop> ApiCall for ResettingConsumer<T> {
    type Reply = Response<InfoCopies>;

    type Answer = (Consumer<T>, Result<Info, ConsumerResetError>);

    ghost table = { reset_row };

    fn refusal(&self) -> Option<(Consumer<T>, Result<Info, ConsumerResetError>)> {
        None
    }

    fn read(alloc: Global, payload: &[u8]) -> Result<Response<InfoCopies>, ReadError> {
        response_as(alloc, payload)
    }

    fn answer(self, reply: Response<InfoCopies>) -> (Consumer<T>, Result<Info, ConsumerResetError>)
        ensures { result ≡ was_reset self.consumer reply }
    {
        match reply {
            Response::Ok(copies) => renewed(self.consumer, Ok(copies)),
            Response::Err { error } => (self.consumer, Err(ConsumerErrorKind::of_api(error))),
        }
    }

    fn failure(
        self,
        failure: Failure,
        source: Source,
    ) -> (Consumer<T>, Result<Info, ConsumerResetError>) {
        let kind = ConsumerErrorKind::of_request(failure.kind());
        (self.consumer, Err(Error::with_source(kind, source)))
    }
}

fn reset_text(alloc: Global, sequence: u64) -> Result<String, OutOfMemory>
    ensures { IfOk result (λ text. string_bytes text ≡ codes "{\"seq\":" ++ (decimal sequence ++ codes "}")) }
{
    Ok(format!(in alloc; "{{\"seq\":{sequence}}}")?)
}

/// Returns the body that names the sequence from which a consumer continues; 0 if `seq` is none.
pub(crate) fn reset_body(alloc: Global, seq: Option<u64>) -> Result<Bytes, OutOfMemory>
    ensures { IfOk result (λ body. body ≡ reset_body seq) }
{
    Ok(Bytes::from_string(reset_text(alloc, seq.unwrap_or(0))?)?)
}
