//! The call that asks what the server knows of a consumer, and keeps the answer.
ghost use Rattle.std.specs.Prelude.{◌≡◌};
ghost use Rattle.js_call_consumers.specs.Refresh.{refresh_row, refreshed};

use crate::info_pair::InfoCopies;
use crate::renewal::renewed;
use crate::{AskingInfo, Consumer, ConsumerInfoError};
use js_base::Source;
use js_call::{ApiCall, Call, Failure};
use js_json::consumer::Info;
use js_json::{Response, response_as};
use js_json_members::ReadError;
use std::alloc::Global;

/// How `info` reads its answer. It keeps the consumer.
#[derive(Drop)]
pub struct RefreshingConsumer<T> {
    pub(crate) consumer: Consumer<T>,
}

/// The `info` call under way. It returns the consumer, and the answer of `get_info`.
pub type InfoCall<T> = Call<RefreshingConsumer<T>>;

impl<T: Drop> ApiCall for RefreshingConsumer<T> {
    type Reply = Response<InfoCopies>;

    type Answer = (Consumer<T>, Result<Info, ConsumerInfoError>);

    ghost table = { refresh_row };

    fn refusal(&self) -> Option<(Consumer<T>, Result<Info, ConsumerInfoError>)> {
        None
    }

    fn read(alloc: Global, payload: &[u8]) -> Result<Response<InfoCopies>, ReadError> {
        response_as(alloc, payload)
    }

    fn answer(self, reply: Response<InfoCopies>) -> (Consumer<T>, Result<Info, ConsumerInfoError>)
        ensures { result ≡ refreshed self.consumer reply }
    {
        match reply {
            Response::Ok(copies) => renewed(self.consumer, Ok(copies)),
            Response::Err { error } => (self.consumer, AskingInfo.answer(Response::Err { error })),
        }
    }

    fn failure(
        self,
        failure: Failure,
        source: Source,
    ) -> (Consumer<T>, Result<Info, ConsumerInfoError>) {
        (self.consumer, AskingInfo.failure(failure, source))
    }
}
