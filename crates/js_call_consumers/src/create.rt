//! How the calls that create and update consumers read their answers.
ghost use Rattle.std.specs.Prelude.{◌≡◌};
ghost use Rattle.js_call_consumers.specs.Create.{create_row, created};

use crate::consumer::Consumer;
use crate::consumer_answer::ConsumerAnswer;
use crate::create_kind::CreateKind;
use js_base::{Error, Source};
use js_call::{ApiCall, ApiScope, Failure};
use js_json::consumer::FromConsumer;
use js_json::{Response, response_as};
use js_json_members::ReadError;
use std::alloc::Global;
use std::marker::PhantomData;

/// How the calls that create or update a consumer read their answers. `K` is the type of the error
/// kinds.
#[derive(Drop)]
pub struct CreatingConsumer<C, K> {
    scope: ApiScope,
    of: PhantomData<(C, K)>,
}

impl<C, K> CreatingConsumer<C, K> {
    /// Makes this part of a call that uses the scope.
    pub(crate) fn new(scope: ApiScope) -> CreatingConsumer<C, K>
        ensures { result ≡ record { scope = scope; of = record {} } }
    {
        CreatingConsumer {
            scope,
            of: PhantomData,
        }
    }
}

impl<C: FromConsumer, K: CreateKind> ApiCall for CreatingConsumer<C, K> {
    type Reply = Response<ConsumerAnswer<C>>;

    type Answer = Result<Consumer<C>, Error<K>>;

    ghost table = { create_row C.of_config K.kinds };

    fn refusal(&self) -> Option<Result<Consumer<C>, Error<K>>> {
        None
    }

    fn read(alloc: Global, payload: &[u8]) -> Result<Response<ConsumerAnswer<C>>, ReadError> {
        response_as(alloc, payload)
    }

    fn answer(self, reply: Response<ConsumerAnswer<C>>) -> Result<Consumer<C>, Error<K>>
        ensures { result ≡ created K.kinds self reply }
    {
        match reply {
            Response::Ok(told) => told.into_consumer(self.scope, K::other()),
            Response::Err { error } => {
                drop(self);
                Err(K::of_api(error))
            }
        }
    }

    fn failure(self, failure: Failure, source: Source) -> Result<Consumer<C>, Error<K>> {
        drop(self);
        Err(Error::with_source(K::of_request(failure.kind()), source))
    }
}
