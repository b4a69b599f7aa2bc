//! The call that looks up a stream, and creates it if it does not exist.
ghost use Rattle.std.specs.Prelude.{◌≡◌, IfOk};
ghost use Rattle.js_call_streams.specs.Create.{lookup_table, lookup, FindsOrCreates, OrCreates};

use crate::create::{CreateStream, create};
use crate::error::{CreateStreamError, api_error, create_failure};
use crate::handle::StreamHandle;
use crate::named_call::call_on;
use crate::refusal::name_refusal;
use crate::source_domains::Placing;
use js_base::{Error, OutOfMemory, Source, Text, TryClone, both};
use js_call::{ApiCall, ApiScope, Call, Failure, IfAbsent, Then};
use js_json::{Response, response_as};
use js_json_members::ReadError;
use js_json_stream_bodies::stream::{Config, Info};
use std::alloc::Global;

/// How the first call of `get_or_create_stream` checks its arguments and reads its answer.
#[derive(Drop)]
pub struct StreamLookup {
    scope: ApiScope,
    name: Text,
}

/// The `get_or_create_stream` call under way.
pub type GetOrCreateStream = Then<Call<StreamLookup>, CreateStream, IfAbsent>;

impl ApiCall for StreamLookup {
    type Reply = Response<Info>;

    type Answer = Result<Option<StreamHandle<Info>>, CreateStreamError>;

    ghost table = { lookup_table };

    fn refusal(&self) -> Option<Result<Option<StreamHandle<Info>>, CreateStreamError>> {
        match name_refusal(self.name.as_str()) {
            None => None,
            Some(kind) => Some(Err(Error::new(kind))),
        }
    }

    fn read(alloc: Global, payload: &[u8]) -> Result<Response<Info>, ReadError> {
        response_as(alloc, payload)
    }

    fn answer(
        self,
        reply: Response<Info>,
    ) -> Result<Option<StreamHandle<Info>>, CreateStreamError> {
        match reply {
            Response::Ok(info) => Ok(Some(StreamHandle {
                scope: self.scope,
                name: self.name,
                info,
                kept: None,
            })),
            Response::Err { error } => {
                drop(self);
                if error.code == 404 {
                    drop(error);
                    Ok(None)
                } else {
                    Err(api_error(error))
                }
            }
        }
    }

    fn failure(
        self,
        failure: Failure,
        source: Source,
    ) -> Result<Option<StreamHandle<Info>>, CreateStreamError> {
        drop(self);
        Err(create_failure(failure, source))
    }
}

// What the first call keeps of its arguments.
fn lookup_row(alloc: Global, scope: &ApiScope, name: &str) -> Result<StreamLookup, OutOfMemory>
    ensures { IfOk result (λ row. row ≡ record { scope = scope.now; name = name.now }) }
{
    let (scope, name) = both(scope.try_clone(), Text::from_str(alloc, name))?;
    Ok(StreamLookup { scope, name })
}

fn lookup_call(
    alloc: Global,
    scope: &ApiScope,
    name: &str,
) -> Result<Call<StreamLookup>, OutOfMemory>
    ensures { IfOk result (λ call. call ≡ lookup scope.now name.now) }
{
    let row = lookup_row(alloc, scope, name)?;
    call_on(alloc, scope, row, "STREAM.INFO", name, b"null")
}

// A first call, and then the one that makes the stream.
fn or_create<A: Drop, C: Placing>(
    alloc: Global,
    scope: &ApiScope,
    first: A,
    config: C,
) -> Result<Then<A, CreateStream, IfAbsent>, OutOfMemory>
    ensures { IfOk result (λ calls. OrCreates first scope.now (C.config config) calls) }
{
    let second = create(alloc, scope, config)?;
    Ok(Then::First {
        first,
        second,
        decision: IfAbsent,
    })
}

fn find_or_create<C: Placing>(
    alloc: Global,
    scope: &ApiScope,
    config: C,
) -> Result<GetOrCreateStream, OutOfMemory>
    ensures { IfOk result (λ calls. FindsOrCreates scope.now (C.config config) calls) }
{
    let first = lookup_call(alloc, scope, config.config().name.as_str())?;
    or_create(alloc, scope, first, config)
}

/// Looks up a stream. If the server answers with code 404, creates it as `create_stream` does, in
/// the same poll. An existing stream is returned as it is, whatever the configuration says.
///
/// Fails with `OutOfMemory` if memory runs out. If the name is invalid, the first poll returns the
/// error, and nothing is sent. The other errors are those of `create_stream`.
pub fn get_or_create_stream(
    alloc: Global,
    scope: &ApiScope,
    config: Config,
) -> Result<GetOrCreateStream, OutOfMemory>
    ensures { IfOk result (λ calls. FindsOrCreates scope.now config calls) }
{
    find_or_create(alloc, scope, config)
}
