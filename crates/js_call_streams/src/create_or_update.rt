//! The call that updates a stream, and creates it if it does not exist.
ghost use Rattle.std.specs.Prelude.{◌≡◌, IfOk};
ghost use Rattle.js_call_streams.specs.Update.{create_info_row, creating_info, CreatesInfo, OrCreates, unless_missing, UpdatesOrCreates};

use crate::create::create_request;
use crate::error::{CreateStreamError, CreateStreamErrorKind, create_failure};
use crate::refusal::create_refusal;
use crate::source_domains::{Placing, two_places};
use crate::update::{UpdateStream, update_stream, updated};
use js_base::{Error, OutOfMemory, Source, Text, TryClone, both};
use js_call::{ApiCall, ApiScope, Call, Decision, Failure, Then};
use js_json::{Response, response_as};
use js_json_members::ReadError;
use js_json_stream_bodies::stream::{Config, Info};
use std::alloc::Global;

/// How the second call of `create_or_update_stream` checks its arguments and reads its answer.
#[derive(Drop)]
pub struct CreatingInfo {
    name: Text,
    // Whether the mirror or a source has both a domain and an external.
    two_places: bool,
}

/// The `create_or_update_stream` call under way.
pub type CreateOrUpdateStream = Then<UpdateStream, Call<CreatingInfo>, IfNotFound>;

impl ApiCall for CreatingInfo {
    type Reply = Response<Info>;

    type Answer = Result<Info, CreateStreamError>;

    ghost table = { create_info_row };

    fn refusal(&self) -> Option<Result<Info, CreateStreamError>> {
        match create_refusal(self.name.as_str(), self.two_places) {
            None => None,
            Some(kind) => Some(Err(Error::new(kind))),
        }
    }

    fn read(alloc: Global, payload: &[u8]) -> Result<Response<Info>, ReadError> {
        response_as(alloc, payload)
    }

    fn answer(self, reply: Response<Info>) -> Result<Info, CreateStreamError> {
        drop(self);
        updated(reply)
    }

    fn failure(self, failure: Failure, source: Source) -> Result<Info, CreateStreamError> {
        drop(self);
        Err(create_failure(failure, source))
    }
}

/// Runs the second call if the stream does not exist.
#[derive(Clone, Copy, Drop)]
pub struct IfNotFound;

impl Decision<Result<Info, CreateStreamError>, Result<Info, CreateStreamError>> for IfNotFound {
    ghost decides = { λ _ first. unless_missing first };

    fn decide(
        self,
        first: Result<Info, CreateStreamError>,
    ) -> Option<Result<Info, CreateStreamError>> {
        match first {
            Ok(info) => Some(Ok(info)),
            Err(error) => {
                if let CreateStreamErrorKind::NotFound = error.kind() {
                    drop(error);
                    None
                } else {
                    Some(Err(error))
                }
            }
        }
    }
}

// What the second call keeps of its arguments.
fn creating_info(config: &Config) -> Result<CreatingInfo, OutOfMemory>
    ensures { IfOk result (λ row. row ≡ creating_info config.now) }
{
    Ok(CreatingInfo {
        name: config.name.try_clone()?,
        two_places: two_places(config),
    })
}

fn create_info<C: Placing>(
    alloc: Global,
    scope: &ApiScope,
    config: C,
) -> Result<Call<CreatingInfo>, OutOfMemory>
    ensures { IfOk result (λ call. CreatesInfo scope.now (C.config config) call) }
{
    let row = creating_info(config.config());
    let (row, asked) = both(row, create_request(alloc, scope, config))?;
    Ok(Call::new(row, asked))
}

// A first call, and then the one that makes the stream.
fn or_create<A: Drop, C: Placing>(
    alloc: Global,
    scope: &ApiScope,
    first: A,
    config: C,
) -> Result<Then<A, Call<CreatingInfo>, IfNotFound>, OutOfMemory>
    ensures { IfOk result (λ calls. OrCreates first scope.now (C.config config) calls) }
{
    let second = create_info(alloc, scope, config)?;
    Ok(Then::First {
        first,
        second,
        decision: IfNotFound,
    })
}

fn update_or_create<C: Placing>(
    alloc: Global,
    scope: &ApiScope,
    config: C,
) -> Result<CreateOrUpdateStream, OutOfMemory>
    ensures { IfOk result (λ calls. UpdatesOrCreates scope.now (C.config config) calls) }
{
    let first = update_stream(alloc, scope, config.config())?;
    or_create(alloc, scope, first, config)
}

/// Updates a stream. If the server answers that it does not exist, creates it as `create_stream`
/// does, in the same poll. If it exists, the update resets what `Config` does not name, as
/// `update_stream` does.
///
/// Fails with `OutOfMemory` if memory runs out. If the name is invalid, the first poll returns the
/// error, and nothing is sent. The other errors are those of `update_stream` and then of
/// `create_stream`.
pub fn create_or_update_stream(
    alloc: Global,
    scope: &ApiScope,
    config: Config,
) -> Result<CreateOrUpdateStream, OutOfMemory>
    ensures { IfOk result (λ calls. UpdatesOrCreates scope.now config calls) }
{
    update_or_create(alloc, scope, config)
}
