//! The call that creates a stream.
ghost use Rattle.std.specs.Prelude.{◌≡◌, IfOk};
ghost use Rattle.js_call_streams.specs.Create.{create_row, creating_stream, AsksToCreate, AsksWith, Creates, IsTextOf};

use crate::error::{CreateStreamError, api_error, create_failure};
use crate::handle::StreamHandle;
use crate::refusal::create_refusal;
use crate::request_body::body_of;
use crate::source_domains::{Placing, two_places};
use bytes::Bytes;
use js_base::{Error, OutOfMemory, Source, Text, TryClone, both};
use js_call::{ApiCall, ApiScope, Call, Failure, RawCall};
use js_json::{Response, response_as};
use js_json_members::ReadError;
use js_json_stream_bodies::stream::{Config, Info};
use std::alloc::Global;

/// How `create_stream` checks its arguments and reads its answer, with what it keeps of the
/// arguments.
#[derive(Drop)]
pub struct CreatingStream {
    scope: ApiScope,
    name: Text,
    // Whether the mirror or a source has both a domain and an external.
    two_places: bool,
}

/// The `create_stream` call under way.
pub type CreateStream = Call<CreatingStream>;

impl ApiCall for CreatingStream {
    type Reply = Response<Info>;

    type Answer = Result<StreamHandle<Info>, CreateStreamError>;

    ghost table = { create_row };

    fn refusal(&self) -> Option<Result<StreamHandle<Info>, CreateStreamError>> {
        match create_refusal(self.name.as_str(), self.two_places) {
            None => None,
            Some(kind) => Some(Err(Error::new(kind))),
        }
    }

    fn read(alloc: Global, payload: &[u8]) -> Result<Response<Info>, ReadError> {
        response_as(alloc, payload)
    }

    fn answer(self, reply: Response<Info>) -> Result<StreamHandle<Info>, CreateStreamError> {
        match reply {
            Response::Ok(info) => Ok(StreamHandle {
                scope: self.scope,
                name: self.name,
                info,
                kept: None,
            }),
            Response::Err { error } => {
                drop(self);
                Err(api_error(error))
            }
        }
    }

    fn failure(
        self,
        failure: Failure,
        source: Source,
    ) -> Result<StreamHandle<Info>, CreateStreamError> {
        drop(self);
        Err(create_failure(failure, source))
    }
}

/// The text of a configuration.
#[tactic(auto, using(crate::proofs::HasText::config_written))]
pub(crate) fn config_body(alloc: Global, config: &Config) -> Result<Bytes, OutOfMemory>
    ensures { IfOk result (λ body. IsTextOf config.now body) }
{
    body_of(alloc, config)
}

/// Makes a request on the words of a call and the configuration's name, with the configuration as
/// its body.
pub(crate) fn config_request(
    alloc: Global,
    scope: &ApiScope,
    words: &str,
    config: &Config,
) -> Result<RawCall, OutOfMemory>
    ensures { IfOk result (λ asked. AsksWith scope.now words.now config.now asked) }
{
    let body = config_body(alloc, config)?;
    scope.ask_named(alloc, words, config.name.as_str(), body)
}

/// Makes the request that creates a stream. In its configuration, each mirror or source that has
/// only a domain gets the domain's API as its external.
pub(crate) fn create_request<C: Placing>(
    alloc: Global,
    scope: &ApiScope,
    config: C,
) -> Result<RawCall, OutOfMemory>
    ensures { IfOk result (λ asked. AsksToCreate scope.now (C.config config) asked) }
{
    let mut there = config;
    there.place_all(alloc)?;
    config_request(alloc, scope, "STREAM.CREATE", there.config())
}

// What the call keeps of its arguments.
fn creating_stream(scope: &ApiScope, config: &Config) -> Result<CreatingStream, OutOfMemory>
    ensures { IfOk result (λ row. row ≡ creating_stream scope.now config.now) }
{
    let (scope, name) = both(scope.try_clone(), config.name.try_clone())?;
    Ok(CreatingStream {
        scope,
        name,
        two_places: two_places(config),
    })
}

/// Makes the call that creates a stream with this configuration.
pub(crate) fn create<C: Placing>(
    alloc: Global,
    scope: &ApiScope,
    config: C,
) -> Result<CreateStream, OutOfMemory>
    ensures { IfOk result (λ call. Creates scope.now (C.config config) call) }
{
    let row = creating_stream(scope, config.config());
    let (row, asked) = both(row, create_request(alloc, scope, config))?;
    Ok(Call::new(row, asked))
}

/// Creates a stream and returns a handle of it. A mirror or source that has only a domain gets the
/// domain's API as its external.
///
/// If a stream with that name and configuration exists, the server returns it. If its configuration
/// differs, the call fails with `JetStream`.
///
/// Fails with `OutOfMemory` if memory runs out; the polls return all other errors. The first poll
/// fails with `EmptyStreamName`, `InvalidStreamName` or `DomainAndExternalSet` if the arguments are
/// invalid, and nothing is sent. The other errors are those of `update_stream`.
pub fn create_stream(
    alloc: Global,
    scope: &ApiScope,
    config: Config,
) -> Result<CreateStream, OutOfMemory>
    ensures { IfOk result (λ call. Creates scope.now config call) }
{
    create(alloc, scope, config)
}
