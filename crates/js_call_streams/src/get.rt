//! The calls that look up a stream.
ghost use Rattle.std.specs.Prelude.{◌≡◌, IfOk};
ghost use Rattle.js_call_streams.specs.GetAndDelete.{get_row, getting, got, GivesHandle, handle};

use crate::error::{GetStreamError, GetStreamErrorKind};
use crate::handle::StreamHandle;
use crate::named_call::call_on;
use crate::received_config::ReceivedInfo;
use crate::refusal::get_refusal;
use js_base::{Error, OutOfMemory, Source, Text, TryClone, both};
use js_call::{ApiCall, ApiScope, Call, Failure};
use js_json::{Response, response_as};
use js_json_members::ReadError;
use js_json_stream_bodies::stream::Info;
use std::alloc::Global;

/// How `get_stream` checks its arguments and reads its answer.
#[derive(Drop)]
pub struct GettingStream {
    scope: ApiScope,
    name: Text,
}

/// The `get_stream` call under way.
pub type GetStream = Call<GettingStream>;

impl ApiCall for GettingStream {
    type Reply = Response<ReceivedInfo>;

    type Answer = Result<StreamHandle<Info>, GetStreamError>;

    ghost table = { get_row };

    fn refusal(&self) -> Option<Result<StreamHandle<Info>, GetStreamError>> {
        match get_refusal(self.name.as_str()) {
            None => None,
            Some(kind) => Some(Err(Error::new(kind))),
        }
    }

    fn read(alloc: Global, payload: &[u8]) -> Result<Response<ReceivedInfo>, ReadError> {
        response_as(alloc, payload)
    }

    fn answer(self, reply: Response<ReceivedInfo>) -> Result<StreamHandle<Info>, GetStreamError> {
        match reply {
            Response::Ok(ReceivedInfo { info, config }) => Ok(StreamHandle {
                scope: self.scope,
                name: self.name,
                info,
                kept: Some(config),
            }),
            Response::Err { error } => {
                drop(self);
                Err(Error::new(GetStreamErrorKind::JetStream(error)))
            }
        }
    }

    fn failure(
        self,
        _failure: Failure,
        source: Source,
    ) -> Result<StreamHandle<Info>, GetStreamError> {
        drop(self);
        Err(Error::with_source(GetStreamErrorKind::Request, source))
    }
}

// What the call keeps of its arguments.
fn getting_row(alloc: Global, scope: &ApiScope, name: &str) -> Result<GettingStream, OutOfMemory>
    ensures { IfOk result (λ row. row ≡ record { scope = scope.now; name = name.now }) }
{
    let (scope, name) = both(scope.try_clone(), Text::from_str(alloc, name))?;
    Ok(GettingStream { scope, name })
}

/// Looks up a stream, with what the server reports about it. The handle keeps the configuration
/// exactly as the server sent it, with every member.
///
/// Fails with `OutOfMemory` if memory runs out; the polls return all other errors. The first poll
/// fails with `EmptyName` or `InvalidStreamName` if the name is invalid, and nothing is sent.
/// `JetStream` holds the server's error. `Request` means that the request got no reply or its reply
/// cannot be read. Its source is the text of that error, which tells a timeout from an absent
/// JetStream.
pub fn get_stream(alloc: Global, scope: &ApiScope, name: &str) -> Result<GetStream, OutOfMemory>
    ensures { IfOk result (λ call. call ≡ getting scope.now name.now) }
{
    let row = getting_row(alloc, scope, name)?;
    call_on(alloc, scope, row, "STREAM.INFO", name, b"null")
}

fn bare_handle(alloc: Global, scope: &ApiScope, name: &str) -> Result<StreamHandle<()>, OutOfMemory>
    ensures { IfOk result (λ h. h ≡ handle scope.now name.now) }
{
    let (scope, name) = both(scope.try_clone(), Text::from_str(alloc, name))?;
    Ok(StreamHandle {
        scope,
        name,
        info: (),
        kept: None,
    })
}

/// Returns a handle of the stream with that name, without asking the server whether it exists.
///
/// Fails with `EmptyName` if the name is empty, with `InvalidStreamName` if it is not a valid
/// stream name, and with `OutOfMemory` if memory runs out.
pub fn get_stream_no_info(
    alloc: Global,
    scope: &ApiScope,
    name: &str,
) -> Result<StreamHandle<()>, GetStreamError>
    ensures { GivesHandle result scope.now name.now }
{
    if let Some(kind) = get_refusal(name) {
        return Err(Error::new(kind));
    }
    match bare_handle(alloc, scope, name) {
        Ok(handle) => Ok(handle),
        Err(OutOfMemory) => Err(Error::new(GetStreamErrorKind::OutOfMemory)),
    }
}
