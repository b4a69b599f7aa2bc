//! The request for one page of a list.
ghost use Rattle.std.specs.Prelude.{◌≡◌, Ok, IfOk};
ghost use Rattle.js_json_members.specs.Rows.{text_of};
ghost use Rattle.js_call_streams.specs.Page.{page_row, page_in, AsksPage};

use crate::list_error::{StreamsError, StreamsErrorKind};
use crate::list_item::ListItem;
use crate::request_body::written;
use bytes::Bytes;
use js_base::{Error, OutOfMemory, Source};
use js_call::{ApiCall, ApiScope, Call, Failure};
use js_json::{Response, response_as};
use js_json_members::ReadError;
use js_json_stream_bodies::stream::Page;
use std::alloc::Global;
use std::marker::PhantomData;

/// How the request for a page reads its answer.
#[derive(Drop)]
pub struct AskingPage<T> {
    of: PhantomData<T>,
}

impl<T: ListItem> ApiCall for AskingPage<T> {
    type Reply = Response<Page<T>>;

    type Answer = Result<Page<T>, StreamsError>;

    ghost table = { page_row T.reads };

    fn refusal(&self) -> Option<Result<Page<T>, StreamsError>> {
        None
    }

    fn read(alloc: Global, payload: &[u8]) -> Result<Response<Page<T>>, ReadError> {
        response_as(alloc, payload)
    }

    fn answer(self, reply: Response<Page<T>>) -> Result<Page<T>, StreamsError>
        ensures { result ≡ page_in reply }
    {
        match reply {
            Response::Ok(page) => Ok(page),
            Response::Err { error } => {
                Err(Error::with_source(StreamsErrorKind::Other, error.into_source()))
            }
        }
    }

    fn failure(self, _failure: Failure, source: Source) -> Result<Page<T>, StreamsError> {
        Err(Error::with_source(StreamsErrorKind::Other, source))
    }
}

// The body of the request for the page that begins at an offset.
fn page_body<T: ListItem>(alloc: Global, offset: u64) -> Result<Bytes, OutOfMemory>
    ensures { IfOk result (λ body. text_of (T.list.request offset) ≡ Ok body) }
{
    let text = written(T::request_text(alloc, offset))?;
    Ok(Bytes::from_string(text)?)
}

/// Makes the request for the page that begins at an offset. Fails only with `OutOfMemory`.
pub(crate) fn page_call<T: ListItem>(
    alloc: Global,
    scope: &ApiScope,
    offset: u64,
) -> Result<Call<AskingPage<T>>, OutOfMemory>
    ensures { IfOk result (λ call. AsksPage T.list scope.now offset call) }
{
    let body = page_body::<T>(alloc, offset)?;
    let asked = scope.ask(alloc, T::words(), body)?;
    Ok(Call::new(AskingPage { of: PhantomData }, asked))
}
