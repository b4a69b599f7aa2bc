//! The call that finds the stream that stores a subject.
ghost use Rattle.std.specs.Prelude.{◌≡◌, Ok, IfOk};
ghost use Rattle.js_json_members.specs.Rows.{text_of};
ghost use Rattle.js_call_streams.specs.Find.{lookup_table, find_refusal, found, Finds, finding_request};

use crate::list_error::{GetStreamByNameError, GetStreamByNameErrorKind};
use crate::page_rest::first_of;
use crate::request_body::body_of;
use bytes::Bytes;
use js_base::{Error, OutOfMemory, Source, Text, both, is_valid_subject};
use js_call::{ApiCall, ApiScope, Call, Failure};
use js_json::{Response, response_as};
use js_json_members::ReadError;
use js_json_stream_bodies::stream::{NamesRequest, Page};
use std::alloc::Global;

/// How `stream_by_subject` checks its arguments and reads its answer.
#[derive(Drop)]
pub struct SearchingStream {
    subject: Text,
}

/// The `stream_by_subject` call under way.
pub type StreamBySubject = Call<SearchingStream>;

// What a subject is refused with.
fn find_refusal(subject: &str) -> Option<GetStreamByNameErrorKind>
    ensures { result ≡ find_refusal subject.now }
{
    if is_valid_subject(subject) {
        None
    } else {
        Some(GetStreamByNameErrorKind::InvalidSubject)
    }
}

impl ApiCall for SearchingStream {
    type Reply = Response<Page<Text>>;

    type Answer = Result<Text, GetStreamByNameError>;

    ghost table = { lookup_table };

    fn refusal(&self) -> Option<Result<Text, GetStreamByNameError>> {
        match find_refusal(self.subject.as_str()) {
            None => None,
            Some(kind) => Some(Err(Error::new(kind))),
        }
    }

    fn read(alloc: Global, payload: &[u8]) -> Result<Response<Page<Text>>, ReadError> {
        response_as(alloc, payload)
    }

    fn answer(self, reply: Response<Page<Text>>) -> Result<Text, GetStreamByNameError> {
        drop(self);
        match reply {
            Response::Ok(page) => match first_of(page.streams) {
                Some(name) => Ok(name),
                None => Err(Error::new(GetStreamByNameErrorKind::NotFound)),
            },
            Response::Err { error } => Err(Error::with_source(
                GetStreamByNameErrorKind::Request,
                error.into_source(),
            )),
        }
    }

    fn failure(self, _failure: Failure, source: Source) -> Result<Text, GetStreamByNameError> {
        drop(self);
        Err(Error::with_source(GetStreamByNameErrorKind::Request, source))
    }
}

// The body of the request for the first page of the names of streams that store a subject.
#[tactic(auto, using(crate::proofs::HasText::names_request_written))]
fn find_body(alloc: Global, subject: &str) -> Result<Bytes, OutOfMemory>
    ensures { IfOk result (λ body. text_of (finding_request subject.now) ≡ Ok body) }
{
    let request = NamesRequest {
        offset: 0,
        subject: Some(Text::from_str(alloc, subject)?),
    };
    let body = body_of(alloc, &request);
    drop(request);
    body
}

/// Finds the name of the stream that stores a subject: the first item of the list of such streams.
///
/// Fails with `OutOfMemory` if memory runs out; the polls return all other errors. The first poll
/// fails with `InvalidSubject` if the subject is invalid, and nothing is sent. `NotFound` means
/// that no stream stores the subject. The source of `Request` is the server's error, or the text of
/// the request's or the reply's error.
pub fn stream_by_subject(
    alloc: Global,
    scope: &ApiScope,
    subject: &str,
) -> Result<StreamBySubject, OutOfMemory>
    ensures { IfOk result (λ call. Finds scope.now subject.now call) }
{
    let body = find_body(alloc, subject)?;
    let asked = scope.ask(alloc, "STREAM.NAMES", body);
    let (subject, asked) = both(Text::from_str(alloc, subject), asked)?;
    Ok(Call::new(SearchingStream { subject }, asked))
}
