//! Why a call on a stream failed.
ghost use Rattle.std.specs.Prelude.{◌≡◌, Some};
ghost use Rattle.std.specs.Option.{option_copied};
ghost use Rattle.js_call_streams.specs.Error.{get_held, create_held, get_text, create_text, create_kind, create_failure, api_error};

use js_base::{Error, Source};
use js_call::{Failure, RequestErrorKind};
use js_codes::{ErrorCode, errors};
use std::fmt;

/// Why a stream could not be looked up or deleted.
#[derive(Debug, PartialEq, Eq, Drop)]
pub enum GetStreamErrorKind {
    /// The name is empty. Nothing was sent.
    EmptyName,
    /// The request got no reply, or its reply cannot be read. The source says which.
    Request,
    /// The name is not a valid stream name. Nothing was sent.
    InvalidStreamName,
    /// The API returned this error.
    JetStream(errors::Error),
    /// Memory ran out in a function that returns its result at once.
    OutOfMemory,
}

/// The error of a stream lookup.
pub type GetStreamError = Error<GetStreamErrorKind>;

/// Why a stream could not be deleted.
pub type DeleteStreamErrorKind = GetStreamErrorKind;

/// The error of a stream deletion.
pub type DeleteStreamError = GetStreamError;

impl GetStreamErrorKind {
    /// Returns the server's error if the kind is `JetStream`. The kind holds it; the source does
    /// not.
    pub fn api_error(&self) -> Option<&errors::Error>
        ensures { option_copied result ≡ get_held self.now }
    {
        match self {
            GetStreamErrorKind::JetStream(error) => Some(error),
            _ => None,
        }
    }
}

impl fmt::Display for GetStreamErrorKind {
    ghost output = { λ kind. Some (get_text kind) };

    fn fmt<W: fmt::Write>(&self, f: &mut fmt::Formatter<W>) -> fmt::Result {
        let text = match self {
            GetStreamErrorKind::EmptyName => "empty name cannot be empty",
            GetStreamErrorKind::Request => "request error",
            GetStreamErrorKind::InvalidStreamName => "invalid stream name",
            GetStreamErrorKind::JetStream(error) => return write!(f, "jetstream error: {error}"),
            GetStreamErrorKind::OutOfMemory => "out of memory",
        };
        f.write_str(text)
    }
}

/// Why a stream could not be created or updated.
#[derive(Debug, PartialEq, Eq, Drop)]
pub enum CreateStreamErrorKind {
    /// The name is empty. Nothing was sent.
    EmptyStreamName,
    /// The name is not a valid stream name, and nothing was sent; or the full subject is invalid.
    InvalidStreamName,
    /// A mirror or a source has both a domain and an external. Nothing was sent.
    DomainAndExternalSet,
    /// The API knows no such stream. The source is the API's error.
    NotFound,
    /// The API returned this error, which is not `NotFound`.
    JetStream(errors::Error),
    /// The timeout expired before an answer came.
    TimedOut,
    /// Nobody answers: JetStream is unavailable.
    JetStreamUnavailable,
    /// Never returned.
    ResponseParse,
    /// The request got no reply for another reason, or its reply cannot be read.
    Response,
}

/// The error of a stream creation.
pub type CreateStreamError = Error<CreateStreamErrorKind>;

/// Why a stream could not be updated.
pub type UpdateStreamErrorKind = CreateStreamErrorKind;

/// The error of a stream update.
pub type UpdateStreamError = CreateStreamError;

impl CreateStreamErrorKind {
    /// Returns the server's error if the kind is `JetStream`. The kind holds it; the source does
    /// not. The server's error for `NotFound` is in the source.
    pub fn api_error(&self) -> Option<&errors::Error>
        ensures { option_copied result ≡ create_held self.now }
    {
        match self {
            CreateStreamErrorKind::JetStream(error) => Some(error),
            _ => None,
        }
    }
}

impl fmt::Display for CreateStreamErrorKind {
    ghost output = { λ kind. Some (create_text kind) };

    fn fmt<W: fmt::Write>(&self, f: &mut fmt::Formatter<W>) -> fmt::Result {
        let text = match self {
            CreateStreamErrorKind::EmptyStreamName => "stream name cannot be empty",
            CreateStreamErrorKind::InvalidStreamName => "stream name cannot contain `.`, `_`",
            CreateStreamErrorKind::DomainAndExternalSet => "domain and external are both set",
            CreateStreamErrorKind::NotFound => "stream not found",
            CreateStreamErrorKind::JetStream(error) => return write!(f, "jetstream error: {error}"),
            CreateStreamErrorKind::TimedOut => "jetstream request timed out",
            CreateStreamErrorKind::JetStreamUnavailable => "jetstream unavailable",
            CreateStreamErrorKind::ResponseParse => "failed to parse server response",
            CreateStreamErrorKind::Response => "response error",
        };
        f.write_str(text)
    }
}

// What a request without a reply means where a stream is made or changed.
fn create_kind(kind: RequestErrorKind) -> CreateStreamErrorKind
    ensures { result ≡ create_kind kind }
{
    match kind {
        RequestErrorKind::NoResponders => CreateStreamErrorKind::JetStreamUnavailable,
        RequestErrorKind::TimedOut => CreateStreamErrorKind::TimedOut,
        RequestErrorKind::InvalidSubject => CreateStreamErrorKind::InvalidStreamName,
        RequestErrorKind::Other => CreateStreamErrorKind::Response,
    }
}

/// Maps a failure to the error of a call that creates or updates a stream.
pub(crate) fn create_failure(failure: Failure, source: Source) -> CreateStreamError
    ensures { result ≡ create_failure failure source }
{
    Error::with_source(create_kind(failure.kind()), source)
}

/// Maps an API error to the error of a call that creates or updates a stream.
pub(crate) fn api_error(error: errors::Error) -> CreateStreamError
    ensures { result ≡ api_error error }
{
    if error.err_code == ErrorCode::STREAM_NOT_FOUND {
        Error::with_source(CreateStreamErrorKind::NotFound, error.into_source())
    } else {
        Error::new(CreateStreamErrorKind::JetStream(error))
    }
}
