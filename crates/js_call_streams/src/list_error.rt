//! Why a list does not continue, and why no stream was found.
ghost use Rattle.std.specs.Prelude.{◌≡◌, Some};
ghost use Rattle.js_call_streams.specs.Find.{find_text};

use js_base::Error;
use js_call::{RequestError, RequestErrorKind};
use js_codes::errors;
use std::fmt;

/// The error of a list page that could not be fetched. The kind is always `Other`. The source is
/// the text of the request's or the reply's error, or the server's error.
pub type StreamsError = RequestError;

/// Why a page of a list could not be fetched.
pub type StreamsErrorKind = RequestErrorKind;

/// Why no stream was found for a subject.
#[derive(Debug, PartialEq, Eq, Drop)]
pub enum GetStreamByNameErrorKind {
    /// The request got no reply, the API returned an error, or the reply cannot be read. The source
    /// says which.
    Request,
    /// No stream stores the subject.
    NotFound,
    /// The subject is invalid. Nothing was sent.
    InvalidSubject,
    /// Never returned.
    JetStream(errors::Error),
}

/// The error of a search for a stream by subject.
pub type GetStreamByNameError = Error<GetStreamByNameErrorKind>;

impl fmt::Display for GetStreamByNameErrorKind {
    ghost output = { λ kind. Some (find_text kind) };

    fn fmt<W: fmt::Write>(&self, f: &mut fmt::Formatter<W>) -> fmt::Result {
        let text = match self {
            GetStreamByNameErrorKind::Request => "request error",
            GetStreamByNameErrorKind::NotFound => "stream not found",
            GetStreamByNameErrorKind::InvalidSubject => "invalid subject",
            GetStreamByNameErrorKind::JetStream(error) => return write!(
                f,
                "jetstream error: {error}"
            ),
        };
        f.write_str(text)
    }
}
