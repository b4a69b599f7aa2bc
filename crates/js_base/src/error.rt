//! Errors of calls, each with a kind and an optional source.

ghost use Rattle.std.specs.Prelude.{◌≡◌, Some, option_map};
ghost use Rattle.std.specs.Option.{option_copied};
ghost use Rattle.js_base.specs.Error.{plain, caused, kind_of, source_of, sent_by_api, parts_of, described, api_text, source_text, printed};

use crate::text::Text;
use std::{error, fmt};

/// The source of an error.
#[derive(Debug, PartialEq, Eq, Drop)]
pub enum Source {
    /// A source that is described by a text only.
    Text(Text),
    /// An error that the server's API sent.
    Api {
        /// The kind of error, as an HTTP status code.
        code: u64,
        /// The number of the error in the server's table of errors, or 0 if the server sent none.
        err_code: u64,
        /// The server's description of the error, if it sent one.
        description: Option<Text>,
    },
}

impl Source {
    // Returns the server's error if it is the source.
    fn api_error(&self) -> Option<ApiError<'_>>
        ensures { option_map parts_of result ≡ sent_by_api (Some self.now) }
    {
        match self {
            Source::Text(_) => None,
            Source::Api {
                code,
                err_code,
                description,
            } => Some(ApiError {
                code: *code,
                err_code: *err_code,
                description: description.as_ref(),
            }),
        }
    }
}

impl fmt::Display for Source {
    ghost output = { λ s. Some (source_text s) };

    fn fmt<W: fmt::Write>(&self, f: &mut fmt::Formatter<W>) -> fmt::Result {
        match self {
            Source::Text(text) => write!(f, "{text}"),
            Source::Api {
                code,
                err_code,
                description,
            } => {
                let error = ApiError {
                    code: *code,
                    err_code: *err_code,
                    description: description.as_ref(),
                };
                write!(f, "{error}")
            }
        }
    }
}

/// An error that the server's API sent.
///
/// It prints its description and its numbers:
/// `stream not found (code 404, error code 10059)`.
/// If it has no description, it prints `unknown` in its place.
#[derive(Clone, Copy, Debug, PartialEq, Eq)]
pub struct ApiError<'a> {
    /// The kind of error, as an HTTP status code.
    pub code: u64,
    /// The number of the error in the server's table of errors, or 0 if the server sent none.
    pub err_code: u64,
    /// The server's description of the error, if it sent one.
    pub description: Option<&'a Text>,
}

impl fmt::Display for ApiError<'_> {
    ghost output = { λ e. Some (api_text e.code e.err_code (option_copied e.description)) };

    fn fmt<W: fmt::Write>(&self, f: &mut fmt::Formatter<W>) -> fmt::Result {
        let description = or_unknown(self.description);
        let code = self.code;
        let err_code = self.err_code;
        write!(f, "{description} (code {code}, error code {err_code})")
    }
}

impl error::Error for ApiError<'_> {}

// Returns the description, or `unknown` if there is none.
fn or_unknown(description: Option<&Text>) -> &str
    ensures { result.now ≡ described (option_copied description.entry) }
{
    match description {
        None => "unknown",
        Some(description) => description.as_str(),
    }
}

/// An error of a call: its kind, and its source if that is known.
///
/// It prints its kind. If it has a source, `: ` and the source follow.
#[derive(Debug, PartialEq, Eq, Drop)]
pub struct Error<K> {
    kind: K,
    source: Option<Source>,
}

impl<K> Error<K> {
    /// Returns an error without a source.
    pub fn new(kind: K) -> Error<K>
        ensures { result ≡ plain kind }
    {
        Error { kind, source: None }
    }

    /// Returns an error with a source.
    pub fn with_source(kind: K, source: Source) -> Error<K>
        ensures { result ≡ caused kind source }
    {
        Error {
            kind,
            source: Some(source),
        }
    }

    /// Returns the kind of the error.
    pub fn kind(&self) -> &K
        ensures { result.now ≡ kind_of self.now }
    {
        &self.kind
    }

    /// Returns the source of the error, or `None` if it has none.
    pub fn source(&self) -> Option<&Source>
        ensures { option_copied result ≡ source_of self.now }
    {
        self.source.as_ref()
    }
}

impl<K> Error<K> {
    /// Returns the error that the server's API sent.
    /// Returns `None` if the error has no source or its source is a text.
    pub fn api_error(&self) -> Option<ApiError<'_>>
        ensures { option_map parts_of result ≡ sent_by_api (source_of self.now) }
    {
        self.source.as_ref()?.api_error()
    }
}

impl<K: fmt::Display> fmt::Display for Error<K> {
    ghost output = { λ e. printed (K.output e.kind) e.source };

    fn fmt<W: fmt::Write>(&self, f: &mut fmt::Formatter<W>) -> fmt::Result {
        let kind = &self.kind;
        match &self.source {
            None => write!(f, "{kind}"),
            Some(source) => write!(f, "{kind}: {source}"),
        }
    }
}

impl<K: fmt::Debug + fmt::Display + Drop> error::Error for Error<K> {}
