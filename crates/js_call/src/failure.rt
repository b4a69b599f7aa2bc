//! Why a call got no answer from the API, and the text of that failure.
ghost use Rattle.std.specs.Prelude.{◌≡◌, Some, IfOk, string_bytes};
ghost use Rattle.js_call.specs.Failure.{failure_text, request_kind, failure_source};

use crate::error::RequestErrorKind;
use js_base::{OutOfMemory, Source, Text};
use js_json_members::ReadError;
use std::alloc::{AllocError, Global};
use std::fmt;

/// Why a call got no answer from the API. Its `Display` is the text of the error that it holds.
#[derive(Clone, Copy)]
pub enum Failure {
    /// The request got no reply.
    Request(RequestErrorKind),
    /// A reply came and could not be read.
    Read(ReadError),
}

impl Failure {
    /// Returns why the request got no readable reply: `Other` if a reply came and could not be
    /// read.
    pub fn kind(self) -> RequestErrorKind
        ensures { result ≡ request_kind self }
    {
        match self {
            Failure::Request(kind) => kind,
            Failure::Read(_) => RequestErrorKind::Other,
        }
    }

    fn text(self, alloc: Global) -> Result<String, AllocError>
        ensures { IfOk result (λ text. string_bytes text ≡ failure_text self) }
    {
        format!(in alloc; "{self}")
    }

    /// Returns the failure's text as the source of an error. Fails only with `OutOfMemory`.
    pub fn to_source(self, alloc: Global) -> Result<Source, OutOfMemory>
        ensures { IfOk result (λ source. source ≡ failure_source self) }
    {
        Ok(Source::Text(Text::from(self.text(alloc)?)))
    }
}

impl fmt::Display for Failure {
    ghost output = { λ failure. Some (failure_text failure) };

    fn fmt<W: fmt::Write>(&self, f: &mut fmt::Formatter<W>) -> fmt::Result {
        match self {
            Failure::Request(kind) => write!(f, "{kind}"),
            Failure::Read(error) => write!(f, "{error}"),
        }
    }
}
