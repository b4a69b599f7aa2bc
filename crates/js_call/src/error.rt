//! Why a request got no reply, and why a request was not sent.
ghost use Rattle.std.specs.Prelude.{◌≡◌, Some};
ghost use Rattle.js_call.specs.Texts.{request_text, send_text};
ghost use Rattle.js_call.specs.declared.error.SendError.TheVariants.{OutOfMemory as memory};

use js_base::Error;
use std::alloc::AllocError;
use std::{error, fmt};

/// Why a request got no reply.
#[derive(Clone, Copy, Debug, PartialEq, Eq)]
pub enum RequestErrorKind {
    /// The timeout expired before an answer came.
    TimedOut,
    /// The link failed, the body is longer than the link can send, the replier is gone, or the
    /// reply cannot be read.
    Other,
    /// The full subject is invalid. Nothing was sent.
    InvalidSubject,
    /// Nobody listens on the subject: the reply has status 503.
    NoResponders,
}

impl fmt::Display for RequestErrorKind {
    ghost output = { λ kind. Some (request_text kind) };

    fn fmt<W: fmt::Write>(&self, f: &mut fmt::Formatter<W>) -> fmt::Result {
        f.write_str(match self {
            RequestErrorKind::TimedOut => "timed out",
            RequestErrorKind::Other => "request failed",
            RequestErrorKind::InvalidSubject => "invalid subject",
            RequestErrorKind::NoResponders => "requested JetStream resource does not exist",
        })
    }
}

/// The error of a request that got no reply.
pub type RequestError = Error<RequestErrorKind>;

/// Why `send_request` sent nothing.
#[derive(Clone, Copy, Debug, PartialEq, Eq)]
pub enum SendError {
    /// The link failed.
    LinkFailed,
    /// Memory ran out.
    OutOfMemory,
}

impl fmt::Display for SendError {
    ghost output = { λ error. Some (send_text error) };

    fn fmt<W: fmt::Write>(&self, f: &mut fmt::Formatter<W>) -> fmt::Result {
        f.write_str(match self {
            SendError::LinkFailed => "link failed",
            SendError::OutOfMemory => "out of memory",
        })
    }
}

impl error::Error for SendError {}

impl From<AllocError> for SendError {
    ghost from_gives = { λ _ e. e ≡ memory };

    fn from(_e: AllocError) -> SendError {
        SendError::OutOfMemory
    }
}
