//! The errors of opening a stream, opening a batch, and sending a pull request.
ghost use Rattle.std.specs.Prelude.{◌≡◌, Some};
ghost use Rattle.js_readers.specs.PullError.{batch_text, request_text, stream_text};
ghost use Rattle.js_readers.specs.Stream.{stream_error_kind};

use js_base::Error;
use js_link::LinkError;
use std::fmt;

/// Why no stream of messages was opened.
#[derive(Clone, Copy, Debug, PartialEq, Eq)]
pub enum StreamErrorKind {
    /// Never returned.
    TimedOut,
    /// The link failed to open an inbox. Nothing was sent.
    Other,
    /// Memory ran out. Nothing was sent.
    OutOfMemory,
}

/// Why no stream of messages was opened, as an error.
pub type StreamError = Error<StreamErrorKind>;

impl fmt::Display for StreamErrorKind {
    ghost output = { λ kind. Some (stream_text kind) };

    fn fmt<W: fmt::Write>(&self, f: &mut fmt::Formatter<W>) -> fmt::Result {
        f.write_str(match self {
            StreamErrorKind::TimedOut => "timed out",
            StreamErrorKind::Other => "failed",
            StreamErrorKind::OutOfMemory => "out of memory",
        })
    }
}

/// Returns why nothing was opened, if the link refused the subscription with `error`.
pub fn stream_error_kind(error: LinkError) -> StreamErrorKind
    ensures { result ≡ stream_error_kind error }
{
    match error {
        LinkError::Failed => StreamErrorKind::Other,
        LinkError::OutOfMemory => StreamErrorKind::OutOfMemory,
    }
}

/// Why no batch was opened.
#[derive(Clone, Copy, Debug, PartialEq, Eq)]
pub enum BatchErrorKind {
    /// The link failed to open an inbox. Nothing was sent.
    Subscribe,
    /// The link failed to send the request. The inbox that was opened for the batch is closed
    /// again.
    Pull,
    /// Never returned.
    Flush,
    /// Never returned.
    Serialize,
    /// The consumer pins one of its clients, and only a stream tells the server which client it is.
    /// Nothing was sent.
    PinnedClient,
    /// Memory ran out. No request was sent, and no inbox stays open.
    OutOfMemory,
}

/// Why no batch was opened, as an error.
pub type BatchError = Error<BatchErrorKind>;

impl fmt::Display for BatchErrorKind {
    ghost output = { λ kind. Some (batch_text kind) };

    fn fmt<W: fmt::Write>(&self, f: &mut fmt::Formatter<W>) -> fmt::Result {
        f.write_str(match self {
            BatchErrorKind::Subscribe => "subscribe failed",
            BatchErrorKind::Pull => "pull request failed",
            BatchErrorKind::Flush => "flush failed",
            BatchErrorKind::Serialize => "serialize failed",
            BatchErrorKind::PinnedClient => "pinned client consumers need a pull stream",
            BatchErrorKind::OutOfMemory => "out of memory",
        })
    }
}

/// Why a pull request was not sent.
#[derive(Clone, Copy, Debug, PartialEq, Eq)]
pub enum BatchRequestErrorKind {
    /// The link failed. Nothing was sent.
    Publish,
    /// Never returned.
    Flush,
    /// Never returned.
    Serialize,
    /// Memory ran out. Nothing was sent.
    OutOfMemory,
}

/// Why a pull request was not sent, as an error.
pub type BatchRequestError = Error<BatchRequestErrorKind>;

impl fmt::Display for BatchRequestErrorKind {
    ghost output = { λ kind. Some (request_text kind) };

    fn fmt<W: fmt::Write>(&self, f: &mut fmt::Formatter<W>) -> fmt::Result {
        f.write_str(match self {
            BatchRequestErrorKind::Publish => "publish failed",
            BatchRequestErrorKind::Flush => "flush failed",
            BatchRequestErrorKind::Serialize => "serialize failed",
            BatchRequestErrorKind::OutOfMemory => "out of memory",
        })
    }
}
