//! Why a message was not sent, or not stored.
ghost use Rattle.std.specs.Prelude.{◌≡◌, Some};
ghost use Rattle.js_context.specs.PublishError.{kind_of, publish_text, refusal_by};

use js_base::Error;
use js_codes::{ErrorCode, errors};
use std::fmt;

/// Why a message was not sent, or not stored.
#[derive(Clone, Copy, Debug, PartialEq, Eq)]
pub enum PublishErrorKind {
    /// No stream stores messages of the subject.
    StreamNotFound,
    /// No answer came before the ack's timeout.
    TimedOut,
    /// The subject is invalid or the link failed, and nothing was sent. Or the server refused the
    /// message for another reason, or its answer cannot be read.
    Other,
    /// The server can no longer answer.
    BrokenPipe,
    /// The stream's last message has a different id than expected.
    WrongLastMessageId,
    /// The last message of the stream, or of the subject, has a different sequence than expected.
    WrongLastSequence,
    /// No permit was free, and backpressure is off. Nothing was sent.
    MaxAckPending,
    /// Payload and headers are longer than the link sends. Nothing was sent.
    MaxPayloadExceeded,
}

/// Why a message was not sent, or not stored, as an error. Its source is the server's error if that
/// is the reason.
pub type PublishError = Error<PublishErrorKind>;

impl fmt::Display for PublishErrorKind {
    ghost output = { λ kind. Some (publish_text kind) };

    fn fmt<W: fmt::Write>(&self, f: &mut fmt::Formatter<W>) -> fmt::Result {
        f.write_str(match self {
            PublishErrorKind::StreamNotFound => "no stream found for given subject",
            PublishErrorKind::TimedOut => "timed out: didn't receive ack in time",
            PublishErrorKind::Other => "publish failed",
            PublishErrorKind::BrokenPipe => "broken pipe",
            PublishErrorKind::WrongLastMessageId => "wrong last message id",
            PublishErrorKind::WrongLastSequence => "wrong last sequence",
            PublishErrorKind::MaxAckPending => "max ack pending reached",
            PublishErrorKind::MaxPayloadExceeded => "max payload size exceeded",
        })
    }
}

fn kind_of(code: ErrorCode) -> PublishErrorKind
    ensures { result ≡ kind_of code.0 }
{
    if code == ErrorCode::STREAM_WRONG_LAST_MESSAGE_ID {
        PublishErrorKind::WrongLastMessageId
    } else if code == ErrorCode::STREAM_WRONG_LAST_SEQUENCE
        || code == ErrorCode::STREAM_WRONG_LAST_SEQUENCE_CONSTANT
    {
        PublishErrorKind::WrongLastSequence
    } else {
        PublishErrorKind::Other
    }
}

/// Returns the server's error as a publish error.
pub(crate) fn refusal_by(error: errors::Error) -> PublishError
    ensures { result ≡ refusal_by error }
{
    Error::with_source(kind_of(error.err_code), error.into_source())
}
