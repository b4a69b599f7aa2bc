//! What a reader of a push consumer reports in place of a message.
ghost use Rattle.std.specs.Prelude.{Some};
ghost use Rattle.js_readers.specs.PushError.{messages_text};

use js_base::Error;
use std::fmt;

/// What a reader of a push consumer reports in place of a message.
#[derive(Clone, Copy, Debug, PartialEq, Eq)]
pub enum MessagesErrorKind {
    /// Nothing came for twice the configured heartbeat. The reader goes on, and its timer starts
    /// again.
    MissingHeartbeat,
    /// Never returned.
    ConsumerDeleted,
    /// Never returned.
    PullBasedConsumer,
    /// Never returned.
    Other,
}

/// What a reader of a push consumer reports in place of a message, as an error.
pub type MessagesError = Error<MessagesErrorKind>;

impl fmt::Display for MessagesErrorKind {
    ghost output = { λ kind. Some (messages_text kind) };

    fn fmt<W: fmt::Write>(&self, f: &mut fmt::Formatter<W>) -> fmt::Result {
        f.write_str(match self {
            MessagesErrorKind::MissingHeartbeat => "missed idle heartbeat",
            MessagesErrorKind::ConsumerDeleted => "consumer deleted",
            MessagesErrorKind::PullBasedConsumer => "cannot use with pull consumer",
            MessagesErrorKind::Other => "error",
        })
    }
}
