//! What a batch returns in place of a message.
ghost use Rattle.std.specs.Prelude.{◌≡◌, Some};
ghost use Rattle.js_readers.specs.BatchItem.{arrival_of, item_text};

use js_base::{StatusCode, Text};
use std::{error, fmt};

/// What the server says in place of a message: for example status 409 if the consumer was deleted
/// or the request was too large, and 503 if nobody listens. It prints the status, followed by a
/// colon and the description if there is one.
#[derive(Debug, PartialEq, Eq, Drop)]
pub struct BatchItemError {
    pub status: StatusCode,
    pub description: Option<Text>,
}

impl fmt::Display for BatchItemError {
    ghost output = { λ error. Some (item_text error) };

    fn fmt<W: fmt::Write>(&self, f: &mut fmt::Formatter<W>) -> fmt::Result {
        let status = self.status;
        match &self.description {
            None => write!(f, "{status}"),
            Some(description) => write!(f, "{status}: {description}"),
        }
    }
}

impl error::Error for BatchItemError {}

/// What an arrival means to a batch, by its status.
#[derive(Clone, Copy)]
pub(crate) enum ArrivalKind {
    /// One of the stream's messages.
    Delivered,
    Heartbeat,
    /// The request is over: there is no message, or its time is up.
    Over,
    /// The server says something else.
    Refusal(StatusCode),
}

// What an arrival of that status is.
pub(crate) fn arrival_of(status: Option<StatusCode>) -> ArrivalKind
    ensures { result ≡ arrival_of status }
{
    match status {
        None => ArrivalKind::Delivered,
        Some(StatusCode(200)) => ArrivalKind::Delivered,
        Some(StatusCode(100)) => ArrivalKind::Heartbeat,
        Some(StatusCode(404)) => ArrivalKind::Over,
        Some(StatusCode(408)) => ArrivalKind::Over,
        Some(status) => ArrivalKind::Refusal(status),
    }
}
