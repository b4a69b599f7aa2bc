//! What a worker returns in place of a message.
ghost use Rattle.js_readers_worker.specs.Error.{error_text};

use js_message::AckError;
use std::{error, fmt};

/// What a worker returns in place of a message.
#[derive(Debug, PartialEq, Eq, Drop)]
pub enum WorkerError<E> {
    /// An error of the subscription that it reads.
    Subscription(E),
    /// The link did not send that the message is still being worked on, for this reason.
    Ack(AckError),
}

impl<E: fmt::Display> fmt::Display for WorkerError<E> {
    ghost output = { λ error. error_text E.output error };

    fn fmt<W: fmt::Write>(&self, f: &mut fmt::Formatter<W>) -> fmt::Result {
        match self {
            WorkerError::Subscription(error) => write!(f, "{error}"),
            WorkerError::Ack(error) => write!(f, "{error}"),
        }
    }
}

impl<E: fmt::Debug + fmt::Display + Drop> error::Error for WorkerError<E> {}
