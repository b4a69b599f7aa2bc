//! Why sessions fail.

ghost use Rattle.std.specs.Prelude.{◌≡◌, Some};
ghost use Rattle.js_event_log_sessions.specs.Error.{error_text, field_text};

use js_base::OutOfMemory;
use js_ordered::{Field, ReplayError};
use std::alloc::AllocError;
use std::{error, fmt};

/// Why sessions fail. Sessions are counted from 1 and checked in order, each by these tests in this
/// order. `OutOfMemory` may come before or after any of them.
#[derive(Clone, Copy, Debug, PartialEq, Eq)]
pub enum SessionsError {
    /// The session has no configured start, or one that is not the bookmark.
    WrongStart {
        session: u64,
        /// The bookmark at which the session has to start.
        next: u64,
    },
    /// The session filters by other subjects than the first one, or its first info names another
    /// stream.
    WrongFilter {
        session: u64,
    },
    /// The session's replay failed for a reason other than memory.
    Replay {
        session: u64,
        error: ReplayError,
    },
    /// The session has committed a yield with the highest possible sequence, after which there is
    /// no bookmark.
    BookmarkEnd {
        session: u64,
    },
    /// Memory ran out.
    OutOfMemory,
}

fn field_text(field: &Field) -> &'static str
    ensures { result.now ≡ field_text field.now }
{
    match field {
        Field::StreamName => "stream name",
        Field::Name => "consumer name",
        Field::ApiPrefix => "API prefix",
        Field::InboxPrefix => "inbox prefix",
        Field::FilterSubject => "filter subject",
        Field::DeliverSubject => "deliver subject",
    }
}

impl fmt::Display for SessionsError {
    ghost output = { λ error. Some (error_text error) };

    fn fmt<W: fmt::Write>(&self, f: &mut fmt::Formatter<W>) -> fmt::Result {
        match self {
            SessionsError::WrongStart { session, next } => {
                write!(f, "session {session} does not start at {next}")
            }
            SessionsError::WrongFilter { session } => {
                write!(
                    f,
                    "session {session} does not read what the first one reads"
                )
            }
            SessionsError::Replay { session, error } => match error {
                ReplayError::NoDeliverSubject => {
                    write!(f, "session {session} has no deliver subject")
                }
                ReplayError::BadSettings { field } => {
                    let field = field_text(field);
                    write!(f, "session {session} has no valid {field}")
                }
                ReplayError::BadEvent { place } => {
                    write!(
                        f,
                        "session {session} has an event before its time at place {place}"
                    )
                }
                ReplayError::SequenceEnd { place } => {
                    write!(
                        f,
                        "session {session} has no sequence to go on from at place {place}"
                    )
                }
                ReplayError::OutOfMemory => write!(f, "out of memory"),
            },
            SessionsError::BookmarkEnd { session } => {
                write!(f, "session {session} commits the last of all sequences")
            }
            SessionsError::OutOfMemory => write!(f, "out of memory"),
        }
    }
}

impl error::Error for SessionsError {}

impl From<OutOfMemory> for SessionsError {
    ghost use Rattle.std.specs.Prelude.{◌≡◌};
    ghost use Rattle.js_event_log_sessions.specs.declared.error.SessionsError.TheVariants.{OutOfMemory};

    ghost from_gives = { λ _ error. error ≡ OutOfMemory };

    fn from(_error: OutOfMemory) -> SessionsError {
        SessionsError::OutOfMemory
    }
}

impl From<AllocError> for SessionsError {
    ghost use Rattle.std.specs.Prelude.{◌≡◌};
    ghost use Rattle.js_event_log_sessions.specs.declared.error.SessionsError.TheVariants.{OutOfMemory};

    ghost from_gives = { λ _ error. error ≡ OutOfMemory };

    fn from(_error: AllocError) -> SessionsError {
        SessionsError::OutOfMemory
    }
}
