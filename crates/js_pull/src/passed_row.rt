//! What a passed row reports, and the row that follows it.
ghost use Rattle.std.specs.Prelude.{◌≡◌, Some};

use crate::reader::MessagesErrorKind;
use crate::rows::{Due, Notice};

/// What a passed row reports, and the row that follows it.
#[derive(Clone, Copy)]
pub struct PassedRow {
    pub told: Notice,
    /// The row that follows at once. `Answered` reads the reply that was met, which is `None` if
    /// the replier is gone.
    pub next: Option<Due>,
}

// A row that tells nothing.
pub(crate) fn silent_row(next: Option<Due>) -> PassedRow
    ensures { result ≡ record { told = Notice.Nothing; next = next } }
{
    PassedRow {
        told: Notice::Nothing,
        next,
    }
}

// A row that tells an error.
pub(crate) fn tells(kind: MessagesErrorKind, next: Option<Due>) -> PassedRow
    ensures { result ≡ record { told = Notice.Tells kind; next = next } }
{
    PassedRow {
        told: Notice::Tells(kind),
        next,
    }
}

// An arrival was heard, after which the threshold is looked at.
pub(crate) fn heard(told: Notice) -> PassedRow
    ensures { result ≡ record { told = told; next = Some Due.Threshold } }
{
    PassedRow {
        told,
        next: Some(Due::Threshold),
    }
}
