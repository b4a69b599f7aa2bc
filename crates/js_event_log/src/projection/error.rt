//! Why an entry was not applied.

ghost use Rattle.std.specs.Prelude.{Some};
ghost use Rattle.js_event_log.specs.ProjectionCauses.{error_text};

use js_base::OutOfMemory;
use std::alloc::AllocError;
use std::{error, fmt};

/// Why an entry was not applied. The projection is unchanged.
#[derive(Clone, Copy, Debug, PartialEq, Eq)]
pub enum ApplyError {
    /// The entry's sequence is not above the one applied last. Prints `the sequence is not above`
    /// and the latter.
    NotRising {
        /// The sequence applied last, or 0 if nothing was applied.
        last: u64,
    },
    /// Memory ran out. Prints `out of memory`.
    OutOfMemory,
}

impl fmt::Display for ApplyError {
    ghost output = { λ error. Some (error_text error) };

    fn fmt<W: fmt::Write>(&self, f: &mut fmt::Formatter<W>) -> fmt::Result {
        match self {
            ApplyError::NotRising { last } => write!(f, "the sequence is not above {last}"),
            ApplyError::OutOfMemory => write!(f, "out of memory"),
        }
    }
}

impl error::Error for ApplyError {}

impl From<AllocError> for ApplyError {
    ghost use Rattle.std.specs.Prelude.{◌≡◌};
    ghost use Rattle.js_event_log.specs.declared.projection.error.ApplyError.TheVariants.{OutOfMemory};

    ghost from_gives = { λ _ error. error ≡ OutOfMemory };

    fn from(_error: AllocError) -> ApplyError {
        ApplyError::OutOfMemory
    }
}

impl From<OutOfMemory> for ApplyError {
    ghost use Rattle.std.specs.Prelude.{◌≡◌};
    ghost use Rattle.js_event_log.specs.declared.projection.error.ApplyError.TheVariants.{OutOfMemory};

    ghost from_gives = { λ _ error. error ≡ OutOfMemory };

    fn from(_error: OutOfMemory) -> ApplyError {
        ApplyError::OutOfMemory
    }
}
