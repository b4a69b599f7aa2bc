//! Why a call of a mirror failed.

ghost use Rattle.std.specs.Prelude.{Some};
ghost use Rattle.js_event_log.specs.MirrorCauses.{error_text};

use js_base::OutOfMemory;
use std::alloc::AllocError;
use std::{error, fmt};

/// Why a call of a mirror failed. The mirror is unchanged.
#[derive(Clone, Copy, Debug, PartialEq, Eq)]
pub enum MirrorError {
    /// The entry's sequence is not above the last one. Prints `the sequence is not above` and the
    /// latter.
    NotRising {
        /// The sequence of the last entry, or the start minus one if the mirror is empty.
        last: u64,
    },
    /// The mirrors have different starts. Prints `the mirrors start at`, the first, `and`, and the
    /// other.
    StartDiffers {
        /// The start of the mirror.
        start: u64,
        /// The start of the other one.
        other: u64,
    },
    /// The mirrors have different entries at one sequence. Prints `the mirrors differ at` and the
    /// sequence.
    Conflict {
        /// The least sequence at which the two have different entries.
        sequence: u64,
    },
    /// Memory ran out. Prints `out of memory`.
    OutOfMemory,
}

impl fmt::Display for MirrorError {
    ghost output = { λ error. Some (error_text error) };

    fn fmt<W: fmt::Write>(&self, f: &mut fmt::Formatter<W>) -> fmt::Result {
        match self {
            MirrorError::NotRising { last } => write!(f, "the sequence is not above {last}"),
            MirrorError::StartDiffers { start, other } => write!(
                f,
                "the mirrors start at {start} and {other}"
            ),
            MirrorError::Conflict { sequence } => write!(f, "the mirrors differ at {sequence}"),
            MirrorError::OutOfMemory => write!(f, "out of memory"),
        }
    }
}

impl error::Error for MirrorError {}

impl From<AllocError> for MirrorError {
    ghost use Rattle.std.specs.Prelude.{◌≡◌};
    ghost use Rattle.js_event_log.specs.declared.mirror.error.MirrorError.TheVariants.{OutOfMemory};

    ghost from_gives = { λ _ error. error ≡ OutOfMemory };

    fn from(_error: AllocError) -> MirrorError {
        MirrorError::OutOfMemory
    }
}

impl From<OutOfMemory> for MirrorError {
    ghost use Rattle.std.specs.Prelude.{◌≡◌};
    ghost use Rattle.js_event_log.specs.declared.mirror.error.MirrorError.TheVariants.{OutOfMemory};

    ghost from_gives = { λ _ error. error ≡ OutOfMemory };

    fn from(_error: OutOfMemory) -> MirrorError {
        MirrorError::OutOfMemory
    }
}
