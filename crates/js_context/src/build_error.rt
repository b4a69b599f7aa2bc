//! Why a context was not built.
ghost use Rattle.std.specs.Prelude.{◌≡◌, Some};
ghost use Rattle.js_context.specs.Builder.{build_text};
ghost use Rattle.js_context.specs.declared.build_error.BuildError.TheVariants.{OutOfMemory as memory};

use js_base::OutOfMemory;
use std::{error, fmt};

/// Why a context was not built.
#[derive(Clone, Copy, Debug, PartialEq, Eq)]
pub enum BuildError {
    /// The context would have no permit.
    ZeroCapacity,
    /// The context would have more than `u32::MAX` permits.
    CapacityTooLarge,
    /// Memory ran out.
    OutOfMemory,
}

impl From<OutOfMemory> for BuildError {
    ghost from_gives = { λ _ error. error ≡ memory };

    fn from(_error: OutOfMemory) -> BuildError {
        BuildError::OutOfMemory
    }
}

impl fmt::Display for BuildError {
    ghost output = { λ error. Some (build_text error) };

    fn fmt<W: fmt::Write>(&self, f: &mut fmt::Formatter<W>) -> fmt::Result {
        f.write_str(match self {
            BuildError::ZeroCapacity => "capacity is zero",
            BuildError::CapacityTooLarge => "capacity is too large",
            BuildError::OutOfMemory => "out of memory",
        })
    }
}

impl error::Error for BuildError {}
