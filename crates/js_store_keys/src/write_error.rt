//! Why the message of a write, or the request for a key, could not be built.
ghost use Rattle.std.specs.Prelude.{Some};
ghost use Rattle.js_store_keys.specs.Writes.{write_error_text};

use js_base::OutOfMemory;
use std::{error, fmt};

/// Why the message of a write, or the request for a key, could not be built.
#[derive(Clone, Copy, Debug, PartialEq, Eq)]
pub enum WriteError {
    /// The text is not a key.
    InvalidKey,
    /// Memory ran out.
    OutOfMemory,
}

impl fmt::Display for WriteError {
    ghost output = { λ error. Some (write_error_text error) };

    fn fmt<W: fmt::Write>(&self, f: &mut fmt::Formatter<W>) -> fmt::Result {
        f.write_str(match self {
            WriteError::InvalidKey => "invalid key",
            WriteError::OutOfMemory => "out of memory",
        })
    }
}

impl error::Error for WriteError {}

impl From<OutOfMemory> for WriteError {
    ghost use Rattle.std.specs.Prelude.{◌≡◌};
    ghost use Rattle.js_store_keys.specs.declared.write_error.WriteError.TheVariants.{OutOfMemory};

    ghost from_gives = { λ _ error. error ≡ OutOfMemory };

    fn from(_error: OutOfMemory) -> WriteError {
        WriteError::OutOfMemory
    }
}
