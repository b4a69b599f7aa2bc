//! How a link's errors are printed, and which errors of others become them.
ghost use Rattle.std.specs.Prelude.{Some};
ghost use Rattle.js_link.specs.Texts.{link_text};

use crate::link::LinkError;
use js_base::OutOfMemory;
use std::alloc::{AllocError, AllocFailed};
use std::{error, fmt};

impl fmt::Display for LinkError {
    ghost output = { λ error. Some (link_text error) };

    fn fmt<W: fmt::Write>(&self, f: &mut fmt::Formatter<W>) -> fmt::Result {
        f.write_str(match self {
            LinkError::Failed => "link failed",
            LinkError::OutOfMemory => "out of memory",
        })
    }
}

impl error::Error for LinkError {}

impl From<OutOfMemory> for LinkError {
    ghost use Rattle.std.specs.Prelude.{◌≡◌};
    ghost use Rattle.js_link.specs.declared.link.LinkError.TheVariants.{OutOfMemory};

    ghost from_gives = { λ _ e. e ≡ OutOfMemory };

    fn from(_e: OutOfMemory) -> LinkError {
        LinkError::OutOfMemory
    }
}

impl From<AllocError> for LinkError {
    ghost use Rattle.std.specs.Prelude.{◌≡◌};
    ghost use Rattle.js_link.specs.declared.link.LinkError.TheVariants.{OutOfMemory};

    ghost from_gives = { λ _ e. e ≡ OutOfMemory };

    fn from(_e: AllocError) -> LinkError {
        LinkError::OutOfMemory
    }
}

impl<T: Drop> From<AllocFailed<T>> for LinkError {
    ghost use Rattle.std.specs.Prelude.{◌≡◌};
    ghost use Rattle.js_link.specs.declared.link.LinkError.TheVariants.{OutOfMemory};

    ghost from_gives = { λ _ e. e ≡ OutOfMemory };

    fn from(_e: AllocFailed<T>) -> LinkError {
        LinkError::OutOfMemory
    }
}
