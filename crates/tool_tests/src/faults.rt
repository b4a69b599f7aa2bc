//! Calls that fail.

ghost use Rattle.std.specs.Prelude.{◌≡◌, ◌∷◌, [], IfOk};

use std::alloc::{AllocError, Global};

/// The one number of a call that fails; the first call is 1, and with 0 none fails.
///
/// # Errors
///
/// Want of memory.
pub fn failing(alloc: Global, number: u64) -> Result<Vec<u64>, AllocError>
    ensures { IfOk result (λ numbers. numbers.items ≡ number ∷ []) }
{
    let mut failing = Vec::new(alloc);
    failing.push(number)?;
    Ok(failing)
}
