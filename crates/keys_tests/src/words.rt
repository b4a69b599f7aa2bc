//! Words, which the tables of the tests compare.

ghost use Rattle.std.specs.Prelude.{◌≡◌, IfOk, string_bytes};

use js_base::OutOfMemory;
use std::alloc::Global;

/// A word of this text.
///
/// # Errors
///
/// Want of memory.
pub fn word(alloc: Global, text: &str) -> Result<String, OutOfMemory>
    ensures { IfOk result (λ told. string_bytes told ≡ text.now) }
{
    Ok(String::from_str(alloc, text)?)
}
