//! Words, which the tables of the tests compare, and how they are made. The other crates of tests of calls use them too.

ghost use Rattle.std.specs.Prelude.{◌≡◌, IfOk, string_bytes};

use js_base::OutOfMemory;
use std::alloc::Global;
use std::fmt::Display;

/// What a call comes to, in a word.
pub type Words = Result<String, OutOfMemory>;

/// A word of this text.
///
/// # Errors
///
/// Want of memory.
pub fn word(alloc: Global, text: &str) -> Words
    ensures { IfOk result (λ told. string_bytes told ≡ text.now) }
{
    Ok(String::from_str(alloc, text)?)
}

/// What is printed of a value.
pub fn printed<T: Display>(alloc: Global, value: &T) -> Words {
    Ok(value.to_string(alloc)?)
}

/// A text and a number.
pub fn numbered(alloc: Global, text: &str, number: u64) -> Words {
    Ok(format!(in alloc; "{text} {number}")?)
}

/// Adds a word with a line's end.
pub fn add_line(words: &mut String, word: &str) -> Result<(), OutOfMemory> {
    words.push_str(word)?;
    words.push_str("\n")?;
    Ok(())
}
