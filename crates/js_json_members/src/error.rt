//! The errors of reading and writing a JSON value.

ghost use Rattle.std.specs.Prelude.{◌≡◌};
ghost use Rattle.js_json_members.specs.Error.{message_of, key_of};
ghost use Rattle.js_json_members.specs.declared.error.ReadError.TheVariants.{OutOfMemory as memory};

use crate::key::Key;
use std::alloc::{AllocError, AllocFailed};
use std::{error, fmt};

/// Why a JSON value cannot be read as a type, or why a value cannot be written as JSON.
#[derive(Clone, Copy, Debug, PartialEq, Eq)]
pub enum ReadError {
    /// A required member is absent.
    Missing { key: Key },
    /// The value of the key has the wrong JSON kind, such as a text in place of a number.
    WrongKind { key: Key },
    /// A number or a text is not a value of the type.
    ///
    /// Writing an instant fails with this error if its year is before 0.
    OutOfRange { key: Key },
    /// The value contains a number that is neither an `i64` nor a `u64`.
    Float,
    /// The bytes are not JSON, or nest more than 127 levels deep.
    ///
    /// The readers of transcripts also fail with it if a value is not an object or has an unknown
    /// key.
    NotJson,
    /// Memory ran out.
    OutOfMemory,
}

impl ReadError {
    // Returns what is wrong, without the key.
    fn message(self) -> &'static str
        ensures { result.now ≡ message_of self }
    {
        match self {
            ReadError::Missing { .. } => "missing",
            ReadError::WrongKind { .. } => "of the wrong kind",
            ReadError::OutOfRange { .. } => "out of range",
            ReadError::Float => "a number is no 64-bit integer",
            ReadError::NotJson => "not JSON",
            ReadError::OutOfMemory => "out of memory",
        }
    }

    /// Returns the key that the error names.
    ///
    /// Returns `None` for `Float`, `NotJson` and `OutOfMemory`.
    pub fn key(self) -> Option<Key>
        ensures { result ≡ key_of self }
    {
        match self {
            ReadError::Missing { key }
            | ReadError::WrongKind { key }
            | ReadError::OutOfRange { key } => Some(key),
            ReadError::Float | ReadError::NotJson | ReadError::OutOfMemory => None,
        }
    }
}

/// Prints the key and what is wrong, such as `subject: missing`.
///
/// If the error names no key, it prints only what is wrong.
impl fmt::Display for ReadError {
    ghost use Rattle.std.specs.Prelude.{Some};
    ghost use Rattle.js_json_members.specs.Error.{error_text};

    ghost output = { λ e. Some (error_text e) };

    fn fmt<W: fmt::Write>(&self, f: &mut fmt::Formatter<W>) -> fmt::Result {
        let message = self.message();
        match self.key() {
            None => write!(f, "{message}"),
            Some(key) => {
                let name = key.name();
                write!(f, "{name}: {message}")
            }
        }
    }
}

impl error::Error for ReadError {}

impl From<AllocError> for ReadError {
    ghost from_gives = { λ _ e. e ≡ memory };

    fn from(_e: AllocError) -> ReadError {
        ReadError::OutOfMemory
    }
}

impl<T: Drop> From<AllocFailed<T>> for ReadError {
    ghost from_gives = { λ _ e. e ≡ memory };

    fn from(_e: AllocFailed<T>) -> ReadError {
        ReadError::OutOfMemory
    }
}

impl From<js_base::OutOfMemory> for ReadError {
    ghost from_gives = { λ _ e. e ≡ memory };

    fn from(_e: js_base::OutOfMemory) -> ReadError {
        ReadError::OutOfMemory
    }
}
