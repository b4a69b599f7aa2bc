//! Why a key could not be read from the server.
ghost use Rattle.std.specs.Prelude.{Some};
ghost use Rattle.js_store_keys.specs.Answer.{get_error_text};

use std::{error, fmt};

/// Why the server's answer tells nothing of a key.
#[derive(Clone, Copy, Debug, PartialEq, Eq)]
pub enum GetError {
    /// The server refused the request. It may be tried again.
    Refused {
        /// The kind of refusal, in the numbers of HTTP: the status of a direct answer, or the code
        /// of the API's error.
        code: u64,
        /// Which error of the API it is, or 0 for a direct answer.
        err_code: u64,
    },
    /// The answer is neither a message of a stream nor a refusal: a header or a member is missing
    /// or cannot be read.
    Unreadable,
    /// Memory ran out. The answer is lost.
    OutOfMemory,
}

impl fmt::Display for GetError {
    ghost output = { λ error. Some (get_error_text error) };

    fn fmt<W: fmt::Write>(&self, f: &mut fmt::Formatter<W>) -> fmt::Result {
        f.write_str(match self {
            GetError::Refused { .. } => "refused by the server",
            GetError::Unreadable => "unreadable answer",
            GetError::OutOfMemory => "out of memory",
        })
    }
}

impl error::Error for GetError {}
