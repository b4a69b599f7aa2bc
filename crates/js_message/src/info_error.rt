//! Why a text is not an acknowledgement subject.
ghost use Rattle.std.specs.Prelude.{Some};
ghost use Rattle.js_message.specs.Texts.{info_text};

use std::{error, fmt};

/// Why a text is not an acknowledgement subject.
#[derive(Clone, Copy, Debug, PartialEq, Eq)]
pub enum InfoError {
    /// It does not begin with `$JS.ACK.`.
    Prefix,
    /// It has this number of tokens after the prefix: fewer than nine, and not seven.
    TokenCount { n: u64 },
    /// The token at this place, counted from 0 after the prefix, is not a number of its type.
    Number { place: u64 },
    /// The time is outside the range of a timestamp.
    Instant,
}

impl fmt::Display for InfoError {
    ghost output = { λ error. Some (info_text error) };

    fn fmt<W: fmt::Write>(&self, f: &mut fmt::Formatter<W>) -> fmt::Result {
        match self {
            InfoError::Prefix => f.write_str("the subject does not begin with $JS.ACK."),
            InfoError::TokenCount { n } => write!(f, "the subject has {n} tokens after its prefix"),
            InfoError::Number { place } => write!(f, "token {place} is no number in range"),
            InfoError::Instant => f.write_str("the time is out of range"),
        }
    }
}

impl error::Error for InfoError {}
