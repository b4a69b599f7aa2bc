//! A message that came out of order, and what a rising reader reports in place of a message.
ghost use Rattle.std.specs.Prelude.{Some};
ghost use Rattle.js_readers.specs.Rising.{breach_text, error_text};

use std::{error, fmt};

/// A message whose stream sequence is not above that of the last message that was handed out. The
/// usual cause: the stream was deleted, and created again under its name.
#[derive(Clone, Copy, Debug, PartialEq, Eq)]
pub struct Breach {
    /// The stream sequence of the last message that was handed out.
    pub last: u64,
    /// The stream sequence of the message that came.
    pub came: u64,
}

impl fmt::Display for Breach {
    ghost output = { λ breach. Some (breach_text breach) };

    fn fmt<W: fmt::Write>(&self, f: &mut fmt::Formatter<W>) -> fmt::Result {
        let last = self.last;
        let came = self.came;
        write!(f, "stream sequence {came} came after {last}")
    }
}

impl error::Error for Breach {}

/// What a rising reader reports in place of a message.
#[derive(Debug, PartialEq, Eq, Drop)]
pub enum RisingError<E> {
    /// An error of the reader below.
    Reader(E),
    /// A message came whose stream sequence is not above the last one. The message is dropped, and
    /// the rising reader has ended.
    Breach(Breach),
}

impl<E: fmt::Display> fmt::Display for RisingError<E> {
    ghost output = { λ error. error_text E.output error };

    fn fmt<W: fmt::Write>(&self, f: &mut fmt::Formatter<W>) -> fmt::Result {
        match self {
            RisingError::Reader(error) => write!(f, "{error}"),
            RisingError::Breach(breach) => write!(f, "{breach}"),
        }
    }
}

impl<E: fmt::Debug + fmt::Display + Drop> error::Error for RisingError<E> {}
