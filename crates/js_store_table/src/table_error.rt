//! What a table returns instead of a change.
ghost use Rattle.js_store_table.specs.Table.{table_error_text};

use std::{error, fmt};

/// What a table returns instead of a change.
#[derive(Debug, PartialEq, Eq, Drop)]
pub enum TableError<E> {
    /// An error of its reader.
    Reader(E),
    /// The reader read a message that is not an entry of the bucket: its subject does not begin as
    /// those of the bucket's keys do, or its reply subject does not say where it stands in the
    /// stream. The message is dropped.
    NoEntry,
}

impl<E: fmt::Display> fmt::Display for TableError<E> {
    ghost output = { λ error. table_error_text E.output error };

    fn fmt<W: fmt::Write>(&self, f: &mut fmt::Formatter<W>) -> fmt::Result {
        match self {
            TableError::Reader(error) => write!(f, "{error}"),
            TableError::NoEntry => f.write_str("no entry of the bucket"),
        }
    }
}

impl<E: fmt::Debug + fmt::Display + Drop> error::Error for TableError<E> {}
