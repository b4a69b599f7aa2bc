//! What the rows of the tests' tables say.

use crate::words::Words;
use std::alloc::Global;
use std::fmt::Debug;
use std::process::Abort;

/// Two texts, one after the other.
pub(crate) fn paired(alloc: Global, first: &str, second: &str) -> Words {
    Ok(format!(in alloc; "{first} {second}")?)
}

/// Asserts that what is found in a row is what is wanted.
pub(crate) fn same<T: Debug + PartialEq + Drop>(rt: &impl Abort, row: &str, found: T, wanted: T) {
    assert_eq!(rt; found, wanted, "{row}");
}

/// Asserts that the word of a row is the one that is wanted.
pub(crate) fn says(rt: &impl Abort, row: &str, found: Words, wanted: &str) {
    let found = found.expect(rt, row);
    assert_eq!(rt; found.as_str(), wanted, "{row}");
}
