//! What the rows of the tests' tables say.

use calls_tests::Words;
use std::process::Abort;

/// Asserts that the word of a row is the one that is wanted.
pub(crate) fn says(rt: &impl Abort, row: &str, found: Words, wanted: &str) {
    let found = found.expect(rt, row);
    assert_eq!(rt; found.as_str(), wanted, "{row}");
}
