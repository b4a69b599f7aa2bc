//! What the rows of the tests' tables say.

use js_base::OutOfMemory;
use std::alloc::Global;
use std::fmt::{Debug, Display};
use std::process::Abort;

/// What is printed of a value.
pub(crate) fn printed<T: Display + Drop>(alloc: Global, value: T) -> Result<String, OutOfMemory> {
    Ok(value.to_string(alloc)?)
}

/// Asserts that what is found in a row is what is wanted.
pub(crate) fn same<T: Debug + PartialEq + Drop>(rt: &impl Abort, row: &str, found: T, wanted: T) {
    assert_eq!(rt; found, wanted, "{row}");
}

/// Asserts that the word of a row is the one that is wanted.
pub(crate) fn says<E: Debug + Drop>(
    rt: &impl Abort,
    row: &str,
    found: Result<String, E>,
    wanted: &str,
) {
    let found = found.expect(rt, row);
    assert_eq!(rt; found.as_str(), wanted, "{row}");
}

/// The same of the row at that place.
pub(crate) fn says_at<E: Debug + Drop>(
    rt: &impl Abort,
    place: usize,
    found: Result<String, E>,
    wanted: &str,
) {
    let found = found.expect(rt, wanted);
    assert_eq!(rt; found.as_str(), wanted, "at {place}");
}
