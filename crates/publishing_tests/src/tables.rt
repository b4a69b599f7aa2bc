//! What the rows of the tests' tables say.

use calls_tests::Words;
use js_base::both;
use std::alloc::Global;
use std::fmt::Debug;
use std::process::Abort;

/// Two words, with a comma between them.
pub(crate) fn joined(alloc: Global, first: Words, second: Words) -> Words {
    let (first, second) = both(first, second)?;
    let words = format!(in alloc; "{first}, {second}");
    drop(second);
    drop(first);
    Ok(words?)
}

/// The word of an ack, where all permits are free.
pub(crate) fn settled_word(alloc: Global, text: String, is_settled: bool) -> Words {
    if is_settled {
        Ok(text)
    } else {
        Ok(format!(in alloc; "{text}, and a permit is out")?)
    }
}

/// Asserts that what is found in a row is what is wanted.
pub(crate) fn same<T: Debug + PartialEq + Drop>(rt: &impl Abort, row: &str, found: T, wanted: T) {
    assert_eq!(rt; found, wanted, "{row}");
}

/// Asserts that the word of a row is the one that is wanted.
pub(crate) fn says(rt: &impl Abort, row: &str, found: Words, wanted: &str) {
    let found = found.expect(rt, row);
    assert_eq!(rt; found.as_str(), wanted, "{row}");
}
