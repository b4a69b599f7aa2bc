//! What the calls of a context answer, in a word.

use calls_tests::{Words, printed};
use std::alloc::Global;
use std::fmt::Display;

/// What a call answers, in a word.
pub(crate) trait Answered {
    fn word(&self, alloc: Global) -> Words;
}

/// The word of an answer, or of its error as it is printed.
pub(crate) fn found_word<A: Answered + Drop, E: Display + Drop>(
    alloc: Global,
    answer: Result<A, E>,
) -> Words {
    match &answer {
        Ok(answer) => answer.word(alloc),
        Err(error) => printed(alloc, error),
    }
}
