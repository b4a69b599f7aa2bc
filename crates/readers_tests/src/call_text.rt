//! What is told of a call.

use calls_tests::{Words, word};
use js_base::{Next, OutOfMemory, Turn};
use std::alloc::Global;
use std::fmt::Display;

/// What a reader or a call answers, in a word.
pub(crate) trait Answered {
    fn word(&self, alloc: Global) -> Words;
}

/// That something was done.
pub(crate) fn done(alloc: Global, outcome: Result<(), OutOfMemory>) -> Words {
    outcome?;
    word(alloc, "done")
}

/// Why nothing was done.
pub(crate) fn refused<E: Display>(alloc: Global, error: &E) -> Words {
    Ok(format!(in alloc; "refused: {error}")?)
}

/// What a call comes to that may be refused.
pub(crate) fn outcome<E: Display + Drop>(alloc: Global, outcome: Result<(), E>) -> Words {
    match outcome {
        Ok(()) => word(alloc, "done"),
        Err(error) => refused(alloc, &error),
    }
}

/// A reader that was opened takes the place of the one before.
pub(crate) fn opened<R: From<T> + Drop, T: Drop, E: Display + Drop>(
    alloc: Global,
    reader: &mut R,
    opened: Result<T, E>,
) -> Words {
    match opened {
        Ok(opened) => {
            *reader = R::from(opened);
            word(alloc, "done")
        }
        Err(error) => refused(alloc, &error),
    }
}

/// What a reader gives. A job is kept as the last one.
pub(crate) fn reader_text<J: Answered + Drop, E: Display + Drop>(
    alloc: Global,
    last: &mut Option<J>,
    next: Next<Result<J, E>>,
) -> Words {
    match next {
        Next::Pending => word(alloc, "pending"),
        Next::End => word(alloc, "end"),
        Next::OutOfMemory => Err(OutOfMemory),
        Next::Item(Ok(job)) => kept(alloc, last, job),
        Next::Item(Err(error)) => failed(alloc, &error),
    }
}

fn kept<J: Answered + Drop>(alloc: Global, last: &mut Option<J>, job: J) -> Words {
    let told = job.word(alloc);
    *last = Some(job);
    told
}

fn failed<E: Display>(alloc: Global, error: &E) -> Words {
    Ok(format!(in alloc; "error: {error}")?)
}

/// What a sequence gives: the next batch takes its place.
pub(crate) fn followed<R: From<T> + Drop, T: Drop, E: Display + Drop>(
    alloc: Global,
    reader: &mut R,
    next: Next<Result<T, E>>,
) -> Words {
    match next {
        Next::Pending | Next::End => word(alloc, "nothing"),
        Next::OutOfMemory => Err(OutOfMemory),
        Next::Item(Err(error)) => failed(alloc, &error),
        Next::Item(Ok(batch)) => {
            *reader = R::from(batch);
            word(alloc, "a batch")
        }
    }
}

/// What a poll of a call comes to. One that is pending is kept.
pub(crate) fn turned<C: From<S> + Drop, S: Drop, A: Answered + Drop>(
    alloc: Global,
    call: &mut C,
    turn: Turn<S, A>,
) -> Words {
    match turn {
        Turn::OutOfMemory(_) => Err(OutOfMemory),
        Turn::Ready(answer) => answer.word(alloc),
        Turn::Pending(state) => {
            *call = C::from(state);
            word(alloc, "pending")
        }
    }
}
