//! The results of polls.

/// The result of a poll of a call.
/// If the call is not finished, you get its state back.
#[derive(Debug, PartialEq, Eq, Drop)]
#[must_use = "a call that is not polled to its end never answers"]
pub enum Turn<S, T> {
    /// The call must wait: poll the state again.
    Pending(S),
    /// The call is finished, with this result.
    Ready(T),
    /// Memory ran out.
    /// The state is as it was before the step that failed.
    OutOfMemory(S),
}

/// The result of a poll of a reader.
#[derive(Debug, PartialEq, Eq, Drop)]
#[must_use = "what a poll hands out is handed out once"]
pub enum Next<T> {
    /// No item has arrived yet.
    Pending,
    /// The next item.
    Item(T),
    /// No more items will come.
    End,
    /// Memory ran out.
    /// The reader is as it was before the step that failed.
    OutOfMemory,
}
