//! What callers of a window did. These types are used in contracts only; no value of them is ever
//! made.

/// A call of a window, with what it returned.
pub enum Call {
    /// A take that got a permit.
    Got,
    /// A take that found no free permit.
    Full,
    /// A give, which returned a permit to the window.
    Give,
    /// A question whether all permits were free, with its answer.
    AllFree(bool),
}

/// A call by the caller with this number.
pub struct Entry {
    pub caller: u64,
    pub call: Call,
}
