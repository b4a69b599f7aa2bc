//! What is left of a queue that is closed.

use crate::unsent::Unsent;
use js_context::Context;
use std::collections::VecDeque;

/// What closing a queue returns.
#[derive(Drop)]
#[must_use = "what is left was not stored"]
pub struct Closed {
    /// The queue's context. The acks of messages that were sent are detached: `Context::reap`
    /// settles them.
    pub context: Context,
    /// The messages that were not sent, in the order in which they were pushed.
    pub unsent: VecDeque<Unsent>,
}
