//! The rows of an ordered consumer, as code. Each row is a function that knows no link and takes no
//! memory. A replay passes them with what its events bring, a polled reader with what its link
//! returns.

mod create_reply;
pub mod event;
pub mod pull;
pub mod push;
pub mod recreation;
mod task;

pub use task::{Heard, Held, Inbox, NextTasks, PassedTask, RowOutput, Task};
