//! Polled streams of ordered consumers, by pull or by push. They read over any link, step by step,
//! and may stop after any step.
//!
//! The steps are the rows of js_ordered_table. A row is passed in three parts: make what it asks
//! for, which is all that takes memory; ask the link; pass the row with what was met. So a poll
//! that runs out of memory leaves a stream that you can poll again. However you poll a stream, its
//! messages have no gap if the server is honest. `inbox` returns the inbox that is open for it,
//! `close` ends it and closes that inbox, and `wakes_at` returns when it has something to do
//! although nothing came.
#![tactic(auto)]

mod answer;
mod error;
mod examples;
mod health;
mod inbox;
mod later_row;
mod laws;
mod ordered;
mod polled;
pub mod pull;
mod pull_rows;
pub mod push;
mod push_rows;
mod recreation;
mod remaining_rows;
mod rows;
mod success;
mod task_row;
mod timers;

pub use error::{OrderedError, OrderedErrorKind};
pub use examples::worked_lives_leave_no_gap;
pub use health::{Activity, Health};
pub use laws::links_fix_rows;
