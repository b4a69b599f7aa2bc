//! The publish window: permits that callers in any number of threads share.
//!
//! The calls of all callers have one order, the window's history. In it each call returns what a
//! single thread would have got there: a take gets a permit only while fewer permits are out than
//! the window has, and returns `Full` only while all are out. A [`Pass`] is one caller's end of the
//! window. It allocates nothing; only [`Window::new`] does. Contracts see a pass as a `Caller`: its
//! number, the beginning of the history that it has `seen`, and the calls that it made, `mine`.
//!
//! The history exists in contracts only (`specs/History.antt`). Threads share a cell of two words,
//! the free count and the capacity, under a rule that each step on it keeps (`specs/Rule.antt`).
//! `specs/Steps.antt` says what a step tells its caller, and `specs/Caller.antt` what a call
//! promises.
//!
//! The window promises nothing about progress, fairness or waiting, nor about who came first between
//! callers that told each other nothing.
#![tactic(auto)]

mod history;
mod rule;
mod window;

pub use history::{Call, Entry};
pub use rule::permits_balance;
pub use window::{Pass, Permit, Take, Window};
