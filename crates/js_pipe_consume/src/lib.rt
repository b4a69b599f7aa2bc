//! The command `consume` of a program over two files: the messages of a stream, in order and without
//! a gap.
//!
//! [`consume`] reads by an ordered reader of its own, and [`read_and_close`] by any that you hand it,
//! also one that records what it meets.
#![tactic(auto)]

mod consume_command;
mod consumers;
mod read_progress;
mod reader;

pub use consume_command::{consume, read_and_close};
pub use consumers::{create, fresh_subject, pull_config, push_config};
pub use read_progress::Reading;
pub use reader::Reads;
