//! Executes the commands over logs and over sessions: `project`, `mirror`, `relay` and `sessions`.
//! js_tool executes the other commands.
//!
//! The commands over logs replay a transcript line by line and keep only what it hands out. Then
//! they write the last message of each subject (`project`), or all messages with their holes
//! (`mirror`), or the transcript of a consumer that receives them again (`relay`). With an honest
//! server, the table is that of the server's own log, a mirror shows that log, and replaying the
//! written transcript reads the same log. `sessions` writes the result of each session, or the line
//! of the first error.
#![tactic(auto)]

mod answer;
mod mirror;
mod program;
mod project;
mod relay;
mod replay_entries;
mod report;
mod sessions;

pub use js_tool::{
    Command, FollowOptions, Lines, ReadError, Status, ToolCommand, answer_replay, command_of, rerun,
};
pub use program::{run, run_plain};
