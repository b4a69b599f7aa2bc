//! Reads the words of a command line and executes some of the commands: `replay` reads a
//! transcript, replays it and writes the text of its run; `generate` replays a generated transcript
//! and counts its outputs; `info` writes what an ack subject says; `window` lets threads share a
//! publish window and writes their counts.
//!
//! Only [`command_of`] reads the words, for all commands, including those of js_tool_event_log and of
//! the program. [`run`] takes a command of this crate, a source and a sink, and returns a status
//! with its cause. [`replay_lines`] is the one loop over the lines of a transcript: each line is
//! replayed as it is read, and a [`StepReport`] tells of its step at once, so that memory holds only
//! the rest of the input and the report so far. The text of a run is one report; js_tool_explain and
//! js_tool_event_log have others. [`answer_text`] writes a report's text.
//!
//! [`run_plain`] does what [`run`] does for all commands that need no threads. [`rerun`] does what
//! `replay` does, and reads extended lines too.
#![tactic(auto)]

mod answer;
mod command;
mod generate;
mod info;
mod program;
mod progress;
mod run_text;
mod status;
mod step_report;
mod window;

pub use answer::answer_text;
pub use command::{Command, FollowOptions, LogCommand, ToolCommand, command_of};
pub use js_json_members::ReadError;
pub use js_tool_transcript::Lines;
pub use program::{answer_replay, rerun, run, run_plain};
pub use progress::{replay_events, replay_lines};
pub use status::Status;
pub use step_report::{Replayed, StepReport, TextReport};
