//! `consume --record` of a program over two files: the messages of a stream, in order and without a
//! gap, and a file of everything that their reader met, of which `wilfjodi rerun` hands out the same
//! messages.
//!
//! [`consume_recorded`] reads by a [`FileRecorder`], a `Recorder` of js_ordered_recorder whose lines
//! go to a sink. The file has its first line, and behind it exactly the lines of the events through
//! which the recorder has gone. A fault of the file ends the recording, and not the reader.
#![tactic(auto)]

mod file_recorder;
mod first_line;
mod record_command;
mod recording_file;

pub use file_recorder::FileRecorder;
pub use first_line::FirstLine;
pub use record_command::consume_recorded;
pub use recording_file::RecordingFile;
