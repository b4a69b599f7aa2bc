//! The flight recorder: an ordered consumer over any link, by pull or by push, that writes down
//! everything that it meets, as events of a transcript that `wilfjodi rerun` reads, and
//! `wilfjodi replay` too if every payload is a text of its message's length.
//!
//! A [`Recorder`] runs on the replay's own driver (`IncrementalReplay`), so what it does is the
//! replay of what it wrote. It takes one thing at a time from its link, makes the event of it,
//! gives the event to its [`Recording`], and passes it to the replay. What the replay then puts out
//! it works off in order: it sends over the link, and hands out messages and errors, one a poll.
#![tactic(auto)]

mod error;
mod event_list;
mod laws;
mod lines;
mod link_event;
mod link_input;
mod output_delivery;
mod recorder;
mod recording;
mod sends;

pub use event_list::EventList;
pub use laws::lives_follow_their_recordings;
pub use lines::{LineRecording, RecentLines};
pub use recorder::Recorder;
pub use recording::{Recording, RecordingFault};
