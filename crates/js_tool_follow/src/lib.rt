//! `follow` replays a transcript as its lines arrive. It writes and flushes the text of each step
//! before it reads more, so any program can run it beside itself as its ordered consumer.
//!
//! [`converse`] holds this conversation with a [`Peer`], which writes the lines and reads the
//! answers. [`follow`] does the same with a source and a sink. It answers all whole lines before
//! each read. It holds the last line, the bytes read after it, and the replay, but neither events
//! nor texts. [`converse_with`] and [`follow_with`] also say more of each message that they hand
//! out, and when the consumer wakes, so that whoever writes the lines need not tick until then.
#![tactic(auto)]

mod answer;
mod conversation;
mod details;
mod incoming_lines;
mod output;
mod peer;
mod source_sink_peer;
mod wakes;

pub use conversation::{converse, converse_with};
pub use peer::{Peer, PeerCall};
pub use source_sink_peer::{Ends, follow, follow_with};
