//! Large transcripts generated from a seed: the events of an ordered pull consumer that loses
//! messages again and again.
//!
//! For each seed and each count of at most 200,000, the events of [`generated`] are valid, a server
//! whose log is the sequences is honest in their replay, and the replay hands out as many messages
//! as its last sequence says. [`summary_of`] counts the outputs of a run.
#![tactic(auto)]

mod episode;
mod setup;
mod summary;
mod texts;
mod transcript;

pub use setup::replay_input;
pub use summary::{Summary, summary_of};
pub use transcript::generated;
