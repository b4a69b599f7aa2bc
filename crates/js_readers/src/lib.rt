//! The calls that read a consumer: a pull consumer, a push consumer, and an ordered consumer of
//! either kind.
//!
//! - [`pull`] has the calls of a pull consumer: `messages` and `stream` read without an end,
//!   `fetch` and `batch` read one batch, and `sequence` reads batch after batch. Their builders set
//!   all that a pull request can ask for. A batch gives at most as many messages as were asked for.
//! - [`push`] has `messages` of a push consumer, which subscribes to the consumer's deliver
//!   subject. It reports missing heartbeats, and answers a heartbeat that asks for an answer.
//! - [`ordered`] has `messages` of ordered consumers, built on the streams of js_ordered_stream: it
//!   returns messages in order and without a gap.
//!
//! Each reader is a [`Subscription`]: one trait to poll, to find the reader that a message came for,
//! to sleep until something is to be done, and to close. Code over it reads any of them.
//!
//! Messages can be acknowledged, and tell their place in the stream. `inbox` of a reader returns
//! the inbox that it reads, so a program with many readers finds the one that a message came for.
//! `close` ends a reader and closes its inbox. Dropping a reader leaves its inbox open.
#![tactic(auto)]

mod ack_timeout;
pub mod ordered;
pub mod pull;
pub mod push;
mod subscription;

pub use subscription::Subscription;
