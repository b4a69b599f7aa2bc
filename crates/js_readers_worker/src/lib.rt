//! A worker of a queue: it takes a message, extends its ack wait while you work on it, and
//! acknowledges it once.
//!
//! ```text
//! let wait = consumer.info.config.ack_wait;
//! let mut worker = Worker::new(consumer.messages(alloc, &mut link)?, wait);
//! // in the loop
//! if let Next::Item(taken) = worker.poll(alloc, &mut link, now) {
//!     taken?;
//! }
//! let is_done = match worker.message() {
//!     Some(message) => work(message)?,
//!     None => false,
//! };
//! if is_done {
//!     worker.ack(alloc, &mut link)?;
//! }
//! // when no more work is wanted
//! worker.stop();
//! // at the end
//! worker.close(alloc, &mut link);
//! ```
//!
//! `work` may take as many turns of the loop as it needs: while the worker has a message, its polls
//! take no other, and tell the server in time that the message is still being worked on.
//!
//! A [`Worker`] reads any [`Subscription`](js_readers::Subscription) of messages: a pull stream, a
//! batch, or the messages of a push consumer.
#![tactic(auto)]

mod error;
mod job;
mod worker;

pub use error::WorkerError;
pub use worker::Worker;
