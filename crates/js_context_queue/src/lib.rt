//! Publishing many messages under the permits of one context.
//!
//! Create a [`PublishQueue`] from a context. Push messages; each gets a [`Tag`]. Polls return the
//! outcome of each message as soon as it is known:
//!
//! - A poll sends a message if a permit is free. If none is free, or the send fails, the message
//!   stays in front of those behind it, and a later poll sends it, until its time is over. Its
//!   headers stay the same, its id among them, so a server that already has the message recognizes
//!   the duplicate.
//! - A sent message has its outcome when its ack comes, or when the context's timeout is due.
//!
//! Each message has one outcome: what its own ack said, or why it was given up. `close` returns the
//! messages that were not sent, and the context. `wakes_at` tells when the queue has something to
//! do even if nothing arrives.
//!
//! To publish and confirm a single message, use [`PublishCalls::publish_and_confirm`].
#![tactic(auto)]

mod closed;
mod confirm;
mod in_flight;
mod published;
mod queue;
mod send_attempt;
mod step_result;
mod unsent;

pub use closed::Closed;
pub use confirm::{Confirming, PublishCalls};
pub use published::{Published, Tag};
pub use queue::{PublishQueue, QueueHealth};
pub use unsent::Unsent;
