//! Readers of a stream, in order.

use crate::subscription::Subscription;
use js_message::Message;

/// A subscription that hands out the messages of a stream in order: an ordered consumer, by pull or
/// by push, or a [`Rising`](crate::ordered::Rising) reader over one.
pub trait OrderedReader: Subscription<Item = Message> {}
