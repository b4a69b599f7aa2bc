//! Publishing messages, one at a time or many, and their acknowledgements.
pub use js_context::{PublishAckFuture, PublishError, PublishErrorKind, Sending};
pub use js_context_queue::{
    Closed, Confirming, PublishCalls, PublishQueue, Published, QueueHealth, Tag, Unsent,
};
pub use js_json::PublishAck;
pub use js_message::{OutboundMessage, PublishMessage};
