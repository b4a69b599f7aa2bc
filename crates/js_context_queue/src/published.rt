//! The outcome of a message.
use js_context::PublishError;
use js_json::PublishAck;

/// Names a message of a queue.
#[derive(Clone, Copy, Debug, PartialEq, Eq)]
pub struct Tag(pub u64);

/// The outcome of a message.
#[derive(Debug, Drop)]
pub struct Published {
    /// The message's tag.
    pub tag: Tag,
    /// Where the message is stored, or why that is not known.
    pub outcome: Result<PublishAck, PublishError>,
}
