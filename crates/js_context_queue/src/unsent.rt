//! A message that was not sent.
ghost use Rattle.std.specs.Prelude.{◌≡◌};
ghost use Rattle.js_base.specs.Clock.{is_over};

use crate::published::Tag;
use js_base::{Moment, Nanos, due};
use js_message::OutboundMessage;

/// A message that was not sent.
#[derive(Drop)]
pub struct Unsent {
    /// The message's tag.
    pub tag: Tag,
    /// The message as it was pushed.
    pub message: OutboundMessage,
    /// When it was pushed.
    pub since: Moment,
}

impl Unsent {
    /// Returns its tag and drops the message.
    pub(crate) fn into_tag(self) -> Tag
        ensures { result ≡ self.tag }
    {
        let tag = self.tag;
        drop(self);
        tag
    }

    /// Returns whether it has waited for `send_timeout` nanoseconds.
    pub(crate) fn is_over(&self, now: Moment, send_timeout: Nanos) -> bool
        ensures { result ≡ is_over self.now.since send_timeout now }
    {
        due(now, self.since, send_timeout)
    }
}
