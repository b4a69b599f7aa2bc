//! Push consumers: their configurations, and the readers of their messages.
//!
//! [`PushCalls`] has the reader of a consumer that
//! [`Context::get_consumer_from_stream`](crate::Context::get_consumer_from_stream) and its like
//! return: `messages` reads what the server sends to the consumer's deliver subject.
//! [`OrderedPushCalls`] reads a consumer with an [`OrderedConfig`]: the messages of its [`Ordered`]
//! come in order and without gaps.
//!
//! **Deliver subject.** Whoever creates the consumer chooses it. For a subject that nothing else
//! uses, call [`fresh_subject`](crate::link::Link::fresh_subject) of the link, and write the result
//! into the configuration before you create the consumer. In async-nats this is
//! `client.new_inbox()`:
//!
//! ```text
//! let subject = link.fresh_subject(alloc)?;
//! config.deliver_subject = Text::from_str(alloc, subject.as_str())?;
//! ```
//!
//! **Messages.** Each is a [`Message`](crate::message::Message): `info` tells its place in the
//! stream, and `ack`, `ack_with` and `double_ack` acknowledge it over the link. Messages of an
//! ordered consumer need no acknowledgement.
//!
//! **Which reader to poll.** `inbox` of [`Messages`] and of an [`Ordered`] is the inbox that it
//! reads. If [`OutboxLink::deliver`](crate::link::OutboxLink::deliver) returns
//! [`Delivery::Inbox`](crate::link::Delivery::Inbox) with that number, poll that reader. An ordered
//! consumer gets another inbox each time it is recreated, so ask for it after each poll.
//!
//! **Closing.** `close` ends a reader and closes its inbox: what lies in it is lost. Dropping a
//! reader leaves its inbox open: the server goes on delivering, and the link keeps what comes.
pub use js_json::push::{Config, OrderedConfig};
pub use js_readers::ordered::push::Ordered;
pub use js_readers::ordered::{OrderedError, OrderedErrorKind, OrderedPushCalls};
pub use js_readers::push::{Messages, MessagesError, MessagesErrorKind, PushCalls};
