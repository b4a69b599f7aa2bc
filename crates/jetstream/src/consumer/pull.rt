//! Pull consumers: their configurations, and the readers of their messages.
//!
//! [`PullCalls`] has the readers of a consumer that
//! [`Context::get_consumer_from_stream`](crate::Context::get_consumer_from_stream) and its like
//! return: `messages` opens a stream of messages with default settings, `stream` one that you
//! configure, `fetch` and `batch` one batch, `sequence` one batch after another.
//! [`OrderedPullCalls`] reads a consumer with an [`OrderedConfig`]: the messages of its [`Ordered`]
//! come in order and without gaps.
//!
//! **Messages.** Each is a [`Message`](crate::message::Message): `info` tells its place in the
//! stream, and `ack`, `ack_with` and `double_ack` acknowledge it over the link. Messages of an
//! ordered consumer need no acknowledgement.
//!
//! **Which reader to poll.** `inbox` of a [`Stream`], a [`Batch`] and an [`Ordered`] is the inbox
//! that it reads. If [`OutboxLink::deliver`](crate::link::OutboxLink::deliver) returns
//! [`Delivery::Inbox`](crate::link::Delivery::Inbox) with that number, poll that reader. A batch
//! that has ended has no inbox. An ordered consumer gets another inbox each time it is recreated,
//! so ask for it after each poll.
//!
//! **Closing.** `close` ends a reader and closes its inbox: what lies in it is lost, and requests
//! that are open at the server expire by themselves. Dropping a reader leaves its inbox open: the
//! server goes on delivering, and the link keeps what comes. A batch closes its inbox when it ends.
ghost use Rattle.std.specs.Prelude.{◌≡◌};
ghost use Rattle.jetstream.specs.Stream.{starting_at};

use js_json::consumer::DeliverPolicy;
pub use js_json::pull::{BatchConfig, Config, OrderedConfig};
pub use js_readers::ordered::pull::Ordered;
pub use js_readers::ordered::{OrderedError, OrderedErrorKind, OrderedPullCalls};
pub use js_readers::pull::{
    Advance, Batch, BatchBuilder, BatchError, BatchErrorKind, BatchItemError, BatchRequestError,
    BatchRequestErrorKind, FetchBuilder, MessagesError, MessagesErrorKind, PullCalls, Sequence,
    Stream, StreamBuilder,
};
use std::alloc::Global;

/// Returns the configuration of an ordered consumer that begins at this sequence; 1 reads the whole
/// stream. All else is as in `OrderedConfig::new`. Allocates no memory.
pub fn starting_at(alloc: Global, start_sequence: u64) -> OrderedConfig
    ensures { result ≡ starting_at start_sequence }
{
    OrderedConfig {
        deliver_policy: DeliverPolicy::ByStartSequence { start_sequence },
        ..OrderedConfig::new(alloc)
    }
}
