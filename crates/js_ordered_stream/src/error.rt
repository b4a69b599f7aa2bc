//! The errors that an ordered stream returns in place of a message.
ghost use Rattle.std.specs.Prelude.{◌≡◌, None, Some};
ghost use Rattle.js_base.specs.Error.{kind_of, source_of};
ghost use Rattle.js_ordered_stream.specs.Ordered.{error_kind, kind_text, source_by};

use js_base::{Error, Message, Source};
use js_ordered_table::ItemKind;
use js_pull::description_of;
use std::{error, fmt};

/// What an ordered stream reports in place of a message.
#[derive(Clone, Copy, Debug, PartialEq, Eq)]
pub enum OrderedErrorKind {
    /// Push: nothing came from the server for ten seconds. The stream recreates its consumer.
    MissingHeartbeat,
    /// A pull request was not sent, or the consumer's info was requested six times in vain.
    Pull,
    /// An arrival cannot be read. For push also: the connection's watcher has ended, and so has the
    /// stream.
    Other,
    /// All attempts to recreate the consumer failed. The next poll tries again.
    Recreate,
    /// The server refused requests of this size twice, with no message in between. The stream has
    /// ended. The source is the server's description, if it sent one.
    RequestLimitExceeded,
    /// The consumer is a push consumer. The stream has ended.
    PushBasedConsumer,
    /// The server has no stream of this name: it said so of the last create request. The stream of
    /// messages goes on trying, and reports this once until a create request is answered in another
    /// way. It comes only if `tells_missing_stream` is on.
    StreamNotFound,
    /// The consumer would have to be recreated after the last possible sequence. The stream has
    /// ended.
    SequenceEnd,
    /// Never returned: the stream recreates a consumer that was deleted.
    ConsumerDeleted,
    /// Never returned: if nobody answers a pull request, the stream recreates its consumer.
    NoResponders,
    /// Never returned: a stream is not opened for a consumer that delivers to no subject.
    PullBasedConsumer,
}

impl fmt::Display for OrderedErrorKind {
    ghost output = { λ kind. Some (kind_text kind) };

    fn fmt<W: fmt::Write>(&self, f: &mut fmt::Formatter<W>) -> fmt::Result {
        f.write_str(match self {
            OrderedErrorKind::MissingHeartbeat => "missed idle heartbeat",
            OrderedErrorKind::Pull => "pull request failed",
            OrderedErrorKind::Other => "error",
            OrderedErrorKind::Recreate => "consumer recreation failed",
            OrderedErrorKind::RequestLimitExceeded => "pull request exceeded consumer limits",
            OrderedErrorKind::PushBasedConsumer => "cannot use with push consumer",
            OrderedErrorKind::StreamNotFound => "stream not found",
            OrderedErrorKind::SequenceEnd => "sequence end",
            OrderedErrorKind::ConsumerDeleted => "consumer deleted",
            OrderedErrorKind::NoResponders => "no responders",
            OrderedErrorKind::PullBasedConsumer => "cannot use with push consumer",
        })
    }
}

impl error::Error for OrderedErrorKind {}

/// An error of an ordered stream.
pub type OrderedError = Error<OrderedErrorKind>;

// The kind of the error that an item of the table is.
fn kind_of_item(kind: ItemKind) -> OrderedErrorKind
    ensures { result ≡ error_kind kind }
{
    match kind {
        ItemKind::MissingHeartbeat => OrderedErrorKind::MissingHeartbeat,
        ItemKind::RequestLimitExceeded => OrderedErrorKind::RequestLimitExceeded,
        ItemKind::PushBasedConsumer => OrderedErrorKind::PushBasedConsumer,
        ItemKind::Pull => OrderedErrorKind::Pull,
        ItemKind::Recreate => OrderedErrorKind::Recreate,
        ItemKind::Other => OrderedErrorKind::Other,
        ItemKind::StreamNotFound => OrderedErrorKind::StreamNotFound,
    }
}

// The error that an item of the table is, without a source.
pub(crate) fn error_of(kind: ItemKind) -> OrderedError
    ensures tells { kind_of result ≡ error_kind kind }
    ensures source { source_of result ≡ None }
{
    Error::new(kind_of_item(kind))
}

// The error of a limit that this message told of.
pub(crate) fn limit_error(message: Option<Message>) -> OrderedError
    ensures tells { kind_of result ≡ OrderedErrorKind.RequestLimitExceeded }
    ensures source { source_of result ≡ source_by OrderedErrorKind.RequestLimitExceeded message }
{
    match description_of(message) {
        None => Error::new(OrderedErrorKind::RequestLimitExceeded),
        Some(text) => {
            Error::with_source(OrderedErrorKind::RequestLimitExceeded, Source::Text(text))
        }
    }
}

// There is no sequence to go on from.
pub(crate) fn sequence_end() -> OrderedError
    ensures tells { kind_of result ≡ OrderedErrorKind.SequenceEnd }
    ensures source { source_of result ≡ None }
{
    Error::new(OrderedErrorKind::SequenceEnd)
}
