//! The error that an item of the replay is.
ghost use Rattle.std.specs.Prelude.{◌≡◌, None};
ghost use Rattle.js_base.specs.Error.{kind_of, source_of};
ghost use Rattle.js_ordered_stream.specs.Ordered.{error_kind, source_by};
ghost use Rattle.js_ordered_recorder.specs.Sends.{left_by};

use js_base::{Error, Message, Source};
use js_ordered_stream::{OrderedError, OrderedErrorKind};
use js_ordered_table::ItemKind;
use js_pull::description_of;

fn error_kind_of(kind: ItemKind) -> OrderedErrorKind
    ensures { result ≡ error_kind kind }
{
    match kind {
        ItemKind::MissingHeartbeat => OrderedErrorKind::MissingHeartbeat,
        ItemKind::RequestLimitExceeded => OrderedErrorKind::RequestLimitExceeded,
        ItemKind::PushBasedConsumer => OrderedErrorKind::PushBasedConsumer,
        ItemKind::Pull => OrderedErrorKind::Pull,
        ItemKind::Recreate => OrderedErrorKind::Recreate,
        ItemKind::Other => OrderedErrorKind::Other,
        ItemKind::StreamNotFound => OrderedErrorKind::StreamNotFound,
    }
}

// The error of a limit that this message told of.
fn limit_error(message: Option<Message>) -> OrderedError
    ensures tells { kind_of result ≡ OrderedErrorKind.RequestLimitExceeded }
    ensures source { source_of result ≡ source_by OrderedErrorKind.RequestLimitExceeded message }
{
    match description_of(message) {
        None => Error::new(OrderedErrorKind::RequestLimitExceeded),
        Some(text) => {
            Error::with_source(OrderedErrorKind::RequestLimitExceeded, Source::Text(text))
        }
    }
}

// The error that an item is. A limit is told with the description of the message that told of it.
pub(crate) fn error_of(kind: ItemKind, message: &mut Option<Message>) -> OrderedError
    ensures tells { kind_of result ≡ error_kind kind }
    ensures source { source_of result ≡ source_by (error_kind kind) message.old }
    ensures left { message.new ≡ left_by kind message.old }
{
    match kind {
        ItemKind::RequestLimitExceeded => limit_error(message.take()),
        ItemKind::MissingHeartbeat
        | ItemKind::PushBasedConsumer
        | ItemKind::Pull
        | ItemKind::Recreate
        | ItemKind::Other
        | ItemKind::StreamNotFound => Error::new(error_kind_of(kind)),
    }
}
