//! What a polled consumer shows of what the replay puts out.
use crate::polled::rows::LIMIT;
use js_base::Message;
use js_link::Sent;
use js_ordered::{ItemKind, Output};
use js_ordered_table::place_of;
use js_readers::ordered::{OrderedError, OrderedErrorKind};
use std::alloc::Global;

/// Whether that is what was sent.
pub(crate) fn is_sent(sent: &Sent, output: Option<&Output>) -> bool {
    match (sent, output) {
        (
            Sent::Request {
                number,
                subject,
                payload,
                ..
            },
            Some(
                Output::Request {
                    number: other,
                    subject: to,
                    payload: body,
                },
            ),
        ) => number == other && subject == to && payload == body,
        (
            Sent::Publish {
                subject,
                reply,
                payload,
                ..
            },
            Some(
                Output::Publish {
                    subject: to,
                    reply: answered,
                    payload: body,
                },
            ),
        ) => subject == to && reply == answered && payload == body,
        (
            Sent::Subscribe { inbox, subject, .. },
            Some(
                Output::Subscribe {
                    inbox: other,
                    subject: to,
                },
            ),
        ) => inbox == other && subject == to,
        _ => false,
    }
}

// Whether that is the message, with its place.
fn is_yield(message: &Message, output: Option<&Output>) -> bool {
    match (place_of(message), output) {
        (
            Some(place),
            Some(
                Output::Yield {
                    stream_sequence,
                    consumer_sequence,
                    subject,
                    payload,
                },
            ),
        ) => {
            place.sequence == *stream_sequence
                && place.number == *consumer_sequence
                && message.subject == *subject
                && message.payload == *payload
        }
        _ => false,
    }
}

// The kind of item that a kind of error is. That there is no sequence to go on from is told by the end of a run, and three kinds never come.
fn item_kind(kind: OrderedErrorKind) -> Option<ItemKind> {
    match kind {
        OrderedErrorKind::MissingHeartbeat => Some(ItemKind::MissingHeartbeat),
        OrderedErrorKind::Pull => Some(ItemKind::Pull),
        OrderedErrorKind::Other => Some(ItemKind::Other),
        OrderedErrorKind::Recreate => Some(ItemKind::Recreate),
        OrderedErrorKind::RequestLimitExceeded => Some(ItemKind::RequestLimitExceeded),
        OrderedErrorKind::PushBasedConsumer => Some(ItemKind::PushBasedConsumer),
        OrderedErrorKind::StreamNotFound => Some(ItemKind::StreamNotFound),
        OrderedErrorKind::SequenceEnd
        | OrderedErrorKind::ConsumerDeleted
        | OrderedErrorKind::NoResponders
        | OrderedErrorKind::PullBasedConsumer => None,
    }
}

// Whether a limit is told with what the server says of it. No other error has that to tell.
fn has_limit_text(alloc: Global, error: &OrderedError) -> bool {
    if *error.kind() != OrderedErrorKind::RequestLimitExceeded {
        return true;
    }
    match error.to_string(alloc) {
        Ok(text) => text.as_str() == LIMIT,
        Err(_) => false,
    }
}

/// Whether that is what was handed out.
pub(crate) fn is_handed(
    alloc: Global,
    item: &Result<js_message::Message, OrderedError>,
    output: Option<&Output>,
) -> bool {
    match (item, output) {
        (Ok(message), _) => is_yield(&message.message, output),
        (Err(error), Some(Output::Item { kind })) => {
            item_kind(*error.kind()) == Some(*kind) && has_limit_text(alloc, error)
        }
        _ => false,
    }
}
