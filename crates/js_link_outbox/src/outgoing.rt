//! What an adapter has to send, and who gets what it delivers.
use bytes::Bytes;
use js_base::{HeaderMap, Subject, Text};
use js_link::{InboxId, RequestId};

/// One thing that an adapter has to send. Each text, header and length in it was tested: none can be
/// read as something else on a wire.
#[derive(Debug, PartialEq, Eq, Drop)]
pub enum Outgoing {
    /// Start a subscription. Deliver what comes for it under its number.
    Subscribe {
        subscription: u64,
        subject: Subject,
        group: Option<Text>,
    },
    /// End a subscription.
    Unsubscribe {
        subscription: u64,
    },
    /// Publish a message. If it makes a request, its reply subject is the request's own.
    Publish {
        subject: Subject,
        reply: Option<Subject>,
        headers: Option<HeaderMap>,
        payload: Bytes,
        request: Option<RequestId>,
    },
}

/// Who gets a message that came.
#[derive(Clone, Copy, Debug, PartialEq, Eq)]
pub enum Delivery {
    /// It was appended to this inbox.
    Inbox(InboxId),
    /// It is the answer to this request.
    Request(RequestId),
    /// Nobody: its inbox is closed, or its request has its answer already, is over, or was never
    /// made. The message was dropped.
    Nobody,
}
