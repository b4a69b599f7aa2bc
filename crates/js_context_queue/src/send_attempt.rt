//! One try to send a message.
ghost use Rattle.js_link.specs.LinkView.{LinkView};
ghost use Rattle.js_context_queue.specs.SendAttempt.{GetsNoneIfFull, StaysTried, Tries};

use js_base::Error;
use js_context::{Attempt, Context, PublishAckFuture, PublishError, PublishErrorKind};
use js_link::{Link, LinkError};
use js_message::OutboundMessage;
use std::alloc::Global;
use std::sync::Wait;

/// The result of one try to send a message.
pub(crate) enum SendResult {
    /// The message was sent.
    Went(PublishAckFuture),
    /// The message was not sent; a later try may send it.
    Stays(PublishErrorKind),
    /// The message cannot be sent.
    Fails(PublishError),
    /// Memory ran out, and the message was not sent.
    NoMemory,
}

/// Tries to send a message. The caller keeps it for a later try.
pub(crate) fn try_to_send<R: Wait, L: Link>(
    message: &OutboundMessage,
    rt: &R,
    alloc: Global,
    context: &mut Context,
    link: &mut L,
) -> SendResult
    ensures tries { Tries message.now result context.old context.new (L.view link.old) (L.view link.new) }
    ensures full { GetsNoneIfFull message.now result context.old context.new (L.view link.old) (L.view link.new) }
    ensures stays { StaysTried message.now result context.old context.new (L.view link.old) (L.view link.new) }
{
    match js_context::try_to_send(message, rt, alloc, context, link) {
        Attempt::Went(future) => SendResult::Went(future),
        Attempt::Full => SendResult::Stays(PublishErrorKind::MaxAckPending),
        Attempt::Barred(kind) => SendResult::Fails(Error::new(kind)),
        Attempt::NoRoom => SendResult::NoMemory,
        Attempt::Unsent(LinkError::Failed) => SendResult::Stays(PublishErrorKind::Other),
        Attempt::Unsent(LinkError::OutOfMemory) => SendResult::NoMemory,
    }
}
