//! Messages in flight: they were sent, and their acks are awaited.
ghost use Rattle.js_context_queue.specs.InFlight.{AreAwaited, Detaches};

use crate::published::Tag;
use js_context::{Context, PublishAckFuture};
use std::collections::VecDeque;

/// A message that was sent, and whose ack is awaited.
pub(crate) struct InFlight {
    pub(crate) tag: Tag,
    pub(crate) future: PublishAckFuture,
}

/// Detaches all these acks, so that the context settles them.
pub(crate) fn detach_all(context: &mut Context, mut in_flight: VecDeque<InFlight>)
    requires { AreAwaited in_flight.items context.old }
    ensures { Detaches in_flight.items context.old context.new }
{
    while let Some(InFlight { tag: _, future }) = in_flight.pop_front() {
        future.detach(context);
    }
    in_flight.destroy_empty();
}
