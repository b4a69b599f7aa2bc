//! Polling a double ack in place, as you poll a reader.
ghost use Rattle.js_message.specs.Acknowledgement.{PollsOf};
ghost use Rattle.jetstream.specs.Driver.{AckSleepsInPlace, Drives};

use js_base::{Moment, Next, Turn};
use js_link::Link;
use js_message::{AckError, DoubleAck};
use std::alloc::Global;

/// Polls a double ack in place, as [`drive`](crate::drive) polls a call. When it is done, it returns `Item` with
/// its answer and empties the place. If the place is empty, it returns `End` and leaves the link as
/// it was.
///
/// After `Pending` it waits for a message in its inbox: polling it before that has come, or before
/// its `wakes_at`, changes nothing. After `OutOfMemory` free memory and poll again.
pub fn drive_ack<L: Link>(
    ack: &mut Option<DoubleAck>,
    alloc: Global,
    link: &mut L,
    now: Moment,
) -> Next<Result<(), AckError>>
    ensures drives { Drives PollsOf ack.old ack.new now result (L.view link.old) (L.view link.new) }
    ensures sleeps { AckSleepsInPlace ack.old ack.new now result (L.view link.old) (L.view link.new) }
{
    let Some(call) = ack.take() else {
        return Next::End;
    };
    match call.poll(alloc, link, now) {
        Turn::Ready(answer) => Next::Item(answer),
        Turn::Pending(later) => {
            *ack = Some(later);
            Next::Pending
        }
        Turn::OutOfMemory(later) => {
            *ack = Some(later);
            Next::OutOfMemory
        }
    }
}
