//! Polling a call in place, as you poll a reader.
ghost use Rattle.jetstream.specs.Driver.{Drives, PendsInPlace, SleepsInPlace};

use js_base::{Moment, Next, Turn};
use js_call::State;
use js_link::Link;
use std::alloc::Global;

/// Polls a call in place. When the call is done, it returns `Item` with the call's answer and
/// empties the place. If the place is empty, it returns `End` and leaves the link as it was.
///
/// After `Pending` the call waits for the answer to its `request`: polling it before that has come,
/// or before its `wakes_at`, changes nothing. After `OutOfMemory` the call is as [`State::poll`]
/// says: free memory and poll again.
pub fn drive<S: State, L: Link>(
    call: &mut Option<S>,
    alloc: Global,
    link: &mut L,
    now: Moment,
) -> Next<S::Answer>
    ensures drives { Drives S.polled call.old call.new now result (L.view link.old) (L.view link.new) }
    ensures sleeps { SleepsInPlace S.waits_for call.old call.new now result (L.view link.old) (L.view link.new) }
    ensures pends { PendsInPlace S.waits_for call.new result }
{
    let Some(state) = call.take() else {
        return Next::End;
    };
    match state.poll(alloc, link, now) {
        Turn::Ready(answer) => Next::Item(answer),
        Turn::Pending(later) => {
            *call = Some(later);
            Next::Pending
        }
        Turn::OutOfMemory(later) => {
            *call = Some(later);
            Next::OutOfMemory
        }
    }
}
