//! What happens to the link by an event of a transcript.
use js_base::OutOfMemory;
use js_link::{InboxId, MemoryLink, RequestId, Watch};
use js_ordered_table::EventKind;

/// Has the link meet what the event tells.
pub(crate) fn happen(link: &mut MemoryLink, what: EventKind) -> Result<(), OutOfMemory> {
    match what {
        EventKind::Tick => Ok(()),
        EventKind::Arrival { inbox, message } => link.deliver(InboxId(inbox), message.into_inner()),
        EventKind::Answer { request, reply } => match reply {
            None => link.respond(RequestId(request), None),
            Some(reply) => link.respond(RequestId(request), Some(reply.into_inner())),
        },
        EventKind::Link { up } => {
            link.set_up(up);
            Ok(())
        }
        EventKind::Connection { state } => {
            link.set_watch(Watch::State(state));
            Ok(())
        }
        EventKind::WatcherEnded => {
            link.set_watch(Watch::Ended);
            Ok(())
        }
    }
}
