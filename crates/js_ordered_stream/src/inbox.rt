//! The inbox that is open for an ordered consumer.
ghost use Rattle.std.specs.Prelude.{◌≡◌};
ghost use Rattle.js_ordered_stream.specs.Inbox.{ClosesInbox, inbox_of, opened_inbox};

use js_link::{InboxId, Link};
use js_ordered_table::{Opened, Phase};

// The inbox of the consumer that is being made.
fn opened_inbox(opened: &Option<Opened>) -> Option<InboxId>
    ensures { result ≡ opened_inbox opened.now }
{
    match opened {
        None => None,
        Some(opened) => Some(InboxId(opened.inbox)),
    }
}

// The inbox that is open at this phase.
pub(crate) fn inbox_of(phase: &Phase) -> Option<InboxId>
    ensures { result ≡ inbox_of phase.now }
{
    match phase {
        Phase::Pulls(reader) => Some(InboxId(reader.source.inbox)),
        Phase::Pushes { inbox, .. } => Some(InboxId(*inbox)),
        Phase::Recreates(recreation) => opened_inbox(&recreation.opened),
        Phase::Idle => None,
        Phase::Ended => None,
        Phase::Exhausted => None,
    }
}

// This inbox is closed, where there is one.
pub(crate) fn close_inbox<L: Link>(link: &mut L, inbox: Option<InboxId>)
    ensures { ClosesInbox inbox (L.view link.old) (L.view link.new) }
{
    if let Some(inbox) = inbox {
        link.unsubscribe(inbox);
    }
}
