//! A consumer, with what happens to it.
ghost use Rattle.std.specs.Prelude.{◌≡◌};
ghost use Rattle.std.specs.Option.{option_copied};
ghost use Rattle.js_ordered.specs.Drive.{matter_now};
ghost use Rattle.js_ordered_table.specs.Fold.{matter_of};
ghost use Rattle.js_ordered_table.specs.Passes.{change_shown, reply_shown};
ghost use Rattle.js_ordered_table.specs.Recreation.{message_on as arrival_on};
ghost use Rattle.js_pull.specs.Reader.{reply_to as answer_to};
ghost use Rattle.js_pull.specs.Rows.{brought};

use js_base::Message;
use js_ordered_table::{Change, ConsumerContext, EventKind, RequestOutcome, change_of};

/// What a consumer is created with, the current moment, and the event of that moment. The opening
/// has no event, since nothing has come yet.
#[derive(Clone, Copy)]
pub(crate) struct EventContext<'a> {
    pub(crate) consumer: ConsumerContext<'a>,
    pub(crate) what: Option<&'a EventKind>,
}

impl EventContext<'_> {
    // What the event says of the connection.
    #[inline]
    pub(crate) fn change(&self) -> Change
        ensures { change_shown result ≡ (matter_now self.now).change }
    {
        match self.what {
            None => Change::Unchanged,
            Some(what) => change_of(what),
        }
    }

    // The message that the event brings on this inbox.
    #[inline]
    pub(crate) fn message_on(&self, inbox: u64) -> Option<&Message>
        ensures { option_copied result ≡ arrival_on inbox (matter_now self.now).arrival }
    {
        match self.what {
            None => None,
            Some(what) => what.message_on(inbox),
        }
    }

    // What became of this request in the event.
    #[inline]
    pub(crate) fn reply_to(&self, request: u64) -> RequestOutcome<'_>
        ensures { reply_shown result ≡ answer_to request (matter_now self.now).answer }
    {
        match self.what {
            None => RequestOutcome::Waiting,
            Some(what) => what.reply_to(request),
        }
    }

    // The message with which the event answers a request, whichever it is.
    pub(crate) fn reply(&self) -> Option<&Message>
        ensures { option_copied result ≡ brought (matter_now self.now).answer }
    {
        match self.what {
            None => None,
            Some(what) => reply_in(what),
        }
    }
}

// The reply that an event brings.
fn reply_in(what: &EventKind) -> Option<&Message>
    ensures { option_copied result ≡ brought (matter_of what.now).answer }
{
    match what {
        EventKind::Answer { reply, .. } => match reply {
            None => None,
            Some(message) => Some(message.get()),
        },
        EventKind::Tick => None,
        EventKind::Arrival { .. } => None,
        EventKind::Link { .. } => None,
        EventKind::Connection { .. } => None,
        EventKind::WatcherEnded => None,
    }
}
