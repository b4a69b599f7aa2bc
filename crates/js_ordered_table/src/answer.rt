//! What an event brings for an open request, for an inbox, or from the connection.
ghost use Rattle.std.specs.Prelude.{◌≡◌, option_map};
ghost use Rattle.std.specs.Option.{option_copied};
ghost use Rattle.js_ordered_table.specs.Fold.{matter_of};
ghost use Rattle.js_ordered_table.specs.Passes.{change_shown, reply_shown};
ghost use Rattle.js_ordered_table.specs.Recreation.{message_on};
ghost use Rattle.js_pull.specs.Reader.{reply_to};

use crate::event::EventKind;
use js_base::{Message, State};

/// What became of a request in an event.
pub enum RequestOutcome<'a> {
    /// The event did not answer it.
    Waiting,
    /// The replier is gone.
    Gone,
    /// This message answered it.
    Got(&'a Message),
}

impl EventKind {
    /// Returns what became of this request in the event.
    pub fn reply_to(&self, number: u64) -> RequestOutcome<'_>
        ensures { reply_shown result ≡ reply_to number (matter_of self.now).answer }
    {
        match self {
            EventKind::Answer { request, reply } if *request == number => match reply {
                None => RequestOutcome::Gone,
                Some(message) => RequestOutcome::Got(message.get()),
            },
            _ => RequestOutcome::Waiting,
        }
    }

    /// Returns the message that arrives on this inbox in the event.
    pub fn message_on(&self, number: u64) -> Option<&Message>
        ensures { option_copied result ≡ message_on number (matter_of self.now).arrival }
    {
        match self {
            EventKind::Arrival { inbox, message } if *inbox == number => Some(message.get()),
            _ => None,
        }
    }
}

/// What an event says about the connection.
pub enum Change {
    /// Nothing.
    Unchanged,
    /// It is in this state from now on, which may be the state that it was in before.
    Becomes(State),
    /// Its state is no longer watched.
    WatcherEnds,
}

/// Returns what an event says about the connection.
pub fn change_of(what: &EventKind) -> Change
    ensures { change_shown result ≡ (matter_of what.now).change }
{
    match what {
        EventKind::Connection { state } => Change::Becomes(*state),
        EventKind::WatcherEnded => Change::WatcherEnds,
        EventKind::Tick => Change::Unchanged,
        EventKind::Arrival { .. } => Change::Unchanged,
        EventKind::Answer { .. } => Change::Unchanged,
        EventKind::Link { .. } => Change::Unchanged,
    }
}
