//! What a recorder takes from its link, and the event that it is.
ghost use Rattle.std.specs.Prelude.{◌≡◌, IfOk};
ghost use Rattle.js_ordered_recorder.specs.LinkInput.{kind_of, message_at, message_in};

use js_base::{Boxed, Message, OutOfMemory, State, TryClone};
use js_ordered_table::EventKind;
use std::alloc::Global;

/// What a recorder takes from its link in one turn.
#[derive(Drop)]
pub(crate) enum Taken {
    /// The caller has said that the link is up, or that it is down.
    Link { up: bool },
    /// The connection is in another state.
    Connection { state: State },
    WatcherEnded,
    /// No answer will come to the replay's request with this number.
    Gone { request: u64 },
    /// The answer to the replay's request with this number.
    Answer { request: u64, message: Message },
    /// The first message of the replay's inbox with this number.
    Arrival { inbox: u64, message: Message },
    /// A timer is due.
    Tick,
}

// A copy on the heap.
fn copy_of(alloc: Global, message: &Message) -> Result<Boxed<Message>, OutOfMemory>
    ensures { IfOk result (λ copy. copy ≡ message.now) }
{
    Boxed::new(alloc, message.try_clone()?)
}

impl Taken {
    // What happens by it. The event has a copy of the message.
    pub(crate) fn kind(&self, alloc: Global) -> Result<EventKind, OutOfMemory>
        ensures { IfOk result (λ kind. kind ≡ kind_of self.now) }
    {
        match self {
            Taken::Link { up } => Ok(EventKind::Link { up: *up }),
            Taken::Connection { state } => Ok(EventKind::Connection { state: *state }),
            Taken::WatcherEnded => Ok(EventKind::WatcherEnded),
            Taken::Gone { request } => Ok(EventKind::Answer {
                request: *request,
                reply: None,
            }),
            Taken::Answer { request, message } => Ok(EventKind::Answer {
                request: *request,
                reply: Some(copy_of(alloc, message)?),
            }),
            Taken::Arrival { inbox, message } => Ok(EventKind::Arrival {
                inbox: *inbox,
                message: copy_of(alloc, message)?,
            }),
            Taken::Tick => Ok(EventKind::Tick),
        }
    }

    // The message that was taken.
    pub(crate) fn into_message(self) -> Option<Message>
        ensures { result ≡ message_in self }
    {
        match self {
            Taken::Answer { message, .. } => Some(message),
            Taken::Arrival { message, .. } => Some(message),
            Taken::Link { .. }
            | Taken::Connection { .. }
            | Taken::WatcherEnded
            | Taken::Gone { .. }
            | Taken::Tick => None,
        }
    }
}

// The message of what was taken, if something was.
pub(crate) fn message_of(taken: Option<Taken>) -> Option<Message>
    ensures { result ≡ message_at taken }
{
    match taken {
        None => None,
        Some(taken) => taken.into_message(),
    }
}
