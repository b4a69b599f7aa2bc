//! What happens to an ordered consumer, and when.
use js_base::{Boxed, Message, Moment, State};

/// Something that happens at a moment. The message is boxed because most events of a long
/// transcript carry none.
#[derive(Debug, PartialEq, Eq, Drop)]
pub struct Event {
    pub at: Moment,
    pub what: EventKind,
}

/// What happens.
#[derive(Debug, PartialEq, Eq, Drop)]
pub enum EventKind {
    /// Only time passes.
    Tick,
    /// A message arrives on the inbox with this number. Inboxes are numbered from 0 in the order of
    /// subscribing.
    Arrival {
        inbox: u64,
        message: Boxed<Message>,
    },
    /// The request with this number is answered. Requests are numbered from 1 in the order of
    /// sending. A reply of `None` means that the replier is gone.
    Answer {
        request: u64,
        reply: Option<Boxed<Message>>,
    },
    /// From now on sends go through (`up`), or they fail.
    Link {
        up: bool,
    },
    /// The connection is in this state from now on.
    Connection {
        state: State,
    },
    /// The connection's state is no longer watched.
    WatcherEnded,
}
