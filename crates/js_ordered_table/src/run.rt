//! What a consumer puts out, and why a replay is refused.
use bytes::Bytes;
use js_base::{Items, Subject};

/// Where a recreated consumer starts.
#[derive(Clone, Copy, Debug, PartialEq, Eq)]
pub enum Start {
    /// At the first message that the stream still has.
    All,
    /// At this stream sequence.
    From(u64),
}

/// The kind of an error item.
#[derive(Clone, Copy, Debug, PartialEq, Eq)]
pub enum ItemKind {
    /// Push: nothing came from the server for ten seconds.
    MissingHeartbeat,
    /// Pull: the server refused requests of this size twice, with no message in between. The
    /// consumer has ended.
    RequestLimitExceeded,
    /// Pull: the consumer is a push consumer. The consumer has ended.
    PushBasedConsumer,
    /// A pull request was not sent, or six requests for the consumer's info failed.
    Pull,
    /// A recreation has used up its tries. The next event begins another one.
    Recreate,
    /// The answer to a create request says that the stream is not found. It is reported once, until
    /// a create request is answered in another way. The recreation goes on trying.
    StreamNotFound,
    /// An arrival can't be read; or, for push, the connection's state is no longer watched.
    Other,
}

/// What an event puts out.
#[derive(Debug, PartialEq, Eq, Drop)]
pub enum Output {
    /// Hands a message to the user.
    Yield {
        stream_sequence: u64,
        consumer_sequence: u64,
        subject: Subject,
        payload: Bytes,
    },
    /// Hands an error to the user.
    Item {
        kind: ItemKind,
    },
    /// Begins a recreation.
    Recreate {
        recreation_count: u64,
        start: Start,
    },
    /// Sends an API request. Requests are numbered from 1.
    Request {
        number: u64,
        subject: Subject,
        payload: Bytes,
    },
    /// Sends a pull request or an answer to flow control.
    Publish {
        subject: Subject,
        reply: Option<Subject>,
        payload: Bytes,
    },
    /// Opens an inbox. Inboxes are numbered from 0, which is the first consumer's.
    Subscribe {
        inbox: u64,
        subject: Subject,
    },
}

/// What the opening or one event puts out.
#[derive(Debug, PartialEq, Eq, Drop)]
pub struct Step {
    pub outputs: Items<Output>,
}

/// A whole run: its opening, and one step for each event.
#[derive(Debug, PartialEq, Eq, Drop)]
pub struct Run {
    pub opening: Step,
    pub steps: Items<Step>,
    /// Whether the consumer has ended.
    pub ended: bool,
}

/// The field of a setup that is not valid.
#[derive(Clone, Copy, Debug, PartialEq, Eq)]
pub enum Field {
    StreamName,
    Name,
    ApiPrefix,
    InboxPrefix,
    FilterSubject,
    DeliverSubject,
}

/// Why a replay is refused. The checks come in this order; `OutOfMemory` may come before or after
/// any of them.
#[derive(Clone, Copy, Debug, PartialEq, Eq)]
pub enum ReplayError {
    /// The setup is push, and the first consumer's info has no deliver subject.
    NoDeliverSubject,
    /// This field is not a valid name or subject.
    BadSettings { field: Field },
    /// The moment of the event at `place`, from 0, is before that of the previous event or before
    /// the start.
    BadEvent { place: u64 },
    /// At the event at `place`, from 0, a recreation is due after the last of all stream sequences.
    SequenceEnd { place: u64 },
    OutOfMemory,
}

impl From<js_base::OutOfMemory> for ReplayError {
    ghost use Rattle.std.specs.Prelude.{◌≡◌};
    ghost use Rattle.js_ordered_table.specs.declared.run.ReplayError.TheVariants.{OutOfMemory};

    ghost from_gives = { λ _ e. e ≡ OutOfMemory };

    fn from(_error: js_base::OutOfMemory) -> ReplayError {
        ReplayError::OutOfMemory
    }
}
