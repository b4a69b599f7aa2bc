//! What a reader does so that it never hangs, and tells when its stream is gone.
ghost use Rattle.std.specs.Prelude.{◌≡◌};
ghost use Rattle.js_pull.specs.Resilience.{all, none};

/// What an ordered reader does beyond what the readers of async-nats do, so that it never hangs and
/// reports a stream that is gone. With all options off it does what those do. A reader of a pull
/// consumer that is not ordered has all of them off.
#[derive(Clone, Copy, Debug, PartialEq, Eq)]
pub struct Resilience {
    /// Push: answers a heartbeat that names a subject in its header `Nats-Consumer-Stalled`, and
    /// that has no reply subject. A server that misses an answer to flow control sends no message
    /// more, but goes on with heartbeats that name this subject. Without the option, a reader whose
    /// answer got lost waits for ever.
    pub answers_stalled: bool,
    /// Pull: requests the consumer's info at the first heartbeat that is missing, unless it waits
    /// for an info already. Without the option, only the second missing heartbeat shows that the
    /// consumer is gone.
    pub asks_at_first_heartbeat: bool,
    /// Pull: takes the answer that the consumer is not found (error code 10014), or its stream
    /// (10059), as the end of the consumer: an ordered reader recreates it at once. Without the
    /// option, such an answer is a failed try, and up to five more follow.
    pub recreates_when_gone: bool,
    /// Reports an error item if the answer to a create request says that the stream is not found
    /// (error code 10059), once until a create request is answered in another way. The reader goes
    /// on trying. Without the option, nothing says that the stream is gone.
    pub tells_missing_stream: bool,
}

impl Resilience {
    /// Returns all options off.
    pub fn none() -> Resilience
        ensures { result ≡ none }
    {
        Resilience {
            answers_stalled: false,
            asks_at_first_heartbeat: false,
            recreates_when_gone: false,
            tells_missing_stream: false,
        }
    }

    /// Returns all options on.
    pub fn all() -> Resilience
        ensures { result ≡ all }
    {
        Resilience {
            answers_stalled: true,
            asks_at_first_heartbeat: true,
            recreates_when_gone: true,
            tells_missing_stream: true,
        }
    }
}
