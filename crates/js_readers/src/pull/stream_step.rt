//! What one part of a stream's event returns.
ghost use Rattle.std.specs.Prelude.{◌≡◌};
ghost use Rattle.js_readers.specs.Stream.{IsTimedAdvance, untimed_advance};

use js_base::Nanos;
use js_message::Message;
use js_pull::MessagesError;

/// What [`Stream::advance`](crate::pull::Stream::advance) returns.
#[derive(Drop)]
#[must_use = "it holds the message"]
pub enum Advance {
    /// What the stream reports in place of a message.
    Item(MessagesError),
    /// A message.
    Message(Message),
    /// The inbox is closed. Nothing more will come.
    Closed,
    /// The event is over.
    Done,
    /// Memory ran out. The next call goes on from where this one stopped.
    OutOfMemory,
}

// What the stream below answers. A double ack of its message waits for so many nanoseconds.
pub(crate) fn timed_advance(answer: js_pull::Advance, timeout: Nanos) -> Advance
    ensures same { untimed_advance result ≡ answer }
    ensures timed { IsTimedAdvance timeout result }
{
    match answer {
        js_pull::Advance::Item(error) => Advance::Item(error),
        js_pull::Advance::Message(message) => Advance::Message(Message { message, timeout }),
        js_pull::Advance::Closed => Advance::Closed,
        js_pull::Advance::Done => Advance::Done,
        js_pull::Advance::OutOfMemory => Advance::OutOfMemory,
    }
}
