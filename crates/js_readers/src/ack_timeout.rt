//! A reader's answer, with how long a double ack of its message waits.
ghost use Rattle.std.specs.Prelude.{◌≡◌};
ghost use Rattle.js_readers.specs.Stream.{IsTimed, untimed};

use js_base::{Nanos, Next};
use js_message::Message;

// What the reader below answers. A double ack of its message waits for so many nanoseconds.
pub(crate) fn timed<E>(
    answer: Next<Result<js_base::Message, E>>,
    timeout: Nanos,
) -> Next<Result<Message, E>>
    ensures same { untimed result ≡ answer }
    ensures timed { IsTimed timeout result }
{
    match answer {
        Next::Pending => Next::Pending,
        Next::Item(Ok(message)) => Next::Item(Ok(Message { message, timeout })),
        Next::Item(Err(error)) => Next::Item(Err(error)),
        Next::End => Next::End,
        Next::OutOfMemory => Next::OutOfMemory,
    }
}
