//! The place of a message in its stream, and among the messages that its consumer was sent.
ghost use Rattle.std.specs.Prelude.{◌≡◌, ◌+◌, ◌↔◌, IfOk, IsTrue, option_map};
ghost use Rattle.js_message.specs.AckSubject.{readable_as};
ghost use Rattle.js_ordered_table.specs.Passes.{place_shown, yielding};

use crate::consumer::Consumer;
use crate::run::Output;
use js_base::{Message, OutOfMemory, TryClone};
use js_message::parse_info;

/// The stream sequence of a message, and its number among the messages that its consumer was sent.
#[derive(Clone, Copy)]
pub struct Place {
    pub sequence: u64,
    pub number: u64,
}

impl Place {
    /// Returns whether the message is the next one after the one with this number.
    pub fn is_after(self, number: u64) -> bool
        ensures { IsTrue result ↔ (self.number ≡ number + 1) }
    {
        self.number > 0 && self.number - 1 == number
    }
}

/// Returns the place that the reply subject of a message states, or `None` if it states none.
pub fn place_of(message: &Message) -> Option<Place>
    ensures { option_map place_shown result ≡ readable_as message.now.reply }
{
    match &message.reply {
        None => None,
        Some(reply) => match parse_info(reply.as_str()) {
            Err(_) => None,
            Ok(info) => Some(Place {
                sequence: info.stream_sequence,
                number: info.consumer_sequence,
            }),
        },
    }
}

/// Returns the output that hands a message to the user. Fails with `OutOfMemory` if memory runs
/// out.
pub fn yield_of(message: &Message, place: Place) -> Result<Output, OutOfMemory>
    ensures { IfOk result (λ output. output ≡ Output.Yield place.sequence place.number message.now.subject message.now.payload) }
{
    let subject = message.subject.try_clone()?;
    match message.payload.clone() {
        Ok(payload) => Ok(Output::Yield {
            stream_sequence: place.sequence,
            consumer_sequence: place.number,
            subject,
            payload,
        }),
        Err(_) => {
            drop(subject);
            Err(OutOfMemory)
        }
    }
}

impl Consumer {
    /// Counts the message at this place as yielded, if it is the next one.
    #[inline]
    pub fn accept(&mut self, place: Place)
        ensures { self.new ≡ yielding (place_shown place) self.old }
    {
        if self.core.accept(place.sequence, place.number) {
            self.limited = false;
        }
    }
}
