//! The episodes of a generated transcript.
ghost use Rattle.std.specs.Prelude.{◌≡◌, ◌<◌, ◌≤◌, ◌+◌, ◌*◌, ◌%◌, ◌++◌, ◌∷◌, [], length, IfOk, OnOk, Some, string_bytes};
ghost use Rattle.js_tool_generate.specs.Episode as episodes;
ghost use Rattle.js_tool_generate.specs.Transcript as transcript;

use crate::texts;
use bytes::Bytes;
use js_base::{Boxed, Message, OutOfMemory, Subject, all_3, both};
use js_ordered_table::{Event, EventKind};
use std::alloc::Global;

/// Some messages in order, then a gap and the recreation that it causes.
#[derive(Clone, Copy)]
pub(crate) struct Episode {
    /// How many episodes came before it. This is also the number of the inbox that it uses.
    pub(crate) number: u64,
    /// How many messages the earlier episodes delivered in order.
    pub(crate) before: u64,
    /// The random number that decides how many messages it delivers.
    pub(crate) draw: u64,
}

/// The multiplier of the random numbers.
const MULTIPLIER: u64 = 48_271;

/// The modulus of the random numbers: all are below it.
const MODULUS: u64 = 2_147_483_647;

// The next random number.
fn next_draw(draw: u64) -> u64
    requires { draw < 2_147_483_647 }
    ensures { result ≡ 48_271 * draw % 2_147_483_647 }
{
    MULTIPLIER * draw % MODULUS
}

impl Episode {
    /// Returns the first episode of a seed.
    pub(crate) fn first(seed: u64) -> Episode
        ensures { result ≡ record { number = 0; before = 0; draw = episodes.draw seed 1 } }
    {
        Episode {
            number: 0,
            before: 0,
            draw: next_draw(1 + seed % 2_147_483_646),
        }
    }

    // How many messages it delivers in order, 1 to 8.
    fn delivered(&self) -> u64
        ensures { result ≡ 1 + self.now.draw % 8 }
    {
        1 + self.draw % 8
    }

    /// Returns the next episode.
    pub(crate) fn next(&self) -> Episode
        requires number { self.now.number < 1_000_000 }
        requires before { self.now.before < 10_000_000 }
        requires draw { self.now.draw < 2_147_483_647 }
        ensures { result ≡ record {
          number = self.now.number + 1;
          before = self.now.before + (1 + self.now.draw % 8);
          draw = 48_271 * self.now.draw % 2_147_483_647;
        } }
    {
        Episode {
            number: self.number + 1,
            before: self.before + self.delivered(),
            draw: next_draw(self.draw),
        }
    }

    /// Adds the events of this episode.
    #[tactic(auto, using(std::proofs::lemmas::Grind::common_steps, crate::proofs::AddedEvents::pushed, crate::proofs::AddedEvents::next_delivery))]
    pub(crate) fn push_events(
        &self,
        alloc: Global,
        events: &mut Vec<Event>,
    ) -> Result<(), OutOfMemory>
        requires number { self.now.number < 1_000_000 }
        requires before { self.now.before < 10_000_000 }
        requires room { length events.old.items < 1_000_000 }
        ensures { OnOk result (events.new.items ≡ events.old.items
            ++ transcript.at_places (length events.old.items + 1) (
            episodes.deliveries self.now.number self.now.before 1 (1 + self.now.draw % 8)
            ++ episodes.recovery self.now.number self.now.before (1 + self.now.draw % 8))) }
    {
        let delivered = self.delivered();
        for number in 1..delivered + 1 {
            self.push_delivery(alloc, number, events)?;
        }
        self.push_recovery(alloc, delivered, events)
    }

    // Adds the arrival of the message with this number.
    fn push_delivery(
        &self,
        alloc: Global,
        number: u64,
        events: &mut Vec<Event>,
    ) -> Result<(), OutOfMemory>
        requires number { number < 100 }
        requires before { self.now.before < 10_000_000 }
        requires room { length events.old.items < 1_100_000 }
        ensures { OnOk result (events.new.items ≡ events.old.items
            ++ record { at = (length events.old.items + 1) * 1_000_000; what = episodes.delivery self.now.number self.now.before number } ∷ []) }
    {
        let what = self.delivery(alloc, number)?;
        push(events, what)
    }

    // The arrival of the message with this number.
    fn delivery(&self, alloc: Global, number: u64) -> Result<EventKind, OutOfMemory>
        requires number { number < 100 }
        requires before { self.now.before < 10_000_000 }
        ensures { IfOk result (λ what. what ≡ episodes.delivery self.now.number self.now.before number) }
    {
        let sequence = self.before + number;
        let (reply, payload) = both(
            texts::reply(alloc, sequence, number),
            texts::decimal(alloc, sequence),
        )?;
        let message = message(alloc, Some(Subject::from(reply)), payload)?;
        Ok(EventKind::Arrival {
            inbox: self.number,
            message,
        })
    }

    // Adds the gap and what follows it.
    fn push_recovery(
        &self,
        alloc: Global,
        delivered: u64,
        events: &mut Vec<Event>,
    ) -> Result<(), OutOfMemory>
        requires number { self.now.number < 1_000_000 }
        requires before { self.now.before < 10_000_000 }
        requires delivered { delivered < 10 }
        requires room { length events.old.items < 1_050_000 }
        ensures { OnOk result (events.new.items ≡ events.old.items
            ++ transcript.at_places (length events.old.items + 1) (episodes.recovery self.now.number self.now.before delivered)) }
    {
        self.push_delivery(alloc, delivered + 2, events)?;
        let deleted = String::from_str(alloc, r#"{"success":true}"#)?;
        push_answer(alloc, 2 * self.number + 1, deleted, events)?;
        let created = texts::info_of(alloc, self.number + 1)?;
        push_answer(alloc, 2 * self.number + 2, created, events)?;
        self.push_delivery(alloc, delivered + 1, events)
    }
}

// The bytes of a text.
fn bytes_of(text: String) -> Result<Bytes, OutOfMemory>
    ensures { IfOk result (λ bytes. bytes ≡ string_bytes text) }
{
    Ok(Bytes::from_string(text)?)
}

// A message with nothing but this reply subject and payload.
fn message(
    alloc: Global,
    reply: Option<Subject>,
    payload: String,
) -> Result<Boxed<Message>, OutOfMemory>
    ensures { IfOk result (λ message. message ≡ record (episodes.plain (string_bytes payload)) { reply = reply }) }
{
    let length = payload.len() as u64;
    let (reply, subject, payload) = all_3(Ok(reply), Subject::new(alloc, ""), bytes_of(payload))?;
    Boxed::new(
        alloc,
        Message {
            subject,
            reply,
            payload,
            headers: None,
            status: None,
            description: None,
            length,
        },
    )
}

// The answer to a request.
fn answer(alloc: Global, request: u64, payload: String) -> Result<EventKind, OutOfMemory>
    ensures { IfOk result (λ what. what ≡ episodes.answer request (string_bytes payload)) }
{
    let message = message(alloc, None, payload)?;
    Ok(EventKind::Answer {
        request,
        reply: Some(message),
    })
}

// Adds the answer to a request.
fn push_answer(
    alloc: Global,
    request: u64,
    payload: String,
    events: &mut Vec<Event>,
) -> Result<(), OutOfMemory>
    requires { length events.old.items < 2_000_000 }
    ensures { OnOk result (events.new.items ≡ events.old.items
        ++ record { at = (length events.old.items + 1) * 1_000_000; what = episodes.answer request (string_bytes payload) } ∷ []) }
{
    let what = answer(alloc, request, payload)?;
    push(events, what)
}

// Adds what happens, a millisecond after the event before it.
fn push(events: &mut Vec<Event>, what: EventKind) -> Result<(), OutOfMemory>
    requires { length events.old.items < 2_000_000 }
    ensures { OnOk result (events.new.items ≡ events.old.items
        ++ record { at = (length events.old.items + 1) * 1_000_000; what = what } ∷ []) }
{
    let at = (events.len() as u64 + 1) * 1_000_000;
    events.push(Event { at, what })?;
    Ok(())
}
