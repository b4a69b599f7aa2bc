//! Turns the entries of a mirror into the events that a consumer of the stream would receive.

ghost use Rattle.std.specs.Prelude.{◌≡◌, ◌<◌, ◌^◌, IfOk, OnOk, IsTrue, string_bytes};
ghost use Rattle.js_codes.specs.Name.{is_name};
ghost use Rattle.js_json.specs.declared.consumer.info.Info as infos;
ghost use Rattle.js_event_log.specs.Events as relayed;
ghost use Rattle.js_event_log.specs.RelayReader.{Replays, IsReader, default_reader};
ghost use Rattle.js_event_log.specs.LogCopy.{StaysHonest, ShowsEachLog};

use crate::Mirror;
use js_base::{Boxed, Entry, Message, OutOfMemory, Subject, TryClone};
use js_ordered_table::{Event, EventKind};
use std::alloc::{AllocError, Global};

/// Returns the acknowledgement subject, in the short form, of a message: `sequence` is its sequence
/// in the stream, `number` its sequence at the consumer. The subject says that the message was
/// delivered once and stored at time 0, with none pending after it. The names are copied unchecked:
/// if one contains a dot, the subject means something else.
///
/// # Errors
///
/// Fails with `AllocError` if memory runs out.
pub fn ack_subject(
    alloc: Global,
    stream: &str,
    name: &str,
    sequence: u64,
    number: u64,
) -> Result<String, AllocError>
    ensures { IfOk result (λ text. string_bytes text ≡ relayed.reply stream.now name.now sequence number) }
{
    format!(in alloc; "$JS.ACK.{stream}.{name}.1.{sequence}.{number}.0.0")
}

// An entry as the message with this number.
fn message(
    alloc: Global,
    stream: &str,
    name: &str,
    number: u64,
    entry: &Entry,
) -> Result<Message, OutOfMemory>
    ensures message { IfOk result (λ message. message ≡ relayed.message stream.now name.now number entry.now) }
    ensures fits { entry.now.sequence < 2 ^ 64 }
{
    let reply = Subject::from(ack_subject(alloc, stream, name, entry.sequence, number)?);
    Ok(Message {
        subject: entry.subject.try_clone()?,
        reply: Some(reply),
        payload: entry.payload.clone()?,
        headers: None,
        status: None,
        description: None,
        length: entry.payload.len() as u64,
    })
}

// The arrival of an entry as the message with this number.
fn arrival(
    alloc: Global,
    stream: &str,
    name: &str,
    number: u64,
    entry: &Entry,
) -> Result<Event, OutOfMemory>
    ensures event { IfOk result (λ event. event ≡ relayed.arrival stream.now name.now number entry.now) }
    ensures fits { entry.now.sequence < 2 ^ 64 }
{
    let message = Boxed::new(alloc, message(alloc, stream, name, number, entry)?)?;
    Ok(Event {
        at: number,
        what: EventKind::Arrival { inbox: 0, message },
    })
}

// The arrivals of entries one after another, numbered from 1.
#[tactic(auto, using(std::proofs::lemmas::Grind::common_steps, crate::proofs::Arrivals::arrives, crate::proofs::Arrivals::fits_more, crate::proofs::Arrivals::all_arrived, crate::proofs::Arrivals::all_fit, crate::proofs::Arrivals::at_end))]
fn arrivals(
    alloc: Global,
    stream: &str,
    name: &str,
    entries: &[Entry],
) -> Result<Vec<Event>, OutOfMemory>
    ensures events { IfOk result (λ events. events.items ≡ relayed.relayed stream.now name.now 1 entries.now) }
    ensures fit { OnOk result (relayed.AllFit entries.now) }
{
    let mut events = Vec::with_capacity(alloc, entries.len())?;
    let mut number = 0;
    for entry in entries {
        number += 1;
        events.push(arrival(alloc, stream, name, number, entry)?)?;
    }
    Ok(events)
}

impl Mirror {
    /// Returns the events that a consumer called `name` receives from a stream called `stream` that
    /// holds the mirror's entries. The kth event (from 1) is an arrival at moment k on inbox 0. It
    /// brings the kth entry, with the entry's sequence and the number k in its reply. Both names
    /// have to be valid.
    ///
    /// If an ordered pull consumer with good settings replays the events from start 0, it hands out
    /// the mirror's entries, in order, without an error item and without a recreation, unless
    /// memory runs out. If the mirror is that of a run with an honest server, the events are honest
    /// for the same log and the same removed messages, for a consumer that has the same filters and
    /// is configured to start where the mirror does. So reading a mirror shows as much of the
    /// original log as reading the stream: the only gaps are removed messages.
    ///
    /// # Errors
    ///
    /// Fails only with `OutOfMemory`.
    pub fn relay(&self, alloc: Global, stream: &str, name: &str) -> Result<Vec<Event>, OutOfMemory>
        requires stream { IsTrue (is_name stream.now) }
        requires name { IsTrue (is_name name.now) }
        ensures events { IfOk result (λ events. events.items ≡ relayed.relayed stream.now name.now 1 self.now.entries) }
        ensures replays { IfOk result (λ events. Replays self.now.entries events.items) }
        ensures default_reads { (first : infos.Info) → first.stream_name ≡ stream.now → first.name ≡ name.now → IsReader (default_reader self.now.start first) }
        ensures honest { IfOk result (λ events. StaysHonest self.now events.items) }
        ensures log { ShowsEachLog self.now }
    {
        arrivals(alloc, stream, name, self.entries())
    }
}
