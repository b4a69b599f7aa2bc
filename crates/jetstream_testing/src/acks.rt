//! Acknowledgements.

ghost use Rattle.std.specs.Prelude.{◌≡◌, ◌==◌, filter, not};

use crate::configs::AckPolicy;
use crate::consumer::{Consumer, Unacked};
use crate::json::{json_of, number_at};
use js_base::{Moment, Nanos, OutOfMemory};
use std::alloc::Global;

// What a reader says of a message.
#[derive(Clone, Copy)]
pub(crate) enum Ack {
    // It was handled, or is not to come again.
    Done,
    // It is to come again after this time.
    Again(Nanos),
    // It is still being handled.
    Progress,
}

// Reads the body of an acknowledgement.
pub(crate) fn ack_of(alloc: Global, body: &[u8]) -> Result<Ack, OutOfMemory> {
    if body.starts_with(b"+WPI") {
        return Ok(Ack::Progress);
    }
    if !body.starts_with(b"-NAK") {
        return Ok(Ack::Done);
    }
    let settings = json_of(alloc, body.get(4..).unwrap_or(b""))?;
    let delay = number_at(&settings, "delay");
    drop(settings);
    Ok(Ack::Again(delay))
}

// Where an acknowledgement belongs: the last words of its subject after `$JS.ACK.`.
#[derive(Clone, Copy)]
pub(crate) struct AckPlace<'a> {
    pub(crate) stream: &'a str,
    pub(crate) consumer: &'a str,
    pub(crate) sequence: u64,
}

// Reads the subject of an acknowledgement after `$JS.ACK.`: stream, consumer, deliveries, sequence
// and more.
pub(crate) fn ack_place(names: &str) -> Option<AckPlace<'_>> {
    let (stream, rest) = names.split_once('.')?;
    let (consumer, rest) = rest.split_once('.')?;
    let (_deliveries, rest) = rest.split_once('.')?;
    let (sequence, _rest) = rest.split_once('.')?;
    let sequence = sequence.parse::<u64>().ok()?;
    Some(AckPlace {
        stream,
        consumer,
        sequence,
    })
}

impl Consumer {
    // Settles a message, and returns whether it is done.
    pub(crate) fn settle(&mut self, ack: Ack, sequence: u64, now: Moment) -> bool {
        match ack {
            Ack::Done => self.finish(sequence),
            Ack::Again(delay) => {
                self.set_due(sequence, now.saturating_add(delay));
                false
            }
            Ack::Progress => {
                self.set_due(sequence, now.saturating_add(self.config.ack_wait));
                false
            }
        }
    }

    fn finish(&mut self, sequence: u64) -> bool {
        let before = self.unacked.len();
        if self.config.ack_policy == AckPolicy::All {
            self.unacked.retain(|unacked| unacked.sequence >= sequence);
        }
        self.forget(sequence);
        self.unacked.len() < before
    }

    // A message no longer waits for its acknowledgement.
    fn forget(&mut self, sequence: u64)
        ensures { self.new.unacked.items ≡ filter (λ unacked. not (unacked.sequence == sequence)) self.old.unacked.items }
    {
        self.unacked.retain(|unacked| unacked.sequence != sequence);
    }

    fn set_due(&mut self, sequence: u64, due: Moment) {
        for unacked in &mut self.unacked {
            if unacked.sequence == sequence {
                unacked.due = due;
            }
        }
    }

    // The last delivery up to which all are acknowledged: its number, and its sequence.
    pub(crate) fn ack_floor(&self) -> (u64, u64) {
        let mut floor = (self.number, self.last);
        for unacked in self.unacked.as_slice() {
            floor.0 = floor.0.min(unacked.number.saturating_sub(1));
            floor.1 = floor.1.min(unacked.sequence.saturating_sub(1));
        }
        floor
    }

    // How many of the unacknowledged messages were delivered more than once.
    pub(crate) fn redelivered(&self) -> usize {
        self.unacked
            .iter()
            .filter(|unacked: &&Unacked| unacked.deliveries > 1)
            .count()
    }
}
