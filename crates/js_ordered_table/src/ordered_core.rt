//! The core of an ordered consumer: which message it yields next, and where a recreation starts.
ghost use Rattle.std.specs.Prelude.{◌≡◌, ◌<◌, ◌+◌, ◌==◌, ◌↔◌, IfOk, IsErr, OnErr, OnOk, true, false};
ghost use Rattle.js_pull.specs.Reader.{u64_max};
ghost use Rattle.js_ordered_table.specs.OrderedCore as cores;

use crate::run::Start;

/// The numbers of an ordered consumer, and its configured start.
#[derive(Clone, Copy, Debug, PartialEq, Eq)]
pub struct OrderedCore {
    /// The last yielded stream sequence; 0 if nothing was yielded.
    pub stream_sequence: u64,
    /// The last accepted consumer sequence; 0 if nothing was accepted on the current inbox.
    pub consumer_sequence: u64,
    /// The number of recreations.
    pub recreation_count: u64,
    /// The sequence from which the first consumer starts, if the setup names one above 0.
    pub start: Option<u64>,
}

/// The last of all stream sequences was yielded, so no recreation can start after it.
#[derive(Clone, Copy, Debug, PartialEq, Eq)]
pub struct AtEnd;

// Where a recreation starts: after the last yield, else at the configured start.
fn start_after(start: Option<u64>, last: u64) -> Start
    requires { last < u64.MAX }
    ensures { result ≡ cores.start_after start last }
{
    if last > 0 {
        return Start::From(last + 1);
    }
    match start {
        None => Start::All,
        Some(sequence) => Start::From(sequence),
    }
}

impl OrderedCore {
    /// Creates the core of a consumer that has yielded nothing and was not recreated.
    pub fn new(start: Option<u64>) -> OrderedCore
        ensures { result ≡ cores.new_core start }
    {
        OrderedCore {
            stream_sequence: 0,
            consumer_sequence: 0,
            recreation_count: 0,
            start,
        }
    }

    /// Accepts the message with this consumer sequence if it is the next one, and keeps both
    /// numbers as the last ones. Returns whether it accepted the message.
    pub fn accept(&mut self, stream_sequence: u64, consumer_sequence: u64) -> bool
        ensures accepted { result ≡ (consumer_sequence == self.old.consumer_sequence + 1) }
        ensures kept { result ≡ true → self.new ≡ cores.after_yield stream_sequence consumer_sequence self.old }
        ensures stays { result ≡ false → self.new ≡ self.old }
    {
        if consumer_sequence == 0 || consumer_sequence - 1 != self.consumer_sequence {
            return false;
        }
        self.stream_sequence = stream_sequence;
        self.consumer_sequence = consumer_sequence;
        true
    }

    /// Begins a recreation, whose consumer counts from 1 again, and returns where it starts.
    ///
    /// # Errors
    ///
    /// Fails with `AtEnd` if the last of all stream sequences was yielded. Nothing has changed
    /// then.
    pub fn restart(&mut self) -> Result<Start, AtEnd>
        ensures ended { IsErr result ↔ (self.old.stream_sequence ≡ u64_max) }
        ensures stays { OnErr result (self.new ≡ self.old) }
        ensures restarted { OnOk result (self.new ≡ cores.after_restart self.old) }
        ensures start { IfOk result (λ start. start ≡ cores.restart_at self.old) }
    {
        if self.stream_sequence == u64::MAX {
            return Err(AtEnd);
        }
        self.consumer_sequence = 0;
        self.recreation_count = self.recreation_count.saturating_add(1);
        Ok(start_after(self.start, self.stream_sequence))
    }
}
