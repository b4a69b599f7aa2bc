//! What a user can watch of a queue.
ghost use Rattle.std.specs.Prelude.{◌≡◌, ◌-◌, Some, length};
ghost use Rattle.js_window.specs.Caller.{held};
ghost use Rattle.js_context_queue.specs.Health.{counts_text, first_since, health_of, health_text, waiting_text};

use super::PublishQueue;
use js_base::Moment;
use std::fmt;

/// What a user can watch of a queue. `pushed - unsent - in_flight` messages have had their outcome.
#[derive(Clone, Copy, Debug, PartialEq, Eq)]
pub struct QueueHealth {
    /// How many messages were pushed.
    pub pushed: u64,
    /// How many messages wait to be sent.
    pub unsent: usize,
    /// How many messages were sent and have no ack yet.
    pub in_flight: usize,
    /// Since when the first unsent message waits, in nanoseconds: the moment of its push. `None` if
    /// every message was sent.
    pub waiting_since: Option<Moment>,
}

// How many messages a queue holds, as it is printed.
#[derive(Clone, Copy)]
struct Counts {
    pushed: u64,
    in_flight: usize,
    unsent: usize,
}

impl fmt::Display for Counts {
    ghost output = { λ c. Some (counts_text c.pushed c.in_flight c.unsent) };

    fn fmt<W: fmt::Write>(&self, f: &mut fmt::Formatter<W>) -> fmt::Result {
        let pushed = self.pushed;
        let in_flight = self.in_flight;
        let unsent = self.unsent;
        write!(
            f,
            "pushed: {pushed}; in flight: {in_flight}; unsent: {unsent}"
        )
    }
}

// Since when the first message waits, as it is printed.
#[derive(Clone, Copy)]
struct WaitingSince(Option<Moment>);

impl fmt::Display for WaitingSince {
    ghost output = { λ waiting. Some (waiting_text waiting.0) };

    fn fmt<W: fmt::Write>(&self, f: &mut fmt::Formatter<W>) -> fmt::Result {
        match self.0 {
            None => f.write_str(""),
            Some(since) => write!(f, ", the first since {since} ns"),
        }
    }
}

impl fmt::Display for QueueHealth {
    ghost output = { λ health. Some (health_text health) };

    fn fmt<W: fmt::Write>(&self, f: &mut fmt::Formatter<W>) -> fmt::Result {
        let counts = Counts {
            pushed: self.pushed,
            in_flight: self.in_flight,
            unsent: self.unsent,
        };
        let waiting = WaitingSince(self.waiting_since);
        write!(f, "{counts}{waiting}")
    }
}

impl PublishQueue {
    // Since when the first message waits to be sent.
    fn first_since(&self) -> Option<Moment>
        ensures { result ≡ first_since self.now.unsent }
    {
        match self.unsent.front() {
            None => None,
            Some(first) => Some(first.since),
        }
    }

    /// Returns how many more messages it could send at once: the permits of its window that its
    /// context does not hold, minus the messages that wait to be sent. If other contexts share the
    /// window, they may hold some of these permits, and then it sends fewer.
    pub fn room(&self) -> u64
        ensures { result ≡ self.now.context.pass.window.capacity - held self.now.context.pass - length self.now.unsent }
    {
        let context = &self.context;
        let free = context.max_ack_inflight().saturating_sub(context.awaited());
        let free = free.saturating_sub(context.detached_len() as u64);
        free.saturating_sub(self.unsent.len() as u64)
    }

    /// Returns how much it holds. Takes no memory, and looks at no link.
    pub fn health(&self) -> QueueHealth
        ensures { result ≡ health_of self.now }
    {
        QueueHealth {
            pushed: self.next,
            unsent: self.unsent.len(),
            in_flight: self.in_flight.len(),
            waiting_since: self.first_since(),
        }
    }
}
