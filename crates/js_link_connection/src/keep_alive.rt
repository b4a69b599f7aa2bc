//! Whether the server still answers.

ghost use Rattle.std.specs.Prelude.{◌≡◌};
ghost use Rattle.js_base.specs.Clock.{is_due};
ghost use Rattle.js_link_connection.specs.Connection.{quiet_after, wake, wake_in, after_wake};

use crate::writer::Phase;
use js_base::{Moment, Timer};

/// What to do at the moment at which a connection is woken.
#[derive(Clone, Copy, Debug, PartialEq, Eq)]
pub(crate) enum Wake {
    /// Do nothing: it is too early.
    Early,
    /// Send a PING.
    Ping,
    /// End the connection: the server does not answer.
    Silent,
}

/// Since when nothing has come, and how many PINGs have no answer.
#[derive(Clone, Copy, Debug, PartialEq, Eq)]
pub(crate) struct KeepAlive {
    pub(crate) quiet: Timer,
    pub(crate) unanswered: u8,
}

/// The number of PINGs without an answer after which a connection counts as lost.
pub(crate) const MOST_UNANSWERED: u8 = 2;

impl KeepAlive {
    // Bytes came.
    pub(crate) fn hear(&mut self, bytes: &[u8], now: Moment)
        ensures { self.new ≡ record self.old { quiet = quiet_after bytes.now now self.old.quiet } }
    {
        if bytes.len() == 0 {
            return;
        }
        self.quiet.set = now;
    }

    // What a moment asks for after CONNECT. A PING counts as sent.
    fn wake(&mut self, now: Moment) -> Wake
        ensures result { result ≡ wake self.old now }
        ensures next { self.new ≡ after_wake (wake self.old now) self.old now }
    {
        if !self.quiet.is_due(now) {
            return Wake::Early;
        }
        if self.unanswered >= MOST_UNANSWERED {
            return Wake::Silent;
        }
        self.unanswered += 1;
        self.quiet.set = now;
        Wake::Ping
    }

    // The same before INFO, when a PING has no place.
    fn wait(&self, now: Moment) -> Wake
        ensures { result ≡ wake_in Phase.Awaiting self.now now }
    {
        if self.quiet.is_due(now) {
            Wake::Silent
        } else {
            Wake::Early
        }
    }

    // What a moment asks for, by how far the connection has come.
    pub(crate) fn wake_in(&mut self, phase: Phase, now: Moment) -> Wake
        ensures result { result ≡ wake_in phase self.old now }
        ensures next { self.new ≡ after_wake (wake_in phase self.old now) self.old now }
    {
        match phase {
            Phase::Lost => Wake::Early,
            Phase::Awaiting => self.wait(now),
            Phase::Greeting => self.wake(now),
            Phase::Up => self.wake(now),
        }
    }
}
