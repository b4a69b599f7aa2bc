//! How a connection begins, stays alive, and ends.

ghost use Rattle.std.specs.Prelude.{◌≡◌, ◌<◌, ◌^◌, ℕ};
ghost use Rattle.js_base.specs.Clock.{has_come};
ghost use Rattle.js_link_outbox.specs.Calls.{SendsNothing};
ghost use Rattle.js_link_outbox.specs.Outbox.{front, outbox_view, outgoing};
ghost use Rattle.js_link_connection.specs.Connection.{IsFresh, IsWoken, Outlasts, after_wake, ended_view, in_state, is_quiet, ping_after, those_open, wake_in};

use crate::connection::Connection;
use crate::error::ConnectionError;
use crate::keep_alive::Wake;
use crate::writer::Phase;
use js_base::{Moment, State, replace_with};
use js_link::{Link, RequestId};
use js_link_outbox::OutboxLink;

// The requests of these numbers get no answer any more.
fn end_requests(link: &mut OutboxLink, numbers: &[u64])
    ensures view { outbox_view link.new ≡ ended_view numbers.now (outbox_view link.old) }
    ensures sends { SendsNothing link.old link.new }
{
    for number in numbers {
        link.forget(RequestId(*number));
    }
}

// The numbers of requests that were given up over the link are kept no longer.
fn drop_forgotten(link: &OutboxLink, requests: &mut Vec<u64>)
    ensures { requests.new.items ≡ those_open link.now requests.old.items }
{
    requests.retain(|number| link.has_request(RequestId(*number)));
}

impl Connection {
    /// Tells that a connection was made at `now`: the next bytes received are its first.
    ///
    /// Once its INFO has come, CONNECT is written, then the open subscriptions, then what was held
    /// back. Anything left of an earlier connection is treated as after `lost`.
    pub fn made(&mut self, now: Moment)
        ensures link { outbox_view self.new.link ≡ in_state State.Disconnected (ended_view self.old.writer.requests.items (outbox_view self.old.link)) }
        ensures fresh { IsFresh self.new }
        ensures outlasts { Outlasts self.old self.new }
        ensures phase { self.new.writer.phase ≡ Phase.Awaiting }
        ensures quiet { self.new.keep_alive.quiet.set ≡ now }
    {
        self.lost();
        self.writer.phase = Phase::Awaiting;
        self.keep_alive.quiet.set = now;
    }

    /// Tells that the connection is lost. Requests that were written and have no answer end.
    /// Subscriptions stay open. Bytes that were to be sent are gone. Anything else that the link has
    /// to send is held back until a connection is made again.
    pub fn lost(&mut self)
        ensures link { outbox_view self.new.link ≡ in_state State.Disconnected (ended_view self.old.writer.requests.items (outbox_view self.old.link)) }
        ensures fresh { IsFresh self.new }
        ensures outlasts { Outlasts self.old self.new }
        ensures phase { self.new.writer.phase ≡ Phase.Lost }
    {
        end_requests(&mut self.link, &self.writer.requests);
        self.link.set_state(State::Disconnected);
        self.writer.requests.clear();
        self.writer.out.clear();
        self.writer.phase = Phase::Lost;
        self.writer.pongs = 0;
        self.writer.is_ping_due = false;
        self.writer.resubscribed = 0;
        self.came.clear();
        self.place = 0;
        self.keep_alive.unanswered = 0;
        replace_with(&mut self.info, None);
    }

    /// Returns the moment at which to call `woken` if nothing comes before it, or `None` while there
    /// is no connection.
    pub fn wakes_at(&self) -> Option<Moment>
        ensures { (now : ℕ) → now < 2 ^ 64 → has_come result now ≡ is_quiet self.now.writer.phase self.now.keep_alive now }
    {
        match self.writer.phase {
            Phase::Lost => None,
            Phase::Awaiting => self.keep_alive.quiet.ends_at(),
            Phase::Greeting => self.keep_alive.quiet.ends_at(),
            Phase::Up => self.keep_alive.quiet.ends_at(),
        }
    }

    /// Tells that it is `now`. If nothing has come for the quiet time, a PING is due, which the next
    /// `write` writes. What is kept of requests that were given up over the link is let go.
    ///
    /// # Errors
    ///
    /// `Silent` exactly if two PINGs have no PONG, or if no INFO came in that time. Nothing else has
    /// changed then.
    pub fn woken(&mut self, now: Moment) -> Result<(), ConnectionError>
        ensures result { IsWoken result (wake_in self.old.writer.phase self.old.keep_alive now) }
        ensures keep_alive { self.new.keep_alive ≡ after_wake (wake_in self.old.writer.phase self.old.keep_alive now) self.old.keep_alive now }
        ensures ping { self.new.writer.is_ping_due ≡ ping_after (wake_in self.old.writer.phase self.old.keep_alive now) self.old.writer.is_ping_due }
        ensures requests { self.new.writer.requests.items ≡ those_open self.old.link self.old.writer.requests.items }
        ensures same { self.new ≡ record self.old { writer = record self.old.writer { is_ping_due = self.new.writer.is_ping_due; requests = self.new.writer.requests }; keep_alive = self.new.keep_alive } }
    {
        drop_forgotten(&self.link, &mut self.writer.requests);
        match self.keep_alive.wake_in(self.writer.phase, now) {
            Wake::Early => Ok(()),
            Wake::Ping => {
                self.writer.is_ping_due = true;
                Ok(())
            }
            Wake::Silent => Err(ConnectionError::Silent),
        }
    }
}
