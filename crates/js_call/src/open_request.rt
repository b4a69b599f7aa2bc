//! A request that was sent, and what you see when you look at it.
ghost use Rattle.std.specs.Prelude.{◌≡◌, ◌<◌, ◌^◌, ℕ};
ghost use Rattle.js_link.specs.LinkView.{LinkView};
ghost use Rattle.js_call.specs.RawCall.{Shows, times_out};
ghost use Rattle.js_base.specs.Clock.{has_come};

use js_base::{Message, Moment, Nanos, due, end_of};
use js_link::{Answer, Link, RequestId};

/// A request that was sent and has no answer yet.
#[derive(Clone, Copy, Debug, PartialEq, Eq)]
pub struct OpenRequest {
    /// Its number on the link.
    pub request: RequestId,
    /// When it was sent.
    pub since: Moment,
    /// How long to wait for the answer, in nanoseconds. None waits without end.
    pub timeout: Option<Nanos>,
}

/// What a look at an open request found.
#[derive(Drop)]
pub enum Shown {
    /// The answer. The look takes it from the link.
    Came(Message),
    /// No answer will come.
    Gone,
    /// No answer has come, and the timeout has expired. The look ends the request.
    Due,
    /// No answer has come yet.
    Still,
}

impl OpenRequest {
    /// Looks for the answer first, and then at the clock. If the timeout has expired, it ends the
    /// request on the link (`Link::forget`), so that nothing is left of it there.
    pub fn look<L: Link>(&self, link: &mut L, now: Moment) -> Shown
        ensures { Shows self.now now result (L.view link.old) (L.view link.new) }
    {
        match link.answer(self.request) {
            Answer::Got(message) => Shown::Came(message),
            Answer::Gone => Shown::Gone,
            Answer::Waiting => {
                if self.times_out(now) {
                    link.forget(self.request);
                    Shown::Due
                } else {
                    Shown::Still
                }
            }
        }
    }

    /// Returns the moment at which the timeout expires. None if the request waits without end.
    pub fn ends_at(&self) -> Option<Moment>
        ensures { (now : ℕ) → now < 2 ^ 64 → has_come result now ≡ times_out self.now.timeout self.now.since now }
    {
        match self.timeout {
            None => None,
            Some(wait) => end_of(self.since, wait),
        }
    }

    fn times_out(&self, now: Moment) -> bool
        ensures { result ≡ times_out self.now.timeout self.now.since now }
    {
        match self.timeout {
            None => false,
            Some(wait) => due(now, self.since, wait),
        }
    }
}
