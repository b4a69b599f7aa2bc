//! Calls that you poll until they are ready.
ghost use Rattle.std.specs.Prelude.{◌≡◌, ◌<◌, ◌^◌, ℕ, Option};
ghost use Rattle.js_base.specs.declared.turn.Turn.{Turn};
ghost use Rattle.js_link.specs.LinkView.{LinkView};
ghost use Rattle.js_base.specs.Clock.{has_come};
ghost use Rattle.js_call.specs.Wakes.{is_due, request_of, PendsOn, Sleeps};
ghost use Rattle.js_call.specs.declared.open_request.OpenRequest.{OpenRequest};

use crate::open_request::OpenRequest;
use js_base::{Moment, Turn};
use js_link::{Link, RequestId};
use std::alloc::Global;

/// A call under way. Poll it until it is ready.
///
/// After `Pending` you may wait until the answer to its `request` has come, that request is gone,
/// or the moment `wakes_at` has come. Polling earlier changes nothing.
pub trait State: Drop {
    /// What the call finally returns.
    type Answer: Drop;

    /// What a poll at a given moment does: what it returns, and how it changes the view of the
    /// link.
    ghost polled: { Self → ℕ → Turn Self Self.Answer → LinkView → LinkView → Type 0 };

    /// The request whose answer the call waits for.
    ghost waits_for: { Self → Option OpenRequest };

    /// Returns the request whose answer the call waits for, with its clock. None if it waits for no
    /// answer: its request was not sent, or it knows already what it returns. Poll it at once then.
    fn waits_for(&self) -> Option<OpenRequest>
        ensures { result ≡ waits_for self.now };

    /// Returns the number of the request whose answer the call waits for. None if you should poll
    /// the call at once.
    fn request(&self) -> Option<RequestId>
        ensures { result ≡ request_of (waits_for self.now) }
    {
        match self.waits_for() {
            None => None,
            Some(sent) => Some(sent.request),
        }
    }

    /// Returns the moment at which the call's timeout expires, the first at which polling has an
    /// effect without an answer. None if it waits without end, or waits for nothing.
    fn wakes_at(&self) -> Option<Moment>
        ensures { (now : ℕ) → now < 2 ^ 64 → has_come result now ≡ is_due (waits_for self.now) now }
    {
        match self.waits_for() {
            None => None,
            Some(sent) => sent.ends_at(),
        }
    }

    /// Advances the call as far as possible without waiting.
    ///
    /// Returns `Pending` with the state if no answer has come and the timeout has not expired.
    /// Returns `OutOfMemory` with the state as it was before the step that ran out of memory; the
    /// next poll repeats that step.
    fn poll<L: Link>(self, alloc: Global, link: &mut L, now: Moment) -> Turn<Self, Self::Answer>
        ensures polled { polled self now result (L.view link.old) (L.view link.new) }
        ensures sleeps { Sleeps (waits_for self) now self result (L.view link.old) (L.view link.new) }
        ensures pends { PendsOn waits_for result };
}
