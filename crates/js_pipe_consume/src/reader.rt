//! What is read: a reader of a stream, which may record what it meets.

ghost use Rattle.std.specs.Prelude.{◌≡◌, [], ℕ, List, Bool, true, false, OnOk, IfErr};
ghost use Rattle.js_pipe.specs.declared.failure.Failure.TheVariants.{Unrecorded};

use js_base::{Moment, Next};
use js_link_outbox::OutboxLink;
use js_message::Message;
use js_pipe::Failure;
use js_readers::Subscription;
use js_readers::ordered::OrderedError;
use std::alloc::Global;

/// A reader of a stream, in order, which may record what it meets.
pub trait Reads: Drop {
    /// What it has recorded and not written yet.
    ghost unwritten: { Self → List ℕ };

    /// Whether all that it was to record is recorded.
    ghost is_whole: { Self → Bool };

    /// The moment at which it has something to do by itself.
    fn wakes_at(&self) -> Option<Moment>;

    /// Its next message or error.
    fn poll(
        &mut self,
        alloc: Global,
        link: &mut OutboxLink,
        now: Moment,
    ) -> Next<Result<Message, OrderedError>>;

    /// Writes what it has recorded so far, if it records. A fault ends the recording, and is told on
    /// standard error, once; the reader goes on.
    fn keep<R: Eprint>(&mut self, rt: &R, alloc: Global)
        ensures { unwritten self.new ≡ [] };

    /// Closes its inbox. Fails with `Unrecorded` if its recording is not whole.
    fn close<R: Eprint>(self, rt: &R, link: &mut OutboxLink) -> Result<(), Failure>
        ensures whole { OnOk result (is_whole self ≡ true) }
        ensures fault { IfErr result (λ failure. (failure ≡ Unrecorded) × (is_whole self ≡ false)) };
}

// A reader that records nothing.
impl<S: Subscription<Item = Message, Error = OrderedError>> Reads for S {
    ghost unwritten = { λ _. [] };

    ghost is_whole = { λ _. true };

    fn wakes_at(&self) -> Option<Moment> {
        Subscription::wakes_at(self)
    }

    fn poll(
        &mut self,
        alloc: Global,
        link: &mut OutboxLink,
        now: Moment,
    ) -> Next<Result<Message, OrderedError>> {
        self.poll_next(alloc, link, now)
    }

    fn keep<R: Eprint>(&mut self, _rt: &R, _alloc: Global) {}

    fn close<R: Eprint>(self, _rt: &R, link: &mut OutboxLink) -> Result<(), Failure> {
        Subscription::close(self, link);
        Ok(())
    }
}
