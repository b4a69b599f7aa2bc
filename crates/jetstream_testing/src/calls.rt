//! Calls of the client that are polled until the server has answered them.

ghost use Rattle.std.specs.Prelude.{◌≡◌, IfOk};
ghost use Rattle.jetstream_testing.specs.Calls.{Answers};

use crate::server::TestServer;
use js_base::{Moment, OutOfMemory, Turn};
use js_call::State;
use js_link::{Link, LinkError};
use js_link_outbox::OutboxLink;
use std::alloc::Global;

impl TestServer {
    /// Polls a call at `now` until it has its answer, and serves the link in between. Returns what
    /// the call answers, which may be an error of its own:
    ///
    /// ```text
    /// let creating = context.create_stream(alloc, config)?;
    /// let stream = server.answer(alloc, &mut link, creating, now)??;
    /// ```
    ///
    /// What else the link has to send is served too, and what else is due by `now` arrives.
    ///
    /// Fails with `Failed` if nothing more arrives at `now` and the call still waits, as for a
    /// request that the server does not know; and with `OutOfMemory` if memory runs out. In both
    /// cases the call is dropped, and its request is over.
    pub fn answer<S: State>(
        &mut self,
        alloc: Global,
        link: &mut OutboxLink,
        call: S,
        now: Moment,
    ) -> Result<S::Answer, LinkError>
        ensures answers { IfOk result (λ answer. Answers S.polled call now answer) }
    {
        let mut waiting = call;
        'rounds: for _ in 0..u64::MAX {
            waiting = match waiting.poll(alloc, link, now) {
                Turn::Ready(answer) => return Ok(answer),
                Turn::Pending(later) => later,
                Turn::OutOfMemory(later) => {
                    return Err(given_up(link, later, LinkError::OutOfMemory));
                }
            };
            match self.serve(alloc, link, now) {
                Ok(0) => break,
                Ok(_) => {}
                Err(OutOfMemory) => {
                    return Err(given_up(link, waiting, LinkError::OutOfMemory));
                }
            }
        }
        Err(given_up(link, waiting, LinkError::Failed))
    }
}

// Drops a call that gets no answer, ends its request, and returns the error.
fn given_up<S: State>(link: &mut OutboxLink, call: S, error: LinkError) -> LinkError
    ensures { result ≡ error }
{
    if let Some(request) = call.request() {
        link.forget(request);
    }
    drop(call);
    error
}
