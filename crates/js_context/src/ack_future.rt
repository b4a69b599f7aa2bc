//! The ack of a message that was sent.
ghost use Rattle.std.specs.Prelude.{◌≡◌, ◌+◌, ◌<◌, ◌^◌, ◌++◌, ◌∷◌, [], ℕ, IfOk, Some, None};
ghost use Rattle.js_link.specs.LinkView.{LinkView};
ghost use Rattle.js_base.specs.Error.{plain};
ghost use Rattle.js_json_members.specs.Member.{Gives};
ghost use Rattle.js_base.specs.Clock.{has_come};
ghost use Rattle.js_call.specs.Wakes.{Sleeps, is_due, request_of};
ghost use Rattle.js_context.specs.Context.{ContextView, GivesBack};
ghost use Rattle.js_context.specs.AckClock.{started};
ghost use Rattle.js_context.specs.AckFuture.{ack_in, ack_of, meaning_of, meaning_read, unreadable, AckPolled, AckReads, AckTurns, Ends, IsAwaitedBy, PermitAfter};
ghost use Rattle.js_context.specs.AckTimers.{ack_waits_for};

use crate::context::{Context, Detached};
use crate::publish_error::{PublishError, PublishErrorKind, refusal_by};
use js_base::{Error, Message, Moment, Nanos, OutOfMemory, Turn, replace_with};
use js_call::{Failure, OpenRequest, Shown, has_no_responders};
use js_json::{PublishAck, Response, response_as};
use js_json_members::ReadError;
use js_link::{Link, RequestId};
use js_window::{Permit, Window};
use std::alloc::Global;
use std::snapshot::Snapshot;
use std::sync::Wait;

/// When the clock of an ack began, and how long it runs.
#[derive(Clone, Copy)]
pub(crate) struct Clock {
    pub(crate) since: Moment,
    pub(crate) wait: Nanos,
}

/// The ack of a message that was sent, still awaited. It holds the message's permit and belongs to
/// the context that sent the message: no other context can poll or detach it.
///
/// Poll it until it is ready, or call `detach`.
#[must_use = "it bears a permit: poll it until it is ready, or detach it"]
pub struct PublishAckFuture {
    pub(crate) request: RequestId,
    pub(crate) permit: Permit,
    /// The window that gave the permit, for contracts alone.
    pub(crate) window: Snapshot<Window>,
    /// Its clock, from its first poll on.
    pub(crate) clock: Option<Clock>,
    /// A reply that came while memory had run out.
    pub(crate) reply: Option<Message>,
}

/// What one poll returns.
type Polled = Turn<PublishAckFuture, Result<PublishAck, PublishError>>;

fn read_ack(alloc: Global, payload: &[u8]) -> Result<Response<PublishAck>, ReadError>
    ensures { Gives result (ack_in payload.now) }
{
    response_as(alloc, payload)
}

// What the server's answer means.
fn meaning_of(response: Response<PublishAck>) -> Result<PublishAck, PublishError>
    ensures { result ≡ meaning_of response }
{
    match response {
        Response::Ok(ack) => Ok(ack),
        Response::Err { error } => Err(refusal_by(error)),
    }
}

// Why the body of a reply says nothing of the message.
fn unreadable(alloc: Global, fault: ReadError) -> Result<PublishError, OutOfMemory>
    ensures { IfOk result (λ error. error ≡ unreadable fault) }
{
    let source = Failure::Read(fault).to_source(alloc)?;
    Ok(Error::with_source(PublishErrorKind::Other, source))
}

// What a reply means that does not say that nobody answers.
fn answer_in(alloc: Global, payload: &[u8]) -> Result<Result<PublishAck, PublishError>, OutOfMemory>
    ensures { IfOk result (λ answer. answer ≡ meaning_read (ack_in payload.now)) }
{
    match read_ack(alloc, payload) {
        Ok(response) => Ok(meaning_of(response)),
        Err(ReadError::OutOfMemory) => Err(OutOfMemory),
        Err(fault) => Ok(Err(unreadable(alloc, fault)?)),
    }
}

// What a reply means.
fn ack_of(alloc: Global, message: &Message) -> Result<Result<PublishAck, PublishError>, OutOfMemory>
    ensures { IfOk result (λ answer. answer ≡ ack_of message.now) }
{
    if has_no_responders(message.status) {
        return Ok(Err(Error::new(PublishErrorKind::StreamNotFound)));
    }
    answer_in(alloc, message.payload.as_slice())
}

impl PublishAckFuture {
    /// Looks for the answer, then at the clock. The caller must pass the context that sent the
    /// message. Once ready, whether with an ack or an error, the future has given its permit back.
    ///
    /// The clock begins at the first poll and runs for the context's `timeout` at that moment, in
    /// nanoseconds. Changing the timeout later does not affect it.
    ///
    /// After `Pending` you may wait while the link waits for the answer to `request` and `wakes_at`
    /// has not come. Polling earlier changes nothing.
    ///
    /// Fails with `StreamNotFound` if the reply has status 503, `WrongLastMessageId` on error code
    /// 10070, `WrongLastSequence` on 10071 and 10164, `Other` on another error code or if the reply
    /// cannot be read, `BrokenPipe` if the replier is gone, and `TimedOut` if the clock is due
    /// before an answer came. The source is the server's error, or why the reply cannot be read. If
    /// memory runs out while reading a reply, the reply is kept for the next poll.
    pub fn poll<R: Wait, L: Link>(
        mut self,
        rt: &R,
        alloc: Global,
        context: &mut Context,
        link: &mut L,
        now: Moment,
    ) -> Turn<PublishAckFuture, Result<PublishAck, PublishError>>
        requires { IsAwaitedBy self context.old }
        ensures polled { AckPolled self.reply self now result context.old context.new (L.view link.old) (L.view link.new) }
        ensures permit { PermitAfter result self context.old context.new }
        ensures sleeps { Sleeps (ack_waits_for self) now self result (L.view link.old) (L.view link.new) }
    {
        match self.reply.take() {
            Some(message) => self.read(rt, alloc, context, message),
            None => {
                let clock = self.started(now, context.timeout());
                let sent = OpenRequest {
                    request: self.request,
                    since: clock.since,
                    timeout: Some(clock.wait),
                };
                let shown = sent.look(link, now);
                self.clock = Some(clock);
                self.turn(rt, alloc, context, shown)
            }
        }
    }

    /// Stops awaiting the ack and leaves it to [`Context::reap`]. Its clock begins anew at the
    /// first `reap` that looks at it. Detaching takes no memory. If a reply was kept, it is
    /// dropped; since no second reply comes, the first `reap` that looks at the ack settles it.
    pub fn detach(self, context: &mut Context)
        requires { IsAwaitedBy self context.old }
        ensures awaited { context.new.awaited + 1 ≡ context.old.awaited }
        ensures list { context.new ≡ record context.old { awaited = context.new.awaited; detached = context.old.detached ++ record { request = self.request; permit = self.permit; window = self.window; since = None } ∷ [] } }
    {
        context.detach(self.into_detached());
    }

    // Itself without its reply and its clock: `reap` begins another one.
    fn into_detached(self) -> Detached
        ensures { result ≡ record { request = self.request; permit = self.permit; window = self.window; since = None } }
    {
        let PublishAckFuture {
            request,
            permit,
            window,
            clock: _,
            reply,
        } = self;
        drop(reply);
        Detached {
            request,
            permit,
            window,
            since: None,
        }
    }

    /// Returns the number of the request whose answer it waits for. Returns `None` if you should
    /// poll at once, because its clock has not begun or it keeps a reply.
    pub fn request(&self) -> Option<RequestId>
        ensures { result ≡ request_of (ack_waits_for self.now) }
    {
        match self.waits_for() {
            None => None,
            Some(sent) => Some(sent.request),
        }
    }

    /// Returns the moment at which its clock is due. Returns `None` if you should poll at once, or
    /// if the clock would end past `u64::MAX`.
    pub fn wakes_at(&self) -> Option<Moment>
        ensures { (now : ℕ) → now < 2 ^ 64 → has_come result now ≡ is_due (ack_waits_for self.now) now }
    {
        match self.waits_for() {
            None => None,
            Some(sent) => sent.ends_at(),
        }
    }

    // The request whose answer it waits for, by its clock.
    fn waits_for(&self) -> Option<OpenRequest>
        ensures { result ≡ ack_waits_for self.now }
    {
        match (&self.reply, self.clock) {
            (None, Some(clock)) => Some(OpenRequest {
                request: self.request,
                since: clock.since,
                timeout: Some(clock.wait),
            }),
            _ => None,
        }
    }

    // Its clock, which begins now and runs for that wait where it has not begun.
    fn started(&self, now: Moment, wait: Nanos) -> Clock
        ensures { result ≡ started self.now.clock now wait }
    {
        self.clock.unwrap_or(Clock { since: now, wait })
    }

    // What is made of what the request shows.
    fn turn<R: Wait>(self, rt: &R, alloc: Global, context: &mut Context, shown: Shown) -> Polled
        requires { IsAwaitedBy self context.old }
        ensures turns { AckTurns self shown result context.old context.new }
        ensures permit { PermitAfter result self context.old context.new }
    {
        match shown {
            Shown::Came(message) => self.read(rt, alloc, context, message),
            Shown::Gone => self.fail(rt, context, PublishErrorKind::BrokenPipe),
            Shown::Due => self.fail(rt, context, PublishErrorKind::TimedOut),
            Shown::Still => Turn::Pending(self),
        }
    }

    // Reads a reply that has come. Where memory runs out it is kept.
    fn read<R: Wait>(self, rt: &R, alloc: Global, context: &mut Context, message: Message) -> Polled
        requires { IsAwaitedBy self context.old }
        ensures reads { AckReads self message result context.old context.new }
        ensures permit { PermitAfter result self context.old context.new }
    {
        match ack_of(alloc, &message) {
            Ok(answer) => {
                drop(message);
                self.end(rt, context, answer)
            }
            Err(OutOfMemory) => Turn::OutOfMemory(self.keep(message)),
        }
    }

    // Ends with that kind of error.
    fn fail<R: Wait>(self, rt: &R, context: &mut Context, kind: PublishErrorKind) -> Polled
        requires { IsAwaitedBy self context.old }
        ensures { Ends (Err (plain kind)) result context.old context.new }
    {
        self.end(rt, context, Err(Error::new(kind)))
    }

    // Ends with that answer, and gives the permit back.
    fn end<R: Wait>(
        self,
        rt: &R,
        context: &mut Context,
        answer: Result<PublishAck, PublishError>,
    ) -> Polled
        requires { IsAwaitedBy self context.old }
        ensures { Ends answer result context.old context.new }
    {
        self.give_back(rt, context);
        Turn::Ready(answer)
    }

    // Gives the permit back.
    fn give_back<R: Wait>(self, rt: &R, context: &mut Context)
        requires { IsAwaitedBy self context.old }
        ensures { GivesBack context.old context.new }
    {
        let ack = self.into_detached();
        context.give(rt, ack.permit);
    }

    // Keeps the reply for a later poll.
    fn keep(mut self, message: Message) -> PublishAckFuture
        ensures { result ≡ record self { reply = Some message } }
    {
        replace_with(&mut self.reply, Some(message));
        self
    }
}
