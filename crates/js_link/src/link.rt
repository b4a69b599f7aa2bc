//! The trait of a connection: what its calls return, and what an adapter to a real one must do.
ghost use Rattle.std.specs.Prelude.{◌≡◌, ℕ, false, IfSome, length};
ghost use Rattle.std.specs.Option.{option_copied};
ghost use Rattle.js_link.specs.LinkView.{LinkView};
ghost use Rattle.js_link.specs.Calls.{Closes, NamesOf, SubscribesOf, OpensOf, PublishesOf, AsksOf, TakesOf, AnswersOf, Forgets};

use crate::sent::{InboxId, RequestId};
use js_base::{HeaderMap, Message, Nanos, State, Subject};
use std::alloc::Global;

/// Why a call of a link failed.
#[derive(Clone, Copy, Debug, PartialEq, Eq)]
pub enum LinkError {
    /// The link could not do it. Nothing was sent, and no number was used up.
    Failed,
    /// Memory ran out. The link is unchanged.
    OutOfMemory,
}

/// What `take` found in an inbox.
#[derive(Debug, PartialEq, Eq, Drop)]
pub enum Taken {
    /// The inbox's first message.
    Message(Message),
    /// The inbox has no message.
    Empty,
    /// The inbox was closed, or never opened.
    Closed,
}

/// The state of a request.
#[derive(Debug, PartialEq, Eq, Drop)]
pub enum Answer {
    /// No answer has come yet.
    Waiting,
    /// No answer will come: nobody is left to answer, the answer was returned already, or the
    /// request was never made.
    Gone,
    /// The answer. It is returned once.
    Got(Message),
}

/// What is known of the connection.
#[derive(Clone, Copy, Debug, PartialEq, Eq)]
pub enum Watch {
    State(State),
    /// The connection's state will not be reported any more.
    Ended,
}

/// A connection that sends messages and keeps what it receives in inboxes until you take it.
///
/// No call waits. This client's states poll a link repeatedly, each time with the current moment
/// from the caller.
///
/// # What an adapter to a real connection must do
///
/// - Move what it received into its buffers in a call of its own, between two polls. No call of this
///   trait puts a message into an inbox or brings an answer.
/// - Count its faults. The count never falls. A call fails with `Failed` only if it counted a fault
///   in that call. It has then sent nothing, and the number that it would have given goes to the next
///   inbox or request. No other call counts a fault.
/// - Give each inbox and each request a number that none had before. A number that it never gave
///   counts as that of a closed inbox and of a request that is gone.
/// - Return the messages of an inbox in the order in which they came, each once, and the answer to a
///   request once. A message with a status from the server is a message too: an answer of status 503
///   is an answer. `Gone` is for a request that no answer can reach any more.
/// - Send nothing and change nothing in a call that runs out of memory.
/// - Send nothing that a server would read as something else. A call fails with `Failed` and sends
///   nothing if it is given a subject, reply subject or queue group that is not valid (test with
///   `is_valid_subject`), headers that are not sendable (test with `HeaderMap::is_sendable`: no CR,
///   LF or NUL in a value; none of those, no colon and no space in a name), or a body that together
///   with its headers is longer than the server accepts. This client's states test some of this
///   before they call. Anything else from their caller reaches the link as it is, such as the reply
///   subject of a message that is acknowledged.
/// - Tell the truth or nothing about the rest: the numbers and subjects that come next, what its
///   inboxes hold, which answers have come, and what it sent.
/// - If it tells whether it is up, tell the truth: no send fails while it is up, and none succeeds
///   while it is down. An adapter that cannot know this beforehand tells nothing of it, and may then
///   fail at any time. Every adapter that refuses what must not reach the wire is of this kind.
///   Whether it is up, and what `state` returns, change only in a call of its own.
///
/// # During a reconnect
///
/// The adapter chooses whether the link counts as up during a reconnect. Prefer to count it as up
/// and to hold back what is sent until the connection is restored: a lost consumer is then recreated
/// as soon as the server is back. If the link counts as down, each attempt to recreate a consumer
/// fails at once, and its waits, of up to ten seconds each, run on after the server has come back.
pub trait Link {
    /// The state of the link, as a `LinkView`.
    ghost view: { Self → LinkView };

    /// Opens an inbox for a subject, in a queue group if one is given.
    fn subscribe(
        &mut self,
        alloc: Global,
        subject: &str,
        group: Option<&str>,
    ) -> Result<InboxId, LinkError>
        ensures { SubscribesOf result subject.now (option_copied group.entry) (view self.old) (view self.new) };

    /// Opens an inbox under a new subject that the link chooses, and returns both.
    fn open_inbox(&mut self, alloc: Global) -> Result<(InboxId, Subject), LinkError>
        ensures { OpensOf result (view self.old) (view self.new) };

    /// Returns a new subject that the link chooses. No inbox is opened under it.
    fn fresh_subject(&mut self, alloc: Global) -> Result<Subject, LinkError>
        ensures { NamesOf result (view self.old) (view self.new) };

    /// Closes an inbox. The messages in it are lost.
    fn unsubscribe(&mut self, inbox: InboxId)
        ensures { Closes inbox.0 (view self.old) (view self.new) };

    /// Sends a message.
    fn publish(
        &mut self,
        alloc: Global,
        subject: &str,
        reply: Option<&str>,
        headers: Option<&HeaderMap>,
        payload: &[u8],
    ) -> Result<(), LinkError>
        ensures { PublishesOf result subject.now (option_copied reply.entry) (option_copied headers.entry) payload.now (view self.old) (view self.new) };

    /// Sends a request. At most one answer comes to it.
    fn request(
        &mut self,
        alloc: Global,
        subject: &str,
        headers: Option<&HeaderMap>,
        payload: &[u8],
    ) -> Result<RequestId, LinkError>
        ensures { AsksOf result subject.now (option_copied headers.entry) payload.now (view self.old) (view self.new) };

    /// Takes the first message of an inbox.
    fn take(&mut self, inbox: InboxId) -> Taken
        ensures { TakesOf inbox.0 result (view self.old) (view self.new) };

    /// Returns the state of a request, with its answer once it has come.
    fn answer(&mut self, request: RequestId) -> Answer
        ensures { AnswersOf request.0 result (view self.old) (view self.new) };

    /// Ends a request whose answer nobody awaits any more, for example after its timeout. The states
    /// of this client call it when they give a request up. A link that keeps something for each open
    /// request lets go of it here. By default nothing happens.
    fn forget(&mut self, _request: RequestId)
        ensures { Forgets _request.0 (view self.old) (view self.new) }
    {}

    /// Returns the connection's state.
    fn state(&mut self) -> Watch
        ensures value { result ≡ (view self.old).watch }
        ensures same { view self.new ≡ view self.old };

    /// Returns the greatest length of a body that may be sent, in bytes.
    fn max_payload(&self) -> u64
        ensures { result ≡ (view self.now).max_payload };

    /// Returns how long a request waits for its answer by default, in nanoseconds, or `None` if it
    /// waits for ever.
    fn request_timeout(&self) -> Option<Nanos>
        ensures { result ≡ (view self.now).request_timeout };

    /// A closed inbox holds no message.
    ghost closed_is_empty: { (link : Self) (inbox : ℕ) → (view link).is_open inbox ≡ false → (view link).count inbox ≡ 0 };

    /// A told buffer holds as many messages as the link counts.
    ghost counts_buffer: { (link : Self) (inbox : ℕ) → IfSome ((view link).buffer inbox) (λ messages. length messages ≡ (view link).count inbox) };
}
