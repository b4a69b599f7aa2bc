//! What a row of a reader asks of its link, what came of it, and the function that asks the link.
ghost use Rattle.std.specs.Prelude.{◌≡◌, IfOk, OnErr, is_some};
ghost use Rattle.std.specs.Option.{option_copied};
ghost use Rattle.js_link.specs.Wish.{message_of, reply_of, GoesAs, is_shut, reply_met, watch_met};
ghost use Rattle.js_link.specs.Meets.{Meets};

use crate::link::{Answer, Link, LinkError, Taken, Watch};
use crate::sent::{InboxId, RequestId};
use bytes::Bytes;
use js_base::{Message, OutOfMemory, State, Subject};
use std::alloc::Global;

/// What a row of a reader asks of its link: at most one call.
#[derive(Drop)]
pub enum Wish {
    Nothing,
    Publishes {
        subject: Subject,
        reply: Option<Subject>,
        payload: Bytes,
    },
    Requests {
        subject: Subject,
        payload: Bytes,
    },
    OpensInbox,
    Drops {
        inbox: u64,
    },
    Reads {
        inbox: u64,
    },
    Awaits {
        request: u64,
    },
    Watches,
}

/// What came of a [`Wish`].
#[derive(Drop)]
pub enum Met {
    Unasked,
    GoneOut,
    Refused,
    Dropped,
    Requested { number: u64 },
    Opened { inbox: u64, subject: Subject },
    /// The inbox has no message.
    Empty,
    /// The inbox is closed.
    Shut,
    Took(Message),
    /// No answer has come yet.
    Waiting,
    /// No answer will come any more.
    Gone,
    Got(Message),
    /// The connection's state.
    Stands(State),
    /// The connection's state will not be reported any more.
    WatchOver,
}

// Where the connection stands, as what is met.
fn watched(watch: Watch) -> Met
    ensures { result ≡ watch_met watch }
{
    match watch {
        Watch::State(state) => Met::Stands(state),
        Watch::Ended => Met::WatchOver,
    }
}

// A message is published.
fn publish<L: Link>(
    alloc: Global,
    link: &mut L,
    subject: &Subject,
    reply: &Option<Subject>,
    payload: &Bytes,
) -> Result<Met, OutOfMemory>
    ensures met { IfOk result (λ met. Meets (Wish.Publishes subject.now reply.now payload.now) met (L.view link.old) (L.view link.new)) }
    ensures unchanged { OnErr result (L.view link.new ≡ L.view link.old) }
{
    let back = match reply {
        None => None,
        Some(reply) => Some(reply.as_str()),
    };
    match link.publish(alloc, subject.as_str(), back, None, payload.as_slice()) {
        Ok(()) => Ok(Met::GoneOut),
        Err(LinkError::Failed) => Ok(Met::Refused),
        Err(LinkError::OutOfMemory) => Err(OutOfMemory),
    }
}

// A request is made.
fn request<L: Link>(
    alloc: Global,
    link: &mut L,
    subject: &Subject,
    payload: &Bytes,
) -> Result<Met, OutOfMemory>
    ensures met { IfOk result (λ met. Meets (Wish.Requests subject.now payload.now) met (L.view link.old) (L.view link.new)) }
    ensures unchanged { OnErr result (L.view link.new ≡ L.view link.old) }
{
    match link.request(alloc, subject.as_str(), None, payload.as_slice()) {
        Ok(RequestId(number)) => Ok(Met::Requested { number }),
        Err(LinkError::Failed) => Ok(Met::Refused),
        Err(LinkError::OutOfMemory) => Err(OutOfMemory),
    }
}

// An inbox is opened.
fn open_inbox<L: Link>(alloc: Global, link: &mut L) -> Result<Met, OutOfMemory>
    ensures met { IfOk result (λ met. Meets Wish.OpensInbox met (L.view link.old) (L.view link.new)) }
    ensures unchanged { OnErr result (L.view link.new ≡ L.view link.old) }
{
    match link.open_inbox(alloc) {
        Ok((InboxId(inbox), subject)) => Ok(Met::Opened { inbox, subject }),
        Err(LinkError::Failed) => Ok(Met::Refused),
        Err(LinkError::OutOfMemory) => Err(OutOfMemory),
    }
}

/// Takes the first message of an inbox, if it has one.
pub fn take<L: Link>(link: &mut L, inbox: u64) -> Met
    ensures { Meets (Wish.Reads inbox) result (L.view link.old) (L.view link.new) }
{
    match link.take(InboxId(inbox)) {
        Taken::Message(message) => Met::Took(message),
        Taken::Empty => Met::Empty,
        Taken::Closed => Met::Shut,
    }
}

// An answer is asked for.
fn answer<L: Link>(link: &mut L, request: u64) -> Met
    ensures { Meets (Wish.Awaits request) result (L.view link.old) (L.view link.new) }
{
    match link.answer(RequestId(request)) {
        Answer::Got(reply) => Met::Got(reply),
        Answer::Gone => Met::Gone,
        Answer::Waiting => Met::Waiting,
    }
}

// The connection is looked at.
fn watch<L: Link>(link: &mut L) -> Met
    ensures { Meets Wish.Watches result (L.view link.old) (L.view link.new) }
{
    watched(link.state())
}

/// Makes the call that a wish asks for, and returns what came of it. Fails with `OutOfMemory` if
/// memory runs out; the link is then unchanged.
pub fn ask<L: Link>(alloc: Global, link: &mut L, wish: &Wish) -> Result<Met, OutOfMemory>
    ensures met { IfOk result (λ met. Meets wish.now met (L.view link.old) (L.view link.new)) }
    ensures unchanged { OnErr result (L.view link.new ≡ L.view link.old) }
{
    match wish {
        Wish::Nothing => Ok(Met::Unasked),
        Wish::Publishes {
            subject,
            reply,
            payload,
        } => publish(alloc, link, subject, reply, payload),
        Wish::Requests { subject, payload } => request(alloc, link, subject, payload),
        Wish::OpensInbox => open_inbox(alloc, link),
        Wish::Drops { inbox } => {
            link.unsubscribe(InboxId(*inbox));
            Ok(Met::Dropped)
        }
        Wish::Reads { inbox } => Ok(take(link, *inbox)),
        Wish::Awaits { request } => Ok(answer(link, *request)),
        Wish::Watches => Ok(watch(link)),
    }
}

impl Met {
    /// Returns the number of the request that was sent, or `None` if it was refused.
    pub fn request(&self) -> Option<u64>
        ensures { GoesAs result self.now }
    {
        match self {
            Met::Refused => None,
            Met::Requested { number } => Some(*number),
            Met::Unasked
            | Met::GoneOut
            | Met::Dropped
            | Met::Opened { .. }
            | Met::Empty
            | Met::Shut
            | Met::Took(_)
            | Met::Waiting
            | Met::Gone
            | Met::Got(_)
            | Met::Stands(_)
            | Met::WatchOver => Some(0),
        }
    }

    /// Returns the message that was taken.
    pub fn message(&self) -> Option<&Message>
        ensures { option_copied result ≡ message_of self.now }
    {
        match self {
            Met::Took(message) => Some(message),
            Met::Unasked
            | Met::GoneOut
            | Met::Refused
            | Met::Dropped
            | Met::Requested { .. }
            | Met::Opened { .. }
            | Met::Empty
            | Met::Shut
            | Met::Waiting
            | Met::Gone
            | Met::Got(_)
            | Met::Stands(_)
            | Met::WatchOver => None,
        }
    }

    /// Returns whether the inbox that was read is closed.
    pub fn is_shut(&self) -> bool
        ensures { result ≡ is_shut self.now }
    {
        match self {
            Met::Shut => true,
            Met::Unasked
            | Met::GoneOut
            | Met::Refused
            | Met::Dropped
            | Met::Requested { .. }
            | Met::Opened { .. }
            | Met::Empty
            | Met::Took(_)
            | Met::Waiting
            | Met::Gone
            | Met::Got(_)
            | Met::Stands(_)
            | Met::WatchOver => false,
        }
    }

    /// Returns the message that was taken.
    pub fn into_message(self) -> Option<Message>
        ensures { result ≡ message_of self }
    {
        let (message, reply) = self.into_parts();
        drop(reply);
        message
    }

    /// Returns the message that was taken, and the reply that came.
    pub fn into_parts(self) -> (Option<Message>, Option<Message>)
        ensures { result ≡ (message_of self, reply_met self) }
    {
        match self {
            Met::Took(message) => (Some(message), None),
            Met::Got(reply) => (None, Some(reply)),
            Met::Unasked
            | Met::GoneOut
            | Met::Refused
            | Met::Dropped
            | Met::Requested { .. }
            | Met::Opened { .. }
            | Met::Empty
            | Met::Shut
            | Met::Waiting
            | Met::Gone
            | Met::Stands(_)
            | Met::WatchOver => (None, None),
        }
    }

    /// Returns whether an answer has come, or none will.
    pub fn is_answer(&self) -> bool
        ensures { result ≡ is_some (reply_of self.now) }
    {
        match self {
            Met::Got(_) | Met::Gone => true,
            Met::Unasked
            | Met::GoneOut
            | Met::Refused
            | Met::Dropped
            | Met::Requested { .. }
            | Met::Opened { .. }
            | Met::Empty
            | Met::Shut
            | Met::Took(_)
            | Met::Waiting
            | Met::Stands(_)
            | Met::WatchOver => false,
        }
    }
}
