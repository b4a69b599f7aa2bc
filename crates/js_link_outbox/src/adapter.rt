//! What an adapter calls: it takes what is to be sent, and brings what came.
ghost use Rattle.std.specs.Prelude.{◌≡◌, ◌++◌, ◌∷◌, [], ◌&&◌, None, Some, IfOk, OnErr, IfErr, is_some, length, slice_get, string_bytes};
ghost use Rattle.std.specs.Option.{option_copied};
ghost use Rattle.js_base.specs.Subject.{is_valid_subject};
ghost use Rattle.js_link.specs.Calls.{Fails};
ghost use Rattle.js_link_outbox.specs.Calls.{Brings, IsWantedBy, SendsNothing, TakesNext, closed_view, watch_after};
ghost use Rattle.js_link_outbox.specs.Numbered.{at};
ghost use Rattle.js_link_outbox.specs.NewOutbox.{IsOpened, front_of};
ghost use Rattle.js_link_outbox.specs.Outbox.{front, open_inboxes, open_requests, outbox_view, outgoing};
ghost use Rattle.js_link_outbox.specs.Wire.{FailsUnless};

use crate::inboxes::put_into;
use crate::numbered::Numbered;
use crate::outbox::{ANSWERS, OutboxLink};
use crate::outgoing::{Delivery, Outgoing};
use crate::reply_subjects::{answers_subject, request_of};
use crate::requests::give_answer;
use js_base::{Message, Nanos, OutOfMemory, State, Text, is_valid_subject};
use js_link::{InboxId, LinkError, RequestId, Watch};
use std::alloc::{AllocFailed, Global};
use std::collections::VecDeque;

fn front_text(alloc: Global, inbox_prefix: &str, token: &str) -> Result<String, OutOfMemory>
    ensures { IfOk result (λ text. string_bytes text ≡ front_of inbox_prefix.now token.now) }
{
    Ok(format!(in alloc; "{inbox_prefix}.{token}.")?)
}

impl OutboxLink {
    /// Creates a link that is not connected yet, with no limit on a body and a request timeout of
    /// ten seconds.
    ///
    /// Its own subjects begin with the prefix, a dot, the token and a dot. No other client of the
    /// server may have the same prefix and token. The first thing to send is the subscription of all
    /// answers, which has the number 0.
    ///
    /// Call `set_state` when it is connected, before you poll a reader over it: an ordered push
    /// consumer that finds it unconnected recreates its consumer.
    ///
    /// Fails with `Failed` exactly if the prefix or the token is not a valid subject, and with
    /// `OutOfMemory` if memory runs out.
    pub fn new(alloc: Global, inbox_prefix: &str, token: &str) -> Result<OutboxLink, LinkError>
        ensures opened { IfOk result (λ link. IsOpened (front_of inbox_prefix.now token.now) link) }
        ensures cause { FailsUnless (is_valid_subject inbox_prefix.now && is_valid_subject token.now) result }
    {
        if !is_valid_subject(inbox_prefix) || !is_valid_subject(token) {
            return Err(LinkError::Failed);
        }
        let front = Text::from(front_text(alloc, inbox_prefix, token)?);
        let subject = answers_subject(alloc, front.as_str())?;
        let mut outgoing = VecDeque::new(alloc);
        outgoing.push_back(Outgoing::Subscribe {
            subscription: ANSWERS,
            subject,
            group: None,
        })?;
        Ok(OutboxLink {
            front,
            inboxes: Numbered::new(alloc, 1),
            requests: Numbered::new(alloc, 1),
            outgoing,
            fresh: 0,
            faults: 0,
            watch: Watch::State(State::Pending),
            max_payload: u64::MAX,
            request_timeout: Some(10_000_000_000),
        })
    }

    /// Removes and returns the first thing to send. It is returned once.
    pub fn next_outgoing(&mut self) -> Option<Outgoing>
        ensures first { TakesNext result (outgoing self.old) (outgoing self.new) }
        ensures front { front self.new ≡ front self.old }
        ensures same { outbox_view self.new ≡ record (outbox_view self.old) { sent = (outbox_view self.new).sent } }
    {
        self.outgoing.pop_front()
    }

    /// Returns the first thing to send, or `None` if nothing is to be sent. It stays the first until
    /// you take it with `next_outgoing`: write it, take it once that worked, and write it again if
    /// that failed, so nothing is lost.
    pub fn first_outgoing(&self) -> Option<&Outgoing>
        ensures { option_copied result ≡ slice_get (outgoing self.now) 0 }
    {
        self.outgoing.front()
    }

    /// Returns how many things are to be sent.
    pub fn outgoing_len(&self) -> usize
        ensures { result ≡ length (outgoing self.now) }
    {
        self.outgoing.len()
    }

    /// Returns how many inboxes are open. It keeps these with their messages, and no others.
    pub fn inbox_count(&self) -> usize
        ensures { result ≡ length (open_inboxes self.now) }
    {
        self.inboxes.map.len()
    }

    /// Returns how many requests are open. It keeps these with their answers, and no others.
    pub fn request_count(&self) -> usize
        ensures { result ≡ length (open_requests self.now) }
    {
        self.requests.map.len()
    }

    /// Returns whether a request is open: its answer may still come, or lies here and is not taken.
    pub fn has_request(&self, request: RequestId) -> bool
        ensures { result ≡ is_some (at self.now.requests request.0) }
    {
        self.requests.map.contains_key(&request.0)
    }

    /// Delivers a message that came for a subscription, and returns who gets it: the inbox of that
    /// number, or, under the subscription of all answers, the open request whose reply subject is
    /// the message's subject. If nobody wants it, the message is dropped and nothing changes.
    ///
    /// Fails only if memory runs out. The error hands the message back, and nothing has changed.
    pub fn deliver(
        &mut self,
        subscription: u64,
        message: Message,
    ) -> Result<Delivery, AllocFailed<Message>>
        ensures wanted { IfOk result (λ delivery. IsWantedBy delivery subscription message self.old) }
        ensures brings { IfOk result (λ delivery. Brings delivery message (outbox_view self.old) (outbox_view self.new)) }
        ensures back { IfErr result (λ refused. refused.value ≡ message) }
        ensures err { OnErr result (outbox_view self.new ≡ outbox_view self.old) }
        ensures outgoing { SendsNothing self.old self.new }
    {
        if subscription == ANSWERS {
            return Ok(self.deliver_answer(message));
        }
        match put_into(&mut self.inboxes, subscription, message) {
            Ok(true) => Ok(Delivery::Inbox(InboxId(subscription))),
            Ok(false) => Ok(Delivery::Nobody),
            Err(refused) => Err(refused),
        }
    }

    // Brings an answer.
    fn deliver_answer(&mut self, message: Message) -> Delivery
        ensures wanted { IsWantedBy result 0 message self.old }
        ensures brings { Brings result message (outbox_view self.old) (outbox_view self.new) }
        ensures outgoing { SendsNothing self.old self.new }
    {
        let Some(number) = request_of(self.front.as_str(), message.subject.as_str()) else {
            drop(message);
            return Delivery::Nobody;
        };
        if give_answer(&mut self.requests, number, message) {
            Delivery::Request(RequestId(number))
        } else {
            Delivery::Nobody
        }
    }

    /// Sets what `state` returns. A closed link stays closed.
    pub fn set_state(&mut self, state: State)
        ensures view { outbox_view self.new ≡ record (outbox_view self.old) { watch = watch_after (outbox_view self.old).watch state } }
        ensures outgoing { SendsNothing self.old self.new }
    {
        if let Watch::State(_) = self.watch {
            self.watch = Watch::State(state);
        }
    }

    /// Sets what `max_payload` returns: the greatest length of a body with its headers that the
    /// server accepts, in bytes.
    pub fn set_max_payload(&mut self, max_payload: u64)
        ensures view { outbox_view self.new ≡ record (outbox_view self.old) { max_payload = max_payload } }
        ensures outgoing { SendsNothing self.old self.new }
    {
        self.max_payload = max_payload;
    }

    /// Sets what `request_timeout` returns: how long a request waits by default, in nanoseconds, or
    /// `None` if it waits for ever.
    pub fn set_request_timeout(&mut self, request_timeout: Option<Nanos>)
        ensures view { outbox_view self.new ≡ record (outbox_view self.old) { request_timeout = request_timeout } }
        ensures outgoing { SendsNothing self.old self.new }
    {
        self.request_timeout = request_timeout;
    }

    /// Closes the link: its inboxes are closed, its requests are gone, nothing more is to be sent,
    /// and each later send fails.
    pub fn close(&mut self)
        ensures view { outbox_view self.new ≡ closed_view (outbox_view self.old) }
        ensures outgoing { outgoing self.new ≡ [] }
        ensures front { front self.new ≡ front self.old }
    {
        self.inboxes.clear();
        self.requests.clear();
        self.outgoing.clear();
        self.watch = Watch::Ended;
    }
}
