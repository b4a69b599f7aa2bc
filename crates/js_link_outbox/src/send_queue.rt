//! How a link sends: what may be sent is appended to what is to be sent, and anything else is
//! refused.
ghost use Rattle.std.specs.Prelude.{◌≡◌, ◌+◌, ◌<◌, ◌≤◌, ◌^◌, ◌-◌, None, Some, IfOk, OnErr, OnOk};
ghost use Rattle.std.specs.BTreeMap.{btree_map_len};
ghost use Rattle.std.specs.VecDeque.{deque_capacity, deque_len};
ghost use Rattle.js_link.specs.Calls.{Asks, Fails, Opens};
ghost use Rattle.js_link.specs.LinkView.{Waits};
ghost use Rattle.js_link_outbox.specs.Calls.{Adds, KeepsRest, SendsNothing, can_request, can_open, is_live};
ghost use Rattle.js_link_outbox.specs.Outbox.{answer_subject, front, outbox_view, outgoing};

use crate::outbox::OutboxLink;
use crate::outgoing::Outgoing;
use crate::reply_subjects::answer_subject;
use bytes::Bytes;
use js_base::{HeaderMap, OutOfMemory, Subject, Text, both};
use js_link::{InboxId, LinkError, RequestId, Watch};
use std::alloc::Global;
use std::collections::VecDeque;

impl OutboxLink {
    // Counts a fault.
    pub(crate) fn fail(&mut self) -> LinkError
        ensures failed { Fails (outbox_view self.old) (outbox_view self.new) }
        ensures kind { result ≡ LinkError.Failed }
        ensures outgoing { SendsNothing self.old self.new }
    {
        self.faults = self.faults.saturating_add(1);
        LinkError::Failed
    }

    pub(crate) fn is_live(&self) -> bool
        ensures { result ≡ is_live self.now }
    {
        match self.watch {
            Watch::State(_) => true,
            Watch::Ended => false,
        }
    }

    pub(crate) fn can_open(&self) -> bool
        ensures { result ≡ can_open self.now }
    {
        self.is_live() && self.inboxes.next < u64::MAX
    }

    pub(crate) fn can_request(&self) -> bool
        ensures { result ≡ can_request self.now }
    {
        self.is_live() && self.requests.next < u64::MAX
    }

    // Makes room for one thing more that is to be sent, and for the ends of all subscriptions.
    fn make_room(&mut self, more: usize) -> Result<(), OutOfMemory>
        requires { more < 3 }
        ensures room { OnOk result (deque_len self.new.outgoing + btree_map_len self.new.inboxes.map + more ≤ deque_capacity self.new.outgoing) }
        ensures same { KeepsRest self.old self.new }
        ensures items { outgoing self.new ≡ outgoing self.old }
    {
        let ends = self.inboxes.map.len();
        self.outgoing.reserve(ends + more)?;
        Ok(())
    }

    // Sends one thing.
    pub(crate) fn send(&mut self, item: Outgoing) -> Result<(), OutOfMemory>
        ensures ok { OnOk result (Adds item self.old self.new) }
        ensures err { OnErr result (SendsNothing self.old self.new) }
        ensures same { KeepsRest self.old self.new }
    {
        match self.make_room(1) {
            Ok(()) => {
                self.outgoing.push_back_reserved(item);
                Ok(())
            }
            Err(refused) => {
                drop(item);
                Err(refused)
            }
        }
    }

    // Opens an inbox for a subject that may be sent.
    pub(crate) fn add_inbox(
        &mut self,
        alloc: Global,
        subject: Subject,
        group: Option<Text>,
    ) -> Result<InboxId, OutOfMemory>
        requires { self.old.inboxes.next < 2 ^ 64 - 1 }
        ensures opens { IfOk result (λ inbox. Opens inbox.0 subject group (outbox_view self.old) (outbox_view self.new)) }
        ensures sends { IfOk result (λ inbox. Adds (Outgoing.Subscribe inbox.0 subject group) self.old self.new) }
        ensures number { IfOk result (λ inbox. inbox.0 ≡ self.old.inboxes.next) }
        ensures err { OnErr result (outbox_view self.new ≡ outbox_view self.old) }
        ensures sends_nothing { OnErr result (SendsNothing self.old self.new) }
    {
        let inbox = InboxId(self.inboxes.next);
        let item = Outgoing::Subscribe {
            subscription: inbox.0,
            subject,
            group,
        };
        if let Err(refused) = self.make_room(2) {
            drop(item);
            return Err(refused);
        }
        match self.inboxes.add(VecDeque::new(alloc)) {
            Ok(_) => {
                self.outgoing.push_back_reserved(item);
                Ok(inbox)
            }
            Err(refused) => {
                drop(item);
                Err(refused)
            }
        }
    }

    // Makes a request of a message that may be sent.
    pub(crate) fn add_request(
        &mut self,
        alloc: Global,
        subject: Subject,
        headers: Option<HeaderMap>,
        payload: Bytes,
    ) -> Result<RequestId, OutOfMemory>
        requires { self.old.requests.next < 2 ^ 64 - 1 }
        ensures asks { IfOk result (λ request. Asks request.0 subject headers payload (outbox_view self.old) (outbox_view self.new)) }
        ensures sends { IfOk result (λ request. Adds (Outgoing.Publish subject (Some (answer_subject (front self.old) request.0)) headers payload (Some request)) self.old self.new) }
        ensures waits { IfOk result (λ request. (outbox_view self.new).status request.0 ≡ Waits) }
        ensures err { OnErr result (outbox_view self.new ≡ outbox_view self.old) }
        ensures sends_nothing { OnErr result (SendsNothing self.old self.new) }
    {
        let request = RequestId(self.requests.next);
        let reply = answer_subject(alloc, self.front.as_str(), request.0);
        let (reply, message) = both(reply, Ok((subject, headers, payload)))?;
        let (subject, headers, payload) = message;
        let item = Outgoing::Publish {
            subject,
            reply: Some(reply),
            headers,
            payload,
            request: Some(request),
        };
        if let Err(refused) = self.make_room(1) {
            drop(item);
            return Err(refused);
        }
        match self.requests.add(None) {
            Ok(_) => {
                self.outgoing.push_back_reserved(item);
                Ok(request)
            }
            Err(refused) => {
                drop(item);
                Err(refused)
            }
        }
    }
}
