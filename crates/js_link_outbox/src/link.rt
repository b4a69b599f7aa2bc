//! How [`OutboxLink`] is a [`Link`] over which states are polled.
ghost use Rattle.std.specs.Prelude.{◌≡◌, ◌&&◌, None, Some, IfOk};
ghost use Rattle.std.specs.Bool.{MatchBool};
ghost use Rattle.std.specs.Option.{option_copied};
ghost use Rattle.js_link.specs.Calls.{AsksOf, AnswersOf, Closes, EndsRequest, NamesOf, OpensOf, PublishesOf, SubscribesOf, TakesOf};
ghost use Rattle.js_link.specs.LinkView.{Waits};
ghost use Rattle.js_link_outbox.specs.Calls.{Adds, AddsUnlessRefused, SendsNothing, can_request, can_open, is_live};
ghost use Rattle.js_link_outbox.specs.Outbox.{answer_subject, closed_is_empty, counts_buffer, front, outbox_view};
ghost use Rattle.js_link_outbox.specs.Wire.{FailsUnless, may_subscribe, may_publish};

use crate::inboxes::take_from;
use crate::outbox::OutboxLink;
use crate::outgoing::Outgoing;
use crate::reply_subjects::{fresh_subject, inbox_subject};
use crate::requests::take_answer;
use crate::wire::{may_publish, may_subscribe};
use js_base::{HeaderMap, Nanos, Subject, TryClone, all_3, all_4, both};
use js_link::{
    Answer, InboxId, Link, LinkError, RequestId, Taken, Watch, copy_headers, copy_payload,
    copy_subject, copy_text,
};
use std::alloc::Global;

impl Link for OutboxLink {
    ghost view = { outbox_view };

    ghost closed_is_empty = { closed_is_empty };

    ghost counts_buffer = { counts_buffer };

    fn subscribe(
        &mut self,
        alloc: Global,
        subject: &str,
        group: Option<&str>,
    ) -> Result<InboxId, LinkError>
        ensures call { SubscribesOf result subject.now (option_copied group.entry) (outbox_view self.old) (outbox_view self.new) }
        ensures sends { AddsUnlessRefused result (λ inbox. Outgoing.Subscribe inbox.0 subject.now (option_copied group.entry)) self.old self.new }
        ensures cause { FailsUnless (can_open self.old && may_subscribe subject.now (option_copied group.entry)) result }
    {
        if !self.can_open() || !may_subscribe(subject, group) {
            return Err(self.fail());
        }
        let (subject, group) = both(Subject::new(alloc, subject), copy_text(alloc, group))?;
        Ok(self.add_inbox(alloc, subject, group)?)
    }

    fn open_inbox(&mut self, alloc: Global) -> Result<(InboxId, Subject), LinkError>
        ensures call { OpensOf result (outbox_view self.old) (outbox_view self.new) }
        ensures sends { AddsUnlessRefused result (λ made. Outgoing.Subscribe made.0.0 made.1 None) self.old self.new }
        ensures cause { FailsUnless (can_open self.old) result }
    {
        if !self.can_open() {
            return Err(self.fail());
        }
        let subject = inbox_subject(alloc, self.front.as_str(), self.inboxes.next)?;
        let copy = subject.try_clone()?;
        let inbox = self.add_inbox(alloc, copy, None)?;
        Ok((inbox, subject))
    }

    fn fresh_subject(&mut self, alloc: Global) -> Result<Subject, LinkError>
        ensures call { NamesOf result (outbox_view self.old) (outbox_view self.new) }
        ensures sends { SendsNothing self.old self.new }
    {
        if self.fresh == u64::MAX {
            return Err(self.fail());
        }
        let subject = fresh_subject(alloc, self.front.as_str(), self.fresh)?;
        self.fresh += 1;
        Ok(subject)
    }

    fn unsubscribe(&mut self, inbox: InboxId)
        ensures call { Closes inbox.0 (outbox_view self.old) (outbox_view self.new) }
        ensures sends { MatchBool ((outbox_view self.old).is_open inbox.0) (Adds (Outgoing.Unsubscribe inbox.0) self.old self.new) (SendsNothing self.old self.new) }
    {
        if let Some(_messages) = self.inboxes.remove(inbox.0) {
            self.outgoing.push_back_reserved(Outgoing::Unsubscribe {
                subscription: inbox.0,
            });
        }
    }

    fn publish(
        &mut self,
        alloc: Global,
        subject: &str,
        reply: Option<&str>,
        headers: Option<&HeaderMap>,
        payload: &[u8],
    ) -> Result<(), LinkError>
        ensures call { PublishesOf result subject.now (option_copied reply.entry) (option_copied headers.entry) payload.now (outbox_view self.old) (outbox_view self.new) }
        ensures sends { AddsUnlessRefused result (λ _. Outgoing.Publish subject.now (option_copied reply.entry) (option_copied headers.entry) payload.now None) self.old self.new }
        ensures cause { FailsUnless (is_live self.old && may_publish (outbox_view self.old).max_payload subject.now (option_copied reply.entry) (option_copied headers.entry) payload.now) result }
    {
        if !self.is_live() || !may_publish(self.max_payload, subject, reply, headers, payload) {
            return Err(self.fail());
        }
        let (subject, reply, headers, payload) = all_4(
            Subject::new(alloc, subject),
            copy_subject(alloc, reply),
            copy_headers(headers),
            copy_payload(alloc, payload),
        )?;
        let item = Outgoing::Publish {
            subject,
            reply,
            headers,
            payload,
            request: None,
        };
        Ok(self.send(item)?)
    }

    fn request(
        &mut self,
        alloc: Global,
        subject: &str,
        headers: Option<&HeaderMap>,
        payload: &[u8],
    ) -> Result<RequestId, LinkError>
        ensures call { AsksOf result subject.now (option_copied headers.entry) payload.now (outbox_view self.old) (outbox_view self.new) }
        ensures waits { IfOk result (λ request. (outbox_view self.new).status request.0 ≡ Waits) }
        ensures sends { AddsUnlessRefused result (λ request. Outgoing.Publish subject.now (Some (answer_subject (front self.old) request.0)) (option_copied headers.entry) payload.now (Some request)) self.old self.new }
        ensures cause { FailsUnless (can_request self.old && may_publish (outbox_view self.old).max_payload subject.now None (option_copied headers.entry) payload.now) result }
    {
        if !self.can_request() || !may_publish(self.max_payload, subject, None, headers, payload) {
            return Err(self.fail());
        }
        let (subject, headers, payload) = all_3(
            Subject::new(alloc, subject),
            copy_headers(headers),
            copy_payload(alloc, payload),
        )?;
        Ok(self.add_request(alloc, subject, headers, payload)?)
    }

    fn take(&mut self, inbox: InboxId) -> Taken
        ensures call { TakesOf inbox.0 result (outbox_view self.old) (outbox_view self.new) }
        ensures sends { SendsNothing self.old self.new }
    {
        take_from(&mut self.inboxes, inbox.0)
    }

    fn answer(&mut self, request: RequestId) -> Answer
        ensures call { AnswersOf request.0 result (outbox_view self.old) (outbox_view self.new) }
        ensures sends { SendsNothing self.old self.new }
    {
        take_answer(&mut self.requests, request.0)
    }

    fn forget(&mut self, request: RequestId)
        ensures call { EndsRequest request.0 (outbox_view self.old) (outbox_view self.new) }
        ensures sends { SendsNothing self.old self.new }
    {
        self.requests.remove(request.0);
    }

    fn state(&mut self) -> Watch
        ensures value { result ≡ (outbox_view self.old).watch }
        ensures same { self.new ≡ self.old }
    {
        self.watch
    }

    fn max_payload(&self) -> u64 {
        self.max_payload
    }

    fn request_timeout(&self) -> Option<Nanos> {
        self.request_timeout
    }
}
