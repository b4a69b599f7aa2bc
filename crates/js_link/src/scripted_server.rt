//! A link in memory that answers its requests from a script.
ghost use Rattle.std.specs.Prelude.{◌≡◌, [], ◌∷◌, ◌++◌, OnOk, OnErr};
ghost use Rattle.std.specs.List.{position};
ghost use Rattle.std.specs.Borrow.{sem};
ghost use Rattle.std.specs.Option.{option_copied};
ghost use Rattle.js_link.specs.Calls.{Closes, NamesOf, SubscribesOf, OpensOf, PublishesOf, TakesOf, AnswersOf, EndsRequest};
ghost use Rattle.js_link.specs.Memory.{closed_is_empty, counts_buffer};
ghost use Rattle.js_link.specs.ScriptedServer.{AsksServerOf, LendsLink, UsesReply, is_for, link_of, script_of, server_view};

use crate::link::{Answer, Link, LinkError, Taken, Watch};
use crate::memory::MemoryLink;
use crate::sent::{InboxId, RequestId};
use js_base::{HeaderMap, Message, Nanos, OutOfMemory, Subject, both};
use std::alloc::Global;

/// A scripted reply, and the subject of the requests that it answers.
#[derive(Drop)]
struct Scripted {
    subject: Subject,
    reply: Message,
}

/// A link in memory that answers its requests from a script.
///
/// A request takes the first unused reply for its subject. If none is left, the request waits, as on
/// the [`MemoryLink`] itself.
#[derive(Drop)]
pub struct ScriptedServer {
    link: MemoryLink,
    script: Vec<Scripted>,
}

impl ScriptedServer {
    /// Creates a server over a link, with an empty script. It allocates nothing.
    pub fn new(alloc: Global, link: MemoryLink) -> ScriptedServer
        ensures link { link_of result ≡ link }
        ensures script { script_of result ≡ [] }
    {
        ScriptedServer {
            link,
            script: Vec::new(alloc),
        }
    }

    /// Returns the link itself, to deliver messages, to set it up or down, and to look at what was
    /// sent.
    pub fn link(&mut self) -> &mut MemoryLink
        ensures* writes_back { sem 𝓛 (LendsLink self.entry result) }
        ensures value { result.now ≡ link_of self.old }
    {
        &mut self.link
    }

    /// Adds a reply at the end of the script. Fails with `OutOfMemory` if memory runs out; the reply
    /// is then dropped, and the server is unchanged.
    pub fn script(
        &mut self,
        alloc: Global,
        subject: &str,
        reply: Message,
    ) -> Result<(), OutOfMemory>
        ensures ok { OnOk result (script_of self.new ≡ script_of self.old ++ record { subject = subject.now; reply = reply } ∷ []) }
        ensures err { OnErr result (script_of self.new ≡ script_of self.old) }
        ensures link { link_of self.new ≡ link_of self.old }
    {
        let (reply, subject) = both(Ok(reply), Subject::new(alloc, subject))?;
        self.script.push(Scripted { subject, reply })?;
        Ok(())
    }

    fn position_of(&self, subject: &str) -> Option<usize>
        ensures { result ≡ position (is_for subject.now) (script_of self.now) }
    {
        self.script
            .iter()
            .position(|line| line.subject.as_str() == subject)
    }

    // The first reply for a subject, which is used up.
    fn next_reply(&mut self, subject: &str) -> Option<Message>
        ensures reply { UsesReply subject.now result (script_of self.old) (script_of self.new) }
        ensures link { link_of self.new ≡ link_of self.old }
    {
        let Some(i) = self.position_of(subject) else {
            return None;
        };
        let Scripted { reply, .. } = self.script.remove(i);
        Some(reply)
    }
}

impl Link for ScriptedServer {
    ghost view = { server_view };

    ghost closed_is_empty = { λ s. closed_is_empty (link_of s) };

    ghost counts_buffer = { λ s. counts_buffer (link_of s) };

    fn subscribe(
        &mut self,
        alloc: Global,
        subject: &str,
        group: Option<&str>,
    ) -> Result<InboxId, LinkError>
        ensures call { SubscribesOf result subject.now (option_copied group.entry) (server_view self.old) (server_view self.new) }
        ensures script { script_of self.new ≡ script_of self.old }
    {
        self.link.subscribe(alloc, subject, group)
    }

    fn open_inbox(&mut self, alloc: Global) -> Result<(InboxId, Subject), LinkError>
        ensures call { OpensOf result (server_view self.old) (server_view self.new) }
        ensures script { script_of self.new ≡ script_of self.old }
    {
        self.link.open_inbox(alloc)
    }

    fn fresh_subject(&mut self, alloc: Global) -> Result<Subject, LinkError>
        ensures call { NamesOf result (server_view self.old) (server_view self.new) }
        ensures script { script_of self.new ≡ script_of self.old }
    {
        self.link.fresh_subject(alloc)
    }

    fn unsubscribe(&mut self, inbox: InboxId)
        ensures call { Closes inbox.0 (server_view self.old) (server_view self.new) }
        ensures script { script_of self.new ≡ script_of self.old }
    {
        self.link.unsubscribe(inbox)
    }

    fn publish(
        &mut self,
        alloc: Global,
        subject: &str,
        reply: Option<&str>,
        headers: Option<&HeaderMap>,
        payload: &[u8],
    ) -> Result<(), LinkError>
        ensures call { PublishesOf result subject.now (option_copied reply.entry) (option_copied headers.entry) payload.now (server_view self.old) (server_view self.new) }
        ensures script { script_of self.new ≡ script_of self.old }
    {
        self.link.publish(alloc, subject, reply, headers, payload)
    }

    fn request(
        &mut self,
        alloc: Global,
        subject: &str,
        headers: Option<&HeaderMap>,
        payload: &[u8],
    ) -> Result<RequestId, LinkError>
        ensures { AsksServerOf result subject.now (option_copied headers.entry) payload.now self.old self.new }
    {
        let request = self.link.request(alloc, subject, headers, payload)?;
        let Some(reply) = self.next_reply(subject) else {
            return Ok(request);
        };
        self.link.settle(request, Some(reply));
        Ok(request)
    }

    fn take(&mut self, inbox: InboxId) -> Taken
        ensures call { TakesOf inbox.0 result (server_view self.old) (server_view self.new) }
        ensures script { script_of self.new ≡ script_of self.old }
    {
        self.link.take(inbox)
    }

    fn answer(&mut self, request: RequestId) -> Answer
        ensures call { AnswersOf request.0 result (server_view self.old) (server_view self.new) }
        ensures script { script_of self.new ≡ script_of self.old }
    {
        self.link.answer(request)
    }

    fn forget(&mut self, request: RequestId)
        ensures call { EndsRequest request.0 (server_view self.old) (server_view self.new) }
        ensures script { script_of self.new ≡ script_of self.old }
    {
        self.link.forget(request);
    }

    fn state(&mut self) -> Watch
        ensures value { result ≡ (server_view self.old).watch }
        ensures same { server_view self.new ≡ server_view self.old }
        ensures script { script_of self.new ≡ script_of self.old }
    {
        self.link.state()
    }

    fn max_payload(&self) -> u64 {
        self.link.max_payload()
    }

    fn request_timeout(&self) -> Option<Nanos> {
        self.link.request_timeout()
    }
}
