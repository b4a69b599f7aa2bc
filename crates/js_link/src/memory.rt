//! A link in memory, which tells everything: it keeps what it sends, and a test gives it what it
//! receives.
ghost use Rattle.std.specs.Prelude.{◌≡◌, ◌≢◌, IfOk, OnOk, OnErr, MatchOption, Some, None, string_bytes};
ghost use Rattle.std.specs.Option.{option_copied};
ghost use Rattle.js_link.specs.Calls.{Fails, AsksOf, EndsRequest};
ghost use Rattle.js_link.specs.LinkView.{Waits};
ghost use Rattle.js_link.specs.Memory.{memory_view, new_view, inbox_subject, fresh_subject, request_after, closed_is_empty, counts_buffer, HasReply, Delivers, Responds, WaitsAt};

use crate::link::{Answer, Link, LinkError, Taken, Watch};
use crate::sent::{InboxId, RequestId, Sent};
use js_base::{HeaderMap, Message, Nanos, OutOfMemory, State, Subject, Text};
use std::alloc::Global;
use std::collections::VecDeque;

/// The state of a request.
#[derive(Drop)]
enum Request {
    Waits,
    Answered(Message),
    Ended,
}

/// A link in memory for tests: it keeps what it sends, and you give it what it receives.
///
/// It tells everything about itself, so no send fails while it is up: it has no wire, and refuses no
/// subject, header or length. `sent` returns what it was handed, unchanged, which shows a test what
/// an adapter would have been asked to send.
///
/// Inboxes are numbered from 0 and requests from 1, in the order in which they are made. Both take
/// memory, so the numbers never reach the end of their type.
#[derive(Drop)]
pub struct MemoryLink {
    prefix: Text,
    inboxes: Vec<Option<VecDeque<Message>>>,
    requests: Vec<Request>,
    sent: Vec<Sent>,
    fresh: u64,
    faults: u64,
    up: bool,
    watch: Watch,
    max_payload: u64,
    request_timeout: Option<Nanos>,
}

fn answered(reply: Option<Message>) -> Request
    ensures { result ≡ request_after reply }
{
    match reply {
        Some(reply) => Request::Answered(reply),
        None => Request::Ended,
    }
}

#[tactic(auto, unfolding(crate::specs::Memory::inbox_subject))]
fn inbox_text(alloc: Global, prefix: &str, number: u64) -> Result<String, OutOfMemory>
    ensures { IfOk result (λ text. string_bytes text ≡ inbox_subject prefix.now number) }
{
    Ok(format!(in alloc; "{prefix}.{number}")?)
}

#[tactic(auto, unfolding(crate::specs::Memory::fresh_subject))]
fn fresh_text(alloc: Global, prefix: &str, number: u64) -> Result<String, OutOfMemory>
    ensures { IfOk result (λ text. string_bytes text ≡ fresh_subject prefix.now number) }
{
    Ok(format!(in alloc; "{prefix}.r{number}")?)
}

impl MemoryLink {
    /// Creates a link that is up and connected, with no limit on a body and a request timeout of ten
    /// seconds. Its own subjects begin with the prefix and a dot. Fails with `OutOfMemory` if memory
    /// runs out.
    pub fn new(alloc: Global, inbox_prefix: &str) -> Result<MemoryLink, OutOfMemory>
        ensures { IfOk result (λ link. memory_view link ≡ new_view inbox_prefix.now) }
    {
        Ok(MemoryLink {
            prefix: Text::from_str(alloc, inbox_prefix)?,
            inboxes: Vec::new(alloc),
            requests: Vec::new(alloc),
            sent: Vec::new(alloc),
            fresh: 0,
            faults: 0,
            up: true,
            watch: Watch::State(State::Connected),
            max_payload: u64::MAX,
            request_timeout: Some(10_000_000_000),
        })
    }

    // Counts a fault.
    fn fail(&mut self) -> LinkError
        ensures failed { Fails (memory_view self.old) (memory_view self.new) }
        ensures kind { result ≡ LinkError.Failed }
    {
        self.faults = self.faults.saturating_add(1);
        LinkError::Failed
    }

    /// Returns what it has sent, in order.
    pub fn sent(&self) -> &[Sent]
        ensures { (memory_view self.now).sent ≡ Some result.now }
    {
        self.sent.as_slice()
    }

    /// Appends a message to an inbox. If the inbox is closed or was never opened, the message is
    /// ignored. Fails with `OutOfMemory` if memory runs out; the link is then unchanged.
    pub fn deliver(&mut self, inbox: InboxId, message: Message) -> Result<(), OutOfMemory>
        ensures ok { OnOk result (Delivers inbox.0 message (memory_view self.old) (memory_view self.new)) }
        ensures err { OnErr result (memory_view self.new ≡ memory_view self.old) }
    {
        let i = inbox.0 as usize;
        if i >= self.inboxes.len() {
            drop(message);
            return Ok(());
        }
        match &mut self.inboxes[i] {
            None => {
                drop(message);
                Ok(())
            }
            Some(messages) => {
                messages.push_back(message)?;
                Ok(())
            }
        }
    }

    /// Answers a waiting request. Without a reply, the request becomes `Gone`. If the request is not
    /// waiting, the reply is ignored. After `OutOfMemory` the link is unchanged.
    pub fn respond(&mut self, request: RequestId, reply: Option<Message>) -> Result<(), OutOfMemory>
        ensures ok { OnOk result (Responds request.0 reply (memory_view self.old) (memory_view self.new)) }
        ensures err { OnErr result (memory_view self.new ≡ memory_view self.old) }
    {
        self.settle(request, reply);
        Ok(())
    }

    // The same, which takes no memory.
    pub(crate) fn settle(&mut self, request: RequestId, reply: Option<Message>)
        ensures { Responds request.0 reply (memory_view self.old) (memory_view self.new) }
    {
        match self.waiting(request) {
            Some(i) => drop(std::mem::replace(&mut self.requests[i], answered(reply))),
            None => drop(reply),
        }
    }

    // The place of a request that waits.
    fn waiting(&self, request: RequestId) -> Option<usize>
        ensures { MatchOption result ((memory_view self.now).status request.0 ≢ Waits) (WaitsAt request.0 self.now) }
    {
        if request.0 == 0 || request.0 > self.requests.len() as u64 {
            return None;
        }
        let i = (request.0 - 1) as usize;
        match &self.requests[i] {
            Request::Waits => Some(i),
            Request::Answered(_) => None,
            Request::Ended => None,
        }
    }

    /// Sets whether the link is up. While it is down, its sends fail.
    pub fn set_up(&mut self, up: bool)
        ensures { memory_view self.new ≡ record (memory_view self.old) { up = Some up } }
    {
        self.up = up;
    }

    /// Sets what `state` returns.
    pub fn set_watch(&mut self, watch: Watch)
        ensures { memory_view self.new ≡ record (memory_view self.old) { watch = watch } }
    {
        self.watch = watch;
    }

    /// Sets what `max_payload` (bytes) and `request_timeout` (nanoseconds) return.
    pub fn set_limits(&mut self, max_payload: u64, request_timeout: Option<Nanos>)
        ensures { memory_view self.new ≡ record (memory_view self.old) { max_payload = max_payload; request_timeout = request_timeout } }
    {
        self.max_payload = max_payload;
        self.request_timeout = request_timeout;
    }
}

impl Link for MemoryLink {
    ghost view = { memory_view };

    ghost closed_is_empty = { closed_is_empty };

    ghost counts_buffer = { counts_buffer };

    fn subscribe(
        &mut self,
        alloc: Global,
        subject: &str,
        group: Option<&str>,
    ) -> Result<InboxId, LinkError> {
        if !self.up {
            return Err(self.fail());
        }
        let inbox = self.inboxes.len() as u64;
        self.inboxes.reserve(1)?;
        self.sent
            .push(Sent::subscribe(alloc, inbox, subject, group)?)?;
        self.inboxes.push_reserved(Some(VecDeque::new(alloc)));
        Ok(InboxId(inbox))
    }

    fn open_inbox(&mut self, alloc: Global) -> Result<(InboxId, Subject), LinkError> {
        if !self.up {
            return Err(self.fail());
        }
        let number = self.inboxes.len() as u64;
        let subject = Subject::from(inbox_text(alloc, self.prefix.as_str(), number)?);
        let inbox = self.subscribe(alloc, subject.as_str(), None)?;
        Ok((inbox, subject))
    }

    fn fresh_subject(&mut self, alloc: Global) -> Result<Subject, LinkError> {
        if self.fresh == u64::MAX {
            return Err(self.fail());
        }
        let subject = Subject::from(fresh_text(alloc, self.prefix.as_str(), self.fresh)?);
        self.fresh += 1;
        Ok(subject)
    }

    fn unsubscribe(&mut self, inbox: InboxId) {
        let i = inbox.0 as usize;
        if i < self.inboxes.len() {
            self.inboxes[i] = None;
        }
    }

    fn publish(
        &mut self,
        alloc: Global,
        subject: &str,
        reply: Option<&str>,
        headers: Option<&HeaderMap>,
        payload: &[u8],
    ) -> Result<(), LinkError> {
        if !self.up {
            return Err(self.fail());
        }
        let sent = Sent::publish(alloc, subject, reply, headers, payload)?;
        Ok(self.sent.push(sent)?)
    }

    fn request(
        &mut self,
        alloc: Global,
        subject: &str,
        headers: Option<&HeaderMap>,
        payload: &[u8],
    ) -> Result<RequestId, LinkError>
        ensures call { AsksOf result subject.now (option_copied headers.entry) payload.now (memory_view self.old) (memory_view self.new) }
        ensures waits { IfOk result (λ request. HasReply request.0 None (memory_view self.new)) }
    {
        if !self.up {
            return Err(self.fail());
        }
        let number = self.requests.len() as u64 + 1;
        self.requests.reserve(1)?;
        self.sent
            .push(Sent::request(alloc, number, subject, headers, payload)?)?;
        self.requests.push_reserved(Request::Waits);
        Ok(RequestId(number))
    }

    fn take(&mut self, inbox: InboxId) -> Taken {
        let i = inbox.0 as usize;
        if i >= self.inboxes.len() {
            return Taken::Closed;
        }
        match &mut self.inboxes[i] {
            None => Taken::Closed,
            Some(messages) => match messages.pop_front() {
                Some(message) => Taken::Message(message),
                None => Taken::Empty,
            },
        }
    }

    fn answer(&mut self, request: RequestId) -> Answer {
        if request.0 == 0 || request.0 > self.requests.len() as u64 {
            return Answer::Gone;
        }
        let i = (request.0 - 1) as usize;
        match &self.requests[i] {
            Request::Waits => Answer::Waiting,
            Request::Ended => Answer::Gone,
            Request::Answered(_) => match std::mem::replace(&mut self.requests[i], Request::Ended) {
                Request::Answered(message) => Answer::Got(message),
                Request::Waits | Request::Ended => Answer::Gone,
            },
        }
    }

    fn forget(&mut self, request: RequestId)
        ensures { EndsRequest request.0 (memory_view self.old) (memory_view self.new) }
    {
        if request.0 == 0 || request.0 > self.requests.len() as u64 {
            return;
        }
        let i = (request.0 - 1) as usize;
        drop(std::mem::replace(&mut self.requests[i], Request::Ended));
    }

    fn state(&mut self) -> Watch {
        self.watch
    }

    fn max_payload(&self) -> u64 {
        self.max_payload
    }

    fn request_timeout(&self) -> Option<Nanos> {
        self.request_timeout
    }
}
