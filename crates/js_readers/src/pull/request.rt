//! A pull request: its texts, and how it is sent.
ghost use Rattle.std.specs.Prelude.{◌≡◌, None, Some, IfOk, codes};
ghost use Rattle.js_link.specs.Calls.{PublishesOf};
ghost use Rattle.js_ordered_stream.specs.Inbox.{ClosesInbox};
ghost use Rattle.js_pull.specs.Limits.{pull_body};
ghost use Rattle.js_pull.specs.Reader.{api_subject};
ghost use Rattle.js_readers.specs.PullConsumer.{pull_request};
ghost use Rattle.js_readers.specs.PullRequest.{AsksFrom, FindsInbox, OpensFor, kept_inbox, opening_fault};

use bytes::Bytes;
use js_base::{OutOfMemory, Subject, consumer_api_subject, with_word};
use js_call_consumers::PullConsumer;
use js_json::pull::BatchConfig;
use js_json_members::ReadError;
use js_link::{InboxId, Link, LinkError};
use std::alloc::Global;

/// A pull request with its texts. Sending it makes no further ones.
#[derive(Drop)]
pub(crate) struct PullRequest {
    subject: Subject,
    payload: Bytes,
}

/// An inbox that is open for the messages of a request.
#[derive(Drop)]
pub(crate) struct OpenInbox {
    pub id: InboxId,
    pub subject: Subject,
}

/// Why no inbox waits for the messages of a request.
#[derive(Clone, Copy)]
pub(crate) enum OpenFault {
    /// No inbox was opened.
    Subscribe,
    /// The request was not sent, and the inbox is closed.
    Pull,
    OutOfMemory,
}

fn opening_fault(error: LinkError) -> OpenFault
    ensures { result ≡ opening_fault error }
{
    match error {
        LinkError::Failed => OpenFault::Subscribe,
        LinkError::OutOfMemory => OpenFault::OutOfMemory,
    }
}

// The inbox that was kept, or one that is opened. It is kept no longer.
fn find_inbox<L: Link>(
    alloc: Global,
    link: &mut L,
    kept: &mut Option<OpenInbox>,
) -> Result<OpenInbox, LinkError>
    ensures finds { FindsInbox kept.old result (L.view link.old) (L.view link.new) }
    ensures taken { kept.new ≡ None }
{
    match kept.take() {
        Some(inbox) => Ok(inbox),
        None => match link.open_inbox(alloc) {
            Ok((id, subject)) => Ok(OpenInbox { id, subject }),
            Err(error) => Err(error),
        },
    }
}

// The number of the inbox that is kept.
pub(crate) fn kept_inbox(kept: &Option<OpenInbox>) -> Option<InboxId>
    ensures { result ≡ kept_inbox kept.now }
{
    match kept {
        None => None,
        Some(inbox) => Some(inbox.id),
    }
}

// The inbox that is kept is closed.
pub(crate) fn close_kept<L: Link>(link: &mut L, kept: Option<OpenInbox>)
    ensures { ClosesInbox (kept_inbox kept) (L.view link.old) (L.view link.new) }
{
    if let Some(inbox) = kept {
        link.unsubscribe(inbox.id);
    }
}

// The error of a call that can only lack memory.
fn memory_error(_error: ReadError) -> OutOfMemory
    requires { _error ≡ ReadError.OutOfMemory }
{
    OutOfMemory
}

fn body_of(alloc: Global, config: &BatchConfig) -> Result<Bytes, OutOfMemory>
    ensures { IfOk result (λ body. body ≡ pull_body None config.now) }
{
    match config.request_text(alloc, None) {
        Ok(text) => Ok(Bytes::from_string(text)?),
        // Whatever is asked for can be written.
        Err(error) => Err(memory_error(error)),
    }
}

fn subject_of(alloc: Global, api: &str, stream: &str, name: &str) -> Result<Subject, OutOfMemory>
    ensures { IfOk result (λ subject. subject ≡ api_subject api.now (codes "CONSUMER.MSG.NEXT") stream.now name.now) }
{
    let subject = consumer_api_subject(alloc, "CONSUMER.MSG.NEXT", stream, name)?;
    Ok(Subject::from(with_word(alloc, api, subject.as_str())?))
}

impl PullRequest {
    /// Makes the request that asks a consumer for what `config` says.
    pub fn of(
        alloc: Global,
        consumer: &PullConsumer,
        config: &BatchConfig,
    ) -> Result<PullRequest, OutOfMemory>
        ensures { IfOk result (λ request. request ≡ pull_request consumer.now config.now) }
    {
        let payload = body_of(alloc, config)?;
        let api = consumer.scope.prefix.as_str();
        let stream = consumer.info.stream_name.as_str();
        let subject = subject_of(alloc, api, stream, consumer.info.name.as_str())?;
        Ok(PullRequest { subject, payload })
    }

    /// Sends the request. What it asks for comes to `inbox`.
    pub fn publish<L: Link>(
        &self,
        alloc: Global,
        link: &mut L,
        inbox: &str,
    ) -> Result<(), LinkError>
        ensures { PublishesOf result self.now.subject (Some inbox.now) None self.now.payload (L.view link.old) (L.view link.new) }
    {
        link.publish(
            alloc,
            self.subject.as_str(),
            Some(inbox),
            None,
            self.payload.as_slice(),
        )
    }

    /// Sends the request for the inbox that was kept, or for one that it opens. Returns the number
    /// of the inbox.
    ///
    /// If memory runs out, it keeps the open inbox for the next try. If the link fails to send, it
    /// closes the inbox.
    pub fn ask<L: Link>(
        &self,
        alloc: Global,
        link: &mut L,
        kept: &mut Option<OpenInbox>,
    ) -> Result<u64, OpenFault>
        ensures { AsksFrom kept.old result self.now kept.new (L.view link.old) (L.view link.new) }
    {
        let inbox = match find_inbox(alloc, link, kept) {
            Ok(inbox) => inbox,
            Err(error) => return Err(opening_fault(error)),
        };
        match self.publish(alloc, link, inbox.subject.as_str()) {
            Ok(()) => Ok(inbox.id.0),
            Err(LinkError::Failed) => {
                link.unsubscribe(inbox.id);
                Err(OpenFault::Pull)
            }
            Err(LinkError::OutOfMemory) => {
                *kept = Some(inbox);
                Err(OpenFault::OutOfMemory)
            }
        }
    }

    /// Opens an inbox and sends the request for it. If that fails, no inbox stays open.
    pub fn open<L: Link>(&self, alloc: Global, link: &mut L) -> Result<u64, OpenFault>
        ensures { OpensFor result self.now (L.view link.old) (L.view link.new) }
    {
        let mut kept = None;
        let asked = self.ask(alloc, link, &mut kept);
        close_kept(link, kept);
        asked
    }
}
