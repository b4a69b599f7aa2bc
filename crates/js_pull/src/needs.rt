//! What a row needs before it is passed: the texts of what it wishes, what its reply says, and the
//! pin that an arrival brings.
ghost use Rattle.std.specs.Prelude.{◌≡◌, ◌==◌, IfOk, Option};
ghost use Rattle.std.specs.Option.{option_copied};
ghost use Rattle.js_base.specs.declared.message.Message.{Message as SpecMessage};
ghost use Rattle.js_link.specs.Wish.{message_of};
ghost use Rattle.js_pull.specs.Reader as rows;
ghost use Rattle.js_pull.specs.declared.reader.Reason.TheVariants.{Low};
ghost use Rattle.js_pull.specs.declared.reader.Row.TheVariants as read;
ghost use Rattle.js_pull.specs.Rows.{IsInformed, finding_of as finding_in, pin_brought, row_of};
ghost use Rattle.js_pull.specs.declared.replies.Finding.TheVariants as finds;

use crate::reader::{InfoRequest, Reader};
use crate::replies::{Finding, InfoReply, brought_pin, info_reply};
use crate::rows::Due;
use bytes::Bytes;
use js_base::{Boxed, Message, OutOfMemory, Text, TryClone};
use js_codes::errors::ErrorCode;
use js_json::consumer::Info;
use js_link::{Met, Wish};
use std::alloc::Global;

/// Returns what a row learns from the reply that it reads, if it reads the reply to an info request.
/// Other rows learn nothing. Fails with `OutOfMemory` if memory runs out.
pub fn informed_of(alloc: Global, due: Due, reply: &Option<Message>) -> Result<Finding, OutOfMemory>
    ensures { IfOk result (λ finding. IsInformed (row_of reply.now due) finding) }
{
    match due {
        Due::Answered { .. } => finding_of(alloc, reply.as_ref()),
        Due::Ask { .. } => Ok(Finding::Nothing),
        Due::Threshold => Ok(Finding::Nothing),
        Due::Arm => Ok(Finding::Nothing),
        Due::Inquire { .. } => Ok(Finding::Nothing),
        Due::FailInfoRequest { .. } => Ok(Finding::Nothing),
        Due::CheckInfoRequest => Ok(Finding::Nothing),
        Due::CheckExpiry => Ok(Finding::Nothing),
        Due::CheckArrival => Ok(Finding::Nothing),
        Due::CheckSilence => Ok(Finding::Nothing),
    }
}

// What an info says, which is let go.
fn found(info: Boxed<Info>) -> Finding
    ensures { result ≡ finds.Found (info.num_waiting == 0) }
{
    let reset = info.get().num_waiting == 0;
    drop(info);
    Finding::Found { reset }
}

// The error that the API sends where the consumer is not found, or its stream.
fn is_gone(code: ErrorCode) -> bool
    ensures { result ≡ rows.is_gone code }
{
    code == ErrorCode::CONSUMER_NOT_FOUND || code == ErrorCode::STREAM_NOT_FOUND
}

fn refused(code: ErrorCode) -> Finding
    ensures { result ≡ finding_in (InfoReply.Error code) }
{
    if is_gone(code) {
        Finding::Gone
    } else {
        Finding::Nothing
    }
}

/// Returns what a reader learns from an answer to an info request. Fails with `OutOfMemory` if
/// memory runs out.
pub fn finding_of(alloc: Global, reply: Option<&Message>) -> Result<Finding, OutOfMemory>
    ensures { IfOk result (λ finding. finding ≡ finding_in (rows.info_reply (option_copied reply.entry))) }
{
    match info_reply(alloc, reply)? {
        InfoReply::Info(info) => Ok(found(info)),
        InfoReply::Error(code) => Ok(refused(code)),
        InfoReply::Nothing => Ok(Finding::Nothing),
    }
}

impl Reader {
    /// Returns what a row wishes of the link, with its texts.
    ///
    /// # Errors
    ///
    /// Fails with `OutOfMemory` if memory runs out. Nothing has changed then.
    pub fn wish(&self, alloc: Global, due: Due) -> Result<Wish, OutOfMemory>
        ensures { IfOk result (λ wish. (reply : Option SpecMessage) → wish ≡ rows.wish (row_of reply due) self.now) }
    {
        match due {
            Due::Ask { .. } => self.pull_wish(alloc),
            Due::Inquire { .. } => self.info_wish(alloc),
            Due::CheckInfoRequest => Ok(awaited(self.inquiry)),
            Due::CheckArrival => Ok(Wish::Reads {
                inbox: self.source.inbox,
            }),
            Due::Threshold => Ok(Wish::Nothing),
            Due::Arm => Ok(Wish::Nothing),
            Due::FailInfoRequest { .. } => Ok(Wish::Nothing),
            Due::Answered { .. } => Ok(Wish::Nothing),
            Due::CheckExpiry => Ok(Wish::Nothing),
            Due::CheckSilence => Ok(Wish::Nothing),
        }
    }

    // A pull request goes out.
    fn pull_wish(&self, alloc: Global) -> Result<Wish, OutOfMemory>
        ensures { IfOk result (λ wish. wish ≡ rows.wish (read.Ask Low) self.now) }
    {
        Ok(Wish::Publishes {
            subject: self.source.pull_subject(alloc)?,
            reply: Some(self.source.subject.try_clone()?),
            payload: self.pull_body(alloc)?,
        })
    }

    // The consumer's info is asked for.
    fn info_wish(&self, alloc: Global) -> Result<Wish, OutOfMemory>
        ensures { IfOk result (λ wish. wish ≡ rows.wish (read.Inquire 0) self.now) }
    {
        Ok(Wish::Requests {
            subject: self.source.info_subject(alloc)?,
            payload: Bytes::from_static(b"{}"),
        })
    }

    /// Returns the pin that an arrival brings, if clients are pinned.
    ///
    /// # Errors
    ///
    /// Fails with `OutOfMemory` if memory runs out. The message is still there then.
    pub fn pin_of(&self, alloc: Global, met: &Met) -> Result<Option<Text>, OutOfMemory>
        ensures { IfOk result (λ pin. pin ≡ pin_brought self.now.source.pinned (message_of met.now)) }
    {
        match met.message() {
            None => Ok(None),
            Some(message) => brought_pin(alloc, self.source.pinned, message),
        }
    }
}

// An open info that was asked for waits for its answer.
fn awaited(inquiry: InfoRequest) -> Wish
    ensures { result ≡ rows.awaited inquiry }
{
    match inquiry {
        InfoRequest::NoInfoRequest => Wish::Nothing,
        InfoRequest::Asked { request, .. } => Wish::Awaits { request },
        InfoRequest::Resting { .. } => Wish::Nothing,
    }
}
