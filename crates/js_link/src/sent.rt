//! What a link has sent, and the numbers of its inboxes and requests.
ghost use Rattle.std.specs.Prelude.{◌≡◌, IfOk};
ghost use Rattle.std.specs.Option.{option_copied};
ghost use Rattle.js_link.specs.declared.sent.Sent.TheVariants as sents;

use crate::copies::{copy_headers, copy_payload, copy_subject, copy_text};
use bytes::Bytes;
use js_base::{HeaderMap, OutOfMemory, Subject, Text, all_3, all_4, both};
use std::alloc::Global;

/// The number of an inbox of a link.
#[derive(Clone, Copy, Debug, PartialEq, Eq)]
pub struct InboxId(pub u64);

/// The number of a request of a link.
#[derive(Clone, Copy, Debug, PartialEq, Eq)]
pub struct RequestId(pub u64);

/// One thing that a link has sent.
#[derive(Debug, PartialEq, Eq, Drop)]
pub enum Sent {
    /// A request, which waits for one answer.
    Request {
        number: u64,
        subject: Subject,
        headers: Option<HeaderMap>,
        payload: Bytes,
    },
    /// A message, with the subject to which an answer may go.
    Publish {
        subject: Subject,
        reply: Option<Subject>,
        headers: Option<HeaderMap>,
        payload: Bytes,
    },
    /// A new inbox, in a queue group if it has one.
    Subscribe {
        inbox: u64,
        subject: Subject,
        group: Option<Text>,
    },
}

impl Sent {
    // What stands for a new inbox, with copies of its texts.
    pub(crate) fn subscribe(
        alloc: Global,
        inbox: u64,
        subject: &str,
        group: Option<&str>,
    ) -> Result<Sent, OutOfMemory>
        ensures { IfOk result (λ sent. sent ≡ sents.Subscribe inbox subject.now (option_copied group.entry)) }
    {
        let (subject, group) = both(Subject::new(alloc, subject), copy_text(alloc, group))?;
        Ok(Sent::Subscribe {
            inbox,
            subject,
            group,
        })
    }

    // What stands for a message, with copies of what it is made of.
    pub(crate) fn publish(
        alloc: Global,
        subject: &str,
        reply: Option<&str>,
        headers: Option<&HeaderMap>,
        payload: &[u8],
    ) -> Result<Sent, OutOfMemory>
        ensures { IfOk result (λ sent. sent ≡ sents.Publish subject.now (option_copied reply.entry) (option_copied headers.entry) payload.now) }
    {
        let (subject, reply, headers, payload) = all_4(
            Subject::new(alloc, subject),
            copy_subject(alloc, reply),
            copy_headers(headers),
            copy_payload(alloc, payload),
        )?;
        Ok(Sent::Publish {
            subject,
            reply,
            headers,
            payload,
        })
    }

    // What stands for a request, with copies of what it is made of.
    pub(crate) fn request(
        alloc: Global,
        number: u64,
        subject: &str,
        headers: Option<&HeaderMap>,
        payload: &[u8],
    ) -> Result<Sent, OutOfMemory>
        ensures { IfOk result (λ sent. sent ≡ sents.Request number subject.now (option_copied headers.entry) payload.now) }
    {
        let (subject, headers, payload) = all_3(
            Subject::new(alloc, subject),
            copy_headers(headers),
            copy_payload(alloc, payload),
        )?;
        Ok(Sent::Request {
            number,
            subject,
            headers,
            payload,
        })
    }
}
