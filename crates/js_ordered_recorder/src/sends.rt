//! What stands at the link for the numbers of the replay, and how an output is sent.
ghost use Rattle.std.specs.Prelude.{◌≡◌, OnOk, OnErr};
ghost use Rattle.js_ordered_recorder.specs.Sends.{Asks, ClosesAt, Moves, Publishes, lost_by};

use bytes::Bytes;
use js_base::{OutOfMemory, Subject};
use js_link::{InboxId, Link, LinkError, RequestId};
use std::alloc::Global;

/// The replay's last request, as it was sent.
#[derive(Clone, Copy)]
pub(crate) struct Asked {
    /// The replay's number of it.
    pub(crate) number: u64,
    /// The link's number of it, if the link could send it.
    pub(crate) request: Option<RequestId>,
}

/// What stands at the link for the numbers of the replay.
#[derive(Clone, Copy)]
pub(crate) struct LinkNumbers {
    /// The replay's number of the inbox that was opened last.
    pub(crate) number: u64,
    /// The link's number of that inbox, if the link could open it.
    pub(crate) inbox: Option<InboxId>,
    pub(crate) asked: Option<Asked>,
    /// The number of sends that failed, other than requests.
    pub(crate) lost: u64,
}

// One send more is lost, if it failed.
fn lost_after(sent: bool, lost: u64) -> u64
    ensures { result ≡ lost_by sent lost }
{
    if sent { lost } else { lost.saturating_add(1) }
}

impl LinkNumbers {
    // Closes the inbox that is open.
    pub(crate) fn close<L: Link>(&self, link: &mut L)
        ensures { ClosesAt self.now.inbox (L.view link.old) (L.view link.new) }
    {
        if let Some(inbox) = self.inbox {
            link.unsubscribe(inbox);
        }
    }

    // Sends a request. One that the link can't send has no answer.
    pub(crate) fn ask<L: Link>(
        &mut self,
        alloc: Global,
        link: &mut L,
        number: u64,
        subject: &Subject,
        payload: &Bytes,
    ) -> Result<(), OutOfMemory>
        ensures sent { OnOk result (Asks number subject.now payload.now self.old self.new (L.view link.old) (L.view link.new)) }
        ensures sends { OnErr result (self.new ≡ self.old) }
        ensures link { OnErr result (L.view link.new ≡ L.view link.old) }
    {
        let request = match link.request(alloc, subject.as_str(), None, payload.as_slice()) {
            Ok(request) => Some(request),
            Err(LinkError::Failed) => None,
            Err(LinkError::OutOfMemory) => return Err(OutOfMemory),
        };
        self.asked = Some(Asked { number, request });
        Ok(())
    }

    // Publishes a message. One that the link can't send counts as lost on the way.
    pub(crate) fn publish<L: Link>(
        &mut self,
        alloc: Global,
        link: &mut L,
        subject: &Subject,
        reply: &Option<Subject>,
        payload: &Bytes,
    ) -> Result<(), OutOfMemory>
        ensures sent { OnOk result (Publishes subject.now reply.now payload.now self.old self.new (L.view link.old) (L.view link.new)) }
        ensures sends { OnErr result (self.new ≡ self.old) }
        ensures link { OnErr result (L.view link.new ≡ L.view link.old) }
    {
        let back = match reply {
            None => None,
            Some(reply) => Some(reply.as_str()),
        };
        let sent = match link.publish(alloc, subject.as_str(), back, None, payload.as_slice()) {
            Ok(()) => true,
            Err(LinkError::Failed) => false,
            Err(LinkError::OutOfMemory) => return Err(OutOfMemory),
        };
        self.lost = lost_after(sent, self.lost);
        Ok(())
    }

    // Opens an inbox in place of the one before it, which is closed.
    pub(crate) fn open<L: Link>(
        &mut self,
        alloc: Global,
        link: &mut L,
        number: u64,
        subject: &Subject,
    ) -> Result<(), OutOfMemory>
        ensures sent { OnOk result (Moves number subject.now self.old self.new (L.view link.old) (L.view link.new)) }
        ensures sends { OnErr result (self.new ≡ self.old) }
        ensures link { OnErr result (L.view link.new ≡ L.view link.old) }
    {
        let opened = match link.subscribe(alloc, subject.as_str(), None) {
            Ok(inbox) => Some(inbox),
            Err(LinkError::Failed) => None,
            Err(LinkError::OutOfMemory) => return Err(OutOfMemory),
        };
        self.close(link);
        self.number = number;
        self.inbox = opened;
        self.lost = lost_after(opened.is_some(), self.lost);
        Ok(())
    }
}
