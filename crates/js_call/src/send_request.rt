//! Requests that do not wait for their answer.
ghost use Rattle.std.specs.Prelude.{◌≡◌};
ghost use Rattle.js_link.specs.LinkView.{LinkView};
ghost use Rattle.js_call.specs.SendRequest.{RepliesOf, SendsRequest};

use crate::error::SendError;
use crate::raw_request::{RawRequest, body_of};
use crate::scope::ApiScope;
use js_base::{OutOfMemory, Subject, both};
use js_link::{Link, LinkError};
use std::alloc::Global;

impl From<LinkError> for SendError {
    ghost use Rattle.js_call.specs.SendRequest.{sent_error};

    ghost from_gives = { λ e result. result ≡ sent_error e };

    fn from(e: LinkError) -> SendError {
        match e {
            LinkError::Failed => SendError::LinkFailed,
            LinkError::OutOfMemory => SendError::OutOfMemory,
        }
    }
}

impl From<OutOfMemory> for SendError {
    ghost use Rattle.js_call.specs.declared.error.SendError.TheVariants.{OutOfMemory};

    ghost from_gives = { λ _ e. e ≡ OutOfMemory };

    fn from(_e: OutOfMemory) -> SendError {
        SendError::OutOfMemory
    }
}

// Where an answer goes: the inbox that was named, or else a fresh subject.
fn reply_subject<L: Link>(
    alloc: Global,
    link: &mut L,
    inbox: Option<Subject>,
) -> Result<Subject, LinkError>
    ensures { RepliesOf result inbox (L.view link.old) (L.view link.new) }
{
    match inbox {
        Some(inbox) => Ok(inbox),
        None => link.fresh_subject(alloc),
    }
}

impl ApiScope {
    /// Publishes the request under the prefix. Its answer goes to the request's inbox, or else to a
    /// fresh subject of the link.
    ///
    /// Fails with `LinkFailed` if the link failed in this call, and with `OutOfMemory` if memory
    /// runs out. Nothing was sent then. Nothing else has changed, except that the link counts a
    /// failure of its own and, if the request has no inbox, may have generated one fresh subject.
    #[tactic(auto, using(crate::proofs::RefusedRequest::named_none, crate::proofs::RefusedRequest::no_reply, crate::proofs::RefusedRequest::not_published))]
    pub fn send_request<L: Link>(
        &self,
        alloc: Global,
        link: &mut L,
        subject: &str,
        request: RawRequest,
    ) -> Result<(), SendError>
        ensures { SendsRequest result self.now subject.now request (L.view link.old) (L.view link.new) }
    {
        let (subject, request) = both(self.subject(alloc, subject), Ok(request))?;
        let RawRequest {
            payload,
            headers,
            timeout: _,
            inbox,
        } = request;
        let held = (subject, headers, body_of(payload));
        let reply = match reply_subject(alloc, link, inbox) {
            Ok(reply) => reply,
            Err(error) => {
                drop(held);
                return Err(SendError::from(error));
            }
        };
        let (subject, headers, body) = &held;
        let sent = link.publish(
            alloc,
            subject.as_str(),
            Some(reply.as_str()),
            headers.as_ref(),
            body.as_slice(),
        );
        drop((held, reply));
        Ok(sent?)
    }
}
