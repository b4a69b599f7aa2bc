//! One request, from its sending to its reply.
ghost use Rattle.std.specs.Prelude.{◌≡◌, Result};
ghost use Rattle.js_link.specs.LinkView.{LinkView};
ghost use Rattle.js_link.specs.Calls.{RefusedSend};
ghost use Rattle.js_call.specs.RawCall.{Progresses, RawPolled, SendsRawCallOf, refusal_of, has_no_responders, reply_of, progress_turn};

use crate::error::{RequestError, RequestErrorKind};
use crate::open_request::{OpenRequest, Shown};
use crate::state::State;
use bytes::Bytes;
use js_base::{
    Error, HeaderMap, Message, Moment, Nanos, StatusCode, Subject, Turn, is_valid_subject,
};
use js_link::{Link, LinkError};
use std::alloc::Global;

/// One request. The first poll sends it.
///
/// The request checks its subject and then the length of its body before it is sent. The poll that
/// sends it also looks for the answer. A request made by `ApiScope::call` checks neither: the poll
/// that sends it returns `Pending`, and it looks for the answer and at the clock from the next poll
/// on.
#[derive(Drop)]
#[must_use = "a call is sent by its first poll"]
pub struct RawCall {
    pub(crate) subject: Subject,
    pub(crate) headers: Option<HeaderMap>,
    pub(crate) payload: Bytes,
    // None leaves it to the connection, and Some(None) waits without end.
    pub(crate) timeout: Option<Option<Nanos>>,
    pub(crate) is_tested: bool,
    pub(crate) sent: Option<OpenRequest>,
}

/// What one poll of a request found.
#[derive(Drop)]
pub(crate) enum RequestProgress {
    /// The request must not be sent.
    Barred(RequestErrorKind),
    /// The link failed to send it.
    Failed,
    OutOfMemory,
    /// The request was sent, and the poll did not look for the answer.
    Sent(OpenRequest),
    /// The request was sent, now or earlier, and the look found this.
    Shown(OpenRequest, Shown),
}

/// Returns whether the status of a reply says that nobody listens on the subject: it is 503.
pub fn has_no_responders(status: Option<StatusCode>) -> bool
    ensures { result ≡ has_no_responders status }
{
    match status {
        None => false,
        Some(status) => status == StatusCode::NO_RESPONDERS,
    }
}

// The reply, unless it says that nobody answers.
fn reply_of(message: Message) -> Result<Message, RequestError>
    ensures { result ≡ reply_of message }
{
    if has_no_responders(message.status) {
        drop(message);
        Err(Error::new(RequestErrorKind::NoResponders))
    } else {
        Ok(message)
    }
}

// The last turn of a state, which is let go.
fn ready<S: Drop, A: Drop>(state: S, answer: A) -> Turn<S, A>
    ensures { result ≡ Turn.Ready answer }
{
    drop(state);
    Turn::Ready(answer)
}

impl RawCall {
    fn send<L: Link>(
        &self,
        alloc: Global,
        link: &mut L,
        now: Moment,
    ) -> Result<OpenRequest, LinkError>
        ensures { SendsRawCallOf result self.now now (L.view link.old) (L.view link.new) }
    {
        let timeout = match self.timeout {
            Some(own) => own,
            None => link.request_timeout(),
        };
        let request = link.request(
            alloc,
            self.subject.as_str(),
            self.headers.as_ref(),
            self.payload.as_slice(),
        )?;
        Ok(OpenRequest {
            request,
            since: now,
            timeout,
        })
    }

    // What keeps it from being sent.
    fn refusal_before_send<L: Link>(&self, link: &L) -> Option<RequestErrorKind>
        ensures { result ≡ refusal_of self.now (L.view link.now) }
    {
        if !is_valid_subject(self.subject.as_str()) {
            Some(RequestErrorKind::InvalidSubject)
        } else if self.payload.len() as u64 > link.max_payload() {
            Some(RequestErrorKind::Other)
        } else {
            None
        }
    }

    // Sends it where it was not sent, and looks at it, as far as one poll goes.
    fn progress<L: Link>(&self, alloc: Global, link: &mut L, now: Moment) -> RequestProgress
        ensures { Progresses self.now.sent self.now now result (L.view link.old) (L.view link.new) }
    {
        if let Some(sent) = self.sent {
            let shown = sent.look(link, now);
            return RequestProgress::Shown(sent, shown);
        }
        if !self.is_tested {
            return match self.send(alloc, link, now) {
                Ok(sent) => RequestProgress::Sent(sent),
                Err(LinkError::Failed) => RequestProgress::Failed,
                Err(LinkError::OutOfMemory) => RequestProgress::OutOfMemory,
            };
        }
        if let Some(kind) = self.refusal_before_send(link) {
            return RequestProgress::Barred(kind);
        }
        match self.send(alloc, link, now) {
            Ok(sent) => {
                let shown = sent.look(link, now);
                RequestProgress::Shown(sent, shown)
            }
            Err(LinkError::Failed) => RequestProgress::Failed,
            Err(LinkError::OutOfMemory) => RequestProgress::OutOfMemory,
        }
    }

    // The same, sent.
    fn sent_as(self, sent: OpenRequest) -> RawCall
        ensures { result ≡ record self { sent = Some sent } }
    {
        RawCall {
            sent: Some(sent),
            ..self
        }
    }

    // What it answers to what it met.
    fn turn(self, met: RequestProgress) -> Turn<RawCall, Result<Message, RequestError>>
        ensures { result ≡ progress_turn self met }
    {
        match met {
            RequestProgress::Barred(kind) => ready(self, Err(Error::new(kind))),
            RequestProgress::Failed => ready(self, Err(Error::new(RequestErrorKind::Other))),
            RequestProgress::OutOfMemory => Turn::OutOfMemory(self),
            RequestProgress::Sent(sent) => Turn::Pending(self.sent_as(sent)),
            RequestProgress::Shown(sent, shown) => match shown {
                Shown::Came(message) => ready(self, reply_of(message)),
                Shown::Gone => ready(self, Err(Error::new(RequestErrorKind::Other))),
                Shown::Due => ready(self, Err(Error::new(RequestErrorKind::TimedOut))),
                Shown::Still => Turn::Pending(self.sent_as(sent)),
            },
        }
    }
}

impl State for RawCall {
    type Answer = Result<Message, RequestError>;

    ghost polled = { RawPolled };

    ghost waits_for = { λ call. call.sent };

    fn waits_for(&self) -> Option<OpenRequest> {
        self.sent
    }

    fn poll<L: Link>(self, alloc: Global, link: &mut L, now: Moment) -> Turn<Self, Self::Answer> {
        let met = self.progress(alloc, link, now);
        self.turn(met)
    }
}
