//! What is to be written to the server, and what was written.

ghost use Rattle.std.specs.Prelude.{◌≡◌, ◌==◌, ◌++◌, ◌∷◌, ◌-◌, ◌+◌, [], ◌<◌, false, not, filter, Some, None, OnOk, OnErr, IfErr, slice_get, vec_len, vec_capacity};
ghost use Rattle.js_link_outbox.specs.Outbox.{outgoing};
ghost use Rattle.js_link_wire.specs.Written.{written, refusal};
ghost use Rattle.js_link_connection.specs.Errors.{IsUnwritten};
ghost use Rattle.js_link_connection.specs.Writer.{WritesNext, Writes, WritesTaken, WritesItem, KeepsNotes, Fetches, TakesOnly, item_of, publish_of, due, is_subscription, subscribed_after, requests_after};

use crate::buffer::Buffer;
use crate::error::ConnectionError;
use bytes::Bytes;
use js_base::{HeaderMap, Subject};
use js_link::RequestId;
use js_link_outbox::{OutboxLink, Outgoing};
use js_link_wire::ClientFrame;
use std::alloc::Global;

/// How far a connection has come.
#[derive(Clone, Copy, Debug, PartialEq, Eq)]
pub(crate) enum Phase {
    /// No connection is made.
    Lost,
    /// It was made, and the server has not sent INFO yet.
    Awaiting,
    /// INFO has come, and CONNECT is to be written.
    Greeting,
    /// CONNECT was written.
    Up,
}

/// One thing that a link has to send, as a frame, with the request that it makes, if any.
#[derive(Drop)]
pub(crate) struct Item {
    pub(crate) frame: ClientFrame,
    pub(crate) request: Option<RequestId>,
}

/// What is to be written, in the order of these fields, and what was written.
#[derive(Drop)]
pub(crate) struct Writer {
    /// The bytes to send first.
    pub(crate) out: Buffer,
    pub(crate) phase: Phase,
    /// The CONNECT frame.
    pub(crate) connect: ClientFrame,
    /// How many PINGs of the server have no PONG yet.
    pub(crate) pongs: u64,
    /// Whether a PING is to be written.
    pub(crate) is_ping_due: bool,
    /// The subscriptions that were written and have not ended.
    pub(crate) subscribed: Vec<ClientFrame>,
    /// How many of these, from the front, were written over this connection.
    pub(crate) resubscribed: usize,
    /// What was taken from the link and is written next.
    pub(crate) taken: Option<Item>,
    /// The requests that were written and have no answer yet.
    pub(crate) requests: Vec<u64>,
}

// A message without headers is a PUB, and one with headers, even with none in them, an HPUB.
fn publish_of(
    subject: Subject,
    reply: Option<Subject>,
    headers: Option<HeaderMap>,
    payload: Bytes,
) -> ClientFrame
    ensures { result ≡ publish_of subject reply headers payload }
{
    match headers {
        None => ClientFrame::Publish {
            subject,
            reply,
            payload,
        },
        Some(headers) => ClientFrame::HeaderedPublish {
            subject,
            reply,
            headers,
            payload,
        },
    }
}

// What a link has to send as a frame.
fn item_of(item: Outgoing) -> Item
    ensures { result ≡ item_of item }
{
    match item {
        Outgoing::Subscribe {
            subscription,
            subject,
            group,
        } => Item {
            frame: ClientFrame::Subscribe {
                subject,
                queue_group: group,
                subscription,
            },
            request: None,
        },
        Outgoing::Unsubscribe { subscription } => Item {
            frame: ClientFrame::Unsubscribe {
                subscription,
                max: None,
            },
            request: None,
        },
        Outgoing::Publish {
            subject,
            reply,
            headers,
            payload,
            request,
        } => Item {
            frame: publish_of(subject, reply, headers, payload),
            request,
        },
    }
}

impl Writer {
    fn write_connect(&mut self, alloc: Global) -> Result<(), ConnectionError>
        ensures ok { OnOk result (self.new ≡ record self.old { out = self.old.out ++ written self.old.connect; phase = Phase.Up }) }
        ensures allowed { OnOk result (refusal self.old.connect ≡ None) }
        ensures err { OnErr result (self.new ≡ self.old) }
        ensures cause { IfErr result (λ error. IsUnwritten error (self.old.connect ∷ [])) }
    {
        self.out.write(alloc, &self.connect)?;
        self.phase = Phase::Up;
        Ok(())
    }

    fn write_pong(&mut self, alloc: Global) -> Result<(), ConnectionError>
        requires { 0 < self.old.pongs }
        ensures ok { OnOk result (self.new ≡ record self.old { out = self.old.out ++ written ClientFrame.Pong; pongs = self.old.pongs - 1 }) }
        ensures err { OnErr result (self.new ≡ self.old) }
        ensures cause { IfErr result (λ error. IsUnwritten error (ClientFrame.Pong ∷ [])) }
    {
        self.out.write(alloc, &ClientFrame::Pong)?;
        self.pongs -= 1;
        Ok(())
    }

    fn write_ping(&mut self, alloc: Global) -> Result<(), ConnectionError>
        ensures ok { OnOk result (self.new ≡ record self.old { out = self.old.out ++ written ClientFrame.Ping; is_ping_due = false }) }
        ensures err { OnErr result (self.new ≡ self.old) }
        ensures cause { IfErr result (λ error. IsUnwritten error (ClientFrame.Ping ∷ [])) }
    {
        self.out.write(alloc, &ClientFrame::Ping)?;
        self.is_ping_due = false;
        Ok(())
    }

    // Writes the next open subscription that this connection has not written.
    fn write_subscribed(&mut self, alloc: Global) -> Result<(), ConnectionError>
        requires { self.old.resubscribed < vec_len self.old.subscribed }
        ensures ok { OnOk result ((frame : ClientFrame) × (slice_get self.old.subscribed.items self.old.resubscribed ≡ Some frame) × (self.new ≡ record self.old { out = self.old.out ++ written frame; resubscribed = self.old.resubscribed + 1 }) × (refusal frame ≡ None)) }
        ensures err { OnErr result (self.new ≡ self.old) }
        ensures cause { IfErr result (λ error. (frame : ClientFrame) × (slice_get self.old.subscribed.items self.old.resubscribed ≡ Some frame) × IsUnwritten error (frame ∷ [])) }
    {
        self.out.write(alloc, &self.subscribed[self.resubscribed])?;
        self.resubscribed += 1;
        Ok(())
    }

    // Takes the next item from the link, if none is taken yet.
    fn fetch(&mut self, link: &mut OutboxLink)
        ensures first { Fetches self.old.taken (outgoing link.old) self.new.taken (outgoing link.new) }
        ensures same { self.new ≡ record self.old { taken = self.new.taken } }
        ensures link { TakesOnly link.old link.new }
    {
        if self.taken.is_none() {
            self.taken = match link.next_outgoing() {
                Some(item) => Some(item_of(item)),
                None => None,
            };
        }
    }

    // Writes an item, and makes a place for what is noted of it.
    fn write_frame(&mut self, alloc: Global, item: &Item) -> Result<(), ConnectionError>
        ensures ok { OnOk result (self.new.out ≡ self.old.out ++ written item.now.frame) }
        ensures allowed { OnOk result (refusal item.now.frame ≡ None) }
        ensures room { OnOk result ((vec_len self.new.subscribed < vec_capacity self.new.subscribed) × (vec_len self.new.requests < vec_capacity self.new.requests)) }
        ensures err { OnErr result (self.new.out ≡ self.old.out) }
        ensures cause { IfErr result (λ error. IsUnwritten error (item.now.frame ∷ [])) }
        ensures taken { self.new.taken ≡ self.old.taken }
        ensures same { KeepsNotes self.old self.new }
    {
        if self.subscribed.reserve(1).is_err() || self.requests.reserve(1).is_err() {
            return Err(ConnectionError::OutOfMemory);
        }
        self.out.write(alloc, &item.frame)
    }

    // Notes what was written: which subscriptions are open, and which requests wait.
    fn note(&mut self, item: Item)
        requires subscribed { vec_len self.old.subscribed < vec_capacity self.old.subscribed }
        requires requests { vec_len self.old.requests < vec_capacity self.old.requests }
        ensures subscribed { self.new.subscribed.items ≡ subscribed_after item.frame self.old.subscribed.items }
        ensures requests { self.new.requests.items ≡ requests_after item.request self.old.requests.items }
        ensures resubscribed { self.new.resubscribed ≡ vec_len self.new.subscribed }
        ensures same { self.new ≡ record self.old { subscribed = self.new.subscribed; requests = self.new.requests; resubscribed = self.new.resubscribed } }
    {
        let Item { frame, request } = item;
        note_request(&mut self.requests, request);
        note_frame(&mut self.subscribed, frame);
        self.resubscribed = self.subscribed.len();
    }

    // Writes the item that was taken from the link.
    fn write_taken(&mut self, alloc: Global) -> Result<bool, ConnectionError>
        ensures { WritesTaken result self.old self.new }
    {
        let Some(item) = self.taken.take() else {
            return Ok(false);
        };
        match self.write_frame(alloc, &item) {
            Ok(()) => {
                self.note(item);
                Ok(true)
            }
            Err(error) => {
                self.taken = Some(item);
                Err(error)
            }
        }
    }

    // Writes what the link has to send next.
    fn write_item(&mut self, alloc: Global, link: &mut OutboxLink) -> Result<bool, ConnectionError>
        ensures writes { WritesItem result self.old (outgoing link.old) self.new (outgoing link.new) }
        ensures link { TakesOnly link.old link.new }
    {
        self.fetch(link);
        self.write_taken(alloc)
    }

    // Writes the next frame after CONNECT.
    fn write_more(&mut self, alloc: Global, link: &mut OutboxLink) -> Result<bool, ConnectionError>
        requires { self.old.phase ≡ Phase.Up }
        ensures writes { WritesNext result self.old (outgoing link.old) self.new (outgoing link.new) }
        ensures link { TakesOnly link.old link.new }
    {
        if self.pongs > 0 {
            self.write_pong(alloc)?;
            return Ok(true);
        }
        if self.is_ping_due {
            self.write_ping(alloc)?;
            return Ok(true);
        }
        if self.resubscribed < self.subscribed.len() {
            self.write_subscribed(alloc)?;
            return Ok(true);
        }
        self.write_item(alloc, link)
    }

    // Writes the first frame that is to be written behind the bytes that are to be sent, and says whether there was one.
    fn write_next(&mut self, alloc: Global, link: &mut OutboxLink) -> Result<bool, ConnectionError>
        ensures writes { WritesNext result self.old (outgoing link.old) self.new (outgoing link.new) }
        ensures link { TakesOnly link.old link.new }
    {
        match self.phase {
            Phase::Lost => Ok(false),
            Phase::Awaiting => Ok(false),
            Phase::Greeting => {
                self.write_connect(alloc)?;
                Ok(true)
            }
            Phase::Up => self.write_more(alloc, link),
        }
    }

    // Writes what is to be written behind the bytes that are to be sent.
    pub(crate) fn write_all(
        &mut self,
        alloc: Global,
        link: &mut OutboxLink,
    ) -> Result<(), ConnectionError>
        ensures writes { Writes self.old (outgoing link.old) self.new (outgoing link.new) }
        ensures all { OnOk result (due self.new (outgoing link.new) ≡ []) }
        ensures cause { IfErr result (λ error. IsUnwritten error (due self.new (outgoing link.new))) }
        ensures link { TakesOnly link.old link.new }
    {
        'frames: while self.write_next(alloc, link)? {}
        Ok(())
    }
}

fn is_subscription(number: u64, frame: &ClientFrame) -> bool
    ensures { result ≡ is_subscription number frame.now }
{
    match frame {
        ClientFrame::Subscribe { subscription, .. } => *subscription == number,
        _ => false,
    }
}

// Which subscriptions are open after a frame was written.
fn note_frame(subscribed: &mut Vec<ClientFrame>, frame: ClientFrame)
    requires { vec_len subscribed.old < vec_capacity subscribed.old }
    ensures { subscribed.new.items ≡ subscribed_after frame subscribed.old.items }
{
    match frame {
        ClientFrame::Subscribe { .. } => subscribed.push_reserved(frame),
        ClientFrame::Unsubscribe { subscription, .. } => {
            subscribed.retain(|frame| !is_subscription(subscription, frame));
        }
        _ => drop(frame),
    }
}

// Which requests wait after an item was written.
fn note_request(requests: &mut Vec<u64>, request: Option<RequestId>)
    requires { vec_len requests.old < vec_capacity requests.old }
    ensures { requests.new.items ≡ requests_after request requests.old.items }
{
    match request {
        None => {}
        Some(request) => requests.push_reserved(request.0),
    }
}

// A request waits no more.
pub(crate) fn end_wait(requests: &mut Vec<u64>, request: u64)
    ensures { requests.new.items ≡ filter (λ number. not (number == request)) requests.old.items }
{
    requests.retain(|number| *number != request);
}
