//! A connection without input and output.

ghost use Rattle.std.specs.Prelude.{◌≡◌, ◌≤◌, ◌∷◌, ◌&&◌, [], IfOk, IfErr, OnOk, length, drop};
ghost use Rattle.std.specs.Borrow.{sem};
ghost use Rattle.js_base.specs.Subject.{is_valid_subject};
ghost use Rattle.js_link_outbox.specs.Outbox.{outbox_view, outgoing};
ghost use Rattle.js_link_outbox.specs.Calls.{SendsNothing};
ghost use Rattle.js_link_outbox.specs.Wire.{FailsUnless};
ghost use Rattle.js_link_connection.specs.Connection.{IsFresh, IsNew, LendsLink, ended_view, to_send, without_request};
ghost use Rattle.js_link_connection.specs.Errors.{IsUnwritten};
ghost use Rattle.js_link_connection.specs.Writer.{Writes, TakesOnly, due};

use crate::buffer::Buffer;
use crate::connect_text::connect_text;
use crate::error::ConnectionError;
use crate::keep_alive::KeepAlive;
use crate::options::ConnectOptions;
use crate::server_info::ServerInfo;
use crate::writer::{Phase, Writer, end_wait};
use js_base::{OutOfMemory, Text, Timer};
use js_link::{Link, LinkError, RequestId};
use js_link_outbox::OutboxLink;
use js_link_wire::ClientFrame;
use std::alloc::Global;

/// A connection to a server, without input and output: you tell it which bytes came, and it says
/// which bytes to send.
///
/// It owns the link over which this client's states are polled. It keeps that link, less than a
/// whole frame of what came (more only after an error, until you call `received` again), the bytes
/// to send, the open subscriptions, and the numbers of the requests that wait for an answer. The
/// bytes that came and those to send keep the room of the most that there were.
#[derive(Drop)]
pub struct Connection {
    pub(crate) link: OutboxLink,
    pub(crate) writer: Writer,
    pub(crate) keep_alive: KeepAlive,
    pub(crate) info: Option<ServerInfo>,
    /// The bytes that were not read as frames yet.
    pub(crate) came: Buffer,
    /// How many bytes came before these, up to `u64::MAX`.
    pub(crate) place: u64,
    /// The greatest length of a body, in bytes.
    pub(crate) most: u64,
}

// A connection over a link that was just made.
fn over(alloc: Global, link: OutboxLink, json: Text, options: &ConnectOptions) -> Connection
    ensures link { result.link ≡ link }
    ensures fresh { IsFresh result }
    ensures connect { result.writer.connect ≡ ClientFrame.Connect json }
    ensures phase { result.writer.phase ≡ Phase.Lost }
    ensures taken { result.writer.taken ≡ None }
    ensures subscribed { result.writer.subscribed.items ≡ [] }
    ensures most { result.most ≡ options.now.longest_body }
    ensures wait { result.keep_alive.quiet.wait ≡ options.now.quiet_time }
{
    Connection {
        link,
        writer: Writer {
            out: Buffer::new(alloc),
            phase: Phase::Lost,
            connect: ClientFrame::Connect { json },
            pongs: 0,
            is_ping_due: false,
            subscribed: Vec::new(alloc),
            resubscribed: 0,
            taken: None,
            requests: Vec::new(alloc),
        },
        keep_alive: KeepAlive {
            quiet: Timer {
                set: 0,
                wait: options.quiet_time,
            },
            unanswered: 0,
        },
        info: None,
        came: Buffer::new(alloc),
        place: 0,
        most: options.longest_body,
    }
}

impl Connection {
    /// Creates a connection that is not made yet. You may poll over its link at once: it holds back
    /// what is to be sent until the connection is made.
    ///
    /// # Errors
    ///
    /// `Failed` exactly if the prefix or the token of the inboxes is not a valid subject, and
    /// `OutOfMemory` if memory runs out.
    pub fn new(alloc: Global, options: &ConnectOptions) -> Result<Connection, LinkError>
        ensures new { IfOk result (λ connection. IsNew options.now connection) }
        ensures cause { FailsUnless (is_valid_subject options.now.inbox_prefix && is_valid_subject options.now.inbox_token) result }
    {
        let prefix = options.inbox_prefix.as_str();
        let link = OutboxLink::new(alloc, prefix, options.inbox_token.as_str())?;
        match connect_text(alloc, options) {
            Ok(json) => Ok(over(alloc, link, json, options)),
            Err(OutOfMemory) => {
                drop(link);
                Err(LinkError::OutOfMemory)
            }
        }
    }

    /// Returns the link over which states are polled.
    pub fn link(&self) -> &OutboxLink
        ensures { result.now ≡ self.now.link }
    {
        &self.link
    }

    /// Returns the link over which states are polled, to call the methods of the trait `Link`. This
    /// connection is the link's adapter: take nothing from the link yourself.
    pub fn link_mut(&mut self) -> &mut OutboxLink
        ensures* writes_back { sem 𝓛 (LendsLink self.entry result) }
        ensures value { result.now ≡ self.old.link }
    {
        &mut self.link
    }

    /// Ends a request whose answer nobody awaits any more, for example that of a call that you drop.
    /// It leaves nothing behind. If an answer still comes, nobody gets it. If the request is ended
    /// over the link, as calls do after a timeout, `woken` lets go of what is kept of it here.
    pub fn forget(&mut self, request: RequestId)
        ensures link { outbox_view self.new.link ≡ ended_view (request.0 ∷ []) (outbox_view self.old.link) }
        ensures sends { SendsNothing self.old.link self.new.link }
        ensures requests { self.new.writer.requests.items ≡ without_request request.0 self.old.writer.requests.items }
        ensures same { self.new ≡ record self.old { link = self.new.link; writer = record self.old.writer { requests = self.new.writer.requests } } }
    {
        self.link.forget(request);
        end_wait(&mut self.writer.requests, request.0);
    }

    /// Returns the server's last INFO, or `None` if none has come since the connection was made.
    pub fn info(&self) -> &Option<ServerInfo>
        ensures { result.now ≡ self.now.info }
    {
        &self.info
    }

    /// Appends what is due to the bytes to send: CONNECT if INFO has come, PONGs, a PING if one is
    /// due, the open subscriptions not yet written over this connection, and what the link has to
    /// send. While no INFO has come, it writes nothing.
    ///
    /// Call it after each poll and after each call of `received` and `woken`, and then send the
    /// bytes of `to_send`.
    ///
    /// # Errors
    ///
    /// `OutOfMemory` if memory runs out. Nothing is lost: the next call writes what was not written.
    /// `Unwritable` if the next frame is refused.
    pub fn write(&mut self, alloc: Global) -> Result<(), ConnectionError>
        ensures writes { Writes self.old.writer (outgoing self.old.link) self.new.writer (outgoing self.new.link) }
        ensures all { OnOk result (due self.new.writer (outgoing self.new.link) ≡ []) }
        ensures cause { IfErr result (λ error. IsUnwritten error (due self.new.writer (outgoing self.new.link))) }
        ensures link { TakesOnly self.old.link self.new.link }
        ensures same { self.new ≡ record self.old { link = self.new.link; writer = self.new.writer } }
    {
        self.writer.out.let_go();
        self.writer.write_all(alloc, &mut self.link)
    }

    /// Returns the bytes to send next.
    pub fn to_send(&self) -> &[u8]
        ensures { result.now ≡ to_send self.now }
    {
        self.writer.out.left()
    }

    /// Tells that the first `count` bytes of `to_send` were sent. `count` must not exceed its
    /// length.
    pub fn sent(&mut self, count: usize)
        requires { count ≤ length (to_send self.old) }
        ensures sent { to_send self.new ≡ drop count (to_send self.old) }
        ensures same { self.new ≡ record self.old { writer = record self.old.writer { out = self.new.writer.out } } }
    {
        self.writer.out.pass(count);
    }
}
