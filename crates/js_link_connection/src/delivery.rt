//! Reads and delivers what came.

ghost use Rattle.std.specs.Prelude.{◌≡◌, ◌≤◌, ◌<◌, ◌++◌, ◌-◌, IfOk, IfErr, OnOk, OnErr, Ok, Some, length, drop, true, false};
ghost use Rattle.js_link_wire.specs.FrameReader.{next_frame};
ghost use Rattle.js_link_wire.specs.declared.frame.ServerFrame.TheVariants as frames;
ghost use Rattle.js_link_connection.specs.Connection.{quiet_after};
ghost use Rattle.js_link_connection.specs.Delivery.{Brought, IsSameLink, IsSame, IsWhy, IsAt, Takes, TakesMessage, TakesNext, Reads, Receives, QuietAfter, after_info, is_refusal, place_after, without};

use crate::connection::Connection;
use crate::error::ConnectionError;
use crate::server_info::info_of;
use crate::writer::{Phase, end_wait};
use js_base::{Moment, OutOfMemory, State, Text, replace_with};
use js_link_outbox::{Delivery, OutboxLink};
use js_link_wire::{HeadersError, Incoming, Reading, ServerFrame, message_of_frame, read_frame};
use std::alloc::Global;

// Brings a message to whoever wants it.
#[inline]
fn bring(link: &mut OutboxLink, incoming: Incoming) -> Result<Delivery, OutOfMemory>
    ensures ok { IfOk result (λ delivery. Brought delivery incoming link.old link.new) }
    ensures err { OnErr result (IsSameLink link.old link.new) }
{
    let Incoming {
        subscription,
        message,
    } = incoming;
    match link.deliver(subscription, message) {
        Ok(delivery) => Ok(delivery),
        Err(refused) => {
            drop(refused);
            Err(OutOfMemory)
        }
    }
}

// A request that has its answer waits no more.
fn end_answered(requests: &mut Vec<u64>, delivery: Delivery)
    ensures { requests.new.items ≡ without delivery requests.old.items }
{
    match delivery {
        Delivery::Request(request) => end_wait(requests, request.0),
        Delivery::Inbox(_) => {}
        Delivery::Nobody => {}
    }
}

// How far a connection has come after INFO.
fn after_info(phase: Phase) -> Phase
    ensures { result ≡ after_info phase }
{
    match phase {
        Phase::Lost => Phase::Lost,
        Phase::Awaiting => Phase::Greeting,
        Phase::Greeting => Phase::Greeting,
        Phase::Up => Phase::Up,
    }
}

impl Connection {
    // Takes a message. Of another frame it takes nothing.
    #[inline]
    fn take_message(&mut self, alloc: Global, frame: ServerFrame) -> Result<(), ConnectionError>
        ensures ok { OnOk result (TakesMessage frame self.old self.new) }
        ensures err { OnErr result (IsSame self.old self.new) }
        ensures cause { IfErr result (λ error. IsWhy error frame) }
        ensures at { IfErr result (λ error. IsAt error self.old.place) }
        ensures came { self.new.came ≡ self.old.came }
        ensures place { self.new.place ≡ self.old.place }
        ensures most { self.new.most ≡ self.old.most }
        ensures quiet { self.new.keep_alive ≡ self.old.keep_alive }
    {
        let message = match message_of_frame(alloc, frame) {
            Ok(Some(message)) => message,
            Ok(None) => return Ok(()),
            Err(HeadersError::Damaged(damage)) => {
                return Err(ConnectionError::BadHeaders {
                    damage,
                    place: self.place,
                });
            }
            Err(HeadersError::OutOfMemory) => return Err(ConnectionError::Unread),
        };
        match bring(&mut self.link, message) {
            Ok(delivery) => {
                end_answered(&mut self.writer.requests, delivery);
                Ok(())
            }
            Err(OutOfMemory) => Err(ConnectionError::Unread),
        }
    }

    // Takes what the server says of itself.
    #[cold]
    fn take_info(&mut self, alloc: Global, json: Text) -> Result<(), ConnectionError>
        ensures ok { OnOk result (Takes (frames.Info json) self.old self.new) }
        ensures err { OnErr result (IsSame self.old self.new) }
        ensures cause { IfErr result (λ error. IsWhy error (frames.Info json)) }
        ensures at { IfErr result (λ error. IsAt error self.old.place) }
        ensures came { self.new.came ≡ self.old.came }
        ensures place { self.new.place ≡ self.old.place }
        ensures most { self.new.most ≡ self.old.most }
        ensures quiet { self.new.keep_alive ≡ self.old.keep_alive }
    {
        let read = info_of(alloc, &json);
        drop(json);
        match read {
            Ok(Some(info)) => {
                self.link.set_max_payload(info.max_payload);
                self.link.set_state(State::Connected);
                self.writer.phase = after_info(self.writer.phase);
                replace_with(&mut self.info, Some(info));
                Ok(())
            }
            Ok(None) => Err(ConnectionError::BadInfo { place: self.place }),
            Err(OutOfMemory) => Err(ConnectionError::Unread),
        }
    }

    // Takes a frame that is no refusal.
    #[inline]
    fn take_frame(&mut self, alloc: Global, frame: ServerFrame) -> Result<(), ConnectionError>
        requires { is_refusal frame ≡ false }
        ensures ok { OnOk result (Takes frame self.old self.new) }
        ensures err { OnErr result (IsSame self.old self.new) }
        ensures cause { IfErr result (λ error. IsWhy error frame) }
        ensures at { IfErr result (λ error. IsAt error self.old.place) }
        ensures came { self.new.came ≡ self.old.came }
        ensures place { self.new.place ≡ self.old.place }
        ensures most { self.new.most ≡ self.old.most }
        ensures quiet { self.new.keep_alive.quiet ≡ self.old.keep_alive.quiet }
    {
        match frame {
            ServerFrame::Info { json } => self.take_info(alloc, json),
            ServerFrame::Ping => {
                self.writer.pongs = self.writer.pongs.saturating_add(1);
                Ok(())
            }
            ServerFrame::Pong => {
                self.keep_alive.unanswered = 0;
                Ok(())
            }
            frame => self.take_message(alloc, frame),
        }
    }

    // Is done with the first bytes that came.
    fn pass(&mut self, count: usize)
        requires { count ≤ length self.old.came }
        ensures came { self.new.came ≡ drop count self.old.came }
        ensures place { self.new.place ≡ place_after self.old.place count }
        ensures same { self.new ≡ record self.old { came = self.new.came; place = self.new.place } }
    {
        self.came.pass(count);
        self.place = self.place.saturating_add(count as u64);
    }

    // Takes the frame that the first bytes are.
    #[inline]
    fn take(
        &mut self,
        alloc: Global,
        frame: ServerFrame,
        count: usize,
    ) -> Result<bool, ConnectionError>
        requires within { count ≤ length self.old.came }
        requires some { 0 < count }
        requires next { next_frame self.old.most self.old.came ≡ Ok (Some (frame, drop count self.old.came)) }
        ensures next { TakesNext result self.old self.new }
        ensures shorter { IfOk result (λ more. more ≡ true → length self.new.came < length self.old.came) }
        ensures fewer { length self.new.came ≤ length self.old.came }
        ensures place { self.new.place ≡ place_after self.old.place (length self.old.came - length self.new.came) }
        ensures most { self.new.most ≡ self.old.most }
        ensures quiet { self.new.keep_alive.quiet ≡ self.old.keep_alive.quiet }
    {
        match frame {
            ServerFrame::Refused { text } => {
                self.pass(count);
                Err(ConnectionError::Refused { text })
            }
            frame => match self.take_frame(alloc, frame) {
                Ok(()) => {
                    self.pass(count);
                    Ok(true)
                }
                Err(error) => Err(error),
            },
        }
    }

    // Reads and takes the next frame, and says whether there was one.
    #[tactic(auto, unfolding(js_link_wire::specs::FrameReader::next_frame))]
    fn take_next(&mut self, alloc: Global) -> Result<bool, ConnectionError>
        ensures next { TakesNext result self.old self.new }
        ensures shorter { IfOk result (λ more. more ≡ true → length self.new.came < length self.old.came) }
        ensures fewer { length self.new.came ≤ length self.old.came }
        ensures place { self.new.place ≡ place_after self.old.place (length self.old.came - length self.new.came) }
        ensures most { self.new.most ≡ self.old.most }
        ensures quiet { self.new.keep_alive.quiet ≡ self.old.keep_alive.quiet }
    {
        match read_frame(alloc, self.came.left(), self.most) {
            Ok(Reading::More) => Ok(false),
            Ok(Reading::Whole { frame, length }) => self.take(alloc, frame, length),
            Ok(Reading::Damaged(damage)) => Err(ConnectionError::Damaged {
                damage,
                place: self.place,
            }),
            Err(OutOfMemory) => Err(ConnectionError::Unread),
        }
    }

    // Reads and takes all whole frames.
    fn take_all(&mut self, alloc: Global) -> Result<(), ConnectionError>
        ensures reads { Reads result self.old.most self.old.came self.old self.new }
        ensures most { self.new.most ≡ self.old.most }
        ensures quiet { self.new.keep_alive.quiet ≡ self.old.keep_alive.quiet }
    {
        'frames: while self.take_next(alloc)? {}
        Ok(())
    }

    /// Takes bytes that came from the server at `now`, in pieces of any size, and delivers the
    /// messages that are whole. It does not matter how the bytes are cut. The next `write` answers
    /// each PING. Call it only between `made` and `lost`.
    ///
    /// # Errors
    ///
    /// See each [`ConnectionError`]. After `OutOfMemory` it has taken none of the bytes; after any
    /// other error it has taken all of them.
    pub fn received(
        &mut self,
        alloc: Global,
        bytes: &[u8],
        now: Moment,
    ) -> Result<(), ConnectionError>
        ensures receives { Receives result bytes.now self.old self.new }
        ensures quiet { QuietAfter result bytes.now now self.old self.new }
        ensures most { self.new.most ≡ self.old.most }
    {
        self.came.push(bytes)?;
        self.keep_alive.hear(bytes, now);
        self.take_all(alloc)
    }
}
