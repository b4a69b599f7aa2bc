//! The server: what it takes from the client's link, and what it delivers to it.

ghost use Rattle.std.specs.Prelude.{◌≡◌, [], OnOk};
ghost use Rattle.js_link_outbox.specs.Calls.{SendsNothing};
ghost use Rattle.js_link_outbox.specs.Outbox.{outgoing};

use crate::acks::{ack_of, ack_place};
use crate::connection::Connection;
use crate::consumer::Consumer;
use crate::faults::Faults;
use crate::log::Log;
use crate::messages::message;
use bytes::Bytes;
use js_base::{HeaderMap, Moment, OutOfMemory, StatusCode, Subject, TryClone, all_5};
use js_link_outbox::{OutboxLink, Outgoing};
use std::alloc::Global;

// A message that the client published.
#[derive(Drop)]
pub(crate) struct Published {
    pub(crate) subject: Subject,
    pub(crate) reply: Option<Subject>,
    pub(crate) headers: Option<HeaderMap>,
    pub(crate) payload: Bytes,
}

// A stream with its consumers.
#[derive(Drop)]
pub(crate) struct Stream {
    pub(crate) log: Log,
    pub(crate) consumers: Vec<Consumer>,
}

// The stream of a name.
pub(crate) fn stream_of<'a>(streams: &'a Vec<Stream>, name: &str) -> Option<&'a Stream> {
    streams
        .iter()
        .find(|stream| stream.log.name.as_str() == name)
}

// The stream of a name, to be changed.
pub(crate) fn stream_mut<'a>(streams: &'a mut Vec<Stream>, name: &str) -> Option<&'a mut Stream> {
    streams
        .iter_mut()
        .find(|stream| stream.log.name.as_str() == name)
}

impl Stream {
    // Lets each of its consumers deliver what it may deliver now.
    fn serve(&mut self, alloc: Global, connection: &mut Connection) -> Result<(), OutOfMemory> {
        for consumer in &mut self.consumers {
            consumer.serve(alloc, &self.log, connection)?;
        }
        Ok(())
    }

    // The first moment at which one of its consumers has something to send of itself, or
    // `u64::MAX`.
    fn wakes_at(&self, connection: &Connection) -> Moment {
        let mut first = u64::MAX;
        for consumer in self.consumers.as_slice() {
            first = first.min(consumer.wakes_at(connection));
        }
        first
    }
}

/// A JetStream server in memory, for tests.
///
/// It serves one link. Each call fails only with `OutOfMemory`; what was being done may be lost
/// then, as on a connection that broke.
#[derive(Drop)]
pub struct TestServer {
    pub(crate) connection: Connection,
    pub(crate) streams: Vec<Stream>,
    // How many consumers it has named.
    pub(crate) named: u64,
}

impl TestServer {
    /// Creates a server without streams, at moment 0. Allocates no memory.
    pub fn new(alloc: Global, faults: Faults) -> TestServer {
        TestServer {
            connection: Connection::new(alloc, faults),
            streams: Vec::new(alloc),
            named: 0,
        }
    }

    /// Replaces the faults: deliveries from now on have these, drawn from their seed. What is under
    /// way arrives as it would have.
    pub fn set_faults(&mut self, faults: Faults) {
        self.connection.set_faults(faults);
    }

    /// Returns the first moment at which [`serve`](TestServer::serve) has something to deliver or
    /// to do if the program sends nothing more: a message that arrives late, a delivery that was
    /// not acknowledged in time, the end of a pull request, or a heartbeat. Returns `None` if there
    /// is nothing. A test that sleeps in no real time may go on at that moment, or at the first
    /// `wakes_at` of what it polls, whichever comes first.
    pub fn wakes_at(&self) -> Option<Moment> {
        let mut first = self.connection.next_arrival();
        for stream in self.streams.as_slice() {
            first = first.min(stream.wakes_at(&self.connection));
        }
        if first == u64::MAX { None } else { Some(first) }
    }

    /// Takes all that the link has to send, acts on it at `now`, and delivers to the link what
    /// comes back and what is due by `now`. Call it once after each round of polls.
    ///
    /// Returns how many messages have arrived. If none has, and all polls were `Pending`, nothing
    /// happens before the first `wakes_at` of what you poll and of the server. A moment before an
    /// earlier one counts as that one.
    ///
    /// Fails with `OutOfMemory` if memory runs out.
    pub fn serve(
        &mut self,
        alloc: Global,
        link: &mut OutboxLink,
        now: Moment,
    ) -> Result<u64, OutOfMemory>
        ensures taken { OnOk result (outgoing link.new ≡ []) }
    {
        'items: while let Some(item) = link.next_outgoing() {
            self.hear(alloc, item, now)?;
        }
        self.bring(alloc, link, now)
    }

    /// Takes one thing that the link had to send, and acts on it at `now`. `serve` calls it for
    /// each; call it yourself if you want to look at what is sent, and then `bring`.
    ///
    /// Fails with `OutOfMemory` if memory runs out.
    pub fn hear(&mut self, alloc: Global, item: Outgoing, now: Moment) -> Result<(), OutOfMemory> {
        self.connection.set_now(now);
        match item {
            Outgoing::Subscribe {
                subscription,
                subject,
                group,
            } => self.connection.subscribe(subscription, subject, group),
            Outgoing::Unsubscribe { subscription } => {
                self.connection.unsubscribe(subscription);
                Ok(())
            }
            Outgoing::Publish {
                subject,
                reply,
                headers,
                payload,
                ..
            } => self.take(
                alloc,
                Published {
                    subject,
                    reply,
                    headers,
                    payload,
                },
            ),
        }
    }

    /// Lets each consumer deliver what it may deliver at `now`, and delivers to the link what has
    /// arrived by then. Returns how many messages have arrived.
    ///
    /// Fails with `OutOfMemory` if memory runs out.
    pub fn bring(
        &mut self,
        alloc: Global,
        link: &mut OutboxLink,
        now: Moment,
    ) -> Result<u64, OutOfMemory>
        ensures sends { SendsNothing link.old link.new }
    {
        self.connection.set_now(now);
        for stream in &mut self.streams {
            stream.serve(alloc, &mut self.connection)?;
        }
        self.connection.bring(link)
    }

    fn take(&mut self, alloc: Global, published: Published) -> Result<(), OutOfMemory> {
        let subject = published.subject.as_str();
        let taken = if let Some(call) = subject.strip_prefix("$JS.API.") {
            self.answer_request(alloc, call, &published)
        } else if let Some(place) = subject.strip_prefix("$JS.ACK.") {
            self.settle(alloc, place, &published)
        } else {
            self.publish(alloc, &published)
        };
        drop(published);
        taken
    }

    // Answers a request with a text, if it has a reply subject.
    pub(crate) fn reply(
        &mut self,
        alloc: Global,
        published: &Published,
        text: String,
    ) -> Result<(), OutOfMemory> {
        match &published.reply {
            None => Ok(()),
            Some(reply) => self.connection.answer(alloc, reply, text),
        }
    }

    fn settle(
        &mut self,
        alloc: Global,
        place: &str,
        published: &Published,
    ) -> Result<(), OutOfMemory> {
        let ack = ack_of(alloc, published.payload.as_slice())?;
        if let Some(place) = ack_place(place) {
            let now = self.connection.now();
            if let Some(stream) = stream_mut(&mut self.streams, place.stream) {
                stream.settle(place, ack, now);
            }
        }
        self.reply(alloc, published, String::new(alloc))
    }

    // Stores a message in the stream of its subject, and sends it to those who subscribe to it.
    fn publish(&mut self, alloc: Global, published: &Published) -> Result<(), OutOfMemory> {
        let subject = published.subject.as_str();
        let is_heard = self.connection.is_heard(subject);
        if is_heard {
            self.pass_on(published)?;
        }
        if let Some(text) = self.store(alloc, published)? {
            return self.reply(alloc, published, text);
        }
        match &published.reply {
            Some(reply) if !is_heard => {
                let nobody = StatusCode::NO_RESPONDERS;
                self.connection.tell(alloc, reply.as_str(), nobody, "", &[])
            }
            _ => Ok(()),
        }
    }

    fn pass_on(&mut self, published: &Published) -> Result<(), OutOfMemory> {
        let (to, subject, reply, headers, payload) = all_5(
            published.subject.try_clone(),
            published.subject.try_clone(),
            published.reply.try_clone(),
            published.headers.try_clone(),
            published.payload.try_clone(),
        )?;
        self.connection
            .send(to, message(subject, reply, headers, payload))
    }

    // Stores a message in the first stream that takes its subject, and returns the acknowledgement.
    fn store(
        &mut self,
        alloc: Global,
        published: &Published,
    ) -> Result<Option<String>, OutOfMemory> {
        let now = self.connection.now();
        let subject = published.subject.as_str();
        match self
            .streams
            .iter_mut()
            .find(|stream| stream.log.takes(subject))
        {
            None => Ok(None),
            Some(stream) => Ok(Some(stream.log.publish(alloc, published, now)?)),
        }
    }
}
