//! A test server whose client loses things: what is sent to it may be lost, be refused, or have its answer lost, and now and then it loses a consumer.

use bytes::Bytes;
use jetstream::link::{OutboxLink, Outgoing, PlainMessage, StatusCode, received};
use jetstream_testing::{Faults, OneIn, TestServer};
use js_base::{Moment, OutOfMemory, Subject, Text};
use rand_core::utils::NextWord;
use rand_pcg::Pcg32;
use std::alloc::Global;

/// The words that a request to create a consumer of the log begins with, before its name.
const CREATE: &str = "$JS.API.CONSUMER.CREATE.log.";

/// What becomes of something that is sent.
#[derive(Clone, Copy, PartialEq, Eq)]
enum Fate {
    /// It reaches the server.
    Heard,
    /// It is lost.
    Lost,
    /// It reaches nobody, and its sender is told so.
    Refused,
    /// It reaches the server, and the answer is lost.
    Unanswered,
}

/// What becomes of deliveries: one in eight is lost, one in sixteen of the others comes twice, and one in eight late.
fn faults(seed: u64) -> Faults {
    Faults {
        seed,
        lose: OneIn(8),
        repeat: OneIn(16),
        delay: OneIn(8),
        delay_by: 300_000_000,
    }
}

fn publishing(alloc: Global, subject: &str) -> Result<Outgoing, OutOfMemory> {
    Ok(Outgoing::Publish {
        subject: Subject::new(alloc, subject)?,
        reply: None,
        headers: None,
        payload: Bytes::from_static(b"0123456789abcdef"),
        request: None,
    })
}

/// Tells the sender of a request that it has reached nobody.
fn refuse(alloc: Global, link: &mut OutboxLink, item: &Outgoing) -> Result<(), OutOfMemory> {
    if let Outgoing::Publish {
        reply: Some(reply),
        ..
    } = item
    {
        let answer = received(alloc, reply.as_str(), b"")?;
        let answer = PlainMessage {
            status: Some(StatusCode::NO_RESPONDERS),
            ..answer
        };
        link.deliver(0, answer)?;
    }
    Ok(())
}

/// The same without the subject to which its answer goes.
fn without_reply(item: Outgoing) -> Outgoing {
    match item {
        Outgoing::Publish {
            subject,
            headers,
            payload,
            request,
            ..
        } => Outgoing::Publish {
            subject,
            reply: None,
            headers,
            payload,
            request,
        },
        other => other,
    }
}

/// A server of a log of 20 to 35 entries, with one reader.
#[derive(Drop)]
pub struct LossyServer {
    server: TestServer,
    rng: Pcg32,
    /// The sequence of the log's last entry.
    last: u64,
    /// The name of the consumer that was asked for last.
    consumer: Text,
}

impl LossyServer {
    /// The server of a seed, with its log. It loses nothing before `begin`.
    pub fn new(alloc: Global, seed: u64) -> Result<LossyServer, OutOfMemory> {
        let mut rng = Pcg32::new(seed, 1);
        let mut server = LossyServer {
            server: TestServer::new(alloc, Faults::none()),
            last: 20 + u64::from(rng.next_word() % 16),
            rng,
            consumer: Text::new(alloc),
        };
        match server.fill(alloc) {
            Ok(()) => Ok(server),
            Err(OutOfMemory) => {
                drop(server);
                Err(OutOfMemory)
            }
        }
    }

    fn fill(&mut self, alloc: Global) -> Result<(), OutOfMemory> {
        self.server.add_stream(alloc, "log", "log.>")?;
        for _ in 0..self.last {
            self.server.hear(alloc, publishing(alloc, "log.line")?, 0)?;
        }
        Ok(())
    }

    /// The test server, which answers without losses.
    pub fn plain_mut(&mut self) -> &mut TestServer {
        &mut self.server
    }

    /// The sequence of the log's last entry.
    pub fn last(&self) -> u64 {
        self.last
    }

    /// The reader has its first consumer, of this name. From here on things are lost.
    pub fn begin(&mut self, seed: u64, consumer: Text) {
        self.consumer = consumer;
        self.server.set_faults(faults(seed));
    }

    /// A number below 16.
    fn draw(&mut self) -> u32 {
        self.rng.next_word() % 16
    }

    /// What becomes of something that is sent. Subscriptions are never lost.
    fn fate_of(&mut self, item: &Outgoing) -> Fate {
        match item {
            Outgoing::Publish { request: None, .. } => match self.draw() {
                0..=3 => Fate::Lost,
                _ => Fate::Heard,
            },
            Outgoing::Publish { .. } => match self.draw() {
                0 | 1 => Fate::Lost,
                2 | 3 => Fate::Refused,
                4 | 5 => Fate::Unanswered,
                _ => Fate::Heard,
            },
            _ => Fate::Heard,
        }
    }

    /// Notes the name of a consumer that is asked for.
    fn note(&mut self, alloc: Global, item: &Outgoing) -> Result<(), OutOfMemory> {
        if let Outgoing::Publish { subject, .. } = item {
            if let Some(name) = subject.as_str().strip_prefix(CREATE) {
                self.consumer = Text::from_str(alloc, name)?;
            }
        }
        Ok(())
    }

    // One thing that was sent. Answers whether its sender is told that it reached nobody.
    fn meet(
        &mut self,
        alloc: Global,
        link: &mut OutboxLink,
        item: Outgoing,
        now: Moment,
    ) -> Result<bool, OutOfMemory> {
        let noted = self.note(alloc, &item);
        let fate = self.fate_of(&item);
        let met = match fate {
            Fate::Heard => self.server.hear(alloc, item, now),
            Fate::Unanswered => self.server.hear(alloc, without_reply(item), now),
            Fate::Refused => {
                let refused = refuse(alloc, link, &item);
                drop(item);
                refused
            }
            Fate::Lost => {
                drop(item);
                Ok(())
            }
        };
        noted?;
        met?;
        Ok(fate == Fate::Refused)
    }

    /// Meets all that the reader has to send, and delivers what has arrived. Answers whether something came for the reader.
    pub fn serve(
        &mut self,
        alloc: Global,
        link: &mut OutboxLink,
        now: Moment,
    ) -> Result<bool, OutOfMemory> {
        let mut is_refused = false;
        for _ in 0..link.outgoing_len() {
            if let Some(item) = link.next_outgoing() {
                is_refused = self.meet(alloc, link, item, now)? || is_refused;
            }
        }
        Ok(self.server.bring(alloc, link, now)? > 0 || is_refused)
    }

    /// Lets time go on to a moment. Once in sixteen times the reader's consumer is deleted first. Answers whether something came for the reader.
    pub fn act(
        &mut self,
        alloc: Global,
        link: &mut OutboxLink,
        now: Moment,
    ) -> Result<bool, OutOfMemory> {
        if self.draw() == 0 {
            let subject = format!(in alloc;
                "$JS.API.CONSUMER.DELETE.log.{}",
                self.consumer.as_str()
            )?;
            let deletion = publishing(alloc, subject.as_str());
            drop(subject);
            self.server.hear(alloc, deletion?, now)?;
        }
        Ok(self.server.bring(alloc, link, now)? > 0)
    }

    /// When it does something by itself, if it does.
    pub fn wakes_at(&self) -> Option<Moment> {
        self.server.wakes_at()
    }
}
