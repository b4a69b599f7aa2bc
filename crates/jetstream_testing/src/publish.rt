//! Publishing into a stream.

use crate::answers::{Refusal, refused, stored};
use crate::configs::matches_any;
use crate::log::Log;
use crate::server::Published;
use js_base::{HeaderMap, Moment, OutOfMemory, Text, TryClone, all_3};
use std::alloc::Global;

// The number in a header, if there is one.
fn number_in(headers: &HeaderMap, name: &str) -> Option<u64> {
    headers.get(name)?.parse::<u64>().ok()
}

impl Log {
    // Whether it stores messages of the subject.
    pub(crate) fn takes(&self, subject: &str) -> bool {
        matches_any(&self.config.subjects, subject)
    }

    // Stores a message unless its headers forbid that, and returns the acknowledgement.
    pub(crate) fn publish(
        &mut self,
        alloc: Global,
        published: &Published,
        now: Moment,
    ) -> Result<String, OutOfMemory> {
        if let Some(headers) = &published.headers {
            if let Some(refusal) = self.refusal(headers, published.subject.as_str()) {
                return refused(alloc, refusal);
            }
            if let Some(sequence) = self.duplicate(headers, now) {
                return stored(alloc, self.name.as_str(), sequence, true);
            }
        }
        self.store(published, now)?;
        self.keep_limits(published.subject.as_str());
        if let Some(headers) = &published.headers {
            self.obey(alloc, headers, published.subject.as_str(), now)?;
        }
        stored(alloc, self.name.as_str(), self.last_sequence, false)
    }

    fn store(&mut self, published: &Published, now: Moment) -> Result<(), OutOfMemory> {
        let (subject, headers, payload) = all_3(
            published.subject.try_clone(),
            published.headers.try_clone(),
            published.payload.try_clone(),
        )?;
        self.append(subject, headers, payload, now)
    }

    // Why a message with these headers is not stored, if it is not.
    fn refusal(&self, headers: &HeaderMap, subject: &str) -> Option<Refusal> {
        if let Some(stream) = headers.get("Nats-Expected-Stream") {
            if stream != self.name.as_str() {
                return Some(Refusal::WrongStream);
            }
        }
        if let Some(id) = headers.get("Nats-Expected-Last-Msg-Id") {
            if id != self.last_id() {
                return Some(Refusal::WrongLastMessageId);
            }
        }
        if headers.get("Nats-Rollup").is_some() && !self.config.allows_rollup {
            return Some(Refusal::RollupNotPermitted);
        }
        self.wrong_sequence(headers, subject)
    }

    fn wrong_sequence(&self, headers: &HeaderMap, subject: &str) -> Option<Refusal> {
        if let Some(expected) = number_in(headers, "Nats-Expected-Last-Sequence") {
            if expected != self.last_sequence {
                return Some(Refusal::WrongLastSequence(self.last_sequence));
            }
        }
        let expected = number_in(headers, "Nats-Expected-Last-Subject-Sequence")?;
        let filter = headers
            .get("Nats-Expected-Last-Subject-Sequence-Subject")
            .unwrap_or(subject);
        let last = match self.last_of(filter) {
            Some(stored) => stored.sequence,
            None => 0,
        };
        if expected == last {
            None
        } else {
            Some(Refusal::WrongLastSequence(last))
        }
    }

    // The sequence of the message that was stored with the same id.
    fn duplicate(&self, headers: &HeaderMap, now: Moment) -> Option<u64> {
        self.sequence_of_id(headers.get("Nats-Msg-Id")?, now)
    }

    // Does what the headers of a stored message ask for.
    fn obey(
        &mut self,
        alloc: Global,
        headers: &HeaderMap,
        subject: &str,
        now: Moment,
    ) -> Result<(), OutOfMemory> {
        match headers.get("Nats-Rollup") {
            Some("sub") => self.purge(subject, self.last_sequence),
            Some("all") => self.purge(">", self.last_sequence),
            _ => {}
        }
        match headers.get("Nats-Msg-Id") {
            None => Ok(()),
            Some(id) => self.remember_id(Text::from_str(alloc, id)?, now),
        }
    }
}
