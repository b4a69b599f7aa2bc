//! The messages of a stream.

ghost use Rattle.std.specs.Prelude.{◌≡◌, ◌==◌, ◌+◌, ◌-◌, ◌^◌, ◌<◌, ◌++◌, ◌∷◌, ◌||◌, [], filter, min, nat_le, not, vec_len, IfSome, OnOk, OnErr};
ghost use Rattle.js_base.specs.Subject.{subject_matches};

use crate::configs::{StreamConfig, matches_any};
use crate::messages::message;
use bytes::Bytes;
use js_base::{
    HeaderMap, Message, Moment, OutOfMemory, Subject, Text, TryClone, all_4, subject_matches,
};
use std::alloc::Global;

// A message as a stream keeps it.
#[derive(Drop)]
pub(crate) struct Stored {
    pub(crate) sequence: u64,
    pub(crate) subject: Subject,
    pub(crate) headers: Option<HeaderMap>,
    pub(crate) payload: Bytes,
    // When it was stored.
    pub(crate) stored: Moment,
}

impl Stored {
    // The message as it is delivered to a reader.
    pub(crate) fn to_message(
        &self,
        reply: Result<Subject, OutOfMemory>,
    ) -> Result<Message, OutOfMemory> {
        let (subject, reply, headers, payload) = all_4(
            self.subject.try_clone(),
            reply,
            self.headers.try_clone(),
            self.payload.try_clone(),
        )?;
        Ok(message(subject, Some(reply), headers, payload))
    }
}

// The id of a message that was stored.
#[derive(Drop)]
struct KnownId {
    id: Text,
    sequence: u64,
    stored: Moment,
}

// The messages of a stream, in the order of their sequences.
#[derive(Drop)]
pub(crate) struct Log {
    pub(crate) name: Text,
    pub(crate) config: StreamConfig,
    pub(crate) created: Moment,
    pub(crate) last_sequence: u64,
    pub(crate) messages: Vec<Stored>,
    ids: Vec<KnownId>,
}

impl Log {
    pub(crate) fn new(alloc: Global, name: Text, config: StreamConfig, now: Moment) -> Log {
        Log {
            name,
            config,
            created: now,
            last_sequence: 0,
            messages: Vec::new(alloc),
            ids: Vec::new(alloc),
        }
    }

    // The sequence of the first message that is still kept, or the one that comes next.
    pub(crate) fn first_sequence(&self) -> u64 {
        match self.messages.first() {
            Some(first) => first.sequence,
            None => self.last_sequence.saturating_add(1),
        }
    }

    // How many bytes the payloads have.
    pub(crate) fn bytes(&self) -> u64 {
        let mut bytes: u64 = 0;
        for stored in self.messages.as_slice() {
            bytes = bytes.saturating_add(stored.payload.len() as u64);
        }
        bytes
    }

    // The place of the first message of this sequence or a later one.
    fn place_from(&self, sequence: u64) -> usize {
        self.messages
            .as_slice()
            .partition_point(|stored| stored.sequence < sequence)
    }

    // The messages of this sequence and later ones.
    pub(crate) fn from(&self, sequence: u64) -> &[Stored] {
        let place = self.place_from(sequence);
        self.messages.as_slice().get(place..).unwrap_or(&[])
    }

    // The message of a sequence.
    pub(crate) fn at(&self, sequence: u64) -> Option<&Stored> {
        let first = self.from(sequence).first()?;
        if first.sequence == sequence {
            Some(first)
        } else {
            None
        }
    }

    // The last message whose subject a filter matches.
    pub(crate) fn last_of(&self, filter: &str) -> Option<&Stored> {
        self.messages
            .iter()
            .rev()
            .find(|stored| subject_matches(filter, stored.subject.as_str()))
    }

    // The first message from a sequence on whose subject a filter matches.
    pub(crate) fn next_of(&self, filter: &str, sequence: u64) -> Option<&Stored> {
        self.from(sequence)
            .iter()
            .find(|stored| subject_matches(filter, stored.subject.as_str()))
    }

    // The sequence of the last message whose subject one of the filters matches, or 0.
    pub(crate) fn last_of_any(&self, filters: &Vec<Subject>) -> u64 {
        let mut found = 0;
        for stored in self.messages.as_slice() {
            if matches_any(filters, stored.subject.as_str()) {
                found = stored.sequence;
            }
        }
        found
    }

    // Whether a message is the last of its subject below a sequence.
    pub(crate) fn is_last_before(&self, stored: &Stored, end: u64) -> bool {
        !self.from(stored.sequence.saturating_add(1)).iter().any(|later| later.sequence < end
            && later.subject == stored.subject)
    }

    // The sequence of the message with this id, if it is remembered.
    pub(crate) fn sequence_of_id(&self, id: &str, now: Moment) -> Option<u64> {
        let window = self.config.duplicate_window;
        let mut found = None;
        for known in self.ids.as_slice() {
            if known.id.as_str() == id && now <= known.stored.saturating_add(window) {
                found = Some(known.sequence);
            }
        }
        found
    }

    // The id of the last message that had one, if that is the last message.
    pub(crate) fn last_id(&self) -> &str {
        match self.ids.last() {
            Some(known) if known.sequence == self.last_sequence => known.id.as_str(),
            _ => "",
        }
    }

    pub(crate) fn remember_id(&mut self, id: Text, stored: Moment) -> Result<(), OutOfMemory> {
        self.ids.push(KnownId {
            id,
            sequence: self.last_sequence,
            stored,
        })?;
        Ok(())
    }

    // Appends a message, whose sequence is the last one plus 1, up to `u64::MAX`.
    pub(crate) fn append(
        &mut self,
        subject: Subject,
        headers: Option<HeaderMap>,
        payload: Bytes,
        stored: Moment,
    ) -> Result<(), OutOfMemory>
        ensures appended { OnOk result (self.new.messages.items ≡ self.old.messages.items ++ record { sequence = self.new.last_sequence; subject = subject; headers = headers; payload = payload; stored = stored } ∷ []) }
        ensures next { OnOk result (self.new.last_sequence ≡ min (self.old.last_sequence + 1) (2 ^ 64 - 1)) }
        ensures err { OnErr result (self.new.messages.items ≡ self.old.messages.items) }
    {
        let sequence = self.last_sequence.saturating_add(1);
        self.messages.push(Stored {
            sequence,
            subject,
            headers,
            payload,
            stored,
        })?;
        self.last_sequence = sequence;
        Ok(())
    }

    // Removes the message of a sequence.
    pub(crate) fn remove(&mut self, sequence: u64)
        ensures { self.new.messages.items ≡ filter (λ stored. not (stored.sequence == sequence)) self.old.messages.items }
    {
        self.messages.retain(|stored| stored.sequence != sequence);
    }

    // Removes all messages below a sequence whose subject the pattern matches.
    pub(crate) fn purge(&mut self, pattern: &str, below: u64)
        ensures { self.new.messages.items ≡ filter (λ stored. nat_le below stored.sequence || not (subject_matches pattern.now stored.subject)) self.old.messages.items }
    {
        self.messages.retain(|stored| {
            stored.sequence >= below || !subject_matches(pattern, stored.subject.as_str())
        });
    }

    // Removes the oldest messages of a subject and of all until the limits are kept.
    pub(crate) fn keep_limits(&mut self, subject: &str) {
        let per_subject = self.config.max_per_subject;
        if per_subject > 0 {
            let count = self.count_of(subject);
            self.remove_first(count.saturating_sub(per_subject), subject);
        }
        let limit = self.config.max_messages;
        if limit > 0 {
            let count = self.messages.len() as u64;
            self.remove_first(count.saturating_sub(limit), ">");
        }
    }

    fn count_of(&self, filter: &str) -> u64 {
        self.messages
            .iter()
            .filter(|stored| subject_matches(filter, stored.subject.as_str()))
            .count() as u64
    }

    fn remove_first(&mut self, count: u64, filter: &str) {
        for _ in 0..count {
            if let Some(place) = self.first_place(filter) {
                drop(self.messages.remove(place));
            }
        }
    }

    fn first_place(&self, filter: &str) -> Option<usize>
        ensures { IfSome result (λ place. place < vec_len self.now.messages) }
    {
        self.messages
            .iter()
            .position(|stored| subject_matches(filter, stored.subject.as_str()))
    }
}
