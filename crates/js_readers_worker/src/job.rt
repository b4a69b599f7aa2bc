//! A message that is being worked on.
ghost use Rattle.std.specs.Prelude.{◌≡◌, ◌<◌, ◌^◌, ℕ};
ghost use Rattle.js_base.specs.Clock.{has_come};
ghost use Rattle.js_message.specs.Acknowledgement.{Acks, ack_body};
ghost use Rattle.js_readers_worker.specs.Worker.{Extends, extension, job_due, job_left, new_job};

use js_base::{Moment, Nanos, Timer, any_ends_at, is_any_due};
use js_link::Link;
use js_message::{AckError, AckKind, Message};
use std::alloc::Global;

/// A message that is being worked on.
#[derive(Drop)]
pub(crate) struct Job {
    pub(crate) message: Message,
    /// Runs until the server has to be told that the message is still being worked on.
    extension: Option<Timer>,
}

// Half of an ack wait, from that moment on. Without a wait there is none.
fn extension(now: Moment, ack_wait: Nanos) -> Option<Timer>
    ensures { result ≡ extension now ack_wait }
{
    if ack_wait == 0 {
        None
    } else {
        Some(Timer {
            set: now,
            wait: ack_wait / 2,
        })
    }
}

impl Job {
    // The work on a message, which begins at that moment.
    pub(crate) fn new(message: Message, now: Moment, ack_wait: Nanos) -> Job
        ensures { result ≡ new_job now ack_wait message }
    {
        Job {
            message,
            extension: extension(now, ack_wait),
        }
    }

    // Sends what became of the message.
    pub(crate) fn settle<L: Link>(
        &self,
        alloc: Global,
        link: &mut L,
        kind: AckKind,
    ) -> Result<(), AckError>
        ensures { Acks self.now.message.message.reply (ack_body kind) result (L.view link.old) (L.view link.new) }
    {
        self.message.ack_with(alloc, link, kind)
    }

    // Sends that the message is still being worked on, if that is due. Its timer then begins anew, unless there was no
    // memory.
    pub(crate) fn extend<L: Link>(
        &mut self,
        alloc: Global,
        link: &mut L,
        now: Moment,
        ack_wait: Nanos,
    ) -> Option<AckError>
        ensures { Extends now ack_wait self.old self.new result (L.view link.old) (L.view link.new) }
    {
        if !is_any_due(&self.extension, now) {
            return None;
        }
        match self.message.ack_with(alloc, link, AckKind::Progress) {
            Ok(()) => {
                self.extension = extension(now, ack_wait);
                None
            }
            Err(AckError::OutOfMemory) => Some(AckError::OutOfMemory),
            Err(error) => {
                self.extension = extension(now, ack_wait);
                Some(error)
            }
        }
    }

    // The moment from which the server has to be told that the message is still being worked on.
    pub(crate) fn wakes_at(&self) -> Option<Moment>
        ensures { (now : ℕ) → now < 2 ^ 64 → has_come result now ≡ job_due now self.now }
    {
        any_ends_at(&self.extension)
    }
}
