//! Pull requests: what they ask for, and how they end.

use crate::connection::Connection;
use crate::consumer::Consumer;
use crate::json::{is_set, json_of, number_at};
use js_base::{Moment, Nanos, OutOfMemory, StatusCode, Subject};
use std::alloc::Global;
use std::collections::VecDeque;

// What a pull request asks for.
#[derive(Clone, Copy)]
pub(crate) struct Wanted {
    batch: u64,
    // How long the request waits; 0 means for ever.
    expires: Nanos,
    no_wait: bool,
    heartbeat: Nanos,
}

// Reads a pull request. It may be empty, a number, or an object.
pub(crate) fn read_wanted(alloc: Global, body: &[u8]) -> Result<Wanted, OutOfMemory> {
    let request = json_of(alloc, body)?;
    let batch = match request.as_u64() {
        Some(batch) => batch,
        None => number_at(&request, "batch"),
    };
    let wanted = Wanted {
        batch: batch.max(1),
        expires: number_at(&request, "expires"),
        no_wait: is_set(&request, "no_wait"),
        heartbeat: number_at(&request, "idle_heartbeat"),
    };
    drop(request);
    Ok(wanted)
}

// When a wait ends: never, which is `u64::MAX`, if it is 0.
pub(crate) fn wait_end(begin: Moment, wait: Nanos) -> Moment {
    if wait == 0 {
        return u64::MAX;
    }
    begin.saturating_add(wait)
}

// A pull request that waits.
#[derive(Drop)]
pub(crate) struct Pull {
    pub(crate) inbox: Subject,
    wanted: Wanted,
    // How many messages it may still get.
    left: u64,
    came: Moment,
    // When something was sent to it for the last time.
    heard: Moment,
}

impl Pull {
    pub(crate) fn new(inbox: Subject, wanted: Wanted, now: Moment) -> Pull {
        Pull {
            inbox,
            wanted,
            left: wanted.batch,
            came: now,
            heard: now,
        }
    }

    // The status that ends it now, where no message is left for it.
    fn end(&self, now: Moment) -> Option<(StatusCode, &'static str)> {
        let is_fresh = self.left == self.wanted.batch;
        if self.wanted.expires > 0 && now >= self.came.saturating_add(self.wanted.expires) {
            return Some((StatusCode::TIMEOUT, "Request Timeout"));
        }
        if !self.wanted.no_wait {
            return None;
        }
        if !is_fresh {
            return Some((StatusCode::TIMEOUT, "Request Timeout"));
        }
        if self.wanted.expires == 0 {
            return Some((StatusCode::NOT_FOUND, "No Messages"));
        }
        None
    }

    // When it ends, or sends a heartbeat, if nothing else is sent to it.
    fn wakes_at(&self) -> Moment {
        wait_end(self.came, self.wanted.expires).min(wait_end(self.heard, self.wanted.heartbeat))
    }

    fn is_quiet(&self, now: Moment) -> bool {
        let wait = self.wanted.heartbeat;
        wait > 0 && now >= self.heard.saturating_add(wait)
    }

    // Ends it, or sends its heartbeat if that is due. Returns whether it goes on.
    fn goes_on(&mut self, alloc: Global, connection: &mut Connection) -> Result<bool, OutOfMemory> {
        let now = connection.now();
        if let Some((code, text)) = self.end(now) {
            self.finish(alloc, connection, code, text)?;
            return Ok(false);
        }
        if self.is_quiet(now) {
            self.heard = now;
            connection.beat(alloc, self.inbox.as_str(), &[])?;
        }
        Ok(true)
    }

    // Tells its reader that it is over, and how many messages will not come.
    pub(crate) fn finish(
        &self,
        alloc: Global,
        connection: &mut Connection,
        code: StatusCode,
        text: &str,
    ) -> Result<(), OutOfMemory> {
        let rows = [
            ("Nats-Pending-Messages", self.left),
            ("Nats-Pending-Bytes", 0),
        ];
        connection.tell(alloc, self.inbox.as_str(), code, text, &rows)
    }
}

// A message goes to the first of the pull requests.
pub(crate) fn count_down(pulls: &mut VecDeque<Pull>, now: Moment) {
    let Some(pull) = pulls.front_mut() else {
        return;
    };
    pull.left = pull.left.saturating_sub(1);
    pull.heard = now;
    if pull.left == 0 {
        drop(pulls.pop_front());
    }
}

impl Consumer {
    // Keeps a pull request until it is met.
    pub(crate) fn queue_pull(&mut self, pull: Pull) -> Result<(), OutOfMemory> {
        self.pulls.push_back(pull)?;
        Ok(())
    }

    // The first moment at which a pull request ends, or sends a heartbeat, or `u64::MAX`.
    pub(crate) fn pulls_wake_at(&self) -> Moment {
        let mut first = u64::MAX;
        for pull in self.pulls.iter() {
            first = first.min(pull.wakes_at());
        }
        first
    }

    // Ends the pull requests that are over, and sends the heartbeats that are due.
    pub(crate) fn end_pulls(
        &mut self,
        alloc: Global,
        connection: &mut Connection,
    ) -> Result<(), OutOfMemory> {
        for _ in 0..self.pulls.len() {
            if let Some(mut pull) = self.pulls.pop_front() {
                if pull.goes_on(alloc, connection)? {
                    self.pulls.push_back(pull)?;
                }
            }
        }
        Ok(())
    }

    // Ends all pull requests, since the consumer is deleted.
    pub(crate) fn end_all_pulls(
        &self,
        alloc: Global,
        connection: &mut Connection,
    ) -> Result<(), OutOfMemory> {
        for pull in self.pulls.iter() {
            pull.finish(
                alloc,
                connection,
                StatusCode::REQUEST_TERMINATED,
                "Consumer Deleted",
            )?;
        }
        Ok(())
    }
}
