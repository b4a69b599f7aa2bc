//! What a user can watch of an ordered stream.
ghost use Rattle.std.specs.Prelude.{◌≡◌, Some};
ghost use Rattle.js_ordered_stream.specs.Health.{activity_of, activity_text, health_of, health_text, heartbeat_text, progress_text, waiting_since, waiting_text};
ghost use Rattle.js_ordered_stream.specs.Opening.{position_of_pull, position_of_push};
ghost use Rattle.js_ordered_stream.specs.Ordered.{position_of};

use crate::ordered::Ordered;
use crate::{pull, push};
use js_base::Moment;
use js_ordered_table::{Phase, Recreation, Stage};
use std::fmt;

/// What an ordered stream is doing.
#[derive(Clone, Copy, Debug, PartialEq, Eq)]
pub enum Activity {
    /// It reads the inbox of its consumer.
    Reading,
    /// It recreates its consumer.
    Recreating {
        /// How many tries of this recreation have failed.
        failed_tries: u64,
        /// Since when it waits, in nanoseconds: for an answer since it sent the request, and for
        /// the next try since the last one failed. `None` if it waits for nothing: a poll stopped
        /// between two steps, and the next poll goes on.
        waiting_since: Option<Moment>,
    },
    /// All tries to recreate its consumer failed. The next poll begins another recreation.
    RecreationFailed,
    /// It has ended.
    Ended,
}

/// What a user can watch of an ordered stream: what it is doing, and how far it has come.
#[derive(Clone, Copy, Debug, PartialEq, Eq)]
pub struct Health {
    /// What it is doing. A recreation that the next poll will begin does not count as begun.
    pub activity: Activity,
    /// Whether a heartbeat is missing: nothing came from the server for two heartbeats, and no
    /// message of the stream since. Only pull streams set this; a push stream that misses its
    /// heartbeat reports that, and recreates its consumer.
    pub heartbeat_missing: bool,
    /// The stream sequence of the last message that was yielded. 0 if none was yielded.
    pub stream_sequence: u64,
    /// The consumer sequence of the last message that was yielded. 0 if the present consumer has
    /// yielded none: each recreation sets it to 0.
    pub consumer_sequence: u64,
    /// How many recreations have begun, up to `u64::MAX`.
    pub recreations: u64,
}

// Since when a recreation waits, as it is printed.
#[derive(Clone, Copy)]
struct WaitingSince(Option<Moment>);

impl fmt::Display for WaitingSince {
    ghost output = { λ waiting. Some (waiting_text waiting.0) };

    fn fmt<W: fmt::Write>(&self, f: &mut fmt::Formatter<W>) -> fmt::Result {
        match self.0 {
            None => f.write_str(""),
            Some(since) => write!(f, ", waiting since {since} ns"),
        }
    }
}

impl fmt::Display for Activity {
    ghost output = { λ activity. Some (activity_text activity) };

    fn fmt<W: fmt::Write>(&self, f: &mut fmt::Formatter<W>) -> fmt::Result {
        match *self {
            Activity::Reading => f.write_str("reading"),
            Activity::Recreating {
                failed_tries,
                waiting_since,
            } => {
                let waiting = WaitingSince(waiting_since);
                write!(
                    f,
                    "recreating its consumer (failed tries: {failed_tries}{waiting})"
                )
            }
            Activity::RecreationFailed => {
                f.write_str("all tries to recreate its consumer failed")
            }
            Activity::Ended => f.write_str("ended"),
        }
    }
}

// How far a stream has come, as it is printed.
#[derive(Clone, Copy)]
struct Progress {
    stream_sequence: u64,
    consumer_sequence: u64,
    recreations: u64,
}

impl fmt::Display for Progress {
    ghost output = { λ p. Some (progress_text p.stream_sequence p.consumer_sequence p.recreations) };

    fn fmt<W: fmt::Write>(&self, f: &mut fmt::Formatter<W>) -> fmt::Result {
        let stream_sequence = self.stream_sequence;
        let consumer_sequence = self.consumer_sequence;
        let recreations = self.recreations;
        write!(
            f,
            "last message: stream sequence {stream_sequence}, consumer sequence {consumer_sequence}; recreations: {recreations}"
        )
    }
}

// Whether a heartbeat is missing, as it is printed.
#[derive(Clone, Copy)]
struct Heartbeat {
    missing: bool,
}

impl fmt::Display for Heartbeat {
    ghost output = { λ h. Some (heartbeat_text h.missing) };

    fn fmt<W: fmt::Write>(&self, f: &mut fmt::Formatter<W>) -> fmt::Result {
        f.write_str(match self.missing {
            true => "; a heartbeat is missing",
            false => "",
        })
    }
}

impl fmt::Display for Health {
    ghost output = { λ health. Some (health_text health) };

    fn fmt<W: fmt::Write>(&self, f: &mut fmt::Formatter<W>) -> fmt::Result {
        let activity = self.activity;
        let progress = Progress {
            stream_sequence: self.stream_sequence,
            consumer_sequence: self.consumer_sequence,
            recreations: self.recreations,
        };
        let heartbeat = Heartbeat {
            missing: self.heartbeat_missing,
        };
        write!(f, "{activity}; {progress}{heartbeat}")
    }
}

// Since when an open recreation waits.
fn waiting_since(stage: Stage) -> Option<Moment>
    ensures { result ≡ waiting_since stage }
{
    match stage {
        Stage::Between => None,
        Stage::Deleting { timeout, .. } => Some(timeout.set),
        Stage::Creating { timeout, .. } => Some(timeout.set),
        Stage::Waiting { wait } => Some(wait.set),
    }
}

// It recreates its consumer.
fn recreating(recreation: &Recreation) -> Activity
    ensures { result ≡ activity_of (Phase.Recreates recreation.now) }
{
    Activity::Recreating {
        failed_tries: recreation.failures,
        waiting_since: waiting_since(recreation.stage),
    }
}

// What a stream at this phase is doing.
fn activity_of(phase: &Phase) -> Activity
    ensures { result ≡ activity_of phase.now }
{
    match phase {
        Phase::Pulls(_) => Activity::Reading,
        Phase::Pushes { .. } => Activity::Reading,
        Phase::Recreates(recreation) => recreating(recreation),
        Phase::Idle => Activity::RecreationFailed,
        Phase::Ended => Activity::Ended,
        Phase::Exhausted => Activity::Ended,
    }
}

// What a user can watch of it.
fn health_of(ordered: &Ordered) -> Health
    ensures { result ≡ health_of (position_of ordered.now) }
{
    let consumer = &ordered.consumer;
    Health {
        activity: activity_of(&consumer.phase),
        heartbeat_missing: consumer.missed,
        stream_sequence: consumer.core.stream_sequence,
        consumer_sequence: consumer.core.consumer_sequence,
        recreations: consumer.core.recreation_count,
    }
}

impl pull::Ordered {
    /// Returns what it is doing, and how far it has come. Takes no memory, and looks at no link.
    pub fn health(&self) -> Health
        ensures { result ≡ health_of (position_of_pull self.now) }
    {
        health_of(&self.polled.ordered)
    }
}

impl push::Ordered {
    /// Returns what it is doing, and how far it has come. Takes no memory, and looks at no link.
    pub fn health(&self) -> Health
        ensures { result ≡ health_of (position_of_push self.now) }
    {
        health_of(&self.polled.ordered)
    }
}
