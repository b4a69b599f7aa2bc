//! Sessions that are replayed line by line, without keeping any line.

ghost use Rattle.std.specs.Prelude.{◌≡◌, ℕ, ◌+◌, List, [], IfOk, OnOk, OnErr, IsErr, true};
ghost use Rattle.js_event_log_sessions.specs.SessionReplay.{Begins, Ends, HasComeTo, HaveEnded, with_line};
ghost use Rattle.js_event_log_sessions.specs.Runs.{is_at, replay_refusal};
ghost use Rattle.js_event_log_sessions.specs.declared.session.Line.TheVariants as line;
ghost use Rattle.js_event_log_sessions.specs.declared.session.Session.{Session};

use crate::error::SessionsError;
use crate::mark::Mark;
use crate::scope::Scope;
use js_base::{Moment, OutOfMemory, both};
use js_json::consumer::Info;
use js_ordered::{Event, IncrementalReplay, OrderedSetup, Output, ReplayError, Settings};
use js_ordered_table::next_number;
use std::alloc::Global;

/// The sessions that have ended so far, none of which failed.
///
/// Works as [`run_sessions`](crate::run_sessions) does, but you pass one line after another and it
/// keeps none of them: begin a session, pass its events and saves, and end it. A session that fails
/// drops the sessions with it.
#[derive(Drop)]
pub struct Sessions {
    count: u64,
    next: u64,
    committed: u64,
    scope: Option<Scope>,
}

/// A session that has begun and not ended. It owns the sessions before it.
#[derive(Drop)]
pub struct SessionReplay<'a> {
    number: u64,
    before: u64,
    scope: Scope,
    replay: IncrementalReplay<'a>,
    yielded: Mark,
    saved: Mark,
    has_failed: bool,
}

/// The result of a session that has ended.
#[derive(Drop)]
pub struct SessionEnd {
    /// All sessions up to this one, with the bookmark after it.
    pub sessions: Sessions,
    /// Whether the session's consumer has ended.
    pub ended: bool,
    /// The number of committed yields of this session.
    pub committed: u64,
}

fn is_at(next: u64, start: Option<u64>) -> bool
    ensures { result ≡ is_at next start }
{
    match start {
        None => false,
        Some(start) => start == next,
    }
}

fn replay_refusal(session: u64, error: ReplayError) -> SessionsError
    ensures { result ≡ replay_refusal session error }
{
    match error {
        ReplayError::OutOfMemory => SessionsError::OutOfMemory,
        error => SessionsError::Replay { session, error },
    }
}

// The yields of all sessions. Their number may go past a `u64`, since none of them is kept.
fn sum_of(before: u64, more: u64) -> Result<u64, OutOfMemory>
    ensures { IfOk result (λ sum. sum ≡ before + more) }
{
    before.checked_add(more).ok_or(OutOfMemory)
}

impl Sessions {
    /// Returns a value with no sessions yet. The first one has to start at the bookmark `next`.
    pub fn new(next: u64) -> Sessions
        ensures { HaveEnded next [] result }
    {
        Sessions {
            count: 0,
            next,
            committed: 0,
            scope: None,
        }
    }

    /// Returns how many sessions have ended.
    pub fn count(&self) -> u64
        ensures { result ≡ self.now.count }
    {
        self.count
    }

    /// Returns the bookmark: the sequence at which the next session has to start.
    pub fn next(&self) -> u64
        ensures { result ≡ self.now.next }
    {
        self.next
    }

    /// Returns how many yields of all sessions are committed.
    pub fn committed(&self) -> u64
        ensures { result ≡ self.now.committed }
    {
        self.committed
    }

    /// Begins the next session with its opening. The arguments are those of its replay.
    ///
    /// # Errors
    ///
    /// Fails with `WrongStart`, then `WrongFilter`, as `run_sessions` does. Fails with
    /// `OutOfMemory` if memory runs out or the session's number would exceed a `u64`.
    pub fn begin<'a>(
        self,
        alloc: Global,
        settings: &'a Settings,
        setup: &'a OrderedSetup,
        first: &'a Info,
        start: Moment,
    ) -> Result<SessionReplay<'a>, SessionsError>
        ensures { (next : ℕ) → (done : List Session) → HaveEnded next done self
            → Begins next done (record { settings = settings.now; setup = setup.now; first = first.now; start = start; lines = [] }) result }
    {
        let Sessions {
            count,
            next,
            committed,
            scope,
        } = self;
        let (before, number) = both(Ok(scope), next_number(count))?;
        if !is_at(next, setup.configured_start()) {
            drop(before);
            return Err(SessionsError::WrongStart {
                session: number,
                next,
            });
        }
        let Some(scope) = Scope::after(alloc, before, setup, first)? else {
            return Err(SessionsError::WrongFilter { session: number });
        };
        let replay = IncrementalReplay::open(alloc, settings, setup, first, start)?;
        let saved = Mark::at(next);
        let yielded = match saved.after(replay.outputs()) {
            Ok(yielded) => yielded,
            Err(OutOfMemory) => {
                drop(replay);
                drop(scope);
                return Err(SessionsError::OutOfMemory);
            }
        };
        Ok(SessionReplay {
            number,
            before: committed,
            scope,
            replay,
            yielded,
            saved,
            has_failed: false,
        })
    }
}

impl<'a> SessionReplay<'a> {
    /// Passes the next event.
    ///
    /// # Errors
    ///
    /// Fails with `OutOfMemory` if memory runs out or the number of the session's events or yields
    /// would exceed a `u64`. After that, every later event fails too, and so does
    /// [`end`](SessionReplay::end).
    pub fn advance(&mut self, alloc: Global, event: &Event) -> Result<(), OutOfMemory>
        ensures passed { (next : ℕ) → (done : List Session) → (s : Session) → HasComeTo next done s self.old
            → OnOk result (HasComeTo next done (with_line s (line.Event event.now)) self.new) }
        ensures failed { OnErr result (self.new.has_failed ≡ true) }
        ensures fails { self.old.has_failed ≡ true → IsErr result }
    {
        if self.has_failed {
            return Err(OutOfMemory);
        }
        self.has_failed = true;
        self.replay.advance(alloc, event)?;
        self.yielded = self.yielded.after(self.replay.outputs())?;
        self.has_failed = false;
        Ok(())
    }

    /// Commits everything yielded so far. Allocates nothing.
    pub fn save(&mut self)
        ensures { (next : ℕ) → (done : List Session) → (s : Session) → HasComeTo next done s self.old
            → HasComeTo next done (with_line s line.Save) self.new }
    {
        self.saved = self.yielded;
    }

    /// Returns the outputs of the last event, or of the opening before the first event. A save does
    /// not change them.
    pub fn outputs(&self) -> &[Output]
        ensures { result.now ≡ self.now.replay.outputs }
    {
        self.replay.outputs()
    }

    /// Returns the number of events so far, without the saves.
    pub fn count(&self) -> u64
        ensures { result ≡ self.now.replay.count }
    {
        self.replay.count()
    }

    /// Ends the session and returns its result, together with all sessions.
    ///
    /// # Errors
    ///
    /// Fails with `Replay`, then `BookmarkEnd`, as `run_sessions` does. Fails with `OutOfMemory` if
    /// memory runs out, if an earlier event failed, or if the number of all committed yields would
    /// exceed a `u64`.
    pub fn end(self) -> Result<SessionEnd, SessionsError>
        ensures ended { (next : ℕ) → (done : List Session) → (s : Session) → HasComeTo next done s self.entry → Ends next done s result }
        ensures failed { self.entry.has_failed ≡ true → result ≡ Err SessionsError.OutOfMemory }
    {
        let SessionReplay {
            number,
            before,
            scope,
            replay,
            saved,
            has_failed,
            ..
        } = self;
        let ended = replay.end();
        drop(replay);
        if has_failed {
            drop(scope);
            return Err(SessionsError::OutOfMemory);
        }
        let ended = match ended {
            Ok(ended) => ended,
            Err(error) => {
                drop(scope);
                return Err(replay_refusal(number, error));
            }
        };
        let Some(next) = saved.next else {
            drop(scope);
            return Err(SessionsError::BookmarkEnd { session: number });
        };
        let (scope, committed) = both(Ok(scope), sum_of(before, saved.count))?;
        Ok(SessionEnd {
            sessions: Sessions {
                count: number,
                next,
                committed,
                scope: Some(scope),
            },
            ended,
            committed: saved.count,
        })
    }
}
