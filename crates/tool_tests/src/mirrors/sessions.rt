//! Each call of sessions.

use crate::mirrors::calls::fill;
use crate::mirrors::round::reader_from;
use crate::tables::same;
use js_base::{Entry, Items};
use js_event_log::Mirror;
use js_event_log_sessions::{
    Line, Session, SessionEnd, SessionReplay, SessionRun, Sessions, SessionsError, run_sessions,
};
use js_ordered::{Event, OrderedSetup};
use js_ordered_table::ReplayInput;
use js_tool_generate::replay_input;
use std::alloc::{AllocError, Global};
use std::process::Abort;
use std::test::Fail;

// Two sessions, of which the second starts after what the first has saved.
fn sessions(alloc: Global) -> Result<Vec<Session>, Fail> {
    let mut sessions = Vec::new(alloc);
    add(&mut sessions, session(alloc, 3, 1))?;
    add(&mut sessions, session(alloc, 6, 0))?;
    Ok(sessions)
}

fn add<T: Drop>(list: &mut Vec<T>, made: Result<T, Fail>) -> Result<(), Fail> {
    match made {
        Ok(value) => Ok(list.push(value)?),
        Err(fault) => Err(fault),
    }
}

// The entries from a sequence on, among 4, 5 and 9.
fn entries_from(alloc: Global, start: u64) -> Result<Vec<Entry>, Fail> {
    let mut mirror = Mirror::new(alloc, 3);
    fill(alloc, &mut mirror)?;
    Ok(mirror.serve(start, 3)?)
}

// A mirror of these entries.
fn mirror_with(alloc: Global, entries: Vec<Entry>) -> Result<Mirror, Fail> {
    let mut mirror = Mirror::new(alloc, 1);
    for entry in entries {
        mirror.push(entry)?;
    }
    Ok(mirror)
}

// The arrivals of the entries from a sequence on.
fn events_from(alloc: Global, start: u64) -> Result<Vec<Event>, Fail> {
    let mirror = mirror_with(alloc, entries_from(alloc, start)?)?;
    let events = mirror.relay(alloc, "events", "gen");
    drop(mirror);
    Ok(events?)
}

// A session that starts at a sequence, and saves after the event at a place.
fn session(alloc: Global, start: u64, saved: usize) -> Result<Session, Fail> {
    let lines = lines_of(alloc, events_from(alloc, start)?, saved)?;
    match replay_input(alloc) {
        Ok(given) => Ok(beginning(given, reader_from(alloc, start), lines)),
        Err(fault) => {
            drop(lines);
            Err(fault.into())
        }
    }
}

fn beginning(given: ReplayInput, setup: OrderedSetup, lines: Items<Line>) -> Session {
    let ReplayInput {
        settings,
        setup: given_setup,
        first,
    } = given;
    drop(given_setup);
    Session {
        settings,
        setup,
        first,
        start: 0,
        lines,
    }
}

fn lines_of(alloc: Global, events: Vec<Event>, saved: usize) -> Result<Items<Line>, Fail> {
    let mut lines = Items::new(alloc);
    for (place, event) in events.into_iter().enumerate() {
        match push_event(&mut lines, event, place == saved) {
            Ok(()) => {}
            Err(fault) => {
                drop(lines);
                return Err(fault);
            }
        }
    }
    Ok(lines)
}

fn push_event(lines: &mut Items<Line>, event: Event, saves: bool) -> Result<(), Fail> {
    lines.push(Line::Event(event))?;
    if saves {
        lines.push(Line::Save)?;
    }
    Ok(())
}

// What the sessions come to from a bookmark on.
fn run(alloc: Global, next: u64, sessions: &[Session]) -> Result<String, AllocError> {
    match run_sessions(alloc, next, sessions) {
        Ok(runs) => {
            let text = runs_text(alloc, runs.as_slice());
            drop(runs);
            text
        }
        Err(error) => format!(in alloc; "{error}\n"),
    }
}

fn runs_text(alloc: Global, runs: &[SessionRun]) -> Result<String, AllocError> {
    let mut text = String::new(alloc);
    for run in runs {
        writeln!(text, "committed {}, next {}", run.committed, run.next)?;
    }
    Ok(text)
}

// The same, told line by line.
fn line_by_line(alloc: Global, sessions: &[Session]) -> Result<String, Fail> {
    let mut text = String::new(alloc);
    tell(alloc, &mut text, sessions)?;
    Ok(text)
}

fn tell(alloc: Global, text: &mut String, sessions: &[Session]) -> Result<(), Fail> {
    let mut so_far = Sessions::new(3);
    for session in sessions {
        so_far = one(alloc, text, so_far, session)?;
    }
    let written = writeln!(
        text,
        "{} sessions, {} committed, next {}",
        so_far.count(),
        so_far.committed(),
        so_far.next()
    );
    drop(so_far);
    Ok(written?)
}

/// A session that is replayed. What runs it is generic over it, since it has many parts, which then need not be looked into.
trait Replays: Drop {
    fn pass(&mut self, alloc: Global, line: &Line) -> Result<(), Fail>;

    /// How many events have passed, and how many outputs the last has.
    fn counts(&self) -> (u64, usize);

    fn ended(self) -> Result<Sessions, Fail>;
}

impl<'a> Replays for SessionReplay<'a> {
    fn pass(&mut self, alloc: Global, line: &Line) -> Result<(), Fail> {
        match line {
            Line::Event(event) => self.advance(alloc, event)?,
            Line::Save => self.save(),
        }
        Ok(())
    }

    fn counts(&self) -> (u64, usize) {
        (self.count(), self.outputs().len())
    }

    fn ended(self) -> Result<Sessions, Fail> {
        let SessionEnd { sessions, .. } = self.end()?;
        Ok(sessions)
    }
}

fn one(
    alloc: Global,
    text: &mut String,
    so_far: Sessions,
    session: &Session,
) -> Result<Sessions, Fail> {
    to_end(alloc, text, begin(alloc, so_far, session), session)
}

fn to_end<R: Replays>(
    alloc: Global,
    text: &mut String,
    replay: Result<R, SessionsError>,
    session: &Session,
) -> Result<Sessions, Fail> {
    let mut replay = replay?;
    match go_through(alloc, text, &mut replay, session) {
        Ok(()) => replay.ended(),
        Err(fault) => Err(fault),
    }
}

fn go_through<R: Replays>(
    alloc: Global,
    text: &mut String,
    replay: &mut R,
    session: &Session,
) -> Result<(), Fail> {
    for line in session.lines.as_slice() {
        replay.pass(alloc, line)?;
    }
    let (events, outputs) = replay.counts();
    writeln!(text, "events: {events}, outputs of the last: {outputs}")?;
    Ok(())
}

fn begin<'a>(
    alloc: Global,
    so_far: Sessions,
    session: &'a Session,
) -> Result<SessionReplay<'a>, SessionsError> {
    so_far.begin(
        alloc,
        &session.settings,
        &session.setup,
        &session.first,
        session.start,
    )
}

/// Bookmarks, and what the sessions come to from each on.
const RUNS: &[(u64, &str)] = &[
    (3, "committed 2, next 6\ncommitted 1, next 10\n"),
    (4, "session 1 does not start at 4\n"),
];

/// What is told of them line by line from 3 on.
const LINE_BY_LINE: &str =
    "events: 3, outputs of the last: 1\nevents: 1, outputs of the last: 1\n2 sessions, 3 committed, next 10\n";

fn says_both(rt: &impl Abort, alloc: Global, sessions: &[Session]) -> Result<(), Fail> {
    for &(next, wanted) in RUNS {
        let found = run(alloc, next, sessions)?;
        same(rt, wanted, found.as_str(), wanted);
    }
    let found = line_by_line(alloc, sessions)?;
    same(rt, "line by line", found.as_str(), LINE_BY_LINE);
    Ok(())
}

#[test]
fn sessions_go_on_at_once_or_line_by_line(rt: HostRuntime) -> Result<(), Fail> {
    let sessions = sessions(rt.alloc())?;
    let said = says_both(&rt, rt.alloc(), &sessions);
    drop(sessions);
    said
}
