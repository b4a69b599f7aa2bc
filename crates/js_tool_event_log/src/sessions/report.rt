//! The report of the lines of sessions.

ghost use Rattle.std.specs.Prelude.{◌≡◌, ◌≤◌, ◌++◌, [], length, IfOk, OnOk};
ghost use Rattle.js_tool_event_log.specs.SessionProgress.{HasRoom, IsLess, RefusesBy, RefusesIn, RunsOn, rest_of};
ghost use Rattle.js_tool_event_log.specs.SessionReport.{AreJoined, Reports};
ghost use Rattle.js_tool_event_log.specs.SessionInput.{sessions as sessions_in};
ghost use Rattle.js_tool_event_log.specs.SessionTexts.{sessions_end};
ghost use Rattle.js_tool_event_log.specs.declared.sessions.report.SessionsReport.TheVariants as reports;

use crate::sessions::reader::Reader;
use crate::sessions::refusal::refusal_line;
use crate::sessions::session::{EndedText, SessionText};
use js_base::Items;
use js_event_log_sessions::{Sessions, SessionsError};
use js_tool_io::{Lines, Pieces};
use js_tool_transcript::{Cell, Payloads, Setup, Unread, first_line, push_line};
use std::alloc::{AllocError, Global};

/// The result of sessions.
#[derive(Drop)]
pub(crate) enum SessionsReport {
    /// The text of all sessions.
    Done(Items<u8>),
    /// One of the sessions failed. This line says which and why.
    Refused(Items<u8>),
}

/// The result of one more session.
#[derive(Drop)]
pub(crate) enum Stage {
    /// No line is left.
    Last(EndedText),
    /// Another session begins.
    More(EndedText, Setup),
    /// The session failed. Lines may be left.
    Refused(SessionsError),
}

// A refusal, unless memory ran out.
fn refused_stage(refusal: SessionsError) -> Result<Stage, Unread>
    ensures { RefusesBy refusal result }
{
    match refusal {
        SessionsError::OutOfMemory => Err(Unread::OutOfMemory),
        refusal => Ok(Stage::Refused(refusal)),
    }
}

fn run_session(
    alloc: Global,
    ended: EndedText,
    setup: &Setup,
    reader: &mut Reader,
) -> Result<Stage, Unread>
    requires { HasRoom reader.old }
    ensures stage { RunsOn ended setup.now reader.old reader.new result }
    ensures shorter { IfOk result (λ stage. IsLess stage (length reader.new.lines.left) (length reader.old.lines.left)) }
    ensures room { OnOk result (HasRoom reader.new) }
{
    let mut session = match SessionText::begin(alloc, ended, setup) {
        Ok(session) => session,
        Err(refusal) => return refused_stage(refusal),
    };
    let following = match session.pass_lines(alloc, reader) {
        Ok(following) => following,
        Err(unread) => {
            drop(session);
            return Err(unread);
        }
    };
    match session.end() {
        Ok(ended) => match following {
            None => Ok(Stage::Last(ended)),
            Some(setup) => Ok(Stage::More(ended, setup)),
        },
        Err(refusal) => {
            drop(following);
            refused_stage(refusal)
        }
    }
}

fn push_all(out: &mut Vec<u8>, sessions: &Sessions) -> Result<(), AllocError>
    ensures { OnOk result (out.new.items ≡ out.old.items ++ sessions_end sessions.now.count sessions.now.committed sessions.now.next) }
{
    push_line(
        out,
        &[
            Cell::Text(b"sessions"),
            Cell::Number(sessions.count()),
            Cell::Number(sessions.committed()),
            Cell::Number(sessions.next()),
        ],
    )
}

// The report on sessions that have all ended.
fn done(ended: EndedText) -> Result<SessionsReport, AllocError>
    ensures { IfOk result (λ report. report ≡ reports.Done (ended.text.items ++ sessions_end ended.sessions.count ended.sessions.committed ended.sessions.next)) }
{
    let EndedText { sessions, mut text } = ended;
    let pushed = push_all(&mut text, &sessions);
    drop(sessions);
    pushed?;
    Ok(SessionsReport::Done(Items::from(text)))
}

// The report on sessions that are refused, once all lines that are left have read.
fn refused(
    alloc: Global,
    refusal: SessionsError,
    reader: &mut Reader,
) -> Result<SessionsReport, Unread>
    requires { HasRoom reader.old }
    ensures { RefusesIn refusal reader.old result }
{
    reader.read_rest(alloc)?;
    match refusal_line(alloc, refusal) {
        Ok(line) => Ok(SessionsReport::Refused(Items::from(line))),
        Err(AllocError) => Err(Unread::OutOfMemory),
    }
}

fn run_all(
    alloc: Global,
    next: u64,
    first: Setup,
    reader: &mut Reader,
) -> Result<SessionsReport, Unread>
    requires { HasRoom reader.old }
    ensures { Reports next (rest_of [] first [] reader.old) result }
{
    let mut ended = EndedText {
        sessions: Sessions::new(next),
        text: Vec::new(alloc),
    };
    let mut setup = first;
    loop {
        let stage = run_session(alloc, ended, &setup, reader);
        drop(setup);
        match stage {
            Ok(Stage::More(so_far, following)) => {
                ended = so_far;
                setup = following;
            }
            Ok(Stage::Last(all)) => match done(all) {
                Ok(report) => return Ok(report),
                Err(AllocError) => return Err(Unread::OutOfMemory),
            },
            Ok(Stage::Refused(refusal)) => return refused(alloc, refusal, reader),
            Err(unread) => return Err(unread),
        }
    }
}

/// Returns the report of the sessions in the bytes, starting at a bookmark. The bytes are freed as
/// they are read, and neither events nor outputs are kept.
///
/// The first line is a setup. A further line with the key `mode` is a setup too, and begins the
/// next session; `{"save":true}` is a save, and any other line is an event. The text of a session
/// is that of its run, whose end counts the events without the saves, followed by
/// `["bookmark",committed,next]`. The last line is `["sessions",number,committed,next]`.
///
/// If each session is served from one log by an honest server, and removed messages stay removed,
/// the committed yields of all sessions leave no gap between the first bookmark and the last of
/// them, except where a message was removed.
///
/// # Errors
///
/// Fails with `BadLine` and the number (counted from 1) of the first line that cannot be read, even
/// after a session that failed. Fails with `OutOfMemory` if memory runs out.
pub(crate) fn sessions_report(
    alloc: Global,
    next: u64,
    bytes: Pieces,
) -> Result<SessionsReport, Unread>
    requires { length bytes ≤ 67_108_864 }
    ensures report { Reports next (sessions_in bytes) result }
    ensures joined { IfOk result (λ report. AreJoined next (sessions_in bytes) report) }
{
    let mut lines = Lines::new(alloc, bytes);
    if !lines.read(alloc) {
        drop(lines);
        return Err(Unread::BadLine(1));
    }
    let setup = match first_line(alloc, lines.line()) {
        Ok(setup) => setup,
        Err(unread) => {
            drop(lines);
            return Err(unread);
        }
    };
    let mut reader = Reader {
        lines,
        number: 1,
        payloads: Payloads::new(alloc),
    };
    let report = run_all(alloc, next, setup, &mut reader);
    drop(reader);
    report
}
