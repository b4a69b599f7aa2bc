//! Runs sessions one after another, each from the bookmark of the one before it.

ghost use Rattle.std.specs.Prelude.{◌≡◌, ℕ, List, [], ◌∷◌, ◌++◌, IfOk, OnOk};
ghost use Rattle.js_ordered_table.specs.Gapless.{Logged, Server};
ghost use Rattle.js_event_log_sessions.specs.GaplessSessions.{AreServed, LeaveNoGap};
ghost use Rattle.js_event_log_sessions.specs.SessionReplay.{HasComeTo, HasStepped, HaveRun, RunsOn, with_line, with_lines};
ghost use Rattle.js_event_log_sessions.specs.Runs.{IsAnswer};
ghost use Rattle.js_event_log_sessions.specs.declared.session.Session.{Session};

use crate::error::SessionsError;
use crate::session::{Line, Session, SessionRun};
use crate::session_replay::{SessionReplay, Sessions};
use bytes::Bytes;
use js_base::{Items, OutOfMemory, Subject, TryClone, both, each_copied};
use js_ordered::{Output, Run, Step};
use std::alloc::Global;

fn request_of(number: u64, subject: &Subject, payload: &Bytes) -> Result<Output, OutOfMemory>
    ensures { IfOk result (λ copy. copy ≡ Output.Request number subject.now payload.now) }
{
    let (subject, payload) = both(subject.try_clone(), payload.try_clone())?;
    Ok(Output::Request {
        number,
        subject,
        payload,
    })
}

fn publish_of(
    subject: &Subject,
    reply: &Option<Subject>,
    payload: &Bytes,
) -> Result<Output, OutOfMemory>
    ensures { IfOk result (λ copy. copy ≡ Output.Publish subject.now reply.now payload.now) }
{
    let (subject, reply, payload) = each_copied(subject, reply, payload)?;
    Ok(Output::Publish {
        subject,
        reply,
        payload,
    })
}

fn copy_of(output: &Output) -> Result<Output, OutOfMemory>
    ensures { IfOk result (λ copy. copy ≡ output.now) }
{
    match output {
        Output::Yield {
            stream_sequence,
            consumer_sequence,
            subject,
            payload,
        } => {
            let (subject, payload) = both(subject.try_clone(), payload.try_clone())?;
            Ok(Output::Yield {
                stream_sequence: *stream_sequence,
                consumer_sequence: *consumer_sequence,
                subject,
                payload,
            })
        }
        Output::Item { kind } => Ok(Output::Item { kind: *kind }),
        Output::Recreate {
            recreation_count,
            start,
        } => Ok(Output::Recreate {
            recreation_count: *recreation_count,
            start: *start,
        }),
        Output::Request {
            number,
            subject,
            payload,
        } => request_of(*number, subject, payload),
        Output::Publish {
            subject,
            reply,
            payload,
        } => publish_of(subject, reply, payload),
        Output::Subscribe { inbox, subject } => Ok(Output::Subscribe {
            inbox: *inbox,
            subject: subject.try_clone()?,
        }),
    }
}

// The step that puts these out.
fn step_of(alloc: Global, outputs: &[Output]) -> Result<Step, OutOfMemory>
    ensures { IfOk result (λ step. step.outputs ≡ outputs.now) }
{
    let mut copies = Items::from(Vec::with_capacity(alloc, outputs.len())?);
    for output in outputs {
        copies.push(copy_of(output)?)?;
    }
    Ok(Step { outputs: copies })
}

// ---- one session

fn pass_line(
    alloc: Global,
    replay: &mut SessionReplay<'_>,
    steps: &mut Items<Step>,
    line: &Line,
) -> Result<(), OutOfMemory>
    ensures { (next : ℕ) → (done : List Session) → (s : Session) → HasStepped next done s replay.old steps.old
        → OnOk result (HasStepped next done (with_line s line.now) replay.new steps.new) }
{
    match line {
        Line::Event(event) => {
            replay.advance(alloc, event)?;
            steps.push(step_of(alloc, replay.outputs())?)
        }
        Line::Save => {
            replay.save();
            Ok(())
        }
    }
}

// The steps of a session's events.
fn steps_of(
    alloc: Global,
    replay: &mut SessionReplay<'_>,
    lines: &[Line],
) -> Result<Items<Step>, OutOfMemory>
    ensures { (next : ℕ) → (done : List Session) → (s : Session) → HasComeTo next done (with_lines s []) replay.old
        → IfOk result (λ steps. HasStepped next done (with_lines s lines.now) replay.new steps) }
{
    let mut steps = Items::new(alloc);
    for line in lines {
        pass_line(alloc, replay, &mut steps, line)?;
    }
    Ok(steps)
}

// The opening of a session that has begun, and the steps of its events.
fn opening_and_steps(
    alloc: Global,
    replay: &mut SessionReplay<'_>,
    lines: &[Line],
) -> Result<(Step, Items<Step>), OutOfMemory>
    ensures { (next : ℕ) → (done : List Session) → (s : Session) → HasComeTo next done (with_lines s []) replay.old
        → IfOk result (λ played. (played.0.outputs ≡ replay.old.replay.outputs) × HasStepped next done (with_lines s lines.now) replay.new played.1) }
{
    let opening = step_of(alloc, replay.outputs())?;
    let steps = steps_of(alloc, replay, lines)?;
    Ok((opening, steps))
}

// One session more, whose run stands behind the others.
fn run_session(
    alloc: Global,
    sessions: Sessions,
    session: &Session,
    runs: &mut Items<SessionRun>,
) -> Result<Sessions, SessionsError>
    ensures { (next : ℕ) → (done : List Session) → HaveRun next done sessions runs.old → RunsOn next done session.now runs.new result }
{
    let begun = sessions.begin(
        alloc,
        &session.settings,
        &session.setup,
        &session.first,
        session.start,
    );
    let mut replay = match begun {
        Ok(replay) => replay,
        Err(refusal) => return Err(refusal),
    };
    let played = opening_and_steps(alloc, &mut replay, session.lines.as_slice());
    let (opening, steps) = match played {
        Ok(played) => played,
        Err(OutOfMemory) => {
            drop(replay);
            return Err(SessionsError::OutOfMemory);
        }
    };
    let end = match replay.end() {
        Ok(end) => end,
        Err(refusal) => {
            drop(opening);
            drop(steps);
            return Err(refusal);
        }
    };
    let next = end.sessions.next();
    let pushed = runs.push(SessionRun {
        run: Run {
            opening,
            steps,
            ended: end.ended,
        },
        committed: end.committed,
        next,
    });
    let (sessions, ()) = both(Ok(end.sessions), pushed)?;
    Ok(sessions)
}

// ---- all sessions

/// Runs the sessions of one ordered consumer, one after another. A session may stop anywhere; the
/// next one starts at the last saved bookmark.
///
/// The first session starts at the bookmark `next`. No session can start at bookmark 0. Everything
/// that a session yields before its last save is committed. The bookmark after the session is the
/// last committed sequence plus one, or the previous bookmark if nothing is committed. What is
/// yielded after the last save is not committed, and the next session may yield it again.
///
/// If every session is served from one log by an honest server, and removed messages stay removed,
/// the committed yields of all sessions leave no gap: their sequences rise strictly, each has the
/// subject and the payload of the log's entry, and every entry that the filters select from the
/// first bookmark to the last committed yield is either committed or was removed. Nothing
/// guarantees that an uncommitted yield comes again.
///
/// # Errors
///
/// Fails with the first of these that applies. Sessions are counted from 1, and each is checked in
/// this order before the next one:
///
/// - `WrongStart`: its configured start is missing or is not the bookmark. The error carries the
///   bookmark.
/// - `WrongFilter`: its list of filter subjects differs from that of session 1, or its first info
///   names another stream. A non-empty filter subject counts as standing before the filter
///   subjects.
/// - `Replay`: its replay fails. The error's event positions do not count saves.
/// - `BookmarkEnd`: it has committed a yield with the highest possible sequence.
///
/// `OutOfMemory` may come instead of the runs or of any of these errors. If it fails, no run is
/// returned.
pub fn run_sessions(
    alloc: Global,
    next: u64,
    sessions: &[Session],
) -> Result<Items<SessionRun>, SessionsError>
    ensures answer { IsAnswer next sessions.now result }

    // Over one log the committed yields of all sessions leave no gap.
    ensures joined { (log : List Logged) → (servers : List Server) → AreServed log [] sessions.now servers
        → OnOk result (LeaveNoGap log servers next sessions.now) }
{
    let mut so_far = Sessions::new(next);
    let mut runs = Items::new(alloc);
    for session in sessions {
        so_far = match run_session(alloc, so_far, session, &mut runs) {
            Ok(so_far) => so_far,
            Err(refusal) => return Err(refusal),
        };
    }
    Ok(runs)
}
