//! The one loop over the lines of a transcript: each event is passed as its line is read, and told
//! of at once, so that neither lines nor events nor steps are kept.

ghost use Rattle.std.specs.Prelude.{◌≡◌, ◌≤◌, ◌+◌, ◌++◌, ◌∷◌, [], ℕ, List, length, None, IfOk, OnOk};
ghost use Rattle.js_ordered_table.specs.declared.consumer.ReplayInput.{ReplayInput};
ghost use Rattle.js_ordered_table.specs.declared.event.Event as events;
ghost use Rattle.js_tool_io.specs.Lines.{lines_of};
ghost use Rattle.js_tool_transcript.specs.TranscriptReplay.{replay_input};
ghost use Rattle.js_tool.specs.Progress.{HasPassed, PassesLines, IsReplayedOn, IsReplayedTo, IsReplayed, TellsError, TellsOutcome, error_or, event_error, line_error};
ghost use Rattle.js_tool_transcript.specs.Event.{event_line_in as event_in};
ghost use Rattle.js_tool_transcript.specs.ExtendedSetup.{setup_line_in as setup_in};
ghost use Rattle.js_tool_transcript.specs.Transcript.{GivesLines, numbered, transcript_in, transcript_of_in, with_lines_in};

use crate::step_report::{Replayed, StepReport};
use js_base::OutOfMemory;
use js_json_members::ReadError;
use js_ordered::{Event, IncrementalReplay};
use js_tool_io::{Pieces, cut_line, next_piece};
use js_tool_transcript::{Lines, Payloads, Setup, Unread, event_line_in, setup_line_in};
use std::alloc::{AllocError, Global};

/// How far a replay has come, and what is told of it.
#[derive(Drop)]
pub(crate) struct Progress<'s, R> {
    setup: &'s Setup,
    replay: IncrementalReplay<'s>,
    report: R,
    // Why the last line did not read.
    error: Option<ReadError>,
}

impl<'s, R: StepReport> Progress<'s, R> {
    fn open(alloc: Global, setup: &'s Setup) -> Result<Progress<'s, R>, OutOfMemory>
        ensures { IfOk result (λ progress. HasPassed R.tells (replay_input setup.now) setup.now.start [] progress) }
    {
        let replay = IncrementalReplay::open(
            alloc,
            &setup.settings,
            &setup.setup,
            &setup.first,
            setup.start,
        )?;
        match R::open(alloc, setup, &replay) {
            Ok(report) => Ok(Progress {
                setup,
                replay,
                report,
                error: None,
            }),
            Err(OutOfMemory) => {
                drop(replay);
                Err(OutOfMemory)
            }
        }
    }

    fn pass(&mut self, alloc: Global, event: &Event) -> Result<(), OutOfMemory>
        ensures passed { (g : ReplayInput) → (start : ℕ) → (es : List events.Event) → HasPassed R.tells g start es self.old
            → OnOk result (HasPassed R.tells g start (es ++ event.now ∷ []) self.new) }
        ensures counted { OnOk result (self.new.replay.count ≡ self.old.replay.count + 1) }
    {
        self.report.pass(alloc, self.setup, &mut self.replay, event)
    }

    // What was told of the whole replay, or its refusal.
    fn finish(self) -> Replayed<R>
        ensures { (g : ReplayInput) → (start : ℕ) → (es : List events.Event) → HasPassed R.tells g start es self.entry
            → IsReplayedOn R.tells g start es result }
    {
        let Progress { replay, report, .. } = self;
        let end = replay.end();
        let events = replay.count();
        drop(replay);
        match end {
            Ok(ended) => Replayed::Done {
                report,
                ended,
                events,
            },
            Err(refusal) => {
                drop(report);
                Replayed::Refused(refusal)
            }
        }
    }
}

// The setup that a first line of this form says. Where it says none, why.
fn read_setup(
    alloc: Global,
    form: Lines,
    line: &[u8],
    error: &mut Option<ReadError>,
) -> Result<Setup, Unread>
    ensures setup { GivesLines (λ s. s) result (numbered 1 (setup_in form line.now)) }
    ensures told { TellsError (error_or (setup_in form line.now) None) error.new result }
{
    match setup_line_in(alloc, form, line) {
        Ok(setup) => Ok(setup),
        Err(ReadError::OutOfMemory) => Err(Unread::OutOfMemory),
        Err(cause) => {
            *error = Some(cause);
            Err(Unread::BadLine(1))
        }
    }
}

// The event that a further line of this form says. Where it says none, why.
fn read_event(
    alloc: Global,
    payloads: &mut Payloads,
    form: Lines,
    number: u64,
    line: &[u8],
    error: &mut Option<ReadError>,
) -> Result<Event, Unread>
    ensures event { GivesLines (λ e. e) result (numbered number (event_in form line.now)) }
    ensures told { TellsError (event_error form (line.now ∷ [])) error.new result }
{
    match event_line_in(alloc, payloads, form, line) {
        Ok(event) => Ok(event),
        Err(ReadError::OutOfMemory) => Err(Unread::OutOfMemory),
        Err(cause) => {
            *error = Some(cause);
            Err(Unread::BadLine(number))
        }
    }
}

fn pass_line<R: StepReport>(
    alloc: Global,
    payloads: &mut Payloads,
    form: Lines,
    progress: &mut Progress<'_, R>,
    line: &[u8],
) -> Result<(), Unread>
    requires { progress.old.replay.count ≤ 67_108_864 }
    ensures lines { PassesLines R.tells form progress.old (line.now ∷ []) progress.new result }
    ensures told { TellsError (event_error form (line.now ∷ [])) progress.new.error result }
    ensures counted { OnOk result (progress.new.replay.count ≡ progress.old.replay.count + 1) }
{
    let number = progress.replay.count() + 2;
    let event = read_event(alloc, payloads, form, number, line, &mut progress.error)?;
    let passed = progress.pass(alloc, &event);
    drop(event);
    match passed {
        Ok(()) => Ok(()),
        Err(OutOfMemory) => Err(Unread::OutOfMemory),
    }
}

// Passes the lines of a piece.
fn pass_lines<R: StepReport>(
    alloc: Global,
    payloads: &mut Payloads,
    form: Lines,
    progress: &mut Progress<'_, R>,
    bytes: &[u8],
) -> Result<(), Unread>
    requires { progress.old.replay.count + length bytes.now ≤ 67_108_864 }
    ensures lines { PassesLines R.tells form progress.old (lines_of bytes.now) progress.new result }
    ensures told { TellsError (event_error form (lines_of bytes.now)) progress.new.error result }
    ensures counted { OnOk result (progress.new.replay.count ≤ progress.old.replay.count + length bytes.now) }
{
    let mut rest = bytes;
    while !rest.is_empty() {
        let (line, after) = cut_line(rest);
        pass_line(alloc, payloads, form, progress, line)?;
        rest = after;
    }
    Ok(())
}

// Passes all lines of a piece and of those behind it.
fn pass_pieces<R: StepReport>(
    alloc: Global,
    payloads: &mut Payloads,
    form: Lines,
    progress: &mut Progress<'_, R>,
    piece: &[u8],
    bytes: &mut Pieces,
) -> Result<(), Unread>
    requires { progress.old.replay.count + length piece.now + length bytes.old ≤ 67_108_864 }
    ensures lines { PassesLines R.tells form progress.old (lines_of piece.now ++ lines_of bytes.old) progress.new result }
    ensures told { TellsError (event_error form (lines_of piece.now ++ lines_of bytes.old)) progress.new.error result }
{
    match pass_lines(alloc, payloads, form, progress, piece) {
        Ok(()) => {}
        Err(unread) => return Err(unread),
    }
    while let Some(piece) = next_piece(alloc, bytes) {
        let passed = pass_lines(alloc, payloads, form, progress, &piece);
        drop(piece);
        match passed {
            Ok(()) => {}
            Err(unread) => return Err(unread),
        }
    }
    Ok(())
}

fn pass_all<R: StepReport>(
    alloc: Global,
    form: Lines,
    progress: &mut Progress<'_, R>,
    piece: &[u8],
    mut bytes: Pieces,
) -> Result<(), Unread>
    requires { progress.old.replay.count + length piece.now + length bytes ≤ 67_108_864 }
    ensures lines { PassesLines R.tells form progress.old (lines_of piece.now ++ lines_of bytes) progress.new result }
    ensures told { TellsError (event_error form (lines_of piece.now ++ lines_of bytes)) progress.new.error result }
{
    let mut payloads = Payloads::new(alloc);
    let passed = pass_pieces(alloc, &mut payloads, form, progress, piece, &mut bytes);
    drop(payloads);
    drop(bytes);
    passed
}

/// Replays a setup and the events on these lines of a form: those of the piece, and those of the
/// bytes behind it, which are freed as they are read. Does what [`replay_lines`] does behind the
/// first line.
pub fn replay_events<R: StepReport>(
    alloc: Global,
    form: Lines,
    setup: &Setup,
    piece: &[u8],
    bytes: Pieces,
    error: &mut Option<ReadError>,
) -> Result<Replayed<R>, AllocError>
    requires { length piece.now + length bytes ≤ 67_108_864 }
    ensures outcome { IfOk result (λ outcome. IsReplayedTo R.tells (with_lines_in form setup.now (lines_of piece.now ++ lines_of bytes)) outcome) }
    ensures told { TellsOutcome (event_error form (lines_of piece.now ++ lines_of bytes)) error.new result }
{
    let mut progress = match Progress::<R>::open(alloc, setup) {
        Ok(progress) => progress,
        Err(OutOfMemory) => {
            drop(bytes);
            return Err(AllocError);
        }
    };
    match pass_all(alloc, form, &mut progress, piece, bytes) {
        Ok(()) => Ok(progress.finish()),
        Err(Unread::BadLine(line)) => {
            *error = progress.error;
            drop(progress);
            Ok(Replayed::BadLine(line))
        }
        Err(Unread::OutOfMemory) => {
            drop(progress);
            Err(AllocError)
        }
    }
}

// Goes on behind the first line, by what that line says.
fn replay_rest<R: StepReport>(
    alloc: Global,
    form: Lines,
    first: &Result<Setup, Unread>,
    piece: &[u8],
    bytes: Pieces,
    error: &mut Option<ReadError>,
) -> Result<Replayed<R>, AllocError>
    requires { length piece.now + length bytes ≤ 67_108_864 }
    ensures outcome { (line : List ℕ) → GivesLines (λ s. s) first.now (numbered 1 (setup_in form line))
        → IfOk result (λ outcome. IsReplayedTo R.tells (transcript_of_in form (line ∷ (lines_of piece.now ++ lines_of bytes))) outcome) }
    ensures told { (line : List ℕ) → TellsError (error_or (setup_in form line) None) error.old first.now
        → TellsOutcome (line_error form (line ∷ (lines_of piece.now ++ lines_of bytes))) error.new result }
{
    match first {
        Ok(setup) => replay_events(alloc, form, setup, piece, bytes, error),
        Err(Unread::BadLine(line)) => {
            drop(bytes);
            Ok(Replayed::BadLine(*line))
        }
        Err(Unread::OutOfMemory) => {
            drop(bytes);
            Err(AllocError)
        }
    }
}

/// Replays the bytes, whose lines have this form, and returns what the report tells of it. They are
/// freed as they are read. If a line cannot be read, puts its read error into `error`; there is
/// none if the input has no line. Fails only if memory runs out.
#[tactic(auto, using(crate::proofs::LinesPassed::no_bytes))]
pub fn replay_lines<R: StepReport>(
    alloc: Global,
    form: Lines,
    mut bytes: Pieces,
    error: &mut Option<ReadError>,
) -> Result<Replayed<R>, AllocError>
    requires { length bytes ≤ 67_108_864 }
    ensures outcome { IfOk result (λ outcome. IsReplayed R.tells (transcript_in form bytes) bytes outcome) }
    ensures told { error.old ≡ None → TellsOutcome (line_error form (lines_of bytes)) error.new result }
{
    let Some(piece) = next_piece(alloc, &mut bytes) else {
        return Ok(Replayed::BadLine(1));
    };
    let (line, rest) = cut_line(&piece);
    let first = read_setup(alloc, form, line, error);
    let outcome = replay_rest(alloc, form, &first, rest, bytes, error);
    drop(first);
    outcome
}
