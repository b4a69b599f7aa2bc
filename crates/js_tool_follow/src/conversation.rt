//! The replay of a transcript in conversation with a peer.

ghost use Rattle.std.specs.Prelude.{◌≡◌, ◌++◌, ◌∷◌, [], ℕ, List, Option, Some, None, IfSome, Ok, IfOk, IfErr, IsErrOf, true};
ghost use Rattle.js_tool_io.specs.Causes.{Rose};
ghost use Rattle.js_ordered.specs.IncrementalReplay.{HasCome};
ghost use Rattle.js_tool.specs.Command.{plain};
ghost use Rattle.js_tool.specs.declared.command.FollowOptions as options;
ghost use Rattle.js_tool.specs.Program.{IsUnlessFailed};
ghost use Rattle.js_tool_transcript.specs.TranscriptReplay.{replay_input};
ghost use Rattle.js_tool_transcript.specs.Setup.{setup_line};
ghost use Rattle.js_tool_transcript.specs.Transcript.{GivesLines, numbered};
ghost use Rattle.js_tool_transcript.specs.declared.transcript.setup.Setup as setups;
ghost use Rattle.js_tool_io.specs.Lines.{lines_of};
ghost use Rattle.js_tool_follow.specs.Answer.{HasPassedOne, IsTold};
ghost use Rattle.js_tool_follow.specs.Conversation.{AnswersLines, HasBegun, HasEnded, HasGone, IsAt, IsCut, IsOver, IsReadStop, IsValidInput, Replies, Stands, StandsOr, TakesTurn, WritesRun, all_lines};
ghost use Rattle.js_tool_follow.specs.IncomingLines.{IsNext, lines_left};
ghost use Rattle.js_tool_follow.specs.Punctuality.{TurnsSoFar, HearsNext, Holds, IsPunctual};
ghost use Rattle.js_tool_follow.specs.Standing.{answered};
ghost use Rattle.js_tool_follow.specs.Peer.{Dialogue, HasRead, HasWritten};

use crate::answer::{Answer, Listener};
use crate::incoming_lines::{Incoming, IncomingLines};
use crate::output::write_flushed;
use crate::peer::Peer;
use js_tool::{FollowOptions, Status};
use js_tool_io::{Failed, Stop};
use js_tool_transcript::{Setup, Unread, first_line};
use std::alloc::{AllocError, Global};

// Writes an answer. The status where it is the last, or was not written.
fn write_answer<P: Peer>(answer: &Answer, peer: &mut P) -> Option<Status>
    ensures replies { Replies (P.view peer.old) (P.view peer.new) answer.now.text.items answer.now.ending result }
    ensures said { (asked : options.FollowOptions) → (lines : List (List ℕ)) → (held before : List ℕ) → Holds (P.view peer.old).turns (TurnsSoFar asked lines held before before)
        → result ≡ None → Holds (P.view peer.new).turns (TurnsSoFar asked lines held (before ++ answer.now.text.items) (before ++ answer.now.text.items)) }
    ensures punctual { (asked : options.FollowOptions) → Holds (P.view peer.old).turns (IsPunctual asked) → Holds (P.view peer.new).turns (IsPunctual asked) }
    ensures writes { HasWritten (P.view peer.old) (P.view peer.new) }
{
    match write_flushed(peer, &answer.text) {
        Ok(()) => answer.ending,
        Err(Failed) => Some(Status::WriteFault),
    }
}

// Answers the opening.
fn answer_opening<P: Peer>(alloc: Global, listener: &Listener<'_>, peer: &mut P) -> Option<Status>
    ensures greeted { (asked : options.FollowOptions) → (from : Dialogue) → (setup : setups.Setup) → (line : List ℕ) → (left : Option (List (List ℕ)))
        → listener.now.options ≡ asked → HasCome (replay_input setup) setup.start [] listener.now.replay.value → numbered 1 (setup_line line) ≡ Ok setup
        → HasGone from (P.view peer.old) → (P.view peer.old).taken ≡ from.taken → IsCut (all_lines from) (line ∷ []) left
        → StandsOr asked from (P.view peer.new) (line ∷ []) left listener.now result }
    ensures said { (asked : options.FollowOptions) → (setup : setups.Setup) → (line held : List ℕ)
        → listener.now.options ≡ asked → HasCome (replay_input setup) setup.start [] listener.now.replay.value → numbered 1 (setup_line line) ≡ Ok setup
        → Holds (P.view peer.old).turns (TurnsSoFar asked (line ∷ []) held [] []) → result ≡ None
        → Holds (P.view peer.new).turns (TurnsSoFar asked (line ∷ []) held (answered asked (line ∷ [])) (answered asked (line ∷ []))) }
    ensures punctual { (asked : options.FollowOptions) → Holds (P.view peer.old).turns (IsPunctual asked) → Holds (P.view peer.new).turns (IsPunctual asked) }
    ensures writes { HasWritten (P.view peer.old) (P.view peer.new) }
{
    match listener.answer(alloc, &[]) {
        Ok(answer) => write_answer(&answer, peer),
        Err(AllocError) => Some(Status::OutOfMemory),
    }
}

// Tells a line, and answers it.
fn answer_line<P: Peer>(
    alloc: Global,
    listener: &mut Listener<'_>,
    line: &[u8],
    peer: &mut P,
) -> Option<Status>
    ensures told { (asked : options.FollowOptions) → (from : Dialogue) → (lines : List (List ℕ)) → (before left : Option (List (List ℕ)))
        → Stands asked from (P.view peer.old) lines before listener.old → IsCut (all_lines from) (lines ++ line.now ∷ []) left
        → StandsOr asked from (P.view peer.new) (lines ++ line.now ∷ []) left listener.new result }
    ensures said { (asked : options.FollowOptions) → (lines : List (List ℕ)) → (held : List ℕ) → IsTold asked lines listener.old
        → Holds (P.view peer.old).turns (TurnsSoFar asked (lines ++ line.now ∷ []) held (answered asked lines) (answered asked lines)) → result ≡ None
        → Holds (P.view peer.new).turns (TurnsSoFar asked (lines ++ line.now ∷ []) held (answered asked (lines ++ line.now ∷ [])) (answered asked (lines ++ line.now ∷ []))) }
    ensures counted { result ≡ None → HasPassedOne listener.old listener.new }
    ensures punctual { (asked : options.FollowOptions) → Holds (P.view peer.old).turns (IsPunctual asked) → Holds (P.view peer.new).turns (IsPunctual asked) }
    ensures writes { HasWritten (P.view peer.old) (P.view peer.new) }
{
    match listener.hear(alloc, line) {
        Ok(answer) => write_answer(&answer, peer),
        Err(AllocError) => Some(Status::OutOfMemory),
    }
}

// Writes the last line.
fn answer_end<P: Peer>(alloc: Global, listener: &Listener<'_>, peer: &mut P) -> Status
    ensures ended { (asked : options.FollowOptions) → (from : Dialogue) → (lines : List (List ℕ)) → (left : Option (List (List ℕ)))
        → Stands asked from (P.view peer.old) lines left listener.now → IsCut (all_lines from) lines (Some [])
        → HasEnded asked from (P.view peer.new) result }
    ensures punctual { (asked : options.FollowOptions) → Holds (P.view peer.old).turns (IsPunctual asked) → Holds (P.view peer.new).turns (IsPunctual asked) }
{
    match listener.end(alloc) {
        Ok(answer) => match write_answer(&answer, peer) {
            Some(status) => status,
            // With that answer it is over.
            None => unreachable!(),
        },
        Err(AllocError) => Status::OutOfMemory,
    }
}

// Reads the next line, if there is one.
fn next<P: Peer>(alloc: Global, lines: &mut IncomingLines, peer: &mut P) -> Result<Incoming, Status>
    ensures line { IfOk result (λ next. IsNext next (lines_left lines.old.left (P.view peer.old).left) lines.new.line (lines_left lines.new.left (P.view peer.new).left)) }
    ensures heard { (asked : options.FollowOptions) → (told : List (List ℕ)) → Holds (P.view peer.old).turns (TurnsSoFar asked told lines.old.left (answered asked told) (answered asked told))
        → HearsNext asked told result lines.new.line lines.new.left (P.view peer.new).turns }
    ensures fault { IsErrOf result Status.ReadFault → Rose (P.view peer.old).read_faults (P.view peer.new).read_faults }
    ensures stops { IfErr result IsReadStop }
    ensures reads { HasRead (P.view peer.old) (P.view peer.new) }
{
    match lines.read(alloc, peer) {
        Ok(next) => Ok(next),
        Err(Stop::Fault) => Err(Status::ReadFault),
        Err(Stop::OutOfMemory) => Err(Status::OutOfMemory),
        // Lines that come one by one have no most.
        Err(Stop::TooLong) => unreachable!(),
    }
}

// Tells the last line, and writes what stands at the end.
fn answer_last<P: Peer>(
    alloc: Global,
    listener: &mut Listener<'_>,
    line: &[u8],
    peer: &mut P,
) -> Status
    ensures ended { (asked : options.FollowOptions) → (from : Dialogue) → (told : List (List ℕ)) → (before : Option (List (List ℕ)))
        → Stands asked from (P.view peer.old) told before listener.old → IsCut (all_lines from) (told ++ line.now ∷ []) (Some [])
        → HasEnded asked from (P.view peer.new) result }
    ensures punctual { (asked : options.FollowOptions) → Holds (P.view peer.old).turns (IsPunctual asked) → Holds (P.view peer.new).turns (IsPunctual asked) }
{
    match answer_line(alloc, listener, line, peer) {
        Some(status) => status,
        None => answer_end(alloc, listener, peer),
    }
}

// Hears the next line and answers it. The status where that ends the conversation.
fn take_turn<P: Peer>(
    alloc: Global,
    listener: &mut Listener<'_>,
    lines: &mut IncomingLines,
    peer: &mut P,
) -> Option<Status>
    ensures turn { (asked : options.FollowOptions) → (from : Dialogue) → (told : List (List ℕ)) → IsAt asked from (P.view peer.old) told lines.old.left listener.old
        → TakesTurn asked from (P.view peer.new) told lines.new.left listener.new result }
    ensures counted { result ≡ None → HasPassedOne listener.old listener.new }
{
    let next = match next(alloc, lines, peer) {
        Ok(next) => next,
        Err(status) => return Some(status),
    };
    match next {
        Incoming::Line => answer_line(alloc, listener, lines.line(), peer),
        Incoming::Last => Some(answer_last(alloc, listener, lines.line(), peer)),
        Incoming::End => Some(answer_end(alloc, listener, peer)),
    }
}

// Hears the lines behind a setup. It ends, since a line whose number would go past a `u64` is refused for want of memory.
fn listen<P: Peer>(
    alloc: Global,
    listener: &mut Listener<'_>,
    lines: &mut IncomingLines,
    peer: &mut P,
) -> Status
    ensures { (asked : options.FollowOptions) → (from : Dialogue) → (told : List (List ℕ)) → IsAt asked from (P.view peer.old) told lines.old.left listener.old
        → IsOver asked from (P.view peer.new) result }
{
    'turns: loop {
        if let Some(status) = take_turn(alloc, listener, lines, peer) {
            return status;
        }
    }
}

// Opens the replay of a setup, behind whose line more may come, and answers it.
fn open<P: Peer>(
    alloc: Global,
    setup: &Setup,
    options: FollowOptions,
    more: bool,
    lines: &mut IncomingLines,
    peer: &mut P,
) -> Status
    ensures { (from : Dialogue) → (line : List ℕ) → numbered 1 (setup_line line) ≡ Ok setup.now
        → HasBegun options from (P.view peer.old) more line lines.old.left → IsOver options from (P.view peer.new) result }
{
    let mut listener = match Listener::open(alloc, setup, options) {
        Ok(listener) => listener,
        Err(AllocError) => return Status::OutOfMemory,
    };
    match answer_opening(alloc, &listener, peer) {
        Some(status) => {
            drop(listener);
            status
        }
        None => {
            if more {
                let status = listen(alloc, &mut listener, lines, peer);
                drop(listener);
                status
            } else {
                let status = answer_end(alloc, &listener, peer);
                drop(listener);
                status
            }
        }
    }
}

// Goes on behind the first line, by what that line says.
fn begin_with<P: Peer>(
    alloc: Global,
    first: &Result<Setup, Unread>,
    options: FollowOptions,
    more: bool,
    lines: &mut IncomingLines,
    peer: &mut P,
) -> Status
    ensures { (from : Dialogue) → (line : List ℕ) → GivesLines (λ s. s) first.now (numbered 1 (setup_line line))
        → HasBegun options from (P.view peer.old) more line lines.old.left → IsOver options from (P.view peer.new) result }
{
    match first {
        Ok(setup) => open(alloc, setup, options, more, lines, peer),
        Err(Unread::BadLine(line)) => Status::BadLine { line: *line },
        Err(Unread::OutOfMemory) => Status::OutOfMemory,
    }
}

// Hears the first line, which was read, and those behind it.
fn begin<P: Peer>(
    alloc: Global,
    options: FollowOptions,
    more: bool,
    lines: &mut IncomingLines,
    peer: &mut P,
) -> Status
    ensures { (from : Dialogue) → HasBegun options from (P.view peer.old) more lines.old.line lines.old.left → IsOver options from (P.view peer.new) result }
{
    let first = first_line(alloc, lines.line());
    let status = begin_with(alloc, &first, options, more, lines, peer);
    drop(first);
    status
}

// Hears all lines.
fn hear_all<P: Peer>(
    alloc: Global,
    options: FollowOptions,
    lines: &mut IncomingLines,
    peer: &mut P,
) -> Status
    requires { lines.old.left ≡ [] }
    ensures { IsOver options (P.view peer.old) (P.view peer.new) result }
{
    let first = match next(alloc, lines, peer) {
        Ok(first) => first,
        Err(status) => return status,
    };
    match first {
        Incoming::Line => begin(alloc, options, true, lines, peer),
        Incoming::Last => begin(alloc, options, false, lines, peer),
        Incoming::End => Status::BadLine { line: 1 },
    }
}

/// Replays a transcript of any length in conversation with a peer. Before it reads more, it answers
/// all whole lines and flushes the answers. It holds one line, the bytes read after it, and neither
/// earlier events nor earlier texts.
///
/// The answer to a line is what `replay` writes for its step. When the lines end, the last line of
/// `replay` follows. The conversation ends at the first line that cannot be read, and at the first
/// event at which the replay fails; that answer is the line of the error. If memory runs out or the
/// peer fails, exactly the answers to the earlier lines were written. A line whose number would
/// exceed a `u64` counts as running out of memory.
pub fn converse<P: Peer>(alloc: Global, peer: &mut P) -> Status
    // What the lines call for is answered, with all its text, unless memory ran out or a count of faults rose; then the text is that
    // of some first lines.
    ensures lines { IfSome (P.view peer.old).left (λ bytes. AnswersLines plain (lines_of bytes) (P.view peer.old).taken (P.view peer.new).taken result) }
    // The text of the whole run was written, which leaves no gap where the server was honest.
    ensures done { result ≡ Status.Done → IfSome (P.view peer.old).left (λ bytes. WritesRun plain bytes (P.view peer.old).taken (P.view peer.new).taken) }
    ensures valid { IfSome (P.view peer.old).left (λ bytes. IsValidInput bytes → IsUnlessFailed result Status.Done) }
    ensures read_fault { result ≡ Status.ReadFault → Rose (P.view peer.old).read_faults (P.view peer.new).read_faults }
    ensures write_fault { result ≡ Status.WriteFault → Rose (P.view peer.old).write_faults (P.view peer.new).write_faults }
    // All was answered before more was read.
    ensures punctual { (P.view peer.old).turns ≡ Some [] → Holds (P.view peer.new).turns (IsPunctual plain) }
    // The ends that it was lent are still those.
    ensures place { (P.view peer.new).place ≡ (P.view peer.old).place }
{
    let options = FollowOptions {
        details: false,
        wakes: false,
    };
    converse_with(alloc, options, peer)
}

/// Does what [`converse`] does, and writes more where the options ask for it: behind the text of
/// each step the details of the messages that it hands out, and then when the consumer wakes.
pub fn converse_with<P: Peer>(alloc: Global, options: FollowOptions, peer: &mut P) -> Status
    // What the lines call for is answered, with all its text, unless memory ran out or a count of faults rose; then the text is that
    // of some first lines.
    ensures lines { IfSome (P.view peer.old).left (λ bytes. AnswersLines options (lines_of bytes) (P.view peer.old).taken (P.view peer.new).taken result) }
    // All answers were written; without options they are the text of the whole run, which leaves no gap where the server was honest.
    ensures done { result ≡ Status.Done → IfSome (P.view peer.old).left (λ bytes. WritesRun options bytes (P.view peer.old).taken (P.view peer.new).taken) }
    ensures valid { IfSome (P.view peer.old).left (λ bytes. IsValidInput bytes → IsUnlessFailed result Status.Done) }
    ensures read_fault { result ≡ Status.ReadFault → Rose (P.view peer.old).read_faults (P.view peer.new).read_faults }
    ensures write_fault { result ≡ Status.WriteFault → Rose (P.view peer.old).write_faults (P.view peer.new).write_faults }
    // All was answered before more was read.
    ensures punctual { (P.view peer.old).turns ≡ Some [] → Holds (P.view peer.new).turns (IsPunctual options) }
    // The ends that it was lent are still those.
    ensures place { (P.view peer.new).place ≡ (P.view peer.old).place }
{
    let mut lines = match IncomingLines::new(alloc) {
        Ok(lines) => lines,
        Err(AllocError) => return Status::OutOfMemory,
    };
    hear_all(alloc, options, &mut lines, peer)
}
