//! A session whose text is built as its lines are passed, so that neither lines nor outputs are
//! kept.

ghost use Rattle.std.specs.Prelude.{◌≡◌, ℕ, ◌<◌, ◌∷◌, ◌++◌, List, [], length, OnOk, IfOk, IfSome};
ghost use Rattle.js_event_log_sessions.specs.declared.session.Line as lines;
ghost use Rattle.js_event_log_sessions.specs.declared.session.Session.{Session};
ghost use Rattle.js_tool_transcript.specs.declared.transcript.setup.Setup as setups;
ghost use Rattle.js_tool_event_log.specs.SessionProgress.{Begins, Ends, HasRoom, HasText, PassesLines};
ghost use Rattle.js_tool_event_log.specs.SessionTexts.{bookmark_text};

use crate::sessions::line::Said;
use crate::sessions::reader::Reader;
use js_base::OutOfMemory;
use js_event_log_sessions::{Line, SessionEnd, SessionReplay, Sessions, SessionsError};
use js_tool_transcript::{Cell, Setup, Unread, push_end, push_line, push_outputs};
use std::alloc::{AllocError, Global};

/// How far a session has come, and its text together with that of all sessions before it.
#[derive(Drop)]
pub(crate) struct SessionText<'s> {
    pub(crate) replay: SessionReplay<'s>,
    pub(crate) text: Vec<u8>,
}

/// The sessions that have ended, and their text.
#[derive(Drop)]
pub(crate) struct EndedText {
    pub(crate) sessions: Sessions,
    pub(crate) text: Vec<u8>,
}

fn push_bookmark(out: &mut Vec<u8>, committed: u64, next: u64) -> Result<(), AllocError>
    ensures { OnOk result (out.new.items ≡ out.old.items ++ bookmark_text committed next) }
{
    push_line(
        out,
        &[
            Cell::Text(b"bookmark"),
            Cell::Number(committed),
            Cell::Number(next),
        ],
    )
}

impl<'s> SessionText<'s> {
    /// Begins a session, with the text of its opening.
    pub(crate) fn begin(
        alloc: Global,
        ended: EndedText,
        setup: &'s Setup,
    ) -> Result<SessionText<'s>, SessionsError>
        ensures { Begins ended setup.now result }
    {
        let EndedText { sessions, mut text } = ended;
        let begun = sessions.begin(
            alloc,
            &setup.settings,
            &setup.setup,
            &setup.first,
            setup.start,
        );
        let replay = match begun {
            Ok(replay) => replay,
            Err(refusal) => return Err(refusal),
        };
        match push_outputs(&mut text, 0, replay.outputs()) {
            Ok(()) => Ok(SessionText { replay, text }),
            Err(AllocError) => {
                drop(replay);
                Err(SessionsError::OutOfMemory)
            }
        }
    }

    fn pass(&mut self, alloc: Global, line: &Line) -> Result<(), OutOfMemory>
        ensures { (next : ℕ) → (done : List Session) → (setup : setups.Setup) → (some : List lines.Line) → HasText next done setup some self.old
            → OnOk result (HasText next done setup (some ++ line.now ∷ []) self.new) }
    {
        match line {
            Line::Event(event) => {
                self.replay.advance(alloc, event)?;
                push_outputs(&mut self.text, self.replay.count(), self.replay.outputs())?;
                Ok(())
            }
            Line::Save => {
                self.replay.save();
                Ok(())
            }
        }
    }

    /// Passes the lines up to the next setup, which is returned, or to the end.
    pub(crate) fn pass_lines(
        &mut self,
        alloc: Global,
        reader: &mut Reader,
    ) -> Result<Option<Setup>, Unread>
        requires { HasRoom reader.old }
        ensures lines { PassesLines self.old reader.old self.new reader.new result }
        ensures room { OnOk result (HasRoom reader.new) }
        ensures shorter { IfOk result (λ following. IfSome following (λ _. length reader.new.lines.left < length reader.old.lines.left)) }
    {
        while let Some(said) = reader.next(alloc)? {
            match said {
                Said::Begins(setup) => return Ok(Some(setup)),
                Said::Says(line) => {
                    let passed = self.pass(alloc, &line);
                    drop(line);
                    match passed {
                        Ok(()) => {}
                        Err(OutOfMemory) => return Err(Unread::OutOfMemory),
                    }
                }
            }
        }
        Ok(None)
    }

    /// Ends the session, with the text of its end and of its bookmark.
    pub(crate) fn end(self) -> Result<EndedText, SessionsError>
        ensures { Ends self.entry result }
    {
        let SessionText { replay, mut text } = self;
        let count = replay.count();
        let SessionEnd {
            sessions,
            ended,
            committed,
        } = match replay.end() {
            Ok(end) => end,
            Err(refusal) => return Err(refusal),
        };
        push_end(&mut text, ended, count)?;
        push_bookmark(&mut text, committed, sessions.next())?;
        Ok(EndedText { sessions, text })
    }
}
