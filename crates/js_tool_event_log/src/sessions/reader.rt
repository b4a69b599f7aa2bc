//! The lines of sessions, one after another, with their numbers.

ghost use Rattle.std.specs.Prelude.{◌≡◌, OnOk};
ghost use Rattle.js_tool_event_log.specs.SessionProgress.{HasRoom, ReadsNext, ReadsRest};

use crate::sessions::line::{Said, said_line};
use js_tool_io::{Lines, Pieces};
use js_tool_transcript::{Payloads, Unread};
use std::alloc::Global;

/// The lines that are left, and the number of the last line that was read.
#[derive(Drop)]
pub(crate) struct Reader {
    pub(crate) lines: Lines,
    pub(crate) number: u64,
    pub(crate) payloads: Payloads,
}

impl Reader {
    /// Reads the next line, or returns `None` if none is left. After that it always returns `None`.
    pub(crate) fn next(&mut self, alloc: Global) -> Result<Option<Said>, Unread>
        requires { HasRoom self.old }
        ensures reads { ReadsNext self.old self.new result }
        ensures room { OnOk result (HasRoom self.new) }
    {
        if !self.lines.read(alloc) {
            self.lines = Lines::new(alloc, Pieces::new(alloc));
            return Ok(None);
        }
        self.number += 1;
        let said = said_line(alloc, &mut self.payloads, self.number, self.lines.line())?;
        Ok(Some(said))
    }

    /// Reads all lines that are left, and drops their content.
    pub(crate) fn read_rest(&mut self, alloc: Global) -> Result<(), Unread>
        requires { HasRoom self.old }
        ensures { ReadsRest self.old result }
    {
        while let Some(said) = self.next(alloc)? {
            drop(said);
        }
        Ok(())
    }
}
