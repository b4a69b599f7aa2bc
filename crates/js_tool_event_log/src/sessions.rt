//! The command `sessions`: reads the lines of sessions one after another, replays them, and builds
//! their text.

ghost use Rattle.std.specs.Prelude.{◌≡◌, ◌≤◌, length};
ghost use Rattle.js_tool_event_log.specs.SessionInput.{sessions as sessions_in};
ghost use Rattle.js_tool_event_log.specs.Sessions.{as_report as as_report_in, report_of, Joins};
ghost use Rattle.js_tool_event_log.specs.Report.{Reports};

mod line;
mod reader;
mod refusal;
mod report;
mod session;

use crate::report::Report;
use js_tool_io::Pieces;
use js_tool_transcript::Unread;
use report::{SessionsReport, sessions_report};
use std::alloc::Global;

fn as_report(made: SessionsReport) -> Report
    ensures { result ≡ as_report_in made }
{
    match made {
        SessionsReport::Done(text) => Report::Done(text),
        SessionsReport::Refused(line) => Report::Refused(line),
    }
}

/// Returns the report of the sessions in the bytes, starting at a bookmark.
pub(crate) fn report_on_sessions(alloc: Global, next: u64, bytes: Pieces) -> Result<Report, Unread>
    requires { length bytes ≤ 67_108_864 }
    ensures { Reports (report_of next) (Joins next) (sessions_in bytes) result }
{
    match sessions_report(alloc, next, bytes) {
        Ok(made) => Ok(as_report(made)),
        Err(unread) => Err(unread),
    }
}
