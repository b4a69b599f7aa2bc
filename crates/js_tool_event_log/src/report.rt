//! The result of a command over a log.

ghost use Rattle.std.specs.Prelude.{◌≡◌, ◌≤◌, ◌<◌, length, IfOk};
ghost use Rattle.js_tool_transcript.specs.Transcript.{transcript};
ghost use Rattle.js_tool.specs.LogCommand.{HasNames, wanted};
ghost use Rattle.js_tool_event_log.specs.LogTexts.{no_start_text, not_rising_text};
ghost use Rattle.js_ordered_table.specs.Texts.{configured_start};
ghost use Rattle.js_tool_event_log.specs.Report.{Reports, log_report as log_report_in, report_from, report_of};
ghost use Rattle.js_tool_event_log.specs.Relay.{Serves, ServesFrom, ServesOf};
ghost use Rattle.js_tool_event_log.specs.declared.report.Report.TheVariants.{Done, Refused};

use crate::mirror::mirror;
use crate::project::project;
use crate::relay::relay;
use crate::replay_entries::{Ending, read_yields};
use js_base::{Entry, Items, OutOfMemory};
use js_ordered::OrderedSetup;
use js_tool::LogCommand;
use js_tool_io::{Pieces, cut_line, next_piece};
use js_tool_transcript::{Cell, Unread, first_line, push_line, refusal_line};
use std::alloc::{AllocError, Global};

/// The result for a transcript.
#[derive(Drop)]
pub(crate) enum Report {
    /// This text.
    Done(Items<u8>),
    /// The replay or the command failed, and this line says why.
    Refused(Items<u8>),
}

/// Returns a report with this text.
pub(crate) fn done(text: Vec<u8>) -> Report
    ensures { result ≡ Done text.items }
{
    Report::Done(Items::from(text))
}

/// Returns a report with the line of an error.
pub(crate) fn refused(line: Vec<u8>) -> Report
    ensures { result ≡ Refused line.items }
{
    Report::Refused(Items::from(line))
}

/// Returns the report of an error: a sequence is not above `last`, which came before it.
pub(crate) fn not_rising(alloc: Global, last: u64) -> Result<Report, OutOfMemory>
    ensures { IfOk result (λ r. r ≡ Refused (not_rising_text last)) }
{
    let line = not_rising_line(alloc, last)?;
    Ok(refused(line))
}

fn not_rising_line(alloc: Global, last: u64) -> Result<Vec<u8>, AllocError>
    ensures { IfOk result (λ line. line.items ≡ not_rising_text last) }
{
    let mut out = Vec::new(alloc);
    push_line(
        &mut out,
        &[
            Cell::Text(b"refused"),
            Cell::Text(b"NotRising"),
            Cell::Number(last),
        ],
    )?;
    Ok(out)
}

// The refusal of a setup that has no configured start.
fn no_start(alloc: Global) -> Result<Report, OutOfMemory>
    ensures { IfOk result (λ r. r ≡ Refused no_start_text) }
{
    let line = no_start_line(alloc)?;
    Ok(refused(line))
}

fn no_start_line(alloc: Global) -> Result<Vec<u8>, AllocError>
    ensures { IfOk result (λ line. line.items ≡ no_start_text) }
{
    let mut out = Vec::new(alloc);
    push_line(&mut out, &[Cell::Text(b"refused"), Cell::Text(b"NoStart")])?;
    Ok(out)
}

#[tactic(auto, using(std::proofs::lemmas::Grind::common_steps, crate::proofs::FilledMirrors::all_ok))]
fn log_report(
    alloc: Global,
    command: LogCommand<'_>,
    setup: &OrderedSetup,
    start: u64,
    entries: Items<Entry>,
) -> Result<Report, OutOfMemory>
    requires above { 0 < start }
    requires names { HasNames (wanted command) }
    ensures report { IfOk result (λ r. r ≡ log_report_in (wanted command.entry) setup.now start entries) }
    ensures serves { IfOk result (λ r. Serves (wanted command.entry) setup.now start entries r) }
{
    match command {
        LogCommand::Project { filter, sequence } => project(alloc, filter, sequence, entries),
        LogCommand::Mirror => mirror(alloc, start, entries),
        LogCommand::Relay { stream, name } => relay(alloc, stream, name, setup, start, entries),
    }
}

#[tactic(auto, using(std::proofs::lemmas::Grind::common_steps, crate::proofs::FilledMirrors::serves_none, crate::proofs::FilledMirrors::serves_refused, crate::proofs::FilledMirrors::serves_yields))]
fn report_ending(
    alloc: Global,
    command: LogCommand<'_>,
    setup: &OrderedSetup,
    ending: Ending,
) -> Result<Report, OutOfMemory>
    requires { HasNames (wanted command) }
    ensures report { IfOk result (λ r. r ≡ report_from (wanted command.entry) setup.now (configured_start setup.now) ending) }
    ensures serves { IfOk result (λ r. ServesFrom (wanted command.entry) setup.now (configured_start setup.now) ending r) }
{
    let Some(start) = setup.configured_start() else {
        return no_start(alloc);
    };
    match ending {
        Ending::Yields(entries) => log_report(alloc, command, setup, start, entries),
        Ending::Refused(refusal) => {
            let line = refusal_line(alloc, refusal)?;
            Ok(refused(line))
        }
    }
}

/// Returns the report of a command on the bytes, which are freed as they are read.
#[tactic(auto, using(crate::proofs::YieldsPassed::no_bytes))]
pub(crate) fn report_on(
    alloc: Global,
    command: LogCommand<'_>,
    mut bytes: Pieces,
) -> Result<Report, Unread>
    requires within { length bytes ≤ 67_108_864 }
    requires names { HasNames (wanted command) }
    ensures { Reports (report_of (wanted command.entry)) (ServesOf (wanted command.entry)) (transcript bytes) result }
{
    let Some(piece) = next_piece(alloc, &mut bytes) else {
        return Err(Unread::BadLine(1));
    };
    let (line, rest) = cut_line(&piece);
    let setup = match first_line(alloc, line) {
        Ok(setup) => setup,
        Err(unread) => {
            drop(bytes);
            return Err(unread);
        }
    };
    let yields_read = read_yields(alloc, &setup, rest, bytes);
    let ending = match yields_read {
        Ok(ending) => ending,
        Err(unread) => {
            drop(setup);
            return Err(unread);
        }
    };
    let report = report_ending(alloc, command, &setup.setup, ending);
    drop(setup);
    match report {
        Ok(report) => Ok(report),
        Err(OutOfMemory) => Err(Unread::OutOfMemory),
    }
}
