//! Each call of the table of a run.

use crate::mirrors::calls::fill;
use crate::mirrors::round::replayed;
use crate::tables::same;
use js_base::OutOfMemory;
use js_event_log::{Mirror, Projection, RunProjection, project, worked_tables};
use js_ordered::{Event, Run};
use std::alloc::Global;
use std::process::Abort;
use std::test::Fail;

// The arrivals of entries 4, 5 and 9.
fn events(alloc: Global) -> Result<Vec<Event>, Fail> {
    let mut mirror = Mirror::new(alloc, 3);
    fill(alloc, &mut mirror)?;
    Ok(mirror.relay(alloc, "events", "gen")?)
}

// The run that hands out entries 4, 5 and 9.
fn relayed(alloc: Global) -> Result<Run, Fail> {
    let events = events(alloc)?;
    let run = replayed(alloc, 3, &events);
    drop(events);
    Ok(run?)
}

// The same table, as the outputs come.
fn advanced(alloc: Global, run: &Run) -> Result<Projection, Fail> {
    let mut table = RunProjection::new(alloc);
    advance(&mut table, run)?;
    Ok(table.end()?)
}

fn advance(table: &mut RunProjection, run: &Run) -> Result<(), Fail> {
    for step in run.steps.as_slice() {
        table.advance(step.outputs.as_slice())?;
    }
    Ok(())
}

// What is told of a table.
fn owned_table_text(alloc: Global, table: Projection) -> Result<String, OutOfMemory> {
    let text = table_text(alloc, &table);
    drop(table);
    text
}

fn table_text(alloc: Global, table: &Projection) -> Result<String, OutOfMemory> {
    let rows = table.matching(">")?.len();
    let mut text = format!(in alloc; "table up to {}: {rows} rows\n", table.last())?;
    if let Some(entry) = table.get("key.4") {
        writeln!(text, "key.4 has {:?}", entry.payload)?;
    }
    Ok(text)
}

/// What is told of the run's table. Sequences 4 and 9 have one subject.
const TABLE: &str = "table up to 9: 2 rows\nkey.4 has b\"9\"\n";

fn says_table(rt: &impl Abort, row: &str, told: Result<String, OutOfMemory>) -> Result<(), Fail> {
    let told = told?;
    same(rt, row, told.as_str(), TABLE);
    Ok(())
}

fn says_both(rt: &impl Abort, alloc: Global, run: &Run) -> Result<(), Fail> {
    says_table(rt, "at once", owned_table_text(alloc, project(alloc, run)?))?;
    says_table(
        rt,
        "as they come",
        owned_table_text(alloc, advanced(alloc, run)?),
    )
}

#[test]
fn a_table_is_made_at_once_or_as_outputs_come(rt: HostRuntime) -> Result<(), Fail> {
    worked_tables();
    let run = relayed(rt.alloc())?;
    let said = says_both(&rt, rt.alloc(), &run);
    drop(run);
    said
}
