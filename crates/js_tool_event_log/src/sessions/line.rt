//! The content of a line of sessions.

ghost use Rattle.std.specs.Prelude.{◌≡◌, codes, is_some};
ghost use Rattle.serde_json.specs.Find.{get};
ghost use Rattle.serde_json.specs.View.{view, members_view};
ghost use Rattle.js_json_members.specs.Member.{Gives};
ghost use Rattle.js_tool_transcript.specs.Transcript.{GivesLines, numbered};
ghost use Rattle.js_tool_event_log.specs.SessionLine.{has_no_other as has_no_other_in, is_save as is_save_in, members_named, said as said_in, session_line};

use js_event_log_sessions::Line;
use js_json_members::{ReadError, value_of};
use js_tool_transcript::{Payloads, Setup, Unread, compact_event, event_of, setup_of};
use serde_json::{Map, Value};
use std::alloc::Global;

/// The content of a line of sessions.
#[derive(Drop)]
pub(crate) enum Said {
    /// A session begins.
    Begins(Setup),
    /// Something that happens in a session.
    Says(Line),
}

fn are_named(members: &Map<String, Value>, name: &str) -> bool
    ensures { result ≡ members_named name.now (members_view members.now.entries) }
{
    for (found, _) in members.iter() {
        if found.as_str() != name {
            return false;
        }
    }
    true
}

fn has_no_other(value: &Value, name: &str) -> bool
    ensures { result ≡ has_no_other_in name.now (view value.now) }
{
    match value {
        Value::Object(members) => are_named(members, name),
        _ => false,
    }
}

fn is_save(value: &Value) -> bool
    ensures { result ≡ is_save_in (view value.now) }
{
    let save = value.get("save").and_then(Value::as_bool);
    save.unwrap_or(false) && has_no_other(value, "save")
}

fn has_mode(value: &Value) -> bool
    ensures { result ≡ is_some (get (codes "mode") (view value.now)) }
{
    value.get("mode").is_some()
}

// What the value of a line says.
fn said_of(alloc: Global, payloads: &mut Payloads, value: &Value) -> Result<Said, ReadError>
    ensures { Gives result (said_in (view value.now)) }
{
    if has_mode(value) {
        let setup = setup_of(alloc, value)?;
        return Ok(Said::Begins(setup));
    }
    if is_save(value) {
        return Ok(Said::Says(Line::Save));
    }
    let event = event_of(alloc, payloads, value)?;
    Ok(Said::Says(Line::Event(event)))
}

// What a line says that is not in its shortest form.
fn other_line(alloc: Global, payloads: &mut Payloads, line: &[u8]) -> Result<Said, ReadError>
    ensures { Gives result (session_line line.now) }
{
    let value = value_of(alloc, line)?;
    let said = said_of(alloc, payloads, &value);
    drop(value);
    said
}

fn any_line(alloc: Global, payloads: &mut Payloads, line: &[u8]) -> Result<Said, ReadError>
    ensures { Gives result (session_line line.now) }
{
    match compact_event(alloc, payloads, line)? {
        Some(event) => Ok(Said::Says(Line::Event(event))),
        None => other_line(alloc, payloads, line),
    }
}

/// Reads a further line, which has this number.
pub(crate) fn said_line(
    alloc: Global,
    payloads: &mut Payloads,
    number: u64,
    line: &[u8],
) -> Result<Said, Unread>
    ensures { GivesLines (λ said. said) result (numbered number (session_line line.now)) }
{
    match any_line(alloc, payloads, line) {
        Ok(said) => Ok(said),
        Err(ReadError::OutOfMemory) => Err(Unread::OutOfMemory),
        Err(_) => Err(Unread::BadLine(number)),
    }
}
