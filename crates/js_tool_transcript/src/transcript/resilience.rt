//! The options of an ordered reader, as the first line of extended lines has them.

ghost use Rattle.std.specs.Prelude.{◌≡◌, ◌++◌, [], None, Ok, OnOk};
ghost use Rattle.serde_json.specs.View.{view};
ghost use Rattle.js_json_members.specs.Member.{Gives};
ghost use Rattle.js_json_members.specs.declared.key.Key.{Key as SpecKey};
ghost use Rattle.js_json_members.specs.declared.key.Key.TheVariants as key;
ghost use Rattle.js_tool_transcript.specs.ExtendedName.{name_text, under as under_in};
ghost use Rattle.js_tool_transcript.specs.declared.transcript.extended_name.ExtendedName.TheVariants as names;
ghost use Rattle.js_tool_transcript.specs.ExtendedSetup.{option_of, option_text, resilience as resilience_in, resilience_fields as fields_of, resilience_of, resilience_text};

use super::extended_name::{ExtendedName, has_only_with, under};
use crate::text::push_plain;
use js_base::all_4;
use js_json_members::{Key, ReadError};
use js_pull::Resilience;
use serde_json::Value;
use std::alloc::{AllocError, Global};

// ---- reading

// An option, which is off where it is absent.
#[tactic(auto, unfolding(crate::specs::ExtendedSetup::option_of))]
fn option(alloc: Global, object: &Value, name: ExtendedName) -> Result<bool, ReadError>
    ensures { Gives result (option_of name (view object.now)) }
{
    let on: Option<bool> = under(alloc, object, name, Key::Settings)?;
    Ok(on.unwrap_or(false))
}

#[tactic(auto, unfolding(crate::specs::ExtendedSetup::resilience_fields))]
fn resilience_fields(alloc: Global, object: &Value) -> Result<Resilience, ReadError>
    ensures { Gives result (fields_of (view object.now)) }
{
    let (stalled, first, gone, missing) = all_4(
        option(alloc, object, ExtendedName::AnswersStalled),
        option(alloc, object, ExtendedName::AsksAtFirstHeartbeat),
        option(alloc, object, ExtendedName::RecreatesWhenGone),
        option(alloc, object, ExtendedName::TellsMissingStream),
    )?;
    Ok(Resilience {
        answers_stalled: stalled,
        asks_at_first_heartbeat: first,
        recreates_when_gone: gone,
        tells_missing_stream: missing,
    })
}

#[tactic(auto, unfolding(crate::specs::ExtendedSetup::resilience))]
fn resilience(alloc: Global, key: Key, value: &Value) -> Result<Resilience, ReadError>
    ensures { Gives result (resilience_in key (view value.now)) }
{
    let options = [
        ExtendedName::AnswersStalled,
        ExtendedName::AsksAtFirstHeartbeat,
        ExtendedName::RecreatesWhenGone,
        ExtendedName::TellsMissingStream,
    ];
    if has_only_with(value, &[], &options) {
        resilience_fields(alloc, value)
    } else {
        Err(ReadError::WrongKind { key })
    }
}

/// Reads the options on the first line, if they are there.
#[tactic(auto, unfolding(crate::specs::ExtendedName::under))]
pub(crate) fn resilience_member(
    alloc: Global,
    object: &Value,
) -> Result<Option<Resilience>, ReadError>
    ensures { Gives result (under_in (name_text names.Resilience) key.Settings resilience_in (view object.now)) }
{
    match object.get(ExtendedName::Resilience.text()) {
        None | Some(Value::Null) => Ok(None),
        Some(value) => Ok(Some(resilience(alloc, Key::Settings, value)?)),
    }
}

// ---- writing

fn push_option(out: &mut Vec<u8>, name: &[u8], on: bool) -> Result<(), AllocError>
    ensures { OnOk result (out.new.items ≡ out.old.items ++ (name.now ++ option_text on)) }
{
    push_plain(out, name)?;
    push_plain(out, if on { b"true" } else { b"false" })
}

fn push_options(out: &mut Vec<u8>, resilience: Resilience) -> Result<(), AllocError>
    ensures { OnOk result (out.new.items ≡ out.old.items ++ resilience_text resilience) }
{
    push_option(out, b"{\"answers_stalled\":", resilience.answers_stalled)?;
    push_option(
        out,
        b",\"asks_at_first_heartbeat\":",
        resilience.asks_at_first_heartbeat,
    )?;
    push_option(
        out,
        b",\"recreates_when_gone\":",
        resilience.recreates_when_gone,
    )?;
    push_option(
        out,
        b",\"tells_missing_stream\":",
        resilience.tells_missing_stream,
    )?;
    push_plain(out, b"}")?;
    Ok(())
}

/// Adds the options to `out` as a JSON object on one line: the value of the member `resilience` of
/// the first line of extended lines. It reads back as the options, by
/// [`first_line_in`](crate::first_line_in) with [`Lines::Extended`](crate::Lines::Extended).
///
/// # Errors
///
/// Fails with `AllocError` if memory runs out. A part of the object may have been added then.
pub fn push_resilience(out: &mut Vec<u8>, resilience: Resilience) -> Result<(), AllocError>
    ensures text { OnOk result (out.new.items ≡ out.old.items ++ resilience_text resilience) }
    ensures reads { (k : SpecKey) → resilience_of k (resilience_text resilience) ≡ Ok resilience }
{
    push_options(out, resilience)
}
