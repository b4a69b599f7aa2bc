//! The settings and the configuration of the consumer of a generated transcript.
ghost use Rattle.std.specs.Prelude.{◌≡◌, IfOk};
ghost use Rattle.js_tool_generate.specs.Transcript as transcript;

use crate::texts;
use js_base::{OutOfMemory, Text, both};
use js_json::consumer::Info;
use js_json::{Response, pull, response_as};
use js_json_members::ReadError;
use js_ordered_table::{OrderedSetup, ReplayInput, Settings};
use js_pull::Resilience;
use std::alloc::Global;

// All at their defaults.
fn settings(alloc: Global) -> Result<Settings, OutOfMemory>
    ensures { IfOk result (λ settings. settings ≡ transcript.settings) }
{
    let (api_prefix, inbox_prefix) = both(
        Text::from_str(alloc, "$JS.API"),
        Text::from_str(alloc, "_INBOX.t"),
    )?;
    Ok(Settings {
        api_prefix,
        inbox_prefix,
        context_timeout: None,
        request_timeout: Some(10_000_000_000),
        retries: 4_294_967_295,
        resilience: Resilience::none(),
    })
}

// What a reading fails with that fails for want of memory alone.
fn want_of_memory(_error: ReadError) -> OutOfMemory
    requires { _error ≡ ReadError.OutOfMemory }
{
    OutOfMemory
}

// What the server tells of the first consumer.
fn first_info(alloc: Global) -> Result<Info, OutOfMemory>
    ensures { IfOk result (λ info. info ≡ transcript.replay_input.first) }
{
    let text = texts::info(alloc, "gen")?;
    let answer = response_as(alloc, text.as_bytes());
    drop(text);
    match answer {
        Ok(Response::Ok(info)) => Ok(info),
        // The text is an info.
        Ok(Response::Err { .. }) => unreachable!(),
        Err(error) => Err(want_of_memory(error)),
    }
}

/// Returns the settings, the setup and the first consumer of every generated transcript: an ordered
/// pull consumer of all messages, called `gen`.
///
/// # Errors
///
/// Fails only with `OutOfMemory`.
pub fn replay_input(alloc: Global) -> Result<ReplayInput, OutOfMemory>
    ensures { IfOk result (λ input. input ≡ transcript.replay_input) }
{
    let (settings, first) = both(settings(alloc), first_info(alloc))?;
    Ok(ReplayInput {
        settings,
        setup: OrderedSetup::Pull(pull::OrderedConfig::new(alloc)),
        first,
    })
}
