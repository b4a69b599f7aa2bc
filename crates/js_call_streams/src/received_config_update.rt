//! The call that updates a stream and keeps what `Config` does not name.
ghost use Rattle.std.specs.Prelude.{◌≡◌, false, IfOk};
ghost use Rattle.serde_json.specs.View.{view};
ghost use Rattle.serde_json.specs.Written.{has_float, compact_text};
ghost use Rattle.js_call_streams.specs.Overlay.{is_same, over as over_in};
ghost use Rattle.js_call_streams.specs.ReceivedConfigUpdate.{IsWrittenOf, SentBy, KeepsIn, SendsKept, AsksKeeping, UpdatesKeeping, SendsBack};

use crate::create::config_body;
use crate::handle::StreamHandle;
use crate::overlay::{is_same, over};
use crate::received_config::ReceivedConfig;
use crate::request_body::written;
use crate::update::{UpdateStream, updating_row};
use bytes::Bytes;
use js_base::{OutOfMemory, both};
use js_call::{ApiScope, Call, RawCall};
use js_json_members::ToValue;
use js_json_stream_bodies::stream::{Config, Info};
use serde_json::Value;
use std::alloc::Global;

// The text of what is sent.
fn text_body(alloc: Global, sent: &Value) -> Result<Bytes, OutOfMemory>
    requires { has_float (view sent.now) ≡ false }
    ensures { IfOk result (λ body. body ≡ compact_text (view sent.now)) }
{
    Ok(Bytes::from_string(sent.to_string(alloc)?)?)
}

#[tactic(auto, using(crate::proofs::NoFloat::over_plain))]
fn body_over(
    alloc: Global,
    kept: &Value,
    before: &Value,
    after: &Value,
) -> Result<Bytes, OutOfMemory>
    requires plain_kept { has_float (view kept.now) ≡ false }
    requires plain_after { has_float (view after.now) ≡ false }
    ensures { IfOk result (λ body. body ≡ compact_text (over_in (view kept.now) (view before.now) (view after.now))) }
{
    let sent = over(alloc, kept, before, after)?;
    let body = text_body(alloc, &sent);
    drop(sent);
    body
}

// What is written now, over what was kept.
#[tactic(auto, using(crate::proofs::KeptAsRead::sent_over))]
fn written_body(
    alloc: Global,
    kept: &ReceivedConfig,
    before: &Value,
    after: &Value,
) -> Result<Bytes, OutOfMemory>
    requires { has_float (view after.now) ≡ false }
    ensures { IfOk result (λ body. SentBy false kept.now (view before.now) (view after.now) body) }
{
    body_over(alloc, kept.value(), before, after)
}

// What was kept, where the configuration is written as before, and else what is written now over it.
fn sent_body(
    alloc: Global,
    kept: &ReceivedConfig,
    before: &Value,
    after: &Value,
) -> Result<Bytes, OutOfMemory>
    requires { has_float (view after.now) ≡ false }
    ensures { IfOk result (λ body.
        SentBy (is_same (view before.now) (view after.now)) kept.now (view before.now) (view after.now) body) }
{
    if is_same(alloc, before, after)? {
        Ok(Bytes::copy_from_slice(alloc, kept.as_str().as_bytes())?)
    } else {
        written_body(alloc, kept, before, after)
    }
}

// What is written of a configuration.
fn config_value(alloc: Global, config: &Config) -> Result<Value, OutOfMemory>
    ensures { IfOk result (λ value. IsWrittenOf config.now (view value)) }
{
    written(config.to_value(alloc))
}

// The body of an update to that configuration.
#[tactic(auto, using(crate::proofs::KeptAsRead::keeps_in))]
fn keeping_body(
    alloc: Global,
    kept: &ReceivedConfig,
    read: &Config,
    config: &Config,
) -> Result<Bytes, OutOfMemory>
    ensures { IfOk result (λ body. KeepsIn kept.now read.now config.now body) }
{
    let (before, after) = both(config_value(alloc, read), config_value(alloc, config))?;
    let body = sent_body(alloc, kept, &before, &after);
    drop(before);
    drop(after);
    body
}

// The same for a handle: one that kept nothing asks with the configuration alone.
fn body_for(
    alloc: Global,
    handle: &StreamHandle<Info>,
    config: &Config,
) -> Result<Bytes, OutOfMemory>
    ensures { IfOk result (λ body. SendsKept handle.now.kept handle.now.info.config config.now body) }
{
    match &handle.kept {
        None => config_body(alloc, config),
        Some(kept) => keeping_body(alloc, kept, &handle.info.config, config),
    }
}

// The request that writes the configuration over what the handle kept.
fn update_request(
    alloc: Global,
    scope: &ApiScope,
    handle: &StreamHandle<Info>,
    config: &Config,
) -> Result<RawCall, OutOfMemory>
    ensures { IfOk result (λ asked. AsksKeeping scope.now handle.now config.now asked) }
{
    let body = body_for(alloc, handle, config)?;
    scope.ask_named(alloc, "STREAM.UPDATE", config.name.as_str(), body)
}

fn update_call(
    alloc: Global,
    scope: &ApiScope,
    handle: &StreamHandle<Info>,
    config: &Config,
) -> Result<UpdateStream, OutOfMemory>
    ensures { IfOk result (λ call. UpdatesKeeping scope.now handle.now config.now call) }
{
    let asked = update_request(alloc, scope, handle, config);
    let (row, asked) = both(updating_row(config), asked)?;
    Ok(Call::new(row, asked))
}

/// Updates a stream to this configuration, and keeps the other members that the server sent to the
/// handle of `get_stream`.
///
/// The call writes the members of `Config` over those that were read, also inside a mirror, an
/// external, a placement and a republish. It removes a member that is no longer written, and sends
/// back unchanged what `Config` does not name. It writes a list, such as the sources, as a whole.
/// If nothing changed, it sends back what was read, with every member and value. A handle of
/// another call has kept nothing; this call is then `update_stream`.
///
/// Use the scope of the handle: in another scope, the stream of that name gets what was read here.
/// The update overwrites what changed on the server since the handle was made.
///
/// Fails with `OutOfMemory` if memory runs out; the polls return the errors of `update_stream`.
#[tactic(auto, using(crate::proofs::KeptAsRead::unchanged_call))]
pub fn update_stream_keeping(
    alloc: Global,
    scope: &ApiScope,
    handle: &StreamHandle<Info>,
    config: &Config,
) -> Result<UpdateStream, OutOfMemory>
    ensures written { IfOk result (λ call. UpdatesKeeping scope.now handle.now config.now call) }
    ensures unchanged { handle.now.info.config ≡ config.now
        → IfOk result (λ call. SendsBack scope.now handle.now config.now call) }
{
    update_call(alloc, scope, handle, config)
}
