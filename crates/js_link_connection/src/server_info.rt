//! What a server tells about itself in INFO.

ghost use Rattle.std.specs.Prelude.{◌≡◌, IfOk};
ghost use Rattle.serde_json.specs.View.{view};
ghost use Rattle.js_link_connection.specs.ServerInfo.{is_set, name_in, info_in, info_of};

use js_base::{OutOfMemory, Text};
use serde_json::Value;
use std::alloc::Global;

/// What a server tells about itself. Other members of its INFO are ignored.
#[derive(Debug, PartialEq, Eq, Drop)]
pub struct ServerInfo {
    /// The server's name for itself, unique among servers (`server_id`). Empty if it gives none.
    pub server_id: Text,
    /// The greatest length in bytes of a message that it accepts, headers and payload together
    /// (`max_payload`).
    pub max_payload: u64,
    /// Whether it supports headers (`headers`).
    pub headers: bool,
    /// Whether it asks the client to identify itself (`auth_required`).
    pub auth_required: bool,
}

fn is_set(object: &Value, key: &str) -> bool
    ensures { result ≡ is_set key.now (view object.now) }
{
    match object.get(key).and_then(Value::as_bool) {
        Some(value) => value,
        None => false,
    }
}

fn name_in(object: &Value) -> &str
    ensures { result.now ≡ name_in (view object.now) }
{
    match object.get("server_id").and_then(Value::as_str) {
        Some(name) => name,
        None => "",
    }
}

#[tactic(auto, unfolding(crate::specs::ServerInfo::info_in))]
fn info_in(alloc: Global, object: &Value) -> Result<Option<ServerInfo>, OutOfMemory>
    ensures { IfOk result (λ info. info ≡ info_in (view object.now)) }
{
    let Some(max_payload) = object.get("max_payload").and_then(Value::as_u64) else {
        return Ok(None);
    };
    let headers = is_set(object, "headers");
    let auth_required = is_set(object, "auth_required");
    let server_id = Text::from_str(alloc, name_in(object))?;
    Ok(Some(ServerInfo {
        server_id,
        max_payload,
        headers,
        auth_required,
    }))
}

// What an INFO says, or none where it does not read.
#[tactic(auto, unfolding(crate::specs::ServerInfo::info_of))]
pub(crate) fn info_of(alloc: Global, json: &Text) -> Result<Option<ServerInfo>, OutOfMemory>
    ensures { IfOk result (λ info. info ≡ info_of json.now) }
{
    match Value::from_str(alloc, json.as_str()) {
        Ok(object) => info_in(alloc, &object),
        Err(error) => {
            if error.is_memory() {
                return Err(OutOfMemory);
            }
            Ok(None)
        }
    }
}
