//! The JSON text with which the client introduces itself in CONNECT.

ghost use Rattle.std.specs.Prelude.{◌≡◌, IfOk, string_bytes};
ghost use Rattle.serde_json.specs.Data.{string};
ghost use Rattle.serde_json.specs.Written.{compact_text};
ghost use Rattle.js_link_connection.specs.ConnectText.{member_text, name_text, token_text, user_text, password_text, object_text, connect_text};

use crate::options::{ConnectOptions, Credentials};
use js_base::{OutOfMemory, Text, all_4};
use serde_json::Value;
use std::alloc::Global;

// A text as JSON.
fn json_of(alloc: Global, text: &Text) -> Result<String, OutOfMemory>
    ensures { IfOk result (λ json. string_bytes json ≡ compact_text (string text.now)) }
{
    let value = Value::String(String::from_str(alloc, text.as_str())?);
    let json = value.to_string(alloc);
    drop(value);
    Ok(json?)
}

// A member of an object, before others.
fn member_text(alloc: Global, key: &str, text: &Text) -> Result<String, OutOfMemory>
    ensures { IfOk result (λ json. string_bytes json ≡ member_text key.now text.now) }
{
    let value = json_of(alloc, text)?;
    Ok(format!(in alloc; "\"{key}\":{value},")?)
}

fn name_text(alloc: Global, name: &Option<Text>) -> Result<String, OutOfMemory>
    ensures { IfOk result (λ json. string_bytes json ≡ name_text name.now) }
{
    match name {
        None => Ok(String::new(alloc)),
        Some(name) => member_text(alloc, "name", name),
    }
}

fn token_text(alloc: Global, credentials: &Credentials) -> Result<String, OutOfMemory>
    ensures { IfOk result (λ json. string_bytes json ≡ token_text credentials.now) }
{
    match credentials {
        Credentials::Anonymous | Credentials::User { .. } => Ok(String::new(alloc)),
        Credentials::Token(token) => member_text(alloc, "auth_token", token),
    }
}

fn user_text(alloc: Global, credentials: &Credentials) -> Result<String, OutOfMemory>
    ensures { IfOk result (λ json. string_bytes json ≡ user_text credentials.now) }
{
    match credentials {
        Credentials::Anonymous | Credentials::Token(_) => Ok(String::new(alloc)),
        Credentials::User { user, .. } => member_text(alloc, "user", user),
    }
}

fn password_text(alloc: Global, credentials: &Credentials) -> Result<String, OutOfMemory>
    ensures { IfOk result (λ json. string_bytes json ≡ password_text credentials.now) }
{
    match credentials {
        Credentials::Anonymous | Credentials::Token(_) => Ok(String::new(alloc)),
        Credentials::User { password, .. } => member_text(alloc, "pass", password),
    }
}

// The JSON object of CONNECT, by its members that a client chooses.
#[tactic(auto, unfolding(crate::specs::ConnectText::object_text))]
fn object_text(
    alloc: Global,
    token: &str,
    name: &str,
    password: &str,
    user: &str,
) -> Result<String, OutOfMemory>
    ensures { IfOk result (λ json. string_bytes json ≡ object_text token.now name.now password.now user.now) }
{
    Ok(format!(in alloc;
        "{{{token}\"headers\":true,\"lang\":\"rattle\",{name}\"no_responders\":true,{password}\"pedantic\":false,\"protocol\":1,{user}\"verbose\":false,\"version\":\"1\"}}"
    )?)
}

// The JSON object of CONNECT.
pub(crate) fn connect_text(alloc: Global, options: &ConnectOptions) -> Result<Text, OutOfMemory>
    ensures { IfOk result (λ json. json ≡ connect_text options.now) }
{
    let (token, name, password, user) = all_4(
        token_text(alloc, &options.credentials),
        name_text(alloc, &options.name),
        password_text(alloc, &options.credentials),
        user_text(alloc, &options.credentials),
    )?;
    match object_text(
        alloc,
        token.as_str(),
        name.as_str(),
        password.as_str(),
        user.as_str(),
    ) {
        Ok(json) => Ok(Text::from(json)),
        Err(refused) => Err(refused),
    }
}
