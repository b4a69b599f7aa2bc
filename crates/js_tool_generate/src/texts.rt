//! The texts of a generated transcript.
ghost use Rattle.std.specs.Prelude.{◌≡◌, IfOk, decimal, string_bytes};
ghost use Rattle.js_tool_generate.specs.Episode as episodes;

use std::alloc::{AllocError, Global};

/// Returns the acknowledgement subject of the message with this sequence and number.
pub(crate) fn reply(alloc: Global, sequence: u64, number: u64) -> Result<String, AllocError>
    ensures { IfOk result (λ text. string_bytes text ≡ episodes.reply sequence number) }
{
    format!(in alloc; "$JS.ACK.events.gen.1.{sequence}.{number}.0.0")
}

/// Returns a number in decimal.
pub(crate) fn decimal(alloc: Global, number: u64) -> Result<String, AllocError>
    ensures { IfOk result (λ text. string_bytes text ≡ decimal number) }
{
    format!(in alloc; "{number}")
}

/// Returns the name of the consumer that the recreation with this count creates.
pub(crate) fn name(alloc: Global, recreation_count: u64) -> Result<String, AllocError>
    ensures { IfOk result (λ text. string_bytes text ≡ episodes.name_of recreation_count) }
{
    format!(in alloc; "gen_{recreation_count}")
}

/// Returns the server's info about the consumer with this name.
pub(crate) fn info(alloc: Global, name: &str) -> Result<String, AllocError>
    ensures { IfOk result (λ text. string_bytes text ≡ episodes.info_text name.now) }
{
    let mut text = String::from_str(
        alloc,
        r#"{"ack_floor":{"consumer_seq":0,"stream_seq":0},"config":{"deliver_policy":"all"},"created":"2026-01-01T00:00:00Z","delivered":{"consumer_seq":0,"stream_seq":0},"name":""#,
    )?;
    text.push_str(name)?;
    text.push_str(
        r#"","num_ack_pending":0,"num_pending":0,"num_redelivered":0,"num_waiting":0,"stream_name":"events"}"#,
    )?;
    Ok(text)
}

/// Returns the server's info about the consumer that the recreation with this count creates.
pub(crate) fn info_of(alloc: Global, recreation_count: u64) -> Result<String, AllocError>
    ensures { IfOk result (λ text. string_bytes text ≡ episodes.info_text (episodes.name_of recreation_count)) }
{
    let name = name(alloc, recreation_count)?;
    let text = info(alloc, name.as_str());
    drop(name);
    text
}
