//! The lines that a client writes, and its blocks of headers.

ghost use Rattle.std.specs.Prelude.{◌≡◌, ◌++◌, decimal, OnOk, IfOk, codes, string_bytes};
ghost use Rattle.std.specs.List.{flat_map};
ghost use Rattle.js_base.specs.Headers.{pairs};
ghost use Rattle.js_link_wire.specs.ServerText.{spaced};
ghost use Rattle.js_link_wire.specs.Written.{after_any, before_any, header_line, header_block, headered_line};

use js_base::{HeaderMap, Subject, Text};
use std::alloc::{AllocError, Global};

pub(crate) fn connect_line(alloc: Global, json: &Text) -> Result<String, AllocError>
    ensures { IfOk result (λ line. string_bytes line ≡ codes "CONNECT " ++ json.now) }
{
    format!(in alloc; "CONNECT {json}")
}

pub(crate) fn subscribe_line(
    alloc: Global,
    subject: &Subject,
    queue_group: &Option<Text>,
    subscription: u64,
) -> Result<String, AllocError>
    ensures { IfOk result (λ line. string_bytes line ≡ codes "SUB " ++ spaced subject.now (after_any queue_group.now (decimal subscription))) }
{
    match queue_group {
        Some(name) => format!(in alloc; "SUB {subject} {name} {subscription}"),
        None => format!(in alloc; "SUB {subject} {subscription}"),
    }
}

pub(crate) fn unsubscribe_line(
    alloc: Global,
    subscription: u64,
    max: Option<u64>,
) -> Result<String, AllocError>
    ensures { IfOk result (λ line. string_bytes line ≡ codes "UNSUB " ++ before_any subscription max) }
{
    match max {
        Some(max) => format!(in alloc; "UNSUB {subscription} {max}"),
        None => format!(in alloc; "UNSUB {subscription}"),
    }
}

pub(crate) fn publish_line(
    alloc: Global,
    subject: &Subject,
    reply: &Option<Subject>,
    length: usize,
) -> Result<String, AllocError>
    ensures { IfOk result (λ line. string_bytes line ≡ codes "PUB " ++ spaced subject.now (after_any reply.now (decimal length))) }
{
    match reply {
        Some(reply) => format!(in alloc; "PUB {subject} {reply} {length}"),
        None => format!(in alloc; "PUB {subject} {length}"),
    }
}

pub(crate) fn headered_line(
    alloc: Global,
    subject: &Subject,
    reply: &Option<Subject>,
    block: &[u8],
    payload: &[u8],
) -> Result<String, AllocError>
    ensures { IfOk result (λ line. string_bytes line ≡ headered_line subject.now reply.now block.now payload.now) }
{
    let part = block.len();
    let whole = block.len() + payload.len();
    match reply {
        Some(reply) => format!(in alloc; "HPUB {subject} {reply} {part} {whole}"),
        None => format!(in alloc; "HPUB {subject} {part} {whole}"),
    }
}

#[tactic(auto, unfolding(crate::specs::Written::header_block))]
pub(crate) fn header_block(alloc: Global, headers: &HeaderMap) -> Result<Vec<u8>, AllocError>
    ensures { IfOk result (λ block. block.items ≡ header_block headers.now) }
{
    let mut block = Vec::new(alloc);
    block.extend_from_slice(b"NATS/1.0\r\n")?;
    push_headers(&mut block, headers)?;
    block.extend_from_slice(b"\r\n")?;
    Ok(block)
}

fn push_headers(out: &mut Vec<u8>, headers: &HeaderMap) -> Result<(), AllocError>
    ensures { OnOk result (out.new.items ≡ out.old.items ++ flat_map header_line (pairs headers.now)) }
{
    for header in headers.iter() {
        push_header(out, header.0, header.1)?;
    }
    Ok(())
}

fn push_header(out: &mut Vec<u8>, name: &str, value: &str) -> Result<(), AllocError>
    ensures { OnOk result (out.new.items ≡ out.old.items ++ header_line (name.now, value.now)) }
{
    out.extend_from_slice(name.as_bytes())?;
    out.extend_from_slice(b": ")?;
    out.extend_from_slice(value.as_bytes())?;
    out.extend_from_slice(b"\r\n")
}
