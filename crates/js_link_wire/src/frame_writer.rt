//! Appends frames of a client to bytes: whole, or not at all.

ghost use Rattle.std.specs.Prelude.{◌≡◌, ◌++◌, OnOk, OnErr, IfErr, None};
ghost use Rattle.js_link_wire.specs.declared.frame.ClientFrame.TheVariants.{Connect, Subscribe, Unsubscribe, Publish, HeaderedPublish};
ghost use Rattle.js_link_wire.specs.ServerText.{line_end};
ghost use Rattle.js_link_wire.specs.Written.{written, refusal, IsCause};

use crate::client_lines::{
    connect_line, header_block, headered_line, publish_line, subscribe_line, unsubscribe_line,
};
use crate::frame::ClientFrame;
use crate::refusals::{WriteError, refusal};
use js_base::{HeaderMap, Subject, Text};
use std::alloc::{AllocError, Global};

// Appends some bytes and a line end, or nothing.
fn put_line(out: &mut Vec<u8>, line: &[u8]) -> Result<(), AllocError>
    ensures ok { OnOk result (out.new.items ≡ out.old.items ++ (line.now ++ line_end)) }
    ensures err { OnErr result (out.new.items ≡ out.old.items) }
{
    let before = out.len();
    out.extend_from_slice(line)?;
    if out.extend_from_slice(b"\r\n").is_err() {
        out.truncate(before);
        return Err(AllocError);
    }
    Ok(())
}

// Appends headers, a payload and a line end, or nothing.
fn put_body(out: &mut Vec<u8>, headers: &[u8], payload: &[u8]) -> Result<(), AllocError>
    ensures ok { OnOk result (out.new.items ≡ out.old.items ++ ((headers.now ++ payload.now) ++ line_end)) }
    ensures err { OnErr result (out.new.items ≡ out.old.items) }
{
    let before = out.len();
    out.extend_from_slice(headers)?;
    if put_line(out, payload).is_err() {
        out.truncate(before);
        return Err(AllocError);
    }
    Ok(())
}

// Appends a line and a body, or nothing.
fn put_message(
    out: &mut Vec<u8>,
    line: &[u8],
    headers: &[u8],
    payload: &[u8],
) -> Result<(), AllocError>
    ensures ok { OnOk result (out.new.items ≡ out.old.items ++ (line.now ++ (line_end ++ ((headers.now ++ payload.now) ++ line_end)))) }
    ensures err { OnErr result (out.new.items ≡ out.old.items) }
{
    let before = out.len();
    put_line(out, line)?;
    if put_body(out, headers, payload).is_err() {
        out.truncate(before);
        return Err(AllocError);
    }
    Ok(())
}

fn put_connect(alloc: Global, out: &mut Vec<u8>, json: &Text) -> Result<(), AllocError>
    ensures ok { OnOk result (out.new.items ≡ out.old.items ++ written (Connect json.now)) }
    ensures err { OnErr result (out.new.items ≡ out.old.items) }
{
    let line = connect_line(alloc, json)?;
    put_line(out, line.as_str().as_bytes())
}

fn put_subscribe(
    alloc: Global,
    out: &mut Vec<u8>,
    subject: &Subject,
    queue_group: &Option<Text>,
    subscription: u64,
) -> Result<(), AllocError>
    ensures ok { OnOk result (out.new.items ≡ out.old.items ++ written (Subscribe subject.now queue_group.now subscription)) }
    ensures err { OnErr result (out.new.items ≡ out.old.items) }
{
    let line = subscribe_line(alloc, subject, queue_group, subscription)?;
    put_line(out, line.as_str().as_bytes())
}

fn put_unsubscribe(
    alloc: Global,
    out: &mut Vec<u8>,
    subscription: u64,
    max: Option<u64>,
) -> Result<(), AllocError>
    ensures ok { OnOk result (out.new.items ≡ out.old.items ++ written (Unsubscribe subscription max)) }
    ensures err { OnErr result (out.new.items ≡ out.old.items) }
{
    let line = unsubscribe_line(alloc, subscription, max)?;
    put_line(out, line.as_str().as_bytes())
}

fn put_publish(
    alloc: Global,
    out: &mut Vec<u8>,
    subject: &Subject,
    reply: &Option<Subject>,
    payload: &[u8],
) -> Result<(), AllocError>
    ensures ok { OnOk result (out.new.items ≡ out.old.items ++ written (Publish subject.now reply.now payload.now)) }
    ensures err { OnErr result (out.new.items ≡ out.old.items) }
{
    let line = publish_line(alloc, subject, reply, payload.len())?;
    put_message(out, line.as_str().as_bytes(), b"", payload)
}

fn put_headered(
    alloc: Global,
    out: &mut Vec<u8>,
    subject: &Subject,
    reply: &Option<Subject>,
    headers: &HeaderMap,
    payload: &[u8],
) -> Result<(), AllocError>
    ensures ok { OnOk result (out.new.items ≡ out.old.items ++ written (HeaderedPublish subject.now reply.now headers.now payload.now)) }
    ensures err { OnErr result (out.new.items ≡ out.old.items) }
{
    let block = header_block(alloc, headers)?;
    let line = headered_line(alloc, subject, reply, &block, payload)?;
    put_message(out, line.as_str().as_bytes(), &block, payload)
}

fn put(alloc: Global, out: &mut Vec<u8>, frame: &ClientFrame) -> Result<(), AllocError>
    ensures ok { OnOk result (out.new.items ≡ out.old.items ++ written frame.now) }
    ensures err { OnErr result (out.new.items ≡ out.old.items) }
{
    match frame {
        ClientFrame::Connect { json } => put_connect(alloc, out, json),
        ClientFrame::Subscribe {
            subject,
            queue_group,
            subscription,
        } => put_subscribe(alloc, out, subject, queue_group, *subscription),
        ClientFrame::Unsubscribe { subscription, max } => {
            put_unsubscribe(alloc, out, *subscription, *max)
        }
        ClientFrame::Publish {
            subject,
            reply,
            payload,
        } => put_publish(alloc, out, subject, reply, payload.as_slice()),
        ClientFrame::HeaderedPublish {
            subject,
            reply,
            headers,
            payload,
        } => put_headered(alloc, out, subject, reply, headers, payload.as_slice()),
        ClientFrame::Ping => put_line(out, b"PING"),
        ClientFrame::Pong => put_line(out, b"PONG"),
    }
}

/// Appends a frame's text to some bytes. If it fails, the bytes are unchanged. It refuses any text
/// of the frame that could end its line or add another one. It computes the lengths in the line of a
/// message from its headers and its payload.
///
/// # Errors
///
/// The [`WriteError`] of the first part of the frame that is refused, and
/// [`WriteError::OutOfMemory`] if memory runs out.
pub fn write_frame(alloc: Global, out: &mut Vec<u8>, frame: &ClientFrame) -> Result<(), WriteError>
    ensures ok { OnOk result (out.new.items ≡ out.old.items ++ written frame.now) }
    ensures allowed { OnOk result (refusal frame.now ≡ None) }
    ensures err { OnErr result (out.new.items ≡ out.old.items) }
    ensures cause { IfErr result (λ error. IsCause frame.now error) }
{
    match refusal(frame) {
        Some(error) => Err(error),
        None => match put(alloc, out, frame) {
            Ok(()) => Ok(()),
            Err(_) => Err(WriteError::OutOfMemory),
        },
    }
}
