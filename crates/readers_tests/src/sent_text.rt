//! What is told of what was sent.

use bytes::Bytes;
use calls_tests::Words;
use js_base::{Subject, Text};
use js_link::Sent;
use std::alloc::Global;

fn subscribed(alloc: Global, subject: &Subject, group: &Option<Text>) -> Words {
    match group {
        Some(group) => Ok(format!(in alloc; "subscribes to {subject} in {group}")?),
        None => Ok(format!(in alloc; "subscribes to {subject}")?),
    }
}

fn asked(alloc: Global, subject: &Subject, payload: &Bytes) -> Words {
    let payload = String::from_utf8_lossy(alloc, payload.as_slice())?;
    Ok(format!(in alloc; "asks {subject} with {payload}")?)
}

fn published(alloc: Global, subject: &Subject, reply: &Option<Subject>, payload: &Bytes) -> Words {
    let payload = String::from_utf8_lossy(alloc, payload.as_slice())?;
    let words = match reply {
        Some(reply) => format!(in alloc; "publishes \"{payload}\" to {subject} for {reply}"),
        None => format!(in alloc; "publishes \"{payload}\" to {subject}"),
    };
    drop(payload);
    Ok(words?)
}

/// One thing that was sent.
pub(crate) fn text_of(alloc: Global, sent: &Sent) -> Words {
    match sent {
        Sent::Subscribe { subject, group, .. } => subscribed(alloc, subject, group),
        Sent::Request {
            subject,
            payload,
            ..
        } => asked(alloc, subject, payload),
        Sent::Publish {
            subject,
            reply,
            payload,
            ..
        } => published(alloc, subject, reply, payload),
    }
}
