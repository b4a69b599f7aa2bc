//! How an output is worked off: it is sent, or it is for the user.
ghost use Rattle.std.specs.Prelude.{◌≡◌, IfOk, OnErr, OnOk, is_some, true};
ghost use Rattle.js_ordered_recorder.specs.Sends.{GoesTo, HasMessage, bare_message as bare_message_in, worked_as, yielded};

use crate::sends::LinkNumbers;
use bytes::Bytes;
use js_base::{Message, OutOfMemory, Subject, TryClone, both, replace_with};
use js_link::Link;
use js_ordered_table::{ItemKind, Output};
use std::alloc::Global;

/// What an output that was worked off has for the user.
#[derive(Clone, Copy)]
pub(crate) enum Worked {
    Silent,
    /// A message, which stays in its place, since it is large.
    Message,
    Error(ItemKind),
}

// A message of which only the subject and the payload are known.
fn bare_message(subject: Subject, payload: Bytes) -> Message
    ensures { result ≡ bare_message_in subject payload }
{
    let length = payload.len() as u64;
    Message {
        subject,
        reply: None,
        payload,
        headers: None,
        status: None,
        description: None,
        length,
    }
}

// Sees to it that there is a message to hand out: the one that was taken, unless it was handed out.
fn keep_message(
    alloc: Global,
    message: &mut Option<Message>,
    subject: &Subject,
    payload: &Bytes,
) -> Result<(), OutOfMemory>
    ensures kept { OnOk result (message.new ≡ yielded subject.now payload.now message.old) }
    ensures some { OnOk result (is_some message.new ≡ true) }
    ensures stays { OnErr result (message.new ≡ message.old) }
{
    match message {
        Some(_) => Ok(()),
        None => {
            let (subject, payload) = both(subject.try_clone(), payload.try_clone())?;
            replace_with(message, Some(bare_message(subject, payload)));
            Ok(())
        }
    }
}

// What an output has for the user.
fn worked_of(output: &Output) -> Worked
    ensures { result ≡ worked_as output.now }
{
    match output {
        Output::Yield { .. } => Worked::Message,
        Output::Item { kind } => Worked::Error(*kind),
        Output::Recreate { .. }
        | Output::Request { .. }
        | Output::Publish { .. }
        | Output::Subscribe { .. } => Worked::Silent,
    }
}

// Sends an output, or keeps the message that it hands out.
fn send<L: Link>(
    alloc: Global,
    link: &mut L,
    output: &Output,
    sends: &mut LinkNumbers,
    message: &mut Option<Message>,
) -> Result<(), OutOfMemory>
    ensures goes { OnOk result (GoesTo output.now (record { sends = sends.old; message = message.old; link = L.view link.old }) (record { sends = sends.new; message = message.new; link = L.view link.new })) }
    ensures there { OnOk result (HasMessage (worked_as output.now) message.new) }
    ensures sends { OnErr result (sends.new ≡ sends.old) }
    ensures message { OnErr result (message.new ≡ message.old) }
    ensures link { OnErr result (L.view link.new ≡ L.view link.old) }
{
    match output {
        Output::Yield {
            subject,
            payload,
            ..
        } => keep_message(alloc, message, subject, payload),
        Output::Request {
            number,
            subject,
            payload,
        } => sends.ask(alloc, link, *number, subject, payload),
        Output::Publish {
            subject,
            reply,
            payload,
        } => sends.publish(alloc, link, subject, reply, payload),
        Output::Subscribe { inbox, subject } => sends.open(alloc, link, *inbox, subject),
        Output::Item { .. } | Output::Recreate { .. } => Ok(()),
    }
}

/// Works off an output. After want of memory nothing is done of it.
pub(crate) fn work_off<L: Link>(
    alloc: Global,
    link: &mut L,
    output: &Output,
    sends: &mut LinkNumbers,
    message: &mut Option<Message>,
) -> Result<Worked, OutOfMemory>
    ensures goes { OnOk result (GoesTo output.now (record { sends = sends.old; message = message.old; link = L.view link.old }) (record { sends = sends.new; message = message.new; link = L.view link.new })) }
    ensures done { IfOk result (λ worked. worked ≡ worked_as output.now) }
    ensures there { IfOk result (λ worked. HasMessage worked message.new) }
    ensures sends { OnErr result (sends.new ≡ sends.old) }
    ensures message { OnErr result (message.new ≡ message.old) }
    ensures link { OnErr result (L.view link.new ≡ L.view link.old) }
{
    send(alloc, link, output, sends, message)?;
    Ok(worked_of(output))
}
