//! A message: the words of its line, and its body.

ghost use Rattle.std.specs.Prelude.{◌≡◌, ◌≤◌, ◌+◌, length, IfOk};
ghost use Rattle.js_link_wire.specs.Lines.{Gives};
ghost use Rattle.js_link_wire.specs.Words.{words};
ghost use Rattle.std.specs.Option.{option_copied};
ghost use Rattle.js_link_wire.specs.Messages.{line_of, head_of, headered_line_of, headered_of, head_view, headered_view, body_at, message_of, headered_message_of};
ghost use Rattle.js_link_wire.specs.Views.{sight};

use crate::damage::{Damage, Unread};
use crate::frame::View;
use crate::number::number_of;
use crate::words::Words;

/// The line of a message.
#[derive(Clone, Copy)]
pub(crate) struct Head<'a> {
    pub subject: &'a str,
    pub subscription: u64,
    pub reply: Option<&'a str>,
    /// The length of the body, in bytes.
    pub length: u64,
}

/// The line of a message with headers: the length of the headers in bytes, and the rest of the line.
#[derive(Clone, Copy)]
pub(crate) struct Headered<'a> {
    pub head: Head<'a>,
    pub headers: u64,
}

#[tactic(auto, unfolding(crate::specs::Messages::line_of))]
fn line_of<'a>(
    subject: &'a str,
    subscription: &'a str,
    reply: Option<&'a str>,
    length: &'a str,
) -> Result<Head<'a>, Unread>
    ensures { Gives head_view result (line_of subject.now subscription.now (option_copied reply.entry) length.now) }
{
    let subscription = number_of(subscription)?;
    let length = number_of(length)?;
    Ok(Head {
        subject,
        subscription,
        reply,
        length,
    })
}

#[tactic(auto, unfolding(crate::specs::Messages::headered_line_of))]
fn headered_line_of<'a>(
    subject: &'a str,
    subscription: &'a str,
    reply: Option<&'a str>,
    headers: &'a str,
    length: &'a str,
) -> Result<Headered<'a>, Unread>
    ensures value { Gives headered_view result (headered_line_of subject.now subscription.now (option_copied reply.entry) headers.now length.now) }
    ensures part { IfOk result (λ line. line.headers ≤ line.head.length) }
{
    let head = line_of(subject, subscription, reply, length)?;
    let headers = number_of(headers)?;
    if headers > head.length {
        return Err(Unread::Damaged(Damage::HeadersTooLong));
    }
    Ok(Headered { head, headers })
}

fn head_of(text: &str) -> Result<Head<'_>, Unread>
    ensures { Gives head_view result (head_of (words text.now)) }
{
    let mut words = Words::new(text);
    let Some(subject) = words.next() else {
        return Err(Unread::Damaged(Damage::WrongArguments));
    };
    let Some(subscription) = words.next() else {
        return Err(Unread::Damaged(Damage::WrongArguments));
    };
    let Some(third) = words.next() else {
        return Err(Unread::Damaged(Damage::WrongArguments));
    };
    let Some(fourth) = words.next() else {
        return line_of(subject, subscription, None, third);
    };
    match words.next() {
        None => line_of(subject, subscription, Some(third), fourth),
        Some(_) => Err(Unread::Damaged(Damage::WrongArguments)),
    }
}

fn headered_of(text: &str) -> Result<Headered<'_>, Unread>
    ensures value { Gives headered_view result (headered_of (words text.now)) }
    ensures part { IfOk result (λ line. line.headers ≤ line.head.length) }
{
    let mut words = Words::new(text);
    let Some(subject) = words.next() else {
        return Err(Unread::Damaged(Damage::WrongArguments));
    };
    let Some(subscription) = words.next() else {
        return Err(Unread::Damaged(Damage::WrongArguments));
    };
    let Some(third) = words.next() else {
        return Err(Unread::Damaged(Damage::WrongArguments));
    };
    let Some(fourth) = words.next() else {
        return Err(Unread::Damaged(Damage::WrongArguments));
    };
    let Some(fifth) = words.next() else {
        return headered_line_of(subject, subscription, None, third, fourth);
    };
    match words.next() {
        None => headered_line_of(subject, subscription, Some(third), fourth, fifth),
        Some(_) => Err(Unread::Damaged(Damage::WrongArguments)),
    }
}

// So many bytes off the front, behind which a line end stands.
#[tactic(auto, unfolding(crate::specs::Messages::body_at))]
fn body_at(rest: &[u8], count: u64, most: u64) -> Result<&[u8], Unread>
    ensures value { Gives (λ body. body.now) result (body_at most count rest.now) }
    ensures length { IfOk result (λ body. length body.now ≡ count) }
    ensures within { IfOk result (λ body. length body.now + 2 ≤ length rest.now) }
{
    if count > most {
        return Err(Unread::Damaged(Damage::BodyTooLong));
    }
    let count = count as usize;
    if rest.len() < 2 || rest.len() - 2 < count {
        return Err(Unread::More);
    }
    if rest[count] != b'\r' || rest[count + 1] != b'\n' {
        return Err(Unread::Damaged(Damage::NoLineEnd));
    }
    Ok(&rest[..count])
}

// The message of an MSG line, and how many bytes behind the line it takes.
#[tactic(auto, unfolding(crate::specs::Messages::message_of))]
pub(crate) fn message_of<'a>(
    text: &'a str,
    rest: &'a [u8],
    most: u64,
) -> Result<(View<'a>, usize), Unread>
    ensures value { Gives sight result (message_of most text.now rest.now) }
    ensures within { IfOk result (λ found. found.1 ≤ length rest.now) }
{
    let head = head_of(text)?;
    let payload = body_at(rest, head.length, most)?;
    let frame = View::Message {
        subject: head.subject,
        subscription: head.subscription,
        reply: head.reply,
        payload,
    };
    Ok((frame, payload.len() + 2))
}

// The message of an HMSG line, and how many bytes behind the line it takes.
#[tactic(auto, unfolding(crate::specs::Messages::headered_message_of))]
pub(crate) fn headered_message_of<'a>(
    text: &'a str,
    rest: &'a [u8],
    most: u64,
) -> Result<(View<'a>, usize), Unread>
    ensures value { Gives sight result (headered_message_of most text.now rest.now) }
    ensures within { IfOk result (λ found. found.1 ≤ length rest.now) }
{
    let Headered { head, headers } = headered_of(text)?;
    let body = body_at(rest, head.length, most)?;
    let (headers, payload) = body.split_at(headers as usize);
    let frame = View::HeaderedMessage {
        subject: head.subject,
        subscription: head.subscription,
        reply: head.reply,
        headers,
        payload,
    };
    Ok((frame, body.len() + 2))
}
