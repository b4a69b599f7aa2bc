//! The sentences on what arrives.

ghost use Rattle.std.specs.Prelude.{◌≡◌, ◌++◌, OnOk};
ghost use Rattle.js_tool_explain.specs.Arrivals as sentences;

use super::Arrived;
use crate::sentence_part::{Part, push_line};
use js_base::{Moment, Nanos};
use std::alloc::AllocError;

fn limit_text(is_second: bool) -> &'static [u8]
    ensures { result.now ≡ sentences.limit_text is_second }
{
    if is_second {
        b"The server refused a pull request as too large, again with no message since the last time."
    } else {
        b"The server refused a pull request as too large."
    }
}

fn silence_text(is_second: bool) -> &'static [u8]
    ensures { result.now ≡ sentences.silence_text is_second }
{
    if is_second {
        b" (twice its interval), again with no message since the last time."
    } else {
        b" (twice its interval): the consumer waits as long once more."
    }
}

fn push_out_of_order(
    out: &mut Vec<u8>,
    at: Moment,
    sequence: u64,
    number: u64,
    last: u64,
) -> Result<(), AllocError>
    ensures { OnOk result (out.new.items ≡ out.old.items ++ sentences.out_of_order_text at sequence number last) }
{
    push_line(
        out,
        at,
        &[
            Part::Text(b"Message "),
            Part::Number(sequence),
            Part::Text(b" arrived with consumer sequence "),
            Part::Number(number),
            Part::Text(b" where "),
            Part::After(last),
            Part::Text(order_text(number, last)),
        ],
    )
}

fn order_text(number: u64, last: u64) -> &'static [u8]
    ensures { result.now ≡ sentences.order_text number last }
{
    if last < number {
        b" was next: a message before it is missing."
    } else {
        b" was next: it is out of order."
    }
}

fn push_behind(out: &mut Vec<u8>, at: Moment, sent: u64, last: u64) -> Result<(), AllocError>
    ensures { OnOk result (out.new.items ≡ out.old.items ++ sentences.behind_text at sent last) }
{
    push_line(
        out,
        at,
        &[
            Part::Text(b"A heartbeat came that names consumer sequence "),
            Part::Number(sent),
            Part::Text(b" as the last one sent, where "),
            Part::Number(last),
            Part::Text(b" was the last one that came."),
        ],
    )
}

fn push_status(
    out: &mut Vec<u8>,
    at: Moment,
    before: &'static [u8],
    status: u64,
    after: &'static [u8],
) -> Result<(), AllocError>
    ensures { OnOk result (out.new.items ≡ out.old.items ++ sentences.status_text at before.now status after.now) }
{
    push_line(
        out,
        at,
        &[Part::Text(before), Part::Number(status), Part::Text(after)],
    )
}

fn push_silent(
    out: &mut Vec<u8>,
    at: Moment,
    before: &'static [u8],
    wait: Nanos,
    after: &'static [u8],
) -> Result<(), AllocError>
    ensures { OnOk result (out.new.items ≡ out.old.items ++ sentences.silent_text at before.now wait after.now) }
{
    push_line(
        out,
        at,
        &[Part::Text(before), Part::Seconds(wait), Part::Text(after)],
    )
}

const NO_PLACE: &[u8] =
    b"A message came whose reply subject does not state its place in the stream.";

const HEARTBEAT: &[u8] = b"A heartbeat came.";

const BAD_HEARTBEAT: &[u8] = b"A heartbeat came whose last consumer sequence cannot be read.";

const DELETED: &[u8] = b"The server says that the consumer was deleted.";

const PUSH_BASED: &[u8] =
    b"The server says that the consumer is a push consumer, which cannot be pulled from.";

const NO_RESPONDERS: &[u8] = b"Nobody listens to pull requests (status 503).";

const ENDED: &[u8] = b"A pull request has ended with status ";

const STATUS: &[u8] = b"A message with status ";

const UNREADABLE: &[u8] = b" came that cannot be read.";

const PASSED_OVER: &[u8] = b" came and was passed over.";

const NEW_INBOX: &[u8] = b"A message came on the new inbox ";

const HELD: &[u8] = b" and is held until the create request is answered.";

const UNHEARD: &[u8] = b"No heartbeat was heard for ";

const NOTHING_CAME: &[u8] = b"Nothing came from the server for ";

const FULL_STOP: &[u8] = b".";

fn push_text(out: &mut Vec<u8>, at: Moment, text: &'static [u8]) -> Result<(), AllocError>
    ensures { OnOk result (out.new.items ≡ out.old.items ++ sentences.plain_text at text.now) }
{
    push_line(out, at, &[Part::Text(text)])
}

/// Adds the sentence on what arrives, or does not arrive in time.
pub(crate) fn push_arrived(
    out: &mut Vec<u8>,
    at: Moment,
    arrived: Arrived,
) -> Result<(), AllocError>
    ensures { OnOk result (out.new.items ≡ out.old.items ++ sentences.arrived_text at arrived) }
{
    match arrived {
        Arrived::OutOfOrder {
            sequence,
            number,
            last,
        } => push_out_of_order(out, at, sequence, number, last),
        Arrived::NoPlace => push_text(out, at, NO_PLACE),
        Arrived::Heartbeat => push_text(out, at, HEARTBEAT),
        Arrived::Behind { sent, last } => push_behind(out, at, sent, last),
        Arrived::BadHeartbeat => push_text(out, at, BAD_HEARTBEAT),
        Arrived::Deleted => push_text(out, at, DELETED),
        Arrived::PushBased => push_text(out, at, PUSH_BASED),
        Arrived::Limit { is_second } => push_text(out, at, limit_text(is_second)),
        Arrived::NoResponders => push_text(out, at, NO_RESPONDERS),
        Arrived::RequestEnded { status } => push_status(out, at, ENDED, status, FULL_STOP),
        Arrived::BadStatus { status } => push_status(out, at, STATUS, status, UNREADABLE),
        Arrived::OtherStatus { status } => push_status(out, at, STATUS, status, PASSED_OVER),
        Arrived::Held { inbox } => push_status(out, at, NEW_INBOX, inbox, HELD),
        Arrived::Silence { wait, is_second } => {
            push_silent(out, at, UNHEARD, wait, silence_text(is_second))
        }
        Arrived::PushSilence { wait } => push_silent(out, at, NOTHING_CAME, wait, FULL_STOP),
    }
}
