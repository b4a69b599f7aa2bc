//! The sentences on what becomes of what the consumer waits for.

ghost use Rattle.std.specs.Prelude.{◌≡◌, ◌++◌, OnOk};
ghost use Rattle.js_tool_explain.specs.Replies as sentences;

use super::{Awaited, Reply};
use crate::sentence_part::{Part, push_line};
use js_base::{Moment, Nanos};
use js_ordered_table::Start;
use std::alloc::AllocError;

// What the requests are for.
const FOR_INFO: &[u8] = b", for the consumer's info";

const TO_DELETE: &[u8] = b", to delete the old consumer";

const TO_CREATE: &[u8] = b", to create the new consumer";

const EXPIRED: &[u8] = b" the time of the last pull request is over.";

const INFO_DUE: &[u8] = b" the wait for the next request for the consumer's info is over.";

const TRY_DUE: &[u8] = b" the wait for the next try is over.";

const GIVEN_UP: &[u8] = b"The last recreation was given up, so another one begins.";

fn reply_text(reply: Reply) -> &'static [u8]
    ensures { result.now ≡ sentences.reply_text reply }
{
    match reply {
        Reply::Gone => b", got no answer: its replier is gone.",
        Reply::Unheard => b", was heard by nobody (status 503).",
        Reply::NoInfo => b", was answered without a consumer's info.",
        Reply::NoSubject => b", was answered with a consumer that has no deliver subject.",
        Reply::Good => b", was answered.",
    }
}

fn push_answered(
    out: &mut Vec<u8>,
    at: Moment,
    request: u64,
    purpose: &'static [u8],
    reply: Reply,
) -> Result<(), AllocError>
    ensures { OnOk result (out.new.items ≡ out.old.items ++ sentences.answered_text at request purpose.now reply) }
{
    push_line(
        out,
        at,
        &[
            Part::Text(b"Request "),
            Part::Number(request),
            Part::Text(purpose),
            Part::Text(reply_text(reply)),
        ],
    )
}

fn push_late(
    out: &mut Vec<u8>,
    at: Moment,
    request: u64,
    purpose: &'static [u8],
    wait: Nanos,
) -> Result<(), AllocError>
    ensures { OnOk result (out.new.items ≡ out.old.items ++ sentences.late_text at request purpose.now wait) }
{
    push_line(
        out,
        at,
        &[
            Part::Text(b"Request "),
            Part::Number(request),
            Part::Text(purpose),
            Part::Text(b", was not answered within "),
            Part::Seconds(wait),
            Part::Text(b"."),
        ],
    )
}

fn push_created(
    out: &mut Vec<u8>,
    at: Moment,
    name: &str,
    request: u64,
    start: Start,
) -> Result<(), AllocError>
    ensures { OnOk result (out.new.items ≡ out.old.items ++ sentences.created_text at name.now request start) }
{
    match start {
        Start::All => push_line(
            out,
            at,
            &[
                Part::Text(b"The new consumer \""),
                Part::Text(name.as_bytes()),
                Part::Text(b"\" was created (request "),
                Part::Number(request),
                Part::Text(b"); it reads from the beginning of the stream."),
            ],
        ),
        Start::From(sequence) => push_line(
            out,
            at,
            &[
                Part::Text(b"The new consumer \""),
                Part::Text(name.as_bytes()),
                Part::Text(b"\" was created (request "),
                Part::Number(request),
                Part::Text(b"); it reads from stream sequence "),
                Part::Number(sequence),
                Part::Text(b"."),
            ],
        ),
    }
}

fn push_wait(
    out: &mut Vec<u8>,
    at: Moment,
    wait: Nanos,
    text: &'static [u8],
) -> Result<(), AllocError>
    ensures { OnOk result (out.new.items ≡ out.old.items ++ sentences.wait_text at wait text.now) }
{
    push_line(
        out,
        at,
        &[Part::Text(b"After "), Part::Seconds(wait), Part::Text(text)],
    )
}

/// Adds the sentence on what becomes of what the consumer waits for. `name` is that of the consumer
/// that was requested last.
pub(crate) fn push_awaited(
    out: &mut Vec<u8>,
    at: Moment,
    name: &str,
    awaited: Awaited,
) -> Result<(), AllocError>
    ensures { OnOk result (out.new.items ≡ out.old.items ++ sentences.awaited_text at name.now awaited) }
{
    match awaited {
        Awaited::Expired { wait } => push_wait(out, at, wait, EXPIRED),
        Awaited::InfoAnswered { request, reply } => {
            push_answered(out, at, request, FOR_INFO, reply)
        }
        Awaited::InfoLate { request, wait } => push_late(out, at, request, FOR_INFO, wait),
        Awaited::InfoDue { wait } => push_wait(out, at, wait, INFO_DUE),
        Awaited::DeleteAnswered { request, reply } => {
            push_answered(out, at, request, TO_DELETE, reply)
        }
        Awaited::DeleteLate { request, wait } => push_late(out, at, request, TO_DELETE, wait),
        Awaited::Created { request, start } => push_created(out, at, name, request, start),
        Awaited::NotCreated { request, reply } => {
            push_answered(out, at, request, TO_CREATE, reply)
        }
        Awaited::CreateLate { request, wait } => push_late(out, at, request, TO_CREATE, wait),
        Awaited::TryDue { wait } => push_wait(out, at, wait, TRY_DUE),
        Awaited::GivenUp => push_line(out, at, &[Part::Text(GIVEN_UP)]),
    }
}
