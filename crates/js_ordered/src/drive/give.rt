//! How a replay sends what a row sends: if the link is up, it goes out with the next number.
ghost use Rattle.std.specs.Prelude.{◌≡◌, ◌+◌, ◌≤◌, ◌++◌, ◌∷◌, [], ℕ, List, Bool, true, Some, IfOk, option_to_list, vec_capacity, vec_len};
ghost use Rattle.js_ordered.specs.Give.{IsOpening, IsSending, Sends, Subscribes};
ghost use Rattle.js_ordered_table.specs.Tasks.{told_outputs};

use bytes::Bytes;
use js_base::{OutOfMemory, Subject, TryClone};
use js_ordered_table::transitions::{Inbox, RowOutput};
use js_ordered_table::{Output, next_number};

/// A request that is ready to go out, and its number.
#[derive(Drop)]
pub(crate) struct Sending {
    pub number: u64,
    pub output: Output,
}

/// An inbox that is ready to be opened, and the number of inboxes after it.
#[derive(Drop)]
pub(crate) struct Opening {
    pub inbox: Inbox,
    pub after: u64,
    pub output: Output,
}

// A request with the next number, where the link is up.
pub(crate) fn request_for(
    requests_sent: u64,
    subject: Subject,
    payload: Bytes,
) -> Result<Sending, OutOfMemory>
    ensures { IfOk result (λ sending. IsSending true requests_sent subject payload (Some sending)) }
{
    let number = next_number(requests_sent)?;
    Ok(Sending {
        number,
        output: Output::Request {
            number,
            subject,
            payload,
        },
    })
}

// The next inbox, where the link is up.
pub(crate) fn inbox_for(inboxes_opened: u64, subject: Subject) -> Result<Opening, OutOfMemory>
    ensures { IfOk result (λ opening. IsOpening true inboxes_opened subject (Some opening)) }
{
    let after = next_number(inboxes_opened)?;
    let Ok(copy) = subject.try_clone() else {
        drop(subject);
        return Err(OutOfMemory);
    };
    Ok(Opening {
        inbox: Inbox {
            number: inboxes_opened,
            subject,
        },
        after,
        output: Output::Subscribe {
            inbox: inboxes_opened,
            subject: copy,
        },
    })
}

// A request goes out. Its number is answered.
pub(crate) fn send(
    requests_sent: &mut u64,
    request: Option<Sending>,
    outputs: &mut Vec<Output>,
) -> Option<u64>
    requires room { vec_len outputs.old + 1 ≤ vec_capacity outputs.old }
    ensures { (up : Bool) → (subject : List ℕ) → (payload : List ℕ) → IsSending up requests_sent.old subject payload request
        → Sends up requests_sent.old requests_sent.new subject payload outputs.old.items outputs.new.items result }
{
    match request {
        None => None,
        Some(Sending { number, output }) => {
            *requests_sent = number;
            outputs.push_reserved(output);
            Some(number)
        }
    }
}

// An inbox is opened, and answered.
pub(crate) fn subscribe(
    inboxes_opened: &mut u64,
    opening: Option<Opening>,
    outputs: &mut Vec<Output>,
) -> Option<Inbox>
    requires room { vec_len outputs.old + 1 ≤ vec_capacity outputs.old }
    ensures { (up : Bool) → (subject : List ℕ) → IsOpening up inboxes_opened.old subject opening
        → Subscribes up inboxes_opened.old inboxes_opened.new subject outputs.old.items outputs.new.items result }
{
    match opening {
        None => None,
        Some(
            Opening {
                inbox,
                after,
                output,
            },
        ) => {
            *inboxes_opened = after;
            outputs.push_reserved(output);
            Some(inbox)
        }
    }
}

// What a row tells besides what it sends is put out.
#[inline]
pub(crate) fn tell(told: RowOutput, outputs: &mut Vec<Output>)
    requires room { vec_len outputs.old + 1 ≤ vec_capacity outputs.old }
    ensures { outputs.new.items ≡ outputs.old.items ++ told_outputs told }
{
    match told {
        RowOutput::Nothing => {}
        RowOutput::Recreates {
            recreation_count,
            start,
        } => {
            outputs.push_reserved(Output::Recreate {
                recreation_count,
                start,
            });
        }
        RowOutput::Tells(kind) => outputs.push_reserved(Output::Item { kind }),
    }
}

// What was made ready is put out, where there is something.
#[inline]
pub(crate) fn push_output(output: Option<Output>, outputs: &mut Vec<Output>)
    requires room { vec_len outputs.old + 1 ≤ vec_capacity outputs.old }
    ensures { outputs.new.items ≡ outputs.old.items ++ option_to_list output }
{
    match output {
        None => {}
        Some(output) => outputs.push_reserved(output),
    }
}
