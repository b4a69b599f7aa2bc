//! The steps of a reader, what they report, and how a heartbeat is answered.
ghost use Rattle.std.specs.Prelude.{OnErr, OnOk};
ghost use Rattle.js_readers.specs.PushMessages.{IsAnswered, IsUnanswered};

use js_base::{Message, OutOfMemory};
use js_link::{Link, LinkError};
use js_ordered_table::answer_subject;
use std::alloc::Global;

/// What a reader does next.
#[derive(Drop)]
pub(crate) enum Row {
    /// It starts its timer. A new reader begins with this.
    Arm,
    /// It looks at its inbox.
    CheckArrival,
    /// It answers a heartbeat, if the heartbeat asks for an answer.
    Answer(Message),
    /// Its inbox was closed. It does nothing more.
    Ended,
}

/// What a step reports.
#[derive(Drop)]
pub(crate) enum RowOutcome {
    Nothing,
    Hands(Message),
    MissesHeartbeat,
    /// Nothing has come, and the timer is not due.
    Waits,
    Ends,
}

// Answers a heartbeat, where it asks for that. An answer that the link refuses is passed over.
pub(crate) fn answer<L: Link>(
    alloc: Global,
    link: &mut L,
    message: &Message,
) -> Result<(), OutOfMemory>
    ensures answered { OnOk result (IsAnswered message.now (L.view link.old) (L.view link.new)) }
    ensures unanswered { OnErr result (IsUnanswered message.now (L.view link.old) (L.view link.new)) }
{
    let Some(subject) = answer_subject(message) else {
        return Ok(());
    };
    match link.publish(alloc, subject, None, None, b"") {
        Ok(()) => Ok(()),
        Err(LinkError::Failed) => Ok(()),
        Err(LinkError::OutOfMemory) => Err(OutOfMemory),
    }
}
