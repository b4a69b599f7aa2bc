//! What the reply to a create request comes to.
ghost use Rattle.std.specs.Prelude.{◌≡◌, [], ◌∷◌, Some};
ghost use Rattle.js_ordered_table.specs.Consumer.{Matter};
ghost use Rattle.js_ordered_table.specs.Recreation as rows;
ghost use Rattle.js_ordered_table.specs.Tasks.{rows_of, told_outputs};
ghost use Rattle.js_pull.specs.Reader.{info_in};

use crate::transitions::task::{RowOutput, Task};
use crate::{ItemKind, OrderedSetup};
use js_base::Boxed;
use js_codes::errors::ErrorCode;
use js_json::consumer::Info;
use js_pull::InfoReply;

// Push needs a subject that is delivered to.
fn has_subject(setup: &OrderedSetup, info: &Info) -> bool
    ensures { result ≡ rows.has_subject setup.now info.now }
{
    match setup {
        OrderedSetup::Pull(_) => true,
        OrderedSetup::Push(_) => info.config.deliver_subject.is_some(),
    }
}

// A create was answered with an info.
fn informed(setup: &OrderedSetup, info: Boxed<Info>) -> Task
    ensures { (m : Matter) → rows_of m result ≡ rows.answered setup.now (Some info) ∷ [] }
{
    if has_subject(setup, info.get()) {
        Task::Succeed(info)
    } else {
        Task::Fail
    }
}

// A create was answered: well or not.
pub(crate) fn answered(setup: &OrderedSetup, reply: InfoReply) -> Task
    ensures { (m : Matter) → rows_of m result ≡ rows.answered setup.now (info_in reply) ∷ [] }
{
    match reply {
        InfoReply::Info(info) => informed(setup, info),
        InfoReply::Error(_) => Task::Fail,
        InfoReply::Nothing => Task::Fail,
    }
}

fn is_stream_missing(reply: &InfoReply) -> bool
    ensures { result ≡ rows.is_stream_missing reply.now }
{
    match reply {
        InfoReply::Info(_) => false,
        InfoReply::Error(code) => *code == ErrorCode::STREAM_NOT_FOUND,
        InfoReply::Nothing => false,
    }
}

// Whether the stream is missing after a reply, as it is kept where that is told.
pub(crate) fn missing_after(tells: bool, reply: &InfoReply, was_missing: bool) -> bool
    ensures { result ≡ rows.missing_after tells reply.now was_missing }
{
    if tells {
        is_stream_missing(reply)
    } else {
        was_missing
    }
}

// A stream that is missing is told where it was not missing before.
pub(crate) fn missing_output(is_missing: bool, was_missing: bool) -> RowOutput
    ensures { told_outputs result ≡ rows.missing_outputs is_missing was_missing }
{
    if is_missing && !was_missing {
        RowOutput::Tells(ItemKind::StreamNotFound)
    } else {
        RowOutput::Nothing
    }
}
