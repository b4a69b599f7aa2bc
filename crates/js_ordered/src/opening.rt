//! What stands at the opening of a replay: the reader of the first inbox, and the first state.
ghost use Rattle.std.specs.Prelude.{◌≡◌, IfOk};
ghost use Rattle.js_ordered_table.specs.Fold as fold;
ghost use Rattle.js_ordered_table.specs.Passes.{at, first_reader_of, input_of};

use js_base::{OutOfMemory, State, TryClone};
use js_ordered_table::pull_source::pull_source;
use js_ordered_table::{Consumer, ConsumerContext, OrderedCore, Phase, ReplayState, texts};
use js_pull::Reader;
use std::alloc::Global;

// The reader of the first inbox.
pub(crate) fn first_reader(
    alloc: Global,
    context: &ConsumerContext<'_>,
) -> Result<Reader, OutOfMemory>
    ensures { IfOk result (λ reader. reader ≡ first_reader_of (input_of context.now)) }
{
    let subject = texts::inbox_subject(alloc, context, 0)?;
    Ok(Reader::new(pull_source(context, 0, 0, subject, context.first)?))
}

// Nothing was asked or yielded yet, and no inbox is read.
pub(crate) fn first_state(context: &ConsumerContext<'_>) -> Result<ReplayState, OutOfMemory>
    ensures { IfOk result (λ state. state ≡ at Phase.Idle (fold.first_state (input_of context.now) context.now.moment)) }
{
    let name = context.first.name.try_clone()?;
    Ok(ReplayState {
        consumer: Consumer {
            phase: Phase::Idle,
            core: OrderedCore::new(context.setup.configured_start()),
            name,
            missed: false,
            limited: false,
            stream_missing: false,
            connection: State::Connected,
        },
        link_up: true,
        requests_sent: 0,
        inboxes_opened: 1,
    })
}
