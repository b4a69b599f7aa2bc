//! Which consumer a pull reader asks, for what, and on which inbox.
ghost use Rattle.std.specs.Prelude.{◌≡◌, [], IfOk};
ghost use Rattle.js_ordered_table.specs.Passes.{input_of};
ghost use Rattle.js_ordered_table.specs.Texts as texts;

use crate::consumer_context::ConsumerContext;
use crate::texts::info_timeout;
use js_base::{OutOfMemory, Subject, each_copied};
use js_json::consumer::Info;
use js_pull::{PullSource, ordered_batch_config};
use std::alloc::Global;

/// Returns the pull source for the reader of a consumer with this info. Fails with `OutOfMemory` if
/// memory runs out.
pub fn pull_source(
    context: &ConsumerContext<'_>,
    recreation_count: u64,
    inbox: u64,
    subject: Subject,
    info: &Info,
) -> Result<PullSource, OutOfMemory>
    ensures { IfOk result (λ source. source ≡ texts.pull_source (input_of context.now) recreation_count inbox subject info.now) }
{
    match each_copied(&context.settings.api_prefix, &info.stream_name, &info.name) {
        Ok((api, stream, name)) => Ok(PullSource {
            api,
            stream,
            name,
            inbox,
            subject,
            info_timeout: info_timeout(recreation_count, context.settings),
            config: ordered_batch_config(info),
            pinned: false,
            resilience: context.settings.resilience,
        }),
        Err(OutOfMemory) => {
            drop(subject);
            Err(OutOfMemory)
        }
    }
}

/// Returns the same as [`pull_source`], but with no inbox yet: its number is 0 and its subject is
/// empty. Fails with `OutOfMemory` if memory runs out.
pub fn pull_source_without_inbox(
    alloc: Global,
    context: &ConsumerContext<'_>,
    recreation_count: u64,
    info: &Info,
) -> Result<PullSource, OutOfMemory>
    ensures { IfOk result (λ source. source ≡ texts.pull_source (input_of context.now) recreation_count 0 [] info.now) }
{
    let unknown = Subject::from(String::new(alloc));
    pull_source(context, recreation_count, 0, unknown, info)
}
