//! The messages that a replay yields, sent again to another consumer.

ghost use Rattle.std.specs.Prelude.{◌≡◌, ◌<◌, ◌-◌, IfOk, IsTrue};
ghost use Rattle.js_codes.specs.Name.{is_name};
ghost use Rattle.js_event_log.specs.RunProjection.{not_rising as not_rising_in};
ghost use Rattle.js_tool.specs.LogCommand.{Relay};
ghost use Rattle.js_tool_event_log.specs.LogTexts.{served_text};
ghost use Rattle.js_tool_event_log.specs.Report.{Fills, unless_falling};
ghost use Rattle.js_tool_event_log.specs.Relay.{Serves};

use crate::report::{Report, done, not_rising};
use js_base::{Entry, Items, OutOfMemory};
use js_event_log::{Mirror, MirrorError};
use js_ordered::OrderedSetup;
use js_tool_transcript::relay_text;
use std::alloc::Global;

/// Returns the transcript of a consumer called `name`, of a stream called `stream`, that receives
/// the messages from a start on. It has the setup's filters. Both names have to be valid.
pub(crate) fn relay(
    alloc: Global,
    stream: &str,
    name: &str,
    setup: &OrderedSetup,
    start: u64,
    entries: Items<Entry>,
) -> Result<Report, OutOfMemory>
    requires above { 0 < start }
    requires stream { IsTrue (is_name stream.now) }
    requires name { IsTrue (is_name name.now) }
    ensures report { IfOk result (λ r. r ≡ unless_falling (not_rising_in (start - 1) entries) (served_text stream.now name.now setup.now start entries)) }
    ensures serves { IfOk result (λ r. Serves (Relay stream.now name.now) setup.now start entries r) }
{
    match mirror_of(alloc, start, entries) {
        Ok(mirror) => {
            let text = relay_text(alloc, stream, name, setup, &mirror)?;
            Ok(done(text))
        }
        Err(MirrorError::NotRising { last }) => not_rising(alloc, last),
        Err(MirrorError::OutOfMemory) => Err(OutOfMemory),
        // A push refuses for nothing else.
        Err(MirrorError::StartDiffers { .. } | MirrorError::Conflict { .. }) => unreachable!(),
    }
}

#[tactic(auto, using(std::proofs::lemmas::Grind::common_steps, crate::proofs::FilledMirrors::filling_later, crate::proofs::FilledMirrors::fills_not))]
fn mirror_of(alloc: Global, start: u64, entries: Items<Entry>) -> Result<Mirror, MirrorError>
    requires { 0 < start }
    ensures { Fills start entries result }
{
    let mut mirror = Mirror::new(alloc, start);
    for entry in entries.into_vec() {
        mirror.push(entry)?;
    }
    Ok(mirror)
}
