//! The events of a generated transcript.
ghost use Rattle.std.specs.Prelude.{◌≡◌, ◌≤◌, IfOk, take};
ghost use Rattle.js_ordered_table.specs.Replay.{IsValid};
ghost use Rattle.js_tool_generate.specs.Summary.{YieldsItsLast};
ghost use Rattle.js_tool_generate.specs.Server.{IsServed};
ghost use Rattle.js_tool_generate.specs.Transcript as transcript;

use crate::episode::Episode;
use js_base::OutOfMemory;
use js_ordered_table::Event;
use std::alloc::Global;

// The events of so many episodes that there are enough of them.
fn whole_episodes(alloc: Global, seed: u64, count: u64) -> Result<Vec<Event>, OutOfMemory>
    requires { count ≤ 200_000 }
    ensures { IfOk result (λ events. transcript.generated seed count ≡ take count events.items) }
{
    let wanted = count as usize;
    let mut events = Vec::with_capacity(alloc, wanted + 12)?;
    let mut episode = Episode::first(seed);
    while events.len() < wanted {
        episode.push_events(alloc, &mut events)?;
        episode = episode.next();
    }
    Ok(events)
}

/// Returns the first `count` events that a seed gives, one a millisecond.
///
/// Again and again some messages arrive in order and one is missing. The message after it shows the
/// gap; the consumer is deleted and recreated, and the missing message arrives late, on the old
/// inbox. Whatever the seed, the server is honest: the log holds each sequence, with the sequence
/// as its payload, nothing is removed from it, and each inbox is sent all of it from where it
/// starts. So the yields of a replay leave no gap.
///
/// # Errors
///
/// Fails only with `OutOfMemory`.
pub fn generated(alloc: Global, seed: u64, count: u64) -> Result<Vec<Event>, OutOfMemory>
    requires { count ≤ 200_000 }
    ensures events { IfOk result (λ events. events.items ≡ transcript.generated seed count) }
    ensures valid { IfOk result (λ events. IsValid transcript.replay_input 0 events.items) }
    ensures served { IfOk result (λ events. IsServed seed count events.items) }
    ensures counted { IfOk result (λ events. YieldsItsLast events.items) }
{
    let mut events = whole_episodes(alloc, seed, count)?;
    events.truncate(count as usize);
    Ok(events)
}
