//! The log entry that an output of a consumer yields.

ghost use Rattle.std.specs.Prelude.{◌≡◌, [], ◌∷◌, IfOk, option_to_list};
ghost use Rattle.js_event_log.specs.RunProjection.{yielded};

use js_base::{Entry, OutOfMemory, TryClone};
use js_ordered_table::Output;

/// Returns the entry that an output yields, with copies of its subject and payload, or `None` if
/// the output is no yield. Fails only with `OutOfMemory`.
pub fn entry_of(output: &Output) -> Result<Option<Entry>, OutOfMemory>
    ensures { IfOk result (λ entry. option_to_list entry ≡ yielded (output.now ∷ [])) }
{
    match output {
        Output::Yield {
            stream_sequence,
            subject,
            payload,
            ..
        } => Ok(Some(Entry {
            subject: subject.try_clone()?,
            sequence: *stream_sequence,
            payload: payload.clone()?,
        })),
        _ => Ok(None),
    }
}
