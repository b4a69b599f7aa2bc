//! How many messages a session has yielded, and the bookmark after them.

ghost use Rattle.std.specs.Prelude.{◌≡◌, ℕ, ◌+◌, List, [], ◌∷◌, ◌++◌, IfOk};
ghost use Rattle.js_ordered_table.specs.Gapless.{Entry, yields};
ghost use Rattle.js_event_log_sessions.specs.SessionReplay.{after_yield, mark_of};

use js_base::OutOfMemory;
use js_ordered::Output;
use js_ordered_table::next_number;

/// The number of yields so far, and the bookmark after them.
#[derive(Clone, Copy)]
pub(crate) struct Mark {
    pub(crate) count: u64,
    /// `None` once the highest possible sequence was yielded.
    pub(crate) next: Option<u64>,
}

fn after_yield(before: Option<u64>, sequence: u64) -> Option<u64>
    ensures { result ≡ after_yield before sequence }
{
    match before {
        None => None,
        Some(_) => {
            if sequence == u64::MAX {
                None
            } else {
                Some(sequence + 1)
            }
        }
    }
}

impl Mark {
    /// Returns the mark before any yield.
    pub(crate) fn at(next: u64) -> Mark
        ensures { result ≡ mark_of next [] }
    {
        Mark {
            count: 0,
            next: Some(next),
        }
    }

    fn after_sequence(self, sequence: u64) -> Result<Mark, OutOfMemory>
        ensures { IfOk result (λ mark. mark ≡ record { count = self.count + 1; next = after_yield self.next sequence }) }
    {
        Ok(Mark {
            count: next_number(self.count)?,
            next: after_yield(self.next, sequence),
        })
    }

    fn after_output(self, output: &Output) -> Result<Mark, OutOfMemory>
        ensures { (next : ℕ) → (entries : List Entry) → self ≡ mark_of next entries
            → IfOk result (λ mark. mark ≡ mark_of next (entries ++ yields (output.now ∷ []))) }
    {
        match output {
            Output::Yield {
                stream_sequence,
                ..
            } => self.after_sequence(*stream_sequence),
            _ => Ok(self),
        }
    }

    /// Returns the mark after these outputs too.
    pub(crate) fn after(self, outputs: &[Output]) -> Result<Mark, OutOfMemory>
        ensures { (next : ℕ) → (entries : List Entry) → self ≡ mark_of next entries
            → IfOk result (λ mark. mark ≡ mark_of next (entries ++ yields outputs.now)) }
    {
        let mut mark = self;
        for output in outputs {
            mark = mark.after_output(output)?;
        }
        Ok(mark)
    }
}
