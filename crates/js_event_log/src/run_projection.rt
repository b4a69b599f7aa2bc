//! The projection of an ordered consumer's run, at once or output by output.

ghost use Rattle.std.specs.Prelude.{◌≡◌, [], ◌++◌, ◌∷◌, List, ℕ, take, Err, IfOk, OnOk, OnErr};
ghost use Rattle.js_event_log.specs.declared.projection.error.ApplyError.TheVariants as refusal;
ghost use Rattle.js_ordered_table.specs.declared.consumer.ReplayInput.{ReplayInput};
ghost use Rattle.js_ordered_table.specs.declared.event.Event as events;
ghost use Rattle.js_ordered_table.specs.declared.run.Output as declared;
ghost use Rattle.js_ordered_table.specs.Fold.{fold};
ghost use Rattle.js_ordered_table.specs.Gapless.{Server, IsHonest, all_outputs};
ghost use Rattle.js_event_log.specs.RunProjection.{yielded, projected, IsProjected};
ghost use Rattle.js_event_log.specs.LogTable.{HasLogsTable};

use crate::output_entry::entry_of;
use crate::{ApplyError, Projection};
use js_base::OutOfMemory;
use js_ordered_table::{Output, Run};
use std::alloc::Global;
use std::marker::Model;

/// The projection of a run whose outputs are passed one after another. It keeps the yielded entries
/// and nothing else. Contracts see the applied entries, or the error of the first yield that does
/// not rise.
#[derive(Drop)]
pub struct RunProjection {
    so_far: Result<Projection, ApplyError>,
}

impl Model for RunProjection {
    ghost use Rattle.std.specs.Prelude.{List, Result};
    ghost use Rattle.js_base.specs.declared.message.Entry.{Entry};
    ghost use Rattle.js_event_log.specs.declared.projection.error.ApplyError.{ApplyError};

    ghost Value = { Result (List Entry) ApplyError };

    ghost view = { λ p. p.so_far };
}

impl RunProjection {
    /// Creates the projection of a run without outputs. Allocates nothing.
    pub fn new(alloc: Global) -> RunProjection
        ensures { result ≡ projected [] }
    {
        RunProjection {
            so_far: Ok(Projection::new(alloc)),
        }
    }

    // After want of memory nothing has changed.
    fn take(&mut self, output: &Output) -> Result<(), OutOfMemory>
        ensures taken { (before : List declared.Output) → self.old ≡ projected (yielded before)
            → OnOk result (self.new ≡ projected (yielded (before ++ output.now ∷ []))) }
        ensures refused { OnErr result (self.new ≡ self.old) }
    {
        let Ok(projection) = &mut self.so_far else {
            return Ok(());
        };
        let Some(entry) = entry_of(output)? else {
            return Ok(());
        };
        match projection.apply(entry) {
            Ok(()) => Ok(()),
            Err(ApplyError::OutOfMemory) => Err(OutOfMemory),
            Err(ApplyError::NotRising { last }) => {
                self.so_far = Err(ApplyError::NotRising { last });
                Ok(())
            }
        }
    }

    /// Applies the yields among the next outputs.
    ///
    /// After a yield that is not above the one before it, all further outputs are ignored, and
    /// [`end`](RunProjection::end) returns `NotRising`. Fails only with `OutOfMemory`. Some outputs
    /// from the front may then have been applied.
    pub fn advance(&mut self, outputs: &[Output]) -> Result<(), OutOfMemory>
        ensures advanced { (before : List declared.Output) → self.old ≡ projected (yielded before)
            → OnOk result (self.new ≡ projected (yielded (before ++ outputs.now))) }
        ensures stopped { (before : List declared.Output) → self.old ≡ projected (yielded before)
            → OnErr result ((count : ℕ) × (self.new ≡ projected (yielded (before ++ take count outputs.now)))) }
    {
        for output in outputs {
            self.take(output)?;
        }
        Ok(())
    }

    /// Returns the projection of all outputs. Fails with `NotRising` exactly if a yield's sequence
    /// is not above the one before it; the error carries that earlier sequence. Allocates nothing.
    pub fn end(self) -> Result<Projection, ApplyError>
        ensures { result ≡ self }
    {
        self.so_far
    }
}

/// Projects a run: applies its yields in order.
///
/// With an honest server, the projection has the table of the server's log: `get` and `matching`
/// return what they would if all entries that the filters match had been applied, from the
/// configured start up to the last yield. This holds provided that for each removed entry a later
/// entry of its subject, up to there, remained.
///
/// Fails with `NotRising`, which carries the sequence before the first that does not rise, exactly
/// if the yields do not rise. With an honest server this never happens. Otherwise fails only with
/// `OutOfMemory`.
pub fn project(alloc: Global, run: &Run) -> Result<Projection, ApplyError>
    ensures applied { IsProjected (yielded (all_outputs run.now)) result }
    ensures log { (g : ReplayInput) → (start : ℕ) → (es : List events.Event) → run.now ≡ fold g start es
        → IfOk result (λ entries. HasLogsTable g.setup es run.now entries) }
    ensures risen { (g : ReplayInput) → (start : ℕ) → (es : List events.Event) → (s : Server) → run.now ≡ fold g start es → IsHonest s g.setup es run.now
        → (last : ℕ) → result ≡ Err (refusal.NotRising last) → ⊥ }
{
    let mut projection = RunProjection::new(alloc);
    projection.advance(run.opening.outputs.as_slice())?;
    for step in run.steps.as_slice() {
        projection.advance(step.outputs.as_slice())?;
    }
    projection.end()
}
