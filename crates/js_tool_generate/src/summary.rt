//! The counts of outputs in the replay of a generated transcript.
ghost use Rattle.std.specs.Prelude.{◌≡◌, ◌+◌, ◌++◌, ◌∷◌, [], ℕ, List, IfOk, OnOk};
ghost use Rattle.js_ordered_table.specs.declared.run.Output as outputs;
ghost use Rattle.js_tool_generate.specs.Summary as counts;

use js_base::OutOfMemory;
use js_ordered_table::{Output, Run, next_number};

/// The counts of a run's outputs, over its opening and all of its steps.
#[derive(Clone, Copy)]
pub struct Summary {
    pub events: u64,
    pub yields: u64,
    pub items: u64,
    pub recreations: u64,
    /// API requests.
    pub requests: u64,
    /// Pull requests, and replies to flow control.
    pub publishes: u64,
    pub subscribes: u64,
    /// The stream sequence that was yielded last, or 0 if nothing was yielded.
    pub last: u64,
}

fn one_more(number: &mut u64) -> Result<(), OutOfMemory>
    ensures { OnOk result (number.new ≡ number.old + 1) }
{
    *number = next_number(*number)?;
    Ok(())
}

impl Summary {
    // Nothing is counted yet.
    fn new(events: u64) -> Summary
        ensures { result ≡ counts.counts events [] }
    {
        Summary {
            events,
            yields: 0,
            items: 0,
            recreations: 0,
            requests: 0,
            publishes: 0,
            subscribes: 0,
            last: 0,
        }
    }

    // Counts one output more.
    fn count(&mut self, output: &Output) -> Result<(), OutOfMemory>
        ensures { (events : ℕ) → (before : List outputs.Output) → self.old ≡ counts.counts events before
            → OnOk result (self.new ≡ counts.counts events (before ++ output.now ∷ [])) }
    {
        match output {
            Output::Yield {
                stream_sequence,
                ..
            } => {
                self.last = *stream_sequence;
                one_more(&mut self.yields)
            }
            Output::Item { .. } => one_more(&mut self.items),
            Output::Recreate { .. } => one_more(&mut self.recreations),
            Output::Request { .. } => one_more(&mut self.requests),
            Output::Publish { .. } => one_more(&mut self.publishes),
            Output::Subscribe { .. } => one_more(&mut self.subscribes),
        }
    }

    // Counts the outputs of a step.
    fn count_all(&mut self, step: &[Output]) -> Result<(), OutOfMemory>
        ensures { (events : ℕ) → (before : List outputs.Output) → self.old ≡ counts.counts events before
            → OnOk result (self.new ≡ counts.counts events (before ++ step.now)) }
    {
        for output in step {
            self.count(output)?;
        }
        Ok(())
    }
}

/// Returns the counts of a run. Allocates nothing.
///
/// # Errors
///
/// Fails with `OutOfMemory` if a count would exceed a `u64`. The counted outputs are held in
/// memory.
pub fn summary_of(run: &Run) -> Result<Summary, OutOfMemory>
    ensures { IfOk result (λ summary. summary ≡ counts.summary run.now) }
{
    let steps = run.steps.as_slice();
    let mut summary = Summary::new(steps.len() as u64);
    summary.count_all(run.opening.outputs.as_slice())?;
    for step in steps {
        summary.count_all(step.outputs.as_slice())?;
    }
    Ok(summary)
}
