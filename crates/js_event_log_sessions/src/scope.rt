//! The stream that a session reads and the subjects that it filters by. All sessions read the same.

ghost use Rattle.std.specs.Prelude.{◌≡◌, IfOk};
ghost use Rattle.js_ordered_table.specs.Texts.{config_of, filters};
ghost use Rattle.js_event_log_sessions.specs.SessionReplay.{agreed};
ghost use Rattle.js_event_log_sessions.specs.Runs.{same_scope, scope_of};

use js_base::{Items, OutOfMemory, Text, TryClone, both};
use js_json::consumer::Info;
use js_ordered::OrderedSetup;
use std::alloc::Global;

/// The stream that a session reads, and the subjects that it filters by.
#[derive(Drop)]
pub(crate) struct Scope {
    stream: Text,
    filters: Items<Text>,
}

fn filter_subjects(setup: &OrderedSetup) -> &Items<Text>
    ensures { result.now ≡ (config_of setup.now).filter_subjects }
{
    match setup {
        OrderedSetup::Pull(config) => &config.filter_subjects,
        OrderedSetup::Push(config) => &config.filter_subjects,
    }
}

// The subjects that a setup filters by: its filter subject first, unless it is empty.
fn filters_of(alloc: Global, setup: &OrderedSetup) -> Result<Items<Text>, OutOfMemory>
    ensures { IfOk result (λ list. list ≡ filters setup.now) }
{
    let subject = setup.filter_subject();
    let further = filter_subjects(setup).try_clone();
    if subject.is_empty() {
        return further;
    }
    let (first, further) = both(Text::from_str(alloc, subject), further)?;
    let mut filters = further.into_vec();
    filters.insert(0, first)?;
    Ok(Items::from(filters))
}

impl Scope {
    fn of(alloc: Global, setup: &OrderedSetup, first: &Info) -> Result<Scope, OutOfMemory>
        ensures { IfOk result (λ scope. scope ≡ scope_of setup.now first.now) }
    {
        let (stream, filters) = both(first.stream_name.try_clone(), filters_of(alloc, setup))?;
        Ok(Scope { stream, filters })
    }

    fn is_same(&self, other: &Scope) -> bool
        ensures { result ≡ same_scope self.now other.now }
    {
        self.stream == other.stream && self.filters == other.filters
    }

    // What the first session reads, which is this where there was none. None where this is something else.
    fn agreed(self, first: Option<Scope>) -> Option<Scope>
        ensures { result ≡ agreed first self }
    {
        match first {
            None => Some(self),
            Some(first) => {
                let same = first.is_same(&self);
                drop(self);
                if same {
                    Some(first)
                } else {
                    drop(first);
                    None
                }
            }
        }
    }

    /// Returns what the first session reads if a session with this setup, whose first consumer info
    /// is `first`, reads the same. Returns `None` if it reads something else.
    pub(crate) fn after(
        alloc: Global,
        before: Option<Scope>,
        setup: &OrderedSetup,
        first: &Info,
    ) -> Result<Option<Scope>, OutOfMemory>
        ensures { IfOk result (λ scope. scope ≡ agreed before (scope_of setup.now first.now)) }
    {
        let (before, scope) = both(Ok(before), Scope::of(alloc, setup, first))?;
        Ok(scope.agreed(before))
    }
}
