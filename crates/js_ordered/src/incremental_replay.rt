//! A replay that takes its events one by one.
ghost use Rattle.std.specs.Prelude.{◌≡◌, ◌+◌, ◌∷◌, ◌++◌, [], ℕ, List, Some, None, IfOk, OnOk, OnErr, Err, if◌then◌else◌};
ghost use Rattle.js_ordered.specs.IncrementalReplay.{HasCome, IsEnd, IsWithin, replay_given, rest_of_replay};
ghost use Rattle.js_ordered.specs.Drive.{IsLeft};
ghost use Rattle.js_ordered_table.specs.Refusal.{first_of, refuse_input as refused_at};
ghost use Rattle.js_ordered_table.specs.declared.consumer.ReplayInput.{ReplayInput};
ghost use Rattle.js_ordered_table.specs.declared.event.Event as events;

use crate::drive::pass_left;
use crate::event_context::EventContext;
use crate::replay::{is_exhausted, link_after, open};
use crate::task_stack::TaskStack;
use js_base::{Items, Moment, OutOfMemory, replace_with};
use js_json::consumer::Info;
use js_ordered_table::transitions::Task;
use js_ordered_table::transitions::event::is_over;
use js_ordered_table::{
    ConsumerContext, Event, OrderedSetup, Output, ReplayError, ReplayState, Settings, next_number,
    refuse_input,
};
use std::alloc::Global;
use std::mem;

/// A replay that takes its events one by one.
///
/// It works as [`replay_ordered`](crate::replay_ordered) does, but keeps none of its events. So you
/// can write what an event puts out, and drop both, before the next event. If the input is refused,
/// [`end`](IncrementalReplay::end) says so.
#[derive(Drop)]
pub struct IncrementalReplay<'a> {
    settings: &'a Settings,
    setup: &'a OrderedSetup,
    first: &'a Info,
    moment: Moment,
    count: u64,
    early: Option<u64>,
    exhausted: Option<u64>,
    state: ReplayState,
    outputs: Items<Output>,
    todo: TaskStack,
}

// A place that was found before, or this one.
fn first_place(found: Option<u64>, is_here: bool, place: u64) -> Option<u64>
    ensures { result ≡ first_of found (if is_here then Some place else None) }
{
    match found {
        Some(earlier) => Some(earlier),
        None => { if is_here { Some(place) } else { None } }
    }
}

// These are the outputs from now on.
fn replace_outputs(outputs: &mut Items<Output>, made: Vec<Output>)
    ensures { outputs.new ≡ made.items }
{
    replace_with(outputs, Items::from(made));
}

// No outputs, in the room of those that there were.
fn empty(alloc: Global, outputs: &mut Items<Output>)
    ensures { outputs.new ≡ [] }
{
    let mut room = mem::replace(outputs, Items::new(alloc)).into_vec();
    room.clear();
    replace_outputs(outputs, room);
}

impl<'a> IncrementalReplay<'a> {
    /// Opens a replay that has had no events yet. The arguments are those of `replay_ordered`.
    /// Fails with `OutOfMemory` if memory runs out.
    pub fn open(
        alloc: Global,
        settings: &'a Settings,
        setup: &'a OrderedSetup,
        first: &'a Info,
        start: Moment,
    ) -> Result<IncrementalReplay<'a>, OutOfMemory>
        ensures { IfOk result (λ replay. HasCome (record { settings = settings.now; setup = setup.now; first = first.now }) start [] replay) }
    {
        let context = ConsumerContext {
            settings,
            setup,
            first,
            moment: start,
        };
        let mut outputs = Vec::new(alloc);
        let mut todo = TaskStack::new(alloc);
        match open(alloc, &context, &mut todo, &mut outputs) {
            Ok(state) => Ok(IncrementalReplay {
                settings,
                setup,
                first,
                moment: start,
                count: 0,
                early: None,
                exhausted: None,
                state,
                outputs: Items::from(outputs),
                todo,
            }),
            Err(OutOfMemory) => {
                drop(outputs);
                drop(todo);
                Err(OutOfMemory)
            }
        }
    }

    // An event begins.
    fn begin(&mut self, alloc: Global, event: &Event) -> Result<(), OutOfMemory>
        requires rested { self.old.todo.tasks.items ≡ [] }
        ensures kept { record self.new { state = self.old.state; outputs = self.old.outputs; todo = self.old.todo } ≡ self.old }
        ensures rest { rest_of_replay event.now self.new ≡ rest_of_replay event.now self.old }
        ensures left { OnOk result (IsLeft self.new.todo.tasks.items) }
    {
        self.todo.make_room()?;
        self.todo.push(Task::Event);
        empty(alloc, &mut self.outputs);
        self.state.link_up = link_after(&event.what, self.state.link_up);
        Ok(())
    }

    // An event begins. One of which a part was passed, before memory ran out, goes on.
    fn begin_or_resume(&mut self, alloc: Global, event: &Event) -> Result<(), OutOfMemory>
        ensures kept { record self.new { state = self.old.state; outputs = self.old.outputs; todo = self.old.todo } ≡ self.old }
        ensures rest { rest_of_replay event.now self.new ≡ rest_of_replay event.now self.old }
        ensures left { OnOk result (IsLeft self.new.todo.tasks.items) }
    {
        if self.todo.is_empty() {
            return self.begin(alloc, event);
        }
        Ok(())
    }

    // What is left of an event is passed.
    fn go_on(&mut self, alloc: Global, event: &Event) -> Result<(), OutOfMemory>
        requires left { IsLeft self.old.todo.tasks.items }
        ensures kept { record self.new { state = self.old.state; outputs = self.old.outputs; todo = self.old.todo } ≡ self.old }
        ensures passed { OnOk result (rest_of_replay event.now self.old ≡ record { state = self.new.state; outputs = self.new.outputs }) }
        ensures rested { OnOk result (self.new.todo.tasks.items ≡ []) }
        ensures refused { OnErr result (rest_of_replay event.now self.new ≡ rest_of_replay event.now self.old) }
    {
        let consumer = ConsumerContext {
            settings: self.settings,
            setup: self.setup,
            first: self.first,
            moment: event.at,
        };
        let context = EventContext {
            consumer,
            what: Some(&event.what),
        };
        let mut outputs = mem::replace(&mut self.outputs, Items::new(alloc)).into_vec();
        let passed = pass_left(
            alloc,
            &context,
            &mut self.state,
            &mut self.todo,
            &mut outputs,
        );
        replace_outputs(&mut self.outputs, outputs);
        passed
    }

    // An event is passed, from where it was refused before.
    fn pass(&mut self, alloc: Global, event: &Event) -> Result<(), OutOfMemory>
        ensures kept { record self.new { state = self.old.state; outputs = self.old.outputs; todo = self.old.todo } ≡ self.old }
        ensures passed { OnOk result (rest_of_replay event.now self.old ≡ record { state = self.new.state; outputs = self.new.outputs }) }
        ensures rested { OnOk result (self.new.todo.tasks.items ≡ []) }
        ensures refused { OnErr result (rest_of_replay event.now self.new ≡ rest_of_replay event.now self.old) }
    {
        self.begin_or_resume(alloc, event)?;
        self.go_on(alloc, event)
    }

    /// Passes the next event.
    ///
    /// # Errors
    ///
    /// Fails with `OutOfMemory` if memory runs out, or if the number of events would exceed a
    /// `u64`. The replay then stands within that event, and loses nothing of it: pass the same
    /// event again to continue. Do not pass another event in its place, since it would be taken for
    /// the rest of that event.
    pub fn advance(&mut self, alloc: Global, event: &Event) -> Result<(), OutOfMemory>
        ensures passed { (g : ReplayInput) → (start : ℕ) → (es : List events.Event) → HasCome g start es self.old
            → OnOk result (HasCome g start (es ++ event.now ∷ []) self.new) }
        ensures counted { OnOk result (self.new.count ≡ self.old.count + 1) }
        ensures refused { (g : ReplayInput) → (start : ℕ) → (es : List events.Event) → HasCome g start es self.old
            → OnErr result (IsWithin g start es event.now self.new) }
        ensures resumed { (g : ReplayInput) → (start : ℕ) → (es : List events.Event) → IsWithin g start es event.now self.old
            → OnOk result (HasCome g start (es ++ event.now ∷ []) self.new) }
        ensures kept { (g : ReplayInput) → (start : ℕ) → (es : List events.Event) → IsWithin g start es event.now self.old
            → OnErr result (IsWithin g start es event.now self.new) }
    {
        let place = self.count;
        let count = next_number(place)?;
        let is_early = event.at < self.moment;
        self.pass(alloc, event)?;
        self.early = first_place(self.early, is_early, place);
        let is_last = is_exhausted(&self.state.consumer.phase);
        self.exhausted = first_place(self.exhausted, is_last, place);
        self.moment = event.at;
        self.count = count;
        Ok(())
    }

    /// Returns what the last event has put out or, before the first event, what the opening has.
    pub fn outputs(&self) -> &[Output]
        ensures { result.now ≡ self.now.outputs }
    {
        self.outputs.as_slice()
    }

    /// Returns the number of events so far.
    pub fn count(&self) -> u64
        ensures { result ≡ self.now.count }
    {
        self.count
    }

    /// Returns the consumer as the events so far have left it, beside the link of the replay.
    pub fn state(&self) -> &ReplayState
        ensures { result.now ≡ self.now.state }
    {
        &self.state
    }

    // What is wrong with what the replay was opened with.
    fn refuse_given(&self) -> Option<ReplayError>
        ensures { result ≡ refused_at (replay_given self.now) self.now.moment [] }
    {
        let context = ConsumerContext {
            settings: self.settings,
            setup: self.setup,
            first: self.first,
            moment: self.moment,
        };
        refuse_input(&context, &[])
    }

    /// Returns whether the consumer has ended, if no more events come.
    ///
    /// # Errors
    ///
    /// Fails with the refusal that applies, in the order of `replay_ordered`. Fails with
    /// `OutOfMemory` within an event for which memory ran out.
    pub fn end(&self) -> Result<bool, ReplayError>
        ensures ended { (g : ReplayInput) → (start : ℕ) → (es : List events.Event) → HasCome g start es self.now → IsEnd g start es result }
        ensures within { IsLeft self.now.todo.tasks.items → result ≡ Err ReplayError.OutOfMemory }
    {
        if !self.todo.is_empty() {
            return Err(ReplayError::OutOfMemory);
        }
        if let Some(refusal) = self.refuse_given() {
            return Err(refusal);
        }
        if let Some(place) = self.early {
            return Err(ReplayError::BadEvent { place });
        }
        if let Some(place) = self.exhausted {
            return Err(ReplayError::SequenceEnd { place });
        }
        Ok(is_over(&self.state.consumer.phase))
    }
}
