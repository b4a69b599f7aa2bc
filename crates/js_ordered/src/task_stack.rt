//! The rows of an event that are still to be passed.
ghost use Rattle.std.specs.Prelude.{◌≡◌, ◌==◌, ◌+◌, ◌≤◌, ◌++◌, ◌∷◌, [], OnOk, length, vec_capacity, vec_len};
ghost use Rattle.js_ordered.specs.Drive.{IsLeft, left_rows};
ghost use Rattle.js_ordered_table.specs.Tasks.{next_rows};
ghost use Rattle.js_ordered_table.specs.Consumer.{Matter};

use js_base::OutOfMemory;
use js_ordered_table::transitions::{NextTasks, Task};
use std::alloc::Global;

/// The rows of an event that are still to be passed. The first of them is stored last.
#[derive(Drop)]
pub(crate) struct TaskStack {
    tasks: Vec<Task>,
}

impl TaskStack {
    // Nothing is left.
    pub(crate) fn new(alloc: Global) -> TaskStack
        ensures { result.tasks.items ≡ [] }
    {
        TaskStack {
            tasks: Vec::new(alloc),
        }
    }

    // Whether nothing is left.
    #[inline]
    pub(crate) fn is_empty(&self) -> bool
        ensures { result ≡ (length self.now.tasks.items == 0) }
    {
        self.tasks.is_empty()
    }

    // Room for what is left of a row and for what follows it.
    #[inline]
    pub(crate) fn make_room(&mut self) -> Result<(), OutOfMemory>
        ensures tasks { self.new.tasks.items ≡ self.old.tasks.items }
        ensures room { OnOk result (vec_len self.new.tasks + 4 ≤ vec_capacity self.new.tasks) }
    {
        self.tasks.reserve(4)?;
        Ok(())
    }

    // The first task is taken out. The caller knows that one is left.
    #[tactic(auto, using(crate::proofs::TakenTasks::left_counts, crate::proofs::TakenTasks::popped))]
    #[inline]
    pub(crate) fn pop(&mut self) -> Task
        requires left { IsLeft self.old.tasks.items }
        ensures tasks { self.old.tasks.items ≡ self.new.tasks.items ++ result ∷ [] }
        ensures len { vec_len self.new.tasks ≤ vec_len self.old.tasks }
        ensures capacity { vec_capacity self.new.tasks ≡ vec_capacity self.old.tasks }
    {
        self.tasks.pop().unwrap()
    }

    // This task comes before those that are left.
    #[inline]
    pub(crate) fn push(&mut self, task: Task)
        requires { vec_len self.old.tasks + 1 ≤ vec_capacity self.old.tasks }
        ensures tasks { self.new.tasks.items ≡ self.old.tasks.items ++ task ∷ [] }
        ensures len { vec_len self.new.tasks ≤ vec_len self.old.tasks + 1 }
        ensures capacity { vec_capacity self.new.tasks ≡ vec_capacity self.old.tasks }
    {
        self.tasks.push_reserved(task);
    }

    // What follows a row comes before the rows that are left.
    #[inline]
    pub(crate) fn push_next(&mut self, next: NextTasks)
        requires { vec_len self.old.tasks + 2 ≤ vec_capacity self.old.tasks }
        ensures tasks { (m : Matter) → left_rows m self.new.tasks.items ≡ next_rows m next ++ left_rows m self.old.tasks.items }
        ensures len { vec_len self.new.tasks ≤ vec_len self.old.tasks + 2 }
        ensures capacity { vec_capacity self.new.tasks ≡ vec_capacity self.old.tasks }
    {
        match next {
            NextTasks::Nothing => {}
            NextTasks::One(task) => self.tasks.push_reserved(task),
            NextTasks::Two(first, second) => {
                self.tasks.push_reserved(second);
                self.tasks.push_reserved(first);
            }
        }
    }
}
