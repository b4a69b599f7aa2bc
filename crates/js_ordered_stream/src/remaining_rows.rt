//! The rows that are left of a turn, and what the last row has looked at.
ghost use Rattle.std.specs.Option.{option_copied};
ghost use Rattle.std.specs.Prelude.{◌≡◌, ◌++◌, ◌∷◌, [], false, is_some, map, true};
ghost use Rattle.js_ordered_table.specs.Tasks.{next_rows, rows_of};
ghost use Rattle.js_ordered_stream.specs.Rows.{FirstStands, answer_in, arrival_in, has_message, hold_none, holds_none, is_first_held, is_held, is_left, is_rested, is_short, is_something as has_seen, kept_if, later_of, left_rows, message_in, read_in, seen_met, todo_rows};
ghost use Rattle.js_ordered_table.specs.Recreation.{message_on};
ghost use Rattle.js_pull.specs.Reader.{opening, reply_to};
ghost use Rattle.js_ordered_table.specs.Consumer.{Matter};
ghost use Rattle.js_ordered_table.specs.declared.row.Row.TheVariants as row;

use crate::later_row::{LaterRow, task_of, waiting_row};
use crate::task_row::stands;
use js_base::{Message, replace_with};
use js_link::Met;
use js_ordered_table::transitions::{NextTasks, Task};
use js_pull::Due;
use std::mem;

/// An answer that a row has met, which the row after it reads.
#[derive(Drop)]
pub(crate) struct Reply {
    pub request: u64,
    /// `None` if the replier is gone.
    pub message: Option<Message>,
}

/// What a row has looked at. It stays in one place from row to row, since a message is large.
#[derive(Drop)]
pub(crate) enum Seen {
    Nothing,
    /// An answer, which the next row reads.
    Reply(Reply),
    /// A message that was taken.
    Message {
        /// The inbox on which push still has to hear it.
        unheard: Option<u64>,
        message: Message,
    },
}

/// The rows that are left, in order. Each task stands for a row.
#[derive(Drop)]
pub(crate) enum TaskQueue {
    Nothing,
    One(Task),
    Two(Task, LaterRow),
}

/// The rows that are left of a turn, with what the last row has looked at.
#[derive(Drop)]
pub(crate) struct RemainingRows {
    pub todo: TaskQueue,
    pub seen: Seen,
}

// What was met, where an answer is one to this request.
pub(crate) fn seen_of(request: u64, met: Met) -> Seen
    ensures { result ≡ seen_met request met }
{
    match met {
        Met::Took(message) => Seen::Message {
            unheard: None,
            message,
        },
        Met::Got(message) => Seen::Reply(Reply {
            request,
            message: Some(message),
        }),
        Met::Gone => Seen::Reply(Reply {
            request,
            message: None,
        }),
        met => {
            drop(met);
            Seen::Nothing
        }
    }
}

impl Seen {
    pub(crate) fn is_something(&self) -> bool
        ensures { result ≡ has_seen self.now }
    {
        match self {
            Seen::Nothing => false,
            Seen::Reply(_) => true,
            Seen::Message { .. } => true,
        }
    }

    pub(crate) fn is_message(&self) -> bool
        ensures { result ≡ has_message self.now }
    {
        match self {
            Seen::Nothing => false,
            Seen::Reply(_) => false,
            Seen::Message { .. } => true,
        }
    }

    // It is the answer to this request.
    pub(crate) fn answers(&self, request: u64) -> bool
        ensures { result ≡ is_some (reply_to request (answer_in self.now)) }
    {
        match self {
            Seen::Nothing => false,
            Seen::Reply(reply) => request == reply.request,
            Seen::Message { .. } => false,
        }
    }

    // Push has still to hear it on this inbox.
    pub(crate) fn is_unheard_on(&self, inbox: u64) -> bool
        ensures { result ≡ is_some (message_on inbox (arrival_in self.now)) }
    {
        match self {
            Seen::Nothing => false,
            Seen::Reply(_) => false,
            Seen::Message { unheard, .. } => match unheard {
                None => false,
                Some(current) => inbox == *current,
            },
        }
    }

    // The message that no row has still to hear.
    pub(crate) fn message(&self) -> Option<&Message>
        ensures { option_copied result ≡ message_in self.now }
    {
        match self {
            Seen::Nothing => None,
            Seen::Reply(_) => None,
            Seen::Message { unheard, message } => match unheard {
                None => Some(message),
                Some(_) => None,
            },
        }
    }

    // It is let go where the last row looked at nothing.
    fn keep_if(&mut self, looked: bool)
        ensures { self.new ≡ kept_if looked self.old }
    {
        // To put a value in a place costs the move of what lay there.
        if !looked && self.is_something() {
            replace_with(self, Seen::Nothing);
        }
    }

    // The message that no row has still to hear is taken out.
    fn take_message(&mut self) -> Option<Message>
        ensures message { result ≡ message_in self.old }
        ensures rest { read_in self.new ≡ read_in self.old }
    {
        if self.message().is_none() {
            return None;
        }
        match mem::replace(self, Seen::Nothing) {
            Seen::Message { message, .. } => Some(message),
            Seen::Nothing => None,
            Seen::Reply(reply) => {
                drop(reply);
                None
            }
        }
    }
}

impl TaskQueue {
    // Whether the last turn is over.
    pub(crate) fn is_empty(&self) -> bool
        ensures { result ≡ is_rested self.now }
    {
        match self {
            TaskQueue::Nothing => true,
            TaskQueue::One(_) => false,
            TaskQueue::Two(_, _) => false,
        }
    }

    // The next row was passed, and none follows it at once.
    fn advance(&mut self)
        ensures rows { (m : Matter) → todo_rows m self.new ≡ later_of self.old }
        ensures stands { (m : Matter) → FirstStands m self.new }
        ensures held { is_first_held self.new ≡ false }
    {
        let rest = match self {
            TaskQueue::Two(_, later) => TaskQueue::One(task_of(*later)),
            TaskQueue::One(_) => TaskQueue::Nothing,
            TaskQueue::Nothing => TaskQueue::Nothing,
        };
        replace_with(self, rest);
    }

    // The next row was passed: this one takes its place.
    fn replace_first(&mut self, next: Task)
        requires { is_held next ≡ false }
        ensures rows { (m : Matter) → todo_rows m self.new ≡ rows_of m next ++ later_of self.old }
        ensures stands { (m : Matter) → is_left (rows_of m next) ≡ true → FirstStands m self.new }
        ensures held { is_first_held self.new ≡ false }
    {
        match self {
            TaskQueue::One(passed) => replace_with(passed, next),
            TaskQueue::Two(passed, _) => replace_with(passed, next),
            TaskQueue::Nothing => replace_with(self, TaskQueue::One(next)),
        }
    }

    // The next row was passed: this task follows at once, where it stands for a row.
    fn follow_one(&mut self, one: Task, seen: &Seen)
        requires { holds_none one ≡ true }
        ensures rows { todo_rows (read_in seen.now) self.new ≡ rows_of (read_in seen.now) one ++ later_of self.old }
        ensures stands { FirstStands (read_in seen.now) self.new }
        ensures held { is_first_held self.new ≡ false }
    {
        if stands(&one, seen) {
            self.replace_first(one);
        } else {
            drop(one);
            self.advance();
        }
    }

    // The next row was passed: the first of two tasks that follow stands for a row, and the second for one that waits, or for none.
    fn follow_both(&mut self, one: Task, second: Task, seen: &Seen)
        requires stands { is_left (rows_of (read_in seen.now) one) ≡ true }
        requires short { is_short ((rows_of (read_in seen.now) one ++ rows_of (read_in seen.now) second) ++ later_of self.old) ≡ true }
        requires held { is_held one ≡ false }
        ensures rows { todo_rows (read_in seen.now) self.new ≡ (rows_of (read_in seen.now) one ++ rows_of (read_in seen.now) second) ++ later_of self.old }
        ensures stands { FirstStands (read_in seen.now) self.new }
        ensures held { is_first_held self.new ≡ false }
    {
        let waits = waiting_row(&second);
        drop(second);
        match waits {
            None => self.replace_first(one),
            Some(later) => replace_with(self, TaskQueue::Two(one, later)),
        }
    }

    // The next row was passed: two tasks follow at once.
    fn follow_two(&mut self, one: Task, second: Task, seen: &Seen)
        requires short { is_short ((rows_of (read_in seen.now) one ++ rows_of (read_in seen.now) second) ++ later_of self.old) ≡ true }
        requires first { holds_none one ≡ true }
        requires second { holds_none second ≡ true }
        ensures rows { todo_rows (read_in seen.now) self.new ≡ (rows_of (read_in seen.now) one ++ rows_of (read_in seen.now) second) ++ later_of self.old }
        ensures stands { FirstStands (read_in seen.now) self.new }
        ensures held { is_first_held self.new ≡ false }
    {
        if stands(&one, seen) {
            self.follow_both(one, second, seen);
        } else {
            drop(one);
            self.follow_one(second, seen);
        }
    }

    // The next row was passed: what follows it at once takes its place.
    fn follow(&mut self, next: NextTasks, seen: &Seen)
        requires short { is_short (next_rows (read_in seen.now) next ++ later_of self.old) ≡ true }
        requires held { hold_none next ≡ true }
        ensures rows { todo_rows (read_in seen.now) self.new ≡ next_rows (read_in seen.now) next ++ later_of self.old }
        ensures stands { FirstStands (read_in seen.now) self.new }
        ensures held { is_first_held self.new ≡ false }
    {
        match next {
            NextTasks::Nothing => self.advance(),
            NextTasks::One(one) => self.follow_one(one, seen),
            NextTasks::Two(one, second) => self.follow_two(one, second, seen),
        }
    }
}

impl RemainingRows {
    // The rows of a pull reader's opening.
    pub(crate) fn opening() -> RemainingRows
        ensures rows { left_rows result ≡ map row.Read opening }
        ensures stands { FirstStands (read_in result.seen) result.todo }
        ensures held { is_first_held result.todo ≡ false }
    {
        RemainingRows {
            todo: TaskQueue::Two(Task::Read(Due::Threshold), LaterRow::Arm),
            seen: Seen::Nothing,
        }
    }

    // Push begins by arming its heartbeat.
    pub(crate) fn arming() -> RemainingRows
        ensures rows { left_rows result ≡ row.Arm ∷ [] }
        ensures stands { FirstStands (read_in result.seen) result.todo }
        ensures held { is_first_held result.todo ≡ false }
    {
        RemainingRows {
            todo: TaskQueue::One(Task::Arm),
            seen: Seen::Nothing,
        }
    }

    // The next row was passed, which has looked at something or at nothing: what follows it at once takes its place.
    pub(crate) fn follow(&mut self, next: NextTasks, looked: bool)
        requires short { is_short (next_rows (read_in (kept_if looked self.old.seen)) next ++ later_of self.old.todo) ≡ true }
        requires held { hold_none next ≡ true }
        ensures seen { self.new.seen ≡ kept_if looked self.old.seen }
        ensures rows { left_rows self.new ≡ next_rows (read_in (kept_if looked self.old.seen)) next ++ later_of self.old.todo }
        ensures stands { FirstStands (read_in self.new.seen) self.new.todo }
        ensures held { is_first_held self.new.todo ≡ false }
    {
        self.seen.keep_if(looked);
        self.todo.follow(next, &self.seen);
    }

    // The message that no row has still to hear is taken out.
    pub(crate) fn take_message(&mut self) -> Option<Message>
        ensures message { result ≡ message_in self.old.seen }
        ensures rows { left_rows self.new ≡ left_rows self.old }
        ensures read { read_in self.new.seen ≡ read_in self.old.seen }
        ensures todo { self.new.todo ≡ self.old.todo }
    {
        self.seen.take_message()
    }

    // The rows that are left are let go.
    pub(crate) fn clear(&mut self)
        ensures rows { left_rows self.new ≡ [] }
        ensures todo { self.new.todo ≡ TaskQueue.Nothing }
    {
        replace_with(&mut self.todo, TaskQueue::Nothing);
    }
}
