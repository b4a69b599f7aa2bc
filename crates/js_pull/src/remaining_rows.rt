//! The rows of an event that are still to be passed.
ghost use Rattle.std.specs.Prelude.{◌≡◌, ◌++◌, None, Some};
ghost use Rattle.js_pull.specs.Rows.{row_list, rows_of};
ghost use Rattle.js_pull.specs.Poll.{later_rows};
ghost use Rattle.js_pull.specs.Stream.{FirstOf, left_rows, rows_empty};

use crate::{Due, DueRows};
use js_base::{Message, replace_with};

/// The rows of an event that are still to be passed, with the reply that the first of them reads.
#[derive(Drop)]
pub(crate) struct RemainingRows {
    pub todo: DueRows,
    pub reply: Option<Message>,
}

impl RemainingRows {
    /// Returns rows of which none reads a reply.
    pub fn of(todo: DueRows) -> RemainingRows
        ensures { left_rows result ≡ rows_of None todo }
    {
        RemainingRows { todo, reply: None }
    }

    /// Returns the next row.
    pub fn first(&self) -> Option<Due>
        ensures { FirstOf result self.now }
    {
        match self.todo {
            DueRows::Nothing => None,
            DueRows::One(due) => Some(due),
            DueRows::Two(due, _) => Some(due),
        }
    }

    /// Returns whether no row is left.
    pub fn is_empty(&self) -> bool
        ensures { result ≡ rows_empty (left_rows self.now) }
    {
        match self.todo {
            DueRows::Nothing => true,
            DueRows::One(_) => false,
            DueRows::Two(_, _) => false,
        }
    }

    // The row that is left after the next one.
    fn later(&self) -> Option<Due>
        ensures { row_list None result ≡ later_rows (left_rows self.now) }
    {
        match self.todo {
            DueRows::Nothing => None,
            DueRows::One(_) => None,
            DueRows::Two(_, later) => Some(later),
        }
    }

    /// Replaces all rows by others, none of which reads a reply.
    pub fn renew(&mut self, todo: DueRows)
        ensures { left_rows self.new ≡ rows_of None todo }
    {
        replace_with(self, RemainingRows::of(todo));
    }

    /// Replaces the next row, which was passed, by the row that follows it at once and the reply
    /// that this reads.
    pub fn follow(&mut self, next: Option<Due>, reply: Option<Message>)
        ensures { left_rows self.new ≡ row_list reply next ++ later_rows (left_rows self.old) }
    {
        let later = self.later();
        match next {
            None => {
                drop(reply);
                replace_with(self, RemainingRows::of(only(later)));
            }
            Some(next) => replace_with(self, RemainingRows::before(next, reply, later)),
        }
    }

    // A row, with the reply that it reads, before one that is left.
    fn before(next: Due, reply: Option<Message>, later: Option<Due>) -> RemainingRows
        ensures { left_rows result ≡ row_list reply (Some next) ++ row_list None later }
    {
        match later {
            None => RemainingRows {
                todo: DueRows::One(next),
                reply,
            },
            Some(later) => RemainingRows {
                todo: DueRows::Two(next, later),
                reply,
            },
        }
    }
}

fn only(due: Option<Due>) -> DueRows
    ensures { rows_of None result ≡ row_list None due }
{
    match due {
        None => DueRows::Nothing,
        Some(due) => DueRows::One(due),
    }
}
