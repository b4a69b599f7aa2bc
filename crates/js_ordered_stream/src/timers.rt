//! When an ordered stream has something to do by itself.
ghost use Rattle.std.specs.Prelude.{◌≡◌, ◌<◌, ◌^◌, ℕ};
ghost use Rattle.js_base.specs.Clock.{has_come};
ghost use Rattle.js_ordered_stream.specs.Ordered.{something_due};
ghost use Rattle.js_ordered_stream.specs.Rows.{FirstStands, todo_rows};
ghost use Rattle.js_ordered_table.specs.Consumer.{Matter};

use crate::remaining_rows::TaskQueue;
use js_base::Moment;
use js_ordered_table::transitions::event::is_over;
use js_ordered_table::{Consumer, phase_wakes_at};

// The first moment at which a consumer has something to do: at once where a row is left. One that has ended has nothing to do.
pub(crate) fn wakes_at(consumer: &Consumer, todo: &TaskQueue) -> Option<Moment>
    ensures { (now : ℕ) → (m : Matter) → now < 2 ^ 64 → FirstStands m todo.now → has_come result now ≡ something_due now (record { consumer = consumer.now; todo = todo_rows m todo.now }) }
{
    if is_over(&consumer.phase) {
        return None;
    }
    if !todo.is_empty() {
        return Some(0);
    }
    phase_wakes_at(&consumer.phase)
}
