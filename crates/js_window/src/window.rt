//! The window, its passes and its permits.
ghost use Rattle.std.specs.Prelude.{◌≡◌, ◌<◌, ◌^◌, IfOk, []};
ghost use Rattle.crossbeam_utils.specs.Seq.{cell_view};
ghost use Rattle.js_window.specs.Caller.{held, Continues, Makes, Splits, Joins};
ghost use Rattle.js_window.specs.Rule.{capacity_of, caller_of, ComesAfter};
ghost use Rattle.js_window.specs.Steps.{IsUnnumbered};

mod steps;

use crate::rule::{
    AsksAllFree, Cell, Copies, CopiesAndEnds, JoinsViews, LooksAgain, Names, Opens, WindowPass,
};
use js_base::OutOfMemory;
use std::alloc::Global;
use std::marker::Model;
use std::snapshot::Snapshot;
use std::sync::Wait;

/// A fixed number of permits that callers in any threads share. Contracts see which window it is,
/// and its capacity.
#[derive(Drop)]
pub struct Window {
    cell: Cell,
    capacity: u64,
}

impl Model for Window {
    ghost use Rattle.std.specs.Prelude.{◌<◌, ◌^◌};
    ghost use Rattle.js_window.specs.Caller.{WindowId};

    ghost Value = { WindowId };

    ghost view = { λ w. record { table = w.cell.table.shared.table_id; capacity = w.capacity } };

    ghost invariant = { λ w. (0 < w.capacity) × (w.capacity < 2 ^ 32) };
}

/// One caller of a window, and what it has seen. It allocates nothing, and you may move it to
/// another thread.
///
/// Give its permits back before you drop it: a dropped pass keeps holding them.
#[derive(Drop)]
pub struct Pass {
    seat: WindowPass,
}

impl Model for Pass {
    ghost use Rattle.crossbeam_utils.specs.Seq.{cell_view};
    ghost use Rattle.js_window.specs.Caller.{Caller};
    ghost use Rattle.js_window.specs.Rule.{number_of, capacity_of, caller_of};
    ghost use Rattle.js_window.specs.Steps.{IsCaller};

    ghost Value = { Caller };

    ghost view = { λ p. caller_of p.seat.table_id (cell_view p.seat) };

    ghost invariant = { λ p. IsCaller (number_of (cell_view p.seat)) (capacity_of (cell_view p.seat)) (cell_view p.seat) };
}

/// One permit of a window. Contracts see the number of the pass that got it. Only that pass can give
/// it back.
///
/// Do not drop it: a dropped permit never becomes free again, and its pass keeps holding it.
#[derive(Drop)]
pub struct Permit {
    bearer: Snapshot<WindowPass>,
}

impl Model for Permit {
    ghost use Rattle.std.specs.Prelude.{ℕ};
    ghost use Rattle.crossbeam_utils.specs.Seq.{cell_view};
    ghost use Rattle.js_window.specs.Rule.{number_of};

    ghost Value = { ℕ };

    ghost view = { λ p. number_of (cell_view p.bearer.value) };
}

/// What a take returns.
#[derive(Drop)]
pub enum Take {
    /// A permit. The pass holds it until you give it back.
    Got(Permit),
    /// No permit was free.
    Full,
}

impl Window {
    ghost use Rattle.js_window.specs.declared.history.Call.TheVariants.{Give, AllFree};
    ghost use Rattle.js_window.specs.Take.{call_of, BearsNumber};

    /// Creates a window of 1 to `u32::MAX` permits, all free, and its first pass, which has seen no
    /// call. Fails only with `OutOfMemory`. No other call of the window allocates.
    pub fn new<R: Wait>(rt: &R, alloc: Global, capacity: u64) -> Result<(Window, Pass), OutOfMemory>
        requires least { 0 < capacity }
        requires most { capacity < 2 ^ 32 }
        ensures capacity { IfOk result (λ made. made.0.capacity ≡ capacity) }
        ensures own { IfOk result (λ made. made.1.window ≡ made.0) }
        ensures seen { IfOk result (λ made. made.1.seen ≡ []) }
        ensures mine { IfOk result (λ made. (made.1.mine ≡ []) × (held made.1 ≡ 0)) }
    {
        let (cell, mut seat) = Cell::ruled(alloc, [0, 0])?;
        cell.swap_as::<Opens, R>(rt, &mut seat, [capacity, capacity]);
        let pass = numbered(rt, &cell, seat);
        Ok((Window { cell, capacity }, pass))
    }

    /// Returns how many permits it has.
    pub fn capacity(&self) -> u64
        ensures { result ≡ self.now.capacity }
    {
        self.capacity
    }

    /// Takes a permit, which carries the pass's number. Returns `Full` only if all permits are out
    /// at this call's place in the history. It does not wait for a permit. If others take and give
    /// at the same time, it tries again.
    pub fn take<R: Wait>(&self, rt: &R, pass: &mut Pass) -> Take
        requires { pass.old.window ≡ self.now }
        ensures call { Makes (call_of result) pass.old pass.new }
        ensures permit { BearsNumber result pass.new.number }
    {
        for _ in rt.forever() {
            let free = self.look_to_take(rt, pass);
            let none_free = free == 0;
            if none_free {
                return Take::Full;
            }
            let taken = self.try_take(rt, pass, free);
            if taken {
                return Take::Got(Permit {
                    bearer: Snapshot::of(&pass.seat),
                });
            }
        }
        unreachable!()
    }

    /// Gives back a permit that this pass got. The permit is free again.
    pub fn give<R: Wait>(&self, rt: &R, pass: &mut Pass, permit: Permit)
        requires window { pass.old.window ≡ self.now }
        requires permit { permit ≡ pass.old.number }
        requires holds { 0 < held pass.old }
        ensures { Makes Give pass.old pass.new }
    {
        drop(permit);
        for _ in rt.forever() {
            let free = self.look_to_give(rt, pass);
            let given = self.try_give(rt, pass, free);
            if given {
                return;
            }
        }
        unreachable!()
    }

    /// Returns whether all permits are free at this call's place in the history.
    pub fn all_free<R: Wait>(&self, rt: &R, pass: &mut Pass) -> bool
        requires { pass.old.window ≡ self.now }
        ensures { Makes (AllFree result) pass.old pass.new }
    {
        let found = self.cell.load_as::<AsksAllFree, R>(rt, &mut pass.seat);
        found[0] == found[1]
    }

    /// Returns a pass for another caller. The new pass has seen as much as this one, holds no
    /// permit, and has a higher number. This pass stays as it is.
    pub fn split<R: Wait>(&self, rt: &R, pass: &mut Pass) -> Pass
        requires { pass.old.window ≡ self.now }
        ensures same { pass.new ≡ pass.old }
        ensures legal { Continues pass.old pass.new }
        ensures new { Splits pass.old result }
        ensures later { pass.old.number < result.number }
    {
        let seat = self.cell.split_pass::<Copies>(&mut pass.seat);
        numbered(rt, &self.cell, seat)
    }

    /// Ends the other pass, which must hold no permit. This pass has then seen what both had seen,
    /// and keeps its own calls and permits.
    pub fn join<R: Wait>(&self, rt: &R, pass: &mut Pass, other: Pass)
        requires window { pass.old.window ≡ self.now }
        requires other { other.window ≡ self.now }
        requires holds_none { held other ≡ 0 }
        ensures { Joins pass.old other pass.new }
    {
        let Pass { mut seat } = other;
        let copy = self.cell.split_pass::<CopiesAndEnds>(&mut seat);
        self.cell.join_pass::<JoinsViews>(&mut pass.seat, copy);
        self.cell.load_as::<LooksAgain, R>(rt, &mut pass.seat);
    }
}

// A pass on a seat that has no number yet. A look gives it that of its place.
fn numbered<R: Wait>(rt: &R, cell: &Cell, mut seat: WindowPass) -> Pass
    requires cell { seat.table_id ≡ cell.now.table.shared.table_id }
    requires unnumbered { IsUnnumbered (capacity_of (cell_view seat)) (cell_view seat) }
    ensures new { Splits (caller_of seat.table_id (cell_view seat)) result }
    ensures later { ComesAfter (cell_view seat).origin result.number }
{
    cell.load_as::<Names, R>(rt, &mut seat);
    Pass { seat }
}
