//! The single steps on the cell of which the window's calls consist.
ghost use Rattle.std.specs.Prelude.{◌≡◌, ◌+◌, ◌<◌, ◌≤◌, MatchBool};
ghost use Rattle.js_window.specs.Caller.{held, Makes, Watches};
ghost use Rattle.js_window.specs.History.{out_after};
ghost use Rattle.js_window.specs.declared.history.Call.TheVariants.{Got, Full, Give};

use super::{Pass, Window};
use crate::rule::{Gives, Looks, Refuses, Takes};
use std::sync::Wait;

impl Window {
    // How many permits are free, after what the pass has then seen. Where none is, this step is the take that found none.
    pub(crate) fn look_to_take<R: Wait>(&self, rt: &R, pass: &mut Pass) -> u64
        requires { pass.old.window ≡ self.now }
        ensures none { result ≡ 0 → Makes Full pass.old pass.new }
        ensures some { 0 < result → Watches pass.old pass.new }
        ensures free { result + out_after pass.new.seen ≡ self.now.capacity }
    {
        self.cell.load_as::<Refuses, R>(rt, &mut pass.seat)[0]
    }

    // Takes a permit if just so many are free.
    pub(crate) fn try_take<R: Wait>(&self, rt: &R, pass: &mut Pass, free: u64) -> bool
        requires window { pass.old.window ≡ self.now }
        requires some { 0 < free }
        ensures { MatchBool result (Makes Got pass.old pass.new) (Watches pass.old pass.new) }
    {
        let found = [free, self.capacity];
        let fewer = [free - 1, self.capacity];
        self.cell
            .compare_exchange_as::<Takes, R>(rt, &mut pass.seat, found, fewer)
            .is_ok()
    }

    // How many permits are free, after what the pass has then seen.
    pub(crate) fn look_to_give<R: Wait>(&self, rt: &R, pass: &mut Pass) -> u64
        requires { pass.old.window ≡ self.now }
        ensures look { Watches pass.old pass.new }
        ensures free { result + out_after pass.new.seen ≡ self.now.capacity }
    {
        self.cell.load_as::<Looks, R>(rt, &mut pass.seat)[0]
    }

    // Gives a permit back if just so many are free.
    pub(crate) fn try_give<R: Wait>(&self, rt: &R, pass: &mut Pass, free: u64) -> bool
        requires window { pass.old.window ≡ self.now }
        requires holds { 0 < held pass.old }
        requires most { free ≤ self.now.capacity }
        ensures { MatchBool result (Makes Give pass.old pass.new) (Watches pass.old pass.new) }
    {
        let found = [free, self.capacity];
        let more = [free + 1, self.capacity];
        self.cell
            .compare_exchange_as::<Gives, R>(rt, &mut pass.seat, found, more)
            .is_ok()
    }
}
