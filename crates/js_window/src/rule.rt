//! The rule of a window's cell, the kinds of step on it, and what each step tells the pass that
//! makes it.
ghost use Rattle.js_window.specs.Rule.{NoPermitIsLost, OneHistoryBalances};

use crate::history::Entry;
use atomic_table::{Join, Split};
use crossbeam_utils::atomic::seq_cell::{Pass, RuledSeqCell};
use crossbeam_utils::rule::{Outcome, Protocol};
use std::collections::LinkedList;

/// Two words, the free count and the capacity. Both are 0 while the cell is closed.
pub type Cell = RuledSeqCell<[u64; 2], View, OneHistory, 2>;

/// A pass of the cell. It allocates nothing.
pub type WindowPass = Pass<[u64; 2], View>;

/// Whether a view makes calls, was ended for a join, or was joined.
pub enum Standing {
    Live,
    Ended,
    Spent,
}

/// What a pass of the cell knows. No value of it is ever made.
pub struct View {
    pub standing: Standing,
    pub number: Option<u64>,

    /// The number of the pass from which it was split.
    pub origin: Option<u64>,

    pub capacity: Option<u64>,

    /// The beginning of the history that it has seen.
    pub seen: LinkedList<Entry>,

    /// The calls that it made.
    pub mine: LinkedList<Entry>,

    /// What it and the other pass had seen when they were last joined.
    pub joined_own: LinkedList<Entry>,
    pub joined_other: LinkedList<Entry>,
}

/// The rule: all views have seen beginnings of one legal history, and the free count plus the
/// permits that they hold is the capacity.
pub struct OneHistory;

impl Protocol<[u64; 2], View> for OneHistory {
    ghost use Rattle.js_window.specs.Rule.{IsKept, newcomer};

    ghost holds = { IsKept };

    ghost first = { newcomer };
}

/// Proves that no permit is lost: between any two steps of a window, the free count plus the permits
/// that all its passes hold is the capacity, since all passes see one legal history. Calling it does
/// nothing.
pub fn permits_balance()
    ensures between_steps { NoPermitIsLost }
    ensures by_history { OneHistoryBalances }
{}

/// The first pass opens the cell.
pub struct Opens;

impl Outcome<[u64; 2], View> for Opens {
    ghost use Rattle.js_window.specs.Steps.{Opened};

    ghost then = { Opened };
}

/// A pass reads the cell, and adds no call.
pub struct Looks;

impl Outcome<[u64; 2], View> for Looks {
    ghost use Rattle.js_window.specs.Steps.{Looked};

    ghost then = { Looked };
}

/// A new pass reads the cell, and gets its number.
pub struct Names;

impl Outcome<[u64; 2], View> for Names {
    ghost use Rattle.js_window.specs.Steps.{Named};

    ghost then = { Named };
}

/// A pass reads the cell after a join.
pub struct LooksAgain;

impl Outcome<[u64; 2], View> for LooksAgain {
    ghost use Rattle.js_window.specs.Steps.{Recalled};

    ghost then = { Recalled };
}

/// A take that finds no free permit.
pub struct Refuses;

impl Outcome<[u64; 2], View> for Refuses {
    ghost use Rattle.js_window.specs.Steps.{Refused};

    ghost then = { Refused };
}

/// A take that gets a permit.
pub struct Takes;

impl Outcome<[u64; 2], View> for Takes {
    ghost use Rattle.js_window.specs.Steps.{Taken};

    ghost then = { Taken };
}

/// A pass gives a permit back.
pub struct Gives;

impl Outcome<[u64; 2], View> for Gives {
    ghost use Rattle.js_window.specs.Steps.{Given};

    ghost then = { Given };
}

/// A pass asks whether all permits are free.
pub struct AsksAllFree;

impl Outcome<[u64; 2], View> for AsksAllFree {
    ghost use Rattle.js_window.specs.Steps.{AllFreeAsked};

    ghost then = { AllFreeAsked };
}

/// A split: a new view begins with a copy of what the old one has seen.
pub struct Copies;

impl Split<View> for Copies {
    ghost use Rattle.js_window.specs.Rule.{copy_of};

    ghost left = { λ v. v };

    ghost right = { copy_of };
}

/// The same split, after which the old view ends.
pub struct CopiesAndEnds;

impl Split<View> for CopiesAndEnds {
    ghost use Rattle.js_window.specs.Rule.{ended, copy_of};

    ghost left = { ended };

    ghost right = { copy_of };
}

/// A join.
pub struct JoinsViews;

impl Join<View> for JoinsViews {
    ghost use Rattle.js_window.specs.Rule.{joined, spent};

    ghost both = { joined };

    ghost spent = { spent };
}
