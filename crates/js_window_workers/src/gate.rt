//! A gate that can hold a worker after its first take, before everything that follows.

ghost use Rattle.std.specs.Prelude.{◌≡◌, ℕ, None, Some, option_map, ⊤};

use js_window::Pass;
use std::snapshot::Snapshot;

/// A gate that each worker passes once, after its first take and before it gives a permit back.
pub trait Gate {
    // The numbers of the workers that may come to the gate.
    ghost admits: { Self → ℕ → Type 0 };

    // What is known of a worker that has passed. Where a gate says nothing of itself, only a call can show it.
    ghost passed: { Self → ℕ → Type 0 };

    /// Returns when the worker with this number may go on. Only a worker that the gate admits may call it.
    fn pass(&self, worker: u64)
        requires { admits self.now worker }
        ensures { passed self.now worker };
}

/// The gate that lets every worker pass at once.
pub struct Open;

impl Gate for Open {
    ghost admits = { λ gate worker. ⊤ };

    ghost passed = { λ gate worker. ⊤ };

    fn pass(&self, worker: u64) {
        let _ = worker;
    }
}

/// One worker's passage through a gate, made at most once. Contracts see the caller as it was when
/// it passed, if it has passed.
#[derive(Drop)]
pub struct GatePassage<'a, G> {
    gate: &'a G,
    /// The caller as it was when it passed.
    pub passed: Option<Snapshot<Pass>>,
}

impl<'a, G: Gate> GatePassage<'a, G> {
    /// Creates a passage that was not made yet.
    pub fn new(gate: &'a G) -> GatePassage<'a, G>
        ensures gate { result.gate ≡ gate.entry }
        ensures new { result.passed ≡ None }
    {
        GatePassage { gate, passed: None }
    }

    /// Calls the gate, and keeps the caller as it is at that moment.
    pub fn pass_gate(&mut self, worker: u64, pass: &Pass)
        requires new { self.old.passed ≡ None }
        requires admitted { G.admits self.old.gate.now worker }
        ensures gate { self.new.gate ≡ self.old.gate }
        ensures called { G.passed self.old.gate.now worker }
        ensures passed { option_map (λ s. s.value) self.new.passed ≡ Some pass.now }
    {
        self.gate.pass(worker);
        self.passed = Some(Snapshot::of(pass));
    }
}
