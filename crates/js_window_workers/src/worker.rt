//! One worker, which takes permits of a window and gives each back.
ghost use Rattle.std.specs.Prelude.{◌≡◌, ◌<◌, ◌+◌, None, option_map};
ghost use Rattle.js_window_workers.specs.Worker.{TookCalls, PassedGate, AdmitsAfterTake, IsReady, HasEnded};

use crate::gate::{Gate, GatePassage};
use js_window::{Pass, Take, Window};
use std::sync::Wait;

/// A worker that has not begun: its pass and its number.
#[derive(Drop)]
pub struct Job {
    pub pass: Pass,
    pub worker: u64,
}

/// A worker that has ended: its pass, how many of its takes got a permit, and how many found none free.
#[derive(Drop)]
pub struct Ended {
    pub pass: Pass,
    pub got: u64,
    pub full: u64,
}

/// Takes a permit `calls` times, and gives each back before the next take. Returns how many takes
/// got a permit, and how many found none free. The pass must be one of this window's.
///
/// After the first take, and before it gives any permit back, it calls the gate once with the
/// worker's number. The gate has to admit the worker by then. With 0 calls it never calls the gate,
/// which need not admit the worker. What the pass has seen stays legal.
pub fn take_calls<R: Wait, G: Gate>(
    rt: &R,
    window: &Window,
    pass: &mut Pass,
    calls: u64,
    worker: u64,
    gate: &G,
) -> (u64, u64)
    requires own { pass.old.window ≡ window.now }
    requires admitted { 0 < calls → AdmitsAfterTake (G.admits gate.now worker) pass.old }
    ensures sum { result.0 + result.1 ≡ calls }
    ensures calls { TookCalls result.0 result.1 pass.old pass.new }
    ensures called { 0 < calls → G.passed gate.now worker }
{
    take_calls_through(rt, window, pass, calls, worker, &mut GatePassage::new(gate))
}

/// Makes the calls of [`take_calls`] through a passage of the gate. If there is a call, the passage
/// keeps the caller as it was when it passed: after its first take, and before it gave a permit
/// back. The passage must not have been made before.
pub fn take_calls_through<R: Wait, G: Gate>(
    rt: &R,
    window: &Window,
    pass: &mut Pass,
    calls: u64,
    worker: u64,
    passage: &mut GatePassage<G>,
) -> (u64, u64)
    requires own { pass.old.window ≡ window.now }
    requires new { passage.old.passed ≡ None }
    requires admitted { 0 < calls → AdmitsAfterTake (G.admits passage.old.gate.now worker) pass.old }
    ensures sum { result.0 + result.1 ≡ calls }
    ensures calls { TookCalls result.0 result.1 pass.old pass.new }
    ensures called { 0 < calls → G.passed passage.old.gate.now worker }
    ensures gate { PassedGate calls pass.old (option_map (λ s. s.value) passage.new.passed) }
{
    let mut got = 0;
    let mut full = 0;
    for call in 0..calls {
        let taken = window.take(rt, pass);
        if call == 0 {
            passage.pass_gate(worker, pass);
        }
        match taken {
            Take::Got(permit) => {
                window.give(rt, pass, permit);
                got += 1;
            }
            Take::Full => full += 1,
        }
    }
    (got, full)
}

/// Makes all calls of one worker, and returns its pass and its counts.
pub fn work<R: Wait, G: Gate>(rt: &R, window: &Window, job: Job, calls: u64, gate: &G) -> Ended
    requires ready { IsReady window.now job }
    requires admitted { 0 < calls → AdmitsAfterTake (G.admits gate.now job.worker) job.pass }
    ensures ended { HasEnded window.now calls result }
    ensures number { result.pass.number ≡ job.pass.number }
    ensures called { 0 < calls → G.passed gate.now job.worker }
{
    let Job { mut pass, worker } = job;
    let (got, full) = take_calls(rt, window, &mut pass, calls, worker, gate);
    Ended { pass, got, full }
}
