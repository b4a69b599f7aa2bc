//! All workers of one window.
ghost use Rattle.std.specs.Prelude.{◌≡◌, ◌+◌, ◌*◌, ◌<◌, ◌≤◌, ◌^◌, ℕ, IfOk, OnOk, All, vec_len, sum_by};
ghost use mathlib.Core.List.{IsPrefix};
ghost use Rattle.js_window_workers.specs.WindowCounts.{Counts, CountsOfRun};
ghost use Rattle.js_window_workers.specs.Worker.{AdmitsEach, AreNumbered, EachPassed, HaveOwnPasses, IsReady, HasEnded};

use crate::gate::Gate;
use crate::worker::{Ended, Job, work};
use js_base::OutOfMemory;
use js_window::{Pass, Window};
use std::alloc::Global;
use std::mem::replace;
use std::sync::Wait;
use std::thread;
use std::thread::Threads;

/// How many takes of all workers got a permit, how many found none free, and whether all permits
/// were free after every worker had ended.
#[derive(Clone, Copy, Debug, PartialEq, Eq)]
pub struct WindowCounts {
    pub got: u64,
    pub full: u64,
    pub all_free: bool,
}

/// Runs 1 to 8 workers, numbered from 0, on a new window with 1 to `u32::MAX` permits. Each worker
/// has its own pass, and makes `calls` calls, at most 100,000, as [`take_calls`](crate::take_calls)
/// does. When all have ended, it joins their passes and asks once whether all permits are free. If
/// `calls` is at least 1, each worker passes the gate.
///
/// A worker for which no thread can be made runs on the caller's thread. Fails only with
/// `OutOfMemory`.
pub fn run_window<R: Threads + Wait + Sync, G: Gate + Sync>(
    rt: &R,
    alloc: Global,
    capacity: u64,
    threads: u64,
    calls: u64,
    gate: &G,
) -> Result<WindowCounts, OutOfMemory>
    requires capacity { (0 < capacity) × (capacity < 2 ^ 32) }
    requires threads { (0 < threads) × (threads ≤ 8) }
    requires calls { calls ≤ 100000 }
    requires gate { 0 < calls → AdmitsEach (G.admits gate.now) threads }
    ensures sum { IfOk result (λ counts. counts.got + counts.full ≡ threads * calls) }
    ensures run { IfOk result (CountsOfRun capacity threads calls) }
    ensures gate { IfOk result (λ _. 0 < calls → EachPassed (G.passed gate.now) threads) }
{
    let (window, mut first) = Window::new(rt, alloc, capacity)?;
    run_on(rt, alloc, &window, &mut first, threads, calls, gate)
}

// The same on a window that was made, by its first pass.
fn run_on<R: Threads + Wait + Sync, G: Gate + Sync>(
    rt: &R,
    alloc: Global,
    window: &Window,
    first: &mut Pass,
    threads: u64,
    calls: u64,
    gate: &G,
) -> Result<WindowCounts, OutOfMemory>
    requires own { first.old.window ≡ window.now }
    requires small { (threads ≤ 8) × (calls ≤ 100000) }
    requires gate { 0 < calls → AdmitsEach (G.admits gate.now) threads }
    ensures sum { IfOk result (λ counts. counts.got + counts.full ≡ threads * calls) }
    ensures counts { IfOk result (Counts window.now threads calls first.new) }
    ensures gate { IfOk result (λ _. 0 < calls → EachPassed (G.passed gate.now) threads) }
{
    let jobs = ready(rt, alloc, window, first, threads)?;
    let ended = thread::map_vec(
        rt,
        jobs,
        &|job: Job| -> Ended
            requires { IsReady window.now job × (0 < calls → G.admits gate.now job.worker) }
            ensures ended { HasEnded window.entry.now calls result }
            ensures number { result.pass.number ≡ job.pass.number }
            ensures gate { 0 < calls → G.passed gate.entry.now job.worker }
        { work(rt, window, job, calls, gate) },
    )?;
    let (got, full) = collect(rt, window, first, ended, calls);
    let all_free = window.all_free(rt, first);
    Ok(WindowCounts {
        got,
        full,
        all_free,
    })
}

// A job for each worker, with a pass of its own. Each is split from the one before it, whose number is below its own.
fn ready<R: Wait>(
    rt: &R,
    alloc: Global,
    window: &Window,
    first: &mut Pass,
    threads: u64,
) -> Result<Vec<Job>, OutOfMemory>
    requires { first.old.window ≡ window.now }
    ensures len { IfOk result (λ jobs. vec_len jobs ≡ threads) }
    ensures ready { IfOk result (λ jobs. All (IsReady window.now) jobs.items) }
    ensures small { IfOk result (λ jobs. All (λ job. job.worker < threads) jobs.items) }
    ensures numbers { IfOk result (λ jobs. AreNumbered jobs.items) }
    ensures apart { IfOk result (λ jobs. HaveOwnPasses jobs.items) }
    ensures first { OnOk result (first.new ≡ first.old) }
{
    let mut jobs = Vec::new(alloc);
    let mut next = window.split(rt, first);
    for worker in 0..threads {
        let later = window.split(rt, &mut next);
        let pass = replace(&mut next, later);
        jobs.push(Job { pass, worker })?;
    }
    drop(next);
    Ok(jobs)
}

// Joins the passes of the workers into the first, and adds up what they got.
fn collect<R: Wait>(
    rt: &R,
    window: &Window,
    first: &mut Pass,
    ended: Vec<Ended>,
    calls: u64,
) -> (u64, u64)
    requires own { first.old.window ≡ window.now }
    requires ended { All (HasEnded window.now calls) ended.items }
    requires small { vec_len ended * calls < 2 ^ 64 }
    ensures own { first.new.window ≡ window.now }
    ensures got { result.0 ≡ sum_by (λ e. e.got) ended.items }
    ensures full { result.1 ≡ sum_by (λ e. e.full) ended.items }
    ensures sum { result.0 + result.1 ≡ vec_len ended * calls }
    ensures joined { All (λ e. IsPrefix e.pass.seen first.new.seen) ended.items }
{
    let mut got = 0;
    let mut full = 0;
    for worker in ended {
        got += worker.got;
        full += worker.full;
        window.join(rt, first, worker.pass);
    }
    (got, full)
}
