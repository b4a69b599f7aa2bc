//! Threads on one window: workers that meet, counts that add up, and permits that two callers share.
ghost use Rattle.std.specs.Prelude.{◌≡◌, ◌<◌, ◌≤◌, ◌^◌, true, ⊤};
ghost use Rattle.js_window.specs.Caller.{held};

use crate::steps::{NO_FAULTS, answered, sink, source};
use crate::tables::same;
use js_base::{OutOfMemory, both};
use js_tool::Status;
use js_tool_io::{MemorySink, Source};
use js_window::{Pass, Permit, Take, Window};
use js_window_workers::{Gate, Open, WindowCounts, run_window, take_calls};
use std::alloc::{AllocError, Global};
use std::sync::Wait;
use std::sync::atomic::{AtomicU64, Ordering};
use std::thread::Threads;

// How often a worker looks for the other before it goes on without it.
const MOST_TURNS: u64 = 100_000_000;

// A gate at which two workers meet: each raises a flag of its own, and turns until it sees the other's.
#[derive(Drop)]
struct Meeting {
    came: [AtomicU64; 2],
    calls: AtomicU64,
    met: AtomicU64,
}

impl Meeting {
    fn new() -> Meeting {
        Meeting {
            came: [AtomicU64::new(0), AtomicU64::new(0)],
            calls: AtomicU64::new(0),
            met: AtomicU64::new(0),
        }
    }

    // Whether the gate was called just twice, and both calls saw the other worker.
    fn is_passed(&self) -> bool {
        self.calls.load(Ordering::SeqCst) == 2 && self.met.load(Ordering::SeqCst) == 2
    }
}

impl Gate for Meeting {
    ghost admits = { λ meeting worker. worker < 2 };

    ghost passed = { λ meeting worker. ⊤ };

    fn pass(&self, worker: u64) {
        self.calls.fetch_add(1, Ordering::SeqCst);
        let own = worker as usize;
        self.came[own].store(1, Ordering::SeqCst);
        for _ in 0..MOST_TURNS {
            if self.came[1 - own].load(Ordering::SeqCst) == 1 {
                self.met.fetch_add(1, Ordering::SeqCst);
                return;
            }
        }
    }
}

// What two workers count that meet in threads of their own.
fn meet_in_threads<R: Threads + Wait + Sync>(
    rt: &R,
    alloc: Global,
    meeting: &Meeting,
) -> Result<WindowCounts, OutOfMemory> {
    run_window(rt, alloc, 2, 2, 1, meeting)
}

// Two workers take one permit each, one after the other.
fn take_in_turn<R: Wait>(rt: &R, window: &Window, first: &mut Pass, meeting: &Meeting)
    requires { first.old.window ≡ window.now }
{
    let mut second = window.split(rt, first);
    take_calls(rt, window, first, 1, 0, meeting);
    take_calls(rt, window, &mut second, 1, 1, meeting);
}

// The same on a window of their own.
fn meet_in_turn<R: Wait>(rt: &R, alloc: Global, meeting: &Meeting) -> Result<(), OutOfMemory> {
    let (window, mut first) = Window::new(rt, alloc, 2)?;
    take_in_turn(rt, &window, &mut first, meeting);
    Ok(())
}

// The counts of two workers of which each takes one permit.
const BOTH: WindowCounts = WindowCounts {
    got: 2,
    full: 0,
    all_free: true,
};

#[test]
fn workers_meet_in_threads_alone(rt: HostRuntime) {
    let meeting = Meeting::new();
    same(
        &rt,
        "threads",
        meet_in_threads(&rt, rt.alloc(), &meeting),
        Ok(BOTH),
    );
    same(&rt, "threads", meeting.is_passed(), true);
    drop(meeting);
    let meeting = Meeting::new();
    same(
        &rt,
        "in turn",
        meet_in_turn(&rt, rt.alloc(), &meeting),
        Ok(()),
    );
    same(&rt, "in turn", meeting.is_passed(), false);
    drop(meeting);
}

// The counts of one worker that takes the one permit three times.
const ALONE: WindowCounts = WindowCounts {
    got: 3,
    full: 0,
    all_free: true,
};

// How many takes workers make that share permits, and whether all are free at their end.
fn shared_takes<R: Threads + Wait + Sync>(
    rt: &R,
    alloc: Global,
    capacity: u64,
    threads: u64,
    calls: u64,
) -> Result<(u64, bool), OutOfMemory>
    requires capacity { (0 < capacity) × (capacity < 2 ^ 32) }
    requires threads { (0 < threads) × (threads ≤ 8) }
    requires calls { calls ≤ 100000 }
{
    let counts = run_window(rt, alloc, capacity, threads, calls, &Open)?;
    let takes = counts.got.saturating_add(counts.full);
    Ok((takes, counts.all_free))
}

#[test]
fn workers_share_too_few_permits(rt: HostRuntime) {
    let one = run_window(&rt, rt.alloc(), 1, 1, 3, &Open);
    same(&rt, "one", one, Ok(ALONE));
    let two = shared_takes(&rt, rt.alloc(), 1, 2, 1000);
    same(&rt, "two", two, Ok((2000, true)));
    let eight = shared_takes(&rt, rt.alloc(), 3, 8, 100_000);
    same(&rt, "eight", eight, Ok((800_000, true)));
}

// The status of a command whose counts are not known before, and whether its line begins and ends as it has to.
fn counts_into<R: Threads + Wait + Sync, S: Source>(
    rt: &R,
    alloc: Global,
    input: &mut S,
    output: &mut MemorySink,
) -> Result<(Status, bool), AllocError> {
    let status = answered(rt, alloc, "window 1 2 1000", input, output)?;
    let line = output.taken();
    let begins = line.starts_with(b"[\"window\",1,2,1000,");
    Ok((status, begins && line.ends_with(b",true]\n")))
}

fn counts_line<R: Threads + Wait + Sync>(
    rt: &R,
    alloc: Global,
) -> Result<(Status, bool), AllocError> {
    let input = source(alloc, Vec::new(alloc), NO_FAULTS);
    let (mut input, mut output) = both(input, sink(alloc, NO_FAULTS))?;
    let counts = counts_into(rt, alloc, &mut input, &mut output);
    drop(output);
    drop(input);
    counts
}

#[test]
fn two_threads_find_one_permit(rt: HostRuntime) {
    let found = counts_line(&rt, rt.alloc());
    same(&rt, "line", found, Ok((Status::Done, true)));
}

fn takes<R: Wait>(rt: &R, window: &Window, pass: &mut Pass) -> bool
    requires { pass.old.window ≡ window.now }
    ensures same { pass.new.window ≡ window.now }
{
    matches!(window.take(rt, pass), Take::Got(_))
}

// Whether a caller finds no permit.
fn finds_none<R: Wait>(rt: &R, window: &Window, pass: &mut Pass) -> bool
    requires { pass.old.window ≡ window.now }
    ensures same { pass.new.window ≡ window.now }
    ensures held { result ≡ true → held pass.new ≡ held pass.old }
{
    matches!(window.take(rt, pass), Take::Full)
}

// Whether all is free while the first caller has the permit, and once it was given back and the second caller has ended.
fn gives_back<R: Wait>(
    rt: &R,
    window: &Window,
    first: &mut Pass,
    second: Pass,
    permit: Permit,
) -> (bool, bool)
    requires own { (first.old.window ≡ window.now) × (second.window ≡ window.now) }
    requires permit { permit ≡ first.old.number }
    requires holds { 0 < held first.old }
    requires holds_none { held second ≡ 0 }
{
    let between = window.all_free(rt, first);
    window.give(rt, first, permit);
    window.join(rt, first, second);
    (between, window.all_free(rt, first))
}

// The same, and what was free before, where the second caller finds no permit.
fn shares<R: Wait>(
    rt: &R,
    window: &Window,
    first: &mut Pass,
    mut second: Pass,
    permit: Permit,
    before: bool,
) -> (bool, bool, bool)
    requires own { (first.old.window ≡ window.now) × (second.window ≡ window.now) }
    requires permit { permit ≡ first.old.number }
    requires holds { 0 < held first.old }
    requires holds_none { held second ≡ 0 }
{
    if !finds_none(rt, window, &mut second) {
        return (false, false, false);
    }
    let (between, after) = gives_back(rt, window, first, second, permit);
    (before, between, after)
}

// Two callers on a window with one permit, which the first takes.
fn share<R: Wait>(rt: &R, window: &Window, first: &mut Pass) -> (bool, bool, bool)
    requires { first.old.window ≡ window.now }
{
    let mut second = window.split(rt, first);
    let before = window.all_free(rt, &mut second);
    match window.take(rt, first) {
        Take::Got(permit) => shares(rt, window, first, second, permit, before),
        Take::Full => (false, false, false),
    }
}

// Whether a caller that gives its permit back gets one again.
fn takes_given<R: Wait>(rt: &R, alloc: Global) -> Result<bool, OutOfMemory> {
    let (window, mut first) = Window::new(rt, alloc, 1)?;
    match window.take(rt, &mut first) {
        Take::Got(permit) => {
            window.give(rt, &mut first, permit);
            Ok(takes(rt, &window, &mut first))
        }
        Take::Full => Ok(false),
    }
}

// Whether all is free before the first of two callers takes the one permit, while the second finds none, and once it was given back.
fn share_one<R: Wait>(rt: &R, alloc: Global) -> Result<(bool, bool, bool), OutOfMemory> {
    let (window, mut first) = Window::new(rt, alloc, 1)?;
    Ok(share(rt, &window, &mut first))
}

// The first take of a window with one permit, and the one after it, of the same caller.
fn takes_twice<R: Wait>(rt: &R, alloc: Global) -> Result<(bool, bool), OutOfMemory> {
    let (window, mut first) = Window::new(rt, alloc, 1)?;
    let once = takes(rt, &window, &mut first);
    Ok((once, takes(rt, &window, &mut first)))
}

#[test]
fn two_callers_share_one_permit(rt: HostRuntime) {
    let shared = share_one(&rt, rt.alloc());
    same(&rt, "shared", shared, Ok((true, false, true)));
    let taken = takes_twice(&rt, rt.alloc());
    same(&rt, "taken twice", taken, Ok((true, false)));
    let again = takes_given(&rt, rt.alloc());
    same(&rt, "taken again", again, Ok(true));
}
