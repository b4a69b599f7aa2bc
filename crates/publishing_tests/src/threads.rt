//! Contexts in two threads over one window.

use crate::publishes::{STORED, opened, published};
use crate::tables::same;
use calls_tests::message;
use js_base::OutOfMemory;
use js_context::Context;
use js_link::{MemoryLink, RequestId};
use std::alloc::Global;
use std::sync::Wait;
use std::sync::atomic::{AtomicU64, Ordering};
use std::test::Fail;
use std::thread;

// Waits until the other thread has come to that stage, for a long time at most.
fn wait_for(stage: &AtomicU64, number: u64) {
    for _ in 0..100_000_000u64 {
        if stage.load(Ordering::SeqCst) == number {
            return;
        }
        thread::yield_now();
    }
}

// A message that is sent, whose ack is there and not reaped.
fn send_and_answer<R: Wait>(
    rt: &R,
    alloc: Global,
    holder: &mut Context,
    link: &mut MemoryLink,
) -> Result<(), OutOfMemory> {
    let _ = published(rt, alloc, holder, link, "a");
    let answer = message(alloc, STORED)?;
    link.respond(RequestId(1), Some(answer))
}

// Holds the permit until the other thread has begun to wait, and then gives it back. How many were given back.
fn give_back<R: Wait>(
    rt: &R,
    holder: &mut Context,
    link: &mut MemoryLink,
    stage: &AtomicU64,
) -> u64 {
    stage.store(1, Ordering::SeqCst);
    wait_for(stage, 2);
    for _ in 0..1_000u64 {
        thread::yield_now();
    }
    holder.reap(rt, link, 0)
}

fn hold_over<R: Wait>(
    rt: &R,
    alloc: Global,
    holder: &mut Context,
    link: &mut MemoryLink,
    stage: &AtomicU64,
) -> u64 {
    match send_and_answer(rt, alloc, holder, link) {
        Ok(()) => give_back(rt, holder, link, stage),
        Err(OutOfMemory) => 0,
    }
}

fn hold_by<R: Wait>(rt: &R, alloc: Global, holder: &mut Context, stage: &AtomicU64) -> u64 {
    match MemoryLink::new(alloc, "_INBOX.t") {
        Ok(mut link) => {
            let reaped = hold_over(rt, alloc, holder, &mut link, stage);
            drop(link);
            reaped
        }
        Err(OutOfMemory) => 0,
    }
}

// Takes a permit, and gives it back once the other thread waits. How many were given back.
fn hold<R: Wait + AllocGlobal>(rt: &R, mut holder: Context, stage: &AtomicU64) -> u64 {
    let reaped = hold_by(rt, rt.alloc(), &mut holder, stage);
    drop(holder);
    reaped
}

// Waits for the other thread's permit. Whether it was out at first, and all are free at the end.
fn wait_by<R: Wait>(rt: &R, waiter: &mut Context, stage: &AtomicU64) -> bool {
    wait_for(stage, 1);
    if waiter.awaited() > 0 || waiter.detached_len() > 0 || waiter.acks_settled(rt) {
        return false;
    }
    stage.store(2, Ordering::SeqCst);
    waiter.wait_for_acks(rt);
    waiter.acks_settled(rt)
}

fn wait<R: Wait>(rt: &R, mut waiter: Context, stage: &AtomicU64) -> bool {
    let settled = wait_by(rt, &mut waiter, stage);
    drop(waiter);
    settled
}

#[test]
fn a_context_waits_for_the_acks_of_another_thread(rt: HostRuntime) -> Result<(), Fail> {
    let mut holder = opened(&rt, rt.alloc(), 2, true)?;
    let waiter = holder.split(&rt, rt.alloc())?;
    let stage = AtomicU64::new(0);
    let shared = &stage;
    let here = &rt;
    let (reaped, settled) = thread::join(
        here,
        move || hold(here, holder, shared),
        move || wait(here, waiter, shared),
    );
    same(&rt, "reaped", reaped, 1);
    same(&rt, "settled", settled, true);
    Ok(())
}
