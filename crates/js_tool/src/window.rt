//! Threads that take permits of one window, and the line of their counts.

ghost use Rattle.std.specs.Prelude.{◌≡◌, ◌<◌, ◌≤◌, ◌^◌, IfOk, IsTrue};
ghost use Rattle.std.specs.Io.KnownBytes.{Keeps};
ghost use Rattle.js_tool_io.specs.Causes.{Rose};
ghost use Rattle.js_tool.specs.Command.{is_between as is_between_in, is_window as is_window_in};
ghost use Rattle.js_tool.specs.CommandTexts.{window_text};
ghost use Rattle.js_tool.specs.Program.{AnswersWindow, SaysNothing};

use crate::status::Status;
use js_base::OutOfMemory;
use js_tool_io::{Sink, write_all};
use js_tool_transcript::{Cell, push_line};
use js_window_workers::{Open, WindowCounts, run_window};
use std::alloc::{AllocError, Global};
use std::sync::Wait;
use std::thread::Threads;

fn is_between(low: u64, high: u64, number: u64) -> bool
    ensures test { result ≡ is_between_in low high number }
    ensures limits { IsTrue result → (low ≤ number) × (number ≤ high) }
{
    low <= number && number <= high
}

/// Returns whether a window and its workers can have these numbers: 1 to 4,294,967,295 permits, 1
/// to 8 threads, and at most 100,000 calls of each thread.
pub(crate) fn is_window(capacity: u64, threads: u64, calls: u64) -> bool
    ensures test { result ≡ is_window_in capacity threads calls }
    ensures limits { IsTrue result → (0 < capacity) × (capacity < 2 ^ 32) × (0 < threads) × (threads ≤ 8) × (calls ≤ 100000) }
{
    is_between(1, 4_294_967_295, capacity) && is_between(1, 8, threads) && calls <= 100_000
}

/// Runs `threads` threads on a window with `capacity` permits, each for `calls` takes, and writes
/// the line of their counts.
pub(crate) fn answer_window<R: Threads + Wait + Sync, K: Sink>(
    rt: &R,
    alloc: Global,
    capacity: u64,
    threads: u64,
    calls: u64,
    output: &mut K,
) -> Status
    requires capacity { (0 < capacity) × (capacity < 2 ^ 32) }
    requires threads { (0 < threads) × (threads ≤ 8) }
    requires calls { calls ≤ 100000 }
    ensures answers { AnswersWindow capacity threads calls (K.taken output.old) (K.taken output.new) result }
    ensures write_fault { result ≡ Status.WriteFault → Rose (K.faults output.old) (K.faults output.new) }
    ensures silent { SaysNothing result → Keeps (K.taken output.old) (K.taken output.new) }
{
    let counts = match run_window(rt, alloc, capacity, threads, calls, &Open) {
        Ok(counts) => counts,
        Err(OutOfMemory) => return Status::OutOfMemory,
    };
    match window_line(alloc, capacity, threads, calls, counts) {
        Ok(line) => match write_all(output, &line) {
            Ok(()) => Status::Done,
            Err(_) => Status::WriteFault,
        },
        Err(AllocError) => Status::OutOfMemory,
    }
}

/// Returns the line with the counts of threads on a window.
pub(crate) fn window_line(
    alloc: Global,
    capacity: u64,
    threads: u64,
    calls: u64,
    counts: WindowCounts,
) -> Result<Vec<u8>, AllocError>
    ensures { IfOk result (λ line. line.items ≡ window_text capacity threads calls counts) }
{
    let mut out = Vec::new(alloc);
    push_line(
        &mut out,
        &[
            Cell::Text(b"window"),
            Cell::Number(capacity),
            Cell::Number(threads),
            Cell::Number(calls),
            Cell::Number(counts.got),
            Cell::Number(counts.full),
            Cell::Truth(counts.all_free),
        ],
    )?;
    Ok(out)
}
