//! The command `publish`: each line of standard input as a message, under a window of
//! acknowledgements.

ghost use Rattle.std.specs.Prelude.{◌≡◌, [], false, IfOk, OnOk};

use crate::outcomes::Outcomes;
use bytes::Bytes;
use crossbeam_channel::Sender;
use js_base::{HeaderMap, Moment, Nanos, Next, OutOfMemory, Subject};
use js_context::Context;
use js_context_queue::{Closed, PublishQueue, Unsent};
use js_message::OutboundMessage;
use js_pipe::{Failure, Happened, Options, Session, tell};
use js_tool_io::Sink;
use std::alloc::{AllocError, Global};
use std::collections::VecDeque;
use std::sync::Wait;
use std::time::Clock;

/// How many lines are on their way at most.
pub const WINDOW: usize = 256;

/// How long a line may wait for its sending, in nanoseconds.
const SEND_TIMEOUT: Nanos = 5_000_000_000;

/// How far standard input is read.
#[derive(Clone, Copy, Debug, PartialEq, Eq)]
struct Lines {
    /// How many lines were read.
    count: u64,
    /// Whether more may come.
    has_more: bool,
    /// Whether reading them failed.
    has_failed: bool,
}

// The headers of a line: its message id, where ids are wanted.
fn headers(alloc: Global, id: Option<&str>, number: u64) -> Result<Option<HeaderMap>, OutOfMemory> {
    let Some(id) = id else {
        return Ok(None);
    };
    let value = format!(in alloc; "{id}-{number}")?;
    let mut map = HeaderMap::new(alloc);
    let added = map.append(alloc, "Nats-Msg-Id", value.as_str());
    drop(value);
    match added {
        Ok(()) => Ok(Some(map)),
        Err(OutOfMemory) => {
            drop(map);
            Err(OutOfMemory)
        }
    }
}

// The message of a line.
fn message(
    alloc: Global,
    options: &Options<'_>,
    number: u64,
    line: Vec<u8>,
) -> Result<OutboundMessage, OutOfMemory>
    ensures line { IfOk result (λ message. message.payload ≡ line.items) }
    ensures subject { IfOk result (λ message. message.subject ≡ options.now.name.now) }
{
    let payload = Bytes::from_vec(line)?;
    let headers = match headers(alloc, options.id, number) {
        Ok(headers) => headers,
        Err(OutOfMemory) => {
            drop(payload);
            return Err(OutOfMemory);
        }
    };
    match Subject::new(alloc, options.name) {
        Ok(subject) => Ok(OutboundMessage::new(subject, payload, headers)),
        Err(OutOfMemory) => {
            drop(payload);
            drop(headers);
            Err(OutOfMemory)
        }
    }
}

// Pushes a line, or notes that no more will come.
fn take(
    alloc: Global,
    queue: &mut PublishQueue,
    options: &Options<'_>,
    lines: &mut Lines,
    happened: Happened,
    now: Moment,
) -> Result<(), OutOfMemory> {
    match happened {
        Happened::Line(line) => {
            lines.count = lines.count.saturating_add(1);
            let message = message(alloc, options, lines.count, line)?;
            queue.push(message, now)?;
        }
        Happened::NoMoreLines { is_whole } => {
            lines.has_more = false;
            lines.has_failed = !is_whole;
        }
        Happened::Something => {}
    }
    Ok(())
}

// Adds the outcomes that are known, each of which gives a credit for a line more. Answers whether
// the queue is empty.
fn settle<R: Clock + Wait + Eprint>(
    rt: &R,
    alloc: Global,
    session: &mut Session,
    queue: &mut PublishQueue,
    credits: &Sender<()>,
    outcomes: &mut Outcomes,
) -> Result<bool, Failure> {
    for _ in rt.forever() {
        let now = session.now(rt)?;
        match queue.poll_next(rt, alloc, session.link(), now) {
            Next::Item(published) => {
                let added = outcomes.add(rt, alloc, &published);
                drop(published);
                let _ = credits.send(rt, ());
                added?;
            }
            Next::End => return Ok(true),
            Next::Pending => return Ok(false),
            Next::OutOfMemory => return Err(Failure::OutOfMemory),
        }
    }
    unreachable!()
}

// Publishes lines until the last has its outcome. Fails with `Fault` if standard input cannot be
// read to its end.
fn run<R: Clock + Wait + Eprint, K: Sink>(
    rt: &R,
    alloc: Global,
    session: &mut Session,
    queue: &mut PublishQueue,
    credits: &Sender<()>,
    options: &Options<'_>,
    outcomes: &mut Outcomes,
    output: &mut K,
) -> Result<(), Failure> {
    let mut lines = Lines {
        count: 0,
        has_more: true,
        has_failed: false,
    };
    for _ in rt.forever() {
        let is_empty = settle(rt, alloc, session, queue, credits, outcomes)?;
        outcomes.write(output)?;
        if is_empty && !lines.has_more {
            break;
        }
        let happened = session.turn(rt, alloc, queue.wakes_at())?;
        let now = session.now(rt)?;
        take(alloc, queue, options, &mut lines, happened, now)?;
    }
    if lines.has_failed {
        return Err(tell(rt, &"standard input cannot be read", Failure::Fault));
    }
    Ok(())
}

// Adds the outcomes of the lines that are left in a queue when its connection has ended.
fn settle_rest<R: Clock + Wait + Eprint>(
    rt: &R,
    alloc: Global,
    session: &mut Session,
    mut queue: PublishQueue,
    credits: &Sender<()>,
    outcomes: &mut Outcomes,
) -> Result<(), Failure> {
    session.end();
    let settled = settle(rt, alloc, session, &mut queue, credits, outcomes);
    let Closed { context, unsent } = queue.close();
    drop(context);
    let added = add_unsent(alloc, &unsent, outcomes);
    drop(unsent);
    settled?;
    added?;
    Ok(())
}

// Adds the outcomes of lines that were not sent.
fn add_unsent(
    alloc: Global,
    unsent: &VecDeque<Unsent>,
    outcomes: &mut Outcomes,
) -> Result<(), AllocError> {
    for line in unsent {
        outcomes.add_unsent(alloc, line.tag)?;
    }
    Ok(())
}

/// Publishes the lines that a thread brings, one for each credit, and writes a line for the outcome
/// of each. A line that is on its way when the connection ends is told as failed, though the server
/// may have stored it.
///
/// # Errors
///
/// `Lost` if the connection ended, does not answer or brings damaged bytes; `Refused` if a line is
/// not known to be stored; `Fault` if standard input, standard output or the clock fails;
/// `OutOfMemory`.
pub fn publish<R: Clock + Wait + Eprint, K: Sink>(
    rt: &R,
    alloc: Global,
    session: &mut Session,
    credits: &Sender<()>,
    options: &Options<'_>,
    outcomes: &mut Outcomes,
    output: &mut K,
) -> Result<(), Failure>
    ensures stored { OnOk result (outcomes.new.has_failed ≡ false) }
    ensures empty { OnOk result (outcomes.new.page.items ≡ []) }
{
    for _ in 0..WINDOW {
        let _ = credits.send(rt, ());
    }
    let context = Context::new(rt, alloc)?;
    let mut queue = PublishQueue::new(alloc, context, SEND_TIMEOUT);
    let ended = run(
        rt, alloc, session, &mut queue, credits, options, outcomes, output,
    );
    let settled = settle_rest(rt, alloc, session, queue, credits, outcomes);
    let written = outcomes.write(output);
    ended?;
    settled?;
    written?;
    if outcomes.has_failed() {
        return Err(Failure::Refused);
    }
    Ok(())
}
