//! The rows by which push reads its inbox, over a link.
ghost use Rattle.std.specs.Prelude.{◌≡◌, ℕ, [], IfOk, None, OnErr, is_some, true};
ghost use Rattle.js_link.specs.LinkView.{LinkView};
ghost use Rattle.js_ordered_table.specs.Tasks.{IsHeard, heard_rows};
ghost use Rattle.js_ordered_stream.specs.Rows.{AnswersBeat, LooksInto, PassesRow, PassesRows, arrival_in, seen_after};
ghost use Rattle.js_ordered_table.specs.Passes.{input_of, listens_to};
ghost use Rattle.js_ordered_table.specs.Arrivals.{beat_subject as subject_of, push_kind as kind_of};
ghost use Rattle.js_ordered_table.specs.Recreation.{message_on};
ghost use Rattle.js_ordered_table.specs.declared.row.Row.TheVariants as row;
ghost use Rattle.js_ordered_table.specs.Wishes as wishes;

use crate::pull_rows::handed_heard;
use crate::remaining_rows::Seen;
use crate::rows::{RowItem, Stepped, Stop, ask_for, followed_by, passed_over, stepped_by};
use bytes::Bytes;
use js_base::{Message, OutOfMemory, Subject, replace_with};
use js_link::{InboxId, Link, Taken, Wish};
use js_ordered_table::transitions::push::{heard_as, listen, pass_hear, pass_silence};
use js_ordered_table::transitions::{Heard, NextTasks, Task};
use js_ordered_table::{Consumer, ConsumerContext, Phase, beat_subject};
use std::alloc::Global;

// ---- what is looked for

// This inbox is looked into. A message that is taken is heard next.
fn look_into<L: Link>(link: &mut L, inbox: u64, seen: &mut Seen) -> Result<Stepped, Stop>
    ensures looks { LooksInto result inbox (seen_after result seen.new) (L.view link.old) (L.view link.new) }
    ensures kept { OnErr result (seen.new ≡ seen.old) }
{
    match link.take(InboxId(inbox)) {
        Taken::Closed => Err(Stop::Closed),
        Taken::Empty => Ok(followed_by(NextTasks::One(Task::CheckSilence))),
        Taken::Message(message) => {
            let taken = Seen::Message {
                unheard: Some(inbox),
                message,
            };
            replace_with(seen, taken);
            Ok(Stepped {
                handed: RowItem::Nothing,
                looked: true,
                next: NextTasks::One(Task::Hear { inbox }),
            })
        }
    }
}

// Push looks for an arrival. Where it does not listen, the row does nothing.
pub(crate) fn look<L: Link>(
    context: &ConsumerContext<'_>,
    link: &mut L,
    consumer: &Consumer,
    seen: &mut Seen,
) -> Result<Stepped, Stop>
    ensures passes { PassesRow (input_of context.now) context.now.moment row.CheckArrival consumer.now consumer.now (L.view link.old) (L.view link.new) (seen_after result seen.new) result }
    ensures kept { OnErr result (seen.new ≡ seen.old) }
{
    match consumer.phase {
        Phase::Pushes { inbox, .. } => look_into(link, inbox, seen),
        _ => Ok(passed_over()),
    }
}

// Push looks at its heartbeat. Where it does not listen, the row does nothing.
pub(crate) fn look_at_silence(
    context: &ConsumerContext<'_>,
    consumer: &Consumer,
) -> Result<Stepped, Stop>
    ensures { (v : LinkView) → PassesRow (input_of context.now) context.now.moment row.CheckSilence consumer.now consumer.now v v Seen.Nothing result }
{
    match consumer.phase {
        Phase::Pushes {
            heartbeat_timer,
            ..
        } => Ok(stepped_by(pass_silence(context, heartbeat_timer))),
        _ => Ok(passed_over()),
    }
}

// Push arms its heartbeat. Where it does not listen, the row does nothing.
pub(crate) fn arm(context: &ConsumerContext<'_>, consumer: &mut Consumer) -> Result<Stepped, Stop>
    ensures { (v : LinkView) → PassesRow (input_of context.now) context.now.moment row.Arm consumer.old consumer.new v v Seen.Nothing result }
{
    match consumer.phase {
        Phase::Pushes { inbox, .. } => {
            listen(context, consumer, inbox);
            Ok(followed_by(NextTasks::Nothing))
        }
        _ => Ok(passed_over()),
    }
}

// ---- an arrival

// The consumer listens to this inbox.
fn listens(phase: &Phase, inbox: u64) -> bool
    ensures { result ≡ listens_to inbox phase.now }
{
    match phase {
        Phase::Pushes { inbox: current, .. } => inbox == *current,
        _ => false,
    }
}

// An answer to a beat says nothing.
fn empty() -> Bytes
    ensures { result ≡ [] }
{
    Bytes::from_static(b"")
}

// What an arrival asks for: a beat that wants an answer gets an empty one. Stalled consumers are answered or not.
fn answer_wish(
    alloc: Global,
    stalled: bool,
    heard: Heard,
    message: &Message,
) -> Result<Wish, OutOfMemory>
    ensures { (number : ℕ) → IsHeard number message.now heard → IfOk result (λ wish. wish ≡ wishes.beat_wish (kind_of message.now) (subject_of stalled message.now)) }
{
    match heard {
        Heard::Beat(_) => match beat_subject(stalled, message) {
            Some(subject) => Ok(Wish::Publishes {
                subject: Subject::new(alloc, subject)?,
                reply: None,
                payload: empty(),
            }),
            None => Ok(Wish::Nothing),
        },
        Heard::Yields(_) => Ok(Wish::Nothing),
        Heard::Unreadable => Ok(Wish::Nothing),
        Heard::Gap => Ok(Wish::Nothing),
        Heard::OtherStatus => Ok(Wish::Nothing),
    }
}

// An arrival is answered where it asks for that. Without memory for its answer it is still to be heard.
fn answer<L: Link>(
    alloc: Global,
    link: &mut L,
    stalled: bool,
    number: u64,
    message: &Message,
) -> Result<Heard, OutOfMemory>
    ensures heard { IfOk result (λ heard. IsHeard number message.now heard × AnswersBeat stalled message.now (L.view link.old) (L.view link.new)) }
    ensures refused { OnErr result (L.view link.new ≡ L.view link.old) }
{
    let heard = heard_as(number, message);
    // Most arrivals are messages of the stream, which want no answer.
    if let Heard::Yields(_) = heard {
        return Ok(heard);
    }
    let wish = answer_wish(alloc, stalled, heard, message)?;
    let met = ask_for(alloc, link, wish)?;
    drop(met);
    Ok(heard)
}

// Push hears a message that came on this inbox. Where it does not listen there, nothing comes of it.
fn hear_message<L: Link>(
    alloc: Global,
    context: &ConsumerContext<'_>,
    link: &mut L,
    consumer: &mut Consumer,
    inbox: u64,
    message: &Message,
) -> Result<Stepped, Stop>
    ensures { PassesRow (input_of context.now) context.now.moment (row.Hear (record { inbox = inbox; message = message.now })) consumer.old consumer.new (L.view link.old) (L.view link.new) (Seen.Message None message.now) result }
{
    if !listens(&consumer.phase, inbox) {
        return Ok(Stepped {
            handed: RowItem::Nothing,
            looked: true,
            next: NextTasks::Nothing,
        });
    }
    let stalled = context.settings.resilience.answers_stalled;
    let heard = answer(
        alloc,
        link,
        stalled,
        consumer.core.consumer_sequence,
        message,
    )?;
    Ok(Stepped {
        handed: handed_heard(heard),
        looked: true,
        next: pass_hear(context, consumer, inbox, heard),
    })
}

// What was taken from this inbox is heard, and stays in its place.
pub(crate) fn hear<L: Link>(
    alloc: Global,
    context: &ConsumerContext<'_>,
    link: &mut L,
    consumer: &mut Consumer,
    inbox: u64,
    seen: &mut Seen,
) -> Result<Stepped, Stop>
    requires { is_some (message_on inbox (arrival_in seen.old)) ≡ true }
    ensures passes { PassesRows (input_of context.now) context.now.moment (heard_rows inbox (message_on inbox (arrival_in seen.old))) consumer.old consumer.new (L.view link.old) (L.view link.new) (seen_after result seen.new) result }
    ensures kept { OnErr result (seen.new ≡ seen.old) }
{
    let Seen::Message { unheard, message } = seen else {
        unreachable!()
    };
    let done = hear_message(alloc, context, link, consumer, inbox, message)?;
    *unheard = None;
    Ok(done)
}
