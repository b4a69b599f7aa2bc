//! The rows of a recreation over a link.
ghost use Rattle.std.specs.Prelude.{◌≡◌, IfOk, OnErr, codes, is_some, true};
ghost use Rattle.js_link.specs.Meets.{Meets};
ghost use Rattle.js_link.specs.LinkView.{LinkView};
ghost use Rattle.js_link.specs.Wish.{GoesAs};
ghost use Rattle.js_link.specs.declared.wish.Wish.TheVariants.{Requests};
ghost use Rattle.js_ordered_table.specs.Tasks.{rows_of};
ghost use Rattle.js_ordered_stream.specs.Polled.{is_bare, is_plain};
ghost use Rattle.js_ordered_stream.specs.Rows.{IsTry, PassesRow, PassesRows, answer_in, is_left, read_in, replied, seen_after};
ghost use Rattle.js_pull.specs.Reader.{reply_to};
ghost use Rattle.js_ordered_table.specs.Invariant.{IsPush};
ghost use Rattle.js_ordered_table.specs.Passes.{input_of};
ghost use Rattle.js_ordered_table.specs.Texts as texts_of;
ghost use Rattle.js_ordered_table.specs.declared.row.Row.TheVariants as row;
ghost use Rattle.js_ordered_table.specs.Wishes as wishes;

use crate::answer::reply_met;
use crate::remaining_rows::{Seen, seen_of};
use crate::rows::{RowItem, Stepped, Stop, ask_for, followed_by, passed_over, stepped_by};
use crate::success::{inbox_met, succeed};
use bytes::Bytes;
use js_base::{OutOfMemory, TryClone, replace_with};
use js_link::{Link, Met, Wish};
use js_ordered_table::transitions::recreation::{
    pass_answered, pass_ask, pass_await, pass_create, pass_fail, pass_start, pass_try,
};
use js_ordered_table::transitions::{NextTasks, Task};
use js_ordered_table::{
    Consumer, ConsumerContext, Opened, OrderedSetup, Phase, Recreation, Stage, texts,
};
use std::alloc::Global;
use std::mem;

// ---- what is asked

fn opened_dropped(opened: &Option<Opened>) -> Wish
    ensures { result ≡ wishes.opened_dropped opened.now }
{
    match opened {
        None => Wish::Nothing,
        Some(opened) => Wish::Drops {
            inbox: opened.inbox,
        },
    }
}

// The inbox that a phase has is given up.
fn dropped(phase: &Phase) -> Wish
    ensures { result ≡ wishes.dropped phase.now }
{
    match phase {
        Phase::Pulls(reader) => Wish::Drops {
            inbox: reader.source.inbox,
        },
        Phase::Pushes { inbox, .. } => Wish::Drops { inbox: *inbox },
        Phase::Recreates(recreation) => opened_dropped(&recreation.opened),
        Phase::Idle => Wish::Nothing,
        Phase::Ended => Wish::Nothing,
        Phase::Exhausted => Wish::Nothing,
    }
}

// The answer that a recreation waits for.
fn awaited(stage: Stage) -> Wish
    ensures { result ≡ wishes.awaited stage }
{
    match stage {
        Stage::Deleting { request, .. } => Wish::Awaits { request },
        Stage::Creating { request, .. } => Wish::Awaits { request },
        Stage::Between => Wish::Nothing,
        Stage::Waiting { .. } => Wish::Nothing,
    }
}

// ---- a recreation starts

// A recreation starts: the current inbox is given up.
pub(crate) fn start<L: Link>(
    alloc: Global,
    context: &ConsumerContext<'_>,
    link: &mut L,
    consumer: &mut Consumer,
) -> Result<Stepped, Stop>
    ensures { PassesRow (input_of context.now) context.now.moment row.Start consumer.old consumer.new (L.view link.old) (L.view link.new) Seen.Nothing result }
{
    let name = texts::consumer_name(
        alloc,
        context,
        consumer.core.recreation_count.saturating_add(1),
    )?;
    let Ok(again) = name.try_clone() else {
        drop(name);
        return Err(Stop::OutOfMemory);
    };
    let Ok(met) = ask_for(alloc, link, dropped(&consumer.phase)) else {
        drop(name);
        drop(again);
        return Err(Stop::OutOfMemory);
    };
    drop(met);
    Ok(stepped_by(pass_start(context, consumer, name, again)))
}

// A recreation stays open: a row of it was not passed.
pub(crate) fn keep_open(consumer: &mut Consumer, recreation: Recreation)
    ensures { consumer.new ≡ record consumer.old { phase = Phase.Recreates recreation } }
{
    replace_with(&mut consumer.phase, Phase::Recreates(recreation));
}

// The number of the request that went out, which is let go.
fn number_of(met: Met) -> Option<u64>
    ensures { GoesAs result met }
{
    let number = met.request();
    drop(met);
    number
}

// ---- a try

// The deletion of the old consumer is asked for.
fn try_met<L: Link>(
    alloc: Global,
    context: &ConsumerContext<'_>,
    link: &mut L,
    recreation: &Recreation,
) -> Result<Met, OutOfMemory>
    ensures met { IfOk result (λ met. Meets (Requests (texts_of.delete_subject (input_of context.now) recreation.now) (codes "{}")) met (L.view link.old) (L.view link.new)) }
    ensures refused { OnErr result (L.view link.new ≡ L.view link.old) }
{
    let wish = Wish::Requests {
        subject: texts::delete_subject(alloc, context, recreation)?,
        payload: Bytes::from_static(b"{}"),
    };
    ask_for(alloc, link, wish)
}

fn begin_try<L: Link>(
    alloc: Global,
    context: &ConsumerContext<'_>,
    link: &mut L,
    consumer: &mut Consumer,
    recreation: Recreation,
) -> Result<Stepped, Stop>
    ensures { PassesRow (input_of context.now) context.now.moment row.Try (record consumer.old { phase = Phase.Recreates recreation }) consumer.new (L.view link.old) (L.view link.new) Seen.Nothing result }
{
    match try_met(alloc, context, link, &recreation) {
        Err(OutOfMemory) => {
            keep_open(consumer, recreation);
            Err(Stop::OutOfMemory)
        }
        Ok(met) => {
            let number = number_of(met);
            Ok(followed_by(pass_try(context, consumer, recreation, number)))
        }
    }
}

// Push opens its inbox before its create.
fn create_push<L: Link>(
    alloc: Global,
    context: &ConsumerContext<'_>,
    link: &mut L,
    consumer: &mut Consumer,
    recreation: Recreation,
) -> Result<Stepped, Stop>
    requires push { IsPush context.now.setup.now }
    ensures { PassesRow (input_of context.now) context.now.moment row.Create (record consumer.old { phase = Phase.Recreates recreation }) consumer.new (L.view link.old) (L.view link.new) Seen.Nothing result }
{
    match ask_for(alloc, link, Wish::OpensInbox) {
        Err(OutOfMemory) => {
            keep_open(consumer, recreation);
            Err(Stop::OutOfMemory)
        }
        Ok(met) => {
            let inbox = inbox_met(met);
            Ok(followed_by(pass_create(alloc, context, consumer, recreation, inbox)))
        }
    }
}

// The new consumer is to be asked for.
fn create<L: Link>(
    alloc: Global,
    context: &ConsumerContext<'_>,
    link: &mut L,
    consumer: &mut Consumer,
    recreation: Recreation,
) -> Result<Stepped, Stop>
    ensures { PassesRow (input_of context.now) context.now.moment row.Create (record consumer.old { phase = Phase.Recreates recreation }) consumer.new (L.view link.old) (L.view link.new) Seen.Nothing result }
{
    match context.setup {
        OrderedSetup::Pull(_) => {
            Ok(followed_by(pass_create(alloc, context, consumer, recreation, None)))
        }
        OrderedSetup::Push(_) => create_push(alloc, context, link, consumer, recreation),
    }
}

// The new consumer is asked for.
fn ask_met<L: Link>(
    alloc: Global,
    context: &ConsumerContext<'_>,
    link: &mut L,
    recreation: &Recreation,
) -> Result<Met, OutOfMemory>
    ensures met { IfOk result (λ met. Meets (Requests (texts_of.create_subject (input_of context.now) recreation.now) (texts_of.create_body (input_of context.now) recreation.now)) met (L.view link.old) (L.view link.new)) }
    ensures refused { OnErr result (L.view link.new ≡ L.view link.old) }
{
    let subject = texts::create_subject(alloc, context, recreation)?;
    match texts::create_body(alloc, context, recreation) {
        Err(OutOfMemory) => {
            drop(subject);
            Err(OutOfMemory)
        }
        Ok(payload) => ask_for(alloc, link, Wish::Requests { subject, payload }),
    }
}

fn ask_create<L: Link>(
    alloc: Global,
    context: &ConsumerContext<'_>,
    link: &mut L,
    consumer: &mut Consumer,
    recreation: Recreation,
) -> Result<Stepped, Stop>
    ensures { PassesRow (input_of context.now) context.now.moment row.Ask (record consumer.old { phase = Phase.Recreates recreation }) consumer.new (L.view link.old) (L.view link.new) Seen.Nothing result }
{
    match ask_met(alloc, context, link, &recreation) {
        Err(OutOfMemory) => {
            keep_open(consumer, recreation);
            Err(Stop::OutOfMemory)
        }
        Ok(met) => {
            let number = number_of(met);
            Ok(followed_by(pass_ask(context, consumer, recreation, number)))
        }
    }
}

// A try has failed: what it has opened is given up.
fn fail<L: Link>(
    alloc: Global,
    context: &ConsumerContext<'_>,
    link: &mut L,
    consumer: &mut Consumer,
    recreation: Recreation,
) -> Result<Stepped, Stop>
    ensures { PassesRow (input_of context.now) context.now.moment row.Fail (record consumer.old { phase = Phase.Recreates recreation }) consumer.new (L.view link.old) (L.view link.new) Seen.Nothing result }
{
    match ask_for(alloc, link, opened_dropped(&recreation.opened)) {
        Err(OutOfMemory) => {
            keep_open(consumer, recreation);
            Err(Stop::OutOfMemory)
        }
        Ok(met) => {
            drop(met);
            Ok(stepped_by(pass_fail(context, consumer, recreation)))
        }
    }
}

// ---- an open recreation

// The request whose answer a recreation waits for.
fn request_of(stage: Stage) -> u64
    ensures { result ≡ replied stage }
{
    match stage {
        Stage::Deleting { request, .. } => request,
        Stage::Creating { request, .. } => request,
        Stage::Between => 0,
        Stage::Waiting { .. } => 0,
    }
}

// What an open recreation waits for is looked at.
fn look_on<L: Link>(
    alloc: Global,
    context: &ConsumerContext<'_>,
    link: &mut L,
    consumer: &mut Consumer,
    recreation: Recreation,
    seen: &mut Seen,
) -> Result<Stepped, Stop>
    ensures passes { PassesRow (input_of context.now) context.now.moment row.Await (record consumer.old { phase = Phase.Recreates recreation }) consumer.new (L.view link.old) (L.view link.new) (seen_after result seen.new) result }
    ensures kept { OnErr result (seen.new ≡ seen.old) }
{
    let stage = recreation.stage;
    match ask_for(alloc, link, awaited(stage)) {
        Err(OutOfMemory) => {
            keep_open(consumer, recreation);
            Err(Stop::OutOfMemory)
        }
        Ok(met) => {
            let next = pass_await(context, consumer, recreation, met.is_answer());
            replace_with(seen, seen_of(request_of(stage), met));
            Ok(Stepped {
                handed: RowItem::Nothing,
                looked: seen.is_something(),
                next,
            })
        }
    }
}

// The answer to a create is read, which was met.
fn answered(
    alloc: Global,
    context: &ConsumerContext<'_>,
    consumer: &mut Consumer,
    recreation: Recreation,
    request: u64,
    seen: &Seen,
) -> Result<Stepped, Stop>
    requires { is_some (reply_to request (answer_in seen.now)) ≡ true }
    ensures { (v : LinkView) → PassesRows (input_of context.now) context.now.moment (rows_of (read_in seen.now) (Task.Answered request)) (record consumer.old { phase = Phase.Recreates recreation }) consumer.new v v Seen.Nothing result }
{
    match reply_met(alloc, request, seen) {
        Err(OutOfMemory) => {
            keep_open(consumer, recreation);
            Err(Stop::OutOfMemory)
        }
        Ok(reply) => Ok(stepped_by(pass_answered(context, consumer, recreation, reply))),
    }
}

// ---- any row of a recreation

// A row of the open recreation is passed.
fn pass_recreating<L: Link>(
    alloc: Global,
    context: &ConsumerContext<'_>,
    link: &mut L,
    consumer: &mut Consumer,
    recreation: Recreation,
    task: &Task,
    seen: &mut Seen,
) -> Result<Stepped, Stop>
    requires task { IsTry task.now }
    requires stands { is_left (rows_of (read_in seen.old) task.now) ≡ true }
    requires bare { is_bare context.now.setup.now recreation.opened ≡ true }
    ensures passes { PassesRows (input_of context.now) context.now.moment (rows_of (read_in seen.old) task.now) (record consumer.old { phase = Phase.Recreates recreation }) consumer.new (L.view link.old) (L.view link.new) (seen_after result seen.new) result }
    ensures kept { OnErr result (seen.new ≡ seen.old) }
{
    match task {
        Task::Try => begin_try(alloc, context, link, consumer, recreation),
        Task::Create => create(alloc, context, link, consumer, recreation),
        Task::Ask => ask_create(alloc, context, link, consumer, recreation),
        Task::Await => look_on(alloc, context, link, consumer, recreation, seen),
        Task::Answered { request } => {
            answered(alloc, context, consumer, recreation, *request, seen)
        }
        Task::Succeed(info) => succeed(alloc, context, link, consumer, recreation, info.get()),
        Task::Fail => fail(alloc, context, link, consumer, recreation),
        Task::Event
        | Task::Start
        | Task::Hold
        | Task::CheckArrival
        | Task::Hear { .. }
        | Task::HearHeld(_)
        | Task::CheckSilence
        | Task::Arm
        | Task::Read(_) => unreachable!(),
    }
}

// A row that belongs to an open recreation is passed. Where none is open, it does nothing.
pub(crate) fn pass_open<L: Link>(
    alloc: Global,
    context: &ConsumerContext<'_>,
    link: &mut L,
    consumer: &mut Consumer,
    task: &Task,
    seen: &mut Seen,
) -> Result<Stepped, Stop>
    requires task { IsTry task.now }
    requires stands { is_left (rows_of (read_in seen.old) task.now) ≡ true }
    requires plain { is_plain context.now.setup.now consumer.old.phase ≡ true }
    ensures passes { PassesRows (input_of context.now) context.now.moment (rows_of (read_in seen.old) task.now) consumer.old consumer.new (L.view link.old) (L.view link.new) (seen_after result seen.new) result }
    ensures kept { OnErr result (seen.new ≡ seen.old) }
{
    match mem::replace(&mut consumer.phase, Phase::Idle) {
        Phase::Recreates(recreation) => {
            pass_recreating(alloc, context, link, consumer, recreation, task, seen)
        }
        phase => {
            replace_with(&mut consumer.phase, phase);
            Ok(passed_over())
        }
    }
}
