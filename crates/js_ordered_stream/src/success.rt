//! A recreation that succeeded: its consumer reads another inbox.
ghost use Rattle.std.specs.Prelude.{◌≡◌, [], IfOk, OnErr, true};
ghost use Rattle.js_json.specs.declared.consumer.info.Info.{Info as SpecInfo};
ghost use Rattle.js_link.specs.LinkView.{LinkView};
ghost use Rattle.js_link.specs.Meets.{Meets};
ghost use Rattle.js_link.specs.declared.wish.Wish.TheVariants.{OpensInbox};
ghost use Rattle.js_ordered_stream.specs.Polled.{is_bare};
ghost use Rattle.js_ordered_stream.specs.Rows.{PassesRow, arming, inbox_in};
ghost use Rattle.js_ordered_table.specs.Invariant.{IsPull, IsPush};
ghost use Rattle.js_ordered_table.specs.Passes.{input_of};
ghost use Rattle.js_ordered_table.specs.Texts as texts_of;
ghost use Rattle.js_ordered_table.specs.declared.consumer.Phase.TheVariants as Phase;
ghost use Rattle.js_ordered_table.specs.declared.row.Row.TheVariants as row;

use crate::recreation::keep_open;
use crate::remaining_rows::Seen;
use crate::rows::{Stepped, Stop, ask_for, followed_by};
use js_base::OutOfMemory;
use js_json::consumer::Info;
use js_link::{Link, Met, Wish};
use js_ordered_table::pull_source::pull_source_without_inbox;
use js_ordered_table::transitions::recreation::{pass_succeed_pull, pass_succeed_push};
use js_ordered_table::transitions::{Held, Inbox, NextTasks, Task};
use js_ordered_table::{Consumer, ConsumerContext, OrderedSetup, Recreation};
use js_pull::PullSource;
use std::alloc::Global;

// The inbox that was opened, or could not be.
pub(crate) fn inbox_met(met: Met) -> Option<Inbox>
    ensures { result ≡ inbox_in met }
{
    match met {
        Met::Opened { inbox, subject } => Some(Inbox {
            number: inbox,
            subject,
        }),
        met => {
            drop(met);
            None
        }
    }
}

/// What pull needs for its next reader.
#[derive(Drop)]
struct Reading {
    source: PullSource,
    met: Met,
}

// Pull's next inbox is opened.
fn reading_for<L: Link>(
    alloc: Global,
    context: &ConsumerContext<'_>,
    link: &mut L,
    recreation_count: u64,
    info: &Info,
) -> Result<Reading, OutOfMemory>
    ensures source { IfOk result (λ reading. reading.source ≡ texts_of.pull_source (input_of context.now) recreation_count 0 [] info.now) }
    ensures met { IfOk result (λ reading. Meets OpensInbox reading.met (L.view link.old) (L.view link.new)) }
    ensures refused { OnErr result (L.view link.new ≡ L.view link.old) }
{
    let source = pull_source_without_inbox(alloc, context, recreation_count, info)?;
    match ask_for(alloc, link, Wish::OpensInbox) {
        Err(OutOfMemory) => {
            drop(source);
            Err(OutOfMemory)
        }
        Ok(met) => Ok(Reading { source, met }),
    }
}

// A create was answered well: pull opens its next inbox and reads it, and push listens to the one that it has opened for the create.
pub(crate) fn succeed<L: Link>(
    alloc: Global,
    context: &ConsumerContext<'_>,
    link: &mut L,
    consumer: &mut Consumer,
    recreation: Recreation,
    info: &Info,
) -> Result<Stepped, Stop>
    requires { is_bare context.now.setup.now recreation.opened ≡ true }
    ensures { PassesRow (input_of context.now) context.now.moment (row.Succeed info.now) (record consumer.old { phase = Phase.Recreates recreation }) consumer.new (L.view link.old) (L.view link.new) Seen.Nothing result }
{
    match context.setup {
        OrderedSetup::Pull(_) => { succeed_pull(alloc, context, link, consumer, recreation, info) }
        OrderedSetup::Push(_) => succeed_push(context, consumer, recreation),
    }
}

// Pull reads its next inbox.
fn succeed_pull<L: Link>(
    alloc: Global,
    context: &ConsumerContext<'_>,
    link: &mut L,
    consumer: &mut Consumer,
    recreation: Recreation,
    info: &Info,
) -> Result<Stepped, Stop>
    requires pull { IsPull context.now.setup.now }
    ensures { PassesRow (input_of context.now) context.now.moment (row.Succeed info.now) (record consumer.old { phase = Phase.Recreates recreation }) consumer.new (L.view link.old) (L.view link.new) Seen.Nothing result }
{
    match reading_for(alloc, context, link, consumer.core.recreation_count, info) {
        Err(OutOfMemory) => {
            keep_open(consumer, recreation);
            Err(Stop::OutOfMemory)
        }
        Ok(reading) => {
            let Reading { source, met } = reading;
            let inbox = inbox_met(met);
            Ok(followed_by(pass_succeed_pull(context, consumer, recreation, source, inbox)))
        }
    }
}

// Where push has opened an inbox, its heartbeat is armed next: a poll holds nothing that would be heard before.
fn armed_after(held: Option<Held>) -> NextTasks
    ensures { result ≡ arming held }
{
    match held {
        None => NextTasks::Nothing,
        Some(held) => {
            drop(held);
            NextTasks::One(Task::Arm)
        }
    }
}

// Push listens to the inbox that it has opened: what has come there lies in the link, and is the arrival of a later turn.
fn succeed_push(
    context: &ConsumerContext<'_>,
    consumer: &mut Consumer,
    recreation: Recreation,
) -> Result<Stepped, Stop>
    requires push { IsPush context.now.setup.now }
    requires bare { is_bare context.now.setup.now recreation.opened ≡ true }
    ensures { (info : SpecInfo) → (v : LinkView) → PassesRow (input_of context.now) context.now.moment (row.Succeed info) (record consumer.old { phase = Phase.Recreates recreation }) consumer.new v v Seen.Nothing result }
{
    let held = pass_succeed_push(context, consumer, recreation);
    Ok(followed_by(armed_after(held)))
}
