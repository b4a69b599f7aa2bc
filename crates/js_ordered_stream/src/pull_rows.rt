//! The rows of a pull reader over a link, and what the consumer makes of what its reader tells.
ghost use Rattle.std.specs.Prelude.{◌≡◌, ◌≢◌, IfOk, None, OnErr, Option, Some, false, true};
ghost use Rattle.js_base.specs.declared.message.Message.{Message as SpecMessage};
ghost use Rattle.js_link.specs.LinkView.{LinkView};
ghost use Rattle.js_ordered_table.specs.Tasks.{reader_rows};
ghost use Rattle.js_ordered_stream.specs.Polled.{is_plain};
ghost use Rattle.js_ordered_stream.specs.Rows.{AsksNothing, IsReadMet, MeetsReader, PassesRow, TakesIn, answer_in, handed_by_heard, message_in, seen_after};
ghost use Rattle.js_link.specs.declared.wish.Met.TheVariants.{Unasked};
ghost use Rattle.js_pull.specs.Passes.{publishing};
ghost use Rattle.js_pull.specs.Reader as reads;
ghost use Rattle.js_pull.specs.Rows.{IsInformed, ReadsTo, Steps, brought, quiet_step, row_of, told_shown};
ghost use Rattle.js_pull.specs.declared.reader.Row.TheVariants as read;
ghost use Rattle.js_ordered_table.specs.Passes.{input_of};
ghost use Rattle.js_ordered_table.specs.Consumer.{Matter};
ghost use Rattle.js_ordered_table.specs.declared.row.Row.TheVariants as row;

use crate::remaining_rows::{Seen, seen_of};
use crate::rows::{RowItem, Stepped, Stop, ask_for, followed_by, handed_of, passed_over};
use js_base::{Message, Moment, OutOfMemory, replace_with};
use js_link::{InboxId, Link, Met, Taken};
use js_ordered_table::transitions::pull::{take_message, take_notice};
use js_ordered_table::transitions::push::heard_from;
use js_ordered_table::transitions::{Heard, NextTasks, PassedTask};
use js_ordered_table::{Consumer, ConsumerContext, ItemKind, Phase};
use js_pull::{Due, Finding, Notice, PassedRow as Read, Reader, Spare, informed_of};
use std::alloc::Global;

// ---- what a row meets

/// What a row of a reader met, and what its reply tells.
#[derive(Drop)]
pub(crate) struct ReadMet {
    pub met: Met,
    pub informed: Finding,
}

// What a row is told that reads no answer.
fn finding_without_reply(alloc: Global, due: Due) -> Result<Finding, OutOfMemory>
    ensures { IfOk result (λ finding. IsInformed (row_of None due) finding) }
{
    let reply = None;
    let told = informed_of(alloc, due, &reply);
    drop(reply);
    told
}

// What the reply tells to the row that reads it.
fn finding_of(alloc: Global, due: Due, seen: &Seen) -> Result<Finding, OutOfMemory>
    ensures { IfOk result (λ finding. IsInformed (row_of (brought (answer_in seen.now)) due) finding) }
{
    match seen {
        Seen::Reply(reply) => informed_of(alloc, due, &reply.message),
        Seen::Nothing => finding_without_reply(alloc, due),
        Seen::Message { .. } => finding_without_reply(alloc, due),
    }
}

// A row of a reader asks its link.
fn read_met<L: Link>(
    alloc: Global,
    link: &mut L,
    reader: &Reader,
    due: Due,
    seen: &Seen,
) -> Result<ReadMet, Stop>
    ensures { MeetsReader result (row_of (brought (answer_in seen.now)) due) reader.now (L.view link.old) (L.view link.new) }
{
    let informed = finding_of(alloc, due, seen)?;
    let wish = reader.wish(alloc, due)?;
    let met = ask_for(alloc, link, wish)?;
    if met.is_shut() {
        drop(met);
        return Err(Stop::Closed);
    }
    Ok(ReadMet { met, informed })
}

// ---- what the consumer makes of it

// What is handed out of a message of the stream.
pub(crate) fn handed_heard(heard: Heard) -> RowItem
    ensures { result ≡ handed_by_heard heard }
{
    match heard {
        Heard::Yields(_) => RowItem::Message,
        Heard::Unreadable => RowItem::Error(ItemKind::Other),
        Heard::Gap => RowItem::Nothing,
        Heard::Beat(_) => RowItem::Nothing,
        Heard::OtherStatus => RowItem::Nothing,
    }
}

/// What the consumer makes of what its reader tells.
#[derive(Drop)]
pub(crate) struct ReaderStep {
    pub handed: RowItem,
    pub next: NextTasks,
}

// What the reader tells without a message.
fn take_without_message(consumer: &mut Consumer, told: Notice, due: Option<Due>) -> ReaderStep
    ensures { (m : Matter) → (message : Option SpecMessage) → told_shown told message ≡ told_shown told None → TakesIn m (told_shown told message) (reader_rows m due) message consumer.old consumer.new result }
{
    let PassedTask { told, next } = take_notice(consumer, told, due);
    ReaderStep {
        handed: handed_of(told),
        next,
    }
}

// The message that the reader hands out.
fn take_with_message(consumer: &mut Consumer, message: &Message, due: Option<Due>) -> ReaderStep
    ensures { (m : Matter) → TakesIn m (told_shown Notice.Hands (Some message.now)) (reader_rows m due) (Some message.now) consumer.old consumer.new result }
{
    let heard = heard_from(consumer.core.consumer_sequence, message);
    ReaderStep {
        handed: handed_heard(heard),
        next: take_message(consumer, heard, due),
    }
}

// What the reader tells, with the message that was taken.
fn take_in(consumer: &mut Consumer, told: Notice, seen: &Seen, due: Option<Due>) -> ReaderStep
    ensures { (m : Matter) → TakesIn m (told_shown told (message_in seen.now)) (reader_rows m due) (message_in seen.now) consumer.old consumer.new result }
{
    match told {
        Notice::Hands => match seen.message() {
            Some(message) => take_with_message(consumer, message, due),
            None => take_without_message(consumer, Notice::Nothing, due),
        },
        Notice::Nothing => take_without_message(consumer, Notice::Nothing, due),
        Notice::Tells(kind) => take_without_message(consumer, Notice::Tells(kind), due),
    }
}

// ---- a row

// A row asks its link for nothing, and reads no answer.
fn asks_nothing(due: Due) -> bool
    ensures { AsksNothing due result }
{
    match due {
        Due::Threshold => true,
        Due::Arm => true,
        Due::FailInfoRequest { .. } => true,
        Due::CheckExpiry => true,
        Due::CheckSilence => true,
        Due::Ask { .. } => false,
        Due::Inquire { .. } => false,
        Due::CheckInfoRequest => false,
        Due::Answered { .. } => false,
        Due::CheckArrival => false,
    }
}

// The reader passes a row that asks its link for nothing. Nearly each turn has the first two, which need nothing that is large.
fn alone(reader: &mut Reader, now: Moment, due: Due) -> Read
    requires { AsksNothing due true }
    ensures { (reply : Option SpecMessage) → Steps now (row_of reply due) Unasked result reader.old reader.new }
{
    match due {
        Due::Threshold => reader.pass_threshold(),
        Due::CheckExpiry => reader.pass_check_expiry(now),
        _ => {
            let spare = Spare {
                informed: Finding::Nothing,
                pin: None,
            };
            reader.pass(now, due, spare, &Met::Unasked)
        }
    }
}

// The reader tells nothing, and no row of it follows, as after most of these.
fn is_quiet(step: Read) -> bool
    ensures { result ≡ true → step ≡ quiet_step None }
{
    match step.told {
        Notice::Nothing => step.next.is_none(),
        Notice::Hands => false,
        Notice::Tells(_) => false,
    }
}

// A row is passed that asks its link for nothing.
fn pass_alone(
    context: &ConsumerContext<'_>,
    consumer: &mut Consumer,
    due: Due,
) -> Result<Stepped, Stop>
    requires { AsksNothing due true }
    ensures { (reply : Option SpecMessage) → (v : LinkView) → PassesRow (input_of context.now) context.now.moment (row.Read (row_of reply due)) consumer.old consumer.new v v Seen.Nothing result }
{
    let Phase::Pulls(reader) = &mut consumer.phase else {
        return Ok(passed_over());
    };
    let step = alone(reader, context.moment, due);
    if is_quiet(step) {
        return Ok(followed_by(NextTasks::Nothing));
    }
    let ReaderStep { handed, next } = take_without_message(consumer, step.told, step.next);
    Ok(Stepped {
        handed,
        looked: false,
        next,
    })
}

// The reader hears the message that was taken, which lies in its place, or that there was none. It is not pinned.
fn hear_taken(reader: &mut Reader, now: Moment, seen: &Seen) -> Read
    requires { reader.old.source.pinned ≡ false }
    ensures { ReadsTo None (message_in seen.now) (reads.check_arrival (publishing now false) (message_in seen.now) reader.old) reader.new result }
{
    match seen.message() {
        Some(message) => reader.hear_arrival(now, message, None),
        None => reader.pass_check_arrival(now, &Met::Empty, None),
    }
}

// The reader looks for an arrival.
fn pass_arrival<L: Link>(
    context: &ConsumerContext<'_>,
    link: &mut L,
    consumer: &mut Consumer,
    seen: &mut Seen,
) -> Result<Stepped, Stop>
    requires { is_plain context.now.setup.now consumer.old.phase ≡ true }
    ensures passes { PassesRow (input_of context.now) context.now.moment (row.Read read.CheckArrival) consumer.old consumer.new (L.view link.old) (L.view link.new) (seen_after result seen.new) result }
    ensures kept { OnErr result (seen.new ≡ seen.old) }
{
    let Phase::Pulls(reader) = &mut consumer.phase else {
        return Ok(passed_over());
    };
    // No ordered reader is pinned: an arrival brings no pin, for which memory would be needed.
    match link.take(InboxId(reader.source.inbox)) {
        Taken::Closed => Err(Stop::Closed),
        Taken::Empty => {
            let step = reader.pass_check_arrival(context.moment, &Met::Empty, None);
            let ReaderStep { handed, next } = take_without_message(consumer, step.told, step.next);
            Ok(Stepped {
                handed,
                looked: false,
                next,
            })
        }
        Taken::Message(message) => {
            let taken = Seen::Message {
                unheard: None,
                message,
            };
            replace_with(seen, taken);
            let step = hear_taken(reader, context.moment, seen);
            let ReaderStep { handed, next } = take_in(consumer, step.told, seen, step.next);
            Ok(Stepped {
                handed,
                looked: true,
                next,
            })
        }
    }
}

// A row is passed with what it meets at its link. The reader stays in its place, since it is large. What arrives is taken elsewhere.
fn pass_asking<L: Link>(
    alloc: Global,
    context: &ConsumerContext<'_>,
    link: &mut L,
    consumer: &mut Consumer,
    due: Due,
    seen: &mut Seen,
) -> Result<Stepped, Stop>
    requires { due ≢ Due.CheckArrival }
    ensures passes { PassesRow (input_of context.now) context.now.moment (row.Read (row_of (brought (answer_in seen.old)) due)) consumer.old consumer.new (L.view link.old) (L.view link.new) (seen_after result seen.new) result }
    ensures kept { OnErr result (seen.new ≡ seen.old) }
{
    let Phase::Pulls(reader) = &mut consumer.phase else {
        return Ok(passed_over());
    };
    let found = read_met(alloc, link, reader, due, seen)?;
    let ReadMet { met, informed } = found;
    let spare = Spare {
        informed,
        pin: None,
    };
    let step = reader.pass(context.moment, due, spare, &met);
    // A reader reads its answer without the number of its request.
    replace_with(seen, seen_of(0, met));
    let ReaderStep { handed, next } = take_in(consumer, step.told, seen, step.next);
    Ok(Stepped {
        handed,
        looked: seen.is_something(),
        next,
    })
}

// A row of a reader is passed. Where none reads, it does nothing.
pub(crate) fn pass_read<L: Link>(
    alloc: Global,
    context: &ConsumerContext<'_>,
    link: &mut L,
    consumer: &mut Consumer,
    due: Due,
    seen: &mut Seen,
) -> Result<Stepped, Stop>
    requires { is_plain context.now.setup.now consumer.old.phase ≡ true }
    ensures passes { PassesRow (input_of context.now) context.now.moment (row.Read (row_of (brought (answer_in seen.old)) due)) consumer.old consumer.new (L.view link.old) (L.view link.new) (seen_after result seen.new) result }
    ensures kept { OnErr result (seen.new ≡ seen.old) }
{
    match due {
        Due::CheckArrival => pass_arrival(context, link, consumer, seen),
        _ => {
            if asks_nothing(due) {
                return pass_alone(context, consumer, due);
            }
            pass_asking(alloc, context, link, consumer, due, seen)
        }
    }
}
