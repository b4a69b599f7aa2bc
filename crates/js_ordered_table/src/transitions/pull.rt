//! The rows of a pull reader, and what the consumer does with what its reader reports.
ghost use Rattle.std.specs.Prelude.{ℕ, ◌≡◌, [], false, None, Option, map};
ghost use Rattle.js_base.specs.declared.message.Message.{Message as SpecMessage};
ghost use Rattle.js_json.specs.declared.consumer.info.Info.{Info as SpecInfo};
ghost use Rattle.js_link.specs.RowInput.{RowInput};
ghost use Rattle.js_pull.specs.Rows.{ReadsTo, brought, finding_of, rows_with, told_shown};
ghost use Rattle.js_ordered_table.specs.Tasks.{IsOfStream, StepsTo, at_moment, heard_outputs, heard_row, next_rows, reader_rows, requesting, told_outputs};
ghost use Rattle.js_pull.specs.Reader as reads;
ghost use Rattle.js_pull.specs.declared.reader.Row.TheVariants as read;
ghost use Rattle.js_pull.specs.declared.reader.ReaderOutput.TheVariants as telling;
ghost use Rattle.js_ordered_table.specs.Arrivals.{told as told_by, with_sent};
ghost use Rattle.js_ordered_table.specs.Consumer.{Matter, at_phase};
ghost use Rattle.js_ordered_table.specs.declared.row.Row.TheVariants as row;

use crate::transitions::event;
use crate::transitions::recreation::set_phase;
use crate::transitions::task::{Heard, NextTasks, PassedTask, RowOutput, Task};
use crate::{Consumer, ItemKind, Phase};
use js_base::{Moment, State};
use js_pull::{
    Due, DueRows, Finding, MessagesErrorKind, Notice, PassedRow as Read, Reader, Reason,
};

// ---- rows

// The reader's rows that are left of an event.
#[inline]
fn tasks_of(todo: DueRows) -> NextTasks
    ensures { (m : Matter) → next_rows m result ≡ map row.Read (rows_with (brought m.answer) (brought m.answer) todo) }
{
    match todo {
        DueRows::Nothing => NextTasks::Nothing,
        DueRows::One(due) => NextTasks::One(Task::Read(due)),
        DueRows::Two(due, later) => NextTasks::Two(Task::Read(due), Task::Read(later)),
    }
}

/// Begins an event, with the connection's change, and returns the rows that follow.
#[inline]
pub fn begin(reader: &mut Reader, now: Moment, change: Option<State>) -> NextTasks
    ensures reader { (p : RowInput) → reader.new ≡ (reads.begin_row (at_moment now p) change reader.old).reader }
    ensures next { (m : Matter) → (p : RowInput) → next_rows m result ≡ map row.Read (reads.begin_row (at_moment now p) change reader.old).next }
{
    tasks_of(reader.begin(now, change))
}

/// Counts a pull request that has gone out, or reports the error if it was refused. Arms the expiry
/// timer in both cases.
pub fn ask(reader: &mut Reader, now: Moment, reason: Reason, goes_out: bool) -> Read
    ensures { (p : RowInput) → (reply : Option SpecMessage) → (message : Option SpecMessage)
        → ReadsTo reply message (reads.ask (record p { now = now; up = goes_out }) reason reader.old) reader.new result }
{
    reader.pass_ask(now, reason, goes_out)
}

/// Lets a pull request follow if little is pending.
pub fn threshold(reader: &mut Reader) -> Read
    ensures { (reply : Option SpecMessage) → (message : Option SpecMessage) → ReadsTo reply message (reads.threshold reader.old) reader.new result }
{
    reader.pass_threshold()
}

/// Records the number of the info request. If it was refused, the try has failed.
pub fn inquire(reader: &mut Reader, now: Moment, failures: u64, request: Option<u64>) -> Read
    ensures { (p : RowInput) → (reply : Option SpecMessage) → (message : Option SpecMessage)
        → ReadsTo reply message (reads.inquire (requesting now request p) failures reader.old) reader.new result }
{
    reader.pass_inquire(now, failures, request)
}

/// Handles a failed info request: the next try waits. After the sixth failure it reports the error
/// `Pull`, and a pull request follows.
pub fn fail_inquiry(reader: &mut Reader, now: Moment, failures: u64) -> Read
    ensures { (p : RowInput) → (reply : Option SpecMessage) → (message : Option SpecMessage)
        → ReadsTo reply message (reads.fail_inquiry (at_moment now p) failures reader.old) reader.new result }
{
    reader.pass_fail_inquiry(now, failures)
}

/// Handles an answer to an info request that was read: a pull request follows if the consumer is
/// there. If the consumer is gone, the reader ends by the option `recreates_when_gone`. Otherwise the
/// try has failed.
pub fn answered(reader: &mut Reader, failures: u64, informed: Finding) -> Read
    ensures { (reply : Option SpecMessage) → (message : Option SpecMessage) → informed ≡ finding_of (reads.info_reply reply)
        → ReadsTo reply message (reads.answered failures (reads.info_reply reply) reader.old) reader.new result }
{
    reader.pass_answered(failures, informed)
}

/// Lets a pull request follow if the last one has expired.
#[inline]
pub fn check_expiry(reader: &mut Reader, now: Moment) -> Read
    ensures { (p : RowInput) → (reply : Option SpecMessage) → (message : Option SpecMessage)
        → ReadsTo reply message (reads.row (at_moment now p) None None read.CheckExpiry reader.old) reader.new result }
{
    reader.pass_check_expiry(now)
}

/// Reports a missing heartbeat, and arms its timer again. By the option `asks_at_first_heartbeat` a
/// request for the consumer's info follows, unless one is open.
#[inline]
pub fn check_silence(reader: &mut Reader, now: Moment) -> Read
    ensures { (p : RowInput) → (reply : Option SpecMessage) → (message : Option SpecMessage)
        → ReadsTo reply message (reads.check_silence (at_moment now p) reader.old) reader.new result }
{
    reader.pass_check_silence(now)
}

// ---- what the consumer makes of what its reader tells

/// Returns the reader's row as the row that follows.
#[inline]
pub fn after(due: Option<Due>) -> NextTasks
    ensures { (m : Matter) → next_rows m result ≡ reader_rows m due }
{
    match due {
        None => NextTasks::Nothing,
        Some(due) => NextTasks::One(Task::Read(due)),
    }
}

// An item is told, and the reader goes on.
fn puts(kind: ItemKind, due: Option<Due>) -> PassedTask
    ensures told { result.told ≡ RowOutput.Tells kind }
    ensures next { (m : Matter) → next_rows m result.next ≡ reader_rows m due }
{
    PassedTask {
        told: RowOutput::Tells(kind),
        next: after(due),
    }
}

// A recreation starts: the reader's rows fall away.
fn restarts() -> PassedTask
    ensures { result ≡ record { told = RowOutput.Nothing; next = NextTasks.One Task.Start } }
{
    event::silent_row(NextTasks::One(Task::Start))
}

// The consumer has ended with an item.
fn ends(consumer: &mut Consumer, kind: ItemKind, due: Option<Due>) -> PassedTask
    ensures consumer { consumer.new ≡ at_phase Phase.Ended consumer.old }
    ensures told { result.told ≡ RowOutput.Tells kind }
    ensures next { (m : Matter) → next_rows m result.next ≡ reader_rows m due }
{
    set_phase(consumer, Phase::Ended);
    puts(kind, due)
}

// An error that the reader tells is an item, a recreation, or a mark.
fn take_error(consumer: &mut Consumer, kind: MessagesErrorKind, due: Option<Due>) -> PassedTask
    ensures { (m : Matter) → StepsTo m (with_sent [] (reader_rows m due) (told_by (telling.Tells kind) consumer.old)) (told_outputs result.told) consumer.new result.next }
{
    match kind {
        MessagesErrorKind::ConsumerDeleted => restarts(),
        MessagesErrorKind::NoResponders => restarts(),
        MessagesErrorKind::PushBasedConsumer => { ends(consumer, ItemKind::PushBasedConsumer, due) }
        MessagesErrorKind::RequestLimitExceeded => {
            if consumer.limited {
                return ends(consumer, ItemKind::RequestLimitExceeded, due);
            }
            consumer.limited = true;
            restarts()
        }
        MessagesErrorKind::MissingHeartbeat => {
            if consumer.missed {
                return restarts();
            }
            consumer.missed = true;
            event::silent_row(after(due))
        }
        MessagesErrorKind::Pull => puts(ItemKind::Pull, due),
        MessagesErrorKind::Other => puts(ItemKind::Other, due),
    }
}

/// Handles what the reader reports without a message.
pub fn take_notice(consumer: &mut Consumer, notice: Notice, due: Option<Due>) -> PassedTask
    ensures { (m : Matter) → StepsTo m (with_sent [] (reader_rows m due) (told_by (told_shown notice None) consumer.old)) (told_outputs result.told) consumer.new result.next }
{
    match notice {
        Notice::Nothing => event::silent_row(after(due)),
        Notice::Hands => event::silent_row(after(due)),
        Notice::Tells(kind) => take_error(consumer, kind, due),
    }
}

/// Handles a message that the reader hands out. The consumer's next message is yielded, another one
/// shows a gap, and one that can't be read is reported.
#[inline]
pub fn take_message(consumer: &mut Consumer, heard: Heard, due: Option<Due>) -> NextTasks
    requires { IsOfStream heard }
    ensures { (m : Matter) → (p : RowInput) → (message : SpecMessage)
        → StepsTo m (with_sent [] (reader_rows m due) (heard_row false p message heard (record consumer.old { missed = false }))) (heard_outputs false p.up message heard) consumer.new result }
{
    consumer.missed = false;
    match heard {
        Heard::Yields(place) => {
            consumer.accept(place);
            after(due)
        }
        Heard::Gap => NextTasks::One(Task::Start),
        Heard::Unreadable => after(due),
        Heard::Beat(_) => NextTasks::Nothing,
        Heard::OtherStatus => NextTasks::Nothing,
    }
}
