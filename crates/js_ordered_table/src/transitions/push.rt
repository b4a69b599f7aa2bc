//! The rows by which push reads its inbox. An arrival is yielded, is reported, or shows that the
//! consumer must be recreated.
ghost use Rattle.std.specs.Prelude.{◌≡◌, is_some};
ghost use Rattle.js_base.specs.declared.message.Message.{Message as SpecMessage};
ghost use Rattle.js_link.specs.RowInput.{RowInput};
ghost use Rattle.js_ordered_table.specs.Tasks.{IsHeard, IsHeardFrom, StepsTo, at_moment, heard_outputs, heard_row, next_rows, told_outputs};
ghost use Rattle.js_ordered_table.specs.declared.consumer.Consumer.{Consumer as SpecConsumer};
ghost use Rattle.js_ordered_table.specs.Arrivals as reading;
ghost use Rattle.js_ordered_table.specs.Consumer.{Matter, at_phase};
ghost use Rattle.js_ordered_table.specs.Recreation.{message_on};
ghost use Rattle.js_ordered_table.specs.Table as table;

use crate::transitions::event::silent_row;
use crate::transitions::recreation::set_phase;
use crate::transitions::task::{Heard, NextTasks, PassedTask, RowOutput, Task};
use crate::{Consumer, ConsumerContext, ItemKind, Phase, PushKind, place_of, push_kind};
use js_base::{Message, Moment, Nanos, Timer};

/// The server sends something at least this often, in nanoseconds.
const HEARTBEAT: Nanos = 10_000_000_000;

// The heartbeat from now on.
fn armed(now: Moment) -> Timer
    ensures { result ≡ reading.armed now }
{
    Timer {
        set: now,
        wait: HEARTBEAT,
    }
}

/// Makes this inbox the current one, and arms its heartbeat timer.
#[inline]
pub fn listen(context: &ConsumerContext<'_>, consumer: &mut Consumer, inbox: u64)
    ensures { consumer.new ≡ at_phase (Phase.Pushes inbox (reading.armed context.now.moment)) consumer.old }
{
    let heartbeat_timer = armed(context.moment);
    set_phase(
        consumer,
        Phase::Pushes {
            inbox,
            heartbeat_timer,
        },
    );
}

// ---- what is looked for

/// Returns the row that follows when push looks for an arrival: one that reads it or, if none is
/// there, one that checks the heartbeat.
#[inline]
pub fn arrival_next(inbox: u64, is_there: bool) -> NextTasks
    ensures { (m : Matter) → is_there ≡ is_some (message_on inbox m.arrival) → next_rows m result ≡ table.push_rows inbox (message_on inbox m.arrival) }
{
    if is_there {
        return NextTasks::One(Task::Hear { inbox });
    }
    NextTasks::One(Task::CheckSilence)
}

/// If the heartbeat is missing, reports an error item and lets a recreation follow.
#[inline]
pub fn pass_silence(context: &ConsumerContext<'_>, heartbeat_timer: Timer) -> PassedTask
    ensures { (m : Matter) → (p : RowInput) → (c : SpecConsumer)
        → StepsTo m (reading.silence_row (at_moment context.now.moment p) heartbeat_timer c) (told_outputs result.told) c result.next }
{
    if !heartbeat_timer.is_due(context.moment) {
        return silent_row(NextTasks::Nothing);
    }
    PassedTask {
        told: RowOutput::Tells(ItemKind::MissingHeartbeat),
        next: NextTasks::One(Task::Start),
    }
}

// ---- what is heard

/// Returns what a message of the stream means after the one with this number.
#[inline]
pub fn heard_from(number: u64, message: &Message) -> Heard
    ensures { IsHeardFrom number message.now result }
{
    match place_of(message) {
        None => Heard::Unreadable,
        Some(place) => {
            if place.is_after(number) {
                Heard::Yields(place)
            } else {
                Heard::Gap
            }
        }
    }
}

/// Returns what an arrival means to a consumer that has accepted the message with this number.
#[inline]
pub fn heard_as(number: u64, message: &Message) -> Heard
    ensures { IsHeard number message.now result }
{
    match push_kind(message) {
        PushKind::Delivered => heard_from(number, message),
        PushKind::Beat(last) => Heard::Beat(last),
        PushKind::Bad => Heard::Unreadable,
        PushKind::OtherStatus => Heard::OtherStatus,
    }
}

// A beat shows a gap where it names another number than that of the last message.
fn beat_next(last: Option<u64>, number: u64) -> NextTasks
    ensures { (m : Matter) → next_rows m result ≡ reading.beat_rows last number }
{
    match last {
        None => NextTasks::Nothing,
        Some(last) => {
            if last == number {
                NextTasks::Nothing
            } else {
                NextTasks::One(Task::Start)
            }
        }
    }
}

/// Handles an arrival on the current inbox, and arms its heartbeat timer.
#[inline]
pub fn pass_hear(
    context: &ConsumerContext<'_>,
    consumer: &mut Consumer,
    inbox: u64,
    heard: Heard,
) -> NextTasks
    ensures { (m : Matter) → (p : RowInput) → (message : SpecMessage)
        → StepsTo m (heard_row context.now.settings.now.resilience.answers_stalled p message heard (at_phase (Phase.Pushes inbox (reading.armed context.now.moment)) consumer.old))
        (heard_outputs context.now.settings.now.resilience.answers_stalled p.up message heard) consumer.new result }
{
    listen(context, consumer, inbox);
    match heard {
        Heard::Yields(place) => {
            consumer.accept(place);
            NextTasks::Nothing
        }
        Heard::Beat(last) => beat_next(last, consumer.core.consumer_sequence),
        Heard::Gap => NextTasks::One(Task::Start),
        Heard::Unreadable => NextTasks::Nothing,
        Heard::OtherStatus => NextTasks::Nothing,
    }
}
