//! The rows of a recreation: it deletes the old consumer, and creates a new one that continues
//! after the last yield.
ghost use Rattle.std.specs.Prelude.{ℕ, ◌≡◌, ◌<◌, ◌+◌, [], Some, codes, is_some, min};
ghost use Rattle.js_link.specs.RowInput.{RowInput};
ghost use Rattle.js_ordered_table.specs.Tasks.{IsAnswered, Listens, StepsTo, at_moment, create_outputs, next_rows, opening_to, requested, requesting, subscribed, told_outputs};
ghost use Rattle.js_pull.specs.Reader.{reply_to, u64_max};
ghost use Rattle.js_ordered_table.specs.Passes.{input_of, timeout_at, waiting};
ghost use Rattle.js_ordered_table.specs.Recreation as rows;
ghost use Rattle.js_ordered_table.specs.Consumer.{Matter, at_phase, silent_row as silent_passed};
ghost use Rattle.js_ordered_table.specs.Texts as texts_of;
ghost use Rattle.js_json.specs.declared.consumer.info.Info.{Info as SpecInfo};

use crate::transitions::create_reply::{answered, missing_after, missing_output};
use crate::transitions::event::silent_row;
use crate::transitions::task::{Held, Inbox, NextTasks, PassedTask, RowOutput, Task};
use crate::{
    Consumer, ConsumerContext, ItemKind, Opened, OrderedSetup, Phase, Recreation, Stage, texts,
};
use js_base::{Items, Moment, Text, Timer, replace_with};
use js_json::consumer::Info;
use js_pull::{Due, InfoReply, PullSource, Reader, retry_wait};
use std::alloc::Global;
use std::mem;

/// Sets the consumer's phase.
pub(crate) fn set_phase(consumer: &mut Consumer, phase: Phase)
    ensures { consumer.new ≡ record consumer.old { phase = phase } }
{
    replace_with(&mut consumer.phase, phase);
}

// ---- a recreation starts

/// Begins a recreation: drops what is current, and the first try follows. Both names are the next
/// consumer's. If no sequence is left to start from, the consumer ends.
pub fn pass_start(
    context: &ConsumerContext<'_>,
    consumer: &mut Consumer,
    name: Text,
    new_name: Text,
) -> PassedTask
    requires name { name ≡ texts_of.consumer_name (input_of context.now) (min (consumer.old.core.recreation_count + 1) u64_max) }
    requires again { new_name ≡ texts_of.consumer_name (input_of context.now) (min (consumer.old.core.recreation_count + 1) u64_max) }
    ensures { (m : Matter) → StepsTo m (rows.start_row (input_of context.now) consumer.old) (told_outputs result.told) consumer.new result.next }
{
    let Ok(start) = consumer.core.restart() else {
        set_phase(consumer, Phase::Exhausted);
        return silent_row(NextTasks::Nothing);
    };
    let recreation_count = consumer.core.recreation_count;
    let old_name = mem::replace(&mut consumer.name, name);
    let recreation = Recreation {
        old_name,
        new_name,
        start,
        failures: 0,
        opened: None,
        stage: Stage::Between,
    };
    set_phase(consumer, Phase::Recreates(recreation));
    PassedTask {
        told: RowOutput::Recreates {
            recreation_count,
            start,
        },
        next: NextTasks::One(Task::Try),
    }
}

// ---- a try

// The bound on an answer that is waited for from now on.
fn timeout(context: &ConsumerContext<'_>) -> Timer
    ensures { result ≡ timeout_at (input_of context.now) context.now.moment }
{
    Timer {
        set: context.moment,
        wait: texts::recreation_timeout(context.settings),
    }
}

/// Begins a try. `request` is the number of the request that deletes the old consumer; without one,
/// the deletion is skipped.
pub fn pass_try(
    context: &ConsumerContext<'_>,
    consumer: &mut Consumer,
    mut recreation: Recreation,
    request: Option<u64>,
) -> NextTasks
    ensures { (m : Matter) → (p : RowInput)
        → StepsTo m (rows.try_row (input_of context.now) (requesting context.now.moment request p) recreation (at_phase (Phase.Recreates recreation) consumer.old))
        (requested (texts_of.delete_subject (input_of context.now) recreation) (codes "{}") request) consumer.new result }
{
    match request {
        None => {
            set_phase(consumer, Phase::Recreates(recreation));
            NextTasks::One(Task::Create)
        }
        Some(request) => {
            recreation.stage = Stage::Deleting {
                request,
                timeout: timeout(context),
            };
            set_phase(consumer, Phase::Recreates(recreation));
            NextTasks::Nothing
        }
    }
}

// The arrivals on this inbox are held by the recreation from now on.
fn hold_on(recreation: &mut Recreation, opened: Option<Opened>)
    ensures { recreation.new ≡ record recreation.old { opened = opened } }
{
    replace_with(&mut recreation.opened, opened);
}

/// Goes on to the create request. Push has opened its inbox before that; if it could not, the try
/// has failed.
pub fn pass_create(
    alloc: Global,
    context: &ConsumerContext<'_>,
    consumer: &mut Consumer,
    mut recreation: Recreation,
    inbox: Option<Inbox>,
) -> NextTasks
    ensures { (m : Matter) → (p : RowInput)
        → StepsTo m (rows.create_row context.now.setup.now (opening_to context.now.moment inbox p) recreation (at_phase (Phase.Recreates recreation) consumer.old))
        (create_outputs context.now.setup.now inbox) consumer.new result }
{
    match context.setup {
        OrderedSetup::Pull(_) => {
            drop(inbox);
            set_phase(consumer, Phase::Recreates(recreation));
            NextTasks::One(Task::Ask)
        }
        OrderedSetup::Push(_) => match inbox {
            None => {
                set_phase(consumer, Phase::Recreates(recreation));
                NextTasks::One(Task::Fail)
            }
            Some(Inbox { number, subject }) => {
                let opened = Opened {
                    inbox: number,
                    subject,
                    held: Items::new(alloc),
                };
                hold_on(&mut recreation, Some(opened));
                set_phase(consumer, Phase::Recreates(recreation));
                NextTasks::One(Task::Ask)
            }
        },
    }
}

/// Records the number of the create request. If it could not be sent, the try has failed.
pub fn pass_ask(
    context: &ConsumerContext<'_>,
    consumer: &mut Consumer,
    mut recreation: Recreation,
    request: Option<u64>,
) -> NextTasks
    ensures { (m : Matter) → (p : RowInput)
        → StepsTo m (rows.ask_row (input_of context.now) (requesting context.now.moment request p) recreation (at_phase (Phase.Recreates recreation) consumer.old))
        (requested (texts_of.create_subject (input_of context.now) recreation) (texts_of.create_body (input_of context.now) recreation) request) consumer.new result }
{
    match request {
        None => {
            set_phase(consumer, Phase::Recreates(recreation));
            NextTasks::One(Task::Fail)
        }
        Some(request) => {
            recreation.stage = Stage::Creating {
                request,
                timeout: timeout(context),
            };
            set_phase(consumer, Phase::Recreates(recreation));
            NextTasks::Nothing
        }
    }
}

// The recreation waits for its next try, after one more that has failed.
fn rest(recreation: &mut Recreation, now: Moment)
    requires { recreation.old.failures < u64.MAX }
    ensures { recreation.new ≡ waiting now recreation.old }
{
    let failures = recreation.failures + 1;
    recreation.failures = failures;
    hold_on(recreation, None);
    recreation.stage = Stage::Waiting {
        wait: Timer {
            set: now,
            wait: retry_wait(failures),
        },
    };
}

/// Handles a failed try. If there were more failures than retries, an error item ends the
/// recreation; otherwise the next try waits.
pub fn pass_fail(
    context: &ConsumerContext<'_>,
    consumer: &mut Consumer,
    mut recreation: Recreation,
) -> PassedTask
    ensures { (m : Matter) → (p : RowInput)
        → StepsTo m (rows.fail_row (input_of context.now) (at_moment context.now.moment p) recreation (at_phase (Phase.Recreates recreation) consumer.old))
        (told_outputs result.told) consumer.new result.next }
{
    if recreation.failures >= u64::from(context.settings.retries) {
        drop(recreation);
        set_phase(consumer, Phase::Idle);
        return PassedTask {
            told: RowOutput::Tells(ItemKind::Recreate),
            next: NextTasks::Nothing,
        };
    }
    rest(&mut recreation, context.moment);
    set_phase(consumer, Phase::Recreates(recreation));
    silent_row(NextTasks::Nothing)
}

// ---- an open recreation

// The deletion looks at its answer before its clock. Either brings the create.
fn delete_next(context: &ConsumerContext<'_>, timeout: Timer, is_answered: bool) -> NextTasks
    ensures { (m : Matter) → (p : RowInput) → (request : ℕ) → is_answered ≡ is_some (reply_to request m.answer)
        → next_rows m result ≡ rows.stage_rows (input_of context.now) (at_moment context.now.moment p) m (Stage.Deleting request timeout) }
{
    if is_answered {
        return NextTasks::One(Task::Create);
    }
    if timeout.is_due(context.moment) {
        return NextTasks::One(Task::Create);
    }
    NextTasks::Nothing
}

// The create looks at its answer before its clock.
#[tactic(auto, using(std::proofs::lemmas::Grind::common_steps, crate::proofs::PassedRows::create_answered))]
fn create_next(
    context: &ConsumerContext<'_>,
    request: u64,
    timeout: Timer,
    is_answered: bool,
) -> NextTasks
    ensures { (m : Matter) → (p : RowInput) → is_answered ≡ is_some (reply_to request m.answer)
        → next_rows m result ≡ rows.stage_rows (input_of context.now) (at_moment context.now.moment p) m (Stage.Creating request timeout) }
{
    if is_answered {
        return NextTasks::One(Task::Answered { request });
    }
    if timeout.is_due(context.moment) {
        return NextTasks::One(Task::Fail);
    }
    NextTasks::Nothing
}

// The next try waits.
fn wait_next(context: &ConsumerContext<'_>, wait: Timer) -> NextTasks
    ensures { (m : Matter) → (p : RowInput) → next_rows m result ≡ rows.stage_rows (input_of context.now) (at_moment context.now.moment p) m (Stage.Waiting wait) }
{
    if wait.is_due(context.moment) {
        return NextTasks::One(Task::Try);
    }
    NextTasks::Nothing
}

// What follows where a stage has its answer or not.
fn stage_next(context: &ConsumerContext<'_>, stage: Stage, is_answered: bool) -> NextTasks
    ensures { (m : Matter) → (p : RowInput) → IsAnswered m stage is_answered
        → next_rows m result ≡ rows.stage_rows (input_of context.now) (at_moment context.now.moment p) m stage }
{
    match stage {
        Stage::Between => NextTasks::Nothing,
        Stage::Deleting { timeout, .. } => delete_next(context, timeout, is_answered),
        Stage::Creating { request, timeout } => create_next(context, request, timeout, is_answered),
        Stage::Waiting { wait } => wait_next(context, wait),
    }
}

/// Continues an open recreation if what it waits for has come: an answer, or its time.
pub fn pass_await(
    context: &ConsumerContext<'_>,
    consumer: &mut Consumer,
    recreation: Recreation,
    is_answered: bool,
) -> NextTasks
    ensures { (m : Matter) → (p : RowInput) → IsAnswered m recreation.stage is_answered
        → StepsTo m (silent_passed (at_phase (Phase.Recreates recreation) consumer.old) (rows.stage_rows (input_of context.now) (at_moment context.now.moment p) m recreation.stage))
        [] consumer.new result }
{
    let next = stage_next(context, recreation.stage, is_answered);
    set_phase(consumer, Phase::Recreates(recreation));
    next
}

// ---- an answer to the create

/// Handles the reply to a create request. The try has failed if the reply held no info or, for
/// push, if the info has no deliver subject. By the option `tells_missing_stream` it reports that
/// the stream is not found, unless the last reply said so too.
pub fn pass_answered(
    context: &ConsumerContext<'_>,
    consumer: &mut Consumer,
    recreation: Recreation,
    reply: InfoReply,
) -> PassedTask
    ensures { (m : Matter)
        → StepsTo m (rows.answered_row (input_of context.now) reply (at_phase (Phase.Recreates recreation) consumer.old)) (told_outputs result.told) consumer.new result.next }
{
    let tells = context.settings.resilience.tells_missing_stream;
    let was_missing = consumer.stream_missing;
    let is_missing = missing_after(tells, &reply, was_missing);
    consumer.stream_missing = is_missing;
    let told = missing_output(is_missing, was_missing);
    let task = answered(context.setup, reply);
    set_phase(consumer, Phase::Recreates(recreation));
    PassedTask {
        told,
        next: NextTasks::One(task),
    }
}

/// Handles a create request of pull that succeeded: the reader reads the inbox that was opened. If
/// none could be opened, the try has failed. The source names no inbox yet.
pub fn pass_succeed_pull(
    context: &ConsumerContext<'_>,
    consumer: &mut Consumer,
    recreation: Recreation,
    mut source: PullSource,
    inbox: Option<Inbox>,
) -> NextTasks
    ensures { (m : Matter) → (p : RowInput) → (info : SpecInfo) → source ≡ texts_of.pull_source (input_of context.now) consumer.old.core.recreation_count 0 [] info
        → StepsTo m (rows.succeed_pull (input_of context.now) (opening_to context.now.moment inbox p) info (at_phase (Phase.Recreates recreation) consumer.old))
        (subscribed inbox) consumer.new result }
{
    match inbox {
        None => {
            drop(source);
            set_phase(consumer, Phase::Recreates(recreation));
            NextTasks::One(Task::Fail)
        }
        Some(Inbox { number, subject }) => {
            drop(recreation);
            source.inbox = number;
            source.subject = subject;
            set_phase(consumer, Phase::Pulls(Reader::new(source)));
            NextTasks::Two(Task::Read(Due::Threshold), Task::Read(Due::Arm))
        }
    }
}

/// Makes push's new inbox the current one, and returns what was held. That is read next, and then
/// the heartbeat timer is armed.
pub fn pass_succeed_push(
    context: &ConsumerContext<'_>,
    consumer: &mut Consumer,
    mut recreation: Recreation,
) -> Option<Held>
    ensures { (p : RowInput)
        → Listens (rows.succeed_push (at_moment context.now.moment p) recreation.opened (at_phase (Phase.Recreates recreation) consumer.old)) consumer.new result }
{
    match recreation.opened.take() {
        None => {
            set_phase(consumer, Phase::Recreates(recreation));
            None
        }
        Some(
            Opened {
                inbox,
                held: messages,
                ..
            },
        ) => {
            let phase = Phase::Pushes {
                inbox,
                heartbeat_timer: Timer {
                    set: context.moment,
                    wait: 10_000_000_000,
                },
            };
            set_phase(consumer, phase);
            drop(recreation);
            Some(Held {
                inbox,
                messages,
                place: 0,
            })
        }
    }
}
