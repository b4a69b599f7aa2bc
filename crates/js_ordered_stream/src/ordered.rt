//! An ordered consumer over its link, by pull or by push. It passes row after row, and may stop
//! between any two.
ghost use Rattle.std.specs.Prelude.{◌≡◌, ◌<◌, ◌^◌, ◌||◌, ◌&&◌, ◌++◌, IfOk, OnErr, false, is_some, not, true, ℕ};
ghost use Rattle.js_link.specs.Meets.{Meets};
ghost use Rattle.js_ordered_table.specs.Tasks.{next_rows};
ghost use Rattle.js_ordered_stream.specs.Inbox.{ClosesInbox, inbox_of};
ghost use Rattle.js_ordered_stream.specs.Polled.{IsSteady, is_plain, is_turn};
ghost use Rattle.js_ordered_stream.specs.Rows.{has_message, hold_none, kept_if, later_of, left_rows, message_in, read_in, seen_after};
ghost use Rattle.js_ordered_stream.specs.Ordered.{IsGivenKind, PassesFirst, PollsWithSource, ComesTo, SleepsUntil, error_kind, first_at, given_to, handing, is_spent as has_no_sequence, poll_answer, position_of, silent_by, something_due, source_by, outcome_by, with_retries};
ghost use Rattle.js_base.specs.Clock.{has_come};
ghost use Rattle.js_base.specs.Error.{kind_of, source_of};
ghost use Rattle.js_ordered_table.specs.Fold.{is_over as has_ended};
ghost use Rattle.js_ordered_table.specs.Passes.{input_of};
ghost use Rattle.js_ordered_table.specs.Poll.{IsPoll, closed_at, is_reading as reads_inbox};

use crate::error::{OrderedError, error_of, limit_error, sequence_end};
use crate::inbox::{close_inbox, inbox_of};
use crate::remaining_rows::{RemainingRows, Seen, TaskQueue};
use crate::rows::{RowItem, Stepped, Stop, begin, pass};
use crate::timers::wakes_at;
use js_base::{Boxed, Message, Moment, Next, OutOfMemory, State, Text, replace_with};
use js_json::consumer::Info;
use js_link::{InboxId, Link};
use js_ordered_table::transitions::event::is_over;
use js_ordered_table::{
    Consumer, ConsumerContext, ItemKind, OrderedCore, OrderedSetup, Phase, ReplayInput, Settings,
};
use std::alloc::Global;

/// An ordered consumer: it yields the messages of its stream in order and without a gap, and
/// recreates its server-side consumer if a gap shows.
#[derive(Drop)]
pub(crate) struct Ordered {
    given: Boxed<ReplayInput>,
    pub(crate) consumer: Consumer,
    left: RemainingRows,
}

/// What the next row comes to.
#[derive(Drop)]
pub(crate) enum RowOutcome {
    /// Nothing is handed out.
    Silent { stirs: bool },
    /// The message that was taken. It stays in its place, since it is large.
    Hands,
    Tells(ItemKind),
    /// No sequence is left to go on from.
    Exhausted,
    Closed,
    OutOfMemory,
}

fn is_reading(phase: &Phase) -> bool
    ensures { result ≡ reads_inbox phase.now }
{
    match phase {
        Phase::Pulls(_) => true,
        Phase::Pushes { .. } => true,
        Phase::Recreates(_) => false,
        Phase::Idle => false,
        Phase::Ended => false,
        Phase::Exhausted => false,
    }
}

fn is_spent(phase: &Phase) -> bool
    ensures { result ≡ has_no_sequence phase.now }
{
    match phase {
        Phase::Exhausted => true,
        Phase::Pulls(_) => false,
        Phase::Pushes { .. } => false,
        Phase::Recreates(_) => false,
        Phase::Idle => false,
        Phase::Ended => false,
    }
}

// Nothing is handed out.
fn silent_outcome(stirs: bool, spent: bool) -> RowOutcome
    ensures { result ≡ silent_by stirs spent }
{
    if spent {
        RowOutcome::Exhausted
    } else {
        RowOutcome::Silent { stirs }
    }
}

// A message is handed out, where there is one.
fn hands(seen: &Seen, stirs: bool, spent: bool) -> RowOutcome
    ensures { result ≡ outcome_by RowItem.Message (message_in seen.now) stirs spent }
{
    match seen.message() {
        Some(_) => RowOutcome::Hands,
        None => silent_outcome(stirs, spent),
    }
}

// A row looked at a message, or started a reader.
fn stirs(looked: bool, was_reading: bool, phase: &Phase) -> bool
    ensures { result ≡ (looked || (not was_reading && reads_inbox phase.now)) }
{
    let reads = is_reading(phase);
    looked || (!was_reading && reads)
}

// A turn that begins is quiet until a row stirs.
fn is_quiet(quiet: bool, begins: bool, stirs: bool) -> bool
    ensures { result ≡ ((begins || quiet) && not stirs) }
{
    (begins || quiet) && !stirs
}

// Nothing is left of a turn that was quiet.
fn may_wait(begins: bool, quiet: bool) -> bool
    ensures { result ≡ (begins && quiet) }
{
    begins && quiet
}

// A consumer with this configured start and this name, and at this phase, which has yielded nothing yet.
pub(crate) fn first_consumer(start: Option<u64>, name: Text, phase: Phase) -> Consumer
    ensures { result ≡ first_at start name phase }
{
    Consumer {
        phase,
        core: OrderedCore::new(start),
        name,
        missed: false,
        limited: false,
        stream_missing: false,
        connection: State::Connected,
    }
}

// What a polled consumer is made with: it is tried to be made anew as often as a number counts.
pub(crate) fn replay_input(
    alloc: Global,
    mut settings: Settings,
    setup: OrderedSetup,
    first: Info,
) -> Result<Boxed<ReplayInput>, OutOfMemory>
    ensures { IfOk result (λ given. given ≡ record { settings = with_retries settings; setup = setup; first = first }) }
{
    settings.retries = u32::MAX;
    Boxed::new(
        alloc,
        ReplayInput {
            settings,
            setup,
            first,
        },
    )
}

// Passes the first of the rows that are left, which read this, and keeps there what it looked at. A turn begins where none is left.
fn pass_first<L: Link>(
    alloc: Global,
    context: &ConsumerContext<'_>,
    link: &mut L,
    consumer: &mut Consumer,
    todo: &TaskQueue,
    seen: &mut Seen,
) -> Result<Stepped, Stop>
    requires { IsSteady context.now.setup.now consumer.old (record { todo = todo.now; seen = seen.old }) }
    ensures passes { PassesFirst (input_of context.now) context.now.moment (record { todo = todo.now; seen = seen.old }) consumer.old consumer.new (L.view link.old) (L.view link.new) (seen_after result seen.new) result }
    ensures kept { OnErr result (seen.new ≡ seen.old) }
{
    match todo {
        TaskQueue::Nothing => begin(context, link, consumer),
        TaskQueue::One(task) => pass(alloc, context, link, consumer, task, seen),
        TaskQueue::Two(task, _) => pass(alloc, context, link, consumer, task, seen),
    }
}

impl Ordered {
    // A consumer with the rows that are left of its opening.
    pub(crate) fn new(given: Boxed<ReplayInput>, consumer: Consumer, left: RemainingRows) -> Ordered
        ensures { result ≡ record { given = given; consumer = consumer; left = left } }
    {
        Ordered {
            given,
            consumer,
            left,
        }
    }

    // Reads the next message or error. It waits after a turn in which nothing came.
    pub(crate) fn poll_next<L: Link>(
        &mut self,
        alloc: Global,
        link: &mut L,
        now: Moment,
    ) -> Next<Result<Message, OrderedError>>
        requires { IsSteady (given_to self.old).setup self.old.consumer self.old.left }
        ensures given { given_to self.new ≡ given_to self.old }
        ensures steady { IsSteady (given_to self.new).setup self.new.consumer self.new.left }
        ensures polls { IsPoll (given_to self.old) Meets now (position_of self.old) (position_of self.new) (L.view link.old) (L.view link.new) (poll_answer result) }
        ensures sources { PollsWithSource (given_to self.old) now (position_of self.old) (position_of self.new) (L.view link.old) (L.view link.new) result }
        ensures kinds { IsGivenKind result }
    {
        if is_over(&self.consumer.phase) {
            return Next::End;
        }
        self.walk(alloc, link, now)
    }

    // When it has something to do by itself.
    pub(crate) fn wakes_at(&self) -> Option<Moment>
        requires { IsSteady (given_to self.now).setup self.now.consumer self.now.left }
        ensures value { (now : ℕ) → now < 2 ^ 64 → has_come result now ≡ something_due now (position_of self.now) }
        ensures sleeps { SleepsUntil (given_to self.now) result (position_of self.now) }
    {
        wakes_at(&self.consumer, &self.left.todo)
    }

    // The inbox that is open for it.
    pub(crate) fn inbox(&self) -> Option<InboxId>
        ensures { result ≡ inbox_of (position_of self.now).consumer.phase }
    {
        inbox_of(&self.consumer.phase)
    }

    // Lets go of it, and closes its inbox.
    pub(crate) fn leave<L: Link>(self, link: &mut L)
        ensures { ClosesInbox (inbox_of (position_of self).consumer.phase) (L.view link.old) (L.view link.new) }
    {
        let inbox = self.inbox();
        drop(self);
        close_inbox(link, inbox);
    }

    // Passes row after row, up to the first that hands something out. It ends: a turn that is not quiet has taken one of the messages that
    // lie there, or has started a reader, whose inbox is empty.
    fn walk<L: Link>(
        &mut self,
        alloc: Global,
        link: &mut L,
        now: Moment,
    ) -> Next<Result<Message, OrderedError>>
        requires over { has_ended self.old.consumer.phase ≡ false }
        requires steady { IsSteady (given_to self.old).setup self.old.consumer self.old.left }
        ensures given { given_to self.new ≡ given_to self.old }
        ensures steady { IsSteady (given_to self.new).setup self.new.consumer self.new.left }
        ensures sources { PollsWithSource (given_to self.old) now (position_of self.old) (position_of self.new) (L.view link.old) (L.view link.new) result }
        ensures kinds { IsGivenKind result }
    {
        let mut quiet = false;
        'rows: loop {
            let begins = self.left.todo.is_empty();
            if may_wait(begins, quiet) {
                return Next::Pending;
            }
            match self.pass_next(alloc, link, now) {
                RowOutcome::Silent { stirs } => quiet = is_quiet(quiet, begins, stirs),
                RowOutcome::Hands => return self.hand_out(),
                RowOutcome::Tells(kind) => return Next::Item(Err(self.tell(kind))),
                RowOutcome::Exhausted => return Next::Item(Err(sequence_end())),
                RowOutcome::Closed => return Next::End,
                RowOutcome::OutOfMemory => return Next::OutOfMemory,
            }
        }
    }

    // The message that was taken is handed out.
    fn hand_out(&mut self) -> Next<Result<Message, OrderedError>>
        requires message { is_some (message_in self.old.left.seen) ≡ true }
        requires steady { IsSteady (given_to self.old).setup self.old.consumer self.old.left }
        ensures given { given_to self.new ≡ given_to self.old }
        ensures steady { IsSteady (given_to self.new).setup self.new.consumer self.new.left }
        ensures place { position_of self.new ≡ position_of self.old }
        ensures answer { result ≡ handing (message_in self.old.left.seen) }
        ensures kinds { IsGivenKind result }
    {
        match self.left.take_message() {
            Some(message) => Next::Item(Ok(message)),
            None => unreachable!(),
        }
    }

    // The error that the last row told of. The message that told of a limit lies in its place still.
    fn tell(&mut self, kind: ItemKind) -> OrderedError
        requires { IsSteady (given_to self.old).setup self.old.consumer self.old.left }
        ensures given { given_to self.new ≡ given_to self.old }
        ensures steady { IsSteady (given_to self.new).setup self.new.consumer self.new.left }
        ensures place { position_of self.new ≡ position_of self.old }
        ensures tells { kind_of result ≡ error_kind kind }
        ensures source { source_of result ≡ source_by (error_kind kind) (message_in self.old.left.seen) }
    {
        match kind {
            ItemKind::RequestLimitExceeded => limit_error(self.left.take_message()),
            ItemKind::MissingHeartbeat
            | ItemKind::PushBasedConsumer
            | ItemKind::Pull
            | ItemKind::Recreate
            | ItemKind::Other
            | ItemKind::StreamNotFound => error_of(kind),
        }
    }

    // Passes the next row over its link.
    fn pass_over<L: Link>(
        &mut self,
        alloc: Global,
        link: &mut L,
        now: Moment,
    ) -> Result<Stepped, Stop>
        requires { IsSteady (given_to self.old).setup self.old.consumer self.old.left }
        ensures given { given_to self.new ≡ given_to self.old }
        ensures todo { self.new.left.todo ≡ self.old.left.todo }
        ensures kept { OnErr result (self.new.left ≡ self.old.left) }
        ensures passes { PassesFirst (given_to self.old) now self.old.left self.old.consumer self.new.consumer (L.view link.old) (L.view link.new) (seen_after result self.new.left.seen) result }
    {
        let given = self.given.get();
        let context = ConsumerContext {
            settings: &given.settings,
            setup: &given.setup,
            first: &given.first,
            moment: now,
        };
        pass_first(
            alloc,
            &context,
            link,
            &mut self.consumer,
            &self.left.todo,
            &mut self.left.seen,
        )
    }

    // A closed inbox ends the stream.
    fn close(&mut self)
        ensures given { given_to self.new ≡ given_to self.old }
        ensures steady { IsSteady (given_to self.new).setup self.new.consumer self.new.left }
        ensures place { position_of self.new ≡ closed_at true (position_of self.old) }
    {
        replace_with(&mut self.consumer.phase, Phase::Ended);
        self.left.clear();
    }

    // Passes the next row, and keeps what is left then.
    fn pass_next<L: Link>(&mut self, alloc: Global, link: &mut L, now: Moment) -> RowOutcome
        requires { IsSteady (given_to self.old).setup self.old.consumer self.old.left }
        ensures given { given_to self.new ≡ given_to self.old }
        ensures steady { IsSteady (given_to self.new).setup self.new.consumer self.new.left }
        ensures turns { ComesTo result (message_in self.new.left.seen) (given_to self.old) now (position_of self.old) (position_of self.new) (L.view link.old) (L.view link.new) }
    {
        let was_reading = is_reading(&self.consumer.phase);
        match self.pass_over(alloc, link, now) {
            Ok(done) => self.keep_remaining(done, was_reading),
            Err(Stop::Closed) => {
                self.close();
                RowOutcome::Closed
            }
            Err(Stop::OutOfMemory) => RowOutcome::OutOfMemory,
        }
    }

    // Keeps what is left after a row. A message that is to be handed out stays in its place.
    fn keep_remaining(&mut self, done: Stepped, was_reading: bool) -> RowOutcome
        requires plain { is_plain (given_to self.old).setup self.old.consumer.phase ≡ true }
        requires turn { is_turn (given_to self.old).setup (next_rows (read_in (kept_if done.looked self.old.left.seen)) done.next ++ later_of self.old.left.todo) ≡ true }
        requires held { hold_none done.next ≡ true }
        ensures given { given_to self.new ≡ given_to self.old }
        ensures steady { IsSteady (given_to self.new).setup self.new.consumer self.new.left }
        ensures consumer { self.new.consumer ≡ self.old.consumer }
        ensures seen { self.new.left.seen ≡ kept_if done.looked self.old.left.seen }
        ensures left { left_rows self.new.left ≡ next_rows (read_in (kept_if done.looked self.old.left.seen)) done.next ++ later_of self.old.left.todo }
        ensures turned { result ≡ outcome_by done.handed (message_in (kept_if done.looked self.old.left.seen)) (has_message (kept_if done.looked self.old.left.seen) || (not was_reading && reads_inbox self.old.consumer.phase)) (has_no_sequence self.old.consumer.phase) }
    {
        let Stepped {
            handed,
            looked,
            next,
        } = done;
        self.left.follow(next, looked);
        let stirs = stirs(
            self.left.seen.is_message(),
            was_reading,
            &self.consumer.phase,
        );
        let spent = is_spent(&self.consumer.phase);
        match handed {
            RowItem::Nothing => silent_outcome(stirs, spent),
            RowItem::Message => hands(&self.left.seen, stirs, spent),
            RowItem::Error(kind) => RowOutcome::Tells(kind),
        }
    }
}
