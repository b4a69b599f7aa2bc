//! A recorder: an ordered consumer that writes down everything that it meets.
ghost use Rattle.std.specs.Prelude.{◌≡◌, ◌<◌, ◌^◌, [], ℕ, List, Some, None, IfOk, IfSome, OnErr, is_some, true, false};
ghost use Rattle.js_base.specs.Clock.{has_come};
ghost use Rattle.js_link.specs.LinkView.{LinkView};
ghost use Rattle.js_ordered_table.specs.declared.event.Event as events;
ghost use Rattle.js_ordered_table.specs.declared.run.Output as outputs;
ghost use Rattle.js_ordered_table.specs.Fold.{is_over as has_ended};
ghost use Rattle.js_ordered_recorder.specs.Acts.{Rests, TakenBy, WorksNext, World, phase_of, queue};
ghost use Rattle.js_ordered_recorder.specs.Recorder.{Answers, EndsAs, IsAt, Polls, TurnsTo, WorksTo, has_rest, has_work};
ghost use Rattle.js_ordered_recorder.specs.Life.{IsNew};
ghost use Rattle.js_ordered_recorder.specs.Sends.{ClosesAt, HasMessage};
ghost use Rattle.js_ordered_recorder.specs.Recording.{WritesAll};
ghost use Rattle.js_tool_transcript.specs.TranscriptReplay.{replay_input};

use crate::error::error_of;
use crate::link_event::Taken;
use crate::link_input::{later, take_answer, take_arrival, take_change, take_link, take_tick};
use crate::output_delivery::{Worked, work_off};
use crate::recording::{Recording, RecordingFault};
use crate::sends::LinkNumbers;
use js_base::{Message, Moment, Next, OutOfMemory, replace_with};
use js_link::{InboxId, Link};
use js_ordered::IncrementalReplay;
use js_ordered_stream::OrderedError;
use js_ordered_table::transitions::event::is_over;
use js_ordered_table::{Event, ItemKind, OrderedSetup, phase_wakes_at};
use js_tool_transcript::Setup;
use std::alloc::Global;

mod event_step;

/// How a poll ends.
#[derive(Clone, Copy)]
pub(crate) enum Ending {
    /// A message is to be handed out. It stays in its place, since it is large.
    Hands,
    Tells(ItemKind),
    /// Nothing lies there.
    Quiet,
    /// The consumer has ended.
    Over,
    OutOfMemory,
}

/// An ordered consumer over a link, by pull or by push, that writes down everything that it meets.
///
/// It hands out the messages of its stream in order and without a gap, and recreates its consumer
/// if a gap shows. All that it does follows from the events that it has written: a replay of them
/// does the same.
///
/// The replay names each new inbox itself, by the inbox prefix of the settings. So choose a prefix
/// that nobody else uses, for example one that `fresh_subject` of the link returned.
#[derive(Drop)]
pub struct Recorder<'a> {
    // On the heap, so that it is moved with little.
    replay: Box<IncrementalReplay<'a>>,
    setup: &'a OrderedSetup,
    // The moment of the last event, or the start.
    moment: Moment,
    link_up: bool,
    sends: LinkNumbers,
    // What was taken from the link, and is not an event yet.
    taken: Option<Taken>,
    // The event that the replay has not passed yet, or not whole.
    event: Option<Event>,
    // The message that was taken last, until it is handed out.
    message: Option<Message>,
    // How many of the last turn's outputs are worked off.
    worked: usize,
    // Why the recording stopped, if it did.
    fault: Option<RecordingFault>,
}

impl<'a> Recorder<'a> {
    /// Opens a recorder for an ordered consumer. `setup` is what `first_line`, or for a reader with
    /// options `first_line_in`, reads from the first line of the recording, which you write yourself
    /// before any event. `inbox` is the link's inbox to which the first consumer's messages come.
    ///
    /// # Errors
    ///
    /// Fails with `OutOfMemory` if memory runs out.
    pub fn open(
        alloc: Global,
        setup: &'a Setup,
        inbox: InboxId,
    ) -> Result<Recorder<'a>, OutOfMemory>
        ensures stands { IfOk result (λ recorder. IsAt (replay_input setup.now) setup.now.start [] [] recorder) }
        ensures whole { IfOk result (λ recorder. recorder.fault ≡ None) }
        ensures new { IfOk result (λ recorder. IsNew (replay_input setup.now) setup.now.start recorder) }
    {
        let replay = IncrementalReplay::open(
            alloc,
            &setup.settings,
            &setup.setup,
            &setup.first,
            setup.start,
        )?;
        Ok(Recorder {
            replay: Box::new(alloc, replay)?,
            setup: &setup.setup,
            moment: setup.start,
            link_up: true,
            sends: LinkNumbers {
                number: 0,
                inbox: Some(inbox),
                asked: None,
                lost: 0,
            },
            taken: None,
            event: None,
            message: None,
            worked: 0,
            fault: None,
        })
    }

    /// Returns why the recording stopped: what its first write that failed returned. Returns `None`
    /// if every event so far was written. The consumer goes on either way.
    pub fn fault(&self) -> Option<RecordingFault>
        ensures { result ≡ self.now.fault }
    {
        self.fault
    }

    /// Returns how many sends have failed, other than requests. They count as lost on the way.
    pub fn lost_sends(&self) -> u64
        ensures { result ≡ self.now.sends.lost }
    {
        self.sends.lost
    }

    /// Returns the link's inbox that is open for the consumer, or `None` if the link could not open
    /// the last one.
    pub fn inbox(&self) -> Option<InboxId>
        ensures { result ≡ self.now.sends.inbox }
    {
        self.sends.inbox
    }

    /// Says whether the link is up from now on. At the start it is up. While it is down, the
    /// consumer sends nothing, and recreations fail at once.
    pub fn set_up(&mut self, up: bool)
        ensures { self.new ≡ record self.old { link_up = up } }
    {
        self.link_up = up;
    }

    /// Ends the recorder and closes its inbox.
    pub fn close<L: Link>(self, link: &mut L)
        ensures { ClosesAt self.entry.sends.inbox (L.view link.old) (L.view link.new) }
    {
        let sends = self.sends;
        drop(self);
        sends.close(link);
    }

    // Whether something is left of the last turn.
    fn has_rest(&self) -> bool
        ensures { result ≡ has_rest self.now }
    {
        self.taken.is_some() || self.event.is_some() || self.worked < self.replay.outputs().len()
    }

    /// Returns the first moment at which the recorder has something to do even if nothing comes: 0
    /// if a poll has something to do at once, and `None` if there is no such moment.
    pub fn wakes_at(&self) -> Option<Moment>
        ensures { (now : ℕ) → now < 2 ^ 64 → has_come result now ≡ has_work now self.now }
    {
        let state = self.replay.state();
        if self.has_rest() {
            return Some(0);
        }
        if is_over(&state.consumer.phase) {
            return None;
        }
        if take_link(self.link_up, state.link_up).is_some() {
            return Some(0);
        }
        phase_wakes_at(&state.consumer.phase)
    }

    // ---- what is put out

    // Works off the first output that is left, if there is one. After want of memory nothing is
    // done of it.
    fn work_next<L: Link>(
        &mut self,
        alloc: Global,
        link: &mut L,
    ) -> Result<Option<Worked>, OutOfMemory>
        requires { Rests self.old }
        ensures works { IfOk result (λ worked. WorksNext worked (record { recorder = self.old; link = L.view link.old }) (record { recorder = self.new; link = L.view link.new })) }
        ensures message { IfOk result (λ worked. IfSome worked (λ done. HasMessage done self.new.message)) }
        ensures kept { OnErr result (self.new ≡ self.old) }
        ensures link { OnErr result (L.view link.new ≡ L.view link.old) }
    {
        let Some(output) = self.replay.outputs().get(self.worked) else {
            return Ok(None);
        };
        let worked = work_off(alloc, link, output, &mut self.sends, &mut self.message)?;
        self.worked += 1;
        Ok(Some(worked))
    }

    // Works off what is left, up to the first that is for the user.
    fn work_all<L: Link>(&mut self, alloc: Global, link: &mut L) -> Option<Ending>
        requires { Rests self.old }
        ensures works { (now : ℕ) → (worked : List outputs.Output) × WorksTo now result (record { recorder = self.old; link = L.view link.old }) [] worked (record { recorder = self.new; link = L.view link.new }) }
        ensures fault { self.new.fault ≡ self.old.fault }
        ensures count { self.new.replay.value.count ≡ self.old.replay.value.count }
    {
        'outputs: loop {
            match self.work_next(alloc, link) {
                Err(OutOfMemory) => return Some(Ending::OutOfMemory),
                Ok(next) => match next {
                    None => return None,
                    Some(worked) => match worked {
                        Worked::Silent => {}
                        Worked::Message => return Some(Ending::Hands),
                        Worked::Error(kind) => return Some(Ending::Tells(kind)),
                    },
                },
            }
        }
    }

    // ---- what lies there

    // Takes the one thing that comes first.
    fn take<L: Link>(&self, link: &mut L, now: Moment) -> Option<Taken>
        ensures { TakenBy now self.now result (L.view link.old) (L.view link.new) }
    {
        let state = self.replay.state();
        let consumer = &state.consumer;
        if let Some(taken) = take_link(self.link_up, state.link_up) {
            return Some(taken);
        }
        if let Some(taken) = take_change(self.setup, consumer.connection, link.state()) {
            return Some(taken);
        }
        if let Some(taken) = take_answer(&consumer.phase, &self.sends, link) {
            return Some(taken);
        }
        if let Some(taken) = take_arrival(&consumer.phase, &self.sends, link) {
            return Some(taken);
        }
        take_tick(&consumer.phase, later(now, self.moment))
    }

    // Takes one thing, and passes the event of it.
    fn take_turn<L: Link, R: Recording>(
        &mut self,
        alloc: Global,
        link: &mut L,
        recording: &mut R,
        now: Moment,
    ) -> Option<Ending>
        requires rests { Rests self.old }
        requires empty { queue self.old ≡ [] }
        requires alive { has_ended (phase_of self.old) ≡ false }
        ensures { (es : List events.Event) × TurnsTo now result (record { recorder = self.old; link = L.view link.old }) es [] (record { recorder = self.new; link = L.view link.new }) × WritesAll R.writes self.old.fault es self.new.fault recording.old recording.new }
    {
        match self.take(link, now) {
            None => Some(Ending::Quiet),
            Some(taken) => {
                replace_with(&mut self.taken, Some(taken));
                match self.resume(alloc, recording, now) {
                    Ok(()) => None,
                    Err(OutOfMemory) => Some(Ending::OutOfMemory),
                }
            }
        }
    }

    // ---- a poll

    fn turn<L: Link, R: Recording>(
        &mut self,
        alloc: Global,
        link: &mut L,
        recording: &mut R,
        now: Moment,
    ) -> Option<Ending>
        requires { Rests self.old }
        ensures { (es : List events.Event) × (worked : List outputs.Output) × TurnsTo now result (record { recorder = self.old; link = L.view link.old }) es worked (record { recorder = self.new; link = L.view link.new }) × WritesAll R.writes self.old.fault es self.new.fault recording.old recording.new }
    {
        match self.work_all(alloc, link) {
            Some(ending) => Some(ending),
            None => {
                if is_over(&self.replay.state().consumer.phase) {
                    return Some(Ending::Over);
                }
                self.take_turn(alloc, link, recording, now)
            }
        }
    }

    // Goes on, event after event, until something ends the poll. It ends, since the events are
    // counted in a `u64`.
    fn run<L: Link, R: Recording>(
        &mut self,
        alloc: Global,
        link: &mut L,
        recording: &mut R,
        now: Moment,
    ) -> Ending
        ensures { (es : List events.Event) × (worked : List outputs.Output) × EndsAs now result (record { recorder = self.old; link = L.view link.old }) es worked (record { recorder = self.new; link = L.view link.new }) × WritesAll R.writes self.old.fault es self.new.fault recording.old recording.new }
    {
        match self.resume(alloc, recording, now) {
            Ok(()) => {}
            Err(OutOfMemory) => return Ending::OutOfMemory,
        }
        'turns: loop {
            match self.turn(alloc, link, recording, now) {
                Some(ending) => return ending,
                None => {}
            }
        }
    }

    // What a poll that ends so answers.
    fn answer(&mut self, ending: Ending) -> Next<Result<Message, OrderedError>>
        requires { ending ≡ Ending.Hands → is_some self.old.message ≡ true }
        ensures answers { (now : ℕ) → (v : LinkView) → (a : World) → (es : List events.Event) → (worked : List outputs.Output) → EndsAs now ending a es worked (record { recorder = self.old; link = v })
            → Answers now result a es worked (record { recorder = self.new; link = v }) }
        ensures fault { self.new.fault ≡ self.old.fault }
    {
        match ending {
            Ending::Hands => match self.message.take() {
                Some(message) => Next::Item(Ok(message)),
                None => unreachable!(),
            },
            Ending::Tells(kind) => Next::Item(Err(error_of(kind, &mut self.message))),
            Ending::Quiet => Next::Pending,
            Ending::Over => Next::End,
            Ending::OutOfMemory => Next::OutOfMemory,
        }
    }

    /// Reads the next message or error.
    ///
    /// First it works off what the last event has put out, in order: it sends over the link, and
    /// returns a message or an error, one a poll. If nothing is left, it takes one thing from the
    /// link, writes the event of it, and passes it; so it goes on until there is something to
    /// return. `now` is the current moment; an event is never earlier than the one before it.
    ///
    /// Returns `Pending` if nothing lies at the link and no timer is due: poll again when something
    /// has come, or at [`wakes_at`](Recorder::wakes_at). Returns `End` if the consumer has ended.
    /// Returns `OutOfMemory` if memory runs out; nothing is lost, and the next poll goes on there.
    pub fn poll_next<L: Link, R: Recording>(
        &mut self,
        alloc: Global,
        link: &mut L,
        recording: &mut R,
        now: Moment,
    ) -> Next<Result<Message, OrderedError>>
        ensures { Polls R.writes now result (record { recorder = self.old; link = L.view link.old }) (record { recorder = self.new; link = L.view link.new }) recording.old recording.new }
    {
        let ending = self.run(alloc, link, recording, now);
        self.answer(ending)
    }
}
