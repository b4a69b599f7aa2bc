//! The answer to a line.

ghost use Rattle.std.specs.Prelude.{◌≡◌, ◌++◌, ◌∷◌, ◌+◌, [], ℕ, List, IfOk, IsSome, None};
ghost use Rattle.js_ordered.specs.IncrementalReplay.{HasCome};
ghost use Rattle.js_ordered_table.specs.declared.event.Event as events;
ghost use Rattle.js_tool_transcript.specs.declared.transcript.setup.Setup as setups;
ghost use Rattle.js_tool_transcript.specs.TranscriptReplay.{replay_input};
ghost use Rattle.js_tool_transcript.specs.Text.{last_line as last_line_in, refusal_text};
ghost use Rattle.js_tool.specs.declared.command.FollowOptions as options;
ghost use Rattle.js_tool_follow.specs.Answer.{AnswersEvents, AnswersLine, AnswersEnd, HasPassedOne, IsTold};
ghost use Rattle.js_tool_follow.specs.AnswerText.{answer_text, messages_behind};
ghost use Rattle.js_tool_follow.specs.Standing.{answered};

use crate::details::{messages_of, push_details};
use crate::wakes::push_wakes;
use js_base::{Message, OutOfMemory};
use js_ordered::{Event, IncrementalReplay, ReplayError};
use js_tool::{FollowOptions, Status};
use js_tool_transcript::{
    Payloads, Setup, Unread, next_line, push_end, push_outputs, refusal_line,
};
use std::alloc::{AllocError, Global};

/// The text of an answer, and the status if the replay ends with it.
#[derive(Drop)]
pub(crate) struct Answer {
    pub(crate) text: Vec<u8>,
    pub(crate) ending: Option<Status>,
}

// No text: the line does not read.
fn bad_line(alloc: Global, line: u64) -> Answer
    ensures { (result.text.items ≡ []) × (result.ending ≡ Some (Status.BadLine line)) }
{
    Answer {
        text: Vec::new(alloc),
        ending: Some(Status::BadLine { line }),
    }
}

// The line of a refusal, with which it is over.
fn refused(alloc: Global, refusal: ReplayError) -> Result<Answer, AllocError>
    ensures { IfOk result (λ answer. (answer.text.items ≡ refusal_text refusal) × (answer.ending ≡ Some Status.Refused)) }
{
    Ok(Answer {
        text: refusal_line(alloc, refusal)?,
        ending: Some(Status::Refused),
    })
}

// The last line of a run.
fn last_line(alloc: Global, ended: bool, events: u64) -> Result<Answer, AllocError>
    ensures { IfOk result (λ answer. (answer.text.items ≡ last_line_in ended events) × (answer.ending ≡ Some Status.Done)) }
{
    let mut text = Vec::new(alloc);
    push_end(&mut text, ended, events)?;
    Ok(Answer {
        text,
        ending: Some(Status::Done),
    })
}

/// A replay that receives the lines after a setup.
#[derive(Drop)]
pub(crate) struct Listener<'s> {
    // On the heap, so that it is moved with little.
    replay: Box<IncrementalReplay<'s>>,
    payloads: Payloads,
    options: FollowOptions,
}

impl<'s> Listener<'s> {
    /// Opens the replay, before any line.
    pub(crate) fn open(
        alloc: Global,
        setup: &'s Setup,
        options: FollowOptions,
    ) -> Result<Listener<'s>, AllocError>
        ensures come { IfOk result (λ listener. HasCome (replay_input setup.now) setup.now.start [] listener.replay.value) }
        ensures options { IfOk result (λ listener. listener.options ≡ options) }
    {
        match IncrementalReplay::open(
            alloc,
            &setup.settings,
            &setup.setup,
            &setup.first,
            setup.start,
        ) {
            Ok(replay) => Ok(Listener {
                replay: Box::new(alloc, replay)?,
                payloads: Payloads::new(alloc),
                options,
            }),
            Err(OutOfMemory) => Err(AllocError),
        }
    }

    // The lines of what the last event, or the opening, has put out, with what else is asked for.
    fn outputs(&self, alloc: Global, messages: &[Message]) -> Result<Vec<u8>, AllocError>
        ensures { (setup : setups.Setup) → (es : List events.Event) → HasCome (replay_input setup) setup.start es self.now.replay.value
            → IfOk result (λ text. text.items ≡ answer_text self.now.options messages.now setup es) }
    {
        let step = self.replay.count();
        let outputs = self.replay.outputs();
        let phase = &self.replay.state().consumer.phase;
        let mut text = Vec::new(alloc);
        push_outputs(&mut text, step, outputs)?;
        push_details(&mut text, self.options.details, step, messages, outputs)?;
        push_wakes(&mut text, self.options.wakes, step, phase)?;
        Ok(text)
    }

    // What the last event, or the opening, has put out.
    fn go_on(&self, alloc: Global, messages: &[Message]) -> Result<Answer, AllocError>
        ensures { (setup : setups.Setup) → (es : List events.Event) → HasCome (replay_input setup) setup.start es self.now.replay.value
            → IfOk result (λ answer. (answer.text.items ≡ answer_text self.now.options messages.now setup es) × (answer.ending ≡ None)) }
    {
        Ok(Answer {
            text: self.outputs(alloc, messages)?,
            ending: None,
        })
    }

    /// Returns the answer to the last event, which could hand out these messages, or to the opening
    /// before the first one: its outputs or its error.
    pub(crate) fn answer(&self, alloc: Global, messages: &[Message]) -> Result<Answer, AllocError>
        ensures { (setup : setups.Setup) → (es : List events.Event) → HasCome (replay_input setup) setup.start es self.now.replay.value
            → IfOk result (λ answer. AnswersEvents self.now.options messages.now setup es answer.text.items answer.ending) }
    {
        match self.replay.end() {
            Ok(_) => self.go_on(alloc, messages),
            Err(refusal) => refused(alloc, refusal),
        }
    }

    // Passes an event, which can hand out these messages.
    fn pass(
        &mut self,
        alloc: Global,
        event: &Event,
        messages: &[Message],
    ) -> Result<Answer, AllocError>
        ensures come { (setup : setups.Setup) → (es : List events.Event) → HasCome (replay_input setup) setup.start es self.old.replay.value
            → IfOk result (λ answer. HasCome (replay_input setup) setup.start (es ++ event.now ∷ []) self.new.replay.value) }
        ensures answers { (setup : setups.Setup) → (es : List events.Event) → HasCome (replay_input setup) setup.start es self.old.replay.value
            → IfOk result (λ answer. AnswersEvents self.old.options messages.now setup (es ++ event.now ∷ []) answer.text.items answer.ending) }
        ensures options { self.new.options ≡ self.old.options }
        ensures counted { IfOk result (λ answer. self.new.replay.value.count ≡ self.old.replay.value.count + 1) }
    {
        match self.replay.advance(alloc, event) {
            Ok(()) => self.answer(alloc, messages),
            Err(OutOfMemory) => Err(AllocError),
        }
    }

    // Passes an event.
    fn pass_event(&mut self, alloc: Global, event: &Event) -> Result<Answer, AllocError>
        ensures come { (setup : setups.Setup) → (es : List events.Event) → HasCome (replay_input setup) setup.start es self.old.replay.value
            → IfOk result (λ answer. HasCome (replay_input setup) setup.start (es ++ event.now ∷ []) self.new.replay.value) }
        ensures answers { (setup : setups.Setup) → (es : List events.Event) → HasCome (replay_input setup) setup.start es self.old.replay.value
            → IfOk result (λ answer. AnswersEvents self.old.options (messages_behind setup es event.now) setup (es ++ event.now ∷ []) answer.text.items answer.ending) }
        ensures options { self.new.options ≡ self.old.options }
        ensures counted { IfOk result (λ answer. self.new.replay.value.count ≡ self.old.replay.value.count + 1) }
    {
        let phase = &self.replay.state().consumer.phase;
        match messages_of(alloc, self.options.details, phase, event) {
            Ok(messages) => {
                let answer = self.pass(alloc, event, messages.as_slice());
                drop(messages);
                answer
            }
            Err(OutOfMemory) => Err(AllocError),
        }
    }

    /// Passes the event of the next line and returns the answer to it.
    pub(crate) fn hear(&mut self, alloc: Global, line: &[u8]) -> Result<Answer, AllocError>
        ensures told { (asked : options.FollowOptions) → (lines : List (List ℕ)) → IsTold asked lines self.old
            → IfOk result (λ answer. AnswersLine asked (answered asked lines) (lines ++ line.now ∷ []) answer.text.items answer.ending self.new) }
        ensures counted { IfOk result (λ answer. answer.ending ≡ None → HasPassedOne self.old self.new) }
    {
        let Some(number) = self.replay.count().checked_add(2) else {
            return Err(AllocError);
        };
        let event = match next_line(alloc, &mut self.payloads, number, line) {
            Ok(event) => event,
            Err(Unread::BadLine(line)) => return Ok(bad_line(alloc, line)),
            Err(Unread::OutOfMemory) => return Err(AllocError),
        };
        let answer = self.pass_event(alloc, &event);
        drop(event);
        answer
    }

    /// Returns the last line, when no more lines come. It ends the conversation.
    pub(crate) fn end(&self, alloc: Global) -> Result<Answer, AllocError>
        ensures told { (asked : options.FollowOptions) → (lines : List (List ℕ)) → IsTold asked lines self.now
            → IfOk result (λ answer. AnswersEnd asked lines answer.text.items answer.ending) }
        ensures over { IfOk result (λ answer. IsSome answer.ending) }
    {
        match self.replay.end() {
            Ok(ended) => last_line(alloc, ended, self.replay.count()),
            Err(error) => refused(alloc, error),
        }
    }
}
