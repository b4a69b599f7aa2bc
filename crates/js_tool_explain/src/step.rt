//! The sentences of one step: why it happens, what is put out, and what follows.

ghost use Rattle.std.specs.Prelude.{◌≡◌, ◌++◌, ◌∷◌, [], OnOk};
ghost use Rattle.js_tool_explain.specs.Sentences as sentences;
ghost use Rattle.js_tool_explain.specs.SentencePart.{said_text};
ghost use Rattle.js_ordered_table.specs.declared.consumer.ReplayInput.{ReplayInput};

use crate::arrivals::{Arrived, arrived_in, push_arrived};
use crate::outcome::{Place, push_outputs};
use crate::outside_events::{Outside, outside_in, push_outside};
use crate::replies::{Awaited, awaited_in, ends_at, push_awaited};
use crate::retry_wait::{Rest, push_new_rest, rest_of};
use crate::sentence_part::{Part, push_line, push_parts};
use js_base::{Moment, OutOfMemory};
use js_json::consumer::Info;
use js_ordered_table::transitions::event::is_over;
use js_ordered_table::{Consumer, Event, OrderedSetup, Output, Phase, ReplayState};
use std::alloc::{AllocError, Global};

/// What the sentences on a step say of the consumer before it.
#[derive(Clone, Copy)]
pub(crate) struct Before {
    pub(crate) is_over: bool,
    pub(crate) is_recreating: bool,
    /// The end of the watcher ends the consumer in the event.
    pub(crate) is_unwatched: bool,
    pub(crate) rest: Option<Rest>,
}

fn is_recreating(phase: &Phase) -> bool
    ensures { result ≡ sentences.is_recreating phase.now }
{
    match phase {
        Phase::Recreates(_) => true,
        Phase::Pulls(_) => false,
        Phase::Pushes { .. } => false,
        Phase::Idle => false,
        Phase::Ended => false,
        Phase::Exhausted => false,
    }
}

/// Returns what the sentences on an event say of the consumer before it.
pub(crate) fn standing_before(setup: &OrderedSetup, consumer: &Consumer, event: &Event) -> Before
    ensures { result ≡ sentences.before setup.now consumer.now event.now }
{
    Before {
        is_over: is_over(&consumer.phase),
        is_recreating: is_recreating(&consumer.phase),
        is_unwatched: ends_at(setup, &consumer.phase, &event.what),
        rest: rest_of(&consumer.phase),
    }
}

// ---- why it happens

fn push_any_outside(
    out: &mut Vec<u8>,
    at: Moment,
    outside: Option<Outside>,
) -> Result<(), AllocError>
    ensures { OnOk result (out.new.items ≡ out.old.items ++ sentences.any_outside_text at outside) }
{
    match outside {
        None => Ok(()),
        Some(outside) => push_outside(out, at, outside),
    }
}

fn push_any_awaited(
    out: &mut Vec<u8>,
    at: Moment,
    name: &str,
    awaited: Option<Awaited>,
) -> Result<(), AllocError>
    ensures { OnOk result (out.new.items ≡ out.old.items ++ sentences.any_awaited_text at name.now awaited) }
{
    match awaited {
        None => Ok(()),
        Some(awaited) => push_awaited(out, at, name, awaited),
    }
}

fn push_any_arrived(
    out: &mut Vec<u8>,
    at: Moment,
    arrived: Option<Arrived>,
) -> Result<(), AllocError>
    ensures { OnOk result (out.new.items ≡ out.old.items ++ sentences.any_arrived_text at arrived) }
{
    match arrived {
        None => Ok(()),
        Some(arrived) => push_arrived(out, at, arrived),
    }
}

/// Adds the sentences on why something happens in an event. `consumer` is the one before it.
#[tactic(auto, unfolding(crate::specs::Sentences::causes_text))]
pub(crate) fn push_causes(
    alloc: Global,
    out: &mut Vec<u8>,
    setup: &OrderedSetup,
    consumer: &Consumer,
    event: &Event,
) -> Result<(), OutOfMemory>
    ensures { OnOk result (out.new.items ≡ out.old.items ++ sentences.causes_text setup.now consumer.now event.now) }
{
    let outside = outside_in(setup, consumer, event);
    let awaited = awaited_in(alloc, setup, consumer, event)?;
    let arrived = arrived_in(setup, consumer, event);
    push_any_outside(out, event.at, outside)?;
    push_any_awaited(out, event.at, consumer.name.as_str(), awaited)?;
    push_any_arrived(out, event.at, arrived)?;
    Ok(())
}

// ---- what comes of it

fn push_end_of(
    out: &mut Vec<u8>,
    at: Moment,
    was_over: bool,
    phase: &Phase,
) -> Result<(), AllocError>
    ensures { OnOk result (out.new.items ≡ out.old.items ++ sentences.ends_text at was_over phase.now) }
{
    if is_over(phase) && !was_over {
        return push_line(out, at, &[Part::Text(b"The consumer has ended.")]);
    }
    Ok(())
}

/// Adds the sentences on what comes of an event. `state` is the one after it.
#[tactic(auto, unfolding(crate::specs::Sentences::results_text))]
pub(crate) fn push_results(
    out: &mut Vec<u8>,
    at: Moment,
    before: Before,
    state: &ReplayState,
    outputs: &[Output],
) -> Result<(), AllocError>
    ensures { OnOk result (out.new.items ≡ out.old.items ++ sentences.results_text at before state.now outputs.now) }
{
    let place = Place {
        at,
        was_recreating: before.is_recreating,
        is_unwatched: before.is_unwatched,
        is_up: state.link_up,
        consumer: &state.consumer,
    };
    push_outputs(out, &place, outputs)?;
    push_new_rest(out, at, before.rest, rest_of(&state.consumer.phase))?;
    push_end_of(out, at, before.is_over, &state.consumer.phase)
}

// ---- the first lines and the last

fn mode_text(setup: &OrderedSetup) -> &'static [u8]
    ensures { result.now ≡ sentences.mode_text setup.now }
{
    match setup {
        OrderedSetup::Pull(_) => b"The pull consumer \"",
        OrderedSetup::Push(_) => b"The push consumer \"",
    }
}

fn push_started(
    out: &mut Vec<u8>,
    at: Moment,
    setup: &OrderedSetup,
    first: &Info,
) -> Result<(), AllocError>
    ensures { OnOk result (out.new.items ≡ out.old.items ++ sentences.started_text at setup.now first.now) }
{
    match setup.configured_start() {
        None => push_line(
            out,
            at,
            &[
                Part::Text(mode_text(setup)),
                Part::Text(first.name.as_str().as_bytes()),
                Part::Text(b"\" of stream \""),
                Part::Text(first.stream_name.as_str().as_bytes()),
                Part::Text(b"\" started, with no configured start sequence."),
            ],
        ),
        Some(sequence) => push_line(
            out,
            at,
            &[
                Part::Text(mode_text(setup)),
                Part::Text(first.name.as_str().as_bytes()),
                Part::Text(b"\" of stream \""),
                Part::Text(first.stream_name.as_str().as_bytes()),
                Part::Text(b"\" started, from stream sequence "),
                Part::Number(sequence),
                Part::Text(b"."),
            ],
        ),
    }
}

/// Adds the sentences on the opening. `state` is the one after it.
pub(crate) fn push_opening(
    out: &mut Vec<u8>,
    at: Moment,
    setup: &OrderedSetup,
    first: &Info,
    state: &ReplayState,
    outputs: &[Output],
) -> Result<(), AllocError>
    ensures { OnOk result (out.new.items ≡ out.old.items ++ sentences.opening_lines at setup.now first.now state.now outputs.now) }
{
    push_started(out, at, setup, first)?;
    let place = Place {
        at,
        was_recreating: false,
        is_unwatched: false,
        is_up: state.link_up,
        consumer: &state.consumer,
    };
    push_outputs(out, &place, outputs)
}

fn end_text(ended: bool) -> &'static [u8]
    ensures { result.now ≡ sentences.end_text ended }
{
    if ended {
        b"The consumer had ended after "
    } else {
        b"The consumer had not ended after "
    }
}

/// Adds the last line: whether the consumer has ended, and how many events there were.
pub(crate) fn push_last(out: &mut Vec<u8>, ended: bool, events: u64) -> Result<(), AllocError>
    ensures { OnOk result (out.new.items ≡ out.old.items ++ sentences.last_line ended events) }
{
    push_parts(
        out,
        &[
            Part::Text(end_text(ended)),
            Part::Count(events, b"event"),
            Part::Text(b".\n"),
        ],
    )
}
