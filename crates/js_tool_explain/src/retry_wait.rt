//! What a consumer waits for before it tries again.

ghost use Rattle.std.specs.Prelude.{◌≡◌, ◌++◌, OnOk};
ghost use Rattle.js_tool_explain.specs.RetryWait as sentences;

use crate::sentence_part::{Part, push_line};
use js_base::{Moment, Timer};
use js_ordered_table::{Phase, Recreation, Stage};
use js_pull::{InfoRequest, Reader};
use std::alloc::AllocError;

/// A wait before the next try.
#[derive(Clone, Copy)]
pub(crate) struct Rest {
    /// The next request for the consumer's info, and not the next try of a recreation.
    pub(crate) is_info: bool,
    /// How many have failed so far.
    pub(crate) failures: u64,
    pub(crate) timer: Timer,
}

fn reader_rest(reader: &Reader) -> Option<Rest>
    ensures { result ≡ sentences.inquiry_rest reader.now.inquiry }
{
    match reader.inquiry {
        InfoRequest::NoInfoRequest => None,
        InfoRequest::Asked { .. } => None,
        InfoRequest::Resting { wait, failures } => Some(Rest {
            is_info: true,
            failures,
            timer: wait,
        }),
    }
}

fn recreation_rest(recreation: &Recreation) -> Option<Rest>
    ensures { result ≡ sentences.stage_rest recreation.now.failures recreation.now.stage }
{
    match recreation.stage {
        Stage::Between => None,
        Stage::Deleting { .. } => None,
        Stage::Creating { .. } => None,
        Stage::Waiting { wait } => Some(Rest {
            is_info: false,
            failures: recreation.failures,
            timer: wait,
        }),
    }
}

/// Returns what a consumer at this phase waits for before it tries again.
pub(crate) fn rest_of(phase: &Phase) -> Option<Rest>
    ensures { result ≡ sentences.rest_of phase.now }
{
    match phase {
        Phase::Pulls(reader) => reader_rest(reader),
        Phase::Recreates(recreation) => recreation_rest(recreation),
        Phase::Pushes { .. } => None,
        Phase::Idle => None,
        Phase::Ended => None,
        Phase::Exhausted => None,
    }
}

fn is_same_kind(before: bool, after: bool) -> bool
    ensures { result ≡ sentences.is_same_kind before after }
{
    if before { after } else { !after }
}

fn is_same(before: Rest, after: Rest) -> bool
    ensures { result ≡ sentences.is_same before after }
{
    is_same_kind(before.is_info, after.is_info) && before.timer.set == after.timer.set
}

// It is no wait that began before.
fn is_new(before: Option<Rest>, after: Rest) -> bool
    ensures { result ≡ sentences.is_new before after }
{
    match before {
        None => true,
        Some(before) => !is_same(before, after),
    }
}

fn push_rest(out: &mut Vec<u8>, at: Moment, rest: Rest) -> Result<(), AllocError>
    ensures { OnOk result (out.new.items ≡ out.old.items ++ sentences.rest_text at rest) }
{
    if rest.is_info {
        return push_line(
            out,
            at,
            &[
                Part::Text(b"The request for the consumer's info has failed "),
                Part::Count(rest.failures, b"time"),
                Part::Text(b"; the next one follows after "),
                Part::Seconds(rest.timer.wait),
                Part::Text(b"."),
            ],
        );
    }
    push_line(
        out,
        at,
        &[
            Part::Text(b"The recreation has failed "),
            Part::Count(rest.failures, b"time"),
            Part::Text(b"; the next try follows after "),
            Part::Seconds(rest.timer.wait),
            Part::Text(b"."),
        ],
    )
}

/// Adds the sentence on a wait, if one began.
pub(crate) fn push_new_rest(
    out: &mut Vec<u8>,
    at: Moment,
    before: Option<Rest>,
    after: Option<Rest>,
) -> Result<(), AllocError>
    ensures { OnOk result (out.new.items ≡ out.old.items ++ sentences.new_rest_text at before after) }
{
    match after {
        None => Ok(()),
        Some(rest) => {
            if is_new(before, rest) {
                return push_rest(out, at, rest);
            }
            Ok(())
        }
    }
}
