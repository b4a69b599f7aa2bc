//! Which input is refused before any of it is passed.
ghost use Rattle.std.specs.Prelude.{◌≡◌};
ghost use Rattle.js_ordered_table.specs.Passes.{input_of};
ghost use Rattle.js_ordered_table.specs.Refusal as refusals;

use crate::consumer_context::ConsumerContext;
use crate::event::Event;
use crate::run::{Field, ReplayError};
use crate::setup::OrderedSetup;
use js_base::{Moment, Text, is_valid_subject};
use js_codes::is_valid_name;

// Push, and no subject is delivered to.
fn lacks_subject(setup: &OrderedSetup, subject: &Option<Text>) -> bool
    ensures { result ≡ refusals.lacks_subject setup.now subject.now }
{
    match setup {
        OrderedSetup::Pull(_) => false,
        OrderedSetup::Push(_) => subject.is_none(),
    }
}

// The text is empty, or a valid subject.
fn is_absent_or_valid(text: &str) -> bool
    ensures { result ≡ refusals.is_absent_or_valid text.now }
{
    text.is_empty() || is_valid_subject(text)
}

// There is no text, or it is a valid subject.
fn is_missing_or_valid(subject: &Option<Text>) -> bool
    ensures { result ≡ refusals.is_missing_or_valid subject.now }
{
    match subject {
        None => true,
        Some(subject) => is_valid_subject(subject.as_str()),
    }
}

// The subject that push is delivered to is valid.
fn delivers_validly(setup: &OrderedSetup, subject: &Option<Text>) -> bool
    ensures { result ≡ refusals.delivers_validly setup.now subject.now }
{
    match setup {
        OrderedSetup::Pull(_) => true,
        OrderedSetup::Push(_) => is_missing_or_valid(subject),
    }
}

// The first field that fails its test.
fn bad_field(context: &ConsumerContext<'_>) -> Option<Field>
    ensures { result ≡ refusals.bad_field (input_of context.now) }
{
    if !is_valid_name(context.first.stream_name.as_str()) {
        return Some(Field::StreamName);
    }
    if !is_valid_name(context.first.name.as_str()) {
        return Some(Field::Name);
    }
    if !is_valid_subject(context.settings.api_prefix.as_str()) {
        return Some(Field::ApiPrefix);
    }
    if !is_valid_subject(context.settings.inbox_prefix.as_str()) {
        return Some(Field::InboxPrefix);
    }
    if !is_absent_or_valid(context.setup.filter_subject()) {
        return Some(Field::FilterSubject);
    }
    if !delivers_validly(context.setup, &context.first.config.deliver_subject) {
        return Some(Field::DeliverSubject);
    }
    None
}

// The place of the first event whose moment is below the one before it.
fn first_early(start: Moment, events: &[Event]) -> Option<u64>
    ensures { result ≡ refusals.first_early 0 start events.now }
{
    let mut before = start;
    for (place, event) in events.iter().enumerate() {
        if event.at < before {
            return Some(place as u64);
        }
        before = event.at;
    }
    None
}

/// Returns the first refusal that needs no replay: no deliver subject, a bad field, or an early
/// event.
#[tactic(auto, unfolding(crate::specs::Refusal::refuse_input))]
pub fn refuse_input(context: &ConsumerContext<'_>, events: &[Event]) -> Option<ReplayError>
    ensures { result ≡ refusals.refuse_input (input_of context.now) context.now.moment events.now }
{
    if lacks_subject(context.setup, &context.first.config.deliver_subject) {
        return Some(ReplayError::NoDeliverSubject);
    }
    if let Some(field) = bad_field(context) {
        return Some(ReplayError::BadSettings { field });
    }
    match first_early(context.moment, events) {
        None => None,
        Some(place) => Some(ReplayError::BadEvent { place }),
    }
}
