//! The further lines of a transcript: each has a moment, and at most one thing that happens then.

ghost use Rattle.std.specs.Prelude.{◌≡◌, List, ℕ, Option, Some, None, Ok, IfOk, IfSome};
ghost use Rattle.serde_json.specs.View.{view};
ghost use Rattle.js_json_members.specs.Member.{Gives, named, given as given_in};
ghost use Rattle.js_json_members.specs.declared.key.Key.TheVariants as key;
ghost use Rattle.js_ordered_table.specs.declared.event.EventKind.{EventKind};
ghost use Rattle.js_tool_transcript.specs.Event.{arrival_fields as arrival_fields_in, arrival as arrival_in, reply_fields as reply_fields_in, gone_fields as gone_fields_in, answer as answer_in, link_named, connection_named, watcher_named, alone as alone_in, with_key, what_fields as what_in, event_fields_in as event_in, event_of_in as value_in, event_of as event_of_line, event_line as line_in, event_line_in as line_of};

use super::compact::compact_event;
use super::extended::{fields_in, has_only_in};
use super::lines::Lines;
use super::members::text_of;
use super::payloads::Payloads;
use js_base::{Boxed, State};
use js_json_members::{Key, ReadError, has_only, required, value_of};
use js_ordered_table::{Event, EventKind};
use serde_json::Value;
use std::alloc::Global;

#[tactic(auto, unfolding(crate::specs::Event::arrival_fields))]
fn arrival_fields(
    alloc: Global,
    payloads: &mut Payloads,
    lines: Lines,
    object: &Value,
) -> Result<EventKind, ReadError>
    ensures { Gives result (arrival_fields_in lines (view object.now)) }
{
    let inbox = required(alloc, object, Key::Inbox)?;
    let message = fields_in(alloc, payloads, lines, object)?;
    Ok(EventKind::Arrival {
        inbox,
        message: Boxed::new(alloc, message)?,
    })
}

#[tactic(auto, unfolding(crate::specs::ExtendedMessage::only_in))]
fn arrival(
    alloc: Global,
    payloads: &mut Payloads,
    lines: Lines,
    key: Key,
    value: &Value,
) -> Result<EventKind, ReadError>
    ensures { Gives result (arrival_in lines key (view value.now)) }
{
    if has_only_in(
        lines,
        value,
        &[
            Key::Inbox,
            Key::Subject,
            Key::Reply,
            Key::Payload,
            Key::Status,
            Key::Description,
            Key::Headers,
        ],
    ) {
        arrival_fields(alloc, payloads, lines, value)
    } else {
        Err(ReadError::WrongKind { key })
    }
}

#[tactic(auto, unfolding(crate::specs::Event::reply_fields))]
fn reply_fields(
    alloc: Global,
    payloads: &mut Payloads,
    lines: Lines,
    object: &Value,
) -> Result<EventKind, ReadError>
    ensures { Gives result (reply_fields_in lines (view object.now)) }
{
    let request = required(alloc, object, Key::Request)?;
    let message = fields_in(alloc, payloads, lines, object)?;
    Ok(EventKind::Answer {
        request,
        reply: Some(Boxed::new(alloc, message)?),
    })
}

#[tactic(auto, unfolding(crate::specs::Event::gone_fields))]
fn gone_fields(alloc: Global, object: &Value) -> Result<EventKind, ReadError>
    ensures { Gives result (gone_fields_in (view object.now)) }
{
    let request = required(alloc, object, Key::Request)?;
    let gone: bool = required(alloc, object, Key::Gone)?;
    if gone {
        Ok(EventKind::Answer {
            request,
            reply: None,
        })
    } else {
        Err(ReadError::OutOfRange { key: Key::Gone })
    }
}

#[tactic(auto, unfolding(crate::specs::Event::answer, crate::specs::Members::only, crate::specs::ExtendedMessage::only_in))]
fn answer(
    alloc: Global,
    payloads: &mut Payloads,
    lines: Lines,
    key: Key,
    value: &Value,
) -> Result<EventKind, ReadError>
    ensures { Gives result (answer_in lines key (view value.now)) }
{
    if value.get(Key::Gone.name()).is_some() {
        if has_only(value, &[Key::Request, Key::Gone]) {
            return gone_fields(alloc, value);
        }
        return Err(ReadError::WrongKind { key });
    }
    if has_only_in(
        lines,
        value,
        &[
            Key::Request,
            Key::Subject,
            Key::Reply,
            Key::Payload,
            Key::Status,
            Key::Description,
            Key::Headers,
        ],
    ) {
        return reply_fields(alloc, payloads, lines, value);
    }
    Err(ReadError::WrongKind { key })
}

/// A kind of change that a text names.
trait NamedChange {
    /// The event of each name.
    ghost value_of: { List ℕ → Option EventKind };

    /// Returns the event with that name, if there is one.
    fn from_name(name: &str) -> Option<EventKind>
        ensures { result ≡ value_of name.now };
}

struct LinkChange;

impl NamedChange for LinkChange {
    ghost value_of = { link_named };

    #[tactic(auto, unfolding(crate::specs::Event::link_named))]
    fn from_name(name: &str) -> Option<EventKind> {
        match name {
            "open" => Some(EventKind::Link { up: true }),
            "closed" => Some(EventKind::Link { up: false }),
            _ => None,
        }
    }
}

struct ConnectionChange;

impl NamedChange for ConnectionChange {
    ghost value_of = { connection_named };

    #[tactic(auto, unfolding(crate::specs::Event::connection_named))]
    fn from_name(name: &str) -> Option<EventKind> {
        let state = match name {
            "connected" => State::Connected,
            "disconnected" => State::Disconnected,
            "pending" => State::Pending,
            _ => return None,
        };
        Some(EventKind::Connection { state })
    }
}

struct WatcherChange;

impl NamedChange for WatcherChange {
    ghost value_of = { watcher_named };

    #[tactic(auto, unfolding(crate::specs::Event::watcher_named))]
    fn from_name(name: &str) -> Option<EventKind> {
        match name {
            "ended" => Some(EventKind::WatcherEnded),
            _ => None,
        }
    }
}

// The change that the text of a member names.
#[tactic(auto, unfolding(js_json_members::specs::Member::named))]
fn change<C: NamedChange>(key: Key, value: &Value) -> Result<EventKind, ReadError>
    ensures { Gives result (named C.value_of key (view value.now)) }
{
    match C::from_name(text_of(key, value)?) {
        None => Err(ReadError::OutOfRange { key }),
        Some(found) => Ok(found),
    }
}

// At most one thing happens.
fn alone(
    key: Key,
    found: Option<EventKind>,
    next: Option<EventKind>,
) -> Result<Option<EventKind>, ReadError>
    ensures { Gives result (alone_in key found next) }
{
    match (found, next) {
        (None, next) => Ok(next),
        (found, None) => Ok(found),
        (found, next) => {
            drop(found);
            drop(next);
            Err(ReadError::WrongKind { key })
        }
    }
}

#[tactic(auto, unfolding(crate::specs::Event::with_key, js_json_members::specs::Member::given))]
fn with_arrival(
    alloc: Global,
    payloads: &mut Payloads,
    lines: Lines,
    object: &Value,
) -> Result<Option<EventKind>, ReadError>
    ensures { Gives result (with_key (arrival_in lines) key.Arrival None (view object.now)) }
{
    let key = Key::Arrival;
    match object.get(key.name()) {
        None => Ok(None),
        Some(value) => Ok(Some(arrival(alloc, payloads, lines, key, value)?)),
    }
}

#[tactic(auto, unfolding(crate::specs::Event::with_key, js_json_members::specs::Member::given))]
fn with_answer(
    alloc: Global,
    payloads: &mut Payloads,
    lines: Lines,
    object: &Value,
    found: Option<EventKind>,
) -> Result<Option<EventKind>, ReadError>
    ensures { Gives result (with_key (answer_in lines) key.Answer found (view object.now)) }
{
    let key = Key::Answer;
    match object.get(key.name()) {
        None => alone(key, found, None),
        Some(value) => alone(
            key,
            found,
            Some(answer(alloc, payloads, lines, key, value)?),
        ),
    }
}

#[tactic(auto, unfolding(crate::specs::Event::with_key, js_json_members::specs::Member::given))]
fn with_change<C: NamedChange>(
    object: &Value,
    key: Key,
    found: Option<EventKind>,
) -> Result<Option<EventKind>, ReadError>
    ensures { Gives result (with_key (named C.value_of) key found (view object.now)) }
{
    match object.get(key.name()) {
        None => alone(key, found, None),
        Some(value) => alone(key, found, Some(change::<C>(key, value)?)),
    }
}

#[tactic(auto, unfolding(crate::specs::Event::what_fields))]
fn what_fields(
    alloc: Global,
    payloads: &mut Payloads,
    lines: Lines,
    object: &Value,
) -> Result<EventKind, ReadError>
    ensures { Gives result (what_in lines (view object.now)) }
{
    let found = with_arrival(alloc, payloads, lines, object)?;
    let found = with_answer(alloc, payloads, lines, object, found)?;
    let found = with_change::<LinkChange>(object, Key::Link, found)?;
    let found = with_change::<ConnectionChange>(object, Key::Connection, found)?;
    let found = with_change::<WatcherChange>(object, Key::Watcher, found)?;
    Ok(found.unwrap_or(EventKind::Tick))
}

#[tactic(auto, unfolding(crate::specs::Event::event_fields_in))]
fn event_fields(
    alloc: Global,
    payloads: &mut Payloads,
    lines: Lines,
    object: &Value,
) -> Result<Event, ReadError>
    ensures { Gives result (event_in lines (view object.now)) }
{
    let at = required(alloc, object, Key::At)?;
    let what = what_fields(alloc, payloads, lines, object)?;
    Ok(Event { at, what })
}

/// Reads the event in the value of a line. Its payload, if any, is kept in the room that short
/// payloads share.
///
/// Fails with `NotJson` if the value is no object or has a key that an event does not have.
/// Otherwise fails with the error of the first member that cannot be read, or because memory runs
/// out.
pub fn event_of(alloc: Global, payloads: &mut Payloads, value: &Value) -> Result<Event, ReadError>
    ensures { Gives result (event_of_line (view value.now)) }
{
    event_of_in(alloc, payloads, Lines::Plain, value)
}

// The event in the value of a line of a form.
#[tactic(auto, unfolding(crate::specs::Members::value_as))]
fn event_of_in(
    alloc: Global,
    payloads: &mut Payloads,
    lines: Lines,
    value: &Value,
) -> Result<Event, ReadError>
    ensures { Gives result (value_in lines (view value.now)) }
{
    if has_only(
        value,
        &[
            Key::At,
            Key::Arrival,
            Key::Answer,
            Key::Link,
            Key::Connection,
            Key::Watcher,
        ],
    ) {
        event_fields(alloc, payloads, lines, value)
    } else {
        Err(ReadError::NotJson)
    }
}

// The event that a line says, whatever its keys and their order.
#[tactic(auto, unfolding(crate::specs::Members::line_as))]
fn any_line(
    alloc: Global,
    payloads: &mut Payloads,
    lines: Lines,
    line: &[u8],
) -> Result<Event, ReadError>
    ensures { Gives result (line_of lines line.now) }
{
    let value = value_of(alloc, line)?;
    let event = event_of_in(alloc, payloads, lines, &value);
    drop(value);
    event
}

/// Reads the event on a line. Its payload, if any, is kept in the room that short payloads share.
pub fn event_line(alloc: Global, payloads: &mut Payloads, line: &[u8]) -> Result<Event, ReadError>
    ensures { Gives result (line_in line.now) }
{
    event_line_in(alloc, payloads, Lines::Plain, line)
}

/// Reads the event on a line of a form. Its payload, if any, is kept in the room that short payloads
/// share.
pub fn event_line_in(
    alloc: Global,
    payloads: &mut Payloads,
    lines: Lines,
    line: &[u8],
) -> Result<Event, ReadError>
    ensures { Gives result (line_of lines line.now) }
{
    match compact_event(alloc, payloads, line)? {
        Some(event) => Ok(event),
        None => any_line(alloc, payloads, lines, line),
    }
}
