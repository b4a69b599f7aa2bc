//! A recording in memory of the events themselves.
ghost use Rattle.std.specs.Prelude.{◌≡◌, [], IfOk};
ghost use Rattle.js_ordered_recorder.specs.Recording.{adds_event};

use crate::recording::{Recording, RecordingFault};
use js_base::{Items, OutOfMemory, TryClone};
use js_ordered_table::{Event, EventKind};
use std::alloc::Global;

/// A recording in memory of the events themselves, from the first to the last.
#[derive(Drop)]
pub struct EventList {
    events: Items<Event>,
}

fn copy_kind(what: &EventKind) -> Result<EventKind, OutOfMemory>
    ensures { IfOk result (λ copy. copy ≡ what.now) }
{
    match what {
        EventKind::Tick => Ok(EventKind::Tick),
        EventKind::Arrival { inbox, message } => Ok(EventKind::Arrival {
            inbox: *inbox,
            message: message.try_clone()?,
        }),
        EventKind::Answer { request, reply } => Ok(EventKind::Answer {
            request: *request,
            reply: reply.try_clone()?,
        }),
        EventKind::Link { up } => Ok(EventKind::Link { up: *up }),
        EventKind::Connection { state } => Ok(EventKind::Connection { state: *state }),
        EventKind::WatcherEnded => Ok(EventKind::WatcherEnded),
    }
}

fn copy_event(event: &Event) -> Result<Event, OutOfMemory>
    ensures { IfOk result (λ copy. copy ≡ event.now) }
{
    Ok(Event {
        at: event.at,
        what: copy_kind(&event.what)?,
    })
}

impl EventList {
    /// Creates a recording without events.
    pub fn new(alloc: Global) -> EventList
        ensures { result.events ≡ [] }
    {
        EventList {
            events: Items::new(alloc),
        }
    }

    /// Returns the events that were written, in order.
    pub fn events(&self) -> &[Event]
        ensures { result.now ≡ self.now.events }
    {
        self.events.as_slice()
    }
}

impl Recording for EventList {
    ghost writes = { λ list e written after. adds_event list.events e written after.events };

    fn write(&mut self, _alloc: Global, event: &Event) -> Result<(), RecordingFault> {
        match copy_event(event) {
            Ok(copy) => match self.events.push(copy) {
                Ok(()) => Ok(()),
                Err(OutOfMemory) => Err(RecordingFault::OutOfMemory),
            },
            Err(OutOfMemory) => Err(RecordingFault::OutOfMemory),
        }
    }
}
