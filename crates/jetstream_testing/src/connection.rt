//! The server's end of the client's connection: its subscriptions, and the messages in flight to
//! them.

ghost use Rattle.std.specs.Prelude.{◌≡◌, ◌++◌, max, OnOk, OnErr};
ghost use Rattle.js_link_outbox.specs.Calls.{SendsNothing};
ghost use Rattle.jetstream_testing.specs.declared.faults.Fate.TheVariants as fate;
ghost use Rattle.jetstream_testing.specs.Deliveries.{copies};

use crate::faults::{Fate, FaultSource, Faults};
use crate::messages::{plain, status};
use js_base::{
    Message, Moment, OutOfMemory, StatusCode, Subject, Text, TryClone, both, subject_matches,
};
use js_link_outbox::OutboxLink;
use std::alloc::Global;
use std::collections::VecDeque;

// A subscription of the client.
#[derive(Drop)]
struct Subscription {
    number: u64,
    subject: Subject,
    group: Option<Text>,
}

impl Subscription {
    fn takes(&self, subject: &str) -> bool {
        subject_matches(self.subject.as_str(), subject)
    }

    fn is_of_group(&self, group: &Text) -> bool {
        match &self.group {
            None => false,
            Some(own) => own.as_str() == group.as_str(),
        }
    }
}

// A message on its way to the subscriptions of a subject. That is the message's own subject, or the
// inbox of a reader.
#[derive(Drop)]
struct InFlight {
    arrives: Moment,
    to: Subject,
    message: Message,
}

impl TryClone for InFlight {
    fn try_clone(&self) -> Result<InFlight, OutOfMemory> {
        let (to, message) = both(self.to.try_clone(), self.message.try_clone())?;
        Ok(InFlight {
            arrives: self.arrives,
            to,
            message,
        })
    }
}

// The server's end of the client's connection.
#[derive(Drop)]
pub(crate) struct Connection {
    now: Moment,
    faults: FaultSource,
    subscriptions: Vec<Subscription>,
    in_flight: VecDeque<InFlight>,
}

impl Connection {
    pub(crate) fn new(alloc: Global, faults: Faults) -> Connection {
        Connection {
            now: 0,
            faults: FaultSource::new(faults),
            subscriptions: Vec::new(alloc),
            in_flight: VecDeque::new(alloc),
        }
    }

    // The present moment.
    pub(crate) fn now(&self) -> Moment {
        self.now
    }

    // Time goes on. It never goes back.
    pub(crate) fn set_now(&mut self, now: Moment)
        ensures { self.new.now ≡ max self.old.now now }
    {
        self.now = self.now.max(now);
    }

    pub(crate) fn subscribe(
        &mut self,
        number: u64,
        subject: Subject,
        group: Option<Text>,
    ) -> Result<(), OutOfMemory> {
        self.subscriptions.push(Subscription {
            number,
            subject,
            group,
        })?;
        Ok(())
    }

    pub(crate) fn unsubscribe(&mut self, number: u64) {
        self.subscriptions.retain(|open| open.number != number);
    }

    // Whether anyone subscribes to a subject.
    pub(crate) fn is_heard(&self, subject: &str) -> bool {
        self.subscriptions.iter().any(|open| open.takes(subject))
    }

    pub(crate) fn set_faults(&mut self, faults: Faults) {
        self.faults = FaultSource::new(faults);
    }

    // The moment at which the next of the messages in flight arrives, or `u64::MAX`.
    pub(crate) fn next_arrival(&self) -> Moment {
        let mut first = u64::MAX;
        for item in self.in_flight.iter() {
            first = first.min(item.arrives);
        }
        first
    }

    fn put(&mut self, item: InFlight) -> Result<(), OutOfMemory>
        ensures put { OnOk result (self.new.in_flight.items ≡ self.old.in_flight.items ++ copies fate.Arrives item.to item.message item.arrives) }
    {
        self.in_flight.push_back(item)?;
        Ok(())
    }

    fn put_twice(&mut self, item: InFlight) -> Result<(), OutOfMemory>
        ensures put { OnOk result (self.new.in_flight.items ≡ self.old.in_flight.items ++ copies fate.Twice item.to item.message item.arrives) }
    {
        let copy = item.try_clone();
        let (item, copy) = both(Ok(item), copy)?;
        let ((), ()) = both(self.put(item), self.put(copy))?;
        Ok(())
    }

    // Sends a message to the subscriptions of a subject, without faults.
    pub(crate) fn send(&mut self, to: Subject, message: Message) -> Result<(), OutOfMemory> {
        let arrives = self.now;
        self.put(InFlight {
            arrives,
            to,
            message,
        })
    }

    // Sends a status to the subscriptions of a subject, with a number in each of some headers.
    pub(crate) fn tell(
        &mut self,
        alloc: Global,
        to: &str,
        code: StatusCode,
        description: &str,
        headers: &[(&str, u64)],
    ) -> Result<(), OutOfMemory> {
        let message = status(alloc, to, code, description, headers);
        let (message, to) = both(message, Subject::new(alloc, to))?;
        self.send(to, message)
    }

    // Sends a heartbeat to a reader, with the next fault.
    pub(crate) fn beat(
        &mut self,
        alloc: Global,
        to: &str,
        headers: &[(&str, u64)],
    ) -> Result<(), OutOfMemory> {
        let message = status(
            alloc,
            to,
            StatusCode::IDLE_HEARTBEAT,
            "Idle Heartbeat",
            headers,
        );
        let (message, to) = both(message, Subject::new(alloc, to))?;
        self.deliver(to, message)
    }

    // Sends a payload to the subscriptions of a subject.
    pub(crate) fn answer(
        &mut self,
        alloc: Global,
        to: &Subject,
        payload: String,
    ) -> Result<(), OutOfMemory> {
        let message = plain(alloc, to.as_str(), payload);
        let (message, to) = both(message, to.try_clone())?;
        self.send(to, message)
    }

    // Sends a message to a reader, with the next fault.
    pub(crate) fn deliver(&mut self, to: Subject, message: Message) -> Result<(), OutOfMemory>
        ensures arrives { OnOk result (self.old.faults.faults.lose.0 ≡ 0 → self.old.faults.faults.repeat.0 ≡ 0 → self.old.faults.faults.delay.0 ≡ 0 → self.new.in_flight.items ≡ self.old.in_flight.items ++ copies fate.Arrives to message self.old.now) }
    {
        let fate = self.faults.next_fate();
        self.put_by(fate, to, message)
    }

    fn put_by(&mut self, fate: Fate, to: Subject, message: Message) -> Result<(), OutOfMemory>
        ensures put { OnOk result (self.new.in_flight.items ≡ self.old.in_flight.items ++ copies fate to message self.old.now) }
    {
        let late = match fate {
            Fate::Late(by) => by,
            Fate::Arrives | Fate::Lost | Fate::Twice => 0,
        };
        let item = InFlight {
            arrives: self.now.saturating_add(late),
            to,
            message,
        };
        match fate {
            Fate::Lost => {
                drop(item);
                Ok(())
            }
            Fate::Twice => self.put_twice(item),
            Fate::Arrives | Fate::Late(_) => self.put(item),
        }
    }

    // Delivers all messages that have arrived by now to the client's link, in order, and returns
    // how many they are.
    pub(crate) fn bring(&mut self, link: &mut OutboxLink) -> Result<u64, OutOfMemory>
        ensures sends { SendsNothing link.old link.new }
    {
        let mut count: u64 = 0;
        'arrivals: for _ in 0..self.in_flight.len() {
            if let Some(item) = self.in_flight.pop_front() {
                count = count.saturating_add(self.arrive(link, item)?);
            }
        }
        Ok(count)
    }

    // Delivers a message if it has arrived, and returns how many were delivered.
    fn arrive(&mut self, link: &mut OutboxLink, item: InFlight) -> Result<u64, OutOfMemory>
        ensures sends { SendsNothing link.old link.new }
    {
        if item.arrives > self.now {
            self.put(item)?;
            return Ok(0);
        }
        let arrived = self.hand_over(link, item.to.as_str(), &item.message);
        drop(item);
        arrived?;
        Ok(1)
    }

    fn hand_over(
        &self,
        link: &mut OutboxLink,
        to: &str,
        message: &Message,
    ) -> Result<(), OutOfMemory>
        ensures sends { SendsNothing link.old link.new }
    {
        'places: for (place, open) in self.subscriptions.iter().enumerate() {
            if open.takes(to) && !self.is_taken(place, open, to) {
                deliver_copy(link, open.number, message)?;
            }
        }
        Ok(())
    }

    // Whether another member of the subscription's queue group, before it, takes the message.
    fn is_taken(&self, place: usize, open: &Subscription, to: &str) -> bool {
        match &open.group {
            None => false,
            Some(group) => self
                .subscriptions
                .iter()
                .take(place)
                .any(|other| other.is_of_group(group) && other.takes(to)),
        }
    }
}

fn deliver_copy(
    link: &mut OutboxLink,
    subscription: u64,
    message: &Message,
) -> Result<(), OutOfMemory>
    ensures sends { SendsNothing link.old link.new }
{
    let copy = message.try_clone()?;
    link.deliver(subscription, copy)?;
    Ok(())
}
