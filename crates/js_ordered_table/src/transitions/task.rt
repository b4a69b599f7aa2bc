//! The rows that are still to be passed, as the code keeps them. They are small because a poll
//! moves them at each row. What a row reads is kept beside them: in an event of a replay, or in
//! what a poll has met. What was held for push is in a box.
use crate::{ItemKind, Place, Start};
use js_base::{Boxed, Items, Message, Subject};
use js_json::consumer::Info;
use js_pull::Due;

/// The messages that were held for the inbox of a create request, from a place on.
#[derive(Drop)]
pub struct Held {
    pub inbox: u64,
    pub messages: Items<Message>,
    pub place: usize,
}

/// A row that is still to be passed, or several alike.
#[derive(Drop)]
pub enum Task {
    Event,
    Start,
    Try,
    Create,
    Ask,
    Await,
    /// Reads the reply to this request, which the event brings.
    Answered { request: u64 },
    Hold,
    Succeed(Boxed<Info>),
    Fail,
    CheckArrival,
    /// Reads what the event brings on this inbox.
    Hear { inbox: u64 },
    /// Reads the messages that were held, one after the other.
    HearHeld(Box<Held>),
    CheckSilence,
    Arm,
    /// A row of a pull reader.
    Read(Due),
}

/// The rows that follow a row at once.
#[derive(Drop)]
pub enum NextTasks {
    Nothing,
    One(Task),
    Two(Task, Task),
}

/// What a row puts out, apart from what it sends.
#[derive(Clone, Copy)]
pub enum RowOutput {
    Nothing,
    Recreates { recreation_count: u64, start: Start },
    Tells(ItemKind),
}

/// What a passed row puts out, and the rows that follow it.
#[derive(Drop)]
pub struct PassedTask {
    pub told: RowOutput,
    pub next: NextTasks,
}

/// A new inbox, with its subject.
#[derive(Drop)]
pub struct Inbox {
    pub number: u64,
    pub subject: Subject,
}

/// What an arrival means to the consumer.
#[derive(Clone, Copy)]
pub enum Heard {
    /// The consumer's next message, at this place.
    Yields(Place),
    /// The arrival can't be read.
    Unreadable,
    /// A message other than the next one.
    Gap,
    /// A sign that the server is there. It may say which message was the last.
    Beat(Option<u64>),
    OtherStatus,
}
