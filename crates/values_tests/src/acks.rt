//! Acks and double acks over the link in memory.

use crate::received::{REPLY, WAIT, delivered, received, reply_of};
use crate::tables::{same, says_at};
use crate::words::word;
use js_base::{Moment, OutOfMemory, Turn, replace_with};
use js_link::{InboxId, Link, MemoryLink, Sent};
use js_message::{AckError, AckKind, Acker, DoubleAck, Message};
use std::alloc::Global;

const START: Moment = 1_790_000_000_000_000_000;

fn acker(alloc: Global, reply: Option<&str>) -> Result<Acker, OutOfMemory> {
    Ok(Acker::new(WAIT, reply_of(alloc, reply)?))
}

/// What acknowledges.
#[derive(Clone, Copy)]
enum By {
    Message,
    Acker,
    /// An acker of a message without a reply subject.
    Nobody,
}

// Acknowledges with a kind, or plainly.
fn ack<L: Link>(alloc: Global, link: &mut L, by: By, kind: Option<AckKind>) -> Acked {
    match by {
        By::Message => ack_by_message(alloc, link, kind),
        By::Acker => ack_by_acker(alloc, link, Some(REPLY), kind),
        By::Nobody => ack_by_acker(alloc, link, None, kind),
    }
}

/// What has become of a call, in a word.
type Acked = Result<String, OutOfMemory>;

fn ack_by_message<L: Link>(alloc: Global, link: &mut L, kind: Option<AckKind>) -> Acked {
    let message = delivered(alloc, Some(REPLY))?;
    let acked = message_acks(alloc, link, &message, kind);
    drop(message);
    acked
}

fn ack_by_acker<L: Link>(
    alloc: Global,
    link: &mut L,
    reply: Option<&str>,
    kind: Option<AckKind>,
) -> Acked {
    acker_acks(alloc, link, &acker(alloc, reply)?, kind)
}

fn message_acks<L: Link>(
    alloc: Global,
    link: &mut L,
    message: &Message,
    kind: Option<AckKind>,
) -> Acked {
    match kind {
        None => ended(alloc, message.ack(alloc, link)),
        Some(kind) => ended(alloc, message.ack_with(alloc, link, kind)),
    }
}

fn acker_acks<L: Link>(alloc: Global, link: &mut L, acker: &Acker, kind: Option<AckKind>) -> Acked {
    match kind {
        None => ended(alloc, acker.ack(alloc, link)),
        Some(kind) => ended(alloc, acker.ack_with(alloc, link, kind)),
    }
}

fn ended(alloc: Global, found: Result<(), AckError>) -> Acked {
    match found {
        Ok(()) => word(alloc, "done"),
        Err(error) => Ok(error.to_string(alloc)?),
    }
}

// A double ack with a kind, or a plain one.
fn double_ack(alloc: Global, by: By, kind: Option<AckKind>) -> Result<DoubleAck, OutOfMemory> {
    match by {
        By::Message => ask_by_message(alloc, kind),
        By::Acker => ask_by_acker(alloc, Some(REPLY), kind),
        By::Nobody => ask_by_acker(alloc, None, kind),
    }
}

fn ask_by_message(alloc: Global, kind: Option<AckKind>) -> Result<DoubleAck, OutOfMemory> {
    let message = delivered(alloc, Some(REPLY))?;
    let asked = message_asks(alloc, &message, kind);
    drop(message);
    asked
}

fn ask_by_acker(
    alloc: Global,
    reply: Option<&str>,
    kind: Option<AckKind>,
) -> Result<DoubleAck, OutOfMemory> {
    acker_asks(alloc, &acker(alloc, reply)?, kind)
}

fn message_asks(
    alloc: Global,
    message: &Message,
    kind: Option<AckKind>,
) -> Result<DoubleAck, OutOfMemory> {
    match kind {
        None => message.double_ack(alloc),
        Some(kind) => message.double_ack_with(alloc, kind),
    }
}

fn acker_asks(
    alloc: Global,
    acker: &Acker,
    kind: Option<AckKind>,
) -> Result<DoubleAck, OutOfMemory> {
    match kind {
        None => acker.double_ack(alloc),
        Some(kind) => acker.double_ack_with(alloc, kind),
    }
}

// Polls a call, which is put back while it is pending.
fn poll<L: Link>(alloc: Global, link: &mut L, call: &mut Option<DoubleAck>, after: u64) -> Acked {
    let Some(state) = call.take() else {
        return word(alloc, "none");
    };
    match state.poll(alloc, link, START.saturating_add(after)) {
        Turn::Pending(state) => {
            replace_with(call, Some(state));
            word(alloc, "pending")
        }
        Turn::Ready(found) => ended(alloc, found),
        Turn::OutOfMemory(state) => {
            drop(state);
            Err(OutOfMemory)
        }
    }
}

/// What befalls a link and the one double ack over it.
#[derive(Clone, Copy)]
enum Event {
    Ack(By, Option<AckKind>),
    Begin(By, Option<AckKind>),
    /// A poll so long after the start.
    Poll(u64),
    Deliver(u64),
    Close(u64),
    Up(bool),
    /// Whether the last thing that was sent is this body, to the reply subject.
    Sent(&'static str),
}

fn is_sent(sent: Option<&Sent>, body: &str) -> bool {
    match sent {
        Some(
            Sent::Publish {
                subject,
                payload,
                ..
            },
        ) => subject.as_str() == REPLY && payload.as_slice() == body.as_bytes(),
        _ => false,
    }
}

// What befalls a link, and what has become of it.
fn befalls(alloc: Global, link: &mut MemoryLink, event: Event) -> Acked {
    match event {
        Event::Ack(by, kind) => ack(alloc, link, by, kind),
        Event::Deliver(inbox) => {
            link.deliver(InboxId(inbox), received(alloc, "a", None, None)?)?;
            word(alloc, "")
        }
        Event::Close(inbox) => {
            link.unsubscribe(InboxId(inbox));
            word(alloc, "")
        }
        Event::Up(up) => {
            link.set_up(up);
            word(alloc, "")
        }
        Event::Sent(body) if is_sent(link.sent().last(), body) => word(alloc, "yes"),
        _ => word(alloc, "no"),
    }
}

fn event_word(
    alloc: Global,
    link: &mut MemoryLink,
    call: &mut Option<DoubleAck>,
    event: Event,
) -> Acked {
    match event {
        Event::Begin(by, kind) => {
            let asked = double_ack(alloc, by, kind)?;
            replace_with(call, Some(asked));
            word(alloc, "")
        }
        Event::Poll(after) => poll(alloc, link, call, after),
        event => befalls(alloc, link, event),
    }
}

const NAK: Option<AckKind> = Some(AckKind::Nak(None));

const TERM: Option<AckKind> = Some(AckKind::Term);

const NEXT: Option<AckKind> = Some(AckKind::Next);

const EVENTS: &[(Event, &str)] = &[
    // An ack sends its body once.
    (Event::Ack(By::Acker, None), "done"),
    (Event::Sent(""), "yes"),
    (Event::Ack(By::Acker, TERM), "done"),
    (Event::Sent("+TERM"), "yes"),
    (Event::Ack(By::Message, None), "done"),
    (Event::Sent(""), "yes"),
    (Event::Ack(By::Message, NAK), "done"),
    (Event::Sent("-NAK"), "yes"),
    (Event::Ack(By::Nobody, None), "no reply subject"),
    (Event::Ack(By::Nobody, NEXT), "no reply subject"),
    (Event::Up(false), ""),
    (Event::Ack(By::Acker, None), "link failed"),
    (Event::Ack(By::Message, TERM), "link failed"),
    (Event::Sent("-NAK"), "yes"),
    (Event::Up(true), ""),
    // Whatever arrives is the answer, also where the wait is over.
    (Event::Begin(By::Acker, None), ""),
    (Event::Poll(0), "pending"),
    (Event::Sent("+ACK"), "yes"),
    (Event::Deliver(0), ""),
    (Event::Poll(WAIT), "done"),
    // No answer comes.
    (Event::Begin(By::Message, None), ""),
    (Event::Poll(0), "pending"),
    (Event::Poll(4_999_999_999), "pending"),
    (Event::Poll(WAIT), "timed out"),
    // Its inbox is closed.
    (Event::Begin(By::Message, NEXT), ""),
    (Event::Poll(0), "pending"),
    (Event::Sent("+NXT"), "yes"),
    (Event::Close(2), ""),
    (Event::Poll(0), "subscription dropped"),
    // It can't be sent.
    (Event::Begin(By::Nobody, NEXT), ""),
    (Event::Poll(0), "no reply subject"),
    (Event::Up(false), ""),
    (Event::Begin(By::Acker, TERM), ""),
    (Event::Poll(0), "link failed"),
    (Event::Up(true), ""),
    (Event::Sent("+NXT"), "yes"),
    (Event::Poll(0), "none"),
    // The clock begins at the poll that sends.
    (Event::Begin(By::Acker, TERM), ""),
    (Event::Poll(WAIT), "pending"),
    (Event::Sent("+TERM"), "yes"),
    (Event::Poll(9_999_999_999), "pending"),
    (Event::Poll(10_000_000_000), "timed out"),
    (Event::Poll(10_000_000_000), "none"),
];

#[test]
fn acks_follow_what_befalls(rt: HostRuntime) {
    let mut link = MemoryLink::new(rt.alloc(), "_INBOX.t").expect(&rt, "a link");
    let mut call = None;
    for (place, (event, wanted)) in EVENTS.iter().enumerate() {
        let found = event_word(rt.alloc(), &mut link, &mut call, *event);
        says_at(&rt, place, found, wanted);
    }
    drop(call);
    drop(link);
}

#[test]
fn a_message_asks_as_its_acker_does(rt: HostRuntime) {
    let alloc = rt.alloc();
    let asked = double_ack(alloc, By::Message, TERM);
    same(&rt, "asks", asked, double_ack(alloc, By::Acker, TERM));
}
