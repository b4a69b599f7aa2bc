//! The link in memory, and the server that answers from its script.

use crate::received::received;
use crate::tables::{printed, same, says_at};
use crate::words::word;
use js_base::{HeaderMap, Message, OutOfMemory, both};
use js_link::{
    Answer, InboxId, Link, LinkError, MemoryLink, RequestId, ScriptedServer, Sent, Taken, Watch,
};
use std::alloc::Global;

/// A call of a link.
#[derive(Clone, Copy)]
enum LinkCall {
    OpenInbox,
    FreshSubject,
    Subscribe(Option<&'static str>),
    Close(u64),
    Publish(&'static str),
    Request(&'static str),
    Take(u64),
    Answer(u64),
    State,
}

// The body of a message.
fn body(alloc: Global, message: &Message) -> Result<String, OutOfMemory> {
    Ok(String::from_utf8_lossy(alloc, message.payload.as_slice())?)
}

// The same of a message that is let go of.
fn owned_body(alloc: Global, message: Message) -> Result<String, OutOfMemory> {
    let text = body(alloc, &message);
    drop(message);
    text
}

fn open_inbox<L: Link>(alloc: Global, link: &mut L) -> Result<String, OutOfMemory> {
    match link.open_inbox(alloc) {
        Ok((inbox, subject)) => {
            let number = inbox.0;
            let subject = subject.as_str();
            Ok(format!(in alloc; "{number} {subject}")?)
        }
        Err(error) => printed(alloc, error),
    }
}

fn fresh_subject<L: Link>(alloc: Global, link: &mut L) -> Result<String, OutOfMemory> {
    match link.fresh_subject(alloc) {
        Ok(subject) => word(alloc, subject.as_str()),
        Err(error) => printed(alloc, error),
    }
}

// A number, or a refusal.
fn number(alloc: Global, found: Result<u64, LinkError>) -> Result<String, OutOfMemory> {
    match found {
        Ok(number) => Ok(format!(in alloc; "{number}")?),
        Err(error) => printed(alloc, error),
    }
}

fn publish<L: Link>(alloc: Global, link: &mut L, subject: &str) -> Result<String, OutOfMemory> {
    match link.publish(alloc, subject, Some("reply"), None, b"1") {
        Ok(()) => word(alloc, "sent"),
        Err(error) => printed(alloc, error),
    }
}

fn take<L: Link>(alloc: Global, link: &mut L, inbox: u64) -> Result<String, OutOfMemory> {
    match link.take(InboxId(inbox)) {
        Taken::Message(message) => owned_body(alloc, message),
        Taken::Empty => word(alloc, "empty"),
        Taken::Closed => word(alloc, "closed"),
    }
}

fn answer<L: Link>(alloc: Global, link: &mut L, request: u64) -> Result<String, OutOfMemory> {
    match link.answer(RequestId(request)) {
        Answer::Got(message) => owned_body(alloc, message),
        Answer::Waiting => word(alloc, "waiting"),
        Answer::Gone => word(alloc, "gone"),
    }
}

fn state<L: Link>(alloc: Global, link: &mut L) -> Result<String, OutOfMemory> {
    match link.state() {
        Watch::State(state) => Ok(state.to_string(alloc)?),
        Watch::Ended => word(alloc, "ended"),
    }
}

// What one call answers.
fn called<L: Link>(alloc: Global, link: &mut L, call: LinkCall) -> Result<String, OutOfMemory> {
    match call {
        LinkCall::OpenInbox => open_inbox(alloc, link),
        LinkCall::FreshSubject => fresh_subject(alloc, link),
        LinkCall::Subscribe(group) => number(
            alloc,
            link.subscribe(alloc, "events.>", group)
                .map(|inbox: InboxId| inbox.0),
        ),
        LinkCall::Close(inbox) => {
            link.unsubscribe(InboxId(inbox));
            word(alloc, "")
        }
        LinkCall::Publish(subject) => publish(alloc, link, subject),
        LinkCall::Request(subject) => number(
            alloc,
            link.request(alloc, subject, None, b"{}")
                .map(|request: RequestId| request.0),
        ),
        LinkCall::Take(inbox) => take(alloc, link, inbox),
        LinkCall::Answer(request) => answer(alloc, link, request),
        LinkCall::State => state(alloc, link),
    }
}

/// What befalls a link.
#[derive(Clone, Copy)]
enum Event {
    Call(LinkCall),
    Deliver(u64, &'static str),
    Respond(u64, &'static str),
    Lose(u64),
    Up(bool),
    End,
}

fn deliver(
    alloc: Global,
    link: &mut MemoryLink,
    inbox: u64,
    text: &str,
) -> Result<(), OutOfMemory> {
    link.deliver(InboxId(inbox), received(alloc, text, None, None)?)
}

fn respond(
    alloc: Global,
    link: &mut MemoryLink,
    request: u64,
    text: &str,
) -> Result<(), OutOfMemory> {
    link.respond(RequestId(request), Some(received(alloc, text, None, None)?))
}

// What befalls a link, and nothing is told of it.
fn befalls(alloc: Global, link: &mut MemoryLink, event: Event) -> Result<(), OutOfMemory> {
    match event {
        Event::Call(_) => Ok(()),
        Event::Deliver(inbox, text) => deliver(alloc, link, inbox, text),
        Event::Respond(request, text) => respond(alloc, link, request, text),
        Event::Lose(request) => link.respond(RequestId(request), None),
        Event::Up(up) => {
            link.set_up(up);
            Ok(())
        }
        Event::End => {
            link.set_watch(Watch::Ended);
            Ok(())
        }
    }
}

fn event_word(alloc: Global, link: &mut MemoryLink, event: Event) -> Result<String, OutOfMemory> {
    if let Event::Call(call) = event {
        return called(alloc, link, call);
    }
    befalls(alloc, link, event)?;
    word(alloc, "")
}

/// What befalls one link after another, and what each call answers.
const EVENTS: &[(Event, &str)] = &[
    // An inbox gives each message once, in order, until it is closed.
    (Event::Call(LinkCall::OpenInbox), "0 _INBOX.t.0"),
    (Event::Deliver(0, "a"), ""),
    (Event::Deliver(0, "b"), ""),
    (Event::Call(LinkCall::Take(0)), "a"),
    (Event::Call(LinkCall::Take(0)), "b"),
    (Event::Call(LinkCall::Take(0)), "empty"),
    (Event::Call(LinkCall::Close(0)), ""),
    (Event::Deliver(0, "c"), ""),
    (Event::Call(LinkCall::Take(0)), "closed"),
    (Event::Call(LinkCall::Take(1)), "closed"),
    // A link that is down sends nothing, and no number is used up.
    (Event::Call(LinkCall::Publish("a")), "sent"),
    (Event::Up(false), ""),
    (Event::Call(LinkCall::Publish("a")), "link failed"),
    (Event::Call(LinkCall::Request("a")), "link failed"),
    (Event::Call(LinkCall::Subscribe(None)), "link failed"),
    (Event::Up(true), ""),
    (Event::Call(LinkCall::Subscribe(Some("g"))), "1"),
    (Event::Call(LinkCall::OpenInbox), "2 _INBOX.t.2"),
    (Event::Deliver(1, "d"), ""),
    (Event::Call(LinkCall::Take(2)), "empty"),
    (Event::Call(LinkCall::Take(1)), "d"),
    // A request has one answer.
    (Event::Call(LinkCall::Request("a")), "1"),
    (Event::Call(LinkCall::Request("b")), "2"),
    (Event::Call(LinkCall::Answer(1)), "waiting"),
    (Event::Respond(1, "x"), ""),
    (Event::Respond(1, "y"), ""),
    (Event::Lose(2), ""),
    (Event::Call(LinkCall::Answer(1)), "x"),
    (Event::Call(LinkCall::Answer(1)), "gone"),
    (Event::Call(LinkCall::Answer(2)), "gone"),
    (Event::Call(LinkCall::Answer(0)), "gone"),
    // Its subjects are its own, and it tells what it was set to.
    (Event::Call(LinkCall::FreshSubject), "_INBOX.t.r0"),
    (Event::Call(LinkCall::FreshSubject), "_INBOX.t.r1"),
    (Event::Call(LinkCall::State), "connected"),
    (Event::End, ""),
    (Event::Call(LinkCall::State), "ended"),
    (Event::Call(LinkCall::Publish("b")), "sent"),
    (Event::Call(LinkCall::Request("c")), "3"),
    (Event::Call(LinkCall::Answer(3)), "waiting"),
    (Event::Lose(3), ""),
    (Event::Call(LinkCall::Answer(3)), "gone"),
    (Event::Call(LinkCall::Subscribe(None)), "3"),
    (Event::Call(LinkCall::Close(3)), ""),
    (Event::Call(LinkCall::Take(3)), "closed"),
];

#[test]
fn a_link_does_what_it_is_told(rt: HostRuntime) {
    let mut link = MemoryLink::new(rt.alloc(), "_INBOX.t").expect(&rt, "a link");
    for (place, (event, wanted)) in EVENTS.iter().enumerate() {
        says_at(
            &rt,
            place,
            event_word(rt.alloc(), &mut link, *event),
            wanted,
        );
    }
    drop(link);
}

// Whether the first thing that a link sent is a message to `a` with this reply, and with these headers.
fn is_kept(link: &MemoryLink, wanted: &HeaderMap) -> bool {
    match link.sent().first() {
        Some(
            Sent::Publish {
                subject,
                reply: Some(reply),
                headers: Some(headers),
                payload,
            },
        ) => {
            subject.as_str() == "a"
                && reply.as_str() == "b"
                && *headers == *wanted
                && payload.as_slice() == b"1".as_slice()
        }
        _ => false,
    }
}

// Whether a message is kept as it was handed in.
fn keeps(alloc: Global, link: &mut MemoryLink) -> Result<bool, LinkError> {
    let mut headers = HeaderMap::new(alloc);
    headers.append(alloc, "A", "1")?;
    link.publish(alloc, "a", Some("b"), Some(&headers), b"1")?;
    Ok(is_kept(link, &headers))
}

// How many bytes a link sends at most, and how long its requests wait.
fn limits(link: &MemoryLink) -> (u64, Option<u64>) {
    (link.max_payload(), link.request_timeout())
}

#[test]
fn a_link_keeps_what_it_sends(rt: HostRuntime) {
    let mut link = MemoryLink::new(rt.alloc(), "_INBOX.t").expect(&rt, "a link");
    same(&rt, "kept", keeps(rt.alloc(), &mut link), Ok(true));
    same(&rt, "sent", link.sent().len(), 1);
    same(
        &rt,
        "limits",
        limits(&link),
        (u64::MAX, Some(10_000_000_000)),
    );
    link.set_limits(5, None);
    same(&rt, "limits", limits(&link), (5, None));
    drop(link);
}

/// The replies of a script, each with its subject.
const SCRIPT: &[(&str, &str)] = &[("a", "1"), ("b", "2"), ("a", "3")];

fn scripted(
    alloc: Global,
    server: &mut ScriptedServer,
    subject: &str,
    reply: &str,
) -> Result<(), OutOfMemory> {
    server.script(alloc, subject, received(alloc, reply, None, None)?)
}

fn script_all(alloc: Global, server: &mut ScriptedServer) -> Result<(), OutOfMemory> {
    for &(subject, reply) in SCRIPT {
        scripted(alloc, server, subject, reply)?;
    }
    Ok(())
}

// A server with that script.
fn serving(alloc: Global) -> Result<ScriptedServer, OutOfMemory> {
    let mut server = ScriptedServer::new(alloc, MemoryLink::new(alloc, "_INBOX.t")?);
    let scripted = script_all(alloc, &mut server);
    let (_, server) = both(scripted, Ok(server))?;
    Ok(server)
}

/// Whether the server is up, a call, and what it answers.
const SERVED: &[(bool, LinkCall, &str)] = &[
    (true, LinkCall::Request("a"), "1"),
    (true, LinkCall::Answer(1), "1"),
    (true, LinkCall::Request("a"), "2"),
    (true, LinkCall::Answer(2), "3"),
    (false, LinkCall::Request("b"), "link failed"),
    (true, LinkCall::Request("b"), "3"),
    (true, LinkCall::Answer(3), "2"),
    (true, LinkCall::Request("a"), "4"),
    (true, LinkCall::Answer(4), "waiting"),
    (true, LinkCall::OpenInbox, "0 _INBOX.t.0"),
    (true, LinkCall::FreshSubject, "_INBOX.t.r0"),
    (true, LinkCall::Subscribe(None), "1"),
    (true, LinkCall::Publish("a"), "sent"),
    (true, LinkCall::Take(1), "empty"),
    (true, LinkCall::Close(1), ""),
    (true, LinkCall::State, "connected"),
];

#[test]
fn a_server_answers_from_its_script(rt: HostRuntime) {
    let mut server = serving(rt.alloc()).expect(&rt, "a server");
    for (place, (up, call, wanted)) in SERVED.iter().enumerate() {
        server.link().set_up(*up);
        says_at(&rt, place, called(rt.alloc(), &mut server, *call), wanted);
    }
    same(&rt, "sent", server.link().sent().len(), 7);
    drop(server);
}
