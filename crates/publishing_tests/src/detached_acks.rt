//! Messages that are published, and acks that nobody awaits.

use crate::acks::awaited;
use crate::publishes::{
    SECOND, STORED, answer_of, number, opened, opened_limited, published, published_named,
    published_often, published_sized, published_with_headers,
};
use crate::tables::says;
use calls_tests::{Reply, Words, add_line, word};
use js_base::{Moment, OutOfMemory};
use js_context::Context;
use js_link::{Link, MemoryLink, RequestId};
use std::alloc::Global;
use std::sync::Wait;

/// What a context that publishes, or its link, is made to do.
#[derive(Clone, Copy)]
enum Action {
    /// To a subject.
    Publish(&'static str),
    /// So often.
    Often(u64),
    /// By `publish_message`, with one header of 24 bytes and so many bytes more.
    Sized(usize),
    WithHeaders,
    /// By `send_publish`, with a name.
    Named,
    /// The answer to a request, or none for ever.
    Answer(u64, Option<Reply>),
    /// Publishes, polls the ack at that moment and then detaches it.
    Await(Moment),
    Reap(Moment),
    Settled,
    Up(bool),
    /// How many bytes the link sends at most.
    Limit(u64),
    /// How many requests were sent.
    Sent,
}

// Answers a request, or ends it without an answer.
fn answer(alloc: Global, link: &mut MemoryLink, request: u64, reply: Option<Reply>) -> Words {
    let answer = answer_of(alloc, reply)?;
    link.respond(RequestId(request), answer)?;
    word(alloc, "")
}

fn set_up(alloc: Global, link: &mut MemoryLink, up: bool) -> Words {
    link.set_up(up);
    word(alloc, "")
}

fn limit(alloc: Global, link: &mut MemoryLink, most: u64) -> Words {
    link.set_limits(most, None);
    word(alloc, "")
}

// The actions of the link.
fn befalls(alloc: Global, link: &mut MemoryLink, action: Action) -> Words {
    match action {
        Action::Answer(request, reply) => answer(alloc, link, request, reply),
        Action::Up(up) => set_up(alloc, link, up),
        Action::Limit(most) => limit(alloc, link, most),
        _ => number(alloc, link.sent().len() as u64),
    }
}

fn settled<R: Wait>(rt: &R, alloc: Global, context: &mut Context) -> Words {
    if context.acks_settled(rt) {
        word(alloc, "settled")
    } else {
        word(alloc, "not settled")
    }
}

fn reaped<R: Wait, L: Link>(
    rt: &R,
    alloc: Global,
    context: &mut Context,
    link: &mut L,
    now: Moment,
) -> Words {
    number(alloc, context.reap(rt, link, now))
}

fn done<R: Wait>(
    rt: &R,
    alloc: Global,
    context: &mut Context,
    link: &mut MemoryLink,
    action: Action,
) -> Words {
    match action {
        Action::Publish(subject) => published(rt, alloc, context, link, subject),
        Action::Sized(len) => published_sized(rt, alloc, context, link, len),
        Action::WithHeaders => published_with_headers(rt, alloc, context, link),
        Action::Named => published_named(rt, alloc, context, link),
        Action::Often(times) => published_often(rt, alloc, context, link, times),
        Action::Await(now) => awaited(rt, alloc, context, link, now),
        Action::Reap(now) => reaped(rt, alloc, context, link, now),
        Action::Settled => settled(rt, alloc, context),
        _ => befalls(alloc, link, action),
    }
}

// Adds what a action comes to, as a line.
fn add<R: Wait>(
    rt: &R,
    alloc: Global,
    context: &mut Context,
    link: &mut MemoryLink,
    action: Action,
    words: &mut String,
) -> Result<(), OutOfMemory> {
    let word = done(rt, alloc, context, link, action)?;
    add_line(words, word.as_str())
}

fn run_over<R: Wait>(
    rt: &R,
    alloc: Global,
    context: &mut Context,
    link: &mut MemoryLink,
    actions: &[Action],
) -> Words {
    let mut words = String::new(alloc);
    for &action in actions {
        add(rt, alloc, context, link, action, &mut words)?;
    }
    Ok(words)
}

// What a context comes to, action by action, each word with a line's end.
fn run_in<R: Wait>(rt: &R, alloc: Global, context: &mut Context, actions: &[Action]) -> Words {
    let mut link = MemoryLink::new(alloc, "_INBOX.t")?;
    let words = run_over(rt, alloc, context, &mut link, actions);
    drop(link);
    words
}

fn run<R: Wait>(
    rt: &R,
    alloc: Global,
    capacity: u64,
    backpressure: bool,
    actions: &[Action],
) -> Words {
    let mut context = opened(rt, alloc, capacity, backpressure)?;
    let words = run_in(rt, alloc, &mut context, actions);
    drop(context);
    words
}

/// How many permits a context has, whether it waits for them, what befalls it, and what it comes to.
const RUNS: &[(u64, bool, &[Action], &str)] = &[
    // Headers count.
    (
        2,
        true,
        &[
            Action::Limit(131_072),
            Action::Sized(131_048),
            Action::Sized(131_049),
        ],
        "\nsent\nmax payload size exceeded\n",
    ),
    // A refused publish holds no permit.
    (
        1,
        false,
        &[
            Action::Publish("a b"),
            Action::Up(false),
            Action::Publish("a"),
            Action::Publish("a"),
            Action::Settled,
            Action::Sent,
            Action::Up(true),
            Action::Publish("a"),
            Action::Publish("a"),
            Action::Sent,
        ],
        "publish failed\n\npublish failed\npublish failed\nsettled\n0\n\nsent\nmax ack pending reached\n1\n",
    ),
    // Publishes wait for their permits.
    (
        1,
        true,
        &[Action::Publish("a"), Action::Often(1_000), Action::Sent],
        "sent\nall wait\n1\n",
    ),
    // Detached acks are reaped: by their answers, and thirty seconds after the first reap that looks at them.
    (
        3,
        true,
        &[
            Action::Publish("a"),
            Action::Publish("a"),
            Action::Publish("a"),
            Action::Answer(1, Some(STORED)),
            Action::Reap(10 * SECOND),
            Action::Settled,
            Action::Answer(3, None),
            Action::Reap(40 * SECOND - 1),
            Action::Reap(40 * SECOND),
            Action::Settled,
        ],
        "sent\nsent\nsent\n\n1\nnot settled\n\n1\n1\nsettled\n",
    ),
    // The same of one that was awaited before.
    (
        1,
        true,
        &[
            Action::Await(0),
            Action::Reap(10 * SECOND),
            Action::Reap(40 * SECOND - 1),
            Action::Settled,
            Action::Reap(40 * SECOND),
            Action::Settled,
        ],
        "waits\n0\n0\nnot settled\n1\nsettled\n",
    ),
    (
        2,
        true,
        &[Action::WithHeaders, Action::Named, Action::Sent],
        "sent\nsent\n2\n",
    ),
];

fn run_limited<R: Wait>(rt: &R, alloc: Global, limit: Option<u64>, actions: &[Action]) -> Words {
    let mut context = opened_limited(rt, alloc, limit)?;
    let words = run_in(rt, alloc, &mut context, actions);
    drop(context);
    words
}

/// The second of two acks is answered, and then the first.
const ANSWERED: &[Action] = &[
    Action::Publish("a"),
    Action::Publish("a"),
    Action::Answer(2, Some(STORED)),
    Action::Reap(SECOND),
    Action::Answer(1, Some(STORED)),
    Action::Reap(SECOND),
    Action::Settled,
    Action::Reap(SECOND),
    Action::Settled,
];

/// How many acks a `reap` looks at, and what it comes to: with a limit the first acks alone, none and 0 set no limit.
const LIMITED: &[(Option<u64>, &str)] = &[
    (Some(1), "sent\nsent\n\n0\n\n1\nnot settled\n1\nsettled\n"),
    (Some(2), "sent\nsent\n\n1\n\n1\nsettled\n0\nsettled\n"),
    (Some(0), "sent\nsent\n\n1\n\n1\nsettled\n0\nsettled\n"),
    (None, "sent\nsent\n\n1\n\n1\nsettled\n0\nsettled\n"),
];

#[test]
fn reaps_look_at_the_first(rt: HostRuntime) {
    for &(limit, wanted) in LIMITED {
        let found = run_limited(&rt, rt.alloc(), limit, ANSWERED);
        says(&rt, wanted, found, wanted);
    }
}

#[test]
fn publishes_take_and_give_permits(rt: HostRuntime) {
    for &(capacity, backpressure, actions, wanted) in RUNS {
        let found = run(&rt, rt.alloc(), capacity, backpressure, actions);
        says(&rt, wanted, found, wanted);
    }
}
