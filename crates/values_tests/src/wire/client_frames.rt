//! The frames of a client, as `write_frame` writes them.

use crate::base::text_of;
use crate::received::{Headers, bytes_of, header_map, reply_of};
use crate::tables::{printed, says};
use crate::wire::text_in;
use crate::words::word;
use js_base::{OutOfMemory, Subject, Text, all_3, all_4, both};
use js_link_wire::{ClientFrame, WriteError, write_frame};
use std::alloc::Global;

/// What a client says.
#[derive(Clone, Copy)]
enum Said {
    Connect(&'static str),
    /// A subject, a queue group and the number of the subscription.
    Subscribe(&'static str, Option<&'static str>, u64),
    /// The number of a subscription, and after how many messages it ends.
    Unsubscribe(u64, Option<u64>),
    /// A subject, a reply subject and a payload.
    Publish(&'static str, Option<&'static str>, &'static str),
    /// The same with headers before the payload.
    HeaderedPublish(&'static str, Option<&'static str>, Headers, &'static str),
    Ping,
    Pong,
}

/// What a client says, and what is written.
const WRITTEN: &[(Said, &str)] = &[
    (
        Said::Connect("{\"verbose\":false,\"pedantic\":false,\"lang\":\"go\",\"protocol\":1}"),
        "CONNECT {\"verbose\":false,\"pedantic\":false,\"lang\":\"go\",\"protocol\":1}\r\n",
    ),
    (Said::Subscribe("FOO", None, 1), "SUB FOO 1\r\n"),
    (Said::Subscribe("BAR", Some("G1"), 44), "SUB BAR G1 44\r\n"),
    (Said::Unsubscribe(1, None), "UNSUB 1\r\n"),
    (Said::Unsubscribe(1, Some(5)), "UNSUB 1 5\r\n"),
    (
        Said::Publish("FOO", None, "Hello NATS!"),
        "PUB FOO 11\r\nHello NATS!\r\n",
    ),
    (
        Said::Publish("FRONT.DOOR", Some("JOKE.22"), "Knock Knock"),
        "PUB FRONT.DOOR JOKE.22 11\r\nKnock Knock\r\n",
    ),
    (Said::Publish("NOTIFY", None, ""), "PUB NOTIFY 0\r\n\r\n"),
    (
        Said::HeaderedPublish("FOO", None, &[("Bar", "Baz")], "Hello NATS!"),
        "HPUB FOO 22 33\r\nNATS/1.0\r\nBar: Baz\r\n\r\nHello NATS!\r\n",
    ),
    (
        Said::HeaderedPublish(
            "FRONT.DOOR",
            Some("JOKE.22"),
            &[("BREAKFAST", "donut"), ("LUNCH", "burger")],
            "Knock Knock",
        ),
        "HPUB FRONT.DOOR JOKE.22 45 56\r\nNATS/1.0\r\nBREAKFAST: donut\r\nLUNCH: burger\r\n\r\nKnock Knock\r\n",
    ),
    (
        Said::HeaderedPublish("NOTIFY", None, &[("Bar", "Baz")], ""),
        "HPUB NOTIFY 22 22\r\nNATS/1.0\r\nBar: Baz\r\n\r\n\r\n",
    ),
    (
        Said::HeaderedPublish(
            "MORNING.MENU",
            None,
            &[("BREAKFAST", "donut"), ("BREAKFAST", "eggs")],
            "Yum!",
        ),
        "HPUB MORNING.MENU 47 51\r\nNATS/1.0\r\nBREAKFAST: donut\r\nBREAKFAST: eggs\r\n\r\nYum!\r\n",
    ),
    (Said::Ping, "PING\r\n"),
    (Said::Pong, "PONG\r\n"),
];

/// What a client may not say, and why: a server would read another frame, or another line of one.
const REFUSED: &[(Said, &str)] = &[
    (Said::Connect("{}\r\nPING"), "bad CONNECT text"),
    (Said::Connect("{\n}"), "bad CONNECT text"),
    (Said::Subscribe("FOO BAR", None, 1), "bad subject"),
    (Said::Subscribe("FOO\r\nPING", None, 1), "bad subject"),
    (Said::Subscribe("", None, 1), "bad subject"),
    (Said::Subscribe("BAR", Some("G 1"), 44), "bad queue group"),
    (Said::Subscribe("BAR", Some("G1\n"), 44), "bad queue group"),
    (Said::Subscribe("BAR", Some(""), 44), "bad queue group"),
    (Said::Publish("FOO 0\r\n", None, ""), "bad subject"),
    (Said::Publish("FOO\r", None, ""), "bad subject"),
    (
        Said::Publish("FOO", Some("JOKE 22"), ""),
        "bad reply subject",
    ),
    (
        Said::Publish("FOO", Some("JOKE\n"), ""),
        "bad reply subject",
    ),
    (
        Said::HeaderedPublish("FOO BAR", None, &[("Bar", "Baz")], ""),
        "bad subject",
    ),
    (
        Said::HeaderedPublish("FOO", Some(""), &[("Bar", "Baz")], ""),
        "bad reply subject",
    ),
    (
        Said::HeaderedPublish("FOO", None, &[("Bar", "Baz\r\nLUNCH: burger")], ""),
        "headers that are not sendable",
    ),
    (
        Said::HeaderedPublish("FOO", None, &[("Bar", "Baz\n")], ""),
        "headers that are not sendable",
    ),
    (
        Said::HeaderedPublish("FOO", None, &[("Bar", "Baz"), ("BREAK FAST", "eggs")], ""),
        "headers that are not sendable",
    ),
    (
        Said::HeaderedPublish("FOO", None, &[("Bar\r", "Baz")], ""),
        "headers that are not sendable",
    ),
];

fn connect(alloc: Global, json: &str) -> Result<ClientFrame, OutOfMemory> {
    Ok(ClientFrame::Connect {
        json: Text::from_str(alloc, json)?,
    })
}

fn subscribe(
    alloc: Global,
    subject: &str,
    queue_group: Option<&str>,
    subscription: u64,
) -> Result<ClientFrame, OutOfMemory> {
    let (subject, queue_group) = both(Subject::new(alloc, subject), text_of(alloc, queue_group))?;
    Ok(ClientFrame::Subscribe {
        subject,
        queue_group,
        subscription,
    })
}

fn publish(
    alloc: Global,
    subject: &str,
    reply: Option<&str>,
    payload: &str,
) -> Result<ClientFrame, OutOfMemory> {
    let (subject, reply, payload) = all_3(
        Subject::new(alloc, subject),
        reply_of(alloc, reply),
        bytes_of(alloc, payload),
    )?;
    Ok(ClientFrame::Publish {
        subject,
        reply,
        payload,
    })
}

fn headered_publish(
    alloc: Global,
    subject: &str,
    reply: Option<&str>,
    headers: Headers,
    payload: &str,
) -> Result<ClientFrame, OutOfMemory> {
    let (subject, reply, headers, payload) = all_4(
        Subject::new(alloc, subject),
        reply_of(alloc, reply),
        header_map(alloc, headers),
        bytes_of(alloc, payload),
    )?;
    Ok(ClientFrame::HeaderedPublish {
        subject,
        reply,
        headers,
        payload,
    })
}

fn frame_of(alloc: Global, said: Said) -> Result<ClientFrame, OutOfMemory> {
    match said {
        Said::Connect(json) => connect(alloc, json),
        Said::Subscribe(subject, queue_group, subscription) => {
            subscribe(alloc, subject, queue_group, subscription)
        }
        Said::Unsubscribe(subscription, max) => Ok(ClientFrame::Unsubscribe { subscription, max }),
        Said::Publish(subject, reply, payload) => publish(alloc, subject, reply, payload),
        Said::HeaderedPublish(subject, reply, headers, payload) => {
            headered_publish(alloc, subject, reply, headers, payload)
        }
        Said::Ping => Ok(ClientFrame::Ping),
        Said::Pong => Ok(ClientFrame::Pong),
    }
}

fn text_of_frame(alloc: Global, frame: &ClientFrame) -> Result<String, OutOfMemory> {
    let mut out = Vec::new(alloc);
    match write_frame(alloc, &mut out, frame) {
        Ok(()) => word(alloc, text_in(&out)),
        Err(error) => printed(alloc, error),
    }
}

// What is written, or what is printed of the refusal.
fn written(alloc: Global, said: Said) -> Result<String, OutOfMemory> {
    let frame = frame_of(alloc, said)?;
    let text = text_of_frame(alloc, &frame);
    drop(frame);
    text
}

#[test]
fn frames_of_a_client_are_written(rt: HostRuntime) {
    for &(said, wanted) in WRITTEN {
        says(&rt, wanted, written(rt.alloc(), said), wanted);
    }
    for &(said, wanted) in REFUSED {
        says(&rt, wanted, written(rt.alloc(), said), wanted);
    }
    let memory = printed(rt.alloc(), WriteError::OutOfMemory);
    says(&rt, "memory", memory, "out of memory");
}
