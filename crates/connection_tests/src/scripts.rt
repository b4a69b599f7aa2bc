//! What a connection answers and writes to one thing after another.

use crate::words::word;
use js_base::{OutOfMemory, Text};
use js_link::{InboxId, Link, LinkError, Taken};
use js_link_connection::{ConnectOptions, Connection, ConnectionError, Credentials};
use std::alloc::Global;
use std::fmt::Display;
use std::process::Abort;
use std::str;

/// What is done with a connection.
#[derive(Clone, Copy, Drop)]
enum Step {
    Made(u64),
    Lost,
    /// Bytes come from the server at a moment.
    Bytes(u64, &'static str),
    /// An inbox is opened.
    Inbox,
    /// The first message of the inbox is taken.
    Take,
    /// A message is published, to a subject.
    Publish(&'static str, &'static str),
    Woken(u64),
    /// What is to be sent is written, told and sent.
    Write,
    /// How many bytes a message has that the server takes.
    Info,
}

/// A step, and what it comes to.
type Row = (Step, &'static str);

#[derive(Drop)]
struct Client {
    connection: Connection,
    inbox: InboxId,
}

fn outcome<E: Display + Drop>(
    alloc: Global,
    outcome: Result<(), E>,
) -> Result<String, OutOfMemory> {
    match outcome {
        Ok(()) => word(alloc, "done"),
        Err(error) => Ok(format!(in alloc; "{error}")?),
    }
}

impl Client {
    fn write(&mut self, alloc: Global) -> Result<String, OutOfMemory> {
        if let Err(error) = self.connection.write(alloc) {
            return Ok(format!(in alloc; "{error}")?);
        }
        let bytes = self.connection.to_send();
        let count = bytes.len();
        let told = match str::from_utf8(bytes) {
            Ok(text) => word(alloc, text),
            Err(_) => word(alloc, "no text"),
        };
        self.connection.sent(count);
        told
    }

    fn take(&mut self, alloc: Global) -> Result<String, OutOfMemory> {
        match self.connection.link_mut().take(self.inbox) {
            Taken::Message(message) => {
                let payload = str::from_utf8(message.payload.as_slice()).unwrap_or("no text");
                Ok(format!(in alloc; "{} {payload}", message.subject)?)
            }
            Taken::Empty => word(alloc, "empty"),
            Taken::Closed => word(alloc, "closed"),
        }
    }

    fn open(&mut self, alloc: Global) -> Result<String, OutOfMemory> {
        match self.connection.link_mut().open_inbox(alloc) {
            Ok((inbox, subject)) => {
                self.inbox = inbox;
                word(alloc, subject.as_str())
            }
            Err(error) => Ok(format!(in alloc; "{error}")?),
        }
    }

    fn publish(
        &mut self,
        alloc: Global,
        subject: &str,
        payload: &str,
    ) -> Result<String, OutOfMemory> {
        let link = self.connection.link_mut();
        let sent = link.publish(alloc, subject, None, None, payload.as_bytes());
        outcome(alloc, sent)
    }

    fn info(&self, alloc: Global) -> Result<String, OutOfMemory> {
        match self.connection.info() {
            Some(info) => Ok(format!(in alloc; "{} takes {}", info.server_id, info.max_payload)?),
            None => word(alloc, "none"),
        }
    }

    fn obey(&mut self, alloc: Global, step: Step) -> Result<String, OutOfMemory> {
        match step {
            Step::Made(now) => {
                self.connection.made(now);
                word(alloc, "done")
            }
            Step::Lost => {
                self.connection.lost();
                word(alloc, "done")
            }
            Step::Bytes(now, text) => {
                let received = self.connection.received(alloc, text.as_bytes(), now);
                outcome::<ConnectionError>(alloc, received)
            }
            Step::Inbox => self.open(alloc),
            Step::Take => self.take(alloc),
            Step::Publish(subject, payload) => self.publish(alloc, subject, payload),
            Step::Woken(now) => outcome::<ConnectionError>(alloc, self.connection.woken(now)),
            Step::Write => self.write(alloc),
            Step::Info => self.info(alloc),
        }
    }
}

fn new_client(alloc: Global, credentials: Credentials) -> Result<Client, LinkError> {
    let mut options = ConnectOptions::new(alloc, Text::from_str(alloc, "t1")?)?;
    options.credentials = credentials;
    Ok(Client {
        connection: Connection::new(alloc, &options)?,
        inbox: InboxId(0),
    })
}

fn says_each(rt: &impl Abort, alloc: Global, credentials: Credentials, rows: &[Row]) {
    let mut client = new_client(alloc, credentials).expect(rt, "a connection");
    for &(step, wanted) in rows {
        let found = client.obey(alloc, step).expect(rt, "memory");
        assert_eq!(rt; found.as_str(), wanted);
    }
}

const INFO: &str = "INFO {\"server_id\":\"S\",\"max_payload\":1024,\"headers\":true}\r\n";

/// Nothing is written before the server's greeting; then CONNECT, the answer to a PING, the subscriptions and what was held back.
const GREETED: &[Row] = &[
    (Step::Info, "none"),
    (Step::Publish("a.b", "early"), "done"),
    (Step::Write, ""),
    (Step::Made(0), "done"),
    (Step::Write, ""),
    (Step::Bytes(1, INFO), "done"),
    (Step::Info, "S takes 1024"),
    (Step::Bytes(1, "PI"), "done"),
    (Step::Bytes(1, "NG\r\n"), "done"),
    (Step::Inbox, "_INBOX.t1.i.1"),
    (
        Step::Write,
        "CONNECT {\"headers\":true,\"lang\":\"rattle\",\"no_responders\":true,\"pedantic\":false,\"protocol\":1,\"verbose\":false,\"version\":\"1\"}\r\nPONG\r\nSUB _INBOX.t1.* 0\r\nPUB a.b 5\r\nearly\r\nSUB _INBOX.t1.i.1 1\r\n",
    ),
    (Step::Write, ""),
    (Step::Take, "empty"),
    (Step::Bytes(2, "MSG _INBOX.t1.i.1 1 2\r\nh"), "done"),
    (Step::Take, "empty"),
    (Step::Bytes(3, "i\r\nMSG _INBOX.t1.i.1 1 0\r\n\r\n"), "done"),
    (Step::Take, "_INBOX.t1.i.1 hi"),
    (Step::Take, "_INBOX.t1.i.1 "),
    (Step::Take, "empty"),
    (Step::Publish("a.b", "x\r\nPUB c 1"), "done"),
    (Step::Write, "PUB a.b 10\r\nx\r\nPUB c 1\r\n"),
];

/// After a loss the open subscriptions are written again, and a message that was read is still there. A quiet minute brings a PING,
/// and two of them without an answer are silence.
const LOST: &[Row] = &[
    (Step::Made(0), "done"),
    (Step::Bytes(1, INFO), "done"),
    (Step::Inbox, "_INBOX.t1.i.1"),
    (
        Step::Write,
        "CONNECT {\"auth_token\":\"secret\",\"headers\":true,\"lang\":\"rattle\",\"no_responders\":true,\"pedantic\":false,\"protocol\":1,\"verbose\":false,\"version\":\"1\"}\r\nSUB _INBOX.t1.* 0\r\nSUB _INBOX.t1.i.1 1\r\n",
    ),
    (Step::Bytes(2, "MSG _INBOX.t1.i.1 1 2\r\nhi\r\n"), "done"),
    (Step::Lost, "done"),
    (Step::Info, "none"),
    (Step::Take, "_INBOX.t1.i.1 hi"),
    (Step::Made(10), "done"),
    (Step::Bytes(11, INFO), "done"),
    (
        Step::Write,
        "CONNECT {\"auth_token\":\"secret\",\"headers\":true,\"lang\":\"rattle\",\"no_responders\":true,\"pedantic\":false,\"protocol\":1,\"verbose\":false,\"version\":\"1\"}\r\nSUB _INBOX.t1.* 0\r\nSUB _INBOX.t1.i.1 1\r\n",
    ),
    (Step::Woken(12), "done"),
    (Step::Write, ""),
    (Step::Woken(60_000_000_011), "done"),
    (Step::Write, "PING\r\n"),
    (Step::Woken(120_000_000_011), "done"),
    (Step::Write, "PING\r\n"),
    (Step::Woken(180_000_000_011), "no answer to PING"),
];

/// A damage is told again and again, and nothing behind it is delivered; a refusal of the server is told once.
const DAMAGED: &[Row] = &[
    (Step::Made(0), "done"),
    (Step::Bytes(1, INFO), "done"),
    (Step::Inbox, "_INBOX.t1.i.1"),
    (
        Step::Bytes(1, "-ERR 'Slow Consumer'\r\n"),
        "'Slow Consumer'",
    ),
    (
        Step::Bytes(1, "MSG _INBOX.t1.i.1 1 2\r\nhiXX"),
        "damaged bytes at byte 80",
    ),
    (
        Step::Bytes(1, "MSG _INBOX.t1.i.1 1 2\r\nho\r\n"),
        "damaged bytes at byte 80",
    ),
    (Step::Take, "empty"),
];

#[test]
fn a_connection_greets_and_delivers(rt: HostRuntime) {
    says_each(&rt, rt.alloc(), Credentials::Anonymous, GREETED);
}

#[test]
fn subscriptions_outlast_a_loss(rt: HostRuntime) {
    let token = Text::from_str(rt.alloc(), "secret").expect(&rt, "a token");
    says_each(&rt, rt.alloc(), Credentials::Token(token), LOST);
}

#[test]
fn nothing_behind_a_damage_is_delivered(rt: HostRuntime) {
    says_each(&rt, rt.alloc(), Credentials::Anonymous, DAMAGED);
}
