//! A server that answers from a script, and what a call over it comes to.

pub(crate) use crate::replies::{NOBODY, Reply, message};
use crate::tables::paired;
use crate::words::{numbered, printed};
pub(crate) use crate::words::{Words, word};
use js_base::{Error, Message, OutOfMemory, Text, Turn};
use js_call::{ApiScope, State};
use js_call_streams::StreamHandle;
use js_json_stream_bodies::{DeleteStatus, stream};
use js_link::{Link, MemoryLink, ScriptedServer, Sent};
use serde_json::Value;
use std::alloc::Global;
use std::fmt::Display;

/// The subject and the body of a request.
pub(crate) type Asked = (&'static str, &'static str);

/// A reply that does not read.
pub(crate) const GARBLED: Reply = (None, "{");

pub(crate) fn scope(
    alloc: Global,
    prefix: &str,
    timeout: Option<u64>,
) -> Result<ApiScope, OutOfMemory> {
    Ok(ApiScope {
        prefix: Text::from_str(alloc, prefix)?,
        timeout,
    })
}

/// A server that answers nothing.
pub(crate) fn silent(alloc: Global) -> Result<ScriptedServer, OutOfMemory> {
    Ok(ScriptedServer::new(alloc, MemoryLink::new(alloc, "_INBOX.t")?))
}

pub(crate) fn scripted(
    alloc: Global,
    server: &mut ScriptedServer,
    asked: Asked,
    reply: Reply,
) -> Result<(), OutOfMemory> {
    server.script(alloc, asked.0, message(alloc, reply)?)
}

// From here on the server answers these requests so.
fn serve(
    alloc: Global,
    server: &mut ScriptedServer,
    script: &[(Asked, Reply)],
) -> Result<(), OutOfMemory> {
    for &(asked, reply) in script {
        scripted(alloc, server, asked, reply)?;
    }
    Ok(())
}

/// Whether that was sent: a request on that subject with that body.
pub(crate) fn is_request(sent: &Sent, asked: Asked) -> bool {
    match sent {
        Sent::Request {
            subject,
            payload,
            ..
        } => subject.as_str() == asked.0 && payload.as_slice() == asked.1.as_bytes(),
        _ => false,
    }
}

// Whether these requests were sent, and nothing else.
fn has_asked(sent: &[Sent], script: &[(Asked, Reply)]) -> bool {
    let count = sent.len();
    if script.len() != count {
        return false;
    }
    for place in 0..count {
        if !is_request(&sent[place], script[place].0) {
            return false;
        }
    }
    true
}

/// What a call answers, in a word.
pub(crate) trait Answered {
    fn word(&self, alloc: Global) -> Words;
}

impl Answered for Value {
    fn word(&self, alloc: Global) -> Words {
        printed(alloc, self)
    }
}

impl Answered for Message {
    fn word(&self, alloc: Global) -> Words {
        Ok(String::from_utf8_lossy(alloc, self.payload.as_slice())?)
    }
}

impl Answered for Text {
    fn word(&self, alloc: Global) -> Words {
        word(alloc, self.as_str())
    }
}

impl Answered for DeleteStatus {
    fn word(&self, alloc: Global) -> Words {
        word(alloc, if self.success { "deleted" } else { "kept" })
    }
}

/// The stream's name, and how many messages it has.
impl Answered for stream::Info {
    fn word(&self, alloc: Global) -> Words {
        numbered(alloc, self.config.name.as_str(), self.state.messages)
    }
}

/// The stream's name, and how many messages it has.
impl Answered for StreamHandle<stream::Info> {
    fn word(&self, alloc: Global) -> Words {
        numbered(alloc, self.name.as_str(), self.info.state.messages)
    }
}

/// The stream's name, and the prefix of its calls.
impl Answered for StreamHandle<()> {
    fn word(&self, alloc: Global) -> Words {
        paired(alloc, self.name.as_str(), self.scope.prefix.as_str())
    }
}

/// An answer, or the error as it is printed.
pub(crate) fn answer_word<A: Answered, E: Display>(alloc: Global, answer: &Result<A, E>) -> Words {
    match answer {
        Ok(answer) => answer.word(alloc),
        Err(error) => printed(alloc, error),
    }
}

/// The same of an answer that is let go.
pub(crate) fn found_word<A: Answered + Drop, E: Display + Drop>(
    alloc: Global,
    answer: Result<A, E>,
) -> Words {
    answer_word(alloc, &answer)
}

// What a poll comes to: its answer, its error as it is printed, or `pending`.
fn turn_word<S, A: Answered, K: Display>(
    alloc: Global,
    turn: &Turn<S, Result<A, Error<K>>>,
) -> Words {
    match turn {
        Turn::Ready(answer) => answer_word(alloc, answer),
        Turn::Pending(_) => word(alloc, "pending"),
        Turn::OutOfMemory(_) => Err(OutOfMemory),
    }
}

// What a poll of a call at that moment comes to.
fn polled_at<S, A, K, L: Link>(alloc: Global, link: &mut L, call: S, now: u64) -> Words
where
    S: State<Answer = Result<A, Error<K>>>,
    A: Answered + Drop,
    K: Display + Drop,
{
    let turn = call.poll(alloc, link, now);
    let words = turn_word(alloc, &turn);
    drop(turn);
    words
}

/// What the first poll of a call comes to.
pub(crate) fn polled<S, A, K, L: Link>(
    alloc: Global,
    link: &mut L,
    call: Result<S, OutOfMemory>,
) -> Words
where
    S: State<Answer = Result<A, Error<K>>>,
    A: Answered + Drop,
    K: Display + Drop,
{
    match call {
        Ok(call) => polled_at(alloc, link, call, 0),
        Err(OutOfMemory) => Err(OutOfMemory),
    }
}

/// An answer by which another call is made, with a number.
pub(crate) trait Followed: Drop {
    fn follow<L: Link>(&self, alloc: Global, link: &mut L, number: u64) -> Words;
}

/// What a second call comes to, which is made by what the first one answers.
pub(crate) fn call_again<S, A, E, L: Link>(
    alloc: Global,
    link: &mut L,
    call: S,
    number: u64,
) -> Words
where
    S: State<Answer = Result<A, E>>,
    A: Followed,
    E: Drop,
{
    match call.poll(alloc, link, 0) {
        Turn::Ready(Ok(answer)) => answer.follow(alloc, link, number),
        _ => word(alloc, "none"),
    }
}

/// The call after a poll that leaves it pending.
pub(crate) fn still<S: State, L: Link>(
    alloc: Global,
    link: &mut L,
    call: S,
    now: u64,
) -> Option<S> {
    match call.poll(alloc, link, now) {
        Turn::Pending(call) => Some(call),
        _ => None,
    }
}

// The same of a call that was pending before.
fn still_again<S: State, L: Link>(
    alloc: Global,
    link: &mut L,
    call: Option<S>,
    now: u64,
) -> Option<S> {
    match call {
        Some(call) => still(alloc, link, call, now),
        None => None,
    }
}

/// What a call comes to that was pending before.
pub(crate) fn ended<S, A, K, L: Link>(
    alloc: Global,
    link: &mut L,
    call: Option<S>,
    now: u64,
) -> Words
where
    S: State<Answer = Result<A, Error<K>>>,
    A: Answered + Drop,
    K: Display + Drop,
{
    match call {
        Some(call) => polled_at(alloc, link, call, now),
        None => word(alloc, "early"),
    }
}

/// What the last of some polls comes to, where those before it are pending.
pub(crate) fn waited<S, A, K, L: Link>(
    alloc: Global,
    link: &mut L,
    call: S,
    moments: [u64; 3],
) -> Words
where
    S: State<Answer = Result<A, Error<K>>>,
    A: Answered + Drop,
    K: Display + Drop,
{
    let first = still(alloc, link, call, moments[0]);
    let second = still_again(alloc, link, first, moments[1]);
    ended(alloc, link, second, moments[2])
}

/// A call that is made and polled over a server.
pub(crate) trait Case: Drop {
    fn outcome_text(self, alloc: Global, server: &mut ScriptedServer) -> Words;
}

/// The word of a call, where it asked what it was to ask.
pub(crate) fn asked_word(alloc: Global, text: String, has_asked: bool) -> Words {
    if has_asked {
        Ok(text)
    } else {
        Ok(format!(in alloc; "{text}, and asks otherwise")?)
    }
}

// The same of a call over that server.
fn outcome_at<C: Case>(
    alloc: Global,
    server: &mut ScriptedServer,
    call: C,
    script: &[(Asked, Reply)],
) -> Words {
    serve(alloc, server, script)?;
    let text = call.outcome_text(alloc, server)?;
    asked_word(alloc, text, has_asked(server.link().sent(), script))
}

/// What a call comes to over a server that answers so. Where it asks anything else, that is told too.
pub(crate) fn outcome<C: Case>(alloc: Global, call: C, script: &[(Asked, Reply)]) -> Words {
    let mut server = silent(alloc)?;
    let words = outcome_at(alloc, &mut server, call, script);
    drop(server);
    words
}
