//! A server that answers calls on buckets from a script, and what such a call comes to.

use crate::server::{Answered, asked_word, ended, is_request, scripted, silent, still};
use crate::stores::script::{Asked, Reply};
use crate::tables::says;
use crate::words::{Words, word};
use js_base::{Error, OutOfMemory, Text, both};
use js_call::State;
use js_context::Context;
use js_json::account::Account;
use js_link::{Link, ScriptedServer, Sent};
use js_store::{ObjectStore, Store};
use std::alloc::Global;
use std::fmt::Display;
use std::process::Abort;
use std::sync::Wait;

fn add_all(
    alloc: Global,
    server: &mut ScriptedServer,
    script: &[(Asked, Reply)],
) -> Result<(), OutOfMemory> {
    for &(asked, reply) in script {
        scripted(alloc, server, asked.texts(), reply.parts())?;
    }
    Ok(())
}

/// A server that answers these requests so.
pub(crate) fn serving(
    alloc: Global,
    script: &[(Asked, Reply)],
) -> Result<ScriptedServer, OutOfMemory> {
    let mut server = silent(alloc)?;
    let added = add_all(alloc, &mut server, script);
    let (server, _) = both(Ok(server), added)?;
    Ok(server)
}

// Whether these requests were sent, and nothing else.
fn has_asked(sent: &[Sent], script: &[(Asked, Reply)]) -> bool {
    sent.len() == script.len()
        && sent
            .iter()
            .zip(script)
            .all(|(one, (asked, _))| is_request(one, asked.texts()))
}

impl Answered for () {
    fn word(&self, alloc: Global) -> Words {
        word(alloc, "done")
    }
}

/// How much storage it uses, and the level of its API.
impl Answered for Account {
    fn word(&self, alloc: Global) -> Words {
        let storage = self.storage;
        let level = self.requests.level;
        Ok(format!(in alloc; "{storage} {level}")?)
    }
}

fn or_dash(text: &Option<Text>) -> &str {
    match text {
        None => "-",
        Some(text) => text.as_str(),
    }
}

/// Its names, where its values are, and how many messages its stream has.
impl Answered for Store {
    fn word(&self, alloc: Global) -> Words {
        let name = self.name.as_str();
        let stream = self.stream_name.as_str();
        let prefix = self.prefix.as_str();
        let put = or_dash(&self.put_prefix);
        let jetstream = self.use_jetstream_prefix;
        let handle = self.stream.name.as_str();
        Ok(format!(in alloc; "{name} {stream} {prefix} {put} {jetstream} {handle}")?)
    }
}

/// Its name, and that of its stream.
impl Answered for ObjectStore {
    fn word(&self, alloc: Global) -> Words {
        let name = self.name.as_str();
        let stream = self.stream.name.as_str();
        Ok(format!(in alloc; "{name} {stream}")?)
    }
}

/// What a call comes to by its second poll, 200 nanoseconds after the first.
pub(crate) fn polled_twice<S, A, K, L: Link>(
    alloc: Global,
    link: &mut L,
    call: Result<S, OutOfMemory>,
) -> Words
where
    S: State<Answer = Result<A, Error<K>>>,
    A: Answered + Drop,
    K: Display + Drop,
{
    match call {
        Ok(call) => {
            let call = still(alloc, link, call, 0);
            ended(alloc, link, call, 200)
        }
        Err(OutOfMemory) => Err(OutOfMemory),
    }
}

/// A call of a context that is made and polled over a server.
pub(crate) trait ContextCase: Copy {
    fn outcome_text(self, alloc: Global, context: &Context, server: &mut ScriptedServer) -> Words;
}

/// A context whose requests wait for 200 nanoseconds.
pub(crate) fn context<R: Wait>(
    rt: &R,
    alloc: Global,
    prefix: &str,
) -> Result<Context, OutOfMemory> {
    let mut context = Context::with_prefix(rt, alloc, prefix)?;
    context.set_timeout(200);
    Ok(context)
}

fn checked_outcome<C: ContextCase>(
    alloc: Global,
    context: &Context,
    call: C,
    script: &[(Asked, Reply)],
    server: &mut ScriptedServer,
) -> Words {
    let text = call.outcome_text(alloc, context, server)?;
    asked_word(alloc, text, has_asked(server.link().sent(), script))
}

// What a call comes to over a server that answers so. Where it asks anything else, that is told too.
fn outcome<C: ContextCase>(
    alloc: Global,
    context: &Context,
    call: C,
    script: &[(Asked, Reply)],
) -> Words {
    let mut server = serving(alloc, script)?;
    let words = checked_outcome(alloc, context, call, script, &mut server);
    drop(server);
    words
}

/// A call, what it asks and is replied, and what it comes to.
pub(crate) type Row<C> = (C, &'static [(Asked, Reply)], &'static str);

/// Asserts what calls of a context come to.
pub(crate) fn says_each<C: ContextCase>(
    rt: &impl Abort,
    alloc: Global,
    context: &Context,
    rows: &[Row<C>],
) {
    for &(call, script, wanted) in rows {
        says(rt, wanted, outcome(alloc, context, call, script), wanted);
    }
}
