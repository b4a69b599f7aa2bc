//! The command `consume --record`: the messages of a stream, and a file of what their reader met.

ghost use Rattle.std.specs.Prelude.{◌≡◌, [], IfOk, OnOk};
ghost use Rattle.js_pipe_record.specs.FirstLine.{IsFirstLine};

use crate::file_recorder::FileRecorder;
use crate::first_line::{FirstLine, Surroundings};
use js_base::{Nanos, OutOfMemory, Text, both};
use js_json::consumer::FromConsumer;
use js_link::{InboxId, Link};
use js_ordered_table::OrderedSetup;
use js_pipe::{Failure, Options, Session, tell, told};
use js_pipe_consume::{Reading, create, fresh_subject, pull_config, push_config, read_and_close};
use js_readers::pull::message_timeout;
use js_tool_io::Sink;
use js_tool_transcript::Setup;
use std::alloc::Global;
use std::sync::Wait;
use std::time::Clock;

/// The subjects of a reader's inboxes.
#[derive(Drop)]
struct InboxNames {
    /// What all of them begin with.
    prefix: Text,
    /// The first of them.
    first: Text,
}

/// A consumer that was created, and is to be read.
#[derive(Drop)]
struct Begun {
    first: FirstLine,
    /// The inbox to which its messages come.
    inbox: InboxId,
    /// How long a double ack of its messages waits, in nanoseconds.
    timeout: Nanos,
}

fn first_inbox(alloc: Global, prefix: &str) -> Result<Text, OutOfMemory> {
    Ok(Text::from(format!(in alloc; "{prefix}.0")?))
}

// Subjects that nobody else uses.
fn inbox_names<R: Eprint>(
    rt: &R,
    alloc: Global,
    session: &mut Session,
) -> Result<InboxNames, Failure> {
    let subject = fresh_subject(rt, alloc, session)?;
    let prefix = Text::from_str(alloc, subject.as_str());
    let first = first_inbox(alloc, subject.as_str());
    drop(subject);
    let (prefix, first) = both(prefix, first)?;
    Ok(InboxNames { prefix, first })
}

// The subject to which the messages of the first consumer come.
fn first_subject<'a>(setup: &'a Setup, inboxes: &'a InboxNames) -> &'a str {
    match &setup.setup {
        OrderedSetup::Pull(_) => inboxes.first.as_str(),
        OrderedSetup::Push(_) => match &setup.first.config.deliver_subject {
            Some(subject) => subject.as_str(),
            None => inboxes.first.as_str(),
        },
    }
}

// Creates the consumer, and makes the first line of it.
fn created<C: FromConsumer, R: Clock + Wait + Eprint>(
    rt: &R,
    alloc: Global,
    session: &mut Session,
    config: C,
    options: &Options<'_>,
    inboxes: &InboxNames,
) -> Result<(FirstLine, Nanos), Failure>
    ensures { IfOk result (λ made. IsFirstLine made.0.line.items made.0.setup) }
{
    let consumer = create(rt, alloc, session, config, options.name)?;
    let (consumer, start) = both(Ok(consumer), session.now(rt))?;
    let timeout = message_timeout(&consumer.scope);
    let around = Surroundings {
        is_push: options.is_push,
        start,
        inbox_prefix: &inboxes.prefix,
        request_timeout: session.link().request_timeout(),
    };
    let first = FirstLine::new(alloc, around, &consumer.scope, &consumer.info);
    drop(consumer);
    match first {
        Ok(first) => Ok((first, timeout)),
        Err(Failure::Refused) => {
            let why = "this consumer can't be recorded";
            Err(tell(rt, &why, Failure::Refused))
        }
        Err(failure) => Err(failure),
    }
}

// The same by the kind of consumer that the words ask for.
fn first_line<R: Clock + Wait + Eprint>(
    rt: &R,
    alloc: Global,
    session: &mut Session,
    options: &Options<'_>,
    inboxes: &InboxNames,
) -> Result<(FirstLine, Nanos), Failure>
    ensures { IfOk result (λ made. IsFirstLine made.0.line.items made.0.setup) }
{
    if options.is_push {
        let config = push_config(alloc, inboxes.first.as_str(), options)?;
        return created(rt, alloc, session, config, options, inboxes);
    }
    let config = pull_config(alloc, options)?;
    created(rt, alloc, session, config, options, inboxes)
}

// Creates the consumer that the words ask for, and opens its inbox.
fn begin<R: Clock + Wait + Eprint>(
    rt: &R,
    alloc: Global,
    session: &mut Session,
    options: &Options<'_>,
) -> Result<Begun, Failure>
    ensures { IfOk result (λ begun. IsFirstLine begun.first.line.items begun.first.setup) }
{
    let inboxes = inbox_names(rt, alloc, session)?;
    let made = first_line(rt, alloc, session, options, &inboxes);
    let (made, inboxes) = both(made, Ok(inboxes))?;
    let (first, timeout) = made;
    let subject = first_subject(first.setup.get(), &inboxes);
    let inbox = session.link().subscribe(alloc, subject, None);
    drop(inboxes);
    let (first, inbox) = both(Ok(first), told(rt, inbox, Failure::Refused))?;
    Ok(Begun {
        first,
        inbox,
        timeout,
    })
}

// Reads, and records what is met.
fn read_recorded<R: Clock + Wait + Eprint, F: Sink + Drop, K: Sink>(
    rt: &R,
    alloc: Global,
    session: &mut Session,
    begun: &Begun,
    sink: F,
    reading: &mut Reading,
    output: &mut K,
) -> Result<(), Failure>
    ensures all { OnOk result (reading.new.left ≡ 0) }
    ensures empty { OnOk result (reading.new.page.items ≡ []) }
    ensures written { OnOk result (reading.new.written ≡ reading.new.last) }
{
    let reader = FileRecorder::open(rt, alloc, &begun.first, begun.inbox, begun.timeout, sink)?;
    read_and_close(rt, alloc, session, reader, reading, output)
}

/// Reads the messages that the words ask for, and writes a line for each, as `consume` of
/// js_pipe_consume does; and writes to the sink what its reader met, as `wilfjodi rerun` reads it.
/// What a line came of is recorded before the line is written.
///
/// # Errors
///
/// Fails as `consume` does; with `Refused` too if the consumer can't be recorded; and with
/// `Unrecorded` if all was read and written, but the recording is not whole. A fault of the sink
/// ends the recording, and is told on standard error; the reader goes on.
pub fn consume_recorded<R: Clock + Wait + Eprint, F: Sink + Drop, K: Sink>(
    rt: &R,
    alloc: Global,
    session: &mut Session,
    options: &Options<'_>,
    sink: F,
    reading: &mut Reading,
    output: &mut K,
) -> Result<(), Failure>
    ensures all { OnOk result (reading.new.left ≡ 0) }
    ensures empty { OnOk result (reading.new.page.items ≡ []) }
    ensures written { OnOk result (reading.new.written ≡ reading.new.last) }
{
    match begin(rt, alloc, session, options) {
        Ok(begun) => {
            let ended = read_recorded(rt, alloc, session, &begun, sink, reading, output);
            drop(begun);
            ended
        }
        Err(failure) => {
            drop(sink);
            Err(failure)
        }
    }
}
