//! The consumers that are read, and how each is opened.

use js_base::{OutOfMemory, Subject, Text, both};
use js_call_consumers::Consumer;
use js_context::Context;
use js_json::consumer::{DeliverPolicy, FromConsumer};
use js_json::{pull as pull_bodies, push as push_bodies};
use js_link::Link;
use js_pipe::{Failure, Options, Session, told};
use js_readers::ordered::{OrderedPullCalls, OrderedPushCalls, Resilience, pull, push};
use std::alloc::Global;
use std::sync::Wait;
use std::time::Clock;

fn policy(start: Option<u64>) -> DeliverPolicy {
    match start {
        Some(start_sequence) => DeliverPolicy::ByStartSequence { start_sequence },
        None => DeliverPolicy::All,
    }
}

/// The configuration of a pull consumer that hands out what the words ask for.
pub fn pull_config(
    alloc: Global,
    options: &Options<'_>,
) -> Result<pull_bodies::OrderedConfig, OutOfMemory> {
    let filter = Text::from_str(alloc, options.filter.unwrap_or(""))?;
    let mut config = pull_bodies::OrderedConfig::new(alloc);
    config.deliver_policy = policy(options.start);
    config.filter_subject = filter;
    Ok(config)
}

/// The configuration of a push consumer that delivers to the subject what the words ask for.
pub fn push_config(
    alloc: Global,
    subject: &str,
    options: &Options<'_>,
) -> Result<push_bodies::OrderedConfig, OutOfMemory> {
    let filter = Text::from_str(alloc, options.filter.unwrap_or(""));
    let subject = Text::from_str(alloc, subject);
    let (filter, subject) = both(filter, subject)?;
    let mut config = push_bodies::OrderedConfig::new(alloc);
    config.deliver_policy = policy(options.start);
    config.filter_subject = filter;
    config.deliver_subject = subject;
    Ok(config)
}

/// A subject that nobody else uses.
pub fn fresh_subject<R: Eprint>(
    rt: &R,
    alloc: Global,
    session: &mut Session,
) -> Result<Subject, Failure> {
    let subject = session.link().fresh_subject(alloc);
    told(rt, subject, Failure::OutOfMemory)
}

/// Creates a consumer of a stream.
///
/// # Errors
///
/// `Refused` if the server does not create it; otherwise as `Session::turn`.
pub fn create<C: FromConsumer, R: Clock + Wait + Eprint>(
    rt: &R,
    alloc: Global,
    session: &mut Session,
    config: C,
    stream: &str,
) -> Result<Consumer<C>, Failure> {
    let context = Context::new(rt, alloc)?;
    let call = context.create_consumer_on_stream(alloc, config, stream);
    drop(context);
    let created = session.answer(rt, alloc, call?)?;
    told(rt, created, Failure::Refused)
}

/// Creates a pull consumer, and opens a reader of it.
///
/// # Errors
///
/// Fails as `create` does, and with `Refused` if its reader can't be opened.
pub fn open_pull<R: Clock + Wait + Eprint>(
    rt: &R,
    alloc: Global,
    session: &mut Session,
    options: &Options<'_>,
) -> Result<pull::Ordered, Failure> {
    let config = pull_config(alloc, options)?;
    let consumer = create(rt, alloc, session, config, options.name)?;
    let reader = OrderedPullCalls::messages_with(
        consumer,
        alloc,
        session.link(),
        Resilience::all(),
    );
    told(rt, reader, Failure::Refused)
}

/// Creates a push consumer, and opens a reader of it.
///
/// # Errors
///
/// Fails as `create` does, and with `Refused` if its reader can't be opened.
pub fn open_push<R: Clock + Wait + Eprint>(
    rt: &R,
    alloc: Global,
    session: &mut Session,
    options: &Options<'_>,
) -> Result<push::Ordered, Failure> {
    let subject = fresh_subject(rt, alloc, session)?;
    let config = push_config(alloc, subject.as_str(), options);
    drop(subject);
    let consumer = create(rt, alloc, session, config?, options.name)?;
    let reader = OrderedPushCalls::messages_with(
        consumer,
        alloc,
        session.link(),
        Resilience::all(),
    );
    told(rt, reader, Failure::Refused)
}
