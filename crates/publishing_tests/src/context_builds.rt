//! How contexts are built.

use crate::answers::{Answered, found_word};
use crate::tables::{same, says};
use calls_tests::{Words, numbered, printed};
use js_base::OutOfMemory;
use js_context::{BuildError, Context, ContextBuilder, No, ToAssign, Yes};
use std::alloc::Global;
use std::sync::Wait;

/// How a context is made.
#[derive(Clone, Copy)]
enum Made {
    New,
    Prefix(&'static str),
    Domain(&'static str),
    /// Built with that capacity.
    Capacity(u64),
    /// Built under that prefix.
    Built(&'static str),
    /// Built with all that can be set, for that domain.
    AllSet(&'static str),
}

fn built<R: Wait, P: ToAssign>(
    rt: &R,
    alloc: Global,
    builder: Result<ContextBuilder<P>, OutOfMemory>,
) -> Result<Context, BuildError> {
    match builder {
        Ok(builder) => builder.build(rt, alloc),
        Err(OutOfMemory) => Err(BuildError::OutOfMemory),
    }
}

fn with_capacity(alloc: Global, capacity: u64) -> Result<ContextBuilder<Yes>, OutOfMemory> {
    Ok(ContextBuilder::new(alloc)?.max_ack_inflight(capacity))
}

fn with_prefix(alloc: Global, prefix: &str) -> Result<ContextBuilder<No>, OutOfMemory> {
    ContextBuilder::new(alloc)?.api_prefix(alloc, prefix)
}

fn with_domain(alloc: Global, domain: &str) -> Result<ContextBuilder<No>, OutOfMemory> {
    ContextBuilder::new(alloc)?.timeout(3).domain(alloc, domain)
}

fn all_set(alloc: Global, domain: &str) -> Result<ContextBuilder<Yes>, OutOfMemory> {
    Ok(
        with_domain(alloc, domain)?
            .ack_timeout(4)
            .max_ack_inflight(5)
            .backpressure_on_inflight(false)
            .concurrency_limit(Some(6)),
    )
}

fn unless_memory(how: Result<Context, OutOfMemory>) -> Result<Context, BuildError> {
    match how {
        Ok(context) => Ok(context),
        Err(OutOfMemory) => Err(BuildError::OutOfMemory),
    }
}

fn of_prefix<R: Wait>(rt: &R, alloc: Global, prefix: &str) -> Result<Context, BuildError> {
    unless_memory(Context::with_prefix(rt, alloc, prefix))
}

fn of_domain<R: Wait>(rt: &R, alloc: Global, domain: &str) -> Result<Context, BuildError> {
    unless_memory(Context::with_domain(rt, alloc, domain))
}

fn of_capacity<R: Wait>(rt: &R, alloc: Global, capacity: u64) -> Result<Context, BuildError> {
    built(rt, alloc, with_capacity(alloc, capacity))
}

fn built_with_prefix<R: Wait>(rt: &R, alloc: Global, prefix: &str) -> Result<Context, BuildError> {
    built(rt, alloc, with_prefix(alloc, prefix))
}

fn built_with_all<R: Wait>(rt: &R, alloc: Global, domain: &str) -> Result<Context, BuildError> {
    built(rt, alloc, all_set(alloc, domain))
}

fn context_of<R: Wait>(rt: &R, alloc: Global, how: Made) -> Result<Context, BuildError> {
    match how {
        Made::New => unless_memory(Context::new(rt, alloc)),
        Made::Prefix(prefix) => of_prefix(rt, alloc, prefix),
        Made::Domain(domain) => of_domain(rt, alloc, domain),
        Made::Capacity(capacity) => of_capacity(rt, alloc, capacity),
        Made::Built(prefix) => built_with_prefix(rt, alloc, prefix),
        Made::AllSet(domain) => built_with_all(rt, alloc, domain),
    }
}

/// The prefix and the timeout.
impl Answered for Context {
    fn word(&self, alloc: Global) -> Words {
        numbered(alloc, self.scope().prefix.as_str(), self.timeout())
    }
}

// The prefix and the timeout of a context, or why it is not built.
fn made_word<R: Wait>(rt: &R, alloc: Global, how: Made) -> Words {
    found_word(alloc, context_of(rt, alloc, how))
}

const MADE: &[(Made, &str)] = &[
    (Made::New, "$JS.API 5000000000"),
    (Made::Prefix("api"), "api 5000000000"),
    (Made::Domain("hub"), "$JS.hub.API 5000000000"),
    (Made::Capacity(0), "capacity is zero"),
    (Made::Capacity(4_294_967_296), "capacity is too large"),
    (Made::Capacity(4_294_967_295), "$JS.API 5000000000"),
    (Made::Capacity(1), "$JS.API 5000000000"),
    (Made::Built("mine"), "mine 5000000000"),
    (Made::AllSet("hub"), "$JS.hub.API 3"),
];

// What a context of a domain tells whose timeout was set.
fn set<R: Wait>(rt: &R, alloc: Global) -> Words {
    let mut context = Context::with_domain(rt, alloc, "hub")?;
    context.set_timeout(7);
    let words = context.word(alloc);
    drop(context);
    words
}

#[test]
fn contexts_are_built(rt: HostRuntime) {
    for &(how, wanted) in MADE {
        says(&rt, wanted, made_word(&rt, rt.alloc(), how), wanted);
    }
    says(&rt, "set", set(&rt, rt.alloc()), "$JS.hub.API 7");
    let memory = printed(rt.alloc(), &BuildError::OutOfMemory);
    says(&rt, "memory", memory, "out of memory");
    same(&rt, "yes", Yes::default(), Yes);
    same(&rt, "no", No::default(), No);
}
