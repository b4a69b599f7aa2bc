//! Building a context.
ghost use Rattle.std.specs.Prelude.{◌≡◌, ◌<◌, ◌^◌, IfOk, Some, codes};
ghost use Rattle.js_call_streams.specs.SourceDomains.{domain_prefix as domain_prefix_in};
ghost use Rattle.js_context.specs.Builder.{Builds, IsBuilder, capacity_of, refusal_of, scope_of, settings_of};
ghost use Rattle.js_context.specs.Context.{IsNew, usual_scope, usual_settings};

use crate::build_error::BuildError;
use crate::context::{Context, Settings};
use js_base::{Nanos, OutOfMemory, Text};
use js_call::ApiScope;
use js_call_streams::domain_prefix;
use std::alloc::Global;
use std::sync::Wait;

/// Says whether a builder's prefix can be set: `Yes` or `No`.
pub trait ToAssign: Drop {}

/// The prefix can be set. `new` returns such a builder. So do `timeout`, `ack_timeout`,
/// `max_ack_inflight`, `backpressure_on_inflight` and `concurrency_limit`, even after the prefix
/// was set; a second prefix replaces the first.
#[derive(Clone, Copy, Debug, Default, PartialEq, Eq, Drop)]
pub struct Yes;

/// The prefix was just set. `api_prefix` and `domain` return such a builder; you can call neither
/// on it.
#[derive(Clone, Copy, Debug, Default, PartialEq, Eq, Drop)]
pub struct No;

impl ToAssign for Yes {}

impl ToAssign for No {}

/// Builds a [`Context`]: set its prefix, its timeouts and how it publishes, then call `build`.
#[derive(Debug, Drop)]
pub struct ContextBuilder<P> {
    pub(crate) scope: ApiScope,
    pub(crate) capacity: u64,
    pub(crate) settings: Settings,
    pub(crate) prefix_to_assign: P,
}

impl ContextBuilder<Yes> {
    /// Creates a builder with the defaults: the prefix `$JS.API`, no timeout, 5,000 permits, thirty
    /// seconds for a detached ack, publishes that wait for a permit, and no limit to the acks that
    /// a `reap` looks at. Fails only with `OutOfMemory`.
    pub fn new(alloc: Global) -> Result<ContextBuilder<Yes>, OutOfMemory>
        ensures { IfOk result (λ builder. IsBuilder builder (usual_scope (codes "$JS.API")) 5_000 usual_settings) }
    {
        Ok(ContextBuilder {
            scope: ApiScope {
                prefix: Text::from_str(alloc, "$JS.API")?,
                timeout: None,
            },
            capacity: 5_000,
            settings: Settings {
                ack_timeout: 30_000_000_000,
                backpressure: true,
                concurrency_limit: None,
            },
            prefix_to_assign: Yes,
        })
    }

    /// Sets what the subjects of the API begin with, before a dot. Fails only with `OutOfMemory`;
    /// the builder is then lost.
    pub fn api_prefix(self, alloc: Global, prefix: &str) -> Result<ContextBuilder<No>, OutOfMemory>
        ensures { IfOk result (λ builder. IsBuilder builder (record (scope_of self) { prefix = prefix.now }) (capacity_of self) (settings_of self)) }
    {
        let prefix = Text::from_str(alloc, prefix)?;
        Ok(self.with_prefix(prefix))
    }

    /// Sets the prefix of a domain, `$JS.{domain}.API`. Fails as `api_prefix` does.
    pub fn domain(self, alloc: Global, domain: &str) -> Result<ContextBuilder<No>, OutOfMemory>
        ensures { IfOk result (λ builder. IsBuilder builder (record (scope_of self) { prefix = domain_prefix_in domain.now }) (capacity_of self) (settings_of self)) }
    {
        let prefix = domain_prefix(alloc, domain)?;
        Ok(self.with_prefix(prefix))
    }

    fn with_prefix(self, prefix: Text) -> ContextBuilder<No>
        ensures { IsBuilder result (record (scope_of self) { prefix = prefix }) (capacity_of self) (settings_of self) }
    {
        ContextBuilder {
            scope: ApiScope {
                prefix,
                ..self.scope
            },
            capacity: self.capacity,
            settings: self.settings,
            prefix_to_assign: No,
        }
    }
}

// A builder of what is to be built with these.
fn to_build(scope: ApiScope, capacity: u64, settings: Settings) -> ContextBuilder<Yes>
    ensures { IsBuilder result scope capacity settings }
{
    ContextBuilder {
        scope,
        capacity,
        settings,
        prefix_to_assign: Yes,
    }
}

impl<P: ToAssign> ContextBuilder<P> {
    /// Sets how long to wait for an answer, in nanoseconds. If you set none, the connection
    /// decides, and an ack is awaited for five seconds.
    pub fn timeout(self, timeout: Nanos) -> ContextBuilder<Yes>
        ensures { IsBuilder result (record (scope_of self) { timeout = Some timeout }) (capacity_of self) (settings_of self) }
    {
        let scope = ApiScope {
            timeout: Some(timeout),
            ..self.scope
        };
        to_build(scope, self.capacity, self.settings)
    }

    /// Sets how long a detached ack keeps its permit without an answer, in nanoseconds, counted
    /// from the first `reap` that looks at it.
    pub fn ack_timeout(self, timeout: Nanos) -> ContextBuilder<Yes>
        ensures { IsBuilder result (scope_of self) (capacity_of self) (record (settings_of self) { ack_timeout = timeout }) }
    {
        let settings = Settings {
            ack_timeout: timeout,
            ..self.settings
        };
        to_build(self.scope, self.capacity, settings)
    }

    /// Sets the number of permits, 1 to `u32::MAX`: how many messages may be sent without their ack
    /// having come.
    pub fn max_ack_inflight(self, capacity: u64) -> ContextBuilder<Yes>
        ensures { IsBuilder result (scope_of self) capacity (settings_of self) }
    {
        to_build(self.scope, capacity, self.settings)
    }

    /// Sets whether a publish waits if no permit is free. If not, it fails with `MaxAckPending`.
    pub fn backpressure_on_inflight(self, enabled: bool) -> ContextBuilder<Yes>
        ensures { IsBuilder result (scope_of self) (capacity_of self) (record (settings_of self) { backpressure = enabled }) }
    {
        let settings = Settings {
            backpressure: enabled,
            ..self.settings
        };
        to_build(self.scope, self.capacity, settings)
    }

    /// Sets how many detached acks a `reap` looks at. `None` and 0 set no limit.
    pub fn concurrency_limit(self, limit: Option<u64>) -> ContextBuilder<Yes>
        ensures { IsBuilder result (scope_of self) (capacity_of self) (record (settings_of self) { concurrency_limit = limit }) }
    {
        let settings = Settings {
            concurrency_limit: limit,
            ..self.settings
        };
        to_build(self.scope, self.capacity, settings)
    }

    /// Builds the context, with a window of its own. Fails with `ZeroCapacity` if it would have no
    /// permit, with `CapacityTooLarge` if it would have more than `u32::MAX`, and with
    /// `OutOfMemory` if memory runs out.
    pub fn build<R: Wait>(self, rt: &R, alloc: Global) -> Result<Context, BuildError>
        ensures { Builds (refusal_of (capacity_of self)) result (scope_of self) (capacity_of self) (settings_of self) }
    {
        match refusal(self.capacity) {
            Some(error) => {
                drop(self);
                Err(error)
            }
            None => Ok(self.open(rt, alloc)?),
        }
    }

    /// Builds the context with 1 to `u32::MAX` permits. Fails only with `OutOfMemory`.
    pub(crate) fn open<R: Wait>(self, rt: &R, alloc: Global) -> Result<Context, OutOfMemory>
        requires least { 0 < capacity_of self }
        requires most { capacity_of self < 2 ^ 32 }
        ensures { IfOk result (λ context. IsNew (scope_of self) (capacity_of self) (settings_of self) context) }
    {
        let ContextBuilder {
            scope,
            capacity,
            settings,
            prefix_to_assign,
        } = self;
        drop(prefix_to_assign);
        Context::open(rt, alloc, scope, capacity, settings)
    }
}

fn refusal(capacity: u64) -> Option<BuildError>
    ensures { result ≡ refusal_of capacity }
{
    if capacity == 0 {
        Some(BuildError::ZeroCapacity)
    } else if capacity > u32::MAX as u64 {
        Some(BuildError::CapacityTooLarge)
    } else {
        None
    }
}
