//! A context: where its requests go, its share of the permit window, and its detached acks.
ghost use Rattle.std.specs.Prelude.{◌≡◌, ◌+◌, ◌<◌, ◌≤◌, ◌^◌, ℕ, OnErr, IfOk, List, Some, IsSome, ◌↔◌, codes, length, take, drop, [], ◌∷◌, ◌++◌};
ghost use Rattle.std.specs.Arc.{arc_value};
ghost use Rattle.js_window.specs.Caller.{Makes, held};
ghost use Rattle.js_window.specs.declared.history.Call.TheVariants.{AllFree, Give};
ghost use Rattle.js_call_streams.specs.SourceDomains.{domain_prefix};
ghost use Rattle.js_base.specs.Clock.{has_come};
ghost use Rattle.js_context.specs.Context.{GivesBack, IsNew, IsUsual, SplitsOff, Takes, timeout_of};
ghost use Rattle.js_context.specs.DetachedAcks.{GivesIf, clocked_ack, stays};
ghost use Rattle.js_context.specs.AckWait.{Settles};
ghost use Rattle.js_context.specs.AckTimers.{is_one_due};
ghost use Rattle.js_context.specs.declared.context.Detached.{Detached};

use crate::ack_timers::clock_end;
use crate::builder::ContextBuilder;
use js_base::{Moment, Nanos, OutOfMemory, TryClone, earlier};
use js_call::{ApiScope, OpenRequest};
use js_link::RequestId;
use js_window::{Pass, Permit, Take, Window};
use std::alloc::Global;
use std::collections::VecDeque;
use std::marker::Model;
use std::snapshot::Snapshot;
use std::sync::{Arc, Wait};
use std::thread::yield_now;

/// How a context publishes.
#[derive(Clone, Copy, Debug)]
pub(crate) struct Settings {
    /// How long a detached ack keeps its permit without an answer, in nanoseconds, counted from the
    /// first `reap` that looks at it.
    pub(crate) ack_timeout: Nanos,
    /// Whether a publish waits if no permit is free. If not, it fails.
    pub(crate) backpressure: bool,
    /// How many detached acks a `reap` looks at. `None` and 0 set no limit.
    pub(crate) concurrency_limit: Option<u64>,
}

/// An ack that nobody awaits.
#[derive(Drop)]
pub(crate) struct Detached {
    pub(crate) request: RequestId,
    pub(crate) permit: Permit,
    /// The window that gave the permit, for contracts alone.
    pub(crate) window: Snapshot<Window>,
    /// When its clock began: at the first `reap` that looked at it.
    pub(crate) since: Option<Moment>,
}

/// The client side of JetStream: it makes requests, and publishes under a window of permits that
/// other contexts in any thread may share.
///
/// Each permit that it took is held by an awaited ack, is in the list of its detached acks, or was
/// given back. If you drop the context, the permits of its detached acks are never free again, and
/// you can no longer poll or detach its awaited acks.
#[derive(Drop)]
pub struct Context {
    scope: ApiScope,
    window: Arc<Window, Global>,
    pass: Pass,
    awaited: usize,
    detached: VecDeque<Detached, Global>,
    settings: Settings,
}

impl Model for Context {
    ghost use Rattle.js_context.specs.Context.{ContextView, IsContext};

    ghost Value = { ContextView };

    ghost view = { λ c. record { scope = c.scope; pass = c.pass; awaited = c.awaited; detached = c.detached.items; settings = c.settings } };

    ghost invariant = { λ c. IsContext c.window c.pass c.awaited c.detached };
}

// A window of so many permits, all free, that contexts may share, with its first pass.
fn shared_window<R: Wait>(
    rt: &R,
    alloc: Global,
    capacity: u64,
) -> Result<(Arc<Window, Global>, Pass), OutOfMemory>
    requires least { 0 < capacity }
    requires most { capacity < 2 ^ 32 }
    ensures capacity { IfOk result (λ made. made.1.window.capacity ≡ capacity) }
    ensures own { IfOk result (λ made. made.1.window ≡ arc_value made.0) }
    ensures seen { IfOk result (λ made. made.1.seen ≡ []) }
    ensures mine { IfOk result (λ made. (made.1.mine ≡ []) × (held made.1 ≡ 0)) }
{
    let (window, pass) = Window::new(rt, alloc, capacity)?;
    match Arc::new(alloc, window) {
        Ok(window) => Ok((window, pass)),
        Err(_) => {
            drop(pass);
            Err(OutOfMemory)
        }
    }
}

impl Context {
    /// Creates a context with the prefix `$JS.API` and the defaults of [`ContextBuilder::new`].
    /// Fails only with `OutOfMemory`.
    pub fn new<R: Wait>(rt: &R, alloc: Global) -> Result<Context, OutOfMemory>
        ensures { IfOk result (λ context. IsUsual (codes "$JS.API") context) }
    {
        ContextBuilder::new(alloc)?.open(rt, alloc)
    }

    /// Creates a context for a domain: its prefix is `$JS.{domain}.API`, all else is as in `new`.
    /// Fails only with `OutOfMemory`.
    pub fn with_domain<R: Wait>(rt: &R, alloc: Global, domain: &str) -> Result<Context, OutOfMemory>
        ensures { IfOk result (λ context. IsUsual (domain_prefix domain.now) context) }
    {
        ContextBuilder::new(alloc)?
            .domain(alloc, domain)?
            .open(rt, alloc)
    }

    /// Creates a context with this prefix; all else is as in `new`. Fails only with `OutOfMemory`.
    pub fn with_prefix<R: Wait>(rt: &R, alloc: Global, prefix: &str) -> Result<Context, OutOfMemory>
        ensures { IfOk result (λ context. IsUsual prefix.now context) }
    {
        ContextBuilder::new(alloc)?
            .api_prefix(alloc, prefix)?
            .open(rt, alloc)
    }

    /// Creates a context with a window of 1 to `u32::MAX` permits, all free. Fails only with
    /// `OutOfMemory`.
    pub(crate) fn open<R: Wait>(
        rt: &R,
        alloc: Global,
        scope: ApiScope,
        capacity: u64,
        settings: Settings,
    ) -> Result<Context, OutOfMemory>
        requires least { 0 < capacity }
        requires most { capacity < 2 ^ 32 }
        ensures { IfOk result (λ context. IsNew scope capacity settings context) }
    {
        match shared_window(rt, alloc, capacity) {
            Ok((window, pass)) => Ok(Context {
                scope,
                window,
                pass,
                awaited: 0,
                detached: VecDeque::new(alloc),
                settings,
            }),
            Err(OutOfMemory) => {
                drop(scope);
                Err(OutOfMemory)
            }
        }
    }

    /// Creates another context with the same scope and settings that shares the same permits. It
    /// starts without acks of its own. Fails only with `OutOfMemory`.
    pub fn split<R: Wait>(&mut self, rt: &R, alloc: Global) -> Result<Context, OutOfMemory>
        ensures same { self.new ≡ self.old }
        ensures other { IfOk result (λ context. SplitsOff self.old context) }
    {
        let scope = self.scope.try_clone()?;
        let window = Arc::try_clone(&self.window)?;
        let pass = window.split(rt, &mut self.pass);
        Ok(Context {
            scope,
            window,
            pass,
            awaited: 0,
            detached: VecDeque::new(alloc),
            settings: self.settings,
        })
    }

    /// Returns where its requests go, and how long to wait for their answers.
    pub fn scope(&self) -> &ApiScope
        ensures { result.now ≡ self.now.scope }
    {
        &self.scope
    }

    /// Sets how long to wait for an answer, in nanoseconds. It applies to requests made from now
    /// on, and to acks first polled from now on. An ack that was polled before keeps the wait of
    /// its first poll.
    pub fn set_timeout(&mut self, timeout: Nanos)
        ensures { self.new ≡ record self.old { scope = record self.old.scope { timeout = Some timeout } } }
    {
        self.scope.timeout = Some(timeout);
    }

    /// Returns how long an ack is awaited from its first poll, in nanoseconds: the timeout if one
    /// was set, otherwise five seconds.
    pub fn timeout(&self) -> Nanos
        ensures { result ≡ timeout_of self.now.scope.timeout }
    {
        match self.scope.timeout {
            Some(timeout) => timeout,
            None => 5_000_000_000,
        }
    }

    pub(crate) fn settings(&self) -> Settings
        ensures { result ≡ self.now.settings }
    {
        self.settings
    }

    /// Returns how many permits its window has. Other contexts may share them.
    pub fn max_ack_inflight(&self) -> u64
        ensures { result ≡ self.now.pass.window.capacity }
    {
        self.window.capacity()
    }

    /// Returns how many acks are awaited: the permits that this context holds, minus its detached
    /// acks.
    pub fn awaited(&self) -> u64
        ensures awaited { result ≡ self.now.awaited }
        ensures held { result + length self.now.detached ≡ held self.now.pass }
    {
        self.awaited as u64
    }

    /// Returns how many acks are detached.
    pub fn detached_len(&self) -> usize
        ensures { result ≡ length self.now.detached }
    {
        self.detached.len()
    }

    /// Returns the first moment at which a `reap` that looks at all detached acks ends one by its
    /// clock. Returns `None` if no clock has begun, or if each would end past `u64::MAX`. The clock
    /// of an ack begins at the first `reap` that looks at it.
    pub fn wakes_at(&self) -> Option<Moment>
        ensures { (now : ℕ) → now < 2 ^ 64 → has_come result now ≡ is_one_due self.now.settings.ack_timeout now self.now.detached }
    {
        let mut first = None;
        for ack in &self.detached {
            first = earlier(first, clock_end(ack.since, self.settings.ack_timeout));
        }
        first
    }

    /// Returns whether all permits of the window are free, including those that other contexts
    /// took.
    pub fn acks_settled<R: Wait>(&mut self, rt: &R) -> bool
        ensures call { Makes (AllFree result) self.old.pass self.new.pass }
        ensures same { self.new ≡ record self.old { pass = self.new.pass } }
    {
        self.window.all_free(rt, &mut self.pass)
    }

    /// Blocks until all permits of the window are free. The caller must have no awaited and no
    /// detached ack, so it waits only for others.
    pub fn wait_for_acks<R: Wait>(&mut self, rt: &R)
        requires awaited { self.old.awaited ≡ 0 }
        requires detached { length self.old.detached ≡ 0 }
        ensures settles { Settles self.old.pass self.new.pass }
        ensures same { self.new ≡ record self.old { pass = self.new.pass } }
    {
        for _ in rt.forever() {
            if self.acks_settled(rt) {
                return;
            }
            yield_now();
        }
        unreachable!()
    }

    /// Takes a permit for an ack that will be awaited, after making room to detach it. Returns
    /// `None` if no permit is free.
    pub(crate) fn take<R: Wait>(&mut self, rt: &R) -> Result<Option<Permit>, OutOfMemory>
        ensures err { OnErr result (self.new ≡ self.old) }
        ensures ok { IfOk result (λ taken. Takes taken self.old self.new) }
    {
        // Each ack that is awaited keeps a place in the list, so that `detach` needs no memory.
        let more = self.awaited + 1;
        self.detached.reserve(more)?;
        match self.window.take(rt, &mut self.pass) {
            Take::Got(permit) => {
                self.awaited = more;
                Ok(Some(permit))
            }
            Take::Full => Ok(None),
        }
    }

    /// The window of its permits, for contracts alone.
    pub(crate) fn window(&self) -> Snapshot<Window>
        ensures { result.value ≡ self.now.pass.window }
    {
        Snapshot::of(&self.window)
    }

    /// Gives back the permit of an ack that was awaited.
    pub(crate) fn give<R: Wait>(&mut self, rt: &R, permit: Permit)
        requires permit { permit ≡ self.old.pass.number }
        requires awaited { 0 < self.old.awaited }
        ensures { GivesBack self.old self.new }
    {
        self.window.give(rt, &mut self.pass, permit);
        self.awaited -= 1;
    }

    /// Moves an awaited ack to the detached acks.
    pub(crate) fn detach(&mut self, ack: Detached)
        requires window { ack.window.value ≡ self.old.pass.window }
        requires permit { ack.permit ≡ self.old.pass.number }
        requires awaited { 0 < self.old.awaited }
        ensures awaited { self.new.awaited + 1 ≡ self.old.awaited }
        ensures list { self.new ≡ record self.old { awaited = self.new.awaited; detached = self.old.detached ++ ack ∷ [] } }
    {
        self.awaited -= 1;
        self.detached.push_back_reserved(ack);
    }

    /// Returns the request of the first detached ack with its clock. The clock begins now if it has
    /// not begun.
    pub(crate) fn first_detached(&self, now: Moment) -> Option<OpenRequest>
        ensures some { IsSome result ↔ (0 < length self.now.detached) }
        ensures first { (ack : Detached) (after : List Detached) → self.now.detached ≡ ack ∷ after → result ≡ Some (clocked_ack ack now self.now.settings.ack_timeout) }
    {
        let ack = self.detached.front()?;
        Some(OpenRequest {
            request: ack.request,
            since: ack.since.unwrap_or(now),
            timeout: Some(self.settings.ack_timeout),
        })
    }

    // The clock of the first detached ack has begun. It goes behind the others.
    fn keep_first(&mut self, since: Moment)
        ensures pass { self.new.pass ≡ self.old.pass }
        ensures list { (ack : Detached) (after : List Detached) → self.old.detached ≡ ack ∷ after → self.new ≡ record self.old { detached = after ++ record ack { since = Some since } ∷ [] } }
    {
        if let Some(mut first) = self.detached.pop_front() {
            first.since = Some(since);
            self.detached.push_back_reserved(first);
        }
    }

    // The first detached ack is no more, and its permit is given back.
    fn settle_first<R: Wait>(&mut self, rt: &R)
        requires { 0 < length self.old.detached }
        ensures makes { Makes Give self.old.pass self.new.pass }
        ensures list { (ack : Detached) (after : List Detached) → self.old.detached ≡ ack ∷ after → self.new ≡ record self.old { pass = self.new.pass; detached = after } }
    {
        if let Some(ack) = self.detached.pop_front() {
            self.window.give(rt, &mut self.pass, ack.permit);
        }
    }

    /// Removes the first detached ack if it is settled, or else moves it behind the others with its
    /// clock's start.
    pub(crate) fn settle_or_keep<R: Wait>(&mut self, rt: &R, settled: bool, since: Moment)
        requires { 0 < length self.old.detached }
        ensures gives { GivesIf settled self.old.pass self.new.pass }
        ensures list { (ack : Detached) (after : List Detached) → self.old.detached ≡ ack ∷ after → self.new ≡ record self.old { pass = self.new.pass; detached = after ++ stays settled since ack } }
    {
        if settled {
            self.settle_first(rt);
        } else {
            self.keep_first(since);
        }
    }

    /// Moves this many of the first detached acks behind the others, in their order.
    pub(crate) fn turn_detached(&mut self, count: usize)
        requires { count ≤ length self.old.detached }
        ensures { self.new ≡ record self.old { detached = drop count self.old.detached ++ take count self.old.detached } }
    {
        self.detached.rotate_left(count);
    }
}
