//! Asking anew what the server knows of the consumer.

use crate::call_text::{Answered, turned};
use crate::server::consumer;
use calls_tests::{Words, word};
use js_base::OutOfMemory;
use js_call::State;
use js_call_consumers::{ConsumerCalls, InfoCall, PullConsumer, Reset};
use js_json::consumer::Info;
use js_json::pull::Config;
use js_link::MemoryLink;
use std::alloc::Global;
use std::fmt::Display;
use std::mem;

/// A call on the consumer that is under way.
#[derive(Drop)]
pub(crate) enum Renewal {
    Nothing,
    Asking(InfoCall<Config>),
    Resetting(Reset<Config>),
}

impl From<InfoCall<Config>> for Renewal {
    fn from(call: InfoCall<Config>) -> Renewal {
        Renewal::Asking(call)
    }
}

impl From<Reset<Config>> for Renewal {
    fn from(call: Reset<Config>) -> Renewal {
        Renewal::Resetting(call)
    }
}

/// How much is pending, as the server answers and as it stands in the cache.
impl<E: Display> Answered for (PullConsumer, Result<Info, E>) {
    fn word(&self, alloc: Global) -> Words {
        let cached = self.0.cached_info().num_pending;
        match &self.1 {
            Ok(info) => {
                let answered = info.num_pending;
                Ok(format!(in alloc; "ready: {answered} pending, {cached} in the cache")?)
            }
            Err(error) => Ok(format!(in alloc; "{error}; {cached} in the cache")?),
        }
    }
}

// A call that was begun takes the place of the one before.
fn begun<R: From<S> + Drop, S: Drop, E: Drop>(
    renewal: &mut R,
    begun: Result<S, E>,
) -> Result<(), OutOfMemory> {
    match begun {
        Ok(call) => {
            *renewal = R::from(call);
            Ok(())
        }
        Err(_) => Err(OutOfMemory),
    }
}

impl Renewal {
    /// Begins to ask the server what it knows of the consumer.
    pub(crate) fn info(&mut self, alloc: Global) -> Result<(), OutOfMemory> {
        begun(self, consumer(alloc)?.info(alloc))
    }

    /// Begins a reset of the consumer, to the sequence where one is named.
    pub(crate) fn reset(&mut self, alloc: Global, seq: Option<u64>) -> Result<(), OutOfMemory> {
        begun(self, consumer(alloc)?.reset(alloc, seq))
    }

    /// Polls the call, and tells what comes of it.
    pub(crate) fn poll(&mut self, alloc: Global, link: &mut MemoryLink) -> Words {
        match mem::replace(self, Renewal::Nothing) {
            Renewal::Nothing => word(alloc, "nothing"),
            Renewal::Asking(call) => turned(alloc, self, call.poll(alloc, link, 0)),
            Renewal::Resetting(call) => turned(alloc, self, call.poll(alloc, link, 0)),
        }
    }
}
