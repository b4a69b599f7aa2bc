//! A consumer that is polled beside its replay.

use crate::polled::event::happen;
use crate::polled::shown::{is_handed, is_sent};
use js_base::{Moment, Next, both};
use js_call::ApiScope;
use js_call_consumers::Consumer;
use js_link::{MemoryLink, Sent};
use js_message::Message;
use js_ordered::{Event, OrderedSetup, Output, Run, Settings, Step};
use js_readers::ordered::{OrderedError, OrderedPullCalls, OrderedPushCalls, pull, push};
use js_tool_transcript::Setup;
use std::alloc::Global;
use std::slice::Iter;
use std::test::Fail;

/// An ordered consumer of either kind.
#[derive(Drop)]
enum Reader {
    Pull(pull::Ordered),
    Push(push::Ordered),
}

// The scope of a consumer with these settings. The link is told how long a request waits where the scope leaves that to it.
fn scope_of(link: &mut MemoryLink, settings: Settings) -> ApiScope {
    let Settings {
        api_prefix,
        inbox_prefix,
        context_timeout,
        request_timeout,
        retries: _,
        resilience: _,
    } = settings;
    drop(inbox_prefix);
    link.set_limits(u64::MAX, request_timeout);
    ApiScope {
        prefix: api_prefix,
        timeout: context_timeout,
    }
}

impl Reader {
    // Opens it by the call on its consumer.
    fn open(alloc: Global, link: &mut MemoryLink, setup: Setup) -> Result<Reader, Fail> {
        let Setup {
            settings,
            setup,
            first,
            start: _,
        } = setup;
        let scope = scope_of(link, settings);
        match setup {
            OrderedSetup::Pull(config) => {
                let consumer = Consumer::new(config, first, scope);
                Ok(Reader::Pull(consumer.messages(alloc, link)?))
            }
            OrderedSetup::Push(config) => {
                let consumer = Consumer::new(config, first, scope);
                Ok(Reader::Push(consumer.messages(alloc, link)?))
            }
        }
    }

    fn poll(
        &mut self,
        alloc: Global,
        link: &mut MemoryLink,
        now: Moment,
    ) -> Next<Result<Message, OrderedError>> {
        match self {
            Reader::Pull(reader) => reader.poll_next(alloc, link, now),
            Reader::Push(reader) => reader.poll_next(alloc, link, now),
        }
    }
}

// The next output but a recreation, of which a step has one at most.
fn next_shown<'a>(outputs: &mut Iter<'a, Output>) -> Option<&'a Output> {
    match outputs.next() {
        Some(Output::Recreate { .. }) => outputs.next(),
        output => output,
    }
}

// Whether what was sent since so much was is what is put out next.
fn has_sent(sent: &[Sent], before: usize, outputs: &mut Iter<'_, Output>) -> bool {
    for one in sent.iter().skip(before) {
        if !is_sent(one, next_shown(outputs)) {
            return false;
        }
    }
    true
}

// Whether what a poll hands out is what is put out next, or none where it is and another poll follows.
fn agreement(
    alloc: Global,
    next: &Next<Result<Message, OrderedError>>,
    outputs: &mut Iter<'_, Output>,
) -> Option<bool> {
    match next {
        Next::Item(item) if is_handed(alloc, item, next_shown(outputs)) => None,
        Next::Item(_) | Next::OutOfMemory => Some(false),
        _ => Some(next_shown(outputs).is_none()),
    }
}

/// A consumer over a link in memory, and whether it has ended.
#[derive(Drop)]
pub(crate) struct PolledConsumer {
    reader: Reader,
    link: MemoryLink,
    pub ended: bool,
}

impl PolledConsumer {
    /// A consumer of that setup.
    pub(crate) fn open(alloc: Global, setup: Setup) -> Result<PolledConsumer, Fail> {
        let link = MemoryLink::new(alloc, setup.settings.inbox_prefix.as_str());
        let (mut link, setup) = both(link, Ok(setup))?;
        match Reader::open(alloc, &mut link, setup) {
            Ok(reader) => Ok(PolledConsumer {
                reader,
                link,
                ended: false,
            }),
            Err(fault) => {
                drop(link);
                Err(fault)
            }
        }
    }

    // Whether polls until it waits or has ended do just what a step of the replay puts out.
    fn agrees(&mut self, alloc: Global, now: Moment, step: &Step) -> bool {
        let mut outputs = step.outputs.as_slice().iter();
        for _ in 0..u64::MAX {
            if let Some(agrees) = self.polled(alloc, now, &mut outputs) {
                return agrees;
            }
        }
        false
    }

    // Whether a poll does what is put out next, or none where it does and another poll follows.
    fn polled(
        &mut self,
        alloc: Global,
        now: Moment,
        outputs: &mut Iter<'_, Output>,
    ) -> Option<bool> {
        let before = self.link.sent().len();
        let next = self.reader.poll(alloc, &mut self.link, now);
        let agrees = self.compared(alloc, &next, before, outputs);
        drop(next);
        agrees
    }

    // The same of what was sent since so much was, and of what a poll hands out.
    fn compared(
        &mut self,
        alloc: Global,
        next: &Next<Result<Message, OrderedError>>,
        before: usize,
        outputs: &mut Iter<'_, Output>,
    ) -> Option<bool> {
        if !has_sent(self.link.sent(), before, outputs) {
            return Some(false);
        }
        self.ended = matches!(next, Next::End);
        agreement(alloc, next, outputs)
    }

    // Whether it does what the replay puts out for an event.
    fn meets(&mut self, alloc: Global, event: Event, step: &Step) -> bool {
        let Event { at, what } = event;
        happen(&mut self.link, what).is_ok() && self.agrees(alloc, at, step)
    }

    /// How many steps of a run it does too, the opening the first of them.
    pub(crate) fn count(
        &mut self,
        alloc: Global,
        start: Moment,
        events: Vec<Event>,
        run: &Run,
    ) -> u64 {
        let mut count = u64::from(self.agrees(alloc, start, &run.opening));
        for (event, step) in events.into_iter().zip(run.steps.as_slice()) {
            count = count.saturating_add(u64::from(self.meets(alloc, event, step)));
        }
        count
    }
}
