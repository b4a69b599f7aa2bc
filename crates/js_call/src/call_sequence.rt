//! Two calls, one after the other.
ghost use Rattle.std.specs.Prelude.{◌≡◌, Option};
ghost use Rattle.js_link.specs.LinkView.{LinkView};
ghost use Rattle.js_base.specs.declared.turn.Turn.{Turn};
ghost use Rattle.js_call.specs.CallSequence.{ThenPolled, SecondPolled, unless_absent};
ghost use Rattle.js_call.specs.Wakes.{then_waits_for, PendsOn, Sleeps};
ghost use Rattle.js_call.specs.declared.call_sequence.Then.TheVariants.{Second};

use crate::open_request::OpenRequest;
use crate::state::State;
use js_base::{Moment, Turn};
use js_link::Link;
use std::alloc::Global;

/// Decides whether the first call's answer is final.
pub trait Decision<A, B>: Drop {
    /// The final answer, or none if the second call follows.
    ghost decides: { Self → A → Option B };

    fn decide(self, first: A) -> Option<B>
        ensures { result ≡ decides self first };
}

/// Runs the second call if the first found nothing.
#[derive(Clone, Copy, Drop)]
pub struct IfAbsent;

impl<T: Drop, E: Drop> Decision<Result<Option<T>, E>, Result<T, E>> for IfAbsent {
    ghost decides = { λ _ first. unless_absent first };

    fn decide(self, first: Result<Option<T>, E>) -> Option<Result<T, E>> {
        match first {
            Ok(Some(found)) => Some(Ok(found)),
            Ok(None) => None,
            Err(error) => Some(Err(error)),
        }
    }
}

/// Two calls in sequence. If the first answer asks for it, the second call starts in the same poll.
#[derive(Drop)]
#[must_use = "a call is sent by its first poll"]
pub enum Then<A, B, D> {
    First { first: A, second: B, decision: D },
    Second(B),
}

impl<A: State, B: State, D: Decision<A::Answer, B::Answer>> State for Then<A, B, D> {
    type Answer = B::Answer;

    ghost polled = { ThenPolled A.polled B.polled D.decides };

    ghost waits_for = { then_waits_for A.waits_for B.waits_for };

    fn waits_for(&self) -> Option<OpenRequest> {
        match self {
            Then::First { first, .. } => first.waits_for(),
            Then::Second(second) => second.waits_for(),
        }
    }

    fn poll<L: Link>(self, alloc: Global, link: &mut L, now: Moment) -> Turn<Self, Self::Answer> {
        match self {
            Then::First {
                first,
                second,
                decision,
            } => match first.poll(alloc, link, now) {
                Turn::Pending(first) => Turn::Pending(Then::First {
                    first,
                    second,
                    decision,
                }),
                Turn::OutOfMemory(first) => Turn::OutOfMemory(Then::First {
                    first,
                    second,
                    decision,
                }),
                Turn::Ready(answer) => match decision.decide(answer) {
                    Some(answer) => Turn::Ready(answer),
                    None => poll_second(second, alloc, link, now),
                },
            },
            Then::Second(second) => poll_second(second, alloc, link, now),
        }
    }
}

fn poll_second<A: State, B: State, D: Drop, L: Link>(
    second: B,
    alloc: Global,
    link: &mut L,
    now: Moment,
) -> Turn<Then<A, B, D>, B::Answer>
    ensures polled { SecondPolled B.polled second now result (L.view link.old) (L.view link.new) }
    ensures sleeps { Sleeps (B.waits_for second) now (Second second) result (L.view link.old) (L.view link.new) }
    ensures pends { PendsOn (then_waits_for A.waits_for B.waits_for) result }
{
    match second.poll(alloc, link, now) {
        Turn::Pending(second) => Turn::Pending(Then::Second(second)),
        Turn::OutOfMemory(second) => Turn::OutOfMemory(Then::Second(second)),
        Turn::Ready(answer) => Turn::Ready(answer),
    }
}
