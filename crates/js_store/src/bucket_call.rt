//! Calls on a bucket, each of which makes a call on its stream or on the account.
ghost use Rattle.std.specs.Prelude.{◌≡◌, IfOk, Result};
ghost use Rattle.js_base.specs.declared.turn.Turn.{Turn};
ghost use Rattle.js_store.specs.BucketCall.{Row, answered, asking, bucket_waits_for, stage_waits_for, AnswersOf, Polled, TurnsTo};

use crate::to_source::ToSource;
use js_base::{Moment, OutOfMemory, Source, Turn};
use js_call::{OpenRequest, State};
use js_link::Link;
use std::alloc::Global;

/// How a call on a bucket turns the result or the error of the call that it makes into its own
/// answer.
///
/// The implementing type holds what the call keeps of its arguments. A `BucketCall` of it is the
/// state to poll.
pub trait BucketCallRow<X, E>: Drop {
    /// What must be built from the inner call's result before the call can return its answer.
    type Needs: Drop;

    /// The call's answer.
    type Answer: Drop;

    /// What the call does with its arguments and with the inner call's answer, for contracts.
    ghost table: { Row Self X E Self.Needs Self.Answer };

    /// Returns the error for invalid arguments, before anything is sent.
    fn refusal(&self) -> Option<Self::Answer>
        ensures { result ≡ table.refused self.now };

    /// Builds what the answer needs from the inner call's result. Fails only with `OutOfMemory`.
    fn needs(&self, alloc: Global, given: &X) -> Result<Self::Needs, OutOfMemory>
        ensures { IfOk result (λ needs. needs ≡ table.needs self.now given.now) };

    /// Returns the call's answer for the inner call's result.
    fn accept(self, given: X, needs: Self::Needs) -> Self::Answer
        ensures { result ≡ table.accepts self given needs };

    /// Returns the call's answer for the inner call's error. `source` is that error as a source.
    fn refuse(self, error: E, source: Source) -> Self::Answer
        ensures { result ≡ table.refuses self error source };
}

/// A call on a bucket in progress. It polls the call that it makes until that one has its answer.
///
/// Invalid arguments fail before anything is sent. If memory runs out while reading an answer, the
/// answer is kept for the next poll.
#[derive(Drop)]
#[must_use = "a call is sent by its first poll"]
pub struct BucketCall<S, X, E, M> {
    row: M,
    stage: Stage<S, X, E>,
}

/// How far the call has come.
#[derive(Drop)]
pub(crate) enum Stage<S, X, E> {
    Asking(S),
    /// The inner call has its answer, which is not returned yet.
    Answered(Result<X, E>),
}

impl<S: State, X, E> Stage<S, X, E> {
    // The request whose answer it waits for.
    fn waits_for(&self) -> Option<OpenRequest>
        ensures { result ≡ stage_waits_for S.waits_for self.now }
    {
        match self {
            Stage::Asking(asked) => asked.waits_for(),
            Stage::Answered(_) => None,
        }
    }
}

impl<S, X, E, M> BucketCall<S, X, E, M> {
    /// Creates a call that makes this one.
    pub(crate) fn new(row: M, asked: S) -> BucketCall<S, X, E, M>
        ensures { result ≡ asking row asked }
    {
        BucketCall {
            row,
            stage: Stage::Asking(asked),
        }
    }

    fn answered(row: M, given: Result<X, E>) -> BucketCall<S, X, E, M>
        ensures { result ≡ answered row given }
    {
        BucketCall {
            row,
            stage: Stage::Answered(given),
        }
    }
}

// Tells what the call that it stands on has answered, which is kept where memory runs out.
fn tell<S: Drop, X: Drop, E: ToSource, M: BucketCallRow<X, E>>(
    alloc: Global,
    row: M,
    given: Result<X, E>,
) -> Turn<BucketCall<S, X, E, M>, M::Answer>
    ensures { AnswersOf M.table E.told row given result }
{
    match given {
        Ok(given) => match row.needs(alloc, &given) {
            Ok(needs) => Turn::Ready(row.accept(given, needs)),
            Err(OutOfMemory) => Turn::OutOfMemory(BucketCall::answered(row, Ok(given))),
        },
        Err(error) => match error.to_source(alloc) {
            Ok(source) => Turn::Ready(row.refuse(error, source)),
            Err(OutOfMemory) => Turn::OutOfMemory(BucketCall::answered(row, Err(error))),
        },
    }
}

// What the call answers to what the call that it stands on does.
fn turn<S: Drop, X: Drop, E: ToSource, M: BucketCallRow<X, E>>(
    alloc: Global,
    row: M,
    asked: Turn<S, Result<X, E>>,
) -> Turn<BucketCall<S, X, E, M>, M::Answer>
    ensures { TurnsTo M.table E.told row asked result }
{
    match asked {
        Turn::Pending(asked) => Turn::Pending(BucketCall::new(row, asked)),
        Turn::OutOfMemory(asked) => Turn::OutOfMemory(BucketCall::new(row, asked)),
        Turn::Ready(given) => tell(alloc, row, given),
    }
}

impl<S: State<Answer = Result<X, E>>, X: Drop, E: ToSource, M: BucketCallRow<X, E>> State
    for BucketCall<S, X, E, M> {
    type Answer = M::Answer;

    ghost polled = { Polled M.table E.told S.polled };

    ghost waits_for = { bucket_waits_for M.table S.waits_for };

    fn waits_for(&self) -> Option<OpenRequest> {
        match self.row.refusal() {
            Some(_) => None,
            None => self.stage.waits_for(),
        }
    }

    fn poll<L: Link>(self, alloc: Global, link: &mut L, now: Moment) -> Turn<Self, Self::Answer> {
        if let Some(answer) = self.row.refusal() {
            drop(self);
            return Turn::Ready(answer);
        }
        let BucketCall { row, stage } = self;
        match stage {
            Stage::Answered(given) => tell(alloc, row, given),
            Stage::Asking(asked) => {
                let asked = asked.poll(alloc, link, now);
                turn(alloc, row, asked)
            }
        }
    }
}
