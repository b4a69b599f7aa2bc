//! An API call: one request, and what its reply means.
ghost use Rattle.std.specs.Prelude.{◌≡◌, Result};
ghost use Rattle.js_base.specs.declared.error.Error.{Error};
ghost use Rattle.js_base.specs.declared.turn.Turn.{Turn};
ghost use Rattle.js_call.specs.Call.{calling, Fails, Polled, Reads, Turns};
ghost use Rattle.js_call.specs.Wakes.{call_waits_for, stage_waits_for};

use crate::api_call::ApiCall;
use crate::error::RequestError;
use crate::failure::Failure;
use crate::open_request::OpenRequest;
use crate::raw_call::RawCall;
use crate::state::State;
use js_base::{Message, Moment, OutOfMemory, Turn};
use js_json_members::ReadError;
use js_link::Link;
use std::alloc::Global;

/// An API call under way. The first poll sends its request.
///
/// If the arguments are invalid, the first poll returns the error and sends nothing. If memory runs
/// out while a reply is read or a failure's text is made, the call keeps the reply or the failure,
/// and the next poll tries again.
#[derive(Drop)]
#[must_use = "a call is sent by its first poll"]
pub struct Call<M> {
    pub(crate) api_call: M,
    pub(crate) stage: Stage,
}

/// How far a call has come.
#[derive(Drop)]
pub(crate) enum Stage {
    Asking(RawCall),
    /// The reply has arrived and is not read yet.
    Answered(Message),
    /// The call has failed, and has not returned the failure yet.
    Failed(Failure),
}

impl Stage {
    // The request whose answer it waits for.
    fn waits_for(&self) -> Option<OpenRequest>
        ensures { result ≡ stage_waits_for self.now }
    {
        match self {
            Stage::Asking(asked) => asked.waits_for(),
            Stage::Answered(_) => None,
            Stage::Failed(_) => None,
        }
    }
}

impl<M: ApiCall> Call<M> {
    /// Makes a call that sends this request.
    pub fn new(api_call: M, asked: RawCall) -> Call<M>
        ensures { result ≡ calling api_call asked }
    {
        Call {
            api_call,
            stage: Stage::Asking(asked),
        }
    }
}

// Tells a failure, which is kept where memory runs out.
fn fail<M: ApiCall>(alloc: Global, api_call: M, failure: Failure) -> Turn<Call<M>, M::Answer>
    ensures { Fails M.table api_call failure result }
{
    match failure.to_source(alloc) {
        Ok(source) => Turn::Ready(api_call.failure(failure, source)),
        Err(OutOfMemory) => Turn::OutOfMemory(Call {
            api_call,
            stage: Stage::Failed(failure),
        }),
    }
}

// Reads a reply, which is kept where memory runs out.
fn read<M: ApiCall>(alloc: Global, api_call: M, message: Message) -> Turn<Call<M>, M::Answer>
    ensures { Reads M.table api_call message result }
{
    match M::read(alloc, message.payload.as_slice()) {
        Ok(reply) => {
            drop(message);
            Turn::Ready(api_call.answer(reply))
        }
        Err(ReadError::OutOfMemory) => Turn::OutOfMemory(Call {
            api_call,
            stage: Stage::Answered(message),
        }),
        Err(fault) => {
            drop(message);
            fail(alloc, api_call, Failure::Read(fault))
        }
    }
}

// What the call answers to what its request does.
fn turn<M: ApiCall>(
    alloc: Global,
    api_call: M,
    asked: Turn<RawCall, Result<Message, RequestError>>,
) -> Turn<Call<M>, M::Answer>
    ensures { Turns M.table api_call asked result }
{
    match asked {
        Turn::Pending(asked) => Turn::Pending(Call::new(api_call, asked)),
        Turn::OutOfMemory(asked) => Turn::OutOfMemory(Call::new(api_call, asked)),
        Turn::Ready(Ok(message)) => read(alloc, api_call, message),
        Turn::Ready(Err(error)) => {
            let kind = *error.kind();
            drop(error);
            fail(alloc, api_call, Failure::Request(kind))
        }
    }
}

impl<M: ApiCall> State for Call<M> {
    type Answer = M::Answer;

    ghost polled = { Polled M.table };

    ghost waits_for = { call_waits_for M.table };

    fn waits_for(&self) -> Option<OpenRequest> {
        match self.api_call.refusal() {
            Some(_) => None,
            None => self.stage.waits_for(),
        }
    }

    fn poll<L: Link>(self, alloc: Global, link: &mut L, now: Moment) -> Turn<Self, Self::Answer> {
        if let Some(answer) = self.api_call.refusal() {
            drop(self);
            return Turn::Ready(answer);
        }
        let Call { api_call, stage } = self;
        match stage {
            Stage::Answered(message) => read(alloc, api_call, message),
            Stage::Failed(failure) => fail(alloc, api_call, failure),
            Stage::Asking(asked) => {
                let asked = asked.poll(alloc, link, now);
                turn(alloc, api_call, asked)
            }
        }
    }
}
