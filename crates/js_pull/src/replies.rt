//! What a reader learns from the messages that it is sent: what an answer says, and which client is
//! pinned.
ghost use Rattle.std.specs.Prelude.{◌≡◌, true, Some, IfOk, OnErr, OnOk, option_map};
ghost use Rattle.std.specs.Option.{option_copied};
ghost use Rattle.js_base.specs.Headers.{all_headers, last_value};
ghost use Rattle.js_pull.specs.Reader as rows;
ghost use Rattle.js_pull.specs.Rows.{pin_brought};

use crate::reader::Reader;
use js_base::{Boxed, HeaderMap, Message, OutOfMemory, StatusCode, Text};
use js_codes::errors::{Error, ErrorCode};
use js_json::consumer::Info;
use js_json::{Response, response_as};
use js_json_members::ReadError;
use std::alloc::Global;

/// What the answer says to a request for a consumer's info, or to one that creates a consumer.
#[derive(Drop)]
pub enum InfoReply {
    /// It holds the consumer's info.
    Info(Boxed<Info>),
    /// It holds an error of the API, with this code.
    Error(ErrorCode),
    /// The replier is gone, the status is 503, or the payload reads as neither of both.
    Nothing,
}

/// What a reader learns from the answer to an info request.
#[derive(Clone, Copy)]
pub enum Finding {
    /// Nothing: the try has failed.
    Nothing,
    /// The consumer is there. With `reset`, no pull request waits at it.
    Found { reset: bool },
    /// The consumer is gone, or its stream.
    Gone,
}

fn is_unheard(status: Option<StatusCode>) -> bool
    ensures { result ≡ rows.is_unheard status }
{
    match status {
        None => false,
        Some(StatusCode(status)) => status == 503,
    }
}

fn boxed_info(alloc: Global, info: Info) -> Result<InfoReply, OutOfMemory>
    ensures { IfOk result (λ reply. reply ≡ InfoReply.Info info) }
{
    Ok(InfoReply::Info(Boxed::new(alloc, info)?))
}

// The code of an error that is let go.
fn error_reply(error: Error) -> InfoReply
    ensures { result ≡ InfoReply.Error error.err_code }
{
    let code = error.err_code;
    drop(error);
    InfoReply::Error(code)
}

// What a payload says.
fn payload_reply(alloc: Global, payload: &[u8]) -> Result<InfoReply, OutOfMemory>
    ensures { IfOk result (λ reply. reply ≡ rows.payload_reply payload.now) }
{
    match response_as::<Info>(alloc, payload) {
        Ok(Response::Ok(info)) => boxed_info(alloc, info),
        Ok(Response::Err { error }) => Ok(error_reply(error)),
        Err(ReadError::OutOfMemory) => Err(OutOfMemory),
        Err(
            ReadError::Missing { .. }
            | ReadError::WrongKind { .. }
            | ReadError::OutOfRange { .. }
            | ReadError::Float
            | ReadError::NotJson,
        ) => Ok(InfoReply::Nothing),
    }
}

/// Returns what an answer says. Fails with `OutOfMemory` if memory runs out.
pub fn info_reply(alloc: Global, reply: Option<&Message>) -> Result<InfoReply, OutOfMemory>
    ensures { IfOk result (λ says. says ≡ rows.info_reply (option_copied reply.entry)) }
{
    match reply {
        None => Ok(InfoReply::Nothing),
        Some(message) => {
            if is_unheard(message.status) {
                return Ok(InfoReply::Nothing);
            }
            payload_reply(alloc, message.payload.as_slice())
        }
    }
}

/// Returns the info that an answer holds. Returns `None` if the replier is gone, if the status is
/// 503, or if the payload is an error or does not read as an info. Fails with `OutOfMemory` if
/// memory runs out.
pub fn info_of_reply(alloc: Global, reply: Option<&Message>) -> Result<Option<Info>, OutOfMemory>
    ensures { IfOk result (λ info. info ≡ rows.info_of_reply (option_copied reply.entry)) }
{
    match info_reply(alloc, reply)? {
        InfoReply::Info(info) => Ok(Some(info.into_inner())),
        InfoReply::Error(_) => Ok(None),
        InfoReply::Nothing => Ok(None),
    }
}

// The pin that a message names.
fn named_pin(alloc: Global, headers: &Option<HeaderMap>) -> Result<Option<Text>, OutOfMemory>
    ensures { IfOk result (λ pin. pin ≡ last_value (rows.pin_header) (all_headers headers.now)) }
{
    match headers {
        None => Ok(None),
        Some(headers) => match headers.get_last("Nats-Pin-Id") {
            None => Ok(None),
            Some(pin) => Ok(Some(Text::from_str(alloc, pin)?)),
        },
    }
}

// The newer of two pins.
fn keep_newer(pin: &mut Option<Text>, named: Option<Text>)
    ensures { pin.new ≡ rows.newer named pin.old }
{
    match named {
        None => {}
        Some(named) => *pin = Some(named),
    }
}

/// Returns the pin that an arrival brings, if clients are pinned.
pub(crate) fn brought_pin(
    alloc: Global,
    pinned: bool,
    message: &Message,
) -> Result<Option<Text>, OutOfMemory>
    ensures { IfOk result (λ pin. pin ≡ pin_brought pinned (Some message.now)) }
{
    if !pinned {
        return Ok(None);
    }
    match message.status {
        None => named_pin(alloc, &message.headers),
        Some(StatusCode(200)) => named_pin(alloc, &message.headers),
        Some(_) => Ok(None),
    }
}

// The pin after an arrival that brings one. Status 423 says that another client is pinned.
fn keep_brought(pin: &mut Option<Text>, message: &Message, brought: Option<Text>)
    requires { brought ≡ pin_brought true (Some message.now) }
    ensures { pin.new ≡ rows.pin_after message.now message.now.status pin.old }
{
    match message.status {
        None => keep_newer(pin, brought),
        Some(StatusCode(200)) => keep_newer(pin, brought),
        Some(StatusCode(423)) => {
            drop(brought);
            *pin = None;
        }
        Some(_) => drop(brought),
    }
}

impl Reader {
    /// Keeps the pin that an arrival brings, if clients are pinned. Status 423 clears the pin.
    /// Takes no memory.
    pub(crate) fn keep_pin(&mut self, message: &Message, brought: Option<Text>)
        requires { brought ≡ pin_brought self.old.source.pinned (Some message.now) }
        ensures { self.new ≡ rows.with_pin message.now self.old }
    {
        if self.source.pinned {
            keep_brought(&mut self.pin, message, brought);
        } else {
            drop(brought);
            self.pin = None;
        }
    }

    /// Keeps the pin that an arrival names in its header `Nats-Pin-Id`, if clients are pinned.
    /// Status 423 clears the pin.
    ///
    /// # Errors
    ///
    /// Fails with `OutOfMemory` if memory runs out. The reader is unchanged then.
    pub fn note_pin(&mut self, alloc: Global, message: &Message) -> Result<(), OutOfMemory>
        ensures noted { OnOk result (self.new ≡ rows.with_pin message.now self.old) }
        ensures kept { OnErr result (self.new ≡ self.old) }
    {
        let brought = brought_pin(alloc, self.source.pinned, message)?;
        self.keep_pin(message, brought);
        Ok(())
    }
}
