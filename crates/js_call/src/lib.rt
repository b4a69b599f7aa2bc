//! API requests over a link: a single request and its answer, and the calls built from requests.
//!
//! A request is a state. You pass it to `poll` with a link and a moment, and get it back until it
//! is ready. An API call is a request and the meaning of its reply: a type that implements
//! `ApiCall`, with its own contract. `Then` runs one call after another.
#![tactic(auto)]

mod api_call;
mod api_request;
mod call;
mod call_sequence;
mod error;
mod failure;
mod open_request;
mod raw_call;
mod raw_request;
mod scope;
mod send_request;
mod state;

pub use api_call::ApiCall;
pub use api_request::{ApiRequest, AskingValue};
pub use call::Call;
pub use call_sequence::{Decision, IfAbsent, Then};
pub use error::{RequestError, RequestErrorKind, SendError};
pub use failure::Failure;
pub use open_request::{OpenRequest, Shown};
pub use raw_call::{RawCall, has_no_responders};
pub use raw_request::RawRequest;
pub use scope::ApiScope;
pub use state::State;
