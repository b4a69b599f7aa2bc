//! The client side of JetStream: a [`Context`] holds where requests go and how long to wait for
//! answers, and makes all calls.
//!
//! Create a context with [`Context::new`] or a [`ContextBuilder`]. Each call returns a state; poll
//! it with a link and the current moment until it is ready.
//!
//! A context publishes under a window of permits. [`Context::split`] returns another context that
//! shares the window. A message takes a permit when it is sent ([`Sending`]), and its ack gives the
//! permit back. Each permit that a context took is held by a [`PublishAckFuture`], is in the list
//! of its detached acks, or was given back: this is the context's invariant. Detaching an ack needs
//! no memory, because the list keeps a place for it. The contract of each poll says what the poll
//! does to the permits.
#![tactic(auto)]

mod account;
mod ack_future;
mod ack_timers;
mod build_error;
mod builder;
mod consumers;
mod context;
mod detached_acks;
mod lists;
mod provider;
mod publish;
mod publish_error;
mod requests;
mod sending;
mod streams;

pub use ack_future::PublishAckFuture;
pub use build_error::BuildError;
pub use builder::{ContextBuilder, No, ToAssign, Yes};
pub use context::Context;
pub use provider::{ClientProvider, Publisher, RequestSender, Requester, TimeoutProvider};
pub use publish_error::{PublishError, PublishErrorKind};
pub use sending::{Attempt, Sending, try_to_send};
