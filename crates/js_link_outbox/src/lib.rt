//! The end of a connection that does no input or output itself: it says what to send, and is told
//! what came.
//!
//! An [`OutboxLink`] is the [`Link`](js_link::Link) over which this client's states are polled.
//! Whoever owns the real connection, the *adapter*, does three things, in any order and as often as
//! it likes:
//!
//! - It writes to the server what is to be sent: it takes each thing with
//!   [`OutboxLink::next_outgoing`], or reads it with [`OutboxLink::first_outgoing`] and takes it once
//!   it is written.
//! - It hands over what the server sent with [`OutboxLink::deliver`].
//! - It tells what it knows of the connection with [`OutboxLink::set_state`],
//!   [`OutboxLink::set_max_payload`] and [`OutboxLink::set_request_timeout`], and its end with
//!   [`OutboxLink::close`].
//!
//! The states are polled between these calls. Nothing in this crate waits, reads a clock, or knows
//! the wire protocol.
//!
//! The adapter gets each thing to send once and in order. An answer goes to the request on whose
//! reply subject it came. A message that must not reach a wire (a subject with a space, a body above
//! the server's limit) is refused. The link keeps memory only for what is open and for what is still
//! to be sent.
#![tactic(auto)]

mod adapter;
mod inboxes;
mod link;
mod numbered;
mod outbox;
mod outgoing;
mod reply_subjects;
mod requests;
mod send_queue;
mod wire;

pub use outbox::OutboxLink;
pub use outgoing::{Delivery, Outgoing};
