//! A connection to a NATS server, without input and output, between a socket and the states that are
//! polled.
//!
//! You tell a [`Connection`] which bytes came, in pieces of any size, and it says which bytes to
//! send. It reads and writes the frames of js_link_wire, and owns the link of js_link_outbox, over
//! which this client's states are polled. Whoever has the socket and the clock does this:
//!
//! - Call [`Connection::made`] or [`Connection::lost`] when a connection is made or lost.
//! - Hand what came to [`Connection::received`].
//! - Call [`Connection::write`] after that and after each poll, send the bytes of
//!   [`Connection::to_send`], and tell [`Connection::sent`] how many went out.
//! - Call [`Connection::woken`] at the moment that [`Connection::wakes_at`] returns.
//!
//! It sends CONNECT, then PONGs and PINGs, the open subscriptions, and what the link has to send,
//! each once and in order. Nothing is lost if memory runs out. What it delivers does not depend on
//! how the bytes were cut. Once the bytes are damaged, it delivers nothing more.
#![tactic(auto)]

mod buffer;
mod connect_text;
mod connection;
mod delivery;
mod error;
mod keep_alive;
mod laws;
mod lifecycle;
mod options;
mod server_info;
mod writer;

pub use connection::Connection;
pub use error::ConnectionError;
pub use laws::{damage_stays, pieces_are_received_as_one};
pub use options::{ConnectOptions, Credentials};
pub use server_info::ServerInfo;
