//! A JetStream server in memory, to test programs against. List this crate in your program beside
//! `jetstream`.
//!
//! A [`TestServer`] stands in for a real server. It takes what an
//! [`OutboxLink`](js_link_outbox::OutboxLink) has to send, acts as a server would, and delivers
//! what comes back. It serves one link.
//!
//! ```text
//! let mut link = OutboxLink::new(alloc, "_INBOX", "t1")?;
//! link.set_state(ConnectionState::Connected);
//! let faults = Faults { seed: 7, lose: OneIn(10), ..Faults::none() };
//! let mut server = TestServer::new(alloc, faults);
//! server.add_stream(alloc, "events", "events.>")?;
//! for turn in 0..1000 {
//!     let now = turn * 100_000_000;
//!     // poll the program's calls, readers and queues over the link at `now`
//!     server.serve(alloc, &mut link, now)?;
//! }
//! ```
//!
//! # Time
//!
//! The server has no clock and no thread: it is the moment that you pass to [`TestServer::serve`].
//! So a test that waits for an hour takes no time, and each run of a test is the same. To let time
//! pass only as far as something happens, go on at the first of the moments that your readers'
//! `wakes_at` and [`TestServer::wakes_at`] return.
//!
//! # Faults
//!
//! [`Faults`] says how many of the messages of streams, and of heartbeats, are lost, arrive twice,
//! or arrive late. They are drawn at random from `seed`: the same seed gives the same faults if the
//! program does the same, and another seed gives others. Answers to requests, acknowledgements of
//! publishes and other statuses always arrive once, at once. With [`Faults::none`] everything does.
//! [`TestServer::set_faults`] changes the faults while a test runs.
//!
//! # Acknowledgements
//!
//! A delivered message that is not acknowledged within the consumer's `ack_wait` (30 seconds unless
//! it says otherwise) is delivered again, as often as `max_deliver` allows. A negative
//! acknowledgement makes it due after its delay, `+WPI` after `ack_wait` once more, and an
//! acknowledged or terminated message does not come again. With the policy `all`, an
//! acknowledgement counts for all messages before it. An acknowledgement with a reply subject is
//! answered. A stream whose `retention` is `workqueue` removes a message when it is acknowledged.
//!
//! # What the server does
//!
//! - Streams: create, update, info, delete, names and purge, with the members `subjects`,
//!   `max_msgs`, `max_msgs_per_subject`, `duplicate_window`, `retention` and `allow_rollup_hdrs`.
//! - Publishing: acknowledgements, and the headers `Nats-Msg-Id`, `Nats-Expected-Stream`,
//!   `Nats-Expected-Last-Sequence`, `Nats-Expected-Last-Subject-Sequence`,
//!   `Nats-Expected-Last-Msg-Id` and `Nats-Rollup`.
//! - Consumers, for pull and push: create, info and delete, with filters, `ack_policy`, `ack_wait`,
//!   `max_deliver`, `max_ack_pending`, `idle_heartbeat`, and all deliver policies but
//!   `by_start_time`.
//! - Pull requests: `batch`, `expires`, `no_wait` and `idle_heartbeat`, and the statuses 100, 404,
//!   408 and 409.
//! - Single messages: the calls `MSG.GET` and `DIRECT.GET`.
//! - A message that is published on any other subject reaches the subscriptions that match it. If
//!   there is none, its sender gets status 503.
//!
//! # What it does not do
//!
//! It ignores every other member of a configuration, and returns each configuration as it was sent.
//! It has no clusters, accounts, limits on bytes, flow control, paused consumers, priority groups,
//! mirrors or sources. It removes no consumer for inactivity and no message for age. `+NXT`
//! acknowledges, and asks for nothing more. A request that it does not know, and a pull request to
//! a consumer that is not there, get no answer. It cannot lose what the program sends. No proof
//! says that it acts as a real server does.
#![tactic(auto)]

mod acks;
mod answers;
mod api;
mod calls;
mod configs;
mod connection;
mod consumer;
mod consumer_calls;
mod faults;
mod json;
mod log;
mod messages;
mod publish;
mod pulls;
mod server;
mod single_messages;
mod stream_calls;
mod times;

pub use faults::{Faults, OneIn};
pub use server::TestServer;
