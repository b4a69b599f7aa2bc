//! JetStream over any connection: the one crate that a program lists.
//!
//! # The parts of a program
//!
//! A program holds four things. None of them waits, and none reads a clock:
//!
//! - a [`Context`]: the prefix of requests, their timeout, and the permits for publishing;
//! - a *link*, the client's end of a connection. Programs use [`link::OutboxLink`]; tests may use
//!   [`link::MemoryLink`] or [`link::ScriptedServer`];
//! - *states*: each call returns one, and sends nothing before its first poll;
//! - *moments*: nanoseconds since a beginning that you choose. They never go back. You pass the
//!   present moment to each poll.
//!
//! `use jetstream::prelude::*;` names what most programs need.
//!
//! # The loop
//!
//! The loop of the program `first_publish`, from its file `src/main.rt`:
//!
//! ```text
//! for now in 0..3 {
//!     if let Next::Item(reader) = drive(&mut reader, rt.alloc(), &mut link, now) {
//!         news = Some(reader?.messages(rt.alloc(), &mut link)?);
//!     }
//!     if let Next::Item(published) = queue.poll_next(&rt, rt.alloc(), &mut link, now) {
//!         println!(rt; "stored as {}", published.outcome?.sequence)?;
//!     }
//!     if let Some(news) = &mut news {
//!         if let Next::Item(message) = news.poll_next(rt.alloc(), &mut link, now) {
//!             let message = message?;
//!             println!(rt; "read {:?}", message.payload())?;
//!             message.ack(rt.alloc(), &mut link)?;
//!         }
//!     }
//!     server.serve(rt.alloc(), &mut link, now)?;
//! }
//! ```
//!
//! Each turn polls what the program waits for, at the moment `now`: a call that looks up a consumer,
//! the queue of messages to publish, and the reader of the consumer. A poll sends, or looks at what
//! came, and never waits. It returns:
//!
//! - `Next::Item(answer)`: the answer of a call, a message, or an error with its kind and source;
//! - `Next::Pending`: nothing can be done yet;
//! - `Next::OutOfMemory`: all is unchanged; free memory and poll again;
//! - `Next::End`: nothing more will come.
//!
//! Then the turn exchanges messages with the server. Here that is a `TestServer` of the crate
//! `jetstream_testing`, which tests and first programs use. With a real connection you write what
//! [`link::OutboxLink::first_outgoing`] returns, in order, take each with
//! [`link::OutboxLink::next_outgoing`] once it is written, hand what the connection received to
//! [`link::OutboxLink::deliver`], and wait for more or for the next moment; a
//! [`connection::Connection`] does both over plain bytes, and subscribes again after a loss.
//!
//! **Connection.** An [`link::OutboxLink`] starts as not connected. Call
//! [`link::OutboxLink::set_state`] before you poll a reader and at every change: an ordered push
//! consumer treats a missing connection as a lost consumer and recreates it. Call
//! [`link::OutboxLink::set_max_payload`] with the longest body that the server's greeting allows,
//! and [`link::OutboxLink::close`] when no connection will come again.
//!
//! **Order.** Poll, then send all that the link has for you, then wait for the connection or for
//! the next moment, then deliver what came, and poll again. A poll sees what was delivered before
//! it.
//!
//! **What a poll takes.** You poll a call with the allocator, the link and the moment. `poll` takes
//! the state and returns it; [`drive`] does that in place, and [`drive_ack`] for a double ack. A
//! poll that publishes ([`publish::Sending`], [`publish::PublishAckFuture`]) also takes the runtime
//! and the context, whose permits other threads may share. A reader or a list has `poll_next`,
//! which returns a [`Next`]: a [`consumer::pull::Stream`] and a [`consumer::push::Messages`] return
//! one message or one error per poll.
//!
//! **When to poll again.** After `Pending` you may sleep until `wakes_at` ([`State::wakes_at`]), or
//! until the answer to `request` has come or the request is gone ([`State::request`]). Polling a
//! waiting call earlier changes nothing. A call's wait begins when it sends its request, and lasts
//! for the timeout of the call, of the context or of the link. Readers, lists, a [`PublishQueue`]
//! and a [`publish::PublishAckFuture`] have `wakes_at` too; for detached acks,
//! [`Context::wakes_at`] says when to call `reap` at the latest. [`time::earliest`] picks the first
//! of several moments. [`link::OutboxLink::deliver`] returns the inbox or request that the message
//! belongs to, so a program with many states polls only the state with that `inbox` or `request`.
//!
//! **Reading a consumer.** `get_consumer_from_stream` looks up a consumer, and
//! `create_consumer_on_stream` creates one; the configuration's type says which kind. `messages` of
//! the consumer opens its reader: see [`consumer::pull::PullCalls`] for consumers that you ask for
//! messages, and [`consumer::push::PushCalls`] for those that deliver to a subject. To read a
//! stream in order, without gaps, use [`consumer::pull::OrderedPullCalls`] or
//! [`consumer::push::OrderedPushCalls`]; these readers recreate their consumer when it is lost.
//!
//! Every reader is a [`consumer::Subscription`]: generic code polls, finds, leaves alone and closes
//! any of them. To work off a queue, give a reader to a [`consumer::Worker`]: it takes one message
//! at a time, extends its ack wait while you work, and acknowledges it once.
//!
//! **Acknowledging.** `info` of a [`Message`] tells its place in the stream. `ack` says that you
//! have processed it; `ack_with` says something else, such as `AckKind::Nak(Some(delay))`. Both
//! send at once: `message.ack(alloc, &mut link)?`. `double_ack` returns a [`message::DoubleAck`],
//! which waits for the server's confirmation.
//!
//! **Names.** If a name or a subject is not valid, the first poll fails with an error kind of its
//! own, and nothing is sent. The link rejects whatever would corrupt the protocol.
//!
//! **Letting go.** You may drop any state, except one that holds a permit: poll a
//! [`publish::PublishAckFuture`] or a [`publish::Confirming`] until it is ready, or call `detach`,
//! and call `close` on a [`PublishQueue`], which returns its context.
//! A call, an ack and a queue end their request on the link when its timeout expires; if you drop a
//! call earlier, [`link::Link::forget`] ends its request. Call `close` when you are done with a
//! reader: dropping it leaves its inbox open, and the link keeps what the server goes on to send.
//!
//! **Publishing.** [`publish::PublishCalls::publish_and_confirm`] publishes one message and waits
//! for its acknowledgement. A [`PublishQueue`] publishes any number under the context's permits,
//! retries what could not be sent, and returns one outcome per message. It owns its context; to
//! make other calls meanwhile, use one half of [`Context::split`]: the halves share the permits.
//!
//! # Where to look
//!
//! | Module | Contents |
//! |---|---|
//! | [`prelude`] | what most programs name, in one line |
//! | [`context`] | the context, its builder, requests of your own, lists of streams |
//! | [`stream`] | configurations and infos of streams, and the calls on them |
//! | [`consumer`] | the same for consumers; readers are in [`consumer::pull`] and [`consumer::push`] |
//! | [`publish`] | publishing messages, and their acknowledgements |
//! | [`message`] | messages of a stream, and acknowledging them |
//! | [`link`] | the trait `Link`, and the links |
//! | [`connection`] | a connection that speaks the NATS protocol, for the bytes of your socket |
//! | [`response`] | reading replies to requests of your own |
//! | [`kv`], [`object_store`] | buckets of keys and of objects |
//! | [`error`], [`errors`] | the errors of calls; the server's errors, by number |
//! | [`account`] | what an account may use |
//! | [`time`] | seconds in nanoseconds, the first of several moments |
//!
//! For projections, mirrors, bookmarks and replay of a log, see the crate `jetstream_event_log`.
#![tactic(auto)]

pub mod account;
mod ack_driver;
mod any_error;
pub mod connection;
pub mod consumer;
pub mod context;
mod driver;
pub mod error;
pub mod errors;
pub mod kv;
pub mod link;
pub mod message;
pub mod object_store;
pub mod prelude;
pub mod publish;
pub mod response;
pub mod stream;
pub mod time;

pub use ack_driver::drive_ack;
pub use any_error::AnyError;
pub use bytes::Bytes;
pub use driver::drive;
pub use errors::{Error, ErrorCode};
pub use jiff::Timestamp;
pub use js_base::{
    ByName, HeaderMap, Items, Moment, Nanos, Next, OutOfMemory, Subject, Text, TextMap, TryClone,
    Turn, is_valid_subject, subject_matches,
};
pub use js_call::State;
pub use js_codes::is_valid_name;
pub use js_context::{Context, ContextBuilder};
pub use js_context_queue::PublishQueue;
pub use js_message::{AckKind, Message};
pub use serde_json::Value;
