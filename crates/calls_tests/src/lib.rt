//! Tests of the calls over a link: requests, the calls on streams and consumers, lists, contexts that
//! ask, and buckets.
//!
//! Each test is a table of scripts: what is asked, byte for byte, and the one reply to it, which is
//! written down. So none has a server that keeps anything. What a server makes of requests is tested
//! in the programs over `jetstream_testing`.
//!
//! The crates publishing_tests and readers_tests make their words and replies by what stands here.
#![tactic(auto)]

#[cfg(test)]
mod consumers;
#[cfg(test)]
mod context_calls;
#[cfg(test)]
mod contexts;
#[cfg(test)]
mod errors;
#[cfg(test)]
mod leaks;
#[cfg(test)]
mod lists;
mod replies;
#[cfg(test)]
mod requests;
#[cfg(test)]
mod server;
#[cfg(test)]
mod stores;
#[cfg(test)]
mod stream_calls;
#[cfg(test)]
mod streams;
#[cfg(test)]
mod tables;
mod words;

pub use replies::{NOBODY, Reply, message};
pub use words::{Words, add_line, numbered, printed, word};
