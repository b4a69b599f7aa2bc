//! Tests of the crates of values: subjects, headers, JSON bodies, the link in memory, the bytes of the NATS client protocol, messages
//! and their acks.
#![tactic(auto)]

#[cfg(test)]
mod acks;
#[cfg(test)]
mod answer_rows;
#[cfg(test)]
mod base;
#[cfg(test)]
mod bodies;
#[cfg(test)]
mod consumer_rows;
#[cfg(test)]
mod link;
#[cfg(test)]
mod message;
#[cfg(test)]
mod received;
#[cfg(test)]
mod requests;
#[cfg(test)]
mod stream_rows;
#[cfg(test)]
mod tables;
#[cfg(test)]
mod wire;
mod words;

pub use words::word;
