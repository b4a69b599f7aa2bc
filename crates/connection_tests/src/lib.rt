//! Tests of a connection: which bytes it writes and which messages it delivers, by the page "NATS client protocol" of docs.nats.io
//! (<https://docs.nats.io/reference/reference-protocols/nats-protocol>).
#![tactic(auto)]

#[cfg(test)]
mod scripts;
mod words;

pub use words::word;
