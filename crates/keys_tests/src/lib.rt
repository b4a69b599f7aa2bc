//! Tests of the keys of a bucket: which messages write to them, how they are read from the server,
//! and the table of their changes. Headers, subjects and bodies are those of the NATS decision
//! records ADR-8 ("JetStream based Key-Value Stores") and ADR-31 ("JetStream Direct Get").
#![tactic(auto)]

#[cfg(test)]
mod answers;
#[cfg(test)]
mod messages;
#[cfg(test)]
mod tables;
mod words;
#[cfg(test)]
mod writes;

pub use words::word;
