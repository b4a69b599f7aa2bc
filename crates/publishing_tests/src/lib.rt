//! Tests of contexts that publish: how contexts are built, their permits, acknowledgements that are
//! awaited or detached, and what a queue of messages tells of itself.
//!
//! Each test is a table of actions over a link in memory, and each reply is written down: none has a
//! server that keeps anything.
#![tactic(auto)]

#[cfg(test)]
mod acks;
#[cfg(test)]
mod answers;
#[cfg(test)]
mod context_builds;
#[cfg(test)]
mod detached_acks;
#[cfg(test)]
mod health;
#[cfg(test)]
mod publishes;
#[cfg(test)]
mod tables;
#[cfg(test)]
mod threads;
