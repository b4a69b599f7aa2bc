//! Tests of the upper crates: what no clause says of them and no stored command line shows, and each public call that takes memory
//! once. It has no calls of its own.
#![tactic(auto)]

#[cfg(test)]
mod ends;
mod faults;
#[cfg(test)]
mod follow;
#[cfg(test)]
mod health;
#[cfg(test)]
mod lines;
#[cfg(test)]
mod mirrors;
#[cfg(test)]
mod ordered;
#[cfg(test)]
mod polled;
#[cfg(test)]
mod projection;
#[cfg(test)]
mod pull;
#[cfg(test)]
mod std_io;
#[cfg(test)]
mod steps;
#[cfg(test)]
mod tables;
#[cfg(test)]
mod threads;

pub use faults::failing;
