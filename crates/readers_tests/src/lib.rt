//! Tests of the readers of a consumer: what a worker of a queue and its server do, line by line, over
//! a link in memory; what the worker's calls answer, and what they send.
//!
//! Each line of a script has the worker do one thing, or delivers one message that is written down:
//! none has a server that keeps anything. The program work_queue works off a queue of a server that
//! does.
#![tactic(auto)]

#[cfg(test)]
mod call_text;
#[cfg(test)]
mod outbox;
#[cfg(test)]
mod pushed;
#[cfg(test)]
mod reader;
#[cfg(test)]
mod renewal;
#[cfg(test)]
mod scripts;
#[cfg(test)]
mod sent_text;
#[cfg(test)]
mod server;
#[cfg(test)]
mod tables;
#[cfg(test)]
mod worker;
