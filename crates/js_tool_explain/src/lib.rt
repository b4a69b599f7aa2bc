//! `explain` reads a transcript, whose lines may be extended, replays it, and writes in plain
//! English what the consumer did and why: one sentence a line, each with its time.
//!
//! [`explain`] takes a source and a sink. It runs the loop of js_tool, and the sentences are its
//! report. Each sentence is a function of one step: the consumer
//! before the event, the event, what it put out, and the consumer after it. `specs/` has the
//! sentences: what happened outside the consumer, what became of what it waited for, what arrived,
//! what it put out, and what it waits for then.
#![tactic(auto)]

mod answer;
mod arrivals;
mod outcome;
mod outside_events;
mod replies;
mod retry_wait;
mod sentence_part;
mod sentences;
mod step;

pub use answer::explain;
