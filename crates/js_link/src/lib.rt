//! The connection over which this client's states are polled: the trait [`Link`], described by what
//! it sends and what it has received.
//!
//! A link has one ghost member, its `view`. The contract of each call says in one clause what the
//! call does to that view. What a link cannot tell is `None` there. A reader asks its link for one
//! thing at a time ([`Wish`]) and is told what came of it ([`Met`]). [`MemoryLink`] is a link in
//! memory that tells everything, and [`ScriptedServer`] is one that answers requests from a script.
#![tactic(auto)]

mod copies;
mod error;
mod link;
mod memory;
mod scripted_server;
mod sent;
mod wish;

pub use copies::{copy_headers, copy_payload, copy_subject, copy_text};
pub use link::{Answer, Link, LinkError, Taken, Watch};
pub use memory::MemoryLink;
pub use scripted_server::ScriptedServer;
pub use sent::{InboxId, RequestId, Sent};
pub use wish::{Met, Wish, ask, take};
