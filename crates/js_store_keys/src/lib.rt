//! Keys of a bucket: which texts are keys, what a message does to its key, the message of each
//! write, and the request that reads a key from the server.
//!
//! [`put`], [`create`], [`update`], [`delete`] and [`purge`] return the message that a write sends.
//! Publish it like any other message, through a queue of permits or as one state. If the server
//! refuses it, [`refusal_of`] tells why: the key exists already, or its revision is another.
//!
//! [`get`] returns the request for the last message of a key, and [`read_answer`] reads the answer
//! as an [`Entry`]. This crate sends nothing.
#![tactic(auto)]

mod answer;
mod direct_answer;
mod entry;
mod get_error;
mod get_request;
mod key_places;
mod key_test;
mod operation;
mod refusal;
mod stored_message;
mod stream_answer;
mod write_error;
mod writes;

pub use answer::read_answer;
pub use entry::Entry;
pub use get_error::GetError;
pub use get_request::{GetRequest, KeyReads, get};
pub use key_places::KeyPlaces;
pub use key_test::is_valid_key;
pub use operation::{Operation, operation_of};
pub use refusal::{WriteRefusal, refusal_of};
pub use stored_message::is_put;
pub use write_error::WriteError;
pub use writes::{create, delete, purge, put, update};
