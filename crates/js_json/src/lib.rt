//! Bodies of the JetStream API as JSON values: consumer configurations and states, pull requests,
//! accounts, and answers of the API.
//!
//! For each type, contracts say how its members are read and how it is written, as a table of rows.
//! Each kind of consumer configuration converts to the general one and back unchanged. The bytes of
//! an answer are read as its error if it has one, and otherwise as a whole.
#![tactic(auto)]

pub mod account;
pub mod consumer;
mod publish_ack;
pub mod pull;
pub mod push;
mod response;

pub use publish_ack::PublishAck;
pub use response::{Response, response_as, response_from};
