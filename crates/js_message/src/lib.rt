//! Messages of a stream: their acknowledgement subjects, their acknowledgement, and messages to
//! publish.
#![tactic(auto)]

mod ack_kind;
mod ack_subject;
mod acker;
mod dot_positions;
mod double_ack;
mod info;
mod info_error;
mod message;
mod numbers;
mod publish_message;
mod stream_message;

pub use ack_kind::AckKind;
pub use ack_subject::parse_info;
pub use acker::{AckError, Acker};
pub use double_ack::DoubleAck;
pub use info::Info;
pub use info_error::InfoError;
pub use message::{Message, MessageInfoError};
pub use numbers::read_u64;
pub use publish_message::{OutboundMessage, PublishMessage};
pub use stream_message::{StreamMessage, StreamMessageError, StreamMessageErrorKind};
