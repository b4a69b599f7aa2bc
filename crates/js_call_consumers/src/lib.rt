//! The API calls on consumers, and the [`Consumer`] that they return, with the configuration of its
//! kind.
//!
//! A function makes each call from the scope of its context (the prefix of its subjects and its
//! timeout). You poll the call until it is ready. Its contract states which arguments it rejects,
//! and what it returns for a reply and for a request without one. A consumer has two calls of its
//! own, `info` and `reset` ([`ConsumerCalls`]). They take the consumer, and return it with the
//! answer and the newest info.
#![tactic(auto)]

mod calls;
mod consumer;
mod consumer_answer;
mod create;
mod create_call;
mod create_kind;
mod create_subject;
mod delete;
mod error;
mod get;
mod info;
mod info_pair;
mod known_consumer;
mod laws;
mod refresh;
mod refusal;
mod renewal;
mod request;
mod reset;

pub use calls::ConsumerCalls;
pub use consumer::{
    Consumer, OrderedPullConsumer, OrderedPushConsumer, PullConsumer, PushConsumer,
};
pub use consumer_answer::ConsumerAnswer;
pub use create::CreatingConsumer;
pub use create_call::{
    CreateCall, CreateConsumerOnStream, CreateConsumerStrictOnStream, UpdateConsumerOnStream,
    create_consumer_on_stream, create_consumer_strict_on_stream, update_consumer_on_stream,
};
pub use create_kind::CreateKind;
pub use delete::{DeleteConsumerFromStream, DeletingConsumer, delete_consumer_from_stream};
pub use error::{
    ConsumerCreateStrictError, ConsumerCreateStrictErrorKind, ConsumerError, ConsumerErrorKind,
    ConsumerInfoError, ConsumerInfoErrorKind, ConsumerUpdateError, ConsumerUpdateErrorKind,
};
pub use get::{GetConsumerFromStream, GettingConsumer, get_consumer_from_stream};
pub use info::{AskingInfo, GetInfo};
pub use info_pair::InfoCopies;
pub use laws::instants_alone_are_refused;
pub use refresh::{InfoCall, RefreshingConsumer};
pub use reset::{ConsumerResetError, Reset, ResettingConsumer};
