//! Consumers: their configurations, what the server knows of them, and the calls on them.
//!
//! Every reader of a consumer is a [`Subscription`]: generic code polls, finds, leaves alone and
//! closes any of them by this one trait. A [`Worker`] works off a queue over any subscription of
//! messages: it takes one at a time, extends its ack wait, and acknowledges it once.
pub mod pull;
pub mod push;

pub use js_call_consumers::{
    Consumer, ConsumerCalls, ConsumerCreateStrictError, ConsumerCreateStrictErrorKind,
    ConsumerError, ConsumerErrorKind, ConsumerInfoError, ConsumerInfoErrorKind, ConsumerResetError,
    ConsumerUpdateError, ConsumerUpdateErrorKind, CreateConsumerOnStream,
    CreateConsumerStrictOnStream, DeleteConsumerFromStream, GetConsumerFromStream, GetInfo,
    InfoCall, OrderedPullConsumer, OrderedPushConsumer, PullConsumer, PushConsumer,
    RefreshingConsumer, Reset, ResettingConsumer, UpdateConsumerOnStream,
};
pub use js_json::consumer::{
    AckPolicy, Action, ClusterInfo, Config, ConfigError, CreateRequest, DeliverPolicy,
    FromConsumer, Info, IntoConsumerConfig, PriorityGroupState, PriorityPolicy, ReplayPolicy,
    SequenceInfo,
};
pub use js_readers::Subscription;
pub use js_readers::ordered::{
    Activity, Breach, Health, OrderedReader, Resilience, Rising, RisingError,
};
pub use js_readers::pull::{StreamError, StreamErrorKind};
pub use js_readers_worker::{Worker, WorkerError};
