//! The calls of a pull consumer: streams that ask again and again, single batches, and batches one
//! after another.
//!
//! One table by builder (`specs/Builder.antt`) fixes what a request asks for: what was set, or else
//! the default of the builder.

mod batch;
mod batch_item;
mod batch_opening;
mod builder;
mod calls;
mod consumer;
mod error;
mod request;
mod sequence;
mod settings;
mod stream;
mod stream_step;
mod subscriptions;

pub use batch::{Batch, batches_keep_their_number, ended_batches_stay_ended};
pub use batch_item::BatchItemError;
pub use builder::{BatchBuilder, Builder, FetchBuilder, StreamBuilder};
pub use calls::PullCalls;
pub use consumer::message_timeout;
pub use error::{
    BatchError, BatchErrorKind, BatchRequestError, BatchRequestErrorKind, StreamError,
    StreamErrorKind, stream_error_kind,
};
pub use js_message::Message;
pub use js_pull::{MessagesError, MessagesErrorKind};
pub use sequence::Sequence;
pub use settings::defaults_keep_limits;
pub use stream::Stream;
pub use stream_step::Advance;
