//! The calls that read ordered consumers: messages in order and without a gap.

mod breach;
mod consumers;
pub mod pull;
pub mod push;
mod reader;
mod rising;
mod settings;

pub use crate::pull::{StreamError, StreamErrorKind};
pub use breach::{Breach, RisingError};
pub use js_ordered_stream::{Activity, Health, OrderedError, OrderedErrorKind};
pub use js_pull::Resilience;
pub use pull::OrderedPullCalls;
pub use push::OrderedPushCalls;
pub use reader::OrderedReader;
pub use rising::Rising;
