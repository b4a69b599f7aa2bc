//! What most programs name, in one line: `use jetstream::prelude::*;`.
//!
//! It has the traits of calls and of what is read, the context, the queue, the worker, the link for
//! programs, what polls return, and the error of a program. Configurations, infos and errors stay in their modules, since
//! streams and consumers use the same names for them.
pub use crate::consumer::pull::{OrderedPullCalls, PullCalls};
pub use crate::consumer::push::{OrderedPushCalls, PushCalls};
pub use crate::consumer::{ConsumerCalls, Subscription, Worker};
pub use crate::context::StoreCalls;
pub use crate::context::traits::{
    ClientProvider, Publisher, RequestSender, Requester, TimeoutProvider,
};
pub use crate::link::{ConnectionState, Delivery, Link, OutboxLink, Outgoing};
pub use crate::publish::PublishCalls;
pub use crate::time::{earliest, milliseconds, moment_at, seconds};
pub use crate::{
    AnyError, Bytes, Context, Message, Moment, Nanos, Next, OutOfMemory, PublishQueue, State,
    Subject, Text, TryClone, Turn, drive, drive_ack,
};
