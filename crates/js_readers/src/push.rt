//! Reading a push consumer: its messages come on its deliver subject.
//!
//! One table (`specs/PushRows.antt`) fixes what a reader does: what each step asks of the link, and
//! what it makes of the result.

mod calls;
mod error;
mod messages;
mod row;
mod subscription;

pub use crate::pull::{StreamError, StreamErrorKind};
pub use calls::PushCalls;
pub use error::{MessagesError, MessagesErrorKind};
pub use js_message::Message;
pub use messages::Messages;
