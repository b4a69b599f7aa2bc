//! The texts of a reader's errors.
ghost use Rattle.std.specs.Prelude.{Some};
ghost use Rattle.js_pull.specs.Texts.{messages_text};

use crate::reader::MessagesErrorKind;
use std::fmt;

impl fmt::Display for MessagesErrorKind {
    ghost output = { λ kind. Some (messages_text kind) };

    fn fmt<W: fmt::Write>(&self, f: &mut fmt::Formatter<W>) -> fmt::Result {
        f.write_str(match self {
            MessagesErrorKind::MissingHeartbeat => "missed idle heartbeat",
            MessagesErrorKind::ConsumerDeleted => "consumer deleted",
            MessagesErrorKind::Pull => "pull request failed",
            MessagesErrorKind::Other => "error",
            MessagesErrorKind::NoResponders => "no responders",
            MessagesErrorKind::RequestLimitExceeded => "pull request exceeded consumer limits",
            MessagesErrorKind::PushBasedConsumer => "cannot use with push consumer",
        })
    }
}
