//! The kinds of acknowledgement, and the bodies that a consumer sends for them.
ghost use Rattle.std.specs.Prelude.{◌≡◌, ◌++◌, codes, IfOk, string_bytes};
ghost use Rattle.std.specs.Fmt.{decimal};
ghost use Rattle.js_message.specs.Acknowledgement.{ack_body, delay_body};

use bytes::Bytes;
use js_base::{Nanos, OutOfMemory};
use std::alloc::Global;

/// An acknowledgement kind: what a consumer tells the server about a message (ADR-15).
#[derive(Clone, Copy, Debug, PartialEq, Eq)]
pub enum AckKind {
    /// The message was handled.
    Ack,
    /// The message was not handled. Deliver it again: at once, or after this many nanoseconds.
    Nak(Option<Nanos>),
    /// The message is still being handled. Its acknowledgement wait starts again.
    Progress,
    /// The message was handled, and the next one may come.
    Next,
    /// The message was not handled. Do not deliver it again.
    Term,
}

impl AckKind {
    /// Returns the body of this acknowledgement. Fails with `OutOfMemory` if memory runs out.
    pub fn to_bytes(self, alloc: Global) -> Result<Bytes, OutOfMemory>
        ensures { IfOk result (λ body. body ≡ ack_body self) }
    {
        match self {
            AckKind::Ack => Ok(Bytes::from_static(b"+ACK")),
            AckKind::Nak(None) => Ok(Bytes::from_static(b"-NAK")),
            AckKind::Nak(Some(delay)) => Ok(Bytes::from_string(delay_text(alloc, delay)?)?),
            AckKind::Progress => Ok(Bytes::from_static(b"+WPI")),
            AckKind::Next => Ok(Bytes::from_static(b"+NXT")),
            AckKind::Term => Ok(Bytes::from_static(b"+TERM")),
        }
    }
}

fn delay_text(alloc: Global, delay: Nanos) -> Result<String, OutOfMemory>
    ensures { IfOk result (λ text. string_bytes text ≡ delay_body delay) }
{
    Ok(format!(in alloc; "-NAK {{\"delay\":{delay}}}")?)
}
