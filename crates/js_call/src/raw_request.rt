//! What a request carries besides its subject.
ghost use Rattle.std.specs.Prelude.{◌≡◌};
ghost use Rattle.js_call.specs.Scope.{body_of};

use bytes::Bytes;
use js_base::{HeaderMap, Nanos, Subject};

/// What a request carries besides its subject.
#[derive(Drop)]
pub struct RawRequest {
    /// The body. None sends an empty one.
    pub payload: Option<Bytes>,
    /// The headers. None sends a message without any.
    pub headers: Option<HeaderMap>,
    /// How long to wait for the answer, in nanoseconds. None uses the context's timeout, or else
    /// the connection's. `Some(None)` waits without end.
    pub timeout: Option<Option<Nanos>>,
    /// Where the answer goes in `send_request`, which does not wait for it. None lets the link
    /// choose.
    pub inbox: Option<Subject>,
}

// The body, which may be empty.
pub(crate) fn body_of(payload: Option<Bytes>) -> Bytes
    ensures { result ≡ body_of payload }
{
    match payload {
        None => Bytes::new(),
        Some(body) => body,
    }
}
