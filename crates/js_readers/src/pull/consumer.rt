//! What readers need to know of a pull consumer: whether it pins one of its clients, and how long
//! they wait.
ghost use Rattle.std.specs.Prelude.{◌≡◌};
ghost use Rattle.js_readers.specs.PullConsumer.{info_timeout, is_pinned, message_timeout};

use js_base::Nanos;
use js_call::ApiScope;
use js_json::consumer::PriorityPolicy;

// One of several clients is pinned.
pub(crate) fn is_pinned(policy: PriorityPolicy) -> bool
    ensures { result ≡ is_pinned policy }
{
    match policy {
        PriorityPolicy::PinnedClient => true,
        PriorityPolicy::Overflow | PriorityPolicy::None | PriorityPolicy::Prioritized => false,
    }
}

/// Returns how long a double ack of a message waits, in nanoseconds: the scope's timeout, or five
/// seconds if it has none.
pub fn message_timeout(scope: &ApiScope) -> Nanos
    ensures { result ≡ message_timeout scope.now.timeout }
{
    scope.timeout.unwrap_or(5_000_000_000)
}

// How long the answer to an info request is waited for: the scope's timeout, or else the connection's.
pub(crate) fn info_timeout(scope: &ApiScope, connection: Option<Nanos>) -> Option<Nanos>
    ensures { result ≡ info_timeout scope.now.timeout connection }
{
    match scope.timeout {
        Some(own) => Some(own),
        None => connection,
    }
}
