//! The account call of a context.
ghost use Rattle.std.specs.Prelude.{◌≡◌, IfOk};
ghost use Rattle.js_call_streams.specs.Account.{querying};

use crate::context::Context;
use js_base::OutOfMemory;
use js_call_streams::{QueryAccount, query_account};
use std::alloc::Global;

impl Context {
    /// Asks what the account uses of JetStream, what it may use, and which API level its server
    /// has.
    ///
    /// Fails here only with `OutOfMemory`. The polls fail with `JetStream` if the server returned
    /// an error, which it holds, with `JetStreamUnavailable` if nobody answers, with `TimedOut` if
    /// the timeout is due, and with `Other` if the request has no reply for another reason or its
    /// reply cannot be read.
    pub fn query_account(&self, alloc: Global) -> Result<QueryAccount, OutOfMemory>
        ensures { IfOk result (λ call. call ≡ querying self.now.scope) }
    {
        query_account(alloc, self.scope())
    }
}
