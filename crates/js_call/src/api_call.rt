//! What an API call sends, and how it reads the reply.
ghost use Rattle.std.specs.Prelude.{◌≡◌};
ghost use Rattle.js_call.specs.Table.{Table};

use crate::failure::Failure;
use js_base::Source;
use js_json_members::ReadError;
use std::alloc::Global;

/// An API call: which arguments it rejects, how it reads a reply and what it returns.
///
/// The type holds what the call keeps of its arguments. You poll its `Call`.
pub trait ApiCall: Drop {
    /// The type that a reply is read as.
    type Reply: Drop;

    /// What the call returns.
    type Answer: Drop;

    /// The contract of this call.
    ghost table: { Table Self Self.Reply Self.Answer };

    /// Returns the error if the arguments are invalid. Nothing is sent then.
    fn refusal(&self) -> Option<Self::Answer>
        ensures { result ≡ table.refused self.now };

    /// Reads a reply's body. Fails with the `ReadError` that the call's contract states if the body
    /// cannot be read, and with `OutOfMemory` if memory runs out.
    fn read(alloc: Global, payload: &[u8]) -> Result<Self::Reply, ReadError>
        ensures { table.reads payload.now result };

    /// Returns the call's answer for this reply.
    fn answer(self, reply: Self::Reply) -> Self::Answer
        ensures { result ≡ table.means self reply };

    /// Returns the call's answer if its request gets no reply, or if its reply cannot be read.
    /// `source` is the failure's text.
    fn failure(self, failure: Failure, source: Source) -> Self::Answer
        ensures { result ≡ table.fails self failure source };
}
