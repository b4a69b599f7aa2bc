//! The calls of a context that list streams.
ghost use Rattle.std.specs.Prelude.{◌≡◌, IfOk};
ghost use Rattle.js_call_streams.specs.Find.{Finds};
ghost use Rattle.js_call_streams.specs.Listing.{fresh};

use crate::context::Context;
use js_base::OutOfMemory;
use js_call_streams::{
    StreamBySubject, StreamNames, Streams, stream_by_subject, stream_names, streams,
};
use std::alloc::Global;

impl Context {
    /// Finds the name of the stream that stores a subject: the first in the server's list of such
    /// streams.
    ///
    /// Fails here only with `OutOfMemory`. The first poll fails with `InvalidSubject` if the
    /// subject is invalid, before anything is sent. Later polls fail with `NotFound` if no stream
    /// stores the subject, and with `Request` if the request has no reply, the server returned an
    /// error, or the reply cannot be read.
    pub fn stream_by_subject(
        &self,
        alloc: Global,
        subject: &str,
    ) -> Result<StreamBySubject, OutOfMemory>
        ensures { IfOk result (λ call. Finds self.now.scope subject.now call) }
    {
        stream_by_subject(alloc, self.scope(), subject)
    }

    /// Lists the names of all streams. Fails here only with `OutOfMemory`. A page that could not be
    /// fetched is an item with the error `Other`.
    pub fn stream_names(&self, alloc: Global) -> Result<StreamNames, OutOfMemory>
        ensures { IfOk result (λ list. list ≡ fresh self.now.scope) }
    {
        stream_names(alloc, self.scope())
    }

    /// Lists all streams with what the server knows of each. The errors are those of
    /// `stream_names`.
    pub fn streams(&self, alloc: Global) -> Result<Streams, OutOfMemory>
        ensures { IfOk result (λ list. list ≡ fresh self.now.scope) }
    {
        streams(alloc, self.scope())
    }
}
