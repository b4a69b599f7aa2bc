//! The requests that a context makes.
ghost use Rattle.std.specs.Prelude.{◌≡◌, IfOk};
ghost use Rattle.serde_json.specs.View.{view};
ghost use Rattle.js_call.specs.ApiRequest.{AskingFor};
ghost use Rattle.js_call.specs.Scope.{raw_asking};
ghost use Rattle.js_call.specs.SendRequest.{SendsRequest};

use crate::context::Context;
use js_base::OutOfMemory;
use js_call::{ApiRequest, RawCall, RawRequest, SendError};
use js_link::Link;
use serde_json::Value;
use std::alloc::Global;

impl Context {
    /// Makes a request under the prefix with this body; its answer is a JSON value.
    ///
    /// Fails here only with `OutOfMemory`. The polls fail with `InvalidSubject` if the whole
    /// subject is invalid (nothing is sent then), with `NoResponders` if nobody answers, with
    /// `TimedOut` if the timeout is due, and with `Other` if the link failed, the body is longer
    /// than the link sends, the replier is gone, or the reply cannot be read.
    pub fn request(
        &self,
        alloc: Global,
        subject: &str,
        payload: &Value,
    ) -> Result<ApiRequest, OutOfMemory>
        ensures { IfOk result (λ call. AskingFor self.now.scope subject.now (view payload.now) call) }
    {
        self.scope().request(alloc, subject, payload)
    }

    /// Makes a request on exactly this subject, without the prefix. The errors are those of
    /// `request`, except that the reply is not read.
    pub fn raw_request(
        &self,
        alloc: Global,
        subject: &str,
        request: RawRequest,
    ) -> Result<RawCall, OutOfMemory>
        ensures { IfOk result (λ call. call ≡ raw_asking self.now.scope subject.now request) }
    {
        self.scope().raw_request(alloc, subject, request)
    }

    /// Publishes the request under the prefix. The answer goes to the request's inbox if it has
    /// one, otherwise to a fresh subject of the link.
    ///
    /// Fails with `LinkFailed` only if the link failed in this call, and with `OutOfMemory` if
    /// memory ran out. Nothing was sent then.
    pub fn send_request<L: Link>(
        &self,
        alloc: Global,
        link: &mut L,
        subject: &str,
        request: RawRequest,
    ) -> Result<(), SendError>
        ensures { SendsRequest result self.now.scope subject.now request (L.view link.old) (L.view link.new) }
    {
        self.scope().send_request(alloc, link, subject, request)
    }
}
