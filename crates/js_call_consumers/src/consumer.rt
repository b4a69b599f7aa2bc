//! A consumer of a stream.
ghost use Rattle.std.specs.Prelude.{◌≡◌, IfOk};
ghost use Rattle.js_call_consumers.specs.Info.{asking_info};

use crate::info::{AskingInfo, GetInfo, info_request};
use js_base::OutOfMemory;
use js_call::{ApiScope, Call};
use js_json::consumer::Info;
use js_json::{pull, push};
use std::alloc::Global;

/// A consumer of a stream: where its calls go, its configuration, and what the server last reported
/// about it.
#[derive(Debug, PartialEq, Eq, Drop)]
pub struct Consumer<T> {
    pub scope: ApiScope,
    pub config: T,
    pub info: Info,
}

/// A consumer that you read with pull requests.
pub type PullConsumer = Consumer<pull::Config>;

/// A consumer that delivers to a subject.
pub type PushConsumer = Consumer<push::Config>;

/// A consumer that you read in order with pull requests. It is recreated if a message is missing.
pub type OrderedPullConsumer = Consumer<pull::OrderedConfig>;

/// A consumer that delivers in order to a subject. It is recreated if a message is missing.
pub type OrderedPushConsumer = Consumer<push::OrderedConfig>;

impl<T> Consumer<T> {
    /// Makes a consumer from what is known of it.
    pub fn new(config: T, info: Info, scope: ApiScope) -> Consumer<T>
        ensures { result ≡ record { scope = scope; config = config; info = info } }
    {
        Consumer {
            scope,
            config,
            info,
        }
    }

    /// Returns what the server last reported about the consumer. Takes no memory.
    pub fn cached_info(&self) -> &Info
        ensures { result.now ≡ self.now.info }
    {
        &self.info
    }

    /// Asks the server what it knows of the consumer. The info in `self` stays as it is.
    ///
    /// Fails with `OutOfMemory` if memory runs out; the polls return all other errors. `NotFound`
    /// means that the consumer is gone; if no server answers for it any more, the error is
    /// `TimedOut`. `StreamNotFound` means that its stream is gone, and `Offline` that the consumer
    /// is offline. Except for `TimedOut`, the source of these is the server's error. `JetStream`
    /// holds any other error of the server. `InvalidName` means that the full subject is invalid,
    /// `NoResponders` that nobody answers, and `Request` that the request got no reply for another
    /// reason or its reply cannot be read.
    pub fn get_info(&self, alloc: Global) -> Result<GetInfo, OutOfMemory>
        ensures { IfOk result (λ call. call ≡ asking_info self.now.scope self.now.info) }
    {
        let asked = info_request(alloc, &self.scope, &self.info)?;
        Ok(Call::new(AskingInfo, asked))
    }
}
