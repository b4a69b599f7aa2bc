//! How an ordered consumer is set up.
use js_base::{Nanos, Text};
use js_json::{pull, push};
use js_pull::Resilience;

/// What an ordered consumer is told about its connection.
#[derive(Debug, PartialEq, Eq, Drop)]
pub struct Settings {
    /// The prefix of the subjects of API requests, such as `$JS.API`.
    pub api_prefix: Text,
    /// The prefix of the subjects of inboxes.
    pub inbox_prefix: Text,
    /// How long an API request waits for its answer, in nanoseconds, if the context sets it.
    pub context_timeout: Option<Nanos>,
    /// The same, if the connection sets it. It counts only if the context sets none.
    pub request_timeout: Option<Nanos>,
    /// How many further tries a recreation makes after its first.
    pub retries: u32,
    /// What the consumer does so that it never hangs, and tells when its stream is gone.
    pub resilience: Resilience,
}

/// The configuration of an ordered consumer; its variant is the mode.
#[derive(Debug, PartialEq, Eq, Drop)]
pub enum OrderedSetup {
    Pull(pull::OrderedConfig),
    Push(push::OrderedConfig),
}
