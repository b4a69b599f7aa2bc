//! The rows of the table. Each is one thing that a consumer does.
use js_base::Message;
use js_json::consumer;

/// A message on an inbox. Only definitions use this type.
#[derive(Drop)]
pub struct Arrival {
    pub inbox: u64,
    pub message: Message,
}

/// A row of the table: one thing that a consumer does. It asks the link for at most one thing. Only
/// definitions use this type; code uses `Task`.
#[derive(Drop)]
pub enum Row {
    /// Begins an event.
    Event,
    /// Begins a recreation.
    Start,
    /// Begins a try. Its first request deletes the old consumer.
    Try,
    /// Push: subscribes the new inbox.
    Create,
    /// Sends the create request.
    Ask,
    /// Checks whether what an open recreation waits for has come: an answer, or its time.
    Await,
    /// Reads the reply to the create request. The reply is `None` if the replier is gone.
    Answered(Option<Message>),
    /// Push: holds what arrives on the inbox of a create request.
    Hold,
    /// Handles a create request that succeeded.
    Succeed(consumer::Info),
    /// Handles a try that failed.
    Fail,
    /// Push: looks for an arrival.
    CheckArrival,
    /// Push: reads an arrival.
    Hear(Arrival),
    /// Push: checks its heartbeat.
    CheckSilence,
    /// Push: arms its heartbeat timer.
    Arm,
    /// Pull: passes a row of the reader.
    Read(js_pull::Row),
}
