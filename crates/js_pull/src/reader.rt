//! A pull reader: which consumer it asks, what is pending, and when it asks again.
ghost use Rattle.std.specs.Prelude.{◌≡◌};
ghost use Rattle.js_base.specs.Clock as clock;
ghost use Rattle.js_pull.specs.Passes.{asks_if};
ghost use Rattle.js_pull.specs.Reader.{new_reader};
ghost use Rattle.js_pull.specs.Reader as rows;

use crate::resilience::Resilience;
use js_base::{Message, Moment, Nanos, State, Subject, Text, Timer};
use js_json::pull::BatchConfig;

/// The kind of an error that a pull reader reports in place of a message.
#[derive(Clone, Copy, Debug, PartialEq, Eq)]
pub enum MessagesErrorKind {
    /// Nothing came from the server for two heartbeats.
    MissingHeartbeat,
    /// The server has deleted the consumer. The reader has ended.
    ConsumerDeleted,
    /// A pull request was not sent, or six requests for the consumer's info failed.
    Pull,
    /// An arrival can't be read.
    Other,
    /// Nobody listens to the subject of a pull request.
    NoResponders,
    /// The server refuses requests of this size. The reader has ended.
    RequestLimitExceeded,
    /// The consumer is a push consumer. The reader has ended.
    PushBasedConsumer,
}

/// Which consumer a reader asks, for what, and on which inbox the answers come.
#[derive(Drop)]
pub struct PullSource {
    /// The prefix of the subjects of its requests.
    pub api: Text,
    pub stream: Text,
    /// The consumer's name.
    pub name: Text,
    /// The number of its inbox.
    pub inbox: u64,
    /// The subject of its inbox.
    pub subject: Subject,
    /// How long an info request waits for its answer, in nanoseconds. `None` sets no bound.
    pub info_timeout: Option<Nanos>,
    /// What each pull request asks for.
    pub config: BatchConfig,
    /// Whether one of several clients is pinned.
    pub pinned: bool,
    /// What the reader does so that it never hangs.
    pub resilience: Resilience,
}

/// The request for the consumer's info that follows a reconnection.
#[derive(Clone, Copy)]
pub enum InfoRequest {
    NoInfoRequest,
    /// Waits for the answer.
    Asked {
        request: u64,
        timeout: Option<Timer>,
        failures: u64,
    },
    /// Waits before the next try.
    Resting {
        wait: Timer,
        failures: u64,
    },
}

/// Why a reader sends a pull request.
#[derive(Clone, Copy)]
pub enum Reason {
    /// At most half of the messages or bytes that a request asks for are pending.
    Low,
    /// The last pull request has expired.
    Expired,
    /// The consumer's info has come, or the tries for it have failed. With `reset`, no request is
    /// left at the server.
    Informed { reset: bool },
}

/// A row of the table: one thing that a reader does. It asks the link for at most one thing. Only
/// definitions use this type; code uses `Due`.
#[derive(Drop)]
pub enum Row {
    /// Begins an event, with the connection's change.
    Begin {
        change: Option<State>,
    },
    /// Sends a pull request.
    Ask {
        reason: Reason,
    },
    /// Lets a pull request follow if little is pending.
    Threshold,
    /// Arms the heartbeat timer.
    Arm,
    /// Requests the consumer's info, after this many failures.
    Inquire {
        failures: u64,
    },
    /// Handles an info request that has failed once more.
    FailInfoRequest {
        failures: u64,
    },
    /// Checks whether an open info request has its answer, or has come to its time.
    CheckInfoRequest,
    /// Reads the reply to an info request. The reply is `None` if the replier is gone.
    Answered {
        reply: Option<Message>,
        failures: u64,
    },
    CheckExpiry,
    CheckArrival,
    CheckSilence,
}

/// What a row of the table reports to the reader's user. Only definitions use this type; code uses
/// `Notice`.
#[derive(Drop)]
pub enum ReaderOutput {
    Nothing,
    Hands(Message),
    Tells(MessagesErrorKind),
}

/// A pull reader. It keeps messages coming, and says what each arrival is.
#[derive(Drop)]
pub struct Reader {
    pub source: PullSource,
    /// The number of messages that were asked for and have not come.
    pub pending: u64,
    /// The number of bytes that were asked for and have not come.
    pub pending_bytes: u64,
    /// Whether little was pending, and no request has gone out since.
    pub waiting: bool,
    /// The number of pull requests of reason `Informed { reset: false }` since the last reset.
    pub unreset_requests: u64,
    /// The name of the pinned client.
    pub pin: Option<Text>,
    pub expiry: Option<Timer>,
    pub heartbeat_timer: Option<Timer>,
    pub inquiry: InfoRequest,
    pub ended: bool,
}

/// Returns whether an info request is open: it waits for its answer or for its next try.
pub fn is_asking(inquiry: &InfoRequest) -> bool
    ensures { result ≡ rows.is_asking inquiry.now }
{
    match inquiry {
        InfoRequest::NoInfoRequest => false,
        InfoRequest::Asked { .. } | InfoRequest::Resting { .. } => true,
    }
}

// Five seconds after the expiry, where there is one above 0.
fn armed_expiry(now: Moment, expires: Option<Nanos>) -> Option<Timer>
    ensures { result ≡ rows.armed_expiry now expires }
{
    match expires {
        None | Some(0) => None,
        Some(expires) => match expires.checked_add(5_000_000_000) {
            Some(wait) => Some(Timer { set: now, wait }),
            None => None,
        },
    }
}

/// Returns a timer of twice `heartbeat` (in nanoseconds), or `None` if that is 0 or exceeds a `u64`.
pub fn armed_silence(now: Moment, heartbeat: Nanos) -> Option<Timer>
    ensures { result ≡ rows.armed_silence now heartbeat }
{
    if heartbeat == 0 {
        return None;
    }
    match heartbeat.checked_mul(2) {
        Some(wait) => Some(Timer { set: now, wait }),
        None => None,
    }
}

/// Returns a timer of `wait` nanoseconds that begins now, if a wait is given.
pub fn timeout_from(now: Moment, wait: Option<Nanos>) -> Option<Timer>
    ensures { result ≡ rows.timeout_from now wait }
{
    match wait {
        Some(wait) => Some(Timer { set: now, wait }),
        None => None,
    }
}

/// Returns whether a timer is set and is due.
pub fn is_any_due(timer: &Option<Timer>, now: Moment) -> bool
    ensures { result ≡ clock.is_any_due timer.now now }
{
    match timer {
        Some(timer) => timer.is_due(now),
        None => false,
    }
}

/// Returns the wait after this many failures, in nanoseconds: half a second for each failure, and
/// ten seconds from the fifth on.
pub fn retry_wait(failures: u64) -> Nanos
    ensures { result ≡ rows.retry_wait failures }
{
    if failures < 5 {
        failures * 500_000_000
    } else {
        10_000_000_000
    }
}

fn resets(reason: Reason) -> bool
    ensures { result ≡ rows.resets reason }
{
    match reason {
        Reason::Low => false,
        Reason::Expired => true,
        Reason::Informed { reset } => reset,
    }
}

fn raised(reset: bool, amount: u64, pending: u64) -> u64
    ensures { result ≡ rows.raised reset amount pending }
{
    if reset {
        amount
    } else {
        pending.saturating_add(amount)
    }
}

fn extra_after(reason: Reason, unreset_requests: u64) -> u64
    ensures { result ≡ rows.extra_after reason unreset_requests }
{
    match reason {
        Reason::Low => unreset_requests,
        Reason::Expired => 0,
        Reason::Informed { reset: true } => 0,
        Reason::Informed { reset: false } => unreset_requests.saturating_add(1),
    }
}

impl Reader {
    /// Creates a reader that has asked for nothing yet.
    pub fn new(source: PullSource) -> Reader
        ensures { result ≡ new_reader source }
    {
        Reader {
            source,
            pending: 0,
            pending_bytes: 0,
            waiting: false,
            unreset_requests: 0,
            pin: None,
            expiry: None,
            heartbeat_timer: None,
            inquiry: InfoRequest::NoInfoRequest,
            ended: false,
        }
    }

    // At most half of the messages are pending, or of the bytes where they are limited.
    fn is_low(&self) -> bool
        ensures { result ≡ rows.is_low self.now }
    {
        let config = &self.source.config;
        self.pending <= config.batch / 2
            || (config.max_bytes > 0 && self.pending_bytes <= config.max_bytes / 2)
    }

    /// Returns whether a pull request follows: little is pending, `waiting` was not set, and no
    /// info request is open. Sets `waiting` if little is pending.
    pub fn threshold(&mut self) -> bool
        ensures reader { self.new ≡ (rows.threshold self.old).reader }
        ensures next { asks_if result ≡ (rows.threshold self.old).next }
    {
        if !self.is_low() || self.waiting {
            return false;
        }
        self.waiting = true;
        !is_asking(&self.inquiry)
    }

    /// Arms the expiry timer: five seconds after the expiry of a pull request.
    pub fn arm_expiry(&mut self, now: Moment)
        ensures { self.new ≡ rows.with_expiry now self.old }
    {
        self.expiry = armed_expiry(now, self.source.config.expires);
    }

    /// Arms the heartbeat timer: twice the heartbeat of a pull request.
    pub fn arm_silence(&mut self, now: Moment)
        ensures { self.new ≡ rows.with_silence now self.old }
    {
        self.heartbeat_timer = armed_silence(now, self.source.config.idle_heartbeat);
    }

    /// Lowers what is pending by this many messages and bytes, but not below 0.
    pub fn lower(&mut self, messages: u64, bytes: u64)
        ensures { self.new ≡ rows.lowered messages bytes self.old }
    {
        self.pending = self.pending.saturating_sub(messages);
        self.pending_bytes = self.pending_bytes.saturating_sub(bytes);
    }

    /// Counts a pull request that has gone out for this reason.
    pub fn count_request(&mut self, reason: Reason)
        ensures { self.new ≡ rows.asked reason self.old }
    {
        let reset = resets(reason);
        let config = &self.source.config;
        let pending = raised(reset, config.batch, self.pending);
        let pending_bytes = raised(reset, config.max_bytes, self.pending_bytes);
        self.pending = pending;
        self.pending_bytes = pending_bytes;
        self.waiting = false;
        self.unreset_requests = extra_after(reason, self.unreset_requests);
    }
}
