//! The rows of a pull reader. No row knows a link: the caller asks the link for what a row wishes,
//! and hands in what the row met.
//!
//! A row is passed in three steps. First, prepare what it needs: the texts of what it wishes
//! (`Reader::wish`) and what its reply says (`informed_of`). Second, meet what it wishes, at a link
//! (`ask`) or in an event of a replay; then take the pin of an arrival (`Reader::pin_of`). Third,
//! pass it (`Reader::pass`). Only the third step changes the reader; it takes no memory and always
//! succeeds.
ghost use Rattle.std.specs.Prelude.{◌≡◌, [], false, true, None, Some, Option, if◌then◌else◌};
ghost use Rattle.js_base.specs.declared.message.Message.{Message as SpecMessage};
ghost use Rattle.js_link.specs.Wish.{message_of};
ghost use Rattle.js_link.specs.declared.wish.Met.{Met as LinkMet};
ghost use Rattle.js_link.specs.declared.wish.Met.TheVariants.{Took};
ghost use Rattle.js_pull.specs.Kind.{pull_kind as kind_of};
ghost use Rattle.js_pull.specs.Passes.{publishing};
ghost use Rattle.js_pull.specs.Reader as rows;
ghost use Rattle.js_pull.specs.declared.reader.Row.TheVariants as read;
ghost use Rattle.js_pull.specs.Rows.{IsInformed, ReadsTo, Steps, StepsTo, finding_of, inquiry_step, passing_at, pin_brought, requesting, row_list, row_of, rows_with};

use crate::kind::{Kind, pull_kind};
use crate::passed_row::{PassedRow, heard, silent_row, tells};
use crate::reader::{
    InfoRequest, MessagesErrorKind, Reader, Reason, is_any_due, is_asking, retry_wait, timeout_from,
};
use crate::replies::Finding;
use js_base::{Message, Moment, State, Text, Timer};
use js_link::Met;

/// A row that is due: one thing that a reader does after its event has begun. The reply that
/// `Answered` reads is kept beside it.
#[derive(Clone, Copy)]
pub enum Due {
    /// Sends a pull request.
    Ask { reason: Reason },
    /// Lets a pull request follow if little is pending.
    Threshold,
    /// Arms the heartbeat timer.
    Arm,
    /// Requests the consumer's info, after this many failures.
    Inquire { failures: u64 },
    /// Handles an info request that has failed once more.
    FailInfoRequest { failures: u64 },
    /// Checks whether an open info request has its answer, or has come to its time.
    CheckInfoRequest,
    /// Reads the reply to an info request.
    Answered { failures: u64 },
    /// Checks whether the last pull request has expired.
    CheckExpiry,
    /// Takes the first message of the inbox, if it holds one.
    CheckArrival,
    /// Checks whether the heartbeat is missing.
    CheckSilence,
}

/// The rows of an event that are still to be passed, at most two.
#[derive(Clone, Copy)]
pub enum DueRows {
    Nothing,
    One(Due),
    Two(Due, Due),
}

/// What a row reports to the reader's user.
#[derive(Clone, Copy)]
pub enum Notice {
    Nothing,
    /// Hands out the message that was taken.
    Hands,
    /// Reports an error. `RequestLimitExceeded` comes with the description of the message that was
    /// taken.
    Tells(MessagesErrorKind),
}

/// What a row needs that takes memory, apart from the texts of what it wishes.
#[derive(Drop)]
pub struct Spare {
    /// What the row learns from the reply that it reads.
    pub informed: Finding,
    /// The pin that an arrival brings.
    pub pin: Option<Text>,
}

// ---- rows

impl Reader {
    /// Begins an event, with the connection's change, and returns the rows that follow.
    pub fn begin(&mut self, now: Moment, change: Option<State>) -> DueRows
        ensures reader { self.new ≡ (rows.begin_row (publishing now false) change self.old).reader }
        ensures next { (reply : Option SpecMessage) → (other : Option SpecMessage) → rows_with reply other result ≡ (rows.begin_row (publishing now false) change self.old).next }
    {
        if self.ended {
            return DueRows::Nothing;
        }
        if is_asking(&self.inquiry) {
            return DueRows::Two(Due::CheckInfoRequest, Due::CheckArrival);
        }
        match change {
            None => DueRows::Two(Due::CheckExpiry, Due::CheckArrival),
            Some(State::Connected) => DueRows::Two(Due::Inquire { failures: 0 }, Due::CheckArrival),
            Some(State::Pending) => {
                self.arm_expiry(now);
                DueRows::One(Due::CheckArrival)
            }
            Some(State::Disconnected) => {
                self.arm_expiry(now);
                DueRows::One(Due::CheckArrival)
            }
        }
    }

    /// Counts a pull request that has gone out, or reports the error if it was refused. Arms the
    /// expiry timer in both cases.
    pub fn pass_ask(&mut self, now: Moment, reason: Reason, goes_out: bool) -> PassedRow
        ensures { (met : LinkMet) → StepsTo (rows.ask (publishing now goes_out) reason self.old) met result self.new }
    {
        self.arm_expiry(now);
        if goes_out {
            self.count_request(reason);
            silent_row(None)
        } else {
            tells(MessagesErrorKind::Pull, None)
        }
    }

    /// Lets a pull request follow if little is pending.
    pub fn pass_threshold(&mut self) -> PassedRow
        ensures { (met : LinkMet) → StepsTo (rows.threshold self.old) met result self.new }
    {
        if self.threshold() {
            silent_row(Some(Due::Ask {
                reason: Reason::Low,
            }))
        } else {
            silent_row(None)
        }
    }

    /// Arms the heartbeat timer.
    pub fn pass_arm(&mut self, now: Moment) -> PassedRow
        ensures { (met : LinkMet) → StepsTo (rows.silent_row (rows.with_silence now self.old) []) met result self.new }
    {
        self.arm_silence(now);
        silent_row(None)
    }

    // ---- the consumer's info, after a reconnection

    /// Records the number of the info request. If it was refused, the try has failed.
    pub fn pass_inquire(&mut self, now: Moment, failures: u64, request: Option<u64>) -> PassedRow
        ensures { (met : LinkMet) → StepsTo (rows.inquire (requesting now request) failures self.old) met result self.new }
    {
        match request {
            None => silent_row(Some(Due::FailInfoRequest { failures })),
            Some(request) => {
                self.inquiry = InfoRequest::Asked {
                    request,
                    timeout: timeout_from(now, self.source.info_timeout),
                    failures,
                };
                silent_row(None)
            }
        }
    }

    /// Handles a failed info request: the next try waits. After the sixth failure it reports the
    /// error `Pull`, and a pull request follows.
    pub fn pass_fail_inquiry(&mut self, now: Moment, failures: u64) -> PassedRow
        ensures { (met : LinkMet) → StepsTo (rows.fail_inquiry (publishing now false) failures self.old) met result self.new }
    {
        if failures >= 5 {
            self.inquiry = InfoRequest::NoInfoRequest;
            return tells(
                MessagesErrorKind::Pull,
                Some(Due::Ask {
                    reason: Reason::Informed { reset: false },
                }),
            );
        }
        self.inquiry = InfoRequest::Resting {
            wait: Timer {
                set: now,
                wait: retry_wait(failures + 1),
            },
            failures: failures + 1,
        };
        silent_row(None)
    }

    // The consumer is gone: by the option that ends the reader, else the try has failed.
    fn pass_gone(&mut self, failures: u64) -> PassedRow
        ensures { (met : LinkMet) → StepsTo (rows.refused failures true self.old) met result self.new }
    {
        if self.source.resilience.recreates_when_gone {
            return self.end_with(MessagesErrorKind::ConsumerDeleted);
        }
        silent_row(Some(Due::FailInfoRequest { failures }))
    }

    /// Handles an answer to an info request that was read: a pull request follows if the consumer is
    /// there. If the consumer is gone, the reader ends by the option `recreates_when_gone`.
    /// Otherwise the try has failed.
    pub fn pass_answered(&mut self, failures: u64, informed: Finding) -> PassedRow
        ensures { (reply : Option SpecMessage) → (met : LinkMet) → informed ≡ finding_of (rows.info_reply reply)
            → StepsTo (rows.answered failures (rows.info_reply reply) self.old) met result self.new }
    {
        match informed {
            Finding::Nothing => silent_row(Some(Due::FailInfoRequest { failures })),
            Finding::Found { reset } => {
                self.inquiry = InfoRequest::NoInfoRequest;
                silent_row(Some(Due::Ask {
                    reason: Reason::Informed { reset },
                }))
            }
            Finding::Gone => self.pass_gone(failures),
        }
    }

    // ---- timers

    /// Lets a pull request follow if the last one has expired.
    pub fn pass_check_expiry(&mut self, now: Moment) -> PassedRow
        ensures { (met : LinkMet) → StepsTo (rows.row (publishing now false) None None read.CheckExpiry self.old) met result self.new }
    {
        if is_any_due(&self.expiry, now) {
            silent_row(Some(Due::Ask {
                reason: Reason::Expired,
            }))
        } else {
            silent_row(None)
        }
    }

    // By the option an info is requested after a missing heartbeat, unless a request is open.
    fn silence_inquiry(&self) -> Option<Due>
        ensures { (reply : Option SpecMessage) → row_list reply result ≡ rows.silence_inquiry self.now }
    {
        if self.source.resilience.asks_at_first_heartbeat && !is_asking(&self.inquiry) {
            Some(Due::Inquire { failures: 0 })
        } else {
            None
        }
    }

    /// Reports a missing heartbeat, and arms its timer again. By the option
    /// `asks_at_first_heartbeat` a request for the consumer's info follows, unless one is open.
    pub fn pass_check_silence(&mut self, now: Moment) -> PassedRow
        ensures { (met : LinkMet) → StepsTo (rows.check_silence (publishing now false) self.old) met result self.new }
    {
        if is_any_due(&self.heartbeat_timer, now) {
            self.arm_silence(now);
            tells(MessagesErrorKind::MissingHeartbeat, self.silence_inquiry())
        } else {
            silent_row(None)
        }
    }

    // ---- arrivals

    /// Handles an arrival. Keep its pin and arm the heartbeat timer before.
    pub fn hear(&mut self, message: &Message) -> PassedRow
        ensures { (reply : Option SpecMessage) → ReadsTo reply (Some message.now) (rows.hear message.now (kind_of message.now) self.old) self.new result }
    {
        match pull_kind(message) {
            Kind::Delivered => {
                self.lower(1, message.length);
                heard(Notice::Hands)
            }
            Kind::IdleHeartbeat => heard(Notice::Nothing),
            Kind::Deleted => self.end_with(MessagesErrorKind::ConsumerDeleted),
            Kind::PushBased => self.end_with(MessagesErrorKind::PushBasedConsumer),
            Kind::Limit => self.end_with(MessagesErrorKind::RequestLimitExceeded),
            Kind::Gone => heard(Notice::Tells(MessagesErrorKind::NoResponders)),
            Kind::Bad => heard(Notice::Tells(MessagesErrorKind::Other)),
            Kind::Ledger { messages, bytes } => {
                let messages = messages.unwrap_or(self.source.config.batch);
                let bytes = bytes.unwrap_or(self.source.config.max_bytes);
                self.lower(messages, bytes);
                heard(Notice::Nothing)
            }
        }
    }

    // An error ends the reader: no row follows.
    fn end_with(&mut self, kind: MessagesErrorKind) -> PassedRow
        ensures step { result ≡ record { told = Notice.Tells kind; next = None } }
        ensures reader { self.new ≡ record self.old { ended = true } }
    {
        self.ended = true;
        tells(kind, None)
    }

    /// Handles a message that was taken: arms the heartbeat timer, keeps the pin that the message
    /// may bring, and does what the message says.
    pub fn hear_arrival(&mut self, now: Moment, message: &Message, pin: Option<Text>) -> PassedRow
        requires { pin ≡ pin_brought self.old.source.pinned (Some message.now) }
        ensures { StepsTo (rows.check_arrival (publishing now false) (Some message.now) self.old) (Took message.now) result self.new }
    {
        self.arm_silence(now);
        self.keep_pin(message, pin);
        self.hear(message)
    }

    /// Handles the message that was taken. If none was taken, the check of the heartbeat follows.
    pub fn pass_check_arrival(&mut self, now: Moment, met: &Met, pin: Option<Text>) -> PassedRow
        requires { pin ≡ pin_brought self.old.source.pinned (message_of met.now) }
        ensures { StepsTo (rows.check_arrival (passing_at now met.now) (message_of met.now) self.old) met.now result self.new }
    {
        match met {
            Met::Took(message) => self.hear_arrival(now, message, pin),
            Met::Unasked
            | Met::GoneOut
            | Met::Refused
            | Met::Dropped
            | Met::Requested { .. }
            | Met::Opened { .. }
            | Met::Empty
            | Met::Shut
            | Met::Waiting
            | Met::Gone
            | Met::Got(_)
            | Met::Stands(_)
            | Met::WatchOver => {
                drop(pin);
                silent_row(Some(Due::CheckSilence))
            }
        }
    }

    // ---- each row

    /// Passes a row of an event that has begun, with what it met. Takes no memory.
    pub fn pass(&mut self, now: Moment, due: Due, spare: Spare, met: &Met) -> PassedRow
        requires pin { due ≡ Due.CheckArrival → spare.pin ≡ pin_brought self.old.source.pinned (message_of met.now) }
        ensures { (reply : Option SpecMessage) → IsInformed (row_of reply due) spare.informed → Steps now (row_of reply due) met.now result self.old self.new }
    {
        match due {
            Due::Ask { reason } => self.pass_ask(now, reason, met.request().is_some()),
            Due::Threshold => self.pass_threshold(),
            Due::Arm => self.pass_arm(now),
            Due::Inquire { failures } => self.pass_inquire(now, failures, met.request()),
            Due::FailInfoRequest { failures } => self.pass_fail_inquiry(now, failures),
            Due::CheckInfoRequest => check_inquiry(self.inquiry, now, met.is_answer()),
            Due::Answered { failures } => self.pass_answered(failures, spare.informed),
            Due::CheckExpiry => self.pass_check_expiry(now),
            Due::CheckArrival => self.pass_check_arrival(now, met, spare.pin),
            Due::CheckSilence => self.pass_check_silence(now),
        }
    }
}

fn failed_if(is_due: bool, failures: u64) -> Option<Due>
    ensures { result ≡ (if is_due then Some (Due.FailInfoRequest failures) else None) }
{
    if is_due {
        Some(Due::FailInfoRequest { failures })
    } else {
        None
    }
}

fn tried_if(is_due: bool, failures: u64) -> Option<Due>
    ensures { result ≡ (if is_due then Some (Due.Inquire failures) else None) }
{
    if is_due {
        Some(Due::Inquire { failures })
    } else {
        None
    }
}

/// Returns what follows from an open info request. If its answer has come (`is_answered`), the
/// answer counts even if the time is up.
pub fn check_inquiry(inquiry: InfoRequest, now: Moment, is_answered: bool) -> PassedRow
    ensures { result ≡ inquiry_step now is_answered inquiry }
{
    match inquiry {
        InfoRequest::NoInfoRequest => silent_row(None),
        InfoRequest::Asked { failures, .. } if is_answered => {
            silent_row(Some(Due::Answered { failures }))
        }
        InfoRequest::Asked {
            timeout,
            failures,
            ..
        } => silent_row(failed_if(is_any_due(&timeout, now), failures)),
        InfoRequest::Resting { wait, failures } => silent_row(tried_if(wait.is_due(now), failures)),
    }
}
