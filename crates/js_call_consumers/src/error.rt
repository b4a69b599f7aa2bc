//! Why a call on a consumer failed.
ghost use Rattle.std.specs.Prelude.{◌≡◌, Some, option_copied};
ghost use Rattle.js_call_consumers.specs.Error.{info_text, info_held, consumer_text, consumer_held, strict_text, strict_held, update_text, update_held};

use js_base::Error;
use js_codes::errors;
use std::fmt;

/// Why a consumer's info could not be fetched.
#[derive(Debug, PartialEq, Eq, Drop)]
pub enum ConsumerInfoErrorKind {
    /// The full subject is invalid. Nothing was sent.
    InvalidName,
    /// The consumer is offline.
    Offline,
    /// The API knows no such consumer.
    NotFound,
    /// The API knows no such stream.
    StreamNotFound,
    /// The request got no reply for another reason, or its reply cannot be read.
    Request,
    /// The API returned another error.
    JetStream(errors::Error),
    /// The timeout expired before an answer came.
    TimedOut,
    /// Nobody answers.
    NoResponders,
}

/// The error of a request for a consumer's info. Its source is the text of the request's or the
/// reply's error, or the server's error if the kind does not hold it.
pub type ConsumerInfoError = Error<ConsumerInfoErrorKind>;

impl ConsumerInfoErrorKind {
    /// Returns the server's error if the kind is `JetStream`. The kind holds it; the source does
    /// not.
    pub fn api_error(&self) -> Option<&errors::Error>
        ensures { option_copied result ≡ info_held self.now }
    {
        match self {
            ConsumerInfoErrorKind::JetStream(error) => Some(error),
            _ => None,
        }
    }
}

impl fmt::Display for ConsumerInfoErrorKind {
    ghost output = { λ kind. Some (info_text kind) };

    fn fmt<W: fmt::Write>(&self, f: &mut fmt::Formatter<W>) -> fmt::Result {
        let text = match self {
            ConsumerInfoErrorKind::InvalidName => "invalid consumer name",
            ConsumerInfoErrorKind::Offline => "consumer is offline",
            ConsumerInfoErrorKind::NotFound => "consumer not found",
            ConsumerInfoErrorKind::StreamNotFound => "stream not found",
            ConsumerInfoErrorKind::Request => "request error",
            ConsumerInfoErrorKind::JetStream(error) => return write!(f, "jetstream error: {error}"),
            ConsumerInfoErrorKind::TimedOut => "timed out",
            ConsumerInfoErrorKind::NoResponders => "no responders",
        };
        f.write_str(text)
    }
}

/// Why a consumer could not be looked up, created or deleted.
#[derive(Debug, PartialEq, Eq, Drop)]
pub enum ConsumerErrorKind {
    /// The name is not a valid consumer or stream name. Nothing was sent.
    InvalidName,
    /// The timeout expired before an answer came.
    TimedOut,
    /// The request got no reply for another reason, or its reply cannot be read. Or the
    /// configuration cannot be written as JSON, and nothing was sent.
    Request,
    /// The consumer that was looked up is of another kind.
    InvalidConsumerType,
    /// The API returned an error.
    JetStream(errors::Error),
    /// The created consumer is of another kind. Or, on deletion, the stream's name is invalid, and
    /// nothing was sent.
    Other,
}

/// The error of looking up, creating or deleting a consumer. Its source is the text of the
/// request's or the reply's error, or why the configuration is of another kind or cannot be written
/// as JSON.
pub type ConsumerError = Error<ConsumerErrorKind>;

impl ConsumerErrorKind {
    /// Returns the server's error if the kind is `JetStream`. The kind holds it; the source does
    /// not.
    pub fn api_error(&self) -> Option<&errors::Error>
        ensures { option_copied result ≡ consumer_held self.now }
    {
        match self {
            ConsumerErrorKind::JetStream(error) => Some(error),
            _ => None,
        }
    }
}

impl fmt::Display for ConsumerErrorKind {
    ghost output = { λ kind. Some (consumer_text kind) };

    fn fmt<W: fmt::Write>(&self, f: &mut fmt::Formatter<W>) -> fmt::Result {
        let text = match self {
            ConsumerErrorKind::InvalidName => "invalid consumer name",
            ConsumerErrorKind::TimedOut => "timed out",
            ConsumerErrorKind::Request => "request error",
            ConsumerErrorKind::InvalidConsumerType => "invalid consumer type",
            ConsumerErrorKind::JetStream(error) => return write!(f, "JetStream error: {error}"),
            ConsumerErrorKind::Other => "consumer error",
        };
        f.write_str(text)
    }
}

/// Why a strict creation of a consumer failed.
#[derive(Debug, PartialEq, Eq, Drop)]
pub enum ConsumerCreateStrictErrorKind {
    /// Never returned.
    InvalidName,
    /// The timeout expired before an answer came.
    TimedOut,
    /// The request got no reply for another reason, or its reply cannot be read. Or the
    /// configuration cannot be written as JSON, and nothing was sent.
    Request,
    /// Never returned.
    InvalidConsumerType,
    /// The API returned another error.
    JetStream(errors::Error),
    /// The created consumer is of another kind.
    Other,
    /// A consumer of that name with another configuration exists.
    AlreadyExists,
}

/// The error of a strict creation of a consumer. Its source is that of a `ConsumerError`, or the
/// server's error for `AlreadyExists`.
pub type ConsumerCreateStrictError = Error<ConsumerCreateStrictErrorKind>;

impl ConsumerCreateStrictErrorKind {
    /// Returns the server's error if the kind is `JetStream`. The kind holds it; the source does
    /// not.
    pub fn api_error(&self) -> Option<&errors::Error>
        ensures { option_copied result ≡ strict_held self.now }
    {
        match self {
            ConsumerCreateStrictErrorKind::JetStream(error) => Some(error),
            _ => None,
        }
    }
}

impl fmt::Display for ConsumerCreateStrictErrorKind {
    ghost output = { λ kind. Some (strict_text kind) };

    fn fmt<W: fmt::Write>(&self, f: &mut fmt::Formatter<W>) -> fmt::Result {
        let text = match self {
            ConsumerCreateStrictErrorKind::InvalidName => "invalid consumer name",
            ConsumerCreateStrictErrorKind::TimedOut => "timed out",
            ConsumerCreateStrictErrorKind::Request => "request error",
            ConsumerCreateStrictErrorKind::InvalidConsumerType => "invalid consumer type",
            ConsumerCreateStrictErrorKind::JetStream(error) => return write!(
                f,
                "JetStream error: {error}"
            ),
            ConsumerCreateStrictErrorKind::Other => "consumer error",
            ConsumerCreateStrictErrorKind::AlreadyExists => "consumer already exists",
        };
        f.write_str(text)
    }
}

/// Why a consumer could not be updated.
#[derive(Debug, PartialEq, Eq, Drop)]
pub enum ConsumerUpdateErrorKind {
    /// Never returned.
    InvalidName,
    /// The timeout expired before an answer came.
    TimedOut,
    /// The request got no reply for another reason, or its reply cannot be read. Or the
    /// configuration cannot be written as JSON, and nothing was sent.
    Request,
    /// Never returned.
    InvalidConsumerType,
    /// The API returned another error.
    JetStream(errors::Error),
    /// The updated consumer is of another kind.
    Other,
    /// The stream has no consumer of that name.
    DoesNotExist,
}

/// The error of a consumer update. Its source is that of a `ConsumerError`, or the server's error
/// for `DoesNotExist`.
pub type ConsumerUpdateError = Error<ConsumerUpdateErrorKind>;

impl ConsumerUpdateErrorKind {
    /// Returns the server's error if the kind is `JetStream`. The kind holds it; the source does
    /// not.
    pub fn api_error(&self) -> Option<&errors::Error>
        ensures { option_copied result ≡ update_held self.now }
    {
        match self {
            ConsumerUpdateErrorKind::JetStream(error) => Some(error),
            _ => None,
        }
    }
}

impl fmt::Display for ConsumerUpdateErrorKind {
    ghost output = { λ kind. Some (update_text kind) };

    fn fmt<W: fmt::Write>(&self, f: &mut fmt::Formatter<W>) -> fmt::Result {
        let text = match self {
            ConsumerUpdateErrorKind::InvalidName => "invalid consumer name",
            ConsumerUpdateErrorKind::TimedOut => "timed out",
            ConsumerUpdateErrorKind::Request => "request error",
            ConsumerUpdateErrorKind::InvalidConsumerType => "invalid consumer type",
            ConsumerUpdateErrorKind::JetStream(error) => return write!(
                f,
                "JetStream error: {error}"
            ),
            ConsumerUpdateErrorKind::Other => "consumer error",
            ConsumerUpdateErrorKind::DoesNotExist => "consumer does not exist",
        };
        f.write_str(text)
    }
}
