//! Why an account query failed.
ghost use Rattle.std.specs.Prelude.{◌≡◌, Some, option_copied};
ghost use Rattle.js_call_streams.specs.AccountError.{account_text, account_held, account_kind};

use js_base::Error;
use js_call::RequestErrorKind;
use js_codes::errors;
use std::fmt;

/// Why an account query failed.
#[derive(Debug, PartialEq, Eq, Drop)]
pub enum AccountErrorKind {
    /// The timeout expired before an answer came.
    TimedOut,
    /// The API returned this error.
    JetStream(errors::Error),
    /// The request got no reply for another reason, or its reply cannot be read. The source says
    /// which.
    Other,
    /// Nobody answers: JetStream is unavailable, or not enabled for this account.
    JetStreamUnavailable,
}

/// The error of an account query. Its source is the text of the request's error, or of the read
/// error if the reply cannot be read.
pub type AccountError = Error<AccountErrorKind>;

impl AccountErrorKind {
    /// Returns the server's error if the kind is `JetStream`. The kind holds it; the source does
    /// not.
    pub fn api_error(&self) -> Option<&errors::Error>
        ensures { option_copied result ≡ account_held self.now }
    {
        match self {
            AccountErrorKind::JetStream(error) => Some(error),
            _ => None,
        }
    }
}

impl fmt::Display for AccountErrorKind {
    ghost output = { λ kind. Some (account_text kind) };

    fn fmt<W: fmt::Write>(&self, f: &mut fmt::Formatter<W>) -> fmt::Result {
        let text = match self {
            AccountErrorKind::TimedOut => "timed out",
            AccountErrorKind::JetStream(error) => return write!(f, "JetStream error: {error}"),
            AccountErrorKind::Other => "error",
            AccountErrorKind::JetStreamUnavailable => "JetStream unavailable",
        };
        f.write_str(text)
    }
}

/// Maps the error of a request without a readable reply to that of an account query.
pub(crate) fn account_kind(kind: RequestErrorKind) -> AccountErrorKind
    ensures { result ≡ account_kind kind }
{
    match kind {
        RequestErrorKind::NoResponders => AccountErrorKind::JetStreamUnavailable,
        RequestErrorKind::TimedOut => AccountErrorKind::TimedOut,
        RequestErrorKind::InvalidSubject => AccountErrorKind::Other,
        RequestErrorKind::Other => AccountErrorKind::Other,
    }
}
