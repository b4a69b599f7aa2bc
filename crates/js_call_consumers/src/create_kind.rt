//! The three calls that create or update a consumer: what each asks for, and how each fails.
ghost use Rattle.std.specs.Prelude.{◌≡◌};
ghost use Rattle.js_call_consumers.specs.CreateKind.{Kinds, consumer_kinds, strict_kinds, update_kinds, consumer_failure};

use crate::error::{ConsumerCreateStrictErrorKind, ConsumerErrorKind, ConsumerUpdateErrorKind};
use js_base::Error;
use js_call::RequestErrorKind;
use js_codes::{ErrorCode, errors};
use js_json::consumer::Action;

/// The error kinds of a call that creates or updates a consumer. The type selects the call.
pub trait CreateKind: Drop {
    ghost kinds: { Kinds Self };

    /// Returns what the request asks for.
    fn action() -> Action
        ensures { result ≡ kinds.action };

    /// Returns the kind for a request without a readable reply.
    fn of_request(kind: RequestErrorKind) -> Self
        ensures { result ≡ kinds.of_request kind };

    /// Returns the call's error for an API error.
    fn of_api(error: errors::Error) -> Error<Self>
        ensures { result ≡ kinds.of_api error };

    /// Returns the kind for a created consumer of another kind.
    fn other() -> Self
        ensures { result ≡ kinds.other };
}

/// Maps the error of a request without a readable reply to the kind that calls on consumers return.
pub(crate) fn consumer_failure(kind: RequestErrorKind) -> ConsumerErrorKind
    ensures { result ≡ consumer_failure kind }
{
    match kind {
        RequestErrorKind::TimedOut => ConsumerErrorKind::TimedOut,
        _ => ConsumerErrorKind::Request,
    }
}

impl CreateKind for ConsumerErrorKind {
    ghost kinds = { consumer_kinds };

    fn action() -> Action {
        Action::CreateOrUpdate
    }

    fn of_request(kind: RequestErrorKind) -> Self {
        consumer_failure(kind)
    }

    fn of_api(error: errors::Error) -> Error<Self> {
        Error::new(ConsumerErrorKind::JetStream(error))
    }

    fn other() -> Self {
        ConsumerErrorKind::Other
    }
}

impl CreateKind for ConsumerCreateStrictErrorKind {
    ghost kinds = { strict_kinds };

    fn action() -> Action {
        Action::Create
    }

    fn of_request(kind: RequestErrorKind) -> Self {
        match kind {
            RequestErrorKind::TimedOut => ConsumerCreateStrictErrorKind::TimedOut,
            _ => ConsumerCreateStrictErrorKind::Request,
        }
    }

    fn of_api(error: errors::Error) -> Error<Self> {
        if error.err_code == ErrorCode::CONSUMER_ALREADY_EXISTS {
            let kind = ConsumerCreateStrictErrorKind::AlreadyExists;
            Error::with_source(kind, error.into_source())
        } else {
            Error::new(ConsumerCreateStrictErrorKind::JetStream(error))
        }
    }

    fn other() -> Self {
        ConsumerCreateStrictErrorKind::Other
    }
}

impl CreateKind for ConsumerUpdateErrorKind {
    ghost kinds = { update_kinds };

    fn action() -> Action {
        Action::Update
    }

    fn of_request(kind: RequestErrorKind) -> Self {
        match kind {
            RequestErrorKind::TimedOut => ConsumerUpdateErrorKind::TimedOut,
            _ => ConsumerUpdateErrorKind::Request,
        }
    }

    fn of_api(error: errors::Error) -> Error<Self> {
        if error.err_code == ErrorCode::CONSUMER_DOES_NOT_EXIST {
            let kind = ConsumerUpdateErrorKind::DoesNotExist;
            Error::with_source(kind, error.into_source())
        } else {
            Error::new(ConsumerUpdateErrorKind::JetStream(error))
        }
    }

    fn other() -> Self {
        ConsumerUpdateErrorKind::Other
    }
}
