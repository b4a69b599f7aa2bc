//! Why creating or changing a bucket of keys fails before its stream is asked for.
ghost use Rattle.std.specs.Prelude.{◌≡◌};
ghost use Rattle.js_store.specs.declared.refusal.Refusal.{Refusal};
ghost use Rattle.js_store.specs.Refusal.{config_refusal as refusal_in, create_refusal, error_of, error_with, update_refusal};

use crate::error::{CreateKeyValueErrorKind, UpdateKeyValueErrorKind};
use crate::{is_valid_bucket_name, kv};
use js_base::{Error, Source};

/// Why the stream of a bucket is not asked for.
#[derive(Clone, Copy)]
pub enum Refusal {
    /// The bucket's name is invalid.
    InvalidStoreName,
    /// The history is longer than 64 values of a key.
    TooLongHistory,
    /// The account query failed.
    JetStream,
    /// The configuration has markers, and the server's API level is below 1.
    LimitMarkersNotSupported,
}

/// Why the stream of a bucket is not asked for, and the source of that error.
#[derive(Drop)]
pub struct Refused {
    pub refusal: Refusal,
    pub source: Option<Source>,
}

/// An error kind that has a kind for each [`Refusal`].
pub trait OfRefusal: Drop {
    /// The kind of each refusal.
    ghost of_refusal: { Refusal → Self };

    /// Returns the kind for a refusal.
    fn of_refusal(refusal: Refusal) -> Self
        ensures { result ≡ of_refusal refusal };
}

impl OfRefusal for CreateKeyValueErrorKind {
    ghost of_refusal = { create_refusal };

    fn of_refusal(refusal: Refusal) -> CreateKeyValueErrorKind {
        match refusal {
            Refusal::InvalidStoreName => CreateKeyValueErrorKind::InvalidStoreName,
            Refusal::TooLongHistory => CreateKeyValueErrorKind::TooLongHistory,
            Refusal::JetStream => CreateKeyValueErrorKind::JetStream,
            Refusal::LimitMarkersNotSupported => CreateKeyValueErrorKind::LimitMarkersNotSupported,
        }
    }
}

impl OfRefusal for UpdateKeyValueErrorKind {
    ghost of_refusal = { update_refusal };

    fn of_refusal(refusal: Refusal) -> UpdateKeyValueErrorKind {
        match refusal {
            Refusal::InvalidStoreName => UpdateKeyValueErrorKind::InvalidStoreName,
            Refusal::TooLongHistory => UpdateKeyValueErrorKind::TooLongHistory,
            Refusal::JetStream => UpdateKeyValueErrorKind::JetStream,
            Refusal::LimitMarkersNotSupported => UpdateKeyValueErrorKind::LimitMarkersNotSupported,
        }
    }
}

fn error_with<K>(kind: K, source: Option<Source>) -> Error<K>
    ensures { result ≡ error_with kind source }
{
    match source {
        None => Error::new(kind),
        Some(source) => Error::with_source(kind, source),
    }
}

impl Refused {
    /// Returns the refusal as an error of this kind.
    pub(crate) fn into_error<K: OfRefusal>(self) -> Error<K>
        ensures { result ≡ error_of K.of_refusal self }
    {
        let Refused { refusal, source } = self;
        error_with(K::of_refusal(refusal), source)
    }
}

/// Returns the error for an invalid configuration, before anything is sent. It checks the name,
/// then the history.
pub(crate) fn config_refusal(config: &kv::Config) -> Option<Refusal>
    ensures { result ≡ refusal_in config.now }
{
    if !is_valid_bucket_name(config.bucket.as_str()) {
        Some(Refusal::InvalidStoreName)
    } else if config.history > kv::MAX_HISTORY {
        Some(Refusal::TooLongHistory)
    } else {
        None
    }
}
