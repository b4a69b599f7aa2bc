//! Why a call on a bucket failed.
ghost use Rattle.std.specs.Prelude.{Some};
ghost use Rattle.js_store.specs.Error.{key_value_text, create_text, update_text, objects_text};

use js_base::Error;
use std::fmt;

/// Why getting or deleting a bucket of keys failed.
#[derive(Clone, Copy, Debug, PartialEq, Eq)]
pub enum KeyValueErrorKind {
    /// The bucket's name is invalid, and nothing was sent. Or the stream of that name keeps no
    /// value of a key, so it is no bucket.
    InvalidStoreName,
    /// Getting the bucket's stream failed. The source tells why.
    GetBucket,
    /// Deleting the bucket's stream failed. The source tells why.
    JetStream,
}

/// Why getting or deleting a bucket of keys failed, as an error. Its source is the server's error,
/// or the text of the error of the stream's call.
pub type KeyValueError = Error<KeyValueErrorKind>;

impl fmt::Display for KeyValueErrorKind {
    ghost output = { λ kind. Some (key_value_text kind) };

    fn fmt<W: fmt::Write>(&self, f: &mut fmt::Formatter<W>) -> fmt::Result {
        f.write_str(match self {
            KeyValueErrorKind::InvalidStoreName => "invalid Key Value Store name",
            KeyValueErrorKind::GetBucket => "failed to get the bucket",
            KeyValueErrorKind::JetStream => "JetStream error",
        })
    }
}

/// Why creating a bucket failed.
#[derive(Clone, Copy, Debug, PartialEq, Eq)]
pub enum CreateKeyValueErrorKind {
    /// The bucket's name is invalid. Nothing was sent.
    InvalidStoreName,
    /// The history is longer than 64 values of a key. Nothing was sent.
    TooLongHistory,
    /// The account query failed. Or, in `create_or_update_key_value`, the bucket's stream was
    /// neither changed nor created. The source tells why.
    JetStream,
    /// Creating the bucket's stream failed. The source tells why.
    BucketCreate,
    /// No answer to the request for the bucket's stream came before the timeout.
    TimedOut,
    /// The configuration has markers, and the server's API level is below 1. The stream was not
    /// asked for.
    LimitMarkersNotSupported,
}

/// Why creating a bucket failed, as an error. Its source is the server's error, or the text of the
/// error of the call that the bucket's call made.
pub type CreateKeyValueError = Error<CreateKeyValueErrorKind>;

/// Why creating a bucket of objects failed: `InvalidStoreName` or `BucketCreate`.
pub type CreateObjectStoreErrorKind = CreateKeyValueErrorKind;

/// Why creating a bucket of objects failed, as an error.
pub type CreateObjectStoreError = CreateKeyValueError;

impl fmt::Display for CreateKeyValueErrorKind {
    ghost output = { λ kind. Some (create_text kind) };

    fn fmt<W: fmt::Write>(&self, f: &mut fmt::Formatter<W>) -> fmt::Result {
        f.write_str(match self {
            CreateKeyValueErrorKind::InvalidStoreName => "invalid Key Value Store name",
            CreateKeyValueErrorKind::TooLongHistory => "too long history",
            CreateKeyValueErrorKind::JetStream => "JetStream error",
            CreateKeyValueErrorKind::BucketCreate => "bucket creation failed",
            CreateKeyValueErrorKind::TimedOut => "timed out",
            CreateKeyValueErrorKind::LimitMarkersNotSupported => "limit markers not supported",
        })
    }
}

/// Why changing a bucket of keys failed.
#[derive(Clone, Copy, Debug, PartialEq, Eq)]
pub enum UpdateKeyValueErrorKind {
    /// The bucket's name is invalid. Nothing was sent.
    InvalidStoreName,
    /// The history is longer than 64 values of a key. Nothing was sent.
    TooLongHistory,
    /// The account query failed, or changing the bucket's stream did. The source tells why.
    JetStream,
    /// Never returned.
    BucketUpdate,
    /// Never returned.
    TimedOut,
    /// The configuration has markers, and the server's API level is below 1. The change was not
    /// asked for.
    LimitMarkersNotSupported,
    /// The server knows no stream of that bucket. The source is its error.
    NotFound,
}

/// Why changing a bucket of keys failed, as an error. Its source is the server's error, or the text
/// of the error of the call that the bucket's call made.
pub type UpdateKeyValueError = Error<UpdateKeyValueErrorKind>;

impl fmt::Display for UpdateKeyValueErrorKind {
    ghost output = { λ kind. Some (update_text kind) };

    fn fmt<W: fmt::Write>(&self, f: &mut fmt::Formatter<W>) -> fmt::Result {
        f.write_str(match self {
            UpdateKeyValueErrorKind::InvalidStoreName => "invalid Key Value Store name",
            UpdateKeyValueErrorKind::TooLongHistory => "too long history",
            UpdateKeyValueErrorKind::JetStream => "JetStream error",
            UpdateKeyValueErrorKind::BucketUpdate => "bucket creation failed",
            UpdateKeyValueErrorKind::TimedOut => "timed out",
            UpdateKeyValueErrorKind::LimitMarkersNotSupported => "limit markers not supported",
            UpdateKeyValueErrorKind::NotFound => "bucket does not exist",
        })
    }
}

/// Why getting or deleting a bucket of objects failed.
#[derive(Clone, Copy, Debug, PartialEq, Eq)]
pub enum ObjectStoreErrorKind {
    /// The bucket's name is invalid. Nothing was sent.
    InvalidBucketName,
    /// Getting or deleting the bucket's stream failed. The source tells why.
    GetStore,
}

/// Why getting a bucket of objects failed, as an error. Its source is the server's error, or the
/// text of the error of the stream's call.
pub type ObjectStoreError = Error<ObjectStoreErrorKind>;

/// Why deleting a bucket of objects failed: `GetStore`.
pub type DeleteObjectStoreKind = ObjectStoreErrorKind;

/// Why deleting a bucket of objects failed, as an error.
pub type DeleteObjectStore = ObjectStoreError;

impl fmt::Display for ObjectStoreErrorKind {
    ghost output = { λ kind. Some (objects_text kind) };

    fn fmt<W: fmt::Write>(&self, f: &mut fmt::Formatter<W>) -> fmt::Result {
        f.write_str(match self {
            ObjectStoreErrorKind::InvalidBucketName => "invalid Object Store bucket name",
            ObjectStoreErrorKind::GetStore => "failed to get Object Store",
        })
    }
}
