//! The members of an object: required ones, those with a default, and those that may be absent.

ghost use Rattle.std.specs.Prelude.{◌≡◌, Result, None};
ghost use Rattle.serde_json.specs.Data.{Data};
ghost use Rattle.serde_json.specs.View.{view};
ghost use Rattle.js_json_members.specs.Member.{Gives, required as required_in, optional as optional_in, given as given_in};
ghost use Rattle.js_json_members.specs.Member.{defaulted as defaulted_in, unless_null};
ghost use Rattle.js_json_members.specs.declared.error.ReadError.{ReadError};
ghost use Rattle.js_json_members.specs.declared.key.Key.{Key};

use crate::error::ReadError;
use crate::key::Key;
use serde_json::Value;
use std::alloc::Global;

/// Implement `Member` for a type that is read from the value of one key.
pub trait Member: Drop {
    /// What reading a JSON value under a key returns: the value or the error.
    ghost reads: { Key → Data → Result Self ReadError };

    /// Reads the JSON value that an object has under `key`.
    ///
    /// Fails with the error that `reads` gives, or with `OutOfMemory` if memory runs out.
    fn read(alloc: Global, key: Key, value: &Value) -> Result<Self, ReadError>
        ensures { Gives result (reads key (view value.now)) };
}

/// Implement `Blank` for a type that has a default if its member is absent.
pub trait Blank: Member {
    /// The default of an absent member.
    ghost blank: { Self };

    /// Returns the default.
    /// It allocates nothing.
    fn blank(alloc: Global) -> Self
        ensures { result ≡ blank };
}

/// Reads a member that must be present.
///
/// Fails with `Missing` if `object` has no such key or is not an object. Otherwise it fails as
/// reading the member fails.
#[tactic(auto, unfolding(crate::specs::Member::required))]
pub fn required<T: Member>(alloc: Global, object: &Value, key: Key) -> Result<T, ReadError>
    ensures { Gives result (required_in T.reads key (view object.now)) }
{
    match object.get(key.name()) {
        None => Err(ReadError::Missing { key }),
        Some(value) => T::read(alloc, key, value),
    }
}

/// Reads a member, or returns its default if it is absent.
///
/// It also returns the default if `object` is not an object. It fails as reading the member fails.
#[tactic(auto, unfolding(crate::specs::Member::defaulted))]
pub fn defaulted<T: Blank>(alloc: Global, object: &Value, key: Key) -> Result<T, ReadError>
    ensures { Gives result (defaulted_in T.Member.reads key T.blank (view object.now)) }
{
    match object.get(key.name()) {
        None => Ok(T::blank(alloc)),
        Some(value) => T::read(alloc, key, value),
    }
}

/// Reads a member, or returns `None` if it is absent or null.
///
/// It also returns `None` if `object` is not an object. It fails as reading the member fails.
#[tactic(auto, unfolding(crate::specs::Member::optional, crate::specs::Member::defaulted))]
pub fn optional<T: Member>(alloc: Global, object: &Value, key: Key) -> Result<Option<T>, ReadError>
    ensures { Gives result (optional_in T.reads key (view object.now)) }
{
    defaulted(alloc, object, key)
}

/// Reads a member, or returns `None` if it is absent.
///
/// It reads null as it reads any other value. It also returns `None` if `object` is not an object.
/// It fails as reading the member fails.
#[tactic(auto, unfolding(crate::specs::Member::given))]
pub fn given<T: Member>(alloc: Global, object: &Value, key: Key) -> Result<Option<T>, ReadError>
    ensures { Gives result (given_in T.reads key (view object.now)) }
{
    match object.get(key.name()) {
        None => Ok(None),
        Some(value) => Ok(Some(T::read(alloc, key, value)?)),
    }
}

impl<T: Member> Member for Option<T> {
    ghost reads = { unless_null T.reads };

    fn read(alloc: Global, key: Key, value: &Value) -> Result<Option<T>, ReadError> {
        match value {
            Value::Null => Ok(None),
            value => Ok(Some(T::read(alloc, key, value)?)),
        }
    }
}

impl<T: Member> Blank for Option<T> {
    ghost blank = { None };

    fn blank(_alloc: Global) -> Option<T> {
        None
    }
}
