//! Reading of JSON objects as Rust values, and writing of Rust values as JSON objects.
//!
//! To read, parse bytes with `value_of`, then fetch each member of the object by its key.
//! `required` fails if the member is absent. `defaulted` returns the default if it is absent.
//! `optional` returns `None` if it is absent or null. `given` returns `None` only if it is absent,
//! and reads null as it reads any other value.
//!
//! Implement `Member` for a type that is read from the value of one key, and `FromValue` for a type
//! that is read from a whole object. Keys that you do not ask for are ignored. If a key is
//! repeated, its last value counts. A failed read returns a `ReadError`, which names the key if the
//! member is absent, has the wrong JSON kind or is out of range.
//!
//! To write, add members to an `Object` one after another. `always` adds a member in every case,
//! `unless_blank` omits a default, `where_some` omits `None`, and `or_null` writes `None` as null.
//! An object keeps its members sorted by key. Implement `ToValue` for a type that is written as an
//! object. Its `to_text` returns compact JSON text.
#![tactic(auto)]

mod error;
mod float;
mod from_value;
mod instant;
mod key;
mod kinds;
mod member;
mod named;
mod object;
mod to_value;
mod value;
mod written;

pub use error::ReadError;
pub use float::has_float;
pub use from_value::{FromValue, nested};
pub use instant::{instant_of, instant_text};
pub use key::Key;
pub use kinds::PercentText;
pub use member::{Blank, Member, defaulted, given, optional, required};
pub use named::{Named, by_text};
pub use object::Object;
pub use to_value::ToValue;
pub use value::{has_only, value_of};
pub use written::Written;
