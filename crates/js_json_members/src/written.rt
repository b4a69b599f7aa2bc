//! Writing of texts, numbers, booleans, instants, lists and maps as members.

ghost use Rattle.std.specs.Prelude.{◌≡◌, not, false, Bool, Result, map};
ghost use Rattle.serde_json.specs.Data.{Data, no_members};
ghost use Rattle.serde_json.specs.View.{view, members_view};
ghost use Rattle.serde_json.specs.Written.{members_have_float};
ghost use Rattle.js_json_members.specs.Rows.{Shows, ShowsAs, list_has_float, text_data, natural_data, integer_data};
ghost use Rattle.js_json_members.specs.Rows.{truth_data, percent_data, instant_data, list_data, all_data, by_name_data};
ghost use Rattle.js_json_members.specs.Rows.{entries_data, is_empty, is_zero, is_zero_integer};
ghost use Rattle.js_json_members.specs.declared.error.ReadError.{ReadError};
ghost use Rattle.js_json_members.specs.declared.key.Key.{Key};

use crate::error::ReadError;
use crate::instant::instant_text;
use crate::key::Key;
use jiff::Timestamp;
use js_base::{ByName, Items, Text};
use serde_json::{Map, Value};
use std::alloc::Global;
use std::collections::BTreeMap;

/// Implement `Written` for a type that is written as the value of one key.
pub trait Written: Drop {
    /// What writing a value under a key returns: the JSON value or the error.
    ghost writes: { Key → Self → Result Data ReadError };

    /// Whether a value is the default.
    ghost is_blank: { Self → Bool };

    /// Returns the JSON value to write under `key`, which contains no float.
    ///
    /// Fails with the error that `writes` gives, or with `OutOfMemory` if memory runs out.
    fn write(&self, alloc: Global, key: Key) -> Result<Value, ReadError>
        ensures { Shows result (writes key self.now) };

    /// Returns whether the value is the default, which `Object::unless_blank` omits.
    fn is_blank(&self) -> bool
        ensures { result ≡ is_blank self.now };
}

impl Written for Text {
    ghost writes = { text_data };

    ghost is_blank = { is_empty };

    fn write(&self, alloc: Global, _key: Key) -> Result<Value, ReadError> {
        Ok(Value::try_from_str(alloc, self.as_str())?)
    }

    fn is_blank(&self) -> bool {
        self.as_str().is_empty()
    }
}

impl Written for u64 {
    ghost writes = { natural_data };

    ghost is_blank = { is_zero };

    fn write(&self, _alloc: Global, _key: Key) -> Result<Value, ReadError> {
        Ok(Value::from(*self))
    }

    fn is_blank(&self) -> bool {
        *self == 0
    }
}

impl Written for i64 {
    ghost writes = { integer_data };

    ghost is_blank = { is_zero_integer };

    #[tactic(auto, using(crate::proofs::Floats::integer_is_no_float))]
    fn write(&self, _alloc: Global, _key: Key) -> Result<Value, ReadError> {
        Ok(Value::from(*self))
    }

    fn is_blank(&self) -> bool {
        *self == 0
    }
}

impl Written for bool {
    ghost writes = { truth_data };

    ghost is_blank = { not };

    fn write(&self, _alloc: Global, _key: Key) -> Result<Value, ReadError> {
        Ok(Value::from(*self))
    }

    fn is_blank(&self) -> bool {
        !*self
    }
}

/// Writes the number as text, in decimal.
impl Written for u8 {
    ghost writes = { percent_data };

    ghost is_blank = { is_zero };

    fn write(&self, alloc: Global, _key: Key) -> Result<Value, ReadError> {
        let number = *self;
        Ok(Value::String(format!(in alloc; "{number}")?))
    }

    fn is_blank(&self) -> bool {
        *self == 0
    }
}

/// Writes an instant as text in UTC.
///
/// It fails with `OutOfRange` if the year is before 0. No instant is the default.
impl Written for Timestamp {
    ghost writes = { instant_data };

    ghost is_blank = { λ _. false };

    fn write(&self, alloc: Global, key: Key) -> Result<Value, ReadError> {
        match instant_text(alloc, *self)? {
            None => Err(ReadError::OutOfRange { key }),
            Some(text) => Ok(Value::String(text.into_string())),
        }
    }

    fn is_blank(&self) -> bool {
        false
    }
}

impl<T: Written> Written for Items<T> {
    ghost writes = { list_data T.writes };

    ghost is_blank = { is_empty };

    #[tactic(auto, unfolding(crate::specs::Rows::list_data))]
    fn write(&self, alloc: Global, key: Key) -> Result<Value, ReadError> {
        Ok(Value::Array(all_written(alloc, key, self.as_slice())?))
    }

    fn is_blank(&self) -> bool {
        self.is_empty()
    }
}

fn all_written<T: Written>(alloc: Global, key: Key, items: &[T]) -> Result<Vec<Value>, ReadError>
    ensures { ShowsAs (λ v. map view v.items) list_has_float result (all_data T.writes key items.now) }
{
    let mut values = Vec::with_capacity(alloc, items.len())?;
    for item in items {
        values.push(item.write(alloc, key)?)?;
    }
    Ok(values)
}

impl<T: Written> Written for ByName<T> {
    ghost writes = { by_name_data T.writes };

    ghost is_blank = { is_empty };

    #[tactic(auto, unfolding(crate::specs::Rows::by_name_data))]
    fn write(&self, alloc: Global, key: Key) -> Result<Value, ReadError> {
        Ok(Value::Object(entries_written(alloc, key, self.as_map())?))
    }

    fn is_blank(&self) -> bool {
        self.is_empty()
    }
}

#[tactic(auto, using(crate::proofs::Floats::no_float_put))]
fn entries_written<T: Written>(
    alloc: Global,
    key: Key,
    entries: &BTreeMap<Text, T>,
) -> Result<Map<String, Value>, ReadError>
    ensures { ShowsAs (λ m. members_view m.entries) members_have_float result
        (entries_data T.writes key no_members entries.now.entries) }
{
    let mut members = Map::new(alloc);
    for (name, value) in entries.iter() {
        let value = value.write(alloc, key)?;
        serde_json::put(&mut members, alloc, name.as_str(), value)?;
    }
    Ok(members)
}
