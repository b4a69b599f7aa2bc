//! JSON objects that are built member by member.

ghost use Rattle.std.specs.Prelude.{Ok, Option, Result, option_map};
ghost use Rattle.serde_json.specs.Data.{Data, Members, no_members};
ghost use Rattle.serde_json.specs.View.{view, members_view};
ghost use Rattle.serde_json.specs.Written.{members_have_float};
ghost use Rattle.js_json_members.specs.Rows.{Shows, ShowsAs, row_has_float, with_row, some as some_in, unless as unless_in};
ghost use Rattle.js_json_members.specs.Rows.{where_some as some_in_row, or_null as null_in_row};
ghost use Rattle.js_json_members.specs.declared.error.ReadError.{ReadError};

use crate::error::ReadError;
use crate::key::Key;
use crate::written::Written;
use serde_json::{Map, Value};
use std::alloc::Global;

/// A JSON object to which you add members one after another.
///
/// Each method that adds a member takes the object and returns it. A later member replaces an
/// earlier one with the same key. If a member fails, the object keeps that error, adds no later
/// member, and `finish` returns the error.
#[derive(Drop)]
pub struct Object {
    members: Result<Map<String, Value>, ReadError>,
}

impl Object {
    ghost use Rattle.js_json_members.specs.Object.{Holds};
    ghost use Rattle.js_json_members.specs.Rows.{object_of, always, unless, where_some, or_null};

    /// Returns an object with no members.
    /// It allocates nothing.
    pub fn new(alloc: Global) -> Object
        ensures { Holds result (Ok no_members) }
    {
        Object {
            members: Ok(Map::new(alloc)),
        }
    }

    fn put(self, alloc: Global, key: Key, value: Result<Option<Value>, ReadError>) -> Object
        ensures { (rows : Result Members ReadError) (row : Result (Option Data) ReadError)
            → Holds self rows → ShowsAs (option_map view) row_has_float value row
            → Holds result (with_row key row rows) }
    {
        let Object { members } = self;
        Object {
            members: put(alloc, members, key, value),
        }
    }

    /// Adds a member in every case.
    pub fn always<T: Written>(self, alloc: Global, key: Key, value: &T) -> Object
        ensures { (rows : Result Members ReadError) → Holds self rows
            → Holds result (with_row key (always T.writes key value.now) rows) }
    {
        let value = some(value.write(alloc, key));
        self.put(alloc, key, value)
    }

    /// Adds a member unless the value is the default.
    pub fn unless_blank<T: Written>(self, alloc: Global, key: Key, value: &T) -> Object
        ensures { (rows : Result Members ReadError) → Holds self rows
            → Holds result (with_row key (unless T.is_blank T.writes key value.now) rows) }
    {
        let value = some_unless_blank(alloc, key, value);
        self.put(alloc, key, value)
    }

    /// Adds a member if there is a value, and nothing if it is `None`.
    pub fn where_some<T: Written>(self, alloc: Global, key: Key, value: &Option<T>) -> Object
        ensures { (rows : Result Members ReadError) → Holds self rows
            → Holds result (with_row key (where_some T.writes key value.now) rows) }
    {
        let value = some_of(alloc, key, value);
        self.put(alloc, key, value)
    }

    /// Adds a member, which is null if the value is `None`.
    pub fn or_null<T: Written>(self, alloc: Global, key: Key, value: &Option<T>) -> Object
        ensures { (rows : Result Members ReadError) → Holds self rows
            → Holds result (with_row key (or_null T.writes key value.now) rows) }
    {
        let value = some_or_null(alloc, key, value);
        self.put(alloc, key, value)
    }

    /// Returns the JSON object, which contains no float.
    ///
    /// Fails with the error of the first member that failed.
    #[tactic(auto, unfolding(crate::specs::Rows::object_of))]
    pub fn finish(self) -> Result<Value, ReadError>
        ensures { (rows : Result Members ReadError) → Holds self rows → Shows result (object_of rows) }
    {
        let Object { members } = self;
        Ok(Value::Object(members?))
    }
}

#[tactic(auto, unfolding(crate::specs::Rows::with_row), using(crate::proofs::Floats::no_float_put))]
fn put(
    alloc: Global,
    members: Result<Map<String, Value>, ReadError>,
    key: Key,
    value: Result<Option<Value>, ReadError>,
) -> Result<Map<String, Value>, ReadError>
    ensures { (rows : Result Members ReadError) (row : Result (Option Data) ReadError)
        → ShowsAs (λ m. members_view m.entries) members_have_float members rows
        → ShowsAs (option_map view) row_has_float value row
        → ShowsAs (λ m. members_view m.entries) members_have_float result (with_row key row rows) }
{
    let mut members = members?;
    if let Some(value) = value? {
        serde_json::put(&mut members, alloc, key.name(), value)?;
    }
    Ok(members)
}

fn some(value: Result<Value, ReadError>) -> Result<Option<Value>, ReadError>
    ensures { (d : Result Data ReadError) → Shows value d → ShowsAs (option_map view) row_has_float result (some_in d) }
{
    Ok(Some(value?))
}

#[tactic(auto, unfolding(crate::specs::Rows::unless))]
fn some_unless_blank<T: Written>(
    alloc: Global,
    key: Key,
    value: &T,
) -> Result<Option<Value>, ReadError>
    ensures { ShowsAs (option_map view) row_has_float result (unless_in T.is_blank T.writes key value.now) }
{
    if value.is_blank() {
        return Ok(None);
    }
    some(value.write(alloc, key))
}

#[tactic(auto, unfolding(crate::specs::Rows::where_some))]
fn some_of<T: Written>(
    alloc: Global,
    key: Key,
    value: &Option<T>,
) -> Result<Option<Value>, ReadError>
    ensures { ShowsAs (option_map view) row_has_float result (some_in_row T.writes key value.now) }
{
    match value {
        None => Ok(None),
        Some(value) => some(value.write(alloc, key)),
    }
}

#[tactic(auto, unfolding(crate::specs::Rows::or_null))]
fn some_or_null<T: Written>(
    alloc: Global,
    key: Key,
    value: &Option<T>,
) -> Result<Option<Value>, ReadError>
    ensures { ShowsAs (option_map view) row_has_float result (null_in_row T.writes key value.now) }
{
    match value {
        None => Ok(Some(Value::Null)),
        Some(value) => some(value.write(alloc, key)),
    }
}
