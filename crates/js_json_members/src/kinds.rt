//! Reading of members as texts, numbers, booleans, instants, lists and maps.
//!
//! A read fails with `WrongKind` if the value has the wrong JSON kind. It fails with `OutOfRange`
//! if a number or a text is not a value of the type. If an item of a list or a value of a map is at
//! fault, the error names the key of the whole member.

ghost use Rattle.std.specs.Prelude.{◌≡◌, [], pos, false};
ghost use Rattle.serde_json.specs.View.{view, items_view, members_view};
ghost use Rattle.js_json_members.specs.Member.{Gives, GivesAs, text, truth, natural, natural_of, integer, list_of};
ghost use Rattle.js_json_members.specs.Member.{by_name as by_name_in, entries_with, all_read as all_in, named as named_in};
ghost use Rattle.js_json_members.specs.Percent.{percent, percent_of as percent_in, no_percent};
ghost use Rattle.js_base.specs.Numeral.{unsigned_of};
ghost use Rattle.js_json_members.specs.Instant.{instant};

use crate::error::ReadError;
use crate::instant::instant_of;
use crate::key::Key;
use crate::member::{Blank, Member};
use jiff::Timestamp;
use js_base::{ByName, Items, Text};
use serde_json::{Map, Value};
use std::alloc::Global;

impl Member for Text {
    ghost reads = { text };

    #[tactic(auto, unfolding(crate::specs::Member::text))]
    fn read(alloc: Global, key: Key, value: &Value) -> Result<Text, ReadError> {
        match value.as_str() {
            None => Err(ReadError::WrongKind { key }),
            Some(found) => Ok(Text::from_str(alloc, found)?),
        }
    }
}

impl Blank for Text {
    ghost blank = { [] };

    fn blank(alloc: Global) -> Text {
        Text::new(alloc)
    }
}

impl Member for bool {
    ghost reads = { truth };

    #[tactic(auto, unfolding(crate::specs::Member::truth))]
    fn read(_alloc: Global, key: Key, value: &Value) -> Result<bool, ReadError> {
        match value.as_bool() {
            None => Err(ReadError::WrongKind { key }),
            Some(found) => Ok(found),
        }
    }
}

impl Blank for bool {
    ghost blank = { false };

    fn blank(_alloc: Global) -> bool {
        false
    }
}

impl Member for u64 {
    ghost reads = { natural };

    #[tactic(auto, unfolding(crate::specs::Member::natural))]
    fn read(_alloc: Global, key: Key, value: &Value) -> Result<u64, ReadError> {
        match value.as_number() {
            None => Err(ReadError::WrongKind { key }),
            Some(number) => match number.as_u64() {
                None => Err(ReadError::OutOfRange { key }),
                Some(found) => Ok(found),
            },
        }
    }
}

impl Blank for u64 {
    ghost blank = { 0 };

    fn blank(_alloc: Global) -> u64 {
        0
    }
}

impl Member for u32 {
    ghost reads = { natural_of 32 };

    #[tactic(auto, unfolding(crate::specs::Member::natural_of))]
    fn read(alloc: Global, key: Key, value: &Value) -> Result<u32, ReadError> {
        let number = <u64 as Member>::read(alloc, key, value)?;
        u32::try_from(number).map_err(|_| ReadError::OutOfRange { key })
    }
}

impl Member for u16 {
    ghost reads = { natural_of 16 };

    #[tactic(auto, unfolding(crate::specs::Member::natural_of))]
    fn read(alloc: Global, key: Key, value: &Value) -> Result<u16, ReadError> {
        let number = <u64 as Member>::read(alloc, key, value)?;
        u16::try_from(number).map_err(|_| ReadError::OutOfRange { key })
    }
}

impl Member for i64 {
    ghost reads = { integer };

    #[tactic(auto, unfolding(crate::specs::Member::integer))]
    fn read(_alloc: Global, key: Key, value: &Value) -> Result<i64, ReadError> {
        match value.as_number() {
            None => Err(ReadError::WrongKind { key }),
            Some(number) => match number.as_i64() {
                None => Err(ReadError::OutOfRange { key }),
                Some(found) => Ok(found),
            },
        }
    }
}

impl Blank for i64 {
    ghost blank = { pos 0 };

    fn blank(_alloc: Global) -> i64 {
        0
    }
}

/// A number from 0 to 255 that is read from text such as `30` or `30%`.
///
/// A read fails with `WrongKind` if the value is not a text. It fails with `OutOfRange` if the text
/// is not such a number with at most one percent sign after it. The default is 0.
#[derive(Clone, Copy, Debug, PartialEq, Eq)]
pub struct PercentText(pub u8);

impl Member for PercentText {
    ghost reads = { percent };

    #[tactic(auto, unfolding(crate::specs::Percent::percent))]
    fn read(_alloc: Global, key: Key, value: &Value) -> Result<PercentText, ReadError> {
        Ok(PercentText(read_percent(key, value)?))
    }
}

impl Blank for PercentText {
    ghost blank = { no_percent };

    fn blank(_alloc: Global) -> PercentText {
        PercentText(0)
    }
}

#[tactic(auto, unfolding(crate::specs::Member::named, crate::specs::Member::text))]
fn read_percent(key: Key, value: &Value) -> Result<u8, ReadError>
    ensures { Gives result (named_in percent_in key (view value.now)) }
{
    match value.as_str() {
        None => Err(ReadError::WrongKind { key }),
        Some(text) => match percent_of(text) {
            None => Err(ReadError::OutOfRange { key }),
            Some(found) => Ok(found),
        },
    }
}

fn percent_of(text: &str) -> Option<u8>
    ensures { result ≡ percent_in text.now }
{
    match text.strip_suffix('%') {
        None => u8_of(text),
        Some(number) => u8_of(number),
    }
}

fn u8_of(text: &str) -> Option<u8>
    ensures { result ≡ unsigned_of 8 text.now }
{
    text.parse::<u8>().ok()
}

impl Member for Timestamp {
    ghost reads = { instant };

    #[tactic(auto, unfolding(crate::specs::Member::named, crate::specs::Member::text))]
    fn read(_alloc: Global, key: Key, value: &Value) -> Result<Timestamp, ReadError> {
        match value.as_str() {
            None => Err(ReadError::WrongKind { key }),
            Some(text) => match instant_of(text) {
                None => Err(ReadError::OutOfRange { key }),
                Some(found) => Ok(found),
            },
        }
    }
}

impl<T: Member> Member for Items<T> {
    ghost reads = { list_of T.reads };

    #[tactic(auto, unfolding(crate::specs::Member::list_of))]
    fn read(alloc: Global, key: Key, value: &Value) -> Result<Items<T>, ReadError> {
        match value.as_array() {
            None => Err(ReadError::WrongKind { key }),
            Some(values) => Ok(Items::from(all_read(alloc, key, values)?)),
        }
    }
}

impl<T: Member> Blank for Items<T> {
    ghost blank = { [] };

    fn blank(alloc: Global) -> Items<T> {
        Items::new(alloc)
    }
}

fn all_read<T: Member>(alloc: Global, key: Key, values: &[Value]) -> Result<Vec<T>, ReadError>
    ensures { GivesAs (λ v. v.items) result (all_in T.reads key (items_view values.now)) }
{
    let mut items = Vec::with_capacity(alloc, values.len())?;
    for value in values {
        items.push(T::read(alloc, key, value)?)?;
    }
    Ok(items)
}

impl<T: Member> Member for ByName<T> {
    ghost reads = { by_name_in T.reads };

    #[tactic(auto, unfolding(crate::specs::Member::by_name))]
    fn read(alloc: Global, key: Key, value: &Value) -> Result<ByName<T>, ReadError> {
        match value.as_object() {
            None => Err(ReadError::WrongKind { key }),
            Some(members) => by_name(alloc, key, members),
        }
    }
}

impl<T: Member> Blank for ByName<T> {
    ghost blank = { [] };

    fn blank(alloc: Global) -> ByName<T> {
        ByName::new(alloc)
    }
}

fn by_name<T: Member>(
    alloc: Global,
    key: Key,
    members: &Map<String, Value>,
) -> Result<ByName<T>, ReadError>
    ensures { Gives result (entries_with T.reads key [] (members_view members.now.entries)) }
{
    let mut found = ByName::new(alloc);
    for (name, value) in members.iter() {
        let value = T::read(alloc, key, value)?;
        found.insert(Text::from_str(alloc, name.as_str())?, value)?;
    }
    Ok(found)
}
