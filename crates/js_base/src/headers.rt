//! The headers of a message.

ghost use Rattle.std.specs.Prelude.{◌≡◌, [], ◌∷◌, ◌++◌, ◌-◌, ◌^◌, ◌&&◌, nat_eq, min, not, reverse, IfOk, OnOk, OnErr};
ghost use Rattle.std.specs.List.{list_all};
ghost use Rattle.std.specs.Cmp.{on_per, and_per, on_equiv, and_equiv, partial_equiv_from_equiv};
ghost use Rattle.std.specs.Cmp.Lexicographic.{pointwise, lists_per, lists_equiv, nat_list_eq_equiv};
ghost use Rattle.std.specs.Option.{option_copied};
ghost use Rattle.js_base.specs.Headers.{first_found, first_value, last_value, with_only, wire_len, line_len, without_name, is_breaking, ends_name, is_sendable, is_sendable_header};

use crate::items::Items;
use crate::memory::{OutOfMemory, TryClone};
use crate::text::Text;
use std::alloc::Global;
use std::marker::Model;

/// A header: a name and one value.
#[derive(Debug, PartialEq, Eq, Drop)]
pub struct Header {
    /// The name, which is compared byte for byte.
    pub name: Text,
    /// The value of the header.
    pub value: Text,
}

impl Header {
    ghost use Rattle.js_base.specs.Headers.{line_len};

    // Returns a header with copies of the name and the value.
    // Fails with `OutOfMemory` if memory runs out.
    fn new(alloc: Global, name: &str, value: &str) -> Result<Header, OutOfMemory>
        ensures { IfOk result (λ header. header ≡ record { name = name.now; value = value.now }) }
    {
        Ok(Header {
            name: Text::from_str(alloc, name)?,
            value: Text::from_str(alloc, value)?,
        })
    }

    // Returns the length of the header's line in bytes, at most `u64::MAX`.
    fn wire_len(&self) -> u64
        ensures { result ≡ min (line_len self.now) (2 ^ 64 - 1) }
    {
        let name = self.name.as_str().len() as u64;
        let value = self.value.as_str().len() as u64;
        name.saturating_add(value).saturating_add(4)
    }

    // Returns whether the header can be sent, and not be read as anything else.
    fn is_sendable(&self) -> bool
        ensures { result ≡ is_sendable_header self.now }
    {
        is_sendable_name(self.name.as_str().as_bytes())
            && is_sendable_value(self.value.as_str().as_bytes())
    }
}

fn is_breaking(byte: u8) -> bool
    ensures { result ≡ is_breaking byte }
{
    matches!(byte, b'\r' | b'\n' | 0)
}

fn ends_name(byte: u8) -> bool
    ensures { result ≡ ends_name byte }
{
    is_breaking(byte) || byte == b':' || byte == b' '
}

fn is_sendable_name(name: &[u8]) -> bool
    ensures { result ≡ list_all (λ c. not (ends_name c)) name.now }
{
    name.iter().all(|byte| !ends_name(*byte))
}

fn is_sendable_value(value: &[u8]) -> bool
    ensures { result ≡ list_all (λ c. not (is_breaking c)) value.now }
{
    value.iter().all(|byte| !is_breaking(*byte))
}

impl TryClone for Header {
    fn try_clone(&self) -> Result<Header, OutOfMemory> {
        Ok(Header {
            name: self.name.try_clone()?,
            value: self.value.try_clone()?,
        })
    }
}

/// The headers of a message, in the order in which they were added.
/// A name may occur more than once. Names are compared byte for byte. Contracts see the list of
/// headers.
#[derive(Debug, Drop)]
pub struct HeaderMap {
    headers: Items<Header>,
}

impl Model for HeaderMap {
    ghost use Rattle.std.specs.Prelude.{List};
    ghost use Rattle.js_base.specs.declared.headers.Header.{Header};

    ghost Value = { List Header };

    ghost view = { λ h. h.headers };
}

impl HeaderMap {
    /// Returns an empty list of headers.
    /// It allocates nothing.
    pub fn new(alloc: Global) -> HeaderMap
        ensures { result ≡ [] }
    {
        HeaderMap {
            headers: Items::new(alloc),
        }
    }

    /// Replaces all values of a name with one value, which it adds at the end.
    /// Fails with `OutOfMemory` if memory runs out: the headers are then as they were.
    pub fn insert(&mut self, alloc: Global, name: &str, value: &str) -> Result<(), OutOfMemory>
        ensures ok { OnOk result (self.new ≡ with_only name.now value.now self.old) }
        ensures err { OnErr result (self.new ≡ self.old) }
    {
        let header = Header::new(alloc, name, value)?;
        self.headers
            .keep_and_push(|other| name != other.name.as_str(), header)
    }

    /// Adds a value of a name at the end, and keeps the name's other values.
    /// Fails with `OutOfMemory` if memory runs out: the headers are then as they were.
    pub fn append(&mut self, alloc: Global, name: &str, value: &str) -> Result<(), OutOfMemory>
        ensures ok { OnOk result (self.new ≡ self.old ++ record { name = name.now; value = value.now } ∷ []) }
        ensures err { OnErr result (self.new ≡ self.old) }
    {
        self.headers.push(Header::new(alloc, name, value)?)
    }

    /// Returns the first value of a name, or `None` if the name does not occur.
    pub fn get(&self, name: &str) -> Option<&str>
        ensures { option_copied result ≡ first_value name.now self.now }
    {
        first_named(self.headers.as_slice(), name)
    }

    /// Returns the last value of a name, or `None` if the name does not occur.
    pub fn get_last(&self, name: &str) -> Option<&str>
        ensures { option_copied result ≡ last_value name.now self.now }
    {
        last_named(self.headers.as_slice(), name)
    }

    /// Returns an iterator over the names and values, in order.
    pub fn iter(&self) -> HeaderIter<'_>
        ensures { result ≡ self.now }
    {
        HeaderIter {
            rest: self.headers.as_slice(),
        }
    }

    /// Returns the length of the headers on the wire, in bytes.
    /// It is 0 if there are no headers. Otherwise it is 12 plus, for each header, the lengths of
    /// its name and its value plus 4. The sum stops at `u64::MAX`.
    pub fn wire_len(&self) -> u64
        ensures { result ≡ wire_len self.now }
    {
        if self.headers.is_empty() {
            return 0;
        }
        let mut len = 12u64;
        for header in self.headers.as_slice() {
            len = len.saturating_add(header.wire_len());
        }
        len
    }

    /// Returns whether you may send the headers.
    /// A value must have no carriage return, line feed or NUL. A name must have none of these, no
    /// colon and no space. Do not send other headers: the server may read the rest of such a name
    /// or value as further headers or commands. An empty name passes, because it breaks no line.
    pub fn is_sendable(&self) -> bool
        ensures { result ≡ is_sendable self.now }
    {
        self.headers
            .as_slice()
            .iter()
            .all(|header| header.is_sendable())
    }
}

fn first_named<'a>(headers: &'a [Header], name: &str) -> Option<&'a str>
    ensures { option_copied result ≡ first_found name.now headers.now }
{
    let mut headers = headers.iter();
    let header = headers.find(|header| name == header.name.as_str())?;
    Some(header.value.as_str())
}

fn last_named<'a>(headers: &'a [Header], name: &str) -> Option<&'a str>
    ensures { option_copied result ≡ first_found name.now (reverse headers.now) }
{
    let mut headers = headers.iter().rev();
    let header = headers.find(|header| name == header.name.as_str())?;
    Some(header.value.as_str())
}

/// An iterator over the names and values of headers, in order.
/// Contracts see the headers that are left.
#[derive(Drop)]
pub struct HeaderIter<'a> {
    rest: &'a [Header],
}

impl<'a> Model for HeaderIter<'a> {
    ghost use Rattle.std.specs.Prelude.{List};
    ghost use Rattle.js_base.specs.declared.headers.Header.{Header};

    ghost Value = { List Header };

    ghost view = { λ s. s.rest.now };
}

impl<'a> Iterator for HeaderIter<'a> {
    ghost use Rattle.std.specs.Iterator.{YieldsFirstBy, item_count};
    ghost use Rattle.js_base.specs.Headers.{pairs};

    type Item = (&'a str, &'a str);

    ghost next_gives = { YieldsFirstBy (λ item. (item.0.now, item.1.now)) pairs };

    ghost remaining = { item_count pairs };

    fn next(&mut self) -> Option<(&'a str, &'a str)> {
        let (first, rest) = self.rest.split_first()?;
        self.rest = rest;
        Some((first.name.as_str(), first.value.as_str()))
    }
}

impl TryClone for HeaderMap {
    fn try_clone(&self) -> Result<HeaderMap, OutOfMemory> {
        Ok(HeaderMap {
            headers: self.headers.try_clone()?,
        })
    }
}

impl PartialEq for HeaderMap {
    ghost eq = { pointwise (λ a b. pointwise nat_eq a.name b.name && pointwise nat_eq a.value b.value) };

    ghost laws = { lists_per (and_per (on_per (λ h. h.name) (partial_equiv_from_equiv nat_list_eq_equiv)) (on_per (λ h. h.value) (partial_equiv_from_equiv nat_list_eq_equiv))) };

    fn eq(&self, other: &HeaderMap) -> bool {
        self.headers == other.headers
    }
}

impl Eq for HeaderMap {
    ghost laws = { lists_equiv (and_equiv (on_equiv (λ h. h.name) nat_list_eq_equiv) (on_equiv (λ h. h.value) nat_list_eq_equiv)) };
}
