//! Subjects, headers, and what values print.

use crate::tables::{printed, same, says};
use bytes::Bytes;
use js_base::{
    Boxed, ByName, Entry, Error, Header, HeaderMap, Items, Message, OutOfMemory, Source, State,
    StatusCode, Subject, Text, TextMap, TryClone, all_3, both, is_valid_subject, subject_matches,
};
use std::alloc::Global;
use std::process::Abort;

/// A filter, a subject, and whether it matches.
const FILTERS: &[(&str, &str, bool)] = &[
    ("a.*.>", "a.b", false),
    ("a.*.>", "a.b.c", true),
    ("a.*.>", "a.b.c.d", true),
    ("a.>", "a", false),
    (">", "a.b", true),
    ("*", "a.b", false),
    ("*.b", "a.b", true),
    ("a.b", "a.b", true),
    ("a.b", "a.c", false),
    ("a.b", "a.b.c", false),
    ("a.>.c", "a.b.c", false),
    ("a.>.c", "a.>.c", true),
    ("a*", "ab", false),
    ("a..*", "a..", true),
    ("", "", true),
];

/// A text, and whether it may be a subject.
const SUBJECTS: &[(&str, bool)] = &[
    ("a.b", true),
    ("a..b", true),
    ("a.*.>", true),
    ("", false),
    (".", false),
    (".a", false),
    ("a.", false),
    ("a b", false),
    ("a\u{b}b", true),
];

#[test]
fn subjects_are_told(rt: HostRuntime) {
    for &(filter, subject, matches) in FILTERS {
        same(&rt, filter, subject_matches(filter, subject), matches);
    }
    for &(subject, valid) in SUBJECTS {
        same(&rt, subject, is_valid_subject(subject), valid);
    }
}

/// A change of headers.
#[derive(Clone, Copy)]
enum Change {
    Append(&'static str, &'static str),
    Insert(&'static str, &'static str),
}

/// Changes, what headers are afterwards, and how many bytes they take: the lengths and four for each header, and twelve.
const CHANGES: &[(Change, &str, u64)] = &[
    (Change::Append("A", "1"), "A=1;", 18),
    (Change::Append("B", "22"), "A=1;B=22;", 25),
    (Change::Append("A", "3"), "A=1;B=22;A=3;", 31),
    (Change::Insert("A", "4"), "B=22;A=4;", 25),
    (Change::Append("A", "5"), "B=22;A=4;A=5;", 31),
];

fn make(alloc: Global, headers: &mut HeaderMap, change: Change) -> Result<(), OutOfMemory> {
    match change {
        Change::Append(name, value) => headers.append(alloc, name, value),
        Change::Insert(name, value) => headers.insert(alloc, name, value),
    }
}

fn add_pair(text: &mut String, name: &str, value: &str) -> Result<(), OutOfMemory> {
    text.push_str(name)?;
    text.push_str("=")?;
    text.push_str(value)?;
    Ok(text.push_str(";")?)
}

/// The names and values in order.
pub(crate) fn pairs(alloc: Global, headers: &HeaderMap) -> Result<String, OutOfMemory> {
    let mut text = String::new(alloc);
    for (name, value) in headers.iter() {
        add_pair(&mut text, name, value)?;
    }
    Ok(text)
}

// Makes a change: the names and values afterwards.
fn changed(alloc: Global, headers: &mut HeaderMap, change: Change) -> Result<String, OutOfMemory> {
    make(alloc, headers, change)?;
    pairs(alloc, headers)
}

fn has_equal_copy(headers: &HeaderMap) -> Result<bool, OutOfMemory> {
    Ok(headers.try_clone()? == *headers)
}

// Headers after the changes, each of which is asserted.
fn set_and_added(rt: &impl Abort, alloc: Global) -> HeaderMap {
    let mut headers = HeaderMap::new(alloc);
    same(rt, "none", headers.wire_len(), 0);
    for &(change, wanted, length) in CHANGES {
        says(rt, wanted, changed(alloc, &mut headers, change), wanted);
        same(rt, wanted, headers.wire_len(), length);
        same(rt, wanted, has_equal_copy(&headers), Ok(true));
    }
    headers
}

// The length of one header on the wire.
fn wire_length(alloc: Global, name: &str, value: &str) -> Result<u64, OutOfMemory> {
    let mut headers = HeaderMap::new(alloc);
    headers.append(alloc, name, value)?;
    Ok(headers.wire_len())
}

/// A name, its first value and its last one.
const VALUES: &[(&str, Option<&str>, Option<&str>)] = &[
    ("A", Some("4"), Some("5")),
    ("a", None, None),
];

#[test]
fn headers_are_set_and_added(rt: HostRuntime) {
    let headers = set_and_added(&rt, rt.alloc());
    for &(name, first, last) in VALUES {
        same(&rt, name, headers.get(name), first);
        same(&rt, name, headers.get_last(name), last);
    }
    assert!(rt; headers != HeaderMap::new(rt.alloc()));
    let length = wire_length(rt.alloc(), "Key", "Value");
    same(&rt, "Key: Value", length, Ok(24));
}

/// The name and the value of a header, and whether it arrives as the one header that it is.
const SENDABLE: &[(&str, &str, bool)] = &[
    ("A", "1", true),
    ("A", "a: b", true),
    ("A", "", true),
    ("A", "1\r\nB: 2", false),
    ("A", "1\n", false),
    ("A", "\0", false),
    ("A\r\nB", "1", false),
    ("A:B", "1", false),
    ("A B", "1", false),
    ("A\0", "1", false),
];

fn is_sendable(alloc: Global, name: &str, value: &str) -> Result<bool, OutOfMemory> {
    let mut headers = HeaderMap::new(alloc);
    headers.append(alloc, "First", "1")?;
    headers.append(alloc, name, value)?;
    Ok(headers.is_sendable())
}

#[test]
fn headers_that_break_a_line_are_told(rt: HostRuntime) {
    assert!(rt; HeaderMap::new(rt.alloc()).is_sendable());
    for &(name, value, wanted) in SENDABLE {
        same(&rt, value, is_sendable(rt.alloc(), name, value), Ok(wanted));
    }
}

const STATUSES: &[(StatusCode, &str)] = &[
    (StatusCode(7), "007"),
    (StatusCode(99), "099"),
    (StatusCode(1000), "1000"),
    (StatusCode::IDLE_HEARTBEAT, "100"),
    (StatusCode::OK, "200"),
    (StatusCode::NOT_FOUND, "404"),
    (StatusCode::TIMEOUT, "408"),
    (StatusCode::REQUEST_TERMINATED, "409"),
    (StatusCode::PIN_ID_MISMATCH, "423"),
    (StatusCode::NO_RESPONDERS, "503"),
];

const STATES: &[(State, &str)] = &[
    (State::Pending, "pending"),
    (State::Connected, "connected"),
    (State::Disconnected, "disconnected"),
];

/// Where an error comes from.
#[derive(Clone, Copy)]
enum Cause {
    Unknown,
    Text(&'static str),
    Api(u64, u64, Option<&'static str>),
}

/// Where an error comes from, what it prints, and the server's error alone.
const CAUSES: &[(Cause, &str, &str)] = &[
    (Cause::Unknown, "408", "none"),
    (Cause::Text("it rains"), "408: it rains", "none"),
    (
        Cause::Api(404, 10059, Some("stream not found")),
        "408: stream not found (code 404, error code 10059)",
        "stream not found (code 404, error code 10059)",
    ),
    (
        Cause::Api(404, 0, None),
        "408: unknown (code 404, error code 0)",
        "unknown (code 404, error code 0)",
    ),
];

/// A text, where there is one.
pub(crate) fn text_of(alloc: Global, text: Option<&str>) -> Result<Option<Text>, OutOfMemory> {
    match text {
        None => Ok(None),
        Some(text) => Ok(Some(Text::from_str(alloc, text)?)),
    }
}

fn source_of(alloc: Global, cause: Cause) -> Result<Option<Source>, OutOfMemory> {
    match cause {
        Cause::Unknown => Ok(None),
        Cause::Text(text) => Ok(Some(Source::Text(Text::from_str(alloc, text)?))),
        Cause::Api(code, err_code, text) => Ok(Some(Source::Api {
            code,
            err_code,
            description: text_of(alloc, text)?,
        })),
    }
}

fn error_of(source: Option<Source>) -> Error<StatusCode> {
    match source {
        None => Error::new(StatusCode::TIMEOUT),
        Some(source) => Error::with_source(StatusCode::TIMEOUT, source),
    }
}

fn error_text(alloc: Global, cause: Cause) -> Result<String, OutOfMemory> {
    printed(alloc, error_of(source_of(alloc, cause)?))
}

fn api_text(alloc: Global, cause: Cause) -> Result<String, OutOfMemory> {
    let error = error_of(source_of(alloc, cause)?);
    let text = match error.api_error() {
        Some(api) => printed(alloc, api),
        None => printed(alloc, "none"),
    };
    drop(error);
    text
}

#[test]
fn values_print(rt: HostRuntime) {
    for &(status, text) in STATUSES {
        says(&rt, text, printed(rt.alloc(), status), text);
    }
    for &(state, text) in STATES {
        says(&rt, text, printed(rt.alloc(), state), text);
    }
    for &(cause, text, api) in CAUSES {
        says(&rt, text, error_text(rt.alloc(), cause), text);
        says(&rt, text, api_text(rt.alloc(), cause), api);
    }
    says(
        &rt,
        "memory",
        printed(rt.alloc(), OutOfMemory),
        "out of memory",
    );
}

// Whether a copy of a value is equal to it.
fn is_copied<T: TryClone + PartialEq>(value: T) -> Result<bool, OutOfMemory> {
    Ok(value.try_clone()? == value)
}

fn payload(alloc: Global) -> Result<Bytes, OutOfMemory> {
    Ok(Bytes::copy_from_slice(alloc, b"a")?)
}

fn message(alloc: Global) -> Result<Message, OutOfMemory> {
    let (subject, payload, description) = all_3(
        Subject::new(alloc, "events.a"),
        payload(alloc),
        text_of(alloc, Some("b")),
    )?;
    Ok(Message {
        subject,
        reply: None,
        payload,
        headers: None,
        status: None,
        description,
        length: 9,
    })
}

fn header(alloc: Global, name: &str) -> Result<Header, OutOfMemory> {
    Ok(Header {
        name: Text::from_str(alloc, name)?,
        value: Text::from_str(alloc, "v")?,
    })
}

fn is_message_copied(alloc: Global) -> Result<bool, OutOfMemory> {
    is_copied(message(alloc)?)
}

fn is_box_copied(alloc: Global) -> Result<bool, OutOfMemory> {
    is_copied(Boxed::new(alloc, message(alloc)?)?)
}

// Texts by name, of which there is one.
fn texts(alloc: Global) -> Result<TextMap, OutOfMemory> {
    let (name, value) = both(Text::from_str(alloc, "n"), Text::from_str(alloc, "v"))?;
    let mut texts = TextMap::new(alloc);
    texts.insert(name, value)?;
    Ok(texts)
}

fn is_map_copied(alloc: Global) -> Result<bool, OutOfMemory> {
    is_copied(ByName::from(texts(alloc)?.into_map()))
}

// What is made of the plain map of strings that is made of texts by name.
fn by_strings(alloc: Global, texts: &TextMap) -> Result<TextMap, OutOfMemory> {
    let strings = texts.to_strings(alloc)?;
    TextMap::from_strings(alloc, &strings)
}

// Whether that is equal to the texts.
fn are_strings_copied(alloc: Global) -> Result<bool, OutOfMemory> {
    let texts = texts(alloc)?;
    let copy = by_strings(alloc, &texts);
    let (copy, texts) = both(copy, Ok(texts))?;
    Ok(copy == texts)
}

fn is_entry_copied(alloc: Global) -> Result<bool, OutOfMemory> {
    let (subject, payload) = both(Subject::new(alloc, "events.a"), payload(alloc))?;
    is_copied(Entry {
        subject,
        sequence: 1,
        payload,
    })
}

fn are_items_copied(alloc: Global) -> Result<bool, OutOfMemory> {
    let mut items = Items::new(alloc);
    items.push(header(alloc, "n")?)?;
    is_copied(items)
}

fn add_and_keep(items: &mut Items<u64>) -> Result<(), OutOfMemory> {
    items.push(1)?;
    items.push(2)?;
    items.push(1)?;
    items.keep_and_push(|item: &u64| *item != 1, 3)?;
    Ok(())
}

// How many items are left where those of one name go and another is added.
fn kept(alloc: Global) -> Result<usize, OutOfMemory> {
    let mut items = Items::new(alloc);
    add_and_keep(&mut items)?;
    Ok(items.as_slice().len())
}

#[test]
fn values_are_copied(rt: HostRuntime) {
    let alloc = rt.alloc();
    same(&rt, "message", is_message_copied(alloc), Ok(true));
    same(&rt, "box", is_box_copied(alloc), Ok(true));
    same(&rt, "map", is_map_copied(alloc), Ok(true));
    same(&rt, "strings", are_strings_copied(alloc), Ok(true));
    same(&rt, "entry", is_entry_copied(alloc), Ok(true));
    same(&rt, "items", are_items_copied(alloc), Ok(true));
    same(&rt, "kept", kept(alloc), Ok(2));
}
