//! Reads a block of headers.
//!
//! The block is that of the NATS decision record ADR-4, "NATS Message Headers". Its first line has
//! the version `NATS/1.0` and, if the server itself is the sender, a status with its description. A
//! line for each header follows, with its name, a colon and its value, and then an empty line.

ghost use Rattle.std.specs.Prelude.{◌≡◌, ◌<◌, ◌≤◌, length, option_map, IfOk, IfSome, MatchResult, Ok};
ghost use Rattle.std.specs.Option.{option_copied};
ghost use Rattle.js_link_wire.specs.Lines.{Gives};
ghost use Rattle.js_link_wire.specs.Headers.{trimmed, text_in, cut_at, line_text, name_and_value, headers_in, digit_of, number_of_3, status_at, description_of, status_of, version_of, read_block, IsCauseOf, found_view, end_at, next_header};

use js_base::{HeaderMap, OutOfMemory, StatusCode, Text};
use memchr::memchr;
use std::alloc::Global;
use std::{error, fmt, str};

/// Why a block of headers cannot be read.
#[derive(Clone, Copy, Debug, PartialEq, Eq)]
pub enum HeadersDamage {
    /// The first line does not begin with `NATS/1.0`.
    NoVersion,
    /// After the version comes something other than a status of three digits that the line end or a
    /// blank follows.
    BadStatus,
    /// A line feed without a carriage return before it ends a line.
    BareLineFeed,
    /// The line of a header has no colon.
    NoColon,
    /// A name, a value or a description is not UTF-8.
    NotText,
    /// The bytes end before the empty line.
    CutShort,
    /// Bytes follow the empty line.
    Trailing,
}

/// Why headers were not read.
#[derive(Clone, Copy, Debug, PartialEq, Eq)]
pub enum HeadersError {
    /// The block is damaged. Reading it again fails in the same way.
    Damaged(HeadersDamage),
    /// Memory ran out. You can read the same block again.
    OutOfMemory,
}

impl fmt::Display for HeadersError {
    fn fmt<W: fmt::Write>(&self, f: &mut fmt::Formatter<W>) -> fmt::Result {
        f.write_str(match self {
            HeadersError::Damaged(_) => "damaged headers",
            HeadersError::OutOfMemory => "out of memory",
        })
    }
}

impl error::Error for HeadersError {}

impl From<HeadersDamage> for HeadersError {
    ghost use Rattle.js_link_wire.specs.declared.headers.HeadersError.TheVariants.{Damaged};
    ghost use Rattle.std.specs.Prelude.{◌≡◌};

    ghost from_gives = { λ damage error. error ≡ Damaged damage };

    fn from(damage: HeadersDamage) -> HeadersError {
        HeadersError::Damaged(damage)
    }
}

impl From<OutOfMemory> for HeadersError {
    ghost use Rattle.js_link_wire.specs.declared.headers.HeadersError.TheVariants.{OutOfMemory};
    ghost use Rattle.std.specs.Prelude.{◌≡◌};

    ghost from_gives = { λ _ error. error ≡ OutOfMemory };

    fn from(_e: OutOfMemory) -> HeadersError {
        HeadersError::OutOfMemory
    }
}

/// The contents of a block of headers.
#[derive(Debug, Drop)]
pub struct HeaderBlock {
    /// The status. Only messages from the server itself have one, for example 503 if nobody answers.
    pub status: Option<StatusCode>,
    /// The server's description of the status, if it gives one.
    pub description: Option<Text>,
    /// The headers in the order of their lines. They may be empty.
    pub headers: HeaderMap,
}

/// A header that borrows from the bytes it was read from, and what follows its line.
#[derive(Clone, Copy)]
pub(crate) struct Found<'a> {
    pub name: &'a str,
    pub value: &'a str,
    pub rest: &'a [u8],
}

#[tactic(auto, unfolding(crate::specs::Headers::text_in))]
fn text_in(bytes: &[u8]) -> Result<&str, HeadersDamage>
    ensures { Gives (λ text. text.now) result (text_in bytes.now) }
{
    match str::from_utf8(bytes) {
        Ok(text) => Ok(text),
        Err(_) => Err(HeadersDamage::NotText),
    }
}

#[tactic(auto, unfolding(crate::specs::Headers::trimmed))]
fn trimmed(bytes: &[u8]) -> &[u8]
    ensures { result.now ≡ trimmed bytes.now }
{
    bytes.trim_ascii_start()
}

// What stands before the first such byte, and behind it.
fn cut_at(byte: u8, damage: HeadersDamage, bytes: &[u8]) -> Result<(&[u8], &[u8]), HeadersDamage>
    ensures value { Gives (λ cut. (cut.0.now, cut.1.now)) result (cut_at byte damage bytes.now) }
    ensures shorter { IfOk result (λ cut. length cut.1.now < length bytes.now) }
{
    match memchr(byte, bytes) {
        Some(end) => Ok((&bytes[..end], &bytes[end + 1..])),
        None => Err(damage),
    }
}

#[tactic(auto, unfolding(crate::specs::Headers::line_text))]
fn line_text(line: &[u8]) -> Result<&[u8], HeadersDamage>
    ensures { Gives (λ text. text.now) result (line_text line.now) }
{
    match line {
        [text @ .., b'\r'] => Ok(text),
        _ => Err(HeadersDamage::BareLineFeed),
    }
}

// ---- headers

#[tactic(auto, unfolding(crate::specs::Headers::name_and_value))]
fn name_and_value(text: &[u8]) -> Result<(&str, &str), HeadersDamage>
    ensures { Gives (λ pair. (pair.0.now, pair.1.now)) result (name_and_value text.now) }
{
    let (name, value) = cut_at(b':', HeadersDamage::NoColon, text)?;
    let name = text_in(name)?;
    let value = text_in(trimmed(value))?;
    Ok((name, value))
}

fn end_at(rest: &[u8]) -> Result<Option<Found<'_>>, HeadersDamage>
    ensures { Gives (λ found. option_map found_view found) result (end_at rest.now) }
{
    if rest.is_empty() {
        Ok(None)
    } else {
        Err(HeadersDamage::Trailing)
    }
}

// The first header, or none where the empty line comes first.
#[tactic(auto, unfolding(crate::specs::Headers::next_header))]
fn next_header(bytes: &[u8]) -> Result<Option<Found<'_>>, HeadersDamage>
    ensures value { Gives (λ found. option_map found_view found) result (next_header bytes.now) }
    ensures shorter { IfOk result (λ found. IfSome found (λ found. length found.rest.now < length bytes.now)) }
{
    let (line, rest) = cut_at(b'\n', HeadersDamage::CutShort, bytes)?;
    let text = line_text(line)?;
    if text.is_empty() {
        return end_at(rest);
    }
    let (name, value) = name_and_value(text)?;
    Ok(Some(Found { name, value, rest }))
}

#[tactic(auto, using(crate::proofs::HeaderSteps::none_in_front, crate::proofs::HeaderSteps::goes_on, crate::proofs::HeaderSteps::ends_here, crate::proofs::HeaderSteps::fails_here))]
fn headers_in(alloc: Global, bytes: &[u8]) -> Result<HeaderMap, HeadersError>
    ensures { MatchResult result (λ headers. headers_in bytes.now ≡ Ok headers) (IsCauseOf (headers_in bytes.now)) }
{
    let mut headers = HeaderMap::new(alloc);
    let mut left = bytes;
    while let Some(found) = next_header(left)? {
        headers.append(alloc, found.name, found.value)?;
        left = found.rest;
    }
    Ok(headers)
}

// ---- the first line

#[tactic(auto, unfolding(crate::specs::Headers::digit_of))]
fn digit(byte: u8) -> Option<u16>
    ensures value { result ≡ digit_of byte }
    ensures small { IfSome result (λ digit. digit ≤ 9) }
{
    if byte >= b'0' && byte <= b'9' {
        Some(u16::from(byte - b'0'))
    } else {
        None
    }
}

fn status_of_3(first: u8, second: u8, third: u8) -> Option<StatusCode>
    ensures { result ≡ number_of_3 (digit_of first) (digit_of second) (digit_of third) }
{
    match (digit(first), digit(second), digit(third)) {
        (Some(first), Some(second), Some(third)) => {
            Some(StatusCode(first * 100 + second * 10 + third))
        }
        _ => None,
    }
}

#[tactic(auto, unfolding(crate::specs::Headers::status_at))]
fn status_at(first: u8, second: u8, third: u8, rest: &[u8]) -> Option<StatusCode>
    ensures { result ≡ status_at first second third rest.now }
{
    if rest.is_empty() || rest[0] == b' ' {
        status_of_3(first, second, third)
    } else {
        None
    }
}

#[tactic(auto, unfolding(crate::specs::Headers::description_of))]
fn description_of(text: &[u8]) -> Result<Option<&str>, HeadersDamage>
    ensures { Gives (λ words. option_copied words) result (description_of text.now) }
{
    if text.is_empty() {
        return Ok(None);
    }
    let words = text_in(text)?;
    Ok(Some(words))
}

#[tactic(auto, unfolding(crate::specs::Headers::status_of))]
fn status_of(text: &[u8]) -> Result<(Option<StatusCode>, Option<&str>), HeadersDamage>
    ensures { Gives (λ said. (said.0, option_copied said.1)) result (status_of text.now) }
{
    if text.is_empty() {
        return Ok((None, None));
    }
    if text.len() < 3 {
        return Err(HeadersDamage::BadStatus);
    }
    let (_, rest) = text.split_at(3);
    match status_at(text[0], text[1], text[2], rest) {
        None => Err(HeadersDamage::BadStatus),
        Some(status) => {
            let words = description_of(trimmed(rest))?;
            Ok((Some(status), words))
        }
    }
}

#[tactic(auto, unfolding(crate::specs::Headers::version_of))]
fn version_of(text: &[u8]) -> Result<(Option<StatusCode>, Option<&str>), HeadersDamage>
    ensures { Gives (λ said. (said.0, option_copied said.1)) result (version_of text.now) }
{
    if text.len() >= 8 && text.starts_with(b"NATS/1.0") {
        let (_, rest) = text.split_at(8);
        status_of(trimmed(rest))
    } else {
        Err(HeadersDamage::NoVersion)
    }
}

fn some_text(alloc: Global, text: Option<&str>) -> Result<Option<Text>, OutOfMemory>
    ensures { IfOk result (λ copy. copy ≡ option_copied text.entry) }
{
    match text {
        None => Ok(None),
        Some(text) => Ok(Some(Text::from_str(alloc, text)?)),
    }
}

/// Reads a block of headers, such as that of
/// [`ServerFrame::HeaderedMessage`](crate::ServerFrame::HeaderedMessage). A value is what follows
/// the colon and the ASCII white space after it.
///
/// # Errors
///
/// [`HeadersError::Damaged`] if the block cannot be read, and [`HeadersError::OutOfMemory`] if
/// memory runs out.
#[tactic(auto, unfolding(crate::specs::Headers::read_block))]
pub fn read_headers(alloc: Global, bytes: &[u8]) -> Result<HeaderBlock, HeadersError>
    ensures { MatchResult result (λ block. read_block bytes.now ≡ Ok block) (IsCauseOf (read_block bytes.now)) }
{
    let (line, rest) = cut_at(b'\n', HeadersDamage::CutShort, bytes)?;
    let (status, description) = version_of(line_text(line)?)?;
    let description = some_text(alloc, description)?;
    let headers = headers_in(alloc, rest)?;
    Ok(HeaderBlock {
        status,
        description,
        headers,
    })
}
