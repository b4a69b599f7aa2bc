//! The parts of a sentence, and the line that they make.

ghost use Rattle.std.specs.Prelude.{◌≡◌, ◌++◌, ◌+◌, ◌<◌, codes, decimal, flat_map, map, OnOk};
ghost use Rattle.js_tool_explain.specs.SentencePart.{counted, decimals, digits, line_text, said_by, said_text, seconds_text};

use itoa::Buffer;
use js_base::{Moment, Nanos};
use std::alloc::AllocError;

const SECOND: u64 = 1_000_000_000;

/// A part of a sentence.
#[derive(Clone, Copy)]
pub(crate) enum Part<'a> {
    Text(&'a [u8]),
    Number(u64),
    /// The number after this one.
    After(u64),
    /// A length of time, as seconds.
    Seconds(Nanos),
    /// How many there are of something, whose name takes an `s` unless there is one.
    Count(u64, &'a [u8]),
}

/// Adds the line of a sentence that is said of a moment.
#[tactic(auto, unfolding(crate::specs::SentencePart::line_text))]
pub(crate) fn push_line(out: &mut Vec<u8>, at: Moment, parts: &[Part]) -> Result<(), AllocError>
    ensures { OnOk result (out.new.items ≡ out.old.items ++ line_text at (map said_by parts.now)) }
{
    push_seconds(out, at)?;
    out.extend_from_slice(b": ")?;
    push_parts(out, parts)?;
    out.push(b'\n')?;
    Ok(())
}

/// Adds the parts of a sentence.
pub(crate) fn push_parts(out: &mut Vec<u8>, parts: &[Part]) -> Result<(), AllocError>
    ensures { OnOk result (out.new.items ≡ out.old.items ++ flat_map said_text (map said_by parts.now)) }
{
    for part in parts {
        push_part(out, *part)?;
    }
    Ok(())
}

fn push_part(out: &mut Vec<u8>, part: Part) -> Result<(), AllocError>
    ensures { OnOk result (out.new.items ≡ out.old.items ++ said_text (said_by part.entry)) }
{
    match part {
        Part::Text(text) => out.extend_from_slice(text),
        Part::Number(number) => push_number(out, number),
        Part::After(number) => push_next(out, number),
        Part::Seconds(nanoseconds) => push_seconds(out, nanoseconds),
        Part::Count(number, of) => push_count(out, number, of),
    }
}

fn push_number(out: &mut Vec<u8>, number: u64) -> Result<(), AllocError>
    ensures { OnOk result (out.new.items ≡ out.old.items ++ decimal number) }
{
    let mut buffer = Buffer::new();
    out.extend_from_slice(buffer.format(number).as_bytes())
}

fn push_next(out: &mut Vec<u8>, number: u64) -> Result<(), AllocError>
    ensures { OnOk result (out.new.items ≡ out.old.items ++ decimal (number + 1)) }
{
    let mut buffer = Buffer::new();
    out.extend_from_slice(buffer.format(u128::from(number) + 1).as_bytes())
}

fn push_count(out: &mut Vec<u8>, number: u64, of: &[u8]) -> Result<(), AllocError>
    ensures { OnOk result (out.new.items ≡ out.old.items ++ counted number of.now) }
{
    push_number(out, number)?;
    out.push(b' ')?;
    out.extend_from_slice(of)?;
    if number != 1 {
        out.push(b's')?;
    }
    Ok(())
}

fn push_seconds(out: &mut Vec<u8>, nanoseconds: Nanos) -> Result<(), AllocError>
    ensures { OnOk result (out.new.items ≡ out.old.items ++ seconds_text nanoseconds) }
{
    push_number(out, nanoseconds / SECOND)?;
    push_decimals(out, nanoseconds % SECOND)?;
    out.extend_from_slice(b" s")?;
    Ok(())
}

fn push_decimals(out: &mut Vec<u8>, rest: Nanos) -> Result<(), AllocError>
    requires { rest < 1_000_000_000 }
    ensures { OnOk result (out.new.items ≡ out.old.items ++ decimals rest) }
{
    if rest == 0 {
        return Ok(());
    }
    out.push(b'.')?;
    push_digits(out, 9, rest)
}

// The digits of a part of a second.
fn push_digits(out: &mut Vec<u8>, places: u64, rest: Nanos) -> Result<(), AllocError>
    requires { rest < 1_000_000_000 }
    ensures { OnOk result (out.new.items ≡ out.old.items ++ digits places rest) }
{
    if places == 0 || rest == 0 {
        return Ok(());
    }
    let tenfold = rest * 10;
    out.push(b'0' + (tenfold / SECOND) as u8)?;
    push_digits(out, places - 1, tenfold % SECOND)
}
