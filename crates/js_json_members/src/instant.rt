//! Instants, and their texts.

ghost use Rattle.std.specs.Prelude.{◌≡◌, ◌++◌, codes, IfOk, string_bytes};
ghost use Rattle.jiff.specs.Words.{iso_datetime_text};
ghost use Rattle.js_json_members.specs.Instant.{instant_of as instant_in, instant_text as text_of_instant, civil_text};
ghost use Rattle.js_json_members.specs.Instant.{ReadsBack};

use jiff::Timestamp;
use jiff::civil::DateTime;
use jiff::tz::Offset;
use js_base::{OutOfMemory, Text};
use std::alloc::{AllocError, Global};

/// Parses a text as an instant.
///
/// Returns `None` if the text is no timestamp, or if its instant is out of range of `Timestamp`.
#[tactic(auto, unfolding(crate::specs::Instant::instant_of))]
pub fn instant_of(text: &str) -> Option<Timestamp>
    ensures { result ≡ instant_in text.now }
{
    text.parse::<Timestamp>().ok()
}

/// Returns the text of an instant in UTC, such as `2026-01-31T12:30:00.25Z`.
///
/// `instant_of` parses the text as the same instant, to the nanosecond. Returns `None` if the year
/// is before 0. Fails with `OutOfMemory` if memory runs out.
pub fn instant_text(alloc: Global, instant: Timestamp) -> Result<Option<Text>, OutOfMemory>
    ensures text { IfOk result (λ text. text ≡ text_of_instant instant.nanosecond) }
    ensures reads_back { IfOk result (ReadsBack instant) }
{
    text_of(alloc, Offset::UTC.to_datetime(instant))
}

fn text_of(alloc: Global, civil: DateTime) -> Result<Option<Text>, OutOfMemory>
    ensures { IfOk result (λ text. text ≡ civil_text civil) }
{
    if civil.year() < 0 {
        return Ok(None);
    }
    Ok(Some(Text::from(zulu_text(alloc, civil)?)))
}

fn zulu_text(alloc: Global, civil: DateTime) -> Result<String, AllocError>
    ensures { IfOk result (λ s. string_bytes s ≡ iso_datetime_text civil ++ codes "Z") }
{
    format!(in alloc; "{civil}Z")
}
