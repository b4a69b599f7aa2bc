//! Moments as the server writes them.

use crate::json::formatted;
use js_base::{Moment, OutOfMemory};
use std::alloc::Global;

// The server's clock at moment 0, in nanoseconds since 1970: some time on 24 September 2026.
const START: u64 = 1_790_230_470_084_404_000;

const SECOND: u64 = 1_000_000_000;

// The moment as it stands in the reply subject of a message: nanoseconds since 1970.
pub(crate) fn stamp(moment: Moment) -> u64 {
    START.saturating_add(moment)
}

// A day of the calendar.
#[derive(Clone, Copy)]
struct Date {
    year: u64,
    month: u64,
    day: u64,
}

// The date of a day, counted from 1 January 1970. The calendar is cut into eras of 400 years, whose
// years begin in March.
fn date_of(days: u64) -> Date {
    let days = days.saturating_add(719_468);
    let era = days / 146_097;
    let day_of_era = days % 146_097;
    let leap_days = day_of_era / 1_460 + day_of_era / 146_096;
    let year_of_era = (day_of_era + day_of_era / 36_524).saturating_sub(leap_days) / 365;
    let year = era.saturating_mul(400).saturating_add(year_of_era);
    let before = year_of_era
        .saturating_mul(365)
        .saturating_add(year_of_era / 4);
    let day_of_year = day_of_era.saturating_sub(before.saturating_sub(year_of_era / 100));
    let month_from_march = day_of_year.saturating_mul(5).saturating_add(2) / 153;
    let days_before = month_from_march.saturating_mul(153).saturating_add(2) / 5;
    let day = day_of_year.saturating_sub(days_before).saturating_add(1);
    if month_from_march < 10 {
        Date {
            year,
            month: month_from_march.saturating_add(3),
            day,
        }
    } else {
        Date {
            year: year.saturating_add(1),
            month: month_from_march.saturating_sub(9),
            day,
        }
    }
}

// The moment as it stands in JSON and in headers: date and time in UTC.
pub(crate) fn time_text(alloc: Global, moment: Moment) -> Result<String, OutOfMemory> {
    let stamp = stamp(moment);
    let seconds = stamp / SECOND;
    let Date { year, month, day } = date_of(seconds / 86_400);
    let (hour, minute, second) = (seconds / 3_600 % 24, seconds / 60 % 60, seconds % 60);
    let nanos = stamp % SECOND;
    formatted(format!(in alloc;
        "{year:04}-{month:02}-{day:02}T{hour:02}:{minute:02}:{second:02}.{nanos:09}Z"
    ))
}
