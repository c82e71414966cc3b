//! Seconds as texts of RFC 3339, in UTC.
ghost use Rattle.std.specs.Prelude.{◌≡◌, ◌+◌, ◌/◌, ◌%◌, ◌<◌, ◌+ℤ◌, ◌≤ℤ◌, IfOk, IfSome, pos};
ghost use Rattle.jiff_core.specs.Calendar.{day_count};
ghost use Rattle.jiff_core.specs.Time.{time_seconds};
ghost use Rattle.sig_der.specs.Stamp.{IsInstantOf};
ghost use Rattle.sig_shown.specs.UtcText.{first_second, last_second, second_text, utc_text};

use jiff_core::civil::{Date, DateTime, Time};
use jiff_fmt::temporal::DateTimePrinter;
use sig_base::{OutOfMemory, Text};
use std::alloc::Global;

/// 0001-01-01T00:00:00Z.
const FIRST_SECOND: i64 = -62_135_596_800;

/// 9999-12-31T23:59:59Z.
const LAST_SECOND: i64 = 253_402_300_799;

/// The days from -9999-01-01 to 0001-01-01.
const FIRST_DAY: u32 = 3_652_425;

/// A second since 1970 as a text of RFC 3339 section 5.6, in UTC: YYYY-MM-DDTHH:MM:SSZ. `None` if and only if its year
/// is not one of 1 to 9999. Fails only if out of memory.
#[tactic(auto, using(crate::proofs::UtcTexts::utc_texts))]
pub(crate) fn utc_text(alloc: Global, second: &i64) -> Result<Option<Text>, OutOfMemory>
    ensures text { IfOk result (λ text. text ≡ utc_text second.now) }
    // The text names an instant of that second, and no other.
    ensures instant { IfOk result (λ text. IfSome text (λ text. IsInstantOf text second.now)) }
{
    if *second < FIRST_SECOND || *second > LAST_SECOND {
        return Ok(None);
    }
    Ok(Some(written(alloc, second)?))
}

/// A second of the years 1 to 9999 as a text.
fn written(alloc: Global, second: &i64) -> Result<Text, OutOfMemory>
    requires low { first_second ≤ℤ second.now }
    requires high { second.now ≤ℤ last_second }
    ensures text { IfOk result (λ text. text ≡ second_text second.now) }
    ensures instant { IfOk result (λ text. IsInstantOf text second.now) }
{
    let moment = moment_after(since_first(second));
    let text = DateTimePrinter::new().datetime_text(moment);
    let text = text.as_str();
    Ok(Text::from(format!(in alloc; "{text}Z")?))
}

/// The date and the time of day this number of seconds after 0001-01-01T00:00:00.
fn moment_after(since: u64) -> DateTime
    requires { since < 315_537_897_600 }
    ensures day { day_count result.date.year result.date.month result.date.day
        ≡ day_count (pos 1) 1 1 + since / 86400 }
    ensures clock { time_seconds result.time ≡ since % 86400 }
    ensures whole { result.time.subsec_nanosecond ≡ 0 }
{
    DateTime {
        date: Date::from_days_since_min(FIRST_DAY + (since / 86400) as u32),
        time: Time::from_second((since % 86400) as u32, 0),
    }
}

/// The seconds since 0001-01-01T00:00:00Z.
fn since_first(second: &i64) -> u64
    requires low { first_second ≤ℤ second.now }
    requires high { second.now ≤ℤ last_second }
    ensures value { second.now ≡ first_second +ℤ pos result }
    ensures below { result < 315_537_897_600 }
{
    (*second - FIRST_SECOND) as u64
}
