//! A second of the calendar.

ghost use Rattle.std.specs.Prelude.{◌≡◌, ◌<◌, ◌↔◌, pos, IsSome, IfSome};
ghost use Rattle.jiff_core.specs.Calendar.{IsDate, IsEpochDay, IsWithin, days_from_civil};
ghost use Rattle.sig_der.specs.Moment.{IsReal, IsDecimal, second_of};

use jiff_core::civil::Date;

/// A date and a time of day, which need not be in the calendar. Each number has as many digits as a text gives it: the
/// year four, the others two.
#[derive(Clone, Copy, Debug)]
pub(crate) struct Moment {
    pub(crate) year: u16,
    pub(crate) month: u8,
    pub(crate) day: u8,
    pub(crate) hour: u8,
    pub(crate) minute: u8,
    pub(crate) second: u8,
}

/// Returns the second since 1970. `None` if the calendar has no such day, or the day no such second.
pub(crate) fn second_at(moment: Moment) -> Option<i64>
    requires { IsDecimal moment }
    ensures real { IsSome result ↔ IsReal moment }
    ensures value { IfSome result (λ s. s ≡ second_of moment) }
    ensures bound { IfSome result (IsWithin 1_000_000_000_000) }
{
    if moment.hour >= 24 || moment.minute >= 60 || moment.second >= 60 {
        return None;
    }
    let day = day_at(moment.year, moment.month, moment.day)?;
    let second = moment.hour as u32 * 3600 + moment.minute as u32 * 60 + moment.second as u32;
    Some(day as i64 * 86400 + second as i64)
}

/// Returns the day number, from 1970-01-01 on. `None` if the calendar has no such day.
fn day_at(year: u16, month: u8, day: u8) -> Option<i32>
    requires years { year < 10000 }
    requires months { month < 100 }
    requires days { day < 100 }
    ensures real { IsSome result ↔ IsDate (pos year) (pos month) (pos day) }
    ensures value { IfSome result (λ n. n ≡ days_from_civil (pos year) month day) }
    ensures bound { IfSome result IsEpochDay }
{
    match Date::new(year as i16, month as i8, day as i8) {
        Err(_) => None,
        Ok(date) => Some(date.to_unix_epoch_day()),
    }
}
