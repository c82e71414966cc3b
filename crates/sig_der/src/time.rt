//! Times in certificates: RFC 5280 section 4.1.2.5.

ghost use Rattle.std.specs.Prelude.{◌≡◌, ◌<◌, ℤ, Ok, Some, IfOk, IfErr, IfSome, option_map};
ghost use Rattle.sig_der.specs.Moment.{IsDecimal, IsSecondOf};
ghost use Rattle.sig_der.specs.DerTime.{IsUtcTime, IsGeneralizedTime, IsTimeOf, time_fault, full_year, rest_at};
ghost use Rattle.sig_der.specs.DerTime.{utc_at, generalized_at};

use crate::digits::{read_clock, read_day, read_four, read_two};
use crate::element::Element;
use crate::moment::{Moment, second_at};
use crate::tag;
use sig_base::DerError;

/// Returns the second since 1970 of a UTCTime or a GeneralizedTime (RFC 5280 section 4.1.2.5).
///
/// Fails with
/// - `WrongTag` if the element is neither;
/// - `Value` if its content is not a time of its kind: YYMMDDHHMMSSZ, where 70 to 99 are 1970 to 1999 and 00 to 49 are
///   2000 to 2049, or YYYYMMDDHHMMSSZ of the years 1970 to 9999.
pub fn time_of(element: &Element<'_>) -> Result<i64, DerError>
    ensures found { IfOk result (IsTimeOf element.now.tag element.now.content.now) }
    ensures only { (s : ℤ) → IsTimeOf element.now.tag element.now.content.now s → result ≡ Ok s }
    ensures fault { IfErr result (λ e. e ≡ time_fault element.now.tag) }
{
    match element.tag {
        tag::UTC_TIME => utc_second(element.content).ok_or(DerError::Value),
        tag::GENERALIZED_TIME => generalized_second(element.content).ok_or(DerError::Value),
        _ => Err(DerError::WrongTag),
    }
}

/// Returns the second since 1970 of a UTCTime.
fn utc_second(text: &[u8]) -> Option<i64>
    ensures found { IfSome result (IsSecondOf (IsUtcTime text.now)) }
    ensures only { (s : ℤ) → IsSecondOf (IsUtcTime text.now) s → result ≡ Some s }
{
    match read_utc(text) {
        None => None,
        Some(moment) => second_at(moment),
    }
}

/// Reads YYMMDDHHMMSSZ.
#[tactic(auto, unfolding(crate::specs::DerTime::utc_at))]
fn read_utc(text: &[u8]) -> Option<Moment>
    ensures exact { result ≡ utc_at text.now }
    ensures decimal { IfSome result IsDecimal }
{
    let (short, text) = read_two(text)?;
    read_rest(year_of(short)?, text)
}

/// Reads MMDDHHMMSSZ.
#[tactic(auto, unfolding(crate::specs::DerTime::rest_at))]
fn read_rest(year: u16, text: &[u8]) -> Option<Moment>
    requires { year < 10000 }
    ensures exact { result ≡ rest_at year text.now }
    ensures decimal { IfSome result IsDecimal }
{
    let ((month, day), text) = read_day(text, None)?;
    let ((hour, minute, second), text) = read_clock(text, None)?;
    if text != b"Z".as_slice() {
        return None;
    }
    Some(Moment {
        year,
        month,
        day,
        hour,
        minute,
        second,
    })
}

/// Returns the year of two digits: 70 to 99 are 1970 to 1999, 00 to 49 are 2000 to 2049.
fn year_of(short: u8) -> Option<u16>
    requires { short < 100 }
    ensures exact { result ≡ full_year short }
    ensures below { IfSome result (λ year. year < 10000) }
{
    match short {
        0..50 => Some(2000 + short as u16),
        50..70 => None,
        _ => Some(1900 + short as u16),
    }
}

/// Returns the second since 1970 of a GeneralizedTime.
fn generalized_second(text: &[u8]) -> Option<i64>
    ensures found { IfSome result (IsSecondOf (IsGeneralizedTime text.now)) }
    ensures only { (s : ℤ) → IsSecondOf (IsGeneralizedTime text.now) s → result ≡ Some s }
{
    match read_generalized(text) {
        None => None,
        Some(moment) => second_at(moment),
    }
}

/// Reads YYYYMMDDHHMMSSZ, from 1970 on.
#[tactic(auto, unfolding(crate::specs::DerTime::generalized_at))]
fn read_generalized(text: &[u8]) -> Option<Moment>
    ensures exact { result ≡ generalized_at text.now }
    ensures decimal { IfSome result IsDecimal }
{
    let (year, text) = read_four(text)?;
    if year < 1970 {
        return None;
    }
    read_rest(year, text)
}
