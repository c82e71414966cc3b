//! Time texts: RFC 3339 section 5.6.

ghost use Rattle.std.specs.Prelude.{◌≡◌, ◌<◌, ◌↔◌, ℤ, ◌-ℤ◌, Some, IsSome, IfSome, option_map};
ghost use Rattle.jiff_core.specs.Calendar.{IsWithin};
ghost use Rattle.sig_der.specs.Moment.{IsDecimal, IsReal, second_of};
ghost use Rattle.sig_der.specs.Stamp.{IsInstantOf, front_at, after_digit, after_digits, fraction_at, offset_at};
ghost use Rattle.sig_der.specs.Stamp.{zone_at, stamp_at, starts_with_digit};
ghost use Rattle.sig_der.specs.StampSecond.{second_in};

use crate::digits::{read_clock, read_day, read_four, read_two, skip_mark};
use crate::moment::{Moment, second_at};

/// Returns the second since 1970 of a time of RFC 3339 section 5.6, its fraction dropped.
///
/// `None` if the text is not YYYY-MM-DDTHH:MM:SS of a real date and time of the years 1 to 9999, then nothing or a
/// point and one to nine digits, then `Z` or the offset +HH:MM or -HH:MM with hours to 23 and minutes to 59.
pub fn rfc3339_second(text: &str) -> Option<i64>
    ensures found { IfSome result (IsInstantOf text.now) }
    ensures only { (s : ℤ) → IsInstantOf text.now s → result ≡ Some s }
    // The same in one equation.
    ensures exact { result ≡ second_in text.now }
{
    read_instant(text.as_bytes())
}

fn read_instant(text: &[u8]) -> Option<i64>
    ensures found { IfSome result (IsInstantOf text.now) }
    ensures only { (s : ℤ) → IsInstantOf text.now s → result ≡ Some s }
{
    match read_stamp(text) {
        None => None,
        Some((moment, offset)) => second_before(moment, offset),
    }
}

#[tactic(auto, unfolding(crate::specs::Stamp::stamp_at))]
fn read_stamp(text: &[u8]) -> Option<(Moment, i64)>
    ensures exact { result ≡ stamp_at text.now }
    ensures decimal { IfSome result (λ x. IsDecimal x.0) }
    ensures day { IfSome result (λ x. IsWithin 86400 x.1) }
{
    let (moment, text) = read_front(text)?;
    let text = skip_fraction(text)?;
    let offset = read_zone(text)?;
    if moment.year == 0 {
        None
    } else {
        Some((moment, offset))
    }
}

/// Reads YYYY-MM-DDTHH:MM:SS at the front, and returns it with what follows it.
#[tactic(auto, unfolding(crate::specs::Stamp::front_at))]
fn read_front(text: &[u8]) -> Option<(Moment, &[u8])>
    ensures exact { option_map (λ x. (x.0, x.1.now)) result ≡ front_at text.now }
    ensures decimal { IfSome result (λ x. IsDecimal x.0) }
{
    let (year, text) = read_four(text)?;
    let text = skip_mark(text, Some(b'-'))?;
    let ((month, day), text) = read_day(text, Some(b'-'))?;
    let text = skip_mark(text, Some(b'T'))?;
    let ((hour, minute, second), text) = read_clock(text, Some(b':'))?;
    Some((
        Moment {
            year,
            month,
            day,
            hour,
            minute,
            second,
        },
        text,
    ))
}

/// Returns what follows the fraction: nothing or a point and one to nine digits.
#[tactic(auto, unfolding(crate::specs::Stamp::fraction_at))]
fn skip_fraction(text: &[u8]) -> Option<&[u8]>
    ensures { option_map (λ x. x.now) result ≡ fraction_at text.now }
{
    let [b'.', digits @ ..] = text else {
        return Some(text);
    };
    match digits {
        [b'0'..=b'9', ..] => Some(skip_digits(digits)),
        _ => None,
    }
}

/// Returns what follows the digits at the front, of which at most nine are skipped.
#[tactic(auto, using(crate::proofs::DigitRuns::after_digits_more, crate::proofs::DigitRuns::after_digits_none))]
fn skip_digits(text: &[u8]) -> &[u8]
    ensures { result.now ≡ after_digits 9 text.now }
{
    let mut rest = text;
    for _ in 0..9u8 {
        rest = skip_digit(rest);
    }
    rest
}

/// Returns what follows a digit at the front, or the whole text if there is none.
fn skip_digit(text: &[u8]) -> &[u8]
    ensures { result.now ≡ after_digit text.now }
{
    match text {
        [b'0'..=b'9', rest @ ..] => rest,
        _ => text,
    }
}

/// Returns the seconds that a clock of the zone is ahead of UTC.
#[tactic(auto, unfolding(crate::specs::Stamp::zone_at))]
fn read_zone(text: &[u8]) -> Option<i64>
    ensures exact { result ≡ zone_at text.now }
    ensures day { IfSome result (IsWithin 86400) }
{
    match text {
        [b'Z'] => Some(0),
        [b'+', offset @ ..] => Some(read_offset(offset)? as i64),
        [b'-', offset @ ..] => Some(-(read_offset(offset)? as i64)),
        _ => None,
    }
}

/// Returns the seconds of HH:MM, which is all of the text.
#[tactic(auto, unfolding(crate::specs::Stamp::offset_at))]
fn read_offset(text: &[u8]) -> Option<u32>
    ensures exact { result ≡ offset_at text.now }
    ensures below { IfSome result (λ n. n < 86400) }
{
    let (hours, text) = read_two(text)?;
    let text = skip_mark(text, Some(b':'))?;
    let (minutes, text) = read_two(text)?;
    if hours < 24 && minutes < 60 && text.is_empty() {
        Some(hours as u32 * 3600 + minutes as u32 * 60)
    } else {
        None
    }
}

/// Returns the second that is this number of seconds before the moment.
fn second_before(moment: Moment, offset: i64) -> Option<i64>
    requires digits { IsDecimal moment }
    requires day { IsWithin 86400 offset }
    ensures real { IsSome result ↔ IsReal moment }
    ensures value { IfSome result (λ s. s ≡ (second_of moment -ℤ offset)) }
{
    match second_at(moment) {
        None => None,
        Some(second) => Some(second - offset),
    }
}
