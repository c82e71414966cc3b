//! Decimal digits at the front of a text.

ghost use Rattle.std.specs.Prelude.{◌≡◌, ◌<◌, option_map, IfSome};
ghost use Rattle.sig_der.specs.Digits.{two_at, four_at, skip, day_at, clock_at};

/// Returns the number of the four digits at the front, and what follows them.
#[tactic(auto, unfolding(crate::specs::Digits::four_at))]
pub(crate) fn read_four(text: &[u8]) -> Option<(u16, &[u8])>
    ensures exact { option_map (λ x. (x.0, x.1.now)) result ≡ four_at text.now }
    ensures below { IfSome result (λ x. x.0 < 10000) }
{
    let (high, rest) = read_two(text)?;
    let (low, rest) = read_two(rest)?;
    Some((high as u16 * 100 + low as u16, rest))
}

/// Returns the number of the two digits at the front, and what follows them.
#[tactic(auto, unfolding(crate::specs::Digits::two_at))]
pub(crate) fn read_two(text: &[u8]) -> Option<(u8, &[u8])>
    ensures exact { option_map (λ x. (x.0, x.1.now)) result ≡ two_at text.now }
    ensures below { IfSome result (λ x. x.0 < 100) }
{
    match text {
        [tens @ b'0'..=b'9', ones @ b'0'..=b'9', rest @ ..] => Some((
            (*tens - b'0') * 10 + (*ones - b'0'),
            rest,
        )),
        _ => None,
    }
}

/// Reads month and day with the mark between them, and what follows.
#[tactic(auto, unfolding(crate::specs::Digits::day_at))]
pub(crate) fn read_day(text: &[u8], mark: Option<u8>) -> Option<((u8, u8), &[u8])>
    ensures exact { option_map (λ x. (x.0, x.1.now)) result ≡ day_at mark text.now }
    ensures months { IfSome result (λ x. x.0.0 < 100) }
    ensures days { IfSome result (λ x. x.0.1 < 100) }
{
    let (month, rest) = read_two(text)?;
    let rest = skip_mark(rest, mark)?;
    let (day, rest) = read_two(rest)?;
    Some(((month, day), rest))
}

/// Returns what follows the mark, or the whole text if no mark is wanted.
#[tactic(auto, unfolding(crate::specs::Digits::skip))]
pub(crate) fn skip_mark(text: &[u8], mark: Option<u8>) -> Option<&[u8]>
    ensures { option_map (λ x. x.now) result ≡ skip mark text.now }
{
    let Some(mark) = mark else {
        return Some(text);
    };
    match text {
        [first, rest @ ..] if *first == mark => Some(rest),
        _ => None,
    }
}

/// Reads hour, minute and second with the mark between them, and what follows.
#[tactic(auto, unfolding(crate::specs::Digits::clock_at))]
pub(crate) fn read_clock(text: &[u8], mark: Option<u8>) -> Option<((u8, u8, u8), &[u8])>
    ensures exact { option_map (λ x. (x.0, x.1.now)) result ≡ clock_at mark text.now }
    ensures hours { IfSome result (λ x. x.0.0 < 100) }
    ensures minutes { IfSome result (λ x. x.0.1 < 100) }
    ensures seconds { IfSome result (λ x. x.0.2 < 100) }
{
    let (hour, rest) = read_two(text)?;
    let rest = skip_mark(rest, mark)?;
    let (minute, rest) = read_two(rest)?;
    let rest = skip_mark(rest, mark)?;
    let (second, rest) = read_two(rest)?;
    Some(((hour, minute, second), rest))
}
